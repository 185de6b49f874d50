// What sort of thing each kind of row is, and of what sorts its parts are: the grammar of a table.
ghost use Rattle.std.specs.Prelude.{◌≡◌};
ghost use Rattle.tables.specs.Sorts.{sort_of, parts_of, serves_as, count_of, part_count};

use crate::kind::Kind;

#[derive(Clone, Copy, PartialEq, Eq, Debug)]
pub enum Sort {
    Sum,
    Condition,
    Command,
    Sheet,
}

// The sorts of a row's parts, left part first.
#[derive(Clone, Copy, PartialEq, Eq, Debug)]
pub enum Parts {
    Zero,
    One(Sort),
    Two(Sort, Sort),
    Three(Sort, Sort, Sort),
}

impl Sort {
    // One command is a sheet too; otherwise only the sort itself serves.
    pub(crate) fn serves_as(self, wanted: Sort) -> bool
        ensures { result ≡ serves_as self wanted }
    {
        self == wanted || (self == Sort::Command && wanted == Sort::Sheet)
    }
}

impl Parts {
    fn count(self) -> usize
        ensures { result ≡ count_of self }
    {
        match self {
            Parts::Zero => 0,
            Parts::One(..) => 1,
            Parts::Two(..) => 2,
            Parts::Three(..) => 3,
        }
    }
}

impl Kind {
    pub(crate) fn sort(self) -> Sort
        ensures { result ≡ sort_of self }
    {
        match self {
            Kind::Number | Kind::Name | Kind::Add | Kind::Sub | Kind::Mul | Kind::Div => Sort::Sum,
            Kind::Truth | Kind::Compare | Kind::Not | Kind::And | Kind::Or => Sort::Condition,
            Kind::Set | Kind::If | Kind::IfElse | Kind::While => Sort::Command,
            Kind::Joint => Sort::Sheet,
        }
    }

    pub(crate) fn parts(self) -> Parts
        ensures { result ≡ parts_of self }
    {
        match self {
            Kind::Number | Kind::Name | Kind::Truth => Parts::Zero,
            Kind::Add | Kind::Sub | Kind::Mul | Kind::Div | Kind::Compare => Parts::Two(
                Sort::Sum,
                Sort::Sum,
            ),
            Kind::Not => Parts::One(Sort::Condition),
            Kind::And | Kind::Or => Parts::Two(Sort::Condition, Sort::Condition),
            Kind::Set => Parts::One(Sort::Sum),
            Kind::If | Kind::While => Parts::Two(Sort::Condition, Sort::Sheet),
            Kind::IfElse => Parts::Three(Sort::Condition, Sort::Sheet, Sort::Sheet),
            Kind::Joint => Parts::Two(Sort::Command, Sort::Sheet),
        }
    }

    // How many parts a row has.
    pub fn part_count(self) -> usize
        ensures { result ≡ part_count self }
    {
        self.parts().count()
    }
}
