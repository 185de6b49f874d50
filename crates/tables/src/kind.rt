// The sixteen kinds of rows.
ghost use Rattle.std.specs.Prelude.{◌≡◌, Some};
ghost use Rattle.tables.specs.Rows.{operator_kind};
ghost use Rattle.tables.specs.Kinds.{IsKindOf, operator_in, kind_word};

use arith::Operator;
use std::fmt;

// Their order is the list's own: it numbers the kinds from 0.
#[derive(Clone, Copy, PartialEq, Eq, Debug)]
pub enum Kind {
    Number,
    Name,
    Add,
    Sub,
    Mul,
    Div,
    Truth,
    Compare,
    Not,
    And,
    Or,
    Set,
    If,
    IfElse,
    While,
    Joint,
}

impl From<Operator> for Kind {
    ghost from_gives = { IsKindOf };

    fn from(operator: Operator) -> Kind
        ensures { result ≡ operator_kind operator }
    {
        match operator {
            Operator::Add => Kind::Add,
            Operator::Sub => Kind::Sub,
            Operator::Mul => Kind::Mul,
            Operator::Div => Kind::Div,
        }
    }
}

impl Kind {
    // The operator of a row of this kind, where it has one.
    pub fn operator(self) -> Option<Operator>
        ensures { result ≡ operator_in self }
    {
        match self {
            Kind::Add => Some(Operator::Add),
            Kind::Sub => Some(Operator::Sub),
            Kind::Mul => Some(Operator::Mul),
            Kind::Div => Some(Operator::Div),
            _ => None,
        }
    }
}

impl fmt::Display for Kind {
    ghost output = { λ k. Some (kind_word k) };

    fn fmt<W: fmt::Write>(&self, f: &mut fmt::Formatter<W>) -> fmt::Result {
        f.pad(match self {
            Kind::Number => "number",
            Kind::Name => "name",
            Kind::Add => "add",
            Kind::Sub => "sub",
            Kind::Mul => "mul",
            Kind::Div => "div",
            Kind::Truth => "truth",
            Kind::Compare => "compare",
            Kind::Not => "not",
            Kind::And => "and",
            Kind::Or => "or",
            Kind::Set => "set",
            Kind::If => "if",
            Kind::IfElse => "if-else",
            Kind::While => "while",
            Kind::Joint => "joint",
        })
    }
}
