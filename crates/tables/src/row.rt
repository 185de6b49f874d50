// One row of a table.
ghost use Rattle.std.specs.Prelude.{◌≡◌};
ghost use Rattle.tables.specs.Rows.{blank};
ghost use Rattle.tables.specs.Kinds.{comparison_in};

use crate::kind::Kind;
use arith::Comparison;

// The size counts the row and its parts' rows; the place is where the row's sign stands in the sheet.
#[derive(Clone, Copy, PartialEq, Eq, Debug)]
pub struct Row {
    pub kind: Kind,
    pub value: i32,
    pub size: u16,
    pub place: u16,
}

impl Row {
    // What slots after a table hold.
    pub fn blank() -> Row
        ensures { result ≡ blank }
    {
        Row {
            kind: Kind::Number,
            value: 0,
            size: 0,
            place: 0,
        }
    }

    // The comparison that its value names, where it names one.
    pub fn comparison(self) -> Option<Comparison>
        ensures { result ≡ comparison_in self.value }
    {
        let number = u32::try_from(self.value).ok()?;
        Comparison::try_from(number).ok()
    }
}
