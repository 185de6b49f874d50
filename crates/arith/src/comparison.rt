// The six comparisons of conditions.
ghost use Rattle.std.specs.Prelude.{◌≡◌, Some};
ghost use Rattle.arith.specs.Comparisons.{holds, comparison_number, comparison_at, comparison_named, Numbers, Named, sign_of, no_comparison_words};

use std::error::Error;
use std::fmt;

#[derive(Clone, Copy, PartialEq, Eq, Debug)]
pub enum Comparison {
    Less,
    LessOrEqual,
    Greater,
    GreaterOrEqual,
    Equal,
    NotEqual,
}

impl Comparison {
    // Left against right, in that order.
    pub fn holds(self, left: i32, right: i32) -> bool
        ensures { result ≡ holds self left right }
    {
        match self {
            Comparison::Less => left < right,
            Comparison::LessOrEqual => left <= right,
            Comparison::Greater => left > right,
            Comparison::GreaterOrEqual => left >= right,
            Comparison::Equal => left == right,
            Comparison::NotEqual => left != right,
        }
    }
}

// The number by which rows and instructions name it.
impl From<Comparison> for u8 {
    ghost from_gives = { Numbers };

    fn from(comparison: Comparison) -> u8
        ensures value { result ≡ comparison_number comparison }
        ensures back { comparison_at result ≡ Some comparison }
        ensures both { Numbers comparison result }
    {
        match comparison {
            Comparison::Less => 0,
            Comparison::LessOrEqual => 1,
            Comparison::Greater => 2,
            Comparison::GreaterOrEqual => 3,
            Comparison::Equal => 4,
            Comparison::NotEqual => 5,
        }
    }
}

// A number that names no comparison.
#[derive(Clone, Copy, PartialEq, Eq, Debug)]
pub struct NoComparison {
    pub number: u32,
}

impl TryFrom<u32> for Comparison {
    type Error = NoComparison;

    ghost try_from_gives = { Named };

    fn try_from(number: u32) -> Result<Comparison, NoComparison>
        ensures { result ≡ comparison_named number }
    {
        match number {
            0 => Ok(Comparison::Less),
            1 => Ok(Comparison::LessOrEqual),
            2 => Ok(Comparison::Greater),
            3 => Ok(Comparison::GreaterOrEqual),
            4 => Ok(Comparison::Equal),
            5 => Ok(Comparison::NotEqual),
            _ => Err(NoComparison { number }),
        }
    }
}

// As it stands in a sheet.
impl fmt::Display for Comparison {
    ghost output = { λ c. Some (sign_of c) };

    fn fmt<W: fmt::Write>(&self, f: &mut fmt::Formatter<W>) -> fmt::Result {
        f.pad(match self {
            Comparison::Less => "<",
            Comparison::LessOrEqual => "<=",
            Comparison::Greater => ">",
            Comparison::GreaterOrEqual => ">=",
            Comparison::Equal => "==",
            Comparison::NotEqual => "!=",
        })
    }
}

impl fmt::Display for NoComparison {
    ghost output = { λ n. Some (no_comparison_words n) };

    fn fmt<W: fmt::Write>(&self, f: &mut fmt::Formatter<W>) -> fmt::Result {
        let number = self.number;
        write!(f, "no comparison has the number {number}")
    }
}

impl Error for NoComparison {}
