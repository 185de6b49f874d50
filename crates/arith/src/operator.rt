// The four operators of sums.
ghost use Rattle.std.specs.Prelude.{◌≡◌};
ghost use Rattle.arith.specs.Operators.{worked};

use faults::RunCause;

#[derive(Clone, Copy, PartialEq, Eq, Debug)]
pub enum Operator {
    Add,
    Sub,
    Mul,
    Div,
}

impl Operator {
    // A value, or the cause for which a run stops: the same for all four, so that whoever works a sum out never
    // asks which operator can stop.
    pub fn apply(self, left: i32, right: i32) -> Result<i32, RunCause>
        ensures { result ≡ worked self left right }
    {
        match self {
            Operator::Add => Ok(left.wrapping_add(right)),
            Operator::Sub => Ok(left.wrapping_sub(right)),
            Operator::Mul => Ok(left.wrapping_mul(right)),
            Operator::Div => divide(left, right),
        }
    }
}

// Toward zero. The one quotient that leaves 32 bits is the least number by -1, so -1 is treated apart: there the
// quotient is the negative, and the negative of the least number wraps to itself.
fn divide(left: i32, right: i32) -> Result<i32, RunCause>
    ensures { result ≡ worked Operator.Div left right }
{
    if right == 0 {
        Err(RunCause::ZeroDivisor)
    } else if right == -1 {
        Ok(left.wrapping_neg())
    } else {
        Ok(left / right)
    }
}
