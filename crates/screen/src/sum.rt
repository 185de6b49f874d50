// Values of sums, from rows. A row's last part ends just before it, and the part before that where the last one begins.
ghost use Rattle.std.specs.Prelude.{◌≡◌, ◌+◌, ◌-◌, ◌^◌, ◌<◌, length, pos, slice_index_or, unsigned_abs};
ghost use Rattle.std.specs.Int.{IsNonNegative};
ghost use Rattle.arith.specs.Operators.{worked};
ghost use Rattle.tables.specs.Trees.{Sum as SumTree};
ghost use Rattle.tables.specs.Rows.{blank};
ghost use Rattle.screen.specs.Parts.{SumAt};
ghost use Rattle.screen.specs.Values.{out_of, operator_at};
ghost use Rattle.screen.specs.Works.{after, step as step_of, sum_work};

use crate::halt::Stop;
use crate::work::Work;
use arith::Operator;
use tables::Kind;

impl Work<'_> {
    // The value of the sum that ends at `end`, and the steps so far.
    pub(crate) fn sum(&self, end: usize, points: &[i32], spent: u64) -> Result<(i32, u64), Stop>
        requires tree { (t : SumTree) × SumAt self.now.rows.now end (length points.now) t }
        requires small { spent + (slice_index_or self.now.rows.now (end - 1) blank).size < 2 ^ 48 }
        ensures { (t : SumTree) → SumAt self.now.rows.now end (length points.now) t → out_of result ≡ after spent (sum_work t points.now) }
    {
        let row = self.rows[end - 1];
        match row.kind {
            Kind::Number => Ok((row.value, spent + 1)),
            Kind::Name => Ok((read(points, row.value), spent + 1)),
            _ => {
                let (left, before) = self.sum(self.start_of(end - 1), points, spent)?;
                let (right, both) = self.sum(end - 1, points, before)?;
                apply(operator_of(row.kind), left, right, row.place, both)
            }
        }
    }
}

// The number at a name row's point.
fn read(points: &[i32], point: i32) -> i32
    requires known { IsNonNegative point }
    requires below { unsigned_abs point < length points.now }
    ensures { result ≡ slice_index_or points.now (unsigned_abs point) (pos 0) }
{
    points[point as usize]
}

// An operator's own step.
fn apply(
    operator: Operator,
    left: i32,
    right: i32,
    place: u16,
    spent: u64,
) -> Result<(i32, u64), Stop>
    requires { spent < 2 ^ 48 }
    ensures { out_of result ≡ after spent (step_of place (worked operator left right)) }
{
    match operator.apply(left, right) {
        Ok(value) => Ok((value, spent + 1)),
        Err(cause) => Err(Stop {
            cause,
            place,
            spent: spent + 1,
        }),
    }
}

// A sum's row that is neither a number nor a name has an operator.
fn operator_of(kind: Kind) -> Operator
    ensures { result ≡ operator_at kind }
{
    kind.operator().unwrap_or(Operator::Div)
}
