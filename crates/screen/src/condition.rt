// Whether conditions hold, from rows. Both sides of a connective are worked out, left first.
ghost use Rattle.std.specs.Prelude.{◌≡◌, ◌+◌, ◌-◌, ◌^◌, ◌<◌, length, slice_index_or};
ghost use Rattle.tables.specs.Trees.{Condition as ConditionTree};
ghost use Rattle.tables.specs.Rows.{blank};
ghost use Rattle.screen.specs.Parts.{ConditionAt};
ghost use Rattle.screen.specs.Values.{out_of, connected_at};
ghost use Rattle.screen.specs.Works.{after, condition_work};

use crate::halt::Stop;
use crate::work::Work;
use tables::Kind;

impl Work<'_> {
    // Whether the condition holds that ends at `end`, and the steps so far.
    pub(crate) fn condition(
        &self,
        end: usize,
        points: &[i32],
        spent: u64,
    ) -> Result<(bool, u64), Stop>
        requires tree { (t : ConditionTree) × ConditionAt self.now.rows.now end (length points.now) t }
        requires small { spent + (slice_index_or self.now.rows.now (end - 1) blank).size < 2 ^ 48 }
        ensures { (t : ConditionTree) → ConditionAt self.now.rows.now end (length points.now) t → out_of result ≡ after spent (condition_work t points.now) }
    {
        let row = self.rows[end - 1];
        match row.kind {
            Kind::Truth => Ok((row.value == 1, spent + 1)),
            Kind::Compare => {
                let (left, before) = self.sum(self.start_of(end - 1), points, spent)?;
                let (right, both) = self.sum(end - 1, points, before)?;
                let holds = row.comparison().unwrap().holds(left, right);
                Ok((holds, both + 1))
            }
            Kind::Not => {
                let (part, before) = self.condition(end - 1, points, spent)?;
                Ok((!part, before + 1))
            }
            _ => {
                let (left, before) = self.condition(self.start_of(end - 1), points, spent)?;
                let (right, both) = self.condition(end - 1, points, before)?;
                Ok((connect(row.kind, left, right), both + 1))
            }
        }
    }
}

// The connective of a row that has one.
fn connect(kind: Kind, left: bool, right: bool) -> bool
    ensures { result ≡ connected_at kind left right }
{
    match kind {
        Kind::And => left && right,
        _ => left || right,
    }
}
