// The command that sets a point.
ghost use Rattle.std.specs.Prelude.{ℕ, length};
ghost use Rattle.tables.specs.Trees.{Sum as SumTree, set as setOf, only};
ghost use Rattle.screen.specs.Parts.{SheetAt};
ghost use Rattle.screen.specs.Runs.{Ran};

use crate::halt::Halt;
use crate::work::Work;

impl Work<'_> {
    pub(crate) fn assign(&self, end: usize, points: &mut [i32], before: u32) -> Result<u32, Halt>
        requires { (q : ℕ) × (x : ℕ) × (e : SumTree) × SheetAt self.now.rows.now end (length points.old) (only (setOf q x e)) }
        ensures { (q x : ℕ) (e : SumTree) → SheetAt self.now.rows.now end (length points.old) (only (setOf q x e)) → Ran points.old (only (setOf q x e)) before self.now.allowance result points.new }
    {
        // a match, as in `judge`
        match self.sum(end - 1, points, u64::from(before)) {
            Ok((value, worked)) => {
                let made = self.allow(worked + 2)?;
                points[self.rows[end - 1].value as usize] = value;
                Ok(made)
            }
            Err(stop) => Err(self.halt(stop)),
        }
    }
}
