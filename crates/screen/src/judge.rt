// A condition and the step after it: which way a command goes on.
ghost use Rattle.std.specs.Prelude.{length};
ghost use Rattle.tables.specs.Trees.{Condition as ConditionTree};
ghost use Rattle.screen.specs.Parts.{ConditionAt};
ghost use Rattle.screen.specs.Judging.{JudgedAs};

use crate::halt::Halt;
use crate::work::Work;

impl Work<'_> {
    // Whether the condition holds that ends at `end`, and the steps made so far, the one after it among them.
    pub(crate) fn judge(&self, end: usize, points: &[i32], before: u32) -> Result<(bool, u32), Halt>
        requires { (h : ConditionTree) × ConditionAt self.now.rows.now end (length points.now) h }
        ensures { (h : ConditionTree) → ConditionAt self.now.rows.now end (length points.now) h → JudgedAs h points.now before self.now.allowance result }
    {
        // a match, since what `map_err` gives is known by no name that a proof can cite
        match self.condition(end, points, u64::from(before)) {
            Ok((holds, tested)) => Ok((holds, self.allow(tested + 1)?)),
            Err(stop) => Err(self.halt(stop)),
        }
    }
}
