// The screen's one call.
ghost use Rattle.std.specs.Prelude.{◌≡◌, ◌≤◌, length, take};
ghost use Rattle.screen.specs.Equations.{StateModel};
ghost use Rattle.screen.specs.Laws.{Answers, StopsByNumber};
ghost use Rattle.screen.specs.Screens.{worked_out, settled, spent_of};
ghost use Rattle.screen.specs.Within.{Within};

use crate::answer::Outcome;
use crate::halt::Halt;
use crate::work::Work;
use faults::{Fault, Layer, RunCause};
use tables::{Row, Table};

const MOST_POINTS: usize = 64;

// Works the sheet out that the rows are the table of, begun at these points, and leaves the points it ends with. The
// points stay as they were where it is refused, stops, or costs more than the allowance.
pub fn work_out(rows: &[Row], points: &mut [i32], allowance: u32) -> Result<Outcome, Fault>
    ensures value { (result, points.new) ≡ worked_out rows.now points.old allowance }
    ensures answers { Answers rows.now points.old allowance result points.new }
    ensures number { StopsByNumber }
    ensures equations { StateModel }
{
    Table::check(rows, points.len())?;
    let before = copied(points);
    let work = Work { rows, allowance };
    let run = work.sheet(rows.len(), points, 0);
    settle(run, points, &before, allowance)
}

// The one copy of the points that a call makes, in an array of the most there can be: there is no heap.
fn copied(points: &[i32]) -> [i32; MOST_POINTS]
    requires { length points.now ≤ 64 }
    ensures { take (length points.now) result ≡ points.now }
{
    let mut copy = [0; MOST_POINTS];
    copy[0..points.len()].copy_from_slice(points);
    copy
}

// The answer to a run, and the points before it again where it did not end.
fn settle(
    run: Result<u32, Halt>,
    points: &mut [i32],
    before: &[i32; MOST_POINTS],
    allowance: u32,
) -> Result<Outcome, Fault>
    requires few { length points.old ≤ 64 }
    requires within { Within run allowance }
    ensures { (result, points.new) ≡ settled run points.old (take (length points.old) before.now) allowance }
{
    match run {
        Ok(cost) => Ok(Outcome { stop: None, cost }),
        Err(halt) => {
            points.copy_from_slice(&before[0..points.len()]);
            match halt {
                Halt::Stopped(stop) => Ok(Outcome {
                    stop: Some(Fault::from(stop)),
                    cost: stop.spent as u32,
                }),
                Halt::Spent => Err(too_dear(allowance)),
            }
        }
    }
}

fn too_dear(allowance: u32) -> Fault
    ensures { result ≡ spent_of allowance }
{
    Fault::new(Layer::Run(RunCause::AllowanceSpent), allowance as usize)
}
