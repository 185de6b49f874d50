// Whether a section is right; if not, where it is wrong.
ghost use Rattle.std.specs.Prelude.{◌≡◌, ◌≤◌, length, OnOk};
ghost use Rattle.std.specs.Result.{result_err};
ghost use Rattle.station_file.specs.Rules.{RightCode};
ghost use Rattle.station_file.specs.Writing.{first_wrong, wrong_code, wrong_places};

use crate::operand::is_allowed;
use crate::{MOST_INSTRUCTIONS, MOST_POINTS};
use instructions::Instruction;

pub(crate) fn right_code(points: usize, instructions: &[Instruction]) -> Result<(), usize>
    ensures value { result_err result ≡ wrong_code points instructions.now }
    ensures few { OnOk result ((points ≤ 64) × (length instructions.now ≤ 1024)) }
    ensures right { OnOk result (RightCode points instructions.now) }
{
    if (1..=MOST_POINTS).contains(&points) && !instructions.is_empty() {
        right_instructions(points, instructions)
    } else {
        Err(0)
    }
}

fn right_instructions(points: usize, instructions: &[Instruction]) -> Result<(), usize>
    ensures value { result_err result ≡ first_wrong points (length instructions.now) 0 instructions.now }
    ensures few { OnOk result (length instructions.now ≤ 1024) }
    ensures right { OnOk result (RightCode points instructions.now) }
{
    let count = instructions.len();
    // the 1,025th is one too many, whatever it is, so no later one is looked at
    let wrong = instructions
        .iter()
        .take(MOST_INSTRUCTIONS)
        .position(|instruction| !is_allowed(*instruction, points, count));
    let right = wrong.unwrap_or(count).min(MOST_INSTRUCTIONS);
    if right < count { Err(right) } else { Ok(()) }
}

pub(crate) fn right_places(count: usize, given: usize) -> Result<(), usize>
    ensures { result_err result ≡ wrong_places count given }
{
    if given == count {
        Ok(())
    } else {
        Err(given.min(count))
    }
}
