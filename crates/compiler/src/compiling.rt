// Compiling a table into lists that the caller lends.
ghost use Rattle.std.specs.Prelude.{◌≡◌, min, length};
ghost use Rattle.compiler.specs.Compiles.{compiled};
ghost use Rattle.compiler.specs.Laws.{LaysCode, OneCode, Takes};

use crate::lay::Code;
use crate::refusal::admit;
use faults::Fault;
use instructions::Instruction;
use tables::Row;

// The code's length. Instructions and places stand at the start of the two lists; a refusal leaves both as they were.
pub fn compile(
    rows: &[Row],
    points: usize,
    instructions: &mut [Instruction],
    places: &mut [u16],
) -> Result<usize, Fault>
    ensures value { (result, instructions.new, places.new) ≡ compiled points rows.now instructions.old places.old }
    ensures code { LaysCode rows.now result instructions.new places.new }
    ensures takes { Takes points rows.now (min (length instructions.old) (length places.old)) result }
    ensures one_code { OneCode rows.now result instructions.new }
{
    let slots = instructions.len().min(places.len());
    let sheet = admit(rows, points, slots)?;
    let mut code = Code {
        instructions,
        places,
        next: 0,
    };
    code.lay(sheet);
    Ok(code.next)
}
