// An instruction's operand, to the number that a file has for it and back.
ghost use Rattle.std.specs.Prelude.{◌≡◌};
ghost use Rattle.station_file.specs.Layout.{operand_of};
ghost use Rattle.station_file.specs.Rules.{allowed, Held};
ghost use Rattle.station_file.specs.Operands.{decoded};

use crate::counts::Counts;
use arith::Comparison;
use instructions::Instruction;

pub(crate) fn operand_of(instruction: Instruction) -> u32
    ensures { result ≡ operand_of instruction }
{
    match instruction {
        Instruction::Push(number) => number.cast_unsigned(),
        Instruction::Load(point) | Instruction::Save(point) => u32::from(point),
        Instruction::Cmp(comparison) => u32::from(u8::from(comparison)),
        Instruction::JumpF(address) | Instruction::Jump(address) => u32::from(address),
        _ => 0,
    }
}

// Whether it may stand in a file with so many points and so many instructions.
pub(crate) fn is_allowed(instruction: Instruction, points: usize, count: usize) -> bool
    ensures value { result ≡ allowed points count instruction }
    ensures held { Held instruction }
{
    match instruction {
        Instruction::Load(point) | Instruction::Save(point) => usize::from(point) < points,
        Instruction::JumpF(address) | Instruction::Jump(address) => usize::from(address) <= count,
        _ => true,
    }
}

// The instruction of a code byte and an operand, if there is one that the file allows.
pub(crate) fn decode(code: u8, operand: u32, counts: Counts) -> Option<Instruction>
    ensures { result ≡ decoded counts.points counts.instructions code operand }
{
    let Counts {
        points,
        instructions,
    } = counts;
    instruction_of(code, operand).filter(|found| is_allowed(*found, points, instructions))
}

// Any byte is a point here, and any number of two bytes an address. A file's numbers turn into instructions here alone, so
// a match is as plain as a conversion would be, which has to take the two together.
fn instruction_of(code: u8, operand: u32) -> Option<Instruction>
    ensures { result ≡ decoded 256 65535 code operand }
{
    Some(match code {
        0 => Instruction::Push(operand.cast_signed()),
        1 => Instruction::Load(u8::try_from(operand).ok()?),
        2 => Instruction::Save(u8::try_from(operand).ok()?),
        8 => Instruction::Cmp(Comparison::try_from(operand).ok()?),
        12 => Instruction::JumpF(u16::try_from(operand).ok()?),
        13 => Instruction::Jump(u16::try_from(operand).ok()?),
        // the others have no operand, and a 0 there
        _ if operand != 0 => return None,
        3 => Instruction::Pop,
        4 => Instruction::Add,
        5 => Instruction::Sub,
        6 => Instruction::Mul,
        7 => Instruction::Div,
        9 => Instruction::Inv,
        10 => Instruction::And,
        11 => Instruction::Or,
        _ => return None,
    })
}
