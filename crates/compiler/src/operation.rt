// The instruction of a row of sums or conditions.
ghost use Rattle.std.specs.Prelude.{◌≡◌};
ghost use Rattle.compiler.specs.Parts.{point_of, operation};

use arith::Comparison;
use instructions::Instruction;
use tables::{Kind, Row};

pub(crate) fn instruction_of(row: Row) -> Instruction
    ensures { result ≡ operation row.kind row.value }
{
    match row.kind {
        Kind::Number | Kind::Truth => Instruction::Push(row.value),
        Kind::Name => Instruction::Load(point_of(row)),
        Kind::Add => Instruction::Add,
        Kind::Sub => Instruction::Sub,
        Kind::Mul => Instruction::Mul,
        Kind::Div => Instruction::Div,
        Kind::Compare => Instruction::Cmp(row.comparison().unwrap_or(Comparison::NotEqual)),
        Kind::Not => Instruction::Inv,
        Kind::And => Instruction::And,
        Kind::Or => Instruction::Or,
        _ => Instruction::Pop,
    }
}

// A table over at most 64 points has no other value here.
pub(crate) fn point_of(row: Row) -> u8
    ensures { result ≡ point_of row.value }
{
    match u8::try_from(row.value) {
        Ok(point) if point < 64 => point,
        _ => 0,
    }
}
