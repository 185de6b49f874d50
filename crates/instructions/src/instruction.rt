// One instruction of stack code with its operand.
ghost use Rattle.std.specs.Prelude.{◌≡◌, Some};
ghost use Rattle.instructions.specs.Codes.{code_of};
ghost use Rattle.instructions.specs.Effects.{effect_of};
ghost use Rattle.instructions.specs.Words.{instruction_words};

use crate::effect::{Effect, effect_at};
use arith::Comparison;
use std::fmt;

// Points and addresses are as wide as 64 points and 1,024 instructions need.
#[derive(Clone, Copy, PartialEq, Eq, Debug)]
pub enum Instruction {
    Push(i32),
    Load(u8),
    Save(u8),
    Pop,
    Add,
    Sub,
    Mul,
    Div,
    Cmp(Comparison),
    Inv,
    And,
    Or,
    JumpF(u16),
    Jump(u16),
}

impl Instruction {
    // The number by which a station file names it. It is half of an instruction, so this is no conversion.
    pub fn code(self) -> u8
        ensures { result ≡ code_of self }
    {
        match self {
            Instruction::Push(_) => 0,
            Instruction::Load(_) => 1,
            Instruction::Save(_) => 2,
            Instruction::Pop => 3,
            Instruction::Add => 4,
            Instruction::Sub => 5,
            Instruction::Mul => 6,
            Instruction::Div => 7,
            Instruction::Cmp(_) => 8,
            Instruction::Inv => 9,
            Instruction::And => 10,
            Instruction::Or => 11,
            Instruction::JumpF(_) => 12,
            Instruction::Jump(_) => 13,
        }
    }

    // How many values it takes from the stack and how many it leaves.
    pub fn effect(self) -> Effect
        ensures { result ≡ effect_of self }
    {
        effect_at(self.code())
    }
}

// The instruction's name, and its operand where it has one.
impl fmt::Display for Instruction {
    ghost output = { λ i. Some (instruction_words i) };

    fn fmt<W: fmt::Write>(&self, f: &mut fmt::Formatter<W>) -> fmt::Result {
        match *self {
            Instruction::Push(number) => write!(f, "Push {number}"),
            Instruction::Load(point) => write!(f, "Load {point}"),
            Instruction::Save(point) => write!(f, "Save {point}"),
            Instruction::Pop => write!(f, "Pop"),
            Instruction::Add => write!(f, "Add"),
            Instruction::Sub => write!(f, "Sub"),
            Instruction::Mul => write!(f, "Mul"),
            Instruction::Div => write!(f, "Div"),
            Instruction::Cmp(comparison) => write!(f, "Cmp {comparison}"),
            Instruction::Inv => write!(f, "Inv"),
            Instruction::And => write!(f, "And"),
            Instruction::Or => write!(f, "Or"),
            Instruction::JumpF(address) => write!(f, "JumpF {address}"),
            Instruction::Jump(address) => write!(f, "Jump {address}"),
        }
    }
}
