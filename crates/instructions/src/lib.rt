// The station's instructions, with what each takes from the stack and leaves on it.
#![tactic(auto)]

mod effect;
mod instruction;

pub use effect::Effect;
pub use instruction::Instruction;

#[cfg(test)]
mod tests;
