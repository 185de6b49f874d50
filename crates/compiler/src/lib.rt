// Stack code from a table.
#![tactic(auto)]

mod compiling;
mod lay;
mod measure;
mod measuring;
mod node;
mod operation;
mod refusal;
mod shape;

pub use compiling::compile;
pub use measure::MOST_DEPTH;
pub use refusal::MOST_INSTRUCTIONS;

#[cfg(test)]
mod tests;
