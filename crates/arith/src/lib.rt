// Signed 32-bit arithmetic: the one leaf that the screen and the station share, so that no number can come out
// differently on the two.
#![tactic(auto)]

mod comparison;
mod operator;

pub use comparison::{Comparison, NoComparison};
pub use operator::Operator;

#[cfg(test)]
mod tests;
