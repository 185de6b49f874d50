// Working a table out in any algebra, in one pass over its rows and in memory that the caller lends.
#![tactic(auto)]

mod algebra;
mod depths;
mod folding;
mod lengths;
mod measure;
mod node;
mod point_sets;
mod stack;

pub use algebra::Algebra;
pub use depths::StackDepth;
pub use folding::fold;
pub use lengths::CodeLength;
pub use measure::Measure;
pub use node::Node;
pub use point_sets::PointsUsed;

#[cfg(test)]
mod tests;
