// How deep the stack becomes when a table's code runs.
ghost use Rattle.std.specs.Prelude.{◌≡◌};
ghost use Rattle.folds.specs.Nodes.{node_value};
ghost use Rattle.folds.specs.StackDepths.{depth_sums, depth_rest, sheet_depth};
ghost use Rattle.folds.specs.ExactDepths.{exact_depths};

use crate::algebra::Algebra;
use crate::measure::Measure;
use crate::node::Node;
use tables::Row;

// Depths stop at the largest number, which no table's depth comes near.
#[derive(Clone, Copy)]
pub struct StackDepth;

impl Algebra for StackDepth {
    type Value = u32;

    ghost sums = { depth_sums };

    ghost rest = { depth_rest };

    fn value(&self, _row: Row, node: Node<u32>) -> u32
        ensures { result ≡ node_value depth_sums depth_rest _row node }
    {
        // The right part of a sum or a condition is worked out above the left one's value.
        match node {
            Node::Number | Node::Name | Node::Truth => 1,
            Node::Add(left, right)
            | Node::Sub(left, right)
            | Node::Mul(left, right)
            | Node::Div(left, right)
            | Node::Compare(left, right)
            | Node::And(left, right)
            | Node::Or(left, right) => left.max(right.saturating_add(1)),
            Node::Not(part) | Node::Set(part) => part,
            Node::If(first, second) | Node::While(first, second) | Node::Joint(first, second) => {
                first.max(second)
            }
            Node::IfElse(condition, first, second) => condition.max(first.max(second)),
        }
    }
}

impl Measure for StackDepth {
    ghost of_sheet = { sheet_depth };

    ghost exact = { exact_depths };
}
