// How many instructions a table's code has.
ghost use Rattle.std.specs.Prelude.{◌≡◌};
ghost use Rattle.folds.specs.Nodes.{node_value};
ghost use Rattle.folds.specs.CodeLengths.{length_sums, length_rest, sheet_length};
ghost use Rattle.folds.specs.ExactLengths.{exact_lengths};

use crate::algebra::Algebra;
use crate::measure::Measure;
use crate::node::Node;
use tables::Row;

// Counts stop at the largest number, which no table's length comes near.
#[derive(Clone, Copy)]
pub struct CodeLength;

impl Algebra for CodeLength {
    type Value = u32;

    ghost sums = { length_sums };

    ghost rest = { length_rest };

    fn value(&self, _row: Row, node: Node<u32>) -> u32
        ensures { result ≡ node_value length_sums length_rest _row node }
    {
        match node {
            Node::Number | Node::Name | Node::Truth => 1,
            Node::Add(left, right)
            | Node::Sub(left, right)
            | Node::Mul(left, right)
            | Node::Div(left, right)
            | Node::Compare(left, right)
            | Node::And(left, right)
            | Node::Or(left, right) => left.saturating_add(right).saturating_add(1),
            Node::Not(condition) => condition.saturating_add(1),
            Node::Set(sum) => sum.saturating_add(2),
            Node::If(condition, body) => condition.saturating_add(body).saturating_add(1),
            Node::IfElse(condition, first, second) => condition
                .saturating_add(first)
                .saturating_add(2)
                .saturating_add(second),
            Node::While(condition, body) => condition.saturating_add(body).saturating_add(2),
            Node::Joint(command, after) => command.saturating_add(after),
        }
    }
}

impl Measure for CodeLength {
    ghost of_sheet = { sheet_length };

    ghost exact = { exact_lengths };
}
