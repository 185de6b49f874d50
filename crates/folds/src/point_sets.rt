// Which points a table uses, as 64 bits: bit p for point p.
ghost use Rattle.std.specs.Prelude.{◌≡◌};
ghost use Rattle.folds.specs.Nodes.{node_value};
ghost use Rattle.folds.specs.PointSets.{bit_of, point_sums, point_rest, sheet_points};
ghost use Rattle.folds.specs.ExactPoints.{exact_points};

use crate::algebra::Algebra;
use crate::measure::Measure;
use crate::node::Node;
use tables::Row;

#[derive(Clone, Copy)]
pub struct PointsUsed;

impl Algebra for PointsUsed {
    type Value = u64;

    ghost sums = { point_sums };

    ghost rest = { point_rest };

    fn value(&self, row: Row, node: Node<u64>) -> u64
        ensures { result ≡ node_value point_sums point_rest row node }
    {
        match node {
            Node::Number | Node::Truth => 0,
            Node::Name => bit_of(row.value),
            Node::Add(left, right)
            | Node::Sub(left, right)
            | Node::Mul(left, right)
            | Node::Div(left, right)
            | Node::Compare(left, right)
            | Node::And(left, right)
            | Node::Or(left, right)
            | Node::If(left, right)
            | Node::While(left, right)
            | Node::Joint(left, right) => left | right,
            Node::Not(condition) => condition,
            Node::Set(sum) => sum | bit_of(row.value),
            Node::IfElse(condition, first, second) => condition | first | second,
        }
    }
}

impl Measure for PointsUsed {
    ghost of_sheet = { sheet_points };

    ghost exact = { exact_points };
}

// A value that is no point below 64 has no bit.
fn bit_of(value: i32) -> u64
    ensures { result ≡ bit_of value }
{
    if (0..64).contains(&value) {
        1 << value
    } else {
        0
    }
}
