// What a table can be worked out in: a kind of value, and the value of each row from its parts' values.
ghost use Rattle.std.specs.Prelude.{◌≡◌};
ghost use Rattle.tables.specs.Values.{Sums, Rest};
ghost use Rattle.folds.specs.Nodes.{node_value};

use crate::node::Node;
use tables::Row;

pub trait Algebra {
    type Value: Copy;

    // For each kind of row its function; those of sums stand apart, since a sum needs no others.
    ghost sums: { Sums Self.Value };

    ghost rest: { Rest Self.Value };

    // It asks nothing of its caller, so whatever row and values come up, it has an answer.
    fn value(&self, row: Row, node: Node<Self::Value>) -> Self::Value
        ensures { result ≡ node_value sums rest row node };
}
