// The fold.
ghost use Rattle.std.specs.Prelude.{◌≡◌, length};
ghost use Rattle.folds.specs.Folds.{spared, fold_leaves, Folds};

use crate::algebra::Algebra;
use crate::node::Node;
use crate::stack::Stack;
use faults::{Fault, Layer, TableCause};
use tables::{MOST_ROWS, Row, Table};

pub fn fold<A: Algebra>(
    rows: &[Row],
    points: usize,
    algebra: &A,
    slots: &mut [A::Value],
) -> Result<A::Value, Fault>
    ensures value { (result, spared (length rows.now) result slots.new) ≡ fold_leaves A.Algebra.sums A.Algebra.rest points rows.now slots.old }
    ensures tree { Folds A.Algebra.sums A.Algebra.rest points rows.now (length slots.old) result }
{
    let n = rows.len();
    if n > slots.len() || n > MOST_ROWS {
        return Err(Fault::new(Layer::Table(TableCause::TooFewSlots), n));
    }
    Table::check(rows, points)?;
    let mut stack = Stack::new(slots);
    for row in rows {
        let value = algebra.value(*row, Node::on(&stack, row.kind));
        stack.replace(row.kind.part_count(), value);
    }
    Ok(stack.peek(0))
}
