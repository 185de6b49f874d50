// Measuring a node's tree, from its parts.
ghost use Rattle.std.specs.Prelude.{◌≡◌, ◌≤◌, length};
ghost use Rattle.compiler.specs.Parts.{IsPart, Part, Stands};

use crate::measure::Measure;
use crate::node::Node;
use crate::shape::Shape;
use tables::Row;

#[cycle(measure)]
#[inline(always)]
pub(crate) fn measure(node: Node<'_>) -> Measure
    ensures { (v : Part) → Stands node.entry.rows.now node.entry.end v → result ≡ v.measure }
{
    measure_before(node.rows, node.end)
}

// The recursion passes a node's two fields by themselves, as `Code::lay_before` does.
#[cycle(measure)]
#[tactic(auto, using(crate::proofs::Parting::some_row))]
fn measure_before(rows: &[Row], end: usize) -> Measure
    requires stands { IsPart rows.now end }
    requires few { length rows.now ≤ 2048 }
    ensures { (v : Part) → Stands rows.now end v → result ≡ v.measure }
{
    let node = Node { rows, end };
    let row = node.row();
    let shape = Shape::from(row.kind);
    match shape {
        Shape::Leaf => Measure::leaf(),
        Shape::Not | Shape::Set => measure(node.last()).under(shape, row.place),
        // Only where both parts are values is the second worked out above the first one's.
        Shape::Pair => {
            let (left, right) = node.two();
            let (left, right) = (measure(left), measure(right));
            let parts = left.then(right.above());
            parts.under(shape, row.place)
        }
        Shape::If | Shape::While | Shape::Joint => {
            let (first, second) = node.two();
            let parts = measure(first).then(measure(second));
            parts.under(shape, row.place)
        }
        Shape::IfElse => {
            let (first, second, third) = node.three();
            let parts = measure(first).then(measure(second)).then(measure(third));
            parts.under(shape, row.place)
        }
    }
}
