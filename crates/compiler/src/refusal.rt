// What keeps a table from being compiled.
ghost use Rattle.std.specs.Prelude.{◌≡◌, ℕ, IfOk, length};
ghost use Rattle.std.specs.Result.{result_err};
ghost use Rattle.tables.specs.Tables.{Table as TableOf};
ghost use Rattle.compiler.specs.Compiles.{code_refusal, refusal};
ghost use Rattle.compiler.specs.Nodes.{StandsBefore};
ghost use Rattle.compiler.specs.Sheets.{sheet_of};

use crate::measuring::measure;
use crate::node::Node;
use faults::{CompilerCause, Fault, Layer};
use tables::{Row, Table};

pub const MOST_INSTRUCTIONS: usize = 1024;

// The table's sheet, where nothing is refused. The number of points is judged last, since a bank refuses it and the
// sheet may be mended first.
pub(crate) fn admit<'a>(rows: &'a [Row], points: usize, slots: usize) -> Result<Node<'a>, Fault>
    ensures refused { result_err result ≡ refusal points rows.now slots }
    ensures whole { IfOk result (StandsBefore rows.now (length rows.now)) }
{
    match Table::check(rows, points) {
        Ok(_) => within_limits(rows, slots),
        Err(fault) => match fault.layer {
            Layer::Bank(_) => within_limits(rows, slots).and(Err(fault)),
            _ => Err(fault),
        },
    }
}

// A table whose code is not too deep and not too long.
fn within_limits<'a>(rows: &'a [Row], slots: usize) -> Result<Node<'a>, Fault>
    requires { (count : ℕ) × TableOf count rows.now }
    ensures refused { result_err result ≡ code_refusal (sheet_of rows.now) slots }
    ensures whole { IfOk result (StandsBefore rows.now (length rows.now)) }
{
    let sheet = Node::sheet(rows);
    let measured = measure(sheet);
    let needed = measured.length as usize;
    match measured.deep {
        Some(place) => Err(Fault::new(Layer::Compiler(CompilerCause::TooDeep), usize::from(place))),
        None if needed > MOST_INSTRUCTIONS || needed > slots => Err(Fault::new(
            Layer::Compiler(CompilerCause::TooLong),
            needed,
        )),
        None => Ok(sheet),
    }
}
