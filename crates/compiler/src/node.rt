// A row as a node of its table's tree: its last part ends just before it, and each part before that ends where the one
// after it begins.
ghost use Rattle.std.specs.Prelude.{◌≡◌, ℕ, ◌-◌, ◌≤◌, length, slice_index_or};
ghost use Rattle.tables.specs.Rows.{blank};
ghost use Rattle.tables.specs.Tables.{Table as TableOf};
ghost use Rattle.compiler.specs.Measures.{part_count};
ghost use Rattle.compiler.specs.Parts.{IsPart, shape_at, start_at};

use tables::Row;

// The tree's rows are those just before `end`.
#[derive(Clone, Copy)]
pub(crate) struct Node<'a> {
    pub(crate) rows: &'a [Row],
    pub(crate) end: usize,
    ghost stands: { IsPart rows.now end },
    ghost few: { length rows.now ≤ 2048 },
}

impl<'a> Node<'a> {
    ghost use Rattle.compiler.specs.Nodes.{StandsBefore};

    // A table's last row, whose tree is the whole sheet.
    pub(crate) fn sheet(rows: &'a [Row]) -> Node<'a>
        requires { (count : ℕ) × TableOf count rows.now }
        ensures { StandsBefore rows.now (length rows.now) result }
    {
        Node {
            rows,
            end: rows.len(),
        }
    }

    pub(crate) fn row(self) -> Row
        ensures { result ≡ slice_index_or self.entry.rows.now (self.entry.end - 1) blank }
    {
        self.rows[self.end - 1]
    }

    // Its only part, or the last of them.
    pub(crate) fn last(self) -> Node<'a>
        requires { IsPart self.rows.now (self.end - 1) }
        ensures { StandsBefore self.entry.rows.now (self.entry.end - 1) result }
    {
        Node {
            rows: self.rows,
            end: self.end - 1,
        }
    }

    // The part that ends where this one begins.
    fn before(self) -> Node<'a>
        requires { IsPart self.rows.now (start_at self.rows.now self.end) }
        ensures { StandsBefore self.entry.rows.now (start_at self.entry.rows.now self.entry.end) result }
    {
        Node {
            rows: self.rows,
            end: self.end - self.row().size as usize,
        }
    }

    pub(crate) fn two(self) -> (Node<'a>, Node<'a>)
        requires { part_count (shape_at self.rows.now self.end) ≡ 2 }
        ensures left { StandsBefore self.entry.rows.now (start_at self.entry.rows.now (self.entry.end - 1)) result.0 }
        ensures right { StandsBefore self.entry.rows.now (self.entry.end - 1) result.1 }
    {
        let right = self.last();
        (right.before(), right)
    }

    pub(crate) fn three(self) -> (Node<'a>, Node<'a>, Node<'a>)
        requires { part_count (shape_at self.rows.now self.end) ≡ 3 }
        ensures first { StandsBefore self.entry.rows.now (start_at self.entry.rows.now (start_at self.entry.rows.now (self.entry.end - 1))) result.0 }
        ensures second { StandsBefore self.entry.rows.now (start_at self.entry.rows.now (self.entry.end - 1)) result.1 }
        ensures third { StandsBefore self.entry.rows.now (self.entry.end - 1) result.2 }
    {
        let third = self.last();
        let second = third.before();
        (second.before(), second, third)
    }
}
