// Judging rows, one pass and no memory: a row's last part ends just before it, and each part before that ends where
// the one after it begins.
ghost use Rattle.std.specs.Prelude.{◌≡◌, ◌<◌, ◌≤◌, length, IfSome};
ghost use Rattle.tables.specs.Checks.{below, allowed_value, part_start, first_start, fits_at, fit_up_to, whole_sheet, is_table};

use crate::kind::Kind;
use crate::row::Row;
use crate::sort::{Parts, Sort};

pub const MOST_ROWS: usize = 2048;

pub(crate) fn is_table(rows: &[Row], points: usize) -> bool
    ensures { result ≡ is_table points rows.now }
{
    rows.len() <= MOST_ROWS && all_fit(rows, points) && whole_sheet(rows)
}

fn all_fit(rows: &[Row], points: usize) -> bool
    ensures { result ≡ fit_up_to points rows.now (length rows.now) }
{
    (0..rows.len()).all(|i| fits_at(rows, i, points))
}

// Whether the row at `i` fits the rows before it.
fn fits_at(rows: &[Row], i: usize, points: usize) -> bool
    requires { i < length rows.now }
    ensures { result ≡ fits_at points rows.now i }
{
    let row = rows[i];
    if !allowed_value(row.kind, row.value, points) {
        return false;
    }
    first_start(rows, row.kind.parts(), i).is_some_and(|start| row.size as usize == i - start + 1)
}

// Where the first of the parts begins that end, one after the other, at `end`.
fn first_start(rows: &[Row], parts: Parts, end: usize) -> Option<usize>
    requires { end ≤ length rows.now }
    ensures value { result ≡ first_start parts rows.now end }
    ensures within { IfSome result (λ start. start ≤ end) }
{
    match parts {
        Parts::Zero => Some(end),
        Parts::One(only) => part_start(rows, only, end),
        Parts::Two(left, right) => {
            let middle = part_start(rows, right, end)?;
            part_start(rows, left, middle)
        }
        Parts::Three(first, second, third) => {
            let late = part_start(rows, third, end)?;
            let early = part_start(rows, second, late)?;
            part_start(rows, first, early)
        }
    }
}

// Where a part of the wanted sort begins that ends at `end`.
fn part_start(rows: &[Row], wanted: Sort, end: usize) -> Option<usize>
    requires { end ≤ length rows.now }
    ensures value { result ≡ part_start wanted rows.now end }
    ensures within { IfSome result (λ start. start ≤ end) }
{
    if end == 0 {
        return None;
    }
    let last = rows[end - 1];
    let size = last.size as usize;
    if last.kind.sort().serves_as(wanted) && size <= end {
        Some(end - size)
    } else {
        None
    }
}

// Whether the last row is a sheet of all the rows.
fn whole_sheet(rows: &[Row]) -> bool
    ensures { result ≡ whole_sheet rows.now }
{
    part_start(rows, Sort::Sheet, rows.len()) == Some(0)
}

// What the value of a row of each kind may be.
fn allowed_value(kind: Kind, value: i32, points: usize) -> bool
    ensures { result ≡ allowed_value points kind value }
{
    match kind {
        Kind::Number => value >= 0,
        Kind::Name | Kind::Set => is_below(value, points),
        Kind::Truth => is_below(value, 2),
        Kind::Compare => is_below(value, 6),
        _ => value == 0,
    }
}

fn is_below(value: i32, limit: usize) -> bool
    ensures { result ≡ below limit value }
{
    value >= 0 && (value as usize) < limit
}
