// The table: what reader, screen and compiler share. Its meaning is a tree; its form is a list of rows.
#![tactic(auto)]

mod check;
mod kind;
mod row;
mod sort;
mod table;

pub use check::MOST_ROWS;
pub use kind::Kind;
pub use row::Row;
pub use table::Table;

#[cfg(test)]
mod tests;
