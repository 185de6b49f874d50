// From the bytes of a name list and a sheet to the rows of its table.
#![tactic(auto)]

mod commands;
mod conditions;
mod progress;
mod reader;
mod seen;
mod sheet;
mod sums;

pub use sheet::read;
