// Refusals: every one carries its layer, its number and one figure more.
#![tactic(auto)]

mod causes;
mod fault;
mod words;

pub use causes::{
    BankCause, CompilerCause, FileCause, Layer, ReaderCause, RunCause, StationCause, TableCause,
};
pub use fault::Fault;

#[cfg(test)]
mod tests;
