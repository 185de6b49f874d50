// The station file: one layout, written in states and read back.
#![tactic(auto)]

mod bytes;
mod counts;
mod fields;
mod file;
mod operand;
mod reader;
mod refusals;
mod sections;
mod state;
mod unread;
mod writer;

pub use file::StationFile;
pub use state::{AfterInstructions, Begin, Written};

// A file has at most this many instructions.
pub const MOST_INSTRUCTIONS: usize = 1024;

// and its point count is at most this.
pub const MOST_POINTS: usize = 64;
