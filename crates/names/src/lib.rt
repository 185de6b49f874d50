// From the text of a name list to the names of a station's points.
#![tactic(auto)]

mod bad_line;
mod judge;
mod lines;
mod name_list;
mod reserved;

pub use bad_line::{BadLine, Complaint};
pub use judge::first_bad_line;
pub use name_list::NameList;

#[cfg(test)]
mod tests;
