// The words of the program's command line.
#![tactic(auto)]

mod sheet_task;
mod task;

pub use sheet_task::SheetTask;
pub use task::Task;
