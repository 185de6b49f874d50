// The screen: works a sheet out from its table.
#![tactic(auto)]

mod answer;
mod assign;
mod condition;
mod halt;
mod judge;
mod run;
mod screening;
mod sum;
mod work;

pub use answer::Outcome;
pub use screening::work_out;

#[cfg(test)]
mod tests;
