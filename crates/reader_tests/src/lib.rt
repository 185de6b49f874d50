#![tactic(auto)]

// Reading on examples. They stand apart from the crate, which would otherwise be proved twice for each change.
#[cfg(test)]
mod tests;
