// A place in a text, as people look for it: the line, the column, and a caret under the place.
#![tactic(auto)]

mod excerpt;

pub use excerpt::{Excerpt, line_at};

#[cfg(test)]
mod tests;
