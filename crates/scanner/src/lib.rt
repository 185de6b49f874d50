// From bytes to the pieces that names and sheets are made of: words, and the tokens of a sheet.
#![tactic(auto)]

mod cursor;
mod look;
mod position;
mod run;
mod scan;
mod token;
mod word;

pub use cursor::Cursor;
pub use look::Sight;
pub use position::Position;
pub use scan::token_at;
pub use token::{Kind, Symbol, Token};
pub use word::is_word;

#[cfg(test)]
mod tests;
