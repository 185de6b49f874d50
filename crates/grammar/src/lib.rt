// The grammar of sheets: what the tokens of a sheet are to it, and what each may be where it stands.
#![tactic(auto)]

mod choice;
mod lex;
mod lexeme;

pub use choice::{CommandStart, Join, Link, LiteralStart, Mark, Operand};
pub use lex::lexeme_of;
pub use lexeme::Lexeme;

#[cfg(test)]
mod tests;
