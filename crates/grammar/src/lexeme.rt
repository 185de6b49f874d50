// Lexemes: what a token of a sheet is to the grammar, once the name list is known.
ghost use Rattle.std.specs.Prelude.{◌≡◌};
ghost use Rattle.grammar.specs.Lexemes.{sign_lexeme, IsSignLexeme};

use arith::{Comparison, Operator};
use scanner::Symbol;

#[derive(Clone, Copy, PartialEq, Eq, Debug)]
pub enum Lexeme {
    Number(i32),
    // Digits of a number over 2,147,483,647.
    TooLarge,
    // A listed name, by its point.
    Name(usize),
    Unlisted,
    Truth(bool),
    If,
    Else,
    While,
    // `+` and `-`
    Additive(Operator),
    // `*` and `/`
    Multiplicative(Operator),
    Compare(Comparison),
    Not,
    And,
    Or,
    Open,
    Close,
    OpenBlock,
    CloseBlock,
    Semicolon,
    Becomes,
    End,
    // A byte that begins no token.
    Stray,
}

impl From<Symbol> for Lexeme {
    ghost from_gives = { IsSignLexeme };

    fn from(symbol: Symbol) -> Lexeme
        ensures { result ≡ sign_lexeme symbol }
    {
        match symbol {
            Symbol::OpenBlock => Lexeme::OpenBlock,
            Symbol::CloseBlock => Lexeme::CloseBlock,
            Symbol::Open => Lexeme::Open,
            Symbol::Close => Lexeme::Close,
            Symbol::Semicolon => Lexeme::Semicolon,
            Symbol::Becomes => Lexeme::Becomes,
            Symbol::Plus => Lexeme::Additive(Operator::Add),
            Symbol::Minus => Lexeme::Additive(Operator::Sub),
            Symbol::Times => Lexeme::Multiplicative(Operator::Mul),
            Symbol::Over => Lexeme::Multiplicative(Operator::Div),
            Symbol::Not => Lexeme::Not,
            Symbol::And => Lexeme::And,
            Symbol::Or => Lexeme::Or,
            Symbol::Compare(comparison) => Lexeme::Compare(comparison),
        }
    }
}
