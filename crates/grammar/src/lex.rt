// From tokens to lexemes, under a name list.
ghost use Rattle.std.specs.Prelude.{◌≡◌};
ghost use Rattle.names.specs.Lines.{lines_of, position};
ghost use Rattle.grammar.specs.Lexemes.{numeral, listed, number_lexeme, word_lexeme, lexeme_of};

use crate::lexeme::Lexeme;
use names::NameList;
use scanner::{Kind, Token};

const LARGEST_NUMBER: u64 = 2_147_483_647;

// What a token of a text is to the grammar.
pub fn lexeme_of(names: &NameList, text: &[u8], token: Token) -> Lexeme
    ensures { result ≡ lexeme_of (lines_of names.now.text.now) text.now token }
{
    let bytes = token.bytes(text);
    match token.kind {
        Kind::Word => word_lexeme(names, bytes),
        Kind::Number => number_lexeme(bytes),
        Kind::Sign(symbol) => Lexeme::from(symbol),
        Kind::End => Lexeme::End,
        Kind::Stray => Lexeme::Stray,
    }
}

fn word_lexeme(names: &NameList, word: &[u8]) -> Lexeme
    ensures { result ≡ word_lexeme (lines_of names.now.text.now) word.now }
{
    match word {
        b"if" => Lexeme::If,
        b"else" => Lexeme::Else,
        b"while" => Lexeme::While,
        b"true" => Lexeme::Truth(true),
        b"false" => Lexeme::Truth(false),
        _ => name_lexeme(names, word),
    }
}

// By itself, since behind a match on words the proof would go over every way to get here.
fn name_lexeme(names: &NameList, word: &[u8]) -> Lexeme
    ensures { result ≡ listed (position word.now (lines_of names.now.text.now)) }
{
    names.point(word).map_or(Lexeme::Unlisted, Lexeme::Name)
}

// A number only grows with its digits, so those behind too large a one are left unread.
fn number_lexeme(digits: &[u8]) -> Lexeme
    ensures { result ≡ number_lexeme (numeral digits.now) }
{
    let mut value = 0;
    for b in digits {
        value = value * 10 + u64::from(b.saturating_sub(b'0'));
        if value > LARGEST_NUMBER {
            return Lexeme::TooLarge;
        }
    }
    Lexeme::Number(value as i32)
}
