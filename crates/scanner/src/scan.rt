// Which token stands at a place of a text, or after it.
ghost use Rattle.std.specs.Prelude.{◌≡◌, ◌<◌, length, drop};
ghost use Rattle.scanner.specs.Tokens.{token_at, Placed, standing, sign_standing, pair_sign, single_sign};
ghost use Rattle.scanner.specs.Spelling.{Found};

use crate::run::{is_blank, run_end};
use crate::token::{Kind, Symbol, Token};
use crate::word::{begins_word, goes_on};
use arith::Comparison;

// The first token at `at` or after it. At the end, and past it, that is `Kind::End`.
pub fn token_at(text: &[u8], at: usize) -> Token
    ensures value { result ≡ token_at text.now at }
    ensures placed { Placed text.now at result }
    ensures found { Found text.now at result }
{
    let start = run_end(text, at, is_blank);
    if start < text.len() {
        token_from(text, start)
    } else {
        Token {
            kind: Kind::End,
            start,
            end: start,
        }
    }
}

// The token that begins with the byte at `start`, which is not blank.
fn token_from(text: &[u8], start: usize) -> Token
    requires { start < length text.now }
    ensures { result ≡ standing start (drop start text.now) }
{
    let b = text[start];
    if b.is_ascii_digit() {
        Token {
            kind: Kind::Number,
            start,
            end: run_end(text, start + 1, |b| b.is_ascii_digit()),
        }
    } else if begins_word(b) {
        Token {
            kind: Kind::Word,
            start,
            end: run_end(text, start + 1, goes_on),
        }
    } else {
        sign_from(text, start)
    }
}

// The longer sign first.
fn sign_from(text: &[u8], start: usize) -> Token
    requires { start < length text.now }
    ensures { result ≡ sign_standing start (drop start text.now) }
{
    let first = text[start];
    let second = text.get(start + 1);
    match second.and_then(|second| pair_sign(first, *second)) {
        Some(symbol) => Token {
            kind: Kind::Sign(symbol),
            start,
            end: start + 2,
        },
        None => Token {
            kind: single_sign(first),
            start,
            end: start + 1,
        },
    }
}

fn pair_sign(b: u8, c: u8) -> Option<Symbol>
    ensures { result ≡ pair_sign b c }
{
    match (b, c) {
        (b'<', b'=') => Some(Symbol::Compare(Comparison::LessOrEqual)),
        (b'>', b'=') => Some(Symbol::Compare(Comparison::GreaterOrEqual)),
        (b'=', b'=') => Some(Symbol::Compare(Comparison::Equal)),
        (b'!', b'=') => Some(Symbol::Compare(Comparison::NotEqual)),
        (b'&', b'&') => Some(Symbol::And),
        (b'|', b'|') => Some(Symbol::Or),
        _ => None,
    }
}

fn single_sign(b: u8) -> Kind
    ensures { result ≡ single_sign b }
{
    match b {
        b'{' => Kind::Sign(Symbol::OpenBlock),
        b'}' => Kind::Sign(Symbol::CloseBlock),
        b'(' => Kind::Sign(Symbol::Open),
        b')' => Kind::Sign(Symbol::Close),
        b';' => Kind::Sign(Symbol::Semicolon),
        b'=' => Kind::Sign(Symbol::Becomes),
        b'+' => Kind::Sign(Symbol::Plus),
        b'-' => Kind::Sign(Symbol::Minus),
        b'*' => Kind::Sign(Symbol::Times),
        b'/' => Kind::Sign(Symbol::Over),
        b'!' => Kind::Sign(Symbol::Not),
        b'<' => Kind::Sign(Symbol::Compare(Comparison::Less)),
        b'>' => Kind::Sign(Symbol::Compare(Comparison::Greater)),
        _ => Kind::Stray,
    }
}
