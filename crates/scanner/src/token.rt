// Tokens: the words, numbers and signs of a sheet. A token is a place in the sheet's bytes, so nothing is copied.
ghost use Rattle.std.specs.Prelude.{◌≡◌};
ghost use Rattle.scanner.specs.Tokens.{spelled};

use arith::Comparison;

// Which sign it is.
#[derive(Clone, Copy, PartialEq, Eq, Debug)]
pub enum Symbol {
    OpenBlock,
    CloseBlock,
    Open,
    Close,
    Semicolon,
    Becomes,
    Plus,
    Minus,
    Times,
    Over,
    Not,
    And,
    Or,
    Compare(Comparison),
}

#[derive(Clone, Copy, PartialEq, Eq, Debug)]
pub enum Kind {
    Word,
    // A whole run of digits, of any length.
    Number,
    Sign(Symbol),
    // No token follows: the place is where the text ends.
    End,
    // A byte that begins no token. Nothing behind it is a token either.
    Stray,
}

// The bytes from `start` up to `end`, which is the first byte behind the token.
#[derive(Clone, Copy, PartialEq, Eq, Debug)]
pub struct Token {
    pub kind: Kind,
    pub start: usize,
    pub end: usize,
}

impl Token {
    // The bytes of the token in its text, as far as the text has them.
    pub fn bytes(self, text: &[u8]) -> &[u8]
        ensures { result.now ≡ spelled text.now self }
    {
        let end = self.end.min(text.len());
        let start = self.start.min(end);
        &text[start..end]
    }
}
