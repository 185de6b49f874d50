// A cursor: a sheet's bytes and where reading stands in them, and the steps from token to token.
ghost use Rattle.std.specs.Prelude.{◌≡◌};
ghost use Rattle.scanner.specs.Cursors.{held, at_start, peek_held, next_held, PlacedLaw};

use crate::position::Position;
use crate::scan::token_at;
use crate::token::Token;

#[derive(Drop)]
pub struct Cursor<'a> {
    pub text: &'a [u8],
    pub position: Position,
}

impl<'a> Cursor<'a> {
    pub fn new(text: &'a [u8]) -> Cursor<'a>
        ensures { held result ≡ at_start text.now }
    {
        Cursor {
            text,
            position: Position { at: 0 },
        }
    }

    // The token at the position or after it.
    pub fn peek(&self) -> Token
        ensures value { result ≡ peek_held (held self.now) }
        ensures placed { PlacedLaw (held self.now) result }
    {
        token_at(self.text, self.position.at)
    }

    // The same, and the position moves behind it.
    pub fn next(&mut self) -> Token
        ensures value { (result, held self.new) ≡ next_held (held self.old) }
        ensures placed { PlacedLaw (held self.old) result }
    {
        let token = self.peek();
        self.position.at = token.end;
        token
    }
}
