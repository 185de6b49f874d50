// The look ahead: whether the bracket just read opens a condition.
ghost use Rattle.std.specs.Prelude.{◌≡◌};
ghost use Rattle.scanner.specs.Cursors.{held, look_held, LookLaw};
ghost use Rattle.scanner.specs.Looks.{symbol_sight, IsSymbolSight, sight_of};

use crate::cursor::Cursor;
use crate::position::Position;
use crate::scan::token_at;
use crate::token::{Kind, Symbol, Token};

// What a token is to the look.
#[derive(Clone, Copy)]
pub enum Sight {
    // Only a condition has it.
    Clue,
    Opens,
    Closes,
    // There is nothing to see behind it.
    Stops,
    Passes,
}

impl From<Symbol> for Sight {
    ghost from_gives = { IsSymbolSight };

    fn from(symbol: Symbol) -> Sight
        ensures { result ≡ symbol_sight symbol }
    {
        match symbol {
            Symbol::Open => Sight::Opens,
            Symbol::Close => Sight::Closes,
            Symbol::Not | Symbol::And | Symbol::Or | Symbol::Compare(_) => Sight::Clue,
            _ => Sight::Passes,
        }
    }
}

// Lends the position to a search, and puts the old one back when the search ends, whichever way it does.
struct Back<'a> {
    position: &'a mut Position,
    old: Position,
}

impl Drop for Back<'_> {
    fn drop(self)
        ensures { self.exit.0.now ≡ self.entry.old }
    {
        *self.position = self.old;
        let Back {
            position: _,
            old: _,
        } = self;
    }
}

impl Cursor<'_> {
    // The position is just behind a `(`. Whether it opens a condition; the position stays.
    #[tactic(auto, using(crate::proofs::ClueLaws::look_steps))]
    pub fn opens_condition(&mut self) -> bool
        ensures value { (result, held self.new) ≡ look_held (held self.old) }
        ensures law { LookLaw (held self.old) result }
    {
        let text = self.text;
        let old = self.position;
        let guard = Back {
            position: &mut self.position,
            old,
        };
        let mut depth: usize = 0;
        'ahead: loop {
            // as the cursor's `next`, which would need the whole cursor lent
            let token = token_at(text, guard.position.at);
            guard.position.at = token.end;
            match sight_of(text, token) {
                Sight::Clue => return true,
                Sight::Opens => depth += 1,
                Sight::Closes => {
                    if depth == 0 {
                        return false;
                    }
                    depth -= 1;
                }
                Sight::Stops => return false,
                Sight::Passes => {}
            }
        }
    }
}

fn sight_of(text: &[u8], token: Token) -> Sight
    ensures { result ≡ sight_of text.now token }
{
    match token.kind {
        Kind::Word => match token.bytes(text) {
            b"true" | b"false" => Sight::Clue,
            _ => Sight::Passes,
        },
        Kind::Number => Sight::Passes,
        Kind::Sign(symbol) => Sight::from(symbol),
        Kind::End | Kind::Stray => Sight::Stops,
    }
}
