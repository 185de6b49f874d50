// How far reading has come: where it stands, how many rows it has told, and how many brackets are open.
ghost use Rattle.std.specs.Prelude.{◌≡◌, ◌<◌};
ghost use Rattle.reader.specs.Progressing.{read_on, opened, outside};

use crate::seen::{Refusal, Seen};
use faults::ReaderCause;
use scanner::Position;

// How many `(` and `{` may be open together.
const MOST_OPEN: usize = 32;

#[derive(Clone, Copy)]
pub(crate) struct Progress {
    pub(crate) position: Position,
    pub(crate) count: usize,
    pub(crate) depth: usize,
}

impl Progress {
    // Behind the token just seen.
    pub(crate) fn pass(&mut self, seen: Seen)
        ensures { self.new ≡ read_on self.old seen }
    {
        self.position.at = seen.end;
    }

    // The bracket just seen is open from here on, if it is not one too many.
    pub(crate) fn enter(&mut self, seen: Seen) -> Result<(), Refusal>
        ensures { (result, self.new) ≡ opened self.old seen }
    {
        if self.depth >= MOST_OPEN {
            return Err(seen.refused(ReaderCause::TooManyOpen));
        }
        self.depth += 1;
        self.pass(seen);
        Ok(())
    }

    // The bracket opened last is closed.
    pub(crate) fn leave(&mut self)
        requires { 0 < self.old.depth }
        ensures { self.new ≡ outside self.old }
    {
        self.depth -= 1;
    }
}
