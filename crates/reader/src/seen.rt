// The next token, as the grammar sees it.
ghost use Rattle.std.specs.Prelude.{◌≡◌};
ghost use Rattle.reader.specs.Ahead.{refused_for, refused_at, seen_as};
ghost use Rattle.reader.specs.Reading.{reader_fault};

use faults::{Fault, Layer, ReaderCause};
use grammar::Lexeme;

#[derive(Clone, Copy)]
pub(crate) struct Seen {
    pub(crate) lexeme: Lexeme,
    pub(crate) place: usize,
    // The first byte behind it.
    pub(crate) end: usize,
}

// Why reading stops, and at which place.
#[derive(Clone, Copy)]
pub(crate) struct Refusal {
    pub(crate) cause: ReaderCause,
    pub(crate) place: usize,
}

impl From<Refusal> for Fault {
    ghost from_gives = { λ r f. f ≡ reader_fault r.cause r.place };

    fn from(refusal: Refusal) -> Fault {
        Fault::new(Layer::Reader(refusal.cause), refusal.place)
    }
}

impl Seen {
    // What it was taken for, or the refusal of it.
    pub(crate) fn taken<T>(self, choice: Result<T, ReaderCause>) -> Result<T, Refusal>
        ensures { result ≡ seen_as self choice }
    {
        choice.map_err(|cause| self.refused(cause))
    }

    // A refusal of it, for this cause.
    pub(crate) fn refused(self, cause: ReaderCause) -> Refusal
        ensures { result ≡ refused_for self cause }
    {
        Refusal {
            cause,
            place: self.place,
        }
    }

    // The refusal where no rule takes it.
    pub(crate) fn refusal(self) -> Refusal
        ensures { result ≡ refused_at self }
    {
        self.refused(self.lexeme.refusal())
    }
}
