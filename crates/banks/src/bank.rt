// What every bank promises, and nothing of how one keeps it.
ghost use Rattle.std.specs.Prelude.{◌≡◌, ◌≤◌, List, length, ℤ};
ghost use Rattle.banks.specs.Fixed.{Fixed};
ghost use Rattle.banks.specs.Points.{told, wrote, answer, no_point};

use faults::{BankCause, Fault, Layer};

// A bank has at most this many points.
pub const MOST_POINTS: usize = 64;

// What reading tells. It is a struct, so that it can come to tell more without a change to those who ask.
#[derive(Clone, Copy)]
pub struct Reading {
    // the point's number, none past the end
    pub value: Option<i32>,
}

// What a write that was taken tells, in a struct for the same reason.
#[derive(Clone, Copy)]
pub struct Writing {
    // the number that stands at the point from now on
    pub value: i32,
}

pub trait Bank {
    // The meaning: the points, and nothing else is.
    ghost points: { Self → List ℤ };

    // Bookkeeping: the loans that a bank holds, and what they cover beside its points. Every write leaves it, so that
    // a lender knows his memory afterwards. The clauses `same` and `loan`, here and in the other files, are about this
    // alone; a bank that borrows nothing lists nothing.
    ghost fixed: { Self → List Fixed };

    fn count(&self) -> usize
        ensures value { result ≡ length (points self.now) }
        ensures few { result ≤ 64 };

    fn read(&self, point: usize) -> Reading
        ensures { result.value ≡ told (points self.now) point };

    fn write(&mut self, point: usize, value: i32) -> Result<Writing, Fault>
        ensures value { (answer result, points self.new) ≡ wrote (points self.old) point value }
        ensures same { fixed self.new ≡ fixed self.old };
}

// The refusal of a point, or of a count of points.
pub(crate) fn no_point(point: usize) -> Fault
    ensures { result ≡ no_point point }
{
    Fault::new(Layer::Bank(BankCause::NoPoint), point)
}
