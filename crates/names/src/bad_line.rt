// The first line of a name list that breaks its rules, and how: what a town is told.
ghost use Rattle.std.specs.Prelude.{◌≡◌, Some};
ghost use Rattle.names.specs.Complaints.{complaint_words, bad_line_words, list_fault};

use faults::{Fault, Layer, ReaderCause};
use std::fmt;

#[derive(Clone, Copy, PartialEq, Eq, Debug)]
pub enum Complaint {
    EmptyList,
    NoNewline,
    TooMany,
    Blank,
    DigitFirst,
    BadByte,
    TooLong,
    Reserved,
    // The point that has the name already.
    Repeated(usize),
}

// Its first byte in the list, and its number as people count, from 1.
#[derive(Clone, Copy, PartialEq, Eq, Debug)]
pub struct BadLine {
    pub start: usize,
    pub line: usize,
    pub complaint: Complaint,
}

impl From<BadLine> for Fault {
    ghost from_gives = { λ bad fault. fault ≡ list_fault bad.start };

    fn from(bad: BadLine) -> Fault {
        Fault::new(Layer::Reader(ReaderCause::BadList), bad.start)
    }
}

impl fmt::Display for Complaint {
    ghost output = { λ x. Some (complaint_words x) };

    fn fmt<W: fmt::Write>(&self, f: &mut fmt::Formatter<W>) -> fmt::Result {
        match *self {
            Complaint::EmptyList => write!(f, "the list is empty, and has to name a point"),
            Complaint::NoNewline => write!(f, "the last line has no newline"),
            Complaint::TooMany => write!(f, "a list has at most 64 names"),
            Complaint::Blank => write!(f, "the line is empty"),
            Complaint::DigitFirst => write!(f, "a name cannot begin with a digit"),
            Complaint::BadByte => write!(
                f,
                "a name has only ASCII letters, digits and underscores"
            ),
            Complaint::TooLong => write!(f, "a name has at most 16 characters"),
            Complaint::Reserved => write!(f, "the word is reserved"),
            Complaint::Repeated(point) => write!(f, "the name is that of point {point} already"),
        }
    }
}

impl fmt::Display for BadLine {
    ghost output = { λ x. Some (bad_line_words x) };

    fn fmt<W: fmt::Write>(&self, f: &mut fmt::Formatter<W>) -> fmt::Result {
        let fault = Fault::from(*self);
        write!(f, "{fault}\nline {}: {}", self.line, self.complaint)
    }
}
