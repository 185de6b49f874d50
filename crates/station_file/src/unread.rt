// What of a file is still to be read, field by field.
ghost use Rattle.std.specs.Prelude.{◌≡◌, ◌≤◌, length, OnSome, OnOk, IfOk};

use crate::refusals::refused;
use faults::{Fault, FileCause};

// The codes of instructions are 0 to this one. A byte past it is wrong itself, and not the operand after it.
const LAST_CODE: u8 = 13;

// The bytes of a file, and the position of the next field. Each field that is read moves it on by the field's width. At
// the first one that is wrong the reading ends, so nothing is said of where that leaves it.
#[derive(Drop)]
pub(crate) struct Unread<'a> {
    pub(crate) bytes: &'a [u8],
    pub(crate) at: usize,
    ghost within: { at ≤ length bytes.now },
}

impl<'a> Unread<'a> {
    ghost use Rattle.station_file.specs.Unread.{rest_of, MovesOn};
    ghost use Rattle.station_file.specs.Reading.{or_wrong, first_of, two_of, four_of, code_byte, count_field};

    fn next<const N: usize>(&mut self) -> Option<[u8; N]>
        ensures value { result ≡ first_of N (rest_of self.old) }
        ensures moved { OnSome result (MovesOn N self.old self.new) }
    {
        let next = *self.bytes[self.at..].first_chunk()?;
        self.at += N;
        Some(next)
    }

    pub(crate) fn two(&mut self) -> Option<u16>
        ensures value { result ≡ two_of (rest_of self.old) }
        ensures moved { OnSome result (MovesOn 2 self.old self.new) }
    {
        self.next().map(u16::from_le_bytes)
    }

    pub(crate) fn four(&mut self) -> Option<u32>
        ensures value { result ≡ four_of (rest_of self.old) }
        ensures moved { OnSome result (MovesOn 4 self.old self.new) }
    {
        self.next().map(u32::from_le_bytes)
    }

    pub(crate) fn code(&mut self) -> Result<u8, Fault>
        ensures value { result ≡ or_wrong self.old.at (code_byte (rest_of self.old)) }
        ensures moved { OnOk result (MovesOn 1 self.old self.new) }
    {
        let at = self.at;
        self.next()
            .map(u8::from_le_bytes)
            .filter(|code| *code <= LAST_CODE)
            .ok_or(refused(FileCause::NoFile, at))
    }

    pub(crate) fn count(&mut self, low: usize, high: usize) -> Result<usize, Fault>
        ensures value { result ≡ count_field low high self.old.at (rest_of self.old) }
        ensures moved { OnOk result (MovesOn 2 self.old self.new) }
        ensures inside { IfOk result (λ n. (low ≤ n) × (n ≤ high)) }
    {
        let at = self.at;
        self.two()
            .map(usize::from)
            .filter(|count| (low..=high).contains(count))
            .ok_or(refused(FileCause::NoFile, at))
    }
}
