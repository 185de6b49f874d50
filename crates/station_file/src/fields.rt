// What the two sections list, instructions and places: their bytes, both ways.
ghost use Rattle.std.specs.Prelude.{◌≡◌, ℕ, ◌+◌, ◌*◌, ◌≤◌, List, [], Result, length, refl, OnOk};
ghost use Rattle.std.specs.List.{flat_map};
ghost use Rattle.faults.specs.declared.fault.Fault.{Fault};
ghost use Rattle.station_file.specs.Layout.{two_bytes, instruction_bytes, put};
ghost use Rattle.station_file.specs.Unread.{rest_of, MovesOn};
ghost use Rattle.station_file.specs.Reading.{instruction_field, place_field, fields, filled};

use crate::MOST_INSTRUCTIONS;
use crate::bytes::put;
use crate::counts::Counts;
use crate::operand::{decode, operand_of};
use crate::refusals::refused;
use crate::unread::Unread;
use faults::{Fault, FileCause};
use instructions::Instruction;

// A thing that a section lists, in a width of its own: its bytes, and what is read where a file has one.
pub(crate) trait Field<const WIDTH: usize>: Copy {
    ghost bytes_of: { Self → List ℕ };

    ghost field_of: { ℕ → ℕ → ℕ → List ℕ → Result Self Fault };

    fn to_bytes(self) -> [u8; WIDTH]
        ensures { result ≡ bytes_of self };

    fn read(unread: &mut Unread<'_>, counts: Counts) -> Result<Self, Fault>
        ensures value { result ≡ field_of counts.points counts.instructions unread.old.at (rest_of unread.old) }
        ensures moved { OnOk result (MovesOn WIDTH unread.old unread.new) };

    ghost sized: { (x : Self) → length (bytes_of x) ≡ WIDTH };
}

// A code byte, and the operand that goes with it.
impl Field<5> for Instruction {
    ghost bytes_of = { instruction_bytes };

    ghost field_of = { instruction_field };

    ghost sized = { λ _. refl };

    fn to_bytes(self) -> [u8; 5] {
        let [a, b, c, d] = operand_of(self).to_le_bytes();
        [self.code(), a, b, c, d]
    }

    fn read(unread: &mut Unread<'_>, counts: Counts) -> Result<Instruction, Fault> {
        let code = unread.code()?;
        let at = unread.at;
        let operand = unread.four();
        operand
            .and_then(|operand| decode(code, operand, counts))
            .ok_or(refused(FileCause::NoFile, at))
    }
}

// Any number of two bytes: a place in a sheet, and each count of a file.
impl Field<2> for u16 {
    ghost bytes_of = { two_bytes };

    ghost field_of = { λ _ _. place_field };

    ghost sized = { λ _. refl };

    fn to_bytes(self) -> [u8; 2] {
        self.to_le_bytes()
    }

    fn read(unread: &mut Unread<'_>, _counts: Counts) -> Result<u16, Fault> {
        let at = unread.at;
        unread.two().ok_or(refused(FileCause::NoFile, at))
    }
}

// One after another, from a position on. A loop over `chunks_exact_mut` was tried: after it a proof knows how many bytes
// there are, and not which.
pub(crate) fn put_each<T: Field<WIDTH>, const WIDTH: usize>(
    bytes: &mut [u8],
    at: usize,
    items: &[T],
)
    requires { at + WIDTH * length items.now ≤ length bytes.old }
    ensures { bytes.new ≡ put at (flat_map T.bytes_of items.now) bytes.old }
{
    for (i, item) in items.iter().enumerate() {
        put(bytes, at + WIDTH * i, item.to_bytes());
    }
}

// As many as the file counts, in the first of the slots; the others stay blank.
pub(crate) fn read_each<T: Field<WIDTH>, const WIDTH: usize>(
    unread: &mut Unread<'_>,
    counts: Counts,
    blank: T,
) -> Result<[T; MOST_INSTRUCTIONS], Fault>
    ensures value { filled counts.instructions result ≡ fields (T.field_of counts.points counts.instructions) WIDTH counts.instructions [] unread.old.at (rest_of unread.old) }
    ensures moved { OnOk result (MovesOn (WIDTH * counts.instructions) unread.old unread.new) }
{
    let mut slots = [blank; MOST_INSTRUCTIONS];
    for slot in slots[..counts.instructions].iter_mut() {
        *slot = T::read(unread, counts)?;
    }
    Ok(slots)
}
