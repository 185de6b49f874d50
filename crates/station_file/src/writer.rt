// The calls that write a file, section by section.
ghost use Rattle.std.specs.Prelude.{◌≡◌};
ghost use Rattle.station_file.specs.Writing.{begun, code_written, places_written};
ghost use Rattle.station_file.specs.Laws.{Opens, Completes};

use crate::bytes::put;
use crate::fields::{Field, put_each};
use crate::refusals::refused;
use crate::sections::{right_code, right_places};
use crate::state::{AfterInstructions, Begin, Written};
use faults::{Fault, FileCause};
use instructions::Instruction;

impl Begin {
    pub fn new() -> Begin
        ensures { result ≡ begun }
    {
        Begin { at: 0 }
    }

    // The first section: the point count, the instruction count and the instructions.
    pub fn instructions(
        self,
        bytes: &mut [u8],
        points: usize,
        instructions: &[Instruction],
    ) -> Result<AfterInstructions, (Begin, Fault)>
        ensures value { (result, bytes.new) ≡ code_written self points bytes.old instructions.now }
        ensures opens { Opens self points instructions.now bytes.new result }
    {
        let count = instructions.len();
        let size = 4 + 5 * count;
        if bytes.len().saturating_sub(self.at) < size {
            return Err((self, refused(FileCause::NoSpace, size)));
        }
        if let Err(index) = right_code(points, instructions) {
            return Err((self, refused(FileCause::NoFile, index)));
        }
        let at = self.at;
        put(bytes, at, (points as u16).to_bytes());
        put(bytes, at + 2, (count as u16).to_bytes());
        put_each(bytes, at + 4, instructions);
        Ok(AfterInstructions {
            at: at + size,
            count: count as u16,
        })
    }
}

impl AfterInstructions {
    // The second section: as many places as there are instructions.
    pub fn places(
        self,
        bytes: &mut [u8],
        places: &[u16],
    ) -> Result<Written, (AfterInstructions, Fault)>
        ensures value { (result, bytes.new) ≡ places_written self bytes.old places.now }
        ensures back { Completes self bytes.old places.now bytes.new result }
    {
        let length = 2 + 2 * places.len();
        if bytes.len().saturating_sub(self.at) < length {
            return Err((self, refused(FileCause::NoSpace, length)));
        }
        if let Err(index) = right_places(usize::from(self.count), places.len()) {
            return Err((self, refused(FileCause::NoFile, index)));
        }
        let at = self.at;
        put(bytes, at, self.count.to_bytes());
        put_each(bytes, at + 2, places);
        Ok(Written {
            length: at + length,
        })
    }
}
