// The call that reads a file, and what a file tells once it was read.
ghost use Rattle.std.specs.Prelude.{◌≡◌};
ghost use Rattle.station_file.specs.Reading.{reading, told, contents_of};
ghost use Rattle.station_file.specs.Laws.{ReadsBack, OnlyFiles};

use crate::counts::Counts;
use crate::fields::read_each;
use crate::file::StationFile;
use crate::refusals::refused;
use crate::unread::Unread;
use crate::{MOST_INSTRUCTIONS, MOST_POINTS};
use faults::{Fault, FileCause};
use instructions::Instruction;

impl StationFile {
    pub fn read(bytes: &[u8]) -> Result<StationFile, Fault>
        ensures value { told result ≡ reading bytes.now }
        ensures back { ReadsBack bytes.now (told result) }
        ensures only { OnlyFiles bytes.now (told result) }
    {
        fields_of(bytes)
    }

    pub fn points(&self) -> usize
        ensures { result ≡ (contents_of self.now).points }
    {
        self.counts.points
    }

    pub fn instructions(&self) -> &[Instruction]
        ensures { result.now ≡ (contents_of self.now).code }
    {
        &self.instructions[0..self.counts.instructions]
    }

    pub fn places(&self) -> &[u16]
        ensures { result.now ≡ (contents_of self.now).places }
    {
        &self.places[0..self.counts.instructions]
    }
}

// The fields in their order, each judged as it comes.
fn fields_of(bytes: &[u8]) -> Result<StationFile, Fault>
    ensures { told result ≡ reading bytes.now }
{
    let mut unread = Unread { bytes, at: 0 };
    let counts = Counts {
        points: unread.count(1, MOST_POINTS)?,
        instructions: unread.count(1, MOST_INSTRUCTIONS)?,
    };
    let instructions = read_each(&mut unread, counts, Instruction::Pop)?;
    // as many places as there are instructions
    unread.count(counts.instructions, counts.instructions)?;
    let places = read_each(&mut unread, counts, 0)?;
    if unread.at < bytes.len() {
        return Err(refused(FileCause::NoFile, unread.at));
    }
    Ok(StationFile {
        counts,
        instructions,
        places,
    })
}
