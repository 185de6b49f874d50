// The names of a station's points, as the town lists them.
ghost use Rattle.std.specs.Prelude.{◌≡◌, ◌≤◌, length};
ghost use Rattle.std.specs.List.{slice_get};
ghost use Rattle.std.specs.Option.{option_map};
ghost use Rattle.names.specs.Lines.{lines_of, position};
ghost use Rattle.names.specs.Names.{Accepts, FirstBad, Finds};

use crate::judge::judge;
use crate::lines::{Lines, find_line};
use faults::Fault;

// A list that was read without refusal, in the caller's own bytes.
#[derive(Clone, Copy)]
pub struct NameList<'a> {
    text: &'a [u8],
    pub ghost few: { length (lines_of text.now) ≤ 64 },
}

impl<'a> NameList<'a> {
    ghost use Rattle.names.specs.Complaints.{list_read, text_of};

    pub fn read(text: &'a [u8]) -> Result<NameList<'a>, Fault>
        ensures value { text_of result ≡ list_read text.now }
        ensures accepts { Accepts text.now (text_of result) }
        ensures refuses { FirstBad text.now (text_of result) }
    {
        judge(text)?;
        Ok(NameList { text })
    }

    // How many points the list names.
    pub fn count(&self) -> usize
        ensures { result ≡ length (lines_of self.now.text.now) }
    {
        Lines::new(self.text).count()
    }

    // The point that has this name.
    pub fn point(&self, word: &[u8]) -> Option<usize>
        ensures value { result ≡ position word.now (lines_of self.now.text.now) }
        ensures finds { Finds word.now (lines_of self.now.text.now) result }
    {
        find_line(self.text, word)
    }

    // The name of this point.
    pub fn name(&self, point: usize) -> Option<&'a [u8]>
        ensures { option_map (λ x. x.now) result ≡ slice_get (lines_of self.now.text.now) point }
    {
        Lines::new(self.text).nth(point)
    }
}
