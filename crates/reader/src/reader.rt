// A reader: the names and the sheet that it reads, the rows that it tells, and how far it has come.
ghost use Rattle.std.specs.Prelude.{◌≡◌, ◌<◌, ◌≤◌, length, slice_set};
ghost use Rattle.names.specs.Lines.{lines_of};
ghost use Rattle.scanner.specs.Tokens.{tokens_at};
ghost use Rattle.scanner.specs.Looks.{clue_ahead};
ghost use Rattle.reader.specs.Standing.{Stands};
ghost use Rattle.reader.specs.Ahead.{HereIs};
ghost use Rattle.reader.specs.Progressing.{told, told_leaf, ExpectAnswer};

use crate::progress::Progress;
use crate::seen::{Refusal, Seen};
use grammar::{Mark, lexeme_of};
use names::NameList;
use scanner::{Cursor, Position};
use tables::{Kind, Row};

#[derive(Drop)]
pub(crate) struct Reader<'a> {
    pub(crate) names: NameList<'a>,
    pub(crate) text: &'a [u8],
    pub(crate) rows: &'a mut [Row],
    pub(crate) progress: Progress,
    ghost stands: { Stands (lines_of names.text.now) text.now progress },
}

impl Reader<'_> {
    ghost use Rattle.reader.specs.Holding.{held};

    // The token at the position or after it. The position stays.
    pub(crate) fn see(&self) -> Seen
        ensures { HereIs (lines_of self.now.names.text.now) self.now.text.now self.now.progress.position.at result }
    {
        let cursor = Cursor {
            text: self.text,
            position: self.progress.position,
        };
        let token = cursor.peek();
        Seen {
            lexeme: lexeme_of(&self.names, self.text, token),
            place: token.start,
            end: token.end,
        }
    }

    // Whether the `(` just seen opens a condition.
    pub(crate) fn opens_condition(&self, bracket: Seen) -> bool
        ensures { result ≡ clue_ahead self.now.text.now (tokens_at self.now.text.now bracket.end) 0 }
    {
        let mut cursor = Cursor {
            text: self.text,
            position: Position { at: bracket.end },
        };
        cursor.opens_condition()
    }

    // Passes the one sign or word that may stand here.
    pub(crate) fn expect(&mut self, wanted: Mark) -> Result<Seen, Refusal>
        ensures answer { ExpectAnswer wanted (lines_of self.old.names.text.now) self.old.text.now self.old.progress self.new.progress result }
        ensures rows { self.new.rows.now ≡ self.old.rows.now }
        ensures same { held self.new ≡ held self.old }
    {
        let seen = self.see();
        if seen.lexeme.mark() == Some(wanted) {
            self.progress.pass(seen);
            Ok(seen)
        } else {
            Err(seen.refusal())
        }
    }

    // A row whose parts are the rows from `first` on. It is written where there is a slot for it, and counted either way.
    pub(crate) fn tell(&mut self, kind: Kind, value: i32, first: usize, place: usize)
        requires begun { first ≤ self.old.progress.count }
        requires paid { self.old.progress.count < self.old.progress.position.at }
        requires placed { place ≤ 8192 }
        ensures value { (self.new.rows.now, self.new.progress) ≡ told self.old.rows.now self.old.progress kind value first place }
        ensures same { held self.new ≡ held self.old }
    {
        let count = self.progress.count;
        let row = Row {
            kind,
            value,
            size: (count - first + 1) as u16,
            place: place as u16,
        };
        put_row(self.rows, count, row);
        self.progress.count = count + 1;
    }

    // A row without parts, behind whose token reading goes on.
    pub(crate) fn leaf(&mut self, kind: Kind, value: i32, seen: Seen)
        requires paid { self.old.progress.count < seen.end }
        requires placed { seen.place ≤ 8192 }
        requires within { seen.end ≤ length self.old.text.now }
        ensures value { (self.new.rows.now, self.new.progress) ≡ told_leaf self.old.rows.now self.old.progress kind value seen }
        ensures same { held self.new ≡ held self.old }
    {
        let first = self.progress.count;
        self.progress.pass(seen);
        self.tell(kind, value, first, seen.place);
    }
}

// Writes the row where there is a slot for it.
fn put_row(rows: &mut [Row], slot: usize, row: Row)
    ensures { rows.new ≡ slice_set rows.old slot row }
{
    if slot < rows.len() {
        rows[slot] = row;
    }
}
