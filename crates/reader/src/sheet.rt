// Reading a sheet: the one call of this crate.
ghost use Rattle.std.specs.Prelude.{◌≡◌, ◌≤◌, length};
ghost use Rattle.names.specs.Lines.{lines_of};
ghost use Rattle.grammar.specs.Lexemes.{lexemes};
ghost use Rattle.grammar.specs.Machine.{run, start};
ghost use Rattle.reader.specs.Laws.{ReadsExactly};
ghost use Rattle.reader.specs.Reading.{reading, blanks};
ghost use Rattle.reader.specs.Wholes.{UnderAnswer, AllAnswer};

use crate::progress::Progress;
use crate::reader::Reader;
use crate::seen::Refusal;
use faults::{Fault, Layer, ReaderCause, TableCause};
use grammar::CommandStart;
use names::NameList;
use scanner::Position;
use tables::{MOST_ROWS, Row};

const MOST_BYTES: usize = 8192;

// Reads the sheet under the names of the list, and tells how many rows its table has.
pub fn read(list: &[u8], sheet: &[u8], rows: &mut [Row]) -> Result<usize, Fault>
    ensures value { (result, rows.new) ≡ reading list.now sheet.now rows.old }
    ensures exactly { ReadsExactly list.now sheet.now rows.old result rows.new }
{
    let names = NameList::read(list)?;
    clear(rows);
    let needed = match read_under(names, sheet, rows) {
        Ok(needed) => needed,
        Err(fault) => {
            clear(rows);
            return Err(fault);
        }
    };
    if needed > MOST_ROWS || needed > rows.len() {
        clear(rows);
        return Err(Fault::new(Layer::Table(TableCause::TooFewSlots), needed));
    }
    Ok(needed)
}

// How many rows the sheet has; as many of them as there are slots for are written.
fn read_under(names: NameList, sheet: &[u8], rows: &mut [Row]) -> Result<usize, Fault>
    ensures { UnderAnswer (lines_of names.entry.text.now) sheet.now rows.old rows.new result }
{
    if sheet.len() > MOST_BYTES {
        return Err(Fault::new(Layer::Reader(ReaderCause::SheetTooLong), MOST_BYTES));
    }
    Ok(read_all(names, sheet, rows)?)
}

// A sheet, and then the end of the text.
fn read_all(names: NameList, sheet: &[u8], rows: &mut [Row]) -> Result<usize, Refusal>
    requires { length sheet.now ≤ 8192 }
    ensures { AllAnswer (run (lexemes (lines_of names.entry.text.now) sheet.now) 0 start) rows.old rows.new result }
{
    let mut reader = Reader {
        names,
        text: sheet,
        rows,
        progress: Progress {
            position: Position { at: 0 },
            count: 0,
            depth: 0,
        },
    };
    reader.sheet()?;
    let end = reader.see();
    if end.lexeme.command_start() != Ok(CommandStart::End) {
        return Err(end.refusal());
    }
    Ok(reader.progress.count)
}

fn clear(rows: &mut [Row])
    ensures { rows.new ≡ blanks rows.old }
{
    rows.fill(Row::blank());
}
