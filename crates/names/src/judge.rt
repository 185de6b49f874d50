// Judging a name list, line by line.
ghost use Rattle.std.specs.Prelude.{◌≡◌};
ghost use Rattle.std.specs.Result.{result_err};
ghost use Rattle.names.specs.Lines.{lines_of};
ghost use Rattle.names.specs.Complaints.{shape_complaint, complaint_of, bad_line_of, or_fault};
ghost use Rattle.names.specs.Names.{Accepts, FirstBad};

use crate::bad_line::{BadLine, Complaint};
use crate::lines::{Lines, find_line};
use crate::reserved::is_reserved;
use scanner::is_word;

const MOST_NAMES: usize = 64;

const LONGEST_NAME: usize = 16;

// What a town asks is which line is bad, so that line is the answer here, and no error of the call.
pub fn first_bad_line(text: &[u8]) -> Option<BadLine>
    ensures value { result ≡ bad_line_of text.now }
    ensures accepts { Accepts text.now (or_fault text.now result) }
    ensures refuses { FirstBad text.now (or_fault text.now result) }
{
    judge(text).err()
}

// Whether the text is a name list; if not, the first bad line.
pub(crate) fn judge(text: &[u8]) -> Result<(), BadLine>
    ensures { result_err result ≡ bad_line_of text.now }
{
    if text.is_empty() {
        return Err(BadLine {
            start: 0,
            line: 1,
            complaint: Complaint::EmptyList,
        });
    }
    let mut start = 0;
    for (count, line) in Lines::new(text).enumerate() {
        judge_line(count, &text[..start], line).map_err(|complaint| BadLine {
            start,
            line: count + 1,
            complaint,
        })?;
        // a line does not know where it begins, and that is what is told of a bad one
        start += line.len() + 1;
    }
    if start < text.len() {
        return Err(BadLine {
            start,
            // the lines before it are counted anew: a number kept through the loop would be one counted by hand
            line: Lines::new(&text[..start]).count() + 1,
            complaint: Complaint::NoNewline,
        });
    }
    Ok(())
}

// Whether a line can be a name after `count` good ones, whose text is `seen`; if not, what is wrong with it.
fn judge_line(count: usize, seen: &[u8], line: &[u8]) -> Result<(), Complaint>
    ensures { result_err result ≡ complaint_of count (lines_of seen.now) line.now }
{
    if count >= MOST_NAMES {
        return Err(Complaint::TooMany);
    }
    if !is_word(line) {
        return Err(shape_complaint(line));
    }
    if line.len() > LONGEST_NAME {
        return Err(Complaint::TooLong);
    }
    if is_reserved(line) {
        return Err(Complaint::Reserved);
    }
    match find_line(seen, line) {
        Some(point) => Err(Complaint::Repeated(point)),
        None => Ok(()),
    }
}

// Why a line is no word.
fn shape_complaint(line: &[u8]) -> Complaint
    ensures { result ≡ shape_complaint line.now }
{
    match line.first() {
        None => Complaint::Blank,
        Some(b) if b.is_ascii_digit() => Complaint::DigitFirst,
        Some(_) => Complaint::BadByte,
    }
}
