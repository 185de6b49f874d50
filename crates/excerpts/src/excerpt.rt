// The line of a place.
ghost use Rattle.std.specs.Prelude.{◌≡◌, ◌<◌, ◌≤◌, length, Some};
ghost use Rattle.excerpts.specs.Excerpts.{Spot, line_end, shown_by, excerpt_of, shown_as, under, excerpt_words};

use std::fmt;

const NEWLINE: u8 = b'\n';

// Line and column count from 1; the text is the line's own, without its newline.
#[derive(Clone, Copy)]
pub struct Excerpt<'a> {
    pub line: usize,
    pub column: usize,
    pub text: &'a [u8],
}

// The line in which a place stands. A place past the end is taken for the end.
pub fn line_at(text: &[u8], place: usize) -> Excerpt<'_>
    ensures { shown_by result ≡ excerpt_of text.now place }
{
    let end = place.min(text.len());
    let (line, start) = line_of(text, end);
    Excerpt {
        line,
        column: end - start + 1,
        text: &text[start..line_end(text, start)],
    }
}

// Which line the place stands in, and where that begins.
fn line_of(text: &[u8], place: usize) -> (usize, usize)
    requires { place ≤ length text.now }
    ensures value { Spot text.now place result.0 result.1 }
    ensures before { result.1 ≤ place }
{
    let before = &text[..place];
    let since = before.iter().rev().take_while(|b| **b != NEWLINE).count();
    // No newline stands from the line's start on, so no byte is read twice. A sum, since to filter and to count what is left
    // takes longer than one loop where lines are short.
    let start = place - since;
    let newlines = before[..start]
        .iter()
        .map(|b| usize::from(*b == NEWLINE))
        .sum::<usize>();
    (newlines + 1, start)
}

fn line_end(text: &[u8], start: usize) -> usize
    requires { start ≤ length text.now }
    ensures value { result ≡ line_end text.now start }
    ensures within { (start ≤ result) × (result ≤ length text.now) }
{
    start + text[start..].iter().take_while(|b| **b != NEWLINE).count()
}

// The line with a caret under the place. A tab stays one in both lines, so that the caret stands where it should; a byte
// that has no sign in ASCII is shown as a question mark.
impl fmt::Display for Excerpt<'_> {
    ghost output = { λ e. Some (excerpt_words e) };

    fn fmt<W: fmt::Write>(&self, f: &mut fmt::Formatter<W>) -> fmt::Result {
        writeln!(f, "line {}, column {}", self.line, self.column)?;
        for b in self.text {
            f.write_char(shown_as(*b))?;
        }
        f.write_char('\n')?;
        for b in self.text.iter().take(self.column.saturating_sub(1)) {
            f.write_char(under(*b))?;
        }
        f.write_char('^')
    }
}

fn shown_as(b: u8) -> char
    ensures value { result ≡ shown_as b }
    ensures ascii { result < 128 }
{
    match b {
        b'\t' => '\t',
        b' '..=b'~' => b as char,
        _ => '?',
    }
}

fn under(b: u8) -> char
    ensures value { result ≡ under b }
    ensures ascii { result < 128 }
{
    if b == b'\t' { '\t' } else { ' ' }
}
