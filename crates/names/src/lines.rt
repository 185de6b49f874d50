// The lines of a text. A line ends with a newline; what stands after the last one is no line.
ghost use Rattle.std.specs.Prelude.{◌≡◌, length};
ghost use Rattle.std.specs.Iterator.{YieldsFirstRef, at_most};
ghost use Rattle.names.specs.Lines.{lines_of, position};
ghost use Rattle.names.specs.Names.{Finds};

const NEWLINE: u8 = b'\n';

// The lines of what is left of a text, each without its newline.
#[derive(Drop)]
pub(crate) struct Lines<'a> {
    rest: &'a [u8],
}

impl<'a> Lines<'a> {
    pub(crate) fn new(text: &'a [u8]) -> Lines<'a>
        ensures { result.rest.now ≡ text.now }
    {
        Lines { rest: text }
    }
}

impl<'a> Iterator for Lines<'a> {
    type Item = &'a [u8];

    ghost next_gives = { YieldsFirstRef (λ s. lines_of s.rest.now) };

    ghost remaining = { λ s. at_most (length s.rest.now) };

    fn next(&mut self) -> Option<&'a [u8]> {
        let end = self.rest.iter().position(|b| *b == NEWLINE)?;
        let line = &self.rest[..end];
        self.rest = &self.rest[end + 1..];
        Some(line)
    }
}

// Which line, from 0, is just this word.
pub(crate) fn find_line(text: &[u8], word: &[u8]) -> Option<usize>
    ensures value { result ≡ position word.now (lines_of text.now) }
    ensures finds { Finds word.now (lines_of text.now) result }
{
    Lines::new(text).position(|line| line == word)
}
