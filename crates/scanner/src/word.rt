// Words: a letter or an underscore, then letters, digits and underscores.
ghost use Rattle.std.specs.Prelude.{◌≡◌};
ghost use Rattle.scanner.specs.Words.{begins_word, goes_on, is_word};

pub fn is_word(bytes: &[u8]) -> bool
    ensures { result ≡ is_word bytes.now }
{
    match bytes {
        [] => false,
        [first, rest @ ..] => begins_word(*first) && rest.iter().all(|b| goes_on(*b)),
    }
}

pub(crate) fn begins_word(b: u8) -> bool
    ensures { result ≡ begins_word b }
{
    b.is_ascii_alphabetic() || b == b'_'
}

pub(crate) fn goes_on(b: u8) -> bool
    ensures { result ≡ goes_on b }
{
    b.is_ascii_alphanumeric() || b == b'_'
}
