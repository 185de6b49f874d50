// Runs of bytes that pass one test.
ghost use Rattle.std.specs.Prelude.{◌≡◌};
ghost use Rattle.scanner.specs.Tokens.{is_blank};
ghost use Rattle.scanner.specs.Runs.{Class, Tells, run_end};

// The first place from `at` on whose byte fails the test, or where the text ends. Past the end that is `at`.
pub(crate) fn run_end<F: Fn(u8) -> bool>(text: &[u8], at: usize, belongs: F) -> usize
    requires { F.IsAlwaysCallable belongs }
    ensures { (class : Class) → Tells (F.post belongs) class → result ≡ run_end class text.now at }
{
    let Some(rest) = text.get(at..) else {
        return at;
    };
    at + rest.iter().position(|b| !belongs(*b)).unwrap_or(rest.len())
}

// Tab, newline, carriage return, space.
pub(crate) fn is_blank(b: u8) -> bool
    ensures { result ≡ is_blank b }
{
    matches!(b, b'\t' | b'\n' | b'\r' | b' ')
}
