// The words that the language keeps for itself.
ghost use Rattle.std.specs.Prelude.{◌≡◌};
ghost use Rattle.names.specs.Names.{is_reserved};

pub(crate) fn is_reserved(word: &[u8]) -> bool
    ensures { result ≡ is_reserved word.now }
{
    matches!(word, b"if" | b"else" | b"while" | b"true" | b"false")
}
