// What words, numbers and signs are to the grammar.
use crate::choice::{CommandStart, LiteralStart, Operand};
use crate::lex::lexeme_of;
use crate::lexeme::Lexeme;
use faults::ReaderCause;
use names::NameList;
use scanner::token_at;
use std::test::Fail;

// The first lexeme of a text.
fn first(text: &str) -> Result<Lexeme, Fail> {
    let names = NameList::read(b"locked\nweight\nback\n")
        .ok()
        .ok_or("it is a list")?;
    Ok(lexeme_of(&names, text.as_bytes(), token_at(text.as_bytes(), 0)))
}

#[test]
fn numbers_up_to_the_largest(rt: HostRuntime) -> Result<(), Fail> {
    for (text, operand) in [
        ("0", Ok(Operand::Number(0))),
        ("007;", Ok(Operand::Number(7))),
        ("2147483647", Ok(Operand::Number(2147483647))),
        ("2147483648", Err(ReaderCause::NumberTooLarge)),
        ("4294967297", Err(ReaderCause::NumberTooLarge)),
        ("18446744073709551617", Err(ReaderCause::NumberTooLarge)),
        ("000000000000000000000000000000001", Ok(Operand::Number(1))),
    ] {
        assert_eq!(rt; first(text)?.operand(), operand);
    }
    Ok(())
}

#[test]
fn names_by_their_points(rt: HostRuntime) -> Result<(), Fail> {
    for (text, start) in [
        ("locked", Ok(CommandStart::Set(0))),
        (" back=1;", Ok(CommandStart::Set(2))),
        ("backs", Err(ReaderCause::UnlistedName)),
        ("If", Err(ReaderCause::UnlistedName)),
    ] {
        assert_eq!(rt; first(text)?.command_start(), start);
    }
    Ok(())
}

#[test]
fn truths_begin_literals(rt: HostRuntime) -> Result<(), Fail> {
    for (text, start) in [
        ("true", LiteralStart::Truth(true)),
        ("false", LiteralStart::Truth(false)),
        ("truth", LiteralStart::Sum),
    ] {
        assert_eq!(rt; first(text)?.literal_start(), start);
    }
    Ok(())
}
