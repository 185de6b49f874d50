// What a lexeme is to each place in a sheet at which it can stand: the tables by which reading goes on.
ghost use Rattle.std.specs.Prelude.{◌≡◌};
ghost use Rattle.grammar.specs.Choices.{operand_of, join_of, comparison_of, literal_of, link_of, command_of, mark_of, refusal_of};

use crate::lexeme::Lexeme;
use arith::{Comparison, Operator};
use faults::ReaderCause;

// Where a factor is wanted.
#[derive(Clone, Copy, PartialEq, Eq, Debug)]
pub enum Operand {
    Number(i32),
    Name(usize),
    Bracket,
}

// Behind a factor.
#[derive(Clone, Copy, PartialEq, Eq, Debug)]
pub enum Join {
    Additive(Operator),
    Multiplicative(Operator),
}

// Where a literal is wanted. A sum begins where nothing else does.
#[derive(Clone, Copy, PartialEq, Eq, Debug)]
pub enum LiteralStart {
    Truth(bool),
    Not,
    Bracket,
    Sum,
}

// Behind a literal.
#[derive(Clone, Copy, PartialEq, Eq, Debug)]
pub enum Link {
    And,
    Or,
}

// Where a command is wanted, or the end of its block.
#[derive(Clone, Copy, PartialEq, Eq, Debug)]
pub enum CommandStart {
    Set(usize),
    If,
    While,
    CloseBlock,
    End,
}

// Where one sign or word alone may stand.
#[derive(Clone, Copy, PartialEq, Eq, Debug)]
pub enum Mark {
    Else,
    Open,
    Close,
    OpenBlock,
    Semicolon,
    Becomes,
}

impl Lexeme {
    pub fn operand(self) -> Result<Operand, ReaderCause>
        ensures { result ≡ operand_of self }
    {
        match self {
            Lexeme::Number(value) => Ok(Operand::Number(value)),
            Lexeme::Name(point) => Ok(Operand::Name(point)),
            Lexeme::Open => Ok(Operand::Bracket),
            Lexeme::TooLarge => Err(ReaderCause::NumberTooLarge),
            Lexeme::Unlisted => Err(ReaderCause::UnlistedName),
            _ => Err(self.refusal()),
        }
    }

    pub fn join(self) -> Option<Join>
        ensures { result ≡ join_of self }
    {
        match self {
            Lexeme::Additive(operator) => Some(Join::Additive(operator)),
            Lexeme::Multiplicative(operator) => Some(Join::Multiplicative(operator)),
            _ => None,
        }
    }

    pub fn comparison(self) -> Option<Comparison>
        ensures { result ≡ comparison_of self }
    {
        match self {
            Lexeme::Compare(comparison) => Some(comparison),
            _ => None,
        }
    }

    pub fn literal_start(self) -> LiteralStart
        ensures { result ≡ literal_of self }
    {
        match self {
            Lexeme::Truth(value) => LiteralStart::Truth(value),
            Lexeme::Not => LiteralStart::Not,
            Lexeme::Open => LiteralStart::Bracket,
            _ => LiteralStart::Sum,
        }
    }

    pub fn link(self) -> Option<Link>
        ensures { result ≡ link_of self }
    {
        match self {
            Lexeme::And => Some(Link::And),
            Lexeme::Or => Some(Link::Or),
            _ => None,
        }
    }

    pub fn command_start(self) -> Result<CommandStart, ReaderCause>
        ensures { result ≡ command_of self }
    {
        match self {
            Lexeme::Name(point) => Ok(CommandStart::Set(point)),
            Lexeme::If => Ok(CommandStart::If),
            Lexeme::While => Ok(CommandStart::While),
            Lexeme::CloseBlock => Ok(CommandStart::CloseBlock),
            Lexeme::End => Ok(CommandStart::End),
            Lexeme::Unlisted => Err(ReaderCause::UnlistedName),
            _ => Err(self.refusal()),
        }
    }

    pub fn mark(self) -> Option<Mark>
        ensures { result ≡ mark_of self }
    {
        match self {
            Lexeme::Else => Some(Mark::Else),
            Lexeme::Open => Some(Mark::Open),
            Lexeme::Close => Some(Mark::Close),
            Lexeme::OpenBlock => Some(Mark::OpenBlock),
            Lexeme::Semicolon => Some(Mark::Semicolon),
            Lexeme::Becomes => Some(Mark::Becomes),
            _ => None,
        }
    }

    // Why it is refused where no rule takes it.
    pub fn refusal(self) -> ReaderCause
        ensures { result ≡ refusal_of self }
    {
        match self {
            Lexeme::Stray => ReaderCause::NoToken,
            _ => ReaderCause::Unexpected,
        }
    }
}
