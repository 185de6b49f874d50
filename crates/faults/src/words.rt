// Refusals in words, for people.
ghost use Rattle.std.specs.Prelude.{◌≡◌, Some};
ghost use Rattle.faults.specs.Words.{layer_name, reader_words, table_words, compiler_words, file_words, station_words, bank_words, run_words, cause_words, fault_words};

use crate::causes::{
    BankCause, CompilerCause, FileCause, Layer, ReaderCause, RunCause, StationCause, TableCause,
};
use crate::fault::Fault;
use std::fmt;

impl Layer {
    pub fn name(self) -> &'static str
        ensures { result.now ≡ layer_name self }
    {
        match self {
            Layer::Reader(_) => "reader",
            Layer::Table(_) => "table",
            Layer::Compiler(_) => "compiler",
            Layer::File(_) => "file",
            Layer::Station(_) => "station",
            Layer::Bank(_) => "bank",
            Layer::Run(_) => "run",
        }
    }

    // What is wrong. "This" is the figure that comes with it.
    pub fn words(self) -> &'static str
        ensures { result.now ≡ cause_words self }
    {
        match self {
            Layer::Reader(cause) => cause.words(),
            Layer::Table(cause) => cause.words(),
            Layer::Compiler(cause) => cause.words(),
            Layer::File(cause) => cause.words(),
            Layer::Station(cause) => cause.words(),
            Layer::Bank(cause) => cause.words(),
            Layer::Run(cause) => cause.words(),
        }
    }
}

impl ReaderCause {
    fn words(self) -> &'static str
        ensures { result.now ≡ reader_words self }
    {
        match self {
            ReaderCause::BadList =>
                "the name list breaks its rules on the line that starts at this byte",
            ReaderCause::SheetTooLong => "the sheet has more than this many bytes",
            ReaderCause::NoToken => "the byte at this place begins no token",
            ReaderCause::NumberTooLarge => "the number at this place is over 2,147,483,647",
            ReaderCause::UnlistedName => "the name at this place is not in the name list",
            ReaderCause::Unexpected =>
                "no rule takes the token at this place, or the sheet ends here too early",
            ReaderCause::TooManyOpen => "the bracket at this place is the 33rd open one",
        }
    }
}

impl TableCause {
    fn words(self) -> &'static str
        ensures { result.now ≡ table_words self }
    {
        match self {
            TableCause::TooFewSlots =>
                "there are more rows than slots given, or than 2,048; this many slots are needed",
            TableCause::NoTable => "the rows are no table",
        }
    }
}

impl CompilerCause {
    fn words(self) -> &'static str
        ensures { result.now ≡ compiler_words self }
    {
        match self {
            CompilerCause::TooDeep => "the row at this place needs a stack deeper than 64",
            CompilerCause::TooLong =>
                "the code is longer than 1,024 instructions, or than the slots given; this many are needed",
        }
    }
}

impl FileCause {
    fn words(self) -> &'static str
        ensures { result.now ≡ file_words self }
    {
        match self {
            FileCause::NoSpace =>
                "the section is larger than the space left; it has this many bytes",
            FileCause::NoFile =>
                "this is no station file, or not the instructions or places of one; the first wrong field is at this position or index",
        }
    }
}

impl StationCause {
    fn words(self) -> &'static str
        ensures { result.now ≡ station_words self }
    {
        match self {
            StationCause::OtherPointCount =>
                "the file is for this many points, and the bank has another number of them",
            StationCause::Running => "this cannot be done during a run",
            StationCause::NothingLoaded => "nothing is loaded",
            StationCause::NotRunning => "there is no run",
        }
    }
}

impl BankCause {
    fn words(self) -> &'static str
        ensures { result.now ≡ bank_words self }
    {
        match self {
            BankCause::NoPoint => "there is no such point, or there are more than 64 points",
        }
    }
}

impl RunCause {
    fn words(self) -> &'static str
        ensures { result.now ≡ run_words self }
    {
        match self {
            RunCause::AllowanceSpent =>
                "the sheet costs more steps than the allowance, which is this",
            RunCause::ZeroDivisor => "the divisor of the division at this place is zero",
            RunCause::StackBreach =>
                "the stack is too empty or too full for the instruction at this place",
        }
    }
}

impl fmt::Display for Layer {
    ghost output = { λ l. Some (cause_words l) };

    fn fmt<W: fmt::Write>(&self, f: &mut fmt::Formatter<W>) -> fmt::Result {
        let words = self.words();
        write!(f, "{words}")
    }
}

impl fmt::Display for Fault {
    ghost output = { λ x. Some (fault_words x) };

    fn fmt<W: fmt::Write>(&self, f: &mut fmt::Formatter<W>) -> fmt::Result {
        let layer = self.layer.name();
        let number = self.number();
        let figure = self.figure;
        let words = self.layer.words();
        write!(f, "{layer} refusal {number}, figure {figure}: {words}")
    }
}
