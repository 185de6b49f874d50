// Who refuses, and why. Every layer has its own enum of causes, so that what can only fail in one layer says so
// in its type.
ghost use Rattle.std.specs.Prelude.{◌≡◌};
ghost use Rattle.faults.specs.Numbers.{number_of};

#[derive(Clone, Copy, PartialEq, Eq, Debug)]
pub enum Layer {
    Reader(ReaderCause),
    Table(TableCause),
    Compiler(CompilerCause),
    File(FileCause),
    Station(StationCause),
    Bank(BankCause),
    Run(RunCause),
}

// Reading a name list and a sheet.
#[derive(Clone, Copy, PartialEq, Eq, Debug)]
pub enum ReaderCause {
    BadList,
    SheetTooLong,
    NoToken,
    NumberTooLarge,
    UnlistedName,
    Unexpected,
    TooManyOpen,
}

// Rows, whoever made them.
#[derive(Clone, Copy, PartialEq, Eq, Debug)]
pub enum TableCause {
    TooFewSlots,
    NoTable,
}

// Making stack code from a table.
#[derive(Clone, Copy, PartialEq, Eq, Debug)]
pub enum CompilerCause {
    TooDeep,
    TooLong,
}

// Writing and reading a station file.
#[derive(Clone, Copy, PartialEq, Eq, Debug)]
pub enum FileCause {
    NoSpace,
    NoFile,
}

// A station's calls.
#[derive(Clone, Copy, PartialEq, Eq, Debug)]
pub enum StationCause {
    OtherPointCount,
    Running,
    NothingLoaded,
    NotRunning,
}

// The points of a bank.
#[derive(Clone, Copy, PartialEq, Eq, Debug)]
pub enum BankCause {
    NoPoint,
}

// Working a sheet out, on the screen and on the station.
#[derive(Clone, Copy, PartialEq, Eq, Debug)]
pub enum RunCause {
    AllowanceSpent,
    ZeroDivisor,
    StackBreach,
}

impl Layer {
    // A refusal's number is what people tell each other, so it has a name of its own and is no conversion.
    pub fn number(self) -> u8
        ensures { result ≡ number_of self }
    {
        match self {
            Layer::Reader(ReaderCause::BadList) => 1,
            Layer::Reader(ReaderCause::SheetTooLong) => 2,
            Layer::Reader(ReaderCause::NoToken) => 3,
            Layer::Reader(ReaderCause::NumberTooLarge) => 4,
            Layer::Reader(ReaderCause::UnlistedName) => 5,
            Layer::Reader(ReaderCause::Unexpected) => 6,
            Layer::Reader(ReaderCause::TooManyOpen) => 7,
            Layer::Table(TableCause::TooFewSlots) => 8,
            Layer::Table(TableCause::NoTable) => 9,
            Layer::Compiler(CompilerCause::TooDeep) => 10,
            Layer::Compiler(CompilerCause::TooLong) => 11,
            Layer::File(FileCause::NoSpace) => 12,
            Layer::File(FileCause::NoFile) => 13,
            Layer::Station(StationCause::OtherPointCount) => 14,
            Layer::Station(StationCause::Running) => 15,
            Layer::Station(StationCause::NothingLoaded) => 16,
            Layer::Station(StationCause::NotRunning) => 17,
            Layer::Bank(BankCause::NoPoint) => 18,
            Layer::Run(RunCause::AllowanceSpent) => 19,
            Layer::Run(RunCause::ZeroDivisor) => 20,
            Layer::Run(RunCause::StackBreach) => 21,
        }
    }
}
