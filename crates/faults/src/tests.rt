// Every refusal with its number, and the sentences as a person sees them.
use crate::causes::{
    BankCause, CompilerCause, FileCause, Layer, ReaderCause, RunCause, StationCause, TableCause,
};
use crate::fault::Fault;
use std::test::Fail;

#[test]
fn numbers_run_from_1_to_21(rt: HostRuntime) {
    let all = [
        Layer::Reader(ReaderCause::BadList),
        Layer::Reader(ReaderCause::SheetTooLong),
        Layer::Reader(ReaderCause::NoToken),
        Layer::Reader(ReaderCause::NumberTooLarge),
        Layer::Reader(ReaderCause::UnlistedName),
        Layer::Reader(ReaderCause::Unexpected),
        Layer::Reader(ReaderCause::TooManyOpen),
        Layer::Table(TableCause::TooFewSlots),
        Layer::Table(TableCause::NoTable),
        Layer::Compiler(CompilerCause::TooDeep),
        Layer::Compiler(CompilerCause::TooLong),
        Layer::File(FileCause::NoSpace),
        Layer::File(FileCause::NoFile),
        Layer::Station(StationCause::OtherPointCount),
        Layer::Station(StationCause::Running),
        Layer::Station(StationCause::NothingLoaded),
        Layer::Station(StationCause::NotRunning),
        Layer::Bank(BankCause::NoPoint),
        Layer::Run(RunCause::AllowanceSpent),
        Layer::Run(RunCause::ZeroDivisor),
        Layer::Run(RunCause::StackBreach),
    ];
    for (i, layer) in all.iter().enumerate() {
        let fault = Fault {
            layer: *layer,
            figure: 0,
        };
        assert_eq!(rt; fault.number() as usize, i.saturating_add(1));
    }
}

#[test]
fn a_fault_reads_as_a_sentence(rt: HostRuntime) -> Result<(), Fail> {
    let fault = Fault {
        layer: Layer::Run(RunCause::ZeroDivisor),
        figure: 14,
    };
    let text = fault.to_string(rt.alloc())?;
    assert_eq!(rt;
        text.as_str(),
        "run refusal 20, figure 14: the divisor of the division at this place is zero"
    );
    let cause = Layer::Table(TableCause::NoTable).to_string(rt.alloc())?;
    assert_eq!(rt; cause.as_str(), "the rows are no table");
    Ok(())
}
