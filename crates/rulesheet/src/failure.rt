// Why a task was not done.
use std::alloc::AllocError;
use std::{fmt, io};

#[derive(Drop)]
pub(crate) enum Failure {
    // Something was refused, and that has been said by then.
    Refused,
    // Memory ran out, or what there was to say could not be said.
    Output(io::Error),
}

impl Failure {
    // Tells on standard error what is refused, and answers that it was. It is told at once, since words that are kept would
    // need memory, and that may just have run out.
    pub(crate) fn tell<D: fmt::Display + Drop>(rt: &HostRuntime, words: D) -> Failure {
        match eprintln!(rt; "rulesheet: {words}") {
            Ok(()) => Failure::Refused,
            Err(e) => Failure::Output(e),
        }
    }
}

impl From<io::Error> for Failure {
    fn from(e: io::Error) -> Failure {
        Failure::Output(e)
    }
}

impl From<AllocError> for Failure {
    fn from(e: AllocError) -> Failure {
        Failure::Output(io::Error::from(e))
    }
}
