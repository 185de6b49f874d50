// Why working something out does not come to its end.
ghost use Rattle.std.specs.Prelude.{◌≡◌};
ghost use Rattle.screen.specs.Stopping.{stop_fault, IsFaultOf};

use faults::{Fault, Layer, RunCause};

// Why and where a run stops, and the steps made by then, the stopping one counted.
#[derive(Clone, Copy)]
pub(crate) struct Stop {
    pub(crate) cause: RunCause,
    pub(crate) place: u16,
    pub(crate) spent: u64,
}

impl From<Stop> for Fault {
    ghost from_gives = { IsFaultOf };

    fn from(stop: Stop) -> Fault
        ensures { result ≡ stop_fault stop.cause stop.place }
    {
        Fault::new(Layer::Run(stop.cause), usize::from(stop.place))
    }
}

// Why a run does not end within its allowance.
#[derive(Clone, Copy)]
pub(crate) enum Halt {
    Stopped(Stop),
    Spent,
}
