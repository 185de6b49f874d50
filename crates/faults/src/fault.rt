// The record that every refusal is.
ghost use Rattle.std.specs.Prelude.{◌≡◌};
ghost use Rattle.faults.specs.Numbers.{number_of, fault_of};

use crate::causes::Layer;

// The figure is a place, a count or a limit, as the cause has it; it is wide enough for any length.
#[derive(Clone, Copy, PartialEq, Eq, Debug)]
pub struct Fault {
    pub layer: Layer,
    pub figure: u64,
}

impl Fault {
    // Of a cause and a figure. Figures come as lengths and as places in what has a length.
    pub fn new(layer: Layer, figure: usize) -> Fault
        ensures { result ≡ fault_of layer figure }
    {
        Fault {
            layer,
            figure: figure as u64,
        }
    }

    pub fn number(self) -> u8
        ensures { result ≡ number_of self.layer }
    {
        self.layer.number()
    }
}
