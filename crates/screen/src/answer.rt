// What a sheet comes to.
use faults::Fault;

// The fault for which it stopped, or none where it ended: the record that a refusal is too. A stopping step is counted.
#[derive(Clone, Copy, PartialEq, Eq, Debug)]
pub struct Outcome {
    pub stop: Option<Fault>,
    pub cost: u32,
}
