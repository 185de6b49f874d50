// A file that was read. It has room for the most that a file can hold, so a good file always fits: there is no heap, and
// the instructions and the places stand apart since each of them is handed out as one slice.
use crate::MOST_INSTRUCTIONS;
use crate::counts::Counts;
use instructions::Instruction;

#[derive(Clone, Copy)]
pub struct StationFile {
    pub(crate) counts: Counts,
    pub(crate) instructions: [Instruction; MOST_INSTRUCTIONS],
    pub(crate) places: [u16; MOST_INSTRUCTIONS],
}
