// The states of a file that is being written, one for each section. Each is passed on by the call that writes its
// section, so that no section can be written twice or out of turn; the bytes stay with the caller.

// Nothing is written yet.
#[derive(Drop)]
pub struct Begin {
    pub(crate) at: usize,
}

// The instructions stand, and as many places are to come.
#[derive(Drop)]
pub struct AfterInstructions {
    pub(crate) at: usize,
    pub(crate) count: u16,
}

// The file is whole, and this long.
#[derive(Drop)]
pub struct Written {
    pub length: usize,
}
