// Where reading stands in a text: a record of its own, since a search borrows it and puts it back.

#[derive(Clone, Copy, PartialEq, Eq, Debug)]
pub struct Position {
    pub at: usize,
}
