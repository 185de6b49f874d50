// What a run works by: its table's rows, and how many steps it may make. Its methods take it by reference: by value it would
// go through memory, and each call of a deep run would hold a copy.
ghost use Rattle.std.specs.Prelude.{◌≡◌, ◌-◌, ◌≤◌, Ok, length, slice_index_or};
ghost use Rattle.tables.specs.Rows.{blank};
ghost use Rattle.screen.specs.Allowing.{allowed, halted};
ghost use Rattle.screen.specs.OneMore.{one_more};

use crate::halt::{Halt, Stop};
use tables::Row;

#[derive(Clone, Copy)]
pub(crate) struct Work<'a> {
    pub(crate) rows: &'a [Row],
    pub(crate) allowance: u32,
    ghost few: { length rows.now ≤ 2048 },
}

impl Work<'_> {
    // Where the part begins that ends at `end`: the part before it ends there.
    pub(crate) fn start_of(&self, end: usize) -> usize
        requires some { 1 ≤ end }
        requires within { end ≤ length self.now.rows.now }
        requires whole { (slice_index_or self.now.rows.now (end - 1) blank).size ≤ end }
        ensures { result ≡ end - (slice_index_or self.now.rows.now (end - 1) blank).size }
    {
        end - self.rows[end - 1].size as usize
    }

    // So many steps, where they are within the allowance.
    pub(crate) fn allow(&self, steps: u64) -> Result<u32, Halt>
        ensures { result ≡ allowed self.now.allowance steps }
    {
        if steps <= u64::from(self.allowance) {
            Ok(steps as u32)
        } else {
            Err(Halt::Spent)
        }
    }

    // What a stop comes to: the allowance may be spent before it.
    pub(crate) fn halt(&self, stop: Stop) -> Halt
        ensures { result ≡ halted self.now.allowance stop }
    {
        if stop.spent > u64::from(self.allowance) {
            Halt::Spent
        } else {
            Halt::Stopped(stop)
        }
    }

    pub(crate) fn one_more(&self, made: u32) -> Result<u32, Halt>
        ensures { result ≡ one_more (Ok made) self.now.allowance }
    {
        self.allow(u64::from(made) + 1)
    }
}
