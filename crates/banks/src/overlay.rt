// The writes of a draft, apart from the bank that they lie on. The bank is only borrowed, call by call, so a station
// can hold an overlay from one call to the next, read its bank meanwhile, and lay a second overlay over it.
ghost use Rattle.std.specs.Prelude.{◌≡◌, ◌≤◌, List, length, ℤ};
ghost use Rattle.banks.specs.Points.{answer, told, wrote};
ghost use Rattle.banks.specs.Overlay.{overlaid, blank, first, noted};
ghost use Rattle.banks.specs.Laws.{Direct, AsOne};

use crate::bank::{Bank, MOST_POINTS, Reading, Writing, no_point};
use faults::Fault;

#[derive(Clone, Copy)]
pub struct Overlay {
    // for each point that a bank can have the number written to it, if any; an array, since there is no heap
    held: [Option<i32>; MOST_POINTS],
    ghost whole: { length held ≡ 64 },
}

impl Overlay {
    pub fn new() -> Overlay
        ensures value { result.held ≡ blank }
        ensures clear { (xs : List ℤ) → overlaid xs result.held ≡ xs }
    {
        Overlay {
            held: [None; MOST_POINTS],
        }
    }

    pub fn read<B: Bank>(&self, bank: &B, point: usize) -> Reading
        ensures { result.value ≡ told (overlaid (B.points bank.now) self.now.held) point }
    {
        if point >= bank.count() {
            return Reading { value: None };
        }
        seen(self.held[point], bank, point)
    }

    // The bank is borrowed to know where its points end.
    pub fn write<B: Bank>(&mut self, bank: &B, point: usize, value: i32) -> Result<Writing, Fault>
        ensures value { (answer result, self.new.held) ≡ noted (length (B.points bank.now)) self.old.held point value }
        ensures seen { (answer result, overlaid (B.points bank.now) self.new.held) ≡ wrote (overlaid (B.points bank.now) self.old.held) point value }
    {
        let count = bank.count();
        self.note(count, point, value)
    }

    // A write on top of as many points as a bank has.
    pub(crate) fn note(&mut self, count: usize, point: usize, value: i32) -> Result<Writing, Fault>
        requires { count ≤ 64 }
        ensures { (answer result, self.new.held) ≡ noted count self.old.held point value }
    {
        if point >= count {
            return Err(no_point(point));
        }
        self.held[point] = Some(value);
        Ok(Writing { value })
    }

    // Each saved point is written down once, in point order.
    pub fn keep<B: Bank>(&self, bank: &mut B)
        ensures value { B.points bank.new ≡ overlaid (B.points bank.old) self.now.held }
        ensures same { B.fixed bank.new ≡ B.fixed bank.old }
        ensures direct { Direct (B.points bank.old) self.now.held (B.points bank.new) }
        ensures one { AsOne (B.points bank.old) self.now.held (B.points bank.new) }
    {
        let count = bank.count();
        for (point, on_top) in self.held[..count].iter().enumerate() {
            if let Some(value) = *on_top {
                let _ = bank.write(point, value);
            }
        }
    }
}

// The number on top where there is one, else what the bank below tells.
fn seen<B: Bank>(on_top: Option<i32>, bank: &B, point: usize) -> Reading
    ensures { result.value ≡ first on_top (told (B.points bank.now) point) }
{
    match on_top {
        Some(value) => Reading { value: Some(value) },
        None => bank.read(point),
    }
}
