// A draft: a bank with writes on top that are not its own yet. One that is let go has done nothing.
ghost use Rattle.std.specs.Prelude.{◌≡◌};
ghost use Rattle.banks.specs.Points.{answer, wrote};
ghost use Rattle.banks.specs.Draft.{ground, saved, shown, stays};
ghost use Rattle.banks.specs.Overlay.{opened};
ghost use Rattle.banks.specs.Laws.{Direct, AsOne};

use crate::bank::{Bank, Reading, Writing};
use crate::overlay::Overlay;
use faults::Fault;

#[derive(Drop)]
pub struct Draft<'a, B> {
    below: &'a mut B,
    over: Overlay,
}

impl<'a, B: Bank> Draft<'a, B> {
    pub fn new(below: &'a mut B) -> Draft<'a, B>
        ensures value { (ground result, saved result) ≡ opened below.old }
        ensures loan { result.below.ghost_name ≡ below.entry.ghost_name }
    {
        Draft {
            below,
            over: Overlay::new(),
        }
    }

    // The writes go down, and the draft is blank again.
    pub fn keep(&mut self)
        ensures value { (B.points (ground self.new), saved self.new) ≡ opened (shown B.points self.old) }
        ensures same { B.fixed (ground self.new) ≡ B.fixed (ground self.old) }
        ensures loan { self.new.below.ghost_name ≡ self.old.below.ghost_name }
        ensures direct { Direct (B.points (ground self.old)) (saved self.old) (B.points (ground self.new)) }
        ensures one { AsOne (B.points (ground self.old)) (saved self.old) (B.points (ground self.new)) }
    {
        let Draft { below, over } = self;
        over.keep(&mut **below);
        *over = Overlay::new();
    }

    // The writes go away, and the draft is blank again.
    pub fn discard(&mut self)
        ensures value { (ground self.new, saved self.new) ≡ opened (ground self.old) }
        ensures loan { self.new.below.ghost_name ≡ self.old.below.ghost_name }
    {
        self.over = Overlay::new();
    }
}

impl<'a, B: Bank> Bank for Draft<'a, B> {
    ghost points = { shown B.Bank.points };

    ghost fixed = { stays B.Bank.points B.Bank.fixed };

    fn count(&self) -> usize {
        self.below.count()
    }

    fn read(&self, point: usize) -> Reading {
        self.over.read(&*self.below, point)
    }

    fn write(&mut self, point: usize, value: i32) -> Result<Writing, Fault>
        ensures value { (answer result, shown B.Bank.points self.new) ≡ wrote (shown B.Bank.points self.old) point value }
        ensures same { stays B.Bank.points B.Bank.fixed self.new ≡ stays B.Bank.points B.Bank.fixed self.old }
        ensures untouched { ground self.new ≡ ground self.old }
    {
        let count = self.below.count();
        self.over.note(count, point, value)
    }
}
