// A bank that notes which points it was told to write, for looking at the order.
use banks::{Bank, Reading, Writing};
use faults::Fault;

#[derive(Drop)]
pub struct Log<B> {
    pub below: B,
    pub points: [usize; 64],
    pub made: usize,
}

impl<B: Bank> Bank for Log<B> {
    ghost points = { λ l. B.Bank.points l.below };

    ghost fixed = { λ l. B.Bank.fixed l.below };

    fn count(&self) -> usize {
        self.below.count()
    }

    fn read(&self, point: usize) -> Reading {
        self.below.read(point)
    }

    fn write(&mut self, point: usize, value: i32) -> Result<Writing, Fault> {
        if self.made < 64 {
            self.points[self.made] = point;
            self.made += 1;
        }
        self.below.write(point, value)
    }
}
