// A bank that owns its numbers.
ghost use Rattle.std.specs.Prelude.{◌≡◌, ◌<◌, ◌≤◌, [], take, pos, slice_index_or, slice_set};

use crate::bank::{Bank, MOST_POINTS, Reading, Writing, no_point};
use faults::Fault;

// An array with a count beside, since there is no heap: a station's memory is fixed.
#[derive(Drop)]
pub struct Registers {
    numbers: [i32; MOST_POINTS],
    count: usize,
    ghost few: { count ≤ 64 },
}

impl Registers {
    ghost use Rattle.banks.specs.Registers.{cleared, made};

    pub fn new(count: usize) -> Result<Registers, Fault>
        ensures { made result ≡ cleared count }
    {
        if count > MOST_POINTS {
            return Err(no_point(count));
        }
        Ok(Registers {
            numbers: [0; MOST_POINTS],
            count,
        })
    }

    fn number(&self, at: usize) -> i32
        requires { at < 64 }
        ensures { result ≡ slice_index_or self.now.numbers at (pos 0) }
    {
        self.numbers[at]
    }

    fn put(&mut self, point: usize, value: i32)
        requires { point < 64 }
        ensures numbers { self.new.numbers ≡ slice_set self.old.numbers point value }
        ensures count { self.new.count ≡ self.old.count }
    {
        self.numbers[point] = value;
    }
}

impl Bank for Registers {
    ghost use Rattle.banks.specs.Registers.{numbers_of};

    ghost points = { numbers_of };

    ghost fixed = { λ _. [] };

    fn count(&self) -> usize {
        self.count
    }

    fn read(&self, point: usize) -> Reading {
        if point < self.count {
            Reading {
                value: Some(self.number(point)),
            }
        } else {
            Reading { value: None }
        }
    }

    fn write(&mut self, point: usize, value: i32) -> Result<Writing, Fault> {
        if point < self.count {
            self.put(point, value);
            Ok(Writing { value })
        } else {
            Err(no_point(point))
        }
    }
}
