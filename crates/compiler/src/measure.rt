// How long a tree's code is, how deep it makes the stack, and which of its rows is the first that is too deep.
ghost use Rattle.std.specs.Prelude.{◌≡◌, ◌+◌, ◌<◌, ◌^◌};
ghost use Rattle.compiler.specs.Measures.{own_length, leaf_measure, one_measure, above_measure, then_measure};

use crate::shape::Shape;

pub const MOST_DEPTH: u32 = 64;

// The place is that of the first row, in table order, whose depth is over the limit.
#[derive(Clone, Copy)]
pub struct Measure {
    pub length: u32,
    pub depth: u32,
    pub deep: Option<u16>,
}

impl Measure {
    pub(crate) fn leaf() -> Measure
        ensures { result ≡ leaf_measure }
    {
        Measure {
            length: 1,
            depth: 1,
            deep: None,
        }
    }

    // The same, worked out above one value more.
    pub(crate) fn above(self) -> Measure
        requires { self.depth + 1 < 2 ^ 32 }
        ensures { result ≡ above_measure self }
    {
        Measure {
            depth: self.depth + 1,
            ..self
        }
    }

    // One part and then another.
    pub(crate) fn then(self, next: Measure) -> Measure
        requires { self.length + next.length < 2 ^ 32 }
        ensures { result ≡ then_measure self next }
    {
        Measure {
            length: self.length + next.length,
            depth: self.depth.max(next.depth),
            deep: self.deep.or(next.deep),
        }
    }

    // Parts with their row, which comes after their rows: so one of them that is too deep is the first.
    pub(crate) fn under(self, shape: Shape, place: u16) -> Measure
        requires { self.length + own_length shape < 2 ^ 32 }
        ensures { result ≡ one_measure shape place self }
    {
        Measure {
            length: self.length + shape.own_length(),
            deep: self.deep.or((self.depth > MOST_DEPTH).then_some(place)),
            ..self
        }
    }
}
