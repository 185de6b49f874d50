// The two counts of a file, of its points and of its instructions.
ghost use Rattle.std.specs.Prelude.{◌≤◌};

#[derive(Clone, Copy)]
pub(crate) struct Counts {
    pub(crate) points: usize,
    pub(crate) instructions: usize,
    ghost few_points: { points ≤ 64 },
    ghost few: { instructions ≤ 1024 },
}
