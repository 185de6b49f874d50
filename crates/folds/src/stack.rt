// A stack of values in a lent slice: one for every kind of value.
ghost use Rattle.std.specs.Prelude.{◌≡◌, ℕ, ◌+◌, ◌-◌, ◌<◌, ◌≤◌, [], ◌∷◌, length, drop, Some, slice_get};
ghost use Rattle.folds.specs.Stacks.{top_first};

// The first `held` slots hold values, the last of these being the top. The slice is lent and its length counted beside
// it, since the library uses no heap. The clauses named `lender` say that it is still the caller's own.
#[derive(Drop)]
pub(crate) struct Stack<'a, T> {
    slots: &'a mut [T],
    held: usize,
    ghost within: { held ≤ length slots.now },
}

impl<'a, T: Copy> Stack<'a, T> {
    pub(crate) fn new(slots: &'a mut [T]) -> Stack<'a, T>
        ensures items { top_first result.held result.slots.now ≡ [] }
        ensures held { result.held ≡ 0 }
        ensures slots { result.slots.now ≡ slots.old }
        ensures lender { result.slots.ghost_name ≡ slots.entry.ghost_name }
    {
        Stack { slots, held: 0 }
    }

    // The value so far below the top.
    pub(crate) fn peek(&self, below: usize) -> T
        requires { below < self.now.held }
        ensures { Some result ≡ slice_get (top_first self.now.held self.now.slots.now) below }
    {
        self.slots[self.held - 1 - below]
    }

    // One value in the place of so many from the top.
    pub(crate) fn replace(&mut self, taken: usize, value: T)
        requires parts { taken ≤ self.old.held }
        requires room { self.old.held - taken < length self.old.slots.now }
        ensures items { top_first self.new.held self.new.slots.now ≡ value ∷ drop taken (top_first self.old.held self.old.slots.now) }
        ensures held { self.new.held ≤ self.old.held + 1 }
        ensures size { length self.new.slots.now ≡ length self.old.slots.now }
        ensures spare { (n : ℕ) → self.old.held < n → drop n self.new.slots.now ≡ drop n self.old.slots.now }
        ensures lender { self.new.slots.ghost_name ≡ self.old.slots.ghost_name }
    {
        self.held -= taken;
        self.slots[self.held] = value;
        self.held += 1;
    }
}
