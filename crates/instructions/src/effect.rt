// What each instruction takes from the stack and leaves on it, as one table by code: whoever runs code and whoever
// judges code beforehand look here, so that they cannot differ.
ghost use Rattle.std.specs.Prelude.{◌≡◌, ◌<◌};
ghost use Rattle.instructions.specs.Effects.{effect_at};

#[derive(Clone, Copy, PartialEq, Eq, Debug)]
pub struct Effect {
    pub takes: u8,
    pub leaves: u8,
}

// Takes and leaves of Push, Load, Save, Pop, Add, Sub, Mul, Div, Cmp, Inv, And, Or, JumpF and Jump.
const EFFECTS: [(u8, u8); 14] = [
    (0, 1),
    (0, 1),
    (1, 1),
    (1, 0),
    (2, 1),
    (2, 1),
    (2, 1),
    (2, 1),
    (2, 1),
    (1, 1),
    (2, 1),
    (2, 1),
    (1, 0),
    (0, 0),
];

pub(crate) fn effect_at(code: u8) -> Effect
    requires { code < 14 }
    ensures { result ≡ effect_at code }
{
    let (takes, leaves) = EFFECTS[code as usize];
    Effect { takes, leaves }
}
