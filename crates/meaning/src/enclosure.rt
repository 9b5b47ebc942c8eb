//! What a statement stands in.

ghost use Rattle.std.specs.Prelude.{◌≡◌};
ghost use Rattle.meaning.specs.Enclosure as spec;

/// Whether `break` and `continue` may stand where a statement stands: `break` in a loop or a
/// `switch`, `continue` in a loop.
#[derive(Clone, Copy)]
pub struct Enclosure {
    pub can_break: bool,
    pub can_continue: bool,
}

/// The body of a routine.
pub const OUTSIDE: Enclosure = Enclosure {
    can_break: false,
    can_continue: false,
};

/// The cases of a `switch`: it takes `break`, and leaves `continue` to the loop around it.
pub fn in_switch(around: Enclosure) -> Enclosure
    ensures { result ≡ spec.in_switch around }
{
    Enclosure {
        can_break: true,
        can_continue: around.can_continue,
    }
}

/// The body of a loop.
pub const IN_LOOP: Enclosure = Enclosure {
    can_break: true,
    can_continue: true,
};
