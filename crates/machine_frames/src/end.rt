//! Why an instruction does not go on.

use journal::NoMemory;
use zcore::Place;

/// Why an instruction does not go on.
#[derive(Clone, Copy, Debug)]
pub enum End {
    /// A growth was refused: the turn is given up, and its store is as at its beginning.
    Memory,

    /// The turn ends here.
    Stop(Place),
}

impl From<NoMemory> for End {
    ghost use Rattle.std.specs.Prelude.{◌≡◌};
    ghost use Rattle.machine_frames.specs.declared.end.End.TheVariants.{Memory};

    ghost from_gives = { λ _ e. e ≡ Memory };

    fn from(_error: NoMemory) -> End {
        End::Memory
    }
}
