//! What stops a run.

ghost use Rattle.std.specs.Prelude.{◌≡◌};

use session_lines::WriteFailed;
use thiserror::Error;

/// What stopped a run. `Display` writes the number alone.
#[derive(Clone, Copy, Debug, PartialEq, Eq, Error)]
pub enum RunFault {
    /// A read failed, or the input had no end after 2^64 - 1 reads.
    #[error("S1")]
    Reading,

    /// A write or a flush failed, or a write took no byte.
    #[error("S2")]
    Writing,
}

impl From<WriteFailed> for RunFault {
    ghost use Rattle.session_run.specs.declared.fault.RunFault.TheVariants.{Writing};

    ghost from_gives = { λ _ fault. fault ≡ Writing };

    fn from(_: WriteFailed) -> RunFault {
        RunFault::Writing
    }
}
