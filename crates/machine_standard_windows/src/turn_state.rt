//! What goes with the place where a turn goes on.

ghost use Rattle.std.specs.Prelude.{◌≡◌, ◌==◌, if◌then◌else◌, [], None, Some};
ghost use Rattle.zcore_standard.specs.Windows.{begun_at};

use arrayvec::ArrayVec;
use zcore::StandardState;
use zcore_standard::{KeptStates, Stream, Upper};

/// How many streams may be open at once.
pub const MOST_STREAMS: usize = 16;

/// The lower window, by its number (Z-Machine Standards Document 1.1, section 8.7.2).
pub(crate) const LOWER: u16 = 0;

/// The upper one.
pub(crate) const UPPER: u16 = 1;

/// What goes with the place where a turn goes on.
#[derive(Drop)]
pub struct TurnState {
    /// What is kept between turns: the window and the dice.
    pub standard_state: StandardState,

    /// The states that the story has kept.
    pub kept: KeptStates,

    /// The open memory streams, the innermost first.
    pub streams: ArrayVec<Stream, MOST_STREAMS>,

    /// The upper window, where it has text to show.
    pub upper: Option<Upper>,
}

impl TurnState {
    /// What goes with the place where a turn goes on after so many bytes of text in the lower window, with
    /// these states kept: no stream is open, and the upper window is there, empty, if it is selected.
    pub fn new(standard_state: StandardState, kept: KeptStates, from: u32) -> TurnState
        ensures standard_state { result.standard_state ≡ standard_state }
        ensures kept { result.kept ≡ kept }
        ensures streams { result.streams.items ≡ [] }
        ensures upper { result.upper ≡ (if standard_state.window == 0 then None else Some (begun_at from)) }
    {
        let upper = match standard_state.window {
            LOWER => None,
            _ => Some(Upper {
                from,
                mark: from,
                row: 1,
            }),
        };
        TurnState {
            standard_state,
            kept,
            streams: ArrayVec::new(),
            upper,
        }
    }
}
