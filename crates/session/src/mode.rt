//! Which opcodes a story may use, and what a session keeps of its turns.

use zcore_standard_loading::StandardOptions;

/// The machine by which a story is played.
#[derive(Clone, Copy)]
pub enum Mode {
    /// The profile: the 64 opcodes that the compiler's stories and most small stories use.
    Profile,

    /// Every opcode of the Z-Machine Standards Document 1.1, on a plain terminal.
    Standard(StandardOptions),
}

/// What a session keeps for the turns that follow.
#[derive(Clone, Copy)]
pub struct Keep {
    /// How many turns at most can be undone. Without a number all can.
    pub turns: Option<u32>,

    /// Whether the picture of the upper window begins with that of the turn before, as on a screen. Otherwise
    /// each turn begins with a blank one, and shows only what it draws itself.
    pub picture: bool,

    /// Whether text styles are kept, and texts with marks where their style changes.
    pub styles: bool,

    /// How many rows of the upper window a screen draws at most, where the session is shown on one. A text with
    /// marks is without what a read shows of the upper window, where the screen shows that window whole.
    pub rows: Option<u8>,
}
