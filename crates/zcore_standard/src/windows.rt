//! The upper window.

/// The upper window as it goes through a turn (Z-Machine Standards Document 1.1, sections 8.6 and
/// 8.7): its text is what the turn has printed from a place on.
#[derive(Clone, Copy, Debug, Default, PartialEq, Eq)]
pub struct Upper {
    /// How many bytes the turn had printed when the window began.
    pub from: u32,

    /// How many it had printed when the row of the cursor was set.
    pub mark: u32,

    /// That row, counted from 1.
    pub row: u16,
}
