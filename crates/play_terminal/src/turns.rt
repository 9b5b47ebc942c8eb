//! How many turns can be taken back.

/// The turns that can be taken back, as the replies tell of them.
#[derive(Clone, Copy)]
pub(crate) struct Turns {
    /// Whether the opening was written, which is no turn.
    is_begun: bool,

    /// How many they are.
    count: u32,

    /// How many the session keeps.
    most: u32,
}

impl Turns {
    /// No turn of a session that keeps up to so many, or all of them.
    pub(crate) fn new(keep: Option<u32>) -> Turns {
        Turns {
            is_begun: false,
            count: 0,
            most: keep.unwrap_or(u32::MAX),
        }
    }

    /// Adds the opening, and then a turn more.
    pub(crate) fn add(&mut self) {
        if self.is_begun {
            self.count = self.count.saturating_add(1).min(self.most);
        }
        self.is_begun = true;
    }

    /// Takes a turn back.
    pub(crate) fn take(&mut self) {
        self.count = self.count.saturating_sub(1);
    }

    /// Whether there is one.
    pub(crate) fn can_undo(self) -> bool {
        self.count > 0
    }
}
