//! What the Standard's machine keeps beside memory and frames.

/// What the machine of the whole Standard keeps from turn to turn beside memory and frames: the
/// selected window and the random number generator. The machine of the profile has neither, and
/// leaves each field 0.
#[derive(Clone, Copy, Debug, PartialEq, Eq)]
pub struct StandardState {
    /// The selected window: 0 for the lower, 1 for the upper (Z-Machine Standards Document 1.1,
    /// section 8.7.2).
    pub window: u16,

    /// The 32 bits of the random number generator (section 2.4).
    pub random: u32,

    /// 0 where numbers are random; otherwise `random` counts from 1 to this number and begins again
    /// (remarks on section 2).
    pub interval: u16,

    /// The number that comes next in that count.
    pub counter: u16,
}
