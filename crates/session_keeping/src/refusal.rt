//! What is said where no story is played.

use std::fmt::Display;
use std::process::ExitCode;

/// The exit status where the story cannot be played.
pub const REFUSED: u8 = 1;

/// Says on standard error why the story is not played.
pub fn refuse<W: Display + Drop>(rt: &HostRuntime, why: W) -> ExitCode {
    let _ = eprintln!(rt; "play: {why}");
    ExitCode::from(REFUSED)
}
