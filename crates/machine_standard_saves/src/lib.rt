//! A state that a story keeps, as a save file, and a state that is restored from one.
#![tactic(auto)]

mod answers;
mod frames;
mod keeping;
mod pausing;
mod restoring;

pub use answers::{asked, can_succeed, give_file, saved_game};
pub use frames::{begin_frames, push_frame};
pub use keeping::save_undo;
pub use pausing::pause;
pub use restoring::restore_undo;
