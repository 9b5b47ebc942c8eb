//! The definitions of a machine for story files of versions 1 to 4 and 7: what an instruction does there
//! that it does otherwise in versions 5 and 8.
#![tactic(auto)]

mod laws;
mod operations;
mod standard_laws;
mod version;

pub use laws::{
    every_turn_of_any_version_ends, keeps_what_the_profile_steps_elsewhere,
    late_versions_are_standard, waits_for_what_can_be_given,
};
pub use operations::VersionOperation;
pub use standard_laws::{
    every_standard_turn_ends, keeps_what_the_profile_answers, keeps_what_the_profile_plays,
    keeps_what_the_profile_runs, keeps_what_the_profile_steps, restores_all_frames,
    restores_what_was_kept,
};
pub use version::StoryVersion;
