//! Compiled stories: a source is checked, and laid out as a story file.
#![tactic(auto)]

mod laws;
mod sized;
mod standard_laws;
mod story;

pub use laws::{
    code_is_short, light_stories_fit, small_sources_have_small_code, stories_are_short,
    stories_hold,
};
pub use sized::{Limit, story_within};
pub use standard_laws::stories_play_by_standard;
pub use story::{Story, compile, compile_for, compile_once, compile_placed};
