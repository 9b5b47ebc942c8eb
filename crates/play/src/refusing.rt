//! What a program that plays by objects is told of a story that is refused.

use crate::unread::regular_story;
use survey::{Mode, Survey, Verdict};
use terminal::play::Words;

/// Writes why a story is refused that is played as these words say, if each reply is an object: the name of the answer,
/// and in a key of its own that the story needs `--standard`, if it is refused for want of that alone.
pub fn tell_refused(rt: &HostRuntime, words: Words<'_>, name: &str) {
    if !words.is_json {
        return;
    }
    let needs = if needs_standard(rt, words) {
        "\"needs\":\"--standard\","
    } else {
        ""
    };
    let _ = println!(rt; "{{{needs}\"reply\":\"refused\",\"why\":\"{name}\"}}");
}

/// Whether a story that the profile refuses is one that the machine of the whole Standard loads.
fn needs_standard(rt: &HostRuntime, words: Words<'_>) -> bool {
    if words.seed.is_some() {
        return false;
    }
    let Ok(Ok(story)) = regular_story(rt, words.story, Mode::Standard) else {
        return false;
    };
    match Survey::read(rt.alloc(), story.as_slice(), Mode::Standard) {
        Ok(survey) => !matches!(survey.verdict(), Verdict::Refused(_)),
        Err(_) => false,
    }
}
