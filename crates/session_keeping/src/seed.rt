//! The seed of a session of its own.

ghost use Rattle.terminal.specs.Range.{IsInRange};

use std::io::IsTerminal;
use std::random::RandomSource;
use terminal::play::Words;

/// What is played, with a seed of its own where a user types at a terminal or each reply is an object, and no seed is
/// given. Where the system has no random bytes, the seed is as elsewhere.
pub fn seeded<'a>(rt: &HostRuntime, words: Words<'a>) -> Words<'a>
    requires { IsInRange words }
    ensures { IsInRange result }
{
    if words.seed.is_none() || words.is_given.seed || !has_own_seed(rt, words) {
        return words;
    }
    let mut bytes = [0; 4];
    match rt.fill_bytes(&mut bytes) {
        Ok(()) => Words {
            seed: Some(u32::from_be_bytes(bytes)),
            ..words
        },
        Err(_) => words,
    }
}

/// Whether a session that is given no seed has one of its own.
fn has_own_seed(rt: &HostRuntime, words: Words<'_>) -> bool {
    words.is_json || rt.stdin().is_terminal()
}

/// The seed that a user is told, who has not given it: that of a session of its own or of a file.
pub fn told_seed(rt: &HostRuntime, words: Words<'_>) -> Option<u32> {
    if words.is_given.seed || !(words.session.is_some() || has_own_seed(rt, words)) {
        None
    } else {
        words.seed
    }
}
