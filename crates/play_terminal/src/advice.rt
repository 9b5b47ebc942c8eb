//! What a user at a terminal is told of an answer beside its name: what it means, and what to do.

use messages_explanations::Program;
use std::io::IsTerminal;

/// The answer to a line that is refused. It has no name elsewhere.
pub(crate) const LINE_REFUSED: &str = "line";

/// That the player asks for the name of a saved game. It has no name elsewhere.
pub(crate) const NAME_ASKED: &str = "name";

/// The answer to a line that is not taken for want of memory.
pub(crate) const NO_MEMORY: &str = "J1";

/// The answer to an opcode that is not played.
const OTHER_OPCODE: &str = "M1";

/// What is said of lines and opcodes by the mode.
const LINE_OF_PROFILE: &str =
    "a line has up to 1,000 bytes of letters, digits, signs and spaces of ASCII";

const LINE_OF_STANDARD: &str =
    "a line has up to 1,000 bytes, no tab, and only characters of the story";

const NAME_OF_GAME: &str = "type a name, or Enter for the one in brackets; a dot alone cancels";

const OPCODE_OF_STANDARD: &str =
    "an opcode that the profile does not have; play --standard plays it";

/// What to do about a story that is damaged.
const COPY_AGAIN: &str = "copy or download it again";

/// What to do about a story that the profile takes for damaged.
const COPY_AGAIN_OR_STANDARD: &str = "copy or download it again, or try --standard";

/// What to do about a turn that was too long.
const MORE_FUEL: &str = "--fuel 10000000 lets turns be longer";

/// The same, where that turn can be taken back.
const UNDO_OR_MORE_FUEL: &str = "/undo takes the line back, --fuel 10000000 lets turns be longer";

/// What to do about answers to stories, and about those that leave nothing to take back, by their names.
const MENDS: [(&str, &str); 11] = [
    (
        "Z4",
        "check that it is the file you meant, or download it again",
    ),
    ("Z6", "look for another edition of the game"),
    ("Z9", "end other programs, and play it again"),
    ("Z10", COPY_AGAIN),
    ("Z11", "play the file that has the story"),
    ("Z12", "if it is a .gblorb, glulxe or git plays it"),
    (NO_MEMORY, "end other programs, and type the line again"),
    ("S1", "check what standard input is"),
    ("S2", "play the same lines where there is room"),
    ("S3", "end other programs, and play it again"),
    ("S4", "make room, and go on with the same command"),
];

/// What to do about an answer of this name by the whole Standard or by the profile, where a turn can be taken back or
/// none can, if it is known.
fn mend_of(name: &str, is_standard: bool, can_undo: bool) -> Option<&'static str> {
    if name == "Z7" || name == "Z8" {
        return Some(if is_standard {
            COPY_AGAIN
        } else {
            COPY_AGAIN_OR_STANDARD
        });
    }
    if name == "limit-turn" {
        return Some(if can_undo {
            UNDO_OR_MORE_FUEL
        } else {
            MORE_FUEL
        });
    }
    for mend in &MENDS {
        if mend.0 == name {
            return Some(mend.1);
        }
    }
    None
}

/// What a user is told of an answer by the whole Standard or by the profile, where that is more than its
/// explanation says.
fn sentence_on(name: &str, is_standard: bool) -> Option<&'static str> {
    if name == LINE_REFUSED {
        return Some(if is_standard {
            LINE_OF_STANDARD
        } else {
            LINE_OF_PROFILE
        });
    }
    if name == NAME_ASKED {
        return Some(NAME_OF_GAME);
    }
    if name == OTHER_OPCODE && !is_standard {
        return Some(OPCODE_OF_STANDARD);
    }
    None
}

/// Says on standard error, if that is at a terminal, what an answer of this name means and what to do, where there is
/// no turn.
pub fn advise(rt: &HostRuntime, name: &str, is_standard: bool) {
    advise_on_turn(rt, name, is_standard, false);
}

/// The same, of an answer after which a turn can be taken back or none can.
pub(crate) fn advise_on_turn(rt: &HostRuntime, name: &str, is_standard: bool, can_undo: bool) {
    if !rt.stderr().is_terminal() {
        return;
    }
    if let Some(sentence) = sentence_on(name, is_standard) {
        let _ = eprintln!(rt; "play: {sentence}");
    } else if let Some(explanation) = Program::Play.explanations().find(name) {
        let title = explanation.title;
        let _ = match mend_of(name, is_standard, can_undo) {
            Some(mend) => eprintln!(rt; "play: {title}; {mend}"),
            None if can_undo => eprintln!(rt;
                "play: {title}; /undo takes the line back, --explain {name} says more"
            ),
            None => eprintln!(rt; "play: {title}; --explain {name} says more"),
        };
    }
}
