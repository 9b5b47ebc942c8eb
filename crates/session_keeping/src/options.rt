//! The options by which a session is played, as its file has them.

ghost use Rattle.std.specs.Prelude.{IfSome};
ghost use Rattle.terminal.specs.Range.{IsInRange};

use std::alloc::{AllocError, Global};
use std::fmt::{self, Display, Formatter};
use std::str;
use terminal::play::{Asked, Words, words_of};

/// What stands for a folder of saved games. Which one it is decides nothing: what was read of it is kept.
const SAVES: &str = " --saves .";

/// What stands for a file of the story's transcript. Which one it is decides nothing.
const TRANSCRIPT: &str = " --transcript .";

/// What says that the story is told of bold and italic text, whether or not it is shown now.
const STYLES: &str = " --styles";

/// The columns and rows of the screen of which the story is told, whatever is drawn on now; or nothing.
#[derive(Clone, Copy)]
struct ToldScreen(Option<(u8, u8)>);

impl Display for ToldScreen {
    fn fmt<W: fmt::Write>(&self, f: &mut Formatter<W>) -> fmt::Result {
        match self.0 {
            Some((columns, rows)) => write!(f, " --screen={columns}x{rows}"),
            None => Ok(()),
        }
    }
}

/// What says that each reply is an object: of its lines some ask the player, which are the story's elsewhere.
const OBJECTS: &str = " --json";

/// A number between two texts, or nothing.
#[derive(Clone, Copy)]
struct Numbered(&'static str, Option<u32>, &'static str);

impl Display for Numbered {
    fn fmt<W: fmt::Write>(&self, f: &mut Formatter<W>) -> fmt::Result {
        match *self {
            Numbered(before, Some(number), after) => write!(f, "{before}{number}{after}"),
            Numbered(_, None, _) => Ok(()),
        }
    }
}

/// The options that decide the transcript beside the story and the lines, as on a command line.
pub(crate) fn options_of(alloc: Global, words: &Words<'_>) -> Result<String, AllocError> {
    let mode = Numbered("--standard --seed ", words.seed, " ");
    let fuel = words.fuel;
    let undo = Numbered(" --undo ", words.keep, "");
    let saves = if words.saves.is_some() { SAVES } else { "" };
    let transcript = if words.transcript.is_some() {
        TRANSCRIPT
    } else {
        ""
    };
    let styles = if words.has_styles { STYLES } else { "" };
    let screen = ToldScreen(words.told_screen);
    let objects = if words.is_json { OBJECTS } else { "" };
    format!(in alloc; "{mode}--fuel {fuel}{undo}{saves}{transcript}{styles}{screen}{objects}")
}

/// What is played, by the options in a session's file; `None` where they are not as `options_of` writes.
pub(crate) fn options_in<'a>(alloc: Global, words: &Words<'a>, line: &[u8]) -> Option<Words<'a>>
    ensures { IfSome result IsInRange }
{
    let Ok(given) = command_line(alloc, str::from_utf8(line).ok()?) else {
        return None;
    };
    let settled = settled_in(alloc, words, given.as_slice())?;
    if are_options(alloc, &settled, line) {
        Some(settled)
    } else {
        None
    }
}

/// Whether a line has the options of what is played.
fn are_options(alloc: Global, words: &Words<'_>, line: &[u8]) -> bool {
    match options_of(alloc, words) {
        Ok(text) => text.as_bytes() == line,
        Err(_) => false,
    }
}

/// What is played, by the options of a command line; `None` where it is none.
fn settled_in<'a>(alloc: Global, words: &Words<'a>, given: &[String]) -> Option<Words<'a>>
    ensures { IfSome result IsInRange }
{
    match words_of(alloc, given, false) {
        Ok(Asked::Play(found)) => Some(settled(words, &found)),
        _ => None,
    }
}

/// What is played, by what was found in a session's file.
fn settled<'a>(words: &Words<'a>, found: &Words<'_>) -> Words<'a>
    requires { IsInRange found.now }
    ensures { IsInRange result }
{
    Words {
        fuel: found.fuel,
        keep: found.keep,
        seed: found.seed,
        saves: if found.saves.is_some() {
            Some(words.saves.unwrap_or("."))
        } else {
            None
        },
        transcript: if found.transcript.is_some() {
            Some(words.transcript.unwrap_or("."))
        } else {
            None
        },
        has_styles: found.has_styles,
        told_screen: told_in(found),
        is_json: found.is_json,
        ..*words
    }
}

/// The columns and rows of the screen of which the story is told, if a session's file has them.
fn told_in(found: &Words<'_>) -> Option<(u8, u8)> {
    let (columns, rows) = found.screen?.split_once('x')?;
    Some((columns.parse::<u8>().ok()?, rows.parse::<u8>().ok()?))
}

/// The words of a command line with these options.
fn command_line(alloc: Global, options: &str) -> Result<Vec<String>, AllocError> {
    let line = format!(in alloc; "play {options} story")?;
    let mut words = Vec::new(alloc);
    for word in line.as_str().split(' ') {
        words.push(String::from_str(alloc, word)?)?;
    }
    Ok(words)
}

/// An option of a session that the command line contradicts. `Display` writes it in words.
#[derive(Clone, Copy)]
pub(crate) enum Begun {
    /// It was begun with this option or without it.
    As(&'static str),

    /// It was begun with an option of this number.
    With(&'static str, u32),
}

impl Begun {
    /// The first option of a command line that a session's options contradict.
    pub(crate) fn against(words: &Words<'_>, settled: &Words<'_>) -> Option<Begun> {
        let is_given = words.is_given;
        match settled.seed {
            None if is_given.standard || is_given.seed => {
                return Some(Begun::As("without --standard"));
            }
            Some(_) if is_given.profile => return Some(Begun::As("without --profile")),
            Some(seed) if is_given.seed && words.seed != settled.seed => {
                return Some(Begun::With("--seed", seed));
            }
            _ => {}
        }
        if is_given.fuel && words.fuel != settled.fuel {
            return Some(Begun::With("--fuel", settled.fuel));
        }
        if let Some(option) = differing(words, settled) {
            return Some(Begun::As(option));
        }
        if words.keep.is_none() || words.keep == settled.keep {
            return None;
        }
        match settled.keep {
            Some(turns) => Some(Begun::With("--undo", turns)),
            None => Some(Begun::As("without --undo")),
        }
    }
}

/// The first option that a command line has and a session was begun without, or the other way round, of those
/// that must agree. It answers how the session was begun.
fn differing(words: &Words<'_>, settled: &Words<'_>) -> Option<&'static str> {
    if words.is_json != settled.is_json {
        return Some(if settled.is_json {
            "with --json"
        } else {
            "without --json"
        });
    }
    if words.saves.is_some() != settled.saves.is_some() {
        let is_begun = settled.saves.is_some();
        return Some(if is_begun {
            "with --saves"
        } else {
            "without --saves"
        });
    }
    let is_begun = settled.transcript.is_some();
    if words.transcript.is_some() != is_begun {
        return Some(if is_begun {
            "with --transcript"
        } else {
            "without --transcript"
        });
    }
    None
}

impl Display for Begun {
    fn fmt<W: fmt::Write>(&self, f: &mut Formatter<W>) -> fmt::Result {
        match *self {
            Begun::As(option) => write!(f, "it was begun {option}"),
            Begun::With(option, number) => write!(f, "it was begun with {option} {number}"),
        }
    }
}
