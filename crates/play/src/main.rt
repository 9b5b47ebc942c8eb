//! Plays a story file, says what is in one, and explains what the player answers.
#![tactic(auto)]

mod advice;
mod checking;
mod filling;
mod graphical;
mod names;
mod naming;
mod place;
mod reading;
mod refusing;
mod resizing;
mod standing;
mod unread;

ghost use Rattle.terminal.specs.Range.{IsInRange};

use crate::advice::{OTHER_VERSION, advise_on_reading, advise_on_story};
use crate::checking::{check_all, has_format, name_of, take_mode};
use crate::graphical::refused_as_graphical;
use crate::names::{given_words, has_marked};
use crate::naming::{longer_name, of_story};
use crate::place::{Placed, map_in, rows_in};
use crate::reading::story_in;
use crate::refusing::tell_refused;
use crate::resizing::resize;
use map_text::Row;
use messages_explanations::Program;
use play_terminal::{
    Lost, NO_SIZE, Resizing, Stop, advise, are_sized, check_files, drawn_rows, has_marks, is_drawn,
    run_session, told_screen,
};
use session::{Capabilities, Keep, Mode, OpenFault, Session, StandardOptions};
use session_keeping::{
    Keeping, Lock, REFUSED, Script, drop_last, refuse, seeded, told_seed, unused,
};
use session_run::{RunFault, status};
use std::fmt::Display;
use std::io::IsTerminal;
use std::process::ExitCode;
use survey::Beginning;
use terminal::OneLine;
use terminal::play::{Asked, Words, take_files, take_format, words_of};

/// The exit status where an answer is to be explained that is none.
const UNKNOWN: u8 = 2;

/// The exit status where reading or writing failed.
const BROKEN: u8 = 5;

/// What is said of a command line with a word that is not UTF-8 and names no file to check.
pub(crate) const UNREADABLE: &str = "cannot read the command line";

/// What is said of `--format` with another word, or without `--check`.
const OTHER_FORMAT: &str = "--format takes tsv, and needs --check";

fn main(rt: HostRuntime) -> ExitCode {
    let alloc = rt.alloc();
    let Some(mut given) = given_words(&rt) else {
        return refuse(&rt, UNREADABLE);
    };
    let is_marked = has_marked(&given);
    let format = take_format(&mut given);
    if has_format(&given) {
        return refuse(&rt, OTHER_FORMAT);
    }
    let mode = take_mode(&mut given);
    let Ok(after) = take_files(alloc, &mut given) else {
        return refuse(&rt, UNREADABLE);
    };
    match words_of(alloc, given.as_slice(), rt.stdout().is_terminal()) {
        Ok(Asked::Check(files)) => check_all(&rt, files, &after, mode, format),
        _ if is_marked => refuse(&rt, UNREADABLE),
        Ok(Asked::Play(words)) => play_session(&rt, words),
        Ok(Asked::Explain(name)) => explain(&rt, name),
        Err(error) => {
            let status = if error.use_stderr() { REFUSED } else { 0 };
            match error.print(&rt) {
                Ok(()) => ExitCode::from(status),
                Err(_) => ExitCode::from(REFUSED),
            }
        }
    }
}

/// Prints the explanation of an answer, or the names of all answers with their titles.
fn explain(rt: &HostRuntime, name: Option<&str>) -> ExitCode {
    let printed = match name {
        None => rt.print(Program::Play.explanations()),
        Some(name) => match Program::Play.explanations().find(name) {
            Some(explanation) => rt.print(explanation),
            None => {
                let name = OneLine(name);
                let _ = eprintln!(rt; "play: no answer is named {name}: --explain lists all");
                return ExitCode::from(UNKNOWN);
            }
        },
    };
    match printed {
        Ok(()) => ExitCode::SUCCESS,
        Err(_) => broken(rt, RunFault::Writing),
    }
}

/// Says on standard error what failed.
pub(crate) fn broken<W: Display + Drop>(rt: &HostRuntime, fault: W) -> ExitCode {
    let _ = eprintln!(rt; "play: {fault}");
    ExitCode::from(BROKEN)
}

/// The story that is to be played, or else the status with which the program ends, which has said
/// why.
pub(crate) fn story_of(rt: &HostRuntime, words: Words<'_>) -> Result<Vec<u8>, ExitCode> {
    let mode = survey_mode(words);
    match story_in(rt, words.story, mode) {
        Ok(Ok(story)) => match refused_as_graphical(&story, mode) {
            Some(why) => {
                let status = refuse(rt, why);
                tell_refused(rt, words, OTHER_VERSION);
                advise_on_story(rt, OTHER_VERSION, Beginning::read(&story), mode);
                Err(status)
            }
            None => Ok(story),
        },
        Ok(Err(fault)) => {
            let status = refuse(rt, fault);
            tell_refused(rt, words, name_of(fault));
            advise(rt, name_of(fault), words.seed.is_some());
            Err(status)
        }
        Err(error) => {
            let status = refuse(rt, format_args!("cannot read {}", OneLine(words.story)));
            advise_on_reading(rt, words.story, &error);
            Err(status)
        }
    }
}

/// For which machine a story is read.
fn survey_mode(words: Words<'_>) -> survey::Mode {
    match words.seed {
        Some(_) => survey::Mode::Standard,
        None => survey::Mode::Profile,
    }
}

/// Plays a story file, of which a user at a terminal need not name the end, and keeps the session in a
/// file where one is named.
fn play_session(rt: &HostRuntime, words: Words<'_>) -> ExitCode
    requires { IsInRange words }
{
    let longer = longer_name(rt, words.story);
    let words = Words {
        has_styles: has_marks(rt, words),
        told_screen: told_screen(rt, words),
        ..of_story(words, &longer)
    };
    if !are_sized(words) {
        return refuse(rt, NO_SIZE);
    }
    if let Err(status) = check_files(rt, words) {
        return status;
    }
    let Some(name) = words.session else {
        return match play(rt, seeded(rt, words), None, None) {
            Ok(status) | Err(Unplayed::Refused(status)) => status,
            Err(Unplayed::Lost(_)) => broken(rt, Stop::Unkept),
        };
    };
    match Lock::take(rt, name) {
        Ok(lock) => {
            let status = status_of(play_kept(rt, words, name));
            lock.release(rt);
            status
        }
        Err(status) => status,
    }
}

/// Why nothing more is played.
#[derive(Clone, Copy)]
enum Unplayed {
    /// It was said why.
    Refused(ExitCode),

    /// The answer to a name in the session's file is not there.
    Lost(Lost),
}

impl From<ExitCode> for Unplayed {
    fn from(status: ExitCode) -> Unplayed {
        Unplayed::Refused(status)
    }
}

/// The status with which the program ends, whether or not it has said why.
fn status_of(played: Result<ExitCode, ExitCode>) -> ExitCode {
    match played {
        Ok(status) | Err(status) => status,
    }
}

/// Plays a story whose session is kept in a file of this name. Where its screen gets another size, it is opened
/// anew.
fn play_kept<'a>(rt: &HostRuntime, words: Words<'a>, name: &'a str) -> Result<ExitCode, ExitCode>
    requires { IsInRange words }
{
    let resizing = Resizing::new();
    let mut played = play_whole(rt, words, name, &resizing);
    for _ in 0..u64::MAX {
        if !resizing.is_asked() {
            break;
        }
        resizing.begin();
        resize(rt, words, name, resizing.told())?;
        played = play_whole(rt, words, name, &resizing);
    }
    played
}

/// Plays a story whose session is kept in a file of this name. A name at its end that was kept and not
/// answered is dropped, and all is played again.
fn play_whole<'a>(
    rt: &HostRuntime,
    words: Words<'a>,
    name: &'a str,
    resizing: &Resizing,
) -> Result<ExitCode, ExitCode>
    requires { IsInRange words }
{
    match play_on(rt, words, name, resizing) {
        Ok(status) | Err(Unplayed::Refused(status)) => Ok(status),
        Err(Unplayed::Lost(Lost::Answer { is_last: true, .. })) => {
            drop_last(rt, name)?;
            play_again(rt, words, name, resizing)
        }
        Err(Unplayed::Lost(lost)) => Err(unused(rt, name, lost)),
    }
}

/// The same, where a name at the end was dropped.
fn play_again<'a>(
    rt: &HostRuntime,
    words: Words<'a>,
    name: &'a str,
    resizing: &Resizing,
) -> Result<ExitCode, ExitCode>
    requires { IsInRange words }
{
    match play_on(rt, words, name, resizing) {
        Ok(status) | Err(Unplayed::Refused(status)) => Ok(status),
        Err(Unplayed::Lost(lost)) => Err(unused(rt, name, lost)),
    }
}

/// Plays a story on the lines that its session's file has, and then on others.
fn play_on<'a>(
    rt: &HostRuntime,
    words: Words<'a>,
    name: &'a str,
    resizing: &Resizing,
) -> Result<ExitCode, Unplayed>
    requires { IsInRange words }
{
    let keeping = Keeping::open(rt, name)?;
    let words = keeping.settle(rt, words)?;
    play(rt, words, Some(keeping), Some(resizing))
}

/// Plays a story file on the lines of standard input. The transcript goes to standard output, each
/// reply as soon as its line was read. Zero bytes with which Inform 6 filled the file do not count.
/// Where it is asked for, its lines are broken at words, and a line on standard error says at the
/// end where the story stands.
fn play(
    rt: &HostRuntime,
    words: Words<'_>,
    keeping: Option<Keeping<'_>>,
    resizing: Option<&Resizing>,
) -> Result<ExitCode, Unplayed>
    requires { IsInRange words }
{
    let story = story_of(rt, words)?;
    let keeping = match keeping {
        Some(keeping) => Some(keeping.with_story(rt, &story)?),
        None => None,
    };
    let Some(map) = words.map else {
        return play_story(rt, words, story, &[], keeping, resizing);
    };
    let text = map_in(rt, map)?;
    let rows = rows_in(rt, map, &text, &story)?;
    play_story(rt, words, story, &rows, keeping, resizing)
}

/// Plays a story, of which these are the rows of its map.
fn play_story(
    rt: &HostRuntime,
    words: Words<'_>,
    story: Vec<u8>,
    rows: &[Row<'_>],
    keeping: Option<Keeping<'_>>,
    resizing: Option<&Resizing>,
) -> Result<ExitCode, Unplayed>
    requires { IsInRange words }
{
    let mode = mode_of(words);
    let beginning = Beginning::read(&story);
    let keep = keep_of(rt, words, resizing, &story);
    let mut opening = Vec::new(rt.alloc());
    let opened = Session::open_scripted(rt.alloc(), story, mode, words.fuel, keep, &mut opening);
    let mut session = match opened {
        Ok(session) => session,
        Err(fault) => {
            let status = refuse_story(rt, fault, beginning, words);
            return Err(Unplayed::Refused(status));
        }
    };
    let kept = match keeping.map(|keeping| keeping.begin(rt, words)).transpose() {
        Ok(kept) => kept,
        Err(status) => {
            session.leave();
            return Err(Unplayed::Refused(status));
        }
    };
    let script = Script::of(rt, words, &opening, &kept);
    let ran = run_session(rt, &mut session, words, script, kept, resizing);
    let is_asked = match resizing {
        Some(resizing) => resizing.is_asked(),
        None => false,
    };
    if words.why && ran.is_ok() && !is_asked {
        say_why(rt, words, Placed::of(rt.alloc(), &session, mode, rows));
    }
    session.leave();
    match ran {
        Ok(place) => Ok(ExitCode::from(status(&place))),
        Err(Stop::Lost(lost)) => Err(Unplayed::Lost(lost)),
        Err(stop) => {
            let status = broken(rt, stop);
            advise(rt, stop.name(), words.seed.is_some());
            Err(Unplayed::Refused(status))
        }
    }
}

/// In which mode a story is played.
pub(crate) fn mode_of(words: Words<'_>) -> Mode {
    match words.seed {
        Some(seed) => Mode::Standard(StandardOptions {
            has_saves: words.saves.is_some(),
            has_transcript: words.transcript.is_some(),
            capabilities: capabilities_of(words),
            seed,
        }),
        None => Mode::Profile,
    }
}

/// What the story is told that the player shows.
fn capabilities_of(words: Words<'_>) -> Capabilities {
    let plain = Capabilities::plain();
    let (columns, rows) = words.told_screen.unwrap_or((plain.columns, plain.rows));
    Capabilities {
        has_styles: words.has_styles,
        columns,
        rows,
    }
}

/// What a session keeps for its next turns: on a screen and for objects the upper window too, and text styles where
/// they are shown; and how much of the upper window a screen draws.
fn keep_of(rt: &HostRuntime, words: Words<'_>, resizing: Option<&Resizing>, story: &[u8]) -> Keep {
    Keep {
        turns: words.keep,
        picture: words.is_json || is_drawn(rt, words),
        styles: has_marks(rt, words),
        rows: drawn_rows(rt, words, resizing, story),
    }
}

/// Says on standard error why a story is not opened, and at a terminal what it is and what plays it; a program that
/// plays by objects is told in one.
fn refuse_story(
    rt: &HostRuntime,
    fault: OpenFault,
    beginning: Beginning,
    words: Words<'_>,
) -> ExitCode {
    let status = refuse(rt, fault);
    if let Ok(name) = format!(in rt.alloc(); "{fault}") {
        tell_refused(rt, words, name.as_str());
        advise_on_story(rt, name.as_str(), beginning, survey_mode(words));
    }
    status
}

/// Says on standard error where the story stands, and the seed that its user has not given.
fn say_why(rt: &HostRuntime, words: Words<'_>, placed: Placed<'_>) {
    let _ = match told_seed(rt, words) {
        Some(seed) => eprintln!(rt; "{placed}; the seed is {seed}"),
        None => eprintln!(rt; "{placed}"),
    };
}
