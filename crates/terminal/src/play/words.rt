//! What the words of the player's command line ask for.

ghost use Rattle.std.specs.Prelude.{◌≡◌, IfOk, codes, is_some};
ghost use Rattle.clap.specs.Matches.{found_of};
ghost use Rattle.terminal.specs.Range.{IsAskedInRange, IsInRange, least_fuel, most_fuel, most_undo};
ghost use Rattle.terminal.specs.Arguments.{MayReadNumber};
ghost use Rattle.terminal.specs.Defaults.{IsAskedInMode, IsInMode, is_chosen};

use crate::defaults::is_chosen;
use crate::play::arguments::command;
use clap::{ArgMatches, Error};
use std::alloc::{AllocError, Global};

/// The units of fuel of a turn without `--fuel`.
const FUEL: u32 = 1_000_000;

/// The seed of the random numbers without `--seed`.
const SEED: u32 = 12_345;

/// What the command line asks for.
#[derive(Drop)]
pub enum Asked<'a> {
    /// To explain the answer of this name, or without one to list all answers.
    Explain(Option<&'a str>),

    /// To play a story.
    Play(Words<'a>),

    /// To say what is in one or more files, without running them.
    Check(Vec<&'a str>),
}

/// What the command line has itself, where others have a default.
#[derive(Clone, Copy)]
pub struct Given {
    /// That every opcode of the Standard may be used.
    pub standard: bool,

    /// That those of the profile alone may be used.
    pub profile: bool,

    /// The units of fuel of a turn.
    pub fuel: bool,

    /// The seed of the random numbers.
    pub seed: bool,
}

/// What is played, and how.
#[derive(Clone, Copy)]
pub struct Words<'a> {
    /// The story file's name.
    pub story: &'a str,

    /// The units that a turn may spend, from 1 to 10,000,000.
    pub fuel: u32,

    /// How many turns can be taken back, up to 100,000; `None` for all of them.
    pub keep: Option<u32>,

    /// Whether to say at the end where the story is.
    pub why: bool,

    /// The name of the story's map, if it says which routine and line that is.
    pub map: Option<&'a str>,

    /// The seed of the random numbers, if the story may use every opcode of the Standard; `None` if it
    /// may use those of the profile.
    pub seed: Option<u32>,

    /// What the command line has itself of the mode, the fuel and the seed.
    pub is_given: Given,

    /// The name of the file in which the session is kept, if it is.
    pub session: Option<&'a str>,

    /// The folder of saved games, if the story may have some.
    pub saves: Option<&'a str>,

    /// The file of the story's transcript, if it may write one.
    pub transcript: Option<&'a str>,

    /// How many columns a line of the transcript has; `None` where no line is broken.
    pub wrap: Option<u32>,

    /// Whether each reply is written as a JSON object.
    pub is_json: bool,

    /// What the command line says of the screen on which the story is shown: its size, or nothing where that is
    /// the terminal's; `None` where it says nothing.
    pub screen: Option<&'a str>,

    /// The name of the file that tells the size of the screen when it has changed, if there is one.
    pub size_file: Option<&'a str>,

    /// Whether the command line says that there is no screen.
    pub no_screen: bool,

    /// Whether the command line asks for marks of text styles.
    pub styles: bool,

    /// Whether the story is told that bold and italic text is shown.
    pub has_styles: bool,

    /// How many columns and rows the story is told that its screen has; `None` where it is told of no screen.
    pub told_screen: Option<(u8, u8)>,
}

impl Words<'_> {
    /// Whether the story is shown on a screen: that is asked for, or it is the default of this user, who has
    /// not declined it.
    pub fn has_screen(self, is_default: bool) -> bool
        ensures { result ≡ is_chosen (is_some self.entry.screen) self.entry.no_screen is_default }
    {
        is_chosen(self.screen.is_some(), self.no_screen, is_default)
    }
}

/// Reads the words of a command line of a user who sees the transcript at a terminal or not. Its
/// numbers are in their ranges. At a terminal the story may use every opcode of the Standard, unless
/// the profile is asked for; elsewhere it must be asked for.
///
/// # Errors
///
/// What `clap` says of words that it refuses, and of those that ask for help or for the version; or
/// that memory was refused.
pub fn words_of<'a>(alloc: Global, given: &'a [String], is_seen: bool) -> Result<Asked<'a>, Error>
    ensures range { IfOk result IsAskedInRange }
    ensures mode { IfOk result (IsAskedInMode is_seen) }
{
    match command(alloc, is_seen)?.try_get_matches_from(given) {
        Ok(matches) => asked_in(alloc, &matches, is_seen),
        Err(error) => Err(error),
    }
}

/// What a command line asks for.
///
/// # Errors
///
/// That memory was refused.
fn asked_in<'a>(alloc: Global, matches: &ArgMatches<'a>, is_seen: bool) -> Result<Asked<'a>, Error>
    requires fuel { MayReadNumber (codes "fuel") least_fuel most_fuel (found_of matches.now) }
    requires undo { MayReadNumber (codes "undo") 0 most_undo (found_of matches.now) }
    ensures range { IfOk result IsAskedInRange }
    ensures mode { IfOk result (IsAskedInMode is_seen) }
{
    if matches.contains_id("explain") {
        return Ok(Asked::Explain(matches.get_str("explain")));
    }
    match files_in(alloc, matches)? {
        Some(files) => Ok(Asked::Check(files)),
        None => Ok(Asked::Play(words_in(matches, is_seen))),
    }
}

/// The files to check; `None` where none are to be checked.
///
/// # Errors
///
/// Memory was refused.
fn files_in<'a>(
    alloc: Global,
    matches: &ArgMatches<'a>,
) -> Result<Option<Vec<&'a str>>, AllocError> {
    let Some(names) = matches.get_strs("check") else {
        return Ok(None);
    };
    let mut files = Vec::new(alloc);
    files.extend_from_slice(names)?;
    Ok(Some(files))
}

/// What is played by a command line, and how.
fn words_in<'a>(matches: &ArgMatches<'a>, is_seen: bool) -> Words<'a>
    requires fuel { MayReadNumber (codes "fuel") least_fuel most_fuel (found_of matches.now) }
    requires undo { MayReadNumber (codes "undo") 0 most_undo (found_of matches.now) }
    ensures range { IsInRange result }
    ensures mode { IsInMode is_seen result }
{
    let fuel = matches.get_one::<u32>("fuel");
    let keep = matches.get_one::<u32>("undo");
    let is_given = Given {
        standard: matches.get_flag("standard"),
        profile: matches.get_flag("profile"),
        fuel: fuel.is_some(),
        seed: matches.contains_id("seed"),
    };
    Words {
        story: matches.get_str("story").unwrap_or(""),
        fuel: fuel.unwrap_or(FUEL),
        keep,
        why: matches.get_flag("why"),
        map: matches.get_str("map"),
        seed: seed_in(matches, is_given, is_seen),
        is_given,
        session: matches.get_str("session"),
        saves: matches.get_str("saves"),
        transcript: matches.get_str("transcript"),
        wrap: matches.get_one::<u32>("wrap"),
        is_json: matches.get_flag("json"),
        screen: screen_in(matches),
        size_file: matches.get_str("size-file"),
        no_screen: matches.get_flag("no-screen"),
        styles: matches.get_flag("styles"),
        has_styles: matches.get_flag("styles"),
        told_screen: None,
    }
}

/// The seed of the random numbers, if every opcode of the Standard may be used.
fn seed_in(matches: &ArgMatches<'_>, is_given: Given, is_seen: bool) -> Option<u32>
    ensures { is_some result ≡ is_chosen is_given.standard is_given.profile is_seen }
{
    if is_chosen(is_given.standard, is_given.profile, is_seen) {
        Some(matches.get_one::<u32>("seed").unwrap_or(SEED))
    } else {
        None
    }
}

/// What the command line says of the screen, if it asks for one.
fn screen_in<'a>(matches: &ArgMatches<'a>) -> Option<&'a str> {
    if matches.contains_id("screen") {
        Some(matches.get_str("screen").unwrap_or(""))
    } else {
        None
    }
}
