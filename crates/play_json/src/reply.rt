//! The object of a reply.

ghost use Rattle.std.specs.Prelude.{◌≡◌, IfOk, OnOk, codes, option_map, string_bytes};
ghost use Rattle.serde_json.specs.Data.{no_members, string, put as with_member};
ghost use Rattle.serde_json.specs.View.{view, members_view};
ghost use Rattle.play_json.specs.Headings.{with_heading};
ghost use Rattle.play_json.specs.Objects.{
  IsLineOf,
  members_of,
  object_of,
  over_data,
  seed_data,
  with_first,
  with_shown,
  with_styles,
  with_why,
};

use crate::awaited::Awaited;
use crate::first::First;
use crate::heading::Heading;
use crate::kind::Kind;
use crate::places::place_words;
use serde_json::{Map, Value, put};
use std::alloc::{AllocError, Global};
use zcore::Place;

/// What a reply says.
#[derive(Drop)]
pub struct Reply {
    /// What it is.
    pub kind: Kind,

    /// What the story printed.
    pub text: String,

    /// What the story waits for now.
    pub awaited: Awaited,

    /// Where it is now.
    pub place: Place,

    /// How many turns can be taken back.
    pub done: usize,

    /// How many turns are undone.
    pub undone: usize,

    /// The status line, or null.
    pub status: Value,

    /// The rows of the upper window, an array.
    pub window: Value,

    /// The spans of the text that have a style, an array, where styles are kept.
    pub styles: Option<Value>,

    /// What it tells as the first object of its session, if it is the first.
    pub first: Option<First>,

    /// What a story of versions 1 to 3 tells of its player.
    pub heading: Heading,

    /// What was asked for. An object has it under the word of its kind.
    pub shown: Option<Value>,
}

impl Reply {
    /// The reply as an object on one line, with its end.
    ///
    /// # Errors
    ///
    /// Memory was refused.
    pub fn into_line(self, alloc: Global) -> Result<String, AllocError>
        ensures { IfOk result (λ line. IsLineOf (object_of self) (string_bytes line)) }
    {
        let object = Value::Object(self.into_members(alloc)?);
        let mut line = object.to_string(alloc)?;
        line.push('\n')?;
        Ok(line)
    }

    /// The members of the object.
    fn into_members(self, alloc: Global) -> Result<Map<String, Value>, AllocError>
        ensures { IfOk result (λ members. members_view members.entries ≡ members_of self) }
    {
        let mut members = Map::new(alloc);
        match self.put_into(&mut members, alloc) {
            Ok(()) => Ok(members),
            Err(error) => Err(error),
        }
    }

    /// Adds the members of the object to none.
    fn put_into(self, members: &mut Map<String, Value>, alloc: Global) -> Result<(), AllocError>
        requires { members_view members.old.entries ≡ no_members }
        ensures { OnOk result (members_view members.new.entries ≡ members_of self) }
    {
        let Reply {
            kind,
            text,
            awaited,
            place,
            done,
            undone,
            status,
            window,
            styles,
            first,
            heading,
            shown,
        } = self;
        put(members, alloc, "text", Value::String(text))?;
        put(members, alloc, "status", status)?;
        put(members, alloc, "window", window)?;
        put_styles(members, alloc, styles)?;
        put_first(members, alloc, first)?;
        put_heading(members, alloc, heading)?;
        put_why(members, alloc, kind)?;
        put_shown(members, alloc, kind.name(), shown)?;
        put_word(members, alloc, "reply", kind.name())?;
        put_word(members, alloc, "waits", awaited.name())?;
        put_word(members, alloc, "place", place_words(place))?;
        put_over(members, alloc, place)?;
        put(members, alloc, "done", Value::from(done))?;
        put(members, alloc, "undone", Value::from(undone))
    }
}

/// Adds the spans of styles, where styles are kept.
fn put_styles(
    members: &mut Map<String, Value>,
    alloc: Global,
    styles: Option<Value>,
) -> Result<(), AllocError>
    ensures { OnOk result (members_view members.new.entries
        ≡ with_styles (option_map view styles) (members_view members.old.entries)) }
{
    match styles {
        Some(spans) => put(members, alloc, "styles", spans),
        None => Ok(()),
    }
}

/// Adds what the first object of a session tells.
pub(crate) fn put_first(
    members: &mut Map<String, Value>,
    alloc: Global,
    first: Option<First>,
) -> Result<(), AllocError>
    ensures { OnOk result (members_view members.new.entries
        ≡ with_first first (members_view members.old.entries)) }
{
    match first {
        Some(first) => put(members, alloc, "seed", seed_value(first.seed)),
        None => Ok(()),
    }
}

/// A seed, or null where there is none.
fn seed_value(seed: Option<u32>) -> Value
    ensures { view result ≡ seed_data seed }
{
    match seed {
        Some(seed) => Value::from(seed),
        None => Value::Null,
    }
}

/// Adds what a story of versions 1 to 3 tells of its player.
fn put_heading(
    members: &mut Map<String, Value>,
    alloc: Global,
    heading: Heading,
) -> Result<(), AllocError>
    ensures { OnOk result (members_view members.new.entries
        ≡ with_heading heading (members_view members.old.entries)) }
{
    match heading {
        Heading::Nothing => Ok(()),
        Heading::Score(location, score, moves) => {
            put(members, alloc, "location", Value::from(location))?;
            put(members, alloc, "score", Value::from(score))?;
            put(members, alloc, "moves", Value::from(moves))
        }
        Heading::Time(location, hours, minutes) => {
            put(members, alloc, "location", Value::from(location))?;
            put(members, alloc, "hours", Value::from(hours))?;
            put(members, alloc, "minutes", Value::from(minutes))
        }
    }
}

/// Adds what is shown, if something is.
fn put_shown(
    members: &mut Map<String, Value>,
    alloc: Global,
    key: &str,
    shown: Option<Value>,
) -> Result<(), AllocError>
    ensures { OnOk result (members_view members.new.entries
        ≡ with_shown key.now (option_map view shown) (members_view members.old.entries)) }
{
    match shown {
        Some(value) => put(members, alloc, key, value),
        None => Ok(()),
    }
}

/// Adds why a line is refused, in a reply that says that one is.
fn put_why(members: &mut Map<String, Value>, alloc: Global, kind: Kind) -> Result<(), AllocError>
    ensures { OnOk result (members_view members.new.entries
        ≡ with_why kind (members_view members.old.entries)) }
{
    match kind {
        Kind::Refused => put_word(members, alloc, "why", "characters"),
        Kind::TooLong => put_word(members, alloc, "why", "too long"),
        Kind::NoBytes => put_word(members, alloc, "why", "no such bytes"),
        Kind::NoMark => put_word(members, alloc, "why", "no such mark"),
        Kind::GivenUp => put_word(members, alloc, "why", "given up"),
        _ => Ok(()),
    }
}

/// Adds how a story ended that is over, and null for one that is not.
fn put_over(members: &mut Map<String, Value>, alloc: Global, place: Place) -> Result<(), AllocError>
    ensures { OnOk result (members_view members.new.entries
        ≡ with_member (codes "over") (over_data place) (members_view members.old.entries)) }
{
    match place {
        Place::Waiting => put(members, alloc, "over", Value::Null),
        Place::Quit => put_word(members, alloc, "over", "quit"),
        Place::Limit(_) => put_word(members, alloc, "over", "limit"),
        Place::Fault(_) => put_word(members, alloc, "over", "fault"),
    }
}

/// Adds a member whose value is a text.
pub(crate) fn put_word(
    members: &mut Map<String, Value>,
    alloc: Global,
    key: &str,
    word: &str,
) -> Result<(), AllocError>
    ensures { OnOk result (members_view members.new.entries
        ≡ with_member key.now (string word.now) (members_view members.old.entries)) }
{
    let value = Value::try_from_str(alloc, word)?;
    put(members, alloc, key, value)
}
