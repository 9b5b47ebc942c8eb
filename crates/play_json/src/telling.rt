//! Replies, as they are written.

ghost use Rattle.std.specs.Prelude.{◌≡◌, IfOk, option_map};
ghost use Rattle.serde_json.specs.View.{view};
ghost use Rattle.session.specs.Game.{Game, InEach, IsSessionOf, marked_on, status_on};
ghost use Rattle.play_json.specs.Answers.{Answer};
ghost use Rattle.play_json.specs.Told as definitions;
ghost use Rattle.play_json.specs.Told.{
  IsAbove,
  IsReplyOf,
  Tells,
  TellsAs,
  status_data,
  styles_data,
};
ghost use Rattle.play_json.specs.Said.{Matches};

use crate::awaited::Awaited;
use crate::first::First;
use crate::heading::Heading;
use crate::kind::Kind;
use crate::reply::Reply;
use crate::said::Said;
use crate::spans::spans_of;
use crate::window::window_of;
use serde_json::Value;
use session::{NoMemory, Session};
use session_lines::{WriteFailed, tell};
use std::alloc::{AllocError, Global};
use std::io::Write;

/// Writes a reply on one line, and flushes.
///
/// # Errors
///
/// A write or a flush failed, or memory was refused for the object.
pub(crate) fn tell_reply<W: Write>(
    alloc: Global,
    writer: &mut W,
    session: &mut Session,
    said: Said,
) -> Result<(), WriteFailed>
    ensures told { (game : Game) (a : Answer) → IsSessionOf game a.standing session.old
        → Matches a said
        → Tells game a (W.contents writer.old) (W.contents writer.new) result }
    ensures same { session.new ≡ session.old }
{
    tell_as(alloc, writer, session, said, None)
}

/// Writes a reply on one line, and flushes. As the first object of its session it tells more.
///
/// # Errors
///
/// A write or a flush failed, or memory was refused for the object.
pub(crate) fn tell_as<W: Write>(
    alloc: Global,
    writer: &mut W,
    session: &mut Session,
    said: Said,
    first: Option<First>,
) -> Result<(), WriteFailed>
    ensures told { (game : Game) (a : Answer) → IsSessionOf game a.standing session.old
        → Matches a said
        → TellsAs game a first (W.contents writer.old) (W.contents writer.new) result }
    ensures same { session.new ≡ session.old }
{
    let Ok(reply) = reply_of(alloc, session, said, first) else {
        return Err(WriteFailed);
    };
    let Ok(line) = reply.into_line(alloc) else {
        return Err(WriteFailed);
    };
    tell(writer, line.as_bytes())
}

/// A reply: what is said, and where the story is.
fn reply_of(
    alloc: Global,
    session: &mut Session,
    said: Said,
    first: Option<First>,
) -> Result<Reply, AllocError>
    ensures says { (game : Game) (a : Answer) → IsSessionOf game a.standing session.old
        → Matches a said
        → IfOk result (IsReplyOf game a first) }
    ensures same { session.new ≡ session.old }
{
    let Said { kind, text, shown } = said;
    let above = above_of(alloc, session)?;
    let Above { status, window } = above;
    let styles = styles_of(alloc, session, kind)?;
    let place = session.place();
    let (done, undone) = session.counts();
    let heading = Heading::read(session.memory());
    let is_asking = session.asked_for(b"").is_some();
    let at = session.program_counter() as usize;
    let awaited = Awaited::read(place, session.memory(), at, is_asking);
    Ok(Reply {
        kind,
        text,
        awaited,
        place,
        done,
        undone,
        status,
        window,
        styles,
        first,
        heading,
        shown,
    })
}

/// What a story shows above its text.
#[derive(Drop)]
pub(crate) struct Above {
    /// The status text, or null.
    pub(crate) status: Value,

    /// Its rows.
    pub(crate) window: Value,
}

/// What the story shows above its text.
fn above_of(alloc: Global, session: &mut Session) -> Result<Above, AllocError>
    ensures says { InEach session.old (λ game s. IfOk result (IsAbove (status_on game s.done))) }
    ensures same { session.new ≡ session.old }
{
    match session.status_line() {
        Ok(line) => above_in(alloc, line),
        Err(NoMemory) => Err(AllocError),
    }
}

/// What a status text shows.
fn above_in(alloc: Global, line: &[u8]) -> Result<Above, AllocError>
    ensures { IfOk result (IsAbove line.now) }
{
    let status = status_value(alloc, line)?;
    let window = window_of(alloc, line)?;
    Ok(Above { status, window })
}

/// Where the text of a reply has a style, if styles are kept.
fn styles_of(alloc: Global, session: &Session, kind: Kind) -> Result<Option<Value>, AllocError>
    ensures { InEach session.now (λ game s. IfOk result (λ styles. option_map view styles
        ≡ styles_data game.showing.styles kind (marked_on game s.done))) }
{
    if session.keeps_styles() {
        match spans_told(alloc, session, kind) {
            Ok(spans) => Ok(Some(spans)),
            Err(error) => Err(error),
        }
    } else {
        Ok(None)
    }
}

/// Where the text of a reply has a style; its styles are kept.
fn spans_told(alloc: Global, session: &Session, kind: Kind) -> Result<Value, AllocError>
    ensures { InEach session.now (λ game s. IfOk result
        (λ spans. view spans ≡ definitions.spans_told kind (marked_on game s.done))) }
{
    if has_text(kind) {
        match spans_of(alloc, session.marked()) {
            Ok(spans) => Ok(spans),
            Err(error) => Err(error),
        }
    } else {
        Ok(Value::Array(Vec::new(alloc)))
    }
}

/// Whether the text of a reply is that of the opening or of a turn.
fn has_text(kind: Kind) -> bool
    ensures { result ≡ definitions.has_text kind }
{
    matches!(kind, Kind::Opening | Kind::Taken | Kind::Redone)
}

/// A status line, or null for an empty one.
fn status_value(alloc: Global, line: &[u8]) -> Result<Value, AllocError>
    ensures { IfOk result (λ value. view value ≡ status_data line.now) }
{
    if line.len() == 0 {
        return Ok(Value::Null);
    }
    Ok(Value::String(String::from_utf8_lossy(alloc, line)?))
}
