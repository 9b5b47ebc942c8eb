//! The reply to a line.

ghost use Rattle.std.specs.Prelude.{◌≡◌, ◌∷◌, [], ℕ, List, bytes_eq, codes, false, true, slice_index_or, Some};
ghost use Rattle.session_run.specs.Acts.{Leaves, adding, adding_if};
ghost use Rattle.session.specs.Game.{IsSessionOf, Game, InEach, asks_on, marked_on, place_on};
ghost use Rattle.zcore.specs.Turn.{is_waiting};
ghost use Rattle.session_run.specs.Heard.{Hears, TellsStatus};
ghost use Rattle.session.specs.Asking.{told_waiting};
ghost use Rattle.session.specs.Given.{IsAskedFor};
ghost use Rattle.session_run.specs.Told.{IsNotice, script_or, script_told, told_or, words_of};
ghost use Rattle.session_lines.specs.Files.{Logs};
ghost use Rattle.session_lines.specs.Transcript.{note};
ghost use Rattle.zcore.specs.declared.place.Place.TheVariants as places;
ghost use Rattle.session_lines.specs.Standing.{Standing};
ghost use Rattle.session_lines.specs.Wrote.{WroteText};

use crate::naming::given_for;
use journal::NoMemory;
use session::{Reply, Session};
use session_lines::{Files, GivenFault, WriteFailed, put, tell};
use std::io::Write;
use zcore::Place;
use zcore_standard::Purpose;

/// Answers a line: a command of the player, or a line for the story.
pub(crate) fn answer<W: Write, F: Files>(
    line: &[u8],
    writer: &mut W,
    files: &mut F,
    session: &mut Session,
) -> Result<(), WriteFailed>
    ensures { (game : Game) (s : Standing) → IsSessionOf game s session.old
        → Hears game (W.contents writer.old) (W.contents writer.new) s
        (Leaves game s session.new (F.log files.old) (F.log files.new)) (line.now ∷ []) result }
{
    if line == b"/undo".as_slice() {
        let is_scripting = session.is_scripting();
        if session.undo() {
            add_if(is_scripting, files, b"/undo\n[Undone.]\n");
            tell(writer, b"[Undone.]\n")
        } else {
            tell(writer, b"[Nothing to undo.]\n")
        }
    } else {
        answer_other(line, writer, files, session)
    }
}

/// Answers a line that takes no turn back. It is a function of its own, so that an undo does not
/// make room for the results of the others.
fn answer_other<W: Write, F: Files>(
    line: &[u8],
    writer: &mut W,
    files: &mut F,
    session: &mut Session,
) -> Result<(), WriteFailed>
    requires { bytes_eq line.now (codes "/undo") ≡ false }
    ensures { (game : Game) (s : Standing) → IsSessionOf game s session.old
        → Hears game (W.contents writer.old) (W.contents writer.new) s
        (Leaves game s session.new (F.log files.old) (F.log files.new)) (line.now ∷ []) result }
{
    if line == b"/redo".as_slice() {
        answer_redo(writer, files, session)
    } else if session.asks(line) {
        answer_status(writer, session)
    } else {
        answer_story(line, writer, files, session)
    }
}

/// Does a turn again that was taken back, and tells its text once more, also in the transcript of the story,
/// if that is on before.
fn answer_redo<W: Write, F: Files>(
    writer: &mut W,
    files: &mut F,
    session: &mut Session,
) -> Result<(), WriteFailed>
    ensures { (game : Game) (s : Standing) (line : List ℕ) → IsSessionOf game s session.old
        → bytes_eq line (codes "/undo") ≡ false → bytes_eq line (codes "/redo") ≡ true
        → Hears game (W.contents writer.old) (W.contents writer.new) s
        (Leaves game s session.new (F.log files.old) (F.log files.new)) (line ∷ []) result }
{
    let is_scripting = session.is_scripting();
    let is_marked = session.keeps_styles();
    match session.redo() {
        Some(text) => {
            add_if(is_scripting, files, b"/redo\n[Redone.]\n");
            add_if(is_scripting, files, text);
            put(writer, b"[Redone.]\n")?;
            if is_marked {
                return tell(writer, session.marked());
            }
            tell(writer, text)
        }
        None => tell(writer, b"[Nothing to redo.]\n"),
    }
}

/// Answers a line for the story: the name of a saved game where it asks for one.
fn answer_story<W: Write, F: Files>(
    line: &[u8],
    writer: &mut W,
    files: &mut F,
    session: &mut Session,
) -> Result<(), WriteFailed>
    requires undo { bytes_eq line.now (codes "/undo") ≡ false }
    requires redo { bytes_eq line.now (codes "/redo") ≡ false }
    ensures { (game : Game) (s : Standing) → IsSessionOf game s session.old
        → asks_on game line.now ≡ false
        → Hears game (W.contents writer.old) (W.contents writer.new) s
        (Leaves game s session.new (F.log files.old) (F.log files.new)) (line.now ∷ []) result }
{
    match session.asked_for(line) {
        Some(purpose) => answer_name(line, writer, files, session, purpose),
        None => {
            let mut script = Vec::new(session.alloc());
            let is_marked = session.keeps_styles();
            let reply = session.reply_scripted(line, &mut script);
            if is_marked {
                let notice = notice_of(reply);
                return tell_marked(writer, files, session, notice, &script);
            }
            tell_reply(writer, files, reply, &script)
        }
    }
}

/// Answers the name of a saved game, for which the story asks.
fn answer_name<W: Write, F: Files>(
    line: &[u8],
    writer: &mut W,
    files: &mut F,
    session: &mut Session,
    purpose: Purpose,
) -> Result<(), WriteFailed>
    requires undo { bytes_eq line.now (codes "/undo") ≡ false }
    requires redo { bytes_eq line.now (codes "/redo") ≡ false }
    requires waits { slice_index_or session.old.places session.old.present places.Quit
        ≡ places.Waiting }
    requires asked { InEach session.old (λ game s. IsAskedFor game s line.now (Some purpose)) }
    ensures { (game : Game) (s : Standing) → IsSessionOf game s session.old
        → asks_on game line.now ≡ false
        → Hears game (W.contents writer.old) (W.contents writer.new) s
        (Leaves game s session.new (F.log files.old) (F.log files.new)) (line.now ∷ []) result }
{
    match given_for(session.alloc(), session, files, purpose, line) {
        Ok(given) => {
            let mut script = Vec::new(session.alloc());
            let is_marked = session.keeps_styles();
            let reply = session.reply_given(&given, &mut script);
            if is_marked {
                let notice = notice_of(reply);
                return tell_marked(writer, files, session, notice, &script);
            }
            tell_reply(writer, files, reply, &script)
        }
        Err(fault) => tell_fault(writer, files, fault),
    }
}

/// Writes a reply. What the turn of a line that was taken adds to the transcript of the story is added before.
#[inline(always)]
fn tell_reply<W: Write, F: Files>(
    writer: &mut W,
    files: &mut F,
    reply: Reply<'_>,
    script: &[u8],
) -> Result<(), WriteFailed>
    ensures text { WroteText (W.contents writer.old) (W.contents writer.new)
        (words_of reply.entry) result }
    ensures script { Logs (F.log files.old) (F.log files.new) (script_told reply.entry script.now) }
{
    match reply {
        Reply::Taken(text) => {
            add_script(files, script);
            tell(writer, text)
        }
        Reply::Refused => tell(writer, b"[Line refused.]\n"),
        Reply::Over => tell(writer, b"[The story is over.]\n"),
        Reply::NoMemory => tell_passed(writer, files, b"[No memory: line not taken.]\n"),
    }
}

/// Writes the notice that a line is not taken for want of memory, once that is noted; or the run ends.
fn tell_passed<W: Write, F: Files>(
    writer: &mut W,
    files: &mut F,
    notice: &[u8],
) -> Result<(), WriteFailed>
    ensures text { WroteText (W.contents writer.old) (W.contents writer.new) notice.now result }
    ensures log { F.log files.new ≡ F.log files.old }
    ensures script { Logs (F.log files.old) (F.log files.new) [] }
{
    match files.pass() {
        Ok(()) => tell(writer, notice),
        Err(_) => Err(WriteFailed),
    }
}

/// Writes a notice in place of a text with marks. That a line is not taken for want of memory is noted before.
fn tell_notice<W: Write, F: Files>(
    writer: &mut W,
    files: &mut F,
    notice: &[u8],
) -> Result<(), WriteFailed>
    ensures text { WroteText (W.contents writer.old) (W.contents writer.new) notice.now result }
    ensures log { F.log files.new ≡ F.log files.old }
    ensures script { Logs (F.log files.old) (F.log files.new) [] }
{
    if notice == b"[No memory: line not taken.]\n".as_slice() {
        return tell_passed(writer, files, notice);
    }
    tell(writer, notice)
}

/// What is written for a reply that is no text of the story.
fn notice_of(reply: Reply<'_>) -> Option<&'static [u8]>
    ensures { IsNotice reply.entry result }
{
    match reply {
        Reply::Taken(_) => None,
        Reply::Refused => Some(b"[Line refused.]\n".as_slice()),
        Reply::Over => Some(b"[The story is over.]\n".as_slice()),
        Reply::NoMemory => Some(b"[No memory: line not taken.]\n".as_slice()),
    }
}

/// Writes a notice, or where there is none the text of the latest turn with marks. What that turn adds to the
/// transcript of the story is added before.
#[inline(never)]
fn tell_marked<W: Write, F: Files>(
    writer: &mut W,
    files: &mut F,
    session: &Session,
    notice: Option<&[u8]>,
    script: &[u8],
) -> Result<(), WriteFailed>
    ensures text { InEach session.now (λ game s. WroteText (W.contents writer.old)
        (W.contents writer.new) (told_or notice.entry (marked_on game s.done)) result) }
    ensures script { Logs (F.log files.old) (F.log files.new) (script_or notice.entry script.now) }
{
    match notice {
        None => {
            add_script(files, script);
            tell(writer, session.marked())
        }
        Some(words) => tell_notice(writer, files, words),
    }
}

/// Adds bytes to the transcript of the story. No byte is not told to the outside.
fn add_script<F: Files>(files: &mut F, script: &[u8])
    ensures { Logs (F.log files.old) (F.log files.new) (adding script.now) }
{
    if script.len() == 0 {
        return;
    }
    files.script(script);
}

/// Adds bytes to the transcript of the story, if it is on.
fn add_if<F: Files>(is_scripting: bool, files: &mut F, bytes: &[u8])
    ensures { Logs (F.log files.old) (F.log files.new) (adding_if is_scripting bytes.now) }
{
    if !is_scripting {
        return;
    }
    files.script(bytes);
}

/// Says that a line is not taken; or the run ends where what the story is given for it is not kept.
fn tell_fault<W: Write, F: Files>(
    writer: &mut W,
    files: &mut F,
    fault: GivenFault,
) -> Result<(), WriteFailed>
    ensures text { WroteText (W.contents writer.old) (W.contents writer.new)
        (note (codes "[No memory: line not taken.]")) result }
    ensures log { F.log files.new ≡ F.log files.old }
{
    match fault {
        GivenFault::Memory => tell_passed(writer, files, b"[No memory: line not taken.]\n"),
        GivenFault::Unkept => Err(WriteFailed),
    }
}

/// Answers a line that asks for the status line.
fn answer_status<W: Write>(writer: &mut W, session: &mut Session) -> Result<(), WriteFailed>
    ensures says { (game : Game) (s : Standing) → IsSessionOf game s session.old
        → TellsStatus game s (W.contents writer.old) (W.contents writer.new) result }
    ensures same { session.new ≡ session.old }
{
    if !waits(session) {
        return tell(writer, b"[The story is over.]\n");
    }
    match session.status_line() {
        Ok(line) => put_status(writer, line),
        Err(NoMemory) => tell(writer, b"[No memory: line not taken.]\n"),
    }
}

/// Whether the story waits at the present.
fn waits(session: &Session) -> bool
    ensures { InEach session.now (λ game s. result ≡ is_waiting (place_on game s.done)) }
{
    match session.place() {
        Place::Waiting => true,
        _ => false,
    }
}

/// Writes a status line, or that there is none.
fn put_status<W: Write>(writer: &mut W, line: &[u8]) -> Result<(), WriteFailed>
    ensures { WroteText (W.contents writer.old) (W.contents writer.new)
        (told_waiting line.now) result }
{
    if line.len() == 0 {
        return tell(writer, b"[No status line.]\n");
    }
    put(writer, line)?;
    tell(writer, b"\n")
}
