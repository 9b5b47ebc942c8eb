//! Stories that are played, by a run over an input or call by call.

use crate::names::{
    Call, NoFiles, Place, Reply, RowError, Session, Setting, Shown, number_in, parted, run, status,
    written_bytes,
};

/// The player's status where a story is not opened.
const REFUSED: u8 = 1;

/// The player's status where reading or writing failed.
const BROKEN: u8 = 5;

/// Opens a story under the row's conditions, and makes calls or, without any, runs it on the row's
/// input. Adds what came of it, and answers the player's status. `number` becomes that of the call
/// that was made last. No other function opens a session: its proof goes through all that it holds.
pub fn put_session(
    shown: &mut Shown,
    setting: &Setting,
    story: &[u8],
    calls: &[Call],
    number: &mut u64,
) -> Result<u8, RowError> {
    let story = story.to_vec(setting.alloc)?;
    let (mode, fuel, keep) = (setting.mode, setting.fuel, setting.keep);
    match Session::open_with(setting.alloc, story, mode, fuel, keep) {
        Ok(mut session) => {
            let answer = put_calls(shown, setting, &mut session, calls, number);
            session.close();
            answer
        }
        Err(fault) if calls.is_empty() => {
            shown.display_line(&fault);
            Ok(REFUSED)
        }
        Err(_) => Err(RowError::Story),
    }
}

/// Runs a session on the row's input, adds the transcript and how it ended, and answers the status
/// of the player.
fn put_run(shown: &mut Shown, setting: &Setting, session: &mut Session) -> u8 {
    let mut writer = setting.writer();
    let mut end = BROKEN;
    let answer = run(&mut setting.reader(), &mut writer, &mut NoFiles, session);
    shown.lines(&writer.bytes);
    match answer {
        Ok(place) => {
            end = status(&place);
            shown.text("status ");
            shown.display(&end);
        }
        Err(fault) => shown.display(&fault),
    }
    shown.text(", ");
    put_state(shown, session.place(), session.counts());
    end
}

/// Adds where the story is, and how many turns are kept and undone where there are any.
fn put_state(shown: &mut Shown, place: Place, counts: (usize, usize)) {
    match place {
        Place::Waiting => shown.text("waiting"),
        Place::Quit => shown.text("quit"),
        Place::Limit(limit) => shown.display(&limit),
        Place::Fault(fault) => shown.display(&fault),
    }
    let (kept, undone) = counts;
    if kept > 0 || undone > 0 {
        shown.text(", ");
        shown.display(&kept);
        shown.text(" kept, ");
        shown.display(&undone);
        shown.text(" undone");
    }
    shown.text("\n");
}

/// Makes calls of a session, or runs it where there are none, as `put_session` says.
fn put_calls(
    shown: &mut Shown,
    setting: &Setting,
    session: &mut Session,
    calls: &[Call],
    number: &mut u64,
) -> Result<u8, RowError> {
    if calls.is_empty() {
        return Ok(put_run(shown, setting, session));
    }
    for call in calls {
        *number = call.number;
        let (word, text) = parted(call.line.as_str());
        match word {
            "reply" => put_reply(shown, session, text, &written_bytes(setting.alloc, text)?),
            "undo" => {
                shown.text("undo: ");
                shown.display_line(&session.undo());
            }
            "redo" => put_redone(shown, session.redo()),
            "status" => {
                put_status(shown, session);
                continue;
            }
            "cells" => {
                put_cells(shown, session.last_cells(), number_in(text)?);
                continue;
            }
            "record" => {
                put_counted(shown, session, &written_bytes(setting.alloc, text)?)?;
                continue;
            }
            _ => return Err(RowError::Word),
        }
        put_state(shown, session.place(), session.counts());
    }
    Ok(status(&session.place()))
}

/// Replies with a line, and adds how many cells the record of its turn holds.
fn put_counted(shown: &mut Shown, session: &mut Session, line: &[u8]) -> Result<(), RowError> {
    if let Reply::NoMemory = session.reply(line) {
        return Err(RowError::Memory);
    }
    shown.text("by the session: ");
    shown.display(&session.last_cells());
    shown.text(" cells\n");
    Ok(())
}

/// Adds whether a record holds cells, and at most so many.
fn put_cells(shown: &mut Shown, cells: usize, most: usize) {
    if cells == 0 {
        return shown.text("no cells\n");
    }
    shown.text(if cells <= most {
        "at most "
    } else {
        "more than "
    });
    shown.display(&most);
    shown.text(" cells\n");
}

/// Replies to a line, which a text writes, and adds what came of it. Where memory is refused, that
/// may change nothing, and the line is given once more.
fn put_reply(shown: &mut Shown, session: &mut Session, text: &str, line: &[u8]) {
    shown.text("reply ");
    shown.text(text);
    shown.text(": ");
    let counts = session.counts();
    let cells = session.last_cells();
    if has_replied(shown, session.reply(line)) {
        return;
    }
    if counts != session.counts() || cells != session.last_cells() {
        shown.text("changed without memory; ");
    }
    if !has_replied(shown, session.reply(line)) {
        shown.text("no memory\n");
    }
}

/// Adds what came of a line, unless memory was refused.
fn has_replied(shown: &mut Shown, reply: Reply<'_>) -> bool {
    match reply {
        Reply::Taken(told) => {
            shown.text("taken\n");
            shown.lines(told);
        }
        Reply::Refused => shown.text("refused\n"),
        Reply::Over => shown.text("over\n"),
        Reply::NoMemory => return false,
    }
    true
}

/// Adds whether a turn was done again, and its text.
fn put_redone(shown: &mut Shown, told: Option<&[u8]>) {
    match told {
        Some(told) => {
            shown.text("redo: true\n");
            shown.lines(told);
        }
        None => shown.text("redo: false\n"),
    }
}

/// Adds the status line at the present, or that there is none. Where memory is refused, it is asked for
/// once more.
fn put_status(shown: &mut Shown, session: &mut Session) {
    for _ in 0..2 {
        if let Ok(line) = session.status_line() {
            if line.is_empty() {
                shown.text("no ");
            }
            shown.text("status line\n");
            return shown.lines(line);
        }
    }
    shown.text("no memory\n");
}
