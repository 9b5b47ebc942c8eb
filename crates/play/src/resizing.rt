//! A session whose screen has got another size.

ghost use Rattle.terminal.specs.Range.{IsInRange};

use crate::{mode_of, story_of};
use play_terminal::written_on;
use session::{Keep, Session};
use session_keeping::{Keeping, retell};
use std::process::ExitCode;
use terminal::play::Words;

/// As many rows of the upper window as a screen can have.
const ALL_ROWS: u8 = u8::MAX;

/// Has the story of a session told of another screen, by the options in the session's file, if it writes the same
/// then on the lines of the session; or else says that it is not told. `None` is no other screen.
///
/// # Errors
///
/// The status with which the program ends, which has said why.
pub(crate) fn resize<'a>(
    rt: &HostRuntime,
    words: Words<'a>,
    name: &'a str,
    told_screen: Option<(u8, u8)>,
) -> Result<(), ExitCode>
    requires { IsInRange words }
{
    let settled = Keeping::open(rt, name)?.settle(rt, words)?;
    if told_screen == settled.told_screen {
        return Ok(());
    }
    let told = Words {
        told_screen,
        ..settled
    };
    if is_same(rt, settled, told, name)? && retell(rt, name, &told).is_ok() {
        return Ok(());
    }
    let _ = eprintln!(rt; "play: the story goes on as on a screen of the size before");
    Ok(())
}

/// Whether a session's story writes the same on its lines, as it is played in two ways.
fn is_same(
    rt: &HostRuntime,
    one: Words<'_>,
    other: Words<'_>,
    name: &str,
) -> Result<bool, ExitCode> {
    let one = written_in(rt, one, name)?;
    let other = written_in(rt, other, name)?;
    match (one, other) {
        (Some(one), Some(other)) => Ok(one.as_slice() == other.as_slice()),
        _ => Ok(false),
    }
}

/// All that the story of a session writes on its lines in the text of a screen, so without menus, which are laid out for
/// its size; `None` where a line is not answered as it was, or memory is refused.
fn written_in(rt: &HostRuntime, words: Words<'_>, name: &str) -> Result<Option<Vec<u8>>, ExitCode> {
    let story = story_of(rt, words)?;
    let kept = Keeping::open(rt, name)?.begin(rt, words)?;
    let keep = Keep {
        turns: words.keep,
        picture: true,
        styles: true,
        rows: Some(ALL_ROWS),
    };
    let mut script = Vec::new(rt.alloc());
    match Session::open_scripted(
        rt.alloc(),
        story,
        mode_of(words),
        words.fuel,
        keep,
        &mut script,
    ) {
        Ok(session) => Ok(written_on(rt, session, kept)),
        Err(_) => Ok(None),
    }
}
