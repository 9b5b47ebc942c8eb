//! Sources that are compiled, and whose stories are played.

use crate::names::{Mode, Setting, Shown, compile_and_run, compile_and_run_by_standard, status};

/// Compiles a row's source, plays its story on the row's input by the machine that the row names, and adds
/// the transcript and the player's status, or the fault.
pub fn put_compiled(shown: &mut Shown, setting: &Setting) {
    let mut input = setting.reader();
    let mut out = setting.writer();
    let (alloc, source, version) = (setting.alloc, &setting.source, setting.version);
    let (fuel, keep) = (setting.fuel, setting.keep);
    let answer = match setting.mode {
        Mode::Profile => compile_and_run(alloc, source, version, fuel, keep, &mut input, &mut out),
        Mode::Standard(options) => compile_and_run_by_standard(
            alloc, source, version, options, fuel, keep, &mut input, &mut out,
        ),
    };
    shown.lines(&out.bytes);
    match answer {
        Ok(session) => {
            shown.text("status ");
            shown.display_line(&status(&session.place()));
            session.close();
        }
        Err(fault) => shown.display_line(&fault),
    }
}
