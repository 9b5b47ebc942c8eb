//! A session that is played on lines that were kept and lines that are typed.

use crate::keys::{Keys, TypedKeys};
use crate::named::{Named, Naming};
use crate::resizing::{Resizing, UntilResized};
use crate::saves::{Answers, Saves};
use crate::screening::{end, has_status_line, size_of};
use crate::shown::Screen;
use crate::stop::{Stop, ended, stopped};
use crate::transcript::Transcript;
use play_json::{First, resumed_line};
use screen::{Asking, Drawn, Keyboard, Shared, Size};
use session::{Place, Session};
use session_keeping::{Again, Kept, Later, Preceded, Progress, Script, Typed, count_lines};
use session_run::{Files, RunFault, run, run_telling};
use std::cell::Cell;
use std::fs::File;
use std::io::{BufReader, IsTerminal, Read, Write};
use terminal::Wrapped;
use terminal::play::Words;

/// Plays a session as the words of the command line say, on the lines that were kept and then on those of
/// standard input: each reply is written as an object or drawn on a screen, or the lines of the transcript
/// are broken at words where a width is given. Where the screen gets another size, the run ends, and asks to
/// open the session anew, if that may be done.
///
/// # Errors
///
/// What stopped it.
pub fn run_session<'a>(
    rt: &'a HostRuntime,
    session: &mut Session,
    words: Words<'a>,
    script: Option<Script<'a>>,
    kept: Option<Kept>,
    resizing: Option<&'a Resizing>,
) -> Result<Place, Stop> {
    if words.is_json {
        return run_to_objects(rt, session, words, kept);
    }
    let size = size_of(rt, &words);
    let named = Named::of(rt, &words);
    let keys = Keys::new(rt, &words, size.is_some());
    let terminal = Terminal {
        shared: None,
        named: named.as_ref(),
        keys: &keys,
        resizing,
    };
    if let Some(size) = size {
        return run_on_screen(rt, size, terminal, session, words, script, kept);
    }
    match words.wrap {
        None => run_to(rt, rt.stdout(), terminal, session, words, script, kept),
        Some(columns) => {
            let wrapped = Wrapped::new(rt.alloc(), rt.stdout(), columns as usize);
            run_to(rt, wrapped, terminal, session, words, script, kept)
        }
    }
}

/// What the reader and the writer of a session tell each other.
#[derive(Clone, Copy)]
struct Terminal<'a> {
    /// Of a screen, if the session is drawn on one.
    shared: Option<&'a Shared<'a>>,

    /// Of names of saved games, if the user types some.
    named: Option<&'a Named<'a>>,

    /// Of keys.
    keys: &'a Keys<'a>,

    /// Of another size of the screen, if the story is to be told of that.
    resizing: Option<&'a Resizing>,
}

impl<'a> Terminal<'a> {
    /// Without a screen and names of saved games.
    fn of_keys(keys: &'a Keys<'a>) -> Terminal<'a> {
        Terminal {
            shared: None,
            named: None,
            keys,
            resizing: None,
        }
    }

    /// Where the reader finds the prompt at which the story waits.
    fn prompt(self) -> &'a Cell<Option<Vec<u8>>> {
        match self.shared {
            Some(shared) => &shared.prompt,
            None => &self.keys.prompt,
        }
    }
}

/// Plays a session on the lines of standard input, after those that were kept. Each reply goes to standard
/// output as a JSON object on one line, and nothing is said beside it. A terminal shows characters that hide
/// by their numbers, as ever.
fn run_to_objects<'a>(
    rt: &'a HostRuntime,
    session: &mut Session,
    words: Words<'a>,
    kept: Option<Kept>,
) -> Result<Place, Stop> {
    let alloc = rt.alloc();
    let first = First { seed: words.seed };
    let mut screen = Screen::new(alloc, rt.stdout(), rt.stdout().is_terminal());
    let Some(kept) = kept else {
        let mut saves = Saves::new(rt, words.saves, None, None, None);
        let ran = play_json::run(
            alloc,
            &mut rt.stdin(),
            &mut screen,
            &mut saves,
            session,
            first,
        );
        return stopped(ran);
    };
    let keys = Keys::new(rt, &words, false);
    let terminal = Terminal::of_keys(&keys);
    if kept.is_new {
        return run_on(
            rt,
            &mut screen,
            terminal,
            session,
            words.saves,
            None,
            kept,
            Some(first),
        );
    }
    go_on_to_objects(rt, screen, terminal, session, words.saves, kept, first)
}

/// Goes on with a session that was kept: the first object tells how many lines were played before, and the
/// next is that of the last reply.
fn go_on_to_objects<'a, W: Write + Drop>(
    rt: &'a HostRuntime,
    writer: W,
    terminal: Terminal<'a>,
    session: &mut Session,
    folder: Option<&'a str>,
    kept: Kept,
    first: First,
) -> Result<Place, Stop> {
    let before = count_lines(&kept.typed);
    let Ok(line) = resumed_line(rt.alloc(), before, first) else {
        return Err(Stop::Run(RunFault::Writing));
    };
    let mut writer = Later::new(Preceded::new(writer, line), before);
    run_on(
        rt,
        &mut writer,
        terminal,
        session,
        folder,
        None,
        kept,
        Some(first),
    )
}

/// Plays a session on a screen that has this size first.
fn run_on_screen<'a>(
    rt: &'a HostRuntime,
    size: Size,
    terminal: Terminal<'a>,
    session: &mut Session,
    words: Words<'a>,
    script: Option<Script<'a>>,
    kept: Option<Kept>,
) -> Result<Place, Stop> {
    let size = match terminal.resizing {
        Some(resizing) => resizing.size(size),
        None => size,
    };
    let resizing = match terminal.resizing {
        Some(resizing) if !has_status_line(session.memory()) => Some(resizing),
        _ => None,
    };
    let shared = Shared::new(size, words.size_file);
    let has_line = has_status_line(session.memory());
    let writer = Drawn::new(rt.alloc(), rt.stdout(), &shared, has_line);
    let terminal = Terminal {
        shared: Some(&shared),
        resizing,
        ..terminal
    };
    let ran = run_to(rt, writer, terminal, session, words, script, kept);
    match resizing {
        Some(resizing) if resizing.is_asked() => {}
        _ => end(rt, shared.size.get()),
    }
    ran
}

/// Plays a session on the lines of standard input, after those that were kept. The transcript goes to a
/// writer, which draws on a screen if there is what it shares with the keyboard.
fn run_to<'a, W: Write + Drop>(
    rt: &'a HostRuntime,
    writer: W,
    terminal: Terminal<'a>,
    session: &mut Session,
    words: Words<'a>,
    script: Option<Script<'a>>,
    kept: Option<Kept>,
) -> Result<Place, Stop> {
    let folder = words.saves;
    match kept {
        Some(kept) => {
            // On a screen there are two flushes for each line.
            let flushes = if terminal.shared.is_some() { 2 } else { 1 };
            let told = count_lines(&kept.typed).saturating_add(pending(terminal.resizing));
            let before = told.saturating_mul(flushes);
            let mut transcript = transcript_to(rt, writer, before, &words, terminal);
            run_on(
                rt,
                &mut transcript,
                terminal,
                session,
                folder,
                script,
                kept,
                None,
            )
        }
        None => {
            let mut saves = Saves::new(rt, folder, terminal.named, script, None);
            stopped(run_new(rt, writer, terminal, session, &words, &mut saves))
        }
    }
}

/// How many lines were typed that are not kept yet: one or none.
fn pending(resizing: Option<&Resizing>) -> usize {
    match resizing {
        Some(resizing) if resizing.has_line() => 1,
        _ => 0,
    }
}

/// The transcript of a session, for a user at a terminal, who is told more beside it: where no map is given also
/// how to find the line of a runtime fault. So many flushes are for replies that were written before.
fn transcript_to<'a, W: Write + Drop>(
    rt: &'a HostRuntime,
    writer: W,
    before: usize,
    words: &Words<'_>,
    terminal: Terminal<'a>,
) -> Transcript<'a, Screen<W>> {
    let screen = Screen::new(rt.alloc(), writer, rt.stdout().is_terminal());
    let drawn = prompt_of(terminal.shared);
    Transcript::new(
        rt,
        Later::new(screen, before),
        words,
        drawn,
        terminal.named,
        terminal.keys,
    )
}

/// Plays a session that is not kept on the lines of standard input.
fn run_new<'a, W: Write + Drop>(
    rt: &'a HostRuntime,
    mut writer: W,
    terminal: Terminal<'a>,
    session: &mut Session,
    words: &Words<'_>,
    saves: &mut Saves<'_>,
) -> Result<Place, RunFault> {
    let Some(shared) = terminal.shared else {
        if !rt.stdout().is_terminal() && !rt.stdin().is_terminal() {
            return run(&mut rt.stdin(), &mut writer, saves, session);
        }
        let mut transcript = transcript_to(rt, writer, 0, words, terminal);
        let typed = TypedKeys::new(rt.stdin(), terminal.keys, terminal.prompt());
        let mut lines = Naming::new(typed, terminal.named);
        let awaits_key = &terminal.keys.is_awaited;
        return run_telling(&mut lines, &mut transcript, saves, session, awaits_key);
    };
    let mut transcript = transcript_to(rt, writer, 0, words, terminal);
    let typed = TypedKeys::new(rt.stdin(), terminal.keys, terminal.prompt());
    let keyboard = Keyboard::new(rt, typed, shared);
    let mut lines = Naming::new(keyboard, terminal.named);
    run_asking(
        rt,
        &mut lines,
        &mut transcript,
        saves,
        session,
        terminal.keys,
    )
}

/// Where the keyboard of a screen finds the prompt, if there is a screen.
fn prompt_of<'a>(shared: Option<&'a Shared<'a>>) -> Option<&'a Cell<Option<Vec<u8>>>> {
    match shared {
        Some(shared) => Some(&shared.prompt),
        None => None,
    }
}

/// Plays a session on the lines of a reader, and asks for the status line after each.
fn run_asking<R: Read, W: Write, F: Files>(
    rt: &HostRuntime,
    reader: &mut R,
    writer: &mut W,
    files: &mut F,
    session: &mut Session,
    keys: &Keys<'_>,
) -> Result<Place, RunFault> {
    match BufReader::new(rt.alloc(), reader) {
        Ok(lines) => run_telling(
            &mut Asking::new(lines),
            writer,
            files,
            session,
            &keys.is_awaited,
        ),
        Err(_) => Err(RunFault::Reading),
    }
}

/// Plays a session on the lines that were kept, and then on those of standard input, and keeps these first. Each reply
/// is an object where there is what the first of them tells.
fn run_on<'a, W: Write>(
    rt: &'a HostRuntime,
    writer: &mut W,
    terminal: Terminal<'a>,
    session: &mut Session,
    folder: Option<&'a str>,
    script: Option<Script<'a>>,
    kept: Kept,
    first: Option<First>,
) -> Result<Place, Stop> {
    let Kept {
        file,
        typed,
        answers,
        ..
    } = kept;
    if let Some(named) = terminal.named {
        named.offer_last(&typed, &answers);
    }
    let progress = Progress::new();
    let lost = Cell::new(None);
    let is_unanswered = Cell::new(false);
    let mut is_broken = false;
    let answers = Answers {
        file: &file,
        before: answers,
        lines: count_lines(&typed),
        progress: &progress,
        lost: &lost,
        is_passed: Cell::new(false),
        is_broken: &is_unanswered,
    };
    let mut saves = Saves::new(rt, folder, terminal.named, script, Some(answers));
    let before = Again::new(&typed, &progress);
    let ran = run_lines(
        rt,
        before,
        &file,
        &mut is_broken,
        terminal,
        writer,
        &mut saves,
        session,
        first,
    );
    let is_unkept = is_broken || is_unanswered.get();
    ended(ran, lost.get(), is_unkept)
}

/// Plays a session on lines that were typed before, and then on those of standard input, which are kept in a file.
fn run_lines<W: Write>(
    rt: &HostRuntime,
    before: Again<'_>,
    file: &File,
    is_broken: &mut bool,
    terminal: Terminal<'_>,
    writer: &mut W,
    saves: &mut Saves<'_>,
    session: &mut Session,
    first: Option<First>,
) -> Result<Place, RunFault> {
    let keys = terminal.keys;
    let typed = TypedKeys::new(rt.stdin(), keys, terminal.prompt());
    match terminal.shared {
        None => {
            let Some(first) = first else {
                let lines = Naming::new(typed, terminal.named);
                let mut all = before.chain(Typed::new(rt.alloc(), lines, file, is_broken));
                return run_telling(&mut all, writer, saves, session, &keys.is_awaited);
            };
            let mut all = before.chain(Typed::new(rt.alloc(), rt.stdin(), file, is_broken));
            play_json::run(rt.alloc(), &mut all, writer, saves, session, first)
        }
        Some(shared) => {
            let lines = Naming::new(Keyboard::new(rt, typed, shared), terminal.named);
            let lines = UntilResized::new(rt.alloc(), lines, shared, terminal.resizing);
            let mut all = before.chain(Typed::new(rt.alloc(), lines, file, is_broken));
            run_asking(rt, &mut all, writer, saves, session, keys)
        }
    }
}

/// All that a session writes on the lines that were kept, if they are answered as they were. No file is written.
pub fn written_on(rt: &HostRuntime, mut session: Session, kept: Kept) -> Option<Vec<u8>> {
    let Kept {
        file,
        typed,
        answers,
        ..
    } = kept;
    let progress = Progress::new();
    let lost = Cell::new(None);
    let is_unanswered = Cell::new(false);
    let answers = Answers {
        file: &file,
        before: answers,
        lines: count_lines(&typed),
        progress: &progress,
        lost: &lost,
        is_passed: Cell::new(false),
        is_broken: &is_unanswered,
    };
    let mut saves = Saves::of_answers(rt, answers);
    let mut written = Vec::new(rt.alloc());
    let ran = run(
        &mut Again::new(&typed, &progress),
        &mut written,
        &mut saves,
        &mut session,
    );
    session.close();
    match ended(ran, lost.get(), is_unanswered.get()) {
        Ok(_place) => Some(written),
        Err(_stop) => None,
    }
}
