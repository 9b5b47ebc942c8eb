//! Why and where a source is refused, on standard error.

use crate::compiling::Texts;
use inform_places::{Places, Told};
use messages_advice::{Misfit, second_misfit};
use messages_diagnosis::{
    Analysis, Diagnosis, Limit, Message, Shown, diagnose, fault_after, message_of,
};
use std::alloc::AllocError;
use std::fmt::{self, Display, Formatter};
use std::process::ExitCode;
use syntax_lexer::SourceFault;
use terminal::OneLine;
use terminal::inform::Words;

/// The exit status where the source is refused.
const REFUSED: u8 = 1;

/// How many faults are shown after the first.
const MOST_SHOWN: usize = 20;

/// Says on standard error why a source is refused.
pub fn refused(rt: &HostRuntime, fault: SourceFault) -> ExitCode {
    let _ = eprintln!(rt; "{fault}");
    ExitCode::from(REFUSED)
}

/// Says on standard error why a source is refused whose file of this name and number is at fault. The
/// main one, which is 0, is not named.
pub fn refused_in(rt: &HostRuntime, name: &str, number: usize, fault: SourceFault) -> ExitCode {
    if number > 0 {
        let name = OneLine(name);
        let _ = eprint!(rt; "{name}: ");
    }
    refused(rt, fault)
}

/// Says on standard error that a fault is told of a file.
fn refused_at(rt: &HostRuntime, places: &Places<'_>, told: Told) -> ExitCode {
    let name = places.files.name(told.file);
    refused_in(rt, name, told.file, told.diagnosis.fault)
}

/// The limit of the size of a story: that of its own length with `--large`, and of an extended source,
/// in which nobody sees what the routines weigh that are made.
pub fn limit_of(words: Words<'_>) -> Limit {
    if words.large || words.is_extended {
        Limit::Length
    } else {
        Limit::Weight
    }
}

/// Says on standard error why what is compiled is refused, and shows where, if that is asked for.
pub fn refuse(rt: &HostRuntime, words: Words<'_>, texts: &Texts, first: Diagnosis) -> ExitCode {
    let Ok(places) = texts.places(rt.alloc()) else {
        return refused(rt, SourceFault::from(AllocError));
    };
    match refuse_at(rt, words, texts.compiled(), &places, first) {
        Ok(status) => status,
        Err(refusal) => refused(rt, SourceFault::from(refusal)),
    }
}

/// Says why a source is refused, and shows where, if that is asked for. A token that nobody wrote does
/// not fit where the source ends: so it is told of the source without what is made.
fn refuse_at(
    rt: &HostRuntime,
    words: Words<'_>,
    source: &[u8],
    places: &Places<'_>,
    first: Diagnosis,
) -> Result<ExitCode, AllocError> {
    if !words.show {
        return Ok(refused_at(rt, places, places.in_written(rt.alloc(), first)?));
    }
    if !places.is_of_none(rt.alloc(), first)? {
        return Ok(show(rt, words, source, places, first));
    }
    let Some(file) = places.file(rt.alloc())? else {
        return Ok(show(rt, words, source, places, first));
    };
    match diagnose(rt.alloc(), &file, words.version, limit_of(words)) {
        Err(again) if again.fault.number == first.fault.number => {
            Ok(show(rt, words, &file, places, again))
        }
        _ => Ok(show(rt, words, source, places, first)),
    }
}

/// Says on standard error why what is compiled is refused by this fault, at its line in the source that
/// was written.
pub fn refuse_in_line(
    rt: &HostRuntime,
    words: Words<'_>,
    texts: &Texts,
    fault: SourceFault,
) -> ExitCode {
    if !words.is_extended {
        return refused(rt, fault);
    }
    let told = Words {
        show: false,
        ..words
    };
    match diagnose(rt.alloc(), texts.compiled(), words.version, limit_of(words)) {
        Ok(_) => refused(rt, fault),
        Err(diagnosis) => refuse(rt, told, texts, diagnosis),
    }
}

/// Says on standard error why what is compiled is refused, and shows where. The faults after the first
/// one follow.
fn show(
    rt: &HostRuntime,
    words: Words<'_>,
    source: &[u8],
    places: &Places<'_>,
    first: Diagnosis,
) -> ExitCode {
    let limit = limit_of(words);
    let Ok(analysis) = Analysis::of(rt.alloc(), source, words.version, limit, first) else {
        return refused(rt, SourceFault::from(AllocError));
    };
    let shown = show_all(rt, places, &analysis);
    analysis.leave();
    match shown {
        Ok(()) => ExitCode::from(REFUSED),
        Err(refusal) => refused(rt, SourceFault::from(refusal)),
    }
}

/// Shows the first fault, and those after it.
fn show_all(
    rt: &HostRuntime,
    places: &Places<'_>,
    analysis: &Analysis<'_>,
) -> Result<(), AllocError> {
    show_one(rt, places, analysis, analysis.first)?;
    show_rules(rt, places, analysis)?;
    show_misfits(rt, places, analysis)
}

/// Shows the rules of programs that a source breaks after the first fault, and the number of those that
/// are not shown.
fn show_rules(
    rt: &HostRuntime,
    places: &Places<'_>,
    analysis: &Analysis<'_>,
) -> Result<(), AllocError> {
    let mut known = analysis.first;
    for _ in 0..MOST_SHOWN {
        let Some(next) = fault_after(rt.alloc(), analysis, known)? else {
            return Ok(());
        };
        known = next.diagnosis;
        show_one(rt, places, analysis, known)?;
    }
    if let Some(next) = fault_after(rt.alloc(), analysis, known)? {
        let _ = eprintln!(rt; "and {} more", next.count);
    }
    Ok(())
}

/// Shows the tokens that do not fit after the first, but for those that nobody wrote.
fn show_misfits(
    rt: &HostRuntime,
    places: &Places<'_>,
    analysis: &Analysis<'_>,
) -> Result<(), AllocError> {
    let mut next = second_misfit(rt.alloc(), analysis.source, analysis.first)?;
    for _ in 0..MOST_SHOWN {
        let Some(misfit) = next else {
            return Ok(());
        };
        if !places.is_of_none(rt.alloc(), misfit.diagnosis)? {
            show_misfit(rt, places, analysis, &misfit)?;
        }
        next = misfit.next(rt.alloc())?;
    }
    Ok(())
}

/// Shows a further token that does not fit.
fn show_misfit(
    rt: &HostRuntime,
    places: &Places<'_>,
    analysis: &Analysis<'_>,
    misfit: &Misfit,
) -> Result<(), AllocError> {
    let (version, limit) = (analysis.version, analysis.limit);
    let rest = Analysis::of(rt.alloc(), &misfit.text, version, limit, misfit.diagnosis)?;
    let message = message_of(rt.alloc(), &rest, misfit.diagnosis)?;
    print_message(rt, places, misfit.diagnosis, &message, "further: ")
}

/// Shows a fault.
fn show_one(
    rt: &HostRuntime,
    places: &Places<'_>,
    analysis: &Analysis<'_>,
    diagnosis: Diagnosis,
) -> Result<(), AllocError> {
    let message = message_of(rt.alloc(), analysis, diagnosis)?;
    print_message(rt, places, diagnosis, &message, "")
}

/// A sentence, with what is before it.
#[derive(Clone, Copy)]
struct Sentence<'a>(&'static str, &'a str);

impl Display for Sentence<'_> {
    fn fmt<W: fmt::Write>(&self, f: &mut Formatter<W>) -> fmt::Result {
        write!(f, "{}{}", self.0, self.1)
    }
}

/// Prints a fault, what is said of it, and where it is.
fn print_message(
    rt: &HostRuntime,
    places: &Places<'_>,
    diagnosis: Diagnosis,
    message: &Message,
    before: &'static str,
) -> Result<(), AllocError> {
    let told = places.in_written(rt.alloc(), diagnosis)?;
    let there = places.in_written(rt.alloc(), message.diagnosis)?;
    let text = message.sentence.as_str();
    let sentence = places.sentence(rt.alloc(), diagnosis, there.file, text)?;
    let shown = Shown {
        source: places.files.bytes(there.file),
        name: OneLine(places.files.name(there.file)),
        sentence: Sentence(before, sentence.as_str()),
        diagnosis: there.diagnosis,
    };
    refused_at(rt, places, told);
    let _ = eprint!(rt; "{shown}");
    Ok(())
}
