//! Sentences, each made of a form and parts.

use crate::written::{Cut, Figure, Quoted};
use messages_parts::{Bytes, Feature, Style};
use std::alloc::{AllocError, Global};
use std::fmt::{self, Display, Formatter};

/// A part of a sentence.
#[derive(Clone, Copy)]
pub enum Part<'a> {
    /// A text, with quotes in the place of backquotes.
    Text(&'static str),

    /// A letter or a sign.
    Letter(u8),

    /// Bytes of a source, as [`Cut`] writes them.
    Cut(&'a [u8]),

    /// Bytes of a source between quotes.
    Quoted(&'a [u8]),

    /// A number without commas, as that of a line.
    Number(usize),

    /// A number as [`Figure`] writes it.
    Figure(u128),

    /// A number of things, and their word: `no locals`, `1 local`, `2 locals`.
    Counted(u128, &'static str),
}

/// A form, in which the next part is written for each `*`, and the last where there are no more.
#[derive(Clone, Copy)]
pub struct Sentence<'p, 'a>(pub &'static str, pub &'p [Part<'a>]);

impl Display for Part<'_> {
    fn fmt<W: fmt::Write>(&self, f: &mut Formatter<W>) -> fmt::Result {
        match *self {
            Part::Text(text) => write!(f, "{}", Bytes(Style::Text, text.as_bytes())),
            Part::Letter(letter) => f.write_char(char::from(letter)),
            Part::Cut(bytes) => write!(f, "{}", Cut(bytes)),
            Part::Quoted(bytes) => write!(f, "{}", Quoted(bytes)),
            Part::Number(number) => write!(f, "{number}"),
            Part::Figure(number) => write!(f, "{}", Figure(number)),
            Part::Counted(0, what) => write!(f, "no {what}s"),
            Part::Counted(1, what) => write!(f, "1 {what}"),
            Part::Counted(more, what) => write!(f, "{} {what}s", Figure(more)),
        }
    }
}

/// The part of a number, or the last one.
fn part_at<'a>(parts: &[Part<'a>], number: usize) -> Part<'a> {
    match parts.get(number.min(parts.len().saturating_sub(1))) {
        Some(part) => *part,
        None => Part::Text(""),
    }
}

impl Display for Sentence<'_, '_> {
    fn fmt<W: fmt::Write>(&self, f: &mut Formatter<W>) -> fmt::Result {
        let mut number: usize = 0;
        for byte in self.0.as_bytes() {
            let part = if *byte == b'*' {
                number = number.saturating_add(1);
                part_at(self.1, number.saturating_sub(1))
            } else {
                Part::Letter(*byte)
            };
            write!(f, "{part}")?;
        }
        Ok(())
    }
}

/// A sentence of a form and parts.
///
/// # Errors
///
/// `AllocError` where memory is refused.
pub fn told(alloc: Global, form: &'static str, parts: &[Part<'_>]) -> Result<String, AllocError> {
    format!(in alloc; "{}", Sentence(form, parts))
}

/// That something is not in this language, and what to write instead.
///
/// # Errors
///
/// `AllocError` where memory is refused.
pub fn absent(
    alloc: Global,
    what: Part<'_>,
    feature: &'static Feature,
) -> Result<String, AllocError> {
    let parts = [what, Part::Text(feature.instead)];
    told(alloc, "* is not in this language: *", &parts)
}

/// What is told where a sentence was made: that sentence.
///
/// # Errors
///
/// `AllocError` where memory was refused for it.
pub fn some(sentence: Result<String, AllocError>) -> Result<Option<String>, AllocError> {
    match sentence {
        Ok(sentence) => Ok(Some(sentence)),
        Err(refused) => Err(refused),
    }
}
