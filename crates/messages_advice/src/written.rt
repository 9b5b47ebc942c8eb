//! Parts of sentences: bytes and tokens of a source and figures, each on one line.

use messages_parts::{Bytes, Style};
use std::fmt::{self, Display, Formatter};
use syntax_lexer::{Kind, Token, front};

/// The most bytes of a token that are written.
const MOST_WRITTEN: usize = 40;

/// Bytes of a source: of more than 40 the first, and `..`. A byte that does not print stands as
/// `\x1b`.
#[derive(Clone, Copy)]
pub struct Cut<'a>(pub &'a [u8]);

/// Bytes of a source between single quotes, cut as [`Cut`] is.
#[derive(Clone, Copy)]
pub struct Quoted<'a>(pub &'a [u8]);

/// A number below 1,000,000,000 with a comma behind each group of three digits. A greater one has
/// no comma in its millions.
#[derive(Clone, Copy)]
pub struct Figure(pub u128);

/// A token: what it is, and its bytes.
#[derive(Clone, Copy)]
pub struct Met<'a>(pub Token<'a>);

impl Display for Cut<'_> {
    fn fmt<W: fmt::Write>(&self, f: &mut Formatter<W>) -> fmt::Result {
        let dots = if self.0.len() > MOST_WRITTEN {
            ".."
        } else {
            ""
        };
        let bytes = Bytes(Style::Token, front(self.0, MOST_WRITTEN));
        write!(f, "{bytes}{dots}")
    }
}

impl Display for Quoted<'_> {
    fn fmt<W: fmt::Write>(&self, f: &mut Formatter<W>) -> fmt::Result {
        write!(f, "'{}'", Cut(self.0))
    }
}

impl Display for Figure {
    fn fmt<W: fmt::Write>(&self, f: &mut Formatter<W>) -> fmt::Result {
        let ones = self.0 % 1_000;
        let thousands = self.0 / 1_000 % 1_000;
        let millions = self.0 / 1_000_000;
        if millions > 0 {
            write!(f, "{millions},{thousands:03},{ones:03}")
        } else if thousands > 0 {
            write!(f, "{thousands},{ones:03}")
        } else {
            write!(f, "{ones}")
        }
    }
}

/// What is written before and after the bytes of a token.
fn around(kind: Kind<'_>) -> (&'static str, &'static str) {
    match kind {
        Kind::End => ("the end of the source", ""),
        Kind::Text(_) => ("the text ", ""),
        Kind::Character(_) => ("the character ", ""),
        Kind::DictionaryWord(_) => ("the word ", ""),
        Kind::Number(_) => ("the number ", ""),
        _ => ("'", "'"),
    }
}

impl Display for Met<'_> {
    fn fmt<W: fmt::Write>(&self, f: &mut Formatter<W>) -> fmt::Result {
        let (before, after) = around(self.0.kind);
        write!(f, "{before}{}{after}", Cut(self.0.text))
    }
}
