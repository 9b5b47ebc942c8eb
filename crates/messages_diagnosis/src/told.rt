//! Sentences about a token, in clauses.

use messages_advice::{Expected, Met, Quoted, TokenKind};
use messages_parts::{Absent, Feature};
use std::fmt::{self, Display, Formatter};
use syntax::{Position, Sign, Word};

/// What is wrong, in a sentence, and the place to show if it is not the fault's.
#[derive(Drop)]
pub struct Told {
    pub sentence: String,

    /// Where a token ends after which something is expected, with its line.
    pub place: Option<Position>,
}

/// What a clause names.
#[derive(Clone, Copy)]
pub enum Part<'a> {
    Nothing,
    Words(&'static str),
    Line(usize),
    /// That what was opened in a line is not closed.
    Unclosed(usize),
    Sign(Sign),
    Quoted(&'a [u8]),
    /// That a name may be meant as a reserved word.
    Misspelt(&'a [u8], Word),
    /// That what is called so is not in this language.
    Absent(&'static str, &'static Feature),
    /// That a word is not in this language.
    AbsentWord(&'a [u8], &'static Feature),
}

/// A clause: words of ASCII, and what stands in the place of `@`.
#[derive(Clone, Copy)]
pub struct Clause<'a>(pub &'static str, pub Part<'a>);

/// A sentence about a token: words with which it begins, and a clause.
#[derive(Clone, Copy)]
pub struct Sentence<'a, 'w> {
    pub begin: &'static str,
    pub clause: Clause<'a>,

    /// What stands in the place of `#`: the kinds that are expected.
    pub wanted: Expected<'w>,

    /// What stands in the place of `*`: the token.
    pub met: Met<'a>,

    /// What stands in the place of `%`: the line of the token before it.
    pub line: usize,
}

/// Words of a sentence.
#[derive(Clone, Copy)]
struct Words<'s, 'a, 'w>(&'s Sentence<'a, 'w>, &'static str);

impl Display for Part<'_> {
    fn fmt<W: fmt::Write>(&self, f: &mut Formatter<W>) -> fmt::Result {
        match *self {
            Part::Nothing => Ok(()),
            Part::Words(words) => f.write_str(words),
            Part::Line(line) => write!(f, "{line}"),
            Part::Unclosed(line) => write!(f, "opened in line {line} is not closed"),
            Part::Sign(sign) => write!(f, "{}", TokenKind::Sign(sign)),
            Part::Quoted(bytes) => write!(f, "{}", Quoted(bytes)),
            Part::Misspelt(name, word) => {
                let meant = TokenKind::Reserved(word);
                write!(f, "unknown word {}; did you mean {meant}?", Quoted(name))
            }
            Part::Absent(what, feature) => write!(f, "{}", Absent(what, feature)),
            Part::AbsentWord(word, feature) => write!(f, "{}", Absent(Quoted(word), feature)),
        }
    }
}

impl Display for Words<'_, '_, '_> {
    fn fmt<W: fmt::Write>(&self, f: &mut Formatter<W>) -> fmt::Result {
        for byte in self.1.as_bytes() {
            match *byte {
                b'#' => write!(f, "{}", self.0.wanted)?,
                b'*' => write!(f, "{}", self.0.met)?,
                b'%' => write!(f, "{}", self.0.line)?,
                b'@' => write!(f, "{}", self.0.clause.1)?,
                other => f.write_char(char::from(other))?,
            }
        }
        Ok(())
    }
}

impl Display for Sentence<'_, '_> {
    fn fmt<W: fmt::Write>(&self, f: &mut Formatter<W>) -> fmt::Result {
        write!(
            f,
            "{}{}",
            Words(self, self.begin),
            Words(self, self.clause.0)
        )
    }
}
