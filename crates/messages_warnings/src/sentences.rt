//! Warnings in sentences.

use crate::marks::{Concern, Warning};
use crate::warnings::warnings_of;
use messages_advice::{Part, Sentence};
use messages_parts::{before, is_name, is_of, kind_at, kinds, line_of, text_at};
use std::alloc::{AllocError, Global};
use std::fmt::{self, Display, Formatter};
use syntax_lexer::{Kind, NO_MEMORY, Sign, Token, Word, lex};

/// Whether the `=` of a condition that is the token of a number has nothing but a name on its left side.
fn sets_name(tokens: &[Token<'_>], at: usize) -> bool {
    is_of(tokens, before(at, 2), kinds!(Sign OpenParenthesis Colon))
        && is_name(tokens, before(at, 1))
}

/// Where a statement goes that begins with a reserved word, and leaves what follows.
fn where_word_goes(word: Word) -> &'static str {
    match word {
        Word::PrintRet => "'print_ret' leaves the routine",
        Word::Quit => "'quit' ends the story",
        Word::Break => "'break' leaves the loop or switch",
        Word::Continue => "'continue' goes to the next round",
        Word::Rtrue => "'rtrue' leaves the routine",
        Word::Rfalse => "'rfalse' leaves the routine",
        _ => "'return' leaves the routine",
    }
}

/// Why nothing runs what follows the statement that begins with the token of a number: a text, or a
/// reserved word.
fn why_left(tokens: &[Token<'_>], at: usize) -> &'static str {
    match kind_at(tokens, at) {
        Kind::Reserved(word) => where_word_goes(word),
        _ => "a text as a statement leaves the routine",
    }
}

/// What is said of a warning, in a form.
fn form_of(tokens: &[Token<'_>], warning: Warning) -> &'static str {
    match warning.concern {
        Concern::EmptyIf => "';' ends this 'if' here: what follows is run in any case",
        Concern::EmptyLoop => "';' ends this 'while' here: what follows is no part of it",
        Concern::UnusedGlobal => "the global * is never used",
        Concern::UnusedRoutine => "the routine * is never called",
        Concern::UnusedProperty => "the property * is never used",
        Concern::Unset => "* is read here before anything sets it: it is 0",
        Concern::UnusedLocal(_) => "the local * of * is never used",
        Concern::Unreached(_) => "this is never run, since * in line *",
        Concern::Letter(_) => "'*' is a character; the dictionary word is '*//'",
        Concern::Assigns if sets_name(tokens, warning.at) => "'=' sets * here; '==' compares",
        Concern::Assigns => "'=' assigns here; '==' compares",
    }
}

/// The parts of what is said of a warning.
fn parts_of<'a>(tokens: &[Token<'a>], warning: Warning) -> [Part<'a>; 2] {
    let name = Part::Quoted(text_at(tokens, warning.at));
    match warning.concern {
        Concern::UnusedLocal(routine) => [name, Part::Quoted(text_at(tokens, routine))],
        Concern::Unreached(before) => {
            let line = line_of(tokens, before);
            [Part::Text(why_left(tokens, before)), Part::Number(line)]
        }
        Concern::Letter(letter) => [Part::Letter(letter), Part::Letter(letter)],
        Concern::Assigns => [Part::Quoted(text_at(tokens, before(warning.at, 1))), name],
        _ => [name, name],
    }
}

/// All warnings about a program, a line for each, with the name of the source before it.
#[derive(Drop)]
struct Lines<'t, 'a, N> {
    name: N,
    tokens: &'t [Token<'a>],
    warnings: &'t [Warning],
}

impl<N: Display> Display for Lines<'_, '_, N> {
    fn fmt<W: fmt::Write>(&self, f: &mut Formatter<W>) -> fmt::Result {
        for warning in self.warnings {
            let line = line_of(self.tokens, warning.at);
            let form = form_of(self.tokens, *warning);
            let parts = parts_of(self.tokens, *warning);
            writeln!(
                f,
                "{}:{line}: warning: {}",
                self.name,
                Sentence(form, &parts)
            )?;
        }
        Ok(())
    }
}

/// The warnings about a source that is accepted, each on a line with the source's name, which is on
/// one line: `room.inf:3: warning: the global 'x' is never used`. A source whose bytes are no tokens
/// has none.
///
/// # Errors
///
/// `AllocError` where memory is refused.
pub fn warning_lines<N: Display + Drop>(
    alloc: Global,
    source: &[u8],
    name: N,
) -> Result<String, AllocError> {
    match lex(alloc, source) {
        Ok(tokens) => lines_of(alloc, &tokens, name),
        Err(fault) if fault.number == NO_MEMORY => Err(AllocError),
        Err(_) => Ok(String::new(alloc)),
    }
}

/// The warnings about the tokens of a source of a name.
fn lines_of<N: Display + Drop>(
    alloc: Global,
    tokens: &[Token<'_>],
    name: N,
) -> Result<String, AllocError> {
    match warnings_of(alloc, tokens) {
        Ok(warnings) => {
            let lines = Lines {
                name,
                tokens,
                warnings: &warnings,
            };
            format!(in alloc; "{lines}")
        }
        Err(refused) => Err(refused),
    }
}
