//! Characters that are likely to be dictionary words of one letter.

use crate::marks::{Concern, Marks};
use crate::numbers::{NONE, has_flag, number_at, set_flag};
use crate::routines::Routine;
use crate::statements::{begins_in_list, is_case};
use messages_parts::{
    Kinds, after, before, is_name, is_named, is_of, is_sign, is_word, kind_at, kinds,
};
use std::alloc::{AllocError, Global};
use syntax_lexer::{Kind, Sign, Token, Word};

/// The property that always exists: its words are those that mean an object.
const NAME: &[u8] = b"name";

/// The operators after which a value is compared.
const EQUALITIES: Kinds = kinds!(Sign Equal NotEqual);

/// A letter that is written as a character, and the group of values to which it belongs.
#[derive(Clone, Copy)]
struct Letter {
    at: usize,
    letter: u8,
    group: usize,
}

/// Values in groups: those that are compared with one thing, or are in one list. A group has the
/// number of a token: of the definition of what is compared, or else of the operator or the list.
#[derive(Drop)]
pub struct Groups {
    /// Whether dictionary words are in the group of a number.
    has_words: Vec<bool>,

    letters: Vec<Letter>,

    /// Whether memory was refused for one. What is found then is of no use.
    pub is_refused: bool,
}

/// The tokens of a program, and what is known of them: where each name is defined, and where
/// parentheses open.
#[derive(Clone, Copy)]
pub struct Context<'c, 'a> {
    pub alloc: Global,
    pub tokens: &'c [Token<'a>],
    pub meant: &'c [usize],

    /// For each `)` the number of its `(`.
    pub openings: &'c [usize],
}

impl Groups {
    /// No values, in a program of so many tokens.
    pub fn none(alloc: Global, length: usize) -> Result<Groups, AllocError> {
        Ok(Groups {
            has_words: vec![in alloc; false; length]?,
            letters: Vec::new(alloc),
            is_refused: false,
        })
    }

    /// Takes a value of a group, which is the token of a number.
    fn take(&mut self, tokens: &[Token<'_>], at: usize, group: usize) {
        match kind_at(tokens, at) {
            Kind::DictionaryWord(_) => set_flag(&mut self.has_words, group),
            Kind::Character(letter) if letter.is_ascii_alphabetic() => {
                if self.letters.push(Letter { at, letter, group }).is_err() {
                    self.is_refused = true;
                }
            }
            _ => {}
        }
    }

    /// Marks the letters in groups that have dictionary words.
    pub fn mark(&self, marks: &mut Marks) {
        for letter in &self.letters {
            if has_flag(&self.has_words, letter.group) {
                marks.mark(letter.at, Concern::Letter(letter.letter));
            }
        }
    }
}

/// The name of what an operand is that ends with the token of a number: a variable, a property, an
/// array of words or a routine. [`NONE`] where none of these ends there.
fn subject_of(tokens: &[Token<'_>], openings: &[usize], last: usize) -> usize {
    let first = if is_sign(tokens, last, Sign::CloseParenthesis) {
        number_at(openings, last)
    } else {
        last
    };
    let front = before(first, 1);
    if is_sign(tokens, front, Sign::LongArrow) {
        before(front, 1)
    } else if is_sign(tokens, front, Sign::Arrow) {
        NONE
    } else if first != last {
        front
    } else {
        last
    }
}

/// The group of what is compared: its last token has a number, and so has the operator.
fn group_of(context: Context<'_, '_>, last: usize, operator: usize, groups: &mut Groups) -> usize {
    let subject = subject_of(context.tokens, context.openings, last);
    if !is_name(context.tokens, subject) {
        return operator;
    }
    if is_named(context.tokens, subject, NAME) {
        set_flag(&mut groups.has_words, operator);
    }
    match number_at(context.meant, subject) {
        NONE => operator,
        definition => definition,
    }
}

/// Whether a value is compared with what is before the operator of a number, or is after `or` in
/// such a list, whose last value so far has a number.
fn is_compared(tokens: &[Token<'_>], at: usize, last: usize) -> bool {
    let operator = before(at, 1);
    is_of(tokens, operator, EQUALITIES)
        || is_word(tokens, operator, Word::Or) && before(at, 2) == last
}

/// Takes the values in a routine with which something is compared by `==` and `~=`.
fn take_compared(context: Context<'_, '_>, routine: Routine, groups: &mut Groups) {
    let tokens = context.tokens;
    let mut group = NONE;
    let mut last = NONE;
    for at in routine.body..routine.end {
        if is_of(tokens, at, EQUALITIES) {
            group = group_of(context, before(at, 1), at, groups);
        } else if is_compared(tokens, at, last) {
            groups.take(tokens, at, group);
            last = at;
        }
    }
}

/// The group of the values of a `switch` whose `{` has a number; [`NONE`] where that begins a block.
fn group_of_block(context: Context<'_, '_>, brace: usize, groups: &mut Groups) -> usize {
    let tokens = context.tokens;
    let close = before(brace, 1);
    let switch = before(number_at(context.openings, close), 1);
    if is_sign(tokens, close, Sign::CloseParenthesis) && is_word(tokens, switch, Word::Switch) {
        group_of(context, before(close, 1), switch, groups)
    } else {
        NONE
    }
}

/// Takes the values of the cases in a routine.
fn take_cases(context: Context<'_, '_>, routine: Routine, groups: &mut Groups) {
    let tokens = context.tokens;
    let mut blocks = Vec::new(context.alloc);
    let mut in_case = false;
    for at in routine.body..routine.end {
        if begins_in_list(tokens, at) {
            in_case = is_case(tokens, at);
        }
        if is_sign(tokens, at, Sign::OpenBrace) {
            if blocks.push(group_of_block(context, at, groups)).is_err() {
                groups.is_refused = true;
            }
        } else if is_sign(tokens, at, Sign::CloseBrace) {
            blocks.pop();
        } else if in_case {
            groups.take(tokens, at, blocks.last().copied().unwrap_or(NONE));
        }
    }
}

/// Notes the arrays of words that `read` fills.
fn note_read(context: Context<'_, '_>, routine: Routine, groups: &mut Groups) {
    for at in routine.body..routine.end {
        if is_word(context.tokens, at, Word::Read) {
            let array = number_at(context.meant, after(at, 2));
            set_flag(&mut groups.has_words, array);
        }
    }
}

/// Takes the values in a routine.
pub fn take_routine(context: Context<'_, '_>, routine: Routine, groups: &mut Groups) {
    note_read(context, routine, groups);
    take_compared(context, routine, groups);
    take_cases(context, routine, groups);
}

/// Whether the values of an array or of a property begin after the token of a number.
fn begins_list(tokens: &[Token<'_>], at: usize) -> bool {
    is_of(tokens, at, kinds!(Sign Comma, Word Array With))
}

/// Takes the values in the definitions from one token to another, which are no routines.
pub fn take_definitions(tokens: &[Token<'_>], first: usize, end: usize, groups: &mut Groups) {
    let mut group = NONE;
    for at in first..end {
        if begins_list(tokens, at) {
            group = at;
            if is_named(tokens, after(at, 1), NAME) {
                set_flag(&mut groups.has_words, at);
            }
        } else if is_sign(tokens, at, Sign::Semicolon) {
            group = NONE;
        } else {
            groups.take(tokens, at, group);
        }
    }
}
