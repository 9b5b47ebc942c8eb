//! The parentheses of a program, and how many arguments its calls have.

use crate::numbers::{no_numbers, number_at, put_number};
use messages_parts::{after, before, is_sign};
use std::alloc::{AllocError, Global};
use syntax_lexer::{Sign, Token};

/// A parenthesis that is open: its token, and how many commas are in it so far.
#[derive(Clone, Copy)]
struct Open {
    at: usize,
    commas: usize,
}

/// Where parentheses open, and what calls give.
#[derive(Drop)]
pub struct Calls {
    /// For each `)` the number of its `(`.
    pub openings: Vec<usize>,

    /// For the token where a routine is defined, the most arguments that a call gives it.
    pub most_arguments: Vec<usize>,
}

/// How many arguments are in a parenthesis that ends with the token of a number.
fn argument_count(open: Open, end: usize) -> usize {
    if after(open.at, 1) == end {
        0
    } else {
        open.commas.saturating_add(1)
    }
}

/// Notes a parenthesis that ends with the token of a number.
fn close(calls: &mut Calls, meant: &[usize], open: Open, end: usize) {
    put_number(&mut calls.openings, end, open.at);
    let routine = number_at(meant, before(open.at, 1));
    let most = number_at(&calls.most_arguments, routine);
    let count = argument_count(open, end).max(most);
    put_number(&mut calls.most_arguments, routine, count);
}

/// The parentheses and calls of a program, of which it is known what each name means.
pub fn calls_of(alloc: Global, tokens: &[Token<'_>], meant: &[usize]) -> Result<Calls, AllocError> {
    let Ok(openings) = no_numbers(alloc, tokens.len()) else {
        return Err(AllocError);
    };
    let Ok(most_arguments) = vec![in alloc; 0; tokens.len()] else {
        return Err(AllocError);
    };
    let mut calls = Calls {
        openings,
        most_arguments,
    };
    let mut open = Vec::new(alloc);
    for at in 0..tokens.len() {
        if is_sign(tokens, at, Sign::OpenParenthesis) {
            let Ok(()) = open.push(Open { at, commas: 0 }) else {
                return Err(AllocError);
            };
        } else if is_sign(tokens, at, Sign::Comma) {
            if let Some(last) = open.last_mut() {
                last.commas = last.commas.saturating_add(1);
            }
        } else if is_sign(tokens, at, Sign::CloseParenthesis) {
            if let Some(last) = open.pop() {
                close(&mut calls, meant, last, at);
            }
        }
    }
    Ok(calls)
}
