//! A call with more arguments than the routine has locals (E25).

use crate::forms::{Part, some, told};
use crate::site::Site;
use checker_values::{Binding, Table, find};
use messages_parts::{after, is_sign, open_after};
use std::alloc::AllocError;
use syntax::{Sign, Token};

/// How many commas are in parentheses that open with the token of a number, in no others.
fn commas(tokens: &[Token<'_>], opening: usize) -> usize {
    let mut open: usize = 0;
    let mut commas: usize = 0;
    for number in opening..tokens.len() {
        open = open_after(tokens, number, open);
        if open == 0 {
            break;
        }
        if open == 1 && is_sign(tokens, number, Sign::Comma) {
            commas = commas.saturating_add(1);
        }
    }
    commas
}

/// What is wrong with the arguments of the call that begins with a token.
///
/// # Errors
///
/// `AllocError` where memory is refused.
pub fn too_many_arguments(site: Site<'_, '_>, table: &Table) -> Result<Option<String>, AllocError> {
    let Some(Binding::Routine(_, locals)) = find(table, site.token.text) else {
        return Ok(None);
    };
    let opening = after(site.at, 1);
    let count = if is_sign(site.tokens, after(opening, 1), Sign::CloseParenthesis) {
        0
    } else {
        commas(site.tokens, opening).saturating_add(1)
    };
    let parts = [
        Part::Counted(count as u128, "argument"),
        Part::Quoted(site.token.text),
        Part::Counted(locals as u128, "local"),
    ];
    some(told(
        site.alloc,
        "called with *; * has *: leave one out, or add a local",
        &parts,
    ))
}
