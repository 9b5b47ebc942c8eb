//! A routine that weighs too much (E32), in the parser's weights.

use crate::forms::{Part, told};
use crate::site::Site;
use meaning::limits::GREATEST_ROUTINE_WEIGHT;
use messages_parts::{before, is_sign};
use std::alloc::AllocError;
use syntax::{Sign, Token};
use syntax_directives::weight_of;

/// The tokens of the routine that begins with that of a number, with the `;` after its `]`.
fn routine_at<'t, 'a>(tokens: &'t [Token<'a>], number: usize) -> &'t [Token<'a>] {
    let rest = tokens.split_at(number.min(tokens.len())).1;
    for last in 0..rest.len() {
        if is_sign(rest, last, Sign::CloseBracket) {
            return rest.split_at(last.saturating_add(2).min(rest.len())).0;
        }
    }
    rest
}

/// What the routine weighs whose name is a token.
///
/// # Errors
///
/// `AllocError` where memory is refused.
pub fn too_heavy(site: Site<'_, '_>) -> Result<String, AllocError> {
    let parts = [
        Part::Quoted(site.token.text),
        Part::Figure(weight_of(routine_at(site.tokens, before(site.at, 1)))),
        Part::Figure(GREATEST_ROUTINE_WEIGHT),
    ];
    told(
        site.alloc,
        "the routine * weighs *; the limit is *: split it",
        &parts,
    )
}
