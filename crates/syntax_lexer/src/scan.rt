//! The token at the front of some bytes.

ghost use Rattle.std.specs.Prelude.{◌≡◌, ◌≤◌, ◌<◌, ◌==◌, length, slice_index, IfOk, false};
ghost use Rattle.syntax_lexer.specs.Bytes as classes;
ghost use Rattle.syntax_lexer.specs.Fronts.{Scanned};

use crate::bytes::{begins_number, is_letter};
use crate::fault::LexicalFault;
use crate::names::name_token;
use crate::numbers::number_token;
use crate::quoted::{quoted_token, text_token};
use crate::signs::{lone_sign, sign_at, sign_length};
use crate::token::Kind;

// The token at the front, where no name stands either, and its length.
fn other_token<'a>(bytes: &'a [u8]) -> Result<(Kind<'a>, usize), LexicalFault>
    requires nonempty { 0 < length bytes.now }
    requires no_divider { classes.is_divider (slice_index bytes.now 0) ≡ false }
    requires no_comment { (slice_index bytes.now 0 == 33) ≡ false }
    requires no_letter { classes.is_letter (slice_index bytes.now 0) ≡ false }
    ensures scanned { Scanned bytes.now result }
    ensures room { IfOk result (λ x. (0 < x.1) × (x.1 ≤ length bytes.now)) }
{
    let first = bytes[0];
    if begins_number(first) {
        number_token(bytes)
    } else if first == b'"' {
        text_token(bytes)
    } else if first == b'\'' {
        quoted_token(bytes)
    } else {
        match sign_at(bytes) {
            Some(sign) => Ok((Kind::Sign(sign), sign_length(sign))),
            None => Err(LexicalFault::StrayByte),
        }
    }
}

/// The token at the front, where no divider and no comment stands, and its length.
///
/// # Errors
///
/// `StrayByte`: the first byte begins no token. The other faults are those of the token that it
/// begins.
pub fn scan<'a>(bytes: &'a [u8]) -> Result<(Kind<'a>, usize), LexicalFault>
    requires nonempty { 0 < length bytes.now }
    requires no_divider { classes.is_divider (slice_index bytes.now 0) ≡ false }
    requires no_comment { (slice_index bytes.now 0 == 33) ≡ false }
    ensures scanned { Scanned bytes.now result }
    ensures room { IfOk result (λ x. (0 < x.1) × (x.1 ≤ length bytes.now)) }
{
    let first = bytes[0];
    if is_letter(first) {
        return name_token(bytes);
    }
    match lone_sign(first) {
        Some(sign) => Ok((Kind::Sign(sign), 1)),
        None => other_token(bytes),
    }
}
