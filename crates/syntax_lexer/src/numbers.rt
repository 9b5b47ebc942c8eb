//! Numbers.

ghost use Rattle.std.specs.Prelude.{◌≡◌, ◌<◌, ◌≤◌, ◌==◌, ◌||◌, length, slice_index, true, false, if◌then◌else◌, MatchOption};
ghost use Rattle.syntax_lexer.specs.Bytes as classes;
ghost use Rattle.syntax_lexer.specs.Bytes.{value_from};
ghost use Rattle.syntax_lexer.specs.Spelling.{prefix};
ghost use Rattle.syntax_lexer.specs.Fronts.{base_at, Scanned};

use crate::bytes::{Base, Class, byte_at, digit_value, from, front, is_name_byte, run_length};
use crate::fault::LexicalFault;
use crate::token::Kind;

fn base(bytes: &[u8]) -> Base
    ensures { result ≡ base_at (slice_index bytes.now 0) (slice_index bytes.now 1) }
{
    if byte_at(bytes, 0) != b'$' {
        Base::Decimal
    } else if byte_at(bytes, 1) == b'$' {
        Base::Binary
    } else {
        Base::Hexadecimal
    }
}

fn prefix_length(base: Base) -> usize
    ensures { result ≡ length (prefix base) }
{
    match base {
        Base::Decimal => 0,
        Base::Hexadecimal => 1,
        Base::Binary => 2,
    }
}

// The number that digits spell, if it fits.
#[tactic(auto, using(crate::proofs::Runs::value_more, crate::proofs::Runs::value_end, crate::proofs::Runs::value_grows))]
fn value(base: Base, digits: &[u8]) -> Option<u16>
    ensures { MatchOption result (65535 < value_from base 0 digits.now)
        (λ v. (v ≡ value_from base 0 digits.now) × (v ≤ 65535)) }
{
    let mut value: u32 = 0;
    for digit in digits {
        value = value * base.value() + digit_value(*digit);
        if value > 65535 {
            return None;
        }
    }
    Some(value as u16)
}

/// The number at the front, and its length.
///
/// # Errors
///
/// `BadNumber`: no digit follows the prefix, the value is above 65,535, or a byte of names
/// stands directly after it.
pub fn number_token<'a>(bytes: &'a [u8]) -> Result<(Kind<'a>, usize), LexicalFault>
    requires { (classes.is_digit (slice_index bytes.now 0)
        || slice_index bytes.now 0 == 36) ≡ true }
    ensures { Scanned bytes.now result }
{
    let base = base(bytes);
    let start = prefix_length(base);
    let rest = from(bytes, start);
    let count = run_length(Class::Digit(base), rest);
    if count == 0 {
        return Err(LexicalFault::BadNumber);
    }
    if is_name_byte(byte_at(bytes, start + count)) {
        return Err(LexicalFault::BadNumber);
    }
    match value(base, front(rest, count)) {
        Some(number) => Ok((Kind::Number(number), start + count)),
        None => Err(LexicalFault::BadNumber),
    }
}
