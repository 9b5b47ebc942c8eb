//! Signed words in decimal.

ghost use Rattle.std.specs.Prelude.{◌≡◌, ◌≤◌, length, drop};
ghost use Rattle.zcore.specs.Arithmetic.{decimal, digit, signed_text};

use crate::arithmetic::{NEGATIVE, magnitude};

/// A signed word in decimal: the characters from a place on.
#[inline]
pub fn signed_digits(number: u16) -> ([u8; 6], usize)
    ensures digits { drop result.1 result.0 ≡ signed_text number }
    ensures length { length result.0 ≡ 6 }
    ensures within { result.1 ≤ 5 }
{
    let (mut digits, first) = decimal_digits(magnitude(number));
    if number < NEGATIVE {
        return (digits, first);
    }
    digits[first - 1] = b'-';
    (digits, first - 1)
}

/// The decimal digits of a number: the characters from a place on, before which there is room for a
/// sign.
#[inline]
fn decimal_digits(number: u16) -> ([u8; 6], usize)
    ensures digits { drop result.1 result.0 ≡ decimal number }
    ensures length { length result.0 ≡ 6 }
    ensures room { 1 ≤ result.1 }
    ensures within { result.1 ≤ 5 }
{
    let digits = [
        0,
        digit(number, 10_000),
        digit(number, 1_000),
        digit(number, 100),
        digit(number, 10),
        digit(number, 1),
    ];
    let first = if number < 10 {
        5
    } else if number < 100 {
        4
    } else if number < 1_000 {
        3
    } else if number < 10_000 {
        2
    } else {
        1
    };
    (digits, first)
}

/// A digit of a number.
#[inline]
fn digit(number: u16, power: u16) -> u8
    requires { 1 ≤ power }
    ensures { result ≡ digit number power }
{
    b'0' + (number / power % 10) as u8
}
