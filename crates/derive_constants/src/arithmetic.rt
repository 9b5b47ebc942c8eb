//! Arithmetic of computed constants.

ghost use Rattle.std.specs.Prelude.{◌≡◌};
ghost use Rattle.syntax_lexer.specs.declared.token.Sign.TheVariants as Sign;
ghost use Rattle.derive_constants.specs.Arithmetic as spec;

use syntax_lexer::Sign;

/// The greatest number that counts as positive where numbers are divided.
const GREATEST: u16 = 32_767;

fn opposite(a: u16) -> u16
    ensures { result ≡ spec.opposite a }
{
    a.wrapping_neg()
}

fn is_negative(a: u16) -> bool
    ensures { result ≡ spec.is_negative a }
{
    a > GREATEST
}

fn magnitude(a: u16) -> u16
    ensures { result ≡ spec.magnitude a }
{
    if is_negative(a) { opposite(a) } else { a }
}

fn signed(negative: bool, a: u16) -> u16
    ensures { result ≡ spec.signed negative a }
{
    if negative { opposite(a) } else { a }
}

// The quotient, rounded towards 0.
fn quotient(a: u16, b: u16) -> Option<u16>
    ensures { result ≡ spec.apply Sign.Slash a b }
{
    if b == 0 {
        return None;
    }
    let size = magnitude(a) / magnitude(b);
    Some(signed(is_negative(a) != is_negative(b), size))
}

// The remainder, with the sign of what is divided.
fn remainder(a: u16, b: u16) -> Option<u16>
    ensures { result ≡ spec.apply Sign.Percent a b }
{
    if b == 0 {
        return None;
    }
    Some(signed(is_negative(a), magnitude(a) % magnitude(b)))
}

/// The number that a sign between two makes of them; none where it divides by 0.
pub fn apply(sign: Sign, a: u16, b: u16) -> Option<u16>
    ensures { result ≡ spec.apply sign a b }
{
    match sign {
        Sign::Plus => Some(a.wrapping_add(b)),
        Sign::Minus => Some(a.wrapping_sub(b)),
        Sign::Star => Some(a.wrapping_mul(b)),
        Sign::Slash => quotient(a, b),
        Sign::Percent => remainder(a, b),
        Sign::Ampersand => Some(a & b),
        Sign::Bar => Some(a | b),
        _ => None,
    }
}

/// The number that `-` or `~` before one makes of it.
pub fn prefixed(sign: Sign, a: u16) -> u16
    ensures { result ≡ spec.prefixed sign a }
{
    match sign {
        Sign::Tilde => !a,
        _ => opposite(a),
    }
}
