//! Signs.

ghost use Rattle.std.specs.Prelude.{◌≡◌, ◌<◌, ◌≤◌, ◌∷◌, [], length, take, slice_index, IfSome, MatchOption};
ghost use Rattle.std.specs.Bool.{Decides};
ghost use Rattle.syntax_lexer.specs.declared.token.Sign.{Sign};
ghost use Rattle.syntax_lexer.specs.Spelling.{sign_spelling};
ghost use Rattle.syntax_lexer.specs.Fronts.{FindsOne, IsLone, IsLongestSign, HasNoSign};

use crate::bytes::byte_at;
use crate::token::Sign;

// `-->` is the one sign of three bytes.
fn is_long_arrow(first: u8, second: u8, third: u8) -> bool
    ensures { Decides result (first ∷ second ∷ third ∷ [] ≡ sign_spelling Sign.LongArrow) }
{
    first == b'-' && second == b'-' && third == b'>'
}

fn sign_of_two(first: u8, second: u8) -> Option<Sign>
    ensures { FindsOne (λ s. sign_spelling s ≡ first ∷ second ∷ []) result }
{
    match (first, second) {
        (b'.', b'&') => Some(Sign::DotAmpersand),
        (b'.', b'#') => Some(Sign::DotHash),
        (b'=', b'=') => Some(Sign::Equal),
        (b'~', b'=') => Some(Sign::NotEqual),
        (b'~', b'~') => Some(Sign::Not),
        (b'>', b'=') => Some(Sign::GreaterOrEqual),
        (b'<', b'=') => Some(Sign::LessOrEqual),
        (b'&', b'&') => Some(Sign::AndAlso),
        (b'|', b'|') => Some(Sign::OrElse),
        (b'+', b'+') => Some(Sign::Increment),
        (b'-', b'-') => Some(Sign::Decrement),
        (b'-', b'>') => Some(Sign::Arrow),
        _ => None,
    }
}

fn sign_of_one(first: u8) -> Option<Sign>
    ensures { FindsOne (λ s. sign_spelling s ≡ first ∷ []) result }
{
    match first {
        b'(' => Some(Sign::OpenParenthesis),
        b')' => Some(Sign::CloseParenthesis),
        b'{' => Some(Sign::OpenBrace),
        b'}' => Some(Sign::CloseBrace),
        b'[' => Some(Sign::OpenBracket),
        b']' => Some(Sign::CloseBracket),
        b';' => Some(Sign::Semicolon),
        b',' => Some(Sign::Comma),
        b':' => Some(Sign::Colon),
        b'.' => Some(Sign::Dot),
        b'=' => Some(Sign::Assign),
        b'~' => Some(Sign::Tilde),
        b'>' => Some(Sign::Greater),
        b'<' => Some(Sign::Less),
        b'&' => Some(Sign::Ampersand),
        b'|' => Some(Sign::Bar),
        b'+' => Some(Sign::Plus),
        b'-' => Some(Sign::Minus),
        b'*' => Some(Sign::Star),
        b'/' => Some(Sign::Slash),
        b'%' => Some(Sign::Percent),
        _ => None,
    }
}

/// The sign that a byte spells, if no longer one begins with it. Most signs are of this kind, and
/// no more bytes are looked at for them.
pub fn lone_sign(first: u8) -> Option<Sign>
    ensures { IfSome result (λ s. IsLone first s) }
{
    match first {
        b'(' => Some(Sign::OpenParenthesis),
        b')' => Some(Sign::CloseParenthesis),
        b'{' => Some(Sign::OpenBrace),
        b'}' => Some(Sign::CloseBrace),
        b'[' => Some(Sign::OpenBracket),
        b']' => Some(Sign::CloseBracket),
        b';' => Some(Sign::Semicolon),
        b',' => Some(Sign::Comma),
        b':' => Some(Sign::Colon),
        b'*' => Some(Sign::Star),
        b'/' => Some(Sign::Slash),
        b'%' => Some(Sign::Percent),
        _ => None,
    }
}

/// How many bytes spell a sign.
pub fn sign_length(sign: Sign) -> usize
    ensures { result ≡ length (sign_spelling sign) }
{
    match sign {
        Sign::LongArrow => 3,
        Sign::DotAmpersand
        | Sign::DotHash
        | Sign::Equal
        | Sign::NotEqual
        | Sign::Not
        | Sign::GreaterOrEqual
        | Sign::LessOrEqual
        | Sign::AndAlso
        | Sign::OrElse
        | Sign::Increment
        | Sign::Decrement
        | Sign::Arrow => 2,
        _ => 1,
    }
}

/// The longest sign at the front.
pub fn sign_at(bytes: &[u8]) -> Option<Sign>
    ensures { MatchOption result (HasNoSign bytes.now) (λ s. IsLongestSign s bytes.now) }
{
    let (first, second) = (byte_at(bytes, 0), byte_at(bytes, 1));
    if is_long_arrow(first, second, byte_at(bytes, 2)) {
        return Some(Sign::LongArrow);
    }
    match sign_of_two(first, second) {
        Some(sign) => Some(sign),
        None => sign_of_one(first),
    }
}
