//! Arithmetic and comparisons of words (Z-Machine Standards Document 1.1, section 15).

ghost use Rattle.std.specs.Prelude.{◌≡◌, ◌≤◌, ℕ, MatchOption};
ghost use Rattle.zcore.specs.Arithmetic.{magnitude, quotient, remainder, signed_less};
ghost use Rattle.zcore.specs.Execution.{equals_any, give_result, divide, modulo};
ghost use Rattle.machine_frames.specs.States.{IsStoreOf};
ghost use Rattle.machine_frames.specs.Went.{Went};

use journal::Recorded;
use machine_frames::{End, Store, store_result, test_result};
use zcore::{Fault, Header, Next, Place};

/// From here on a word stands for itself less 65,536 (section 2.2).
pub const NEGATIVE: u16 = 0x8000;

/// The condition of `je`: whether a word equals one of others.
#[inline]
pub fn equals_any(word: u16, others: &[u16]) -> bool
    ensures { result ≡ equals_any word others.now }
{
    others.iter().any(|other| word == *other)
}

/// The condition of `jl`, and of `jg` with the words changed about: whether a word is less than
/// another, both signed.
#[inline]
pub fn signed_less(x: u16, y: u16) -> bool
    ensures { result ≡ signed_less x y }
{
    x.wrapping_add(NEGATIVE) < y.wrapping_add(NEGATIVE)
}

/// Stores a result, of `or`, `and`, `not`, `add`, `sub` or `mul`, and goes on.
///
/// # Errors
///
/// M6 and M4 of the result. `End::Memory` where memory was refused: the turn is given up.
#[inline(always)]
pub fn give_result(
    header: &Header,
    store: &mut Recorded<Store>,
    here: Next,
    after: u32,
    result_variable: Option<u8>,
    word: u16,
) -> Result<Next, End>
    requires { IsStoreOf header.now store.old.store }
    ensures { Went result store.old store.new (give_result here after result_variable word) }
{
    test_result(store, result_variable)?;
    store_result(header, store, result_variable, word)?;
    Ok(Next {
        program_counter: after,
        fuel: here.fuel,
    })
}

/// Signed division, rounded towards zero: `div`.
///
/// # Errors
///
/// M7 by zero, then M6 and M4 of the result. `End::Memory` where memory was refused: the turn is
/// given up.
#[inline]
pub fn divide(
    header: &Header,
    store: &mut Recorded<Store>,
    here: Next,
    after: u32,
    result_variable: Option<u8>,
    x: u16,
    y: u16,
) -> Result<Next, End>
    requires { IsStoreOf header.now store.old.store }
    ensures { Went result store.old store.new (divide here after result_variable x y) }
{
    let Some(quotient) = quotient(x, y) else {
        return Err(End::Stop(Place::Fault(Fault::Division)));
    };
    give_result(header, store, here, after, result_variable, quotient)
}

/// The remainder of signed division, with the sign of the dividend: `mod`.
///
/// # Errors
///
/// M7 by zero, then M6 and M4 of the result. `End::Memory` where memory was refused: the turn is
/// given up.
#[inline]
pub fn modulo(
    header: &Header,
    store: &mut Recorded<Store>,
    here: Next,
    after: u32,
    result_variable: Option<u8>,
    x: u16,
    y: u16,
) -> Result<Next, End>
    requires { IsStoreOf header.now store.old.store }
    ensures { Went result store.old store.new (modulo here after result_variable x y) }
{
    let Some(remainder) = remainder(x, y) else {
        return Err(End::Stop(Place::Fault(Fault::Division)));
    };
    give_result(header, store, here, after, result_variable, remainder)
}

/// How far a signed word is from 0.
#[inline(always)]
pub fn magnitude(word: u16) -> u16
    ensures { result ≡ magnitude word }
{
    if word < NEGATIVE {
        word
    } else {
        word.wrapping_neg()
    }
}

/// The quotient of signed words, rounded towards zero; none by zero.
#[inline(always)]
pub fn quotient(x: u16, y: u16) -> Option<u16>
    ensures { MatchOption result (y ≡ 0) (λ word. (1 ≤ y) × (word ≡ quotient x y)) }
{
    if y == 0 {
        return None;
    }
    let quotient = magnitude(x) / magnitude(y);
    if (x < NEGATIVE) == (y < NEGATIVE) {
        Some(quotient)
    } else {
        Some(quotient.wrapping_neg())
    }
}

/// The remainder of signed words, with the sign of the dividend; none by zero.
#[inline(always)]
pub fn remainder(x: u16, y: u16) -> Option<u16>
    ensures { MatchOption result (y ≡ 0) (λ word. (1 ≤ y) × (word ≡ remainder x y)) }
{
    if y == 0 {
        return None;
    }
    let remainder = magnitude(x) % magnitude(y);
    if x < NEGATIVE {
        Some(remainder)
    } else {
        Some(remainder.wrapping_neg())
    }
}
