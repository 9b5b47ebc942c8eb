//! The dice (Z-Machine Standards Document 1.1, sections 2.4 and 15, `random`).

ghost use Rattle.std.specs.Prelude.{◌≡◌, ◌≤◌, ◌<◌, OnErr};
ghost use Rattle.zcore_standard.specs.Dice as definitions;
ghost use Rattle.machine_frames.specs.States.{IsStoreOf};
ghost use Rattle.machine_frames.specs.Went.{Went};
ghost use Rattle.machine_decoding.specs.Seen.{seen};
ghost use Rattle.machine_standard_windows.specs.TurnState.{place};

use journal::Recorded;
use machine_frames::{End, Store};
use machine_opcodes::{NEGATIVE, give_result};
use machine_standard_windows::TurnState;
use zcore::{Header, Next, StandardState};

/// The generator takes 32 bits to so many times themselves and one more.
const FACTOR: u64 = 22_695_477;

/// How many values 32 bits have.
const VALUES: u64 = 4_294_967_296;

/// How many values a word has.
const WORDS: u32 = 65_536;

/// How many values 15 bits have, of which a number is made.
const HALVES: u32 = 32_768;

/// From so many below 0 on, a range sets the generator; before it, it begins to count.
const COUNTS_FROM: u32 = 1_000;

/// The 32 bits that come next.
fn stirred(random: u32) -> u32
    ensures { result ≡ definitions.stirred random }
{
    ((random as u64 * FACTOR + 1) % VALUES) as u32
}

/// A number of a positive range, and the dice after it.
fn thrown(range: u16, dice: StandardState) -> (u16, StandardState)
    requires some { 1 ≤ range }
    requires positive { range < 32768 }
    ensures { result ≡ definitions.thrown range dice }
{
    if dice.interval == 0 {
        let random = stirred(dice.random);
        let number = 1 + (random / WORDS % HALVES % range as u32) as u16;
        (number, with_dice(dice, random, dice.interval, dice.counter))
    } else {
        let number = 1 + dice.counter % range;
        let counter = ((dice.counter as u32 + 1) % dice.interval as u32) as u16;
        (number, with_dice(dice, dice.random, dice.interval, counter))
    }
}

/// What is kept beside the state, with other dice.
fn with_dice(kept: StandardState, random: u32, interval: u16, counter: u16) -> StandardState
    ensures { result ≡ record kept { random = random; interval = interval; counter = counter } }
{
    StandardState {
        window: kept.window,
        random,
        interval,
        counter,
    }
}

/// What `random` answers for a signed range, and the dice after it. A positive range gives a number
/// from 1 to the range. 0 gives 0 and ends counting. A negative range gives 0, and the dice count
/// up to it, or begin with it from 1,000 on.
fn rolled(range: u16, dice: StandardState) -> (u16, StandardState)
    ensures { result ≡ definitions.rolled range dice }
{
    if range == 0 {
        return (0, with_dice(dice, dice.random, 0, 0));
    }
    if range < NEGATIVE {
        return thrown(range, dice);
    }
    let below = WORDS - range as u32;
    if below < COUNTS_FROM {
        (0, with_dice(dice, dice.random, below as u16, 0))
    } else {
        (0, with_dice(dice, below, 0, 0))
    }
}

/// Rolls the dice: `random`.
///
/// # Errors
///
/// M6 and M4 of the result, and then the dice are as they were. `End::Memory` where memory was
/// refused: the turn is given up.
pub fn random(
    header: &Header,
    store: &mut Recorded<Store>,
    turn: &mut TurnState,
    here: Next,
    after: u32,
    result_variable: Option<u8>,
    range: u16,
) -> Result<Next, End>
    requires { IsStoreOf header.now store.old.store }
    ensures went { Went (seen (place turn.new) result) store.old store.new
        (definitions.random (place turn.old here) after result_variable range) }
    ensures turn { OnErr result (turn.new ≡ turn.old) }
{
    let (number, dice) = rolled(range, turn.standard_state);
    match give_result(header, store, here, after, result_variable, number) {
        Ok(next) => {
            turn.standard_state = dice;
            Ok(next)
        }
        Err(end) => Err(end),
    }
}
