//! Brings the styles of a turn's text up to date after a step.

ghost use Rattle.std.specs.Prelude.{◌≡◌, ℕ, List, length, take, OnOk, Option};
ghost use Rattle.zcore.specs.State.{State};
ghost use Rattle.zcore.specs.declared.next.Next as next;
ghost use Rattle.zcore_standard.specs.Place.{Here};
ghost use Rattle.zcore_standard.specs.Streams.{heard_of};
ghost use Rattle.zcore_standard.specs.declared.operations.StandardOperation.{StandardOperation};
ghost use Rattle.zcore_versions.specs.Versions.{Story};
ghost use Rattle.machine_standard_windows.specs.TurnState.{place};
ghost use Rattle.machine_standard_windows.specs.declared.turn_state.TurnState as turn_state;
ghost use Rattle.machine_picture.specs.Represented.{styles_of};
ghost use Rattle.machine_picture.specs.Styles as definitions;
ghost use Rattle.machine_styling.specs.Restyling.{Changes, IsBefore, IsFitting, Restyles, StaysAt};

use crate::before::{Before, Change};
use machine_frames::End;
use machine_picture::Styles;
use machine_standard_opcodes::heard_length;
use machine_standard_windows::TurnState;
use std::alloc::AllocError;
use zcore::{Next, Place};
use zcore_standard::Upper;

/// Brings styles up to date after a step that has come to this, with the text of the turn.
///
/// # Errors
///
/// Memory was refused.
pub fn restyle(
    styles: &mut Styles,
    before: &Before,
    done: Result<Next, End>,
    turn: &TurnState,
    text: &[u8],
) -> Result<(), AllocError>
    requires { IsFitting before.now.change (length (styles_of styles.old).each) }
    ensures { (story : Story) → (was : turn_state.TurnState) → (next : next.Next) → (s : State)
        → IsBefore story (place was next) s (styles_of styles.old).style before.now
        → length (styles_of styles.old).each ≡ length s.text → StaysAt done was turn.now
        → OnOk result (Restyles done story (place was next) s turn.now text.now
        (styles_of styles.old) (styles_of styles.new)) }
{
    match done {
        Ok(_) => go_on(styles, before, turn.upper, text),
        Err(End::Stop(place)) => stop(styles, before, place, turn, text.len()),
        Err(End::Memory) => Ok(()),
    }
}

/// The same after a step that goes on with this upper window.
fn go_on(
    styles: &mut Styles,
    before: &Before,
    to: Option<Upper>,
    text: &[u8],
) -> Result<(), AllocError>
    ensures { (story : Story) → (here next : Here) → (s : State) → next.upper ≡ to
        → IsBefore story here s (styles_of styles.old).style before.now
        → OnOk result (styles_of styles.new
        ≡ definitions.after_step_to story here s next text.now (styles_of styles.old)) }
{
    apply(styles, &before.change, to, text);
    styles.become_as_long(text.len(), before.added)
}

/// Does to styles what a step does besides adding some.
fn apply(styles: &mut Styles, change: &Change, to: Option<Upper>, text: &[u8])
    ensures { (operation : Option StandardOperation) → (here : Here) → (s : State) → Changes operation here s change.now
        → styles_of styles.new ≡ record (styles_of styles.old) {
          style = definitions.restyled operation (definitions.value_at s here.next.program_counter)
              (styles_of styles.old).style;
          each = definitions.left operation here.upper s.text to text.now (styles_of styles.old).each;
        } }
{
    match change {
        Change::None => {}
        Change::Wait(_) => {}
        Change::Restart => styles.restart(),
        Change::Choose(value) => styles.choose(*value),
        Change::Move(line) => styles.move_on(line, to, text),
    }
}

/// Brings styles up to date after a step that ends the turn, whose text is so long.
fn stop(
    styles: &mut Styles,
    before: &Before,
    end: Place,
    turn: &TurnState,
    long: usize,
) -> Result<(), AllocError>
    requires { IsFitting before.now.change (length (styles_of styles.old).each) }
    ensures { (story : Story) → (next : next.Next) → (s : State) → (text : List ℕ) → length text ≡ long
        → IsBefore story (place turn.now next) s (styles_of styles.old).style before.now
        → length (styles_of styles.old).each ≡ length s.text
        → OnOk result (styles_of styles.new
        ≡ definitions.after_last story (place turn.now next) s end text (styles_of styles.old)) }
{
    match &before.change {
        Change::Wait(shown) => match end {
            Place::Waiting => styles.wait(shown, long),
            _ => stop_at_once(styles, before.added, turn, long),
        },
        _ => stop_at_once(styles, before.added, turn, long),
    }
}

/// The same, where the step does not wait: what is not heard is cut.
fn stop_at_once(
    styles: &mut Styles,
    added: u8,
    turn: &TurnState,
    long: usize,
) -> Result<(), AllocError>
    ensures { (next : next.Next) → (text : List ℕ) → length text ≡ long
        → OnOk result (styles_of styles.new ≡ record (styles_of styles.old) {
          each = take (length (heard_of (place turn.now next) text))
              (definitions.as_long long added (styles_of styles.old).each);
        }) }
{
    styles.become_as_long(long, added)?;
    styles.cut(shown_length(turn, long));
    Ok(())
}

/// How much of a text of so many bytes is heard outside memory streams and the upper window.
fn shown_length(turn: &TurnState, long: usize) -> usize
    ensures { (next : next.Next) → (text : List ℕ) → length text ≡ long
        → result ≡ length (heard_of (place turn.now next) text) }
{
    let heard = heard_length(turn.streams.as_slice(), long);
    match turn.upper {
        None => heard,
        Some(upper) => heard.min(upper.from as usize),
    }
}
