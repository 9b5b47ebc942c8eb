//! What the styles after a step are read off, besides what it leads to: it is known before the step.

ghost use Rattle.std.specs.Prelude.{◌≡◌, ◌≤◌, ◌<◌, ◌∷◌, [], ℕ, false, List, length, IfOk, OnErr, Some};
ghost use Rattle.zcore.specs.State.{State};
ghost use Rattle.zcore.specs.declared.next.Next as next;
ghost use Rattle.zcore_standard.specs.Loaded.{Loaded};
ghost use Rattle.zcore_standard.specs.Operations.{further_at, row_of};
ghost use Rattle.zcore_standard.specs.Streams.{heard};
ghost use Rattle.zcore_standard.specs.declared.operations.StandardOperation.TheVariants.{SetTextStyle};
ghost use Rattle.zcore_versions.specs.Operations.{older_at};
ghost use Rattle.zcore_versions.specs.Versions.{versioned};
ghost use Rattle.machine_frames.specs.Contents.{memory_of};
ghost use Rattle.machine_frames.specs.States.{state_of, IsStoreOf};
ghost use Rattle.machine_frames.specs.Went.{GivenUp};
ghost use Rattle.machine_picture.specs.Picture.{by_name};
ghost use Rattle.machine_picture.specs.Picture as pictures;
ghost use Rattle.machine_standard_windows.specs.TurnState.{place};
ghost use Rattle.machine_picture.specs.Represented.{IsShown, styles_of};
ghost use Rattle.machine_picture.specs.Styles as definitions;
ghost use Rattle.machine_styling.specs.Restyling.{Changes, IsBefore, restyles};

use journal::{NoMemory, Recorded};
use machine_frames::{End, Store, read_in_place};
use machine_picture::{Line, Shown, Styles, line_of, shown_in};
use machine_standard_opcodes::heard_length;
use machine_standard_steps::{can_wait, looks, named_at, operation_at};
use machine_standard_windows::TurnState;
use zcore::{Header, Next, OpcodeRow, Operand};
use zcore_standard::{StandardOperation, decode_row};
use zcore_versions::StoryVersion;

/// How many operands an instruction has at most.
const OPERANDS: usize = 8;

/// What the player adds to the text is plain.
const PLAIN: u8 = 0;

/// What the styles after a step are read off, besides what it leads to.
#[derive(Drop)]
pub struct Before {
    /// The style of what it adds to the text.
    pub(crate) added: u8,

    /// What else it does.
    pub(crate) change: Change,
}

/// What a step does to styles, besides adding some.
#[derive(Drop)]
pub(crate) enum Change {
    /// Nothing.
    None,

    /// It begins the story again.
    Restart,

    /// It chooses a style by this value.
    Choose(u16),

    /// It may move the cursor of the upper window, which was in this line.
    Move(Line),

    /// It may wait, and shows this then.
    Wait(Shown),
}

/// What the styles after the step of a place are read off, besides what it leads to.
///
/// # Errors
///
/// Memory was refused, and the turn is given up.
pub fn before_step(
    header: &Header,
    store: &Recorded<Store>,
    text: &[u8],
    version: StoryVersion,
    turn: &TurnState,
    styles: &Styles,
    here: Next,
) -> Result<Before, NoMemory>
    requires { IsStoreOf header.now store.now.store }
    ensures before { IfOk result (λ before. (loaded : Loaded) → IsBefore (versioned loaded version)
        (place turn.now here) (state_of store.now.store text.now) (styles_of styles.now).style before) }
    ensures given_up { OnErr result (GivenUp store.now store.now) }
{
    let memory = store.store().memory();
    match named_at(memory, here.program_counter as usize, version) {
        None => Ok(Before {
            added: styles.printed(version.number, memory),
            change: Change::None,
        }),
        Some(operation) => {
            before_operation(header, store, text, version, turn, styles, here, operation)
        }
    }
}

/// The same, where there is an operation with a name.
fn before_operation(
    header: &Header,
    store: &Recorded<Store>,
    text: &[u8],
    version: StoryVersion,
    turn: &TurnState,
    styles: &Styles,
    here: Next,
    operation: StandardOperation,
) -> Result<Before, NoMemory>
    requires store { IsStoreOf header.now store.now.store }
    requires named { by_name (older_at version (memory_of store.now.store) here.program_counter)
        (further_at (memory_of store.now.store) here.program_counter) ≡ Some operation }
    ensures before { IfOk result (λ before. (loaded : Loaded) → IsBefore (versioned loaded version)
        (place turn.now here) (state_of store.now.store text.now) (styles_of styles.now).style before) }
    ensures given_up { OnErr result (GivenUp store.now store.now) }
{
    let added = added_by(operation, version.number, store.store().memory(), styles);
    match change_of(header, store, text, turn, here, operation) {
        Ok(change) => Ok(Before { added, change }),
        Err(_) => Err(NoMemory),
    }
}

/// The style of what an operation adds to the text: the player adds it where the operation is of windows or
/// streams, or can wait.
fn added_by(operation: StandardOperation, version: u8, memory: &[u8], styles: &Styles) -> u8
    requires { 18 ≤ length memory.now }
    ensures { result ≡ definitions.added version (Some operation) memory.now (styles_of styles.now).style }
{
    if looks(operation) {
        return PLAIN;
    }
    styles.printed(version, memory)
}

/// What an operation does to styles.
fn change_of(
    header: &Header,
    store: &Recorded<Store>,
    text: &[u8],
    turn: &TurnState,
    here: Next,
    operation: StandardOperation,
) -> Result<Change, NoMemory>
    requires store { IsStoreOf header.now store.now.store }
    requires found { operation ≡ SetTextStyle
        → further_at (memory_of store.now.store) here.program_counter ≡ Some SetTextStyle }
    ensures change { IfOk result
        (Changes (Some operation) (place turn.now here) (state_of store.now.store text.now)) }
    ensures given_up { OnErr result (GivenUp store.now store.now) }
{
    if can_wait(operation) {
        return Ok(Change::Wait(shown_by(turn, text)));
    }
    match operation {
        StandardOperation::Restart => Ok(Change::Restart),
        StandardOperation::SetTextStyle => match value_at(header, store, here) {
            Ok(value) => Ok(Change::Choose(value)),
            Err(_) => Err(NoMemory),
        },
        _ => Ok(moved_by(turn, text, operation)),
    }
}

/// What an operation does to styles that cannot wait and does not choose one.
fn moved_by(turn: &TurnState, text: &[u8], operation: StandardOperation) -> Change
    requires goes_on { pictures.can_wait operation ≡ false }
    requires styles { restyles operation ≡ false }
    ensures { (next : next.Next) → (s : State) → s.text ≡ text.now
        → Changes (Some operation) (place turn.now next) s result }
{
    if !moves(operation) {
        return Change::None;
    }
    match turn.upper {
        None => Change::None,
        Some(upper) => Change::Move(line_of(upper, text)),
    }
}

/// Whether an operation can move the cursor of the upper window.
fn moves(operation: StandardOperation) -> bool
    ensures { result ≡ definitions.moves operation }
{
    matches!(
        operation,
        StandardOperation::SplitWindow
            | StandardOperation::SetWindow
            | StandardOperation::SetCursor
            | StandardOperation::EraseWindow
    )
}

/// What a read shows of the text: its streams are closed.
fn shown_by(turn: &TurnState, text: &[u8]) -> Shown
    ensures { IsShown turn.now.upper turn.now.standard_state.window (heard turn.now.streams.items text.now) result }
{
    let heard = heard_length(turn.streams.as_slice(), text.len());
    shown_in(turn.upper, turn.standard_state.window, &text[..heard])
}

/// The value that `set_text_style` is given, or 0 where it cannot be read. Nothing is taken off the stack.
///
/// # Errors
///
/// Memory was refused, and the turn is given up.
fn value_at(header: &Header, store: &Recorded<Store>, here: Next) -> Result<u16, NoMemory>
    requires store { IsStoreOf header.now store.now.store }
    requires found { further_at (memory_of store.now.store) here.program_counter ≡ Some SetTextStyle }
    ensures value { IfOk result (λ value. (text : List ℕ)
        → value ≡ definitions.value_at (state_of store.now.store text) here.program_counter) }
    ensures given_up { OnErr result (GivenUp store.now store.now) }
{
    let at = here.program_counter as usize;
    match operation_at(store.store().memory(), at) {
        None => Ok(0),
        Some((_, row)) => value_by(header, store, at, row),
    }
}

/// The same, by the row of `set_text_style`.
fn value_by(
    header: &Header,
    store: &Recorded<Store>,
    at: usize,
    row: OpcodeRow,
) -> Result<u16, NoMemory>
    requires store { IsStoreOf header.now store.now.store }
    requires row { row ≡ row_of SetTextStyle }
    requires within { at < length (memory_of store.now.store) }
    ensures value { IfOk result (λ value. (text : List ℕ)
        → value ≡ definitions.value_at (state_of store.now.store text) at) }
    ensures given_up { OnErr result (GivenUp store.now store.now) }
{
    let mut operands = [Operand::Small(0); OPERANDS];
    let memory = store.store().memory();
    match decode_row(memory, at, row, &mut operands) {
        Ok(_) => value_of(header, store, operands[0]),
        Err(_) => Ok(0),
    }
}

/// The value of an operand, or 0 where it cannot be read. Nothing is taken off the stack.
///
/// # Errors
///
/// Memory was refused, and the turn is given up.
fn value_of(header: &Header, store: &Recorded<Store>, operand: Operand) -> Result<u16, NoMemory>
    requires { IsStoreOf header.now store.now.store }
    ensures value { IfOk result (λ value. (text : List ℕ)
        → value ≡ definitions.first_value (state_of store.now.store text) (operand ∷ [])) }
    ensures given_up { OnErr result (GivenUp store.now store.now) }
{
    match operand {
        Operand::Large(word) => Ok(word),
        Operand::Small(byte) => Ok(byte as u16),
        Operand::Variable(variable) => match read_in_place(header, store, variable) {
            Ok(word) => Ok(word),
            Err(End::Stop(_)) => Ok(0),
            Err(End::Memory) => Err(NoMemory),
        },
    }
}
