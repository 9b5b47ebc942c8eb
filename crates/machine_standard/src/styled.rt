//! Turns whose text has styles.

ghost use Rattle.std.specs.Prelude.{◌≡◌, ◌<◌, ◌++◌, length, drop, slice_index, IfOk, IsTrue, OnOk, OnErr};
ghost use Rattle.zcore.specs.Turn.{notice, weight};
ghost use Rattle.zcore_versions.specs.Machine.{any_step};
ghost use Rattle.machine_frames.specs.Playing.{StopsBy};
ghost use Rattle.machine_frames.specs.Contents.{memory_of};
ghost use Rattle.machine_frames.specs.States.{state_of, standard_state_of, IsSound};
ghost use Rattle.machine_frames.specs.Went.{GoesOn, GivenUp, KeepsCounter};
ghost use Rattle.machine_opcodes.specs.Printed.{HasBegun, ToldFrom};
ghost use Rattle.machine_decoding.specs.Seen.{seen};
ghost use Rattle.machine_standard_windows.specs.TurnState.{place, Keeps};
ghost use Rattle.machine_standard.specs.Loads.{IsStoreFor, story_of};
ghost use Rattle.machine_standard.specs.Script.{Scripts};
ghost use Rattle.machine_standard.specs.Scripts.{AddsScript, StaysAt};
ghost use Rattle.machine_picture.specs.Drawing.{picture_of};
ghost use Rattle.machine_picture.specs.Picture.{Draws, operation_at};
ghost use Rattle.machine_standard_steps.specs.Redrawing.{Pictures};
ghost use Rattle.machine_picture.specs.Represented.{styles_of};
ghost use Rattle.machine_picture.specs.Styles.{IsStyled, begun};
ghost use Rattle.machine_styling.specs.Restyling.{IsBefore, Restyles};
ghost use Rattle.machine_standard.specs.Styled.{StylesFrom};

use crate::turn::StandardMachine;
use journal::{NoMemory, Recorded};
use machine::end;
use machine_frames::{End, Store};
use machine_picture::{Picture, Styles};
use machine_standard_windows::TurnState;
use machine_styling::{Before, before_step, restyle};
use zcore::{Next, Place, StandardState};

impl StandardMachine {
    /// Steps until one ends the turn, as `run` does, and where the player has asked for styles brings them up to date
    /// after each.
    pub(crate) fn run_on(
        &self,
        store: &mut Recorded<Store>,
        text: &mut Vec<u8>,
        start: usize,
        turn: &mut TurnState,
        picture: &mut Picture,
        script: &mut Vec<u8>,
        has_styles: bool,
        styles: &mut Styles,
        first: Next,
    ) -> Result<(Next, Place), NoMemory>
        requires store { IsStoreFor self.now store.old.store }
        requires text { HasBegun start text.old.items }
        ensures stops { IfOk result (λ x. StopsBy (any_step (story_of self.now))
            (place turn.old first) (state_of store.old.store (drop start text.old.items))
            (place turn.new x.0) x.1 (state_of store.new.store (drop start text.new.items))) }
        ensures draws { OnOk result (Draws (story_of self.now) (place turn.old first)
            (state_of store.old.store (drop start text.old.items)) (picture_of picture.old)
            (picture_of picture.new)) }
        ensures script { OnOk result (Scripts (story_of self.now) (place turn.old first)
            (state_of store.old.store (drop start text.old.items)) script.old.items script.new.items) }
        ensures styles { OnOk result (IsTrue has_styles → StylesFrom (story_of self.now) (place turn.old first)
            (state_of store.old.store (drop start text.old.items)) (styles_of styles.old).style (styles_of styles.new)) }
        ensures goes_on { OnOk result (GoesOn store.old store.new) }
        ensures given_up { OnErr result (GivenUp store.old store.new) }
        ensures text { Keeps start text.old.items text.new.items }
    {
        if !has_styles {
            return self.run(store, text, start, turn, picture, script, first);
        }
        match styles.begin(text.len() - start) {
            Ok(()) => self.run_styled(store, text, start, turn, picture, script, styles, first),
            Err(_) => {
                store.abandon();
                Err(NoMemory)
            }
        }
    }

    /// The same as `run`, with the styles of what is printed.
    fn run_styled(
        &self,
        store: &mut Recorded<Store>,
        text: &mut Vec<u8>,
        start: usize,
        turn: &mut TurnState,
        picture: &mut Picture,
        script: &mut Vec<u8>,
        styles: &mut Styles,
        first: Next,
    ) -> Result<(Next, Place), NoMemory>
        requires store { IsStoreFor self.now store.old.store }
        requires text { HasBegun start text.old.items }
        requires long { length (styles_of styles.old).each ≡ length (drop start text.old.items) }
        ensures stops { IfOk result (λ x. StopsBy (any_step (story_of self.now))
            (place turn.old first) (state_of store.old.store (drop start text.old.items))
            (place turn.new x.0) x.1 (state_of store.new.store (drop start text.new.items))) }
        ensures draws { OnOk result (Draws (story_of self.now) (place turn.old first)
            (state_of store.old.store (drop start text.old.items)) (picture_of picture.old)
            (picture_of picture.new)) }
        ensures script { OnOk result (Scripts (story_of self.now) (place turn.old first)
            (state_of store.old.store (drop start text.old.items)) script.old.items script.new.items) }
        ensures styles { OnOk result (IsStyled (story_of self.now) (place turn.old first)
            (state_of store.old.store (drop start text.old.items)) (styles_of styles.old) (styles_of styles.new)) }
        ensures goes_on { OnOk result (GoesOn store.old store.new) }
        ensures given_up { OnErr result (GivenUp store.old store.new) }
        ensures text { Keeps start text.old.items text.new.items }
    {
        let mut here = first;
        'steps: loop {
            let at = self.go_ahead(store, here)?;
            match self.step_styled(store, text, start, turn, picture, script, styles, at) {
                Ok(next) => here = next,
                Err(End::Memory) => return Err(NoMemory),
                Err(End::Stop(place)) => return Ok((at, place)),
            }
        }
    }

    /// The same, and brings the styles of the turn's text up to date.
    fn step_styled(
        &self,
        store: &mut Recorded<Store>,
        text: &mut Vec<u8>,
        start: usize,
        turn: &mut TurnState,
        picture: &mut Picture,
        script: &mut Vec<u8>,
        styles: &mut Styles,
        here: Next,
    ) -> Result<Next, End>
        requires store { IsStoreFor self.now store.old.store }
        requires text { HasBegun start text.old.items }
        requires long { length (styles_of styles.old).each ≡ length (drop start text.old.items) }
        ensures told { ToldFrom start (seen (place turn.new) result) store.old text.old.items
            store.new text.new.items (any_step (story_of self.now) (place turn.old here)) }
        ensures picture { Pictures result self.now.version.number
            (operation_at (story_of self.now) (memory_of store.old.store) here.program_counter)
            (place turn.old here) (state_of store.old.store (drop start text.old.items))
            (drop start text.new.items) (picture_of picture.old) (picture_of picture.new) }
        ensures script { AddsScript result self.now.loaded (place turn.old here)
            (state_of store.old.store (drop start text.old.items)) (drop start text.new.items)
            script.old.items script.new.items }
        ensures styles { Restyles result (story_of self.now) (place turn.old here)
            (state_of store.old.store (drop start text.old.items)) turn.new (drop start text.new.items)
            (styles_of styles.old) (styles_of styles.new) }
        ensures long { IfOk result
            (λ next. length (styles_of styles.new).each ≡ length (drop start text.new.items)) }
        ensures falls { IfOk result (λ next.
            weight next (state_of store.new.store (drop start text.new.items))
            < weight here (state_of store.old.store (drop start text.old.items))) }
        ensures text { Keeps start text.old.items text.new.items }
        ensures turn { StaysAt result turn.old turn.new }
    {
        match before_step(
            &self.header,
            store,
            &text[start..],
            self.version,
            turn,
            styles,
            here,
        ) {
            Ok(before) => self.step_before(
                store, text, start, turn, picture, script, styles, &before, here,
            ),
            Err(_) => Err(End::Memory),
        }
    }

    /// The same, where it is known what else the styles are read off.
    fn step_before(
        &self,
        store: &mut Recorded<Store>,
        text: &mut Vec<u8>,
        start: usize,
        turn: &mut TurnState,
        picture: &mut Picture,
        script: &mut Vec<u8>,
        styles: &mut Styles,
        before: &Before,
        here: Next,
    ) -> Result<Next, End>
        requires store { IsStoreFor self.now store.old.store }
        requires text { HasBegun start text.old.items }
        requires long { length (styles_of styles.old).each ≡ length (drop start text.old.items) }
        requires before { IsBefore (story_of self.now) (place turn.old here)
            (state_of store.old.store (drop start text.old.items)) (styles_of styles.old).style before.now }
        ensures told { ToldFrom start (seen (place turn.new) result) store.old text.old.items
            store.new text.new.items (any_step (story_of self.now) (place turn.old here)) }
        ensures picture { Pictures result self.now.version.number
            (operation_at (story_of self.now) (memory_of store.old.store) here.program_counter)
            (place turn.old here) (state_of store.old.store (drop start text.old.items))
            (drop start text.new.items) (picture_of picture.old) (picture_of picture.new) }
        ensures script { AddsScript result self.now.loaded (place turn.old here)
            (state_of store.old.store (drop start text.old.items)) (drop start text.new.items)
            script.old.items script.new.items }
        ensures styles { Restyles result (story_of self.now) (place turn.old here)
            (state_of store.old.store (drop start text.old.items)) turn.new (drop start text.new.items)
            (styles_of styles.old) (styles_of styles.new) }
        ensures long { IfOk result
            (λ next. length (styles_of styles.new).each ≡ length (drop start text.new.items)) }
        ensures falls { IfOk result (λ next.
            weight next (state_of store.new.store (drop start text.new.items))
            < weight here (state_of store.old.store (drop start text.old.items))) }
        ensures text { Keeps start text.old.items text.new.items }
        ensures turn { StaysAt result turn.old turn.new }
    {
        let done = self.step(store, text, start, turn, picture, script, here);
        match restyle(styles, before, done, turn, &text[start..]) {
            Ok(()) => done,
            Err(_) => {
                store.abandon();
                Err(End::Memory)
            }
        }
    }
}

/// Ends a turn that what was given has ended at once, and begins the styles of the text that it has printed, which is so
/// long, where styles are asked for.
///
/// # Errors
///
/// Memory was refused: the turn is given up, and nothing is added to the text.
pub(crate) fn end_given(
    store: &mut Recorded<Store>,
    text: &mut Vec<u8>,
    here: Next,
    kept: StandardState,
    place: Place,
    long: usize,
    has_styles: bool,
    styles: &mut Styles,
) -> Result<(), NoMemory>
    requires { IsSound store.old.store }
    ensures kept { OnOk result (KeepsCounter store.old store.new here.program_counter) }
    ensures standard_state { OnOk result (standard_state_of (slice_index store.new.store.cells)
        ≡ kept) }
    ensures text { OnOk result (text.new.items ≡ text.old.items ++ notice place) }
    ensures styles { OnOk result (IsTrue has_styles
        → styles_of styles.new ≡ begun (styles_of styles.old).style long) }
    ensures given_up { OnErr result (GivenUp store.old store.new) }
    ensures same { OnErr result (text.new.items ≡ text.old.items) }
{
    if !has_styles {
        return end(store, text, here, kept, place);
    }
    match styles.begin(long) {
        Ok(()) => end(store, text, here, kept, place),
        Err(_) => {
            store.abandon();
            Err(NoMemory)
        }
    }
}
