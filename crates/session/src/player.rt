//! The machine of a session, in either mode.

ghost use Rattle.std.specs.Prelude.{◌≡◌, [], IfOk, IsTrue, OnOk, OnErr};
ghost use Rattle.journal.specs.Recording.{IsNothingKept};
ghost use Rattle.machine.specs.Ended.{TurnEndsBy};
ghost use Rattle.machine_frames.specs.Contents.{Contents};
ghost use Rattle.machine_frames.specs.States.{IsStoreOf, play_of};
ghost use Rattle.zcore_standard.specs.Machine.{keeping};
ghost use Rattle.session.specs.Asking.{asks_with, line_with};
ghost use Rattle.session.specs.Given.{IsPossibleIn, IsSaveIn, is_own_with};
ghost use Rattle.session.specs.Naming.{asked_with};
ghost use Rattle.session.specs.Modes.{CanTake, IsSettled, is_typable_with};
ghost use Rattle.session.specs.Players.{known_of, IsReadyIn, LoadsPlayer, PlayerDrawing, PlayerScript};
ghost use Rattle.session.specs.Players.{PlayerStyles, PlayerTurn};
ghost use Rattle.machine_picture.specs.Represented.{styles_of};
ghost use Rattle.machine_picture.specs.Styles.{begun};
ghost use Rattle.session.specs.Scripts.{is_on_with};

use crate::fault::OpenFault;
use crate::mode::Mode;
use crate::reached::drop_kept;
use journal::{NoMemory, Recorded};
use machine::{Machine, Store};
use machine_picture::Styles;
use machine_standard::StandardMachine;
use session_lines::{is_short, is_typable};
use std::alloc::{AllocError, Global};
use zcore::Place;
use zcore_standard::{KeptStates, Purpose};

/// The machine that plays a session's story.
#[derive(Drop)]
pub(crate) enum Player {
    /// By the profile's opcodes.
    Profile(Machine),

    /// By every opcode of the Standard.
    Standard(StandardMachine),
}

impl Player {
    /// The machine of a story file in a mode, and the store with which it begins.
    ///
    /// # Errors
    ///
    /// `Load` or `Standard`: the story is not loaded.
    pub(crate) fn load(
        alloc: Global,
        story: Vec<u8>,
        mode: Mode,
    ) -> Result<(Player, Store), OpenFault>
        ensures { LoadsPlayer mode story.items result }
    {
        match mode {
            Mode::Profile => match Machine::load(alloc, story) {
                Ok((machine, store)) => Ok((Player::Profile(machine), store)),
                Err(fault) => Err(OpenFault::Load(fault)),
            },
            Mode::Standard(options) => match StandardMachine::load(alloc, story, options) {
                Ok((machine, store)) => Ok((Player::Standard(machine), store)),
                Err(fault) => Err(OpenFault::Standard(fault)),
            },
        }
    }

    /// Whether the story can be given a line: by the profile one of at most 1,000 bytes, each from 32
    /// to 126, and by the whole Standard one of as many bytes, which are UTF-8, of characters that the
    /// story has.
    #[inline(always)]
    pub(crate) fn can_take(&self, line: &[u8]) -> bool
        ensures { result ≡ is_typable_with (known_of self.now).loaded line.now }
    {
        match self {
            Player::Profile(_) => is_typable(line),
            Player::Standard(machine) => is_short(line) && machine.can_take(line),
        }
    }

    /// Whether a line asks for the status line: `/status`, by the whole Standard.
    pub(crate) fn asks(&self, line: &[u8]) -> bool
        ensures { result ≡ asks_with (known_of self.now).loaded line.now }
    {
        match self {
            Player::Profile(_) => false,
            Player::Standard(_) => line == b"/status".as_slice(),
        }
    }

    /// Whether what the story prints goes to its transcript: never in the profile.
    pub(crate) fn is_scripting(&self, store: &Recorded<Store>) -> bool
        requires store { IsStoreOf (known_of self.now).header store.now.store }
        requires settled { IsSettled (known_of self.now) }
        ensures { result ≡ is_on_with (known_of self.now).loaded (play_of store.now.store) }
    {
        match self {
            Player::Profile(_) => false,
            Player::Standard(machine) => machine.is_scripting(store),
        }
    }

    /// For what a story that waits asks for the name of a saved game: none in the profile.
    pub(crate) fn asked(&self, store: &Recorded<Store>) -> Option<Purpose>
        requires store { IsStoreOf (known_of self.now).header store.now.store }
        requires settled { IsSettled (known_of self.now) }
        ensures { result ≡ asked_with (known_of self.now).loaded (play_of store.now.store) }
    {
        match self {
            Player::Profile(_) => None,
            Player::Standard(machine) => machine.asked(store),
        }
    }

    /// The save file of a story that waits for a name, or none.
    ///
    /// # Errors
    ///
    /// Memory was refused.
    pub(crate) fn saved_game(
        &self,
        store: &Recorded<Store>,
        alloc: Global,
    ) -> Result<Option<Vec<u8>>, AllocError>
        requires store { IsStoreOf (known_of self.now).header store.now.store }
        requires settled { IsSettled (known_of self.now) }
        ensures { IfOk result (IsSaveIn (known_of self.now).loaded (play_of store.now.store)) }
    {
        match self {
            Player::Profile(_) => Ok(None),
            Player::Standard(machine) => machine.saved_game(store, alloc),
        }
    }

    /// Whether "success" can be answered to a story that waits for a name.
    ///
    /// # Errors
    ///
    /// Memory was refused.
    pub(crate) fn can_succeed(&self, store: &Recorded<Store>) -> Result<bool, NoMemory>
        requires store { IsStoreOf (known_of self.now).header store.now.store }
        requires settled { IsSettled (known_of self.now) }
        ensures { IfOk result (IsPossibleIn (known_of self.now).loaded (play_of store.now.store)) }
    {
        match self {
            Player::Profile(_) => Ok(false),
            Player::Standard(machine) => machine.can_succeed(store),
        }
    }

    /// Whether bytes begin as the save files of this story do.
    pub(crate) fn is_own_save(&self, bytes: &[u8]) -> bool
        requires store { (contents : Contents) × IsStoreOf (known_of self.now).header contents }
        requires settled { IsSettled (known_of self.now) }
        ensures { result ≡ is_own_with (known_of self.now).loaded bytes.now }
    {
        match self {
            Player::Profile(_) => false,
            Player::Standard(machine) => machine.is_own_save(bytes),
        }
    }

    /// Puts the status line of the state between two turns into an empty text: by the whole Standard
    /// that of versions 1 to 3, else none. The store stays as it is.
    ///
    /// # Errors
    ///
    /// Memory was refused.
    pub(crate) fn put_status_line(
        &self,
        store: &mut Recorded<Store>,
        text: &mut Vec<u8>,
    ) -> Result<(), NoMemory>
        requires store { IsStoreOf (known_of self.now).header store.old.store }
        requires settled { IsSettled (known_of self.now) }
        requires idle { IsNothingKept store.old }
        requires begun { store.old.beginning ≡ store.old.store.cells }
        requires empty { text.old.items ≡ [] }
        ensures line { OnOk result (text.new.items
            ≡ line_with (known_of self.now).loaded (play_of store.old.store)) }
        ensures same { store.new ≡ store.old }
    {
        match self {
            Player::Profile(_) => Ok(()),
            Player::Standard(machine) => machine.put_status_line(store, text),
        }
    }

    /// Plays a turn, as [`Machine::turn`] does. `kept` is what the story has kept before it, and then
    /// after it; so is `drawing` what the upper window shows. `script`, which is empty, is then what the turn
    /// has added to the transcript of the story. Where styles are asked for, `styles`, which has that of the turn
    /// before and no text, then has those of the text. In the profile nothing is kept, drawn or added, and all is
    /// plain.
    ///
    /// # Errors
    ///
    /// Memory was refused: the turn is given up, the store is as at its beginning, and nothing is
    /// added to the text. `kept` may be anything then.
    pub(crate) fn turn(
        &self,
        line: Option<&[u8]>,
        fuel: u32,
        kept: &mut KeptStates,
        store: &mut Recorded<Store>,
        text: &mut Vec<u8>,
        drawing: &mut Vec<u8>,
        script: &mut Vec<u8>,
        has_styles: bool,
        styles: &mut Styles,
    ) -> Result<Place, NoMemory>
        requires store { IsStoreOf (known_of self.now).header store.old.store }
        requires settled { IsSettled (known_of self.now) }
        requires ready { IsReadyIn (known_of self.now) line store.old.store }
        requires idle { IsNothingKept store.old }
        requires begun { store.old.beginning ≡ store.old.store.cells }
        requires unwritten { script.old.items ≡ [] }
        requires unstyled { IsTrue has_styles
            → styles_of styles.old ≡ begun (styles_of styles.old).style 0 }
        ensures ends { TurnEndsBy (CanTake (known_of self.now).loaded)
            (λ whole. PlayerTurn (known_of self.now) line.entry kept.old store.old.store fuel (keeping kept.new whole))
            store.old text.old.items store.new text.new.items result }
        ensures drawing { OnOk result
            (PlayerDrawing (known_of self.now) line.entry kept.old store.old.store fuel drawing.old.items
            drawing.new.items) }
        ensures script { OnOk result
            (PlayerScript (known_of self.now) line.entry kept.old store.old.store fuel script.new.items) }
        ensures styles { OnOk result (IsTrue has_styles
            → PlayerStyles (known_of self.now) line.entry kept.old store.old.store fuel (styles_of styles.old).style
            (styles_of styles.new)) }
        ensures text { OnErr result (text.new.items ≡ text.old.items) }
    {
        match self {
            Player::Profile(machine) => {
                drop_kept(kept);
                machine.turn(line, fuel, store, text)
            }
            Player::Standard(machine) => machine.turn(
                line, fuel, kept, store, text, drawing, script, has_styles, styles,
            ),
        }
    }
}
