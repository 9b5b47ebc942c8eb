//! The session of a player.

ghost use Rattle.std.specs.Prelude.{◌≡◌, ◌<◌, ◌≤◌, ◌+◌, ◌↔◌, []};
ghost use Rattle.std.specs.Prelude.{length, slice_index_or, IsTrue, IsSome, IfSome, IfOk, OnOk, OnErr};
ghost use Rattle.std.specs.Borrow.{sem};
ghost use Rattle.std.specs.Io.BufRead.{Rests};
ghost use Rattle.zcore.specs.declared.place.Place.TheVariants as places;
ghost use Rattle.zcore.specs.Turn.{StateOfPlay};
ghost use Rattle.session_lines.specs.Standing.{undo_of, redo_of};
ghost use Rattle.session.specs.Session.{largest_record};
ghost use Rattle.session.specs.Stepped.{bounded, latest_size, latest_text, stepped_back, without_oldest};
ghost use Rattle.session.specs.Turned.{Turned};
ghost use Rattle.session.specs.Game.{InEach, asks_on, bytes_of, game_keeping, game_of, is_typable_on};
ghost use Rattle.session.specs.Game.{marked_on, place_on, status_on, text_on};
ghost use Rattle.session.specs.declared.mode.Mode.TheVariants.{Profile};
ghost use Rattle.session.specs.Stepped.{IsSize, Moves, Redone};
ghost use Rattle.session.specs.Files.{is_on_after, script_on_opening};
ghost use Rattle.session.specs.Scripts.{turn_script};
ghost use Rattle.session.specs.Given.{IsAskedFor, IsPossibleIn, IsSaveIn, is_own_with};
ghost use Rattle.session.specs.Replies.{After, OpensSession, RepliesGiven, RepliesWith, ScriptsReply};
ghost use Rattle.session.specs.contracts.session.Session.{the_row};

use crate::fault::OpenFault;
use crate::mode::{Keep, Mode};
use crate::player::Player;
use crate::reached::{PLAIN, Reached};
use crate::reply::Reply;
use crate::turns::{
    Turn, add_drawing, begin_drawing, begin_kept, begin_styles, begin_text, do_again, give_turn_up,
    put_turn, reach, reached_at, refused, take_back,
};
use journal::{NoMemory, Recorded};
use machine::Store;
use machine_frames::program_counter;
use machine_picture::Styles;
use session_lines::{KeptBytes, Written};
use std::alloc::Global;
use std::collections::VecDeque;
use std::marker::Model;
use std::mem::forget;
use zcore::Place;
use zcore_standard::{KeptStates, Purpose};

/// A story that is played line by line. The turns of its lines can be taken back one after another,
/// and done again until another line is taken; the opening cannot be taken back.
#[derive(Drop)]
pub struct Session {
    player: Player,

    /// The store at the present; nothing is recorded between turns.
    store: Recorded<Store>,

    /// The text of the opening.
    opening: Vec<u8>,

    /// Where the machine stood before the first of the turns, and what the story had kept.
    first: Reached,

    /// The turns that are kept, and then those that are undone.
    turns: VecDeque<Turn>,

    /// How many of the turns are not undone.
    done: usize,

    /// How many units of fuel each turn may spend.
    fuel: u32,

    /// How many turns are kept at most, whether pictures and styles are, and what a screen draws.
    keep: Keep,

    /// The line and the text of the turn that was given up last.
    given_up: Written,

    /// Where a line and what its turn prints are gathered, before the turn is kept.
    gathered: Vec<u8>,

    /// Where what it draws in the upper window is gathered.
    drawn: Vec<u8>,

    /// Where the states are that the story keeps in it.
    kept: KeptStates,

    /// Where the styles of what a turn prints are gathered, if they are kept.
    styles: Styles,

    /// Where lines, texts and turns come from.
    alloc: Global,
}

impl Model for Session {
    ghost use Rattle.session.specs.Session.{Session};

    ghost Value = { Session };

    ghost use Rattle.session.specs.Inside.{view_of, IsBetweenTurns};
    ghost use Rattle.session.specs.Players.{known_of};
    ghost use Rattle.session_lines.specs.Written.{text_of};

    ghost view = { λ s. view_of s.keep s.fuel (known_of s.player) s.opening.items s.store.store
        s.first s.turns.items s.done (text_of s.given_up) };

    ghost invariant = { λ s. IsBetweenTurns (known_of s.player) s.store s.first s.turns.items s.done };
}

impl Session {
    /// Opens a story in the profile with so many units of fuel for each turn, and plays its opening.
    /// All turns are kept.
    ///
    /// # Errors
    ///
    /// Those of `open_with`.
    pub fn open(alloc: Global, story: Vec<u8>, fuel: u32) -> Result<Session, OpenFault>
        ensures { OpensSession (game_of Profile story.items fuel None) result }
    {
        Session::open_with(alloc, story, Mode::Profile, fuel, None)
    }

    /// Opens a story in a mode with so many units of fuel for each turn, and plays its opening. At
    /// most `keep` turns are kept, or all of them.
    ///
    /// # Errors
    ///
    /// `Load` where the story is not loaded: its header does not stand, or memory is refused while
    /// it is loaded. `Memory` where memory is refused while the opening runs.
    pub fn open_with(
        alloc: Global,
        story: Vec<u8>,
        mode: Mode,
        fuel: u32,
        keep: Option<u32>,
    ) -> Result<Session, OpenFault>
        ensures { OpensSession (game_of mode story.items fuel keep) result }
    {
        let keep = Keep {
            turns: keep,
            picture: false,
            styles: false,
            rows: None,
        };
        let mut script = Vec::new(alloc);
        Session::open_scripted(alloc, story, mode, fuel, keep, &mut script)
    }

    /// The same, where pictures and styles may be kept. It puts into an empty text what the opening adds to stream 2.
    ///
    /// # Errors
    ///
    /// Those of `open_with`.
    pub fn open_scripted(
        alloc: Global,
        story: Vec<u8>,
        mode: Mode,
        fuel: u32,
        keep: Keep,
        script: &mut Vec<u8>,
    ) -> Result<Session, OpenFault>
        requires { script.old.items ≡ [] }
        ensures opens { OpensSession (game_keeping mode story.items fuel keep) result }
        ensures script { OnOk result (script.new.items
            ≡ script_on_opening (game_keeping mode story.items fuel keep)) }
    {
        let (player, store) = match Player::load(alloc, story, mode) {
            Ok(loaded) => loaded,
            Err(fault) => return Err(fault),
        };
        let mut store = Recorded::new(alloc, store);
        let mut opening = Vec::new(alloc);
        let mut drawn = Vec::new(alloc);
        let mut kept = KeptStates::none(alloc);
        let mut styles = Styles::new(alloc, PLAIN);
        match player.turn(
            None,
            fuel,
            &mut kept,
            &mut store,
            &mut opening,
            &mut drawn,
            script,
            keep.styles,
            &mut styles,
        ) {
            Ok(place) => {
                let first = match reach(
                    alloc,
                    place,
                    &mut kept,
                    &drawn,
                    &opening,
                    keep.rows,
                    keep.styles,
                    &styles,
                ) {
                    Ok(first) => first,
                    Err(_) => return Err(OpenFault::Memory),
                };
                store.close();
                Ok(Session {
                    player,
                    store,
                    opening,
                    first,
                    turns: VecDeque::new(alloc),
                    done: 0,
                    fuel,
                    keep,
                    given_up: Written::none(),
                    gathered: Vec::new(alloc),
                    drawn,
                    kept,
                    styles,
                    alloc,
                })
            }
            Err(_) => Err(OpenFault::Memory),
        }
    }

    /// Ends the session, and gives its memory back. A crate that drops a session in a function of
    /// its own proves anew what becomes of each of its parts: hand it over here instead.
    pub fn close(self) {
        drop(self);
    }

    /// Ends the session, and leaves its memory to the system: for a program that ends too. What each
    /// turn kept is not given back piece by piece.
    pub fn leave(self) {
        forget(self);
    }

    /// What the opening printed.
    pub fn opening(&self) -> &[u8]
        ensures text { result.now ≡ self.now.opening }
        ensures opening { InEach self.now
            (λ game s. result.now ≡ text_on game []) }
    {
        &self.opening
    }

    /// Whether what the story prints goes to its transcript, at the present.
    pub fn is_scripting(&self) -> bool
        ensures { InEach self.now (λ game s. result ≡ is_on_after game s.done) }
    {
        self.player.is_scripting(&self.store)
    }

    /// Where the latest turn that is done left the machine.
    pub fn place(&self) -> Place
        ensures present { result ≡ slice_index_or self.now.places self.now.present places.Quit }
        ensures place { InEach self.now
            (λ game s. result ≡ place_on game s.done) }
    {
        if self.done == 0 {
            self.first.place()
        } else {
            self.turns[self.done - 1].reached.place()
        }
    }

    /// The address at which the story stands: of the instruction that stopped it, that waits for a
    /// line, or that quit.
    pub fn program_counter(&self) -> u32
        ensures { (state : StateOfPlay) → result
            ≡ (slice_index_or self.now.states self.now.present state).program_counter }
    {
        program_counter(&self.store)
    }

    /// The story's memory, as it is now.
    pub fn memory(&self) -> &[u8]
        ensures { (state : StateOfPlay) → result.now
            ≡ (slice_index_or self.now.states self.now.present state).memory }
    {
        self.store.store().memory()
    }

    /// The registers, frame records and stack of the machine, in the cells that `machine_frames::layout` names;
    /// what lies above those in use may be anything.
    pub fn words(&self) -> &[u16] {
        self.store.store().words()
    }

    /// Takes the latest turn back. It answers false, and changes nothing, exactly where no turn is
    /// kept. It takes no memory.
    #[inline]
    pub fn undo(&mut self) -> bool
        ensures found { InEach self.old (λ game s. IsTrue result ↔ (0 < s.kept)) }
        ensures undone { Moves undo_of self.old self.new }
        ensures stepped { self.new ≡ stepped_back self.old }
    {
        if self.done == 0 {
            return false;
        }
        self.done -= 1;
        take_back(&mut self.store, &mut self.turns[self.done]);
        true
    }

    /// Does the turn again that was taken back last, and lends its text. It answers `None`, and
    /// changes nothing, exactly where no turn is undone. It takes no memory.
    #[inline]
    pub fn redo(&mut self) -> Option<&[u8]>
        ensures* rests { sem 𝓛 (Rests the_row self.entry (Redone self.old)) }
        ensures found { InEach self.old
            (λ game s. IsSome result ↔ (0 < length s.undone)) }
        ensures text { InEach self.old (λ game s.
            IfSome result (λ t. t.now ≡ text_on game (redo_of s).done)) }
    {
        if self.done == self.turns.len() {
            return None;
        }
        do_again(&mut self.store, &mut self.turns[self.done]);
        self.done += 1;
        Some(self.turns[self.done - 1].written.text())
    }

    /// Whether a line asks for the status line: `/status`, by the whole Standard. In the profile it is
    /// a line for the story.
    pub fn asks(&self, line: &[u8]) -> bool
        ensures { InEach self.now (λ game s. result ≡ asks_on game line.now) }
    {
        self.player.asks(line)
    }

    /// The status text that the story has at the present, also after turns were taken back or done
    /// again: by the whole Standard the status line of versions 1 to 3, and what the turn drew in the
    /// upper window; else an empty text. The session stays as it is.
    ///
    /// # Errors
    ///
    /// Memory was refused.
    pub fn status_line(&mut self) -> Result<&[u8], NoMemory>
        ensures* rests { sem 𝓛 (Rests the_row self.entry (λ new. new ≡ self.old)) }
        ensures line { InEach self.old
            (λ game s. IfOk result (λ line. line.now ≡ status_on game s.done)) }
    {
        self.gathered.clear();
        self.player
            .put_status_line(&mut self.store, &mut self.gathered)?;
        let reached = reached_at(&self.first, &self.turns, self.done);
        add_drawing(&mut self.gathered, reached.drawing())?;
        Ok(&self.gathered)
    }

    /// Whether text styles are kept.
    #[inline]
    pub fn keeps_styles(&self) -> bool
        ensures { InEach self.now (λ game s. result ≡ game.showing.styles) }
    {
        self.keep.styles
    }

    /// Where styles are kept, the text of the latest turn that is done, or of the opening, with marks; else nothing.
    /// On a screen that shows the whole upper window it is without what a read shows of that.
    pub fn marked(&self) -> &[u8]
        ensures { InEach self.now (λ game s. result.now ≡ marked_on game s.done) }
    {
        reached_at(&self.first, &self.turns, self.done).marked()
    }

    /// How many turns are kept, and how many are undone.
    pub fn counts(&self) -> (usize, usize)
        ensures { InEach self.now (λ game s.
            (result.0 ≡ s.kept) × (result.1 ≡ length s.undone)) }
    {
        (self.done, self.turns.len() - self.done)
    }

    /// How many cells the record of the latest kept turn holds, 0 where no turn is kept: at most
    /// one for each byte of dynamic memory and 72,559 for stack, frames and registers.
    pub fn last_cells(&self) -> usize
        ensures cells { result ≡ latest_size self.now }
        ensures most { result ≤ largest_record self.now.static_base }
        ensures story { InEach self.now (λ game s. IsSize (bytes_of game) s result) }
    {
        if self.done == 0 {
            0
        } else {
            self.turns[self.done - 1].overwritten.cells()
        }
    }

    /// Replies to a line: plays its turn and lends what it prints. The turn is kept then, and those
    /// that were undone are given up; where more are kept than may be, the oldest one is given up
    /// too.
    ///
    /// The line is refused where it has more than 1,000 bytes, or one that is not from 32 to 126, or,
    /// by the whole Standard, where it is not UTF-8 or has a character that the story has not; then it
    /// is over where the story does not wait for a line. Where memory is refused, the line
    /// is not taken. In these three cases the session is as before. Only a line that the story is
    /// given takes memory.
    #[inline]
    pub fn reply(&mut self, line: &[u8]) -> Reply<'_>
        ensures* rests { sem 𝓛 (Rests the_row self.entry (After line.now result self.old)) }
        ensures says { InEach self.old (λ game s. RepliesWith game s line.now result) }
    {
        let mut script = Vec::new(self.alloc);
        self.reply_scripted(line, &mut script)
    }

    /// The same, and puts into an empty text what the turn adds to the transcript of the story, which is
    /// stream 2. It is not taken into its callers: all that a turn does is then in one place.
    #[inline(never)]
    pub fn reply_scripted(&mut self, line: &[u8], script: &mut Vec<u8>) -> Reply<'_>
        requires { script.old.items ≡ [] }
        ensures* rests { sem 𝓛 (Rests the_row self.entry (After line.now result self.old)) }
        ensures says { InEach self.old (λ game s. RepliesWith game s line.now result) }
        ensures script { InEach self.old
            (λ game s. ScriptsReply game s line.now result script.new.items) }
    {
        if !self.can_take(line) {
            return Reply::Refused;
        }
        if self.place() != Place::Waiting {
            return Reply::Over;
        }
        if self.keep.styles {
            return self.reply_given(line, script);
        }
        match self.play(line, script, false) {
            Ok(()) => {
                self.give_up();
                Reply::Taken(self.latest_text())
            }
            Err(NoMemory) => Reply::NoMemory,
        }
    }

    /// For what the story asks for the name of a saved game, where it waits and could be given this line as a
    /// name.
    pub fn asked_for(&self, line: &[u8]) -> Option<Purpose>
        ensures waits { IfSome result (λ _.
            slice_index_or self.now.places self.now.present places.Quit ≡ places.Waiting) }
        ensures asked { InEach self.now (λ game s. IsAskedFor game s line.now result) }
    {
        let purpose = self.player.asked(&self.store)?;
        if !self.can_take(line) {
            return None;
        }
        match self.place() {
            Place::Waiting => Some(purpose),
            _ => None,
        }
    }

    /// The file of the present state, where the story waits for a name; none where no file can tell all of
    /// its frames.
    ///
    /// # Errors
    ///
    /// Memory was refused.
    pub fn saved_game(&self) -> Result<Option<Vec<u8>>, NoMemory>
        ensures { (state : StateOfPlay) → IfOk result
            (IsSaveIn self.now.loaded (slice_index_or self.now.states self.now.present state)) }
    {
        match self.player.saved_game(&self.store, self.alloc) {
            Ok(file) => Ok(file),
            Err(_) => Err(NoMemory),
        }
    }

    /// Whether "success" can be answered to a story that waits for a name.
    ///
    /// # Errors
    ///
    /// Memory was refused.
    pub fn can_succeed(&self) -> Result<bool, NoMemory>
        ensures { (state : StateOfPlay) → IfOk result
            (IsPossibleIn self.now.loaded (slice_index_or self.now.states self.now.present state)) }
    {
        self.player.can_succeed(&self.store)
    }

    /// Whether bytes begin as the save files of this story do.
    pub fn is_own_save(&self, bytes: &[u8]) -> bool
        ensures { result ≡ is_own_with self.now.loaded bytes.now }
    {
        self.player.is_own_save(bytes)
    }

    /// Where the session's memory comes from.
    pub fn alloc(&self) -> Global {
        self.alloc
    }

    /// Replies to what is given for a name: plays its turn, as `reply_scripted` does. It is never `Refused` or
    /// `Over`.
    #[inline(never)]
    pub fn reply_given(&mut self, given: &[u8], script: &mut Vec<u8>) -> Reply<'_>
        requires waits { slice_index_or self.old.places self.old.present places.Quit
            ≡ places.Waiting }
        requires empty { script.old.items ≡ [] }
        ensures* rests { sem 𝓛 (Rests the_row self.entry (After given.now result self.old)) }
        ensures says { InEach self.old (λ game s. RepliesGiven game s given.now result) }
        ensures script { InEach self.old
            (λ game s. ScriptsReply game s given.now result script.new.items) }
    {
        let has_styles = self.keep.styles;
        match self.play(given, script, has_styles) {
            Ok(()) => {
                self.give_up();
                Reply::Taken(self.latest_text())
            }
            Err(NoMemory) => Reply::NoMemory,
        }
    }

    /// Whether the story can be given a line.
    #[inline(always)]
    fn can_take(&self, line: &[u8]) -> bool
        ensures { InEach self.now (λ game s. result ≡ is_typable_on game line.now) }
    {
        self.player.can_take(line)
    }

    /// Plays the turn of a line, which stands behind the present then, even where more turns are
    /// kept than may be, where styles are kept or not. At `Err` memory was refused, and the session is as before.
    #[inline(always)]
    fn play(&mut self, line: &[u8], script: &mut Vec<u8>, has_styles: bool) -> Result<(), NoMemory>
        requires waits { slice_index_or self.old.places self.old.present places.Quit
            ≡ places.Waiting }
        requires empty { script.old.items ≡ [] }
        requires styles { has_styles ≡ self.old.showing.styles }
        ensures turned { OnOk result (Turned line.now self.old self.new) }
        ensures script { (d : StateOfPlay) → OnOk result (script.new.items
            ≡ turn_script self.old.loaded line.now
            self.old.fuel (slice_index_or self.old.states self.old.present d)) }
        ensures same { OnErr result (self.new ≡ self.old) }
    {
        match begin_kept(&mut self.kept, &self.first, &self.turns, self.done) {
            Ok(()) => {}
            Err(_) => return Err(refused()),
        }
        match begin_text(&mut self.turns, &mut self.gathered, line) {
            Ok(()) => {}
            Err(NoMemory) => return Err(refused()),
        }
        begin_drawing(
            &mut self.drawn,
            self.keep.picture,
            &self.first,
            &self.turns,
            self.done,
        )?;
        begin_styles(
            &mut self.styles,
            has_styles,
            self.alloc,
            &self.first,
            &self.turns,
            self.done,
        );
        let place = match self.player.turn(
            Some(line),
            self.fuel,
            &mut self.kept,
            &mut self.store,
            &mut self.gathered,
            &mut self.drawn,
            script,
            has_styles,
            &mut self.styles,
        ) {
            Ok(place) => place,
            Err(NoMemory) => return Err(refused()),
        };
        let bytes = match KeptBytes::of(self.alloc, &self.gathered) {
            Ok(bytes) => bytes,
            Err(_) => return Err(give_turn_up(&mut self.store)),
        };
        let written = Written {
            bytes,
            line: line.len(),
        };
        let reached = match reach(
            self.alloc,
            place,
            &mut self.kept,
            &self.drawn,
            written.text(),
            self.keep.rows,
            has_styles,
            &self.styles,
        ) {
            Ok(reached) => reached,
            Err(_) => return Err(give_turn_up(&mut self.store)),
        };
        let turn = Turn {
            written,
            reached,
            overwritten: self.store.close(),
        };
        put_turn(&mut self.turns, self.done, turn);
        self.done += 1;
        Ok(())
    }

    /// Gives up the oldest turn where more are kept than may be. It takes no memory.
    #[inline(always)]
    fn give_up(&mut self)
        ensures { self.new ≡ bounded self.old }
    {
        match self.keep.turns {
            Some(most) => {
                if self.done > most as usize {
                    self.give_up_oldest();
                }
            }
            None => {}
        }
    }

    /// Gives up the oldest turn. It takes no memory.
    #[inline(never)]
    fn give_up_oldest(&mut self)
        requires { 0 < self.old.present }
        ensures { self.new ≡ without_oldest self.old }
    {
        if let Some(oldest) = self.turns.pop_front() {
            let (written, reached) = oldest.into_parts();
            self.first = reached;
            self.given_up = written;
            self.done -= 1;
        }
    }

    /// What the latest turn printed that was taken, also where it is given up already.
    fn latest_text(&self) -> &[u8]
        ensures { result.now ≡ latest_text self.now }
    {
        if self.done == 0 {
            self.given_up.text()
        } else {
            self.turns[self.done - 1].written.text()
        }
    }
}
