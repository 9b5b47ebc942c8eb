//! What loading fixes for all turns.

ghost use Rattle.std.specs.Prelude.{◌≡◌, MatchOption, Some, None};
ghost use Rattle.std.specs.Option.{is_some, option_map};
ghost use Rattle.zcore_standard.specs.Texts.{alphabets_of};

use std::marker::Model;
use zcore::StandardState;

/// The three alphabets of a story that has none of its own (Z-Machine Standards Document 1.1, section
/// 3.5.3). In the third, the first two places stand for an escape and a new line.
static DEFAULT_ALPHABETS: [u8; 78] =
    *b"abcdefghijklmnopqrstuvwxyzABCDEFGHIJKLMNOPQRSTUVWXYZ\0\r0123456789.,!?_#'\"/\\-:()";

/// What loading a story fixes for all its turns.
#[derive(Drop)]
pub struct Loaded {
    dynamic: Vec<u8>,
    dice: StandardState,
    is_sum_right: bool,
    characters: Vec<u16>,
    own_alphabets: Option<[u8; 78]>,
    saves: Option<Vec<u8>>,
    has_transcript: bool,
}

impl Model for Loaded {
    ghost use Rattle.std.specs.Option.{option_map};
    ghost use Rattle.zcore_standard.specs.Loaded as definitions;

    ghost Value = { definitions.Loaded };

    ghost view = { λ l. record {
      dynamic = l.dynamic.items;
      dice = l.dice;
      is_sum_right = l.is_sum_right;
      characters = l.characters.items;
      own_alphabets = l.own_alphabets;
      saves = option_map (λ m. m.items) l.saves;
      has_transcript = l.has_transcript;
    } };
}

impl Loaded {
    /// What loading fixes: dynamic memory, window and dice, whether the file has the sum that its
    /// header states, the Unicode characters of the ZSCII codes from 155 on, the story's own alphabets,
    /// if it has them, dynamic memory as the file has it, if the player has save files, and whether the
    /// player writes a transcript.
    pub fn new(
        dynamic: Vec<u8>,
        dice: StandardState,
        is_sum_right: bool,
        characters: Vec<u16>,
        own_alphabets: Option<[u8; 78]>,
        saves: Option<Vec<u8>>,
        has_transcript: bool,
    ) -> Loaded
        ensures { result ≡ record {
          dynamic = dynamic.items;
          dice = dice;
          is_sum_right = is_sum_right;
          characters = characters.items;
          own_alphabets = own_alphabets;
          saves = option_map (λ m. m.items) saves;
          has_transcript = has_transcript;
        } }
    {
        Loaded {
            dynamic,
            dice,
            is_sum_right,
            characters,
            own_alphabets,
            saves,
            has_transcript,
        }
    }

    /// Whether the player writes a transcript.
    pub fn has_transcript(&self) -> bool
        ensures { result ≡ self.now.has_transcript }
    {
        self.has_transcript
    }

    /// The dynamic memory of the story's file, where the player has save files.
    pub fn saves(&self) -> Option<&[u8]>
        ensures { MatchOption result (self.now.saves ≡ None)
            (λ memory. self.now.saves ≡ Some memory.now) }
    {
        match &self.saves {
            Some(memory) => Some(memory.as_slice()),
            None => None,
        }
    }

    /// Dynamic memory as it was loaded, the header included.
    pub fn dynamic(&self) -> &[u8]
        ensures { result.now ≡ self.now.dynamic }
    {
        &self.dynamic
    }

    /// The window and the dice as the story finds them when it begins.
    pub fn dice(&self) -> StandardState
        ensures { result ≡ self.now.dice }
    {
        self.dice
    }

    /// Whether the file has the sum that its header states.
    pub fn is_sum_right(&self) -> bool
        ensures { result ≡ self.now.is_sum_right }
    {
        self.is_sum_right
    }

    /// The Unicode characters of the ZSCII codes from 155 on.
    pub fn characters(&self) -> &[u16]
        ensures { result.now ≡ self.now.characters }
    {
        &self.characters
    }

    /// The three alphabets of the story's own, of 26 ZSCII codes each, if it has them.
    pub fn own_alphabets(&self) -> Option<&[u8; 78]>
        ensures { MatchOption result (self.now.own_alphabets ≡ None)
            (λ alphabets. self.now.own_alphabets ≡ Some alphabets.now) }
    {
        match &self.own_alphabets {
            Some(alphabets) => Some(alphabets),
            None => None,
        }
    }

    /// Whether the story has alphabets of its own.
    pub fn has_own_alphabets(&self) -> bool
        ensures { result ≡ is_some self.now.own_alphabets }
    {
        self.own_alphabets.is_some()
    }

    /// The three alphabets: the story's own, or the default ones.
    pub fn alphabets(&self) -> &[u8; 78]
        ensures { result.now ≡ alphabets_of self.now }
    {
        match &self.own_alphabets {
            Some(alphabets) => alphabets,
            None => &DEFAULT_ALPHABETS,
        }
    }
}
