//! The version of a story file.

ghost use Rattle.std.specs.Prelude.{◌≡◌, ◌≤◌, ◌+◌, ◌*◌, length, true};
ghost use Rattle.zcore.specs.Layout.{header_size, longest_story};
ghost use Rattle.zcore_standard.specs.Saving.{save_form_of};
ghost use Rattle.zcore_versions.specs.ReadVersions.{offset_in, version_in};
ghost use Rattle.zcore_versions.specs.Versions as versions;

use zcore_standard::SaveForm;
use ztext::read_word;

/// The byte that holds a story's version (Z-Machine Standards Document 1.1, section 11.1).
const VERSION: usize = 0;

/// The words from which packed addresses of routines and of texts count in version 7, in eights of bytes
/// (section 1.2.3).
const ROUTINES_WORD: usize = 0x28;

const TEXTS_WORD: usize = 0x2A;

/// From where packed addresses count that a word of the header tells of.
fn offset(story: &[u8], word: usize) -> u32
    requires header { header_size ≤ length story.now }
    requires word { word + 2 ≤ header_size }
    ensures offset { result ≡ offset_in story.now word }
    ensures near { result ≤ longest_story }
{
    if story[VERSION] == 7 {
        8 * u32::from(read_word(story, word))
    } else {
        0
    }
}

/// The version of a story, and what its packed addresses count from (Z-Machine Standards Document 1.1,
/// section 1.2.3).
#[derive(Clone, Copy, Debug, PartialEq, Eq)]
pub struct StoryVersion {
    /// Byte $00 of the header.
    pub number: u8,

    /// Where the packed addresses of routines count from, in bytes: 8 times word $28 in version 7, else 0.
    pub routine_offset: u32,

    /// Where those of texts count from: 8 times word $2A in version 7, else 0.
    pub text_offset: u32,
}

impl StoryVersion {
    /// The version of a story.
    pub fn of_story(story: &[u8]) -> StoryVersion
        requires header { header_size ≤ length story.now }
        ensures version { result ≡ version_in story.now }
        ensures near { (result.routine_offset ≤ longest_story) × (result.text_offset ≤ longest_story) }
    {
        StoryVersion {
            number: story[VERSION],
            routine_offset: offset(story, ROUTINES_WORD),
            text_offset: offset(story, TEXTS_WORD),
        }
    }

    /// How the version writes `save`.
    pub fn save_form(self) -> SaveForm
        ensures { result ≡ save_form_of self.number }
    {
        match self.number {
            0..=3 => SaveForm::Branch,
            4 => SaveForm::Result,
            _ => SaveForm::Extended,
        }
    }

    /// By how many bytes packed addresses count (section 1.2.3).
    pub fn scale(self) -> u32
        ensures same { result ≡ versions.scale_of self }
        ensures some { 1 ≤ result }
        ensures few { result ≤ 8 }
    {
        match self.number {
            0..=3 => 2,
            8 => 8,
            _ => 4,
        }
    }

    /// The address that a packed address of a routine stands for.
    pub fn routine_at(self, packed: u16) -> u32
        requires { self.routine_offset ≤ longest_story }
        ensures { result ≡ versions.routine_at self packed }
    {
        self.scale() * packed as u32 + self.routine_offset
    }

    /// Whether it is the same version as another, with packed addresses that count from the same places.
    #[inline]
    pub fn is_same(self, other: StoryVersion) -> bool
        ensures { result ≡ true → self ≡ other }
    {
        self.number == other.number
            && self.routine_offset == other.routine_offset
            && self.text_offset == other.text_offset
    }

    /// Whether this is version 1 or 2, in which a text can lock an alphabet.
    pub fn locks_alphabets(self) -> bool
        ensures { result ≡ versions.locks_alphabets self }
    {
        self.number <= 2
    }

    /// Whether objects have small entries: versions 1 to 3.
    pub fn is_small(self) -> bool
        ensures { result ≡ versions.is_small self }
    {
        self.number <= 3
    }

    /// Whether routines give initial values to their locals: versions 1 to 4.
    pub fn is_old(self) -> bool
        ensures { result ≡ versions.is_old self }
    {
        self.number <= 4
    }

    /// Whether this is version 5 or 8, which the Standard's machine plays.
    #[inline]
    pub fn is_late(self) -> bool
        ensures { result ≡ versions.is_late self }
    {
        self.number == 5 || self.number == 8
    }
}
