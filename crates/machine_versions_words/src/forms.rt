//! The key of a word in versions 1 to 3: its first six Z-characters, in four bytes (Z-Machine Standards
//! Document 1.1, sections 3.7 and 13.3).

ghost use Rattle.std.specs.Prelude.{◌≡◌, true, take};
ghost use Rattle.ztext.specs.TextParts.{AreSmall};
ghost use Rattle.ztext.specs.Words as words;
ghost use Rattle.zcore_versions.specs.Keys as definitions;
ghost use Rattle.zcore_versions.specs.Versions.{is_small, versioned};

use crate::locks::locked_characters;
use machine_standard_words::{nine_characters, word_bytes};
use zcore_standard::Loaded;
use zcore_versions::StoryVersion;

/// The first six of nine Z-characters in two words.
fn packed_six(characters: &[u8; 9]) -> [u8; 4]
    requires { AreSmall characters.now }
    ensures { result ≡ words.packed (take 6 characters.now) }
{
    let [a, b] = word_bytes(0, characters[0], characters[1], characters[2]);
    let [c, d] = word_bytes(128, characters[3], characters[4], characters[5]);
    [a, b, c, d]
}

/// The key of a word in versions 1 to 3.
pub(crate) fn small_key(loaded: &Loaded, version: StoryVersion, word: &[u8]) -> [u8; 4]
    requires small { is_small version ≡ true }
    ensures { result ≡ definitions.form_in (versioned loaded.now version) word.now }
{
    if version.locks_alphabets() {
        packed_six(&locked_characters(version.number, word))
    } else {
        packed_six(&nine_characters(loaded.alphabets(), word))
    }
}
