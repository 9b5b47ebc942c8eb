//! The entry of a word in a dictionary (Z-Machine Standards Document 1.1, sections 13.3 and 13.4).

ghost use Rattle.std.specs.Prelude.{◌≡◌, true};
ghost use Rattle.zcore.specs.Header.{HasDictionaryHead, IsDictionary};
ghost use Rattle.zcore_versions.specs.Keys as definitions;
ghost use Rattle.zcore_versions.specs.Versions.{versioned};

use crate::forms::small_key;
use crate::keys::find_small;
use machine_standard_words::entry_with_form;
use zcore_standard::Loaded;
use zcore_versions::StoryVersion;

/// The address of the first entry that has the form of a word in a version, or 0. A dictionary of
/// version 4 that is known to be in order is searched by halving.
pub(crate) fn entry_for(
    loaded: &Loaded,
    version: StoryVersion,
    memory: &[u8],
    dictionary: u16,
    is_ordered: bool,
    word: &[u8],
) -> u16
    requires head { HasDictionaryHead memory.now dictionary }
    requires ordered { is_ordered ≡ true → IsDictionary memory.now dictionary }
    ensures { result ≡ definitions.entry_for (versioned loaded.now version) memory.now dictionary
        word.now }
{
    if version.is_small() {
        find_small(memory, dictionary, &small_key(loaded, version, word))
    } else {
        entry_with_form(loaded, memory, dictionary, is_ordered, word)
    }
}
