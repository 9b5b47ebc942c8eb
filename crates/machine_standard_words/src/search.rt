//! The search of any dictionary for the form of a word (Z-Machine Standards Document 1.1, sections
//! 13 and 15, `tokenise`).

ghost use Rattle.std.specs.Prelude.{◌≡◌, true};
ghost use Rattle.zcore.specs.Header.{IsDictionary};
ghost use Rattle.zcore_standard.specs.Words.{entry_with_form};
ghost use Rattle.zcore_standard.specs.Texts.{alphabets_of};

use crate::form::form_of;
use tables::find_entry;
use zcore_standard::Loaded;

/// The address of the first entry that has the form of a word, or 0. A dictionary that is known to
/// be in order is searched by halving.
#[tactic(auto, unfolding(zcore_standard::specs::Words::entry_with_form))]
pub fn entry_with_form(
    loaded: &Loaded,
    memory: &[u8],
    dictionary: u16,
    is_ordered: bool,
    word: &[u8],
) -> u16
    requires { is_ordered ≡ true → IsDictionary memory.now dictionary }
    ensures { result ≡ entry_with_form (alphabets_of loaded.now) memory.now dictionary word.now }
{
    find_entry(
        memory,
        dictionary,
        is_ordered,
        &form_of(loaded.alphabets(), word),
    )
}
