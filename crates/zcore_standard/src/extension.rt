//! The extension of the header (Z-Machine Standards Document 1.1, section 11.1.7).

ghost use Rattle.std.specs.Prelude.{◌≡◌, ◌≤◌, ◌+◌, length};
ghost use Rattle.zcore.specs.Layout.{header_size};
ghost use Rattle.zcore_standard.specs.Extension as definitions;

use zcore::layout::{HEADER_LENGTH, STATIC_BASE_WORD};
use ztext::read_word;

/// The header's word for the address of its extension, and the first version that has one.
const EXTENSION_WORD: usize = 0x36;

const FIRST_VERSION: u8 = 5;

/// The words of the extension that the player sets: Flags 3, the default foreground and the default
/// background.
const FLAGS_3: u16 = 4;

const FOREGROUND: u16 = 5;

const BACKGROUND: u16 = 6;

/// A word of the header from version 5 on, and 0 before.
pub fn late_word(story: &[u8], at: usize) -> u16
    requires header { header_size ≤ length story.now }
    requires at { at + 2 ≤ header_size }
    ensures { result ≡ definitions.late_word story.now at }
{
    if story[0] >= FIRST_VERSION {
        read_word(story, at)
    } else {
        0
    }
}

/// The address of the header's extension, or 0.
pub fn extension_of(story: &[u8]) -> u16
    requires { header_size ≤ length story.now }
    ensures { result ≡ definitions.extension_of story.now }
{
    late_word(story, EXTENSION_WORD)
}

/// The address of a word of the extension.
pub fn extension_place(story: &[u8], number: u16) -> usize
    requires { header_size ≤ length story.now }
    ensures { result ≡ definitions.extension_place story.now number }
{
    usize::from(extension_of(story)) + 2 * usize::from(number)
}

/// Whether the extension has a word in dynamic memory, after the header.
pub fn has_dynamic_word(story: &[u8], number: u16) -> bool
    requires { header_size ≤ length story.now }
    ensures { result ≡ definitions.has_dynamic_word story.now number }
{
    let start = usize::from(extension_of(story));
    if start < HEADER_LENGTH {
        return false;
    }
    let base = usize::from(read_word(story, STATIC_BASE_WORD));
    let end = story.len().min(base);
    let place = extension_place(story, number);
    if end < place + 2 {
        return false;
    }
    number <= read_word(story, start)
}

/// Makes those words of the extension in memory that the player sets as they are in a story, if it has
/// them in dynamic memory.
pub fn keep_words(memory: &mut [u8], story: &[u8])
    requires header { header_size ≤ length story.now }
    requires same { length memory.old ≡ length story.now }
    ensures words { memory.new ≡ definitions.with_words_of story.now memory.old }
    ensures same { length memory.new ≡ length memory.old }
{
    keep_word(memory, story, FLAGS_3);
    keep_word(memory, story, FOREGROUND);
    keep_word(memory, story, BACKGROUND);
}

/// The same for one word.
fn keep_word(memory: &mut [u8], story: &[u8], number: u16)
    requires header { header_size ≤ length story.now }
    requires same { length memory.old ≡ length story.now }
    ensures word { memory.new ≡ definitions.with_word_of story.now number memory.old }
    ensures same { length memory.new ≡ length memory.old }
{
    if has_dynamic_word(story, number) {
        let at = extension_place(story, number);
        memory[at] = story[at];
        memory[at + 1] = story[at + 1];
    }
}
