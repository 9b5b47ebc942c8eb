//! Cutting a line into words (Z-Machine Standards Document 1.1, section 13.6).

ghost use Rattle.std.specs.Prelude.{◌≡◌, ◌==◌, ◌+◌, ◌<◌, ◌≤◌, false, ◌∷◌, length, slice_index};
ghost use Rattle.zcore.specs.Cutting.{divides, is_among, IsCut, words_of};
ghost use Rattle.tables.specs.Placed.{words_at, words_left, word_between};

use crate::words::{Word, Words};

/// The words of a line, from first to last. Spaces divide words; a separator divides them too, and
/// is a word itself. A space is no word, also where the separators name it. It takes no memory.
pub fn cut_line<'a>(line: &'a [u8], separators: &'a [u8]) -> Words<'a>
    ensures words { words_left result ≡ words_of separators.now line.now }
    ensures cut { IsCut separators.now 0 line.now (words_left result) }
{
    Words {
        line,
        separators,
        place: 0,
    }
}

/// Where the next word begins, or the end of the line.
fn word_start(line: &[u8], from: usize) -> usize
    requires { from ≤ length line.now }
    ensures from { from ≤ result }
    ensures within { result ≤ length line.now }
    ensures no_space { result < length line.now → (slice_index line.now result == 32) ≡ false }
    ensures same { (separators : _) → words_at separators line.now from
        ≡ words_at separators line.now result }
{
    for i in from..line.len() {
        if line[i] != b' ' {
            return i;
        }
    }
    line.len()
}

/// Where the word that begins at a place ends.
fn word_end(line: &[u8], separators: &[u8], start: usize) -> usize
    requires within { start < length line.now }
    requires no_space { (slice_index line.now start == 32) ≡ false }
    ensures after { start < result }
    ensures within { result ≤ length line.now }
    ensures word { words_at separators.now line.now start
        ≡ word_between line.now start result ∷ words_at separators.now line.now result }
{
    if separators.contains(&line[start]) {
        return start + 1;
    }
    for i in start + 1..line.len() {
        if divides(separators, line[i]) {
            return i;
        }
    }
    line.len()
}

/// Whether a byte ends a run.
fn divides(separators: &[u8], byte: u8) -> bool
    ensures { result ≡ divides separators.now byte }
{
    byte == b' ' || separators.contains(&byte)
}

impl<'a> Iterator for Words<'a> {
    ghost use Rattle.std.specs.Iterator.{YieldsFirstBy, item_count};
    ghost use Rattle.tables.specs.Placed.{word_of, words_left};

    type Item = Word<'a>;

    ghost next_gives = { YieldsFirstBy word_of words_left };

    ghost remaining = { item_count words_left };

    fn next(&mut self) -> Option<Word<'a>> {
        let line = self.line;
        let place = word_start(line, self.place);
        if place == line.len() {
            self.place = place;
            return None;
        }
        let end = word_end(line, self.separators, place);
        self.place = end;
        Some(Word {
            place,
            bytes: &line[place..end],
        })
    }
}
