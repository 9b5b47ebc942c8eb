//! What a story holds.

ghost use Rattle.std.specs.Prelude.{◌≡◌, ◌≤◌, IfOk, length};
ghost use Rattle.zcore.specs.Arithmetic.{magnitude};
ghost use Rattle.zcore.specs.Header.{IsDictionaryOf, dictionary_of};
ghost use Rattle.zcore.specs.Layout.{longest_story};
ghost use Rattle.survey.specs.Verdict.{HasWordsOf};

use crate::mode::Mode;
use crate::reach::reach;
use crate::tables::{most_abbreviations, object_table};
use crate::unplayed::Unplayed;
use std::alloc::{AllocError, Global};
use std::fmt;
use zcore::Header;
use zcore_versions::StoryVersion;
use ztext::read_word;

/// From this word on a signed word is negative (section 2.2).
const NEGATIVE: u16 = 0x8000;

/// What a story holds that loads. `Display` writes a line for each.
#[derive(Drop)]
pub struct Contents {
    /// How many objects there are, as far as the table goes: to the first property table after
    /// it, or to what else the header names after it.
    pub objects: usize,

    /// How many words the dictionary has, whatever their order.
    pub words: u16,

    /// How many abbreviations there are, without those at the end of the table that are all one.
    pub abbreviations: usize,

    /// How many routines are called by constants from what can be reached.
    pub routines: usize,

    /// How many instructions can be reached from the start by branches, jumps and calls with
    /// constant targets.
    pub instructions: usize,

    /// For which machine it was surveyed.
    pub mode: Mode,

    /// Whether calls or jumps by variables are among them, which are not followed.
    pub computed: bool,

    /// Each opcode among them that this machine does not play, or not with such operands, and then
    /// those in routines to which no direct call leads.
    pub unplayed: Vec<Unplayed>,
}

impl fmt::Display for Contents {
    fn fmt<W: fmt::Write>(&self, f: &mut fmt::Formatter<W>) -> fmt::Result {
        write_counts(f, self)?;
        let refusal = self.mode.refusal();
        for unplayed in &self.unplayed {
            writeln!(f, "{refusal}: {unplayed}")?;
        }
        if self.computed {
            f.write_str("computed calls are not followed\n")
        } else {
            Ok(())
        }
    }
}

/// Writes a line for each count.
fn write_counts<W: fmt::Write>(f: &mut fmt::Formatter<W>, contents: &Contents) -> fmt::Result {
    let counts = [
        ("objects", contents.objects),
        ("dictionary words", usize::from(contents.words)),
        ("abbreviations", contents.abbreviations),
        ("routines reached", contents.routines),
        ("instructions reached", contents.instructions),
    ];
    for row in &counts {
        let (what, count) = *row;
        writeln!(f, "{what} {count}")?;
    }
    Ok(())
}

impl Contents {
    /// What a story holds, with what a machine does not play of it.
    ///
    /// # Errors
    ///
    /// Memory was refused.
    pub(crate) fn read(
        alloc: Global,
        story: &[u8],
        header: &Header,
        version: StoryVersion,
        mode: Mode,
    ) -> Result<Contents, AllocError>
        requires length { length story.now ≤ longest_story }
        requires header { IsDictionaryOf story.now (dictionary_of story.now) header.now.dictionary }
        ensures words { IfOk result (HasWordsOf story.now) }
    {
        let number = version.number;
        let reached = reach(alloc, story, header, version, mode)?;
        Ok(Contents {
            objects: count_objects(story, header, number),
            words: count_words(header.dictionary.entries),
            abbreviations: count_abbreviations(story, header.abbreviations, number),
            routines: reached.routines,
            instructions: reached.instructions,
            mode,
            computed: reached.computed,
            unplayed: reached.unplayed,
        })
    }
}

/// How many words a dictionary has that states this number. A negative number is of words in no order (Z-Machine
/// Standards Document 1.1, section 15, `tokenise`).
fn count_words(stated: u16) -> u16
    ensures { result ≡ magnitude stated }
{
    if stated < NEGATIVE {
        stated
    } else {
        stated.wrapping_neg()
    }
}

/// How many entries of objects are in the table of a version.
fn count_objects(story: &[u8], header: &Header, version: u8) -> usize {
    let table = object_table(version);
    let mut entry = usize::from(header.defaults) + table.defaults;
    let mut end = nearer(entry, story.len(), header.static_base);
    end = nearer(entry, end, header.globals);
    end = nearer(entry, end, header.abbreviations);
    for objects in 0..story.len() {
        if end < entry + table.entry {
            return objects;
        }
        end = nearer(entry, end, read_word(story, entry + table.properties));
        entry += table.entry;
    }
    0
}

/// An end of the table, or an address after an entry that is nearer.
fn nearer(entry: usize, end: usize, address: u16) -> usize
    ensures { result ≤ end }
{
    let address = usize::from(address);
    if entry <= address {
        end.min(address)
    } else {
        end
    }
}

/// How many abbreviations there are. Compilers fill the table up with one that is empty.
fn count_abbreviations(story: &[u8], table: u16, version: u8) -> usize {
    let most = most_abbreviations(version);
    if table == 0 || most == 0 {
        return 0;
    }
    let table = usize::from(table);
    let last = table + 2 * (most - 1);
    if story.len() < last + 2 {
        return 0;
    }
    let mut count = 0;
    for place in 0..most - 1 {
        if read_word(story, table + 2 * place) != read_word(story, last) {
            count = place + 1;
        }
    }
    if count == most - 1 { most } else { count }
}
