//! Whether a story is as long as its header states, and has the sum that it states.

ghost use Rattle.std.specs.Prelude.{◌≡◌, ◌==◌, ◌*◌, ◌%◌, ◌≤◌, IfSome, IfNone, if◌then◌else◌};
ghost use Rattle.std.specs.Prelude.{length, take, drop, sum};
ghost use Rattle.std.specs.List.{list_all};
ghost use Rattle.zcore.specs.Layout.{header_size};
ghost use Rattle.survey.specs.Editions.{HasEdition};
ghost use Rattle.survey.specs.Measures.{AreMeasuresOf, is_damaged, is_zero};

use crate::edition::Edition;
use crate::facts::sum_from;
use zcore::layout::{HEADER_LENGTH, LENGTH_WORD};
use zcore_standard_loading::length_unit;
use ztext::read_word;

/// What the header of a story of any version states of its length and its sum, and what is so
/// (Z-Machine Standards Document 1.1, sections 11.1 and 11.1.6).
#[derive(Clone, Copy)]
pub struct Measures {
    /// Word $1A times the version's unit: how many bytes the story has. 0 states nothing.
    pub stated_length: usize,

    /// How many bytes the file has, but for zero bytes that follow the story and fill it.
    pub length: usize,

    /// Word $1C: the sum of the story's bytes after the header, modulo 65,536.
    pub stated_sum: u16,

    /// That sum as it is.
    pub sum: u16,
}

impl Measures {
    /// The measures of a file, where it has the header of a story of version 1 to 8.
    pub fn read(file: &[u8]) -> Option<Measures>
        ensures measures { IfSome result (AreMeasuresOf file.now) }
        ensures none { IfNone result (¬ HasEdition file.now) }
    {
        if file.len() < HEADER_LENGTH {
            return None;
        }
        let edition = Edition::read(file)?;
        let stated = read_word(file, LENGTH_WORD);
        let unit = length_unit(edition.version);
        let story = story_in(file, stated, unit);
        Some(Measures {
            stated_length: usize::from(stated) * unit,
            length: length_of(file, story.len()),
            stated_sum: edition.sum,
            sum: sum_of(story),
        })
    }

    /// Whether what the header states is not so. A header that states neither a length nor a sum, as
    /// those of versions 1 and 2 do, states nothing that could differ.
    pub fn is_damaged(&self) -> bool
        ensures { result ≡ is_damaged self.now }
    {
        if self.stated_length == 0 && self.stated_sum == 0 {
            return false;
        }
        let has_other_length = self.stated_length != 0 && self.length != self.stated_length;
        self.sum != self.stated_sum || has_other_length
    }
}

/// The bytes of a file that are its story: as many as its header states, in units, or all where it
/// states 0 or more than there are.
fn story_in(file: &[u8], stated: u16, unit: usize) -> &[u8]
    requires { unit ≤ 8 }
    ensures { result.now ≡ take (if stated == 0 then length file.now else stated * unit) file.now }
{
    let length = usize::from(stated) * unit;
    if stated == 0 || file.len() <= length {
        file
    } else {
        &file[..length]
    }
}

/// How many bytes of a file are left without zero bytes behind its story.
fn length_of(file: &[u8], story: usize) -> usize
    requires { story ≤ length file.now }
    ensures { result ≡ (if list_all is_zero (drop story file.now) then story else length file.now) }
{
    if are_zeros(&file[story..]) {
        story
    } else {
        file.len()
    }
}

/// Whether all bytes are 0.
fn are_zeros(bytes: &[u8]) -> bool
    ensures { result ≡ list_all is_zero bytes.now }
{
    bytes.iter().all(|byte| *byte == 0)
}

/// The sum of a story's bytes after the header, modulo 65,536.
fn sum_of(story: &[u8]) -> u16
    ensures { result ≡ sum (drop header_size story.now) % 65536 }
{
    if story.len() < HEADER_LENGTH {
        0
    } else {
        sum_from(story, HEADER_LENGTH)
    }
}
