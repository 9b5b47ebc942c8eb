//! Texts that use abbreviations.

ghost use Rattle.std.specs.Prelude.{◌≡◌, ◌<◌, ◌++◌, [], ◌∷◌, IfOk, OnOk, length, map, ℕ, List};
ghost use Rattle.std.specs.List.{All};
ghost use Rattle.ztext.specs.Abbreviations as spec;
ghost use Rattle.ztext.specs.Abbreviations.{IsReadWith};
ghost use Rattle.ztext.specs.Faults.{EncodesWith};
ghost use Rattle.ztext.specs.TextParts.{at_front};
ghost use Rattle.ztext.specs.Found.{found_of};

use crate::alphabets::put_spelled;
use crate::bytes::MOST_ABBREVIATIONS;
use crate::characters::are_printable;
use crate::fault::TextFault;
use crate::words::{packed, pad};
use std::alloc::{AllocError, Global};
use std::convert::AsSlice;
use std::marker::Model;

/// An abbreviation that stands at the beginning of a text.
#[derive(Clone, Copy)]
struct Found {
    number: u8,
    length: usize,
}

/// The abbreviation of a number, where a text begins with it.
fn found_at(number: u8, abbreviation: &[u8], text: &[u8]) -> Option<Found>
    ensures { found_of result ≡ at_front number abbreviation.now text.now }
{
    if text.starts_with(abbreviation) {
        Some(Found {
            number,
            length: abbreviation.len(),
        })
    } else {
        None
    }
}

/// The longer one, and of two that are as long the first.
fn longer(first: Option<Found>, other: Option<Found>) -> Option<Found>
    ensures { found_of result ≡ spec.longer (found_of first) (found_of other) }
{
    match (first, other) {
        (Some(x), Some(y)) => { if x.length < y.length { other } else { first } }
        (Some(_), None) => first,
        (None, _) => other,
    }
}

/// The longest of the first 96 abbreviations that stands at the beginning of a text.
fn longest<T: AsSlice<u8>>(abbreviations: &[T], text: &[u8]) -> Option<Found>
    ensures { found_of result ≡ spec.longest (map T.items abbreviations.now) text.now }
{
    let mut best = None;
    for number in 0..abbreviations.len().min(MOST_ABBREVIATIONS) {
        best = longer(
            best,
            found_at(number as u8, abbreviations[number].as_slice(), text),
        );
    }
    best
}

/// Adds the two Z-characters of an abbreviation.
fn put_abbreviation(characters: &mut Vec<u8>, found: Found) -> Result<(), AllocError>
    ensures { OnOk result (characters.new.items ≡ characters.old.items
        ++ spec.number_spelling found.number) }
{
    characters.push(1 + found.number / 32)?;
    characters.push(found.number % 32)?;
    Ok(())
}

/// Adds the Z-characters of what was found at a character, or else of the character, and answers
/// how many characters behind it they spell too.
fn put_found(characters: &mut Vec<u8>, found: Option<Found>, c: u8) -> Result<usize, AllocError>
    ensures spelled { OnOk result (characters.new.items ≡ characters.old.items
        ++ spec.spelling_or (found_of found) c) }
    ensures more { IfOk result (λ n. n ≡ spec.more_of (found_of found)) }
{
    match found {
        Some(found) => {
            put_abbreviation(characters, found)?;
            Ok(found.length.saturating_sub(1))
        }
        None => {
            put_spelled(characters, c)?;
            Ok(0)
        }
    }
}

/// The Z-characters of a text.
fn shortened<T: AsSlice<u8>>(
    alloc: Global,
    abbreviations: &[T],
    text: &[u8],
) -> Result<Vec<u8>, AllocError>
    ensures { IfOk result (λ v. v.items
        ≡ spec.spelled_behind (map T.items abbreviations.now) 0 text.now) }
{
    let mut characters = Vec::with_capacity(alloc, text.len() + text.len() / 2)?;
    // how many characters from here on are spelled already
    let mut spelled = 0;
    for place in 0..text.len() {
        if spelled > 0 {
            spelled -= 1;
        } else {
            let found = longest(abbreviations, &text[place..]);
            spelled = put_found(&mut characters, found, text[place])?;
        }
    }
    Ok(characters)
}

/// The Z-text of a text, by abbreviations of whatever type.
fn z_text<T: AsSlice<u8>>(
    alloc: Global,
    abbreviations: &[T],
    text: &[u8],
) -> Result<Vec<u8>, TextFault>
    ensures { EncodesWith (map T.items abbreviations.now) text.now result }
{
    if !are_printable(text) {
        return Err(TextFault::Character);
    }
    let mut characters = shortened(alloc, abbreviations, text)?;
    pad(&mut characters)?;
    Ok(packed(alloc, &characters)?)
}

/// The Z-text of a text that uses abbreviations, to be laid into a story whose table names their
/// texts.
///
/// At each place the longest abbreviation that stands there is taken, whatever it saves, and of two
/// that are as long the first; else the character is spelled as in
/// [`encode_text`](crate::encode_text). A story has a table of 96 (Z-Machine Standards Document
/// 1.1, section 3.3), so no abbreviation behind the first 96 is used.
///
/// # Errors
///
/// `Z1` where a character is not printable, that is not 13 or 32 to 126, which is tested before
/// memory is asked for; `Z9` where a growth of memory was refused. No other fault is answered.
pub fn encode_with(
    alloc: Global,
    text: &[u8],
    abbreviations: &[&[u8]],
) -> Result<Vec<u8>, TextFault>
    requires { All (λ a. 0 < length a.now) abbreviations.now }
    ensures encodes { EncodesWith (map (λ a. a.now) abbreviations.now) text.now result }
    ensures again { IfOk result (λ v.
        IsReadWith (map (λ a. a.now) abbreviations.now) v.items text.now) }
{
    z_text(alloc, abbreviations, text)
}

/// Abbreviations of texts, in order; the first has the number 0. A story has a table of 96
/// (Z-Machine Standards Document 1.1, section 3.3).
#[derive(Drop)]
pub struct Abbreviations {
    texts: Vec<Vec<u8>>,
}

impl Model for Abbreviations {
    ghost Value = { List (List ℕ) };

    ghost view = { λ a. map (λ t. t.items) a.texts.items };
}

impl Abbreviations {
    /// No abbreviation.
    pub fn new(alloc: Global) -> Self
        ensures { result ≡ [] }
    {
        Abbreviations {
            texts: Vec::new(alloc),
        }
    }

    /// Adds one behind the others.
    ///
    /// # Errors
    ///
    /// A growth of memory was refused.
    pub fn add(&mut self, alloc: Global, text: &[u8]) -> Result<(), AllocError>
        ensures { OnOk result (self.new ≡ self.old ++ text.now ∷ []) }
    {
        let mut copy = Vec::new(alloc);
        copy.extend_from_slice(text)?;
        self.texts.push(copy)?;
        Ok(())
    }

    /// Their characters.
    pub fn texts(&self) -> &[Vec<u8>]
        ensures { map (λ t. t.items) result.now ≡ self.now }
    {
        &self.texts
    }

    /// The Z-text of a text. At each place the longest of the first 96 abbreviations that stands
    /// there is taken, whatever it saves; else the character is spelled as in
    /// [`encode_text`](crate::encode_text).
    ///
    /// # Errors
    ///
    /// `Z1` where a character is not printable, that is not 13 or 32 to 126, which is tested before
    /// memory is asked for; `Z9` where a growth of memory was refused. No other fault is answered.
    pub fn encode(&self, alloc: Global, text: &[u8]) -> Result<Vec<u8>, TextFault>
        ensures { EncodesWith self.now text.now result }
    {
        z_text(alloc, &self.texts, text)
    }
}
