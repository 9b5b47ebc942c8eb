//! Printing to the transcript.

ghost use Rattle.std.specs.Prelude.{◌≡◌, ◌≢◌, ◌≤◌, ℕ, [], ◌∷◌, ◌++◌, length, map, take, drop};
ghost use Rattle.std.specs.List.{All};
ghost use Rattle.zcore.specs.Parts as parts;
ghost use Rattle.machine_opcodes.specs.Printed.{HasBegun, Grew, ToldFrom, byte_of};
ghost use Rattle.machine_frames.specs.States.{IsSound};

use journal::Recorded;
use machine_frames::{End, Store};
use zcore::{Limit, Place};

/// How many bytes a turn may print.
pub(crate) const TEXT_LIMIT: usize = 65_536;

/// Prints characters to the transcript of a turn, which begins at `start` of the text.
///
/// # Errors
///
/// The limit of text; what fits before it stands. `End::Memory` where memory was refused: the turn
/// is given up.
#[inline]
pub fn print(
    store: &mut Recorded<Store>,
    text: &mut Vec<u8>,
    start: usize,
    characters: &[u8],
) -> Result<(), End>
    requires sound { IsSound store.old.store }
    requires text { HasBegun start text.old.items }
    ensures told { ToldFrom start result store.old text.old.items store.new text.new.items
        (parts.print characters.now) }
    ensures text { Grew start text.old.items text.new.items }
{
    for character in characters {
        print_character(store, text, start, *character)?;
    }
    Ok(())
}

/// Prints the characters of a text that were added behind a place of the transcript: each has a
/// byte of its own there.
///
/// # Errors
///
/// The limit of text; what fits before it stands.
pub(crate) fn print_added(text: &mut Vec<u8>, start: usize, end: usize) -> Result<(), End>
    requires end { end ≤ length text.old.items }
    requires text { HasBegun start (take end text.old.items) }
    requires bytes { All (λ c. c ≢ 0) (drop end text.old.items) }
    ensures told { (store : _) → IsSound store.store
        → ToldFrom start result store (take end text.old.items) store text.new.items
        (parts.print (drop end text.old.items)) }
    ensures text { Grew start (take end text.old.items) text.new.items }
{
    transcribe_from(text, end);
    if text.len() - start > TEXT_LIMIT {
        text.truncate(start + TEXT_LIMIT);
        return Err(End::Stop(Place::Limit(Limit::Text)));
    }
    Ok(())
}

/// Replaces the characters from a place on by their bytes in the transcript.
#[inline(always)]
fn transcribe_from(text: &mut Vec<u8>, end: usize)
    requires { end ≤ length text.old.items }
    ensures { text.new.items ≡ take end text.old.items ++ map byte_of (drop end text.old.items) }
{
    transcribe(&mut text[end..]);
}

/// Replaces characters by their bytes in the transcript.
#[inline(always)]
fn transcribe(characters: &mut [u8])
    ensures { characters.new ≡ map byte_of characters.old }
{
    for i in 0..characters.len() {
        characters[i] = transcribed(characters[i]);
    }
}

/// Prints a character: 13 is a new line, 0 prints nothing (Z-Machine Standards Document 1.1,
/// sections 3.8 and 7.1).
#[inline]
fn print_character(
    store: &mut Recorded<Store>,
    text: &mut Vec<u8>,
    start: usize,
    character: u8,
) -> Result<(), End>
    requires sound { IsSound store.old.store }
    requires text { HasBegun start text.old.items }
    ensures told { ToldFrom start result store.old text.old.items store.new text.new.items
        (parts.print (character ∷ [])) }
    ensures text { Grew start text.old.items text.new.items }
{
    if character == 0 {
        return Ok(());
    }
    if text.len() - start == TEXT_LIMIT {
        return Err(End::Stop(Place::Limit(Limit::Text)));
    }
    if text.push(transcribed(character)).is_err() {
        store.abandon();
        return Err(End::Memory);
    }
    Ok(())
}

/// The byte of the transcript for a character that is not 0.
#[inline]
fn transcribed(character: u8) -> u8
    ensures byte { result ≡ byte_of character }
    ensures only { character ≢ 0 → parts.transcribed character ≡ result ∷ [] }
{
    if character == 13 { b'\n' } else { character }
}
