//! The status line of versions 1 to 3, laid out for the columns of a screen.

ghost use Rattle.std.specs.Prelude.{◌≡◌, ◌≤◌, length, IfOk};
ghost use Rattle.std.specs.List.{prefix_len, suffix_len};
ghost use Rattle.screen.specs.Status as definitions;

use crate::after::after;
use crate::upper::{line_length, put_blanks, put_fitting};
use std::alloc::{AllocError, Global};

/// How the score begins, before the number of moves.
const SCORE: &[u8] = b"Score: ";

/// The place of the last byte of that.
const END_OF_SCORE: usize = 6;

/// How the time begins.
const TIME: &[u8] = b"Time: ";

/// What is between words.
const BLANK: u8 = b' ';

/// The upper window as it is drawn in so many columns: where its first line is the status line of versions 1
/// to 3, that is laid out for them.
///
/// # Errors
///
/// Memory was refused.
pub(crate) fn window_for(
    alloc: Global,
    has_line: bool,
    columns: u8,
    window: &[u8],
) -> Result<Vec<u8>, AllocError>
    ensures { IfOk result (λ text. text.items ≡ definitions.window_for has_line columns window.now) }
{
    if has_line {
        return with_status_line(alloc, columns, window);
    }
    Vec::from_slice(alloc, window)
}

/// An upper window of which the first line is the status line.
fn with_status_line(alloc: Global, columns: u8, window: &[u8]) -> Result<Vec<u8>, AllocError>
    ensures { IfOk result (λ text. text.items ≡ definitions.with_status_line columns window.now) }
{
    let end = line_length(window);
    let mut text = status_line(alloc, columns, &window[..end])?;
    text.extend_from_slice(&window[end..])?;
    Ok(text)
}

/// A status line for so many columns.
fn status_line(alloc: Global, columns: u8, line: &[u8]) -> Result<Vec<u8>, AllocError>
    ensures { IfOk result (λ text. text.items ≡ definitions.status_line columns line.now) }
{
    let right = right_half(line);
    if right.is_empty() {
        return Vec::from_slice(alloc, line);
    }
    laid_out(alloc, columns.saturating_sub(1), line, right)
}

/// A status line with this right half, for so many columns.
fn laid_out(alloc: Global, columns: u8, line: &[u8], right: &[u8]) -> Result<Vec<u8>, AllocError>
    requires half { right.now ≡ definitions.right_half line.now }
    requires within { length right.now ≤ length line.now }
    ensures { IfOk result (λ text. text.items ≡ definitions.in_columns columns
        (definitions.left_half line.now) (definitions.right_for columns (definitions.right_half line.now))) }
{
    let short = right_for(alloc, columns, right)?;
    in_columns(alloc, columns, &line[..line.len() - right.len()], &short)
}

/// The right half of a status line: what begins last with the score or the time.
fn right_half(line: &[u8]) -> &[u8]
    ensures half { result.now ≡ definitions.right_half line.now }
    ensures within { length result.now ≤ length line.now }
{
    let mut found: &[u8] = &[];
    for place in 0..line.len() {
        let rest = &line[place..];
        if !begins_right(rest) {
            continue;
        }
        found = rest;
    }
    found
}

/// Whether a text begins with the score or the time.
fn begins_right(text: &[u8]) -> bool
    ensures { result ≡ definitions.begins_right text.now }
{
    text.starts_with(SCORE) || text.starts_with(TIME)
}

/// The right half of a status line of so many columns: a brief one where it would take more than half of
/// them.
fn right_for(alloc: Global, columns: u8, right: &[u8]) -> Result<Vec<u8>, AllocError>
    ensures { IfOk result (λ text. text.items ≡ definitions.right_for columns right.now) }
{
    if (columns as usize) < 2 * columns_of(right) {
        return brief(alloc, right);
    }
    Vec::from_slice(alloc, right)
}

/// A right half without words: `5/17`, or `14:05`.
fn brief(alloc: Global, right: &[u8]) -> Result<Vec<u8>, AllocError>
    ensures { IfOk result (λ text. text.items ≡ definitions.brief right.now) }
{
    if right.starts_with(TIME) {
        return Vec::from_slice(alloc, last_word(right));
    }
    score_and_moves(alloc, right)
}

/// The score and the number of moves without words.
fn score_and_moves(alloc: Global, right: &[u8]) -> Result<Vec<u8>, AllocError>
    ensures { IfOk result (λ text. text.items ≡ definitions.score_and_moves right.now) }
{
    let mut text = Vec::from_slice(alloc, first_word(after(right, END_OF_SCORE)))?;
    text.push(b'/')?;
    text.extend_from_slice(last_word(right))?;
    Ok(text)
}

/// The halves of a status line in so many columns.
fn in_columns(alloc: Global, columns: u8, left: &[u8], right: &[u8]) -> Result<Vec<u8>, AllocError>
    ensures { IfOk result (λ text. text.items ≡ definitions.in_columns columns left.now right.now) }
{
    let room = room_for(columns, right);
    let mut text = Vec::new(alloc);
    put_fitting(&mut text, room, left)?;
    put_blanks(&mut text, blanks_between(columns, room, left, right))?;
    text.extend_from_slice(right)?;
    Ok(text)
}

/// How many columns are left for the place, with a blank after it.
fn room_for(columns: u8, right: &[u8]) -> u8
    ensures { result ≡ definitions.room columns right.now }
{
    (columns as usize).saturating_sub(columns_of(right) + 1) as u8
}

/// How many blanks are between the halves, where so many columns are left for the place.
fn blanks_between(columns: u8, room: u8, left: &[u8], right: &[u8]) -> u8
    requires { room ≡ definitions.room columns right.now }
    ensures { result ≡ definitions.blanks columns left.now right.now }
{
    let free = (columns as usize).saturating_sub(columns_of(right));
    free.saturating_sub(columns_of(left).min(room as usize)) as u8
}

/// How many columns a text takes: one for each character.
fn columns_of(text: &[u8]) -> usize
    ensures columns { result ≡ definitions.columns_of text.now }
    ensures within { result ≤ length text.now }
{
    text.iter().filter(|byte| begins_character(**byte)).count()
}

/// Whether a byte of UTF-8 begins a character.
fn begins_character(byte: u8) -> bool
    ensures { result ≡ definitions.begins_character byte }
{
    byte < 0x80 || 0xC0 <= byte
}

/// The first word of a text.
fn first_word(text: &[u8]) -> &[u8]
    ensures { result.now ≡ definitions.first_word text.now }
{
    let end = first_word_length(text);
    &text[..end]
}

/// How many bytes the first word of a text has.
pub(crate) fn first_word_length(text: &[u8]) -> usize
    ensures length { result ≡ prefix_len definitions.is_in_word text.now }
    ensures within { result ≤ length text.now }
{
    text.iter().take_while(|byte| **byte != BLANK).count()
}

/// The last word of a text.
fn last_word(text: &[u8]) -> &[u8]
    ensures { result.now ≡ definitions.last_word text.now }
{
    let length = last_word_length(text);
    &text[text.len() - length..]
}

/// How many bytes the last word of a text has.
fn last_word_length(text: &[u8]) -> usize
    ensures length { result ≡ suffix_len definitions.is_in_word text.now }
    ensures within { result ≤ length text.now }
{
    text.iter().rev().take_while(|byte| **byte != BLANK).count()
}
