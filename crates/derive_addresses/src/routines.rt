//! The routines that print the texts of words.

ghost use Rattle.std.specs.Prelude.{◌≡◌, ◌++◌, OnOk};
ghost use Rattle.syntax_lexer.specs.Spelling.{quoted};
ghost use Rattle.derive_tokens.specs.Spelled.{quoted_word};
ghost use Rattle.derive_tokens.specs.Held.{names_of};
ghost use Rattle.derive_addresses.specs.Words as spec;

use derive_tokens::{Names, Piece, PieceKind, put_spelled};
use std::alloc::AllocError;
use syntax_lexer::{Kind, Position};

/// How many words a routine has at most.
const MOST_WORDS: usize = 128;

/// How many codes the key of a word has.
const KEY_CODES: usize = 9;

/// Digits, and the signs that are written with two codes of a key.
const MARKS: &[u8] = b"0123456789.,!?_#^\"/-:()";

/// The place of tokens that come from no other.
const NOWHERE: Position = Position { offset: 0, line: 0 };

fn put(text: &mut Vec<u8>, bytes: &[u8]) -> Result<(), AllocError>
    ensures { OnOk result (text.new.items ≡ text.old.items ++ bytes.now) }
{
    text.extend_from_slice(bytes)?;
    Ok(())
}

// ---- what is printed of a word

// How many codes of a key a byte takes.
fn code_count(byte: u8) -> usize
    ensures { result ≡ spec.code_count byte }
{
    if b'a' <= byte && byte <= b'z' {
        1
    } else if MARKS.contains(&byte) {
        2
    } else {
        4
    }
}

// A byte of a word in a text.
fn text_byte(byte: u8) -> u8
    ensures { result ≡ spec.text_byte byte }
{
    match byte {
        b'^' => b'\'',
        b'"' => b'~',
        _ => byte,
    }
}

// The text of the bytes of a word that its key holds.
fn put_shown(text: &mut Vec<u8>, word: &[u8]) -> Result<(), AllocError>
    ensures { OnOk result (text.new.items ≡ text.old.items ++ spec.shown word.now) }
{
    let mut room = KEY_CODES;
    for byte in word {
        let count = code_count(*byte);
        if room < count {
            return Ok(());
        }
        text.push(text_byte(*byte))?;
        room -= count;
    }
    Ok(())
}

// ---- the routines

// A word between its quotes.
fn put_quoted(text: &mut Vec<u8>, word: &[u8]) -> Result<(), AllocError>
    ensures { OnOk result (text.new.items ≡ text.old.items ++ quoted (quoted_word word.now)) }
{
    let piece = Piece {
        kind: PieceKind::Read(Kind::DictionaryWord(word)),
        position: NOWHERE,
    };
    put_spelled(text, piece)
}

fn put_case(text: &mut Vec<u8>, word: &[u8]) -> Result<(), AllocError>
    ensures { OnOk result (text.new.items ≡ text.old.items ++ spec.word_case word.now) }
{
    put_quoted(text, word)?;
    put(text, b":print \"")?;
    put_shown(text, word)?;
    put(text, b"\";")
}

// Whether the word at a place is the first of a routine.
fn is_first(k: usize) -> bool
    ensures { result ≡ spec.is_first k }
{
    k % MOST_WORDS == 0
}

// The name of the routine of the word at a place.
fn put_routine(text: &mut Vec<u8>, k: usize) -> Result<(), AllocError>
    ensures { OnOk result (text.new.items ≡ text.old.items ++ spec.routine_at k) }
{
    let piece = Piece {
        kind: PieceKind::Numbered(b"x__address", k / MOST_WORDS + 1),
        position: NOWHERE,
    };
    put_spelled(text, piece)
}

// The end of the routine before the word at a place, if there is one.
fn put_ended(text: &mut Vec<u8>, k: usize) -> Result<(), AllocError>
    ensures { OnOk result (text.new.items ≡ text.old.items ++ spec.ended_before k) }
{
    if k == 0 {
        Ok(())
    } else {
        put(text, b"default:rfalse;}rtrue;];")
    }
}

fn put_begun(text: &mut Vec<u8>, k: usize) -> Result<(), AllocError>
    ensures { OnOk result (text.new.items ≡ text.old.items ++ spec.routine_begun k) }
{
    put(text, b"[ ")?;
    put_routine(text, k)?;
    put(text, b" x__v;switch(x__v){")
}

// What is before the case of the word at a place.
fn put_before_case(text: &mut Vec<u8>, k: usize) -> Result<(), AllocError>
    ensures { OnOk result (text.new.items ≡ text.old.items ++ spec.before_case k) }
{
    if is_first(k) {
        put_ended(text, k)?;
        put_begun(text, k)
    } else {
        Ok(())
    }
}

#[tactic(auto, using(crate::proofs::WordRounds::case_on, crate::proofs::WordRounds::case_end))]
fn put_cases(text: &mut Vec<u8>, words: &Names) -> Result<(), AllocError>
    ensures { OnOk result (text.new.items
        ≡ text.old.items ++ spec.cases_from 0 (names_of words.now)) }
{
    let count = words.count();
    for k in 0..count {
        put_before_case(text, k)?;
        put_case(text, words.at(k))?;
    }
    put_ended(text, count)
}

// The call of the routine of the word at a place.
fn put_call(text: &mut Vec<u8>, k: usize) -> Result<(), AllocError>
    ensures { OnOk result (text.new.items ≡ text.old.items ++ spec.call_of k) }
{
    put(text, b"if(")?;
    put_routine(text, k)?;
    put(text, b"(x__v))rtrue;")
}

// It is put if the routine begins with the word.
fn put_call_at(text: &mut Vec<u8>, k: usize) -> Result<(), AllocError>
    ensures { OnOk result (text.new.items ≡ text.old.items ++ spec.call_at k) }
{
    if is_first(k) {
        put_call(text, k)
    } else {
        Ok(())
    }
}

#[tactic(auto, using(crate::proofs::WordRounds::call_on, crate::proofs::WordRounds::call_end))]
fn put_calls(text: &mut Vec<u8>, words: &Names) -> Result<(), AllocError>
    ensures { OnOk result (text.new.items
        ≡ text.old.items ++ spec.calls_from 0 (names_of words.now)) }
{
    for k in 0..words.count() {
        put_call_at(text, k)?;
    }
    Ok(())
}

// The routine that calls them.
fn put_top(text: &mut Vec<u8>, words: &Names) -> Result<(), AllocError>
    ensures { OnOk result (text.new.items
        ≡ text.old.items ++ spec.top_text (names_of words.now)) }
{
    put(text, b"[ x__address x__v;")?;
    put_calls(text, words)?;
    put(text, b"print \"^[Fault: not a word]^\";quit;];")
}

fn put_address(text: &mut Vec<u8>, words: &Names) -> Result<(), AllocError>
    ensures { OnOk result (text.new.items
        ≡ text.old.items ++ spec.address_text (names_of words.now)) }
{
    put_cases(text, words)?;
    put_top(text, words)
}

/// Puts what is made for a file with these names and words.
///
/// # Errors
///
/// `AllocError` where memory is refused.
pub fn put_words_made(text: &mut Vec<u8>, names: &Names, words: &Names) -> Result<(), AllocError>
    ensures { OnOk result (text.new.items
        ≡ text.old.items ++ spec.words_made (names_of names.now) (names_of words.now)) }
{
    if names.has(b"x__address") {
        put_address(text, words)
    } else {
        Ok(())
    }
}
