//! Texts, characters and dictionary words.

ghost use Rattle.std.specs.Prelude.{◌≡◌, ◌<◌, ◌≤◌, ◌+◌, ◌++◌, length, slice_index, true, false, List, ℕ, ◌⊎◌, MatchOption};
ghost use lib.Chars.{codes};
ghost use Rattle.std.specs.Bool.{Decides};
ghost use Rattle.syntax_lexer.specs.declared.token.Position.{Position};
ghost use Rattle.syntax_lexer.specs.Spelling.{IsPlainWord};
ghost use Rattle.syntax_lexer.specs.Token.{Lexeme, lexeme_of};
ghost use Rattle.syntax_lexer.specs.Fronts.{IsContent, Scanned};

use crate::bytes::{Class, byte_at, from, front, is_character, run_length};
use crate::fault::LexicalFault;
use crate::token::Kind;

/// The text at the front, and its length.
///
/// # Errors
///
/// `BadText`: no quote ends it, or a byte that it may not have stands before that quote.
pub fn text_token<'a>(bytes: &'a [u8]) -> Result<(Kind<'a>, usize), LexicalFault>
    requires { slice_index bytes.now 0 ≡ 34 }
    ensures { Scanned bytes.now result }
{
    let rest = from(bytes, 1);
    let count = run_length(Class::Text, rest);
    if byte_at(rest, count) != b'"' {
        return Err(LexicalFault::BadText);
    }
    Ok((Kind::Text(front(rest, count)), count + 2))
}

fn has_two_slashes(bytes: &[u8]) -> bool
    ensures none { result ≡ false → (i : ℕ) → slice_index bytes.now i ≡ 47
        → slice_index bytes.now (i + 1) ≡ 47 → ⊥ }
    ensures some { result ≡ true → (i : ℕ) × (slice_index bytes.now i ≡ 47)
        × (slice_index bytes.now (i + 1) ≡ 47) }
{
    for at in 1..bytes.len() {
        if bytes[at - 1] == b'/' && bytes[at] == b'/' {
            return true;
        }
    }
    false
}

fn is_plain_word(word: &[u8]) -> bool
    ensures { Decides result (IsPlainWord word.now) }
{
    if word.is_empty() {
        return false;
    }
    if has_two_slashes(word) {
        return false;
    }
    run_length(Class::Word, word) == word.len()
}

// Without the two slashes at the end, where they stand there.
fn without_slashes(content: &[u8]) -> &[u8]
    ensures { (content.now ≡ result.now ++ codes "//")
        ⊎ ((result.now ≡ content.now) × ((s : List ℕ) → content.now ≡ s ++ codes "//" → ⊥)) }
{
    match content {
        [word @ .., b'/', b'/'] => word,
        _ => content,
    }
}

// The token whose content stands between single quotes.
fn quoted_kind<'a>(content: &'a [u8]) -> Option<Kind<'a>>
    ensures { MatchOption result ((x : Lexeme) → IsContent x content.now → ⊥)
        (λ k. (p : Position) → IsContent (lexeme_of k p) content.now) }
{
    if content.len() == 1 {
        return if is_character(content[0]) {
            Some(Kind::Character(content[0]))
        } else {
            None
        };
    }
    let word = without_slashes(content);
    if is_plain_word(word) {
        Some(Kind::DictionaryWord(word))
    } else {
        None
    }
}

/// The character or dictionary word at the front, and its length.
///
/// # Errors
///
/// `BadText`: no quote ends it, or what stands before that quote is no character and no dictionary
/// word.
pub fn quoted_token<'a>(bytes: &'a [u8]) -> Result<(Kind<'a>, usize), LexicalFault>
    requires { slice_index bytes.now 0 ≡ 39 }
    ensures { Scanned bytes.now result }
{
    let rest = from(bytes, 1);
    let count = run_length(Class::Quoted, rest);
    if byte_at(rest, count) != b'\'' {
        return Err(LexicalFault::BadText);
    }
    match quoted_kind(front(rest, count)) {
        Some(kind) => Ok((kind, count + 2)),
        None => Err(LexicalFault::BadText),
    }
}
