//! Tokens as a source.

ghost use Rattle.std.specs.Prelude.{◌≡◌, ◌++◌, ◌∷◌, [], map, IfOk, IfSome, OnOk};
ghost use Rattle.std.specs.Fmt.{decimal};
ghost use Rattle.syntax_lexer.specs.declared.token.Position.{Position};
ghost use Rattle.syntax_lexer.specs.Token.{lexeme_of};
ghost use Rattle.syntax_lexer.specs.Spelling.{quoted, sign_spelling};
ghost use Rattle.derive_tokens.specs.Pieces.{derived, derived_all};
ghost use Rattle.derive_tokens.specs.Pieces as pieces;
ghost use Rattle.derive_tokens.specs.Spelled as spelled;
ghost use Rattle.derive_tokens.specs.Written.{gap, written};

use crate::piece::{Piece, PieceKind};
use crate::spelling::word_spelling;
use std::alloc::{AllocError, Global};
use syntax_lexer::{Kind, Sign};

/// Puts a number in decimal digits.
///
/// # Errors
///
/// `AllocError` where memory is refused.
#[tactic(auto, using(std::proofs::lemmas::Fmt::decimal_digit))]
pub fn put_number(text: &mut Vec<u8>, number: usize) -> Result<(), AllocError>
    ensures { OnOk result (text.new.items ≡ text.old.items ++ decimal number) }
{
    if number < 10 {
        return Ok(text.push(b'0' + number as u8)?);
    }
    put_number(text, number / 10)?;
    Ok(text.push(b'0' + (number % 10) as u8)?)
}

// The byte of a sign that is one, if it is frequent.
#[inline(always)]
fn sign_byte(sign: Sign) -> Option<u8>
    ensures { IfSome result (λ byte. sign_spelling sign ≡ byte ∷ []) }
{
    match sign {
        Sign::OpenParenthesis => Some(b'('),
        Sign::CloseParenthesis => Some(b')'),
        Sign::OpenBrace => Some(b'{'),
        Sign::CloseBrace => Some(b'}'),
        Sign::OpenBracket => Some(b'['),
        Sign::CloseBracket => Some(b']'),
        Sign::Semicolon => Some(b';'),
        Sign::Comma => Some(b','),
        Sign::Colon => Some(b':'),
        Sign::Dot => Some(b'.'),
        Sign::Assign => Some(b'='),
        _ => None,
    }
}

// The bytes of a sign.
#[inline(always)]
fn put_sign(text: &mut Vec<u8>, sign: Sign) -> Result<(), AllocError>
    ensures { OnOk result (text.new.items ≡ text.old.items ++ sign_spelling sign) }
{
    match sign_byte(sign) {
        Some(byte) => Ok(text.push(byte)?),
        None => Ok(text.extend_from_slice(crate::spelling::sign_spelling(sign))?),
    }
}

// Bytes between two quotes.
fn put_quoted(text: &mut Vec<u8>, quote: u8, content: &[u8]) -> Result<(), AllocError>
    ensures { OnOk result (text.new.items
        ≡ text.old.items ++ quote ∷ (content.now ++ quote ∷ [])) }
{
    text.push(quote)?;
    text.extend_from_slice(content)?;
    text.push(quote)?;
    Ok(())
}

// A dictionary word between its quotes; one of one byte with two slashes.
fn put_word(text: &mut Vec<u8>, word: &[u8]) -> Result<(), AllocError>
    ensures { OnOk result (text.new.items
        ≡ text.old.items ++ quoted (spelled.quoted_word word.now)) }
{
    match word {
        [byte] => put_quoted(text, b'\'', &[*byte, b'/', b'/']),
        _ => put_quoted(text, b'\'', word),
    }
}

// The byte of a text in a dictionary word.
fn quoted_byte(byte: u8) -> u8
    ensures { result ≡ pieces.quoted_byte byte }
{
    match byte {
        b'\'' => b'^',
        _ => byte,
    }
}

// The bytes of a text in a dictionary word.
fn quoted(alloc: Global, bytes: &[u8]) -> Result<Vec<u8>, AllocError>
    ensures { IfOk result (λ word. word.items ≡ map pieces.quoted_byte bytes.now) }
{
    let mut word = Vec::new(alloc);
    for byte in bytes {
        word.push(quoted_byte(*byte))?;
    }
    Ok(word)
}

// A token as the lexer gives it.
#[inline(always)]
fn put_kind(text: &mut Vec<u8>, kind: Kind<'_>) -> Result<(), AllocError>
    ensures { (p : Position) → OnOk result (text.new.items
        ≡ text.old.items ++ spelled.spelling (lexeme_of kind.entry p)) }
{
    match kind {
        Kind::Name(bytes) => Ok(text.extend_from_slice(bytes)?),
        Kind::Number(number) => put_number(text, usize::from(number)),
        Kind::Text(bytes) => put_quoted(text, b'"', bytes),
        Kind::Character(byte) => put_quoted(text, b'\'', &[byte]),
        Kind::DictionaryWord(bytes) => put_word(text, bytes),
        Kind::Reserved(word) => Ok(text.extend_from_slice(word_spelling(word))?),
        Kind::Sign(sign) => put_sign(text, sign),
        Kind::End => Ok(()),
    }
}

/// Puts the bytes of a token.
///
/// # Errors
///
/// `AllocError` where memory is refused, as for the function after it.
#[inline(always)]
pub fn put_spelled(text: &mut Vec<u8>, piece: Piece<'_>) -> Result<(), AllocError>
    ensures { OnOk result (text.new.items
        ≡ text.old.items ++ spelled.spelling (derived piece.entry)) }
{
    match piece.kind {
        PieceKind::Read(kind) => put_kind(text, kind),
        PieceKind::Numbered(prefix, number) => {
            text.extend_from_slice(prefix)?;
            put_number(text, number)
        }
        PieceKind::Quoted(bytes) => {
            let alloc = *text.allocator();
            let word = quoted(alloc, bytes)?;
            put_word(text, &word)
        }
    }
}

// What is before a token: the ends of lines up to its line, or a space.
fn put_gap(text: &mut Vec<u8>, line: usize, wanted: usize) -> Result<(), AllocError>
    ensures { OnOk result (text.new.items ≡ text.old.items ++ gap line wanted) }
{
    if line >= wanted {
        return Ok(text.push(b' ')?);
    }
    for _ in 0..wanted - line {
        text.push(b'\n')?;
    }
    Ok(())
}

/// Writes tokens, each on the line of its origin.
pub fn put_written(text: &mut Vec<u8>, pieces: &[Piece<'_>]) -> Result<(), AllocError>
    ensures { OnOk result (text.new.items ≡ text.old.items ++ written (derived_all pieces.now)) }
{
    let mut line = 1;
    for piece in pieces {
        put_gap(text, line, piece.position.line)?;
        put_spelled(text, *piece)?;
        line = line.max(piece.position.line);
    }
    Ok(())
}
