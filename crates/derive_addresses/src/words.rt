//! The dictionary words of a file.

ghost use Rattle.std.specs.Prelude.{◌≡◌, map, IfOk, OnOk};
ghost use Rattle.derive_tokens.specs.Pieces.{derived, derived_all, quoted_byte};
ghost use Rattle.derive_tokens.specs.Held.{names_of};
ghost use Rattle.derive_addresses.specs.Words as spec;

use derive_tokens::{Names, Piece, PieceKind};
use std::alloc::{AllocError, Global};
use syntax_lexer::Kind;

fn is_dictionary_word(piece: Piece<'_>) -> bool
    ensures { result ≡ spec.is_dictionary_word (derived piece.entry) }
{
    match piece.kind {
        PieceKind::Read(Kind::DictionaryWord(_)) => true,
        PieceKind::Read(_) => false,
        PieceKind::Numbered(..) => false,
        PieceKind::Quoted(_) => true,
    }
}

// The byte of a text in a dictionary word.
fn byte_in_word(byte: u8) -> u8
    ensures { result ≡ quoted_byte byte }
{
    match byte {
        b'\'' => b'^',
        _ => byte,
    }
}

// The bytes of a text in a dictionary word.
fn bytes_in_word(alloc: Global, bytes: &[u8]) -> Result<Vec<u8>, AllocError>
    ensures { IfOk result (λ word. word.items ≡ map quoted_byte bytes.now) }
{
    let mut word = Vec::new(alloc);
    for byte in bytes {
        word.push(byte_in_word(*byte))?;
    }
    Ok(word)
}

// The bytes of a dictionary word; none of another token.
fn word_in(alloc: Global, piece: Piece<'_>) -> Result<Vec<u8>, AllocError>
    ensures { IfOk result (λ word. word.items ≡ spec.word_in (derived piece.entry)) }
{
    match piece.kind {
        PieceKind::Read(Kind::DictionaryWord(bytes)) => Vec::from_slice(alloc, bytes),
        PieceKind::Quoted(bytes) => bytes_in_word(alloc, bytes),
        _ => Ok(Vec::new(alloc)),
    }
}

fn note_word(words: &mut Names, alloc: Global, piece: Piece<'_>) -> Result<(), AllocError>
    ensures { OnOk result (names_of words.new
        ≡ spec.with_word_of (names_of words.old) (derived piece.entry)) }
{
    if !is_dictionary_word(piece) {
        return Ok(());
    }
    let word = word_in(alloc, piece)?;
    let small = word.as_slice().to_ascii_lowercase(alloc)?;
    words.add(small)?;
    Ok(())
}

/// The dictionary words of a file, in small letters, each once.
///
/// # Errors
///
/// `AllocError` where memory is refused.
pub fn words_of(alloc: Global, pieces: &[Piece<'_>]) -> Result<Names, AllocError>
    ensures { IfOk result (λ words. names_of words ≡ spec.words_of (derived_all pieces.now)) }
{
    let mut words = Names::new(alloc);
    for piece in pieces {
        note_word(&mut words, alloc, *piece)?;
    }
    Ok(words)
}
