//! Buffers: arrays of bytes whose first word is set where Main begins.

ghost use Rattle.std.specs.Prelude.{◌≡◌, ◌≤◌, ◌++◌, IfOk, OnOk, map};
ghost use Rattle.syntax_lexer.specs.Token.{lexeme, lexemes};
ghost use Rattle.derive_tokens.specs.Pieces.{derived_all};
ghost use Rattle.derive_constants.specs.Constants as spec;
ghost use Rattle.derive_constants.specs.Held.{known_of, buffer_of, buffer_found};

use crate::constant::Known;
use crate::cutting::{before_last, is_word, last_alone};
use crate::putting::{put_token, put_tokens};
use crate::reading::value_in;
use derive_tokens::{Piece, is_named, put_kind};
use std::alloc::{AllocError, Global};
use syntax_lexer::{Kind, Position, Sign, Token, Word};

/// A buffer: its name, how many bytes it has, and where its directive and its kind stand.
#[derive(Clone, Copy)]
pub struct Buffer<'a> {
    pub name: Token<'a>,
    pub size: u16,
    pub at: Position,
    pub kind_at: Position,
}

/// The greatest size of a buffer: that of its array is two more.
const LARGEST: u16 = 65_533;

// The buffer of a size, if it is not too large.
fn sized<'a>(
    name: Token<'a>,
    at: Position,
    kind_at: Position,
    size: Option<u16>,
) -> Option<Buffer<'a>>
    ensures { buffer_found result ≡ spec.sized (lexeme name.entry) at kind_at size }
{
    match size {
        Some(size) if size <= LARGEST => Some(Buffer {
            name,
            size,
            at,
            kind_at,
        }),
        _ => None,
    }
}

/// The buffer that a directive defines, if it does.
///
/// # Errors
///
/// `AllocError` where memory is refused.
#[tactic(auto, using(crate::proofs::Rows::position_is))]
pub fn buffer_in<'a>(
    alloc: Global,
    known: &Known,
    directive: &[Token<'a>],
) -> Result<Option<Buffer<'a>>, AllocError>
    ensures { IfOk result (λ buffer. buffer_found buffer
        ≡ spec.buffer_in (known_of known.now) (lexemes directive.now)) }
{
    match directive {
        [first, name, kind, rest @ ..] => match name.kind {
            Kind::Name(_) => {
                if is_word(*first, Word::Array) && is_named(kind.kind, b"buffer") {
                    let size = value_in(alloc, known, before_last(rest))?;
                    Ok(sized(*name, first.position, kind.position, size))
                } else {
                    Ok(None)
                }
            }
            _ => Ok(None),
        },
        _ => Ok(None),
    }
}

/// Puts a buffer as an array of bytes.
///
/// # Errors
///
/// `AllocError` where memory is refused.
pub fn put_buffer<'a>(
    out: &mut Vec<Piece<'a>>,
    directive: &[Token<'a>],
    buffer: Buffer<'a>,
) -> Result<(), AllocError>
    requires { buffer.size ≤ 65533 }
    ensures { OnOk result (derived_all out.new.items ≡ derived_all out.old.items
        ++ spec.buffer_array (buffer_of buffer.entry) (spec.last_alone (lexemes directive.now))) }
{
    put_kind(out, Kind::Reserved(Word::Array), buffer.at)?;
    put_token(out, buffer.name)?;
    put_kind(out, Kind::Sign(Sign::Arrow), buffer.kind_at)?;
    put_kind(out, Kind::Number(buffer.size + 2), buffer.kind_at)?;
    put_tokens(out, last_alone(directive))
}

// What begins Main for a buffer: `b-->0 = n;`.
fn put_start<'a>(
    out: &mut Vec<Piece<'a>>,
    buffer: Buffer<'a>,
    position: Position,
) -> Result<(), AllocError>
    ensures { OnOk result (derived_all out.new.items ≡ derived_all out.old.items
        ++ spec.buffer_start position (buffer_of buffer.entry)) }
{
    put_token(out, buffer.name)?;
    put_kind(out, Kind::Sign(Sign::LongArrow), position)?;
    put_kind(out, Kind::Number(0), position)?;
    put_kind(out, Kind::Sign(Sign::Assign), position)?;
    put_kind(out, Kind::Number(buffer.size), position)?;
    put_kind(out, Kind::Sign(Sign::Semicolon), position)
}

/// Puts what begins Main for buffers.
///
/// # Errors
///
/// `AllocError` where memory is refused.
pub fn put_starts<'a>(
    out: &mut Vec<Piece<'a>>,
    buffers: &[Buffer<'a>],
    position: Position,
) -> Result<(), AllocError>
    ensures { OnOk result (derived_all out.new.items ≡ derived_all out.old.items
        ++ spec.starts (map buffer_of buffers.now) position) }
{
    for buffer in buffers {
        put_start(out, *buffer, position)?;
    }
    Ok(())
}
