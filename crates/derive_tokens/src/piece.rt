//! What a derived token is.

ghost use Rattle.std.specs.Prelude.{◌≡◌};
ghost use Rattle.derive_tokens.specs.Tokens as spec;

use syntax_lexer::{Kind, PlacedFault, Position, SourceFault};

/// What a derived token is.
#[derive(Clone, Copy)]
pub enum PieceKind<'a> {
    /// A token of the source, or one that is made and spelled alike.
    Read(Kind<'a>),

    /// A name that is made: these bytes, and the decimal digits of a number.
    Numbered(&'a [u8], usize),

    /// A dictionary word of the bytes of a text: each `'` is a `^` in it.
    Quoted(&'a [u8]),
}

/// A derived token.
#[derive(Clone, Copy)]
pub struct Piece<'a> {
    pub kind: PieceKind<'a>,

    /// Where the token stands that it comes from.
    pub position: Position,
}

/// The fault of a number (10 for E10) at the origin of a token.
pub fn refused(number: u8, position: Position) -> PlacedFault
    ensures { result ≡ spec.refused number position }
{
    PlacedFault {
        fault: SourceFault {
            number,
            line: position.line,
        },
        offset: Some(position.offset),
    }
}
