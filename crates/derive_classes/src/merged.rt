//! What an object gets of its classes.

ghost use Rattle.std.specs.Prelude.{◌≡◌, ◌∷◌, ◌++◌, [], IfOk, OnOk};
ghost use Rattle.syntax_lexer.specs.Token.{head};
ghost use Rattle.derive_tokens.specs.Pieces.{derived, derived_all};
ghost use Rattle.derive_tokens.specs.Held.{names_of};
ghost use Rattle.derive_tokens.specs.Names.{small_name as small_of};
ghost use Rattle.derive_classes.specs.Merged as spec;
ghost use Rattle.std.specs.Str.{bytes_eq};

use crate::cutting::{behind, first, has_name_of};
use derive_tokens::{
    Names, Piece, after, is_name, is_sign, note_name, put_piece, put_pieces, small_name,
};
use std::alloc::{AllocError, Global};
use syntax_lexer::Sign;

// Puts the values that a row begins with.
fn put_first_values<'a>(out: &mut Vec<Piece<'a>>, pieces: &[Piece<'a>]) -> Result<(), AllocError>
    ensures { OnOk result (derived_all out.new.items
        ≡ derived_all out.old.items ++ spec.first_values (derived_all pieces.now)) }
{
    for piece in pieces {
        if is_sign(*piece, Sign::Comma) {
            return Ok(());
        }
        put_piece(out, *piece)?;
    }
    Ok(())
}

// Whether a token is a name, which is in small letters.
fn has_small(alloc: Global, name: &[u8], piece: Piece<'_>) -> Result<bool, AllocError>
    ensures { IfOk result (λ is. is ≡ bytes_eq name.now (small_of (derived piece.entry))) }
{
    let small = small_name(alloc, piece)?;
    Ok(name == small.as_slice())
}

// Puts the values of the property that these tokens, behind a first one, begin with, if that is a
// comma and it has this name.
fn put_named_values<'a>(
    out: &mut Vec<Piece<'a>>,
    name: &[u8],
    piece: Piece<'a>,
    rest: &[Piece<'a>],
) -> Result<(), AllocError>
    ensures { OnOk result (derived_all out.new.items ≡ derived_all out.old.items
        ++ spec.named_values name.now (derived piece.entry) (derived_all rest.now)) }
{
    let alloc = *out.allocator();
    if !is_sign(piece, Sign::Comma) {
        return Ok(());
    }
    if has_small(alloc, name, first(rest))? {
        put_first_values(out, behind(rest))
    } else {
        Ok(())
    }
}

// Puts all values of the properties of a name, which is in small letters.
fn put_values_of<'a>(
    out: &mut Vec<Piece<'a>>,
    name: &[u8],
    pieces: &[Piece<'a>],
) -> Result<(), AllocError>
    ensures { OnOk result (derived_all out.new.items ≡ derived_all out.old.items
        ++ spec.values_of name.now (derived_all pieces.now)) }
{
    for (at, piece) in pieces.iter().enumerate() {
        put_named_values(out, name, *piece, after(pieces, at + 1))?;
    }
    Ok(())
}

// Puts the values of the property that these tokens begin with.
fn put_own_values<'a>(
    out: &mut Vec<Piece<'a>>,
    additive: &Names,
    pieces: &[Piece<'a>],
) -> Result<(), AllocError>
    ensures { OnOk result (derived_all out.new.items ≡ derived_all out.old.items
        ++ spec.own_values (names_of additive.now) (derived_all pieces.now)) }
{
    let alloc = *out.allocator();
    let name = small_name(alloc, first(pieces))?;
    put_first_values(out, behind(pieces))?;
    if additive.has(&name) {
        put_values_of(out, &name, behind(pieces))
    } else {
        Ok(())
    }
}

// Puts the property that these tokens begin with, behind a comma, if there was none of its name.
fn put_property<'a>(
    out: &mut Vec<Piece<'a>>,
    additive: &Names,
    seen: &Names,
    comma: Piece<'a>,
    pieces: &[Piece<'a>],
) -> Result<(), AllocError>
    ensures { OnOk result (derived_all out.new.items ≡ derived_all out.old.items
        ++ spec.property_at (names_of additive.now) (names_of seen.now) (derived comma.entry)
        (derived_all pieces.now)) }
{
    let alloc = *out.allocator();
    if has_name_of(alloc, seen, first(pieces))? {
        return Ok(());
    }
    put_piece(out, comma)?;
    put_piece(out, first(pieces))?;
    put_own_values(out, additive, pieces)
}

/// The properties of a row: the first of each name, and all values of those that are additive.
///
/// # Errors
///
/// `AllocError` where memory is refused, as for the functions after it.
pub fn merged<'a>(
    alloc: Global,
    additive: &Names,
    pieces: &[Piece<'a>],
) -> Result<Vec<Piece<'a>>, AllocError>
    ensures { IfOk result (λ out. derived_all out.items
        ≡ spec.merged (names_of additive.now) (derived_all pieces.now)) }
{
    let mut out = Vec::new(alloc);
    let mut seen = Names::new(alloc);
    for (at, piece) in pieces.iter().enumerate() {
        if is_sign(*piece, Sign::Comma) {
            let rest = after(pieces, at + 1);
            put_property(&mut out, additive, &seen, *piece, rest)?;
            note_name(&mut seen, alloc, first(rest))?;
        }
    }
    Ok(out)
}

// Whether an attribute is left out, where these are mentioned later and these are before it, from
// the last to the first.
fn is_left_out(
    alloc: Global,
    later: &Names,
    piece: Piece<'_>,
    before: &[Piece<'_>],
) -> Result<bool, AllocError>
    ensures { IfOk result (λ is. is ≡ spec.is_left_out (names_of later.now)
        (derived piece.entry) (derived_all before.now)) }
{
    if is_sign(piece, Sign::Tilde) {
        return Ok(true);
    }
    if !is_name(piece) {
        return Ok(false);
    }
    let again = has_name_of(alloc, later, piece)?;
    Ok(again || is_sign(first(before), Sign::Tilde))
}

// Puts an attribute, if it is not left out.
fn put_attribute<'a>(
    out: &mut Vec<Piece<'a>>,
    later: &Names,
    piece: Piece<'a>,
    before: &[Piece<'a>],
) -> Result<(), AllocError>
    ensures { OnOk result (derived_all out.new.items ≡ derived_all out.old.items
        ++ spec.attribute_at (names_of later.now) (derived piece.entry) (derived_all before.now)) }
{
    if is_left_out(*out.allocator(), later, piece, before)? {
        Ok(())
    } else {
        put_piece(out, piece)
    }
}

// The attributes that are given, from the last to the first, as those are that these are of.
fn settled_from<'a>(alloc: Global, pieces: &[Piece<'a>]) -> Result<Vec<Piece<'a>>, AllocError>
    ensures { IfOk result (λ out. derived_all out.items
        ≡ spec.settled_from [] (derived_all pieces.now)) }
{
    let mut out = Vec::new(alloc);
    let mut later = Names::new(alloc);
    for (at, piece) in pieces.iter().enumerate() {
        put_attribute(&mut out, &later, *piece, after(pieces, at + 1))?;
        note_name(&mut later, alloc, *piece)?;
    }
    Ok(out)
}

/// The attributes that are given: of each the last mention counts.
#[tactic(auto, using(crate::proofs::Cuts::derived_reverse))]
pub fn settled<'a>(alloc: Global, pieces: &[Piece<'a>]) -> Result<Vec<Piece<'a>>, AllocError>
    ensures { IfOk result (λ out. derived_all out.items
        ≡ spec.settled (derived_all pieces.now)) }
{
    let mut backward = Vec::new(alloc);
    put_pieces(&mut backward, pieces)?;
    backward.reverse();
    let mut out = settled_from(alloc, &backward)?;
    out.reverse();
    Ok(out)
}
