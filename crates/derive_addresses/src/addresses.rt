//! What addresses of properties stand for.

ghost use Rattle.std.specs.Prelude.{◌≡◌, ◌++◌, ◌∷◌, [], IfOk, OnOk};
ghost use Rattle.derive_tokens.specs.Pieces.{derived, derived_all};
ghost use Rattle.derive_tokens.specs.Held.{names_of};
ghost use Rattle.derive_addresses.specs.Addresses as spec;

use crate::objects::{has_address, object_after, words_text};
use crate::properties::takes_address;
use derive_entries::number_at;
use derive_routines::put;
use derive_tokens::{Names, Piece, PieceKind, after, put_kind, put_number, put_piece, small_name};
use derive_values::{Scope, scope_after};
use std::alloc::{AllocError, Global};
use syntax_lexer::{Kind, Position, Sign};

/// How the names of properties begin that are made.
const PREFIX: &[u8] = b"x__of";

// The property that is beside the one of this name.
fn put_own_property<'a>(
    out: &mut Vec<Piece<'a>>,
    properties: &Names,
    property: &[u8],
    position: Position,
) -> Result<(), AllocError>
    ensures { OnOk result (derived_all out.new.items ≡ derived_all out.old.items
        ++ spec.beside (names_of properties.now) property.now position ∷ []) }
{
    let own = Piece {
        kind: PieceKind::Numbered(PREFIX, properties.number(property)),
        position,
    };
    put_piece(out, own)
}

// The name of a property in an object, with the property beside it.
#[tactic(auto, using(derive_tokens::proofs::Positions::position_derived))]
fn put_with_address<'a>(
    out: &mut Vec<Piece<'a>>,
    properties: &Names,
    places: &Names,
    object: &[u8],
    piece: Piece<'a>,
) -> Result<(), AllocError>
    ensures { OnOk result (derived_all out.new.items ≡ derived_all out.old.items
        ++ spec.with_address (names_of properties.now) (names_of places.now) object.now
        (derived piece.entry)) }
{
    let alloc = *out.allocator();
    let text = words_text(alloc, object, piece)?;
    let property = small_name(alloc, piece)?;
    put_own_property(out, properties, &property, piece.position)?;
    put_piece(out, number_at(places.place(&text), piece))?;
    put_kind(out, Kind::Sign(Sign::Comma), piece.position)?;
    put_piece(out, piece)
}

fn put_in_object<'a>(
    out: &mut Vec<Piece<'a>>,
    properties: &Names,
    places: &Names,
    scope: Scope,
    object: &[u8],
    piece: Piece<'a>,
) -> Result<(), AllocError>
    ensures { OnOk result (derived_all out.new.items ≡ derived_all out.old.items
        ++ spec.in_object (names_of properties.now) (names_of places.now) scope object.now
        (derived piece.entry)) }
{
    let alloc = *out.allocator();
    if has_address(alloc, properties, scope, piece)? {
        put_with_address(out, properties, places, object, piece)
    } else {
        put_piece(out, piece)
    }
}

// The property beside that of an address; what is no property stays.
#[tactic(auto, using(derive_tokens::proofs::Positions::position_derived))]
fn put_named_property<'a>(
    out: &mut Vec<Piece<'a>>,
    properties: &Names,
    piece: Piece<'a>,
) -> Result<(), AllocError>
    ensures { OnOk result (derived_all out.new.items ≡ derived_all out.old.items
        ++ spec.named_property (names_of properties.now) (derived piece.entry) ∷ []) }
{
    let alloc = *out.allocator();
    let name = small_name(alloc, piece)?;
    if properties.has(&name) {
        put_own_property(out, properties, &name, piece.position)
    } else {
        put_piece(out, piece)
    }
}

/// Where a token stands: its scope, and whether it is behind the sign of an address.
#[derive(Clone, Copy)]
struct Standing {
    scope: Scope,
    is_named: bool,
}

// What a token stands for.
#[tactic(auto, using(derive_tokens::proofs::Positions::position_derived))]
fn put_addressed<'a>(
    out: &mut Vec<Piece<'a>>,
    properties: &Names,
    places: &Names,
    standing: Standing,
    object: &[u8],
    piece: Piece<'a>,
    rest: &[Piece<'a>],
) -> Result<(), AllocError>
    ensures { OnOk result (derived_all out.new.items ≡ derived_all out.old.items
        ++ spec.addressed_as (names_of properties.now) (names_of places.now) standing.scope
        object.now standing.is_named (derived piece.entry) (derived_all rest.now)) }
{
    if standing.is_named {
        put_named_property(out, properties, piece)
    } else if takes_address(piece, rest) {
        put_kind(out, Kind::Sign(Sign::Dot), piece.position)
    } else {
        put_in_object(out, properties, places, standing.scope, object, piece)
    }
}

/// The tokens of a file with these properties and places, without addresses of properties as values.
///
/// # Errors
///
/// `AllocError` where memory is refused.
pub fn addressed<'a>(
    alloc: Global,
    properties: &Names,
    places: &Names,
    pieces: &[Piece<'a>],
) -> Result<Vec<Piece<'a>>, AllocError>
    ensures { IfOk result (λ out. derived_all out.items
        ≡ spec.addressed (names_of properties.now) (names_of places.now)
        (derived_all pieces.now)) }
{
    let mut out = Vec::new(alloc);
    let mut scope = Scope::Between;
    let mut object = Vec::new(alloc);
    let mut is_named = false;
    for (at, piece) in pieces.iter().enumerate() {
        let rest = after(pieces, at + 1);
        let standing = Standing { scope, is_named };
        put_addressed(
            &mut out, properties, places, standing, &object, *piece, rest,
        )?;
        object = object_after(alloc, scope, object, *piece)?;
        scope = scope_after(scope, *piece);
        is_named = takes_address(*piece, rest);
    }
    Ok(out)
}

// The directive of the k-th property that is made.
fn put_declared(text: &mut Vec<u8>, k: usize) -> Result<(), AllocError>
    ensures { OnOk result (text.new.items ≡ text.old.items ++ spec.declared k) }
{
    put(text, b"property x__of")?;
    put_number(text, k)?;
    put(text, b";")
}

/// Puts the directives of the properties that are made for these.
///
/// # Errors
///
/// `AllocError` where memory is refused.
#[tactic(auto, using(crate::proofs::Rounds::declared_on, crate::proofs::Rounds::declared_end))]
pub fn put_addresses_made(text: &mut Vec<u8>, properties: &Names) -> Result<(), AllocError>
    ensures { OnOk result (text.new.items
        ≡ text.old.items ++ spec.addresses_made (names_of properties.now)) }
{
    for k in 0..properties.count() {
        put_declared(text, k + 1)?;
    }
    Ok(())
}
