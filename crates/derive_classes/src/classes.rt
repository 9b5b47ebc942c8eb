//! Classes: what they give to their objects.

ghost use Rattle.std.specs.Prelude.{◌≡◌, ◌∷◌, ◌++◌, [], IfOk, OnOk, map};
ghost use Rattle.std.specs.List.{flat_map};
ghost use Rattle.syntax_lexer.specs.Token.{head, tail};
ghost use Rattle.derive_tokens.specs.Pieces.{derived, derived_all};
ghost use Rattle.derive_tokens.specs.Held.{names_of};
ghost use Rattle.derive_constants.specs.Cutting.{directives};
ghost use Rattle.derive_classes.specs.Classes as spec;
ghost use Rattle.derive_classes.specs.Directives.{before_last};
ghost use Rattle.derive_classes.specs.Held.{known_of, traits_of};

use crate::cutting::{before_last, behind, first, first_directive, last_alone};
use crate::directives::{additive_of, is_additive, is_class, is_ended};
use crate::heads::{body_of, has_own_name, put_head, put_with_own_name};
use crate::merged::{merged, settled};
use crate::parts::{Row, begins_classes, is_plain, put_row};
use derive_tokens::{
    Names, Piece, after, is_name, is_same_name, is_word, name_of, put_kind, put_piece, put_pieces,
};
use std::alloc::{AllocError, Global};
use syntax_lexer::{Kind, Position, Word};

/// The properties and the attributes of an object, or what a class gives to its objects, its own
/// name first.
#[derive(Drop)]
pub struct Traits<'a> {
    pub properties: Vec<Piece<'a>>,
    pub given: Vec<Piece<'a>>,
}

/// A class that is known.
#[derive(Drop)]
pub struct Class<'a> {
    pub name: Vec<u8>,
    pub traits: Traits<'a>,
}

// Puts the properties of the class of this name, if it is known.
fn put_properties_in<'a>(
    out: &mut Vec<Piece<'a>>,
    known: &[Class<'a>],
    name: &[u8],
) -> Result<(), AllocError>
    ensures { OnOk result (derived_all out.new.items ≡ derived_all out.old.items
        ++ spec.properties_named (known_of known.now) name.now) }
{
    for class in known {
        if is_same_name(name, &class.name) {
            return put_pieces(out, &class.traits.properties);
        }
    }
    Ok(())
}

// Puts the attributes of the class of this name, if it is known; an attribute alone else.
fn put_given_in<'a>(
    out: &mut Vec<Piece<'a>>,
    known: &[Class<'a>],
    name: &[u8],
    piece: Piece<'a>,
) -> Result<(), AllocError>
    ensures { OnOk result (derived_all out.new.items ≡ derived_all out.old.items
        ++ spec.given_named (known_of known.now) name.now (derived piece.entry)) }
{
    for class in known {
        if is_same_name(name, &class.name) {
            return put_pieces(out, &class.traits.given);
        }
    }
    put_piece(out, piece)
}

// Whether the class of this name is known.
fn is_among(known: &[Class<'_>], name: &[u8]) -> bool
    ensures { result ≡ spec.is_named_known (known_of known.now) name.now }
{
    for class in known {
        if is_same_name(name, &class.name) {
            return true;
        }
    }
    false
}

fn is_known(alloc: Global, known: &[Class<'_>], piece: Piece<'_>) -> Result<bool, AllocError>
    ensures { IfOk result (λ is. is ≡ spec.is_known (known_of known.now) (derived piece.entry)) }
{
    if is_name(piece) {
        let name = name_of(alloc, piece)?;
        Ok(is_among(known, &name))
    } else {
        Ok(false)
    }
}

// Puts the properties of these classes.
fn put_class_properties<'a>(
    out: &mut Vec<Piece<'a>>,
    known: &[Class<'a>],
    classes: &[Piece<'a>],
) -> Result<(), AllocError>
    ensures { OnOk result (derived_all out.new.items ≡ derived_all out.old.items
        ++ flat_map (spec.properties_of (known_of known.now)) (derived_all classes.now)) }
{
    let alloc = *out.allocator();
    for piece in classes {
        let name = name_of(alloc, *piece)?;
        put_properties_in(out, known, &name)?;
    }
    Ok(())
}

// Puts attributes, and those of classes.
fn put_class_given<'a>(
    out: &mut Vec<Piece<'a>>,
    known: &[Class<'a>],
    given: &[Piece<'a>],
) -> Result<(), AllocError>
    ensures { OnOk result (derived_all out.new.items ≡ derived_all out.old.items
        ++ flat_map (spec.given_of (known_of known.now)) (derived_all given.now)) }
{
    let alloc = *out.allocator();
    for piece in given {
        let name = name_of(alloc, *piece)?;
        put_given_in(out, known, &name, *piece)?;
    }
    Ok(())
}

// The properties of an object of these classes, before its own.
fn all_properties<'a>(
    alloc: Global,
    additive: &Names,
    known: &[Class<'a>],
    classes: &[Piece<'a>],
    body: &[Piece<'a>],
) -> Result<Vec<Piece<'a>>, AllocError>
    ensures { IfOk result (λ out. derived_all out.items
        ≡ spec.all_properties (names_of additive.now) (known_of known.now)
        (derived_all classes.now) (derived_all body.now)) }
{
    let mut mentions = Vec::new(alloc);
    put_pieces(&mut mentions, classes)?;
    put_row(&mut mentions, Row::Mentions, body)?;
    let mut row = Vec::new(alloc);
    put_row(&mut row, Row::Properties, body)?;
    put_class_properties(&mut row, known, &mentions)?;
    merged(alloc, additive, &row)
}

// The attributes of such an object.
fn all_given<'a>(
    alloc: Global,
    known: &[Class<'a>],
    classes: &[Piece<'a>],
    body: &[Piece<'a>],
) -> Result<Vec<Piece<'a>>, AllocError>
    ensures { IfOk result (λ out. derived_all out.items ≡ spec.all_given
        (known_of known.now) (derived_all classes.now) (derived_all body.now)) }
{
    let mut row = Vec::new(alloc);
    put_pieces(&mut row, classes)?;
    put_row(&mut row, Row::Given, body)?;
    let mut all = Vec::new(alloc);
    put_class_given(&mut all, known, &row)?;
    settled(alloc, &all)
}

fn traits_with<'a>(
    alloc: Global,
    additive: &Names,
    known: &[Class<'a>],
    classes: &[Piece<'a>],
    body: &[Piece<'a>],
) -> Result<Traits<'a>, AllocError>
    ensures { IfOk result (λ found. traits_of found ≡ spec.traits (names_of additive.now)
        (known_of known.now) (derived_all classes.now) (derived_all body.now)) }
{
    let properties = all_properties(alloc, additive, known, classes, body)?;
    let given = all_given(alloc, known, classes, body)?;
    Ok(Traits { properties, given })
}

// Puts `with` in place of the first comma of properties.
fn put_with<'a>(
    out: &mut Vec<Piece<'a>>,
    position: Position,
    pieces: &[Piece<'a>],
) -> Result<(), AllocError>
    ensures { OnOk result (derived_all out.new.items ≡ derived_all out.old.items
        ++ spec.with_part position (derived_all pieces.now)) }
{
    match pieces {
        [_, rest @ ..] => {
            put_kind(out, Kind::Reserved(Word::With), position)?;
            put_pieces(out, rest)
        }
        _ => Ok(()),
    }
}

// Puts `has` before attributes.
fn put_has<'a>(
    out: &mut Vec<Piece<'a>>,
    position: Position,
    pieces: &[Piece<'a>],
) -> Result<(), AllocError>
    ensures { OnOk result (derived_all out.new.items ≡ derived_all out.old.items
        ++ spec.has_part position (derived_all pieces.now)) }
{
    if pieces.is_empty() {
        return Ok(());
    }
    put_kind(out, Kind::Reserved(Word::Has), position)?;
    put_pieces(out, pieces)
}

// Puts an object with these traits.
fn put_object_with<'a>(
    out: &mut Vec<Piece<'a>>,
    position: Position,
    pieces: &[Piece<'a>],
    traits: &Traits<'a>,
) -> Result<(), AllocError>
    ensures { OnOk result (derived_all out.new.items ≡ derived_all out.old.items
        ++ spec.object_with position (derived_all pieces.now) (traits_of traits.now)) }
{
    put_kind(out, Kind::Reserved(Word::Object), position)?;
    put_head(out, pieces)?;
    put_with(out, position, &traits.properties)?;
    put_has(out, position, &traits.given)?;
    put_row(out, Row::Unfit, body_of(pieces))
}

// Puts the object of these classes that begins at a place, with a name.
fn put_object<'a>(
    out: &mut Vec<Piece<'a>>,
    additive: &Names,
    known: &[Class<'a>],
    classes: &[Piece<'a>],
    position: Position,
    rest: &[Piece<'a>],
) -> Result<(), AllocError>
    ensures { OnOk result (derived_all out.new.items ≡ derived_all out.old.items
        ++ spec.object_of (names_of additive.now) (known_of known.now) (derived_all classes.now)
        position (derived_all rest.now)) }
{
    let alloc = *out.allocator();
    let mut pieces = Vec::new(alloc);
    put_with_own_name(&mut pieces, position, rest)?;
    let traits = traits_with(alloc, additive, known, classes, body_of(&pieces))?;
    put_object_with(out, position, &pieces, &traits)
}

// Puts the attribute that a class becomes.
fn put_attribute<'a>(
    out: &mut Vec<Piece<'a>>,
    position: Position,
    rest: &[Piece<'a>],
) -> Result<(), AllocError>
    ensures { OnOk result (derived_all out.new.items ≡ derived_all out.old.items
        ++ spec.attribute_of position (derived_all rest.now)) }
{
    put_kind(out, Kind::Reserved(Word::Attribute), position)?;
    put_head(out, rest)?;
    put_row(out, Row::Unfit, body_of(rest))
}

// Puts a directive that is no class and no object, or an object of a class that is known.
#[tactic(auto, using(derive_tokens::proofs::Positions::position_derived))]
fn put_other<'a>(
    out: &mut Vec<Piece<'a>>,
    additive: &Names,
    known: &[Class<'a>],
    piece: Piece<'a>,
    rest: &[Piece<'a>],
    is_additive: bool,
) -> Result<(), AllocError>
    ensures { OnOk result (derived_all out.new.items ≡ derived_all out.old.items
        ++ spec.other (names_of additive.now) (known_of known.now) is_additive
        (derived piece.entry) (derived_all rest.now)) }
{
    if is_known(*out.allocator(), known, piece)? {
        return put_object(out, additive, known, &[piece], piece.position, rest);
    }
    put_piece(out, piece)?;
    if is_additive {
        put_pieces(out, behind(rest))
    } else {
        put_pieces(out, rest)
    }
}

// Puts an object that names its classes itself.
#[tactic(auto, using(derive_tokens::proofs::Positions::position_derived))]
fn put_named<'a>(
    out: &mut Vec<Piece<'a>>,
    additive: &Names,
    known: &[Class<'a>],
    piece: Piece<'a>,
    rest: &[Piece<'a>],
) -> Result<(), AllocError>
    ensures { OnOk result (derived_all out.new.items ≡ derived_all out.old.items
        ++ spec.named_object (names_of additive.now) (known_of known.now)
        (derived piece.entry) (derived_all rest.now)) }
{
    if is_plain(rest) && has_own_name(rest) {
        put_piece(out, piece)?;
        put_pieces(out, rest)
    } else {
        put_object(out, additive, known, &[], piece.position, rest)
    }
}

// Puts a directive without its `;`.
#[tactic(auto, using(derive_tokens::proofs::Positions::position_derived))]
fn put_rewritten<'a>(
    out: &mut Vec<Piece<'a>>,
    additive: &Names,
    known: &[Class<'a>],
    piece: Piece<'a>,
    rest: &[Piece<'a>],
    is_additive: bool,
) -> Result<(), AllocError>
    ensures { OnOk result (derived_all out.new.items ≡ derived_all out.old.items
        ++ spec.rewritten (names_of additive.now) (known_of known.now) is_additive
        (derived piece.entry) (derived_all rest.now)) }
{
    if is_word(piece, Word::Object) {
        put_named(out, additive, known, piece, rest)
    } else if begins_classes(piece) {
        put_attribute(out, piece.position, rest)
    } else {
        put_other(out, additive, known, piece, rest, is_additive)
    }
}

fn put_directive<'a>(
    out: &mut Vec<Piece<'a>>,
    additive: &Names,
    known: &[Class<'a>],
    directive: &[Piece<'a>],
) -> Result<(), AllocError>
    ensures { OnOk result (derived_all out.new.items ≡ derived_all out.old.items
        ++ spec.directive (names_of additive.now) (known_of known.now)
        (derived_all directive.now)) }
{
    if is_ended(directive) {
        let piece = first(directive);
        let rest = behind(before_last(directive));
        put_rewritten(out, additive, known, piece, rest, is_additive(directive))?;
        put_pieces(out, last_alone(directive))
    } else {
        put_pieces(out, directive)
    }
}

// The class of a directive.
fn class_of<'a>(
    alloc: Global,
    additive: &Names,
    known: &[Class<'a>],
    directive: &[Piece<'a>],
) -> Result<Class<'a>, AllocError>
    ensures name { IfOk result (λ class. class.name.items
        ≡ spec.class_name (derived_all directive.now)) }
    ensures traits { IfOk result (λ class. traits_of class.traits ≡ spec.class_traits
        (names_of additive.now) (known_of known.now) (derived_all directive.now)) }
{
    let piece = first(behind(directive));
    let name = name_of(alloc, piece)?;
    let body = body_of(behind(before_last(directive)));
    let traits = traits_with(alloc, additive, known, &[piece], body)?;
    Ok(Class { name, traits })
}

// Whether a directive defines a class whose name is not known.
fn is_new(alloc: Global, known: &[Class<'_>], directive: &[Piece<'_>]) -> Result<bool, AllocError>
    ensures { IfOk result (λ is. is
        ≡ spec.is_new (known_of known.now) (derived_all directive.now)) }
{
    if is_class(directive) {
        let known = is_known(alloc, known, first(behind(directive)))?;
        Ok(!known)
    } else {
        Ok(false)
    }
}

// A class is known after its directive.
fn learn<'a>(
    known: &mut Vec<Class<'a>>,
    additive: &Names,
    directive: &[Piece<'a>],
) -> Result<(), AllocError>
    ensures { OnOk result (known_of known.new.items ≡ spec.known_after (names_of additive.now)
        (known_of known.old.items) (derived_all directive.now)) }
{
    let alloc = *known.allocator();
    if is_new(alloc, known, directive)? {
        let class = class_of(alloc, additive, known, directive)?;
        known.push(class)?;
    }
    Ok(())
}

/// The tokens of a file whose classes are attributes, and whose objects have what these give.
///
/// # Errors
///
/// `AllocError` where memory is refused.
pub fn with_classes<'a>(alloc: Global, pieces: &[Piece<'a>]) -> Result<Vec<Piece<'a>>, AllocError>
    ensures { IfOk result (λ out. derived_all out.items
        ≡ spec.with_classes (derived_all pieces.now)) }
{
    let additive = additive_of(alloc, pieces)?;
    let mut out = Vec::new(alloc);
    out.reserve(pieces.len().saturating_add(pieces.len() / 8 + 16))?;
    let mut known = Vec::new(alloc);
    let mut rest = pieces;
    while !rest.is_empty() {
        let directive = first_directive(rest);
        put_directive(&mut out, &additive, &known, directive)?;
        learn(&mut known, &additive, directive)?;
        rest = after(rest, directive.len());
    }
    Ok(out)
}
