//! What a directive is.

ghost use Rattle.std.specs.Prelude.{◌≡◌, ◌∷◌, ◌++◌, IfOk, OnOk};
ghost use Rattle.derive_tokens.specs.Pieces.{derived_all};
ghost use Rattle.derive_tokens.specs.Held.{names_of};
ghost use Rattle.derive_constants.specs.Cutting.{directives};
ghost use Rattle.derive_classes.specs.Directives as spec;

use crate::cutting::{behind, first, first_directive, last_alone};
use crate::heads::body_of;
use crate::parts::{Row, begins_classes, put_row};
use derive_tokens::{Names, Piece, after, is_called, is_name, is_sign, is_word, note_name};
use std::alloc::{AllocError, Global};
use syntax_lexer::{Sign, Word};

/// Whether a directive ends with `;`.
pub fn is_ended(directive: &[Piece<'_>]) -> bool
    ensures { result ≡ spec.is_ended (derived_all directive.now) }
{
    is_sign(first(last_alone(directive)), Sign::Semicolon)
}

fn is_object(directive: &[Piece<'_>]) -> bool
    ensures { result ≡ spec.is_object (derived_all directive.now) }
{
    is_ended(directive) && (is_word(first(directive), Word::Object) || is_name(first(directive)))
}

/// Whether a directive is `Class` and a name.
pub fn is_class(directive: &[Piece<'_>]) -> bool
    ensures { result ≡ spec.is_class (derived_all directive.now) }
{
    is_ended(directive) && (begins_classes(first(directive)) && is_name(first(behind(directive))))
}

/// Puts the names of the properties that a directive provides itself.
///
/// # Errors
///
/// `AllocError` where memory is refused, as for the functions after it.
pub fn put_provided<'a>(out: &mut Vec<Piece<'a>>, directive: &[Piece<'a>]) -> Result<(), AllocError>
    ensures { OnOk result (derived_all out.new.items
        ≡ derived_all out.old.items ++ spec.provided (derived_all directive.now)) }
{
    if is_object(directive) {
        put_row(out, Row::Names, body_of(behind(directive)))
    } else {
        Ok(())
    }
}

/// Puts the classes that a directive names.
pub fn put_mentions<'a>(out: &mut Vec<Piece<'a>>, directive: &[Piece<'a>]) -> Result<(), AllocError>
    ensures { OnOk result (derived_all out.new.items
        ≡ derived_all out.old.items ++ spec.mentions (derived_all directive.now)) }
{
    if is_object(directive) {
        put_row(out, Row::Mentions, body_of(behind(directive)))
    } else {
        Ok(())
    }
}

/// Whether a directive is `Property additive` and a name.
pub fn is_additive(directive: &[Piece<'_>]) -> bool
    ensures { result ≡ spec.is_additive (derived_all directive.now) }
{
    is_word(first(directive), Word::Property)
        && (is_called(first(behind(directive)), b"additive")
            && is_name(first(behind(behind(directive)))))
}

/// The additive properties, with `name`.
pub fn additive_of(alloc: Global, pieces: &[Piece<'_>]) -> Result<Names, AllocError>
    ensures { IfOk result (λ names. names_of names
        ≡ spec.additive_of (directives (derived_all pieces.now))) }
{
    let mut names = Names::new(alloc);
    names.add(Vec::from_slice(alloc, b"name")?)?;
    let mut rest = pieces;
    while !rest.is_empty() {
        let directive = first_directive(rest);
        if is_additive(directive) {
            note_name(&mut names, alloc, first(behind(behind(directive))))?;
        }
        rest = after(rest, directive.len());
    }
    Ok(names)
}
