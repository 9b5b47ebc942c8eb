//! The names that a file defines.

ghost use Rattle.std.specs.Prelude.{◌≡◌, IfOk, OnOk};
ghost use Rattle.derive_tokens.specs.Pieces.{derived, derived_all};
ghost use Rattle.derive_tokens.specs.Held as held;
ghost use Rattle.derive_values.specs.Places.{routines_after};
ghost use Rattle.derive_statements.specs.FileNames as spec;
ghost use Rattle.derive_statements.specs.Views.{file_names};

use derive_tokens::{Names, Piece, is_name, note_name};
use derive_values::{Scope, scope_outside};
use std::alloc::{AllocError, Global};

/// The names that a file defines, in small letters.
#[derive(Drop)]
pub struct FileNames {
    pub routines: Names,

    /// The names of directives that are no routines.
    pub others: Names,
}

// In a directive that is no routine.
#[inline(always)]
fn is_in_directive(scope: Scope) -> bool
    ensures { result ≡ spec.is_in_directive scope }
{
    match scope {
        Scope::Between | Scope::Named | Scope::Locals | Scope::Body(_) => false,
        Scope::Head | Scope::Property | Scope::Words | Scope::Worth | Scope::Bare => true,
    }
}

// Whether the name of a directive was met, after a token.
#[inline(always)]
fn is_met_after(scope: Scope, met: bool, piece: Piece<'_>) -> bool
    ensures { result ≡ spec.is_met_after scope met (derived piece.entry) }
{
    is_in_directive(scope) && (met || is_name(piece))
}

#[inline(always)]
fn note_routine(
    routines: &mut Names,
    alloc: Global,
    scope: Scope,
    piece: Piece<'_>,
) -> Result<(), AllocError>
    ensures { OnOk result (held.names_of routines.new
        ≡ routines_after scope (derived piece.entry) (held.names_of routines.old)) }
{
    match scope {
        Scope::Named => note_name(routines, alloc, piece),
        _ => Ok(()),
    }
}

#[inline(always)]
fn note_other(
    others: &mut Names,
    alloc: Global,
    scope: Scope,
    met: bool,
    piece: Piece<'_>,
) -> Result<(), AllocError>
    ensures { OnOk result (held.names_of others.new
        ≡ spec.others_after scope met (derived piece.entry) (held.names_of others.old)) }
{
    if is_in_directive(scope) && !met {
        note_name(others, alloc, piece)
    } else {
        Ok(())
    }
}

/// The names that a file defines.
///
/// # Errors
///
/// `AllocError` where memory is refused.
pub fn names_of(alloc: Global, pieces: &[Piece<'_>]) -> Result<FileNames, AllocError>
    ensures { IfOk result (λ names. file_names names ≡ spec.names_of (derived_all pieces.now)) }
{
    let mut routines = Names::new(alloc);
    let mut others = Names::new(alloc);
    let mut scope = Scope::Between;
    let mut met = false;
    for piece in pieces {
        note_routine(&mut routines, alloc, scope, *piece)?;
        note_other(&mut others, alloc, scope, met, *piece)?;
        met = is_met_after(scope, met, *piece);
        scope = scope_outside(scope, *piece);
    }
    Ok(FileNames { routines, others })
}

impl FileNames {
    /// Whether a name, in small letters, is defined: in the file, or as one of these locals.
    pub fn defines(&self, own: &Names, name: &[u8]) -> bool
        ensures { result
            ≡ spec.is_defined (file_names self.now) (held.names_of own.now) name.now }
    {
        own.has(name) || (self.routines.has(name) || self.others.has(name))
    }
}
