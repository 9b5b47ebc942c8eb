//! How many arguments `x__call` gives to each routine.

ghost use Rattle.std.specs.Prelude.{◌≡◌, IfOk, OnOk};
ghost use Rattle.derive_tokens.specs.Pieces.{derived, derived_all};
ghost use Rattle.derive_constants.specs.Held.{known_of};
ghost use Rattle.derive_tokens.specs.Held.{names_of};
ghost use Rattle.derive_routines.specs.Arities as spec;

use derive_constants::Known;
use derive_tokens::{Names, Piece, is_sign, small_name};
use derive_values::{Reading, Scope};
use std::alloc::{AllocError, Global};
use syntax_lexer::Sign;

/// How many arguments a routine is given at most.
const MOST_ARGUMENTS: u16 = 6;

// So many locals as arguments: as many, and six at most.
fn arity(own: &Names) -> u16
    ensures { result ≡ spec.arity (names_of own.now) }
{
    let count = own.count();
    if count < MOST_ARGUMENTS as usize {
        count as u16
    } else {
        MOST_ARGUMENTS
    }
}

// The name of the routine that is read, after a token.
#[inline(always)]
fn note_routine(
    routine: &mut Vec<u8>,
    alloc: Global,
    scope: Scope,
    piece: Piece<'_>,
) -> Result<(), AllocError>
    ensures { OnOk result (routine.new.items
        ≡ spec.routine_after scope routine.old.items (derived piece.entry)) }
{
    match scope {
        Scope::Named => {
            *routine = small_name(alloc, piece)?;
            Ok(())
        }
        _ => Ok(()),
    }
}

// The routine whose header ends with a token is noted.
fn note_arity(
    arities: &mut Known,
    alloc: Global,
    reading: &Reading,
    routine: &[u8],
    piece: Piece<'_>,
) -> Result<(), AllocError>
    ensures { OnOk result (known_of arities.new ≡ spec.arities_after reading.now.scope routine.now
        (names_of reading.now.own) (derived piece.entry) (known_of arities.old)) }
{
    match reading.scope {
        Scope::Locals => {
            if is_sign(piece, Sign::Semicolon) {
                let name = Vec::from_slice(alloc, routine)?;
                arities.add(name, arity(&reading.own))?;
                Ok(())
            } else {
                Ok(())
            }
        }
        _ => Ok(()),
    }
}

/// How many arguments each routine of a file is given.
///
/// # Errors
///
/// `AllocError` where memory is refused.
pub fn arities_of(alloc: Global, pieces: &[Piece<'_>]) -> Result<Known, AllocError>
    ensures { IfOk result (λ arities. known_of arities ≡ spec.arities_of (derived_all pieces.now)) }
{
    let mut arities = Known::new(alloc);
    let mut reading = Reading::new(alloc);
    let mut routine = Vec::new(alloc);
    for piece in pieces {
        note_arity(&mut arities, alloc, &reading, &routine, *piece)?;
        note_routine(&mut routine, alloc, reading.scope, *piece)?;
        reading.step(alloc, *piece)?;
    }
    Ok(arities)
}
