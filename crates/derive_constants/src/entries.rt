//! What becomes of the tokens of a directive outside of its routines.

ghost use Rattle.std.specs.Prelude.{◌≡◌, ◌++◌, OnOk};
ghost use Rattle.syntax_lexer.specs.Token.{lexemes};
ghost use Rattle.derive_tokens.specs.Pieces.{derived_all};
ghost use Rattle.derive_constants.specs.Entries as spec;
ghost use Rattle.derive_constants.specs.Held.{known_of};

use crate::constant::Known;
use crate::cutting::depth_after;
use crate::group::Group;
use crate::putting::put_token;
use derive_tokens::Piece;
use std::alloc::AllocError;
use syntax_lexer::Token;

/// Puts what becomes of the tokens of a directive outside of its routines.
///
/// # Errors
///
/// `AllocError` where memory is refused.
pub fn put_entries<'a>(
    out: &mut Vec<Piece<'a>>,
    known: &Known,
    tokens: &[Token<'a>],
) -> Result<(), AllocError>
    ensures { OnOk result (derived_all out.new.items
        ≡ derived_all out.old.items ++ spec.entries (known_of known.now) (lexemes tokens.now)) }
{
    let alloc = *out.allocator();
    let mut group = Group::new(alloc);
    let mut depth = 0;
    for token in tokens {
        if depth == 0 {
            group.take(out, known, *token)?;
        } else {
            put_token(out, *token)?;
        }
        depth = depth_after(depth, token.kind);
    }
    group.put_left(out)
}
