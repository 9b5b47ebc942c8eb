//! A whole source.

ghost use Rattle.syntax_lexer.specs.Token.{lexemes};
ghost use Rattle.derive_branches.specs.Branches as spec;
ghost use Rattle.derive_branches.specs.Held.{GivesTokens};

use crate::brancher::Brancher;
use std::alloc::Global;
use syntax_lexer::{PlacedFault, Token};

/// The tokens of a source whose branches are chosen, and whose defaults are constants.
///
/// # Errors
///
/// E10 at the first token at which a branch or a condition is none, and E99.
pub fn branched<'a>(alloc: Global, tokens: &[Token<'a>]) -> Result<Vec<Token<'a>>, PlacedFault>
    ensures { GivesTokens result (spec.branched (lexemes tokens.now)) }
{
    let mut brancher = Brancher::new(alloc, tokens.len())?;
    for token in tokens {
        if brancher.is_plain(*token) {
            brancher.keep(alloc, *token)?;
        } else {
            match brancher.read(alloc, *token) {
                Ok(()) => {}
                Err(fault) => return Err(fault),
            }
        }
    }
    brancher.kept.finish()?;
    Ok(brancher.kept.whole)
}
