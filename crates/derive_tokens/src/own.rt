//! Names that only passes make.

ghost use Rattle.std.specs.Prelude.{◌≡◌};
ghost use Rattle.syntax_lexer.specs.Token.{lexeme, lexemes};
ghost use Rattle.derive_tokens.specs.Own as spec;

use crate::piece::refused;
use syntax_lexer::{Kind, PlacedFault, Token, UNKNOWN_NAME, front};

/// How names begin that only passes make.
const OWN_PREFIX: &[u8] = b"x__";

fn is_own(token: Token<'_>) -> bool
    ensures { result ≡ spec.is_own (lexeme token.entry) }
{
    match token.kind {
        Kind::Name(name) => front(name, OWN_PREFIX.len()).eq_ignore_ascii_case(OWN_PREFIX),
        _ => false,
    }
}

/// The fault (E20) of the first name of a source that begins with `x__`, if it has one.
pub fn own_name(tokens: &[Token<'_>]) -> Option<PlacedFault>
    ensures { result ≡ spec.own_fault (lexemes tokens.now) }
{
    for token in tokens {
        if is_own(*token) {
            return Some(refused(UNKNOWN_NAME, token.position));
        }
    }
    None
}
