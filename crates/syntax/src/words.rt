//! The dictionary words of a source.

ghost use Rattle.std.specs.Prelude.{◌≡◌, IfOk, map};
ghost use Rattle.syntax_lexer.specs.Token.{lexemes};
ghost use Rattle.syntax.specs.Grammar as grammar;

use std::alloc::{AllocError, Global};
use syntax_lexer::{Kind, Token};

/// The dictionary words among tokens, in order, each as often as it stands.
///
/// # Errors
///
/// `AllocError` where memory is refused.
pub fn dictionary_words<'a>(
    alloc: Global,
    tokens: &[Token<'a>],
) -> Result<Vec<&'a [u8]>, AllocError>
    ensures { IfOk result (λ v. map (λ w. w.now) v.items
        ≡ grammar.dictionary_words (lexemes tokens.now)) }
{
    let mut words = Vec::new(alloc);
    for token in tokens {
        if let Kind::DictionaryWord(word) = token.kind {
            words.push(word)?;
        }
    }
    Ok(words)
}
