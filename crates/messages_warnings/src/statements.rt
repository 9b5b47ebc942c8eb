//! Where statements begin, as the tokens tell.

use messages_parts::{Kinds, after, before, is_of, kinds};
use syntax_lexer::Token;

/// Whether a statement of a list begins with the token of a number, or a case does.
pub fn begins_in_list(tokens: &[Token<'_>], at: usize) -> bool {
    is_of(
        tokens,
        before(at, 1),
        kinds!(Sign Semicolon OpenBrace CloseBrace Colon),
    )
}

/// Whether what begins with the token of a number, where a statement of a list may begin, is a case.
pub fn is_case(tokens: &[Token<'_>], at: usize) -> bool {
    const VALUES: Kinds = kinds!(
        Is Name Number Character DictionaryWord, Word True False Nothing
    );
    is_of(tokens, at, kinds!(Sign Minus, Word Default))
        || is_of(tokens, at, VALUES)
            && is_of(tokens, after(at, 1), kinds!(Sign Comma Colon, Word To))
}
