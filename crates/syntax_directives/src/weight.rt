//! Weights of tokens, by which the sizes of programs are bounded.

ghost use Rattle.std.specs.Prelude.{◌≡◌, ◌≤◌, ◌+◌, ◌-◌, ◌*◌, ◌^◌};
ghost use Rattle.syntax_lexer.specs.Token.{lexeme, lexemes};
ghost use Rattle.syntax_directives.specs.Answers.{EndsWith};
ghost use Rattle.syntax_directives.specs.Grammar as grammar;

use syntax_lexer::{Kind, Token};

/// 32 for each token but the end, and 3 for each byte between the quotes of a text.
fn token_weight(token: Token<'_>) -> u128
    ensures weight { result ≡ grammar.token_weight (lexeme token.entry) }
    ensures bound { result ≤ 32 + 3 * 2 ^ 64 }
{
    match token.kind {
        Kind::Text(bytes) => 32 + 3 * bytes.len() as u128,
        Kind::End => 0,
        _ => 32,
    }
}

/// The sum of the weights of the tokens.
pub fn weight_of(tokens: &[Token<'_>]) -> u128
    ensures { result ≡ grammar.weight_of (lexemes tokens.now) }
{
    let mut weight = 0;
    for token in tokens {
        weight += token_weight(*token);
    }
    weight
}

/// The weight of the tokens before the rest, with which they end.
#[tactic(auto, using(crate::proofs::Ends::ends_short, crate::proofs::Ends::ends_weight))]
pub fn weight_before(tokens: &[Token<'_>], rest: &[Token<'_>]) -> u128
    requires { EndsWith (lexemes tokens.now) (lexemes rest.now) }
    ensures { result ≡ grammar.weight_of (lexemes tokens.now)
        - grammar.weight_of (lexemes rest.now) }
{
    weight_of(&tokens[..tokens.len() - rest.len()])
}
