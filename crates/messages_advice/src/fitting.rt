//! The kinds of tokens with which a program begins behind some tokens.

ghost use Rattle.std.specs.Prelude.{◌≡◌, ◌∷◌, ◌++◌, [], IfOk};
ghost use Rattle.syntax_lexer.specs.Token.{lexemes};
ghost use Rattle.syntax_lexer.specs.Tokens.{EndsOnce};
ghost use Rattle.syntax.specs.Places.{Begins};
ghost use Rattle.messages_advice.specs.declared.kinds.TokenKind.TheVariants as k;
ghost use Rattle.messages_advice.specs.Kinds.{some_token};
ghost use Rattle.messages_advice.specs.Listed.{AnswersExpected, AnswersFits, AreTried, trial_of};
ghost use Rattle.messages_advice.specs.Kinds as spec;

use crate::kinds::{TokenKind, all_kinds, token_of};
use std::alloc::{AllocError, Global};
use syntax::{Token, first_unfit};

/// The tokens, one of that kind, and the end of a source.
fn trial<'a>(
    alloc: Global,
    front: &[Token<'a>],
    kind: TokenKind,
) -> Result<Vec<Token<'a>>, AllocError>
    ensures { IfOk result (λ v. lexemes v.items ≡ trial_of (lexemes front.now) kind) }
{
    let mut tokens = Vec::new(alloc);
    let Ok(()) = tokens.extend_from_slice(front) else {
        return Err(AllocError);
    };
    if !matches!(kind, TokenKind::End) {
        let Ok(()) = tokens.push(token_of(kind)) else {
            return Err(AllocError);
        };
    }
    match tokens.push(token_of(TokenKind::End)) {
        Ok(()) => Ok(tokens),
        Err(_) => Err(AllocError),
    }
}

/// Whether a program begins with the tokens and one of that kind behind them.
fn fits(alloc: Global, front: &[Token<'_>], kind: TokenKind) -> Result<bool, AllocError>
    requires begins { Begins (lexemes front.now) }
    requires ends { EndsOnce (lexemes front.now ++ some_token k.End ∷ []) }
    ensures { IfOk result (λ b. AnswersFits (lexemes front.now) kind b) }
{
    let tokens = trial(alloc, front, kind)?;
    let unfit = first_unfit(alloc, &tokens)?;
    match unfit {
        None => Ok(true),
        Some(at) => Ok(at > front.len()),
    }
}

/// The kinds with one of which a program begins behind the tokens.
fn fitting(alloc: Global, front: &[Token<'_>]) -> Result<Vec<TokenKind>, AllocError>
    requires begins { Begins (lexemes front.now) }
    requires ends { EndsOnce (lexemes front.now ++ some_token k.End ∷ []) }
    ensures { IfOk result (λ v. AreTried (lexemes front.now) spec.all_kinds v.items) }
{
    let mut found = Vec::new(alloc);
    for kind in all_kinds() {
        if fits(alloc, front, *kind)? {
            found.push(*kind)?;
        }
    }
    Ok(found)
}

/// The kinds with one of which a program begins behind the tokens before the first with which none
/// does. `None` where the tokens are a program.
///
/// # Errors
///
/// `AllocError` where memory is refused.
pub fn expected(alloc: Global, tokens: &[Token<'_>]) -> Result<Option<Vec<TokenKind>>, AllocError>
    requires { EndsOnce (lexemes tokens.now) }
    ensures { IfOk result (λ o. AnswersExpected (lexemes tokens.now) o) }
{
    let Some(at) = first_unfit(alloc, tokens)? else {
        return Ok(None);
    };
    let found = fitting(alloc, &tokens[..at])?;
    Ok(Some(found))
}
