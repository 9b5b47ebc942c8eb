//! The directives of a program.

ghost use Rattle.std.specs.Prelude.{◌≡◌, ◌≤◌, ◌<◌, ◌+◌, ◌^◌, ◌∷◌, length, take, drop};
ghost use Rattle.syntax_lexer.specs.declared.token.Position.{Position};
ghost use Rattle.syntax_lexer.specs.Token.{lexeme, lexeme_of, lexemes};
ghost use Rattle.derive_tokens.specs.Tokens.{is_sign, is_word};
ghost use Rattle.derive_constants.specs.Constants.{before_last, last_alone};
ghost use Rattle.derive_constants.specs.Cutting as spec;

use derive_tokens::{Piece, PieceKind};
use syntax_lexer::{Kind, Sign, Token, Word};

/// How many brackets are open after a token.
pub fn depth_after(depth: usize, kind: Kind<'_>) -> usize
    requires { depth + 1 < 2 ^ 64 }
    ensures value { (p : Position) → result ≡ spec.depth_after depth (lexeme_of kind.entry p) }
    ensures grows { result ≤ depth + 1 }
{
    match kind {
        Kind::Sign(Sign::OpenBracket) => depth + 1,
        Kind::Sign(Sign::CloseBracket) => depth.saturating_sub(1),
        _ => depth,
    }
}

// A token of the source, as a piece.
fn piece<'a>(token: Token<'a>) -> Piece<'a>
    ensures kind { result.kind ≡ PieceKind.Read token.entry.kind }
    ensures position { result.position ≡ token.entry.position }
{
    Piece {
        kind: PieceKind::Read(token.kind),
        position: token.position,
    }
}

/// Whether a token is this sign.
pub fn is_sign(token: Token<'_>, sign: Sign) -> bool
    ensures { result ≡ is_sign sign (lexeme token.entry) }
{
    derive_tokens::is_sign(piece(token), sign)
}

/// Whether a token is this reserved word.
pub fn is_word(token: Token<'_>, word: Word) -> bool
    ensures { result ≡ is_word word (lexeme token.entry) }
{
    derive_tokens::is_word(piece(token), word)
}

// Whether a token ends a directive, where so many brackets are open.
fn ends_directive(depth: usize, token: Token<'_>) -> bool
    ensures { result ≡ spec.ends_directive depth (lexeme token.entry) }
{
    depth == 0 && is_sign(token, Sign::Semicolon)
}

// How many tokens the first directive has: up to the first `;` outside of brackets, or all.
#[tactic(auto, using(crate::proofs::Cuts::cut_here, crate::proofs::Cuts::cut_on, crate::proofs::Cuts::cut_all))]
fn directive_length(tokens: &[Token<'_>]) -> usize
    requires { 0 < length tokens.now }
    ensures within { result ≤ length tokens.now }
    ensures some { 0 < result }
    ensures cuts { spec.directives (lexemes tokens.now)
        ≡ lexemes (take result tokens.now) ∷ spec.directives (lexemes (drop result tokens.now)) }
{
    let mut depth = 0;
    for (at, token) in tokens.iter().enumerate() {
        if ends_directive(depth, *token) {
            return at + 1;
        }
        depth = depth_after(depth, token.kind);
    }
    tokens.len()
}

/// The first directive.
pub fn first_directive<'t, 'a>(tokens: &'t [Token<'a>]) -> &'t [Token<'a>]
    requires { 0 < length tokens.now }
    ensures some { 0 < length result.now }
    ensures cuts { spec.directives (lexemes tokens.now)
        ≡ lexemes result.now ∷ spec.directives (lexemes (drop (length result.now) tokens.now)) }
{
    tokens.split_at(directive_length(tokens)).0
}

/// The tokens from a place on, none if there are no more.
pub fn after<'t, 'a>(tokens: &'t [Token<'a>], at: usize) -> &'t [Token<'a>]
    ensures { result.now ≡ drop at tokens.now }
{
    tokens.split_at(at.min(tokens.len())).1
}

/// Tokens without their last.
#[tactic(auto, using(crate::proofs::Cuts::front_lexemes))]
pub fn before_last<'t, 'a>(tokens: &'t [Token<'a>]) -> &'t [Token<'a>]
    ensures { lexemes result.now ≡ before_last (lexemes tokens.now) }
{
    tokens.split_at(tokens.len().saturating_sub(1)).0
}

/// Their last alone.
#[tactic(auto, using(crate::proofs::Cuts::back_lexemes))]
pub fn last_alone<'t, 'a>(tokens: &'t [Token<'a>]) -> &'t [Token<'a>]
    ensures { lexemes result.now ≡ last_alone (lexemes tokens.now) }
{
    tokens.split_at(tokens.len().saturating_sub(1)).1
}
