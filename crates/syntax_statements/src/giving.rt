//! Attributes of `give`, read from tokens.

ghost use Rattle.std.specs.Prelude.{◌≡◌, map};
ghost use Rattle.syntax_lexer.specs.Token.{lexeme};
ghost use Rattle.syntax_trees.specs.Returned.{ahead, Takes};
ghost use Rattle.syntax_statements.specs.PartViews.{flag_tree};
ghost use Rattle.syntax_statements.specs.PartParse as parts;

use syntax_expressions::expect_name;
use syntax_lexer::{Kind, Sign, Token};
use syntax_trees::{Name, Parsed, Parser, is_sign, pass, peek};

// Whether an attribute of `give` can begin with the token.
fn begins_flag(token: Token<'_>) -> bool
    ensures { result ≡ parts.begins_flag (lexeme token.entry) }
{
    match token.kind {
        Kind::Name(_) => true,
        Kind::Sign(sign) => matches!(sign, Sign::Tilde),
        _ => false,
    }
}

// An attribute that is given, or after `~` one that is taken.
#[tactic(auto, unfolding(crate::specs::PartParse::flag))]
fn flag<'t, 'a>(parser: &mut Parser<'t, 'a>) -> Parsed<(bool, Name<'a>)>
    ensures { Takes flag_tree result parser.new (parts.flag (ahead parser.old)) }
{
    if is_sign(peek(parser.tokens), Sign::Tilde) {
        pass(parser);
        let name = expect_name(parser)?;
        return Ok((false, name));
    }
    let name = expect_name(parser)?;
    Ok((true, name))
}

/// The attributes after the object of `give`, at least one.
///
/// # Errors
///
/// `Fault::Grammar` at a token that is neither a name nor `~`, and after `~` at one that is no
/// name.
#[tactic(auto, unfolding(crate::specs::PartParse::flags), using(syntax_trees::proofs::Loops::repeated_out, syntax_trees::proofs::Loops::repeated_done, syntax_trees::proofs::Loops::repeated_more, syntax_trees::proofs::Loops::repeated_fails))]
pub fn flags<'t, 'a>(parser: &mut Parser<'t, 'a>) -> Parsed<Vec<(bool, Name<'a>)>>
    ensures { Takes (λ xs. map flag_tree xs.items) result parser.new
        (parts.flags (ahead parser.old)) }
{
    let mut found = Vec::new(parser.alloc);
    let first = flag(parser)?;
    found.push(first)?;
    for _turn in 0..parser.tokens.len() {
        if !begins_flag(peek(parser.tokens)) {
            break;
        }
        let next = flag(parser)?;
        found.push(next)?;
    }
    Ok(found)
}
