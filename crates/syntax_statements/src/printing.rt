//! What `print` prints, read from tokens.

ghost use Rattle.std.specs.Prelude.{map};
ghost use Rattle.syntax_trees.specs.Returned.{ahead, Takes};
ghost use Rattle.syntax_statements.specs.PartTree as tree;
ghost use Rattle.syntax_statements.specs.PartViews.{item_tree};
ghost use Rattle.syntax_statements.specs.PartParse as spec;

use crate::part_tree::PrintItem;
use syntax_expressions::expression;
use syntax_lexer::{Kind, Sign, Word};
use syntax_trees::{Parsed, Parser, expect, is_sign, is_word, open, pass, peek, position, skip};

// `(char)` and a value, where its first two tokens have been seen.
#[tactic(auto, unfolding(crate::specs::PartParse::cast), using(crate::proofs::PartInside::opened_zero, crate::proofs::PartInside::opened_more))]
fn character<'t, 'a>(parser: &mut Parser<'t, 'a>, depth: usize) -> Parsed<PrintItem<'a>>
    ensures { Takes item_tree result parser.new
        (spec.cast depth tree.character_item (ahead parser.old)) }
{
    open(depth, parser.tokens)?;
    pass(parser);
    pass(parser);
    expect(parser, Sign::CloseParenthesis)?;
    let begin = position(parser.tokens);
    match expression(parser, depth) {
        Ok(value) => Ok(PrintItem::Character(begin, value)),
        Err(e) => Err(e),
    }
}

// The same of `(object)`.
#[tactic(auto, unfolding(crate::specs::PartParse::cast), using(crate::proofs::PartInside::opened_zero, crate::proofs::PartInside::opened_more))]
fn object<'t, 'a>(parser: &mut Parser<'t, 'a>, depth: usize) -> Parsed<PrintItem<'a>>
    ensures { Takes item_tree result parser.new
        (spec.cast depth tree.object_item (ahead parser.old)) }
{
    open(depth, parser.tokens)?;
    pass(parser);
    pass(parser);
    expect(parser, Sign::CloseParenthesis)?;
    let begin = position(parser.tokens);
    match expression(parser, depth) {
        Ok(value) => Ok(PrintItem::Object(begin, value)),
        Err(e) => Err(e),
    }
}

#[tactic(auto, unfolding(crate::specs::PartParse::item, crate::specs::PartParse::value))]
fn item<'t, 'a>(parser: &mut Parser<'t, 'a>, depth: usize) -> Parsed<PrintItem<'a>>
    ensures { Takes item_tree result parser.new (spec.item depth (ahead parser.old)) }
{
    let first = peek(parser.tokens);
    if let Kind::Text(bytes) = first.kind {
        pass(parser);
        return Ok(PrintItem::Text(bytes));
    }
    let second = peek(skip(parser.tokens));
    if is_sign(first, Sign::OpenParenthesis) && is_word(second, Word::Char) {
        return character(parser, depth);
    }
    if is_sign(first, Sign::OpenParenthesis) && is_word(second, Word::Object) {
        return object(parser, depth);
    }
    match expression(parser, depth) {
        Ok(value) => Ok(PrintItem::Number(first.position, value)),
        Err(e) => Err(e),
    }
}

/// Items with commas between them.
///
/// # Errors
///
/// Those of `expression`; and `Fault::Deep` at the parenthesis of `(char)` or `(object)` where no
/// nesting is left.
#[tactic(auto, unfolding(crate::specs::PartParse::items, syntax_trees::specs::Parse::list), using(syntax_trees::proofs::Loops::further_out, syntax_trees::proofs::Loops::further_done, syntax_trees::proofs::Loops::further_more, syntax_trees::proofs::Loops::further_fails))]
pub fn items<'t, 'a>(parser: &mut Parser<'t, 'a>, depth: usize) -> Parsed<Vec<PrintItem<'a>>>
    ensures { Takes (λ xs. map item_tree xs.items) result parser.new
        (spec.items depth (ahead parser.old)) }
{
    let mut found = Vec::new(parser.alloc);
    let first = item(parser, depth)?;
    found.push(first)?;
    for _turn in 0..parser.tokens.len() {
        if !is_sign(peek(parser.tokens), Sign::Comma) {
            break;
        }
        pass(parser);
        let next = item(parser, depth)?;
        found.push(next)?;
    }
    Ok(found)
}
