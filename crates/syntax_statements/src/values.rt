//! Values that are known before a story runs, and what begins a case, read from tokens.

ghost use Rattle.std.specs.Prelude.{◌≡◌, map};
ghost use Rattle.syntax_lexer.specs.Token.{lexeme, lexemes};
ghost use Rattle.syntax_trees.specs.Parse.{head};
ghost use Rattle.syntax_trees.specs.Returned.{ahead, Takes};
ghost use Rattle.syntax_statements.specs.PartNesting as nesting;
ghost use Rattle.syntax_statements.specs.PartViews.{literal_tree, range_tree};
ghost use Rattle.syntax_statements.specs.PartParse as spec;

use crate::part_tree::{Literal, Range};
use syntax_lexer::{Kind, Sign, Token, Word};
use syntax_trees::{Fault, Name, Parsed, Parser, fault_at, is_sign, is_word, pass, peek, skip};

// The number after a `-`.
fn negative<'t, 'a>(parser: &mut Parser<'t, 'a>) -> Parsed<Literal<'a>>
    ensures { Takes literal_tree result parser.new
        (spec.negative_on (head (ahead parser.old)) (ahead parser.old)) }
{
    match peek(parser.tokens).kind {
        Kind::Number(number) => {
            pass(parser);
            Ok(Literal::Number(number.wrapping_neg()))
        }
        _ => Err(fault_at(Fault::Grammar, parser.tokens)),
    }
}

/// A value that is known before a story runs.
///
/// # Errors
///
/// `Fault::Grammar`: the tokens begin no value.
#[tactic(auto, unfolding(crate::specs::PartParse::known_value))]
pub fn known_value<'t, 'a>(parser: &mut Parser<'t, 'a>) -> Parsed<Literal<'a>>
    ensures { Takes literal_tree result parser.new (spec.known_value (ahead parser.old)) }
{
    let opening = parser.tokens;
    let first = peek(opening);
    pass(parser);
    match first.kind {
        Kind::Number(number) => Ok(Literal::Number(number)),
        Kind::Character(character) => Ok(Literal::Number(character as u16)),
        Kind::DictionaryWord(word) => Ok(Literal::Word(word)),
        Kind::Reserved(Word::True) => Ok(Literal::Number(1)),
        Kind::Reserved(Word::False) => Ok(Literal::Number(0)),
        Kind::Reserved(Word::Nothing) => Ok(Literal::Number(0)),
        Kind::Name(text) => Ok(Literal::Named(Name {
            text,
            position: first.position,
        })),
        Kind::Sign(Sign::Minus) => negative(parser),
        _ => Err(fault_at(Fault::Grammar, opening)),
    }
}

/// Whether a value can begin with the token.
pub fn begins_value(token: Token<'_>) -> bool
    ensures { result ≡ spec.begins_value (lexeme token.entry) }
{
    match token.kind {
        Kind::Number(_) | Kind::Character(_) | Kind::DictionaryWord(_) | Kind::Name(_) => true,
        Kind::Reserved(word) => matches!(word, Word::True | Word::False | Word::Nothing),
        Kind::Sign(sign) => matches!(sign, Sign::Minus),
        _ => false,
    }
}

// Whether the token can follow a value at the beginning of a case.
fn goes_on_in_case(token: Token<'_>) -> bool
    ensures { result ≡ nesting.goes_on_in_case (lexeme token.entry) }
{
    match token.kind {
        Kind::Sign(sign) => matches!(sign, Sign::Comma | Sign::Colon),
        Kind::Reserved(word) => matches!(word, Word::To),
        _ => false,
    }
}

// Whether a case can begin with these three tokens.
fn case_begins(first: Token<'_>, second: Token<'_>, third: Token<'_>) -> bool
    ensures { result
        ≡ nesting.case_begins (lexeme first.entry) (lexeme second.entry) (lexeme third.entry) }
{
    match first.kind {
        Kind::Number(_) | Kind::Character(_) | Kind::Name(_) => goes_on_in_case(second),
        Kind::DictionaryWord(_) => goes_on_in_case(second),
        Kind::Reserved(Word::True | Word::False | Word::Nothing) => goes_on_in_case(second),
        Kind::Sign(Sign::Minus) => match second.kind {
            Kind::Number(_) => goes_on_in_case(third),
            _ => false,
        },
        _ => false,
    }
}

/// Whether the tokens begin a case of a `switch`: a value, and `,`, `to` or `:` after it.
#[tactic(auto, unfolding(crate::specs::PartNesting::begins_case))]
pub fn begins_case(tokens: &[Token<'_>]) -> bool
    ensures { result ≡ nesting.begins_case (lexemes tokens.now) }
{
    let after = skip(tokens);
    case_begins(peek(tokens), peek(after), peek(skip(after)))
}

// The values for which a case is meant: one alone, or those from one to another.
#[tactic(auto, unfolding(crate::specs::PartParse::range))]
fn range<'t, 'a>(parser: &mut Parser<'t, 'a>) -> Parsed<Range<'a>>
    ensures { Takes range_tree result parser.new (spec.range (ahead parser.old)) }
{
    let low = known_value(parser)?;
    if !is_word(peek(parser.tokens), Word::To) {
        return Ok(Range { low, high: None });
    }
    pass(parser);
    let high = known_value(parser)?;
    let high = Box::new(parser.alloc, high)?;
    Ok(Range {
        low,
        high: Some(high),
    })
}

/// What a case is meant for, with commas between its ranges.
///
/// # Errors
///
/// `Fault::Grammar`: the tokens begin no value; `Memory`: a growth is refused.
#[tactic(auto, unfolding(crate::specs::PartParse::ranges, syntax_trees::specs::Parse::list), using(syntax_trees::proofs::Loops::further_out, syntax_trees::proofs::Loops::further_done, syntax_trees::proofs::Loops::further_more, syntax_trees::proofs::Loops::further_fails))]
pub fn ranges<'t, 'a>(parser: &mut Parser<'t, 'a>) -> Parsed<Vec<Range<'a>>>
    ensures { Takes (λ xs. map range_tree xs.items) result parser.new
        (spec.ranges (ahead parser.old)) }
{
    // Most cases have one range. A first `push` would ask for several places.
    let mut found = Vec::with_capacity(parser.alloc, 1)?;
    let first = range(parser)?;
    found.push(first)?;
    for _turn in 0..parser.tokens.len() {
        if !is_sign(peek(parser.tokens), Sign::Comma) {
            break;
        }
        pass(parser);
        let next = range(parser)?;
        found.push(next)?;
    }
    Ok(found)
}
