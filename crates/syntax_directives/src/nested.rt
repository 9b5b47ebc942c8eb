//! Statements, and those inside them, read from tokens.

ghost use Rattle.std.specs.Prelude.{◌≡◌, ◌<◌, length, map};
ghost use Rattle.syntax_lexer.specs.Token.{lexeme, lexemes};
ghost use Rattle.syntax_trees.specs.Parse.{tail};
ghost use Rattle.syntax_trees.specs.Returned.{ahead, Takes};
ghost use Rattle.syntax_statements.specs.Grammar as grammar;
ghost use Rattle.syntax_statements.specs.Nesting as nesting;
ghost use Rattle.syntax_statements.specs.Views.{statement_tree, case_tree, other_tree};
ghost use Rattle.syntax_statements.specs.Returned.{TakesStatement};
ghost use Rattle.syntax_statements.specs.Parse as spec;
ghost use Rattle.syntax_statements.specs.Rows as rows;
ghost use Rattle.syntax_statements.specs.Rows.{AddsStatement};

use crate::memory::{as_kept, push};
use syntax_expressions::begins_expression;
use syntax_lexer::{Kind, Position, Sign, Token, Word};
use syntax_statements::parts::plain;
use syntax_statements::{
    Range, Statement, begins_case, begins_value, enclosed_condition, enclosed_heading,
    enclosed_loop, parts, ranges,
};
use syntax_trees::{
    Fault, Parsed, Parser, expect, expect_word, fault_at, is_sign, is_word, open, pass, peek,
};

// Whether the word begins a statement.
fn word_opens(word: Word) -> bool
    ensures { result ≡ nesting.word_opens word }
{
    matches!(
        word,
        Word::Print
            | Word::PrintRet
            | Word::NewLine
            | Word::If
            | Word::While
            | Word::Do
            | Word::For
            | Word::Objectloop
            | Word::Switch
            | Word::Break
            | Word::Continue
            | Word::Return
            | Word::Rtrue
            | Word::Rfalse
            | Word::Quit
            | Word::Read
            | Word::Give
            | Word::Move
            | Word::Remove
    )
}

// Whether the token begins a statement that is no expression alone.
fn opens_statement(token: Token<'_>) -> bool
    ensures { result ≡ nesting.opens_statement (lexeme token.entry) }
{
    match token.kind {
        Kind::Text(_) => true,
        Kind::Sign(sign) => matches!(sign, Sign::Semicolon | Sign::OpenBrace),
        Kind::Reserved(word) => word_opens(word),
        _ => false,
    }
}

// Whether the word begins a statement that contains others.
fn word_contains(word: Word) -> bool
    ensures { result ≡ rows.word_contains word }
{
    matches!(
        word,
        Word::If | Word::While | Word::Do | Word::For | Word::Objectloop | Word::Switch
    )
}

// Whether the token begins a statement that contains others.
fn contains_statements(token: Token<'_>) -> bool
    ensures { result ≡ rows.contains_statements (lexeme token.entry) }
{
    match token.kind {
        Kind::Sign(sign) => matches!(sign, Sign::OpenBrace),
        Kind::Reserved(word) => word_contains(word),
        _ => false,
    }
}

// Whether a statement can begin with the token.
#[tactic(auto, unfolding(syntax_statements::specs::Nesting::begins_statement))]
fn begins_statement(token: Token<'_>) -> bool
    ensures { result ≡ nesting.begins_statement (lexeme token.entry) }
{
    opens_statement(token) || begins_expression(token)
}

// Whether a statement of a case can begin with these tokens: what begins the next case is none.
fn begins_in_case(tokens: &[Token<'_>]) -> bool
    ensures { result ≡ nesting.begins_in_case (lexemes tokens.now) }
{
    begins_statement(peek(tokens)) && !begins_case(tokens)
}

fn else_follows(tokens: &[Token<'_>]) -> bool
    ensures { result ≡ grammar.else_follows (lexemes tokens.now) }
{
    is_word(peek(tokens), Word::Else)
}

/// Statements in a row, up to a token with which none can begin. In each of them `depth` nestings
/// more may be opened.
///
/// A statement is
///
/// ```text
/// S = ";" | "{" {S} "}" | text ";" | ("print" | "print_ret") Item {"," Item} ";" | "new_line" ";"
///   | "if" "(" E ")" S ["else" S] | "while" "(" E ")" S | "do" S "until" "(" E ")" ";"
///   | "for" "(" [X] ":" [E] ":" [X] ")" S | "objectloop" "(" Loop ")" S
///   | "switch" "(" E ")" "{" {Case} ["default" ":" {S}] "}"
///   | "break" ";" | "continue" ";" | "return" [E] ";" | "rtrue" ";" | "rfalse" ";" | "quit" ";"
///   | "give" E (["~"] name)+ ";" | "move" E "to" E ";" | "remove" E ";" | "read" name name ";" | X ";"
/// Loop = name | name "in" E3 | E1
/// Item = text | "(" "char" ")" E | "(" "object" ")" E | E
/// Case = Range {"," Range} ":" {S}
/// Range = K ["to" K]
/// K = ["-"] number | char | word | name | "true" | "false" | "nothing"
/// ```
///
/// where E is an expression and X one with an effect: an assignment, a step or a call, in
/// parentheses or not. E3 is one without comparisons, E1 one without an assignment at its root; as
/// a `Loop` it begins with a name, and is none of the first two forms. An `else` belongs to the
/// nearest `if`. In a `switch` a K followed by `,`, `to` or `:` begins a case. Braces, the
/// parentheses of a condition, of the parts of a `for`, of a `Loop`, of `(char)` and `(object)`,
/// and a statement inside a statement are nestings, as are those of expressions.
///
/// # Errors
///
/// - `Fault::Grammar` at the first token with which no derivation goes on.
/// - `Fault::Deep` at the token for which no nesting is left.
/// - `Memory`: a growth is refused.
#[cycle(statement)]
#[tactic(auto, unfolding(syntax_statements::specs::Parse::statements), using(syntax_trees::proofs::Loops::joined_none))]
pub fn statements<'t, 'a>(parser: &mut Parser<'t, 'a>, depth: usize) -> Parsed<Vec<Statement<'a>>>
    ensures { Takes (λ xs. map statement_tree xs.items) result parser.new
        (spec.statements depth (ahead parser.old)) }
{
    let mut found = Vec::new(parser.alloc);
    for _turn in 0..parser.tokens.len() {
        if !begins_statement(peek(parser.tokens)) {
            break;
        }
        match add_next(parser, depth, &mut found) {
            Ok(()) => {}
            Err(e) => return Err(e),
        }
    }
    Ok(as_kept(found))
}

// One more statement of a row. One that contains no others goes there directly: a box would be made
// and given back for each.
#[cycle(statement)]
fn add_next<'t, 'a>(
    parser: &mut Parser<'t, 'a>,
    depth: usize,
    row: &mut Vec<Statement<'a>>,
) -> Parsed<()>
    ensures { AddsStatement result row.old.items row.new.items parser.new
        (spec.statement depth (ahead parser.old)) }
{
    if !contains_statements(peek(parser.tokens)) {
        return parts::add_flat(parser, depth, row);
    }
    match statement(parser, depth) {
        Ok(next) => parts::add_boxed(parser, row, next),
        Err(e) => Err(e),
    }
}

// The same one nesting further in than where `depth` may be opened.
#[cycle(statement)]
fn add_inside<'t, 'a>(
    parser: &mut Parser<'t, 'a>,
    depth: usize,
    row: &mut Vec<Statement<'a>>,
) -> Parsed<()>
    ensures { AddsStatement result row.old.items row.new.items parser.new
        (spec.inside depth (ahead parser.old)) }
{
    match open(depth, parser.tokens) {
        Ok(inside) => add_next(parser, inside, row),
        Err(e) => Err(e),
    }
}

// The statements of a block or of `default`, from its brace or its colon on. Its brace is a
// nesting, and so is each statement inside.
#[cycle(statement)]
#[tactic(auto, using(syntax_statements::proofs::Inside::braces_zero, syntax_statements::proofs::Inside::braces_last, syntax_statements::proofs::Inside::braces_empty, syntax_statements::proofs::Inside::braces_below))]
fn braces<'t, 'a>(parser: &mut Parser<'t, 'a>, depth: usize) -> Parsed<Vec<Statement<'a>>>
    ensures { Takes (λ xs. map statement_tree xs.items) result parser.new
        (spec.braces depth (length (ahead parser.old)) (tail (ahead parser.old))) }
{
    let inside = open(depth, parser.tokens)?;
    pass(parser);
    if !begins_statement(peek(parser.tokens)) {
        return Ok(Vec::new(parser.alloc));
    }
    let inside = open(inside, parser.tokens)?;
    statements(parser, inside)
}

// A block, from its brace on.
#[cycle(statement)]
fn block<'t, 'a>(parser: &mut Parser<'t, 'a>, depth: usize) -> Parsed<Box<Statement<'a>>>
    ensures { TakesStatement result parser.new
        (spec.braced (spec.braces depth) (length (ahead parser.old)) (tail (ahead parser.old))) }
{
    match braces(parser, depth) {
        Ok(found) => parts::block(parser, found),
        Err(e) => Err(e),
    }
}

// A statement one nesting further in than where `depth` may be opened.
#[cycle(statement)]
#[tactic(auto, using(syntax_statements::proofs::Inside::inside_zero, syntax_statements::proofs::Inside::inside_more))]
fn further_in<'t, 'a>(parser: &mut Parser<'t, 'a>, depth: usize) -> Parsed<Box<Statement<'a>>>
    ensures { TakesStatement result parser.new
        (spec.inside depth (ahead parser.old)) }
{
    let inside = open(depth, parser.tokens)?;
    statement(parser, inside)
}

// What follows `if`, which stands at `position`.
#[cycle(statement)]
#[tactic(auto, unfolding(syntax_statements::specs::Parse::choice))]
fn choice<'t, 'a>(
    parser: &mut Parser<'t, 'a>,
    depth: usize,
    position: Position,
) -> Parsed<Box<Statement<'a>>>
    ensures { TakesStatement result parser.new
        (spec.choice depth (spec.inside depth) position (ahead parser.old)) }
{
    let condition = enclosed_condition(parser, depth)?;
    match further_in(parser, depth) {
        Ok(first) => {
            if !else_follows(parser.tokens) {
                return parts::if_then(parser, position, condition, first);
            }
            pass(parser);
            match further_in(parser, depth) {
                Ok(second) => parts::if_else(parser, position, condition, first, second),
                Err(e) => Err(e),
            }
        }
        Err(e) => Err(e),
    }
}

// What follows `while`, which stands at `position`.
#[cycle(statement)]
#[tactic(auto, unfolding(syntax_statements::specs::Parse::repetition))]
fn repetition<'t, 'a>(
    parser: &mut Parser<'t, 'a>,
    depth: usize,
    position: Position,
) -> Parsed<Box<Statement<'a>>>
    ensures { TakesStatement result parser.new
        (spec.repetition depth (spec.inside depth) position (ahead parser.old)) }
{
    let condition = enclosed_condition(parser, depth)?;
    match further_in(parser, depth) {
        Ok(body) => parts::while_do(parser, position, condition, body),
        Err(e) => Err(e),
    }
}

// The statement after `do`.
#[cycle(statement)]
#[tactic(auto, unfolding(syntax_statements::specs::Parse::do_body))]
fn do_body<'t, 'a>(parser: &mut Parser<'t, 'a>, depth: usize) -> Parsed<Box<Statement<'a>>>
    ensures { TakesStatement result parser.new
        (spec.do_body (spec.inside depth) (ahead parser.old)) }
{
    if !begins_statement(peek(parser.tokens)) {
        return Err(fault_at(Fault::Grammar, parser.tokens));
    }
    further_in(parser, depth)
}

// What follows `do`, which stands at `position`.
#[cycle(statement)]
#[tactic(auto, unfolding(syntax_statements::specs::Parse::until))]
fn until<'t, 'a>(
    parser: &mut Parser<'t, 'a>,
    depth: usize,
    position: Position,
) -> Parsed<Box<Statement<'a>>>
    ensures { TakesStatement result parser.new
        (spec.until depth (spec.inside depth) position (ahead parser.old)) }
{
    match do_body(parser, depth) {
        Ok(body) => {
            expect_word(parser, Word::Until)?;
            let condition = enclosed_condition(parser, depth)?;
            parts::do_until(parser, position, body, condition)
        }
        Err(e) => Err(e),
    }
}

// What follows `for`, which stands at `position`.
#[cycle(statement)]
#[tactic(auto, unfolding(syntax_statements::specs::Parse::iteration))]
fn iteration<'t, 'a>(
    parser: &mut Parser<'t, 'a>,
    depth: usize,
    position: Position,
) -> Parsed<Box<Statement<'a>>>
    ensures { TakesStatement result parser.new
        (spec.iteration depth (spec.inside depth) position (ahead parser.old)) }
{
    let heading = enclosed_heading(parser, depth)?;
    match further_in(parser, depth) {
        Ok(body) => parts::for_loop(parser, position, heading, body),
        Err(e) => Err(e),
    }
}

// What follows `objectloop`, which stands at `position`.
#[cycle(statement)]
#[tactic(auto, unfolding(syntax_statements::specs::Parse::traversal))]
fn traversal<'t, 'a>(
    parser: &mut Parser<'t, 'a>,
    depth: usize,
    position: Position,
) -> Parsed<Box<Statement<'a>>>
    ensures { TakesStatement result parser.new
        (spec.traversal depth (spec.inside depth) position (ahead parser.old)) }
{
    let over = enclosed_loop(parser, depth)?;
    match further_in(parser, depth) {
        Ok(body) => parts::loop_over(parser, position, over, body),
        Err(e) => Err(e),
    }
}

// The statements of a case, up to the next case. The brace of its `switch` is a nesting, and so is
// each statement.
#[cycle(statement)]
#[tactic(auto, using(syntax_statements::proofs::Inside::bodies_zero))]
fn bodies<'t, 'a>(parser: &mut Parser<'t, 'a>, depth: usize) -> Parsed<Vec<Statement<'a>>>
    ensures { Takes (λ xs. map statement_tree xs.items) result parser.new
        (spec.bodies depth (ahead parser.old)) }
{
    let inside = open(depth, parser.tokens)?;
    let mut found = Vec::new(parser.alloc);
    for _turn in 0..parser.tokens.len() {
        if !begins_in_case(parser.tokens) {
            break;
        }
        match add_inside(parser, inside, &mut found) {
            Ok(()) => {}
            Err(e) => return Err(e),
        }
    }
    Ok(as_kept(found))
}

// A case: its ranges, and its statements after a colon.
#[cycle(statement)]
#[tactic(auto, unfolding(syntax_statements::specs::Parse::one_case, syntax_statements::specs::Views::case_tree))]
fn one_case<'t, 'a>(
    parser: &mut Parser<'t, 'a>,
    depth: usize,
) -> Parsed<(Vec<Range<'a>>, Vec<Statement<'a>>)>
    ensures { Takes case_tree result parser.new
        (spec.one_case (spec.bodies depth) (ahead parser.old)) }
{
    let ranges = ranges(parser)?;
    expect(parser, Sign::Colon)?;
    match bodies(parser, depth) {
        Ok(body) => Ok((ranges, body)),
        Err(e) => Err(e),
    }
}

// Cases, up to `default` or a brace.
#[cycle(statement)]
#[tactic(auto, unfolding(syntax_statements::specs::Parse::cases), using(syntax_trees::proofs::Loops::joined_none))]
fn cases<'t, 'a>(
    parser: &mut Parser<'t, 'a>,
    depth: usize,
) -> Parsed<Vec<(Vec<Range<'a>>, Vec<Statement<'a>>)>>
    ensures { Takes (λ xs. map case_tree xs.items) result parser.new
        (spec.cases (spec.bodies depth) (ahead parser.old)) }
{
    let mut found = Vec::new(parser.alloc);
    for _turn in 0..parser.tokens.len() {
        if !begins_value(peek(parser.tokens)) {
            break;
        }
        match one_case(parser, depth) {
            Ok(next) => push(&mut found, next)?,
            Err(e) => return Err(e),
        }
    }
    Ok(found)
}

// The statements of `default`, where it comes next.
#[cycle(statement)]
#[tactic(auto, unfolding(syntax_statements::specs::Parse::otherwise))]
fn otherwise<'t, 'a>(
    parser: &mut Parser<'t, 'a>,
    depth: usize,
) -> Parsed<Option<Vec<Statement<'a>>>>
    ensures { Takes other_tree result parser.new
        (spec.otherwise (spec.braces depth) (ahead parser.old)) }
{
    if !is_word(peek(parser.tokens), Word::Default) {
        return Ok(None);
    }
    pass(parser);
    // The colon stands for the brace of a block, and is not passed here.
    if !is_sign(peek(parser.tokens), Sign::Colon) {
        return Err(fault_at(Fault::Grammar, parser.tokens));
    }
    match braces(parser, depth) {
        Ok(found) => Ok(Some(found)),
        Err(e) => Err(e),
    }
}

// What follows `switch`, which stands at `position`.
#[cycle(statement)]
#[tactic(auto, unfolding(syntax_statements::specs::Parse::selection))]
fn selection<'t, 'a>(
    parser: &mut Parser<'t, 'a>,
    depth: usize,
    position: Position,
) -> Parsed<Box<Statement<'a>>>
    ensures { TakesStatement result parser.new
        (spec.selection depth (spec.braces depth)
        (spec.bodies depth) position (ahead parser.old)) }
{
    let value = enclosed_condition(parser, depth)?;
    expect(parser, Sign::OpenBrace)?;
    match cases(parser, depth) {
        Ok(cases) => match otherwise(parser, depth) {
            Ok(other) => parts::switch_on(parser, position, value, cases, other),
            Err(e) => Err(e),
        },
        Err(e) => Err(e),
    }
}

// A statement in which `depth` nestings more may be opened.
#[cycle(statement)]
#[tactic(auto, unfolding(syntax_statements::specs::Parse::statement, syntax_statements::specs::Parse::statement_over))]
fn statement<'t, 'a>(parser: &mut Parser<'t, 'a>, depth: usize) -> Parsed<Box<Statement<'a>>>
    ensures { TakesStatement result parser.new
        (spec.statement depth (ahead parser.old)) }
{
    let opening = parser.tokens;
    let first = peek(opening);
    pass(parser);
    match first.kind {
        Kind::Reserved(Word::If) => choice(parser, depth, first.position),
        Kind::Reserved(Word::While) => repetition(parser, depth, first.position),
        Kind::Reserved(Word::Do) => until(parser, depth, first.position),
        Kind::Reserved(Word::For) => iteration(parser, depth, first.position),
        Kind::Reserved(Word::Objectloop) => traversal(parser, depth, first.position),
        Kind::Reserved(Word::Switch) => selection(parser, depth, first.position),
        Kind::Sign(Sign::Semicolon) => parts::empty(parser),
        Kind::Sign(Sign::OpenBrace) => {
            parser.tokens = opening;
            block(parser, depth)
        }
        _ => {
            parser.tokens = opening;
            plain(parser, depth)
        }
    }
}
