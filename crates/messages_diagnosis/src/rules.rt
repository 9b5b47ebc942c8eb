//! The sentence of a fault of the grammar or of a program.

ghost use Rattle.syntax_lexer.specs.Token.{lexemes};
ghost use Rattle.syntax_lexer.specs.Tokens.{EndsOnce};

use crate::grammar::{misfit_at, too_deep};
use crate::statements::temporaries_at;
use crate::told::Told;
use checker_values::{Table, tabulate};
use meaning::limits::MOST_TEMPORARIES;
use messages_advice::{
    Site, bad_abbreviation, bad_array, defined_twice, no_main, not_assignable, outside, some,
    too_heavy, too_many, too_many_arguments, unknown, wrong_kind,
};
use std::alloc::{AllocError, Global};
use syntax::{Directive, Program, Token, discard, lex, parse};
use syntax_lexer::{
    BAD_ABBREVIATION, BAD_ARRAY, BREAK_OUTSIDE, DEFINED_TWICE, EXPRESSION_TOO_LARGE,
    NESTED_TOO_DEEP, NO_MEMORY, NO_PROPER_MAIN, NOT_ASSIGNABLE, ROUTINE_TOO_LARGE, TOO_MANY,
    TOO_MANY_ARGUMENTS, UNKNOWN_NAME, WRONG_KIND,
};

/// The number of temporaries that the expression needs of a statement or of a print item that begins at
/// an offset. `None` where there is none.
fn temporaries_of(
    alloc: Global,
    tokens: &[Token<'_>],
    offset: usize,
) -> Result<Option<u8>, AllocError> {
    match parse(alloc, tokens) {
        Ok(program) => {
            let number = temporaries_at(&program, offset);
            discard(program);
            Ok(number)
        }
        Err(fault) if fault.number == NO_MEMORY => Err(AllocError),
        Err(_) => Ok(None),
    }
}

/// What is wrong with the expression of a statement or of a print item that begins at a token: it
/// needs so many temporaries, or more where 255 are told.
fn too_large(site: Site<'_, '_>) -> Result<Option<String>, AllocError> {
    match temporaries_of(site.alloc, site.tokens, site.token.position.offset) {
        Ok(Some(number)) => {
            let or_more = if number == u8::MAX { " or more" } else { "" };
            some(format!(in site.alloc;
                "the expression needs {number}{or_more} temporaries; the limit is {MOST_TEMPORARIES}: assign a part to a variable before"
            ))
        }
        Ok(None) => Ok(None),
        Err(refused) => Err(refused),
    }
}

/// What the names of a program are. A function of its own: within its caller the proof is too long.
fn table_of<'a>(alloc: Global, program: &Program<'a>) -> Result<Table, AllocError> {
    let directives: &[Directive<'a>] = &program.directives;
    tabulate(directives, alloc)
}

/// What the names are of the program that some tokens are.
fn names_of<'a>(alloc: Global, tokens: &[Token<'a>]) -> Result<Option<Table>, AllocError> {
    match parse(alloc, tokens) {
        Ok(program) => {
            let table = table_of(alloc, &program);
            discard(program);
            match table {
                Ok(table) => Ok(Some(table)),
                Err(refused) => Err(refused),
            }
        }
        Err(fault) if fault.number == NO_MEMORY => Err(AllocError),
        Err(_) => Ok(None),
    }
}

/// What is wrong at a token, by the number of a rule that asks what names of the program are.
fn by_table(site: Site<'_, '_>, table: &Table, rule: u8) -> Result<Option<String>, AllocError> {
    match rule {
        NO_PROPER_MAIN => no_main(site, table),
        WRONG_KIND => wrong_kind(site, table),
        TOO_MANY_ARGUMENTS => too_many_arguments(site, table),
        NOT_ASSIGNABLE => some(not_assignable(site, table)),
        BAD_ARRAY => bad_array(site, table),
        _ => Ok(None),
    }
}

/// The same, where the names are still to be found.
fn by_names(site: Site<'_, '_>, rule: u8) -> Result<Option<String>, AllocError> {
    match names_of(site.alloc, site.tokens) {
        Ok(Some(table)) => by_table(site, &table, rule),
        Ok(None) => Ok(None),
        Err(refused) => Err(refused),
    }
}

/// What is wrong at a token, by the number of the broken rule.
fn by_rule(site: Site<'_, '_>, rule: u8) -> Result<Option<String>, AllocError> {
    match rule {
        NESTED_TOO_DEEP => some(too_deep(site.alloc, site.token)),
        UNKNOWN_NAME => some(unknown(site)),
        DEFINED_TWICE => defined_twice(site),
        TOO_MANY => too_many(site),
        BREAK_OUTSIDE => some(outside(site)),
        ROUTINE_TOO_LARGE => some(too_heavy(site)),
        BAD_ABBREVIATION => bad_abbreviation(site),
        EXPRESSION_TOO_LARGE => too_large(site),
        _ => by_names(site, rule),
    }
}

/// What is wrong at an offset of tokens of which the one there does not fit (E10). `None` where none
/// begins there.
fn misfit_in(
    alloc: Global,
    source: &[u8],
    tokens: &[Token<'_>],
    offset: usize,
) -> Result<Option<Told>, AllocError>
    requires { EndsOnce (lexemes tokens.now) }
{
    match Site::at_offset(alloc, tokens, offset) {
        Some(site) => misfit_at(alloc, source, tokens, site.at, site.token),
        None => Ok(None),
    }
}

/// What is wrong at an offset of a source, where the token does not fit (E10). `None` where none
/// begins there.
pub fn misfit_of(alloc: Global, source: &[u8], offset: usize) -> Result<Option<Told>, AllocError> {
    match lex(alloc, source) {
        Ok(tokens) => misfit_in(alloc, source, &tokens, offset),
        Err(fault) if fault.number == NO_MEMORY => Err(AllocError),
        Err(_) => Ok(None),
    }
}

/// What is wrong at an offset of a source, by the number of the broken rule: E05, E20 to E29, E32
/// and E33. `None` for another rule, and where no such thing is there.
pub fn at_offset(
    alloc: Global,
    tokens: &[Token<'_>],
    rule: u8,
    offset: usize,
) -> Result<Option<String>, AllocError> {
    match Site::at_offset(alloc, tokens, offset) {
        Some(site) => by_rule(site, rule),
        None => Ok(None),
    }
}
