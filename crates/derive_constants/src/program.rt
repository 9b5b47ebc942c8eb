//! The pass: directives, and the program.

ghost use Rattle.std.specs.Prelude.{◌≡◌, ◌++◌, IfOk, OnOk, map, codes};
ghost use Rattle.syntax_lexer.specs.Token.{head, tail, lexeme, lexemes};
ghost use Rattle.derive_tokens.specs.Pieces.{derived_all};
ghost use Rattle.derive_tokens.specs.Tokens as tokens_spec;
ghost use Rattle.derive_tokens.specs.Tokens.{name_in};
ghost use Rattle.derive_constants.specs.Constants as spec;
ghost use Rattle.derive_constants.specs.Cutting.{directives};
ghost use Rattle.derive_constants.specs.Held.{known_of, buffer_of, constant_found, parts_found};
ghost use Rattle.derive_constants.specs.Values.{nothing_known};

use crate::buffer::{Buffer, buffer_in, put_buffer, put_starts};
use crate::constant::{Constant, Known};
use crate::cutting::{after, first_directive, is_sign, is_word};
use crate::entries::put_entries;
use crate::parts::{Parts, computed, number_in, put_parts};
use crate::putting::{put_token, put_tokens};
use derive_tokens::{Piece, is_named};
use std::alloc::{AllocError, Global};
use syntax_lexer::{Kind, Sign, Token, Word};

// A name and its number, if it has one.
fn named_number<'a>(name: Token<'a>, value: Option<u16>) -> Option<Constant<'a>>
    ensures { constant_found result ≡ spec.named_number (name_in (lexeme name.entry)) value }
{
    match name.kind {
        Kind::Name(bytes) => match value {
            Some(value) => Some(Constant { name: bytes, value }),
            None => None,
        },
        _ => None,
    }
}

// The constant that a directive of these parts defines.
fn constant_in<'a>(
    alloc: Global,
    known: &Known,
    parts: Option<Parts<'_, 'a>>,
) -> Result<Option<Constant<'a>>, AllocError>
    ensures { IfOk result (λ constant. constant_found constant
        ≡ spec.constant_in (known_of known.now) (parts_found parts.entry)) }
{
    match parts {
        None => Ok(None),
        Some(parts) => {
            if is_word(parts.first, Word::Constant) {
                let value = number_in(alloc, known, parts.values)?;
                Ok(named_number(parts.name, value))
            } else {
                Ok(None)
            }
        }
    }
}

// The constant that a directive defines is known after it.
fn learn<'a>(known: &mut Known, alloc: Global, directive: &[Token<'a>]) -> Result<(), AllocError>
    ensures { OnOk result (known_of known.new
        ≡ spec.known_after (known_of known.old) (lexemes directive.now)) }
{
    match constant_in(alloc, known, computed(directive))? {
        None => Ok(()),
        Some(constant) => {
            let name = constant.name.to_ascii_lowercase(alloc)?;
            known.add(name, constant.value)?;
            Ok(())
        }
    }
}

// The buffers of a program.
fn buffers<'a>(alloc: Global, tokens: &[Token<'a>]) -> Result<Vec<Buffer<'a>>, AllocError>
    ensures { IfOk result (λ found. map buffer_of found.items
        ≡ spec.buffers_from nothing_known (directives (lexemes tokens.now))) }
{
    let mut found = Vec::new(alloc);
    let mut known = Known::new(alloc);
    let mut rest = tokens;
    while !rest.is_empty() {
        let directive = first_directive(rest);
        if let Some(buffer) = buffer_in(alloc, &known, directive)? {
            found.push(buffer)?;
        }
        learn(&mut known, alloc, directive)?;
        rest = after(rest, directive.len());
    }
    Ok(found)
}

// A routine that is Main, with what sets the buffers after its head.
fn put_main<'a>(
    out: &mut Vec<Piece<'a>>,
    buffers: &[Buffer<'a>],
    directive: &[Token<'a>],
) -> Result<(), AllocError>
    ensures { OnOk result (derived_all out.new.items ≡ derived_all out.old.items
        ++ spec.after_first_semicolon (spec.starts (map buffer_of buffers.now))
        (lexemes directive.now)) }
{
    for (at, token) in directive.iter().enumerate() {
        put_token(out, *token)?;
        if is_sign(*token, Sign::Semicolon) {
            put_starts(out, buffers, token.position)?;
            return put_tokens(out, after(directive, at + 1));
        }
    }
    Ok(())
}

// Whether the second token of a routine is `Main`.
fn is_main(directive: &[Token<'_>]) -> bool
    ensures { result ≡ tokens_spec.is_named (codes "Main") (head (tail (lexemes directive.now))) }
{
    match directive {
        [_, name, ..] => is_named(name.kind, b"Main"),
        _ => false,
    }
}

// A directive, whether or not it is a buffer, and whether or not it computes.
fn put_other<'a>(
    out: &mut Vec<Piece<'a>>,
    known: &Known,
    directive: &[Token<'a>],
) -> Result<(), AllocError>
    ensures { OnOk result (derived_all out.new.items ≡ derived_all out.old.items
        ++ spec.other (known_of known.now) (lexemes directive.now)
        (spec.buffer_in (known_of known.now) (lexemes directive.now))
        (spec.computed (lexemes directive.now))) }
{
    let alloc = *out.allocator();
    if let Some(buffer) = buffer_in(alloc, known, directive)? {
        return put_buffer(out, directive, buffer);
    }
    match computed(directive) {
        Some(parts) => put_parts(out, known, parts),
        None => put_entries(out, known, directive),
    }
}

fn put_directive<'a>(
    out: &mut Vec<Piece<'a>>,
    known: &Known,
    buffers: &[Buffer<'a>],
    directive: &[Token<'a>],
) -> Result<(), AllocError>
    ensures { OnOk result (derived_all out.new.items ≡ derived_all out.old.items
        ++ spec.directive (spec.starts (map buffer_of buffers.now)) (known_of known.now)
        (lexemes directive.now)) }
{
    match directive {
        [first, ..] if is_sign(*first, Sign::OpenBracket) => {
            if is_main(directive) {
                put_main(out, buffers, directive)
            } else {
                put_tokens(out, directive)
            }
        }
        _ => put_other(out, known, directive),
    }
}

/// The tokens of a program whose computed constants are numbers.
///
/// # Errors
///
/// `AllocError` where memory is refused.
pub fn constants<'a>(alloc: Global, tokens: &[Token<'a>]) -> Result<Vec<Piece<'a>>, AllocError>
    ensures { IfOk result (λ out. derived_all out.items ≡ spec.constants (lexemes tokens.now)) }
{
    let buffers = buffers(alloc, tokens)?;
    let mut out = Vec::new(alloc);
    let mut known = Known::new(alloc);
    let mut rest = tokens;
    while !rest.is_empty() {
        let directive = first_directive(rest);
        put_directive(&mut out, &known, &buffers, directive)?;
        learn(&mut known, alloc, directive)?;
        rest = after(rest, directive.len());
    }
    Ok(out)
}
