//! The whole source.

ghost use Rattle.std.specs.Prelude.{◌≡◌, ◌≤◌, ◌+◌, ◌-◌, ◌<◌, ◌==◌, ◌⊎◌, length, slice_index, List, [], ℕ, Err, false};
ghost use Rattle.std.specs.Prelude.{IfOk, IfErr};
ghost use Rattle.syntax_lexer.specs.FaultNumbers.{no_memory};
ghost use Rattle.syntax_lexer.specs.Placed.{nowhere};
ghost use Rattle.syntax_lexer.specs.Bytes.{is_divider};
ghost use Rattle.syntax_lexer.specs.Token.{Lexeme, lexemes};
ghost use Rattle.syntax_lexer.specs.Tokens.{BeginsWith, Lexes, LexesFrom, line_after, EndsOnce, TokenOutcome};
ghost use Rattle.syntax_lexer.specs.Results.{Meets, MeetsUnplaced};
ghost use Rattle.syntax_lexer.specs.Fronts.{PutsToken};

use crate::bytes::{Class, from, front, is_divider, run_length};
use crate::fault::{PlacedFault, SourceFault};
use crate::scan::scan;
use crate::token::{Kind, Position, Token};
use std::alloc::Global;

fn next_line(line: usize, b: u8) -> usize
    requires { line ≤ 9223372036854775808 }
    ensures value { result ≡ line_after line b }
    ensures grows { result ≤ line + 1 }
{
    if b == b'\n' { line + 1 } else { line }
}

// Puts the token at a place where no divider and no comment stands at the end of the row, where it
// is made: it is too wide to be passed on. Returns the offset after it.
fn put_token<'a>(
    source: &'a [u8],
    position: Position,
    tokens: &mut Vec<Token<'a>>,
) -> Result<usize, PlacedFault>
    requires within { position.offset < length source.now }
    requires no_divider { is_divider (slice_index source.now position.offset) ≡ false }
    requires no_comment { (slice_index source.now position.offset == 33) ≡ false }
    ensures puts { IfOk result
        (PutsToken source.now position tokens.old.items tokens.new.items) }
    ensures moves { IfOk result (λ n. (position.offset < n) × (n ≤ length source.now)) }
    ensures broken { IfErr result (λ e. (e ≡ nowhere no_memory)
        ⊎ LexesFrom position.offset position.line source.now (Err e)) }
{
    let rest = from(source, position.offset);
    match scan(rest) {
        Ok((kind, length)) => {
            tokens.push(Token {
                kind,
                text: front(rest, length),
                position,
            })?;
            Ok(position.offset + length)
        }
        Err(fault) => Err(PlacedFault {
            fault: SourceFault {
                number: fault.number(),
                line: position.line,
            },
            offset: Some(position.offset),
        }),
    }
}

// A token in so many bytes is what most sources have, or more of them.
const BYTES_OF_A_TOKEN: usize = 4;

// Room is asked for so many tokens at most before one is read. A token has 56 bytes, so these have
// 131 KiB. glibc gives room of 128 KiB and more as a mapping of its own, which the system moves
// without copying it. So the row doubles from there, without a copy, as its tokens come.
const MOST_AT_FIRST: usize = 2_400;

// No tokens yet, but room for those with which so many bytes are likely to begin, since a smaller row
// is copied where it grows. If that room is refused, the row grows as its tokens come.
fn no_tokens<'a>(alloc: Global, bytes: usize) -> Vec<Token<'a>>
    ensures { result.items ≡ [] }
{
    let mut tokens = Vec::new(alloc);
    let _room = tokens.reserve((bytes / BYTES_OF_A_TOKEN).min(MOST_AT_FIRST));
    tokens
}

/// The tokens of a source, of which the last is its end.
///
/// # Errors
///
/// - E01 to E04: the rule of tokens that is broken at the smallest place, with the line of that
///   place.
/// - E99, with line 0: a growth of memory is refused.
pub fn lex<'a>(alloc: Global, source: &'a [u8]) -> Result<Vec<Token<'a>>, SourceFault>
    ensures meets { MeetsUnplaced result (λ o. Lexes 0 1 source.now o) }
    ensures ends_once { IfOk result (λ v. EndsOnce (lexemes v.items)) }
{
    match lex_placed(alloc, source) {
        Ok(tokens) => Ok(tokens),
        Err(placed) => Err(placed.fault),
    }
}

/// The tokens of a source, as [`lex`] finds them, or the fault with its place.
///
/// # Errors
///
/// Those of [`lex`]. The offset is that of the stray byte, of the opening quote, or of the first byte
/// of the number or name; E99 has none.
pub fn lex_placed<'a>(alloc: Global, source: &'a [u8]) -> Result<Vec<Token<'a>>, PlacedFault>
    ensures meets { Meets result (λ o. Lexes 0 1 source.now o) }
    ensures ends_once { IfOk result (λ v. EndsOnce (lexemes v.items)) }
{
    let mut tokens = no_tokens(alloc, source.len());
    let mut offset = 0;
    let mut line = 1;
    while offset < source.len() {
        let first = source[offset];
        if is_divider(first) {
            line = next_line(line, first);
            offset += 1;
        } else if first == b'!' {
            offset += 1 + run_length(Class::Comment, from(source, offset + 1));
        } else {
            let next = put_token(source, Position { offset, line }, &mut tokens)?;
            offset = next;
        }
    }
    tokens.push(Token {
        kind: Kind::End,
        text: from(source, offset),
        position: Position { offset, line },
    })?;
    // The room in which no token is goes back before a tree is made of them.
    tokens.shrink_to_fit();
    Ok(tokens)
}

/// The length of the token that begins some bytes; 0 where none does, or one that no source may
/// have, as a name of more than 32 bytes.
pub fn token_length(bytes: &[u8]) -> usize
    ensures within { result ≤ length bytes.now }
    ensures longest { (result ≡ 0) ⊎ ((lexeme : Lexeme) × BeginsWith bytes.now lexeme result) }
    ensures each { (lexeme : Lexeme) (n : ℕ) → BeginsWith bytes.now lexeme n → result ≡ n }
{
    if bytes.is_empty() || is_divider(bytes[0]) || bytes[0] == b'!' {
        return 0;
    }
    match scan(bytes) {
        Ok((_, length)) => length,
        Err(_) => 0,
    }
}

/// Each source has one outcome.
pub fn one_outcome()
    ensures { (bytes : List ℕ) (o q : TokenOutcome)
        → Lexes 0 1 bytes o → Lexes 0 1 bytes q → o ≡ q }
{}
