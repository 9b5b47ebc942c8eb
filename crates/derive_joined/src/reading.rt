//! The parts of a file.

ghost use Rattle.std.specs.Prelude.{◌≡◌, ◌⊎◌, ◌++◌, Err, IfErr, IfOk, OnOk};
ghost use Rattle.syntax_lexer.specs.FaultNumbers.{no_memory};
ghost use Rattle.syntax_lexer.specs.Placed.{nowhere};
ghost use Rattle.syntax_lexer.specs.Results.{source_token, source_tokens};
ghost use Rattle.syntax_lexer.specs.Token.{lexeme};
ghost use Rattle.syntax_lexer.specs.Tokens.{Lexes};
ghost use Rattle.derive_joined.specs.Held.{state_of, Takes};
ghost use Rattle.derive_joined.specs.Included.{HasParts};
ghost use Rattle.derive_joined.specs.Parts as spec;

use crate::inclusion::{Mode, Role};
use crate::part::{Part, Run};
use std::alloc::{AllocError, Global};
use syntax_lexer::{Kind, PlacedFault, Sign, Token, lex_placed};

/// How `Include` is spelled, in small letters or in capitals.
const INCLUDE: &[u8] = b"include";

/// A file that is read up to a token.
#[derive(Drop)]
pub struct Reader {
    /// The number of the file.
    pub file: usize,

    /// Where the bytes begin that are in no part yet.
    pub at: usize,

    /// Where the next token stands.
    pub mode: Mode,

    /// The parts up to these bytes.
    pub parts: Vec<Part>,
}

// What a token is to a reader of directives.
#[inline(always)]
fn role(token: Token<'_>) -> Role
    ensures { result ≡ spec.role (lexeme token.entry) }
{
    match token.kind {
        Kind::Name(name) if name.eq_ignore_ascii_case(INCLUDE) => Role::Include,
        Kind::Text(_) => Role::Text,
        Kind::Sign(Sign::Semicolon) => Role::Semicolon,
        Kind::Sign(Sign::OpenBracket) => Role::Open,
        Kind::Sign(Sign::CloseBracket) => Role::Close,
        _ => Role::Other,
    }
}

// What follows a token outside of routines that is no part of an Include directive.
#[inline(always)]
fn after(role: Role) -> Mode
    ensures { result ≡ spec.after role }
{
    match role {
        Role::Semicolon => Mode::Start,
        Role::Open => Mode::Routine,
        _ => Mode::Directive,
    }
}

// What follows a token of a routine.
#[inline(always)]
fn after_inside(role: Role) -> Mode
    ensures { result ≡ spec.after_inside role }
{
    match role {
        Role::Close => Mode::Directive,
        _ => Mode::Routine,
    }
}

impl Reader {
    // Where the token after this one stands, which is this to a reader of directives.
    fn mode_after(&self, token: Token<'_>, role: Role) -> Mode
        ensures { result
            ≡ spec.mode_after self.now.file self.now.mode (source_token token.entry) role }
    {
        match (self.mode, role) {
            (Mode::Start | Mode::Behind, Role::Include) => Mode::Include(token.position.offset),
            (Mode::Include(at), Role::Text) => Mode::Named(
                at,
                Run {
                    file: self.file,
                    begin: token.position.offset,
                    length: token.text.len(),
                },
            ),
            (Mode::Named(..), Role::Semicolon) => Mode::Behind,
            (Mode::Routine, _) => after_inside(role),
            _ => after(role),
        }
    }

    // The bytes from where they are in no part up to an offset.
    fn run_to(&self, end: usize) -> Run
        ensures { result ≡ spec.run_to self.now.file self.now.at end }
    {
        Run {
            file: self.file,
            begin: self.at,
            length: end.saturating_sub(self.at),
        }
    }

    // Puts the parts that end with a token which is this to a reader of directives.
    fn put_parts(&mut self, role: Role) -> Result<(), AllocError>
        ensures parts { OnOk result (self.new.parts.items
            ≡ self.old.parts.items ++ spec.parts_at (state_of self.old) role) }
        ensures file { self.new.file ≡ self.old.file }
        ensures at { self.new.at ≡ self.old.at }
        ensures mode { self.new.mode ≡ self.old.mode }
    {
        match (self.mode, role) {
            (Mode::Named(begin, name), Role::Semicolon) => {
                let run = self.run_to(begin);
                self.parts.push(Part::Bytes(run))?;
                self.parts.push(Part::Asked(name))?;
                Ok(())
            }
            _ => Ok(()),
        }
    }

    // Reads one token more, which may be of an Include directive or behind one.
    #[inline(never)]
    fn take_part(&mut self, token: Token<'_>) -> Result<(), AllocError>
        ensures { OnOk result (Takes self.old self.new (source_token token.entry)) }
    {
        let role = role(token);
        self.put_parts(role)?;
        if matches!(self.mode, Mode::Behind) {
            self.at = token.position.offset;
        }
        self.mode = self.mode_after(token, role);
        Ok(())
    }

    // Reads one token more.
    #[inline(always)]
    fn take(&mut self, token: Token<'_>) -> Result<(), AllocError>
        ensures { OnOk result (Takes self.old self.new (source_token token.entry)) }
    {
        match self.mode {
            Mode::Routine => {
                self.mode = after_inside(role(token));
                Ok(())
            }
            Mode::Directive => {
                self.mode = after(role(token));
                Ok(())
            }
            _ => self.take_part(token),
        }
    }
}

// The parts of the file of a number, which has these tokens and so many bytes.
fn parts_in(
    alloc: Global,
    file: usize,
    length: usize,
    tokens: &[Token<'_>],
) -> Result<Vec<Part>, AllocError>
    ensures { IfOk result (λ parts. parts.items
        ≡ spec.parts_of file length (source_tokens tokens.now)) }
{
    let mut reader = Reader {
        file,
        at: 0,
        mode: Mode::Start,
        parts: Vec::new(alloc),
    };
    for token in tokens {
        reader.take(*token)?;
    }
    let last = reader.run_to(length);
    reader.parts.push(Part::Bytes(last))?;
    Ok(reader.parts)
}

/// The parts of a file, by its text with its texts on one line each. It gets this number.
///
/// # Errors
///
/// Those of the lexer.
pub fn parts_of(alloc: Global, file: usize, text: &[u8]) -> Result<Vec<Part>, PlacedFault>
    ensures parts { IfOk result (λ parts. HasParts file text.now parts.items) }
    ensures broken { IfErr result (λ fault. (fault ≡ nowhere no_memory) ⊎ Lexes 0 1 text.now (Err fault)) }
{
    match lex_placed(alloc, text) {
        Ok(tokens) => {
            let parts = parts_in(alloc, file, text.len(), &tokens)?;
            Ok(parts)
        }
        Err(fault) => Err(fault),
    }
}
