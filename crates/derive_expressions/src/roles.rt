//! What a token is to the primaries of a statement.

ghost use Rattle.std.specs.Prelude.{◌≡◌, ◌≤◌, ◌<◌, ◌+◌, ◌^◌, is_some, option_copied, IfOk, OnOk};
ghost use Rattle.derive_tokens.specs.Pieces.{derived, derived_all};
ghost use Rattle.derive_tokens.specs.Names.{small_name};
ghost use Rattle.derive_values.specs.Places.{opened_within};
ghost use Rattle.derive_values.specs.Views.{reading_of};
ghost use Rattle.derive_statements.specs.Views.{file_names};
ghost use Rattle.derive_expressions.specs.Roles as spec;
ghost use Rattle.derive_expressions.specs.Views.{calling_of};

use derive_statements::{FileNames, is_before_header};
use derive_tokens::{Piece, is_name, is_sign, is_word, small_name_in};
use derive_values::{Place, Reading, Scope, is_next};
use std::alloc::{AllocError, Global};
use syntax_lexer::{Sign, Word};

/// What a token is to the primaries of a statement.
#[derive(Clone, Copy)]
pub enum Role {
    /// A primary may begin with it.
    Operand,

    /// A bracket after what is called plainly.
    Callee,

    /// A primary is before it.
    Follows,

    /// The name of a property, after a dot.
    Dotted,

    /// The bracket of a message.
    Sent,

    /// In the bracket of a rule, as `(char)`.
    Cast,

    /// The end of that bracket.
    CastEnd,
}

// The routine that is made for a function which is no routine of a source.
fn made_routine(name: &[u8]) -> Option<&'static [u8]>
    ensures { option_copied result ≡ spec.routine_in spec.functions name.now }
{
    if name == b"random".as_slice() {
        Some(b"x__random")
    } else if name == b"indirect".as_slice() {
        Some(b"x__call")
    } else if name == b"children".as_slice() {
        Some(b"x__children")
    } else if name == b"youngest".as_slice() {
        Some(b"x__youngest")
    } else if name == b"eldest".as_slice() {
        Some(b"x__eldest")
    } else if name == b"younger".as_slice() {
        Some(b"x__younger")
    } else if name == b"elder".as_slice() {
        Some(b"x__elder")
    } else {
        None
    }
}

// A name, in small letters, that only passes make.
#[inline(always)]
fn is_own_name(name: &[u8]) -> bool
    ensures { result ≡ spec.is_own_name name.now }
{
    name.starts_with(b"x__")
}

/// The routine that is made for a function, in small letters, which the source does not define as
/// something else.
#[tactic(auto, using(crate::proofs::Tests::none_made))]
pub fn routine_of(names: &FileNames, reading: &Reading, name: &[u8]) -> Option<&'static [u8]>
    ensures { option_copied result
        ≡ spec.routine_of (file_names names.now) (reading_of reading.now) name.now }
{
    match made_routine(name) {
        None => None,
        Some(routine) => {
            if names.defines(&reading.own, name) {
                None
            } else {
                Some(routine)
            }
        }
    }
}

// Whether a routine is made.
#[inline(always)]
fn is_made(routine: Option<&'static [u8]>) -> bool
    ensures { result ≡ is_some (option_copied routine.entry) }
{
    match routine {
        Some(_) => true,
        None => false,
    }
}

#[tactic(auto, using(crate::proofs::Tests::called_if))]
fn is_called(names: &FileNames, reading: &Reading, name: &[u8]) -> bool
    ensures { result
        ≡ spec.is_called (file_names names.now) (reading_of reading.now) name.now }
{
    is_own_name(name)
        || (!reading.own.has(name)
            && (names.routines.has(name)
                || (is_made(made_routine(name)) && !names.others.has(name))))
}

/// Whether a token is one of `parent`, `child` and `sibling`.
#[inline(always)]
pub fn is_kin(piece: Piece<'_>) -> bool
    ensures { result ≡ spec.is_kin (derived piece.entry) }
{
    is_word(piece, Word::Parent) || (is_word(piece, Word::Child) || is_word(piece, Word::Sibling))
}

// Whether a name is called plainly, before a bracket.
#[inline(never)]
fn is_called_by(
    alloc: Global,
    names: &FileNames,
    reading: &Reading,
    piece: Piece<'_>,
) -> Result<bool, AllocError>
    ensures { IfOk result (λ called. called ≡ spec.is_called (file_names names.now)
        (reading_of reading.now) (small_name (derived piece.entry))) }
{
    let name = small_name_in(alloc, piece)?;
    Ok(is_called(names, reading, name.bytes()))
}

// Whether a name is called plainly, before these tokens.
#[inline(always)]
fn is_named_callee(
    alloc: Global,
    names: &FileNames,
    reading: &Reading,
    piece: Piece<'_>,
    rest: &[Piece<'_>],
) -> Result<bool, AllocError>
    ensures { IfOk result (λ called. called ≡ spec.is_named_callee (file_names names.now)
        (reading_of reading.now) (derived piece.entry) (derived_all rest.now)) }
{
    if is_next(rest, Sign::OpenParenthesis) {
        is_called_by(alloc, names, reading, piece)
    } else {
        Ok(false)
    }
}

/// Whether a token begins a primary with the bracket of a call directly after it.
///
/// # Errors
///
/// `AllocError` where memory is refused.
#[inline(always)]
pub fn is_callee(
    alloc: Global,
    names: &FileNames,
    reading: &Reading,
    piece: Piece<'_>,
    rest: &[Piece<'_>],
) -> Result<bool, AllocError>
    ensures { IfOk result (λ called. called ≡ spec.is_callee (file_names names.now)
        (reading_of reading.now) (derived piece.entry) (derived_all rest.now)) }
{
    if is_name(piece) {
        is_named_callee(alloc, names, reading, piece, rest)
    } else {
        Ok(is_kin(piece))
    }
}

/// Whether the first token is a word with which a rule is written in brackets, as `char`.
#[inline(always)]
pub fn is_cast(rest: &[Piece<'_>]) -> bool
    ensures { result ≡ spec.is_cast (derived_all rest.now) }
{
    match rest {
        [] => false,
        [first, ..] => is_word(*first, Word::Char) || is_word(*first, Word::Object),
    }
}

// The role of what follows a sign.
#[inline(always)]
fn role_signed(piece: Piece<'_>, rest: &[Piece<'_>]) -> Role
    ensures { result ≡ spec.role_signed (derived piece.entry) (derived_all rest.now) }
{
    if is_sign(piece, Sign::CloseParenthesis) {
        Role::Follows
    } else if is_sign(piece, Sign::Dot)
        || (is_sign(piece, Sign::DotAmpersand) || is_sign(piece, Sign::DotHash))
    {
        Role::Dotted
    } else if is_sign(piece, Sign::OpenParenthesis) && is_cast(rest) {
        Role::Cast
    } else {
        Role::Operand
    }
}

// The role of what follows a token.
#[inline(always)]
fn role_on(
    alloc: Global,
    names: &FileNames,
    reading: &Reading,
    piece: Piece<'_>,
    rest: &[Piece<'_>],
) -> Result<Role, AllocError>
    ensures { IfOk result (λ role. role ≡ spec.role_on (file_names names.now)
        (reading_of reading.now) (derived piece.entry) (derived_all rest.now)) }
{
    let called = is_callee(alloc, names, reading, piece, rest)?;
    if called {
        Ok(Role::Callee)
    } else if is_name(piece) {
        Ok(Role::Follows)
    } else {
        Ok(role_signed(piece, rest))
    }
}

/// Whether a token is the name of a property to which a message is sent.
#[inline(always)]
pub fn is_sent(piece: Piece<'_>, rest: &[Piece<'_>]) -> bool
    ensures { result ≡ spec.is_sent (derived piece.entry) (derived_all rest.now) }
{
    is_name(piece) && is_next(rest, Sign::OpenParenthesis)
}

// The role of a property after a dot, or else of what follows it.
#[inline(always)]
fn role_after(
    alloc: Global,
    names: &FileNames,
    calling: &Calling,
    piece: Piece<'_>,
    rest: &[Piece<'_>],
) -> Result<Role, AllocError>
    ensures { IfOk result (λ role. role ≡ spec.role_after (file_names names.now)
        (reading_of calling.now.reading) (spec.role_now (calling_of calling.now))
        (derived piece.entry) (derived_all rest.now)) }
{
    match calling.role_now() {
        Role::Cast => Ok(Role::CastEnd),
        Role::CastEnd => Ok(Role::Operand),
        Role::Dotted => {
            if is_sent(piece, rest) {
                Ok(Role::Sent)
            } else {
                Ok(Role::Follows)
            }
        }
        Role::Operand | Role::Callee | Role::Follows | Role::Sent => {
            role_on(alloc, names, &calling.reading, piece, rest)
        }
    }
}

/// Whether a token is in the statements of a routine.
#[inline(always)]
pub fn is_in_body(scope: Scope) -> bool
    ensures { result ≡ spec.is_in_body scope }
{
    match scope {
        Scope::Body(_) => true,
        _ => false,
    }
}

// Whether a statement or an item begins.
#[inline(always)]
fn begins_part(scope: Scope) -> bool
    ensures { result ≡ spec.begins_part scope }
{
    match scope {
        Scope::Body(Place::Statement | Place::Item) => true,
        _ => false,
    }
}

// The role of a token in a place.
#[inline(always)]
fn role_in(scope: Scope, role: Role) -> Role
    ensures { result ≡ spec.role_in scope role }
{
    if begins_part(scope) {
        Role::Operand
    } else if is_before_header(scope) {
        Role::Callee
    } else {
        role
    }
}

/// What is read, and the role of the token that comes next, if it is in a statement.
#[derive(Drop)]
pub struct Calling {
    pub reading: Reading,
    pub role: Role,
}

impl Calling {
    /// Nothing is read yet.
    pub fn new(alloc: Global) -> Calling
        ensures value { calling_of result ≡ spec.uncalled }
        ensures none { opened_within result.reading.scope ≡ 0 }
    {
        Calling {
            reading: Reading::new(alloc),
            role: Role::Operand,
        }
    }

    /// The role of the token that comes next.
    #[inline(always)]
    pub fn role_now(&self) -> Role
        ensures { result ≡ spec.role_now (calling_of self.now) }
    {
        role_in(self.reading.scope, self.role)
    }

    // The role after a token.
    #[inline(always)]
    fn next_role(
        &self,
        alloc: Global,
        names: &FileNames,
        piece: Piece<'_>,
        rest: &[Piece<'_>],
    ) -> Result<Role, AllocError>
        ensures { IfOk result (λ role. role ≡ spec.next_role (file_names names.now)
            (calling_of self.now) (derived piece.entry) (derived_all rest.now)) }
    {
        if is_in_body(self.reading.scope) {
            role_after(alloc, names, self, piece, rest)
        } else {
            Ok(Role::Operand)
        }
    }

    /// One token more.
    ///
    /// # Errors
    ///
    /// `AllocError` where memory is refused.
    #[inline(always)]
    pub fn step(
        &mut self,
        alloc: Global,
        names: &FileNames,
        piece: Piece<'_>,
        rest: &[Piece<'_>],
    ) -> Result<(), AllocError>
        requires { opened_within self.old.reading.scope + 1 < 2 ^ 64 }
        ensures value { OnOk result (calling_of self.new ≡ spec.calling_after (file_names names.now)
            (calling_of self.old) (derived piece.entry) (derived_all rest.now)) }
        ensures grows { OnOk result (opened_within self.new.reading.scope
            ≤ opened_within self.old.reading.scope + 1) }
    {
        self.role = self.next_role(alloc, names, piece, rest)?;
        self.reading.step(alloc, piece)?;
        Ok(())
    }
}
