//! One token after another.

ghost use Rattle.std.specs.Prelude.{◌≡◌, ◌∷◌, Ok, reverse, true, IfOk, OnOk};
ghost use Rattle.syntax_lexer.specs.Token.{lexeme, lexemes};
ghost use Rattle.derive_branches.specs.declared.branch.Branch.{Branch};
ghost use Rattle.derive_branches.specs.Branches as spec;
ghost use Rattle.derive_branches.specs.Held.{Steps, state_of};

use crate::branch::{Branch, Directive, Mode};
use crate::conditions::condition;
use crate::kept::Kept;
use crate::tokens::{is_named, is_sign, name_in};
use derive_tokens::{is_same_name, refused};
use std::alloc::{AllocError, Global};
use syntax_lexer::{Kind, NOT_IN_GRAMMAR, PlacedFault, Position, Sign, Token};

/// A source that is read up to a token.
#[derive(Drop)]
pub struct Brancher<'a> {
    pub kept: Kept<'a>,

    /// The branches that are open, the innermost at the end.
    pub branches: Vec<Branch>,

    pub mode: Mode,

    /// The tokens of a condition so far.
    pub asked: Vec<Token<'a>>,
}

// The directive that a name is.
#[inline(never)]
fn directive_called(token: Token<'_>) -> Option<Directive>
    ensures { result ≡ spec.directive_of (lexeme token.entry) }
{
    if is_named(token, b"ifdef") {
        Some(Directive::If(Mode::Name(true)))
    } else if is_named(token, b"ifndef") {
        Some(Directive::If(Mode::Name(false)))
    } else if is_named(token, b"iftrue") {
        Some(Directive::If(Mode::Condition(true)))
    } else if is_named(token, b"iffalse") {
        Some(Directive::If(Mode::Condition(false)))
    } else if is_named(token, b"ifnot") {
        Some(Directive::Ifnot)
    } else if is_named(token, b"endif") {
        Some(Directive::Endif)
    } else {
        None
    }
}

// The directive that a token is.
#[inline(always)]
fn directive_of(token: Token<'_>) -> Option<Directive>
    ensures { result ≡ spec.directive_of (lexeme token.entry) }
{
    match token.kind {
        Kind::Name(_) => directive_called(token),
        _ => None,
    }
}

// The two constants that no source defines.
#[inline(never)]
fn constant_of(name: &[u8]) -> Option<u16>
    ensures { result ≡ spec.constant_of name.now }
{
    if is_same_name(name, b"wordsize") {
        Some(2)
    } else if is_same_name(name, b"target_zcode") {
        Some(0)
    } else {
        None
    }
}

// A token, or the number of the constant that it names.
#[inline(always)]
fn valued<'a>(token: Token<'a>) -> Token<'a>
    ensures { lexeme result ≡ spec.valued (lexeme token.entry) }
{
    match token.kind {
        Kind::Name(name) => match constant_of(name) {
            None => token,
            Some(value) => Token {
                kind: Kind::Number(value),
                text: token.text,
                position: token.position,
            },
        },
        _ => token,
    }
}

// Whether tokens are kept in a branch.
fn keeps_in(branch: Branch) -> bool
    ensures { result ≡ spec.keeps_in branch }
{
    match branch {
        Branch::First | Branch::Second => true,
        Branch::Waiting | Branch::Done | Branch::Within => false,
    }
}

// What an open branch is after `Ifnot`: none has two.
fn turned(branch: Branch) -> Option<Branch>
    ensures { result ≡ spec.turned branch }
{
    match branch {
        Branch::First => Some(Branch::Done),
        Branch::Waiting => Some(Branch::Second),
        Branch::Within => Some(Branch::Within),
        Branch::Second | Branch::Done => None,
    }
}

// Whether the condition is as it is wanted.
fn branch_for(wanted: bool, holds: bool) -> Branch
    ensures { result ≡ spec.branch_for wanted holds }
{
    match (wanted, holds) {
        (true, true) | (false, false) => Branch::First,
        _ => Branch::Waiting,
    }
}

// Where what is asked begins, before a `;`.
#[tactic(auto, using(derive_constants::proofs::Rows::position_is))]
fn asked_at(asked: &[Token<'_>], token: Token<'_>) -> Position
    ensures { result ≡ spec.asked_at (lexemes asked.now) (lexeme token.entry) }
{
    match asked {
        [] => token.position,
        [first, ..] => first.position,
    }
}

// Whether a token is the end of the source.
#[inline(always)]
fn is_end(token: Token<'_>) -> bool
    ensures { result ≡ spec.is_end (lexeme token.entry) }
{
    match token.kind {
        Kind::End => true,
        _ => false,
    }
}

impl<'a> Brancher<'a> {
    /// Nothing is read yet, and there is room for so many tokens.
    ///
    /// # Errors
    ///
    /// `AllocError` where memory is refused.
    pub fn new(alloc: Global, room: usize) -> Result<Brancher<'a>, AllocError>
        ensures { IfOk result (λ brancher. state_of brancher ≡ spec.start) }
    {
        Ok(Brancher {
            kept: Kept::new(alloc, room)?,
            branches: Vec::new(alloc),
            mode: Mode::Tokens,
            asked: Vec::new(alloc),
        })
    }

    // Whether tokens are kept in the innermost branch.
    #[inline(always)]
    fn is_kept(&self) -> bool
        ensures { result ≡ spec.is_kept (reverse self.now.branches.items) }
    {
        match self.branches.last() {
            None => true,
            Some(branch) => keeps_in(*branch),
        }
    }

    // Whether the source may end.
    #[inline(always)]
    fn is_whole(&self) -> bool
        ensures { result ≡ spec.is_whole self.now.mode (reverse self.now.branches.items) }
    {
        match self.mode {
            Mode::Tokens => match self.branches.last() {
                None => true,
                Some(_) => false,
            },
            Mode::Name(_) | Mode::Condition(_) | Mode::Semicolon => false,
        }
    }

    // What is read next.
    fn set_mode(&mut self, mode: Mode)
        ensures { state_of self.new ≡ spec.with_branches (state_of self.old)
            (reverse self.old.branches.items) mode }
    {
        self.asked.clear();
        self.mode = mode;
    }

    // A branch begins, in which this is read.
    fn open(&mut self, branch: Branch, mode: Mode) -> Result<(), AllocError>
        ensures { OnOk result (state_of self.new ≡ spec.with_branches (state_of self.old)
            (branch ∷ reverse self.old.branches.items) mode) }
    {
        self.branches.push(branch)?;
        self.set_mode(mode);
        Ok(())
    }

    // In what is left out, nothing is asked.
    #[inline(never)]
    fn ask(&mut self, mode: Mode) -> Result<(), AllocError>
        ensures { OnOk result (state_of self.new ≡ spec.asks (state_of self.old) mode) }
    {
        if self.is_kept() {
            self.set_mode(mode);
            Ok(())
        } else {
            self.open(Branch::Within, Mode::Tokens)
        }
    }

    // `Ifnot` at a place.
    #[inline(never)]
    fn turn(&mut self, position: Position) -> Result<(), PlacedFault>
        ensures { Steps result self.new (spec.turns (state_of self.old) position
            (reverse self.old.branches.items)) }
    {
        match self.branches.pop() {
            None => Err(refused(NOT_IN_GRAMMAR, position)),
            Some(branch) => match turned(branch) {
                None => Err(refused(NOT_IN_GRAMMAR, position)),
                Some(branch) => {
                    self.open(branch, Mode::Semicolon)?;
                    Ok(())
                }
            },
        }
    }

    // `Endif` at a place.
    #[inline(never)]
    fn close(&mut self, position: Position) -> Result<(), PlacedFault>
        ensures { Steps result self.new (spec.closes (state_of self.old) position
            (reverse self.old.branches.items)) }
    {
        match self.branches.pop() {
            None => Err(refused(NOT_IN_GRAMMAR, position)),
            Some(_) => {
                self.set_mode(Mode::Semicolon);
                Ok(())
            }
        }
    }

    /// A token is kept.
    #[inline(always)]
    pub fn keep(&mut self, alloc: Global, token: Token<'a>) -> Result<(), AllocError>
        ensures { OnOk result (state_of self.new
            ≡ spec.keeps (state_of self.old) (lexeme token.entry)) }
    {
        self.kept.keep(alloc, valued(token))
    }

    // A token of the program.
    #[inline(always)]
    #[tactic(auto, using(derive_constants::proofs::Rows::position_is))]
    fn read_token(&mut self, alloc: Global, token: Token<'a>) -> Result<(), PlacedFault>
        ensures { Steps result self.new (spec.directive_or_token (state_of self.old)
            (lexeme token.entry) (spec.directive_of (lexeme token.entry))) }
    {
        match directive_of(token) {
            Some(Directive::If(mode)) => {
                self.ask(mode)?;
                Ok(())
            }
            Some(Directive::Ifnot) => self.turn(token.position),
            Some(Directive::Endif) => self.close(token.position),
            None => {
                if self.is_kept() {
                    self.keep(alloc, token)?;
                    Ok(())
                } else {
                    Ok(())
                }
            }
        }
    }

    // The name of `Ifdef` or `Ifndef`.
    #[inline(never)]
    #[tactic(auto, using(derive_constants::proofs::Rows::position_is))]
    fn read_name(
        &mut self,
        alloc: Global,
        wanted: bool,
        token: Token<'a>,
    ) -> Result<(), PlacedFault>
        ensures { Steps result self.new (spec.in_mode (Mode.Name wanted) (state_of self.old)
            (lexeme token.entry)) }
    {
        match name_in(token) {
            None => Err(refused(NOT_IN_GRAMMAR, token.position)),
            Some(name) => {
                let defined = self.kept.defines(alloc, name)?;
                self.open(branch_for(wanted, defined), Mode::Semicolon)?;
                Ok(())
            }
        }
    }

    // A token of the condition of `Iftrue` or `Iffalse`, or the `;` after it.
    #[inline(never)]
    fn read_condition(
        &mut self,
        alloc: Global,
        wanted: bool,
        token: Token<'a>,
    ) -> Result<(), PlacedFault>
        ensures { Steps result self.new (spec.asking (state_of self.old) wanted
            (lexeme token.entry)) }
    {
        if !is_sign(token, Sign::Semicolon) {
            self.asked.push(valued(token))?;
            return Ok(());
        }
        let position = asked_at(&self.asked, token);
        match condition(alloc, &self.kept.known, &self.asked)? {
            None => Err(refused(NOT_IN_GRAMMAR, position)),
            Some(holds) => {
                self.open(branch_for(wanted, holds), Mode::Tokens)?;
                Ok(())
            }
        }
    }

    // The `;` of a directive.
    #[inline(never)]
    #[tactic(auto, using(derive_constants::proofs::Rows::position_is))]
    fn read_semicolon(&mut self, token: Token<'a>) -> Result<(), PlacedFault>
        ensures { Steps result self.new (spec.closed (state_of self.old) (lexeme token.entry)) }
    {
        if is_sign(token, Sign::Semicolon) {
            self.set_mode(Mode::Tokens);
            Ok(())
        } else {
            Err(refused(NOT_IN_GRAMMAR, token.position))
        }
    }

    // A token before the end.
    #[inline(always)]
    fn read_in_mode(&mut self, alloc: Global, token: Token<'a>) -> Result<(), PlacedFault>
        ensures { Steps result self.new (spec.in_mode self.old.mode (state_of self.old)
            (lexeme token.entry)) }
    {
        match self.mode {
            Mode::Tokens => self.read_token(alloc, token),
            Mode::Name(wanted) => self.read_name(alloc, wanted, token),
            Mode::Condition(wanted) => self.read_condition(alloc, wanted, token),
            Mode::Semicolon => self.read_semicolon(token),
        }
    }

    // The end of the source, at which no branch is open.
    #[inline(never)]
    #[tactic(auto, using(derive_constants::proofs::Rows::position_is))]
    fn read_end(&mut self, alloc: Global, token: Token<'a>) -> Result<(), PlacedFault>
        ensures { Steps result self.new (spec.at_end (state_of self.old) (lexeme token.entry)) }
    {
        if self.is_whole() {
            self.keep(alloc, token)?;
            Ok(())
        } else {
            Err(refused(NOT_IN_GRAMMAR, token.position))
        }
    }

    /// Whether a token is kept as it is: it is no name and not the end, and no branch is open.
    #[inline(always)]
    #[tactic(auto, using(crate::proofs::Steps::plainly))]
    pub fn is_plain(&self, token: Token<'a>) -> bool
        ensures { result ≡ true → spec.step (state_of self.now) (lexeme token.entry)
            ≡ Ok (spec.keeps (state_of self.now) (lexeme token.entry)) }
    {
        match token.kind {
            Kind::Name(_) | Kind::End => false,
            _ => self.is_whole(),
        }
    }

    /// Reads one token more.
    ///
    /// # Errors
    ///
    /// E10 where the token does not fit, and E99.
    #[inline(never)]
    pub fn read(&mut self, alloc: Global, token: Token<'a>) -> Result<(), PlacedFault>
        ensures { Steps result self.new (spec.step (state_of self.old) (lexeme token.entry)) }
    {
        if is_end(token) {
            self.read_end(alloc, token)
        } else {
            self.read_in_mode(alloc, token)
        }
    }
}
