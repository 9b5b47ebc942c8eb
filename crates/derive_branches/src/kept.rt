//! Tokens that are kept, and what they define.

ghost use Rattle.std.specs.Prelude.{◌≡◌, ◌∷◌, List, ℕ, option_copied, true, IfOk, OnOk};
ghost use Rattle.syntax_lexer.specs.Token.{lexeme, lexeme_of, lexemes, reserved};
ghost use Rattle.syntax_lexer.specs.declared.token.Position.{Position};
ghost use Rattle.derive_tokens.specs.Held.{names_of};
ghost use Rattle.derive_tokens.specs.Names.{has_name};
ghost use Rattle.derive_constants.specs.Held.{known_of};
ghost use Rattle.derive_branches.specs.Held.{kept_of};
ghost use Rattle.derive_branches.specs.Kept as spec;

use crate::tokens::{before_last, is_named, is_sign, is_word, name_in};
use derive_constants::{Known, value_in};
use derive_tokens::Names;
use std::alloc::{AllocError, Global};
use syntax_lexer::{Kind, Position, Sign, Token, Word};

/// Tokens that are kept.
#[derive(Drop)]
pub struct Kept<'a> {
    /// The directives that are whole.
    pub whole: Vec<Token<'a>>,

    /// The tokens of the one that has begun.
    pub begun: Vec<Token<'a>>,

    /// Whether the next token is in a routine.
    pub in_routine: bool,

    /// The names that are defined by what is whole, in small letters.
    pub names: Names,

    /// The constants that are.
    pub known: Known,
}

// The name that stands first, after arrows.
fn first_name<'a>(tokens: &[Token<'a>]) -> Option<&'a [u8]>
    ensures { option_copied result ≡ spec.first_name (lexemes tokens.now) }
{
    for token in tokens {
        if !is_sign(*token, Sign::Arrow) {
            return name_in(*token);
        }
    }
    None
}

// The name that a directive defines.
fn name_defined<'a>(directive: &[Token<'a>]) -> Option<&'a [u8]>
    ensures { option_copied result ≡ spec.name_defined (lexemes directive.now) }
{
    let [first, rest @ ..] = directive else {
        return None;
    };
    let [next, others @ ..] = rest else {
        return None;
    };
    if is_word(*first, Word::Property) && is_named(*next, b"additive") {
        first_name(others)
    } else {
        first_name(rest)
    }
}

// Whether a name is among these, in small letters or in capitals.
fn has_name(alloc: Global, names: &Names, name: &[u8]) -> Result<bool, AllocError>
    ensures { IfOk result (λ has. has ≡ has_name (names_of names.now) name.now) }
{
    let small = name.to_ascii_lowercase(alloc)?;
    Ok(names.has(&small))
}

// Whether a directive that begins so is nothing.
fn is_dropped(token: Token<'_>) -> bool
    ensures { result ≡ spec.is_dropped (lexeme token.entry) }
{
    is_named(token, b"release")
        || is_named(token, b"serial")
        || is_named(token, b"statusline")
        || is_named(token, b"switches")
}

// Whether the next token is in a routine, after this one.
#[inline(always)]
fn routine_after(inside: bool, kind: Kind<'_>) -> bool
    ensures { (p : Position) → result ≡ spec.routine_after inside (lexeme_of kind.entry p) }
{
    match kind {
        Kind::Sign(Sign::OpenBracket) => true,
        Kind::Sign(Sign::CloseBracket) => false,
        _ => inside,
    }
}

// The name is defined, if there is one.
fn add_defined(names: &mut Names, alloc: Global, name: Option<&[u8]>) -> Result<(), AllocError>
    ensures { OnOk result (names_of names.new
        ≡ spec.with_defined (names_of names.old) (option_copied name.entry)) }
{
    match name {
        None => Ok(()),
        Some(name) => {
            let small = name.to_ascii_lowercase(alloc)?;
            names.add(small)
        }
    }
}

// A token before these.
fn with_first<'a>(
    alloc: Global,
    first: Token<'a>,
    rest: &[Token<'a>],
) -> Result<Vec<Token<'a>>, AllocError>
    ensures { IfOk result (λ out. lexemes out.items ≡ lexeme first.entry ∷ lexemes rest.now) }
{
    let mut out = Vec::new(alloc);
    out.push(first)?;
    out.extend_from_slice(rest)?;
    Ok(out)
}

// The word with which a constant is defined.
fn constant_word<'a>(position: Position) -> Token<'a>
    ensures { lexeme result ≡ reserved Word.Constant position }
{
    Token {
        kind: Kind::Reserved(Word::Constant),
        text: b"constant",
        position,
    }
}

// `Default`, and what follows it.
#[tactic(auto, using(derive_constants::proofs::Rows::position_is))]
fn defaulted<'a>(
    alloc: Global,
    names: &Names,
    first: Token<'a>,
    rest: &[Token<'a>],
) -> Result<Vec<Token<'a>>, AllocError>
    ensures { IfOk result (λ out. lexemes out.items
        ≡ spec.defaulted (names_of names.now) (lexeme first.entry) (lexemes rest.now)) }
{
    match rest {
        [next, ..] => match next.kind {
            Kind::Name(name) => {
                if has_name(alloc, names, name)? {
                    Ok(Vec::new(alloc))
                } else {
                    with_first(alloc, constant_word(first.position), rest)
                }
            }
            _ => with_first(alloc, first, rest),
        },
        [] => with_first(alloc, first, rest),
    }
}

// What becomes of a directive that has this first token and more than one after it.
fn settled_from<'a>(
    alloc: Global,
    names: &Names,
    first: Token<'a>,
    rest: &[Token<'a>],
) -> Result<Vec<Token<'a>>, AllocError>
    ensures { IfOk result (λ out. lexemes out.items
        ≡ spec.settled_from (names_of names.now) (lexeme first.entry) (lexemes rest.now)) }
{
    if is_word(first, Word::Default) {
        defaulted(alloc, names, first, rest)
    } else if is_dropped(first) {
        Ok(Vec::new(alloc))
    } else {
        with_first(alloc, first, rest)
    }
}

// What becomes of a directive, where these names are defined before it.
fn settled<'a>(
    alloc: Global,
    names: &Names,
    directive: &[Token<'a>],
) -> Result<Vec<Token<'a>>, AllocError>
    ensures { IfOk result (λ out. lexemes out.items
        ≡ spec.settled (names_of names.now) (lexemes directive.now)) }
{
    match directive {
        [first, rest @ ..] => match rest {
            [_, _, ..] => settled_from(alloc, names, *first, rest),
            _ => Vec::from_slice(alloc, directive),
        },
        [] => Vec::from_slice(alloc, directive),
    }
}

// Whether a directive stays as it is, whatever is defined before it.
#[inline(always)]
fn stays(directive: &[Token<'_>]) -> bool
    ensures { result ≡ true → (names : List (List ℕ))
        → spec.settled names (lexemes directive.now) ≡ lexemes directive.now }
{
    match directive {
        [first, _, _, ..] => !is_word(*first, Word::Default) && !is_dropped(*first),
        _ => true,
    }
}

// Puts what becomes of a directive in its place, where these names are defined before it.
#[inline(always)]
fn settle<'a>(
    directive: &mut Vec<Token<'a>>,
    alloc: Global,
    names: &Names,
) -> Result<(), AllocError>
    ensures { OnOk result (lexemes directive.new.items
        ≡ spec.settled (names_of names.now) (lexemes directive.old.items)) }
{
    if stays(directive) {
        return Ok(());
    }
    *directive = settled(alloc, names, directive)?;
    Ok(())
}

// What a constant is, after its name: without `=` and `;`.
fn constant_tokens<'t, 'a>(rest: &'t [Token<'a>]) -> &'t [Token<'a>]
    ensures { lexemes result.now ≡ spec.constant_tokens (lexemes rest.now) }
{
    match rest {
        [] => rest,
        [sign, values @ ..] => {
            if is_sign(*sign, Sign::Assign) {
                before_last(values)
            } else {
                before_last(rest)
            }
        }
    }
}

// The number of a constant, whose tokens these are.
fn constant_number(
    alloc: Global,
    known: &Known,
    tokens: &[Token<'_>],
) -> Result<Option<u16>, AllocError>
    ensures { IfOk result (λ number. number
        ≡ spec.constant_number (known_of known.now) (lexemes tokens.now)) }
{
    match tokens {
        [] => Ok(Some(0)),
        [_, ..] => value_in(alloc, known, tokens),
    }
}

// The constant of a name is known, if it has a number.
fn add_constant(
    known: &mut Known,
    alloc: Global,
    name: &[u8],
    number: Option<u16>,
) -> Result<(), AllocError>
    ensures { OnOk result (known_of known.new
        ≡ spec.with_constant (known_of known.old) name.now number) }
{
    match number {
        None => Ok(()),
        Some(number) => {
            let small = name.to_ascii_lowercase(alloc)?;
            known.add(small, number)
        }
    }
}

// The constant that a directive defines is known after it.
fn learn(known: &mut Known, alloc: Global, directive: &[Token<'_>]) -> Result<(), AllocError>
    ensures { OnOk result (known_of known.new
        ≡ spec.known_after (known_of known.old) (lexemes directive.now)) }
{
    match directive {
        [first, next, rest @ ..] => match next.kind {
            Kind::Name(name) if is_word(*first, Word::Constant) => {
                let number = constant_number(alloc, known, constant_tokens(rest))?;
                add_constant(known, alloc, name, number)
            }
            _ => Ok(()),
        },
        _ => Ok(()),
    }
}

// Names that no source defines.
fn first_names(alloc: Global) -> Result<Names, AllocError>
    ensures { IfOk result (λ names. names_of names ≡ spec.first_names) }
{
    let mut names = Names::new(alloc);
    names.add(Vec::from_slice(alloc, b"target_zcode")?)?;
    names.add(Vec::from_slice(alloc, b"wordsize")?)?;
    names.add(Vec::from_slice(alloc, b"name")?)?;
    names.add(Vec::from_slice(alloc, b"self")?)?;
    Ok(names)
}

impl<'a> Kept<'a> {
    /// Nothing is kept yet, and there is room for so many tokens.
    ///
    /// # Errors
    ///
    /// `AllocError` where memory is refused, as for the functions after it.
    pub fn new(alloc: Global, room: usize) -> Result<Kept<'a>, AllocError>
        ensures { IfOk result (λ kept. kept_of kept ≡ spec.nothing_kept) }
    {
        let mut whole = Vec::new(alloc);
        whole.reserve(room)?;
        Ok(Kept {
            whole,
            begun: Vec::new(alloc),
            in_routine: false,
            names: first_names(alloc)?,
            known: Known::new(alloc),
        })
    }

    /// Whether a name is defined.
    pub fn defines(&self, alloc: Global, name: &[u8]) -> Result<bool, AllocError>
        ensures { IfOk result (λ defines. defines ≡ spec.is_defined (kept_of self.now) name.now) }
    {
        has_name(alloc, &self.names, name)
    }

    // The directive that has begun is whole.
    #[inline(never)]
    fn end_directive(&mut self, alloc: Global) -> Result<(), AllocError>
        ensures { OnOk result (kept_of self.new ≡ spec.with_directive (kept_of self.old)
            (spec.settled (names_of self.old.names) (lexemes self.old.begun.items))) }
    {
        settle(&mut self.begun, alloc, &self.names)?;
        add_defined(&mut self.names, alloc, name_defined(&self.begun))?;
        learn(&mut self.known, alloc, &self.begun)?;
        self.whole.extend_from_slice(&self.begun)?;
        self.begun.clear();
        self.in_routine = false;
        Ok(())
    }

    /// Keeps one token more.
    #[inline(always)]
    pub fn keep(&mut self, alloc: Global, token: Token<'a>) -> Result<(), AllocError>
        ensures { OnOk result (kept_of self.new
            ≡ spec.keep (kept_of self.old) (lexeme token.entry)) }
    {
        let ends = !self.in_routine && is_sign(token, Sign::Semicolon);
        self.begun.push(token)?;
        if ends {
            self.end_directive(alloc)
        } else {
            self.in_routine = routine_after(self.in_routine, token.kind);
            Ok(())
        }
    }

    /// The directive that has begun is the last.
    pub fn finish(&mut self) -> Result<(), AllocError>
        ensures { OnOk result (lexemes self.new.whole.items ≡ spec.all_kept (kept_of self.old)) }
    {
        self.whole.extend_from_slice(&self.begun)?;
        Ok(())
    }
}
