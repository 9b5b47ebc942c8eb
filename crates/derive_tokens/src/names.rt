//! Names in small letters, and tables that have each once.

ghost use Rattle.std.specs.Prelude.{◌≡◌, ◌<◌, [], length, true, slice_index_or, IfOk, OnOk};
ghost use Rattle.derive_tokens.specs.Pieces.{derived};
ghost use Rattle.derive_tokens.specs.Tokens.{is_named};
ghost use Rattle.derive_tokens.specs.Names as spec;
ghost use Rattle.derive_tokens.specs.Held.{bytes_of, names_of};

use crate::piece::{Piece, PieceKind};
use crate::writing::put_number;
use indexmap::IndexSet;
use std::alloc::{AllocError, Global};
use syntax_lexer::Kind;

/// Whether a token is a name.
#[inline(always)]
pub fn is_name(piece: Piece<'_>) -> bool
    ensures { result ≡ spec.is_name (derived piece.entry) }
{
    match piece.kind {
        PieceKind::Read(Kind::Name(_)) => true,
        PieceKind::Read(_) => false,
        PieceKind::Numbered(..) => true,
        PieceKind::Quoted(_) => false,
    }
}

/// Whether a token is this name, which has no digits: in small letters or in capitals.
#[inline(always)]
pub fn is_called(piece: Piece<'_>, name: &[u8]) -> bool
    requires { spec.are_letters name.now ≡ true }
    ensures { result ≡ is_named name.now (derived piece.entry) }
{
    match piece.kind {
        PieceKind::Read(kind) => crate::questions::is_named(kind, name),
        PieceKind::Numbered(..) => false,
        PieceKind::Quoted(_) => false,
    }
}

/// The name that a token is; it is empty where the token is none.
///
/// # Errors
///
/// `AllocError` where memory is refused.
pub fn name_of(alloc: Global, piece: Piece<'_>) -> Result<Vec<u8>, AllocError>
    ensures { IfOk result (λ name. name.items ≡ spec.name_of (derived piece.entry)) }
{
    match piece.kind {
        PieceKind::Read(Kind::Name(bytes)) => Vec::from_slice(alloc, bytes),
        PieceKind::Numbered(prefix, number) => {
            let mut name = Vec::from_slice(alloc, prefix)?;
            put_number(&mut name, number)?;
            Ok(name)
        }
        _ => Ok(Vec::new(alloc)),
    }
}

/// The name that a token is, in small letters: case is ignored. It is empty where the token is none.
///
/// # Errors
///
/// `AllocError` where memory is refused.
pub fn small_name(alloc: Global, piece: Piece<'_>) -> Result<Vec<u8>, AllocError>
    ensures { IfOk result (λ name. name.items ≡ spec.small_name (derived piece.entry)) }
{
    match piece.kind {
        PieceKind::Read(Kind::Name(bytes)) => bytes.to_ascii_lowercase(alloc),
        _ => {
            let name = name_of(alloc, piece)?;
            name.as_slice().to_ascii_lowercase(alloc)
        }
    }
}

/// A name in small letters.
#[derive(Drop)]
pub enum SmallName<'a> {
    /// The bytes of a token, which have no capitals.
    Read(&'a [u8]),

    Made(Vec<u8>),
}

impl SmallName<'_> {
    /// Its bytes.
    #[inline]
    pub fn bytes(&self) -> &[u8]
        ensures { result.now ≡ bytes_of self.now }
    {
        match self {
            SmallName::Read(bytes) => bytes,
            SmallName::Made(bytes) => bytes.as_slice(),
        }
    }
}

// A name of the source in small letters.
#[inline]
#[tactic(auto, using(crate::proofs::Capitals::kept_small))]
fn small_bytes(alloc: Global, bytes: &[u8]) -> Result<SmallName<'_>, AllocError>
    ensures { IfOk result (λ name. bytes_of name ≡ spec.small bytes.now) }
{
    if is_small(bytes) {
        return Ok(SmallName::Read(bytes));
    }
    let small = bytes.to_ascii_lowercase(alloc)?;
    Ok(SmallName::Made(small))
}

/// As [`small_name`], without a copy where the token has no capitals.
///
/// # Errors
///
/// `AllocError` where memory is refused.
#[inline]
pub fn small_name_in<'a>(alloc: Global, piece: Piece<'a>) -> Result<SmallName<'a>, AllocError>
    ensures { IfOk result (λ name. bytes_of name ≡ spec.small_name (derived piece.entry)) }
{
    match piece.kind {
        PieceKind::Read(Kind::Name(bytes)) => small_bytes(alloc, bytes),
        _ => {
            let name = small_name(alloc, piece)?;
            Ok(SmallName::Made(name))
        }
    }
}

// Whether a name has no capitals.
fn is_small(name: &[u8]) -> bool
    ensures { result ≡ spec.is_small name.now }
{
    for byte in name {
        if byte.is_ascii_uppercase() {
            return false;
        }
    }
    true
}

/// Names, or other rows of bytes, each once and in the order in which they came first.
#[derive(Drop)]
pub struct Names {
    pub names: IndexSet<Vec<u8>>,
}

/// Puts the name that a token is at the end, if it is not there.
///
/// # Errors
///
/// `AllocError` where memory is refused.
pub fn note_name(names: &mut Names, alloc: Global, piece: Piece<'_>) -> Result<(), AllocError>
    ensures { OnOk result (names_of names.new
        ≡ spec.with_name_of (names_of names.old) (derived piece.entry)) }
{
    match piece.kind {
        PieceKind::Read(Kind::Name(bytes)) => names.note(alloc, bytes),
        PieceKind::Numbered(..) => {
            let name = small_name(alloc, piece)?;
            names.add(name)
        }
        _ => Ok(()),
    }
}

impl Names {
    /// No names.
    pub fn new(alloc: Global) -> Names
        ensures { names_of result ≡ [] }
    {
        Names {
            names: IndexSet::new(alloc),
        }
    }

    /// Puts a name at the end, if it is not there.
    ///
    /// # Errors
    ///
    /// `AllocError` where memory is refused.
    pub fn add(&mut self, name: Vec<u8>) -> Result<(), AllocError>
        ensures { OnOk result (names_of self.new ≡ spec.with_name (names_of self.old) name.items) }
    {
        self.names.insert(name)?;
        Ok(())
    }

    // Puts a name at the end in small letters, if it is not there.
    #[tactic(auto, using(crate::proofs::Capitals::noted))]
    fn note(&mut self, alloc: Global, name: &[u8]) -> Result<(), AllocError>
        ensures { OnOk result (names_of self.new
            ≡ spec.with_name (names_of self.old) (spec.small name.now)) }
    {
        if is_small(name) && self.has(name) {
            return Ok(());
        }
        let small = name.to_ascii_lowercase(alloc)?;
        self.add(small)
    }

    /// Whether a name is there in small letters.
    ///
    /// # Errors
    ///
    /// `AllocError` where memory is refused.
    #[tactic(auto, using(crate::proofs::Capitals::asked_in_small))]
    pub fn has_small(&self, alloc: Global, name: &[u8]) -> Result<bool, AllocError>
        ensures { IfOk result (λ has. has ≡ spec.has_name (names_of self.now) name.now) }
    {
        if is_small(name) {
            return Ok(self.has(name));
        }
        let small = name.to_ascii_lowercase(alloc)?;
        Ok(self.has(&small))
    }

    /// How many names there are.
    pub fn count(&self) -> usize
        ensures { result ≡ length (names_of self.now) }
    {
        self.names.len()
    }

    /// The name at a place.
    pub fn at(&self, place: usize) -> &[u8]
        requires { place < length (names_of self.now) }
        ensures { result.now ≡ slice_index_or (names_of self.now) place [] }
    {
        match self.names.get_index(place) {
            Some(name) => name.as_slice(),
            None => b"",
        }
    }

    /// Whether a name is there.
    pub fn has(&self, name: &[u8]) -> bool
        ensures { result ≡ spec.is_among (names_of self.now) name.now }
    {
        self.names.contains(name)
    }

    /// The place of a name, counted from 0, if it is there.
    pub fn place(&self, name: &[u8]) -> Option<usize>
        ensures { result ≡ spec.place_in (names_of self.now) name.now }
    {
        self.names.get_index_of(name)
    }

    /// The place of a name, counted from 1; 0 if it is not there.
    pub fn number(&self, name: &[u8]) -> usize
        ensures { result ≡ spec.number_in (names_of self.now) name.now }
    {
        let count = self.names.len();
        match self.names.get_index_of(name) {
            Some(place) => {
                prove!(place < count);
                place + 1
            }
            None => 0,
        }
    }
}
