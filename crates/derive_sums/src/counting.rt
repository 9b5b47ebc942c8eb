//! Which alternatives are after an operator.

ghost use Rattle.std.specs.Prelude.{◌≡◌, ◌≤◌, ◌<◌, ◌+◌, ◌^◌, ◌++◌, ◌∷◌, codes, length, IfOk, OnOk};
ghost use Rattle.std.specs.Fmt.{decimal};
ghost use Rattle.derive_tokens.specs.Pieces.{derived, derived_all};
ghost use Rattle.derive_sums.specs.Sums as spec;
ghost use Rattle.derive_sums.specs.Views.{count_held, depth_in, read_in};

use crate::sums::{ends_sum, is_operator, is_or, takes_names};
use derive_statements::{deeper, ends_statement};
use derive_tokens::{Piece, is_name, put_number, put_spelled};
use std::alloc::{AllocError, Global};

/// The part of alternatives that comes next.
#[derive(Clone, Copy)]
pub enum Part {
    /// The operator is sought; so many brackets are open.
    Sought(usize),

    /// A name comes.
    Name,

    /// An `or` between names may come.
    Or,

    /// Sums, in so many brackets.
    Sums(usize),
}

/// What is read of alternatives: the part, how many names or how many `or` there are, and the names.
#[derive(Drop)]
pub struct Count {
    pub part: Part,
    pub met: usize,
    pub names: Vec<u8>,
}

fn part_sought(depth: usize, piece: Piece<'_>) -> Part
    requires { depth + 1 < 2 ^ 64 }
    ensures value { result ≡ spec.part_sought depth (derived piece.entry) }
    ensures grows { depth_in result ≤ depth + 1 }
{
    if depth == 0 && is_operator(piece) {
        if takes_names(piece) {
            Part::Name
        } else {
            Part::Sums(0)
        }
    } else {
        Part::Sought(deeper(depth, piece))
    }
}

fn part_after(part: Part, piece: Piece<'_>) -> Part
    requires { depth_in part + 1 < 2 ^ 64 }
    ensures value { result ≡ spec.part_after part (derived piece.entry) }
    ensures grows { depth_in result ≤ depth_in part + 1 }
{
    match part {
        Part::Sought(depth) => part_sought(depth, piece),
        Part::Name => Part::Or,
        Part::Or => Part::Name,
        Part::Sums(depth) => Part::Sums(deeper(depth, piece)),
    }
}

// Whether the alternatives end before a token.
fn ends_count(part: Part, piece: Piece<'_>) -> bool
    ensures { result ≡ spec.ends_count part (derived piece.entry) }
{
    match part {
        Part::Sought(_) => ends_statement(piece),
        Part::Name => !is_name(piece),
        Part::Or => !is_or(piece),
        Part::Sums(depth) => ends_statement(piece) || (depth == 0 && ends_sum(piece)),
    }
}

// Whether a token is counted: a name, or an `or` between sums.
fn is_counted(part: Part, piece: Piece<'_>) -> bool
    ensures { result ≡ spec.is_counted part (derived piece.entry) }
{
    match part {
        Part::Name => true,
        Part::Sums(depth) => depth == 0 && is_or(piece),
        Part::Sought(_) | Part::Or => false,
    }
}

fn is_at_name(part: Part) -> bool
    ensures { result ≡ spec.is_at_name part }
{
    matches!(part, Part::Name)
}

// How many names, or how many `or`, were met after a token.
fn met_after(part: Part, met: usize, piece: Piece<'_>) -> usize
    requires { met + 1 < 2 ^ 64 }
    ensures value { result ≡ spec.met_after part met (derived piece.entry) }
    ensures grows { result ≤ met + 1 }
{
    if is_counted(part, piece) {
        met + 1
    } else {
        met
    }
}

// A name is put after the others.
fn put_name_in(names: &mut Vec<u8>, part: Part, piece: Piece<'_>) -> Result<(), AllocError>
    ensures { OnOk result (names.new.items
        ≡ spec.names_after part names.old.items (derived piece.entry)) }
{
    if is_at_name(part) {
        names.push(b' ')?;
        put_spelled(names, piece)
    } else {
        Ok(())
    }
}

impl Count {
    fn new(alloc: Global) -> Count
        ensures value { count_held result ≡ spec.uncounted }
        ensures flat { depth_in result.part ≡ 0 }
        ensures none { read_in result.part result.met ≡ 0 }
    {
        Count {
            part: Part::Sought(0),
            met: 0,
            names: Vec::new(alloc),
        }
    }

    #[tactic(auto, using(crate::proofs::Read::room_more, crate::proofs::Read::read_more))]
    fn step(&mut self, piece: Piece<'_>) -> Result<(), AllocError>
        requires few { depth_in self.old.part + 1 < 2 ^ 64 }
        requires room { read_in self.old.part self.old.met + 1 < 2 ^ 64 }
        ensures value { OnOk result (count_held self.new
            ≡ spec.count_after (count_held self.old) (derived piece.entry)) }
        ensures deepens { OnOk result (depth_in self.new.part ≤ depth_in self.old.part + 1) }
        ensures grows { OnOk result (read_in self.new.part self.new.met
            ≤ read_in self.old.part self.old.met + 1) }
    {
        put_name_in(&mut self.names, self.part, piece)?;
        self.met = met_after(self.part, self.met, piece);
        self.part = part_after(self.part, piece);
        Ok(())
    }
}

/// The alternatives from a token on.
#[inline(never)]
pub fn count_of(alloc: Global, piece: Piece<'_>, rest: &[Piece<'_>]) -> Result<Count, AllocError>
    requires { length rest.now + 1 < 2 ^ 64 }
    ensures value { IfOk result (λ count. count_held count
        ≡ spec.count_of (derived piece.entry ∷ derived_all rest.now)) }
    ensures few { IfOk result (λ count. read_in count.part count.met ≤ length rest.now + 1) }
{
    let mut count = Count::new(alloc);
    if ends_count(count.part, piece) {
        return Ok(count);
    }
    count.step(piece)?;
    for next in rest {
        if ends_count(count.part, *next) {
            return Ok(count);
        }
        count.step(*next)?;
    }
    Ok(count)
}

// The name of the k-th of the sums.
fn put_sum(key: &mut Vec<u8>, k: usize) -> Result<(), AllocError>
    ensures { OnOk result (key.new.items ≡ key.old.items ++ codes " x__a" ++ decimal k) }
{
    key.extend_from_slice(b" x__a")?;
    put_number(key, k)
}

// A name for each of so many sums.
#[tactic(auto, using(crate::proofs::SumNames::sums_on, crate::proofs::SumNames::sums_end))]
fn put_sums(key: &mut Vec<u8>, count: usize) -> Result<(), AllocError>
    ensures { OnOk result (key.new.items ≡ key.old.items ++ spec.sums_named 1 count) }
{
    for k in 0..count {
        put_sum(key, k + 1)?;
    }
    Ok(())
}

// The names of alternatives, or names for their sums.
#[tactic(auto, using(crate::proofs::Read::room_one))]
fn put_listed(key: &mut Vec<u8>, operator: Piece<'_>, count: &Count) -> Result<(), AllocError>
    requires { read_in count.now.part count.now.met < 2 ^ 64 }
    ensures { OnOk result (key.new.items
        ≡ key.old.items ++ spec.listed (derived operator.entry) (count_held count.now)) }
{
    if takes_names(operator) {
        key.extend_from_slice(&count.names)?;
        Ok(())
    } else {
        put_sums(key, count.met + 1)
    }
}

/// Which alternatives they are that begin with a token, in small letters.
#[inline(never)]
pub fn key<'a>(
    alloc: Global,
    operator: Piece<'a>,
    piece: Piece<'a>,
    rest: &[Piece<'a>],
) -> Result<Vec<u8>, AllocError>
    requires { length rest.now + 1 < 2 ^ 64 }
    ensures { IfOk result (λ key. key.items
        ≡ spec.key (derived operator.entry) (derived piece.entry ∷ derived_all rest.now)) }
{
    let count = count_of(alloc, piece, rest)?;
    let mut key = Vec::new(alloc);
    put_spelled(&mut key, operator)?;
    put_listed(&mut key, operator, &count)?;
    key.as_slice().to_ascii_lowercase(alloc)
}
