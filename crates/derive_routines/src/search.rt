//! Routines that find a value by halves.

ghost use Rattle.std.specs.Prelude.{◌≡◌, ◌≤◌, ◌<◌, ◌+◌, ◌^◌, ◌++◌, ◌∷◌, [], map, length, take, drop, IfOk, OnOk};
ghost use Rattle.derive_routines.specs.Search as spec;
ghost use Rattle.derive_routines.specs.Held.{arm_of, name_held, names_now, search_of};

use crate::texts::{put, put_parted, put_spaced, taken};
use derive_tokens::put_number;
use std::alloc::AllocError;

/// The name of a routine.
#[derive(Clone, Copy)]
pub enum RoutineName<'a> {
    Plain(&'a [u8]),

    /// A prefix, and a number.
    Numbered(&'static [u8], usize),
}

/// A value, and the routine that is called for it with so many arguments, after those that are
/// skipped.
#[derive(Clone, Copy)]
pub struct Arm<'a> {
    pub value: usize,
    pub routine: RoutineName<'a>,
    pub skipped: usize,
    pub count: usize,
}

/// What a search makes.
#[derive(Clone, Copy)]
pub struct Search {
    /// The name of its routines.
    pub routine: &'static [u8],

    /// Their locals, of which `x__v` is the value.
    pub locals: &'static [&'static [u8]],

    /// What is done first.
    pub first: &'static [u8],

    /// The notice for a value that is none.
    pub notice: &'static [u8],
}

/// How many arms a routine has at most.
const MOST_ARMS: usize = 32;

/// In how many steps one of these is found.
const MOST_STEPS: usize = 6;

/// How many rounds of groups there are at most.
const MOST_ROUNDS: usize = 2;

fn put_name(text: &mut Vec<u8>, name: RoutineName<'_>) -> Result<(), AllocError>
    ensures { OnOk result (text.new.items ≡ text.old.items ++ name_held name.entry) }
{
    match name {
        RoutineName::Plain(bytes) => put(text, bytes),
        RoutineName::Numbered(prefix, number) => {
            put(text, prefix)?;
            put_number(text, number)
        }
    }
}

fn put_arm(text: &mut Vec<u8>, locals: &[&[u8]], arm: Arm<'_>) -> Result<(), AllocError>
    ensures { OnOk result (text.new.items
        ≡ text.old.items ++ spec.arm_text (names_now locals.now) (arm_of arm.entry)) }
{
    put(text, b"return ")?;
    put_name(text, arm.routine)?;
    put(text, b"(")?;
    put_parted(text, taken(locals, arm.skipped, arm.count))?;
    put(text, b");")
}

// The value with which arms begin.
fn first_value(arms: &[Arm<'_>]) -> usize
    ensures { result ≡ spec.first_value (map arm_of arms.now) }
{
    match arms {
        [] => 0,
        [arm, ..] => arm.value,
    }
}

// The text of the arm with which they begin.
fn put_first_arm(text: &mut Vec<u8>, locals: &[&[u8]], arms: &[Arm<'_>]) -> Result<(), AllocError>
    ensures { OnOk result (text.new.items ≡ text.old.items
        ++ spec.first_arm_text (names_now locals.now) (map arm_of arms.now)) }
{
    match arms {
        [] => Ok(()),
        [arm, ..] => put_arm(text, locals, *arm),
    }
}

// A search among arms, in at most so many steps.
#[tactic(auto, using(crate::proofs::Halves::put_none, crate::proofs::Halves::put_empty, crate::proofs::Halves::put_one, crate::proofs::Halves::put_two))]
fn put_halves(
    text: &mut Vec<u8>,
    locals: &[&[u8]],
    steps: usize,
    arms: &[Arm<'_>],
) -> Result<(), AllocError>
    ensures { OnOk result (text.new.items ≡ text.old.items
        ++ spec.by_halves (names_now locals.now) steps (map arm_of arms.now)) }
{
    if steps == 0 {
        return Ok(());
    }
    match arms {
        [] => Ok(()),
        [_] => put_first_arm(text, locals, arms),
        [_, _, ..] => {
            let (low, high) = arms.split_at(arms.len() / 2);
            put(text, b"if(x__v<")?;
            put_number(text, first_value(high))?;
            put(text, b"){")?;
            put_halves(text, locals, steps - 1, low)?;
            put(text, b"}else{")?;
            put_halves(text, locals, steps - 1, high)?;
            put(text, b"}")
        }
    }
}

// The header of a routine.
fn put_header(text: &mut Vec<u8>, name: RoutineName<'_>, locals: &[&[u8]]) -> Result<(), AllocError>
    ensures { OnOk result (text.new.items ≡ text.old.items
        ++ spec.header (name_held name.entry) (names_now locals.now)) }
{
    put(text, b"[ ")?;
    put_name(text, name)?;
    put_spaced(text, locals)?;
    put(text, b";")
}

fn put_group(
    text: &mut Vec<u8>,
    search: Search,
    k: usize,
    arms: &[Arm<'_>],
) -> Result<(), AllocError>
    ensures { OnOk result (text.new.items ≡ text.old.items
        ++ spec.group_text (search_of search) k (map arm_of arms.now)) }
{
    let name = RoutineName::Numbered(search.routine, k);
    put_header(text, name, search.locals)?;
    put_halves(text, search.locals, MOST_STEPS, arms)?;
    put(text, b"];")
}

// A group as an arm.
fn group_arm<'a>(search: Search, k: usize, arms: &[Arm<'a>]) -> Arm<'a>
    ensures { arm_of result ≡ spec.group_arm (search_of search) k (map arm_of arms.now) }
{
    Arm {
        value: first_value(arms),
        routine: RoutineName::Numbered(search.routine, k),
        skipped: 0,
        count: search.locals.len(),
    }
}

// A group, whose routine and arm are put.
fn put_one<'a>(
    text: &mut Vec<u8>,
    next: &mut Vec<Arm<'a>>,
    search: Search,
    k: usize,
    held: &[Arm<'a>],
) -> Result<(), AllocError>
    ensures text { OnOk result (text.new.items ≡ text.old.items
        ++ spec.group_text (search_of search) k (map arm_of held.now)) }
    ensures arm { OnOk result (map arm_of next.new.items ≡ map arm_of next.old.items
        ++ spec.group_arm (search_of search) k (map arm_of held.now) ∷ []) }
{
    put_group(text, search, k, held)?;
    next.push(group_arm(search, k, held))?;
    Ok(())
}

// So many of the first arms, or all.
fn front<'t, 'a>(arms: &'t [Arm<'a>], count: usize) -> &'t [Arm<'a>]
    ensures { result.now ≡ take count arms.now }
{
    arms.split_at(count.min(arms.len())).0
}

// The arms after so many.
fn after<'t, 'a>(arms: &'t [Arm<'a>], count: usize) -> &'t [Arm<'a>]
    ensures { result.now ≡ drop count arms.now }
{
    arms.split_at(count.min(arms.len())).1
}

// How many groups so many arms are.
fn group_count(count: usize) -> usize
    requires { count ≤ 8192 }
    ensures value { result ≡ spec.group_count count }
    ensures few { result ≤ count }
{
    (count + 31) / MOST_ARMS
}

// The routines of groups, the first of which is the k-th, and the groups as arms.
#[tactic(auto, using(crate::proofs::Groups::texts_end, crate::proofs::Groups::arms_end))]
fn put_groups<'a>(
    text: &mut Vec<u8>,
    search: Search,
    k: usize,
    arms: &[Arm<'a>],
) -> Result<Vec<Arm<'a>>, AllocError>
    requires few { length arms.now ≤ 8192 }
    requires low { k ≤ 16385 }
    ensures text { OnOk result (text.new.items ≡ text.old.items
        ++ spec.group_texts (search_of search) (spec.group_count (length arms.now)) k
        (map arm_of arms.now)) }
    ensures arms { IfOk result (λ next. map arm_of next.items
        ≡ spec.group_arms (search_of search) (spec.group_count (length arms.now)) k
        (map arm_of arms.now)) }
    ensures count { IfOk result (λ next. length next.items ≡ spec.group_count (length arms.now)) }
    ensures fewer { IfOk result (λ next. length next.items ≤ length arms.now) }
{
    let alloc = *text.allocator();
    let count = group_count(arms.len());
    let mut next = Vec::new(alloc);
    let mut rest = arms;
    for j in 0..count {
        put_one(text, &mut next, search, k + j, front(rest, MOST_ARMS))?;
        rest = after(rest, MOST_ARMS);
    }
    Ok(next)
}

// A text that holds for so many values from a first on, with what is before and after it.
fn put_range_start(text: &mut Vec<u8>, first: usize, count: usize) -> Result<(), AllocError>
    requires { first + count < 2 ^ 64 }
    ensures { OnOk result (text.new.items ≡ text.old.items ++ spec.range_start first count) }
{
    put(text, b"if(x__v>=")?;
    put_number(text, first)?;
    put(text, b"&&x__v<")?;
    put_number(text, first + count)?;
    put(text, b"){")
}

/// Puts a text for values that are so many from a first on, if there are any.
///
/// # Errors
///
/// `AllocError` where memory is refused.
pub fn put_in_range(
    text: &mut Vec<u8>,
    first: usize,
    count: usize,
    content: &[u8],
) -> Result<(), AllocError>
    requires { first + count < 2 ^ 64 }
    ensures { OnOk result (text.new.items
        ≡ text.old.items ++ spec.in_range first count content.now) }
{
    if count == 0 {
        return Ok(());
    }
    put_range_start(text, first, count)?;
    put(text, content)?;
    put(text, b"}")
}

// The end of the routine that is called: a value that is none is refused.
fn put_refusal(text: &mut Vec<u8>, notice: &[u8]) -> Result<(), AllocError>
    ensures { OnOk result (text.new.items ≡ text.old.items ++ spec.refusal notice.now) }
{
    put(text, b"print \"")?;
    put(text, notice)?;
    put(text, b"\";quit;];")
}

// The routine that is called.
fn put_top(
    text: &mut Vec<u8>,
    search: Search,
    first: usize,
    count: usize,
    arms: &[Arm<'_>],
) -> Result<(), AllocError>
    requires { first + count < 2 ^ 64 }
    ensures { OnOk result (text.new.items ≡ text.old.items
        ++ spec.top_text (search_of search) first count (map arm_of arms.now)) }
{
    let alloc = *text.allocator();
    let mut content = Vec::new(alloc);
    put_halves(&mut content, search.locals, MOST_STEPS, arms)?;
    put_header(text, RoutineName::Plain(search.routine), search.locals)?;
    put(text, search.first)?;
    put_in_range(text, first, count, &content)?;
    put_refusal(text, search.notice)
}

/// Puts the routines of a search for the values of these arms, which are those from a first on.
///
/// # Errors
///
/// `AllocError` where memory is refused.
#[tactic(auto, using(crate::proofs::Levels::put_round, crate::proofs::Levels::put_few, crate::proofs::Levels::put_last))]
pub fn put_search(
    text: &mut Vec<u8>,
    search: Search,
    first: usize,
    values: Vec<Arm<'_>>,
) -> Result<(), AllocError>
    requires few { length values.items ≤ 8192 }
    requires small { first ≤ 65535 }
    ensures { OnOk result (text.new.items ≡ text.old.items
        ++ spec.search_text (search_of search) first (map arm_of values.entry.items)) }
{
    let count = values.len();
    let mut arms = values;
    let mut k = 1;
    let mut rounds = MOST_ROUNDS;
    while rounds > 0 {
        if arms.len() <= MOST_ARMS {
            return put_top(text, search, first, count, &arms);
        }
        let next = put_groups(text, search, k, &arms)?;
        k += next.len();
        arms = next;
        rounds -= 1;
    }
    put_top(text, search, first, count, &arms)
}
