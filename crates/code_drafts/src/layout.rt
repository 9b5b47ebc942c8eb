//! The layout of a routine: branches lead ahead only, so what follows a branch decides its form.

ghost use Rattle.std.specs.Prelude.{◌≡◌, ◌+◌, ◌-◌, ◌<◌, ◌≤◌, reverse, slice_index, IfOk};
ghost use Rattle.std.specs.List.{All};
ghost use Rattle.code_drafts.specs.Layout.{bytes_limit, first, form_for, size_with, part_size, offset_over, lefts, uses, IsShortest};

use std::alloc::{AllocError, Global};

/// One byte of branch data holds an offset below this (Z-Machine Standards Document 1.1, section
/// 4.7).
const ONE_BYTE_LIMIT: usize = 64;

/// Two bytes of branch data hold an offset ahead below this.
pub const TWO_BYTE_LIMIT: usize = 8192;

/// From the end of an instruction its branch leads so many bytes less far than its offset says
/// (section 4.7.2).
const OFFSET_BASE: usize = 2;

/// How a branch to a label is written.
#[derive(Clone, Copy, Debug, PartialEq, Eq)]
pub enum Form {
    /// One byte of branch data: an offset of 2 to 63.
    One,

    /// Two bytes of branch data: another offset to 8,191.
    Two,

    /// The opposite branch over a jump, where two bytes of branch data would not reach.
    Far,
}

/// A part of a routine: an instruction, or several, of which the last may branch to another part.
#[derive(Clone, Copy, Debug)]
pub struct Part {
    /// How many bytes it has beside its branch data and, in the far form, the jump.
    pub size: usize,

    /// The number of the part to which it branches, or of the end, which is the number of all
    /// parts.
    pub target: Option<usize>,
}

/// A branch to a label.
#[derive(Clone, Copy, Debug, PartialEq, Eq)]
pub struct BranchUse {
    pub form: Form,

    /// Its offset; of a far one the offset that two bytes of branch data would need.
    pub offset: usize,
}

/// The shortest form for an offset.
fn form_for(offset: usize) -> Form
    ensures { result ≡ form_for offset }
{
    if offset < ONE_BYTE_LIMIT {
        Form::One
    } else if offset < TWO_BYTE_LIMIT {
        Form::Two
    } else {
        Form::Far
    }
}

/// How many bytes a branch has beside those of its part.
fn label_size(form: Form) -> usize
    ensures { result ≡ size_with form }
{
    match form {
        Form::One => 1,
        Form::Two => 2,
        Form::Far => 4,
    }
}

/// How many bytes there are on to the end after so many parts, where `left` tells how many there
/// are from each part on, the end's first. After the end there are none.
#[tactic(auto, using(crate::proofs::Offsets::turned, crate::proofs::Offsets::turned_past))]
fn left_after(left: &[usize], over: usize) -> usize
    ensures { result ≡ slice_index (reverse left.now) over }
{
    if over < left.len() {
        left[left.len() - 1 - over]
    } else {
        0
    }
}

/// The offset of a branch over so many parts, where `left` tells how many bytes there are from each
/// part after it on to the end, the end's first.
#[tactic(auto, using(crate::proofs::Offsets::first_is))]
fn offset_over(left: &[usize], over: usize) -> usize
    requires { first (reverse left.now) < bytes_limit }
    ensures { result ≡ offset_over over (reverse left.now) }
{
    let end = left_after(left, 0);
    OFFSET_BASE + end.saturating_sub(left_after(left, over))
}

/// How many bytes a part has, where `left` tells how many there are from each part after it on to
/// the end, the end's first.
fn size_of(part: Part, left: &[usize], number: usize) -> usize
    requires small { first (reverse left.now) < bytes_limit }
    requires fits { part_size number part (reverse left.now) < bytes_limit }
    ensures { result ≡ part_size number part (reverse left.now) }
{
    match part.target {
        None => part.size,
        Some(target) => {
            let over = target.saturating_sub(number).saturating_sub(1);
            part.size + label_size(form_for(offset_over(left, over)))
        }
    }
}

/// How many bytes there are from each part on to the end, the end's first. It goes from the end to
/// the beginning, and each branch gets its form once, the shortest: what it leads over has its
/// forms by then.
///
/// # Errors
///
/// `AllocError` where memory is refused.
pub fn lay_out(alloc: Global, parts: &[Part]) -> Result<Vec<usize>, AllocError>
    requires { first (lefts 0 parts.now) < bytes_limit }
    ensures { IfOk result (λ left. left.items ≡ reverse (lefts 0 parts.now)) }
{
    let mut left = Vec::with_capacity(alloc, parts.len().saturating_add(1))?;
    left.push(0)?;
    let mut end = 0;
    for done in 0..parts.len() {
        let number = parts.len() - 1 - done;
        end += size_of(parts[number], &left, number);
        left.push(end)?;
    }
    Ok(left)
}

/// The branches to labels, in order of place, where `left` is what [`lay_out`] answers for these
/// parts: each has one byte of branch data exactly where its offset is 2 to 63, two bytes exactly
/// where it is another to 8,191, and the far form exactly where two bytes, all else as it is, would
/// not reach.
///
/// # Errors
///
/// `AllocError` where memory is refused.
pub fn branches(alloc: Global, parts: &[Part], left: &[usize]) -> Result<Vec<BranchUse>, AllocError>
    requires left { left.now ≡ reverse (lefts 0 parts.now) }
    requires small { first (lefts 0 parts.now) < bytes_limit }
    ensures uses { IfOk result (λ found. found.items ≡ uses 0 parts.now) }
    ensures shortest { IfOk result (λ found. All IsShortest found.items) }
{
    let mut found = Vec::new(alloc);
    for number in 0..parts.len() {
        if let Some(target) = parts[number].target {
            let after = &left[..parts.len() - number];
            let over = target.saturating_sub(number).saturating_sub(1);
            let offset = offset_over(after, over);
            found.push(BranchUse {
                form: form_for(offset),
                offset,
            })?;
        }
    }
    Ok(found)
}
