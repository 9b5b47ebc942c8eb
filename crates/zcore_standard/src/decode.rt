//! The instruction of an opcode, by its row of the table (Z-Machine Standards Document 1.1, section
//! 4).

ghost use Rattle.std.specs.Prelude.{◌≡◌, ◌≤◌, ◌<◌, ◌+◌, nat_lt, length, take, IfOk};
ghost use Rattle.zcore.specs.Instruction as known;
ghost use Rattle.zcore.specs.Layout.{longest_story};
ghost use Rattle.machine_decoding.specs.Seen.{seen};
ghost use Rattle.zcore_standard.specs.Instruction as definitions;
ghost use Rattle.zcore_standard.specs.Endings.{ends};

use crate::opcode::EXTENDED;
use machine_decoding::first_bytes::{
    FIRST_IS_VARIABLE, SECOND_IS_VARIABLE, SHORT_FORM, SHORT_OPCODE_NUMBERS, VARIABLE_FORM,
};
use machine_decoding::{
    BRANCH_ON_TRUE, Ending, OFFSETS, OMITTED, ONE_BYTE_BRANCH, OPERANDS, SMALL, TYPES, read_byte,
    read_each, read_types,
};
use zcore::{Branch, Fault, OpcodeRow, Operand};

/// A byte has so many types of operands (section 4.4.3).
const TYPES_IN_A_BYTE: usize = 4;

/// The types of the operands of the instruction at an address whose opcode has this row, how many
/// there are, and the address of the first operand.
///
/// # Errors
///
/// M1 where an operand is given after an omitted one; M2 where the types lie outside the story.
pub fn types_at(
    story: &[u8],
    at: usize,
    row: OpcodeRow,
) -> Result<([u8; OPERANDS], usize, usize), Fault>
    requires short { length story.now ≤ longest_story }
    requires within { at < length story.now }
    ensures types { seen (λ x. (take x.1 x.0, x.2)) result
        ≡ definitions.row_types story.now at row }
    ensures few { IfOk result (λ x. x.1 ≤ OPERANDS) }
    ensures within { IfOk result (λ x. x.2 ≤ length story.now) }
{
    read_by_form(story, has_more_types(row), story[at], at)
}

/// The same, where the first byte was read. In variable form the types are in two bytes if there may
/// be more.
fn read_by_form(
    story: &[u8],
    more: bool,
    first: u8,
    at: usize,
) -> Result<([u8; OPERANDS], usize, usize), Fault>
    requires short { length story.now ≤ longest_story }
    requires within { at < length story.now }
    ensures types { seen (λ x. (take x.1 x.0, x.2)) result
        ≡ definitions.types_at story.now more first at }
    ensures few { IfOk result (λ x. x.1 ≤ OPERANDS) }
    ensures within { IfOk result (λ x. x.2 ≤ length story.now) }
{
    if first == EXTENDED {
        read_types(story, more, at + 2)
    } else if first < SHORT_FORM {
        let x = first / FIRST_IS_VARIABLE % 2 + SMALL;
        let y = first / SECOND_IS_VARIABLE % 2 + SMALL;
        Ok((
            [x, y, OMITTED, OMITTED, OMITTED, OMITTED, OMITTED, OMITTED],
            2,
            at + 1,
        ))
    } else if first < VARIABLE_FORM {
        let (types, count) = short_types(first);
        Ok((types, count, at + 1))
    } else {
        read_types(story, more, at + 1)
    }
}

/// The types of the operands of an instruction in short form, and how many there are: one, or none
/// (section 4.4.1).
fn short_types(first: u8) -> ([u8; OPERANDS], usize)
    ensures types { take result.1 result.0 ≡ definitions.short_types first }
    ensures few { result.1 ≤ 1 }
{
    let x = first / SHORT_OPCODE_NUMBERS % TYPES;
    let count = if x == OMITTED { 0 } else { 1 };
    (
        [
            x, OMITTED, OMITTED, OMITTED, OMITTED, OMITTED, OMITTED, OMITTED,
        ],
        count,
    )
}

/// The variable for a result, where one is stored, and the address after it (section 4.6).
fn result_at(story: &[u8], stores: bool, at: usize) -> Result<(Option<u8>, usize), Fault>
    requires { at ≤ length story.now }
    ensures variable { seen (λ x. x) result ≡ definitions.result_at story.now stores at }
    ensures within { IfOk result (λ x. x.1 ≤ length story.now) }
{
    if stores {
        Ok((Some(read_byte(story, at)?), at + 1))
    } else {
        Ok((None, at))
    }
}

/// The branch data at an address, of one byte or two, and the address after them (section 4.7). M2
/// where they do not lie in the story.
pub fn branch_at(story: &[u8], at: usize) -> Result<(Branch, usize), Fault>
    requires { length story.now ≤ longest_story }
    ensures branch { seen (λ x. x) result ≡ known.branch_at story.now at }
    ensures within { IfOk result (λ x. x.1 ≤ length story.now) }
{
    let first = read_byte(story, at)?;
    let when = BRANCH_ON_TRUE <= first;
    if first / ONE_BYTE_BRANCH % 2 == 1 {
        let offset = first as u16 % OFFSETS;
        return Ok((Branch { when, offset }, at + 1));
    }
    let second = read_byte(story, at + 1)?;
    let offset = first as u16 % OFFSETS * 256 + second as u16;
    Ok((Branch { when, offset }, at + 2))
}

/// The branch, where there is one, and the address after it.
fn branch_after(story: &[u8], branches: bool, at: usize) -> Result<(Option<Branch>, usize), Fault>
    requires short { length story.now ≤ longest_story }
    requires at { at ≤ length story.now }
    ensures branch { seen (λ x. x) result ≡ definitions.branch_after story.now branches at }
    ensures within { IfOk result (λ x. x.1 ≤ length story.now) }
{
    if branches {
        let (branch, after) = branch_at(story, at)?;
        Ok((Some(branch), after))
    } else {
        Ok((None, at))
    }
}

/// The instruction at an address whose opcode has this row: how many operands it has, and what
/// follows them.
///
/// # Errors
///
/// M1 where the operands are not as many as the row says, or one is given after an omitted one; M2
/// where its bytes do not all lie in the story.
pub fn decode_row(
    story: &[u8],
    at: usize,
    row: OpcodeRow,
    operands: &mut [Operand; OPERANDS],
) -> Result<(usize, Ending), Fault>
    requires short { length story.now ≤ longest_story }
    requires within { at < length story.now }
    ensures instruction { seen (λ x. (
      record {
        operands = take x.0 operands.new;
        result = x.1.result;
        branch = x.1.branch;
      },
      x.1.after,
    )) result ≡ definitions.decode_row story.now at row }
    ensures few { IfOk result (λ x. x.0 ≤ OPERANDS) }
    ensures enough { IfOk result (λ x. row.least_operands ≤ x.0) }
    ensures within { IfOk result (λ x. x.1.after ≤ length story.now) }
    ensures size { length operands.new ≡ OPERANDS }
{
    let (types, count, after) = types_at(story, at, row)?;
    if count < row.least_operands || row.most_operands < count {
        return Err(Fault::Opcode);
    }
    let after = read_each(story, &types, count, after, operands)?;
    let ending = ending_at(story, row, after)?;
    Ok((count, ending))
}

/// The same, whatever the number of the operands.
///
/// # Errors
///
/// M1 where an operand is given after an omitted one; M2 where the bytes of the instruction do not
/// all lie in the story.
pub fn decode_any(
    story: &[u8],
    at: usize,
    row: OpcodeRow,
    operands: &mut [Operand; OPERANDS],
) -> Result<(usize, Ending), Fault>
    requires short { length story.now ≤ longest_story }
    requires within { at < length story.now }
    ensures within { IfOk result (λ x. x.1.after ≤ length story.now) }
    ensures size { length operands.new ≡ OPERANDS }
{
    let (types, count, after) = types_at(story, at, row)?;
    let after = read_each(story, &types, count, after, operands)?;
    let ending = ending_at(story, row, after)?;
    Ok((count, ending))
}

/// Whether an opcode with this row has a second byte of operand types in variable form (section
/// 4.4.3.1).
fn has_more_types(row: OpcodeRow) -> bool
    ensures { result ≡ nat_lt 4 row.most_operands }
{
    TYPES_IN_A_BYTE < row.most_operands
}

/// What follows the operands of an instruction, by its row of the table.
fn ending_at(story: &[u8], row: OpcodeRow, at: usize) -> Result<Ending, Fault>
    requires short { length story.now ≤ longest_story }
    requires at { at ≤ length story.now }
    ensures ending { seen (λ x. (x.result, x.branch, x.after)) result ≡ ends story.now row at }
    ensures within { IfOk result (λ x. x.after ≤ length story.now) }
{
    let (result, after) = result_at(story, row.has_result, at)?;
    let (branch, after) = branch_after(story, row.has_branch, after)?;
    Ok(Ending {
        result,
        branch,
        after: after as u32,
    })
}
