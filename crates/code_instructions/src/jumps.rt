//! Branches and jumps to other items.

ghost use Rattle.std.specs.Prelude.{◌≡◌, ◌≤◌, ◌+◌, ◌++◌, [], ◌∷◌, length, take, not, IfOk, OnOk};
ghost use Rattle.zcore.specs.declared.instruction.Operation.TheVariants.{Jump};
ghost use Rattle.zcore.specs.declared.instruction.Operand.TheVariants.{Large};
ghost use Rattle.code_drafts.specs.Items as source_items;
ghost use Rattle.code_drafts.specs.Code.{as_operand, as_operands, as_test};
ghost use Rattle.code_drafts.specs.Instructions.{plain};
ghost use Rattle.code_instructions.specs.Instructions.{labelled, ordered_code, tested_code, branch_code};
ghost use Rattle.code_instructions.specs.Instructions.{test_operation};
ghost use Rattle.code_drafts.specs.Instructions as basic;
ghost use Rattle.code_instructions.specs.Instructions as spec;
ghost use Rattle.code_drafts.specs.Bytes.{AddsCode};
ghost use Rattle.meaning.specs.Limits.{most_arguments};

use code_drafts::{
    ASIDE, MOST_COMPARED, Operands, TWO_BYTE_LIMIT, Test, constant, in_place, name_second, plain,
    put_all, put_instruction, put_named, put_takes,
};
use std::alloc::{AllocError, Global};
use zcore::{Branch, Operand, Operation};

/// The most operands of an instruction that branches.
const MOST_TESTED: usize = 4;

/// The signed word that no word is less than.
const LEAST_WORD: u16 = 0x8000;

/// The branch by a label that leads over the opposite branch and a jump.
const OVER_JUMP: u16 = 5;

/// The offset of a branch back is below this: it has 14 bits (Z-Machine Standards Document 1.1,
/// section 4.7).
const BACK_LIMIT: usize = 16384;

/// The offset of a jump that leads from the address after it to another.
pub fn jump_offset(after: usize, target: usize) -> u16
    ensures { result ≡ basic.jump_offset after target }
{
    ((target as u128 + 65538).saturating_sub(after as u128) % 65536) as u16
}

/// A jump by an offset.
pub fn put_jump(bytes: &mut Vec<u8>, offset: u16) -> Result<(), AllocError>
    ensures { OnOk result (AddsCode bytes.old bytes.new (plain Jump (Large offset ∷ []) ∷ [])) }
{
    put_all(
        bytes,
        &[plain(Operation::Jump, Operands::One(Operand::Large(offset)))],
    )
}

/// A branch by an offset below a limit, or the opposite branch over a jump for any other.
#[tactic(auto, using(code_drafts::proofs::Chains::one_there, code_drafts::proofs::Chains::two_there))]
fn put_labelled_below(
    bytes: &mut Vec<u8>,
    limit: usize,
    operation: Operation,
    operands: &[Operand],
    when: bool,
    offset: usize,
) -> Result<(), AllocError>
    requires { limit ≤ spec.back_limit }
    ensures { OnOk result (AddsCode bytes.old bytes.new
        (spec.labelled_below limit operation operands.now when offset)) }
{
    if offset < limit {
        let branch = Branch {
            when,
            offset: offset as u16,
        };
        put_instruction(bytes, operation, operands, None, Some(branch))?;
    } else {
        let over = Branch {
            when: !when,
            offset: OVER_JUMP,
        };
        put_instruction(bytes, operation, operands, None, Some(over))?;
        put_jump(bytes, (offset % 65536) as u16)?;
    }
    Ok(())
}

/// A branch ahead by an offset of two bytes, or the opposite branch over a jump where it does not
/// reach.
pub fn put_labelled(
    bytes: &mut Vec<u8>,
    operation: Operation,
    operands: &[Operand],
    when: bool,
    offset: usize,
) -> Result<(), AllocError>
    ensures { OnOk result (AddsCode bytes.old bytes.new
        (labelled operation operands.now when offset)) }
{
    put_labelled_below(bytes, TWO_BYTE_LIMIT, operation, operands, when, offset)
}

/// The instruction of a test.
fn operation_of(test: Test) -> Operation
    ensures { result ≡ test_operation (as_test test) }
{
    match test {
        Test::IsZero => Operation::JumpIfZero,
        Test::Less => Operation::JumpIfLess,
        Test::Greater => Operation::JumpIfGreater,
        Test::Same => Operation::JumpIfEqual,
    }
}

/// Whether a test asks that a word equals one of none.
#[tactic(auto, using(crate::proofs::Givens::asks_one))]
fn asks_none(test: Test, operands: &[code_drafts::Operand]) -> bool
    ensures { result ≡ spec.asks_none (as_test test) (as_operands operands.now) }
{
    match test {
        Test::Same => operands.len() == 1,
        _ => false,
    }
}

/// The test of two operands that stand the other way round.
fn reverse_test(test: Test) -> Test
    ensures { as_test result ≡ spec.reverse_test (as_test test) }
{
    match test {
        Test::IsZero => Test::IsZero,
        Test::Less => Test::Greater,
        Test::Greater => Test::Less,
        Test::Same => Test::Same,
    }
}

/// Whether there are two operands, both pushed.
fn are_both_pushed(operands: &[code_drafts::Operand]) -> bool
    ensures { result ≡ spec.are_both_pushed (as_operands operands.now) }
{
    matches!(
        operands,
        [code_drafts::Operand::Pushed, code_drafts::Operand::Pushed]
    )
}

/// A branch by a label, with one operand.
fn put_labelled_one(
    bytes: &mut Vec<u8>,
    limit: usize,
    operation: Operation,
    operand: code_drafts::Operand,
    when: bool,
    offset: usize,
) -> Result<(), AllocError>
    requires { limit ≤ spec.back_limit }
    ensures { OnOk result (AddsCode bytes.old bytes.new
        (spec.labelled_below limit operation (basic.operands (as_operand operand ∷ []))
        when offset)) }
{
    put_labelled_below(bytes, limit, operation, &[in_place(operand)], when, offset)?;
    Ok(())
}

/// A branch by a label, with two operands. If both are pushed, the second was taken before.
fn put_labelled_two(
    bytes: &mut Vec<u8>,
    limit: usize,
    operation: Operation,
    left: code_drafts::Operand,
    right: code_drafts::Operand,
    when: bool,
    offset: usize,
) -> Result<(), AllocError>
    requires { limit ≤ spec.back_limit }
    ensures { OnOk result (AddsCode bytes.old bytes.new
        (spec.labelled_below limit operation
        (basic.operands (as_operand left ∷ as_operand right ∷ [])) when offset)) }
{
    let operands = [in_place(left), name_second(left, right)];
    put_labelled_below(bytes, limit, operation, &operands, when, offset)?;
    Ok(())
}

/// A branch by a label. Of the operands that are pushed, all but the first were taken before.
fn put_labelled_any(
    bytes: &mut Vec<u8>,
    alloc: Global,
    limit: usize,
    operation: Operation,
    operands: &[code_drafts::Operand],
    when: bool,
    offset: usize,
) -> Result<(), AllocError>
    requires few { length operands.now ≤ most_arguments }
    requires within { limit ≤ spec.back_limit }
    ensures { OnOk result (AddsCode bytes.old bytes.new
        (spec.labelled_below limit operation (basic.operands (as_operands operands.now))
        when offset)) }
{
    let mut named = Vec::new(alloc);
    put_named(&mut named, operands)?;
    put_labelled_below(bytes, limit, operation, &named, when, offset)?;
    Ok(())
}

/// The same. Most branches have one operand or two, for which no memory is asked for.
fn put_labelled_named(
    bytes: &mut Vec<u8>,
    alloc: Global,
    limit: usize,
    operation: Operation,
    operands: &[code_drafts::Operand],
    when: bool,
    offset: usize,
) -> Result<(), AllocError>
    requires few { length operands.now ≤ most_arguments }
    requires within { limit ≤ spec.back_limit }
    ensures { OnOk result (AddsCode bytes.old bytes.new
        (spec.labelled_below limit operation (basic.operands (as_operands operands.now))
        when offset)) }
{
    match operands {
        [operand] => put_labelled_one(bytes, limit, operation, *operand, when, offset)?,
        [left, right] => put_labelled_two(bytes, limit, operation, *left, *right, when, offset)?,
        _ => put_labelled_any(bytes, alloc, limit, operation, operands, when, offset)?,
    }
    Ok(())
}

/// A branch by a test of its operands, of which all but the first are taken from the stack before.
fn put_ordered(
    bytes: &mut Vec<u8>,
    alloc: Global,
    limit: usize,
    test: Test,
    operands: &[code_drafts::Operand],
    when: bool,
    offset: usize,
) -> Result<(), AllocError>
    requires few { length operands.now ≤ most_arguments }
    requires within { limit ≤ spec.back_limit }
    ensures { OnOk result (AddsCode bytes.old bytes.new
        (spec.ordered_below limit (as_test test) (as_operands operands.now) when offset)) }
{
    put_takes(bytes, operands)?;
    put_labelled_named(
        bytes,
        alloc,
        limit,
        operation_of(test),
        operands,
        when,
        offset,
    )?;
    Ok(())
}

/// A branch by a test of its operands. Of two pushed words the right one is on the top: they are
/// taken as they stand, by the turned test.
fn put_tested(
    bytes: &mut Vec<u8>,
    alloc: Global,
    limit: usize,
    test: Test,
    operands: &[code_drafts::Operand],
    when: bool,
    offset: usize,
) -> Result<(), AllocError>
    requires few { length operands.now ≤ most_arguments }
    requires within { limit ≤ spec.back_limit }
    ensures { OnOk result (AddsCode bytes.old bytes.new
        (spec.tested_below limit (as_test test) (as_operands operands.now) when offset)) }
{
    if are_both_pushed(operands) {
        let top = in_place(code_drafts::Operand::Pushed);
        put_labelled_below(
            bytes,
            limit,
            operation_of(reverse_test(test)),
            &[top, top],
            when,
            offset,
        )
    } else {
        put_ordered(bytes, alloc, limit, test, operands, when, offset)
    }
}

/// A branch by the test that a word equals one of none, which is never so: no word is less than the
/// least one.
fn put_never(
    bytes: &mut Vec<u8>,
    alloc: Global,
    limit: usize,
    operands: &[code_drafts::Operand],
    when: bool,
    offset: usize,
) -> Result<(), AllocError>
    requires few { length operands.now ≤ basic.most_tested }
    requires within { limit ≤ spec.back_limit }
    ensures { OnOk result (AddsCode bytes.old bytes.new
        (spec.tested_below limit source_items.less (as_operands operands.now
        ++ source_items.number spec.least_word ∷ []) when offset)) }
{
    let mut asked = Vec::from_slice(alloc, operands)?;
    asked.push(code_drafts::Operand::Number(LEAST_WORD))?;
    put_tested(bytes, alloc, limit, Test::Less, &asked, when, offset)?;
    Ok(())
}

/// A branch by a test of at most four operands, by an offset below a limit.
fn put_branch_below(
    bytes: &mut Vec<u8>,
    alloc: Global,
    limit: usize,
    test: Test,
    operands: &[code_drafts::Operand],
    when: bool,
    offset: usize,
) -> Result<(), AllocError>
    requires { limit ≤ spec.back_limit }
    ensures { OnOk result (AddsCode bytes.old bytes.new (spec.branch_below limit (as_test test)
        (take basic.most_tested (as_operands operands.now)) when offset)) }
{
    let operands = &operands[..operands.len().min(MOST_TESTED)];
    if asks_none(test, operands) {
        put_never(bytes, alloc, limit, operands, when, offset)
    } else {
        put_tested(bytes, alloc, limit, test, operands, when, offset)
    }
}

/// A branch ahead by a test of at most four operands.
pub fn put_branch(
    bytes: &mut Vec<u8>,
    alloc: Global,
    test: Test,
    operands: &[code_drafts::Operand],
    when: bool,
    offset: usize,
) -> Result<(), AllocError>
    ensures { OnOk result (AddsCode bytes.old bytes.new (branch_code (as_test test)
        (take basic.most_tested (as_operands operands.now)) when offset)) }
{
    put_branch_below(bytes, alloc, TWO_BYTE_LIMIT, test, operands, when, offset)
}

/// A branch back by a test of at most four operands, by an offset as it is in two bytes, or the
/// opposite branch over a jump by an offset of 65,536 less.
pub fn put_branch_back(
    bytes: &mut Vec<u8>,
    alloc: Global,
    test: Test,
    operands: &[code_drafts::Operand],
    when: bool,
    offset: usize,
) -> Result<(), AllocError>
    ensures { OnOk result (AddsCode bytes.old bytes.new (spec.branch_below spec.back_limit
        (as_test test) (take basic.most_tested (as_operands operands.now)) when offset)) }
{
    put_branch_below(bytes, alloc, BACK_LIMIT, test, operands, when, offset)
}

/// The word of a `switch` and the numbers that a test of its cases compares it with.
fn case_operands(alloc: Global, numbers: &[u16]) -> Result<Vec<Operand>, AllocError>
    ensures { IfOk result (λ v. v.items ≡ spec.case_operands numbers.now) }
{
    let mut operands = Vec::new(alloc);
    operands.push(Operand::Variable(ASIDE))?;
    for number in &numbers[..numbers.len().min(MOST_COMPARED)] {
        operands.push(constant(*number))?;
    }
    Ok(operands)
}

/// A branch by a test of the word of a `switch`. Most compare it with one number, for which no
/// memory is asked for.
pub fn put_case(
    bytes: &mut Vec<u8>,
    alloc: Global,
    test: Test,
    numbers: &[u16],
    when: bool,
    offset: usize,
) -> Result<(), AllocError>
    ensures { OnOk result (AddsCode bytes.old bytes.new
        (spec.case_code (as_test test) numbers.now when offset)) }
{
    if let [number] = numbers {
        let operands = [Operand::Variable(ASIDE), constant(*number)];
        put_labelled(bytes, operation_of(test), &operands, when, offset)?;
        return Ok(());
    }
    let operands = case_operands(alloc, numbers)?;
    put_labelled(bytes, operation_of(test), &operands, when, offset)?;
    Ok(())
}
