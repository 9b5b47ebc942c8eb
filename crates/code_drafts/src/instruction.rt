//! Instructions and their bytes (Z-Machine Standards Document 1.1, section 4).

ghost use Rattle.std.specs.Prelude.{◌≡◌, ◌<◌, [], ◌∷◌, map, OnOk, IfSome};
ghost use Rattle.std.specs.List.{flat_map};
ghost use Rattle.zcore.specs.declared.instruction.Operand.TheVariants.{Large};
ghost use Rattle.zcore.specs.declared.instruction.Operation.TheVariants.{PrintPacked, Quit};
ghost use Rattle.zcore.specs.InstructionBytes.{bytes_of, operand_bytes, result_bytes, branch_bytes};
ghost use Rattle.code_drafts.specs.Written.{branch_of, operands_of, instruction_of};
ghost use Rattle.code_drafts.specs.Bytes.{Adds, AddsCode};
ghost use Rattle.code_drafts.specs.Instructions as spec;

use crate::opcode::put_opcode;
use std::alloc::AllocError;
use zcore::{Branch, Operand, Operation};

/// The operands of an instruction that has up to three.
#[derive(Clone, Copy)]
pub enum Operands {
    Zero,
    One(Operand),
    Two(Operand, Operand),
    Three(Operand, Operand, Operand),
}

/// A branch by an offset below 256.
#[derive(Clone, Copy)]
pub struct ShortBranch {
    /// Whether it is taken where the condition holds, or where it does not.
    pub when: bool,

    /// How far the target lies from the address after the branch, and 2 more.
    pub offset: u8,
}

/// An instruction.
#[derive(Clone, Copy)]
pub struct Instruction {
    pub operation: Operation,
    pub operands: Operands,
    pub result: Option<u8>,
    pub branch: Option<ShortBranch>,
}

fn put_operand(bytes: &mut Vec<u8>, operand: Operand) -> Result<(), AllocError>
    ensures { OnOk result (Adds bytes.old bytes.new (operand_bytes operand)) }
{
    match operand {
        Operand::Large(number) => {
            bytes.push((number / 256) as u8)?;
            bytes.push((number % 256) as u8)?;
        }
        Operand::Small(number) => bytes.push(number)?,
        Operand::Variable(number) => bytes.push(number)?,
    }
    Ok(())
}

fn put_operands(bytes: &mut Vec<u8>, operands: &[Operand]) -> Result<(), AllocError>
    ensures { OnOk result (Adds bytes.old bytes.new (flat_map operand_bytes operands.now)) }
{
    for operand in operands {
        put_operand(bytes, *operand)?;
    }
    Ok(())
}

fn put_result(bytes: &mut Vec<u8>, variable: Option<u8>) -> Result<(), AllocError>
    ensures { OnOk result (Adds bytes.old bytes.new (result_bytes variable)) }
{
    if let Some(variable) = variable {
        bytes.push(variable)?;
    }
    Ok(())
}

/// Where a branch leads, in one byte where its offset is below 64.
fn put_branch(bytes: &mut Vec<u8>, branch: Option<Branch>) -> Result<(), AllocError>
    requires { IfSome branch (λ b. b.offset < 16384) }
    ensures { OnOk result (Adds bytes.old bytes.new (branch_bytes branch)) }
{
    if let Some(branch) = branch {
        let when = if branch.when { 128 } else { 0 };
        if branch.offset < 64 {
            bytes.push(when + 64 + branch.offset as u8)?;
        } else {
            bytes.push(when + (branch.offset / 256) as u8)?;
            bytes.push((branch.offset % 256) as u8)?;
        }
    }
    Ok(())
}

/// The bytes of an instruction.
pub fn put_instruction(
    bytes: &mut Vec<u8>,
    operation: Operation,
    operands: &[Operand],
    variable: Option<u8>,
    branch: Option<Branch>,
) -> Result<(), AllocError>
    requires { IfSome branch (λ b. b.offset < 16384) }
    ensures { OnOk result (Adds bytes.old bytes.new
        (bytes_of (record {
          operation = operation;
          operands = operands.now;
          result = variable;
          branch = branch;
        }))) }
{
    put_opcode(bytes, operation, operands)?;
    put_operands(bytes, operands)?;
    put_result(bytes, variable)?;
    put_branch(bytes, branch)?;
    Ok(())
}

/// A branch as it is written.
fn long_branch(branch: Option<ShortBranch>) -> Option<Branch>
    ensures value { result ≡ branch_of branch }
    ensures small { IfSome result (λ b. b.offset < 16384) }
{
    match branch {
        None => None,
        Some(branch) => Some(Branch {
            when: branch.when,
            offset: branch.offset as u16,
        }),
    }
}

/// The bytes of an instruction of a list.
fn put_one(bytes: &mut Vec<u8>, instruction: Instruction) -> Result<(), AllocError>
    ensures { OnOk result (Adds bytes.old bytes.new (bytes_of (instruction_of instruction))) }
{
    let operation = instruction.operation;
    let result = instruction.result;
    let branch = long_branch(instruction.branch);
    match instruction.operands {
        Operands::Zero => put_instruction(bytes, operation, &[], result, branch)?,
        Operands::One(a) => put_instruction(bytes, operation, &[a], result, branch)?,
        Operands::Two(a, b) => put_instruction(bytes, operation, &[a, b], result, branch)?,
        Operands::Three(a, b, c) => {
            put_instruction(bytes, operation, &[a, b, c], result, branch)?
        }
    }
    Ok(())
}

/// The bytes of instructions, one after another.
pub fn put_all(bytes: &mut Vec<u8>, instructions: &[Instruction]) -> Result<(), AllocError>
    ensures { OnOk result (AddsCode bytes.old bytes.new (map instruction_of instructions.now)) }
{
    for instruction in instructions {
        put_one(bytes, *instruction)?;
    }
    Ok(())
}

/// One that stores no result and does not branch.
pub fn plain(operation: Operation, operands: Operands) -> Instruction
    ensures { instruction_of result ≡ spec.plain operation (operands_of operands) }
{
    Instruction {
        operation,
        operands,
        result: None,
        branch: None,
    }
}

/// One that stores its result in a variable.
pub fn giving(operation: Operation, operands: Operands, variable: u8) -> Instruction
    ensures { instruction_of result ≡ spec.giving operation (operands_of operands) variable }
{
    Instruction {
        operation,
        operands,
        result: Some(variable),
        branch: None,
    }
}

/// One that branches where its condition is as asked, by an offset below 64.
pub fn branching(operation: Operation, operands: Operands, when: bool, offset: u8) -> Instruction
    ensures { instruction_of result ≡ spec.branching operation (operands_of operands) when offset }
{
    Instruction {
        operation,
        operands,
        result: None,
        branch: Some(ShortBranch { when, offset }),
    }
}

/// A word is pushed.
pub fn push(operand: Operand) -> Instruction
    ensures { instruction_of result ≡ spec.push operand }
{
    plain(Operation::Push, Operands::One(operand))
}

/// The word on the top of the stack goes to a variable.
pub fn pull(variable: u8) -> Instruction
    ensures { instruction_of result ≡ spec.pull variable }
{
    plain(Operation::Pull, Operands::One(Operand::Small(variable)))
}

/// A word goes to a variable.
pub fn store(variable: u8, operand: Operand) -> Instruction
    ensures { instruction_of result ≡ spec.store variable operand }
{
    plain(
        Operation::Store,
        Operands::Two(Operand::Small(variable), operand),
    )
}

/// The word on the top of the stack goes to a variable too.
pub fn copy(variable: u8) -> Instruction
    ensures { instruction_of result ≡ spec.copy variable }
{
    giving(Operation::Load, Operands::One(Operand::Small(0)), variable)
}

/// The word on the top of the stack, which is taken.
pub const TOP: Operand = Operand::Variable(0);

/// The compiler's first variables.
pub const FIRST: u8 = 248;

pub const SECOND: u8 = 249;

pub const THIRD: u8 = 250;

pub const FOURTH: u8 = 251;

/// The variable of the word that is put aside for the next item.
pub const ASIDE: u8 = 255;

/// The text at a packed address is printed.
pub fn print_fault(text: u16) -> Instruction
    ensures { instruction_of result ≡ spec.plain PrintPacked (Large text ∷ []) }
{
    plain(Operation::PrintPacked, Operands::One(Operand::Large(text)))
}

/// The story ends.
pub fn quit() -> Instruction
    ensures { instruction_of result ≡ spec.plain Quit [] }
{
    plain(Operation::Quit, Operands::Zero)
}
