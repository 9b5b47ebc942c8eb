//! Lines that a story reads.

ghost use Rattle.std.specs.Prelude.{◌≡◌, ◌<◌, ◌∷◌, OnOk};
ghost use Rattle.code_drafts.specs.Bytes.{AddsCode};
ghost use Rattle.code_drafts.specs.Written.{addresses_of, instruction_of};
ghost use Rattle.code.specs.ItemCode as spec;

use crate::entries::Array;
use code_drafts::{Addresses, FIRST, Instruction, Operands, giving, plain, put_all};
use code_instructions::put_tested_between;
use meaning::Cause;
use std::alloc::AllocError;
use zcore::{Operand, Operation};

/// How many letters an array has room for.
fn letters_in(array: Array) -> u16
    ensures value { result ≡ spec.letters_in array.size }
    ensures small { result < 65535 }
{
    array.size.saturating_sub(2)
}

/// How many words an array has room for.
fn words_in(array: Array) -> u16
    ensures value { result ≡ spec.words_in array.size }
    ensures small { result < 65535 }
{
    array.size.saturating_sub(2) / 4
}

/// Byte 0 of an array goes to a variable of the compiler.
fn first_byte(address: u16) -> Instruction
    ensures { instruction_of result ≡ spec.first_byte address }
{
    let operands = Operands::Two(Operand::Large(address), Operand::Small(0));
    giving(Operation::LoadByte, operands, FIRST)
}

/// Byte 0 of an array is tested: where it is not from 1 to the most, the text of the fault is
/// printed, and the story ends.
#[tactic(auto, using(code_drafts::proofs::Chains::all_joined))]
fn put_tested_first(
    bytes: &mut Vec<u8>,
    addresses: &Addresses<'_>,
    address: u16,
    most: u16,
) -> Result<(), AllocError>
    requires { most < 65535 }
    ensures { OnOk result (AddsCode bytes.old bytes.new
        (spec.first_byte address ∷ spec.tested_first (addresses_of addresses.now) most)) }
{
    put_all(bytes, &[first_byte(address)])?;
    put_tested_between(bytes, addresses, Cause::BufferTooSmall, 1, most + 1, FIRST)
}

/// The next line is read to two arrays that have room for it.
fn put_line(bytes: &mut Vec<u8>, text: u16, parse: u16) -> Result<(), AllocError>
    ensures { OnOk result (AddsCode bytes.old bytes.new (spec.line_code text parse)) }
{
    let letters = Operand::Large(text);
    let count = Operands::Three(letters, Operand::Small(1), Operand::Small(0));
    let buffers = Operands::Two(letters, Operand::Large(parse));
    put_all(
        bytes,
        &[
            plain(Operation::StoreByte, count),
            giving(Operation::Read, buffers, FIRST),
        ],
    )
}

/// The next line goes to an array for its letters and an array for its words.
#[tactic(auto, using(code_drafts::proofs::Chains::three_joined))]
pub fn put_read(
    bytes: &mut Vec<u8>,
    addresses: &Addresses<'_>,
    text: Array,
    parse: Array,
) -> Result<(), AllocError>
    ensures { OnOk result (AddsCode bytes.old bytes.new (spec.read_code
        (addresses_of addresses.now) text.size text.address parse.size parse.address)) }
{
    put_tested_first(bytes, addresses, text.address, letters_in(text))?;
    put_tested_first(bytes, addresses, parse.address, words_in(parse))?;
    put_line(bytes, text.address, parse.address)
}
