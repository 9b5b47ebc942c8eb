//! What is printed.

ghost use Rattle.std.specs.Prelude.{◌≡◌, ◌++◌, [], ◌∷◌, map, true, IfOk, OnOk};
ghost use Rattle.std.specs.List.{filter, list_all};
ghost use Rattle.zcore.specs.declared.instruction.Operation.TheVariants.{Print};
ghost use Rattle.ztext.specs.Alphabets.{is_printable};
ghost use Rattle.ztext.specs.Abbreviations.{encoded_with};
ghost use Rattle.ztext.specs.Text.{encoded};
ghost use Rattle.meaning.specs.Meaning as meaning;
ghost use Rattle.meaning.specs.Places as places;
ghost use Rattle.code_drafts.specs.Items as source_items;
ghost use Rattle.code_drafts.specs.Code.{as_operand};
ghost use Rattle.code_instructions.specs.Instructions.{character_code, prints_itself, tested_character};
ghost use Rattle.code_drafts.specs.Instructions as spec;
ghost use Rattle.code_drafts.specs.Bytes.{Adds, AddsCode, bytes_of_all};
ghost use Rattle.code_drafts.specs.Written.{addresses_of};

use code_drafts::{
    Addresses, FIRST, Operands, branching, constant, fault_address, plain, print_fault, pull,
    put_all, quit, variable_number,
};
use meaning::Cause;
use std::alloc::{AllocError, Global};
use zcore::{Abbreviations, Operand, Operation, TextFault, encode_text};

/// Texts of at most so many bytes are looked at before they are copied. A longer one mostly has a new
/// line or a double quote.
const SHORT_TEXT: usize = 24;

/// The opcode `print` (Z-Machine Standards Document 1.1, section 14). Its text follows it.
const PRINT: u8 = 0xB2;

/// A character between the quotes of a text: `^` is a new line, `~` a double quote.
fn character_of(byte: u8) -> u8
    ensures { result ≡ places.machine_character byte }
{
    match byte {
        b'^' => 13,
        b'~' => 34,
        _ => byte,
    }
}

fn is_printable(character: u8) -> bool
    ensures { result ≡ is_printable character }
{
    character == 13 || (character >= 32 && character <= 126)
}

/// Whether a byte between quotes is printed as it is.
fn prints_itself(byte: u8) -> bool
    ensures { result ≡ prints_itself byte }
{
    is_printable(byte) && character_of(byte) == byte
}

/// Whether each byte between quotes is printed as it is.
fn print_themselves(text: &[u8]) -> bool
    ensures { result ≡ list_all prints_itself text.now }
{
    text.iter().all(|byte| prints_itself(*byte))
}

/// The characters of what stands between the quotes of a text; what cannot be printed is left out.
fn characters(alloc: Global, text: &[u8]) -> Result<Vec<u8>, AllocError>
    ensures { IfOk result (λ v.
        v.items ≡ filter is_printable (map places.machine_character text.now)) }
{
    let mut characters = Vec::with_capacity(alloc, text.len())?;
    for byte in text {
        let character = character_of(*byte);
        if is_printable(character) {
            characters.push(character)?;
        }
    }
    Ok(characters)
}

/// The Z-text of printable characters, without abbreviations.
fn plain_text(alloc: Global, characters: &[u8]) -> Result<Vec<u8>, AllocError>
    requires { list_all is_printable characters.now ≡ true }
    ensures { IfOk result (λ v. v.items ≡ encoded characters.now) }
{
    match encode_text(alloc, characters) {
        Ok(text) => Ok(text),
        Err(TextFault::Memory) => Err(AllocError),
        Err(_) => unreachable!(),
    }
}

/// The Z-text of printable characters, with these abbreviations. Where there are none, none is
/// looked for at each character.
fn z_text(
    alloc: Global,
    abbreviations: &Abbreviations,
    characters: &[u8],
) -> Result<Vec<u8>, AllocError>
    requires { list_all is_printable characters.now ≡ true }
    ensures { IfOk result (λ v. v.items ≡ encoded_with abbreviations.now characters.now) }
{
    if abbreviations.texts().is_empty() {
        return plain_text(alloc, characters);
    }
    match abbreviations.encode(alloc, characters) {
        Ok(text) => Ok(text),
        Err(TextFault::Character) => unreachable!(),
        Err(_) => Err(AllocError),
    }
}

/// The Z-text of the bytes between quotes, with these abbreviations, by way of their characters.
fn text_by_characters(
    alloc: Global,
    abbreviations: &Abbreviations,
    text: &[u8],
) -> Result<Vec<u8>, AllocError>
    ensures { IfOk result (λ v. v.items ≡ encoded_with abbreviations.now
        (filter is_printable (map places.machine_character text.now))) }
{
    let characters = characters(alloc, text)?;
    z_text(alloc, abbreviations, &characters)
}

/// The Z-text of the bytes between quotes, with these abbreviations. Those of a short text are copied
/// only if some are not printed as they are.
fn quoted_text(
    alloc: Global,
    abbreviations: &Abbreviations,
    text: &[u8],
) -> Result<Vec<u8>, AllocError>
    ensures { IfOk result (λ v. v.items ≡ encoded_with abbreviations.now
        (filter is_printable (map places.machine_character text.now))) }
{
    if text.len() > SHORT_TEXT {
        return text_by_characters(alloc, abbreviations, text);
    }
    if print_themselves(text) {
        z_text(alloc, abbreviations, text)
    } else {
        text_by_characters(alloc, abbreviations, text)
    }
}

/// The text between quotes is printed, with these abbreviations.
pub fn put_text(
    bytes: &mut Vec<u8>,
    alloc: Global,
    abbreviations: &Abbreviations,
    text: &[u8],
) -> Result<(), AllocError>
    ensures { OnOk result (Adds bytes.old bytes.new
        (bytes_of_all (spec.plain Print [] ∷ [])
        ++ encoded_with abbreviations.now
        (filter is_printable (map places.machine_character text.now)))) }
{
    bytes.push(PRINT)?;
    let text = quoted_text(alloc, abbreviations, text)?;
    bytes.extend_from_slice(&text)?;
    Ok(())
}

/// The word of a variable is printed as a character, or the text of the fault that it is none, and
/// the story ends.
fn put_tested(
    bytes: &mut Vec<u8>,
    addresses: &Addresses<'_>,
    variable: u8,
) -> Result<(), AllocError>
    ensures { OnOk result (AddsCode bytes.old bytes.new
        (tested_character (addresses_of addresses.now) variable)) }
{
    let word = Operand::Variable(variable);
    let ends = Operands::Three(word, Operand::Small(0), Operand::Small(13));
    let below = Operands::Two(word, Operand::Small(32));
    let above = Operands::Two(word, Operand::Small(126));
    put_all(
        bytes,
        &[
            branching(Operation::JumpIfEqual, ends, true, 14),
            branching(Operation::JumpIfLess, below, true, 6),
            branching(Operation::JumpIfGreater, above, false, 6),
            print_fault(fault_address(addresses, Cause::NotACharacter)),
            quit(),
            plain(Operation::PrintCharacter, Operands::One(word)),
        ],
    )
}

fn is_character(number: u16) -> bool
    ensures { result ≡ meaning.is_character number }
{
    number == 0 || number == 13 || (number >= 32 && number <= 126)
}

/// A number is printed as a character without a test, or is the fault that it is none.
fn put_character_number(
    bytes: &mut Vec<u8>,
    addresses: &Addresses<'_>,
    number: u16,
) -> Result<(), AllocError>
    ensures { OnOk result (AddsCode bytes.old bytes.new
        (character_code (addresses_of addresses.now) (source_items.number number))) }
{
    if is_character(number) {
        let operands = Operands::One(constant(number));
        put_all(bytes, &[plain(Operation::PrintCharacter, operands)])
    } else {
        put_all(
            bytes,
            &[
                print_fault(fault_address(addresses, Cause::NotACharacter)),
                quit(),
            ],
        )
    }
}

/// A word is printed as a character, or the text of the fault that it is none, and the story ends.
#[tactic(auto, using(code_drafts::proofs::Chains::all_joined))]
pub fn put_character(
    bytes: &mut Vec<u8>,
    addresses: &Addresses<'_>,
    operand: code_drafts::Operand,
) -> Result<(), AllocError>
    ensures { OnOk result (AddsCode bytes.old bytes.new
        (character_code (addresses_of addresses.now) (as_operand operand))) }
{
    match operand {
        code_drafts::Operand::Pushed => {
            put_all(bytes, &[pull(FIRST)])?;
            put_tested(bytes, addresses, FIRST)
        }
        code_drafts::Operand::Number(number) => put_character_number(bytes, addresses, number),
        code_drafts::Operand::Variable(variable) => {
            put_tested(bytes, addresses, variable_number(variable))
        }
    }
}
