//! Where all stands to which the code of a routine refers.

ghost use Rattle.std.specs.Prelude.{◌≡◌, slice_index};
ghost use Rattle.code_drafts.specs.Addresses as spec;
ghost use Rattle.code_drafts.specs.Written.{sizes_in};

use meaning::Cause;
use zcore::Abbreviations;

/// The packed addresses of a story's routines and the addresses of its arrays, each in order of
/// definition, and the packed addresses of the texts of its faults, in the order of `Cause`.
#[derive(Clone, Copy)]
pub struct Addresses<'a> {
    pub routines: &'a [u16],
    pub arrays: &'a [u16],
    pub faults: &'a [u16],
}

/// The numbers of properties are less than this.
pub const PROPERTY_NUMBERS: usize = 64;

/// How many bytes each array of a program has, in order of definition, how many objects it has, and
/// its abbreviations.
#[derive(Clone, Copy)]
pub struct Sizes<'a> {
    pub arrays: &'a [usize],
    pub objects: usize,
    pub abbreviations: &'a Abbreviations,

    /// By the number of each property, whether it has one word wherever an object provides it.
    pub singles: [bool; PROPERTY_NUMBERS],
}

/// Whether the property of a number has one word wherever an object provides it.
pub fn has_one_word(sizes: &Sizes<'_>, property: u8) -> bool
    ensures { result ≡ spec.has_one_word (sizes_in sizes.now) property }
{
    let number = usize::from(property);
    number < PROPERTY_NUMBERS && sizes.singles[number]
}

/// The address of a number, 0 where there is none.
fn address_at(addresses: &[u16], number: usize) -> u16
    ensures { result ≡ slice_index addresses.now number }
{
    match addresses.get(number) {
        Some(address) => *address,
        None => 0,
    }
}

/// The packed address of the routine of a number, 0 where there is none.
pub fn routine_address(addresses: &Addresses<'_>, routine: usize) -> u16
    ensures { result ≡ slice_index addresses.now.routines.now routine }
{
    address_at(addresses.routines, routine)
}

/// The address of the array of a number, 0 where there is none.
pub fn array_address(addresses: &Addresses<'_>, array: usize) -> u16
    ensures { result ≡ slice_index addresses.now.arrays.now array }
{
    address_at(addresses.arrays, array)
}

/// The number of a fault's text.
fn number_of(cause: Cause) -> usize
    ensures { result ≡ spec.number_of cause }
{
    match cause {
        Cause::DivisionByZero => 0,
        Cause::NotAnObject => 1,
        Cause::IndexOutOfRange => 2,
        Cause::NoSuchProperty => 3,
        Cause::PropertyOfManyWords => 4,
        Cause::ObjectInsideItself => 5,
        Cause::NotACharacter => 6,
        Cause::BufferTooSmall => 7,
    }
}

/// The packed address of the text of a fault, 0 where there is none.
pub fn fault_address(addresses: &Addresses<'_>, cause: Cause) -> u16
    ensures { result ≡ slice_index addresses.now.faults.now (spec.number_of cause) }
{
    address_at(addresses.faults, number_of(cause))
}
