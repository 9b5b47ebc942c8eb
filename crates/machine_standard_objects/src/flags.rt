//! Stores to Flags 2 in the header, of which a game may change bits 0 to 2 (Z-Machine Standards
//! Document 1.1, section 11.1).

ghost use Rattle.std.specs.Prelude.{◌≡◌};
ghost use Rattle.zcore_standard.specs.Flags as definitions;
ghost use Rattle.machine_frames.specs.States.{IsSound};
ghost use Rattle.machine_frames.specs.Went.{Went};

use crate::nothing::value_of;
use journal::Recorded;
use machine_frames::layout::MEMORY;
use machine_frames::{End, Store};
use machine_opcodes::word_address;
use zcore::{Next, Operation};

/// The first byte of Flags 2.
const FLAGS_2_HIGH: usize = 16;

/// The second byte, which has bits 0 to 7.
const FLAGS_2_LOW: usize = 17;

/// How many values bits 0 to 2 have.
const FREE_VALUES: u8 = 8;

/// The address to which `storeb` writes.
fn byte_address(values: &[u16]) -> usize
    ensures { result ≡ definitions.byte_address values.now }
{
    value_of(values, 0).wrapping_add(value_of(values, 1)) as usize
}

/// Whether an operation on these values stores to Flags 2, and to nothing else.
pub(crate) fn concerns_flags(operation: Operation, values: &[u16]) -> bool
    ensures { result ≡ definitions.concerns_flags operation values.now }
{
    match operation {
        Operation::StoreWord => word_address(value_of(values, 0), value_of(values, 1))
            == FLAGS_2_HIGH,
        Operation::StoreByte => {
            let at = byte_address(values);
            at == FLAGS_2_HIGH || at == FLAGS_2_LOW
        }
        _ => false,
    }
}

/// Whether such an operation stores to the byte that has bits 0 to 2.
fn has_free_bits(operation: Operation, values: &[u16]) -> bool
    ensures { result ≡ definitions.has_free_bits operation values.now }
{
    match operation {
        Operation::StoreByte => byte_address(values) == FLAGS_2_LOW,
        _ => true,
    }
}

/// Does such an operation: bits 0 to 2 change, and all others stay.
///
/// # Errors
///
/// `End::Memory` where memory was refused: the turn is given up.
pub(crate) fn perform_on_flags(
    store: &mut Recorded<Store>,
    here: Next,
    operation: Operation,
    values: &[u16],
    after: u32,
) -> Result<Next, End>
    requires { IsSound store.old.store }
    ensures { Went result store.old store.new
        (definitions.perform_on_flags operation here after values.now) }
{
    let next = Next {
        program_counter: after,
        fuel: here.fuel,
    };
    if !has_free_bits(operation, values) {
        return Ok(next);
    }
    let flags = store.store().byte(FLAGS_2_LOW);
    let bits = (value_of(values, 2) % FREE_VALUES as u16) as u8;
    let changed = flags / FREE_VALUES * FREE_VALUES + bits;
    store.put(MEMORY + FLAGS_2_LOW, changed as u16)?;
    Ok(next)
}
