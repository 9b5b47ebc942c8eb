//! Waiting for a line (Z-Machine Standards Document 1.1, section 15, `aread`).

ghost use Rattle.zcore.specs.Execution as steps;
ghost use Rattle.machine_frames.specs.States.{IsStoreOf};
ghost use Rattle.machine_frames.specs.Went.{Went};

use journal::Recorded;
use machine_frames::{End, Store, test_result};
use machine_lines::{test_parse_buffer, test_text_buffer, wait};
use zcore::{Header, Next};

/// Waits for a line: `aread`.
///
/// # Errors
///
/// M12 where the text buffer cannot take a line or the parse buffer no words, then M6 and M4 of the
/// result. `End::Memory` where memory was refused: the turn is given up.
#[inline(always)]
pub fn read(
    header: &Header,
    store: &mut Recorded<Store>,
    here: Next,
    after: u32,
    result_variable: Option<u8>,
    text_buffer: u16,
    parse_buffer: u16,
) -> Result<Next, End>
    requires { IsStoreOf header.now store.old.store }
    ensures { Went result store.old store.new
        (steps.read here after result_variable text_buffer parse_buffer) }
{
    test_text_buffer(header, store, text_buffer)?;
    test_parse_buffer(header, store, parse_buffer)?;
    test_result(store, result_variable)?;
    wait(store, text_buffer, parse_buffer, result_variable, after)
}
