//! Calls of routines and returns from them (Z-Machine Standards Document 1.1, sections 6.4 and 15).

ghost use Rattle.std.specs.Prelude.{◌≡◌, ◌≤◌, ◌*◌, length};
ghost use Rattle.zcore.specs.Header.{scale_of};
ghost use Rattle.zcore.specs.Layout.{longest_story};
ghost use Rattle.zcore.specs.Parts.{call, give_back};
ghost use Rattle.zcore.specs.Execution.{call_packed, return_popped};
ghost use Rattle.machine_frames.specs.States.{IsSound, IsStoreOf};
ghost use Rattle.machine_frames.specs.Went.{Went};
ghost use Rattle.machine_opcodes.specs.Routines.{last_routine};

use crate::arithmetic::give_result;
use crate::jumps::spend;
use journal::Recorded;
use machine_frames::{
    End, Store, enter, leave, store_result, test_calls, test_return, test_routine, top,
};
use zcore::{Header, Next};

/// A call of a routine at a packed address: `call_vs`, `call_vs2`, and with no variable for the
/// result `call_1n`, `call_vn` and `call_vn2`. Address 0 calls nothing and gives 0 at once, for
/// which it spends nothing.
///
/// # Errors
///
/// M2 where no routine stands there, M6 where its locals find no room, the limit of calls, the
/// limit of fuel; at address 0 M6 and M4 of the result. `End::Memory` where memory was refused: the
/// turn is given up.
#[inline]
pub fn call_packed(
    header: &Header,
    store: &mut Recorded<Store>,
    here: Next,
    after: u32,
    result_variable: Option<u8>,
    packed: u16,
    arguments: &[u16],
) -> Result<Next, End>
    requires store { IsStoreOf header.now store.old.store }
    requires few { length arguments.now ≤ 15 }
    ensures { Went result store.old store.new
        (call_packed here after result_variable packed arguments.now) }
{
    if packed == 0 {
        return give_result(header, store, here, after, result_variable, 0);
    }
    let routine = unpacked(header, packed);
    call(store, here, after, routine, arguments, result_variable)
}

/// The address that a packed address stands for, in a story of this version (section 1.2.3).
#[inline]
pub fn unpacked(header: &Header, packed: u16) -> u32
    ensures same { result ≡ scale_of header.now.version * packed }
    ensures within { result ≤ longest_story }
{
    header.version.scale() * packed as u32
}

/// A call of a routine, whose code begins after the byte that counts its locals.
///
/// # Errors
///
/// M2 where no routine is there, M6 where its locals find no room, the limit of calls, the limit of
/// fuel. `End::Memory` where memory was refused: the turn is given up.
#[inline]
pub fn call(
    store: &mut Recorded<Store>,
    here: Next,
    after: u32,
    routine: u32,
    arguments: &[u16],
    result_variable: Option<u8>,
) -> Result<Next, End>
    requires sound { IsSound store.old.store }
    requires address { routine ≤ last_routine }
    requires few { length arguments.now ≤ 15 }
    ensures { Went result store.old store.new
        (call here after routine arguments.now result_variable) }
{
    test_routine(store, routine as usize)?;
    test_calls(store)?;
    let fuel = spend(here.fuel)?;
    enter(store, routine as usize, arguments, result_variable, after)?;
    Ok(Next {
        program_counter: routine + 1,
        fuel,
    })
}

/// Returns a word from the running routine: `ret`; `rtrue` returns 1, and `rfalse` 0.
///
/// # Errors
///
/// M11 in the first environment, M6 and M4 where the caller cannot store the result, M2 where the
/// address to go on at is no code. `End::Memory` where memory was refused: the turn is given up.
#[inline]
pub fn give_back(
    header: &Header,
    store: &mut Recorded<Store>,
    fuel: u32,
    word: u16,
) -> Result<Next, End>
    requires { IsStoreOf header.now store.old.store }
    ensures { Went result store.old store.new (give_back fuel word) }
{
    let (program_counter, result_variable) = test_return(store)?;
    leave(store)?;
    store_result(header, store, result_variable, word)?;
    Ok(Next {
        program_counter,
        fuel,
    })
}

/// Returns the word on the top of the stack: `ret_popped`.
///
/// # Errors
///
/// M5 where the stack is empty, M11 in the first environment, M6 and M4 where the caller cannot
/// store the result, M2 where the address to go on at is no code. `End::Memory` where memory was
/// refused: the turn is given up.
#[inline]
pub fn return_popped(header: &Header, store: &mut Recorded<Store>, here: Next) -> Result<Next, End>
    requires { IsStoreOf header.now store.old.store }
    ensures { Went result store.old store.new (return_popped here) }
{
    let word = top(store)?;
    give_back(header, store, here.fuel, word)
}
