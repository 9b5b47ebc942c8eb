//! Calls of routines with initial values for their locals (Z-Machine Standards Document 1.1, sections
//! 5.2 and 6.4.4).

ghost use Rattle.std.specs.Prelude.{◌≡◌, ◌≤◌, ◌+◌, ◌*◌, false, length, take, IfSome, IfNone};
ghost use Rattle.zcore.specs.Layout.{longest_story};
ghost use Rattle.machine_frames.specs.States.{IsStoreOf};
ghost use Rattle.machine_frames.specs.Went.{Went};
ghost use Rattle.zcore_versions.specs.Calls as definitions;
ghost use Rattle.zcore_versions.specs.Calls.{words_at, has_values, set_locals};
ghost use Rattle.zcore_versions.specs.Versions.{is_late};
ghost use Rattle.machine_opcodes.specs.Routines.{last_routine};
ghost use Rattle.zcore.specs.Layout.{most_locals};
ghost use Rattle.machine_versions.specs.Beginnings.{Begins};

use journal::Recorded;
use machine_frames::{End, Store, write_variable};
use machine_opcodes::{call, give_result};
use zcore::layout::MOST_LOCALS;
use zcore::{Fault, Header, Next, Place};
use zcore_versions::StoryVersion;

/// What a routine's header says (section 5.2).
#[derive(Clone, Copy, Debug)]
pub(crate) struct Beginning {
    /// Where its code begins.
    code: u32,

    /// How many locals get no argument.
    count: usize,

    /// Their initial values.
    values: [u16; MOST_LOCALS],
}

/// A call of a routine at a packed address, in any version: address 0 calls nothing and gives 0 at once.
///
/// # Errors
///
/// As those of a call in version 5; M2 where the story does not have the initial values.
pub fn call_older(
    header: &Header,
    store: &mut Recorded<Store>,
    version: StoryVersion,
    here: Next,
    after: u32,
    result_variable: Option<u8>,
    packed: u16,
    arguments: &[u16],
) -> Result<Next, End>
    requires store { IsStoreOf header.now store.old.store }
    requires early { is_late version ≡ false }
    requires offset { version.routine_offset ≤ longest_story }
    requires few { length arguments.now ≤ most_locals }
    ensures { Went result store.old store.new
        (definitions.call_older version here after result_variable packed arguments.now) }
{
    if packed == 0 {
        return give_result(header, store, here, after, result_variable, 0);
    }
    let routine = version.routine_at(packed);
    call_at(
        header,
        store,
        version,
        here,
        after,
        routine,
        arguments,
        result_variable,
    )
}

/// A call of a routine, with initial values up to version 4.
fn call_at(
    header: &Header,
    store: &mut Recorded<Store>,
    version: StoryVersion,
    here: Next,
    after: u32,
    routine: u32,
    arguments: &[u16],
    result_variable: Option<u8>,
) -> Result<Next, End>
    requires store { IsStoreOf header.now store.old.store }
    requires within { routine ≤ last_routine }
    requires few { length arguments.now ≤ most_locals }
    ensures { Went result store.old store.new
        (definitions.call_at version here after routine arguments.now result_variable) }
{
    if version.is_old() {
        return call_with_values(
            header,
            store,
            here,
            after,
            routine,
            arguments,
            result_variable,
        );
    }
    call(store, here, after, routine, arguments, result_variable)
}

/// A call of a routine whose header has initial values.
fn call_with_values(
    header: &Header,
    store: &mut Recorded<Store>,
    here: Next,
    after: u32,
    routine: u32,
    arguments: &[u16],
    result_variable: Option<u8>,
) -> Result<Next, End>
    requires store { IsStoreOf header.now store.old.store }
    requires within { routine ≤ last_routine }
    requires few { length arguments.now ≤ most_locals }
    ensures { Went result store.old store.new
        (definitions.call_with_values here after routine arguments.now result_variable) }
{
    let given = arguments.len();
    let Some(beginning) = beginning_of(store.store().memory(), routine as usize, given) else {
        return Err(End::Stop(Place::Fault(Fault::Code)));
    };
    let next = call(store, here, after, routine, arguments, result_variable)?;
    set_values(header, store, given, &beginning.values, beginning.count)?;
    Ok(Next {
        program_counter: beginning.code,
        fuel: next.fuel,
    })
}

/// What the header of a routine says, if it has at most 15 locals and the story has their values.
fn beginning_of(memory: &[u8], routine: usize, given: usize) -> Option<Beginning>
    requires short { length memory.now ≤ longest_story }
    requires within { routine ≤ last_routine }
    requires given { given ≤ most_locals }
    ensures some { IfSome result (Begins memory.now routine given) }
    ensures none { IfNone result (has_values memory.now routine ≡ false) }
{
    if memory.len() <= routine {
        return None;
    }
    let locals = memory[routine] as usize;
    let code = routine + 1 + 2 * locals;
    if MOST_LOCALS < locals || memory.len() < code {
        return None;
    }
    let count = locals.saturating_sub(given);
    let values = read_values(memory, routine + 1 + 2 * given, count);
    Some(Beginning {
        code: code as u32,
        count,
        values,
    })
}

/// So many words from an address on.
fn read_values(memory: &[u8], from: usize, count: usize) -> [u16; MOST_LOCALS]
    requires few { count ≤ most_locals }
    requires address { from ≤ 2097152 }
    requires within { 1 ≤ count → from + 2 * count ≤ length memory.now }
    ensures values { take count result ≡ words_at memory.now from count }
    ensures size { length result ≡ most_locals }
{
    let mut values = [0u16; MOST_LOCALS];
    for i in 0..count {
        let at = from + 2 * i;
        values[i] = memory[at] as u16 * 256 + memory[at + 1] as u16;
    }
    values
}

/// Writes locals from one on.
fn set_values(
    header: &Header,
    store: &mut Recorded<Store>,
    given: usize,
    values: &[u16; MOST_LOCALS],
    count: usize,
) -> Result<(), End>
    requires store { IsStoreOf header.now store.old.store }
    requires few { given + count ≤ 30 }
    requires size { count ≤ length values.now }
    ensures { Went result store.old store.new (set_locals given (take count values.now)) }
{
    for i in 0..count {
        write_variable(header, store, (given + i + 1) as u8, values[i])?;
    }
    Ok(())
}
