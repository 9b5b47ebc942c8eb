//! Jumps and branches (Z-Machine Standards Document 1.1, sections 4.7 and 15).

ghost use Rattle.std.specs.Prelude.{◌≡◌, ◌≤◌};
ghost use Rattle.zcore.specs.Layout.{longest_story};
ghost use Rattle.zcore.specs.Parts.{test_target, go, spend, jump_target, branch_target, take_branch, branch_on, test_taken, test_branch};
ghost use Rattle.zcore.specs.Execution.{jump, check_argument_count};
ghost use Rattle.machine_opcodes.specs.Says.{Says};
ghost use Rattle.machine_frames.specs.States.{IsSound, IsStoreOf};
ghost use Rattle.machine_frames.specs.Went.{Went};

use crate::arithmetic::NEGATIVE;
use crate::calls::give_back;
use journal::Recorded;
use machine_frames::{End, Store, has_argument, is_code, test_return};
use zcore::{Branch, Fault, Header, Limit, Next, Place};

/// From here on a branch's offset stands for itself less 16,384 (section 4.7).
const NEGATIVE_BRANCH: u16 = 0x2000;

/// A jump by a signed offset: `jump`.
///
/// # Errors
///
/// M2 where the target is no code, the limit of fuel where it does not lead on and no unit is left.
#[inline]
pub fn jump(store: &Recorded<Store>, here: Next, after: u32, offset: u16) -> Result<Next, End>
    requires sound { IsSound store.now.store }
    requires after { after ≤ longest_story }
    ensures { Went result store.now store.now (jump here after offset) }
{
    let target = jump_target(after, offset);
    test_target(store, target)?;
    go(here, target)
}

/// A branch by a condition, of `je`, `jl`, `jg`, `jz` or `test`: it is taken where the condition is
/// as the branch asks, and else the next instruction follows.
///
/// # Errors
///
/// M2 where the target is no code, and the faults of a return. `End::Memory` where memory was
/// refused: the turn is given up.
#[inline(always)]
pub fn branch_on(
    header: &Header,
    store: &mut Recorded<Store>,
    here: Next,
    after: u32,
    branch: Option<Branch>,
    holds: bool,
) -> Result<Next, End>
    requires store { IsStoreOf header.now store.old.store }
    requires after { after ≤ longest_story }
    ensures { Went result store.old store.new (branch_on here after branch holds) }
{
    match branch {
        None => Ok(Next {
            program_counter: after,
            fuel: here.fuel,
        }),
        Some(branch) => {
            if branch.when == holds {
                return take_branch(header, store, here, after, branch.offset);
            }
            Ok(Next {
                program_counter: after,
                fuel: here.fuel,
            })
        }
    }
}

/// A branch that is taken: offset 0 returns false, 1 returns true, and another leads to a target.
/// M2; M11, M6, M4.
#[inline]
fn take_branch(
    header: &Header,
    store: &mut Recorded<Store>,
    here: Next,
    after: u32,
    offset: u16,
) -> Result<Next, End>
    requires store { IsStoreOf header.now store.old.store }
    requires after { after ≤ longest_story }
    ensures { Went result store.old store.new (take_branch here after offset) }
{
    if offset < 2 {
        return give_back(header, store, here.fuel, offset);
    }
    let target = branch_target(after, offset);
    test_target(store, target)?;
    go(here, target)
}

/// Tests whether a branch by a condition can be made, and changes nothing.
///
/// # Errors
///
/// M2 where the target is no code, and the faults of a return.
#[inline]
pub fn test_branch(
    store: &Recorded<Store>,
    after: u32,
    branch: Option<Branch>,
    holds: bool,
) -> Result<(), End>
    requires sound { IsSound store.now.store }
    requires after { after ≤ longest_story }
    ensures { Went result store.now store.now (test_branch after branch holds) }
{
    match branch {
        None => Ok(()),
        Some(branch) => {
            if branch.when != holds {
                return Ok(());
            }
            test_taken(store, after, branch.offset)
        }
    }
}

/// Tests whether a branch can be taken, and changes nothing. M2; M11, M6, M4, M2 of a return.
#[inline]
fn test_taken(store: &Recorded<Store>, after: u32, offset: u16) -> Result<(), End>
    requires sound { IsSound store.now.store }
    requires after { after ≤ longest_story }
    ensures { Went result store.now store.now (test_taken after offset) }
{
    if offset < 2 {
        test_return(store)?;
        return Ok(());
    }
    test_target(store, branch_target(after, offset))
}

/// Branches where the call of the running routine gave an argument of this number, counted from 1:
/// `check_arg_count`.
///
/// # Errors
///
/// M2 where the target is no code, and the faults of a return. `End::Memory` where memory was
/// refused: the turn is given up.
#[inline]
pub fn check_argument_count(
    header: &Header,
    store: &mut Recorded<Store>,
    here: Next,
    after: u32,
    branch: Option<Branch>,
    number: u16,
) -> Result<Next, End>
    requires store { IsStoreOf header.now store.old.store }
    requires after { after ≤ longest_story }
    ensures { Went result store.old store.new (check_argument_count here after branch number) }
{
    let holds = has_argument(store, number);
    branch_on(header, store, here, after, branch, holds)
}

/// Where a jump goes: an offset counts from the address after the instruction, and 2 more. Below 0
/// is 0.
#[inline(always)]
fn jump_target(after: u32, offset: u16) -> u32
    requires { after ≤ longest_story }
    ensures { result ≡ jump_target after offset }
{
    let sum = after + offset as u32;
    if offset < NEGATIVE {
        sum.saturating_sub(2)
    } else {
        sum.saturating_sub(65_538)
    }
}

/// Where a branch leads: an offset of 14 bits counts from the address after the branch, and 2 more.
/// Below 0 is 0.
#[inline(always)]
pub fn branch_target(after: u32, offset: u16) -> u32
    requires { after ≤ longest_story }
    ensures { result ≡ branch_target after offset }
{
    let sum = after + offset as u32;
    if offset < NEGATIVE_BRANCH {
        sum.saturating_sub(2)
    } else {
        sum.saturating_sub(16_386)
    }
}

/// Tests whether code may stand at a target, and changes nothing. M2.
#[inline]
fn test_target(store: &Recorded<Store>, target: u32) -> Result<(), End>
    requires { IsSound store.now.store }
    ensures { Went result store.now store.now (test_target target) }
{
    if is_code(store.store().memory(), target as usize) {
        Ok(())
    } else {
        Err(End::Stop(Place::Fault(Fault::Code)))
    }
}

/// Goes to a target that was tested. One that does not lie after the instruction's own address
/// costs a unit of fuel.
#[inline]
fn go(here: Next, target: u32) -> Result<Next, End>
    ensures { Says result (go here target) }
{
    if here.program_counter < target {
        return Ok(Next {
            program_counter: target,
            fuel: here.fuel,
        });
    }
    let fuel = spend(here.fuel)?;
    Ok(Next {
        program_counter: target,
        fuel,
    })
}

/// The units of fuel that are left when one is spent. The limit of fuel.
#[inline]
pub(crate) fn spend(fuel: u32) -> Result<u32, End>
    ensures { Says result (spend fuel) }
{
    if fuel == 0 {
        return Err(End::Stop(Place::Limit(Limit::Fuel)));
    }
    Ok(fuel - 1)
}
