//! Memory as its differences from another memory of the same length.

ghost use Rattle.std.specs.Prelude.{◌≡◌, ◌≤◌, ◌<◌, ◌+◌, ◌-◌, ◌*◌, ◌^◌, ℕ, false, List, [], ◌∷◌, ◌++◌};
ghost use Rattle.std.specs.Prelude.{length, vec_capacity, vec_len, if◌then◌else◌, IfOk, IfSome, OnOk};
ghost use Rattle.iff_files.specs.Differences.{full_runs, packed, short_run, unpacked, with_equal};
ghost use Rattle.iff_files.specs.Steps.{Appends, AppendsPacked, IsStep};

use std::alloc::AllocError;

/// How many bytes are compared at once. As it is a constant, `starts_with` compares them by one machine
/// instruction, where `==` would call a function for any length.
const BLOCK: usize = 8;

/// How many equal bytes a run has at most.
const RUN: usize = 256;

/// How many bytes are appended for one at most: a short run and what the byte differs by.
const MOST: usize = 3;

/// How far reading has come.
#[derive(Clone, Copy)]
struct Place {
    /// How many bytes of memory are done.
    at: usize,

    /// Whether the count of a run comes next.
    is_run: bool,
}

/// Appends the differences of a memory from another.
///
/// # Errors
///
/// Memory was refused.
pub(crate) fn pack(base: &[u8], memory: &[u8], out: &mut Vec<u8>) -> Result<(), AllocError>
    requires { length base.now ≡ length memory.now }
    ensures { OnOk result (out.new.items ≡ out.old.items ++ packed 0 base.now memory.now) }
{
    let end = base.len() / BLOCK * BLOCK;
    let mut done = 0;
    let mut at = 0;
    while at < end {
        let next = at + BLOCK;
        done = put_block(out, done, at, &base[at..next], &memory[at..next])?;
        at = next;
    }
    put_bytes(out, at - done, &base[at..], &memory[at..])?;
    Ok(())
}

/// Appends the differences of the bytes at a place. Bytes before it from `done` on are equal and not
/// written yet; it returns from where on bytes are then.
#[inline(always)]
fn put_block(
    out: &mut Vec<u8>,
    done: usize,
    at: usize,
    was: &[u8],
    now: &[u8],
) -> Result<usize, AllocError>
    requires same { length was.now ≡ length now.now }
    requires order { done ≤ at }
    requires few { at + length was.now < 2 ^ 64 }
    ensures put { IfOk result (λ next. AppendsPacked (at - done) was.now now.now
        out.old.items out.new.items (at + length was.now - next)) }
    ensures order { IfOk result (λ next. next ≤ at + length was.now) }
{
    if was.starts_with(now) {
        return Ok(done);
    }
    let left = put_others(out, at - done, was, now)?;
    Ok(at + was.len() - left)
}

/// The same of bytes that differ. `equal` equal bytes come before them that are not written yet; it
/// returns how many there are then. Where no run of them can be longer than one is at most, room is
/// asked for once.
#[inline(always)]
fn put_others(out: &mut Vec<u8>, equal: usize, was: &[u8], now: &[u8]) -> Result<usize, AllocError>
    requires same { length was.now ≡ length now.now }
    requires few { equal + length was.now < 2 ^ 64 }
    ensures put { IfOk result (AppendsPacked equal was.now now.now out.old.items out.new.items) }
    ensures few { IfOk result (λ left. left ≤ equal + length was.now) }
{
    if equal + was.len() >= RUN {
        return put_bytes(out, equal, was, now);
    }
    out.reserve(MOST * was.len())?;
    Ok(fill_room(out, equal, was, now))
}

/// The same where there is room for what is appended.
#[inline(always)]
fn fill_room(out: &mut Vec<u8>, equal: usize, was: &[u8], now: &[u8]) -> usize
    requires same { length was.now ≡ length now.now }
    requires few { equal + length was.now < RUN }
    requires room { vec_len out.old + MOST * length was.now ≤ vec_capacity out.old }
    ensures put { AppendsPacked equal was.now now.now out.old.items out.new.items result }
    ensures few { result ≤ equal + length was.now }
{
    let mut left = equal;
    for i in 0..was.len() {
        left = fill_byte(out, left, was[i], now[i]);
    }
    left
}

/// The same for one byte.
#[inline(always)]
fn fill_byte(out: &mut Vec<u8>, equal: usize, was: u8, now: u8) -> usize
    requires few { equal < RUN }
    requires room { vec_len out.old + MOST ≤ vec_capacity out.old }
    ensures put { AppendsPacked equal (was ∷ []) (now ∷ []) out.old.items out.new.items result }
    ensures few { result ≤ equal + 1 }
    ensures long { vec_len out.new ≤ vec_len out.old + MOST }
    ensures capacity { vec_capacity out.new ≡ vec_capacity out.old }
{
    if was == now {
        return equal + 1;
    }
    fill_run(out, equal);
    out.push_reserved(was ^ now);
    0
}

/// Appends a run of so many equal bytes, or none, where there is room for it.
#[inline(always)]
fn fill_run(out: &mut Vec<u8>, equal: usize)
    requires few { equal < RUN }
    requires room { vec_len out.old + 2 ≤ vec_capacity out.old }
    ensures put { Appends (short_run equal) out.old.items out.new.items }
    ensures long { vec_len out.new ≤ vec_len out.old + 2 }
    ensures capacity { vec_capacity out.new ≡ vec_capacity out.old }
{
    if equal > 0 {
        out.push_reserved(0);
        out.push_reserved((equal - 1) as u8);
    }
}

/// Appends the differences of some bytes, however long a run is.
fn put_bytes(out: &mut Vec<u8>, equal: usize, was: &[u8], now: &[u8]) -> Result<usize, AllocError>
    requires same { length was.now ≡ length now.now }
    requires few { equal + length was.now < 2 ^ 64 }
    ensures put { IfOk result (AppendsPacked equal was.now now.now out.old.items out.new.items) }
    ensures few { IfOk result (λ left. left ≤ equal + length was.now) }
{
    let mut left = equal;
    for i in 0..was.len() {
        left = put_byte(out, left, was[i], now[i])?;
    }
    Ok(left)
}

/// The same for one byte.
#[inline(always)]
fn put_byte(out: &mut Vec<u8>, equal: usize, was: u8, now: u8) -> Result<usize, AllocError>
    requires { equal + 1 < 2 ^ 64 }
    ensures put { IfOk result (AppendsPacked equal (was ∷ []) (now ∷ []) out.old.items out.new.items) }
    ensures few { IfOk result (λ left. left ≤ equal + 1) }
{
    if was == now {
        return Ok(equal + 1);
    }
    put_equal(out, equal)?;
    out.push(was ^ now)?;
    Ok(0)
}

/// Appends a number of equal bytes.
#[inline(always)]
fn put_equal(out: &mut Vec<u8>, equal: usize) -> Result<(), AllocError>
    ensures { OnOk result (Appends (with_equal equal) out.old.items out.new.items) }
{
    if equal < RUN {
        put_short_run(out, equal as u8)?;
        return Ok(());
    }
    put_runs(out, equal)
}

/// The same for any number.
fn put_runs(out: &mut Vec<u8>, equal: usize) -> Result<(), AllocError>
    ensures { OnOk result (Appends (with_equal equal) out.old.items out.new.items) }
{
    put_full_runs(out, equal / RUN)?;
    put_short_run(out, (equal % RUN) as u8)?;
    Ok(())
}

/// Appends runs of 256 equal bytes.
fn put_full_runs(out: &mut Vec<u8>, runs: usize) -> Result<(), AllocError>
    ensures { OnOk result (Appends (full_runs runs) out.old.items out.new.items) }
{
    for _run in 0..runs {
        out.extend_from_slice(&[0, 255])?;
    }
    Ok(())
}

/// Appends a run of fewer equal bytes, or none.
#[inline(always)]
fn put_short_run(out: &mut Vec<u8>, equal: u8) -> Result<(), AllocError>
    ensures { OnOk result (Appends (short_run equal) out.old.items out.new.items) }
{
    if equal > 0 {
        out.extend_from_slice(&[0, equal - 1])?;
    }
    Ok(())
}

/// Applies differences to memory. It returns false if they are cut short or pass its end; memory
/// may be anything then.
pub(crate) fn unpack(memory: &mut [u8], differences: &[u8]) -> bool
    ensures { unpacked differences.now false memory.old ≡ (if result then Some memory.new else None) }
{
    let mut place = Place {
        at: 0,
        is_run: false,
    };
    for byte in differences {
        match step(memory, place, *byte) {
            Some(next) => place = next,
            None => return false,
        }
    }
    !place.is_run
}

/// Applies one byte of differences.
#[inline(always)]
fn step(memory: &mut [u8], place: Place, byte: u8) -> Option<Place>
    requires { place.at ≤ length memory.old }
    ensures step { IsStep memory.old place byte memory.new result }
    ensures within { IfSome result (λ next. next.at ≤ length memory.new) }
{
    let at = place.at;
    if place.is_run {
        if byte as usize >= memory.len() - at {
            return None;
        }
        return Some(Place {
            at: at + byte as usize + 1,
            is_run: false,
        });
    }
    if byte == 0 {
        return Some(Place { at, is_run: true });
    }
    if at >= memory.len() {
        return None;
    }
    memory[at] ^= byte;
    Some(Place {
        at: at + 1,
        is_run: false,
    })
}
