//! The code of a routine.

ghost use Rattle.std.specs.Prelude.{◌≡◌, ◌<◌, [], reverse, length, IfOk, OnOk};
ghost use Rattle.code_drafts.specs.Layout.{bytes_limit, first, lefts};
ghost use Rattle.meaning.specs.Meaning.{routine_at};
ghost use Rattle.meaning.specs.Views.{program_of};
ghost use Rattle.code_drafts.specs.Code.{items_of};
ghost use Rattle.code_items.specs.Statements as definitions;
ghost use Rattle.code_drafts.specs.Bytes.{Adds};
ghost use Rattle.code_drafts.specs.Written.{addresses_of, sizes_in};
ghost use Rattle.code.specs.Bytes.{lefts_of, kept_bytes};
ghost use Rattle.code.specs.Bytes as spec;
ghost use Rattle.code.specs.HeldProgram.{sizes_of};
ghost use Rattle.code.specs.Written.{AreSizesOf};

use crate::backward::{back_size, is_near};
use crate::fault::CodeFault;
use crate::item::put_item;
use crate::settled::{between, is_settled, size_between};
use code_drafts::{Addresses, BranchUse, Part, Sizes, branches, lay_out};
use code_instructions::{label_size, offset_of, place, target_of};
use code_items::{Item, routine_items};
use meaning::Checked;
use std::alloc::{AllocError, Global};
use std::marker::Model;
use std::mem::forget;
use syntax_lexer::{from, front};

/// Memory that is needed while the code of a routine is made, for one routine after another.
#[derive(Drop)]
pub struct Scratch {
    /// The items, written with no addresses and the shortest branches.
    bytes: Vec<u8>,

    parts: Vec<Part>,
}

impl Scratch {
    /// No memory as yet. There is no clause here: what such memory holds changes no result, so no
    /// caller needs to know it.
    pub fn new(alloc: Global) -> Self {
        let bytes = Vec::new(alloc);
        let parts = Vec::new(alloc);
        Scratch { bytes, parts }
    }
}

/// The code of a routine, ready to be written wherever the routine is in a story.
#[derive(Drop)]
pub struct Code<'a, 'b> {
    alloc: Global,
    locals: usize,

    /// Those of the program.
    sizes: Sizes<'b>,

    items: Vec<Item<'a>>,

    /// The bytes of those items that are the same wherever everything else is, one after another:
    /// to copy them takes less than to write them again, most of all a text.
    kept: Vec<u8>,

    /// How many bytes there are from each item on to the end, the end's first.
    left: Vec<usize>,

    /// Whether branches back have two bytes of branch data.
    near: bool,

    /// The branches ahead to other items, in order of place.
    branches: Vec<BranchUse>,

    /// How many bytes are written: one for the number of locals, and those of the items.
    length: usize,
}

impl<'a, 'b> Model for Code<'a, 'b> {
    ghost use Rattle.std.specs.Prelude.{◌≡◌, ◌<◌, ◌+◌, reverse};
    ghost use Rattle.code_drafts.specs.Layout.{bytes_limit, uses};
    ghost use Rattle.code_drafts.specs.Code.{items_of};
    ghost use Rattle.code_drafts.specs.Written.{sizes_in};
    ghost use Rattle.code.specs.Bytes.{parts_of, lefts_of, code_size, kept_bytes, is_near};
    ghost use Rattle.code.specs.Written.{CodeOf};

    ghost Value = { CodeOf };

    ghost view = { λ c. record { locals = c.locals; sizes = sizes_in c.sizes; items = items_of c.items.items } };

    ghost invariant = { λ c. (c.left.items ≡ reverse (lefts_of (sizes_in c.sizes) (items_of c.items.items)))
        × (c.branches.items ≡ uses 0 (parts_of (sizes_in c.sizes) (items_of c.items.items)))
        × (c.length ≡ 1 + code_size (sizes_in c.sizes) (items_of c.items.items))
        × (code_size (sizes_in c.sizes) (items_of c.items.items) < bytes_limit)
        × (c.kept.items ≡ kept_bytes (sizes_in c.sizes) (items_of c.items.items))
        × (c.near ≡ is_near (sizes_in c.sizes) (items_of c.items.items)) };
}

/// The items as parts that are laid out, where branches back are near, or far, and what is kept of
/// them. They are written once, with no addresses and the shortest branches: an item has as many
/// bytes wherever everything is, but for the form of its branch.
fn put_parts(
    scratch: &mut Scratch,
    kept: &mut Vec<u8>,
    alloc: Global,
    near: bool,
    sizes: &Sizes<'_>,
    items: &[Item<'_>],
) -> Result<(), AllocError>
    ensures parts { OnOk result (scratch.new.parts.items
        ≡ spec.parts_with (sizes_in sizes.now) near (items_of items.now)) }
    ensures kept { OnOk result (Adds kept.old kept.new
        (kept_bytes (sizes_in sizes.now) (items_of items.now))) }
    ensures sum { OnOk result (length scratch.new.bytes.items
        ≡ spec.least_sum (sizes_in sizes.now) (items_of items.now)) }
    ensures fits { OnOk result (first (lefts 0
        (spec.parts_with (sizes_in sizes.now) near (items_of items.now))) < bytes_limit) }
{
    let addresses = Addresses {
        routines: &[],
        arrays: &[],
        faults: &[],
    };
    scratch.bytes.clear();
    scratch.parts.clear();
    let mut start = 0;
    for item in items {
        let before = scratch.bytes.len();
        put_item(&mut scratch.bytes, alloc, sizes, &addresses, 2, item)?;
        let target = target_of(item);
        let least = (scratch.bytes.len() - before).saturating_sub(label_size(target));
        let size = least + back_size(near, item);
        scratch.parts.push(Part { size, target })?;
        if is_settled(item) {
            continue;
        }
        kept.extend_from_slice(between(&scratch.bytes, start, before))?;
        start = scratch.bytes.len();
    }
    kept.extend_from_slice(from(&scratch.bytes, start))?;
    Ok(())
}

/// The items as parts, and what is kept of them; whether branches back are near. Only where one may
/// lead too far, which is rare, the items are written once more.
fn put_all_parts(
    scratch: &mut Scratch,
    kept: &mut Vec<u8>,
    alloc: Global,
    sizes: &Sizes<'_>,
    items: &[Item<'_>],
) -> Result<bool, AllocError>
    requires { kept.now.items ≡ [] }
    ensures near { IfOk result (λ near. near
        ≡ spec.is_near (sizes_in sizes.now) (items_of items.now)) }
    ensures parts { OnOk result (scratch.new.parts.items
        ≡ spec.parts_of (sizes_in sizes.now) (items_of items.now)) }
    ensures kept { OnOk result (kept.new.items
        ≡ kept_bytes (sizes_in sizes.now) (items_of items.now)) }
    ensures fits { OnOk result
        (spec.code_size (sizes_in sizes.now) (items_of items.now) < bytes_limit) }
{
    put_parts(scratch, kept, alloc, true, sizes, items)?;
    let near = is_near(sizes, items, scratch.bytes.len());
    if !near {
        kept.clear();
        put_parts(scratch, kept, alloc, false, sizes, items)?;
    }
    Ok(near)
}

/// The bytes of items, one after another, of which the first begins the code. What was kept of them
/// is copied, run by run.
fn put_items(
    bytes: &mut Vec<u8>,
    alloc: Global,
    near: bool,
    sizes: &Sizes<'_>,
    addresses: &Addresses<'_>,
    items: &[Item<'_>],
    left: &[usize],
    kept: &[u8],
) -> Result<(), AllocError>
    requires left { left.now ≡ reverse (lefts_of (sizes_in sizes.now) (items_of items.now)) }
    requires small { spec.code_size (sizes_in sizes.now) (items_of items.now) < bytes_limit }
    requires kept { kept.now ≡ kept_bytes (sizes_in sizes.now) (items_of items.now) }
    requires near { near ≡ spec.is_near (sizes_in sizes.now) (items_of items.now) }
    ensures { OnOk result (Adds bytes.old bytes.new
        (spec.code_bytes (sizes_in sizes.now) (addresses_of addresses.now) (items_of items.now))) }
{
    let mut rest = kept;
    let mut start = 0;
    for number in 0..items.len() {
        let item = &items[number];
        if is_settled(item) {
            continue;
        }
        let run = size_between(left, start, number);
        bytes.extend_from_slice(front(rest, run))?;
        let offset = offset_of(near, left, number, item);
        put_item(bytes, alloc, sizes, addresses, offset, item)?;
        rest = from(rest, run);
        start = number + 1;
    }
    bytes.extend_from_slice(rest)?;
    Ok(())
}

/// The code of items of a routine with so many locals, of a program of these sizes.
fn code_of<'a, 'b>(
    scratch: &mut Scratch,
    alloc: Global,
    locals: usize,
    sizes: Sizes<'b>,
    items: Vec<Item<'a>>,
) -> Result<Code<'a, 'b>, AllocError>
    ensures { IfOk result (λ c. c ≡ record {
      locals = locals;
      sizes = sizes_in sizes.entry;
      items = items_of items.entry.items;
    }) }
{
    let mut kept = Vec::new(alloc);
    let near = put_all_parts(scratch, &mut kept, alloc, &sizes, &items)?;
    let left = lay_out(alloc, &scratch.parts)?;
    let branches = branches(alloc, &scratch.parts, &left)?;
    let length = 1 + place(&left, items.len());
    Ok(Code {
        alloc,
        locals,
        sizes,
        items,
        kept,
        left,
        near,
        branches,
        length,
    })
}

/// The code of the routine of a number, ready to be written, of a program of these sizes. The code
/// of other routines may be made with the same scratch memory.
///
/// # Errors
///
/// `Memory` where a growth of memory was refused.
pub fn routine_code_with<'a, 'b>(
    scratch: &mut Scratch,
    alloc: Global,
    checked: &'b Checked<'a>,
    sizes: &Sizes<'b>,
    routine: usize,
) -> Result<Code<'a, 'b>, CodeFault>
    requires routine { routine < length checked.now.routines }
    requires sizes { AreSizesOf sizes.now (program_of checked.now) }
    ensures locals { IfOk result (λ c. c.locals
        ≡ (routine_at (program_of checked.now).routines routine).locals) }
    ensures sizes { IfOk result (λ c. c.sizes ≡ sizes_of (program_of checked.now)) }
    ensures items { IfOk result (λ c. c.items
        ≡ definitions.routine_items (routine_at (program_of checked.now).routines routine)) }
{
    let source = checked.routine(routine);
    let items = routine_items(alloc, source)?;
    Ok(code_of(scratch, alloc, source.locals, *sizes, items)?)
}

/// The code of the routine of a number, as [`routine_code_with`] makes it.
///
/// # Errors
///
/// `Memory` where a growth of memory was refused.
pub fn routine_code<'a, 'b>(
    alloc: Global,
    checked: &'b Checked<'a>,
    sizes: &Sizes<'b>,
    routine: usize,
) -> Result<Code<'a, 'b>, CodeFault>
    requires routine { routine < length checked.now.routines }
    requires sizes { AreSizesOf sizes.now (program_of checked.now) }
    ensures locals { IfOk result (λ c. c.locals
        ≡ (routine_at (program_of checked.now).routines routine).locals) }
    ensures sizes { IfOk result (λ c. c.sizes ≡ sizes_of (program_of checked.now)) }
    ensures items { IfOk result (λ c. c.items
        ≡ definitions.routine_items (routine_at (program_of checked.now).routines routine)) }
{
    let mut scratch = Scratch::new(alloc);
    routine_code_with(&mut scratch, alloc, checked, sizes, routine)
}

/// Gives back the memory of items that are not needed any more. A crate that drops items in a
/// function of its own proves anew what becomes of each kind: hand them over here instead.
pub fn discard(items: Vec<Item<'_>>) {
    drop(items);
}

/// What becomes of the memory of a compilation.
#[derive(Clone, Copy)]
pub enum Disposal {
    /// It is given back, part by part.
    GivenBack,

    /// It is left to the system, which takes it back when the process ends.
    Left,
}

/// Gives back the memory of code that is not needed any more, or leaves it. There is no clause
/// here: it takes the code and answers nothing, and no contract speaks of memory that is left.
pub fn dispose(codes: Vec<Code<'_, '_>>, disposal: Disposal) {
    match disposal {
        Disposal::GivenBack => drop(codes),
        Disposal::Left => forget(codes),
    }
}

impl Code<'_, '_> {
    ghost use Rattle.std.specs.Prelude.{◌≡◌, ◌+◌, ◌%◌, ◌∷◌, ◌++◌, map, reverse, OnOk, OnErr};
    ghost use Rattle.std.specs.List.{All};
    ghost use Rattle.code_drafts.specs.Layout.{IsShortest};
    ghost use Rattle.code_drafts.specs.declared.layout.BranchUse.{BranchUse};
    ghost use Rattle.code_drafts.specs.Bytes.{Adds};
    ghost use Rattle.code_drafts.specs.Written.{addresses_of};
    ghost use Rattle.code.specs.Bytes.{code_size, code_bytes, lefts_of, place_of};
    ghost use Rattle.code.specs.Written.{branch_offsets};

    /// How many bytes `put` writes: one for the number of locals, and those of the items.
    pub fn length(&self) -> usize
        ensures { result ≡ 1 + code_size self.now.sizes self.now.items }
    {
        self.length
    }

    /// The branches ahead, in order of place, each with its form and its offset; of a far one
    /// the offset that two bytes of branch data would need. A branch leads from the place of the
    /// item after it to its target, which gives its offset. It has one byte of branch data exactly
    /// where the offset is 2 to 63, two exactly where it is another to 8,191, and the far form
    /// exactly where two bytes, all else as it is, would not reach.
    pub fn branches(&self) -> &[BranchUse]
        ensures offsets { map (λ (u : BranchUse). u.offset) result.now
            ≡ branch_offsets (place_of self.now.sizes self.now.items) 0 self.now.items }
        ensures shortest { All IsShortest result.now }
    {
        &self.branches
    }

    /// How many bytes there are from each item on to the end, the end's first. The memory of all
    /// else is given back.
    pub fn into_left(self) -> Vec<usize>
        ensures { result.items ≡ reverse (lefts_of self.entry.sizes self.entry.items) }
    {
        self.left
    }

    /// Appends the routine to what is written of a story: how many locals it has, and its code
    /// (Z-Machine Standards Document 1.1, section 5.2), in as many bytes as its length.
    ///
    /// # Errors
    ///
    /// `Memory` where a growth of memory was refused: then nothing is written.
    pub fn put(&self, addresses: &Addresses<'_>, story: &mut Vec<u8>) -> Result<(), CodeFault>
        ensures written { OnOk result (Adds story.old story.new
            ((self.now.locals % 256) ∷ code_bytes self.now.sizes (addresses_of addresses.now)
            self.now.items)) }
        ensures kept { OnErr result (story.new.items ≡ story.old.items) }
    {
        let mut bytes = Vec::with_capacity(self.alloc, self.length)?;
        bytes.push((self.locals % 256) as u8)?;
        put_items(
            &mut bytes,
            self.alloc,
            self.near,
            &self.sizes,
            addresses,
            &self.items,
            &self.left,
            &self.kept,
        )?;
        story.extend_from_slice(&bytes)?;
        Ok(())
    }
}
