//! The bytes of a story.

ghost use Rattle.std.specs.Prelude.{◌≡◌, ◌≤◌, ◌<◌, ◌++◌, IfOk, OnOk, drop, length, map, nat_le};
ghost use Rattle.zcore.specs.Header.{scale_of};
ghost use Rattle.zcore.specs.Layout.{greatest_word, header_size};
ghost use Rattle.meaning.specs.Meaning.{routine_at};
ghost use Rattle.meaning.specs.Places.{places_of, routines_place};
ghost use Rattle.meaning.specs.Views.{program_of};
ghost use Rattle.code_drafts.specs.Bytes.{Adds};
ghost use Rattle.code_drafts.specs.Written.{addresses_of};
ghost use Rattle.code.specs.HeldProgram.{sizes_of};
ghost use Rattle.code.specs.Written.{AreSizesOf};
ghost use Rattle.story_file.specs.Layout as layout;
ghost use Rattle.story_file.specs.Written.{bytes_in, code_of, codes_in, end_from, part_size};
ghost use Rattle.story_file.specs.Written.{AnswersCodes, AnswersStory, FitsStory, FitsTables};

use crate::below::{arrays_place, put_low};
use crate::header::{fill_header, keep_header};
use crate::high::{add_text, put_routines, put_texts};
use crate::packed::{
    add_text_sizes, array_addresses, code_sizes, end_after, packed_addresses, reach_end,
};
use code::{
    Addresses, Code, CodeFault, Disposal, Scratch, Sizes, dispose, program_sizes, routine_code_with,
};
use meaning::{Checked, Places, part_places};
use std::alloc::{AllocError, Global};
use zcore::Version;

/// The Z-texts of the lines that faults of the source print, in the order of `Cause`.
fn fault_texts(alloc: Global) -> Result<Vec<Vec<u8>>, AllocError>
    ensures { IfOk result (λ t. map bytes_in t.items ≡ layout.fault_texts) }
{
    let mut texts = Vec::new(alloc);
    let Ok(()) = add_text(alloc, &mut texts, b"\r[Fault: division by zero]\r") else {
        return Err(AllocError);
    };
    let Ok(()) = add_text(alloc, &mut texts, b"\r[Fault: not an object]\r") else {
        return Err(AllocError);
    };
    let Ok(()) = add_text(alloc, &mut texts, b"\r[Fault: index out of range]\r") else {
        return Err(AllocError);
    };
    let Ok(()) = add_text(alloc, &mut texts, b"\r[Fault: no such property]\r") else {
        return Err(AllocError);
    };
    let Ok(()) = add_text(alloc, &mut texts, b"\r[Fault: property of many words]\r") else {
        return Err(AllocError);
    };
    let Ok(()) = add_text(alloc, &mut texts, b"\r[Fault: object inside itself]\r") else {
        return Err(AllocError);
    };
    let Ok(()) = add_text(alloc, &mut texts, b"\r[Fault: not a character]\r") else {
        return Err(AllocError);
    };
    let Ok(()) = add_text(alloc, &mut texts, b"\r[Fault: buffer too small]\r") else {
        return Err(AllocError);
    };
    Ok(texts)
}

/// Where the routines, the arrays and the texts of faults stand, by the packed addresses of all
/// parts and the addresses of the arrays.
fn addresses_in<'a>(packed: &'a [u16], routines: usize, arrays: &'a [u16]) -> Addresses<'a>
    requires { routines ≤ length packed.now }
    ensures { addresses_of result ≡ record {
      routines = packed.now;
      arrays = arrays.now;
      faults = drop routines packed.now;
    } }
{
    Addresses {
        routines: packed,
        arrays,
        faults: &packed[routines..],
    }
}

/// The code of the routine of a number.
fn code_at<'a, 'b>(
    scratch: &mut Scratch,
    alloc: Global,
    checked: &'b Checked<'a>,
    sizes: &Sizes<'b>,
    routine: usize,
) -> Result<Code<'a, 'b>, AllocError>
    requires routine { routine < length checked.now.routines }
    requires sizes { AreSizesOf sizes.now (program_of checked.now) }
    ensures { IfOk result (λ c. c ≡ code_of (sizes_of (program_of checked.now))
        (routine_at (program_of checked.now).routines routine)) }
{
    match routine_code_with(scratch, alloc, checked, sizes, routine) {
        Ok(code) => Ok(code),
        Err(CodeFault::Memory) => Err(AllocError),
    }
}

/// The code of all routines, in order of definition.
fn codes_of<'a, 'b>(
    alloc: Global,
    checked: &'b Checked<'a>,
) -> Result<Vec<Code<'a, 'b>>, AllocError>
    ensures { IfOk result (λ v. v.items ≡ codes_in (program_of checked.now)) }
{
    let sizes = program_sizes(checked);
    let mut scratch = Scratch::new(alloc);
    let mut codes = Vec::new(alloc);
    for routine in 0..checked.routines() {
        codes.push(code_at(&mut scratch, alloc, checked, &sizes, routine)?)?;
    }
    Ok(codes)
}

/// The code of all routines, in order of definition, where they stand from an address on; `None` as
/// soon as one ends after what packed addresses reach, so that no more code is held than a story has.
fn codes_within<'a, 'b>(
    alloc: Global,
    checked: &'b Checked<'a>,
    version: Version,
    place: usize,
) -> Result<Option<Vec<Code<'a, 'b>>>, AllocError>
    requires at { place ≡ routines_place (program_of checked.now) }
    requires placed { place ≤ greatest_word }
    ensures { IfOk result (AnswersCodes version (program_of checked.now)) }
{
    let sizes = program_sizes(checked);
    let mut scratch = Scratch::new(alloc);
    let mut codes = Vec::new(alloc);
    let mut at = place;
    for routine in 0..checked.routines() {
        let code = code_at(&mut scratch, alloc, checked, &sizes, routine)?;
        let Some(end) = end_after(version, at, code.length()) else {
            return Ok(None);
        };
        at = end;
        codes.push(code)?;
    }
    Ok(Some(codes))
}

/// Whether packed addresses reach the end of a story whose routines stand from an address on and
/// have this code.
fn is_within(
    alloc: Global,
    version: Version,
    place: usize,
    codes: &[Code<'_, '_>],
) -> Result<bool, AllocError>
    requires { place ≤ greatest_word }
    ensures { IfOk result (λ b. b ≡ nat_le (end_from (scale_of version) place
        (map part_size codes.now ++ map length layout.fault_texts)) (layout.greatest_length version)) }
{
    let Ok(texts) = fault_texts(alloc) else {
        return Err(AllocError);
    };
    let Ok(mut sizes) = code_sizes(alloc, codes) else {
        return Err(AllocError);
    };
    let Ok(()) = add_text_sizes(&mut sizes, &texts) else {
        return Err(AllocError);
    };
    Ok(reach_end(version, place, &sizes))
}

/// All that stands after the header, where these are the places of the parts, and the code of all
/// routines.
fn put_body(
    alloc: Global,
    story: &mut Vec<u8>,
    version: Version,
    checked: &Checked<'_>,
    at: Places,
    codes: &[Code<'_, '_>],
) -> Result<(), AllocError>
    requires header { length story.old.items ≡ header_size }
    requires at { at ≡ places_of (program_of checked.now) }
    requires codes { codes.now ≡ codes_in (program_of checked.now) }
    requires fits { FitsStory version (program_of checked.now) }
    ensures { OnOk result (Adds story.old story.new
        (layout.body_of version (program_of checked.now))) }
{
    let Ok(texts) = fault_texts(alloc) else {
        return Err(AllocError);
    };
    let Ok(mut sizes) = code_sizes(alloc, codes) else {
        return Err(AllocError);
    };
    let Ok(()) = add_text_sizes(&mut sizes, &texts) else {
        return Err(AllocError);
    };
    let Ok(packed) = packed_addresses(alloc, version, at.routines, &sizes) else {
        return Err(AllocError);
    };
    let Ok(arrays) = array_addresses(alloc, arrays_place(checked, at), checked.array_sizes()) else {
        return Err(AllocError);
    };
    let addresses = addresses_in(&packed, codes.len(), &arrays);
    let Ok(()) = put_low(alloc, story, checked, at, packed[checked.main()]) else {
        return Err(AllocError);
    };
    let Ok(()) = put_routines(story, version, codes, &addresses) else {
        return Err(AllocError);
    };
    let Ok(()) = put_texts(story, version, &texts) else {
        return Err(AllocError);
    };
    Ok(())
}

/// The story file of a checked program, in a version, whose routines have this code.
fn story_with(
    alloc: Global,
    checked: &Checked<'_>,
    version: Version,
    codes: &[Code<'_, '_>],
) -> Result<Vec<u8>, AllocError>
    requires codes { codes.now ≡ codes_in (program_of checked.now) }
    requires fits { FitsStory version (program_of checked.now) }
    ensures { IfOk result (λ v. v.items ≡ layout.story_of version (program_of checked.now)) }
{
    let at = part_places(checked);
    let mut story = Vec::new(alloc);
    let Ok(()) = keep_header(&mut story) else {
        return Err(AllocError);
    };
    let Ok(()) = put_body(alloc, &mut story, version, checked, at, codes) else {
        return Err(AllocError);
    };
    let Ok(()) = fill_header(alloc, &mut story, version, at) else {
        return Err(AllocError);
    };
    Ok(story)
}

/// The story file of a checked program, in a version. The memory of the code of its routines is given
/// back, or left.
///
/// # Errors
///
/// [`AllocError`] where a growth of memory was refused.
pub fn write_story(
    alloc: Global,
    checked: &Checked<'_>,
    version: Version,
    disposal: Disposal,
) -> Result<Vec<u8>, AllocError>
    requires { FitsStory version (program_of checked.now) }
    ensures { IfOk result (λ v. v.items ≡ layout.story_of version (program_of checked.now)) }
{
    let codes = codes_of(alloc, checked)?;
    let story = story_with(alloc, checked, version, &codes);
    dispose(codes, disposal);
    story
}

/// The story file of a checked program, in a version, whose routines have this code; `None` where
/// packed addresses do not reach its end.
fn story_reached(
    alloc: Global,
    checked: &Checked<'_>,
    version: Version,
    codes: &[Code<'_, '_>],
) -> Result<Option<Vec<u8>>, AllocError>
    requires codes { codes.now ≡ codes_in (program_of checked.now) }
    requires tables { FitsTables (program_of checked.now) }
    ensures { IfOk result (AnswersStory version (program_of checked.now)) }
{
    let at = part_places(checked);
    let fits = is_within(alloc, version, at.routines, codes)?;
    if fits {
        let story = story_with(alloc, checked, version, codes)?;
        Ok(Some(story))
    } else {
        Ok(None)
    }
}

/// The story file of a checked program, in a version; `None` where packed addresses do not reach its
/// end: it has more than 262,140 bytes in version 5 or 524,280 in version 8.
///
/// # Errors
///
/// [`AllocError`] where a growth of memory was refused.
pub fn write_story_within(
    alloc: Global,
    checked: &Checked<'_>,
    version: Version,
    disposal: Disposal,
) -> Result<Option<Vec<u8>>, AllocError>
    requires { FitsTables (program_of checked.now) }
    ensures { IfOk result (AnswersStory version (program_of checked.now)) }
{
    let at = part_places(checked);
    let within = codes_within(alloc, checked, version, at.routines)?;
    match within {
        Some(codes) => {
            let story = story_reached(alloc, checked, version, &codes);
            dispose(codes, disposal);
            story
        }
        None => Ok(None),
    }
}
