//! How bytes are put after those that are made already.

ghost use Rattle.std.specs.Prelude.{◌≡◌, ◌++◌, take, drop, OnOk};
ghost use Rattle.derive_routines.specs.Search as spec;
ghost use Rattle.derive_routines.specs.Held.{names_now};

use std::alloc::AllocError;

/// Puts bytes.
///
/// # Errors
///
/// `AllocError` where memory is refused, as for the functions after it.
pub fn put(text: &mut Vec<u8>, bytes: &[u8]) -> Result<(), AllocError>
    ensures { OnOk result (text.new.items ≡ text.old.items ++ bytes.now) }
{
    text.extend_from_slice(bytes)?;
    Ok(())
}

// The first names, so many of them, or all.
fn first_names<'t, 'a>(names: &'t [&'a [u8]], count: usize) -> &'t [&'a [u8]]
    ensures { result.now ≡ take count names.now }
{
    names.split_at(count.min(names.len())).0
}

// The names after so many.
fn later_names<'t, 'a>(names: &'t [&'a [u8]], count: usize) -> &'t [&'a [u8]]
    ensures { result.now ≡ drop count names.now }
{
    names.split_at(count.min(names.len())).1
}

/// Names after those that are skipped, so many of them.
#[tactic(auto, using(crate::proofs::Taken::taken_now))]
pub fn taken<'t, 'a>(names: &'t [&'a [u8]], skipped: usize, count: usize) -> &'t [&'a [u8]]
    ensures { names_now result.now ≡ take count (drop skipped (names_now names.now)) }
{
    first_names(later_names(names, skipped), count)
}

/// Puts names with a space before each.
pub fn put_spaced(text: &mut Vec<u8>, names: &[&[u8]]) -> Result<(), AllocError>
    ensures { OnOk result (text.new.items
        ≡ text.old.items ++ spec.spaced (names_now names.now)) }
{
    for name in names {
        put(text, b" ")?;
        put(text, *name)?;
    }
    Ok(())
}

/// Puts names with commas between them.
pub fn put_parted(text: &mut Vec<u8>, names: &[&[u8]]) -> Result<(), AllocError>
    ensures { OnOk result (text.new.items
        ≡ text.old.items ++ spec.parted (names_now names.now)) }
{
    match names {
        [] => Ok(()),
        [first, others @ ..] => {
            put(text, *first)?;
            for name in others {
                put(text, b",")?;
                put(text, *name)?;
            }
            Ok(())
        }
    }
}
