//! Files in the place of the directives that ask for them.

ghost use Rattle.std.specs.Prelude.{◌≡◌, IfOk};
ghost use Rattle.derive_joined.specs.Included as spec;

use crate::part::{Part, Run};
use std::alloc::{AllocError, Global};

/// The text that names the file for which the first Include directive asks, if there is one.
pub fn first_asked(parts: &[Part]) -> Option<Run>
    ensures { result ≡ spec.first_asked parts.now }
{
    for part in parts {
        if let Part::Asked(name) = part {
            return Some(*name);
        }
    }
    None
}

/// The parts of a source with those of a file in the place of the first Include directive.
///
/// # Errors
///
/// `AllocError` where memory is refused.
pub fn included(alloc: Global, file: &[Part], parts: &[Part]) -> Result<Vec<Part>, AllocError>
    ensures { IfOk result (λ out. out.items ≡ spec.included file.now parts.now) }
{
    let mut out = Vec::new(alloc);
    let mut is_done = false;
    for part in parts {
        match part {
            Part::Asked(_) if !is_done => {
                out.extend_from_slice(file)?;
                is_done = true;
            }
            _ => out.push(*part)?,
        }
    }
    Ok(out)
}
