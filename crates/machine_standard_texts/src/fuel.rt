//! Fuel for the bytes that an operation touches.

ghost use Rattle.zcore_standard.specs.Fuel as definitions;
ghost use Rattle.machine_opcodes.specs.Says.{Says};

use machine_frames::End;
use zcore::{Limit, Place};

/// So many bytes cost nothing, and each time that many more cost a unit.
const FREE_BYTES: usize = 256;

/// The units of fuel that are left after an operation on so many bytes: it takes no unit for the
/// first 256, and one for each 256 that follow or for what is left of them.
///
/// # Errors
///
/// The limit of fuel, where these units are not there.
pub fn spend_for(bytes: usize, fuel: u32) -> Result<u32, End>
    ensures { Says result (definitions.spend_for bytes fuel) }
{
    let units = bytes.saturating_sub(1) / FREE_BYTES;
    if units > fuel as usize {
        return Err(End::Stop(Place::Limit(Limit::Fuel)));
    }
    Ok(fuel - units as u32)
}
