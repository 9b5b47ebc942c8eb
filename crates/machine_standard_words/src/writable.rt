//! Whether bytes can be written.

ghost use Rattle.std.specs.Prelude.{◌≡◌, ◌≤◌, ℕ, List};
ghost use Rattle.zcore.specs.Header.{static_base_of};
ghost use Rattle.zcore_standard.specs.Words.{are_writable};

use zcore::layout::HEADER_LENGTH;

/// Whether so many bytes from an address on are in dynamic memory after the header, in a story with
/// this static base.
pub fn are_writable(static_base: u16, at: usize, count: usize) -> bool
    requires address { at ≤ 65535 }
    requires few { count ≤ 65535 }
    ensures { (memory : List ℕ) → static_base ≡ static_base_of memory
        → result ≡ are_writable memory at count }
{
    HEADER_LENGTH <= at && at + count <= static_base as usize
}
