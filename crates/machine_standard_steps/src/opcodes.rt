//! Which operation that the profile does not have is at an address.

ghost use Rattle.std.specs.Prelude.{◌≡◌, ◌<◌, ◌≤◌, ◌+◌, length, slice_index};
ghost use Rattle.zcore_standard.specs.Opcodes.{opcode_of};
ghost use Rattle.zcore.specs.Layout.{longest_story};
ghost use Rattle.zcore_standard.specs.Operations.{further_at};
ghost use Rattle.zcore_standard.specs.Rows.{with_row};
ghost use Rattle.zcore_versions.specs.Operations as versions;

use machine_frames::is_code;
use zcore::OpcodeRow;
use zcore_standard::{Opcode, StandardOperation};
use zcore_versions::{StoryVersion, VersionOperation};

/// The first byte of `print_char`.
const PRINT_CHAR: u8 = 0xE5;

/// The operation at an address, with its row of the table. Most steps that come here print a character: of these
/// nothing is looked up.
pub fn operation_at(story: &[u8], at: usize) -> Option<(StandardOperation, OpcodeRow)>
    requires { length story.now ≤ longest_story }
    ensures { result ≡ with_row (further_at story.now at) }
{
    if !is_code(story, at) {
        return None;
    }
    if story[at] == PRINT_CHAR {
        return None;
    }
    opcode_at(story, at).standard()
}

/// The operation at an address that a version performs otherwise than versions 5 and 8, with its row.
pub(crate) fn version_operation_at(
    story: &[u8],
    at: usize,
    version: StoryVersion,
) -> Option<(VersionOperation, OpcodeRow)>
    requires { length story.now ≤ longest_story }
    ensures { result ≡ versions.with_row version.number (versions.older_at version story.now at) }
{
    if !is_code(story, at) {
        return None;
    }
    version.operation(opcode_at(story, at))
}

/// The opcode at an address of code.
#[inline]
fn opcode_at(story: &[u8], at: usize) -> Opcode
    requires code { at < length story.now }
    requires short { length story.now ≤ longest_story }
    ensures { result ≡ opcode_of (slice_index story.now at) (slice_index story.now (at + 1)) }
{
    let second = if at + 1 < story.len() {
        story[at + 1]
    } else {
        0
    };
    Opcode::of_bytes(story[at], second)
}
