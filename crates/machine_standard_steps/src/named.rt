//! Which operation is at an address, by the name that it has in the latest version.

ghost use Rattle.std.specs.Prelude.{◌≡◌, ◌≤◌, length};
ghost use Rattle.zcore.specs.Layout.{longest_story};
ghost use Rattle.zcore_standard.specs.Operations.{further_at};
ghost use Rattle.zcore_versions.specs.Operations.{older_at};
ghost use Rattle.machine_picture.specs.Picture.{by_name};

use crate::drawing::name_of;
use crate::opcodes::{operation_at, version_operation_at};
use zcore_standard::StandardOperation;
use zcore_versions::StoryVersion;

/// The operation at an address of a story of any version, by its name in the latest one; none where it neither draws nor
/// waits nor is of windows, streams and styles there.
pub fn named_at(story: &[u8], at: usize, version: StoryVersion) -> Option<StandardOperation>
    requires { length story.now ≤ longest_story }
    ensures { result ≡ by_name (older_at version story.now at) (further_at story.now at) }
{
    match version_operation_at(story, at, version) {
        None => further_name(story, at),
        Some((operation, _)) => name_of(operation),
    }
}

/// The operation at an address that the profile does not have.
fn further_name(story: &[u8], at: usize) -> Option<StandardOperation>
    requires { length story.now ≤ longest_story }
    ensures { result ≡ further_at story.now at }
{
    match operation_at(story, at) {
        None => None,
        Some((operation, _)) => Some(operation),
    }
}
