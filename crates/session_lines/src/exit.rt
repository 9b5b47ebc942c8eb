//! The exit status of the player.

ghost use Rattle.std.specs.Prelude.{◌≡◌};
ghost use Rattle.session_lines.specs.Status.{status_of};

use zcore::Place;

/// The exit status of the player at the end of its input: 0 where the story waits or has quit, 3
/// where a limit stopped it, 4 where a machine fault did. It takes no memory.
pub fn status(place: &Place) -> u8
    ensures { result ≡ status_of place.now }
{
    match place {
        Place::Waiting | Place::Quit => 0,
        Place::Limit(_) => 3,
        Place::Fault(_) => 4,
    }
}
