//! What is done by default at a terminal, and nowhere else.

ghost use Rattle.std.specs.Prelude.{◌≡◌};
ghost use Rattle.terminal.specs.Defaults.{is_chosen};

/// Whether something is done that is the default at a terminal alone: it is asked for, or the user is
/// at a terminal and has not declined it.
pub(crate) fn is_chosen(is_asked: bool, is_declined: bool, is_seen: bool) -> bool
    ensures { result ≡ is_chosen is_asked is_declined is_seen }
{
    is_asked || (is_seen && !is_declined)
}
