//! The text of a turn.

ghost use Rattle.std.specs.Prelude.{◌≡◌, take, drop};
ghost use Rattle.machine_opcodes.specs.Printed.{HasBegun};
ghost use Rattle.machine_standard_windows.specs.TurnState.{Keeps};

/// Cuts a text after so many bytes of the turn, if there are more.
pub fn cut(text: &mut Vec<u8>, start: usize, from: u32)
    requires { HasBegun start text.old.items }
    ensures cut { drop start text.new.items ≡ take from (drop start text.old.items) }
    ensures text { Keeps start text.old.items text.new.items }
{
    let kept = (from as usize).min(text.len() - start);
    text.truncate(start + kept);
}
