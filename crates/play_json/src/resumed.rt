//! The object that is told first where a kept session goes on.

ghost use Rattle.std.specs.Prelude.{◌≡◌, IfOk, OnOk, string_bytes};
ghost use Rattle.serde_json.specs.Data.{no_members};
ghost use Rattle.serde_json.specs.View.{members_view};
ghost use Rattle.play_json.specs.Objects.{IsLineOf, resumed_data, resumed_members};

use crate::first::First;
use crate::reply::{put_first, put_word};
use serde_json::{Map, Value, put};
use std::alloc::{AllocError, Global};

/// The object, on one line with its end, that tells how many lines of a kept session were played before. For those
/// lines none is told, but for that of the last reply, which follows it.
///
/// # Errors
///
/// Memory was refused.
pub fn resumed_line(alloc: Global, lines: usize, first: First) -> Result<String, AllocError>
    ensures { IfOk result (λ line. IsLineOf (resumed_data lines first) (string_bytes line)) }
{
    let mut members = Map::new(alloc);
    put_resumed(alloc, &mut members, lines, first)?;
    let mut line = Value::Object(members).to_string(alloc)?;
    line.push('\n')?;
    Ok(line)
}

/// Adds the members of that object to none.
fn put_resumed(
    alloc: Global,
    members: &mut Map<String, Value>,
    lines: usize,
    first: First,
) -> Result<(), AllocError>
    requires { members_view members.old.entries ≡ no_members }
    ensures { OnOk result (members_view members.new.entries ≡ resumed_members lines first) }
{
    put_first(members, alloc, Some(first))?;
    put(members, alloc, "resumed", Value::from(lines))?;
    put_word(members, alloc, "reply", "resumed")
}
