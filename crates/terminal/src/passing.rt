//! Bytes that are passed on to a writer.

ghost use Rattle.std.specs.Prelude.{◌≡◌, ◌≤◌, [], OnOk, drop, length};
ghost use Rattle.terminal.specs.Passed.{PassedOn};

use std::io::{self, ErrorKind, Write};

/// Passes bytes on to a writer, and removes those that it took. What a failure leaves stays.
///
/// # Errors
///
/// A write failed, or took no byte.
pub fn pass_on<W: Write>(writer: &mut W, bytes: &mut Vec<u8>) -> io::Result<()>
    ensures passed { PassedOn (W.contents writer.old) (W.contents writer.new) bytes.old.items bytes.new.items }
    ensures all { OnOk result (bytes.new.items ≡ []) }
{
    for _ in 0..u64::MAX {
        if bytes.is_empty() {
            return Ok(());
        }
        match writer.write(bytes.as_slice()) {
            Ok(0) => return Err(io::Error::from(ErrorKind::WriteZero)),
            Ok(count) => remove_front(bytes, count),
            Err(fault) => {
                if fault.kind() != ErrorKind::Interrupted {
                    return Err(fault);
                }
            }
        }
    }
    Err(io::Error::from(ErrorKind::Interrupted))
}

/// Removes so many of the first bytes.
fn remove_front(bytes: &mut Vec<u8>, count: usize)
    requires { count ≤ length bytes.old.items }
    ensures { bytes.new.items ≡ drop count bytes.old.items }
{
    let len = bytes.len();
    bytes.as_mut_slice().copy_within(count..len, 0);
    bytes.truncate(len - count);
}
