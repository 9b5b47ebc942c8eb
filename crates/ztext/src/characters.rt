//! Which texts can be written.

ghost use Rattle.std.specs.Prelude.{◌≡◌};
ghost use Rattle.std.specs.List.{list_all};
ghost use Rattle.ztext.specs.Alphabets.{is_printable};

use crate::alphabets::is_printable;

/// Whether each character of a text can be printed.
pub(crate) fn are_printable(text: &[u8]) -> bool
    ensures { result ≡ list_all is_printable text.now }
{
    text.iter().all(|c| is_printable(u16::from(*c)))
}
