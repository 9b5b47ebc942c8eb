//! The alphabets of versions 1 and 2 (Z-Machine Standards Document 1.1, sections 3.2.2 and 3.5).

ghost use Rattle.std.specs.Prelude.{◌≡◌, ◌<◌};
ghost use Rattle.zcore_versions.specs.LockedTexts as definitions;

/// The three alphabets of version 1. In the third, the first place stands for an escape.
static FIRST_ALPHABETS: [u8; 78] =
    *b"abcdefghijklmnopqrstuvwxyzABCDEFGHIJKLMNOPQRSTUVWXYZ\00123456789.,!?_#'\"/\\<-:()";

/// Those of version 2. In the third, the first two places stand for an escape and a new line.
static SECOND_ALPHABETS: [u8; 78] =
    *b"abcdefghijklmnopqrstuvwxyzABCDEFGHIJKLMNOPQRSTUVWXYZ\0\r0123456789.,!?_#'\"/\\-:()";

/// The alphabets of version 1, or else of version 2: 26 ZSCII codes each, for the Z-characters from 6
/// on.
pub fn alphabets_in(version: u8) -> &'static [u8; 78]
    ensures { result.now ≡ definitions.alphabets_in version }
{
    if version == 1 {
        &FIRST_ALPHABETS
    } else {
        &SECOND_ALPHABETS
    }
}

/// The alphabet after one, 0 to 2.
pub(crate) fn alphabet_after(alphabet: u8) -> u8
    requires { alphabet < 3 }
    ensures after { result ≡ definitions.alphabet_after alphabet }
    ensures few { result < 3 }
{
    (alphabet + 1) % 3
}

/// The alphabet before one.
pub(crate) fn alphabet_before(alphabet: u8) -> u8
    requires { alphabet < 3 }
    ensures before { result ≡ definitions.alphabet_before alphabet }
    ensures few { result < 3 }
{
    (alphabet + 2) % 3
}
