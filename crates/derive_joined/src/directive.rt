//! The names of directives.

ghost use Rattle.std.specs.Prelude.{◌≡◌, map};
ghost use Rattle.derive_joined.specs.Directives as spec;
ghost use Rattle.syntax_lexer.specs.Bytes as classes;

use syntax_lexer::front;

/// The names before which `#` is a space.
fn directives() -> &'static [&'static [u8]]
    ensures { map (λ word. word.now) result.now ≡ spec.directives }
{
    &[
        b"abbreviate",
        b"array",
        b"attribute",
        b"class",
        b"constant",
        b"default",
        b"endif",
        b"global",
        b"ifdef",
        b"iffalse",
        b"ifndef",
        b"ifnot",
        b"iftrue",
        b"include",
        b"object",
        b"property",
        b"release",
        b"serial",
        b"statusline",
        b"switches",
    ]
}

// Whether a byte goes on with a name.
fn is_name_byte(byte: u8) -> bool
    ensures { result ≡ classes.is_name_byte byte }
{
    byte.is_ascii_alphanumeric() || byte == b'_'
}

// Whether bytes begin with a word, which ends there.
fn begins_with(bytes: &[u8], word: &[u8]) -> bool
    ensures { result ≡ spec.begins_with bytes.now word.now }
{
    let after = match bytes.get(word.len()) {
        Some(byte) => *byte,
        None => 0,
    };
    front(bytes, word.len()).eq_ignore_ascii_case(word) && !is_name_byte(after)
}

/// Whether bytes begin with the name of a directive.
pub fn begins_directive(bytes: &[u8]) -> bool
    ensures { result ≡ spec.begins_directive bytes.now }
{
    for word in directives() {
        if begins_with(bytes, word) {
            return true;
        }
    }
    false
}
