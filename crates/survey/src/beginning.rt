//! What a file begins like that is no story of version 5 or 8.

ghost use Rattle.std.specs.Prelude.{◌≡◌, take};
ghost use Rattle.std.specs.List.{list_all};
ghost use Rattle.survey.specs.Beginnings.{beginning_of, is_text, is_text_byte};

use std::fmt;

/// How many bytes of a file are looked at.
const LOOKED_AT: usize = 64;

/// What a file begins like. `Display` writes it in words.
#[derive(Clone, Copy)]
pub enum Beginning {
    /// Its first byte, the version of a story, is this.
    Version(u8),

    /// It begins with the bytes of a Glulx story.
    Glulx,

    /// It begins with those of a Blorb file, an archive of a story and its pictures and sounds.
    Blorb,

    /// It begins with those of a gzip file.
    Gzip,

    /// Its first 64 bytes are those of a text.
    Text,
}

impl fmt::Display for Beginning {
    fn fmt<W: fmt::Write>(&self, f: &mut fmt::Formatter<W>) -> fmt::Result {
        match self {
            Beginning::Version(version) => write!(f, "version {version}; 5 and 8 are played"),
            Beginning::Glulx => f.write_str("this begins like a Glulx file"),
            Beginning::Blorb => f.write_str("this begins like a Blorb file"),
            Beginning::Gzip => f.write_str("this begins like a gzip file"),
            Beginning::Text => f.write_str("this begins like a text"),
        }
    }
}

impl Beginning {
    /// What a file begins like.
    pub fn read(file: &[u8]) -> Beginning
        ensures { result ≡ beginning_of file.now }
    {
        if file.starts_with(b"Glul") {
            Beginning::Glulx
        } else if file.starts_with(b"FORM") {
            Beginning::Blorb
        } else if file.starts_with(&[0x1F, 0x8B]) {
            Beginning::Gzip
        } else if is_text(file) {
            Beginning::Text
        } else {
            Beginning::Version(file.first().copied().unwrap_or(0))
        }
    }
}

/// Whether a file is a text, as far as it is looked at.
fn is_text(file: &[u8]) -> bool
    ensures { result ≡ is_text file.now }
{
    !file.is_empty() && are_of_text(looked_at(file))
}

/// The bytes of a file that are looked at.
fn looked_at(file: &[u8]) -> &[u8]
    ensures { result.now ≡ take 64 file.now }
{
    if file.len() <= LOOKED_AT {
        file
    } else {
        &file[..LOOKED_AT]
    }
}

/// Whether all bytes are those of a text.
fn are_of_text(bytes: &[u8]) -> bool
    ensures { result ≡ list_all is_text_byte bytes.now }
{
    bytes.iter().all(|byte| is_text_byte(*byte))
}

/// Whether a byte is one of a text, of ASCII or UTF-8.
fn is_text_byte(byte: u8) -> bool
    ensures { result ≡ is_text_byte byte }
{
    matches!(byte, b'\t' | b'\n' | b'\r' | b' '..=b'~' | 0x80..=0xFF)
}
