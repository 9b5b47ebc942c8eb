//! Where a byte of a source stands.

/// Where a byte stands.
#[derive(Clone, Copy)]
pub enum Mode {
    /// In no text, comment or quotes.
    Code,

    /// The same, after a `.`: `.#` is a sign.
    Dot,

    /// In a comment.
    Comment,

    /// Between single quotes.
    Quote,

    /// In a text.
    Text,

    /// In a text, after `^` and any blanks.
    Caret,

    /// In a text, after a line end and any blanks.
    Broken,
}
