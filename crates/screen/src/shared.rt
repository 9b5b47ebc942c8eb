//! What the reader and the writer of a screen tell each other.

use crate::size::Size;
use std::cell::Cell;

/// What the user has asked the screen for, and how far the story is.
#[derive(Drop)]
pub struct Shared<'a> {
    /// The size that the next reply has.
    pub size: Cell<Size>,

    /// The name of the file that tells the size when it has changed, if there is one.
    pub size_file: Option<&'a str>,

    /// Whether the story is over.
    pub is_over: Cell<bool>,

    /// The prompt at which the user sees the story wait.
    pub prompt: Cell<Option<Vec<u8>>>,
}

impl<'a> Shared<'a> {
    /// A screen of this size, which a file tells when it has changed; the story is not over.
    pub fn new(size: Size, size_file: Option<&'a str>) -> Shared<'a> {
        Shared {
            size: Cell::new(size),
            size_file,
            is_over: Cell::new(false),
            prompt: Cell::new(None),
        }
    }
}
