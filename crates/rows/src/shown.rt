//! What a row shows.

use crate::error::RowError;
use std::alloc::Global;
use std::fmt::Display;

/// A part that is repeated is shown once, with its count, where the repetitions have so many bytes.
const LONG: usize = 64;

/// How many bytes such a part has at most.
const LONGEST_PART: usize = 3;

/// The digits of hexadecimal numbers.
const DIGITS: [u8; 16] = *b"0123456789ABCDEF";

/// Bytes to show. Memory that is refused is noted, and answered once, when they are taken.
#[derive(Drop)]
pub struct Shown {
    bytes: Vec<u8>,

    /// Whether memory was refused, so that bytes are missing.
    is_refused: bool,
    alloc: Global,
}

impl Shown {
    /// Nothing to show yet.
    pub fn new(alloc: Global) -> Shown {
        Shown {
            bytes: Vec::new(alloc),
            is_refused: false,
            alloc,
        }
    }

    /// Adds bytes.
    pub fn bytes(&mut self, bytes: &[u8]) {
        if self.bytes.extend_from_slice(bytes).is_err() {
            self.is_refused = true;
        }
    }

    /// Adds a text.
    pub fn text(&mut self, text: &str) {
        self.bytes(text.as_bytes());
    }

    /// Adds a number or a fault, as it is displayed.
    pub fn display<T: Display>(&mut self, value: &T) {
        match value.to_string(self.alloc) {
            Ok(text) => self.bytes(text.as_bytes()),
            Err(_) => self.is_refused = true,
        }
    }

    /// Adds a number or a fault as a line.
    pub fn display_line<T: Display>(&mut self, value: &T) {
        self.display(value);
        self.bytes(b"\n");
    }

    /// Adds a byte as two hexadecimal digits.
    pub fn hexadecimal(&mut self, byte: u8) {
        for digit in [byte >> 4, byte & 15] {
            let digit = DIGITS.get(usize::from(digit)).copied();
            self.bytes(&[digit.unwrap_or(b'0')]);
        }
    }

    /// Adds bytes in hexadecimal, with spaces between them, as a line.
    pub fn hexadecimal_line(&mut self, bytes: &[u8]) {
        let mut front: &[u8] = b"";
        for byte in bytes {
            self.bytes(front);
            self.hexadecimal(*byte);
            front = b" ";
        }
        self.bytes(b"\n");
    }

    /// Adds the lines of a text, each after `| `, with the escapes that README.md describes.
    pub fn lines(&mut self, text: &[u8]) {
        for line in text.split_inclusive(|byte| *byte == b'\n') {
            self.bytes(b"| ");
            self.line(line);
            self.bytes(b"\n");
        }
    }

    /// Adds the bytes of a line.
    fn line(&mut self, line: &[u8]) {
        let mut rest = line;
        for _ in 0..line.len() {
            rest = self.front(rest);
        }
    }

    /// Adds the byte or the repeated part at the front of the bytes, and lends what is after it.
    fn front<'a>(&mut self, bytes: &'a [u8]) -> &'a [u8] {
        for size in 1..=LONGEST_PART {
            let count = repetitions(bytes, size);
            let end = count.wrapping_mul(size);
            if let Some((repeated, rest)) = bytes.split_at_checked(end) {
                if repeated.len() >= LONG {
                    self.repeated(count, repeated, size);
                    return rest;
                }
            }
        }
        match bytes.split_first() {
            Some((byte, rest)) => {
                self.byte(*byte);
                rest
            }
            None => bytes,
        }
    }

    /// Adds a part, of so many of the first bytes, with how often it comes.
    fn repeated(&mut self, count: usize, bytes: &[u8], size: usize) {
        self.bytes(b"\\");
        self.display(&count);
        self.bytes(b"{");
        for byte in bytes.iter().take(size) {
            match byte {
                b'}' => self.text("\\x7D"),
                _ => self.byte(*byte),
            }
        }
        self.bytes(b"}");
    }

    /// Adds a byte as rows write it.
    fn byte(&mut self, byte: u8) {
        match byte {
            b'\n' => self.bytes(b"\\n"),
            b'\\' => self.bytes(b"\\\\"),
            32..=126 => self.bytes(&[byte]),
            _ => {
                self.bytes(b"\\x");
                self.hexadecimal(byte);
            }
        }
    }

    /// Whether nothing is shown yet.
    pub fn is_empty(&self) -> bool {
        self.bytes.is_empty()
    }

    /// The bytes, where memory was refused to none of them.
    pub fn taken(&self) -> Result<&[u8], RowError> {
        if self.is_refused {
            return Err(RowError::Memory);
        }
        Ok(&self.bytes)
    }
}

/// How often the first so many bytes come, one behind the other.
fn repetitions(bytes: &[u8], size: usize) -> usize {
    let Some((part, after)) = bytes.split_at_checked(size) else {
        return 0;
    };
    let mut rest = after;
    let mut count = 1usize;
    for _ in 0..after.len() {
        match rest.split_at_checked(size) {
            Some((other, more)) if other == part => rest = more,
            _ => break,
        }
        count = count.wrapping_add(1);
    }
    count
}
