//! Names for files that are made of what a user types as the name of a saved game.

ghost use Rattle.std.specs.Prelude.{◌≡◌, ◌≤◌, true, IfOk, IfSome};
ghost use Rattle.session_lines.specs.Names as definitions;

use session_lines::is_name;
use std::alloc::{AllocError, Global};
use std::str;

/// How long a name is at most.
const MOST_LETTERS: usize = 60;

/// The first letter with an accent.
const FIRST_ACCENTED: u32 = 0xC0;

/// The letters of ASCII for those with accents, from `À` to `ſ` (Unicode, Latin-1 Supplement and Latin Extended-A), 64 in
/// a row; for the two signs among them a hyphen.
const LETTERS: [[u8; 64]; 3] = [
    *b"AAAAAAACEEEEIIIIDNOOOOO-OUUUUYTsaaaaaaaceeeeiiiidnooooo-ouuuuyty",
    *b"AaAaAaCcCcCcCcDdDdEeEeEeEeEeGgGgGgGgHhHhIiIiIiIiIiIiJjKkkLlLlLlL",
    *b"lLlNnNnNnnNnOoOoOoOoRrRrRrSsSsSsSsTtTtTtUuUuUuUuUuUuWwYyYZzZzZzs",
];

/// The name for a file of what a user types as the name of a saved game; `None` where nothing of it is a letter or a
/// digit. What is a name stays as it is. Else letters lose their accents, other signs of ASCII and spaces between two
/// words are one hyphen, and letters that ASCII does not have are the hexadecimal digits of their numbers after an `x`;
/// what is beyond 60 letters is cut off.
///
/// # Errors
///
/// Memory was refused.
pub(crate) fn safe_name(alloc: Global, typed: &[u8]) -> Result<Option<Vec<u8>>, AllocError>
    ensures safe { IfOk result (λ made.
        IfSome made (λ name. definitions.is_name name.items ≡ true)) }
    ensures same { definitions.is_name typed.now ≡ true
        → IfOk result (λ made. IfSome made (λ name. name.items ≡ typed.now)) }
{
    if is_name(typed) {
        return copied(alloc, typed);
    }
    let mut name = Name::new(alloc);
    name.add_all(typed)?;
    let mut letters = name.letters;
    letters.truncate(MOST_LETTERS);
    if is_name(&letters) {
        Ok(Some(letters))
    } else {
        Ok(None)
    }
}

/// A copy of a name.
fn copied(alloc: Global, name: &[u8]) -> Result<Option<Vec<u8>>, AllocError>
    ensures { IfOk result (λ made. IfSome made (λ copy. copy.items ≡ name.now)) }
{
    let mut copy = Vec::new(alloc);
    copy.extend_from_slice(name)?;
    Ok(Some(copy))
}

/// A name that is being made.
#[derive(Drop)]
struct Name {
    alloc: Global,

    /// Its letters so far.
    letters: Vec<u8>,

    /// Whether a hyphen is due before the next one.
    is_gap: bool,
}

impl Name {
    /// A name without letters.
    fn new(alloc: Global) -> Name {
        Name {
            alloc,
            letters: Vec::new(alloc),
            is_gap: false,
        }
    }

    /// Adds what is typed, in UTF-8 or else in Latin-1.
    fn add_all(&mut self, typed: &[u8]) -> Result<(), AllocError> {
        match str::from_utf8(typed) {
            Ok(text) => {
                for sign in text.chars() {
                    self.add(sign)?;
                }
            }
            Err(_) => {
                for byte in typed {
                    self.add(char::from(*byte))?;
                }
            }
        }
        Ok(())
    }

    /// Adds a sign.
    fn add(&mut self, sign: char) -> Result<(), AllocError> {
        match sign {
            '\0'..='\u{BF}' => self.add_byte(sign as u8),
            '\u{C0}'..='\u{17F}' => self.add_letter(without_accent(sign)),
            // Accents behind their letters.
            '\u{300}'..='\u{36F}' => Ok(()),
            _ => self.add_number(sign as u32),
        }
    }

    /// Adds a sign of ASCII, or one that is no letter.
    fn add_byte(&mut self, byte: u8) -> Result<(), AllocError> {
        match byte {
            b'0'..=b'9' | b'A'..=b'Z' | b'a'..=b'z' | b'-' | b'_' | b'.' => self.add_letter(byte),
            _ => {
                self.is_gap = true;
                Ok(())
            }
        }
    }

    /// Adds the number of a sign.
    fn add_number(&mut self, number: u32) -> Result<(), AllocError> {
        let digits = format!(in self.alloc; "x{number:x}")?;
        for digit in digits.as_bytes() {
            self.add_letter(*digit)?;
        }
        Ok(())
    }

    /// Adds a letter, and before it the hyphen that is due. A dot does not begin a name.
    fn add_letter(&mut self, letter: u8) -> Result<(), AllocError> {
        let is_first = self.letters.is_empty();
        if is_first && letter == b'.' {
            return Ok(());
        }
        if self.is_gap && !is_first {
            self.letters.push(b'-')?;
        }
        self.is_gap = false;
        self.letters.push(letter)?;
        Ok(())
    }
}

/// The letter of ASCII for one with an accent.
fn without_accent(sign: char) -> u8
    requires least { 192 ≤ sign }
    requires most { sign ≤ 383 }
{
    let number = (sign as u32 - FIRST_ACCENTED) as usize;
    LETTERS[number / 64][number % 64]
}
