//! Where the tokens of the source come from that an extended source stands for.

use crate::passes::{FIRST_OBJECTS, before_end, tokens_passed};
use crate::plain::{is_made, name_length};
use derive_branches::branched;
use derive_joined::{joined, origin};
use derive_tokens::{Piece, put_spelled};
use std::alloc::{AllocError, Global};
use syntax_lexer::{Kind, PlacedFault, Token, from, front, lex_placed, token_length};

/// A token of a derived source: its first byte, its end and its line there, and in the source with its
/// texts joined the first byte and the line of the token that it comes from.
#[derive(Clone, Copy)]
struct Origin {
    begin: usize,
    end: usize,
    shown: usize,
    offset: usize,
    line: usize,
}

/// Where the tokens of a derived source come from.
#[derive(Drop)]
pub struct Origins<'a> {
    written: &'a [u8],
    derived: &'a [u8],

    /// The written source with its texts joined.
    text: Vec<u8>,

    /// The tokens of the file, in order: all but those of the objects that come first and of the
    /// routines that are made.
    tokens: Vec<Origin>,
}

/// What a byte of a derived source is of.
#[derive(Clone, Copy)]
pub enum Site {
    /// A token that comes from one that was written, which begins at this offset.
    Token(usize),

    /// What is behind such a token, which ends at this offset of the written source.
    Behind(usize),

    /// A routine that is made for the token at this offset of the written source.
    Made(usize),

    /// The end, or a routine that is made for no token.
    End,
}

/// The bytes of a text between two offsets.
fn between(text: &[u8], begin: usize, end: usize) -> &[u8] {
    front(from(text, begin), end.saturating_sub(begin))
}

/// How the name of the routine of a text begins, before its number.
const TEXT_PREFIX: &[u8] = b"x__t";

/// Where the tokens are that are written after the objects that come first. Before each are the ends
/// of lines up to its line, or a space.
fn origins_of(alloc: Global, pieces: &[Piece<'_>]) -> Result<Vec<Origin>, AllocError> {
    let mut spelled = Vec::new(alloc);
    let mut tokens = Vec::new(alloc);
    let mut line = 1;
    let mut end = FIRST_OBJECTS.len();
    for piece in pieces {
        let begin = end.saturating_add(piece.position.line.saturating_sub(line).max(1));
        let before = spelled.len();
        put_spelled(&mut spelled, *piece)?;
        end = begin.saturating_add(spelled.len().saturating_sub(before));
        line = line.max(piece.position.line);
        tokens.push(Origin {
            begin,
            end,
            shown: line,
            offset: piece.position.offset,
            line: piece.position.line,
        })?;
    }
    Ok(tokens)
}

/// The tokens of the written source with its texts joined, and where those that it stands for are.
fn passed_origins(alloc: Global, text: &[u8]) -> Result<Vec<Origin>, PlacedFault> {
    let tokens = lex_placed(alloc, text)?;
    let pieces = tokens_passed(alloc, tokens)?;
    Ok(origins_of(alloc, before_end(&pieces))?)
}

/// The tokens of the branches that are taken, of the written source with its texts joined.
fn taken_tokens(alloc: Global, text: &[u8]) -> Result<Vec<Token<'_>>, PlacedFault> {
    let tokens = lex_placed(alloc, text)?;
    branched(alloc, &tokens)
}

/// The offset of the first token that is this name and is not kept.
fn first_left(tokens: &[Token<'_>], name: &[u8], kept: &[bool]) -> Option<usize> {
    for token in tokens {
        let offset = token.position.offset;
        if let Kind::Name(found) = token.kind {
            if found.eq_ignore_ascii_case(name) && kept.get(offset) == Some(&false) {
                return Some(offset);
            }
        }
    }
    None
}

impl<'a> Origins<'a> {
    /// Where the tokens of `derived` come from, for which the source `written` stands.
    ///
    /// # Errors
    ///
    /// `AllocError` where memory is refused.
    pub fn of(
        alloc: Global,
        written: &'a [u8],
        derived: &'a [u8],
    ) -> Result<Origins<'a>, AllocError> {
        let text = joined(alloc, written)?;
        match passed_origins(alloc, &text) {
            Ok(tokens) => Ok(Origins {
                written,
                derived,
                text,
                tokens,
            }),
            Err(_) => Err(AllocError),
        }
    }
    /// The token that a byte of the derived source is of.
    fn token_at(&self, offset: usize) -> Option<Origin> {
        for token in &self.tokens {
            if token.begin <= offset && offset < token.end {
                return Some(*token);
            }
        }
        None
    }

    /// The token that ends before a byte of the derived source.
    fn token_before(&self, offset: usize) -> Option<Origin> {
        for token in &self.tokens {
            if token.end == offset {
                return Some(*token);
            }
        }
        None
    }

    /// The bytes of a token in the derived source.
    fn bytes(&self, token: Origin) -> &[u8] {
        between(self.derived, token.begin, token.end)
    }

    /// The first token of these bytes in the derived source.
    fn first_of(&self, name: &[u8]) -> Option<usize> {
        for token in &self.tokens {
            if self.bytes(*token).eq_ignore_ascii_case(name) {
                return Some(token.offset);
            }
        }
        None
    }

    /// The first text that has this number as a value.
    fn text_of(&self, number: &[u8]) -> Option<usize> {
        for token in &self.tokens {
            if self.text.get(token.offset) == Some(&b'"') && self.bytes(*token) == number {
                return Some(token.offset);
            }
        }
        None
    }

    /// The first token that is this name and from which no token of this name comes.
    fn left(&self, alloc: Global, name: &[u8]) -> Result<Option<usize>, AllocError> {
        let mut kept = vec![in alloc; false; self.text.len()]?;
        for token in &self.tokens {
            if self.bytes(*token).eq_ignore_ascii_case(name) {
                if let Some(flag) = kept.get_mut(token.offset) {
                    *flag = true;
                }
            }
        }
        match taken_tokens(alloc, &self.text) {
            Ok(tokens) => Ok(first_left(&tokens, name, &kept)),
            Err(_) => Err(AllocError),
        }
    }

    /// The token for which the routine is made that has a name at a byte of the derived source.
    fn made_for(&self, alloc: Global, offset: usize) -> Result<Option<usize>, AllocError> {
        let rest = from(self.derived, offset);
        let name = front(rest, name_length(rest));
        if name.is_empty() {
            return Ok(None);
        }
        if let Some(number) = name.strip_prefix(TEXT_PREFIX) {
            Ok(self.text_of(number))
        } else if is_made(name) {
            Ok(self.first_of(name))
        } else {
            self.left(alloc, name)
        }
    }

    /// What a byte of the derived source is of.
    ///
    /// # Errors
    ///
    /// `AllocError` where memory is refused.
    pub fn site(&self, alloc: Global, offset: usize) -> Result<Site, AllocError> {
        if let Some(token) = self.token_at(offset) {
            return Ok(Site::Token(origin(alloc, self.written, token.offset)?));
        }
        if let Some(token) = self.token_before(offset) {
            let begin = origin(alloc, self.written, token.offset)?;
            let length = token_length(from(self.written, begin));
            return Ok(Site::Behind(begin.saturating_add(length)));
        }
        match self.made_for(alloc, offset)? {
            Some(at) => Ok(Site::Made(origin(alloc, self.written, at)?)),
            None => Ok(Site::End),
        }
    }

    /// The bytes of the token that a byte of the derived source is of, there and where it comes from.
    pub fn both(&self, offset: usize) -> Option<(&[u8], &[u8])> {
        let token = self.token_at(offset)?;
        let rest = from(&self.text, token.offset);
        Some((self.bytes(token), front(rest, token_length(rest))))
    }

    /// The derived source without the routines that are made at its end.
    ///
    /// # Errors
    ///
    /// `AllocError` where memory is refused.
    pub fn file(&self, alloc: Global) -> Result<Vec<u8>, AllocError> {
        let end = match self.tokens.last() {
            Some(token) => token.end,
            None => FIRST_OBJECTS.len(),
        };
        let mut text = Vec::from_slice(alloc, front(self.derived, end))?;
        text.push(b' ')?;
        Ok(text)
    }

    /// The derived source with each token of the file on a line of its own. The first is on line 2.
    ///
    /// # Errors
    ///
    /// `AllocError` where memory is refused.
    pub fn spread(&self, alloc: Global) -> Result<Vec<u8>, AllocError> {
        let mut text = Vec::from_slice(alloc, FIRST_OBJECTS)?;
        let mut end = FIRST_OBJECTS.len();
        for token in &self.tokens {
            text.push(b'\n')?;
            text.extend_from_slice(self.bytes(*token))?;
            end = token.end;
        }
        text.push(b'\n')?;
        text.extend_from_slice(from(self.derived, end))?;
        Ok(text)
    }

    /// The line of the written source from which all tokens of a line of the derived one come.
    pub fn line_in(&self, shown: usize) -> Option<usize> {
        let mut found = None;
        for token in &self.tokens {
            if token.shown == shown {
                match found {
                    Some(line) if line != token.line => return None,
                    _ => found = Some(token.line),
                }
            }
        }
        found
    }

    /// The line of the written source for one of the spread source; `None` for those of what is made.
    pub fn line(&self, spread: usize) -> Option<usize> {
        let token = self.tokens.get(spread.checked_sub(2)?)?;
        Some(token.line)
    }

    /// The line of the written source for one of the spread source whose token was written so.
    pub fn line_of_same(&self, spread: usize) -> Option<usize> {
        let token = *self.tokens.get(spread.checked_sub(2)?)?;
        let bytes = self.bytes(token);
        if front(from(&self.text, token.offset), bytes.len()) == bytes {
            Some(token.line)
        } else {
            None
        }
    }

    /// The line of the written source for which a routine of this name is made; 0 where it is for none.
    pub fn line_of(&self, name: &[u8]) -> usize {
        for token in &self.tokens {
            if self.bytes(*token).eq_ignore_ascii_case(name) {
                return token.line;
            }
        }
        0
    }
}
