//! Names and reserved words.

ghost use Rattle.std.specs.Prelude.{◌≡◌, slice_index, true};
ghost use Rattle.std.specs.List.{Contains, All};
ghost use Rattle.std.specs.Str.{str_eq_ignore_ascii_case};
ghost use Rattle.syntax_lexer.specs.Bytes as classes;
ghost use Rattle.syntax_lexer.specs.declared.token.Word.{Word};
ghost use Rattle.syntax_lexer.specs.Spelling.{IsReserved, word_spelling};
ghost use Rattle.syntax_lexer.specs.Fronts.{FindsOne, Scanned, is_statement_word};

use crate::bytes::{Class, byte_at, front, run_length};
use crate::fault::LexicalFault;
use crate::token::{Kind, Word};

/// The most bytes that a name may have.
pub const LONGEST_NAME: usize = 32;

// The words of statements.
fn statement_word_spelling(word: Word) -> &'static [u8]
    requires { is_statement_word word ≡ true }
    ensures { result.now ≡ word_spelling word }
{
    match word {
        Word::Break => b"break",
        Word::Continue => b"continue",
        Word::Default => b"default",
        Word::Do => b"do",
        Word::Else => b"else",
        Word::For => b"for",
        Word::Give => b"give",
        Word::If => b"if",
        Word::Move => b"move",
        Word::NewLine => b"new_line",
        Word::Objectloop => b"objectloop",
        Word::Print => b"print",
        Word::PrintRet => b"print_ret",
        Word::Quit => b"quit",
        Word::Read => b"read",
        Word::Remove => b"remove",
        Word::Return => b"return",
        Word::Rfalse => b"rfalse",
        Word::Rtrue => b"rtrue",
        Word::String => b"string",
        Word::Switch => b"switch",
        Word::To => b"to",
        Word::Until => b"until",
        Word::While => b"while",
        _ => b"",
    }
}

fn spelling(word: Word) -> &'static [u8]
    ensures { result.now ≡ word_spelling word }
{
    match word {
        Word::Abbreviate => b"abbreviate",
        Word::Array => b"array",
        Word::Attribute => b"attribute",
        Word::Char => b"char",
        Word::Child => b"child",
        Word::Constant => b"constant",
        Word::False => b"false",
        Word::Global => b"global",
        Word::Has => b"has",
        Word::Hasnt => b"hasnt",
        Word::In => b"in",
        Word::Nothing => b"nothing",
        Word::Notin => b"notin",
        Word::Object => b"object",
        Word::Or => b"or",
        Word::Parent => b"parent",
        Word::Property => b"property",
        Word::Provides => b"provides",
        Word::Sibling => b"sibling",
        Word::Table => b"table",
        Word::True => b"true",
        Word::With => b"with",
        _ => statement_word_spelling(word),
    }
}

// The words that begin with a small letter.
fn words_from(first: u8) -> &'static [Word]
    ensures { (w : Word) → slice_index (word_spelling w) 0 ≡ first → Contains result.now w }
{
    match first {
        b'a' => &[Word::Abbreviate, Word::Array, Word::Attribute],
        b'b' => &[Word::Break],
        b'c' => &[Word::Char, Word::Child, Word::Constant, Word::Continue],
        b'd' => &[Word::Default, Word::Do],
        b'e' => &[Word::Else],
        b'f' => &[Word::False, Word::For],
        b'g' => &[Word::Give, Word::Global],
        b'h' => &[Word::Has, Word::Hasnt],
        b'i' => &[Word::If, Word::In],
        b'm' => &[Word::Move],
        b'n' => &[Word::NewLine, Word::Nothing, Word::Notin],
        b'o' => &[Word::Object, Word::Objectloop, Word::Or],
        b'p' => &[
            Word::Parent,
            Word::Print,
            Word::PrintRet,
            Word::Property,
            Word::Provides,
        ],
        b'q' => &[Word::Quit],
        b'r' => &[
            Word::Read,
            Word::Remove,
            Word::Return,
            Word::Rfalse,
            Word::Rtrue,
        ],
        b's' => &[Word::Sibling, Word::String, Word::Switch],
        b't' => &[Word::Table, Word::To, Word::True],
        b'u' => &[Word::Until],
        b'w' => &[Word::While, Word::With],
        _ => &[],
    }
}

fn is_spelled(text: &[u8], word: Word) -> bool
    ensures { result ≡ str_eq_ignore_ascii_case text.now (word_spelling word) }
{
    text.eq_ignore_ascii_case(spelling(word))
}

fn reserved_word(text: &[u8]) -> Option<Word>
    ensures { FindsOne (λ w. IsReserved w text.now) result }
{
    let first = byte_at(text, 0);
    for word in words_from(first.to_ascii_lowercase()) {
        if is_spelled(text, *word) {
            return Some(*word);
        }
    }
    None
}

/// The name or reserved word at the front, and its length.
///
/// # Errors
///
/// `NameTooLong`: a name of more than 32 bytes.
pub fn name_token<'a>(bytes: &'a [u8]) -> Result<(Kind<'a>, usize), LexicalFault>
    requires { classes.is_letter (slice_index bytes.now 0) ≡ true }
    ensures { Scanned bytes.now result }
{
    let length = run_length(Class::Name, bytes);
    if length > LONGEST_NAME {
        return Err(LexicalFault::NameTooLong);
    }
    let text = front(bytes, length);
    match reserved_word(text) {
        Some(word) => Ok((Kind::Reserved(word), length)),
        None => Ok((Kind::Name(text), length)),
    }
}
