//! How signs and reserved words are spelled.

ghost use Rattle.std.specs.Prelude.{◌≡◌, true};
ghost use Rattle.syntax_lexer.specs.Fronts.{is_statement_word};
ghost use Rattle.syntax_lexer.specs.Spelling.{sign_spelling, word_spelling};

use syntax_lexer::{Sign, Word};

/// The bytes of a sign.
pub fn sign_spelling(sign: Sign) -> &'static [u8]
    ensures { result.now ≡ sign_spelling sign }
{
    match sign {
        Sign::OpenParenthesis => b"(",
        Sign::CloseParenthesis => b")",
        Sign::OpenBrace => b"{",
        Sign::CloseBrace => b"}",
        Sign::OpenBracket => b"[",
        Sign::CloseBracket => b"]",
        Sign::Semicolon => b";",
        Sign::Comma => b",",
        Sign::Colon => b":",
        Sign::Dot => b".",
        Sign::DotAmpersand => b".&",
        Sign::DotHash => b".#",
        Sign::Assign => b"=",
        Sign::Equal => b"==",
        Sign::NotEqual => b"~=",
        Sign::Not => b"~~",
        Sign::Tilde => b"~",
        Sign::Greater => b">",
        Sign::GreaterOrEqual => b">=",
        Sign::Less => b"<",
        Sign::LessOrEqual => b"<=",
        Sign::AndAlso => b"&&",
        Sign::Ampersand => b"&",
        Sign::OrElse => b"||",
        Sign::Bar => b"|",
        Sign::Plus => b"+",
        Sign::Increment => b"++",
        Sign::Minus => b"-",
        Sign::Decrement => b"--",
        Sign::Arrow => b"->",
        Sign::LongArrow => b"-->",
        Sign::Star => b"*",
        Sign::Slash => b"/",
        Sign::Percent => b"%",
    }
}

// The words of statements.
fn statement_word_spelling(word: Word) -> &'static [u8]
    requires { is_statement_word word ≡ true }
    ensures { result.now ≡ word_spelling word }
{
    match word {
        Word::Break => b"break",
        Word::Continue => b"continue",
        Word::Default => b"default",
        Word::Do => b"do",
        Word::Else => b"else",
        Word::For => b"for",
        Word::Give => b"give",
        Word::If => b"if",
        Word::Move => b"move",
        Word::NewLine => b"new_line",
        Word::Objectloop => b"objectloop",
        Word::Print => b"print",
        Word::PrintRet => b"print_ret",
        Word::Quit => b"quit",
        Word::Read => b"read",
        Word::Remove => b"remove",
        Word::Return => b"return",
        Word::Rfalse => b"rfalse",
        Word::Rtrue => b"rtrue",
        Word::String => b"string",
        Word::Switch => b"switch",
        Word::To => b"to",
        Word::Until => b"until",
        Word::While => b"while",
        _ => b"",
    }
}

/// The bytes of a reserved word, in small letters.
pub fn word_spelling(word: Word) -> &'static [u8]
    ensures { result.now ≡ word_spelling word }
{
    match word {
        Word::Abbreviate => b"abbreviate",
        Word::Array => b"array",
        Word::Attribute => b"attribute",
        Word::Char => b"char",
        Word::Child => b"child",
        Word::Constant => b"constant",
        Word::False => b"false",
        Word::Global => b"global",
        Word::Has => b"has",
        Word::Hasnt => b"hasnt",
        Word::In => b"in",
        Word::Nothing => b"nothing",
        Word::Notin => b"notin",
        Word::Object => b"object",
        Word::Or => b"or",
        Word::Parent => b"parent",
        Word::Property => b"property",
        Word::Provides => b"provides",
        Word::Sibling => b"sibling",
        Word::Table => b"table",
        Word::True => b"true",
        Word::With => b"with",
        _ => statement_word_spelling(word),
    }
}
