//! Kinds of tokens.

ghost use Rattle.std.specs.Prelude.{◌≡◌};
ghost use Rattle.syntax_lexer.specs.Token.{lexeme};
ghost use Rattle.messages_advice.specs.Kinds as spec;

use syntax::{Kind, Position, Sign, Token, Word};

/// What tokens are, whatever their bytes: names, numbers, texts, characters and dictionary words are
/// each of one kind, and each reserved word and each sign is of its own.
#[derive(Clone, Copy, PartialEq, Eq)]
pub enum TokenKind {
    Name,
    Number,
    Text,
    Character,
    DictionaryWord,
    Reserved(Word),
    Sign(Sign),
    End,
}

/// Kinds of tokens: those that hold something, reserved words, signs, and the end.
macro_rules! token_kinds {
    ($(Is $($kind:ident)+;)? $(Word $($word:ident)+;)? Sign $($sign:ident)+ $(; End $end:ident)?) => {
        [
            $($(TokenKind::$kind,)+)?
            $($(TokenKind::Reserved(Word::$word),)+)?
            $(TokenKind::Sign(Sign::$sign),)+
            $(TokenKind::$end,)?
        ]
    };
}

pub(crate) use token_kinds;

/// All kinds, in the order in which they are listed.
const KINDS: [TokenKind; 86] = token_kinds!(
    Is Name Number Text Character DictionaryWord;
    Word Abbreviate Array Attribute Break Char Child Constant Continue Default Do Else False For
        Give Global Has Hasnt If In Move NewLine Nothing Notin Object Objectloop Or Parent Print
        PrintRet Property Provides Quit Read Remove Return Rfalse Rtrue Sibling String Switch Table
        To True Until While With;
    Sign OpenParenthesis CloseParenthesis OpenBrace CloseBrace OpenBracket CloseBracket Semicolon
        Comma Colon Dot DotAmpersand DotHash Assign Equal NotEqual Not Tilde Greater GreaterOrEqual
        Less LessOrEqual AndAlso Ampersand OrElse Bar Plus Increment Minus Decrement Arrow
        LongArrow Star Slash Percent;
    End End
);

/// All kinds, in the order in which they are listed.
#[tactic(auto, unfolding(crate::specs::Kinds::all_kinds))]
pub fn all_kinds() -> &'static [TokenKind]
    ensures { result.now ≡ spec.all_kinds }
{
    &KINDS
}

/// Some token of a kind, at no place.
pub fn token_of<'a>(kind: TokenKind) -> Token<'a>
    ensures { lexeme result ≡ spec.some_token kind }
{
    let kind = match kind {
        TokenKind::Name => Kind::Name(b""),
        TokenKind::Number => Kind::Number(0),
        TokenKind::Text => Kind::Text(b""),
        TokenKind::Character => Kind::Character(0),
        TokenKind::DictionaryWord => Kind::DictionaryWord(b""),
        TokenKind::Reserved(word) => Kind::Reserved(word),
        TokenKind::Sign(sign) => Kind::Sign(sign),
        TokenKind::End => Kind::End,
    };
    Token {
        kind,
        text: b"",
        position: Position { offset: 0, line: 0 },
    }
}
