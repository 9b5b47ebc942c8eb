//! Tokens of the language.

ghost use Rattle.std.specs.Prelude.{◌≡◌, ◌+◌, ◌-◌, ◌^◌, length, min};

/// A sign.
#[derive(Clone, Copy, Debug, PartialEq, Eq)]
pub enum Sign {
    /// `(`
    OpenParenthesis,
    /// `)`
    CloseParenthesis,
    /// `{`
    OpenBrace,
    /// `}`
    CloseBrace,
    /// `[`
    OpenBracket,
    /// `]`
    CloseBracket,
    /// `;`
    Semicolon,
    /// `,`
    Comma,
    /// `:`
    Colon,
    /// `.`
    Dot,
    /// `.&`
    DotAmpersand,
    /// `.#`
    DotHash,
    /// `=`
    Assign,
    /// `==`
    Equal,
    /// `~=`
    NotEqual,
    /// `~~`
    Not,
    /// `~`
    Tilde,
    /// `>`
    Greater,
    /// `>=`
    GreaterOrEqual,
    /// `<`
    Less,
    /// `<=`
    LessOrEqual,
    /// `&&`
    AndAlso,
    /// `&`
    Ampersand,
    /// `||`
    OrElse,
    /// `|`
    Bar,
    /// `+`
    Plus,
    /// `++`
    Increment,
    /// `-`
    Minus,
    /// `--`
    Decrement,
    /// `->`
    Arrow,
    /// `-->`
    LongArrow,
    /// `*`
    Star,
    /// `/`
    Slash,
    /// `%`
    Percent,
}

/// A reserved word. It is no name, in small letters or in capitals.
#[derive(Clone, Copy, Debug, PartialEq, Eq)]
pub enum Word {
    Abbreviate,
    Array,
    Attribute,
    Break,
    Char,
    Child,
    Constant,
    Continue,
    Default,
    Do,
    Else,
    False,
    For,
    Give,
    Global,
    Has,
    Hasnt,
    If,
    In,
    Move,
    NewLine,
    Nothing,
    Notin,
    Object,
    Objectloop,
    Or,
    Parent,
    Print,
    PrintRet,
    Property,
    Provides,
    Quit,
    Read,
    Remove,
    Return,
    Rfalse,
    Rtrue,
    Sibling,
    String,
    Switch,
    Table,
    To,
    True,
    Until,
    While,
    With,
}

/// Where a token stands: the offset of its first byte in the source, and its line. Line n begins
/// after n - 1 bytes 10.
#[derive(Clone, Copy, Debug, PartialEq, Eq)]
pub struct Position {
    pub offset: usize,
    pub line: usize,
}

/// What a token is. The bytes of names, texts and dictionary words are slices of the source.
#[derive(Clone, Copy, Debug)]
pub enum Kind<'a> {
    /// A letter or underscore, and letters, digits and underscores: at most 32 bytes. Case is
    /// ignored.
    Name(&'a [u8]),

    /// A number in decimal, hexadecimal or binary digits.
    Number(u16),

    /// The bytes between the quotes of a text.
    Text(&'a [u8]),

    /// The one byte between the quotes of a character.
    Character(u8),

    /// The bytes between the quotes of a dictionary word, without a final `//`.
    DictionaryWord(&'a [u8]),

    Reserved(Word),
    Sign(Sign),

    /// The end of the source.
    End,
}

/// A token of the source.
#[derive(Clone, Copy, Debug)]
pub struct Token<'a> {
    pub kind: Kind<'a>,

    /// Its bytes in the source, quotes included; the end of the source has none.
    pub text: &'a [u8],

    pub position: Position,
}

impl Token<'_> {
    /// The offset after its last byte; the greatest number where that is above it.
    pub fn end(&self) -> usize
        ensures { result
            ≡ min (self.now.position.offset + length self.now.text.now) (2 ^ 64 - 1) }
    {
        self.position.offset.saturating_add(self.text.len())
    }
}
