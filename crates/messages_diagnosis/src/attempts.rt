//! What may be the cause of a token that does not fit, and how it is tried: tables of attempts.

use messages_parts::Spot::{Here, Last};
use messages_parts::{Advice, Spot, Step, condition};
use syntax::Sign::{
    Assign, CloseBrace, CloseBracket, CloseParenthesis, Colon, Comma, Equal, OpenBrace,
    OpenBracket, OpenParenthesis, Semicolon,
};
use syntax::{Sign, Word};

/// What may be the cause of a token that does not fit.
#[derive(Clone, Copy)]
pub enum Cause {
    /// What is said in this sentence. `@` is for what is named, `#` for what is expected, `*` for the
    /// token.
    Said(&'static str, Named),
    /// The token of a number is a name, and this reserved word in its place would do.
    Misspelt(usize, Word),
    /// It is a form of another language, or a slip of a known kind.
    Told(Advice),
    /// A sign may be missing before the token at a spot, or `];` where the sign is `]`.
    Missing(Sign, Spot),
    /// It may be one token too many.
    Extra,
    Unknown,
}

/// What a sentence names.
#[derive(Clone, Copy)]
pub enum Named {
    Nothing,
    Sign(Sign),
    Token(Spot),
    /// The line of the token before that at a spot.
    LineBefore(Spot),
}

/// What is said where a name would do in the place of a reserved word.
const RESERVED: &str = "# expected: @ is reserved and cannot be a name";

/// What is said where a sign would do in the place of the token.
const INSTEAD: &str = "# expected, not *: write @ in its place";

/// How a source is to go on after a change.
#[derive(Clone, Copy)]
pub enum Ask {
    /// As it is: nothing is changed.
    Known,
    /// With the token at the place.
    Fits,
    /// Past the end of the statement or the definition, or of its head, that the place is in.
    Helps,
    /// Past that which the next token is in.
    HelpsNext,
    /// To its end.
    Mends,
}

/// What is put into a source.
#[derive(Clone, Copy)]
pub enum Put {
    Nothing,
    Name,
    Word(Word),
    Sign(Sign),
    /// `];`.
    End,
}

/// A change of a source, in the place of the tokens from one spot to before another, how the source
/// is to go on then, and what the cause is if it does.
#[derive(Clone, Copy)]
pub struct Try {
    pub ask: Ask,
    pub from: Spot,
    pub to: Spot,
    pub put: Put,
    pub cause: Cause,
}

/// A step through a table of attempts: a condition, as in a table of rules, or what is tried where
/// those before it hold.
#[derive(Clone, Copy)]
pub enum Attempt {
    Where(Step),
    Try(Try),
}

/// A table of attempts. Each is its conditions, as those of a rule, how the source is to go on with a
/// change, the spots of that change and what is put there, and the cause.
macro_rules! attempts {
    ($($($($spot:ident [$($test:tt)+])*)|+
        => $ask:ident $from:ident $to:ident $put:ident $(($what:expr))?: $cause:expr,)*) => {
        &[$(
            $(
                $(Attempt::Where(condition!($spot $($test)+)),)*
                Attempt::Where(Step::Or),
            )+
            Attempt::Try(Try {
                ask: Ask::$ask,
                from: Spot::$from,
                to: Spot::$to,
                put: Put::$put $(($what))?,
                cause: $cause,
            }),
        )*]
    };
}

/// What the tokens beside the place tell.
pub static BESIDE: &[Attempt] = attempts! {
    Here[Word With] First[Word Object] First[Among Word Has]
        | Here[Sign Comma] Next[Word With] First[Word Object] First[Among Word Has]
        => Known Here Here Nothing: Cause::Said("'with' must be before 'has'", Named::Nothing),
    // A `;` is missing before a reserved word that would fit after it, or before what any other token
    // begins. In the head of a routine only names are.
    Here[Is Reserved] Here[BeginsLine] | Here[Is Reserved] First[Sign OpenBracket]
        => Fits Here Here Sign(Semicolon): Cause::Missing(Semicolon, Here),
    Here[not Is Reserved] Here[BeginsLine]
        => Helps Here Here Sign(Semicolon): Cause::Missing(Semicolon, Here),
    // Of two signs that close both may be right, and one that opens may be missing.
    Here[Repeats] Here[not Sign CloseParenthesis CloseBrace CloseBracket]
        => Known Here Here Nothing: Cause::Said("# expected: * is there twice", Named::Nothing),
    // Right after the word that begins a definition only a name is.
    Here[Is Reserved] Last[Is Definition] Last[First] => Known Here Here Nothing: Cause::Said(RESERVED, Named::Token(Here)),
    // A reserved word without parentheses of its own after it, and in none as a form of `print`.
    Here[Is Reserved] Here[not Word Parent Child Sibling If While Until Switch Objectloop Char Object]
        | Here[Word Parent Child Sibling If While Until Switch Objectloop] Next[not Sign OpenParenthesis]
        | Here[Word Char Object] Last[not Sign OpenParenthesis]
        => Helps Here Next Name: Cause::Said(RESERVED, Named::Token(Here)),
    // A word that opens parentheses alone, and one to which a value is assigned.
    Last[Word Parent Child Sibling] | Last[Is Reserved] Here[Sign Assign]
        => Helps Last Here Name: Cause::Said(RESERVED, Named::Token(Last)),
    Here[Sign Assign] => Helps Here Next Sign(Equal): Cause::Said("# expected, not *: write '==' to compare", Named::Nothing),
};

/// Signs that may be missing, those first whose want is the surer cause where they help. No `{` is
/// before a `}`, and no `;` between `return` and a text, which is meant as a value. `,` is in a
/// `print`, an object, a list of cases or the arguments of a call.
macro_rules! missing_signs {
    ($ask:ident $($spot:ident [$($test:tt)+])*; $($other:tt)+) => {
        attempts! {
            => $ask Here Here Sign(CloseParenthesis): Cause::Missing(CloseParenthesis, Here),
            $($spot [$($test)+])*
                => $ask Here Here Sign(OpenParenthesis): Cause::Missing(OpenParenthesis, Here),
            Here[not Sign CloseBrace] => $ask Here Here Sign(OpenBrace): Cause::Missing(OpenBrace, Here),
            => $ask Here Here Sign(CloseBrace): Cause::Missing(CloseBrace, Here),
            Here[not Unknown] Last[not Unknown] Here[After Print PrintRet]
                | Here[not Unknown] Last[not Unknown] First[Word Object] Here[not First]
                | Here[not Unknown] Last[not Unknown] Open[Sign OpenParenthesis]
                | Here[not Unknown] Last[not Unknown] Here[InSwitch]
                => $ask Here Here Sign(Comma): Cause::Missing(Comma, Here),
            Here[not Is Text] | Last[not Word Return]
                => $ask Here Here Sign(Semicolon): Cause::Missing(Semicolon, Here),
            Here[InSwitch] | Here[After For] => $ask Here Here Sign(Colon): Cause::Missing(Colon, Here),
            First[Word Global Constant] Here[not First]
                => $ask Here Here Sign(Assign): Cause::Missing(Assign, Here),
            $($other)+
        }
    };
}

/// Changes after which the tokens are a program: signs before the place, where a `(` calls no routine
/// without arguments, and then others before the place, of what is before it, and of the token there.
pub static MENDING: &[Attempt] = missing_signs! {
    Mends Here[not Sign CloseParenthesis];
    => Mends Here Here End: Cause::Missing(CloseBracket, Here),
    Last[BeginsLine] => Mends Last Last Sign(Semicolon): Cause::Missing(Semicolon, Last),
    SecondLast[Sign CloseBracket] Last[Sign Semicolon] => Mends SecondLast Here Nothing: Cause::Said(
            "# expected, not *: remove the '];' in line @",
            Named::LineBefore(Here),
        ),
    Here[Is Definition] Here[InRoutine] => Mends Here AfterDefinition Nothing: Cause::Said(
            "# expected, not *: a definition is not within a routine: move it out",
            Named::Nothing,
        ),
    Here[Sign Comma] End[Sign Semicolon] => Mends End First Sign(Comma): Cause::Said(
            "# expected, not *: write ',' for the ';' in line @",
            Named::LineBefore(Spot::First),
        ),
    // A sign or a reserved word that is no value. Without a `;` at the end of a line two statements
    // would be one, and a `[` that begins one is hardly too many.
    Here[Is Sign Reserved] Here[not Sign Semicolon OpenBracket, Word True False Nothing]
        Last[not Word If While Until Switch]
        | Here[Sign Semicolon] Next[not BeginsLine] Last[not Word If While Until Switch]
        | Here[Sign OpenBracket] Here[not BeginsLine] Last[not Word If While Until Switch]
        => Mends Here Next Nothing: Cause::Extra,
    Here[Is Sign] => Mends Here Next Sign(CloseParenthesis): Cause::Said(INSTEAD, Named::Sign(CloseParenthesis)),
    Here[Is Sign] => Mends Here Next Sign(CloseBrace): Cause::Said(INSTEAD, Named::Sign(CloseBrace)),
    Here[Is Sign] => Mends Here Next Sign(CloseBracket): Cause::Said(INSTEAD, Named::Sign(CloseBracket)),
    Here[Is Sign] => Mends Here Next Sign(Semicolon): Cause::Said(INSTEAD, Named::Sign(Semicolon)),
    Here[Is Sign] => Mends Here Next Sign(Colon): Cause::Said(INSTEAD, Named::Sign(Colon)),
    Here[Is Sign] => Mends Here Next Sign(Comma): Cause::Said(INSTEAD, Named::Sign(Comma)),
    Here[Is Sign] => Mends Here Next Sign(OpenParenthesis): Cause::Said(INSTEAD, Named::Sign(OpenParenthesis)),
    Here[Is Sign] => Mends Here Next Sign(OpenBrace): Cause::Said(INSTEAD, Named::Sign(OpenBrace)),
    Here[Is Sign] => Mends Here Next Sign(OpenBracket): Cause::Said(INSTEAD, Named::Sign(OpenBracket)),
    Here[Sign Assign] => Mends Here Next Sign(Equal): Cause::Said(INSTEAD, Named::Sign(Equal)),
    // What divides or encloses, or begins a part of an object.
    Last[Sign Comma Colon OpenParenthesis CloseParenthesis OpenBrace CloseBrace CloseBracket]
        SecondLast[not Word If While Until Switch]
        | Last[Sign Semicolon] Here[not BeginsLine] SecondLast[not Word If While Until Switch]
        | Last[Word With Has] First[Word Object] Last[not First] SecondLast[not Word If While Until Switch]
        => Mends Last Here Nothing: Cause::Said(
            "# expected, not *: remove the @ before it",
            Named::Token(Last),
        ),
};

/// What closes the innermost sign that is open at the end of a source, if no statement before it lacks
/// its `;`.
pub static AT_END: &[Attempt] = attempts! {
    Here[Is End] Open[Sign OpenParenthesis]
        => Known Here Here Nothing: Cause::Missing(CloseParenthesis, Here),
    Here[Is End] Last[Is Divider] Brace[Sign OpenBrace]
        => Known Here Here Nothing: Cause::Missing(CloseBrace, Here),
};

/// Changes with which the parser gets on: signs before the place, and then a `;` at the end of a line,
/// the end of a routine, and a token that may be one too many.
pub static HELPING: &[Attempt] = missing_signs! {
    Helps;
    Last[BeginsLine] => Helps Last Last Sign(Semicolon): Cause::Missing(Semicolon, Last),
    Here[BeginsLine] => Fits Here Here Sign(Semicolon): Cause::Missing(Semicolon, Here),
    => Helps Here Here End: Cause::Missing(CloseBracket, Here),
    Here[Is Sign Reserved] Here[not Word True False Nothing] => HelpsNext Here Next Nothing: Cause::Extra,
};
