//! Signs of other languages, which are written with two or three signs of this one.

use messages_parts::Say::{Absent, Do, Nothing};
use messages_parts::{ASSIGNING_OPERATORS, SUPERCLASSES, Step, rules};

/// What is told of signs that are meant to begin a comment: `//` or `/*`, and where a statement
/// begins `(*`, `--` with a blank after it, a `;` that begins a line and ends nothing, with more
/// after it, or a `{` that begins a line, with an unknown name after it.
pub static COMMENTS: &[Step] = rules! {
    Here[Joined] Last[Sign Slash] Here[Sign Slash Star]
        | Here[Joined] Last[Sign OpenParenthesis] Here[Sign Star] Last[First]
        | Next[Joined] Here[Sign Slash] Next[Sign Slash Star]
        | Next[Joined] Here[Sign OpenParenthesis] Next[Sign Star] Here[First]
        | First[Sign Decrement] Second[not Joined] Second[not BeginsLine]
        | Here[Sign Semicolon] Here[BeginsLine] Next[not BeginsLine] Here[First]
        | End[Sign Semicolon] End[BeginsLine] First[not BeginsLine] BeforeEnd[Is End]
        | End[Sign Semicolon] End[BeginsLine] First[not BeginsLine] BeforeEnd[Is Divider]
        | End[Sign OpenBrace] End[BeginsLine] First[not BeginsLine] BeforeEnd[Is Divider] First[Unknown]
        => Do("a comment begins with '!'"),
};

/// What is told of two signs that are one in another language, but for `= =` outside parentheses and
/// `<<` that begins an action.
pub static PAIRS: &[Step] = rules! {
    Last[not Is Sign] | Here[not Is Sign] => Nothing,
    Last[Sign Assign] Here[Sign Assign] Open[not Sign OpenParenthesis] | Last[Sign Less] Last[First] => Nothing,
    Last[Sign Slash] Here[Sign Assign] BeforeOpen[Word If] => Do("write '~='"),
    // Side by side.
    Here[Joined] Last[Sign Equal] Here[Sign Assign] => Do("write '=='"),
    Here[Joined] Last[Sign NotEqual] Here[Sign Assign] | Here[Joined] Last[Sign Less] Here[Sign Greater]
        | Here[Joined] Last[Sign Assign] Here[Sign Tilde Slash] => Do("write '~='"),
    Here[Joined] Last[Sign Assign] Here[Sign Greater] => Do("write '>='"),
    Here[Joined] Last[Sign Assign] Here[Sign Less] => Do("write '<='"),
    Here[Joined] Last[Sign Less] Here[Sign Minus] | Here[Joined] Last[Sign Colon] Here[Sign Assign] => Do("write '='"),
    Here[Joined] Last[Sign Less] Here[Sign Less] => Do("there are no shifts: write '*'"),
    Here[Joined] Last[Sign Greater] Here[Sign Greater] => Do("there are no shifts: write '/'"),
    Here[Joined] Last[Sign Star] Here[Sign Star] => Do("there are no powers: multiply in a loop"),
    Here[Joined] Last[Sign Dot] Here[Sign Dot] => Absent("'..'", SUPERCLASSES),
    Here[Joined] Last[Sign Colon] Here[Sign Colon] => Absent("'::'", SUPERCLASSES),
    Here[Joined] Last[Sign Assign] Here[Sign Plus] => Absent("an operator with '='", ASSIGNING_OPERATORS),
    // With a blank between them, or none.
    Here[Sign Assign] Last[Sign Assign] => Do("write '==' without a blank"),
    Here[Sign Assign] Last[Sign Less] => Do("write '<=' without a blank"),
    Here[Sign Assign] Last[Sign Greater] => Do("write '>=' without a blank"),
    Here[Sign Assign] Last[Sign Tilde] => Do("write '~=' without a blank"),
    Here[Sign Assign] Last[Is Operator] => Absent("an operator with '='", ASSIGNING_OPERATORS),
    Last[Sign Ampersand] Here[Sign Ampersand] => Do("write '&&' without a blank"),
    Last[Sign Bar] Here[Sign Bar] => Do("write '||' without a blank"),
    Last[Sign Minus] Here[Sign Greater] => Do("write '->' without a blank"),
    Last[Sign Minus] Here[Sign Arrow] | Last[Sign Decrement] Here[Sign Greater]
        => Do("write '-->' without a blank"),
};
