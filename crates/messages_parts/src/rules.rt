//! Rules as data: what is told where some tests of the tokens around a place hold.

use crate::feature::Feature;
use crate::kinds::Kinds;

/// A token near a place, counted from the place, from the first of its statement or definition, or
/// from the parentheses around the place or before it.
#[derive(Clone, Copy)]
pub enum Spot {
    FourthLast,
    ThirdLast,
    SecondLast,
    Last,
    Here,
    Next,
    SecondNext,
    ThirdNext,
    /// The second before the first.
    BeforeEnd,
    /// The one before the first, which ends another statement or definition.
    End,
    First,
    Second,
    Third,
    /// The `(` that is open at the place.
    Open,
    /// The one before the `(` that is open at the place.
    BeforeOpen,
    /// The one before the parentheses that end right before the place.
    Caller,
    /// The `{` that is open at the place.
    Brace,
    BeforeDo,
    /// The last `do` before the place, if it is in the same routine.
    Do,
    AfterDo,
    /// The one after the definition that begins at the place.
    AfterDefinition,
}

/// What may be expected at a place, or wanted in the place of a name.
#[derive(Clone, Copy)]
pub enum Want {
    /// Only `until`.
    Until,
    /// Only a name.
    Name,
    /// A value, as a whole.
    Value,
    Text,
    Operator,
    Directive,
    /// `;`.
    End,
    Array,
    Attribute,
    /// A value that is known before a story runs.
    Constant,
    Object,
    Property,
    Routine,
    Variable,
}

/// What is asked of a token, or of the place.
#[derive(Clone, Copy)]
pub enum Test {
    /// The token is of a kind in a set.
    Kind(Kinds),
    /// It is one of some names, in capital or small letters. A space is between two of them.
    Named(&'static str),
    /// It is a name that is defined nowhere.
    Unknown,
    /// It is a name that a definition gives, of what is in a set.
    Known(u64),
    /// What is found by the name at the place is in a set.
    Found(u64),
    /// It is a name where a definition gives it.
    Defines,
    /// It is in the place of a property that an object gives.
    Given,
    /// It is a word that other languages have between operands.
    Joint,
    /// It is a word with which other languages begin a statement or a definition.
    Foreign,
    /// It is the first of its line.
    BeginsLine,
    /// A statement may begin with it.
    BeginsStatement,
    /// It directly follows the token before it.
    Joined,
    /// It is the first of the statement or the definition around the place.
    First,
    /// It is not the first of its own statement or definition.
    Continues,
    /// It is the same as the token before it.
    Repeats,
    /// A whole expression or a statement begins after it.
    BeginsExpression,
    /// A value is assigned to the name that it is, or it is stepped.
    Changed,
    /// A `:` is after it and the values that follow it.
    BeforeColon,
    /// An operand ends with it.
    EndsOperand,
    /// It is the `)` of parentheses after a token of a kind in a set.
    Closes(Kinds),
    /// Of the last tokens before it of two sets, the nearest is in the first.
    After(Kinds, Kinds),
    /// The same, with what is in parentheses or blocks of their own left out.
    Outside(Kinds, Kinds),
    /// Among it and the tokens after it up to the place is one of a kind in a set.
    Among(Kinds),
    /// Among them are two of a kind in a set, or more.
    Twice(Kinds),
    /// It is in a block with the cases of a `switch`.
    InSwitch,
    /// `!` is after it in its line, and then what may be negated.
    BeforeNegation,
    /// `!=` is after it in its line.
    BeforeInequality,
    /// Something is expected or wanted at the place.
    Wants(Want),
    /// The place is in the routine Main.
    InMain,
    /// A `]` is before the first `;` of the statement or the definition around the place.
    InBrackets,
    /// The place is among the values of the property `name`.
    InNames,
    /// Only values are before the place in its statement: a case without its `:`.
    InCase,
    /// The place is in the value of a Constant or a Global.
    InConstant,
    /// Two commas are left in the parentheses around the place, with it, and no `:`.
    TwoCommas,
    /// The statement or the block that ends before the place begins with `else`.
    AfterElse,
}

/// Words of which one may be meant.
#[derive(Clone, Copy)]
pub enum Words {
    /// Those of Inform 6.
    Inform,
    /// Those of Inform 6 in an expression.
    InExpression,
    /// Those of other languages between operands.
    Between,
    /// Those of other languages that begin a statement or a block.
    Beginning,
    /// Those of other languages in the place of an operand.
    Operand,
    /// Those of other languages that are read as a name.
    Name,
}

/// What a rule tells.
#[derive(Clone, Copy)]
pub enum Say {
    /// Nothing, and no rule after it tells anything.
    Nothing,
    /// What to write, or to leave out.
    Do(&'static str),
    /// What is called so is not in this language.
    Absent(&'static str, &'static Feature),
    /// What to write for a word of some words.
    Word(Words, Spot),
    /// What is wanted in the place of a name.
    Want(Want),
}

/// A step through a table of rules. A rule is its conditions and then what it says, all in one
/// list: a list in each rule would be dear to prove.
#[derive(Clone, Copy)]
pub enum Step {
    /// The token at a spot is to pass a test.
    Is(Spot, Test),
    /// It is not to pass it.
    Not(Spot, Test),
    /// The conditions end that hold together. Others may follow, or what is told.
    Or,
    /// What is told where the conditions before it hold, from one `Or` to another.
    Say(Say),
}

/// A test by its name and what it asks for; that of a set of kinds by the set.
#[macro_export]
macro_rules! test {
    (Named $names:literal) => { $crate::Test::Named($names) };
    (Known $($what:ident)+) => {
        $crate::Test::Known(0 $(| 1 << $crate::Definition::$what as u64)+)
    };
    (Found $($what:ident)+) => {
        $crate::Test::Found(0 $(| 1 << $crate::Definition::$what as u64)+)
    };
    (Closes $($word:ident)+) => { $crate::Test::Closes($crate::kinds!(Word $($word)+)) };
    (After $($word:ident)+) => { $crate::test!(After (Word $($word)+) (Is Divider)) };
    (After ($($kind:tt)+) ($($end:tt)+)) => {
        $crate::Test::After($crate::kinds!($($kind)+), $crate::kinds!($($end)+))
    };
    (InRoutine) => { $crate::test!(After (Sign OpenBracket) (Sign CloseBracket)) };
    (Outside ($($kind:tt)+) ($($end:tt)+)) => {
        $crate::Test::Outside($crate::kinds!($($kind)+), $crate::kinds!($($end)+))
    };
    (Among $($kind:tt)+) => { $crate::Test::Among($crate::kinds!($($kind)+)) };
    (Twice $($kind:tt)+) => { $crate::Test::Twice($crate::kinds!($($kind)+)) };
    (Wants $want:ident) => { $crate::Test::Wants($crate::Want::$want) };
    (Is $($kind:tt)+) => { $crate::Test::Kind($crate::kinds!(Is $($kind)+)) };
    (Sign $($kind:tt)+) => { $crate::Test::Kind($crate::kinds!(Sign $($kind)+)) };
    (Word $($kind:tt)+) => { $crate::Test::Kind($crate::kinds!(Word $($kind)+)) };
    ($test:ident) => { $crate::Test::$test };
}

/// A condition: a spot and a test, or `not` and a test.
#[macro_export]
macro_rules! condition {
    ($spot:ident not $($test:tt)+) => {
        $crate::Step::Not($crate::Spot::$spot, $crate::test!($($test)+))
    };
    ($spot:ident $($test:tt)+) => {
        $crate::Step::Is($crate::Spot::$spot, $crate::test!($($test)+))
    };
}

/// A table of rules. A condition is a spot and a test in brackets. Each rule is its conditions and
/// what to say; before that there may be the conditions of several, with `|` between.
#[macro_export]
macro_rules! rules {
    ($($($($spot:ident [$($test:tt)+])*)|+ => $say:expr,)*) => {
        &[$(
            $($($crate::condition!($spot $($test)+),)* $crate::Step::Or,)+
            $crate::Step::Say($say),
        )*]
    };
}
