//! Trees of expressions.

use syntax_lexer::Position;

/// A name where it is used or defined.
#[derive(Clone, Copy)]
pub struct Name<'a> {
    pub text: &'a [u8],
    pub position: Position,
}

/// An operator of a chain that groups to the left.
#[derive(Clone, Copy)]
pub enum Binary {
    /// `&&`
    AndAlso,
    /// `||`
    OrElse,
    /// `+`
    Add,
    /// `-`
    Subtract,
    /// `*`
    Multiply,
    /// `/`
    Divide,
    /// `%`
    Remainder,
    /// `&`
    And,
    /// `|`
    Or,
}

/// A comparison of signed numbers.
#[derive(Clone, Copy)]
pub enum Comparison {
    /// `<`
    Less,
    /// `>`
    Greater,
    /// `<=`
    LessOrEqual,
    /// `>=`
    GreaterOrEqual,
}

/// A comparison with one value or several.
#[derive(Clone, Copy, PartialEq, Eq)]
pub enum Equality {
    /// `==`: equal to any of them
    Equal,
    /// `~=`: equal to none of them
    NotEqual,
}

/// An operator before its operand.
#[derive(Clone, Copy)]
pub enum Prefix {
    /// `-`
    Minus,
    /// `~`
    Complement,
    /// `~~`
    Not,
}

/// One more or one less.
#[derive(Clone, Copy)]
pub enum Step {
    /// `++`
    Increment,
    /// `--`
    Decrement,
}

/// The width of an array's entries.
#[derive(Clone, Copy)]
pub enum Width {
    /// `->`: bytes
    Byte,
    /// `-->`: words
    Word,
}

/// What an object stands to another.
#[derive(Clone, Copy)]
pub enum Relative {
    Parent,
    /// the first child
    Child,
    Sibling,
}

/// Whether a value is to be the parent of an object.
#[derive(Clone, Copy)]
pub enum Containment {
    /// `in`
    In,
    /// `notin`
    NotIn,
}

/// What an object is tested for: an attribute or a property.
#[derive(Clone, Copy)]
pub enum ObjectTest {
    /// `has`
    Has,
    /// `hasnt`
    HasNot,
    /// `provides`
    Provides,
}

/// An expression. Chains of operators that group to the left are flat, and so are properties of
/// properties (`a.p.q`): a tree is at most as deep as its nesting, a few levels for each.
#[derive(Drop)]
pub enum Expression<'a> {
    /// A number or a character; `true` is 1, `false` and `nothing` are 0.
    Constant(u16),

    /// A dictionary word: the bytes of its token, capitals as they stand.
    Word(&'a [u8]),

    /// The value of a name.
    Named(Name<'a>),

    /// A call of a routine, with its arguments. The name is in a box, as in `Property`: each
    /// expression takes as much memory as the largest.
    Call(Box<Name<'a>>, Vec<Expression<'a>>),

    /// An entry of an array: the array's name, the width of its entries, and the index.
    Index(Name<'a>, Width, Box<Expression<'a>>),

    /// An expression in parentheses.
    Parenthesised(Box<Expression<'a>>),

    /// `parent`, `child` or `sibling`, of the object in its parentheses.
    RelativeOf(Relative, Box<Expression<'a>>),

    /// Properties, one after another: of an object, and then of each property's value.
    Property(Box<Expression<'a>>, Box<Name<'a>>, Vec<Name<'a>>),

    /// The length of a property: `.#`
    PropertyLength(Box<Expression<'a>>, Name<'a>),

    /// An entry of a property, with the index after `-->`: `.&`
    PropertyEntry(Box<Expression<'a>>, Name<'a>, Box<Expression<'a>>),

    Prefixed(Prefix, Box<Expression<'a>>),

    /// `++` or `--` before its operand, with the operator's position.
    StepBefore(Step, Position, Box<Expression<'a>>),

    /// `++` or `--` after its operand, with the operator's position.
    StepAfter(Box<Expression<'a>>, Step, Position),

    /// A first operand, an operator and a second operand, and the operators and operands that
    /// follow. All operators are of one level.
    Chain(Box<Expression<'a>>, Binary, Box<Expression<'a>>, Vec<(Binary, Expression<'a>)>),

    Compare(Box<Expression<'a>>, Comparison, Box<Expression<'a>>),

    /// The left side, the first value that it is compared with, and those after `or`.
    Equal(Box<Expression<'a>>, Equality, Box<Expression<'a>>, Vec<Expression<'a>>),

    Contained(Box<Expression<'a>>, Containment, Box<Expression<'a>>),

    /// Whether an object has an attribute, or provides a property.
    Tested(Box<Expression<'a>>, ObjectTest, Name<'a>),

    /// An assignment, with the position of `=`.
    Assign(Box<Expression<'a>>, Position, Box<Expression<'a>>),
}
