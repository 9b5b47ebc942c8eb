//! Trees of directives.

use syntax_lexer::Position;
use syntax_statements::{Literal, Statement};
use syntax_trees::Name;

/// What an array holds.
#[derive(Clone, Copy)]
pub enum ArrayKind {
    /// `->`: bytes
    Bytes,
    /// `-->`: words
    Words,
    /// `string`: bytes, after their number
    String,
    /// `table`: words, after their number
    Table,
}

/// A value in the definition of an array or of a property, and the position of its first token.
#[derive(Clone, Copy)]
pub struct ArrayValue<'a> {
    pub position: Position,
    pub value: Literal<'a>,
}

/// An array: its name, its kind, and one value or more. One alone is the number of its entries,
/// which are zeros; several are its entries.
#[derive(Drop)]
pub struct Array<'a> {
    pub name: Name<'a>,
    pub kind: ArrayKind,
    pub values: Vec<ArrayValue<'a>>,
}

/// A text of a definition: the bytes between its quotes, and its position.
#[derive(Clone, Copy)]
pub struct Text<'a> {
    pub bytes: &'a [u8],
    pub position: Position,
}

/// A property that an object provides: its name, and one value or more.
#[derive(Drop)]
pub struct Property<'a> {
    pub name: Name<'a>,
    pub values: Vec<ArrayValue<'a>>,
}

/// An object.
#[derive(Drop)]
pub struct Object<'a> {
    /// Where each arrow stands that says how deep the object stands in those before it.
    pub arrows: Vec<Position>,

    pub name: Name<'a>,

    /// The short name.
    pub short: Option<Text<'a>>,

    /// The object that it stands in. Where it is named there are no arrows.
    pub parent: Option<Name<'a>>,

    pub properties: Vec<Property<'a>>,

    /// The names of its attributes.
    pub attributes: Vec<Name<'a>>,
}

/// A routine: its name, its locals, and its statements.
#[derive(Drop)]
pub struct Routine<'a> {
    pub name: Name<'a>,
    pub locals: Vec<Name<'a>>,
    pub body: Vec<Statement<'a>>,

    /// 32 for each token from its `[` to the `;` after its `]`, and 3 for each byte between the
    /// quotes of a text.
    pub weight: u128,
}

/// A definition of the file.
#[derive(Drop)]
pub enum Directive<'a> {
    /// A global variable, and the value that it begins with; 0 where none is given.
    Global(Name<'a>, Option<Literal<'a>>),

    /// A name for a value.
    Constant(Name<'a>, Literal<'a>),

    Array(Array<'a>),

    /// A name for an attribute.
    Attribute(Name<'a>),

    /// A name for a property, and its default; 0 where none is given.
    Property(Name<'a>, Option<Literal<'a>>),

    Object(Object<'a>),

    Routine(Routine<'a>),
}
