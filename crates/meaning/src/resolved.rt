//! Statements and expressions whose names are resolved.

use syntax_trees::{Binary, Comparison, Containment, Equality, Prefix, Relative, Step, Width};

/// A variable.
#[derive(Clone, Copy, Debug, PartialEq, Eq)]
pub enum Variable {
    /// A local of the routine, from 0.
    Local(usize),

    /// A global variable, from 0.
    Global(usize),
}

/// An expression. Chains that group to the left are flat: what walks a tree takes stack by its
/// nesting alone.
#[derive(Drop)]
pub enum Value {
    Number(u16),
    Read(Variable),

    /// A call of the routine of a number, with its arguments.
    Call(usize, Vec<Value>),

    Prefixed(Prefix, Box<Value>),
    StepBefore(Step, Variable),
    StepAfter(Variable, Step),
    Chain(Box<Value>, Binary, Box<Value>, Vec<(Binary, Value)>),
    Compare(Box<Value>, Comparison, Box<Value>),
    Equal(Box<Value>, Equality, Box<Value>, Vec<Value>),
    Assign(Variable, Box<Value>),

    /// An entry of the array of a number, from 0, at an index.
    Entry(Width, usize, Box<Value>),

    /// An assignment to such an entry: the index, and then the value.
    AssignEntry(Width, usize, Box<Value>, Box<Value>),

    /// The parent, the first child or the sibling of an object.
    Relative(Relative, Box<Value>),

    /// Whether an object's parent is another word, or is not.
    Contained(Box<Value>, Containment, Box<Value>),

    /// Whether an object has the attribute of a number, or, where the truth value is false, has it
    /// not.
    Has(bool, Box<Value>, usize),

    /// Whether an object provides the property of a number.
    Provides(Box<Value>, usize),

    /// The word of an object's property, by the property's number, and then of a property of each
    /// such word: so `o.p.q` is as flat as `o.p`.
    Property(Box<Value>, usize, Vec<usize>),

    /// How many bytes the property has.
    PropertySize(Box<Value>, usize),

    /// A word of the property, at an index.
    PropertyWord(Box<Value>, usize, Box<Value>),

    /// An assignment to the word of a property.
    AssignProperty(Box<Value>, usize, Box<Value>),

    /// An assignment to a word of a property: the index, and then the value.
    AssignPropertyWord(Box<Value>, usize, Box<Value>, Box<Value>),
}

/// What `print` prints. Texts are the bytes between their quotes.
#[derive(Drop)]
pub enum Printed<'a> {
    Text(&'a [u8]),
    Character(Value),
    Number(Value),

    /// The short name of an object.
    Name(Value),
}

/// What a case of a `switch` holds for.
#[derive(Clone, Copy)]
pub enum Span {
    One(u16),

    /// The words from one to another, which are read signed.
    Between(u16, u16),
}

/// A statement. A value is held without a box only by kinds that hold nothing else: a statement is
/// as large as the largest kind, also `;`, and a source may consist of `;` alone.
#[derive(Drop)]
pub enum Action<'a> {
    Empty,
    Block(Vec<Action<'a>>),
    Text(&'a [u8]),
    Print(Vec<Printed<'a>>),
    PrintReturn(Vec<Printed<'a>>),
    NewLine,
    If(Box<Value>, Box<Action<'a>>),
    IfElse(Box<Value>, Box<Action<'a>>, Box<Action<'a>>),
    While(Box<Value>, Box<Action<'a>>),
    Do(Box<Action<'a>>, Box<Value>),

    /// A `for`: what is done before the first round, the test, what is done after each round, and
    /// the body.
    For(Option<Box<Value>>, Option<Box<Value>>, Option<Box<Value>>, Box<Action<'a>>),

    /// A `switch`: its value; its cases, with the statements of its `default`.
    Switch(Box<Value>, Box<(Vec<(Vec<Span>, Vec<Action<'a>>)>, Option<Vec<Action<'a>>>)>),

    Break,
    Continue,

    /// `read`: the numbers of the array for the letters of the line, and of that for its words.
    Read(usize, usize),

    /// `give`: the object, and the numbers of attributes, which are set, or cleared where the truth
    /// value is false.
    Give(Box<Value>, Vec<(bool, usize)>),

    /// `move` the first object into the second.
    Move(Box<Value>, Box<Value>),

    Remove(Value),

    /// `objectloop` over all objects.
    EachObject(Variable, Box<Action<'a>>),

    /// `objectloop` over the objects for which a condition holds.
    EachWhere(Variable, Box<Value>, Box<Action<'a>>),

    /// `objectloop` over the children of an object.
    EachIn(Variable, Box<Value>, Box<Action<'a>>),

    /// `return` alone and `rtrue` return 1, `rfalse` returns 0.
    ReturnValue(Value),

    Quit,
    Effect(Value),
}
