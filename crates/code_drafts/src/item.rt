//! The items of a routine.

use meaning::Variable;
use syntax_trees::{Binary, Prefix, Relative, Step, Width};

/// A word that an item takes. Of the operands of an item that are pushed the last is on top.
#[derive(Clone, Copy, Debug, PartialEq, Eq)]
pub enum Operand {
    /// The topmost word of the stack, which goes.
    Pushed,

    Number(u16),

    /// A variable, which is read when the item is done.
    Variable(Variable),
}

/// Where a word goes.
#[derive(Clone, Copy, Debug, PartialEq, Eq)]
pub enum Destination {
    /// To the top of the stack.
    Push,

    Into(Variable),

    /// Aside, for the next item.
    Aside,

    Nowhere,
}

/// What a branch asks of its operands.
#[derive(Clone, Copy, Debug, PartialEq, Eq)]
pub enum Test {
    /// Of one operand, that it is 0.
    IsZero,

    /// Of two, that the first is less than the second, as signed numbers.
    Less,

    /// Of two, that the first is greater than the second, as signed numbers.
    Greater,

    /// Of two to four, that the first equals one of the others.
    Same,
}

/// One act of a routine, with its tests and its fault inside. The items of a routine are numbered
/// from 0, and jumps name the item that they lead to.
#[derive(Drop)]
pub enum Item<'a> {
    Move(Operand, Destination),

    /// None of `~~`, which turns a branch.
    Prefix(Prefix, Operand, Destination),

    /// None of `&&` and `||`, which are branches.
    Operate(Binary, Operand, Operand, Destination),

    /// The same, where the right operand was put aside: the left one.
    OperateAside(Binary, Operand, Destination),

    /// A variable is stepped, and its new word goes on.
    Step(Step, Variable, Destination),

    /// An entry of the array of this number, at an index, or the fault that it has none there.
    Entry(Width, usize, Operand, Destination),

    /// The same, where the index was put aside.
    EntryAside(Width, usize, Destination),

    /// A word is assigned to the entry at an index, and goes on, or the fault that there is none:
    /// index and word.
    AssignEntry(Width, usize, Operand, Operand, Destination),

    /// The same, where the last of both that is pushed was put aside: it counts as the topmost word
    /// of the stack.
    AssignEntryAside(Width, usize, Operand, Operand, Destination),

    /// The parent, the first child or the sibling of an object, or the fault that it is none.
    Relative(Relative, Operand, Destination),

    /// The word of an object's property of this number: its default, where the object does not
    /// provide it. Or the fault that it is no object, or that the property has more than one word.
    Property(Operand, usize, Destination),

    /// How many bytes the property has, 0 where the object does not provide it. Or the fault that
    /// it is no object.
    PropertySize(Operand, usize, Destination),

    /// A word of the property: object and index. Or the fault that the first is none, that the
    /// object does not provide the property, or that it has no such word.
    PropertyWord(usize, Operand, Operand, Destination),

    /// A word is assigned to the property, and goes on: object and word. The faults are those of
    /// both before it.
    AssignProperty(usize, Operand, Operand, Destination),

    /// A word is assigned to a word of the property, and goes on: object, index and word.
    AssignPropertyWord(usize, Operand, Operand, Operand, Destination),

    /// An object gets attributes, or is without them where the truth value is false. Or the fault
    /// that it is none.
    Give(Operand, Vec<(bool, usize)>),

    /// The first object goes into the second. Or the fault that one is none, or that the first
    /// would lie inside itself. Each step to a parent of the second costs a unit of fuel.
    MoveObject(Operand, Operand),

    /// An object goes out of its parent. Or the fault that it is none.
    RemoveObject(Operand),

    /// The topmost word goes to a variable, and stays.
    Keep(Variable),

    /// Of more than three right sides of `==`, the first: from left and right to left and flag.
    FirstEqual,

    /// A later one: from left, flag and right to left and flag.
    AlsoEqual,

    /// The word below the topmost one goes.
    DropBelow,

    /// The bytes between the quotes of a text.
    PrintText(&'a [u8]),

    /// A word as a character, or the fault that it is none.
    PrintCharacter(Operand),

    /// A word as a signed number.
    PrintNumber(Operand),

    /// The short name of an object, or the fault that it is none.
    PrintName(Operand),

    NewLine,

    /// The next line goes to two arrays of bytes: its letters to the one of the first number, its
    /// words to the other. Or the fault that one of them is too small.
    Read(usize, usize),

    /// The story ends.
    Quit,

    /// Forward, where the test holds, or where it does not.
    Branch(Test, Vec<Operand>, bool, usize),

    /// Forward, where an object's parent is another word, or where it is not. Or the fault that the
    /// first is no object.
    IsIn(Operand, Operand, bool, usize),

    /// Forward, where an object has the attribute of this number, or where it has not. Or the fault
    /// that it is none.
    Has(Operand, usize, bool, usize),

    /// Forward, where an object provides the property of this number, or where it does not. Or the
    /// fault that it is none.
    Provides(Operand, usize, bool, usize),

    /// Object 1 goes to a variable, or forward, where there is no object.
    FirstObject(Variable, usize),

    /// A variable gets the object after the one that it has, or forward, where it has none or the
    /// last.
    NextObject(Variable, usize),

    /// Forward, where the test holds of the word that was put aside and these numbers, or where it
    /// does not. The word stays there for the next item.
    Case(Test, Vec<u16>, bool, usize),

    /// Forward; a word that was put aside stays there.
    Jump(usize),

    /// Back, which costs a unit of fuel.
    Back(usize),

    /// Back, which costs a unit of fuel, where the test holds, or where it does not.
    BranchBack(Test, Vec<Operand>, bool, usize),

    /// A routine, its arguments, and where the word goes that it returns.
    Call(usize, Vec<Operand>, Destination),

    /// The same, where the last operand that is pushed was put aside: it counts as the topmost
    /// word of the stack.
    CallAside(usize, Vec<Operand>, Destination),

    Return(Operand),
}
