//! Branches, and what directives make of them.

/// A part of a source between a directive that asks and its `Endif`.
#[derive(Clone, Copy)]
pub enum Branch {
    /// It is kept, up to an `Ifnot`.
    First,

    /// It is kept, after its `Ifnot`.
    Second,

    /// It is left out, up to an `Ifnot`.
    Waiting,

    /// It is left out, and no `Ifnot` may follow.
    Done,

    /// It stands in what is left out.
    Within,
}

/// What is read.
#[derive(Clone, Copy)]
pub enum Mode {
    /// Tokens of the program, which are kept or left out.
    Tokens,

    /// The name of `Ifdef` (true) or `Ifndef`.
    Name(bool),

    /// The condition of `Iftrue` (true) or `Iffalse`.
    Condition(bool),

    /// The `;` of a directive.
    Semicolon,
}

/// A directive of branches.
#[derive(Clone, Copy)]
pub enum Directive {
    /// A branch begins, after what is read in this mode.
    If(Mode),

    Ifnot,
    Endif,
}
