//! Where a token of a file stands.

use crate::part::Run;

/// What a token is to a reader of directives.
#[derive(Clone, Copy)]
pub enum Role {
    /// The name `Include`.
    Include,

    /// A text.
    Text,

    /// `;`
    Semicolon,

    /// `[`
    Open,

    /// `]`
    Close,

    /// Any other token.
    Other,
}

/// Where a token stands.
#[derive(Clone, Copy)]
pub enum Mode {
    /// A directive may begin.
    Start,

    /// Behind a directive `Include`: another may begin.
    Behind,

    /// Behind the word `Include` at this offset, which begins a directive.
    Include(usize),

    /// The same, and behind the text that names the file.
    Named(usize, Run),

    /// In another directive.
    Directive,

    /// In a routine.
    Routine,
}
