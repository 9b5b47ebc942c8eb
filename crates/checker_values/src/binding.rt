//! What names stand for.

use crate::known::Known;
use syntax::ArrayKind;

/// What a name stands for in a routine.
#[derive(Clone, Copy)]
pub enum Binding {
    /// A value. Nothing is known of one whose definition breaks a rule itself.
    Constant(Option<Known>),

    /// A global variable, numbered from 0 in order of definition.
    Global(usize),

    /// An array, numbered from 0 in order of definition, and its kind.
    Array(usize, ArrayKind),

    /// A routine, numbered from 0 in order of definition, and how many locals it has.
    Routine(usize, usize),

    /// An attribute, numbered from 0 in order of definition.
    Attribute(usize),

    /// A property. The property `name` is there from the start and has the number 1; those of the
    /// file are numbered from 2 in order of definition.
    Property(usize),

    /// An object, numbered from 1 in order of definition.
    Object(usize),

    /// A local of the routine, numbered from 0.
    Local(usize),
}
