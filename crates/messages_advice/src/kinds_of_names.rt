//! What names stand for, and their kinds in words.

use checker_values::{Binding, Table, find};
use meaning::limits::MOST_ARRAY_BYTES;
use messages_parts::{Defined, Definition, Want, is_local};
use syntax::{ArrayKind, Token};

/// What a name stands for in a definition.
pub fn binding_in(
    tokens: &[Token<'_>],
    around: Option<Defined>,
    table: &Table,
    text: &[u8],
) -> Option<Binding> {
    if is_local(tokens, around, text) {
        Some(Binding::Local(0))
    } else {
        find(table, text)
    }
}

/// What a name is.
pub fn kind_of(binding: Binding) -> &'static str {
    match binding {
        Binding::Constant(_) => "a Constant",
        Binding::Global(_) => "a global",
        Binding::Array(_, _) => "an array",
        Binding::Routine(_, _) => "a routine",
        Binding::Attribute(_) => "an attribute",
        Binding::Property(_) => "a property",
        Binding::Object(_) => "an object",
        Binding::Local(_) => "a local",
    }
}

/// What the definition of a name is of. A local is a variable as a global is.
pub fn definition_of(binding: Binding) -> Definition {
    match binding {
        Binding::Constant(_) => Definition::Constant,
        Binding::Global(_) | Binding::Local(_) => Definition::Global,
        Binding::Array(_, _) => Definition::Array,
        Binding::Routine(_, _) => Definition::Routine,
        Binding::Attribute(_) => Definition::Attribute,
        Binding::Property(_) => Definition::Property,
        Binding::Object(_) => Definition::Object,
    }
}

/// Whether a name is a variable.
pub fn is_variable(binding: Binding) -> bool {
    matches!(definition_of(binding), Definition::Global)
}

/// What is wanted, in words.
pub fn words_of(want: Want) -> &'static str {
    match want {
        Want::Array => "an array",
        Want::Attribute => "an attribute",
        Want::Constant => "a Constant or an object",
        Want::Object => "an object",
        Want::Property => "a property",
        Want::Routine => "a routine",
        Want::Variable => "a variable",
        _ => "a value",
    }
}

/// What an array is.
pub fn array_kind(kind: ArrayKind) -> &'static str {
    match kind {
        ArrayKind::Bytes => "an array of bytes",
        ArrayKind::Words => "an array of words",
        ArrayKind::String => "a string",
        ArrayKind::Table => "a table",
    }
}

/// How many entries an array may have at most.
pub fn most_entries(kind: ArrayKind) -> usize {
    match kind {
        ArrayKind::Bytes => MOST_ARRAY_BYTES,
        ArrayKind::Words => MOST_ARRAY_BYTES / 2,
        ArrayKind::String => 255,
        ArrayKind::Table => MOST_ARRAY_BYTES / 2 - 1,
    }
}
