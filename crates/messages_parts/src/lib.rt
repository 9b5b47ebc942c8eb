//! Parts of messages: places of faults in a source, as they are shown; what is around a token, and rules
//! that ask for it; and features of other languages that are not in this one.
#![tactic(auto)]

mod advice;
mod bytes;
mod definitions;
mod diagnosis;
mod excerpt;
mod feature;
mod habits;
mod kinds;
mod lines;
mod objects;
mod operands;
mod place;
mod places;
mod rules;
mod shown;
mod spelling;
mod statements;
mod table;
mod tokens;
mod walks;

pub use advice::Advice;
pub use bytes::{Bytes, Style};
pub use definitions::{
    Defined, Definition, around, defined_at, first_definition, first_local, is_attribute, is_local,
    is_unknown,
};
pub use diagnosis::{Diagnosis, located};
pub use feature::{
    Absent, Feature, habit_as_name, habit_as_operand, habit_at_beginning, habit_between, is_habit,
    is_one_of, named, named_as_directive, named_in_expression,
};
pub use kinds::{Class, Kinds, is_of};
pub use objects::first_given;
pub use operands::{is_loop_variable, is_step, open_after};
pub use place::Place;
pub use places::{Conditions, Context, NO_CONDITIONS, wants};
pub use rules::{Say, Spot, Step, Test, Want, Words};
pub use shown::Shown;
pub use spelling::{MOST_EDITS, in_small_letters, is_near};
pub use statements::{begins_line, closes_after, is_in_routine, last_open, start_of};
pub use syntax_lexer::{Sign, Word};
pub use table::{
    ACCENTS, ADDRESSES, ALTERNATIVES, APOSTROPHES, ARRAY_EXPRESSIONS, ARRAY_VALUES,
    ASSIGNING_OPERATORS, BUFFERS, CLASSES, COMMAS, CONDITIONS, CONSTANT_EXPRESSIONS,
    DIRECTIVE_SIGN, INEQUALITY, LABELS, LIBRARY, MESSAGES, NEGATION, NESTED_NEGATIONS, NO_PARENTS,
    OBJECT_LOOPS, OPCODES, OTHER_VALUES, PARENTS, PARENTS_IN_LOOP, PRINT_FORMS, SETTINGS,
    SUPERCLASSES,
};
pub use tokens::{
    after, before, ends_within, is_name, is_named, is_sign, is_text, is_word, kind_at, line_of,
    text_at,
};
