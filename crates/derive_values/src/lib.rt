//! Routines in properties, and texts and routines as values: what they stand for.
#![tactic(auto)]

mod lifting;
mod numbers;
mod places;
mod scopes;
mod uses;
mod values;

pub use lifting::lifted;
pub use numbers::{Numbers, numbers_of};
pub use places::{Form, Place, Scope, begins_print, is_text, place_after};
pub use scopes::{Reading, is_at_rest, routines_of, scope_after, scope_outside};
pub use uses::{begins_operand, is_next, is_operand_next, is_operand_word};
pub use values::valued;
