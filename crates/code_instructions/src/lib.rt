//! Which instructions do an item on words, a call, a branch or a print.
#![tactic(auto)]

mod calls;
mod jumps;
mod moves;
mod objects;
mod operators;
mod places;
mod printing;
mod properties;
mod tested;
mod words;

pub use calls::{put_call, put_call_aside, put_return};
pub use jumps::{put_branch, put_branch_back, put_case, put_jump, put_labelled};
pub use moves::{put_first_object, put_move_object, put_next_object};
pub use objects::{put_give, put_has, put_is_in, put_on_object, put_relative};
pub use operators::{put_also_equal, put_binary, put_first_equal, put_prefix, put_with_aside};
pub use places::{label_size, offset_of, place, target_of};
pub use printing::{put_character, put_text};
pub use properties::{
    put_assign_property, put_assign_property_word, put_property, put_property_size,
    put_property_word, put_provides,
};
pub use tested::{
    FIRST_NEGATIVE, offset_over_comparison, put_fail, put_pulled, put_tested_between, word_in,
};
pub use words::{put_keep, put_move, put_step};
