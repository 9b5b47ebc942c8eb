//! What an accepted program means: resolved programs, the world of a running source, the limits of
//! sizes.
#![tactic(auto)]

mod arrays;
mod cause;
mod checked;
mod enclosure;
pub mod limits;
mod places;
mod resolved;
mod sizes;
mod table_sizes;

pub use arrays::Arrays;
pub use cause::Cause;
pub use checked::{Checked, CheckedObject, CheckedRoutine};
pub use enclosure::{Enclosure, IN_LOOP, OUTSIDE, in_switch};
pub use places::{Places, START_LENGTH, dictionary_after, objects_size, part_places, tables_size};
pub use resolved::{Action, Printed, Span, Value, Variable};
pub use sizes::{greatest_weight, test_sizes, test_sizes_placed};
pub use table_sizes::{fold, machine_character, name_words, text_characters, text_size};
