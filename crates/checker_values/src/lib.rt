//! The rules of names, literals and expressions, and what these resolve to.
#![tactic(auto)]

mod binding;
mod breach;
mod counts;
mod expression_rules;
mod file;
mod key;
mod known;
mod laws;
mod literal_rules;
mod memory;
mod name_rules;
mod names;
mod noting;
mod numbers;
mod table;
mod temporaries;
mod words;

pub use binding::Binding;
pub use breach::Breach;
pub use expression_rules::{boxed_expression, expression};
pub use file::File;
pub use key::{Key, key_of};
pub use known::Known;
pub use laws::keys_are_each_once;
pub use literal_rules::{constant_name, constant_value, initial, literal};
pub use memory::in_box;
pub use name_rules::{attribute, property};
pub use names::{Names, constant_known, literal_known, or_zero, tabulate};
pub use noting::{MOST_COUNTED, Tally, note};
pub use numbers::Numbers;
pub use table::{Scope, Table, define, find};
pub use temporaries::{both_fit, fits};
pub use words::{gather, key_of_word};
