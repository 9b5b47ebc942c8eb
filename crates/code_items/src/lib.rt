//! A routine as items: the acts of its statements, one after another, with operands in place and
//! branches by conditions.
#![tactic(auto)]

mod cases;
mod exits;
mod group;
mod heading;
mod laws;
mod objects;
mod routine;
mod statement;
mod value;
mod value_operations;

pub use code_drafts::{Destination, Item, Operand, Test};
pub use laws::{items_are_within, items_follow};
pub use routine::routine_items;
pub use value::{put_operand, put_value};
