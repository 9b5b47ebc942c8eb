//! The store of a story that runs, and the parts of instructions that read and write it.
#![tactic(auto)]

mod calls;
mod cells;
mod end;
mod in_place;
pub mod layout;
mod lent;
mod memory;
mod stack;
mod store;
mod variables;

pub use calls::{
    enter, has_argument, is_code, leave, test_calls, test_return, test_routine, variable_cell,
    variable_in,
};
pub use cells::{
    cell, long, program_counter, put_all, set_program_counter, set_standard_state, standard_state,
};
pub use end::End;
pub use in_place::{StepsInPlace, run_in_place};
pub use lent::Lent;
pub use memory::{
    is_readable, is_readable_word, is_writable, is_writable_word, read_byte, read_word, write_byte,
    write_word,
};
pub use stack::{pop, push, top};
pub use store::Store;
pub use variables::{
    global_address, operand_value, read_in_place, read_variable, store_result, test_pull,
    test_result, write_in_place, write_variable,
};
