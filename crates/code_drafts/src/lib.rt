//! Items, and drafts of them: what is written before and after the parts of an expression.
#![tactic(auto)]

mod addresses;
mod draft;
mod instruction;
mod item;
mod layout;
mod opcode;
mod operand;
mod operand_bytes;
mod parts;
mod several;
mod wanted;

pub use addresses::{
    Addresses, PROPERTY_NUMBERS, Sizes, array_address, fault_address, has_one_word, routine_address,
};
pub use draft::{Draft, into_items, item_count, lead_back, put, put_branch, turn_back};
pub use instruction::{
    ASIDE, FIRST, FOURTH, Instruction, Operands, SECOND, ShortBranch, THIRD, branching, copy,
    giving, plain, print_fault, pull, push, put_all, put_instruction, quit, store,
};
pub use item::{Destination, Item, Operand, Test};
pub use layout::{BranchUse, Form, Part, TWO_BYTE_LIMIT, branches, lay_out};
pub use operand::{
    MOST_COMPARED, alone, are_few, are_more_pushed, before, first_of, is_any_pushed, is_one_test,
    is_pushed, left_of, push_alone, push_operands, side_operands,
};
pub use operand_bytes::{
    constant, in_place, name_second, put_named, put_takes, result_in, variable_number,
};
pub use parts::{
    argument_place, assign_entry_item, call_item, comparison_test, comparison_when,
    containment_when, entry_item, equality_when, first_of_and, first_of_or, has_when, index_place,
    is_logical, is_pushed_or_later, operation_item, put_number, put_read, put_step_after,
    put_step_before, put_truth, put_word, right_place,
};
pub use several::put_each_same;
pub use wanted::Wanted;
