//! What the Standard's opcodes on tables do, on the values of their operands: search a table, copy
//! it, print it.
#![tactic(auto)]

mod copying;
mod printing;
mod scanning;
mod testing;

pub use copying::copy_table;
pub use printing::print_table;
pub use scanning::scan_table;
