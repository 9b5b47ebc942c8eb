//! What goes with the place where a turn of the Standard's machine goes on, and the opcodes of windows.
#![tactic(auto)]

mod lines;
mod texts;
mod turn_state;
mod windows;

pub use lines::missing_lines;
pub use texts::cut;
pub use turn_state::{MOST_STREAMS, TurnState};
pub use windows::{
    begin_or_drop_upper, drop_upper, erase_window, row_in, set_cursor, set_window, show_upper,
    split_window, width_in,
};
