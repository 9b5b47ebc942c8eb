//! A session as it is played for a user at a terminal, a pipe or a program.
#![tactic(auto)]

mod advice;
mod answers;
mod folder;
mod keys;
mod named;
mod resizing;
mod running;
mod safe_names;
mod saves;
mod screening;
mod shown;
mod stop;
mod transcript;
mod turns;

pub use advice::advise;
pub use resizing::Resizing;
pub use running::{run_session, written_on};
pub use saves::check_files;
pub use screening::{NO_SIZE, are_sized, drawn_rows, has_marks, is_drawn, told_screen};
pub use stop::{Lost, Stop};
