//! What the modules of a row use of the other modules and of the crates that they show.

pub use crate::error::RowError;
pub use crate::setting::{Setting, small};
pub use crate::shown::Shown;
pub use crate::written::{Call, number_in, number_to, parted, put_written, written_bytes};
pub use journal::{Cells, PAGE, Recorded, WORD_PAGES, swap_back, swap_forward};
pub use machine::{Machine, Store};
pub use session::{Mode, Place, Reply, Session, StandardOptions};
pub use session_run::{NoFiles, run, status};
pub use tools::{PairFault, compile_and_run, compile_and_run_by_standard};
pub use zcore::{Version, decode_text, encode_text, encode_with, word_key};
