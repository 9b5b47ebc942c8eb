//! Lines of a session: which of them stand and what is replied to them, the buffer of a line, writing, and
//! bytes that turns keep.
#![tactic(auto)]

mod answers;
mod exit;
mod files;
mod kept_bytes;
mod line;
mod log;
mod names;
mod short_bytes;
mod typable;
mod writing;
mod written;

pub use answers::{GivenFault, NO_NAME, NOT_WRITTEN, OTHER_FILE, load, numbered, store};
pub use exit::status;
pub use files::{Files, FilesFault, NoFiles};
pub use kept_bytes::KeptBytes;
pub use line::Line;
pub use log::{Log, Note};
pub use names::{file_name, is_name};
pub use typable::{LONGEST_LINE, is_short, is_typable};
pub use writing::{WriteFailed, put, tell};
pub use written::Written;
