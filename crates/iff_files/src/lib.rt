//! The two formats of IFF files that a player meets: saved games (Quetzal), and stories in a Blorb file.
#![tactic(auto)]

mod blorb;
mod blorb_fault;
mod chunks;
mod differences;
mod fault;
mod frames;
mod reading;
mod stacks;
mod writing;

pub use blorb::{MOST_BYTES, is_blorb, unpack};
pub use blorb_fault::BlorbFault;
pub use fault::SaveFault;
pub use frames::{FrameHead, put_frame, put_main, read_head, read_words};
pub use reading::{Save, is_save_of, read_save};
pub use writing::{SaveState, reads_back, write_save};
