//! Keeps a session in a file: opens and locks it, settles its options, reads its lines and adds to them.
#![tactic(auto)]

mod again;
mod answers;
mod appender;
mod heading;
mod keeping;
mod later;
mod laws;
mod lines;
mod lock;
mod options;
mod preceded;
mod refusal;
mod retelling;
mod script;
mod seed;
mod story;
mod typed;
mod unread;

pub use again::{Again, Progress};
pub use answers::{Answer, answers_in, keep_answer};
pub use appender::Appender;
pub use heading::{Heading, HeadingFault, heading_in, heading_of};
pub use keeping::{Keeping, Kept, drop_last, unused};
pub use later::Later;
pub use laws::{keeps_pieces, reads_back, taken_read_back};
pub use lines::{LinesFault, count_lines, keep_passed, lines_in, whole_length};
pub use lock::Lock;
pub use preceded::Preceded;
pub use refusal::{REFUSED, refuse};
pub use retelling::retell;
pub use script::{Script, check_script};
pub use seed::{seeded, told_seed};
pub use story::story_line;
pub use typed::Typed;
pub use unread::{Unread, read_whole};
