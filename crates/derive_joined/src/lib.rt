//! The first pass over an extended source: texts over several lines, and `#` before directives.
#![tactic(auto)]

mod directive;
mod including;
mod inclusion;
mod joiner;
mod mode;
mod part;
mod reading;
mod source;
mod stretch;
mod texts;

pub use including::{first_asked, included};
pub use part::{Part, Run};
pub use reading::parts_of;
pub use source::{fault_in, joined, origin};
pub use texts::{Spot, bytes_of, spot_of, text_of};
