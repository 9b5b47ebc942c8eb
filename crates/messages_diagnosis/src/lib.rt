//! Why a source is refused, where, and what is said of it; and what an accepted one takes.
#![tactic(auto)]

mod analysis;
mod attempts;
mod causes;
mod definitions;
mod diagnoses;
mod diagnosis;
mod faults_after;
mod grammar;
mod measuring;
mod misspelt;
mod needs;
mod routine_figures;
mod rules;
mod sizes;
mod sought;
mod statements;
mod table;
mod table_bytes;
mod told;
mod trials;

pub use analysis::Analysis;
pub use diagnoses::{Message, message_of};
pub use diagnosis::diagnose;
pub use faults_after::{MOST_TOKENS, NextFault, fault_after};
pub use measuring::{Counts, Figures, measure};
pub use messages_parts::{Diagnosis, Place, Shown};
pub use routine_figures::RoutineFigures;
pub use sought::Temporaries;
pub use statements::temporaries_at;
pub use story::Limit;
pub use story_file::greatest_length;
pub use table_bytes::{MOST_TABLE_BYTES, TableBytes};
