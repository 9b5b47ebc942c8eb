//! The session of a player: the turns of a story, which can be taken back and done again.
#![tactic(auto)]

mod fault;
mod marking;
mod mode;
mod player;
mod reached;
mod reply;
mod session;
mod turns;

pub use fault::OpenFault;
pub use journal::NoMemory;
pub use machine::LoadFault;
pub use machine_standard::StandardFault;
pub use mode::{Keep, Mode};
pub use reply::Reply;
pub use session::Session;
pub use zcore::Place;
pub use zcore_standard_loading::{Capabilities, StandardOptions};
