//! The session of a player for a program: each reply is a JSON object on a line of its own.
#![tactic(auto)]

mod answering;
mod awaited;
mod first;
mod hashing;
mod heading;
mod hearing;
mod kind;
mod lines;
mod memory;
mod object_tables;
mod places;
mod reply;
mod request;
mod resumed;
mod returning;
mod running;
mod said;
mod spans;
mod telling;
mod vocabulary;
mod window;

pub use awaited::Awaited;
pub use first::First;
pub use heading::Heading;
pub use kind::Kind;
pub use memory::{bytes_in, globals};
pub use object_tables::objects;
pub use reply::Reply;
pub use request::{Request, Topic};
pub use resumed::resumed_line;
pub use running::run;
pub use serde_json::Value;
pub use vocabulary::dictionary;
