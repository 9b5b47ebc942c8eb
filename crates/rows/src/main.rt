//! Plays the rows of standard input and prints what each shows: sources, stories, texts, cells.
#![tactic(auto)]

mod damage;
mod error;
mod journals;
mod names;
mod program;
mod row;
mod sessions;
mod setting;
mod shown;
mod sources;
mod stories;
mod streams;
mod texts;
mod turns;
mod written;

use crate::program::Program;
use anyhow::Result;
use std::io::{self, BufReader};

fn main(rt: HostRuntime) -> Result<()> {
    let alloc = rt.alloc();
    let reader = BufReader::new(alloc, rt.stdin())?;
    Program::new(alloc).play(reader, &mut io::writer(&rt))
}
