//! Loading a story.

ghost use Rattle.std.specs.Prelude.{◌≡◌};
ghost use Rattle.machine.specs.Loaded.{Loads};

use crate::turn::Machine;
use machine_frames::Store;
use std::alloc::Global;
use thiserror::Error;
use zcore::{Header, HeaderFault};

/// Why a story is not loaded. `Display` writes the number alone.
#[derive(Clone, Copy, Debug, PartialEq, Eq, Error)]
pub enum LoadFault {
    /// The header does not stand.
    #[error("{0}")]
    Header(HeaderFault),

    /// Memory was refused.
    #[error("Z9")]
    Memory,
}

impl Machine {
    /// The machine of a story file, and the store with which it begins. The story's bytes are not
    /// changed.
    ///
    /// # Errors
    ///
    /// What [`Header::read`] answers, or want of memory, where the header can be read.
    pub fn load(alloc: Global, story: Vec<u8>) -> Result<(Machine, Store), LoadFault>
        ensures { Loads story.items result }
    {
        let header = match Header::read(&story) {
            Ok(header) => header,
            Err(fault) => return Err(LoadFault::Header(fault)),
        };
        match Store::new(alloc, story, header.static_base) {
            Ok(store) => Ok((Machine { header }, store)),
            Err(_) => Err(LoadFault::Memory),
        }
    }
}
