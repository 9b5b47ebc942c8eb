//! Loading a story, to play it by the whole Standard.

ghost use Rattle.std.specs.Prelude.{◌≡◌, ◌≤◌, length, take, IfOk};
ghost use Rattle.std.specs.Option.{option_map};
ghost use Rattle.zcore.specs.Layout.{longest_story};
ghost use Rattle.zcore_standard.specs.Loaded.{seeded};
ghost use Rattle.zcore_standard_loading.specs.Loading.{IsPlayable, saves_for};
ghost use Rattle.zcore.specs.Header.{HasHeader};
ghost use Rattle.machine_standard.specs.Loads.{AreSaves, Begins, Loads};

use crate::turn::StandardMachine;
use machine_frames::Store;
use std::alloc::{AllocError, Global};
use thiserror::Error;
use zcore::layout::{HEADER_LENGTH, STATIC_BASE_WORD};
use zcore::{HeaderFault, StandardState};
use zcore_standard::Loaded;
use zcore_standard_loading::{LoadedStory, StandardOptions, characters_of, load, own_alphabets_of};
use ztext::read_word;

/// Why a file is not played. `Display` writes the number of the refusal alone.
#[derive(Clone, Copy, Debug, PartialEq, Eq, Error)]
pub enum StandardFault {
    /// The file is refused.
    #[error("{0}")]
    File(HeaderFault),

    /// Memory was refused.
    #[error("Z9")]
    Memory,
}

impl StandardMachine {
    /// The machine of a story file, and the store with which it begins. The header has what the player
    /// tells the story.
    ///
    /// # Errors
    ///
    /// What [`zcore_standard_loading::load`] answers, or want of memory, where the file can be played.
    pub fn load(
        alloc: Global,
        file: Vec<u8>,
        options: StandardOptions,
    ) -> Result<(StandardMachine, Store), StandardFault>
        ensures { Loads file.items options result }
    {
        let saves = saves_of(alloc, &file, options);
        let mut memory = file;
        let story = match load(&mut memory, options.capabilities) {
            Ok(story) => story,
            Err(fault) => return Err(StandardFault::File(fault)),
        };
        let Ok(saves) = saves else {
            return Err(StandardFault::Memory);
        };
        match begin(alloc, memory, saves, story, options) {
            Ok(begun) => Ok(begun),
            Err(_) => Err(StandardFault::Memory),
        }
    }
}

/// Dynamic memory as a file has it, where the player has save files.
fn saves_of(
    alloc: Global,
    file: &[u8],
    options: StandardOptions,
) -> Result<Option<Vec<u8>>, AllocError>
    ensures { IfOk result (λ saves. HasHeader file.now
        → option_map (λ m. m.items) saves ≡ saves_for file.now options) }
{
    if file.len() < HEADER_LENGTH || !options.has_saves {
        return Ok(None);
    }
    let base = usize::from(read_word(file, STATIC_BASE_WORD));
    let dynamic = front(alloc, file, base.min(file.len()))?;
    Ok(Some(dynamic))
}

/// The machine of a story that was read, and its store. The player has save files where dynamic memory
/// as the file has it is there.
fn begin(
    alloc: Global,
    memory: Vec<u8>,
    saves: Option<Vec<u8>>,
    story: LoadedStory,
    options: StandardOptions,
) -> Result<(StandardMachine, Store), AllocError>
    requires playable { IsPlayable memory.items story.header story.version }
    requires short { length memory.items ≤ longest_story }
    requires saves { AreSaves memory.items (option_map (λ m. m.items) saves) }
    ensures { IfOk result (λ begun. Begins memory.items (option_map (λ m. m.items) saves)
        story options begun.0 begun.1) }
{
    let header = story.header;
    let characters = characters_of(alloc, &memory)?;
    let own = own_alphabets_of(&memory);
    let dynamic = front(alloc, &memory, header.static_base as usize)?;
    let store = Store::new(alloc, memory, header.static_base)?;
    let dice = seeded(options.seed);
    let loaded = Loaded::new(
        dynamic,
        dice,
        story.is_sum_right,
        characters,
        own,
        saves,
        options.has_transcript,
    );
    let version = story.version;
    Ok((
        StandardMachine {
            header,
            loaded,
            version,
        },
        store,
    ))
}

/// The first bytes of memory.
fn front(alloc: Global, memory: &[u8], count: usize) -> Result<Vec<u8>, AllocError>
    requires { count ≤ length memory.now }
    ensures { IfOk result (λ bytes. bytes.items ≡ take count memory.now) }
{
    let mut bytes = Vec::new(alloc);
    bytes.extend_from_slice(&memory[..count])?;
    Ok(bytes)
}

/// Window 0, and the dice of a seed.
fn seeded(seed: u32) -> StandardState
    ensures { result ≡ seeded seed }
{
    StandardState {
        window: 0,
        random: seed,
        interval: 0,
        counter: 0,
    }
}
