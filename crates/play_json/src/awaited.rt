//! What a story waits for.

ghost use Rattle.std.specs.Prelude.{◌≡◌, Bool, false, true};
ghost use Rattle.zcore.specs.Turn.{is_waiting};
ghost use Rattle.play_json.specs.Names.{awaited_at, awaited_name};

use zcore::Place;

/// The first byte of the instruction that reads a key: `read_char`, VAR:246 (Z-Machine Standards
/// Document 1.1, section 14). Versions 1 to 3 have none, and wait for lines alone.
const READ_CHARACTER: u8 = 0xF6;

/// What a story waits for.
#[derive(Clone, Copy)]
pub enum Awaited {
    /// A line.
    Line,

    /// A key.
    Key,

    /// The name of a saved game.
    Name,

    /// Nothing: it has quit or was stopped.
    Nothing,
}

impl Awaited {
    /// What a story waits for that is at this place, at the instruction at an address of its memory, and asks
    /// for a name or not.
    pub fn read(place: Place, memory: &[u8], at: usize, is_asking: bool) -> Awaited
        ensures { (is_key : Bool) × (result ≡ awaited_at is_asking is_key (is_waiting place)) }
    {
        match place {
            Place::Waiting if is_asking => Awaited::Name,
            Place::Waiting => Awaited::at(memory, at),
            _ => Awaited::Nothing,
        }
    }

    /// What the instruction at an address reads.
    fn at(memory: &[u8], at: usize) -> Awaited
        ensures { (is_key : Bool) × (result ≡ awaited_at false is_key true) }
    {
        match memory.get(at) {
            Some(byte) if *byte == READ_CHARACTER => Awaited::Key,
            _ => Awaited::Line,
        }
    }

    /// The word by which an object names it.
    pub fn name(self) -> &'static str
        ensures { result.now ≡ awaited_name self }
    {
        match self {
            Awaited::Line => "line",
            Awaited::Key => "key",
            Awaited::Name => "name",
            Awaited::Nothing => "nothing",
        }
    }
}
