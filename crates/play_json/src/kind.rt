//! What a reply is.

ghost use Rattle.std.specs.Prelude.{◌≡◌};
ghost use Rattle.play_json.specs.Names.{kind_name};

/// What a reply is: to a line of the player, or to one that only asks.
#[derive(Clone, Copy)]
pub enum Kind {
    /// The opening, which replies to no line.
    Opening,

    /// The line was taken, and its turn was played.
    Taken,

    /// The latest turn was taken back.
    Undone,

    /// The first turn that was undone was done again.
    Redone,

    /// No turn is kept that could be taken back.
    NothingToUndo,

    /// No turn is undone.
    NothingToRedo,

    /// The line has a character that the story cannot be given.
    Refused,

    /// The line has more than 1,000 bytes.
    TooLong,

    /// The line asks for bytes that the story does not have.
    NoBytes,

    /// The line asks to go to a mark that there is not.
    NoMark,

    /// The line asks to go to a mark, and a turn that would have to be undone is given up.
    GivenUp,

    /// The line is no command of the player.
    Unknown,

    /// The story does not wait for a line.
    Over,

    /// Memory was refused, and the line was not taken.
    NoMemory,

    /// Where the story is was asked for.
    Status,

    /// The global variables were asked for.
    Globals,

    /// The objects were asked for.
    Objects,

    /// Bytes of memory were asked for.
    Memory,

    /// The lines that are not undone were asked for.
    Lines,

    /// The lines that stand were marked.
    Mark,

    /// The lines of a mark stand.
    Gone,

    /// The words of the dictionary were asked for.
    Dictionary,

    /// The digest of the state was asked for.
    Hash,
}

impl Kind {
    /// The word by which an object names it.
    pub fn name(self) -> &'static str
        ensures { result.now ≡ kind_name self }
    {
        match self {
            Kind::Opening => "opening",
            Kind::Taken => "taken",
            Kind::Undone => "undone",
            Kind::Redone => "redone",
            Kind::NothingToUndo => "nothing to undo",
            Kind::NothingToRedo => "nothing to redo",
            Kind::Refused | Kind::TooLong | Kind::NoBytes | Kind::NoMark | Kind::GivenUp => {
                "refused"
            }
            Kind::Unknown => "unknown",
            Kind::Over => "over",
            Kind::NoMemory => "no memory",
            Kind::Status => "status",
            Kind::Globals => "globals",
            Kind::Objects => "objects",
            Kind::Memory => "memory",
            Kind::Lines => "lines",
            Kind::Mark => "mark",
            Kind::Gone => "gone",
            Kind::Dictionary => "dictionary",
            Kind::Hash => "hash",
        }
    }
}
