//! With what a story is played.

ghost use Rattle.std.specs.Prelude.{◌≡◌, false};
ghost use Rattle.zcore_standard_loading.specs.Capabilities.{plain};

/// What the player shows, as it tells the story in the header (sections 8.4 and 11.1).
#[derive(Clone, Copy, Debug, PartialEq, Eq)]
pub struct Capabilities {
    /// Whether it shows bold and italic text.
    pub has_styles: bool,

    /// How many columns the screen has, in characters.
    pub columns: u8,

    /// How many rows the screen has. 255 means that it has no end.
    pub rows: u8,
}

impl Capabilities {
    /// Those of a player without a screen: plain text in 80 columns, and rows without end.
    pub fn plain() -> Capabilities
        ensures { result ≡ plain }
    {
        Capabilities {
            has_styles: false,
            columns: 80,
            rows: 255,
        }
    }
}

/// With what a story is played by the whole Standard.
#[derive(Clone, Copy, Debug, PartialEq, Eq)]
pub struct StandardOptions {
    /// The 32 bits with which random numbers begin.
    pub seed: u32,

    /// Whether the player has save files.
    pub has_saves: bool,

    /// Whether the player writes a transcript.
    pub has_transcript: bool,

    /// What the player shows.
    pub capabilities: Capabilities,
}

impl StandardOptions {
    /// A seed alone: there are no save files, no transcript is written, and what is shown is plain.
    pub fn of_seed(seed: u32) -> StandardOptions
        ensures { result ≡ record {
          seed = seed;
          has_saves = false;
          has_transcript = false;
          capabilities = plain;
        } }
    {
        StandardOptions {
            seed,
            has_saves: false,
            has_transcript: false,
            capabilities: Capabilities::plain(),
        }
    }
}
