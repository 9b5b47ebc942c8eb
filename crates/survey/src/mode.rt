//! How a file is to be played.

ghost use Rattle.std.specs.Prelude.{◌≡◌};
ghost use Rattle.survey.specs.Verdict.{plays};

use zcore_standard_loading::is_played;

/// The machine for which a file is surveyed.
#[derive(Clone, Copy)]
pub enum Mode {
    /// That of the profile.
    Profile,

    /// That of the whole Standard, as `play --standard` plays it.
    Standard,
}

impl Mode {
    /// Whether this machine plays a version.
    pub(crate) fn plays(self, version: u8) -> bool
        ensures { result ≡ plays self version }
    {
        match self {
            Mode::Profile => matches!(version, 5 | 8),
            Mode::Standard => is_played(version),
        }
    }

    /// What is said of the opcodes that it does not play.
    pub(crate) fn refusal(self) -> &'static str {
        match self {
            Mode::Profile => "outside the profile",
            Mode::Standard => "--standard does not play",
        }
    }
}
