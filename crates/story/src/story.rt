//! From a source to its story.

ghost use Rattle.std.specs.Prelude.{IfErr};
ghost use Rattle.zcore.specs.declared.header.Version.TheVariants.{V5};
ghost use Rattle.syntax_lexer.specs.Placed.{unplaced};
ghost use Rattle.story.specs.Compiled.{Compiles, CompilesBy};
ghost use Rattle.story.specs.FaultPlaces.{Stands};
ghost use Rattle.story.specs.Large.{limits_by};

use crate::laws::laws;
use crate::sized::{Limit, story_by};
use checker::check_placed;
use code::Disposal;
use meaning::Checked;
use std::alloc::{AllocError, Global};
use std::marker::Model;
use syntax::{Program, parse_placed};
use syntax_lexer::{PlacedFault, SourceFault, lex_placed};
use zcore::Version;

/// A compiled story: the bytes of a story file.
#[derive(Drop)]
pub struct Story {
    bytes: Vec<u8>,
}

impl Model for Story {
    ghost use Rattle.std.specs.Prelude.{ℕ, List};

    ghost Value = { List ℕ };

    ghost view = { λ s. s.bytes.items };
}

impl Story {
    ghost use Rattle.std.specs.Prelude.{◌≡◌, ◌<◌};
    ghost use Rattle.std.specs.List.{All};

    /// The story of these bytes.
    fn of_bytes(bytes: Vec<u8>) -> Self
        ensures value { result ≡ bytes.items }
        ensures small { All (λ b. b < 256) result }
    {
        Story { bytes }
    }

    /// The bytes of the story file.
    pub fn bytes(&self) -> &[u8]
        ensures { result.now ≡ self.now }
    {
        &self.bytes
    }

    /// The bytes of the story file, handed over.
    pub fn into_bytes(self) -> Vec<u8>
        ensures { result.items ≡ self }
    {
        self.bytes
    }
}

/// The story of a source, in version 5, as [`compile_for`] makes it.
///
/// # Errors
///
/// Those of [`compile_for`], with E31 where the source weighs more than a story of version 5 holds.
pub fn compile(alloc: Global, source: &[u8]) -> Result<Story, SourceFault>
    ensures { Compiles V5 source.now result }
{
    compile_for(alloc, source, Version::V5)
}

/// The story of a source, in a version: its header is read, and on every fuel and all lines its
/// turns print what the source means.
///
/// # Errors
///
/// The fault by which the source is refused, that of the earliest part that finds one, with its
/// line: E01 to E04 where the bytes are no tokens, E10 where the tokens are no program, E05 where
/// the program is nested more than 100 deep, E20 to E29 and E33 where it breaks a rule, and E30 to
/// E32 where it is too large; E30 and E31 with line 0, and E31 by the version. E99, with line 0,
/// where a growth of memory was refused.
pub fn compile_for(alloc: Global, source: &[u8], version: Version) -> Result<Story, SourceFault>
    ensures { Compiles version source.now result }
{
    match compile_placed(alloc, source, version, Limit::Weight) {
        Ok(story) => Ok(story),
        Err(placed) => Err(placed.fault),
    }
}

// The trees are not needed any more.
fn dispose_trees(checked: Checked<'_>, program: Program<'_>, disposal: Disposal) {
    match disposal {
        Disposal::GivenBack => {
            checker::discard(checked);
            syntax::discard(program);
        }
        Disposal::Left => {
            checker::leave_to_system(checked);
            syntax::leave_to_system(program);
        }
    }
}

// The trees of a source that has no story are given back: who tells of its fault needs memory, too.
fn disposal_after(
    found: &Result<Result<Vec<u8>, PlacedFault>, AllocError>,
    disposal: Disposal,
) -> Disposal {
    match found {
        Ok(Ok(_)) => disposal,
        _ => Disposal::GivenBack,
    }
}

// The story of a source, or the fault with its place.
fn compile_in(
    alloc: Global,
    source: &[u8],
    version: Version,
    limit: Limit,
    disposal: Disposal,
) -> Result<Story, PlacedFault>
    ensures compiles { CompilesBy (limits_by limit) version source.now (unplaced result) }
    ensures stands { IfErr result (Stands source.now) }
{
    laws();
    let tokens = lex_placed(alloc, source)?;
    let program = parse_placed(alloc, &tokens)?;
    // The tree names no token, and they may take more memory than it.
    drop(tokens);
    let checked = match check_placed(alloc, &program) {
        Ok(checked) => checked,
        Err(placed) => {
            syntax::discard(program);
            return Err(placed);
        }
    };
    let found = story_by(alloc, &checked, version, limit, disposal);
    dispose_trees(checked, program, disposal_after(&found, disposal));
    let sized = found?;
    match sized {
        Ok(bytes) => Ok(Story::of_bytes(bytes)),
        Err(placed) => Err(placed),
    }
}

/// The story of a source, as [`compile_for`] makes it by the limit of weight, or the fault with its
/// place.
///
/// # Errors
///
/// Those of [`compile_for`], but by [`Limit::Length`] E31 only where the story is longer than
/// packed addresses reach and no routine is too large by itself (E32). The offset is that of the
/// byte, the token or the first token of what is at fault; E30, E31 and E99 have none.
pub fn compile_placed(
    alloc: Global,
    source: &[u8],
    version: Version,
    limit: Limit,
) -> Result<Story, PlacedFault>
    ensures compiles { CompilesBy (limits_by limit) version source.now (unplaced result) }
    // The place of a fault is that of the byte, the token or the name at fault.
    ensures stands { IfErr result (Stands source.now) }
{
    compile_in(alloc, source, version, limit, Disposal::GivenBack)
}

/// As [`compile_placed`], for a program that compiles one source and ends: the memory of the trees
/// and of the code of a source that has a story is left to the system. To give it back takes about
/// a seventh of the whole.
///
/// # Errors
///
/// Those of [`compile_placed`].
pub fn compile_once(
    alloc: Global,
    source: &[u8],
    version: Version,
    limit: Limit,
) -> Result<Story, PlacedFault>
    ensures compiles { CompilesBy (limits_by limit) version source.now (unplaced result) }
    ensures stands { IfErr result (Stands source.now) }
{
    compile_in(alloc, source, version, limit, Disposal::Left)
}
