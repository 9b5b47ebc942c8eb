//! The survey of a file.

ghost use Rattle.std.specs.Prelude.{◌≡◌, IfOk, IfSome, IfNone, true, length};
ghost use Rattle.zcore.specs.Header.{HasHeader};
ghost use Rattle.zcore_standard.specs.Extension.{number_of};
ghost use Rattle.survey.specs.Beginnings.{beginning_of};
ghost use Rattle.survey.specs.Editions.{HasEdition, IsEditionOf};
ghost use Rattle.survey.specs.Facts.{IsFactsOf};
ghost use Rattle.survey.specs.Measures.{AreMeasuresOf};
ghost use Rattle.survey.specs.Misplaced.{first_misplaced};
ghost use Rattle.survey.specs.Verdict.{IsVerdict, plays};
ghost use Rattle.survey.specs.declared.mode.Mode.TheVariants.{Profile, Standard};

use crate::beginning::Beginning;
use crate::contents::Contents;
use crate::edition::Edition;
use crate::facts::Facts;
use crate::measures::Measures;
use crate::misplaced::{Misplaced, first_misplaced};
use crate::mode::Mode;
use crate::unplayed::Unplayed;
use crate::verdict::Verdict;
use std::alloc::{AllocError, Global};
use std::fmt;
use zcore::layout::LONGEST_STORY;
use zcore::{Header, HeaderFault, Version};
use zcore_standard_loading::{Capabilities, load};
use zcore_versions::StoryVersion;

/// So many bytes no story has with the filling after it.
const TOO_LONG: usize = LONGEST_STORY + 512;

/// The version of games that draw pictures, which is not played.
const GRAPHICAL: u8 = 6;

/// What is found of a file without running it. `Display` writes a line for each fact, and the last
/// lines say that it loads, and what it holds, or why it is refused.
#[derive(Drop)]
pub struct Survey {
    /// For which machine.
    pub mode: Mode,

    /// How many bytes of it were read.
    pub size: usize,

    /// What it begins like.
    pub beginning: Beginning,

    /// Which edition of which version its header names, where it has one of version 1 to 8.
    pub edition: Option<Edition>,

    /// What its header states of its length and sum, and what is so, where it has one of version 1 to 8.
    pub measures: Option<Measures>,

    /// What its header says, where it has one of a version that the machine plays.
    pub facts: Option<Facts>,

    /// The first address of the header that is wrong for the profile.
    pub misplaced: Option<Misplaced>,

    /// What it holds, or why it is not loaded.
    pub found: Result<Contents, HeaderFault>,
}

/// A survey in a few words: `loads`, `Z7`, `damaged`, or `needs random, aread with 4 operands`.
#[derive(Clone, Copy)]
pub struct Brief<'a>(pub &'a Survey);

/// A number with a comma before its last three digits.
#[derive(Clone, Copy)]
struct Parted(usize);

impl Survey {
    /// The survey of a file, which is taken for a story, for a machine. It takes time and memory
    /// linear in the file.
    ///
    /// # Errors
    ///
    /// Memory was refused.
    pub fn read(alloc: Global, story: &[u8], mode: Mode) -> Result<Survey, AllocError>
        ensures size { IfOk result (λ s. s.size ≡ length story.now) }
        ensures verdict { IfOk result (λ s. IsVerdict mode story.now s.found) }
        ensures facts { IfOk result (λ s. IfSome s.facts (IsFactsOf story.now)) }
        ensures untold { IfOk result
            (λ s. IfNone s.facts (¬ (HasHeader story.now × (plays mode (number_of story.now) ≡ true)))) }
        ensures edition { IfOk result (λ s. IfSome s.edition (IsEditionOf story.now)) }
        ensures unnamed { IfOk result (λ s. IfNone s.edition (¬ HasEdition story.now)) }
        ensures measures { IfOk result (λ s. IfSome s.measures (AreMeasuresOf story.now)) }
        ensures unmeasured { IfOk result (λ s. IfNone s.measures (¬ HasEdition story.now)) }
        ensures mode { IfOk result (λ s. s.mode ≡ mode) }
        ensures beginning { IfOk result (λ s. s.beginning ≡ beginning_of story.now) }
        ensures misplaced { IfOk result (λ s. s.misplaced ≡ first_misplaced story.now) }
    {
        let found = match mode {
            Mode::Profile => read_for_profile(alloc, story)?,
            Mode::Standard => read_for_standard(alloc, story)?,
        };
        Ok(Survey {
            mode,
            size: story.len(),
            beginning: Beginning::read(story),
            edition: Edition::read(story),
            measures: Measures::read(story),
            facts: facts_for(story, mode),
            misplaced: first_misplaced(story),
            found,
        })
    }
}

/// What the header of a file says, where it has one of a version that a machine plays.
fn facts_for(story: &[u8], mode: Mode) -> Option<Facts>
    ensures facts { IfSome result (IsFactsOf story.now) }
    ensures none { IfNone result (¬ (HasHeader story.now × (plays mode (number_of story.now) ≡ true))) }
{
    let facts = Facts::read(story)?;
    if mode.plays(facts.version) {
        Some(facts)
    } else {
        None
    }
}

/// What a story holds, or why the profile's machine does not load it.
fn read_for_profile(
    alloc: Global,
    story: &[u8],
) -> Result<Result<Contents, HeaderFault>, AllocError>
    ensures { IfOk result (IsVerdict Profile story.now) }
{
    match Header::read(story) {
        Ok(header) => {
            let version = profile_version(header.version);
            let contents = Contents::read(alloc, story, &header, version, Mode::Profile)?;
            Ok(Ok(contents))
        }
        Err(fault) => Ok(Err(fault)),
    }
}

/// A version of the profile, as one of all versions.
fn profile_version(version: Version) -> StoryVersion {
    StoryVersion {
        number: match version {
            Version::V5 => 5,
            Version::V8 => 8,
        },
        routine_offset: 0,
        text_offset: 0,
    }
}

/// What a file holds, or why the Standard's machine does not load it. It loads a copy.
fn read_for_standard(
    alloc: Global,
    file: &[u8],
) -> Result<Result<Contents, HeaderFault>, AllocError>
    ensures { IfOk result (IsVerdict Standard file.now) }
{
    let copy = copy_of(alloc, file)?;
    read_copy(alloc, copy)
}

/// A copy of a file.
fn copy_of(alloc: Global, file: &[u8]) -> Result<Vec<u8>, AllocError>
    ensures { IfOk result (λ copy. copy.items ≡ file.now) }
{
    let mut copy = Vec::new(alloc);
    copy.extend_from_slice(file)?;
    Ok(copy)
}

/// What the copy of a file holds that the Standard's machine loads, or why it does not.
#[tactic(auto, using(crate::proofs::Loading::short_memory))]
fn read_copy(alloc: Global, file: Vec<u8>) -> Result<Result<Contents, HeaderFault>, AllocError>
    ensures { IfOk result (IsVerdict Standard file.items) }
{
    let mut memory = file;
    match load(&mut memory, Capabilities::plain()) {
        Ok(story) => {
            let contents = Contents::read(
                alloc,
                &memory,
                &story.header,
                story.version,
                Mode::Standard,
            )?;
            Ok(Ok(contents))
        }
        Err(fault) => Ok(Err(fault)),
    }
}

impl fmt::Display for Parted {
    fn fmt<W: fmt::Write>(&self, f: &mut fmt::Formatter<W>) -> fmt::Result {
        let thousands = self.0 / 1000;
        let rest = self.0 % 1000;
        if thousands == 0 {
            write!(f, "{rest}")
        } else {
            write!(f, "{thousands},{rest:03}")
        }
    }
}

impl fmt::Display for Survey {
    fn fmt<W: fmt::Write>(&self, f: &mut fmt::Formatter<W>) -> fmt::Result {
        write_header(f, self)?;
        match &self.found {
            Ok(contents) => {
                write_damage(f, self)?;
                write!(f, "loads\n{contents}")
            }
            Err(fault) => write_cause(f, self, *fault),
        }
    }
}

/// Writes the size of a file, and what its header says.
fn write_header<W: fmt::Write>(f: &mut fmt::Formatter<W>, survey: &Survey) -> fmt::Result {
    let size = survey.size;
    let more = if TOO_LONG <= size { " or more" } else { "" };
    match &survey.facts {
        Some(facts) => {
            let stated = facts.stated_length;
            write!(f, "size {size} bytes{more}, stated {stated}\n{facts}")
        }
        None => writeln!(f, "size {size} bytes{more}"),
    }
}

/// Writes what of the story's length and sum is not as the header states, where that is to be said.
fn write_damage<W: fmt::Write>(f: &mut fmt::Formatter<W>, survey: &Survey) -> fmt::Result {
    match (survey.verdict(), &survey.measures) {
        (Verdict::Damaged, Some(measures)) => {
            let stated_length = Parted(measures.stated_length);
            let length = Parted(measures.length);
            let stated_sum = measures.stated_sum;
            let sum = measures.sum;
            write!(
                f,
                "damaged: the header states {stated_length} bytes with the sum {stated_sum:04X}, "
            )?;
            writeln!(f, "the file has {length} with the sum {sum:04X}")
        }
        _ => Ok(()),
    }
}

/// Writes why a file is not loaded, with the figures.
fn write_cause<W: fmt::Write>(
    f: &mut fmt::Formatter<W>,
    survey: &Survey,
    fault: HeaderFault,
) -> fmt::Result {
    match fault {
        HeaderFault::TooShort => {
            let size = Parted(survey.size);
            writeln!(f, "{fault}: the file has {size} bytes, a header has 64")
        }
        HeaderFault::UnknownVersion => {
            let beginning = survey.beginning;
            match (survey.mode, beginning) {
                (Mode::Standard, Beginning::Version(GRAPHICAL)) => {
                    writeln!(f, "{fault}: version 6, the graphical one, is not played")
                }
                (Mode::Standard, Beginning::Version(version)) => {
                    writeln!(f, "{fault}: version {version}; 1 to 5, 7 and 8 are played")
                }
                _ => writeln!(f, "{fault}: {beginning}"),
            }
        }
        HeaderFault::WrongLength | HeaderFault::WrongSum | HeaderFault::WrongAddress => {
            match &survey.facts {
                Some(facts) => write_wrong(f, survey, facts, fault),
                None => writeln!(f, "{fault}"),
            }
        }
    }
}

/// Writes what is wrong in a header.
fn write_wrong<W: fmt::Write>(
    f: &mut fmt::Formatter<W>,
    survey: &Survey,
    facts: &Facts,
    fault: HeaderFault,
) -> fmt::Result {
    match fault {
        HeaderFault::WrongLength => {
            let stated = Parted(facts.stated_length);
            let size = Parted(survey.size);
            writeln!(
                f,
                "{fault}: the header states {stated} bytes, the file has {size}"
            )
        }
        HeaderFault::WrongSum => {
            let stated = facts.stated_sum;
            let sum = facts.sum;
            writeln!(
                f,
                "{fault}: the header states the sum {stated:04X}, the bytes have {sum:04X}"
            )
        }
        _ => write_wrong_address(f, survey, facts, fault),
    }
}

/// Writes which address of a header is wrong.
fn write_wrong_address<W: fmt::Write>(
    f: &mut fmt::Formatter<W>,
    survey: &Survey,
    facts: &Facts,
    fault: HeaderFault,
) -> fmt::Result {
    match (survey.mode, survey.misplaced) {
        (Mode::Standard, _) => writeln!(f, "{fault}: a table lies where none can be"),
        (Mode::Profile, Some(misplaced)) => writeln!(f, "{fault}: {misplaced}"),
        (Mode::Profile, None) => {
            let dictionary = facts.dictionary;
            writeln!(
                f,
                "{fault}: dictionary at {dictionary:04X}: none that can be searched"
            )
        }
    }
}

impl fmt::Display for Brief<'_> {
    fn fmt<W: fmt::Write>(&self, f: &mut fmt::Formatter<W>) -> fmt::Result {
        let verdict = self.0.verdict();
        write!(f, "{verdict}")?;
        match &self.0.found {
            Ok(contents) => write_needs(f, verdict, contents),
            Err(_) => Ok(()),
        }
    }
}

/// Writes the opcodes that a story that loads needs beyond what the machine plays, after a verdict.
fn write_needs<W: fmt::Write>(
    f: &mut fmt::Formatter<W>,
    verdict: Verdict,
    contents: &Contents,
) -> fmt::Result {
    match verdict {
        Verdict::Needs => {
            f.write_char(' ')?;
            write_unplayed(f, contents)
        }
        _ => Ok(()),
    }
}

/// Writes the opcodes that the machine does not play and a story reaches, with a comma between two.
pub(crate) fn write_unplayed<W: fmt::Write>(
    f: &mut fmt::Formatter<W>,
    contents: &Contents,
) -> fmt::Result {
    let mut before = "";
    for unplayed in &contents.unplayed {
        if unplayed.is_swept && is_reached(contents, unplayed) {
            continue;
        }
        f.write_str(before)?;
        write_opcode(f, unplayed)?;
        before = ", ";
    }
    Ok(())
}

/// Writes an opcode that the machine does not play, without its address.
fn write_opcode<W: fmt::Write>(f: &mut fmt::Formatter<W>, unplayed: &Unplayed) -> fmt::Result {
    let refusal = unplayed.refusal;
    let found = if unplayed.is_swept {
        " (no direct call)"
    } else {
        ""
    };
    match unplayed.name {
        Some(name) => write!(f, "{name}{refusal}{found}"),
        None => {
            let opcode = unplayed.opcode;
            write!(f, "{opcode}{refusal}{found}")
        }
    }
}

/// Whether the same is also met where direct calls lead.
fn is_reached(contents: &Contents, swept: &Unplayed) -> bool {
    for unplayed in &contents.unplayed {
        let is_same = unplayed.opcode == swept.opcode && unplayed.refusal == swept.refusal;
        if is_same && !unplayed.is_swept {
            return true;
        }
    }
    false
}
