//! The instructions and routines that can be reached from the start of a story, and the routines to
//! which no direct call leads.

ghost use Rattle.std.specs.Prelude.{◌≡◌, ◌≤◌, length};
ghost use Rattle.zcore.specs.Layout.{longest_story};
ghost use Rattle.zcore_versions.specs.Versions.{routine_at};
ghost use Rattle.survey.specs.declared.mode.Mode.TheVariants.{Profile};

use crate::mode::Mode;
use crate::refusal::{Refusal, older_refusal_at, profile_refusal_at, standard_refusal_at};
use crate::successors::{
    LAST_OLD, Successors, branch_target, constant, first_instruction, jump_target, successors_at,
};
use crate::sweep::Sweep;
use crate::unplayed::{Unplayed, note};
use std::alloc::{AllocError, Global};
use zcore::layout::{HEADER_LENGTH, MOST_LOCALS};
use zcore::{Header, Operand};
use zcore_standard::{Flow, Opcode, Row};
use zcore_versions::StoryVersion;

/// After the last routine no other is looked for so many bytes away: instructions that are never
/// run may stand between two.
const MOST_BETWEEN: usize = 16;

/// What can be reached. It is followed along branches, jumps and calls by constants. What stands in
/// other routines, which are found by a sweep, does not count as reached.
#[derive(Drop)]
pub(crate) struct Reached {
    /// How many routines are called.
    pub routines: usize,

    /// How many instructions.
    pub instructions: usize,

    /// Whether a call or a jump by a variable is among them, which is not followed.
    pub computed: bool,

    /// Each opcode among them that the machine does not play, or not with such operands, in the
    /// order in which they were met, and then those in other routines.
    pub unplayed: Vec<Unplayed>,
}

/// A walk over a story. Each address is looked at once as an instruction, as a routine and as a
/// word of a text, so that the walk takes time linear in the story.
#[derive(Drop)]
struct Walk {
    /// The version of the story.
    version: StoryVersion,

    /// The machine that is to play the story.
    mode: Mode,

    /// The addresses at which instructions begin that can be reached.
    starts: Vec<bool>,

    /// Those at which routines begin.
    routines: Vec<bool>,

    /// Those of words of texts that are printed, and then passed.
    words: Vec<bool>,

    /// Those of the bytes of instructions and texts that were passed.
    covered: Vec<bool>,

    /// The address after the last of those.
    end: usize,

    /// Whether what is looked at now was found by a sweep.
    is_swept: bool,

    /// The starts that were not looked at yet.
    pending: Vec<usize>,

    /// What was found.
    found: Reached,
}

/// What can be reached of a story.
///
/// # Errors
///
/// Memory was refused.
pub(crate) fn reach(
    alloc: Global,
    story: &[u8],
    header: &Header,
    version: StoryVersion,
    mode: Mode,
) -> Result<Reached, AllocError>
    requires { length story.now ≤ longest_story }
{
    let mut walk = Walk::new(alloc, story, version, mode)?;
    match walk.look_everywhere(alloc, story, usize::from(header.first_instruction)) {
        Ok(()) => Ok(walk.found),
        Err(refused) => Err(refused),
    }
}

impl Walk {
    /// A walk that has reached nothing.
    fn new(
        alloc: Global,
        story: &[u8],
        version: StoryVersion,
        mode: Mode,
    ) -> Result<Walk, AllocError> {
        Ok(Walk {
            version,
            mode,
            starts: vec![in alloc; false; story.len()]?,
            routines: vec![in alloc; false; story.len()]?,
            words: vec![in alloc; false; story.len()]?,
            covered: vec![in alloc; false; story.len()]?,
            end: 0,
            is_swept: false,
            pending: Vec::new(alloc),
            found: Reached {
                routines: 0,
                instructions: 0,
                computed: false,
                unplayed: Vec::new(alloc),
            },
        })
    }

    /// Looks at all that is reached from the first instruction, and then at the routines to which no
    /// direct call leads.
    fn look_everywhere(
        &mut self,
        alloc: Global,
        story: &[u8],
        first: usize,
    ) -> Result<(), AllocError>
        requires { length story.now ≤ longest_story }
    {
        self.start(first)?;
        self.look_at_all(story)?;
        self.is_swept = true;
        let mut sweep = Sweep::new(alloc, story, self.version.number)?;
        self.sweep(story, &mut sweep)
    }

    /// Looks at all instructions that were reached and those to which they lead.
    fn look_at_all(&mut self, story: &[u8]) -> Result<(), AllocError>
        requires { length story.now ≤ longest_story }
    {
        // No address becomes pending twice.
        for _ in 0..story.len() {
            let Some(at) = self.pending.pop() else {
                break;
            };
            self.look(story, at)?;
        }
        Ok(())
    }

    /// Looks at the routines to which no direct call leads. They begin at packed addresses between
    /// what was passed, and after it as long as one follows another closely.
    fn sweep(&mut self, story: &[u8], sweep: &mut Sweep) -> Result<(), AllocError>
        requires { length story.now ≤ longest_story }
    {
        let scale = self.version.scale() as usize;
        let offset = self.version.routine_offset as usize;
        let from = first_covered(&self.covered).saturating_sub(offset) / scale;
        for packed in from..story.len() {
            let at = packed * scale + offset;
            if story.len() <= at {
                break;
            }
            if self.covered.len() <= at || self.covered[at] {
                continue;
            }
            if sweep.finds_routine(story, &self.covered, at) {
                mark(&mut self.routines, at);
                self.start(first_instruction(story, at, self.version.number))?;
                self.look_at_all(story)?;
            } else if MOST_BETWEEN <= at.saturating_sub(self.end) {
                break;
            }
        }
        Ok(())
    }

    /// An instruction begins at an address, where instructions may stand.
    fn start(&mut self, at: usize) -> Result<(), AllocError> {
        if HEADER_LENGTH <= at && mark(&mut self.starts, at) {
            self.pending.push(at)?;
        }
        Ok(())
    }

    /// Looks at the instruction at an address, and reaches those to which it leads.
    fn look(&mut self, story: &[u8], at: usize) -> Result<(), AllocError>
        requires { length story.now ≤ longest_story }
    {
        let Some(opcode) = Opcode::read(story, at) else {
            return Ok(());
        };
        let row = opcode.row(self.version.number);
        let refusal = profile_refusal_at(story, at);
        if let Some(refusal) = refused_at(self.mode, self.version, story, at, refusal) {
            self.meet_unplayed(opcode, row, refusal, at)?;
        }
        let successors = match row {
            Some(row) => successors_at(story, at, row),
            None => None,
        };
        if refusal.is_some() || successors.is_some() {
            self.count();
        }
        match successors {
            Some(successors) => {
                self.cover(at, successors.after);
                self.follow(story, successors)
            }
            None => Ok(()),
        }
    }

    /// The instruction at an address is met, of whose opcode the machine refuses something.
    fn meet_unplayed(
        &mut self,
        opcode: Opcode,
        row: Option<Row>,
        refusal: Refusal,
        at: usize,
    ) -> Result<(), AllocError> {
        let name = match row {
            Some(row) => Some(row.name),
            None => None,
        };
        let found = Unplayed {
            opcode,
            name,
            refusal,
            first: at,
            times: 1,
            is_swept: self.is_swept,
        };
        note(&mut self.found.unplayed, found)
    }

    /// One instruction more.
    fn count(&mut self) {
        if !self.is_swept {
            self.found.instructions = self.found.instructions.saturating_add(1);
        }
    }

    /// The bytes from an address to another were passed.
    fn cover(&mut self, from: usize, to: usize) {
        if from <= to && to <= self.covered.len() {
            self.covered[from..to].fill(true);
        }
        self.end = self.end.max(to);
    }

    /// A call or a jump is met whose target is known only when it runs.
    fn meet_computed(&mut self) {
        if !self.is_swept {
            self.found.computed = true;
        }
    }

    /// Reaches the instructions to which one leads.
    fn follow(&mut self, story: &[u8], successors: Successors) -> Result<(), AllocError>
        requires story { length story.now ≤ longest_story }
        requires after { successors.after ≤ longest_story }
    {
        let after = successors.after;
        self.branch(successors.branch, after)?;
        match successors.flow {
            Flow::Next => self.start(after),
            Flow::Nowhere => Ok(()),
            Flow::Jump => match constant(successors.first) {
                Some(offset) => self.start(jump_target(after, offset)),
                None => {
                    self.meet_computed();
                    Ok(())
                }
            },
            Flow::Call => {
                self.call(story, successors.first)?;
                self.start(after)
            }
            Flow::Text => match self.text_end(story, after) {
                Some(end) => self.start(end),
                None => Ok(()),
            },
            Flow::LastText => {
                let _ = self.text_end(story, after);
                Ok(())
            }
        }
    }

    /// Reaches the target of a branch. Offsets 0 and 1 return (section 4.7.1).
    fn branch(&mut self, offset: Option<u16>, after: usize) -> Result<(), AllocError>
        requires { after ≤ longest_story }
    {
        match offset {
            Some(offset) if 2 <= offset => self.start(branch_target(after, offset)),
            _ => Ok(()),
        }
    }

    /// Reaches the routine that is called, where a constant names it (sections 1.2.3 and 5.2). A
    /// call of 0 calls nothing.
    fn call(&mut self, story: &[u8], routine: Option<Operand>) -> Result<(), AllocError>
        requires { length story.now ≤ longest_story }
    {
        let Some(packed) = constant(routine) else {
            self.meet_computed();
            return Ok(());
        };
        let at = unpacked(self.version, packed);
        if packed == 0 || at < HEADER_LENGTH || story.len() <= at {
            return Ok(());
        }
        if usize::from(story[at]) <= MOST_LOCALS && mark(&mut self.routines, at) {
            if !self.is_swept {
                self.found.routines = self.found.routines.saturating_add(1);
            }
            return self.start(first_instruction(story, at, self.version.number));
        }
        Ok(())
    }

    /// Passes a text, which ends with the first word whose top bit is set (section 3.2), and says
    /// where the instruction after it begins. After a word that was passed before nothing new is
    /// reached.
    fn text_end(&mut self, story: &[u8], from: usize) -> Option<usize> {
        let mut at = from;
        for _ in 0..story.len() {
            if story.len() <= at || !mark(&mut self.words, at) {
                return None;
            }
            let ends = 0x80 <= story[at];
            at += 2;
            if ends {
                self.cover(from, at);
                return Some(at);
            }
        }
        None
    }
}

/// What of the instruction at an address a machine refuses, of which the profile's refuses this.
fn refused_at(
    mode: Mode,
    version: StoryVersion,
    story: &[u8],
    at: usize,
    refusal: Option<Refusal>,
) -> Option<Refusal>
    requires { length story.now ≤ longest_story }
    ensures profile { mode ≡ Profile → result ≡ refusal }
{
    match mode {
        Mode::Profile => refusal,
        Mode::Standard if version.number <= LAST_OLD => {
            older_refusal_at(story, at, version.number)
        }
        Mode::Standard => standard_refusal_at(story, at),
    }
}

/// The address of the first byte that was passed; where none was, that after the last one.
fn first_covered(covered: &[bool]) -> usize {
    for at in 0..covered.len() {
        if covered[at] {
            return at;
        }
    }
    covered.len()
}

/// Marks an address, where there is one that was not marked.
fn mark(marks: &mut [bool], at: usize) -> bool {
    if marks.len() <= at || marks[at] {
        return false;
    }
    marks[at] = true;
    true
}

/// The address for which a packed address of a routine stands.
fn unpacked(version: StoryVersion, packed: u16) -> usize
    ensures { result ≡ routine_at version packed }
{
    version.scale() as usize * usize::from(packed) + version.routine_offset as usize
}
