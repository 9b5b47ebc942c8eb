//! Where a routine may begin to which no direct call leads.

ghost use Rattle.std.specs.Prelude.{◌≤◌, ◌<◌, IfSome, length};
ghost use Rattle.zcore.specs.Layout.{longest_story};

use crate::successors::{
    Successors, branch_target, constant, first_instruction, jump_target, successors_at,
};
use std::alloc::{AllocError, Global};
use zcore::layout::MOST_LOCALS;
use zcore_standard::{Flow, Opcode};

/// A sweep over a story. Each address is looked at once as an instruction, so that the sweep takes
/// time linear in the story.
#[derive(Drop)]
pub(crate) struct Sweep {
    /// The version of the story.
    version: u8,

    /// The addresses of instructions and of words of texts that were looked at.
    tried: Vec<bool>,
}

impl Sweep {
    /// A sweep that has looked at nothing.
    ///
    /// # Errors
    ///
    /// `AllocError` where memory is refused.
    pub(crate) fn new(alloc: Global, story: &[u8], version: u8) -> Result<Sweep, AllocError> {
        Ok(Sweep {
            version,
            tried: vec![in alloc; false; story.len()]?,
        })
    }

    /// Whether a routine may begin at an address, of a story of which some bytes were passed before:
    /// instructions that the Standard names follow one another up to one that does not go on with the
    /// next, and no branch leads after it.
    pub(crate) fn finds_routine(&mut self, story: &[u8], covered: &[bool], at: usize) -> bool
        requires short { length story.now ≤ longest_story }
        requires at { at < length story.now }
    {
        if MOST_LOCALS < usize::from(story[at]) {
            return false;
        }
        let mut next = first_instruction(story, at, self.version);
        let mut furthest = next;
        for _ in 0..story.len() {
            if covered.len() <= next || covered[next] || !self.tries(next) {
                return false;
            }
            let Some(successors) = self.step_at(story, next) else {
                return false;
            };
            furthest = furthest.max(target_of(successors));
            next = successors.after;
            match successors.flow {
                Flow::Text | Flow::LastText => match self.text_end(story, next) {
                    Some(end) => next = end,
                    None => return false,
                },
                _ => {}
            }
            if successors.flow.is_last() && furthest < next {
                return true;
            }
        }
        false
    }

    /// What the instruction at an address says of those that follow it. `None` where there is none
    /// that the story's version has.
    fn step_at(&self, story: &[u8], at: usize) -> Option<Successors>
        requires { length story.now ≤ longest_story }
        ensures { IfSome result (λ successors. successors.after ≤ length story.now) }
    {
        let row = Opcode::read(story, at)?.row(self.version)?;
        successors_at(story, at, row)
    }

    /// An address is looked at, unless it was before.
    fn tries(&mut self, at: usize) -> bool {
        if self.tried.len() <= at || self.tried[at] {
            return false;
        }
        self.tried[at] = true;
        true
    }

    /// The address after a text, which ends with the first word whose top bit is set (Z-Machine
    /// Standards Document 1.1, section 3.2). `None` where it has no end, or was passed before.
    fn text_end(&mut self, story: &[u8], from: usize) -> Option<usize>
        requires { from ≤ length story.now }
    {
        let mut at = from;
        for _ in 0..story.len() {
            if story.len() <= at || !self.tries(at) {
                return None;
            }
            let ends = 0x80 <= story[at];
            at += 2;
            if ends {
                return Some(at);
            }
        }
        None
    }
}

/// The address to which an instruction branches or jumps; 0 where it does neither.
fn target_of(successors: Successors) -> usize
    requires { successors.after ≤ longest_story }
{
    match successors.branch {
        Some(offset) if 2 <= offset => return branch_target(successors.after, offset),
        _ => {}
    }
    match successors.flow {
        Flow::Jump => match constant(successors.first) {
            Some(offset) => jump_target(successors.after, offset),
            None => 0,
        },
        _ => 0,
    }
}
