//! Warnings, each at its token.

ghost use Rattle.std.specs.Prelude.{IfOk};
ghost use Rattle.messages_warnings.specs.InOrder.{AreInOrder};

use std::alloc::{AllocError, Global};

/// What a warning is about.
#[derive(Clone, Copy)]
pub enum Concern {
    /// The `=` of a condition that is an assignment.
    Assigns,

    /// The `;` that is all of an `if`.
    EmptyIf,

    /// The `;` that is all that a `while` repeats.
    EmptyLoop,

    /// The name of a local that is never used, and the number of the token that names its routine.
    UnusedLocal(usize),

    /// The name of a global that is never used.
    UnusedGlobal,

    /// The name of a routine that is never called, but in itself.
    UnusedRoutine,

    /// The name of a property that is never used.
    UnusedProperty,

    /// A local that is read before anything has set it.
    Unset,

    /// The first token of a statement that is never run, and the number of the first token of the
    /// statement before it.
    Unreached(usize),

    /// A character that is likely to be a dictionary word of one letter.
    Letter(u8),
}

/// A warning: the number of the token that it is about, and what it says of it.
#[derive(Clone, Copy)]
pub struct Warning {
    pub at: usize,
    pub concern: Concern,
}

/// What there is to say of each token.
#[derive(Drop)]
pub struct Marks {
    concerns: Vec<Option<Concern>>,
}

impl Marks {
    /// Nothing is said of so many tokens.
    pub fn none(alloc: Global, length: usize) -> Result<Marks, AllocError> {
        Ok(Marks {
            concerns: vec![in alloc; None; length]?,
        })
    }

    /// Says something of a token, if nothing is said of it yet.
    pub fn mark(&mut self, at: usize, concern: Concern) {
        if at < self.concerns.len() && self.concerns[at].is_none() {
            self.concerns[at] = Some(concern);
        }
    }

    /// What is said of the token of a number.
    fn said(&self, at: usize) -> Option<Concern> {
        match self.concerns.get(at) {
            Some(concern) => *concern,
            None => None,
        }
    }
}

/// All that is said of this many tokens, in their order.
#[tactic(auto, using(crate::proofs::Order::none_in_order, crate::proofs::Order::passed, crate::proofs::Order::warned))]
pub fn all_marks(alloc: Global, marks: &Marks, count: usize) -> Result<Vec<Warning>, AllocError>
    ensures { IfOk result (λ v. AreInOrder count v.items) }
{
    let mut warnings = Vec::new(alloc);
    for at in 0..count {
        if let Some(concern) = marks.said(at) {
            warnings.push(Warning { at, concern })?;
        }
    }
    Ok(warnings)
}
