//! Numbers of pages: a few in place, more of them in memory.

ghost use Rattle.std.specs.Prelude.{◌≡◌, ◌++◌, ◌∷◌, [], IfOk, OnOk, OnErr};

use crate::few_numbers::{FewNumbers, IN_PLACE};
use std::alloc::{AllocError, Global};
use std::marker::Model;

/// For how many numbers there is room when they first ask for memory.
const FIRST_ROOM: usize = 8;

/// Where the numbers are stored.
#[derive(Drop)]
enum Numbers {
    Few(FewNumbers),
    Many(Vec<u32>),
}

/// Numbers of pages, in order.
#[derive(Drop)]
pub(crate) struct PageList {
    numbers: Numbers,
}

impl Model for PageList {
    ghost use Rattle.std.specs.Prelude.{ℕ, List};

    ghost Value = { List ℕ };

    ghost use Rattle.journal.specs.PageNumbers.{numbers_of};

    ghost view = { λ l. numbers_of l.numbers };
}

impl PageList {
    /// No number. It takes no memory.
    #[inline]
    pub(crate) fn new() -> PageList
        ensures { result ≡ [] }
    {
        PageList {
            numbers: Numbers::Few(FewNumbers::none()),
        }
    }

    #[inline]
    /// The numbers.
    pub(crate) fn as_slice(&self) -> &[u32]
        ensures { result.now ≡ self.now }
    {
        match &self.numbers {
            Numbers::Few(few) => few.as_slice(),
            Numbers::Many(many) => many.as_slice(),
        }
    }

    /// Adds a number behind the others. The first six take no memory.
    ///
    /// # Errors
    ///
    /// Memory was refused: nothing has changed.
    #[inline]
    pub(crate) fn push(&mut self, alloc: Global, number: u32) -> Result<(), AllocError>
        ensures ok { OnOk result (self.new ≡ self.old ++ number ∷ []) }
        ensures err { OnErr result (self.new ≡ self.old) }
    {
        match &mut self.numbers {
            Numbers::Few(few) => {
                if few.len() == IN_PLACE {
                    let many = moved(alloc, few.as_slice(), number)?;
                    self.numbers = Numbers::Many(many);
                } else {
                    few.push(number);
                }
                Ok(())
            }
            Numbers::Many(many) => {
                many.push(number)?;
                Ok(())
            }
        }
    }

    /// Leaves no number. What memory they have is kept for others.
    #[inline]
    pub(crate) fn clear(&mut self)
        ensures { self.new ≡ [] }
    {
        match &mut self.numbers {
            Numbers::Few(few) => few.clear(),
            Numbers::Many(many) => many.clear(),
        }
    }
}

/// The numbers that stood in place and one more, in memory.
#[cold]
#[inline(never)]
fn moved(alloc: Global, few: &[u32], number: u32) -> Result<Vec<u32>, AllocError>
    ensures { IfOk result (λ many. many.items ≡ few.now ++ number ∷ []) }
{
    let mut many = Vec::with_capacity(alloc, FIRST_ROOM)?;
    many.extend_from_slice(few)?;
    many.push(number)?;
    Ok(many)
}
