//! What a walk over a program looks for, and what it has found so far.

ghost use Rattle.std.specs.Prelude.{◌≡◌};
ghost use Rattle.messages_diagnosis.specs.Walk.{least_of, risen, wants, with_found};

use syntax_lexer::Position;

/// How many temporaries an expression needs, and where the statement or the item of a `print`
/// begins in which it stands.
#[derive(Clone, Copy)]
pub struct Temporaries {
    pub position: Position,
    pub number: u8,
}

/// What is looked for: the greatest number of all, or the first number at an offset; and what was
/// found of it so far.
#[derive(Clone, Copy)]
pub struct Sought {
    /// More are told as so many.
    pub most: u8,
    /// Where what is wanted begins; `None` where the greatest of all is wanted.
    pub offset: Option<usize>,
    pub found: Option<Temporaries>,
}

/// Whether what begins at this position is wanted: each where the greatest is looked for, and the
/// first at an offset where that one is.
pub fn wants(position: Position, sought: &Sought) -> bool
    ensures { result ≡ wants sought.now position }
{
    match (sought.offset, sought.found) {
        (None, _) => true,
        (Some(offset), None) => position.offset == offset,
        (Some(_), Some(_)) => false,
    }
}

/// The number so far; 0 where there is none.
pub fn least_of(sought: &Sought) -> u8
    ensures { result ≡ least_of sought.now.found }
{
    match sought.found {
        None => 0,
        Some(found) => found.number,
    }
}

/// Takes a number that is greater than all before it, or the first.
pub fn raise(position: Position, number: u8, sought: &mut Sought)
    ensures { sought.new ≡ with_found sought.old (risen sought.old.found position number) }
{
    match sought.found {
        None => sought.found = Some(Temporaries { position, number }),
        Some(found) => {
            if found.number < number {
                sought.found = Some(Temporaries { position, number });
            }
        }
    }
}
