//! The first of the broken rules that a check meets, and how many there are.

ghost use Rattle.std.specs.Prelude.{◌≡◌, ◌+◌, if◌then◌else◌, None};
ghost use Rattle.checker_values.specs.Breaches.{at};
ghost use Rattle.checker_values.specs.Breaches as spec;
ghost use Rattle.checker_values.specs.Noted as definitions;
ghost use Rattle.checker_values.specs.Noted.{noted};

use crate::breach::Breach;
use syntax_lexer::Position;

/// How many broken rules are counted at most.
pub const MOST_COUNTED: u32 = 1_000_000;

/// The first of the broken rules that a check met so far, and how many it met. Those up to one that
/// is known already do not count.
#[derive(Clone, Copy)]
pub struct Tally {
    /// The one that is known already, if any.
    pub after: Option<Breach>,

    /// The first of those after it.
    pub found: Option<Breach>,

    /// How many there are after it, at most [`MOST_COUNTED`].
    pub count: u32,
}

impl Tally {
    /// Nothing is met yet. Broken rules up to one that is known will not count.
    pub fn new(after: Option<Breach>) -> Tally
        ensures after { result.after ≡ after }
        ensures found { result.found ≡ None }
        ensures count { result.count ≡ 0 }
    {
        Tally {
            after,
            found: None,
            count: 0,
        }
    }
}

fn is_before(a: Breach, b: Breach) -> bool
    ensures { result ≡ spec.is_before a b }
{
    a.position.offset < b.position.offset
        || a.position.offset == b.position.offset && a.number < b.number
}

fn is_after(known: Option<Breach>, breach: Breach) -> bool
    ensures { result ≡ definitions.is_after known breach }
{
    match known {
        None => true,
        Some(known) => is_before(known, breach),
    }
}

fn first_of_two(found: Option<Breach>, breach: Breach) -> Option<Breach>
    ensures { result ≡ definitions.first_of_two found breach }
{
    match found {
        Some(found) if !is_before(breach, found) => Some(found),
        _ => Some(breach),
    }
}

fn one_more(count: u32) -> u32
    ensures { result ≡ definitions.one_more count }
{
    if count < MOST_COUNTED {
        count + 1
    } else {
        count
    }
}

/// Notes that the rule of this number is broken at this position.
#[tactic(auto, unfolding(crate::specs::Noted::noted))]
pub fn note(tally: &mut Tally, number: u8, position: Position)
    ensures { tally.new ≡ noted tally.old (at position number) }
{
    let breach = Breach { position, number };
    if is_after(tally.after, breach) {
        tally.found = first_of_two(tally.found, breach);
        tally.count = one_more(tally.count);
    }
}
