//! What begins the cases of a `switch`: the rules that it can break, and what it resolves to.

ghost use Rattle.std.specs.Prelude.{◌≡◌, IfOk, map};
ghost use Rattle.std.specs.Option.{option_map};
ghost use Rattle.syntax_statements.specs.PartViews.{literal_tree, boxed_literal, range_tree};
ghost use Rattle.meaning.specs.Views.{range_of};
ghost use Rattle.checker_values.specs.Noted.{noted};
ghost use Rattle.checker_values.specs.Scope.{look_in, seen_in};
ghost use Rattle.checker_statements.specs.Statements as spec;
ghost use Rattle.checker_statements.specs.Walk.{IsRange, AreRanges};

use checker_values::{Scope, Tally, constant_known, constant_name, key_of_word, or_zero};
use meaning::Span;
use std::alloc::{AllocError, Global};
use syntax_statements::{Literal, Range};

// A value, which is known before a story runs. A local hides a constant.
#[tactic(auto, using(checker_values::proofs::Noted::noted_none))]
fn case_value(value: &Literal<'_>, scope: &Scope<'_>, tally: &mut Tally) -> u16
    ensures value { result ≡ spec.known_number (seen_in scope.now) (literal_tree value.now) }
    ensures breaches { tally.new ≡ noted tally.old
        (spec.known_breaches (look_in scope.now) (literal_tree value.now)) }
{
    match value {
        Literal::Number(number) => *number,
        Literal::Word(word) => scope.file.numbers.number(key_of_word(word)),
        Literal::Named(name) => {
            let found = scope.look(name.text);
            constant_name(name.position, found, tally);
            scope.file.numbers.value(or_zero(constant_known(found)))
        }
    }
}

// What a range holds for, whose first value is known.
#[tactic(auto, using(checker_values::proofs::Noted::noted_none))]
fn span(high: &Option<Box<Literal<'_>>>, scope: &Scope<'_>, low: u16, tally: &mut Tally) -> Span
    ensures value { range_of result ≡ spec.range_to (seen_in scope.now) low
        (option_map boxed_literal high.now) }
    ensures breaches { tally.new ≡ noted tally.old
        (spec.high_breaches (look_in scope.now) (option_map boxed_literal high.now)) }
{
    match high {
        None => Span::One(low),
        Some(value) => Span::Between(low, case_value(value, scope, tally)),
    }
}

fn range(range: &Range<'_>, scope: &Scope<'_>, tally: &mut Tally) -> Span
    ensures { IsRange (seen_in scope.now) (range_tree range.now)
        tally.old tally.new (range_of result) }
{
    let low = case_value(&range.low, scope, tally);
    span(&range.high, scope, low, tally)
}

/// The ranges of a case.
///
/// # Errors
///
/// `AllocError` where memory is refused.
pub fn ranges(
    given: &[Range<'_>],
    alloc: Global,
    scope: &Scope<'_>,
    tally: &mut Tally,
) -> Result<Vec<Span>, AllocError>
    ensures { IfOk result (λ v. AreRanges (seen_in scope.now) given.now
        tally.old tally.new (map range_of v.items)) }
{
    let mut found = Vec::with_capacity(alloc, given.len())?;
    for x in given {
        let resolved = range(x, scope, tally);
        found.push_reserved(resolved);
    }
    Ok(found)
}
