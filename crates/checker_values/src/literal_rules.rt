//! Values that are known before a story runs: the rules that they can break, and what they are.

ghost use Rattle.std.specs.Prelude.{◌≡◌};
ghost use Rattle.syntax_statements.specs.PartViews.{literal_tree};
ghost use Rattle.syntax_directives.specs.Views.{optional_tree};
ghost use Rattle.checker_values.specs.Names as names;
ghost use Rattle.checker_values.specs.Noted.{noted};
ghost use Rattle.checker_values.specs.Scope.{file_in};
ghost use Rattle.checker_values.specs.Literals as spec;

use crate::binding::Binding;
use crate::file::File;
use crate::known::Known;
use crate::names::{literal_known, or_zero};
use crate::noting::{Tally, note};
use crate::table::{Table, find};
use syntax::Literal;
use syntax_lexer::{Position, UNKNOWN_NAME, WRONG_KIND};

/// A name in what a global or an entry of an array begins with, or in what begins a case, and what
/// it stands for there: it is a constant or an object.
#[tactic(auto, using(crate::proofs::Noted::noted_none))]
pub fn constant_name(position: Position, found: Option<Binding>, tally: &mut Tally)
    ensures { tally.new ≡ noted tally.old (spec.constant_breaches position found) }
{
    match found {
        None => note(tally, UNKNOWN_NAME, position),
        Some(Binding::Constant(_)) => {}
        Some(Binding::Object(_)) => {}
        Some(_) => note(tally, WRONG_KIND, position),
    }
}

#[tactic(auto, using(crate::proofs::Noted::noted_none))]
fn literal_rules(value: &Literal<'_>, whole: &Table, tally: &mut Tally)
    ensures { tally.new ≡ noted tally.old
        (spec.literal_breaches whole.now.entries (literal_tree value.now)) }
{
    if let Literal::Named(name) = value {
        constant_name(name.position, find(whole, name.text), tally);
    }
}

/// What a literal is, among the names of the file; `None` where it breaks a rule.
pub fn literal(value: &Literal<'_>, whole: &Table, tally: &mut Tally) -> Option<Known>
    ensures value { result ≡ names.literal_known whole.now.entries (literal_tree value.now) }
    ensures breaches { tally.new ≡ noted tally.old
        (spec.literal_breaches whole.now.entries (literal_tree value.now)) }
{
    literal_rules(value, whole, tally);
    literal_known(value, whole)
}

/// What a global begins with.
#[tactic(auto, using(crate::proofs::Noted::noted_none))]
pub fn initial(value: &Option<Literal<'_>>, file: &File, tally: &mut Tally) -> u16
    ensures value { result ≡ spec.initial_value (file_in file.now) (optional_tree value.now) }
    ensures breaches { tally.new ≡ noted tally.old
        (spec.initial_breaches file.now.table.entries (optional_tree value.now)) }
{
    match value {
        None => 0,
        Some(value) => file
            .numbers
            .value(or_zero(literal(value, &file.table, tally))),
    }
}

// A name in a constant's value that is no constant there: what it stands for in the file.
#[tactic(auto, using(crate::proofs::Noted::noted_none))]
fn later_name(position: Position, anywhere: Option<Binding>, tally: &mut Tally)
    ensures { tally.new ≡ noted tally.old (spec.later_breaches position anywhere) }
{
    match anywhere {
        None => note(tally, UNKNOWN_NAME, position),
        Some(Binding::Constant(_)) => note(tally, UNKNOWN_NAME, position),
        Some(Binding::Object(_)) => {}
        Some(_) => note(tally, WRONG_KIND, position),
    }
}

// A name in a constant's value: what it stands for there, and in the file.
#[tactic(auto, using(crate::proofs::Noted::noted_none))]
fn earlier_name(
    position: Position,
    before: Option<Binding>,
    anywhere: Option<Binding>,
    tally: &mut Tally,
)
    ensures { tally.new ≡ noted tally.old (spec.earlier_breaches position before anywhere) }
{
    match before {
        Some(Binding::Constant(_)) => {}
        Some(Binding::Object(_)) => {}
        _ => later_name(position, anywhere, tally),
    }
}

/// The value of a constant, where `table` has the names before it.
#[tactic(auto, using(crate::proofs::Noted::noted_none))]
pub fn constant_value(value: &Literal<'_>, whole: &Table, table: &Table, tally: &mut Tally)
    ensures { tally.new ≡ noted tally.old
        (spec.named_breaches whole.now.entries table.now.entries (literal_tree value.now)) }
{
    if let Literal::Named(name) = value {
        earlier_name(
            name.position,
            find(table, name.text),
            find(whole, name.text),
            tally,
        );
    }
}
