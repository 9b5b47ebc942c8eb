//! The statement `read`: the rules that the names of its two arrays can break, and what it resolves
//! to.

ghost use Rattle.std.specs.Prelude.{◌≡◌};
ghost use Rattle.syntax_trees.specs.Views.{name_tree};
ghost use Rattle.syntax_statements.specs.Tree as trees;
ghost use Rattle.meaning.specs.Views.{action_of};
ghost use Rattle.checker_values.specs.Noted.{noted};
ghost use Rattle.checker_values.specs.Scope.{seen_in};
ghost use Rattle.checker_values.specs.Expressions.{array_of_binding};
ghost use Rattle.checker_statements.specs.Buffers as spec;
ghost use Rattle.checker_statements.specs.Walk.{IsAction};

use checker_values::{Binding, Scope, Tally, note};
use meaning::Action;
use syntax::ArrayKind;
use syntax_lexer::{Position, UNKNOWN_NAME, WRONG_KIND};
use syntax_trees::Name;

fn is_of_bytes(kind: ArrayKind) -> bool
    ensures { result ≡ spec.is_of_bytes kind }
{
    match kind {
        ArrayKind::Bytes => true,
        ArrayKind::Words => false,
        ArrayKind::String => true,
        ArrayKind::Table => false,
    }
}

#[tactic(auto, using(checker_values::proofs::Noted::noted_none))]
fn buffer_rules(position: Position, found: Option<Binding>, tally: &mut Tally)
    ensures { tally.new ≡ noted tally.old (spec.buffer_breaches position found) }
{
    match found {
        None => note(tally, UNKNOWN_NAME, position),
        Some(Binding::Array(_, kind)) => {
            if !is_of_bytes(kind) {
                note(tally, WRONG_KIND, position);
            }
        }
        Some(_) => note(tally, WRONG_KIND, position),
    }
}

fn is_array(number: usize, found: Option<Binding>) -> bool
    ensures { result ≡ spec.is_array number found }
{
    match found {
        Some(Binding::Array(other, _)) => number == other,
        _ => false,
    }
}

// The second name, where both are one array.
#[tactic(auto, using(checker_values::proofs::Noted::noted_none))]
fn same_array(
    position: Position,
    first: Option<Binding>,
    second: Option<Binding>,
    tally: &mut Tally,
)
    ensures { tally.new ≡ noted tally.old (spec.same_breaches position first second) }
{
    match first {
        Some(Binding::Array(number, _)) => {
            if is_array(number, second) {
                note(tally, WRONG_KIND, position);
            }
        }
        _ => {}
    }
}

// The number of an array; any number will do where it is none.
fn array_number(found: Option<Binding>) -> usize
    ensures { result ≡ array_of_binding found }
{
    match found {
        Some(Binding::Array(number, _)) => number,
        _ => 0,
    }
}

/// Resolves the names of a `read`, and notes the rules that they break.
pub fn read<'a>(names: &(Name<'a>, Name<'a>), scope: &Scope<'_>, tally: &mut Tally) -> Action<'a>
    ensures { (around : _) → IsAction (seen_in scope.now) around
        (trees.read_line (name_tree names.now.0) (name_tree names.now.1))
        tally.old tally.new (action_of result) }
{
    let (text, words) = *names;
    let first = scope.look(text.text);
    let second = scope.look(words.text);
    buffer_rules(text.position, first, tally);
    buffer_rules(words.position, second, tally);
    same_array(words.position, first, second, tally);
    Action::Read(array_number(first), array_number(second))
}
