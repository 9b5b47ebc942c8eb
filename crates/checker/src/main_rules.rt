//! The routine `Main`.

ghost use Rattle.std.specs.Prelude.{◌≡◌, map};
ghost use Rattle.std.specs.Option.{option_map};
ghost use Rattle.syntax_trees.specs.Views.{name_tree};
ghost use Rattle.syntax_directives.specs.Views.{directive_tree};
ghost use Rattle.checker_values.specs.Names.{in_table};
ghost use Rattle.checker_values.specs.Noted.{noted};
ghost use Rattle.checker.specs.Programs.{main_key, position_or, main_breaches};
ghost use Rattle.checker_values.specs.Expressions.{routine_of_binding};
ghost use Rattle.checker.specs.Programs as spec;

use checker_values::{Binding, Key, Table, Tally, find, key_of, note};
use syntax::Directive;
use syntax_lexer::{NO_PROPER_MAIN, Position};
use syntax_trees::Name;

// The name of the first routine with a key.
fn first_routine<'a>(directives: &[Directive<'a>], key: &Key) -> Option<Name<'a>>
    ensures { option_map name_tree result
        ≡ spec.first_routine (map directive_tree directives.now) key.now }
{
    for directive in directives {
        if let Directive::Routine(routine) = directive {
            if key_of(routine.name.text) == *key {
                return Some(routine.name);
            }
        }
    }
    None
}

fn main_position(directives: &[Directive<'_>], end: Position) -> Position
    ensures { result ≡ position_or end
        (spec.first_routine (map directive_tree directives.now) main_key) }
{
    match first_routine(directives, &key_of(b"main")) {
        Some(name) => name.position,
        None => end,
    }
}

/// The number of the routine `Main`, in a file that ends there.
#[tactic(auto, using(checker_values::proofs::Noted::noted_none))]
pub fn main_number(
    directives: &[Directive<'_>],
    end: Position,
    whole: &Table,
    tally: &mut Tally,
) -> usize
    ensures value { result ≡ routine_of_binding (in_table whole.now.entries main_key) }
    ensures breaches { tally.new ≡ noted tally.old
        (main_breaches end (spec.first_routine (map directive_tree directives.now) main_key)
        (in_table whole.now.entries main_key)) }
{
    match find(whole, b"main") {
        Some(Binding::Routine(number, locals)) => {
            if locals >= 1 {
                note(tally, NO_PROPER_MAIN, main_position(directives, end));
            }
            return number;
        }
        _ => note(tally, NO_PROPER_MAIN, end),
    }
    0
}
