//! The variable of an `objectloop`: the rules that its name can break.

ghost use Rattle.std.specs.Prelude.{◌≡◌};
ghost use Rattle.syntax_trees.specs.Views.{name_tree};
ghost use Rattle.checker_values.specs.Noted.{noted};
ghost use Rattle.checker_values.specs.Scope.{seen_in};
ghost use Rattle.checker_values.specs.Expressions.{variable_of_binding};
ghost use Rattle.checker_statements.specs.Statements.{loop_breaches};
ghost use Rattle.checker_statements.specs.Guarded.{IsLoopVariable};

use checker_values::{Binding, Scope, Tally, note};
use meaning::Variable;
use syntax_lexer::{UNKNOWN_NAME, WRONG_KIND};
use syntax_trees::Name;

// The variable of an `objectloop`; any will do for a name that stands for none.
#[tactic(auto, using(checker_values::proofs::Noted::noted_none))]
fn loop_variable<'a>(name: Name<'a>, found: Option<Binding>, tally: &mut Tally) -> Variable
    ensures value { result ≡ variable_of_binding found }
    ensures breaches { tally.new ≡ noted tally.old (loop_breaches name.entry.position found) }
{
    match found {
        None => {
            note(tally, UNKNOWN_NAME, name.position);
            Variable::Local(0)
        }
        Some(Binding::Global(number)) => Variable::Global(number),
        Some(Binding::Local(number)) => Variable::Local(number),
        Some(_) => {
            note(tally, WRONG_KIND, name.position);
            Variable::Local(0)
        }
    }
}

/// The variable of this name.
pub fn variable_of<'a>(name: &Name<'a>, scope: &Scope<'_>, tally: &mut Tally) -> Variable
    ensures { IsLoopVariable (seen_in scope.now) (name_tree name.now) tally.old tally.new result }
{
    loop_variable(*name, scope.look(name.text), tally)
}
