//! Statements that run by a value: what they resolve to.

ghost use Rattle.std.specs.Prelude.{◌≡◌};
ghost use Rattle.meaning.specs.Views.{action_of, value_of};
ghost use Rattle.checker_statements.specs.Guarded.{acted};

use meaning::{Action, Value, Variable};

/// What a value and a statement after it are for.
#[derive(Clone, Copy)]
pub enum Guard {
    If,
    While,
    In(Variable),
    Where(Variable),
}

/// The statement that runs this body by this value.
pub fn guarded_action<'a>(body: Box<Action<'a>>, value: Box<Value>, guard: Guard) -> Action<'a>
    ensures { action_of result ≡ acted guard (value_of value.value) (action_of body.entry.value) }
{
    match guard {
        Guard::If => Action::If(value, body),
        Guard::While => Action::While(value, body),
        Guard::In(variable) => Action::EachIn(variable, value, body),
        Guard::Where(variable) => Action::EachWhere(variable, value, body),
    }
}
