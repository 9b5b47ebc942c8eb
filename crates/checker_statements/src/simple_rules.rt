//! Statements in which no other stands: the rules that they can break, and what they resolve to.

ghost use Rattle.std.specs.Prelude.{◌≡◌, IfOk, if◌then◌else◌, map};
ghost use Rattle.syntax_trees.specs.Views.{expression_tree};
ghost use Rattle.syntax_statements.specs.PartViews.{flag_tree, item_tree};
ghost use Rattle.syntax_statements.specs.Tree as trees;
ghost use Rattle.syntax_statements.specs.Views.{simple_tree};
ghost use Rattle.meaning.specs.Views.{value_of, boxed_value, printed_of, action_of};
ghost use Rattle.checker_values.specs.Noted.{noted};
ghost use Rattle.checker_values.specs.Scope.{seen_in};
ghost use Rattle.checker_values.specs.Temporaries.{need};
ghost use Rattle.checker_statements.specs.Statements.{outside_breaches, room_breaches, move_need};
ghost use Rattle.checker_statements.specs.Uses.{used_value, IsUsed};
ghost use Rattle.checker_statements.specs.Walk.{IsWhole, IsFlag, AreFlags, IsItem, AreItems, GivesAction};

use crate::buffer_rules::read;
use checker_values::{Scope, Tally, attribute, both_fit, boxed_expression, expression, fits, note};
use meaning::limits::MOST_TEMPORARIES;
use meaning::{Action, Enclosure, Printed, Value};
use std::alloc::{AllocError, Global};
use syntax_lexer::{BREAK_OUTSIDE, EXPRESSION_TOO_LARGE, Position};
use syntax_statements::{PrintItem, SimpleStatement};
use syntax_trees::{Expression, Name};

#[tactic(auto, using(checker_values::proofs::Noted::noted_none, checker_values::proofs::Needs::fits_not))]
fn temporaries<'a>(e: &Box<Expression<'a>>, position: Position, tally: &mut Tally)
    ensures { tally.new ≡ noted tally.old
        (room_breaches position (need (expression_tree e.now.value))) }
{
    if !fits(e, MOST_TEMPORARIES) {
        note(tally, EXPRESSION_TOO_LARGE, position);
    }
}

// Resolves the names of an expression of a statement or an item that begins at this position, and
// notes the rules that it breaks.
fn whole<'a>(
    e: &Box<Expression<'a>>,
    alloc: Global,
    scope: &Scope<'_>,
    position: Position,
    tally: &mut Tally,
) -> Result<Value, AllocError>
    ensures { IfOk result (λ v. IsWhole (seen_in scope.now) position (expression_tree e.now.value)
        tally.old tally.new (value_of v)) }
{
    temporaries(e, position, tally);
    expression(e, alloc, scope, tally)
}

/// Resolves the names of an expression of a statement that begins at this position, and notes the
/// rules that it breaks.
///
/// # Errors
///
/// `AllocError` where memory is refused.
pub fn boxed_whole<'a>(
    e: &Box<Expression<'a>>,
    alloc: Global,
    scope: &Scope<'_>,
    position: Position,
    tally: &mut Tally,
) -> Result<Box<Value>, AllocError>
    ensures { IfOk result (λ v. IsWhole (seen_in scope.now) position (expression_tree e.now.value)
        tally.old tally.new (boxed_value v)) }
{
    temporaries(e, position, tally);
    boxed_expression(e, alloc, scope, tally)
}

#[tactic(auto, using(checker_values::proofs::Noted::noted_none))]
fn item<'a>(
    printed: &PrintItem<'a>,
    alloc: Global,
    scope: &Scope<'_>,
    tally: &mut Tally,
) -> Result<Printed<'a>, AllocError>
    ensures { IfOk result (λ x. IsItem (seen_in scope.now) (item_tree printed.now)
        tally.old tally.new (printed_of x)) }
{
    match printed {
        PrintItem::Text(text) => Ok(Printed::Text(text)),
        PrintItem::Character(position, e) => {
            let Ok(value) = whole(e, alloc, scope, *position, tally) else {
                return Err(AllocError);
            };
            Ok(Printed::Character(value))
        }
        PrintItem::Object(position, e) => {
            let Ok(value) = whole(e, alloc, scope, *position, tally) else {
                return Err(AllocError);
            };
            Ok(Printed::Name(value))
        }
        PrintItem::Number(position, e) => {
            let Ok(value) = whole(e, alloc, scope, *position, tally) else {
                return Err(AllocError);
            };
            Ok(Printed::Number(value))
        }
    }
}

fn items<'a>(
    printed: &[PrintItem<'a>],
    alloc: Global,
    scope: &Scope<'_>,
    tally: &mut Tally,
) -> Result<Vec<Printed<'a>>, AllocError>
    ensures { IfOk result (λ v. AreItems (seen_in scope.now) printed.now
        tally.old tally.new (map printed_of v.items)) }
{
    let mut found = Vec::with_capacity(alloc, printed.len())?;
    for x in printed {
        let Ok(resolved) = item(x, alloc, scope, tally) else {
            return Err(AllocError);
        };
        found.push_reserved(resolved);
    }
    Ok(found)
}

// In this function and in those below, the lifetime of the action is that of the first argument, as
// in `simple`: else the prover compares the types of actions part by part.
fn print<'a>(
    printed: &Vec<PrintItem<'a>>,
    alloc: Global,
    scope: &Scope<'_>,
    returns: bool,
    tally: &mut Tally,
) -> Result<Action<'a>, AllocError>
    ensures { (around : _) → GivesAction (seen_in scope.now) around result tally.old tally.new
        (if returns then trees.print_return (map item_tree printed.now.items)
        else trees.print (map item_tree printed.now.items)) }
{
    let Ok(found) = items(printed, alloc, scope, tally) else {
        return Err(AllocError);
    };
    if returns {
        return Ok(Action::PrintReturn(found));
    }
    Ok(Action::Print(found))
}

/// What a statement does with its value.
#[derive(Clone, Copy)]
enum Use {
    Return,
    Remove,
    Effect,
}

fn used_action<'a>(value: Value, used: Use) -> Action<'a>
    ensures { action_of result ≡ used_value used (value_of value) }
{
    match used {
        Use::Return => Action::ReturnValue(value),
        Use::Remove => Action::Remove(value),
        Use::Effect => Action::Effect(value),
    }
}

// A statement of one value.
fn use_value<'a>(
    e: &Box<Expression<'a>>,
    alloc: Global,
    scope: &Scope<'_>,
    used: Use,
    position: Position,
    tally: &mut Tally,
) -> Result<Action<'a>, AllocError>
    ensures { IfOk result (λ a. IsUsed (seen_in scope.now) used position
        (expression_tree e.now.value) tally.old tally.new (action_of a)) }
{
    let Ok(value) = whole(e, alloc, scope, position, tally) else {
        return Err(AllocError);
    };
    Ok(used_action(value, used))
}

// An attribute of a `give`, and whether it is set.
fn flag<'a>(given: &(bool, Name<'a>), scope: &Scope<'_>, tally: &mut Tally) -> (bool, usize)
    ensures { IsFlag (seen_in scope.now) given.now tally.old tally.new result }
{
    let (sets, name) = *given;
    let number = attribute(name, scope.look(name.text), tally);
    (sets, number)
}

// The attributes of a `give`.
fn flags<'a>(
    given: &[(bool, Name<'a>)],
    alloc: Global,
    scope: &Scope<'_>,
    tally: &mut Tally,
) -> Result<Vec<(bool, usize)>, AllocError>
    ensures { IfOk result (λ v. AreFlags (seen_in scope.now) given.now
        tally.old tally.new v.items) }
{
    let mut found = Vec::with_capacity(alloc, given.len())?;
    for x in given {
        let resolved = flag(x, scope, tally);
        found.push_reserved(resolved);
    }
    Ok(found)
}

fn give<'a>(
    e: &Box<Expression<'a>>,
    given: &Box<Vec<(bool, Name<'a>)>>,
    alloc: Global,
    scope: &Scope<'_>,
    position: Position,
    tally: &mut Tally,
) -> Result<Action<'a>, AllocError>
    ensures { (around : _) → GivesAction (seen_in scope.now) around result tally.old tally.new
        (trees.give position (expression_tree e.now.value) (map flag_tree given.now.value.items)) }
{
    let Ok(object) = boxed_whole(e, alloc, scope, position, tally) else {
        return Err(AllocError);
    };
    let Ok(changes) = flags(given, alloc, scope, tally) else {
        drop(object);
        return Err(AllocError);
    };
    Ok(Action::Give(object, changes))
}

#[tactic(auto, using(checker_values::proofs::Noted::noted_none, checker_values::proofs::Needs::fits_not))]
fn move_temporaries<'a>(
    object: &Box<Expression<'a>>,
    parent: &Box<Expression<'a>>,
    position: Position,
    tally: &mut Tally,
)
    ensures { tally.new ≡ noted tally.old (room_breaches position
        (move_need (expression_tree object.now.value) (expression_tree parent.now.value))) }
{
    if !both_fit(object, parent, MOST_TEMPORARIES) {
        note(tally, EXPRESSION_TOO_LARGE, position);
    }
}

fn move_to<'a>(
    object: &Box<Expression<'a>>,
    parent: &Box<Expression<'a>>,
    alloc: Global,
    scope: &Scope<'_>,
    position: Position,
    tally: &mut Tally,
) -> Result<Action<'a>, AllocError>
    ensures { (around : _) → GivesAction (seen_in scope.now) around result tally.old tally.new
        (trees.move position (expression_tree object.now.value)
        (expression_tree parent.now.value)) }
{
    move_temporaries(object, parent, position, tally);
    let Ok(object) = boxed_expression(object, alloc, scope, tally) else {
        return Err(AllocError);
    };
    let Ok(parent) = boxed_expression(parent, alloc, scope, tally) else {
        drop(object);
        return Err(AllocError);
    };
    Ok(Action::Move(object, parent))
}

// `break` or `continue`, which may stand there or not.
#[tactic(auto, using(checker_values::proofs::Noted::noted_none))]
fn break_rule(stands: bool, position: Position, tally: &mut Tally)
    ensures { tally.new ≡ noted tally.old (outside_breaches stands position) }
{
    if !stands {
        note(tally, BREAK_OUTSIDE, position);
    }
}

/// Resolves the names of a statement in which no other stands, and notes the rules that it breaks.
///
/// # Errors
///
/// `AllocError` where memory is refused.
pub fn simple<'a>(
    s: &SimpleStatement<'a>,
    alloc: Global,
    scope: &Scope<'_>,
    around: Enclosure,
    tally: &mut Tally,
) -> Result<Action<'a>, AllocError>
    ensures { GivesAction (seen_in scope.now) around result tally.old tally.new
        (simple_tree s.now) }
{
    match s {
        SimpleStatement::Text(text) => Ok(Action::Text(text)),
        SimpleStatement::Print(all) => print(all, alloc, scope, false, tally),
        SimpleStatement::PrintReturn(all) => print(all, alloc, scope, true, tally),
        SimpleStatement::NewLine => Ok(Action::NewLine),
        SimpleStatement::Break(position) => {
            break_rule(around.can_break, *position, tally);
            Ok(Action::Break)
        }
        SimpleStatement::Continue(position) => {
            break_rule(around.can_continue, *position, tally);
            Ok(Action::Continue)
        }
        SimpleStatement::Return => Ok(Action::ReturnValue(Value::Number(1))),
        SimpleStatement::ReturnValue(position, e) => {
            use_value(e, alloc, scope, Use::Return, *position, tally)
        }
        SimpleStatement::ReturnTrue => Ok(Action::ReturnValue(Value::Number(1))),
        SimpleStatement::ReturnFalse => Ok(Action::ReturnValue(Value::Number(0))),
        SimpleStatement::Quit => Ok(Action::Quit),
        SimpleStatement::Read(names) => Ok(read(names, scope, tally)),
        SimpleStatement::Give(position, e, given) => {
            give(e, given, alloc, scope, *position, tally)
        }
        SimpleStatement::Move(position, object, parent) => {
            move_to(object, parent, alloc, scope, *position, tally)
        }
        SimpleStatement::Remove(position, e) => {
            use_value(e, alloc, scope, Use::Remove, *position, tally)
        }
        SimpleStatement::Effect(position, e) => {
            use_value(e, alloc, scope, Use::Effect, *position, tally)
        }
    }
}
