//! Statements, and those inside them: the rules that they can break, and what they resolve to.

ghost use Rattle.std.specs.Prelude.{◌≡◌, IfOk, map, true};
ghost use Rattle.syntax_trees.specs.Views.{expression_tree, name_tree};
ghost use Rattle.syntax_statements.specs.PartViews.{heading_tree, loop_tree};
ghost use Rattle.syntax_statements.specs.Tree as trees;
ghost use Rattle.syntax_statements.specs.Views.{statement_tree, trees_of, case_tree, other_tree, cases_of};
ghost use Rattle.meaning.specs.Enclosure.{in_switch};
ghost use Rattle.meaning.specs.Views.{action_of, case_of, other_of};
ghost use Rattle.checker_values.specs.Scope.{seen_in};
ghost use Rattle.checker_statements.specs.Walk.{IsAction, GivesAction};
ghost use Rattle.checker_statements.specs.StatementWalk.{AreActions, AreCases, IsOther};
ghost use Rattle.checker_statements.specs.Guarded.{IsGuarded};

use crate::case_rules::ranges;
use crate::guards::{Guard, guarded_action};
use crate::heading_rules::resolved_heading;
use crate::loop_rules::variable_of;
use crate::simple_rules::{boxed_whole, simple};
use checker_values::{Scope, Tally, in_box};
use meaning::{Action, Enclosure, IN_LOOP, Span, in_switch};
use std::alloc::{AllocError, Global};
use syntax_lexer::Position;
use syntax_statements::{Heading, Loop, Range, Statement};
use syntax_trees::{Expression, Name};

fn is_empty(s: &Statement<'_>) -> bool
    ensures { result ≡ true → s.now ≡ Statement.Empty }
{
    matches!(s, Statement::Empty)
}

// The ranges of a case of a `switch`.
fn ranges_of<'r, 'a>(given: &'r (Vec<Range<'a>>, Vec<Statement<'a>>)) -> &'r [Range<'a>]
    ensures { result.now ≡ given.now.0.items }
{
    &given.0
}

// The statements of a case of a `switch`.
fn body_of<'r, 'a>(given: &'r (Vec<Range<'a>>, Vec<Statement<'a>>)) -> &'r [Statement<'a>]
    ensures { result.now ≡ given.now.1.items }
{
    &given.1
}

// A statement. The tree is the first argument of all these functions: there its lifetime has the
// place that it has where a box or a vector lends it, else the prover compares the types of trees
// part by part.
#[cycle(statement)]
fn statement<'a>(
    s: &Statement<'a>,
    alloc: Global,
    scope: &Scope<'_>,
    around: Enclosure,
    tally: &mut Tally,
) -> Result<Action<'a>, AllocError>
    ensures { GivesAction (seen_in scope.now) around result tally.old tally.new
        (statement_tree s.now) }
{
    match s {
        Statement::Empty => Ok(Action::Empty),
        Statement::Simple(plain) => simple(plain, alloc, scope, around, tally),
        Statement::Block(all) => block(all, alloc, scope, around, tally),
        Statement::If(position, condition, then) => guarded(
            then,
            condition,
            alloc,
            scope,
            Guard::If,
            around,
            *position,
            tally,
        ),
        Statement::IfElse(position, condition, then, otherwise) => {
            if_else(
                then, otherwise, condition, alloc, scope, around, *position, tally,
            )
        }
        Statement::While(position, condition, body) => guarded(
            body,
            condition,
            alloc,
            scope,
            Guard::While,
            IN_LOOP,
            *position,
            tally,
        ),
        Statement::Do(position, body, condition) => {
            do_until(body, condition, alloc, scope, *position, tally)
        }
        Statement::For(position, parts, body) => {
            for_loop(body, parts, alloc, scope, *position, tally)
        }
        Statement::Objectloop(position, over, body) => {
            traversal(body, over, alloc, scope, *position, tally)
        }
        Statement::Switch(position, value, cases) => switch_on(
            cases,
            value,
            alloc,
            scope,
            in_switch(around),
            *position,
            tally,
        ),
    }
}

// The same for a statement inside another, in its box.
#[cycle(statement)]
fn boxed_statement<'a>(
    s: &Box<Statement<'a>>,
    alloc: Global,
    scope: &Scope<'_>,
    around: Enclosure,
    tally: &mut Tally,
) -> Result<Box<Action<'a>>, AllocError>
    ensures { IfOk result (λ x. IsAction (seen_in scope.now) around (statement_tree s.now.value)
        tally.old tally.new (action_of x.value)) }
{
    let Ok(found) = statement(s, alloc, scope, around, tally) else {
        return Err(AllocError);
    };
    in_box(found, alloc)
}

/// Resolves the names of statements in order, and notes the rules that they break. An empty one is
/// put there at once, without a result on its way.
///
/// # Errors
///
/// `AllocError` where memory is refused.
#[cycle(statement)]
pub fn all_statements<'a>(
    all: &[Statement<'a>],
    alloc: Global,
    scope: &Scope<'_>,
    around: Enclosure,
    tally: &mut Tally,
) -> Result<Vec<Action<'a>>, AllocError>
    ensures { IfOk result (λ v. AreActions (seen_in scope.now) around all.now
        tally.old tally.new (map action_of v.items)) }
{
    let mut found = Vec::with_capacity(alloc, all.len())?;
    for s in all {
        if is_empty(s) {
            found.push_reserved(Action::Empty);
            continue;
        }
        let Ok(resolved) = statement(s, alloc, scope, around, tally) else {
            return Err(AllocError);
        };
        found.push_reserved(resolved);
    }
    Ok(found)
}

#[cycle(statement)]
fn block<'a>(
    all: &Vec<Statement<'a>>,
    alloc: Global,
    scope: &Scope<'_>,
    around: Enclosure,
    tally: &mut Tally,
) -> Result<Action<'a>, AllocError>
    ensures { GivesAction (seen_in scope.now) around result tally.old tally.new
        (trees.block (trees_of (map statement_tree all.now.items))) }
{
    let Ok(found) = all_statements(all, alloc, scope, around, tally) else {
        return Err(AllocError);
    };
    Ok(Action::Block(found))
}

// A statement that runs by the value before it.
#[cycle(statement)]
fn guarded<'a>(
    body: &Box<Statement<'a>>,
    value: &Box<Expression<'a>>,
    alloc: Global,
    scope: &Scope<'_>,
    guard: Guard,
    inside: Enclosure,
    position: Position,
    tally: &mut Tally,
) -> Result<Action<'a>, AllocError>
    ensures { IfOk result (λ a. IsGuarded (seen_in scope.now) inside guard position
        (expression_tree value.now.value) (statement_tree body.now.value)
        tally.old tally.new (action_of a)) }
{
    let Ok(value) = boxed_whole(value, alloc, scope, position, tally) else {
        return Err(AllocError);
    };
    let Ok(body) = boxed_statement(body, alloc, scope, inside, tally) else {
        drop(value);
        return Err(AllocError);
    };
    Ok(guarded_action(body, value, guard))
}

#[cycle(statement)]
fn if_else<'a>(
    first: &Box<Statement<'a>>,
    otherwise: &Box<Statement<'a>>,
    condition: &Box<Expression<'a>>,
    alloc: Global,
    scope: &Scope<'_>,
    around: Enclosure,
    position: Position,
    tally: &mut Tally,
) -> Result<Action<'a>, AllocError>
    ensures { GivesAction (seen_in scope.now) around result tally.old tally.new
        (trees.if_else position (expression_tree condition.now.value)
        (statement_tree first.now.value)
        (statement_tree otherwise.now.value)) }
{
    let Ok(condition) = boxed_whole(condition, alloc, scope, position, tally) else {
        return Err(AllocError);
    };
    let Ok(first) = boxed_statement(first, alloc, scope, around, tally) else {
        drop(condition);
        return Err(AllocError);
    };
    let Ok(otherwise) = boxed_statement(otherwise, alloc, scope, around, tally) else {
        drop(condition);
        return Err(AllocError);
    };
    Ok(Action::IfElse(condition, first, otherwise))
}

#[cycle(statement)]
fn do_until<'a>(
    body: &Box<Statement<'a>>,
    condition: &Box<Expression<'a>>,
    alloc: Global,
    scope: &Scope<'_>,
    position: Position,
    tally: &mut Tally,
) -> Result<Action<'a>, AllocError>
    ensures { (around : _) → GivesAction (seen_in scope.now) around result tally.old tally.new
        (trees.do_until position (statement_tree body.now.value)
        (expression_tree condition.now.value)) }
{
    let Ok(body) = boxed_statement(body, alloc, scope, IN_LOOP, tally) else {
        return Err(AllocError);
    };
    let Ok(condition) = boxed_whole(condition, alloc, scope, position, tally) else {
        return Err(AllocError);
    };
    Ok(Action::Do(body, condition))
}

#[cycle(statement)]
fn for_loop<'a>(
    body: &Box<Statement<'a>>,
    given: &Box<Heading<'a>>,
    alloc: Global,
    scope: &Scope<'_>,
    position: Position,
    tally: &mut Tally,
) -> Result<Action<'a>, AllocError>
    ensures { (around : _) → GivesAction (seen_in scope.now) around result tally.old tally.new
        (trees.for_loop position (heading_tree given.now.value).before
        (heading_tree given.now.value).test
        (heading_tree given.now.value).after (statement_tree body.now.value)) }
{
    let Ok((before, test, after)) = resolved_heading(given, alloc, scope, position, tally) else {
        return Err(AllocError);
    };
    let Ok(body) = boxed_statement(body, alloc, scope, IN_LOOP, tally) else {
        drop(before);
        drop(test);
        drop(after);
        return Err(AllocError);
    };
    Ok(Action::For(before, test, after, body))
}

#[cycle(statement)]
fn each<'a>(
    body: &Box<Statement<'a>>,
    name: &Name<'a>,
    alloc: Global,
    scope: &Scope<'_>,
    tally: &mut Tally,
) -> Result<Action<'a>, AllocError>
    ensures { (around : _) → GivesAction (seen_in scope.now) around result tally.old tally.new
        (trees.each (name_tree name.now) (statement_tree body.now.value)) }
{
    let variable = variable_of(name, scope, tally);
    let Ok(body) = boxed_statement(body, alloc, scope, IN_LOOP, tally) else {
        return Err(AllocError);
    };
    Ok(Action::EachObject(variable, body))
}

// An `objectloop`, by what it goes over.
#[cycle(statement)]
fn traversal<'a>(
    body: &Box<Statement<'a>>,
    over: &Loop<'a>,
    alloc: Global,
    scope: &Scope<'_>,
    position: Position,
    tally: &mut Tally,
) -> Result<Action<'a>, AllocError>
    ensures { (around : _) → GivesAction (seen_in scope.now) around result tally.old tally.new
        (trees.loop_over position (loop_tree over.now) (statement_tree body.now.value)) }
{
    match over {
        Loop::All(name) => each(body, name, alloc, scope, tally),
        Loop::In(name, parent) => {
            let guard = Guard::In(variable_of(name, scope, tally));
            guarded(body, parent, alloc, scope, guard, IN_LOOP, position, tally)
        }
        Loop::Where(name, condition) => {
            let guard = Guard::Where(variable_of(name, scope, tally));
            guarded(
                body, condition, alloc, scope, guard, IN_LOOP, position, tally,
            )
        }
    }
}

// The cases of a `switch`.
#[cycle(statement)]
fn all_cases<'a>(
    given: &[(Vec<Range<'a>>, Vec<Statement<'a>>)],
    alloc: Global,
    scope: &Scope<'_>,
    around: Enclosure,
    tally: &mut Tally,
) -> Result<Vec<(Vec<Span>, Vec<Action<'a>>)>, AllocError>
    ensures { IfOk result (λ v. AreCases (seen_in scope.now) around given.now
        tally.old tally.new (map case_of v.items)) }
{
    let mut found = Vec::with_capacity(alloc, given.len())?;
    for c in given {
        let Ok(spans) = ranges(ranges_of(c), alloc, scope, tally) else {
            return Err(AllocError);
        };
        let Ok(body) = all_statements(body_of(c), alloc, scope, around, tally) else {
            return Err(AllocError);
        };
        found.push_reserved((spans, body));
    }
    Ok(found)
}

// The statements of `default`.
#[cycle(statement)]
fn otherwise<'a>(
    other: &Option<Vec<Statement<'a>>>,
    alloc: Global,
    scope: &Scope<'_>,
    around: Enclosure,
    tally: &mut Tally,
) -> Result<Option<Vec<Action<'a>>>, AllocError>
    ensures { IfOk result (λ x. IsOther (seen_in scope.now) around (other_tree other.now)
        tally.old tally.new (other_of x)) }
{
    match other {
        None => Ok(None),
        Some(all) => {
            let Ok(found) = all_statements(all, alloc, scope, around, tally) else {
                return Err(AllocError);
            };
            Ok(Some(found))
        }
    }
}

#[cycle(statement)]
fn switch_on<'a>(
    cases: &(
        Vec<(Vec<Range<'a>>, Vec<Statement<'a>>)>,
        Option<Vec<Statement<'a>>>,
    ),
    value: &Box<Expression<'a>>,
    alloc: Global,
    scope: &Scope<'_>,
    inside: Enclosure,
    position: Position,
    tally: &mut Tally,
) -> Result<Action<'a>, AllocError>
    ensures { (around : _) → inside ≡ in_switch around
        → GivesAction (seen_in scope.now) around result tally.old tally.new
        (trees.switch_on position (expression_tree value.now.value)
        (cases_of (map case_tree cases.now.0.items) (other_tree cases.now.1))) }
{
    let Ok(value) = boxed_whole(value, alloc, scope, position, tally) else {
        return Err(AllocError);
    };
    let Ok(found) = all_cases(&cases.0, alloc, scope, inside, tally) else {
        drop(value);
        return Err(AllocError);
    };
    let Ok(other) = otherwise(&cases.1, alloc, scope, inside, tally) else {
        drop(value);
        drop(found);
        return Err(AllocError);
    };
    let Ok(cases) = in_box((found, other), alloc) else {
        drop(value);
        return Err(AllocError);
    };
    Ok(Action::Switch(value, cases))
}
