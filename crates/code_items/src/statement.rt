//! Statements as items.

ghost use Rattle.std.specs.Prelude.{◌≡◌, ◌-◌, [], ◌∷◌, true, false, map, IfOk, OnOk};
ghost use Rattle.std.specs.Option.{option_map};
ghost use Rattle.meaning.specs.Resolved.{block, if_then, if_else, while_do, do_until, for_loop, switch_on};
ghost use Rattle.meaning.specs.Resolved.{return_value, give_to, move_to, remove_from, each_object, each_where, each_in};
ghost use Rattle.meaning.specs.Resolved.{text_alone, print_return};
ghost use Rattle.meaning.specs.Views.{value_of, printed_of, action_of, actions_of, case_of, cases_of, other_of};
ghost use Rattle.meaning.specs.Views.{boxed_value};
ghost use Rattle.code_drafts.specs.Code.{as_operand};
ghost use Rattle.code_drafts.specs.Items.{new_line};
ghost use Rattle.code_drafts.specs.Items as definitions;
ghost use Rattle.code_drafts.specs.Writing.{Writes};
ghost use Rattle.code_items.specs.Statements.{return_true, printed_items, relative_items};
ghost use Rattle.code_items.specs.Writing.{WritesAction, WritesPrinted, WritesTaken, WritesCases};
ghost use Rattle.code_items.specs.Writing.{LeavesCases, PutsNext};

use crate::cases::{put_over, put_tests};
use crate::exits::Exits;
use crate::heading::{put_once, put_test};
use crate::value::{put_operand, put_value};
use code_drafts::{
    Destination, Draft, Item, Operand, Wanted, alone, is_one_test, item_count, lead_back, left_of,
    put, put_branch, turn_back,
};
use meaning::{Action, Printed, Span, Value, Variable};
use std::alloc::AllocError;
use syntax_trees::Relative;

/// The items of statements, one after another.
#[cycle(statements)]
pub fn put_statements<'a>(
    draft: &mut Draft<'a>,
    exits: Exits,
    statements: &[Action<'a>],
) -> Result<(), AllocError>
    ensures { OnOk result (WritesAction draft.old draft.new exits
        (block (actions_of (map action_of statements.now)))) }
{
    for done in 0..statements.len() {
        let statement = &statements[statements.len() - 1 - done];
        let Ok(()) = put_statement(draft, exits, statement) else {
            return Err(AllocError);
        };
    }
    Ok(())
}

/// The items of a statement.
#[cycle(statements)]
fn put_statement<'a>(
    draft: &mut Draft<'a>,
    exits: Exits,
    statement: &Action<'a>,
) -> Result<(), AllocError>
    ensures { OnOk result (WritesAction draft.old draft.new exits (action_of statement.now)) }
{
    match statement {
        Action::Empty => Ok(()),
        Action::Block(statements) => put_statements(draft, exits, statements),
        Action::Text(text) => put_text(draft, text),
        Action::Print(items) => put_prints(draft, items),
        Action::PrintReturn(items) => put_print_return(draft, items),
        Action::NewLine => put(draft, Item::NewLine),
        Action::If(test, then) => put_if(draft, exits, then, test),
        Action::IfElse(test, then, otherwise) => put_if_else(draft, exits, then, otherwise, test),
        Action::While(test, body) => put_while(draft, body, test),
        Action::Do(body, test) => put_do(draft, body, test),
        Action::For(before, test, after, body) => put_for(draft, body, before, test, after),
        Action::Switch(value, cases) => put_switch(draft, exits, cases, value),
        Action::Break => put(draft, Item::Jump(exits.breaks)),
        Action::Continue => put(draft, Item::Jump(exits.continues)),
        Action::ReturnValue(value) => put_return(draft, value),
        Action::Read(text, parse) => put(draft, Item::Read(*text, *parse)),
        Action::Give(object, changes) => put_give(draft, object, changes),
        Action::Move(object, into) => put_move(draft, object, into),
        Action::Remove(object) => put_remove(draft, object),
        Action::EachObject(variable, body) => put_each(draft, body, *variable),
        Action::EachWhere(variable, test, body) => put_each_where(draft, body, *variable, test),
        Action::EachIn(variable, parent, body) => put_each_in(draft, body, *variable, parent),
        Action::Quit => put(draft, Item::Quit),
        Action::Effect(value) => put_value(draft, value, Wanted::Word(Destination::Nowhere)),
    }
}

/// A text alone: it is printed with a new line, and the routine returns true.
fn put_text<'a>(draft: &mut Draft<'a>, text: &'a [u8]) -> Result<(), AllocError>
    ensures { OnOk result ((x : _) → WritesAction draft.old draft.new x
        (text_alone text.entry.now)) }
{
    let Ok(()) = put_end_of_line(draft) else {
        return Err(AllocError);
    };
    put(draft, Item::PrintText(text))
}

/// `print_ret`.
fn put_print_return<'a>(draft: &mut Draft<'a>, items: &[Printed<'a>]) -> Result<(), AllocError>
    ensures { OnOk result ((x : _) → WritesAction draft.old draft.new x
        (print_return (map printed_of items.now))) }
{
    let Ok(()) = put_end_of_line(draft) else {
        return Err(AllocError);
    };
    put_prints(draft, items)
}

/// `if` without `else`: a branch over what the test guards.
#[cycle(statements)]
#[tactic(auto, using(crate::proofs::Actions::if_more))]
fn put_if<'a>(
    draft: &mut Draft<'a>,
    exits: Exits,
    then: &Action<'a>,
    test: &Value,
) -> Result<(), AllocError>
    ensures { OnOk result (WritesAction draft.old draft.new exits
        (if_then (value_of test.now) (action_of then.now))) }
{
    let end = item_count(draft);
    let Ok(()) = put_statement(draft, exits, then) else {
        return Err(AllocError);
    };
    put_value(draft, test, Wanted::Branch(false, end))
}

/// `if` with `else`: a branch to what stands after `else`, and after what the test guards a jump
/// over that.
#[cycle(statements)]
#[tactic(auto, using(crate::proofs::Actions::else_more))]
fn put_if_else<'a>(
    draft: &mut Draft<'a>,
    exits: Exits,
    then: &Action<'a>,
    otherwise: &Action<'a>,
    test: &Value,
) -> Result<(), AllocError>
    ensures { OnOk result (WritesAction draft.old draft.new exits
        (if_else (value_of test.now) (action_of then.now) (action_of otherwise.now))) }
{
    let end = item_count(draft);
    let Ok(()) = put_statement(draft, exits, otherwise) else {
        return Err(AllocError);
    };
    let next = item_count(draft);
    let Ok(()) = put(draft, Item::Jump(end)) else {
        return Err(AllocError);
    };
    let Ok(()) = put_statement(draft, exits, then) else {
        return Err(AllocError);
    };
    put_value(draft, test, Wanted::Branch(false, next))
}

/// `while`: after what the test guards it goes back to the test.
#[cycle(statements)]
#[tactic(auto, using(crate::proofs::Actions::while_more))]
fn put_while<'a>(draft: &mut Draft<'a>, body: &Action<'a>, test: &Value) -> Result<(), AllocError>
    ensures { OnOk result ((x : _) → WritesAction draft.old draft.new x
        (while_do (value_of test.now) (action_of body.now))) }
{
    let after = item_count(draft);
    let Ok(()) = put(draft, Item::Back(0)) else {
        return Err(AllocError);
    };
    let within = Exits {
        breaks: after,
        continues: item_count(draft),
    };
    let Ok(()) = put_statement(draft, within, body) else {
        return Err(AllocError);
    };
    let Ok(()) = put_value(draft, test, Wanted::Branch(false, after)) else {
        return Err(AllocError);
    };
    lead_back(draft, after);
    Ok(())
}

/// `do`: the test goes back to the body where it is false.
#[cycle(statements)]
fn put_do<'a>(draft: &mut Draft<'a>, body: &Action<'a>, test: &Value) -> Result<(), AllocError>
    ensures { OnOk result ((x : _) → WritesAction draft.old draft.new x
        (do_until (action_of body.now) (value_of test.now))) }
{
    if is_one_test(test) {
        put_do_by_test(draft, body, test)
    } else {
        put_do_by_jump(draft, body, test)
    }
}

/// `do` whose condition one test decides: that leads back itself.
#[cycle(statements)]
fn put_do_by_test<'a>(
    draft: &mut Draft<'a>,
    body: &Action<'a>,
    test: &Value,
) -> Result<(), AllocError>
    requires { definitions.is_one_test (value_of test.now) ≡ true }
    ensures { OnOk result ((x : _) → WritesAction draft.old draft.new x
        (do_until (action_of body.now) (value_of test.now))) }
{
    let end = item_count(draft);
    let Ok(()) = put_value(draft, test, Wanted::Branch(true, end)) else {
        return Err(AllocError);
    };
    let inside = Exits {
        breaks: end,
        continues: item_count(draft),
    };
    let Ok(()) = put_statement(draft, inside, body) else {
        return Err(AllocError);
    };
    turn_back(draft, end);
    Ok(())
}

/// `do` with another condition: that leads out over a jump back.
#[cycle(statements)]
fn put_do_by_jump<'a>(
    draft: &mut Draft<'a>,
    body: &Action<'a>,
    test: &Value,
) -> Result<(), AllocError>
    requires { definitions.is_one_test (value_of test.now) ≡ false }
    ensures { OnOk result ((x : _) → WritesAction draft.old draft.new x
        (do_until (action_of body.now) (value_of test.now))) }
{
    let end = item_count(draft);
    let Ok(()) = put(draft, Item::Back(0)) else {
        return Err(AllocError);
    };
    let Ok(()) = put_value(draft, test, Wanted::Branch(true, end)) else {
        return Err(AllocError);
    };
    let inside = Exits {
        breaks: end,
        continues: item_count(draft),
    };
    let Ok(()) = put_statement(draft, inside, body) else {
        return Err(AllocError);
    };
    lead_back(draft, end);
    Ok(())
}

/// `for`: after the body and what is done after each round it goes back to the test.
#[cycle(statements)]
fn put_for<'a>(
    draft: &mut Draft<'a>,
    body: &Action<'a>,
    before: &Option<Box<Value>>,
    test: &Option<Box<Value>>,
    after: &Option<Box<Value>>,
) -> Result<(), AllocError>
    ensures { OnOk result ((x : _) → WritesAction draft.old draft.new x
        (for_loop (option_map boxed_value before.now) (option_map boxed_value test.now)
        (option_map boxed_value after.now) (action_of body.now))) }
{
    let end = item_count(draft);
    let Ok(()) = put(draft, Item::Back(0)) else {
        return Err(AllocError);
    };
    let Ok(()) = put_once(draft, after) else {
        return Err(AllocError);
    };
    let inside = Exits {
        breaks: end,
        continues: item_count(draft),
    };
    let Ok(()) = put_statement(draft, inside, body) else {
        return Err(AllocError);
    };
    let Ok(()) = put_test(draft, test, end) else {
        return Err(AllocError);
    };
    lead_back(draft, end);
    put_once(draft, before)
}

/// `objectloop` over all objects.
#[cycle(statements)]
fn put_each<'a>(
    draft: &mut Draft<'a>,
    body: &Action<'a>,
    variable: Variable,
) -> Result<(), AllocError>
    ensures { OnOk result ((x : _) → WritesAction draft.old draft.new x
        (each_object variable (action_of body.now))) }
{
    let end = item_count(draft);
    let Ok(inside) = put_next(draft, variable) else {
        return Err(AllocError);
    };
    let Ok(()) = put_statement(draft, inside, body) else {
        return Err(AllocError);
    };
    lead_back(draft, end);
    put(draft, Item::FirstObject(variable, end))
}

/// `objectloop` over the objects for which a condition holds.
#[cycle(statements)]
fn put_each_where<'a>(
    draft: &mut Draft<'a>,
    body: &Action<'a>,
    variable: Variable,
    test: &Value,
) -> Result<(), AllocError>
    ensures { OnOk result ((x : _) → WritesAction draft.old draft.new x
        (each_where variable (value_of test.now) (action_of body.now))) }
{
    let end = item_count(draft);
    let Ok(inside) = put_next(draft, variable) else {
        return Err(AllocError);
    };
    let Ok(()) = put_statement(draft, inside, body) else {
        return Err(AllocError);
    };
    let Ok(()) = put_value(draft, test, Wanted::Branch(false, inside.continues)) else {
        return Err(AllocError);
    };
    lead_back(draft, end);
    put(draft, Item::FirstObject(variable, end))
}

/// `objectloop` over the children of an object.
#[cycle(statements)]
fn put_each_in<'a>(
    draft: &mut Draft<'a>,
    body: &Action<'a>,
    variable: Variable,
    parent: &Value,
) -> Result<(), AllocError>
    ensures { OnOk result ((x : _) → WritesAction draft.old draft.new x
        (each_in variable (value_of parent.now) (action_of body.now))) }
{
    let end = item_count(draft);
    let Ok(()) = put(draft, Item::Back(0)) else {
        return Err(AllocError);
    };
    let Ok(()) = put_kin(
        draft,
        Relative::Sibling,
        Operand::Variable(variable),
        variable,
        end,
    ) else {
        return Err(AllocError);
    };
    let inside = Exits {
        breaks: end,
        continues: item_count(draft),
    };
    let Ok(()) = put_statement(draft, inside, body) else {
        return Err(AllocError);
    };
    lead_back(draft, end);
    let operand = alone(parent);
    let Ok(()) = put_kin(draft, Relative::Child, operand, variable, end) else {
        return Err(AllocError);
    };
    put_operand(draft, parent, operand)
}

/// `switch`: its word is put aside, and its cases follow, and the statements of its `default`.
#[cycle(statements)]
fn put_switch<'a>(
    draft: &mut Draft<'a>,
    exits: Exits,
    cases: &(Vec<(Vec<Span>, Vec<Action<'a>>)>, Option<Vec<Action<'a>>>),
    value: &Value,
) -> Result<(), AllocError>
    ensures { OnOk result (WritesAction draft.old draft.new exits (switch_on (value_of value.now)
        (cases_of (map case_of cases.now.0.items) (other_of cases.now.1)))) }
{
    let end = item_count(draft);
    let inside = Exits {
        breaks: end,
        continues: exits.continues,
    };
    let Ok(()) = put_other(draft, inside, &cases.1) else {
        return Err(AllocError);
    };
    let Ok(()) = put_cases(draft, inside, &cases.0, end) else {
        return Err(AllocError);
    };
    put_value(draft, value, Wanted::Word(Destination::Aside))
}

/// The statements of `default`.
#[cycle(statements)]
fn put_other<'a>(
    draft: &mut Draft<'a>,
    exits: Exits,
    other: &Option<Vec<Action<'a>>>,
) -> Result<(), AllocError>
    ensures { OnOk result ((end : _) → WritesCases draft.old draft.new exits
        (cases_of [] (other_of other.now)) end) }
{
    match other {
        None => Ok(()),
        Some(statements) => put_statements(draft, exits, statements),
    }
}

/// The cases of a `switch` of which the end leaves so many items, before what is written of it.
#[cycle(statements)]
fn put_cases<'a>(
    draft: &mut Draft<'a>,
    exits: Exits,
    cases: &[(Vec<Span>, Vec<Action<'a>>)],
    end: usize,
) -> Result<(), AllocError>
    ensures { OnOk result (LeavesCases draft.old draft.new exits cases.now end) }
{
    for done in 0..cases.len() {
        let Ok(()) = put_case(draft, exits, &cases[cases.len() - 1 - done], end) else {
            return Err(AllocError);
        };
    }
    Ok(())
}

/// A case: its tests, its statements, and the way over what is written of the `switch`.
#[cycle(statements)]
fn put_case<'a>(
    draft: &mut Draft<'a>,
    exits: Exits,
    case: &(Vec<Span>, Vec<Action<'a>>),
    end: usize,
) -> Result<(), AllocError>
    ensures { OnOk result (LeavesCases draft.old draft.new exits (case.now ∷ []) end) }
{
    let after = item_count(draft);
    let Ok(()) = put_over(draft, end) else {
        return Err(AllocError);
    };
    let Ok(()) = put_statements(draft, exits, &case.1) else {
        return Err(AllocError);
    };
    let inside = item_count(draft);
    put_tests(draft, &case.0, inside, after)
}

/// After a round of an `objectloop` over all objects: the next object, and back. Where the body
/// leads.
fn put_next(draft: &mut Draft<'_>, variable: Variable) -> Result<Exits, AllocError>
    ensures { IfOk result (λ exits. PutsNext draft.old draft.new variable exits) }
{
    let end = item_count(draft);
    let Ok(()) = put(draft, Item::Back(0)) else {
        return Err(AllocError);
    };
    let Ok(()) = put(draft, Item::NextObject(variable, end)) else {
        return Err(AllocError);
    };
    Ok(Exits {
        breaks: end,
        continues: item_count(draft),
    })
}

/// A variable gets a relative of an object, or the loop ends, of which the end leaves so many
/// items.
fn put_kin(
    draft: &mut Draft<'_>,
    relation: Relative,
    object: Operand,
    variable: Variable,
    end: usize,
) -> Result<(), AllocError>
    ensures { OnOk result (Writes draft.old draft.new
        (λ n at. relative_items relation (as_operand object) variable (n - end))) }
{
    let Ok(()) = put_branch(draft, Operand::Pushed, false, end) else {
        return Err(AllocError);
    };
    let Ok(()) = put(draft, Item::Keep(variable)) else {
        return Err(AllocError);
    };
    let Ok(()) = put(draft, Item::Relative(relation, object, Destination::Push)) else {
        return Err(AllocError);
    };
    Ok(())
}

/// `give`: the object, and then its attributes.
fn put_give(
    draft: &mut Draft<'_>,
    object: &Value,
    changes: &[(bool, usize)],
) -> Result<(), AllocError>
    ensures { OnOk result ((x : _) → WritesAction draft.old draft.new x
        (give_to (value_of object.now) changes.now)) }
{
    let operand = alone(object);
    let mut given = Vec::new(draft.alloc);
    let Ok(()) = given.extend_from_slice(changes) else {
        return Err(AllocError);
    };
    let Ok(()) = put_after(draft, object, operand, Item::Give(operand, given)) else {
        return Err(AllocError);
    };
    Ok(())
}

/// `move`: both objects, and then the first goes into the second.
fn put_move(draft: &mut Draft<'_>, object: &Value, into: &Value) -> Result<(), AllocError>
    ensures { OnOk result ((x : _) → WritesAction draft.old draft.new x
        (move_to (value_of object.now) (value_of into.now))) }
{
    let left = left_of(object, into);
    let right = alone(into);
    let Ok(()) = put_after(draft, into, right, Item::MoveObject(left, right)) else {
        return Err(AllocError);
    };
    put_operand(draft, object, left)
}

fn put_remove(draft: &mut Draft<'_>, object: &Value) -> Result<(), AllocError>
    ensures { OnOk result ((x : _) → WritesAction draft.old draft.new x
        (remove_from (value_of object.now))) }
{
    let operand = alone(object);
    let Ok(()) = put_after(draft, object, operand, Item::RemoveObject(operand)) else {
        return Err(AllocError);
    };
    Ok(())
}

#[tactic(auto, using(crate::proofs::Actions::return_more))]
fn put_return(draft: &mut Draft<'_>, value: &Value) -> Result<(), AllocError>
    ensures { OnOk result ((x : _) → WritesAction draft.old draft.new x
        (return_value (value_of value.now))) }
{
    let operand = alone(value);
    let Ok(()) = put_after(draft, value, operand, Item::Return(operand)) else {
        return Err(AllocError);
    };
    Ok(())
}

/// An item that takes the word of an expression alone, and what pushes that.
#[tactic(auto, using(crate::proofs::Actions::after_more))]
fn put_after<'a>(
    draft: &mut Draft<'a>,
    value: &Value,
    operand: Operand,
    item: Item<'a>,
) -> Result<(), AllocError>
    ensures { OnOk result (WritesTaken draft.old draft.new operand item.entry value.now) }
{
    let Ok(()) = put(draft, item) else {
        return Err(AllocError);
    };
    let Ok(()) = put_operand(draft, value, operand) else {
        return Err(AllocError);
    };
    Ok(())
}

/// The items of what `print` prints, from left to right.
fn put_prints<'a>(draft: &mut Draft<'a>, items: &[Printed<'a>]) -> Result<(), AllocError>
    ensures { OnOk result (WritesPrinted draft.old draft.new items.now) }
{
    for done in 0..items.len() {
        let Ok(()) = put_printed(draft, &items[items.len() - 1 - done]) else {
            return Err(AllocError);
        };
    }
    Ok(())
}

fn put_printed<'a>(draft: &mut Draft<'a>, item: &Printed<'a>) -> Result<(), AllocError>
    ensures { OnOk result (Writes draft.old draft.new
        (λ n at. printed_items at (printed_of item.now))) }
{
    match item {
        Printed::Text(text) => {
            let Ok(()) = put(draft, Item::PrintText(text)) else {
                return Err(AllocError);
            };
        }
        Printed::Character(value) => {
            let operand = alone(value);
            let Ok(()) = put_after(draft, value, operand, Item::PrintCharacter(operand)) else {
                return Err(AllocError);
            };
        }
        Printed::Number(value) => {
            let operand = alone(value);
            let Ok(()) = put_after(draft, value, operand, Item::PrintNumber(operand)) else {
                return Err(AllocError);
            };
        }
        Printed::Name(value) => {
            let operand = alone(value);
            let Ok(()) = put_after(draft, value, operand, Item::PrintName(operand)) else {
                return Err(AllocError);
            };
        }
    }
    Ok(())
}

/// A new line, and the routine returns true.
#[tactic(auto, using(crate::proofs::Actions::end_more))]
fn put_end_of_line(draft: &mut Draft<'_>) -> Result<(), AllocError>
    ensures { OnOk result (Writes draft.old draft.new (λ n at. new_line ∷ return_true ∷ [])) }
{
    let Ok(()) = put(draft, Item::Return(Operand::Number(1))) else {
        return Err(AllocError);
    };
    let Ok(()) = put(draft, Item::NewLine) else {
        return Err(AllocError);
    };
    Ok(())
}
