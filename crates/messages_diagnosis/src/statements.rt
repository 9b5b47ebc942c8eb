//! The statements of a program, and those inside them: what each needs.

ghost use Rattle.std.specs.Prelude.{◌≡◌, ◌≤◌, map};
ghost use Rattle.std.specs.List.{All, flat_map};
ghost use Rattle.syntax_statements.specs.PartViews.{item_tree, loop_tree};
ghost use Rattle.syntax_statements.specs.Views.{statement_tree, simple_tree, case_tree, other_tree};
ghost use Rattle.syntax_statements.specs.Views.{cases_of};
ghost use Rattle.syntax_directives.specs.Views.{directive_tree};
ghost use Rattle.syntax.specs.Views.{program_tree};
ghost use Rattle.messages_diagnosis.specs.Needs.{HasFew, IsFirstGreatest, directive_needs};
ghost use Rattle.messages_diagnosis.specs.Needs.{first_at, item_needs, program_needs};
ghost use Rattle.messages_diagnosis.specs.Needs.{statement_needs, cases_needs};
ghost use Rattle.messages_diagnosis.specs.Walk.{loop_needs, other_needs, own_case_needs};
ghost use Rattle.messages_diagnosis.specs.Walk.{own_directive_needs, own_item_needs, own_needs};
ghost use Rattle.messages_diagnosis.specs.Walk.{raised_all};

use crate::needs::{of_heading, of_move, whole};
use crate::sought::{Sought, Temporaries};
use meaning::limits::MOST_TEMPORARIES;
use syntax::{Directive, Program};
use syntax_lexer::Position;
use syntax_statements::{Loop, PrintItem, Range, SimpleStatement, Statement};

#[tactic(auto, using(crate::proofs::Raising::raised_none))]
fn item(printed: &PrintItem<'_>, sought: &mut Sought)
    ensures { sought.new ≡ raised_all sought.old (item_needs (item_tree printed.now)) }
{
    match printed {
        PrintItem::Text(_) => {}
        PrintItem::Character(position, e) => whole(e, *position, sought),
        PrintItem::Object(position, e) => whole(e, *position, sought),
        PrintItem::Number(position, e) => whole(e, *position, sought),
    }
}

#[tactic(auto, using(crate::proofs::Each::each_next, crate::proofs::Each::each_end))]
fn items(printed: &[PrintItem<'_>], sought: &mut Sought)
    ensures { sought.new ≡ raised_all sought.old (flat_map own_item_needs printed.now) }
{
    for x in printed {
        item(x, sought);
    }
}

#[tactic(auto, using(crate::proofs::Raising::raised_none, crate::proofs::Each::items_need))]
fn simple(s: &SimpleStatement<'_>, sought: &mut Sought)
    ensures { sought.new ≡ raised_all sought.old (statement_needs (simple_tree s.now)) }
{
    match s {
        SimpleStatement::Text(_) => {}
        SimpleStatement::Print(all) => items(all, sought),
        SimpleStatement::PrintReturn(all) => items(all, sought),
        SimpleStatement::NewLine => {}
        SimpleStatement::Break(_) => {}
        SimpleStatement::Continue(_) => {}
        SimpleStatement::Return => {}
        SimpleStatement::ReturnValue(position, e) => whole(e, *position, sought),
        SimpleStatement::ReturnTrue => {}
        SimpleStatement::ReturnFalse => {}
        SimpleStatement::Quit => {}
        SimpleStatement::Read(_) => {}
        SimpleStatement::Give(position, e, _) => whole(e, *position, sought),
        SimpleStatement::Move(position, object, parent) => {
            of_move(object, parent, *position, sought);
        }
        SimpleStatement::Remove(position, e) => whole(e, *position, sought),
        SimpleStatement::Effect(position, e) => whole(e, *position, sought),
    }
}

// What stands in the parentheses of an `objectloop` that begins at this position.
#[tactic(auto, using(crate::proofs::Raising::raised_none))]
fn of_loop(over: &Loop<'_>, position: Position, sought: &mut Sought)
    ensures { sought.new ≡ raised_all sought.old (loop_needs position (loop_tree over.now)) }
{
    match over {
        Loop::All(_) => {}
        Loop::In(_, parent) => whole(parent, position, sought),
        Loop::Where(_, condition) => whole(condition, position, sought),
    }
}

#[cycle(statement)]
fn statement<'a>(s: &Statement<'a>, sought: &mut Sought)
    ensures { sought.new ≡ raised_all sought.old (statement_needs (statement_tree s.now)) }
{
    match s {
        Statement::Empty => {}
        Statement::Simple(plain) => simple(plain, sought),
        Statement::Block(all) => sequence(all, sought),
        Statement::If(position, condition, then) => {
            whole(condition, *position, sought);
            statement(then, sought);
        }
        Statement::IfElse(position, condition, then, otherwise) => {
            whole(condition, *position, sought);
            statement(then, sought);
            statement(otherwise, sought);
        }
        Statement::While(position, condition, body) => {
            whole(condition, *position, sought);
            statement(body, sought);
        }
        Statement::Do(position, body, condition) => {
            whole(condition, *position, sought);
            statement(body, sought);
        }
        Statement::For(position, heading, body) => {
            of_heading(heading, *position, sought);
            statement(body, sought);
        }
        Statement::Objectloop(position, over, body) => {
            of_loop(over, *position, sought);
            statement(body, sought);
        }
        Statement::Switch(position, value, cases) => {
            whole(value, *position, sought);
            choices(cases, sought);
        }
    }
}

#[cycle(statement)]
fn sequence<'a>(all: &[Statement<'a>], sought: &mut Sought)
    ensures { sought.new ≡ raised_all sought.old (flat_map own_needs all.now) }
{
    for s in all {
        statement(s, sought);
    }
}

// The cases of a `switch`, and the statements of its `default`.
#[cycle(statement)]
fn choices<'a>(
    cases: &(
        Vec<(Vec<Range<'a>>, Vec<Statement<'a>>)>,
        Option<Vec<Statement<'a>>>,
    ),
    sought: &mut Sought,
)
    ensures { sought.new ≡ raised_all sought.old
        (cases_needs (cases_of (map case_tree cases.now.0.items) (other_tree cases.now.1))) }
{
    all_cases(&cases.0, sought);
    otherwise_of(&cases.1, sought);
}

#[cycle(statement)]
fn all_cases<'a>(cases: &[(Vec<Range<'a>>, Vec<Statement<'a>>)], sought: &mut Sought)
    ensures { sought.new ≡ raised_all sought.old (flat_map own_case_needs cases.now) }
{
    for case in cases {
        sequence(&case.1, sought);
    }
}

// The statements of `default`.
#[cycle(statement)]
fn otherwise_of<'a>(other: &Option<Vec<Statement<'a>>>, sought: &mut Sought)
    ensures { sought.new ≡ raised_all sought.old (other_needs (other_tree other.now)) }
{
    match other {
        None => {}
        Some(all) => sequence(all, sought),
    }
}

#[tactic(auto, using(crate::proofs::Raising::raised_none, crate::proofs::Each::statements_need))]
fn directive(directive: &Directive<'_>, sought: &mut Sought)
    ensures { sought.new ≡ raised_all sought.old
        (directive_needs (directive_tree directive.now)) }
{
    match directive {
        Directive::Global(_, _) => {}
        Directive::Constant(_, _) => {}
        Directive::Array(_) => {}
        Directive::Attribute(_) => {}
        Directive::Property(_, _) => {}
        Directive::Object(_) => {}
        Directive::Routine(routine) => sequence(&routine.body, sought),
    }
}

#[tactic(auto, using(crate::proofs::Each::each_next, crate::proofs::Each::each_end))]
fn definitions(all: &[Directive<'_>], sought: &mut Sought)
    ensures { sought.new ≡ raised_all sought.old (flat_map own_directive_needs all.now) }
{
    for definition in all {
        directive(definition, sought);
    }
}

/// The greatest number of temporaries that an expression of a program needs, and where the first
/// statement or item begins that needs so many; `None` where a program has no expression. More than
/// 48, with which a program is refused (E29), are told as 48.
pub fn greatest_temporaries(program: &Program<'_>) -> Option<Temporaries>
    ensures { All HasFew (program_needs (program_tree program.now))
        → IsFirstGreatest (program_needs (program_tree program.now)) result }
{
    let mut sought = Sought {
        most: MOST_TEMPORARIES,
        offset: None,
        found: None,
    };
    definitions(&program.directives, &mut sought);
    sought.found
}

/// How many temporaries the expression needs whose statement, or item of a `print`, begins at this
/// offset; 255 where it needs more. `None` where none begins there. Of several it is the first.
pub fn temporaries_at(program: &Program<'_>, offset: usize) -> Option<u8>
    ensures { result ≡ first_at offset (program_needs (program_tree program.now)) }
{
    let mut sought = Sought {
        most: u8::MAX,
        offset: Some(offset),
        found: None,
    };
    definitions(&program.directives, &mut sought);
    match sought.found {
        None => None,
        Some(found) => Some(found.number),
    }
}
