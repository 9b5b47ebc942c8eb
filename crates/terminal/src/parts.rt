//! What both command lines are made of.

ghost use Rattle.std.specs.Prelude.{◌≡◌, IfOk};
ghost use Rattle.terminal.specs.Arguments.{HasNoArgument};
ghost use Rattle.terminal.specs.Rows.{AddsOfRow, AreOfRows, IsOfRow, parser_of};

use clap::builder::ValueParser;
use clap::{Arg, ArgAction, Command};
use std::alloc::{AllocError, Global};

/// The version of both programs.
const VERSION: &str = "2.7.0";

/// How an argument is written.
#[derive(Clone, Copy)]
pub(crate) enum Form {
    /// With two hyphens, and its name.
    Long,

    /// With one hyphen, and this letter.
    Short(char),

    /// Without a hyphen, in its place.
    Place,
}

/// What the value of an argument has to be.
#[derive(Clone, Copy)]
pub(crate) enum Value {
    /// There is none: the argument is given or not.
    Nothing,

    /// Any text.
    Text,

    /// A number from the first to the second.
    Number(i64, i64),
}

/// An argument of a command line.
#[derive(Clone, Copy)]
pub(crate) struct Row {
    /// Its name.
    pub name: &'static str,

    /// How it is written.
    pub form: Form,

    /// What a value has to be.
    pub value: Value,

    /// What the help calls a value, if there is one.
    pub called: &'static [&'static str],

    /// What the help says.
    pub help: &'static str,

    /// The least number of values.
    pub least: usize,

    /// The greatest number of values.
    pub most: usize,

    /// Whether a value follows the name at once, after `=`.
    pub has_equals: bool,

    /// Whether it has to be given.
    pub is_required: bool,

    /// Whether it may be given more than once.
    pub is_repeated: bool,

    /// Whether no other argument may be given.
    pub is_alone: bool,

    /// The arguments beside which it may not be given.
    pub excludes: &'static [&'static str],

    /// The arguments that have to be given beside it.
    pub needs: &'static [&'static str],

    /// The arguments of which one has to be given in its place.
    pub replaced: &'static [&'static str],

    /// Whether a user at a terminal need not give these, and those that it needs.
    pub is_free_at_terminal: bool,
}

/// What options without a value have in common.
pub(crate) const FLAG: Row = Row {
    name: "",
    form: Form::Long,
    value: Value::Nothing,
    called: &[],
    help: "",
    least: 0,
    most: 0,
    has_equals: false,
    is_required: false,
    is_repeated: false,
    is_alone: false,
    excludes: &[],
    needs: &[],
    replaced: &[],
    is_free_at_terminal: false,
};

/// What options with a value have in common.
pub(crate) const OPTION: Row = Row {
    value: Value::Text,
    least: 1,
    most: 1,
    ..FLAG
};

/// What options have in common that explain one name, or list all names. No other argument may be given.
pub(crate) const EXPLAIN: Row = Row {
    name: "explain",
    called: &["NAME"],
    least: 0,
    is_alone: true,
    ..OPTION
};

/// What arguments have in common that have a place.
pub(crate) const PLACE: Row = Row {
    form: Form::Place,
    ..OPTION
};

/// A program of a name, without its arguments: what the help says of it, and how the help ends.
pub(crate) fn program<'a>(alloc: Global, name: &'a str, about: &'a str, end: &'a str) -> Command<'a>
    ensures { HasNoArgument result }
{
    Command::new(alloc, name)
        .version(VERSION)
        .about(about)
        .after_help(end)
}

/// The arguments of all rows, for a user at a terminal or not.
///
/// # Errors
///
/// Memory was refused.
pub(crate) fn arguments_of<'a>(
    alloc: Global,
    rows: &[Row],
    is_seen: bool,
) -> Result<Vec<Arg<'a>>, AllocError>
    ensures { IfOk result (λ arguments. AreOfRows rows.now arguments.items) }
{
    let mut arguments = Vec::with_capacity(alloc, rows.len())?;
    for row in rows {
        add_argument(&mut arguments, alloc, row, is_seen)?;
    }
    Ok(arguments)
}

/// Adds the argument of a row.
///
/// # Errors
///
/// Memory was refused.
fn add_argument<'a>(
    arguments: &mut Vec<Arg<'a>>,
    alloc: Global,
    row: &Row,
    is_seen: bool,
) -> Result<(), AllocError>
    ensures { IfOk result (λ _. AddsOfRow row.now arguments.old.items arguments.new.items) }
{
    arguments.reserve(1)?;
    let argument = argument_of(alloc, row, is_seen)?;
    arguments.push_reserved(argument);
    Ok(())
}

/// The argument of a row.
///
/// # Errors
///
/// Memory was refused.
fn argument_of<'a>(alloc: Global, row: &Row, is_seen: bool) -> Result<Arg<'a>, AllocError>
    ensures { IfOk result (IsOfRow row.now) }
{
    let argument = describe(alloc, row).conflicts_with_all(row.excludes)?;
    if is_seen && row.is_free_at_terminal {
        return Ok(argument);
    }
    let argument = argument.requires_all(row.needs)?;
    argument.required_unless_present_any(row.replaced)
}

/// The argument of a row, without the others that it names.
fn describe<'a>(alloc: Global, row: &Row) -> Arg<'a>
    ensures { IsOfRow row.now result }
{
    let argument = Arg::new(alloc, row.name)
        .help(row.help)
        .value_names(row.called)
        .num_args(row.least..=row.most)
        .require_equals(row.has_equals)
        .value_parser(parser_of(row.value))
        .action(action_of(row.value, row.is_repeated))
        .required(row.is_required)
        .exclusive(row.is_alone);
    match row.form {
        Form::Long => argument.long(row.name),
        Form::Short(letter) => argument.short(letter),
        Form::Place => argument,
    }
}

/// What `clap` does with a value of an argument that may be given more than once or not.
fn action_of(value: Value, is_repeated: bool) -> ArgAction {
    match value {
        Value::Nothing => ArgAction::SetTrue,
        Value::Text | Value::Number(_, _) if is_repeated => ArgAction::Append,
        Value::Text | Value::Number(_, _) => ArgAction::Set,
    }
}

/// How `clap` tests a value.
fn parser_of<'a>(value: Value) -> ValueParser<'a>
    ensures { result ≡ parser_of value }
{
    match value {
        Value::Nothing => ValueParser::bool(),
        Value::Text => ValueParser::string(),
        Value::Number(least, most) => ValueParser::signed(least, most),
    }
}
