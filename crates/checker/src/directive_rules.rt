//! Directives: the rules that they can break, and what they resolve to.

ghost use Rattle.std.specs.Prelude.{◌≡◌, ◌%◌, ◌∷◌, [], ℕ, List, IfOk, OnOk, map, nat_le};
ghost use Rattle.std.specs.Prelude.{if◌then◌else◌};
ghost use Rattle.syntax_trees.specs.Views.{name_tree};
ghost use Rattle.syntax_directives.specs.Views.{optional_tree, object_tree, routine_tree, directive_tree};
ghost use Rattle.meaning.specs.Views.{object_of};
ghost use Rattle.checker_values.specs.Names.{in_table, local_from, first_table, no_counts};
ghost use Rattle.checker_values.specs.Breaches.{at};
ghost use Rattle.checker_values.specs.Noted.{noted};
ghost use Rattle.checker_values.specs.Scope.{file_in, seen_in, local_binding};
ghost use Rattle.checker_values.specs.Literals.{initial_value};
ghost use Rattle.checker_statements.specs.FirstListed.{first_listed};
ghost use Rattle.checker_statements.specs.Objects.{object_in};
ghost use Rattle.checker.specs.Resolving.{IsRoutineIn, IsRoutineOf, IsAdded, IsFound};
ghost use Rattle.checker.specs.Programs as spec;
ghost use Rattle.zcore.specs.Layout.{most_locals};
ghost use Rattle.syntax_lexer.specs.FaultNumbers.{too_many};

use checker_statements::{all_statements, array, definition_rule, object};
use checker_values::{
    Binding, File, Names, Scope, Table, Tally, constant_value, define, initial, note,
};
use indexmap::IndexMap;
use meaning::limits::{MOST_GLOBALS, MOST_OBJECTS, MOST_PROPERTIES};
use meaning::{Arrays, CheckedObject, CheckedRoutine, OUTSIDE};
use std::alloc::{AllocError, Global};
use syntax::{Directive, Literal, Object, Routine, Statement};
use syntax_lexer::{Position, TOO_MANY};
use syntax_trees::Name;
use zcore::layout::{ATTRIBUTE_COUNT, MOST_LOCALS};

#[tactic(auto, using(checker_values::proofs::Noted::noted_none))]
fn count_locals(number: usize, position: Position, tally: &mut Tally)
    ensures { tally.new ≡ noted tally.old
        (if nat_le most_locals number then at position too_many else []) }
{
    if number >= MOST_LOCALS {
        note(tally, TOO_MANY, position);
    }
}

// A table without names. The memory of one that had few, as routines have, is used again.
fn empty(table: &mut Table, alloc: Global)
    ensures { table.new.entries ≡ [] }
{
    if table.len() > MOST_LOCALS {
        *table = IndexMap::new(alloc);
    } else {
        table.clear();
    }
}

// The locals of a routine, by their keys, in place of those of another.
fn locals(
    names: &[Name<'_>],
    alloc: Global,
    table: &mut Table,
    tally: &mut Tally,
) -> Result<(), AllocError>
    ensures table { OnOk result ((key : List ℕ)
        → in_table table.new.entries key ≡ local_binding (local_from 0 (map name_tree names.now) key)) }
    ensures breaches { OnOk result (tally.new ≡ noted tally.old
        (spec.locals_breaches [] (map name_tree names.now))) }
{
    empty(table, alloc);
    for number in 0..names.len() {
        let name = names[number];
        definition_rule(name, table, tally);
        count_locals(number, name.position, tally);
        define(name, table, Binding::Local(number))?;
    }
    Ok(())
}

fn body_of<'r, 'a>(routine: &'r Routine<'a>) -> &'r [Statement<'a>]
    ensures { result.now ≡ routine.now.body.items }
{
    &routine.body
}

// A routine whose names this scope has.
fn routine_in<'a>(
    routine: &Routine<'a>,
    alloc: Global,
    scope: &Scope<'_>,
    tally: &mut Tally,
) -> Result<CheckedRoutine<'a>, AllocError>
    ensures { IfOk result (λ r. IsRoutineIn (seen_in scope.now) (routine_tree routine.now)
        tally.old tally.new r) }
{
    let name = routine.name;
    let locals = routine.locals.len();
    let weight = routine.weight;
    let body = all_statements(body_of(routine), alloc, scope, OUTSIDE, tally)?;
    Ok(CheckedRoutine {
        name,
        locals,
        body,
        weight,
    })
}

// A routine, whose locals are put into this table.
fn routine<'a>(
    routine: &Routine<'a>,
    alloc: Global,
    file: &File,
    table: &mut Table,
    tally: &mut Tally,
) -> Result<CheckedRoutine<'a>, AllocError>
    ensures { IfOk result (λ r. IsRoutineOf (file_in file.now) (routine_tree routine.now)
        tally.old tally.new r) }
{
    locals(&routine.locals, alloc, table, tally)?;
    let scope = Scope {
        file,
        locals: &*table,
    };
    routine_in(routine, alloc, &scope, tally)
}

/// What the directives of a file resolve to.
#[derive(Drop)]
pub struct ResolvedFile<'a> {
    /// What the global variables begin with, in order of definition.
    pub globals: Vec<u16>,

    /// What the arrays begin with.
    pub arrays: Arrays,

    /// The defaults of the properties, in order of definition.
    pub defaults: Vec<u16>,

    /// The objects in order of definition, still without their parents.
    pub objects: Vec<CheckedObject<'a>>,

    /// The routines in order of definition.
    pub routines: Vec<CheckedRoutine<'a>>,
}

// A name of a kind of which there may be so many.
#[tactic(auto, using(checker_values::proofs::Noted::noted_none))]
fn limit(name: Name<'_>, most: usize, before: usize, tally: &mut Tally)
    ensures { tally.new ≡ noted tally.old (spec.limit_breaches most before (name_tree name.entry)) }
{
    if before >= most {
        note(tally, TOO_MANY, name.position);
    }
}

fn global(
    name: Name<'_>,
    value: &Option<Literal<'_>>,
    file: &File,
    names: &Names,
    tally: &mut Tally,
) -> u16
    ensures value { result ≡ initial_value (file_in file.now) (optional_tree value.now) }
    ensures breaches { tally.new ≡ noted tally.old
        (spec.global_directive_breaches file.now.table.entries names.now.table.entries
        names.now.counts (name_tree name.entry) (optional_tree value.now)) }
{
    definition_rule(name, &names.table, tally);
    limit(name, MOST_GLOBALS, names.counts.globals, tally);
    initial(value, file, tally)
}

fn attribute(name: Name<'_>, names: &Names, tally: &mut Tally)
    ensures { tally.new ≡ noted tally.old
        (spec.attribute_directive_breaches names.now.table.entries names.now.counts
        (name_tree name.entry)) }
{
    definition_rule(name, &names.table, tally);
    limit(
        name,
        ATTRIBUTE_COUNT as usize,
        names.counts.attributes,
        tally,
    );
}

// The default of a property.
fn property(
    name: Name<'_>,
    value: &Option<Literal<'_>>,
    file: &File,
    names: &Names,
    tally: &mut Tally,
) -> u16
    ensures value { result ≡ initial_value (file_in file.now) (optional_tree value.now) % 65536 }
    ensures breaches { tally.new ≡ noted tally.old
        (spec.property_directive_breaches file.now.table.entries names.now.table.entries
        names.now.counts (name_tree name.entry) (optional_tree value.now)) }
{
    definition_rule(name, &names.table, tally);
    limit(name, MOST_PROPERTIES, names.counts.properties, tally);
    initial(value, file, tally)
}

fn defined_object<'a>(
    written: &Object<'a>,
    alloc: Global,
    file: &File,
    names: &Names,
    tally: &mut Tally,
) -> Result<CheckedObject<'a>, AllocError>
    ensures value { IfOk result (λ o. object_of o
        ≡ object_in (file_in file.now) (first_listed (object_tree written.now))) }
    ensures breaches { OnOk result (tally.new ≡ noted tally.old
        (spec.object_directive_breaches file.now.table.entries names.now.table.entries
        names.now.counts (object_tree written.now))) }
{
    definition_rule(written.name, &names.table, tally);
    limit(written.name, MOST_OBJECTS, names.counts.objects, tally);
    let made = object(written, alloc, file, tally)?;
    Ok(made)
}

// A directive that follows those of these names. The locals of a routine are put into a table.
fn directive<'a>(
    directive: &Directive<'a>,
    alloc: Global,
    file: &File,
    names: &Names,
    locals: &mut Table,
    found: &mut ResolvedFile<'a>,
    tally: &mut Tally,
) -> Result<(), AllocError>
    ensures added { OnOk result
        (IsAdded (file_in file.now) (directive_tree directive.now ∷ []) found.old found.new) }
    ensures breaches { OnOk result (tally.new ≡ noted tally.old
        (spec.directive_breaches file.now.table.entries names.now.table.entries names.now.counts
        (directive_tree directive.now))) }
{
    match directive {
        Directive::Global(name, value) => {
            found
                .globals
                .push(global(*name, value, file, names, tally))?;
            Ok(())
        }
        Directive::Constant(name, value) => {
            definition_rule(*name, &names.table, tally);
            constant_value(value, &file.table, &names.table, tally);
            Ok(())
        }
        Directive::Array(written) => {
            definition_rule(written.name, &names.table, tally);
            array(written, file, &mut found.arrays, tally)?;
            Ok(())
        }
        Directive::Attribute(name) => {
            attribute(*name, names, tally);
            Ok(())
        }
        Directive::Property(name, value) => {
            found
                .defaults
                .push(property(*name, value, file, names, tally))?;
            Ok(())
        }
        Directive::Object(written) => {
            found
                .objects
                .push(defined_object(written, alloc, file, names, tally)?)?;
            Ok(())
        }
        Directive::Routine(written) => {
            definition_rule(written.name, &names.table, tally);
            found
                .routines
                .push(routine(written, alloc, file, locals, tally)?)?;
            Ok(())
        }
    }
}

// The directives of a file from its first, with the names that are there before it.
fn add_all<'a>(
    directives: &[Directive<'a>],
    alloc: Global,
    file: &File,
    names: &mut Names,
    found: &mut ResolvedFile<'a>,
    tally: &mut Tally,
) -> Result<(), AllocError>
    requires first { names.old.counts ≡ no_counts }
    ensures added { OnOk result
        (IsAdded (file_in file.now) (map directive_tree directives.now) found.old found.new) }
    ensures breaches { OnOk result (tally.new ≡ noted tally.old
        (spec.directives_breaches file.now.table.entries names.old.table.entries no_counts
        (map directive_tree directives.now))) }
{
    let mut locals = IndexMap::new(alloc);
    for one in directives {
        let Ok(()) = directive(one, alloc, file, names, &mut locals, found, tally) else {
            return Err(AllocError);
        };
        let Ok(()) = names.add(one, &file.table) else {
            return Err(AllocError);
        };
    }
    Ok(())
}

/// Resolves the names and the words of a file's directives, where these are those of the whole
/// file, and notes the rules that they break.
///
/// # Errors
///
/// `AllocError` where memory is refused.
pub fn all_directives<'a>(
    directives: &[Directive<'a>],
    alloc: Global,
    file: &File,
    tally: &mut Tally,
) -> Result<ResolvedFile<'a>, AllocError>
    ensures found { IfOk result
        (λ f. IsFound (file_in file.now) (map directive_tree directives.now) f) }
    ensures breaches { OnOk result (tally.new ≡ noted tally.old
        (spec.directives_breaches file.now.table.entries first_table no_counts
        (map directive_tree directives.now))) }
{
    let mut names = Names::new(alloc)?;
    let mut found = ResolvedFile {
        globals: Vec::new(alloc),
        arrays: Arrays::none(alloc),
        defaults: Vec::new(alloc),
        objects: Vec::new(alloc),
        routines: Vec::new(alloc),
    };
    let Ok(()) = add_all(directives, alloc, file, &mut names, &mut found, tally) else {
        return Err(AllocError);
    };
    Ok(found)
}
