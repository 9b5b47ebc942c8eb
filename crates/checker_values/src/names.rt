//! The names of a file, in order of definition.

ghost use Rattle.std.specs.Prelude.{◌≡◌, ◌^◌, IfOk, OnOk, map};
ghost use Rattle.syntax_trees.specs.Views.{name_tree};
ghost use Rattle.syntax_statements.specs.PartViews.{literal_tree};
ghost use Rattle.syntax_directives.specs.Tree.{constant};
ghost use Rattle.syntax_directives.specs.Views.{directive_tree};
ghost use Rattle.checker_values.specs.ByName.{is_by_name, has_by_name};
ghost use Rattle.checker_values.specs.Keys as keys;
ghost use Rattle.checker_values.specs.Names as spec;

use crate::binding::Binding;
use crate::counts::Counts;
use crate::key::key_of;
use crate::known::Known;
use crate::table::{Table, define, find};
use crate::words::key_of_word;
use indexmap::IndexMap;
use std::alloc::{AllocError, Global};
use syntax::{Directive, Literal, Name};

/// The names of a file before one of its directives.
#[derive(Drop)]
pub struct Names {
    pub table: Table,

    /// How much was defined.
    pub counts: Counts,
}

/// What a name stands for, where it is a constant or an object, which is its number.
pub fn constant_known(found: Option<Binding>) -> Option<Known>
    ensures { result ≡ spec.constant_known found }
{
    match found {
        Some(Binding::Constant(known)) => known,
        Some(Binding::Object(object)) => Some(Known::Number((object % 65_536) as u16)),
        _ => None,
    }
}

/// What a literal is, where a name in it is a constant or an object of a table.
pub fn literal_known(value: &Literal<'_>, table: &Table) -> Option<Known>
    ensures { result ≡ spec.literal_known table.now.entries (literal_tree value.now) }
{
    match value {
        Literal::Number(number) => Some(Known::Number(*number)),
        Literal::Word(word) => Some(Known::Key(key_of_word(word))),
        Literal::Named(name) => constant_known(find(table, name.text)),
    }
}

// What a name of a constant's value stands for: a constant stands before it, an object anywhere in
// the file.
fn object_first(before: Option<Binding>, anywhere: Option<Binding>) -> Option<Binding>
    ensures { result ≡ spec.object_first before anywhere }
{
    match anywhere {
        Some(Binding::Object(object)) => Some(Binding::Object(object)),
        None => before,
        Some(Binding::Constant(_)) => before,
        Some(Binding::Global(_)) => before,
        Some(Binding::Array(_, _)) => before,
        Some(Binding::Routine(_, _)) => before,
        Some(Binding::Attribute(_)) => before,
        Some(Binding::Property(_)) => before,
        Some(Binding::Local(_)) => before,
    }
}

// What a constant's value is, where `whole` has the objects of the file and `table` the names
// before it.
fn earlier_known(value: &Literal<'_>, whole: &Table, table: &Table) -> Option<Known>
    ensures { result ≡ spec.earlier_known whole.now.entries table.now.entries
        (literal_tree value.now) }
{
    match value {
        Literal::Number(number) => Some(Known::Number(*number)),
        Literal::Word(word) => Some(Known::Key(key_of_word(word))),
        Literal::Named(name) => {
            constant_known(object_first(find(table, name.text), find(whole, name.text)))
        }
    }
}

/// What is known, or 0 where nothing is.
pub fn or_zero(found: Option<Known>) -> Known
    ensures { result ≡ keys.or_zero found }
{
    match found {
        None => Known::Number(0),
        Some(known) => known,
    }
}

// The name that a directive defines.
fn defined_name<'a>(directive: &Directive<'a>) -> Name<'a>
    ensures { name_tree result ≡ spec.defined_name (directive_tree directive.now) }
{
    match directive {
        Directive::Global(name, _) => *name,
        Directive::Constant(name, _) => *name,
        Directive::Array(array) => array.name,
        Directive::Attribute(name) => *name,
        Directive::Property(name, _) => *name,
        Directive::Object(object) => object.name,
        Directive::Routine(routine) => routine.name,
    }
}

impl Names {
    /// The names that are there before the first directive: the property `name`.
    ///
    /// # Errors
    ///
    /// `AllocError` where memory is refused.
    pub fn new(alloc: Global) -> Result<Names, AllocError>
        ensures table { IfOk result (λ n. n.table.entries ≡ spec.first_table) }
        ensures counts { IfOk result (λ n. n.counts ≡ spec.no_counts) }
    {
        Names::with_room(alloc, 1)
    }

    /// The same, with room for the names that so many directives define.
    ///
    /// # Errors
    ///
    /// `AllocError` where memory is refused.
    pub fn with_room(alloc: Global, directives: usize) -> Result<Names, AllocError>
        ensures table { IfOk result (λ n. n.table.entries ≡ spec.first_table) }
        ensures counts { IfOk result (λ n. n.counts ≡ spec.no_counts) }
    {
        let mut table = IndexMap::with_capacity(alloc, directives.saturating_add(1))?;
        table.insert(key_of(b"name"), Binding::Property(1))?;
        Ok(Names {
            table,
            counts: Counts::none(),
        })
    }

    // What the name of a directive stands for.
    fn binding_of(&self, directive: &Directive<'_>, whole: &Table) -> Binding
        requires few { spec.AreFewer (2 ^ 63) self.now.counts }
        ensures { result ≡ spec.binding_of whole.now.entries self.now.table.entries
            self.now.counts (directive_tree directive.now) }
    {
        match directive {
            Directive::Global(_, _) => Binding::Global(self.counts.globals),
            Directive::Constant(_, value) => {
                Binding::Constant(earlier_known(value, whole, &self.table))
            }
            Directive::Array(array) => Binding::Array(self.counts.arrays, array.kind),
            Directive::Attribute(_) => Binding::Attribute(self.counts.attributes),
            Directive::Property(_, _) => Binding::Property(self.counts.properties + 2),
            Directive::Object(_) => Binding::Object(self.counts.objects + 1),
            Directive::Routine(routine) => {
                Binding::Routine(self.counts.routines, routine.locals.len())
            }
        }
    }

    /// Gives the name of a directive its meaning, where `whole` has the objects of the file.
    ///
    /// # Errors
    ///
    /// `AllocError` where memory is refused.
    pub fn add(&mut self, directive: &Directive<'_>, whole: &Table) -> Result<(), AllocError>
        requires few { spec.AreFewer (2 ^ 63) self.old.counts }
        ensures table { OnOk result (self.new.table.entries
            ≡ spec.with_directive whole.now.entries self.old.table.entries self.old.counts
            (directive_tree directive.now)) }
        ensures counts { OnOk result (self.new.counts
            ≡ spec.counts_after self.old.counts (directive_tree directive.now)) }
    {
        let binding = self.binding_of(directive, whole);
        define(defined_name(directive), &mut self.table, binding)?;
        self.counts.add(directive);
        Ok(())
    }
}

// The names of a file, where `whole` has its objects.
#[tactic(auto, using(crate::proofs::Counting::counts_fit, crate::proofs::Counting::fewer))]
fn tabulate_with(
    directives: &[Directive<'_>],
    alloc: Global,
    whole: &Table,
) -> Result<Table, AllocError>
    ensures { IfOk result (λ t. t.entries
        ≡ spec.table_from whole.now.entries spec.first_table spec.no_counts
        (map directive_tree directives.now)) }
{
    let mut names = Names::with_room(alloc, directives.len())?;
    for directive in directives {
        names.add(directive, whole)?;
    }
    Ok(names.table)
}

// Whether a constant's value is a name.
fn is_name(value: &Literal<'_>) -> bool
    ensures { (n : _) → result ≡ is_by_name (constant n (literal_tree value.now)) }
{
    match value {
        Literal::Number(_) => false,
        Literal::Word(_) => false,
        Literal::Named(_) => true,
    }
}

// Whether a directive defines a constant by a name.
fn defines_by_name(directive: &Directive<'_>) -> bool
    ensures { result ≡ is_by_name (directive_tree directive.now) }
{
    match directive {
        Directive::Constant(_, value) => is_name(value),
        Directive::Global(_, _) => false,
        Directive::Array(_) => false,
        Directive::Attribute(_) => false,
        Directive::Property(_, _) => false,
        Directive::Object(_) => false,
        Directive::Routine(_) => false,
    }
}

fn define_by_name(directives: &[Directive<'_>]) -> bool
    ensures { result ≡ has_by_name (map directive_tree directives.now) }
{
    for directive in directives {
        if defines_by_name(directive) {
            return true;
        }
    }
    false
}

/// The names of a whole file: first as they stand where no later object is known, and then with its
/// objects, if a constant is defined by a name, which may be that of an object.
///
/// # Errors
///
/// `AllocError` where memory is refused.
#[tactic(auto, unfolding(crate::specs::Names::table_of))]
pub fn tabulate(directives: &[Directive<'_>], alloc: Global) -> Result<Table, AllocError>
    ensures { IfOk result (λ t. t.entries ≡ spec.table_of (map directive_tree directives.now)) }
{
    let none = IndexMap::new(alloc);
    let whole = tabulate_with(directives, alloc, &none)?;
    if define_by_name(directives) {
        return tabulate_with(directives, alloc, &whole);
    }
    Ok(whole)
}
