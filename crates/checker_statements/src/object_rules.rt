//! Definitions of objects: the rules that they can break, and what they are.

ghost use Rattle.std.specs.Prelude.{◌≡◌, ◌≤◌, [], IfOk, OnOk, length, map, take};
ghost use Rattle.std.specs.List.{flat_map};
ghost use Rattle.std.specs.Option.{option_map};
ghost use Rattle.syntax_trees.specs.Views.{name_tree};
ghost use Rattle.syntax_directives.specs.Views.{value_tree, text_tree, property_tree, object_tree};
ghost use Rattle.meaning.specs.Views.{property_of, object_of};
ghost use Rattle.checker_values.specs.Noted.{noted};
ghost use Rattle.checker_values.specs.Scope.{file_in};
ghost use Rattle.checker_values.specs.Names.{has_name, repeated_breaches};
ghost use Rattle.checker_statements.specs.FirstListed.{first_listed, most_provided};
ghost use Rattle.checker_statements.specs.Objects as spec;

use crate::defined_twice::definition_rule;
use checker_values::{
    Binding, File, Table, Tally, attribute, define, find, key_of, literal, note, or_zero, property,
};
use indexmap::IndexMap;
use meaning::limits::MOST_PROPERTY_WORDS;
use meaning::{CheckedObject, name_words};
use std::alloc::{AllocError, Global};
use syntax::{ArrayValue, Object, Property, Text};
use syntax_lexer::{DEFINED_TWICE, TOO_MANY};
use syntax_trees::Name;
use zcore::layout::{DEFAULT_COUNT, LONGEST_SHORT_NAME};

/// The most names that are compared with one another: to make a table of them takes longer.
const FEW_NAMES: usize = 8;

#[tactic(auto, using(checker_values::proofs::Noted::noted_none))]
fn short_rule(short: &Option<Text<'_>>, tally: &mut Tally)
    ensures { tally.new ≡ noted tally.old (spec.short_breaches (option_map text_tree short.now)) }
{
    if let Some(text) = short {
        if name_words(text.bytes) > LONGEST_SHORT_NAME as u128 {
            note(tally, TOO_MANY, text.position);
        }
    }
}

// The number of a property's words. The grammar gives it one at least.
#[tactic(auto, using(checker_values::proofs::Noted::noted_none))]
fn count_rule(name: Name<'_>, values: &[ArrayValue<'_>], tally: &mut Tally)
    ensures { tally.new ≡ noted tally.old
        (spec.count_breaches name.entry.position (map value_tree values.now)) }
{
    if values.is_empty() {
        note(tally, TOO_MANY, name.position);
    } else if let Some(value) = values.get(MOST_PROPERTY_WORDS) {
        note(tally, TOO_MANY, value.position);
    }
}

fn word(value: &ArrayValue<'_>, file: &File, tally: &mut Tally) -> u16
    ensures value { result ≡ spec.word_of (file_in file.now) (value_tree value.now) }
    ensures breaches { tally.new ≡ noted tally.old
        (spec.value_breaches file.now.table.entries (value_tree value.now)) }
{
    file.numbers
        .value(or_zero(literal(&value.value, &file.table, tally)))
}

fn words(
    values: &[ArrayValue<'_>],
    alloc: Global,
    file: &File,
    tally: &mut Tally,
) -> Result<Vec<u16>, AllocError>
    ensures words { IfOk result (λ v. v.items
        ≡ map (spec.word_of (file_in file.now)) (map value_tree values.now)) }
    ensures breaches { OnOk result (tally.new ≡ noted tally.old
        (flat_map (spec.value_breaches file.now.table.entries) (map value_tree values.now))) }
{
    let mut found = Vec::with_capacity(alloc, values.len())?;
    for value in values {
        found.push_reserved(word(value, file, tally));
    }
    Ok(found)
}

// A property that an object provides: its number and its words.
fn provided(
    written: &Property<'_>,
    alloc: Global,
    file: &File,
    tally: &mut Tally,
) -> Result<(u8, Vec<u16>), AllocError>
    ensures value { IfOk result (λ x. property_of x
        ≡ spec.provided_of (file_in file.now) (property_tree written.now)) }
    ensures breaches { OnOk result (tally.new ≡ noted tally.old
        (spec.provided_breaches file.now.table.entries (property_tree written.now))) }
{
    let name = written.name;
    let number = property(name, find(&file.table, name.text), tally);
    count_rule(name, &written.values, tally);
    let words = words(&written.values, alloc, file, tally)?;
    Ok(((number % 256) as u8, words))
}

// Where a property of a number stands among those whose numbers descend.
#[tactic(auto, using(crate::proofs::ObjectLists::place_here, crate::proofs::ObjectLists::place_next, crate::proofs::ObjectLists::place_end))]
fn place_below(number: u8, found: &[(u8, Vec<u16>)]) -> usize
    ensures place { result ≡ spec.place_below number (map property_of found.now) }
    ensures inside { result ≤ length found.now }
{
    for i in 0..found.len() {
        if found[i].0 < number {
            return i;
        }
    }
    found.len()
}

#[tactic(auto, using(crate::proofs::ObjectLists::inserted_mapped))]
fn add_property(added: (u8, Vec<u16>), found: &mut Vec<(u8, Vec<u16>)>) -> Result<(), AllocError>
    ensures { OnOk result (map property_of found.new.items
        ≡ spec.with_property (property_of added) (map property_of found.old.items)) }
{
    let place = place_below(added.0, found);
    found.insert(place, added)?;
    Ok(())
}

fn properties(
    written: &[Property<'_>],
    alloc: Global,
    file: &File,
    tally: &mut Tally,
) -> Result<Vec<(u8, Vec<u16>)>, AllocError>
    ensures value { IfOk result (λ v. map property_of v.items
        ≡ spec.with_properties (file_in file.now) [] (map property_tree written.now)) }
    ensures breaches { OnOk result (tally.new ≡ noted tally.old
        (flat_map (spec.provided_breaches file.now.table.entries)
        (map property_tree written.now))) }
{
    let mut found = Vec::new(alloc);
    for one in written {
        let Ok(added) = provided(one, alloc, file, tally) else {
            return Err(AllocError);
        };
        let Ok(()) = add_property(added, &mut found) else {
            return Err(AllocError);
        };
    }
    Ok(found)
}

// Notes what is wrong in the properties that an object lists, and keeps none of them.
fn note_provided(
    written: &[Property<'_>],
    alloc: Global,
    file: &File,
    tally: &mut Tally,
) -> Result<(), AllocError>
    ensures { OnOk result (tally.new ≡ noted tally.old
        (flat_map (spec.provided_breaches file.now.table.entries)
        (map property_tree written.now))) }
{
    for one in written {
        drop(provided(one, alloc, file, tally)?);
    }
    Ok(())
}

// The properties that an object provides, of the first 63 that it lists. It may list any number, and
// to put each in its place among all others would take too long. Where it lists more, a rule is
// broken: a name stands twice, or is no property, or the file defines too many. So what is found
// here is not used then.
fn provided_of_listed(
    written: &[Property<'_>],
    alloc: Global,
    file: &File,
    tally: &mut Tally,
) -> Result<Vec<(u8, Vec<u16>)>, AllocError>
    ensures value { IfOk result (λ v. map property_of v.items
        ≡ spec.with_properties (file_in file.now) []
        (take most_provided (map property_tree written.now))) }
    ensures breaches { OnOk result (tally.new ≡ noted tally.old
        (flat_map (spec.provided_breaches file.now.table.entries)
        (map property_tree written.now))) }
{
    let count = DEFAULT_COUNT.min(written.len());
    let found = properties(&written[..count], alloc, file, tally)?;
    let Ok(()) = note_provided(&written[count..], alloc, file, tally) else {
        return Err(AllocError);
    };
    Ok(found)
}

fn given_attribute(name: Name<'_>, file: &File, tally: &mut Tally) -> u8
    ensures value { result ≡ spec.given_of (file_in file.now) (name_tree name.entry) }
    ensures breaches { tally.new ≡ noted tally.old
        (spec.given_breaches file.now.table.entries (name_tree name.entry)) }
{
    (attribute(name, find(&file.table, name.text), tally) % 256) as u8
}

fn attributes(
    names: &[Name<'_>],
    alloc: Global,
    file: &File,
    tally: &mut Tally,
) -> Result<Vec<u8>, AllocError>
    ensures value { IfOk result (λ v. v.items
        ≡ map (spec.given_of (file_in file.now)) (map name_tree names.now)) }
    ensures breaches { OnOk result (tally.new ≡ noted tally.old
        (flat_map (spec.given_breaches file.now.table.entries) (map name_tree names.now))) }
{
    let mut found = Vec::with_capacity(alloc, names.len())?;
    for name in names {
        found.push_reserved(given_attribute(*name, file, tally));
    }
    Ok(found)
}

fn names_of<'a>(written: &[Property<'a>], alloc: Global) -> Result<Vec<Name<'a>>, AllocError>
    ensures { IfOk result (λ v. map name_tree v.items
        ≡ map spec.property_name (map property_tree written.now)) }
{
    let mut names = Vec::with_capacity(alloc, written.len())?;
    for one in written {
        names.push_reserved(one.name);
    }
    Ok(names)
}

// Whether a name stands among others.
fn is_among(name: Name<'_>, others: &[Name<'_>]) -> bool
    ensures { result ≡ has_name (map name_tree others.now) (name_tree name.entry) }
{
    let key = key_of(name.text);
    for other in others {
        if key_of(other.text) == key {
            return true;
        }
    }
    false
}

// A name that stands among those before it.
#[tactic(auto, using(checker_values::proofs::Noted::noted_none))]
fn repeat_rule(name: Name<'_>, before: &[Name<'_>], tally: &mut Tally)
    ensures { tally.new ≡ noted tally.old
        (spec.again (map name_tree before.now) (name_tree name.entry)) }
{
    if is_among(name, before) {
        note(tally, DEFINED_TWICE, name.position);
    }
}

// Two of one name, where each is compared with all before it: quick for few names.
fn repeat_rules_of_few(names: &[Name<'_>], tally: &mut Tally)
    ensures { tally.new ≡ noted tally.old (repeated_breaches [] (map name_tree names.now)) }
{
    for number in 0..names.len() {
        repeat_rule(names[number], &names[..number], tally);
    }
}

// Two of one name, where each is looked up in a table of those before it: quick for many names.
fn repeat_rules_of_many(
    names: &[Name<'_>],
    alloc: Global,
    tally: &mut Tally,
) -> Result<(), AllocError>
    ensures { OnOk result (tally.new ≡ noted tally.old
        (repeated_breaches [] (map name_tree names.now))) }
{
    let mut table = IndexMap::new(alloc);
    for number in 0..names.len() {
        let name = names[number];
        definition_rule(name, &table, tally);
        let Ok(()) = define(name, &mut table, Binding::Local(number)) else {
            return Err(AllocError);
        };
    }
    Ok(())
}

// Two of one name.
fn repeat_rules(names: &[Name<'_>], alloc: Global, tally: &mut Tally) -> Result<(), AllocError>
    ensures { OnOk result (tally.new ≡ noted tally.old
        (repeated_breaches [] (map name_tree names.now))) }
{
    if names.len() > FEW_NAMES {
        return repeat_rules_of_many(names, alloc, tally);
    }
    repeat_rules_of_few(names, tally);
    Ok(())
}

/// A short name, empty where none is written.
pub(crate) fn short_name<'a>(short: &Option<Text<'a>>) -> &'a [u8]
    ensures { result.now ≡ spec.short_name (option_map text_tree short.now) }
{
    match short {
        None => &[],
        Some(text) => text.bytes,
    }
}

/// An object by the first 63 properties that it lists, still without its parent; notes the rules
/// that its definition breaks. One that lists more breaks a rule.
///
/// # Errors
///
/// `AllocError` where memory is refused.
pub fn object<'a>(
    written: &Object<'a>,
    alloc: Global,
    file: &File,
    tally: &mut Tally,
) -> Result<CheckedObject<'a>, AllocError>
    ensures value { IfOk result (λ o. object_of o
        ≡ spec.object_in (file_in file.now) (first_listed (object_tree written.now))) }
    ensures breaches { OnOk result (tally.new ≡ noted tally.old
        (spec.object_breaches file.now.table.entries (object_tree written.now))) }
{
    short_rule(&written.short, tally);
    let names = names_of(&written.properties, alloc)?;
    let Ok(()) = repeat_rules(&names, alloc, tally) else {
        return Err(AllocError);
    };
    let Ok(properties) = provided_of_listed(&written.properties, alloc, file, tally) else {
        return Err(AllocError);
    };
    let Ok(attributes) = attributes(&written.attributes, alloc, file, tally) else {
        return Err(AllocError);
    };
    Ok(CheckedObject {
        parent: 0,
        name: short_name(&written.short),
        attributes,
        properties,
    })
}
