//! How many bytes the objects of a file have. It rests on what they list, and neither on the numbers
//! of words nor on what names stand for.

ghost use Rattle.std.specs.Prelude.{◌≡◌, ◌≤◌, ◌<◌, ◌+◌, ◌*◌, ◌^◌, map};
ghost use Rattle.syntax_directives.specs.Views.{directive_tree, object_tree, property_tree};
ghost use Rattle.meaning.specs.Places.{folded, total};
ghost use Rattle.checker_statements.specs.Objects.{short_name};
ghost use Rattle.checker_statements.specs.Sizes as spec;

use crate::object_rules::short_name;
use meaning::{fold, name_words};
use syntax::{Directive, Object, Property};
use zcore::layout::OBJECT_ENTRY_LENGTH;

/// The bytes of a property that an object lists.
fn listed_size(written: &Property<'_>) -> u128
    ensures size { result ≡ spec.listed_size (property_tree written.now) }
    ensures few { result ≤ 2 + 2 * 2 ^ 64 }
{
    let count = written.values.len();
    let head = if count == 1 { 1 } else { 2 };
    head + 2 * count as u128
}

/// The bytes of properties, folded.
fn listed_sizes(written: &[Property<'_>]) -> usize
    ensures size { result
        ≡ folded (total (map spec.listed_size (map property_tree written.now))) }
    ensures few { result < 131072 }
{
    let mut size = 0;
    for one in written {
        size = fold(size as u128 + listed_size(one));
    }
    size
}

/// The bytes of the property table of an object, folded.
fn table_size(written: &Object<'_>) -> usize
    ensures size { result ≡ folded (spec.listed_table_size (object_tree written.now)) }
    ensures few { result < 131072 }
{
    let properties = listed_sizes(&written.properties);
    fold(2 + 2 * name_words(short_name(&written.short)) + properties as u128)
}

/// The bytes of the entry and of the property table of the object that a directive defines, folded;
/// 0 where it defines none.
#[tactic(auto, using(crate::proofs::Sizes::folds_none))]
fn directive_size(directive: &Directive<'_>) -> usize
    ensures size { result ≡ folded (spec.listed_directive_size (directive_tree directive.now)) }
    ensures few { result < 131072 }
{
    match directive {
        Directive::Global(_, _) => 0,
        Directive::Constant(_, _) => 0,
        Directive::Array(_) => 0,
        Directive::Attribute(_) => 0,
        Directive::Property(_, _) => 0,
        Directive::Object(written) => fold((OBJECT_ENTRY_LENGTH + table_size(written)) as u128),
        Directive::Routine(_) => 0,
    }
}

/// The bytes of the entries and of the property tables of the objects that directives define,
/// folded.
pub fn listed_objects_size(directives: &[Directive<'_>]) -> usize
    ensures size { result ≡ folded (spec.listed_objects_size (map directive_tree directives.now)) }
    ensures few { result < 131072 }
{
    let mut size = 0;
    for directive in directives {
        size = fold((size + directive_size(directive)) as u128);
    }
    size
}
