//! Where objects stand at the start: each in the one that its arrows or a name give it.

ghost use Rattle.std.specs.Prelude.{◌≡◌, ◌%◌, ◌<◌, ◌^◌, IfOk, OnOk, length, map, slice_index_or};
ghost use Rattle.std.specs.Option.{option_map};
ghost use Rattle.syntax_trees.specs.Views.{name_tree};
ghost use Rattle.syntax_directives.specs.Views.{object_tree, directive_tree};
ghost use Rattle.meaning.specs.Views.{object_of};
ghost use Rattle.checker_values.specs.Noted.{noted};
ghost use Rattle.checker_statements.specs.Objects.{object_trees};
ghost use Rattle.checker_statements.specs.Objects as spec;

use checker_values::{Binding, Table, Tally, find, note};
use meaning::CheckedObject;
use std::alloc::{AllocError, Global};
use syntax::{Directive, Object};
use syntax_lexer::{Position, UNKNOWN_NAME, WRONG_KIND};
use syntax_trees::Name;

// How many of the open objects have fewer than so many arrows.
#[tactic(auto, using(crate::proofs::Chains::open_here, crate::proofs::Chains::open_next, crate::proofs::Chains::open_end))]
fn count_open(arrows: usize, chain: &[(usize, usize)]) -> usize
    ensures { result ≡ length (spec.open_to arrows chain.now) }
{
    for i in 0..chain.len() {
        if chain[i].0 >= arrows {
            return i;
        }
    }
    chain.len()
}

// Closes the objects that have so many arrows or more.
#[tactic(auto, using(crate::proofs::Chains::open_taken))]
fn close(arrows: usize, chain: &mut Vec<(usize, usize)>)
    ensures { chain.new.items ≡ spec.open_to arrows chain.old.items }
{
    let count = count_open(arrows, chain);
    chain.truncate(count);
}

// Whether the object above has one arrow less than so many.
#[tactic(auto, using(crate::proofs::Chains::one_less))]
fn is_next(above: Option<(usize, usize)>, arrows: usize) -> bool
    ensures { result ≡ spec.is_next above arrows }
{
    match above {
        None => false,
        Some((fewer, _)) => fewer < arrows && arrows - fewer == 1,
    }
}

// The arrows of an object, where `above` is the latest before it that has fewer.
#[tactic(auto, using(checker_values::proofs::Noted::noted_none))]
fn arrow_rule(above: Option<(usize, usize)>, arrows: &[Position], tally: &mut Tally)
    ensures { tally.new ≡ noted tally.old (spec.arrow_breaches above arrows.now) }
{
    if !arrows.is_empty() && !is_next(above, arrows.len()) {
        note(tally, UNKNOWN_NAME, arrows[0]);
    }
}

// The name of a parent, by what it stands for: one of the objects before.
#[tactic(auto, using(checker_values::proofs::Noted::noted_none))]
fn parent_kind(position: Position, before: usize, found: Option<Binding>, tally: &mut Tally)
    ensures { tally.new ≡ noted tally.old (spec.parent_breaches position before found) }
{
    match found {
        None => note(tally, UNKNOWN_NAME, position),
        Some(Binding::Constant(_)) => note(tally, WRONG_KIND, position),
        Some(Binding::Global(_)) => note(tally, WRONG_KIND, position),
        Some(Binding::Array(_, _)) => note(tally, WRONG_KIND, position),
        Some(Binding::Routine(_, _)) => note(tally, WRONG_KIND, position),
        Some(Binding::Attribute(_)) => note(tally, WRONG_KIND, position),
        Some(Binding::Property(_)) => note(tally, WRONG_KIND, position),
        Some(Binding::Object(object)) => {
            if object > before {
                note(tally, UNKNOWN_NAME, position);
            }
        }
        Some(Binding::Local(_)) => note(tally, WRONG_KIND, position),
    }
}

#[tactic(auto, using(checker_values::proofs::Noted::noted_none))]
fn parent_rule(parent: &Option<Name<'_>>, whole: &Table, before: usize, tally: &mut Tally)
    ensures { tally.new ≡ noted tally.old
        (spec.named_parent_breaches whole.now.entries before (option_map name_tree parent.now)) }
{
    if let Some(name) = parent {
        parent_kind(name.position, before, find(whole, name.text), tally);
    }
}

fn object_number(found: Option<Binding>) -> usize
    ensures { result ≡ spec.object_of_binding found }
{
    match found {
        Some(Binding::Object(object)) => object,
        _ => 0,
    }
}

fn parent_number(parent: &Option<Name<'_>>, whole: &Table, above: Option<(usize, usize)>) -> usize
    ensures { result ≡ spec.parent_number whole.now.entries above
        (option_map name_tree parent.now) }
{
    match parent {
        Some(name) => object_number(find(whole, name.text)),
        None => match above {
            Some((_, number)) => number,
            None => 0,
        },
    }
}

// The parent of an object that follows so many.
fn stand(
    object: &Object<'_>,
    whole: &Table,
    before: usize,
    chain: &mut Vec<(usize, usize)>,
    tally: &mut Tally,
) -> Result<u16, AllocError>
    requires few { before < 2 ^ 63 }
    ensures value { IfOk result (λ p. p
        ≡ spec.parent_number whole.now.entries
        (spec.above_of (length (object_tree object.now).arrows) chain.old.items)
        (object_tree object.now).parent % 65536) }
    ensures chain { OnOk result (chain.new.items
        ≡ spec.opened (length (object_tree object.now).arrows) before chain.old.items) }
    ensures breaches { OnOk result (tally.new ≡ noted tally.old
        (spec.stand_breaches whole.now.entries chain.old.items before (object_tree object.now))) }
{
    let arrows = object.arrows.len();
    close(arrows, chain);
    let above = chain.last().copied();
    arrow_rule(above, &object.arrows, tally);
    parent_rule(&object.parent, whole, before, tally);
    chain.push((arrows, before + 1))?;
    Ok((parent_number(&object.parent, whole, above) % 65_536) as u16)
}

/// The parents of a file's objects, in order of definition, 0 for none; notes the rules on where
/// objects stand that are broken.
///
/// # Errors
///
/// `AllocError` where memory is refused.
pub fn parents(
    directives: &[Directive<'_>],
    alloc: Global,
    whole: &Table,
    tally: &mut Tally,
) -> Result<Vec<u16>, AllocError>
    ensures value { IfOk result (λ v. v.items
        ≡ spec.parents_of whole.now.entries (object_trees (map directive_tree directives.now))) }
    ensures breaches { OnOk result (tally.new ≡ noted tally.old
        (spec.standing_breaches whole.now.entries
        (object_trees (map directive_tree directives.now)))) }
{
    let mut parents = Vec::new(alloc);
    let mut chain = Vec::new(alloc);
    for directive in directives {
        let Directive::Object(object) = directive else {
            continue;
        };
        let before = parents.len();
        let Ok(parent) = stand(object, whole, before, &mut chain, tally) else {
            return Err(AllocError);
        };
        parents.push(parent)?;
    }
    Ok(parents)
}

fn parent_at(parents: &[u16], index: usize) -> u16
    ensures { result ≡ slice_index_or parents.now index 0 }
{
    match parents.get(index) {
        Some(parent) => *parent,
        None => 0,
    }
}

/// Gives each object its parent.
pub fn place(parents: &[u16], objects: &mut [CheckedObject<'_>])
    ensures { map object_of objects.new ≡ spec.with_parents parents.now (map object_of objects.old) }
{
    for i in 0..objects.len() {
        objects[i].parent = parent_at(parents, i);
    }
}
