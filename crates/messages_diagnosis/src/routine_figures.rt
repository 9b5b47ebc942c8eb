//! Weight and bytes of routines.

ghost use Rattle.std.specs.Prelude.{◌≡◌, ◌+◌, ◌≤◌, ◌*◌, ◌^◌, ◌<◌, ◌∷◌, ◌++◌, IfOk, OnOk, Some, length, map, slice_get, take, drop};
ghost use Rattle.std.specs.Option.{option_map};
ghost use Rattle.meaning.specs.Views.{program_of};
ghost use Rattle.code.specs.Written.{AreSizesOf};
ghost use Rattle.messages_diagnosis.specs.Figures as spec;

use code::{CodeFault, Sizes, program_sizes, routine_code};
use meaning::Checked;
use std::alloc::{AllocError, Global};
use syntax_trees::Name;

/// How many routines are named, the heaviest.
pub const NAMED_ROUTINES: usize = 10;

/// A routine: its weight, and how many bytes it has in a story.
#[derive(Clone, Copy)]
pub struct RoutineFigures<'a> {
    pub name: Name<'a>,
    pub weight: u128,

    /// The byte with the number of its locals, and its code.
    pub size: usize,
}

/// The routines of a program.
#[derive(Drop)]
pub struct Routines<'a> {
    /// The heaviest, ten at most, in descending order of weight. Of those that weigh as much, the
    /// one that is defined first stands first.
    pub heaviest: Vec<RoutineFigures<'a>>,

    /// The bytes of all routines, without what fills the places between them.
    pub size: u128,
}

/// The figures of the routine of a number.
fn figures_at<'a, 'b>(
    alloc: Global,
    checked: &'b Checked<'a>,
    sizes: &Sizes<'b>,
    routine: usize,
) -> Result<RoutineFigures<'a>, AllocError>
    requires routine { routine < length checked.now.routines }
    requires sizes { AreSizesOf sizes.now (program_of checked.now) }
    ensures { IfOk result (λ f. Some f
        ≡ option_map (spec.figures_in checked.now) (slice_get checked.now.routines routine)) }
{
    match routine_code(alloc, checked, sizes, routine) {
        Ok(code) => Ok(RoutineFigures {
            name: checked.routine(routine).name,
            weight: checked.routine(routine).weight,
            size: code.length(),
        }),
        Err(CodeFault::Memory) => Err(AllocError),
    }
}

/// How many of the first routines weigh more.
fn rank(routines: &[RoutineFigures<'_>], weight: u128) -> usize
    ensures few { result ≤ length routines.now }
    ensures place { (r : _) → r.weight ≡ weight → spec.placed r routines.now
        ≡ take result routines.now ++ r ∷ drop result routines.now }
{
    for number in 0..routines.len() {
        if routines[number].weight <= weight {
            return number;
        }
    }
    routines.len()
}

/// Puts a routine among the ten heaviest, before those that weigh no more.
fn place<'a>(
    heaviest: &mut Vec<RoutineFigures<'a>>,
    routine: RoutineFigures<'a>,
) -> Result<(), AllocError>
    ensures { OnOk result (heaviest.new.items
        ≡ take 10 (spec.placed routine.entry heaviest.old.items)) }
{
    let number = rank(heaviest, routine.weight);
    heaviest.insert(number, routine)?;
    heaviest.truncate(NAMED_ROUTINES);
    Ok(())
}

/// A sum of bytes, and more.
fn with_bytes(sum: u128, bytes: usize) -> u128
    requires { sum + 2 ^ 64 < 2 ^ 128 }
    ensures sum { result ≡ sum + bytes }
    ensures few { result ≤ sum + 2 ^ 64 }
{
    sum + bytes as u128
}

/// The figures of all routines of a program.
pub fn routines_of<'a>(alloc: Global, checked: &Checked<'a>) -> Result<Routines<'a>, AllocError>
    ensures heaviest { IfOk result (λ r. r.heaviest.items ≡ spec.heaviest_in checked.now) }
    ensures size { IfOk result (λ r. r.size ≡ spec.code_bytes_in checked.now) }
{
    let sizes = program_sizes(checked);
    let mut heaviest = Vec::new(alloc);
    let mut size = 0;
    let count = checked.routines();
    for behind in 0..count {
        let figures = figures_at(alloc, checked, &sizes, count - 1 - behind)?;
        size = with_bytes(size, figures.size);
        place(&mut heaviest, figures)?;
    }
    Ok(Routines { heaviest, size })
}
