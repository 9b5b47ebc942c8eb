//! The check of a program.

ghost use Rattle.std.specs.Prelude.{◌≡◌, ◌≤◌, ◌^◌, ◌⊎◌, [], IfErr, IfOk, OnOk, length};
ghost use Rattle.syntax_lexer.specs.FaultNumbers.{no_memory};
ghost use Rattle.syntax_lexer.specs.Placed.{nowhere, unplaced};
ghost use Rattle.syntax.specs.Views.{program_tree};
ghost use Rattle.checker_values.specs.Breaches.{AnswersBreaches};
ghost use Rattle.checker_values.specs.Noted.{noted};
ghost use Rattle.checker_values.specs.Scope.{file_in};
ghost use Rattle.checker_values.specs.Keys.{keys_of};
ghost use Rattle.checker.specs.Places.{StandsAtFirst};
ghost use Rattle.checker.specs.Programs.{program_breaches, no_numbers, file_of};
ghost use Rattle.checker.specs.Checked.{IsCheckedOf};
ghost use Rattle.checker.specs.Next.{AnswersNext};

use crate::abbreviation_rules::{abbreviation_rules, all_abbreviations};
use crate::directive_rules::all_directives;
use crate::main_rules::main_number;
use checker_statements::{all_defaults, bytes_of_arrays, listed_objects_size, parents, place};
use checker_values::{Breach, File, Numbers, Tally, gather, tabulate};
use meaning::{Checked, dictionary_after};
use std::alloc::{AllocError, Global};
use std::mem::forget;
use syntax::{Directive, Program, Text};
use syntax_lexer::{PlacedFault, SourceFault};

// Resolves the names and words of a program, where these are those of its file, and notes the rules
// that it breaks. Where it breaks one, what is found may lack properties of objects that list more
// than 63.
fn resolve_with<'a>(
    program: &Program<'a>,
    alloc: Global,
    file: File,
    tally: &mut Tally,
) -> Result<Checked<'a>, AllocError>
    requires file { file_in file ≡ file_of (program_tree program.now) }
    requires keys { file.numbers.keys.items ≡ keys_of (program_tree program.now).words }
    requires few { length file.numbers.keys.items ≤ 2 ^ 59 }
    ensures value { IfOk result (λ c. program_breaches (program_tree program.now) ≡ []
        → IsCheckedOf (program_tree program.now) c) }
    ensures breaches { OnOk result (tally.new ≡ noted tally.old
        (program_breaches (program_tree program.now))) }
{
    let directives: &[Directive<'a>] = &program.directives;
    let mut found = all_directives(directives, alloc, &file, tally)?;
    let parents = parents(directives, alloc, &file.table, tally)?;
    place(&parents, &mut found.objects);
    let defaults = all_defaults(alloc, &found.defaults)?;
    let texts: &[Text<'a>] = &program.abbreviations;
    abbreviation_rules(texts, tally);
    let abbreviations = all_abbreviations(texts, alloc)?;
    let main = main_number(directives, program.end, &file.table, tally);
    Ok(Checked::new(
        found.globals,
        found.arrays,
        defaults,
        found.objects,
        file.numbers.keys,
        abbreviations,
        found.routines,
        main,
        program.weight,
        program.end.line,
    ))
}

// The numbers of no words.
fn unnumbered_file(program: &Program<'_>, alloc: Global) -> Result<File, AllocError>
    ensures { IfOk result (λ f. file_in f ≡ no_numbers (program_tree program.now)) }
{
    let table = tabulate(&program.directives, alloc)?;
    let numbers = Numbers::none(alloc);
    Ok(File { table, numbers })
}

// The names of a program and the numbers of its words, which rest on how many bytes its arrays and
// its objects have.
fn numbered_file(program: &Program<'_>, alloc: Global) -> Result<File, AllocError>
    ensures file { IfOk result (λ f. file_in f ≡ file_of (program_tree program.now)) }
    ensures keys { IfOk result (λ f. f.numbers.keys.items
        ≡ keys_of (program_tree program.now).words) }
    ensures few { IfOk result (λ f. length f.numbers.keys.items ≤ 2 ^ 59) }
{
    let Ok(first) = unnumbered_file(program, alloc) else {
        return Err(AllocError);
    };
    let Ok(bytes) = bytes_of_arrays(&program.directives, alloc, &first) else {
        return Err(AllocError);
    };
    let objects = listed_objects_size(&program.directives);
    let Ok(keys) = gather(alloc, &program.words) else {
        return Err(AllocError);
    };
    let File { table, numbers } = first;
    drop(numbers);
    Ok(File {
        table,
        numbers: Numbers {
            keys,
            dictionary: dictionary_after(bytes, objects),
        },
    })
}

fn resolve<'a>(
    program: &Program<'a>,
    alloc: Global,
    tally: &mut Tally,
) -> Result<Checked<'a>, AllocError>
    ensures value { IfOk result (λ c. program_breaches (program_tree program.now) ≡ []
        → IsCheckedOf (program_tree program.now) c) }
    ensures breaches { OnOk result (tally.new ≡ noted tally.old
        (program_breaches (program_tree program.now))) }
{
    let file = numbered_file(program, alloc)?;
    resolve_with(program, alloc, file, tally)
}

/// Checks the names, kinds and limits of a program, and resolves its names.
///
/// # Errors
///
/// The fault is that at the smallest place, and of several there the one with the smallest number:
/// E20 an unknown name, E21 no proper `Main`, E22 a name that is defined twice, E23 a name of the
/// wrong kind, E24 too many globals, attributes, properties, objects, locals, arguments, words of a
/// property or abbreviations, or too long a short name, E25 more arguments than the routine has
/// locals, E26 an assignment to what is neither a variable, nor an entry of an array, nor a
/// property or a word of one, E28 an entry or a size that an array may not have, E29 an expression
/// that needs too many temporaries, E33 an abbreviation of fewer than two characters, or one that
/// stands earlier. E99, with line 0: memory was refused.
pub fn check<'a>(alloc: Global, program: Program<'a>) -> Result<Checked<'a>, SourceFault>
    ensures { AnswersBreaches result (program_breaches (program_tree program.entry))
        (λ c. IsCheckedOf (program_tree program.entry) c) }
{
    let found = check_placed(alloc, &program);
    syntax::discard(program);
    match found {
        Ok(checked) => Ok(checked),
        Err(placed) => Err(placed.fault),
    }
}

/// Gives back the memory of a program that is not needed any more. A crate that drops one in a
/// function of its own proves anew what becomes of each kind of its parts: hand it over here instead.
pub fn discard(checked: Checked<'_>) {
    drop(checked);
}

/// Leaves the memory of a program to the system, which takes it back when the process ends.
pub fn leave_to_system(checked: Checked<'_>) {
    forget(checked);
}

/// As [`check`], with the place of the fault.
///
/// # Errors
///
/// Those of [`check`]. The offset is that of the first broken rule; E99 has none.
pub fn check_placed<'a>(alloc: Global, program: &Program<'a>) -> Result<Checked<'a>, PlacedFault>
    ensures answers { AnswersBreaches (unplaced result) (program_breaches (program_tree program.now))
        (λ c. IsCheckedOf (program_tree program.now) c) }
    ensures stands { IfErr result (λ e. (e ≡ nowhere no_memory)
        ⊎ StandsAtFirst e (program_breaches (program_tree program.now))) }
{
    let mut tally = Tally::new(None);
    match resolve(program, alloc, &mut tally) {
        Ok(checked) => match tally.found {
            None => Ok(checked),
            Some(breach) => Err(PlacedFault {
                fault: breach.fault(),
                offset: Some(breach.position.offset),
            }),
        },
        Err(refused) => Err(PlacedFault::from(refused)),
    }
}

/// A broken rule after one that is known.
#[derive(Clone, Copy)]
pub struct NextBreach {
    /// The first one after it.
    pub breach: Breach,

    /// How many there are after it, at most [`checker_values::MOST_COUNTED`].
    pub count: u32,
}

/// The first broken rule of a program after one that is known. `None` if there is none after it.
///
/// # Errors
///
/// `AllocError` where memory is refused.
pub fn next_breach(
    alloc: Global,
    program: &Program<'_>,
    known: Breach,
) -> Result<Option<NextBreach>, AllocError>
    ensures { IfOk result (λ next. AnswersNext known next
        (program_breaches (program_tree program.now))) }
{
    let mut tally = Tally::new(Some(known));
    drop(resolve(program, alloc, &mut tally)?);
    match tally.found {
        None => Ok(None),
        Some(breach) => Ok(Some(NextBreach {
            breach,
            count: tally.count,
        })),
    }
}
