//! How many bytes the arrays of a file have, which does not rest on the numbers of words.

ghost use Rattle.std.specs.Prelude.{◌≡◌, ◌<◌, ◌^◌, ◌∷◌, ◌++◌, [], IfOk, OnOk, length, map};
ghost use Rattle.std.specs.List.{concat};
ghost use Rattle.syntax_directives.specs.Views.{directive_tree};
ghost use Rattle.checker_values.specs.Scope.{file_in};
ghost use Rattle.checker_statements.specs.Arrays as spec;

use crate::array_rules::array;
use checker_values::{File, Tally};
use meaning::Arrays;
use std::alloc::{AllocError, Global};
use syntax::Directive;

// The bytes of the array that a directive defines, if it does.
fn add_array(directive: &Directive<'_>, file: &File, arrays: &mut Arrays) -> Result<(), AllocError>
    ensures { OnOk result (arrays.new.bytes.items ≡ arrays.old.bytes.items
        ++ concat (spec.arrays_of (file_in file.now) (directive_tree directive.now ∷ []))) }
{
    match directive {
        Directive::Array(written) => {
            let mut tally = Tally::new(None);
            array(written, file, arrays, &mut tally)
        }
        Directive::Global(_, _) => Ok(()),
        Directive::Constant(_, _) => Ok(()),
        Directive::Attribute(_) => Ok(()),
        Directive::Property(_, _) => Ok(()),
        Directive::Object(_) => Ok(()),
        Directive::Routine(_) => Ok(()),
    }
}

// The bytes of the arrays that directives define.
fn add_arrays(
    directives: &[Directive<'_>],
    file: &File,
    arrays: &mut Arrays,
) -> Result<(), AllocError>
    ensures { OnOk result (arrays.new.bytes.items ≡ arrays.old.bytes.items
        ++ concat (spec.arrays_of (file_in file.now) (map directive_tree directives.now))) }
{
    for one in directives {
        add_array(one, file, arrays)?;
    }
    Ok(())
}

/// How many bytes the arrays have that directives define, in a file of these names and numbers.
///
/// # Errors
///
/// `AllocError` where memory is refused.
pub fn bytes_of_arrays(
    directives: &[Directive<'_>],
    alloc: Global,
    file: &File,
) -> Result<usize, AllocError>
    ensures bytes { IfOk result (λ n. n
        ≡ length (concat (spec.arrays_of (file_in file.now) (map directive_tree directives.now)))) }
    ensures few { IfOk result (λ n. n < 2 ^ 63) }
{
    let mut arrays = Arrays::none(alloc);
    add_arrays(directives, file, &mut arrays)?;
    Ok(arrays.bytes.len())
}
