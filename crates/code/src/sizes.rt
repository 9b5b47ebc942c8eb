//! The sizes of a program, on which the code of its routines rests.

ghost use Rattle.std.specs.Prelude.{◌≡◌, ◌==◌, ◌||◌, not, length, map};
ghost use Rattle.std.specs.List.{list_all};
ghost use Rattle.meaning.specs.Views.{object_of, program_of, property_of};
ghost use Rattle.code.specs.HeldProgram as spec;
ghost use Rattle.code.specs.Written.{AreSizesOf, Narrows};

use code_drafts::{PROPERTY_NUMBERS, Sizes};
use meaning::{Checked, CheckedObject};

/// Notes of a property with these words that it has not one everywhere, where that is so.
fn note_property(singles: &mut [bool; PROPERTY_NUMBERS], number: u8, words: &[u16])
    ensures { Narrows singles.old singles.new (λ q. not (number == q) || length words.now == 1) }
{
    let number = usize::from(number);
    if number >= PROPERTY_NUMBERS {
        return;
    }
    if words.len() != 1 {
        singles[number] = false;
    }
}

/// Notes of the properties of an object which of them have not one word everywhere.
fn note_properties(singles: &mut [bool; PROPERTY_NUMBERS], properties: &[(u8, Vec<u16>)])
    ensures { Narrows singles.old singles.new (λ q.
        list_all (spec.is_one_word q) (map property_of properties.now)) }
{
    for property in properties {
        note_property(singles, property.0, &property.1);
    }
}

/// By the number of each property, whether it has one word wherever one of these objects provides it.
fn singles_of(objects: &[CheckedObject<'_>]) -> [bool; PROPERTY_NUMBERS]
    ensures { result ≡ spec.singles_of (map object_of objects.now) }
{
    let mut singles = [true; PROPERTY_NUMBERS];
    for object in objects {
        note_properties(&mut singles, &object.properties);
    }
    singles
}

/// What the code of the routines of a program is made by.
pub fn program_sizes<'b>(checked: &'b Checked<'_>) -> Sizes<'b>
    ensures { AreSizesOf result (program_of checked.now) }
{
    Sizes {
        arrays: checked.array_sizes(),
        objects: checked.objects().len(),
        abbreviations: checked.abbreviations(),
        singles: singles_of(checked.objects()),
    }
}
