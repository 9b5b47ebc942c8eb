//! Laws of checks. The functions do nothing: each carries a law as its contract.

ghost use Rattle.checker.specs.Laws.{AcceptedPrograms, PrintablePrograms, WordsAreNumbered};

/// A program that breaks no rule resolves to one within the limits: each variable and each routine
/// that it names is there, no call has more than 7 arguments nor more than its routine has locals,
/// no expression of a statement needs more than 48 temporaries, no routine has more than 15 locals,
/// there are at most 232 globals, the two arrays of a `read` are there and are not one, and `Main`
/// is there without locals.
pub fn accepted_programs()
    ensures { AcceptedPrograms }
{}

/// Where each byte of the texts of a program is a character that prints, 32 to 126, so is each byte
/// of the texts of what the program resolves to.
pub fn printable_programs()
    ensures { PrintablePrograms }
{}

/// The value of a word in a program is the number that the word has in the program's own
/// dictionary.
pub fn words_are_numbered()
    ensures { WordsAreNumbered }
{}
