//! The passes over the tokens of an extended source, in a row.

ghost use Rattle.std.specs.Prelude.{◌≡◌, ◌≤◌, ◌++◌, length, IfOk};
ghost use Rattle.syntax_lexer.specs.Token.{lexemes};
ghost use Rattle.derive_tokens.specs.Pieces.{derived_all};
ghost use Rattle.derive_branches.specs.Branches.{branched};
ghost use Rattle.derive_classes.specs.Classed.{classed};
ghost use Rattle.derive_tokens.specs.Held.{names_of};
ghost use Rattle.derive_statements.specs.Main.{has_locals, main_apart};
ghost use Rattle.derive_values.specs.Values.{numbers_of, valued};
ghost use Rattle.derive_values.specs.Views.{numbers_held};
ghost use Rattle.derive_addresses.specs.Views.{placed_of};
ghost use Rattle.derive_operands.specs.Alternatives.{keys_of};
ghost use Rattle.derive_expressions.specs.Calls.{called};
ghost use Rattle.derive_routines.specs.Held.{asked_of};
ghost use Rattle.derive_routines.specs.Made.{made};
ghost use Rattle.derive.specs.Passes as spec;
ghost use Rattle.derive.specs.Held.{GivesBytes, signatures_held};

use crate::own_names::own_names;
use derive_addresses::{Placed, placed_in, put_places_made, put_words_made, settled, words_of};
use derive_branches::branched;
use derive_classes::classed;
use derive_constants::{Known, constants};
use derive_expressions::{called, depth_fault, messages_of};
use derive_operands::{chosen, keys_of, stepped};
use derive_routines::{Asked, arities_of, put_made};
use derive_statements::{has_locals, introduced, listed, looped, main_apart, names_of, printed};
use derive_tokens::{Names, Piece, own_name, put_written};
use derive_values::{Numbers, lifted, numbers_of, routines_of, valued};
use std::alloc::{AllocError, Global};
use syntax_lexer::{PlacedFault, Token};

/// Four objects come first, as in Inform 6, so that no object of the source is 1.
pub const FIRST_OBJECTS: &[u8] =
    b"object x__1\"Class\";object x__2\"Object\";object x__3\"Routine\";object x__4\"String\";";

/// About so many bytes a token takes. There is room for them at once.
const BYTES_OF_A_TOKEN: usize = 6;

// A file with `Main` apart, if it has locals.
fn with_main_apart<'a>(
    alloc: Global,
    apart: bool,
    pieces: Vec<Piece<'a>>,
) -> Result<Vec<Piece<'a>>, AllocError>
    requires { apart ≡ has_locals (derived_all pieces.items) }
    ensures { IfOk result (λ out. derived_all out.items
        ≡ main_apart (derived_all pieces.entry.items)) }
{
    if apart {
        main_apart(alloc, &pieces)
    } else {
        Ok(pieces)
    }
}

// Statements, one form after another. The tokens of each pass go when the next has read them.
fn formed<'a>(
    alloc: Global,
    apart: bool,
    pieces: Vec<Piece<'a>>,
) -> Result<Vec<Piece<'a>>, AllocError>
    requires { apart ≡ has_locals (derived_all pieces.items) }
    ensures { IfOk result (λ out. derived_all out.items
        ≡ spec.formed (derived_all pieces.entry.items)) }
{
    let whole = with_main_apart(alloc, apart, pieces)?;
    let lists = introduced(alloc, &whole)?;
    drop(whole);
    let actions = listed(alloc, &lists)?;
    drop(lists);
    let names = names_of(alloc, &actions)?;
    let loops = looped(alloc, &names, &actions)?;
    drop(actions);
    let routines = routines_of(alloc, &loops)?;
    let out = printed(alloc, &routines, &loops)?;
    Ok(out)
}

// Operands: alternatives, which are these, and then steps.
fn operands<'a>(
    alloc: Global,
    keys: &Names,
    statements: Vec<Piece<'a>>,
) -> Result<Vec<Piece<'a>>, AllocError>
    requires { names_of keys.now ≡ keys_of (derived_all statements.items) }
    ensures { IfOk result (λ out. derived_all out.items
        ≡ spec.operands (derived_all statements.entry.items)) }
{
    let alternatives = chosen(alloc, keys, &statements)?;
    drop(statements);
    let names = names_of(alloc, &alternatives)?;
    let out = stepped(alloc, &names, &alternatives)?;
    Ok(out)
}

/// Without the end, which is the last token.
#[tactic(auto, using(crate::proofs::Ends::derived_before_end))]
pub fn before_end<'t, 'a>(pieces: &'t [Piece<'a>]) -> &'t [Piece<'a>]
    ensures { derived_all result.now ≡ spec.before_end (derived_all pieces.now) }
{
    pieces.split_at(pieces.len().saturating_sub(1)).0
}

// The source up to the routines that are made.
fn file_text(alloc: Global, calls: &[Piece<'_>]) -> Result<Vec<u8>, AllocError>
    ensures { IfOk result (λ text. text.items ≡ spec.file_text (derived_all calls.now)) }
{
    let mut text = Vec::from_slice(alloc, FIRST_OBJECTS)?;
    let _room = text.reserve(calls.len().saturating_mul(BYTES_OF_A_TOKEN));
    put_written(&mut text, before_end(calls))?;
    text.push(b' ')?;
    Ok(text)
}

// The source of these calls, with the routines that the file asks for.
fn asking_source(
    alloc: Global,
    asked: Asked<'_>,
    calls: &[Piece<'_>],
) -> Result<Vec<u8>, AllocError>
    requires texts { length (names_of asked.texts.now) ≤ 8192 }
    requires routines { length (names_of asked.routines.now) ≤ 8000 }
    ensures { IfOk result (λ text. text.items
        ≡ spec.file_text (derived_all calls.now) ++ made (asked_of asked.entry)) }
{
    let mut text = file_text(alloc, calls)?;
    put_made(&mut text, asked)?;
    Ok(text)
}

// What the routines of a file are given.
#[derive(Drop)]
struct Signatures {
    // How many arguments each takes.
    arities: Known,

    // `Main` has locals.
    apart: bool,
}

fn signatures_of(alloc: Global, pieces: &[Piece<'_>]) -> Result<Signatures, AllocError>
    ensures { IfOk result (λ given. signatures_held given
        ≡ spec.signatures_of (derived_all pieces.now)) }
{
    let arities = arities_of(alloc, pieces)?;
    let apart = has_locals(pieces);
    Ok(Signatures { arities, apart })
}

// The source of these calls, in a file that sends these messages, and has these alternatives and
// these places.
fn called_source(
    alloc: Global,
    numbers: &Numbers,
    given: &Signatures,
    messages: &Names,
    keys: &Names,
    placed: &Placed,
    calls: &[Piece<'_>],
) -> Result<Vec<u8>, AllocError>
    requires texts { length (names_of numbers.now.texts) ≤ 8192 }
    requires routines { length (names_of numbers.now.routines) ≤ 8000 }
    requires values { length (names_of placed.now.values) ≤ 8192 }
    requires places { length (names_of placed.now.places) ≤ 8192 }
    ensures { IfOk result (λ text. text.items ≡ spec.called_source (numbers_held numbers.now)
        (signatures_held given.now) (names_of messages.now) (names_of keys.now)
        (placed_of placed.now) (derived_all calls.now)) }
{
    let names = own_names(alloc, calls)?;
    let asked = Asked {
        texts: &numbers.texts,
        routines: &numbers.routines,
        arities: &given.arities,
        messages,
        keys,
        apart: given.apart,
        names: &names,
    };
    let mut text = asking_source(alloc, asked, calls)?;
    put_places_made(&mut text, &names, placed)?;
    let words = words_of(alloc, calls)?;
    put_words_made(&mut text, &names, &words)?;
    Ok(text)
}

// The source of operands whose entries are calls, in a file that has these alternatives and these
// arrays as values.
fn finished(
    alloc: Global,
    numbers: &Numbers,
    given: &Signatures,
    keys: &Names,
    placed: &Placed,
    entries: Vec<Piece<'_>>,
) -> Result<Vec<u8>, PlacedFault>
    requires texts { length (names_of numbers.now.texts) ≤ 8192 }
    requires routines { length (names_of numbers.now.routines) ≤ 8000 }
    requires values { length (names_of placed.now.values) ≤ 8192 }
    requires places { length (names_of placed.now.places) ≤ 8192 }
    ensures { GivesBytes result (spec.finished (numbers_held numbers.now)
        (signatures_held given.now) (names_of keys.now) (placed_of placed.now)
        (derived_all entries.entry.items) (called (derived_all entries.entry.items))) }
{
    let row = entries.as_slice();
    let file = names_of(alloc, row)?;
    let messages = messages_of(alloc, &file, row)?;
    match called(alloc, &file, &messages, row) {
        Ok(calls) => {
            drop(entries);
            let text = called_source(alloc, numbers, given, &messages, keys, placed, &calls)?;
            Ok(text)
        }
        Err(fault) => Err(fault),
    }
}

// The source of tokens whose statements are formed, and whose values have these numbers.
fn entered_source(
    alloc: Global,
    numbers: &Numbers,
    given: &Signatures,
    statements: Vec<Piece<'_>>,
) -> Result<Vec<u8>, PlacedFault>
    requires texts { length (names_of numbers.now.texts) ≤ 8192 }
    requires routines { length (names_of numbers.now.routines) ≤ 8000 }
    ensures { GivesBytes result (spec.entered_source (numbers_held numbers.now)
        (signatures_held given.now) (derived_all statements.entry.items)) }
{
    let keys = keys_of(alloc, &statements)?;
    let stepping = operands(alloc, &keys, statements)?;
    let row = stepping.as_slice();
    let placed = placed_in(alloc, row)?;
    let entries = settled(alloc, &placed, row)?;
    drop(stepping);
    finished(alloc, numbers, given, &keys, &placed, entries)
}

// The source of tokens whose values have these numbers, and whose brackets are not too deep.
fn formed_source(
    alloc: Global,
    numbers: &Numbers,
    values: Vec<Piece<'_>>,
) -> Result<Vec<u8>, PlacedFault>
    requires texts { length (names_of numbers.now.texts) ≤ 8192 }
    requires routines { length (names_of numbers.now.routines) ≤ 8000 }
    ensures { GivesBytes result
        (spec.formed_source (numbers_held numbers.now) (derived_all values.entry.items)) }
{
    let given = signatures_of(alloc, &values)?;
    let statements = formed(alloc, given.apart, values)?;
    entered_source(alloc, numbers, &given, statements)
}

// The source of tokens whose values have these numbers.
fn valued_source(
    alloc: Global,
    numbers: &Numbers,
    values: Vec<Piece<'_>>,
) -> Result<Vec<u8>, PlacedFault>
    requires texts { length (names_of numbers.now.texts) ≤ 8192 }
    requires routines { length (names_of numbers.now.routines) ≤ 8000 }
    ensures { GivesBytes result
        (spec.valued_source (numbers_held numbers.now) (derived_all values.entry.items)) }
{
    match depth_fault(&values) {
        Some(fault) => Err(fault),
        None => formed_source(alloc, numbers, values),
    }
}

// The source of tokens without classes.
fn stated(alloc: Global, pieces: Vec<Piece<'_>>) -> Result<Vec<u8>, PlacedFault>
    ensures { GivesBytes result (spec.stated (numbers_of (derived_all pieces.entry.items))
        (valued (derived_all pieces.entry.items))) }
{
    let row = pieces.as_slice();
    let routines = routines_of(alloc, row)?;
    let numbers = numbers_of(alloc, &routines, row)?;
    match valued(alloc, &routines, &numbers, row) {
        Ok(values) => {
            drop(pieces);
            valued_source(alloc, &numbers, values)
        }
        Err(fault) => Err(fault),
    }
}

// The source of tokens whose routines in properties are lifted, and which may have classes.
fn unclassed_source(alloc: Global, pieces: Vec<Piece<'_>>) -> Result<Vec<u8>, PlacedFault>
    ensures { GivesBytes result
        (spec.unclassed_source (classed (derived_all pieces.entry.items))) }
{
    match classed(alloc, &pieces) {
        Ok(objects) => {
            drop(pieces);
            stated(alloc, objects)
        }
        Err(fault) => Err(fault),
    }
}

// The source of tokens of the branches that are taken.
fn computed_source(alloc: Global, tokens: Vec<Token<'_>>) -> Result<Vec<u8>, PlacedFault>
    ensures { GivesBytes result (spec.computed_source (lexemes tokens.entry.items)) }
{
    let computed = constants(alloc, &tokens)?;
    drop(tokens);
    let pieces = lifted(alloc, &computed)?;
    drop(computed);
    unclassed_source(alloc, pieces)
}

// The source of tokens that have no name which only passes make.
fn branched_source(alloc: Global, tokens: Vec<Token<'_>>) -> Result<Vec<u8>, PlacedFault>
    ensures { GivesBytes result
        (spec.branched_source (branched (lexemes tokens.entry.items))) }
{
    match branched(alloc, &tokens) {
        Ok(taken) => {
            drop(tokens);
            computed_source(alloc, taken)
        }
        Err(fault) => Err(fault),
    }
}

// The tokens of a file whose routines in properties are lifted, with numbers for its values.
fn valued_pieces<'a>(alloc: Global, pieces: &[Piece<'a>]) -> Result<Vec<Piece<'a>>, PlacedFault> {
    let routines = routines_of(alloc, pieces)?;
    let numbers = numbers_of(alloc, &routines, pieces)?;
    valued(alloc, &routines, &numbers, pieces)
}

// The tokens of a file whose operands are passed, with its calls.
fn called_pieces<'a>(alloc: Global, entries: &[Piece<'a>]) -> Result<Vec<Piece<'a>>, PlacedFault> {
    let file = names_of(alloc, entries)?;
    let messages = messages_of(alloc, &file, entries)?;
    called(alloc, &file, &messages, entries)
}

// Operands with numbers for what has a place, and calls for entries.
fn settled_pieces<'a>(alloc: Global, stepping: &[Piece<'a>]) -> Result<Vec<Piece<'a>>, AllocError> {
    let placed = placed_in(alloc, stepping)?;
    settled(alloc, &placed, stepping)
}

// The tokens of a file whose statements are formed, with operands and calls.
fn finished_pieces<'a>(
    alloc: Global,
    statements: Vec<Piece<'a>>,
) -> Result<Vec<Piece<'a>>, PlacedFault> {
    let keys = keys_of(alloc, &statements)?;
    let stepping = operands(alloc, &keys, statements)?;
    drop(keys);
    let entries = settled_pieces(alloc, &stepping)?;
    drop(stepping);
    called_pieces(alloc, &entries)
}

// The tokens of a file with its values, of which nothing else is known.
fn formed_pieces<'a>(alloc: Global, pieces: Vec<Piece<'a>>) -> Result<Vec<Piece<'a>>, PlacedFault> {
    let values = valued_pieces(alloc, &pieces)?;
    drop(pieces);
    let apart = has_locals(&values);
    let statements = formed(alloc, apart, values)?;
    finished_pieces(alloc, statements)
}

/// The tokens of the source of the profile that those of an extended source stand for, but for the
/// routines that are made.
///
/// # Errors
///
/// Those of [`passed`].
pub fn tokens_passed<'a>(
    alloc: Global,
    tokens: Vec<Token<'a>>,
) -> Result<Vec<Piece<'a>>, PlacedFault> {
    let taken = branched(alloc, &tokens)?;
    drop(tokens);
    let computed = constants(alloc, &taken)?;
    drop(taken);
    let pieces = lifted(alloc, &computed)?;
    drop(computed);
    let objects = classed(alloc, &pieces)?;
    drop(pieces);
    formed_pieces(alloc, objects)
}

/// The source of the profile that the tokens of an extended source stand for.
///
/// # Errors
///
/// The first fault that a pass finds: E02, E05, E10, E20 or E24, at the place of its token; and E99.
pub fn passed(alloc: Global, tokens: Vec<Token<'_>>) -> Result<Vec<u8>, PlacedFault>
    ensures { GivesBytes result (spec.passed (lexemes tokens.entry.items)) }
{
    match own_name(&tokens) {
        Some(fault) => Err(fault),
        None => branched_source(alloc, tokens),
    }
}
