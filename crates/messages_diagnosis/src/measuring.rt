//! The figures of a source.

ghost use Rattle.std.specs.Prelude.{◌≡◌, ◌≤◌, IfOk, None, length};
ghost use Rattle.std.specs.List.{All};
ghost use Rattle.ztext.specs.Bytes.{most_abbreviations};
ghost use Rattle.syntax.specs.Views.{program_tree};
ghost use Rattle.meaning.specs.CheckedSizes.{checked_size_fault};
ghost use Rattle.meaning.specs.Limits.{most_objects};
ghost use Rattle.meaning.specs.Views.{program_of};
ghost use Rattle.meaning.specs.Accepted.{IsAccepted};
ghost use Rattle.meaning.specs.Printable.{HasPrintableTexts};
ghost use Rattle.story_file.specs.Layout.{greatest_length, story_of};
ghost use Rattle.messages_diagnosis.specs.Needs.{HasFew, IsFirstGreatest, program_needs};
ghost use Rattle.messages_diagnosis.specs.Figures.{AreFiguresOfChecked, IsStoryOfChecked};
ghost use Rattle.messages_diagnosis.specs.Figures.{ObjectHasFewWords, attributes_in, counts_in, properties_in};
ghost use Rattle.messages_diagnosis.specs.Measured.{Measures};

use crate::definitions::{attributes_in, properties_in};
use crate::routine_figures::{RoutineFigures, routines_of};
use crate::sought::Temporaries;
use crate::statements::greatest_temporaries;
use crate::table_bytes::TableBytes;
use checker::{accepted_programs, check, discard, printable_programs};
use meaning::Checked;
use std::alloc::{AllocError, Global};
use story::{Limit, small_sources_have_small_code, story_within};
use syntax::{Program, parse, printable_trees};
use syntax_lexer::{SourceFault, lex, printable_tokens};
use zcore::Version;

/// How many there are of what a source defines and uses.
#[derive(Clone, Copy)]
pub struct Counts {
    pub globals: usize,
    pub attributes: usize,

    /// Those that the source defines: `name` is not among them.
    pub properties: usize,

    pub objects: usize,

    /// The keys of dictionary words.
    pub words: usize,

    pub abbreviations: usize,
    pub routines: usize,
}

/// What a source takes that has a tree that breaks no rule. `Display` writes a table.
#[derive(Drop)]
pub struct Figures<'a> {
    /// 32 for each token, and 3 for each byte between the quotes of a text.
    pub weight: u128,

    /// The version of the story, on which the limit rests.
    pub version: Version,

    /// Whether the weight of the source or the length of its story is limited.
    pub limit: Limit,

    /// The heaviest routines, ten at most, in descending order of weight. Of those that weigh as
    /// much, the one that is defined first stands first.
    pub heaviest: Vec<RoutineFigures<'a>>,

    /// The bytes of all routines, without what fills the places between them.
    pub code: u128,

    pub tables: TableBytes,

    /// The bytes of all tables that grow with a source.
    pub table_total: u128,

    pub counts: Counts,

    /// The greatest number of temporaries that an expression needs, and the first place with it;
    /// `None` where the source has no expression.
    pub temporaries: Option<Temporaries>,

    /// The bytes of the story file, or the fault by which the source is refused as too large: E30,
    /// E31 or E32.
    pub story: Result<usize, SourceFault>,
}

/// What is found in the tree of a source, before names are resolved.
#[derive(Clone, Copy)]
struct TreeFigures {
    attributes: usize,
    properties: usize,
    temporaries: Option<Temporaries>,
}

fn tree_figures(program: &Program<'_>) -> TreeFigures
    ensures attributes { result.attributes
        ≡ attributes_in (program_tree program.now).directives }
    ensures properties { result.properties
        ≡ properties_in (program_tree program.now).directives }
    ensures temporaries { All HasFew (program_needs (program_tree program.now))
        → IsFirstGreatest (program_needs (program_tree program.now)) result.temporaries }
{
    TreeFigures {
        attributes: attributes_in(&program.directives),
        properties: properties_in(&program.directives),
        temporaries: greatest_temporaries(program),
    }
}

/// The bytes of the story of a program; or why it is too large.
fn story_bytes(
    alloc: Global,
    checked: &Checked<'_>,
    version: Version,
    limit: Limit,
) -> Result<Result<usize, SourceFault>, AllocError>
    requires accepted { IsAccepted (program_of checked.now) }
    requires printable { HasPrintableTexts (program_of checked.now) }
    requires light { checked_size_fault checked.now version ≡ None
        → length (story_of version (program_of checked.now)) ≤ greatest_length version }
    ensures { IfOk result (λ s. IsStoryOfChecked limit version checked.now s) }
{
    match story_within(alloc, checked, version, limit)? {
        Ok(story) => Ok(Ok(story.len())),
        Err(placed) => Ok(Err(placed.fault)),
    }
}

/// How many there are of what a program has.
fn counts_of(checked: &Checked<'_>, of_tree: TreeFigures) -> Counts
    ensures { result ≡ counts_in checked.now of_tree.attributes of_tree.properties }
{
    Counts {
        globals: checked.globals().len(),
        attributes: of_tree.attributes,
        properties: of_tree.properties,
        objects: checked.objects().len(),
        words: checked.keys().len(),
        abbreviations: checked.abbreviations().texts().len(),
        routines: checked.routines(),
    }
}

/// The figures of a program, beside what was counted in its tree.
fn figures_of<'a>(
    alloc: Global,
    checked: &Checked<'a>,
    version: Version,
    limit: Limit,
    of_tree: TreeFigures,
) -> Result<Figures<'a>, AllocError>
    requires words { All ObjectHasFewWords checked.now.objects }
    requires few { length checked.now.objects ≤ most_objects }
    requires short { length checked.now.abbreviations ≤ most_abbreviations }
    requires accepted { IsAccepted (program_of checked.now) }
    requires printable { HasPrintableTexts (program_of checked.now) }
    requires light { checked_size_fault checked.now version ≡ None
        → length (story_of version (program_of checked.now)) ≤ greatest_length version }
    ensures checked { IfOk result (λ f. AreFiguresOfChecked limit version checked.now f) }
    ensures counts { IfOk result (λ f. f.counts
        ≡ counts_in checked.now of_tree.attributes of_tree.properties) }
    ensures temporaries { IfOk result (λ f. f.temporaries ≡ of_tree.temporaries) }
{
    let tables = TableBytes::of(checked);
    let routines = routines_of(alloc, checked)?;
    let story = story_bytes(alloc, checked, version, limit)?;
    Ok(Figures {
        weight: checked.source_weight(),
        version,
        limit,
        heaviest: routines.heaviest,
        code: routines.size,
        tables,
        table_total: tables.total(),
        counts: counts_of(checked, of_tree),
        temporaries: of_tree.temporaries,
        story,
    })
}

/// What a source takes, of what there may be, as a story of a version by a limit: also one that is
/// refused as too large, by E30, E31 or E32, which stands in the figures.
///
/// # Errors
///
/// The fault by which any other source is refused, as `compile_placed` of `story` answers it; E99,
/// with line 0, where a growth of memory was refused.
pub fn measure<'a>(
    alloc: Global,
    source: &'a [u8],
    version: Version,
    limit: Limit,
) -> Result<Figures<'a>, SourceFault>
    ensures { Measures limit version source.now result }
{
    accepted_programs();
    printable_tokens();
    printable_trees();
    printable_programs();
    small_sources_have_small_code();
    let tokens = lex(alloc, source)?;
    let program = parse(alloc, &tokens)?;
    // The tree names no token, and they may take more memory than it.
    drop(tokens);
    let of_tree = tree_figures(&program);
    let checked = check(alloc, program)?;
    let figures = figures_of(alloc, &checked, version, limit, of_tree);
    discard(checked);
    let found = figures?;
    Ok(found)
}
