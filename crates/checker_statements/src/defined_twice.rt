//! Names that are defined twice.

ghost use Rattle.std.specs.Prelude.{◌≡◌};
ghost use Rattle.syntax_trees.specs.Views.{name_tree};
ghost use Rattle.checker_values.specs.Noted.{noted};
ghost use Rattle.checker_values.specs.Names as spec;

use checker_values::{Table, Tally, find, note};
use syntax_lexer::DEFINED_TWICE;
use syntax_trees::Name;

/// A name that is defined where these names are defined.
#[tactic(auto, using(checker_values::proofs::Noted::noted_none))]
pub fn definition_rule(name: Name<'_>, table: &Table, tally: &mut Tally)
    ensures { tally.new ≡ noted tally.old (spec.twice table.now.entries (name_tree name.entry)) }
{
    if find(table, name.text).is_some() {
        note(tally, DEFINED_TWICE, name.position);
    }
}
