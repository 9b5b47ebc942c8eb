//! Abbreviations: the rules that they can break, and their characters.

ghost use Rattle.std.specs.Prelude.{◌≡◌, [], IfOk, map};
ghost use Rattle.syntax_directives.specs.Tree.{TextTree};
ghost use Rattle.syntax_directives.specs.Views.{text_tree};
ghost use Rattle.checker_values.specs.Noted.{noted};
ghost use Rattle.meaning.specs.Places as places;
ghost use Rattle.checker.specs.Programs as spec;

use checker_values::{Tally, note};
use meaning::machine_character;
use std::alloc::{AllocError, Global};
use syntax::Text;
use syntax_lexer::{BAD_ABBREVIATION, TOO_MANY};
use zcore::{Abbreviations, MOST_ABBREVIATIONS};

fn has_text(texts: &[Text<'_>], bytes: &[u8]) -> bool
    ensures { result ≡ spec.has_text (map text_tree texts.now) bytes.now }
{
    for text in texts {
        if text.bytes == bytes {
            return true;
        }
    }
    false
}

// An abbreviation that follows these.
#[tactic(auto, using(checker_values::proofs::Noted::noted_none))]
fn text_rule(before: &[Text<'_>], text: Text<'_>, tally: &mut Tally)
    ensures { tally.new ≡ noted tally.old
        (spec.abbreviation_breaches (map text_tree before.now) (text_tree text.entry)) }
{
    if before.len() >= MOST_ABBREVIATIONS {
        note(tally, TOO_MANY, text.position);
    } else if text.bytes.len() < 2 || has_text(before, text.bytes) {
        note(tally, BAD_ABBREVIATION, text.position);
    }
}

/// Notes the rules that abbreviations break. Each is compared with no more than the first 96
/// ([`MOST_ABBREVIATIONS`]).
pub fn abbreviation_rules(texts: &[Text<'_>], tally: &mut Tally)
    ensures { tally.new ≡ noted tally.old
        (spec.abbreviations_breaches [] (map text_tree texts.now)) }
{
    for i in 0..texts.len() {
        text_rule(&texts[..i], texts[i], tally);
    }
}

fn characters(alloc: Global, text: &[u8]) -> Result<Vec<u8>, AllocError>
    ensures { IfOk result (λ v. v.items ≡ map places.machine_character text.now) }
{
    let mut found = Vec::new(alloc);
    for byte in text {
        found.push(machine_character(*byte))?;
    }
    Ok(found)
}

/// Abbreviations, in characters of the machine.
///
/// # Errors
///
/// `AllocError` where memory is refused.
pub fn all_abbreviations(texts: &[Text<'_>], alloc: Global) -> Result<Abbreviations, AllocError>
    ensures { IfOk result (λ a. a
        ≡ map (λ (t : TextTree). map places.machine_character t.bytes) (map text_tree texts.now)) }
{
    let mut found = Abbreviations::new(alloc);
    for text in texts {
        let added = characters(alloc, text.bytes)?;
        found.add(alloc, &added)?;
    }
    Ok(found)
}
