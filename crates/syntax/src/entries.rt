//! What stands in a file, read from tokens: directives, and the texts of each `abbreviate`.

ghost use Rattle.std.specs.Prelude.{◌≡◌, IfErr, IfOk, [], ◌∷◌, ◌++◌};
ghost use Rattle.syntax_lexer.specs.Token.{lexeme};
ghost use Rattle.syntax_trees.specs.Returned.{ahead, Takes};
ghost use Rattle.syntax.specs.Parse as spec;
ghost use Rattle.syntax.specs.Parse.{parts_in};

use syntax_directives::{Directive, Text, abbreviate, directive};
use syntax_lexer::{Kind, Token, Word};
use syntax_trees::{ParseError, Parsed, Parser, is_word, pass, peek};

/// What stands in a file: its directives, and the texts of all `abbreviate`, each in order.
#[derive(Drop)]
pub struct FileEntries<'a> {
    pub directives: Vec<Directive<'a>>,
    pub abbreviations: Vec<Text<'a>>,
}

fn goes_on(token: Token<'_>) -> bool
    ensures { result ≡ spec.goes_on (lexeme token.entry) }
{
    !matches!(token.kind, Kind::End)
}

// One more directive in a row.
fn add<'a>(directives: &mut Vec<Directive<'a>>, next: Box<Directive<'a>>) -> Parsed<()>
    ensures ok { IfOk result (λ _. directives.new.items
        ≡ directives.old.items ++ next.entry.value ∷ []) }
    ensures err { IfErr result (λ e. e ≡ ParseError.Memory) }
{
    directives.push(Box::into_inner(next))?;
    Ok(())
}

// The directive that comes next, after what was read before.
#[tactic(auto, unfolding(crate::specs::Parse::directive_more), using(crate::proofs::EntriesRead::map_last))]
fn add_directive<'t, 'a>(
    parser: &mut Parser<'t, 'a>,
    found: &mut FileEntries<'a>,
    depth: usize,
) -> Parsed<()>
    ensures { Takes (λ _. parts_in found.new) result parser.new
        (spec.directive_more depth (parts_in found.old) (ahead parser.old)) }
{
    match directive(parser, depth) {
        Ok(next) => {
            add(&mut found.directives, next)?;
            Ok(())
        }
        Err(e) => Err(e),
    }
}

// The texts of an `abbreviate`, from its word on, after what was read before.
#[tactic(auto, unfolding(crate::specs::Parse::texts_more), using(crate::proofs::EntriesRead::map_both))]
fn add_texts<'t, 'a>(parser: &mut Parser<'t, 'a>, found: &mut FileEntries<'a>) -> Parsed<()>
    ensures { Takes (λ _. parts_in found.new) result parser.new
        (spec.texts_more (parts_in found.old) (ahead parser.old)) }
{
    pass(parser);
    let texts = abbreviate(parser)?;
    found.abbreviations.extend_from_slice(&texts)?;
    Ok(())
}

// A directive, or the texts of an `abbreviate`, after what was read before.
#[tactic(auto, unfolding(crate::specs::Parse::one_more))]
fn entry<'t, 'a>(
    parser: &mut Parser<'t, 'a>,
    found: &mut FileEntries<'a>,
    depth: usize,
) -> Parsed<()>
    ensures { Takes (λ _. parts_in found.new) result parser.new
        (spec.one_more depth (parts_in found.old) (ahead parser.old)) }
{
    if is_word(peek(parser.tokens), Word::Abbreviate) {
        return add_texts(parser, found);
    }
    add_directive(parser, found, depth)
}

/// The directives and the abbreviations, up to the end, with `depth` nestings to open in a
/// statement.
///
/// # Errors
///
/// `Fault::Grammar` at the first token with which no derivation goes on, `Fault::Deep` at the token
/// for which no nesting is left, and `Memory` where a growth is refused.
#[tactic(auto, unfolding(crate::specs::Parse::entries, crate::specs::Parse::all_entries), using(crate::proofs::EntriesRead::entries_out, crate::proofs::EntriesRead::entries_done, crate::proofs::EntriesRead::entries_more, crate::proofs::EntriesRead::entries_fail))]
pub fn entries<'t, 'a>(parser: &mut Parser<'t, 'a>, depth: usize) -> Parsed<FileEntries<'a>>
    ensures { Takes parts_in result parser.new (spec.entries depth (ahead parser.old)) }
{
    let mut found = FileEntries {
        directives: Vec::new(parser.alloc),
        abbreviations: Vec::new(parser.alloc),
    };
    for _turn in 0..parser.tokens.len() {
        if !goes_on(peek(parser.tokens)) {
            break;
        }
        match entry(parser, &mut found, depth) {
            Ok(()) => (),
            Err(e) => return Err(e),
        }
    }
    Ok(found)
}
