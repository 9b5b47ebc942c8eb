//! Whole programs, read from tokens.

ghost use Rattle.std.specs.Prelude.{◌≡◌, ◌≤◌, ◌<◌, ◌⊎◌, ◌∷◌, [], IfOk, IfErr, List, Some};
ghost use Rattle.syntax_lexer.specs.FaultNumbers.{no_memory};
ghost use Rattle.syntax_lexer.specs.Placed.{nowhere, unplaced};
ghost use Rattle.syntax_lexer.specs.Token.{Lexeme, lexeme, lexemes};
ghost use Rattle.syntax_lexer.specs.Tokens.{EndsOnce};
ghost use Rattle.syntax_trees.specs.Parse.{Gives};
ghost use Rattle.syntax_trees.specs.Returned.{ahead};
ghost use Rattle.syntax.specs.Answers.{IfNumber, AnswersProgram};
ghost use Rattle.syntax.specs.Grammar.{IsProgram, program_nesting};
ghost use Rattle.syntax.specs.Nesting.{DeepProgram};
ghost use Rattle.syntax.specs.Places.{IsFirstUnfit, IsFirstDeep};
ghost use Rattle.syntax.specs.Tree.{ProgramTree};
ghost use Rattle.syntax.specs.Views.{program_tree};
ghost use Rattle.syntax.specs.Parse as spec;
ghost use Rattle.syntax.specs.Parse.{parts_in};

use crate::entries::{FileEntries, entries};
use crate::tree::Program;
use crate::words::dictionary_words;
use std::alloc::Global;
use syntax_directives::weight_of;
use syntax_lexer::{Kind, PlacedFault, Position, SourceFault, Token};
use syntax_trees::{Fault, Parsed, Parser, fault_at};

// How many nestings may be opened in a statement of a routine.
const MOST_NESTED: usize = 100;

// Where the token stands, if it is the end.
fn end_of(token: Token<'_>) -> Option<Position>
    ensures { result ≡ spec.end_alone (lexeme token.entry ∷ []) }
{
    match token.kind {
        Kind::End => Some(token.position),
        _ => None,
    }
}

// Where the end stands, if it alone is left.
#[tactic(auto, using(crate::proofs::Main::more_than_end))]
fn end_alone(tokens: &[Token<'_>]) -> Option<Position>
    ensures { result ≡ spec.end_alone (lexemes tokens.now) }
{
    match tokens {
        [] => None,
        [last] => end_of(*last),
        [_, _, ..] => None,
    }
}

// The program whose parts were found among the tokens, where the parser has but the end before it.
fn whole<'t, 'a>(
    parser: &Parser<'t, 'a>,
    found: FileEntries<'a>,
    tokens: &[Token<'a>],
) -> Parsed<Program<'a>>
    ensures { Gives program_tree result (spec.whole (lexemes tokens.now) (parts_in found.entry)
        (ahead parser.now) (spec.end_alone (ahead parser.now))) }
{
    let Some(end) = end_alone(parser.tokens) else {
        return Err(fault_at(Fault::Grammar, parser.tokens));
    };
    let words = dictionary_words(parser.alloc, tokens)?;
    Ok(Program {
        directives: found.directives,
        abbreviations: found.abbreviations,
        end,
        weight: weight_of(tokens),
        words,
    })
}

/// The program that the tokens are, with `depth` nestings to open in a statement, or why they are
/// none, and how many tokens are left there.
///
/// # Errors
///
/// `Fault::Grammar` at the first token with which no program begins, `Fault::Deep` at the first for
/// which no nesting is left, and `Memory` where a growth is refused.
#[tactic(auto, unfolding(crate::specs::Parse::program))]
pub fn program<'a>(alloc: Global, tokens: &[Token<'a>], depth: usize) -> Parsed<Program<'a>>
    ensures { Gives program_tree result (spec.program depth (lexemes tokens.now)) }
{
    let mut parser = Parser { alloc, tokens };
    match entries(&mut parser, depth) {
        Ok(found) => whole(&parser, found, tokens),
        Err(e) => Err(e),
    }
}

/// The program that the tokens of a source are, up to its end, which is the last of them and no
/// other.
///
/// ```text
/// Program = {Entry}
/// Entry = Directive | "abbreviate" text+ ";"
/// Directive = "global" name ["=" K] ";" | "constant" name "=" K ";"
///   | "array" name ("->" | "-->" | "string" | "table") K+ ";" | "attribute" name ";" | "property" name [K] ";"
///   | "object" ({"->"} name [text] | name [text] name)
///       [[","] "with" Prop {"," Prop}] [[","] "has" name+] ";"
///   | "[" name {name} ";" {S} "]" ";"
/// Prop = name K+
/// K = ["-"] number | char | word | name | "true" | "false" | "nothing"
/// ```
///
/// where S is a statement. A program is nested at most 100 deep.
///
/// # Errors
///
/// - E10: the tokens are not in the grammar. The line is that of the first with which no program
///   begins.
/// - E05: a token stands more than 100 nestings deep. The line is that of the first that does.
/// - E99, with line 0: a growth of memory is refused.
pub fn parse<'a>(alloc: Global, tokens: &[Token<'a>]) -> Result<Program<'a>, SourceFault>
    // What is read derives.
    ensures found { IfOk result (λ p. IsProgram (lexemes tokens.now) (program_tree p)
        × (program_nesting (program_tree p) ≤ 100)) }
    // What derives is read.
    ensures only { (p : ProgramTree) → IsProgram (lexemes tokens.now) p → program_nesting p ≤ 100
        → AnswersProgram result p }
    // When each fault comes.
    ensures grammar { IfNumber result 10
        ((p : ProgramTree) → IsProgram (lexemes tokens.now) p → ⊥) }
    ensures place { IfErr result (λ f. f.number ≡ 10 → EndsOnce (lexemes tokens.now)
        → IsFirstUnfit 100 (lexemes tokens.now) (λ p. p.line ≡ f.line)) }
    ensures deep { IfNumber result 5 (DeepProgram 101 (lexemes tokens.now)
        × ((p : ProgramTree) → IsProgram (lexemes tokens.now) p → 100 < program_nesting p)) }
    ensures deep_place { IfErr result (λ f. f.number ≡ 5
        → IsFirstDeep 100 (lexemes tokens.now) (λ p. p.line ≡ f.line)) }
    ensures numbers { IfErr result (λ f. (f.number ≡ 5) ⊎ (f.number ≡ 10) ⊎ (f ≡ no_memory)) }
{
    match parse_placed(alloc, tokens) {
        Ok(program) => Ok(program),
        Err(placed) => Err(placed.fault),
    }
}

/// The program that the tokens of a source are, as [`parse`] finds it, or the fault with its place.
///
/// # Errors
///
/// Those of [`parse`]. The offset is that of the token at fault; E99 has none.
pub fn parse_placed<'a>(alloc: Global, tokens: &[Token<'a>]) -> Result<Program<'a>, PlacedFault>
    ensures found { IfOk result (λ p. IsProgram (lexemes tokens.now) (program_tree p)
        × (program_nesting (program_tree p) ≤ 100)) }
    ensures only { (p : ProgramTree) → IsProgram (lexemes tokens.now) p → program_nesting p ≤ 100
        → AnswersProgram (unplaced result) p }
    ensures grammar { IfNumber (unplaced result) 10
        ((p : ProgramTree) → IsProgram (lexemes tokens.now) p → ⊥) }
    ensures place { IfErr result (λ f. f.fault.number ≡ 10 → EndsOnce (lexemes tokens.now)
        → IsFirstUnfit 100 (lexemes tokens.now)
        (λ p. (p.line ≡ f.fault.line) × (f.offset ≡ Some p.offset))) }
    ensures deep { IfNumber (unplaced result) 5 (DeepProgram 101 (lexemes tokens.now)
        × ((p : ProgramTree) → IsProgram (lexemes tokens.now) p → 100 < program_nesting p)) }
    ensures deep_place { IfErr result (λ f. f.fault.number ≡ 5
        → IsFirstDeep 100 (lexemes tokens.now)
        (λ p. (p.line ≡ f.fault.line) × (f.offset ≡ Some p.offset))) }
    ensures numbers { IfErr result (λ f. (f.fault.number ≡ 5) ⊎ (f.fault.number ≡ 10)
        ⊎ (f ≡ nowhere no_memory)) }
{
    match program(alloc, tokens, MOST_NESTED) {
        Ok(found) => Ok(found),
        Err(e) => Err(e.placed(tokens)),
    }
}

/// A list of tokens has at most one program.
pub fn one_tree()
    ensures { (ts : List Lexeme) (a b : ProgramTree) → IsProgram ts a → IsProgram ts b → a ≡ b }
{}
