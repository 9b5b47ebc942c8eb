//! What does not fit where it is (E10), and what is nested too deep (E05).

ghost use Rattle.syntax_lexer.specs.Token.{lexemes};
ghost use Rattle.syntax_lexer.specs.Tokens.{EndsOnce};

use crate::attempts::{Cause, Named};
use crate::causes::likely_cause;
use crate::told::{Clause, Part, Sentence, Told};
use crate::trials::Trial;
use messages_advice::{Expected, Grouped, Met, expected, in_groups, place_of};
use messages_parts::{Advice, Context, Spot, before, begins_line, last_open, line_of, text_at};
use std::alloc::{AllocError, Global};
use syntax::{Kind, Position, Sign, Token};

/// The most tokens of a source for which the kinds that are expected are listed. Each kind costs a
/// parse.
const MOST_LISTED: usize = 60_000;

/// A token that does not fit, and the likely cause.
#[derive(Clone, Copy)]
struct Misfit<'a, 't, 'w> {
    place: Context<'t, 'a>,
    token: Token<'a>,

    /// The kinds of tokens with which a program could go on, if they were asked for.
    wanted: Expected<'w>,

    cause: Cause,
}

/// The sign that opens what a sign closes, and what is said where it is not closed.
fn opening(sign: Sign) -> Option<(Sign, &'static str)> {
    match sign {
        Sign::CloseParenthesis => Some((Sign::OpenParenthesis, ": the parenthesis @")),
        Sign::CloseBrace => Some((Sign::OpenBrace, ": the block @")),
        Sign::CloseBracket => Some((Sign::OpenBracket, ": the routine @")),
        _ => None,
    }
}

impl<'a, 't, 'w> Misfit<'a, 't, 'w> {
    /// The line of the token before that at a spot.
    fn line_before(&self, spot: Spot) -> usize {
        line_of(self.place.tokens, before(self.place.number(spot), 1))
    }

    /// What a cause names.
    fn named(&self, named: Named) -> Part<'a> {
        match named {
            Named::Nothing => Part::Nothing,
            Named::Sign(sign) => Part::Sign(sign),
            Named::Token(spot) => Part::Quoted(self.place.text(spot)),
            Named::LineBefore(spot) => Part::Line(self.line_before(spot)),
        }
    }

    /// What is told of a sign that may be missing, where what it closes is not named: nothing if it is
    /// all that is expected.
    fn put(&self, sign: Sign) -> Clause<'a> {
        match self.wanted.0 {
            Some(grouped) if grouped.is_only(sign) => Clause("", Part::Nothing),
            _ => match sign {
                Sign::CloseBracket => Clause(": put '];' there", Part::Nothing),
                _ => Clause(": put @ there", Part::Sign(sign)),
            },
        }
    }

    /// What is told of a sign that may be missing.
    fn missing(&self, sign: Sign) -> Clause<'a> {
        let Some((open, words)) = opening(sign) else {
            return self.put(sign);
        };
        match last_open(self.place.tokens, self.place.at, open, sign) {
            Some(number) => Clause(words, Part::Unclosed(line_of(self.place.tokens, number))),
            None => self.put(sign),
        }
    }

    /// Whether the token begins a line, and `;` is expected or may be missing before it. Then the place
    /// to show is the end of the line before.
    fn is_after_line(&self) -> bool {
        let may_be = match self.cause {
            Cause::Missing(_, Spot::Last) => false,
            Cause::Missing(Sign::Semicolon, _) => true,
            Cause::Missing(_, _) | Cause::Unknown => match self.wanted.0 {
                Some(grouped) => grouped.has_alone(Sign::Semicolon),
                None => false,
            },
            _ => false,
        };
        may_be && begins_line(self.place.tokens, self.place.at)
    }

    /// What is said of advice.
    fn of_advice(&self, advice: Advice) -> Clause<'a> {
        match advice {
            Advice::Absent(what, feature) => Clause("@", Part::Absent(what, feature)),
            Advice::Word(number, feature) => {
                Clause(
                    "@",
                    Part::AbsentWord(text_at(self.place.tokens, number), feature),
                )
            }
            Advice::Do(what) => Clause("# expected, not *: @", Part::Words(what)),
            Advice::Want(_) => Clause("# expected, not *", Part::Nothing),
        }
    }

    /// What is said of a token that may be one too many.
    fn extra(&self) -> &'static str {
        match self.token.kind {
            Kind::Sign(Sign::CloseBrace) => {
                "# expected, not *: remove it, or write '{' where its block begins"
            }
            _ => "# expected, not *: remove it",
        }
    }

    /// What is said by the cause: words to begin with, and a clause.
    fn said(&self) -> (&'static str, Clause<'a>) {
        match self.cause {
            Cause::Missing(sign, Spot::Here) => ("# expected before *", self.missing(sign)),
            Cause::Missing(_, spot) => {
                let line = Part::Line(self.line_before(spot));
                ("# expected, not *", Clause(": put ';' after line @", line))
            }
            Cause::Said(words, named) => ("", Clause(words, self.named(named))),
            Cause::Misspelt(number, word) => {
                let name = text_at(self.place.tokens, number);
                ("", Clause("@", Part::Misspelt(name, word)))
            }
            Cause::Told(advice) => ("", self.of_advice(advice)),
            Cause::Extra => ("", Clause(self.extra(), Part::Nothing)),
            Cause::Unknown => ("", Clause("# expected, not *", Part::Nothing)),
        }
    }

    /// What is said where something is missing at the end of the line before.
    fn said_of_line(&self) -> Clause<'a> {
        match self.cause {
            Cause::Missing(sign, _) => self.put(sign),
            _ => Clause("", Part::Nothing),
        }
    }

    /// A sentence, with its place.
    fn sentence(
        &self,
        alloc: Global,
        begin: &'static str,
        clause: Clause<'a>,
        place: Option<Position>,
    ) -> Result<Option<Told>, AllocError> {
        let sentence = Sentence {
            begin,
            clause,
            wanted: self.wanted,
            met: Met(self.token),
            line: self.line_before(Spot::Here),
        };
        match format!(in alloc; "{sentence}") {
            Ok(sentence) => Ok(Some(Told { sentence, place })),
            Err(refused) => Err(refused),
        }
    }

    /// What is wrong, and the place to show.
    fn told(&self, alloc: Global) -> Result<Option<Told>, AllocError> {
        if self.is_after_line() {
            let place = end_before(self.place);
            return self.sentence(alloc, "# expected after line %", self.said_of_line(), place);
        }
        let (begin, clause) = self.said();
        self.sentence(alloc, begin, clause, None)
    }
}

/// The place after the token before one, with its line.
fn end_before(place: Context<'_, '_>) -> Option<Position> {
    let last = place.tokens.get(place.number(Spot::Last))?;
    Some(Position {
        offset: last.end(),
        line: last.position.line,
    })
}

/// The kinds of tokens with which a program begins in the place of the first that does not fit.
/// `None` in a source of very many tokens.
fn wanted(alloc: Global, tokens: &[Token<'_>]) -> Result<Option<Grouped>, AllocError>
    requires { EndsOnce (lexemes tokens.now) }
{
    if tokens.len() > MOST_LISTED {
        return Ok(None);
    }
    let Ok(found) = expected(alloc, tokens) else {
        return Err(AllocError);
    };
    let Some(kinds) = found else {
        return Ok(None);
    };
    match in_groups(alloc, &kinds) {
        Ok(grouped) => Ok(Some(grouped)),
        Err(refused) => Err(refused),
    }
}

/// What is wrong with the token at a place, where some kinds are expected.
fn misfit_among<'a>(
    alloc: Global,
    token: Token<'a>,
    place: Context<'_, 'a>,
    wanted: Option<&Grouped>,
) -> Result<Option<Told>, AllocError> {
    let mut trial = Trial {
        alloc,
        tokens: place.tokens,
        is_refused: false,
    };
    let cause = likely_cause(&mut trial, place);
    if trial.is_refused {
        return Err(AllocError);
    }
    let misfit = Misfit {
        place,
        token,
        wanted: Expected(wanted),
        cause,
    };
    misfit.told(alloc)
}

/// What is wrong with the first token of a source that does not fit, and has a number.
pub fn misfit_at<'a>(
    alloc: Global,
    source: &[u8],
    tokens: &[Token<'a>],
    number: usize,
    token: Token<'a>,
) -> Result<Option<Told>, AllocError>
    requires { EndsOnce (lexemes tokens.now) }
{
    match wanted(alloc, tokens) {
        Ok(grouped) => {
            let place = place_of(source, tokens, number, grouped.as_ref());
            misfit_among(alloc, token, place, grouped.as_ref())
        }
        Err(refused) => Err(refused),
    }
}

/// What is wrong with a token that is nested too deep.
pub fn too_deep(alloc: Global, token: Token<'_>) -> Result<String, AllocError> {
    format!(in alloc; "{} is nested more than 100 deep", Met(token))
}
