//! A place in a source, and the first rule that holds there.

use crate::advice::Advice;
use crate::definitions::{Definition, defined_at, is_unknown};
use crate::feature::{
    Feature, habit_as_name, habit_as_operand, habit_at_beginning, habit_between, is_one_of, named,
    named_in_expression,
};
use crate::kinds::{has, is_of};
use crate::objects::is_property;
use crate::operands::{begins_expression, ends_operand, is_changed};
use crate::rules::{Say, Spot, Step, Test, Want, Words};
use crate::statements::{
    begins_line, group_at, is_joined, last_open, open_parenthesis, start_of, switch_around,
};
use crate::tokens::{after, before, begins_statement, text_at};
use crate::walks::{
    begins_two_commas, bytes_after, count_of, end_of_definition, ends_else, is_after,
    is_before_colon, is_case, is_in_brackets, is_in_constant, is_in_main, is_in_names,
    is_inequality, is_known, is_negation, last_do, repeats,
};
use syntax_lexer::{Sign, Token};

/// What is around a place in a source: the token of a number, which does not fit. The other numbers are of tokens
/// too; of none where there is none.
#[derive(Clone, Copy)]
pub struct Context<'t, 's> {
    source: &'t [u8],
    pub tokens: &'t [Token<'s>],
    pub at: usize,
    /// What is expected or wanted at the place.
    wants: u64,
    /// What is found by the name at the place.
    found: u64,
    /// The first of the statement or the definition around the place.
    start: usize,
    /// The `(` that is open at the place.
    open: usize,
    /// The `(` of the parentheses that end right before the place.
    group: usize,
    /// The `{` that is open at the place.
    brace: usize,
    /// The last `do` before the place, or the `[` of its routine.
    last_do: usize,
}

/// What holds of the conditions of a rule, as far as they were asked.
#[derive(Clone, Copy)]
pub struct Conditions {
    /// All after the last `|`.
    all: bool,
    /// All from one `|` to another.
    pub any: bool,
}

/// None was asked.
pub const NO_CONDITIONS: Conditions = Conditions {
    all: true,
    any: false,
};

/// A set of one member if something is wanted, and else of none.
pub fn wants(want: Want, is_wanted: bool) -> u64 {
    u64::from(is_wanted).wrapping_shl(u32::from(want as u8))
}

/// What to write for one of some words.
fn feature_of(words: Words, text: &[u8]) -> Option<&'static Feature> {
    match words {
        Words::Inform => named(text),
        Words::InExpression => named_in_expression(text),
        Words::Between => habit_between(text),
        Words::Beginning => habit_at_beginning(text),
        Words::Operand => habit_as_operand(text),
        Words::Name => habit_as_name(text),
    }
}

impl<'t, 's> Context<'t, 's> {
    /// The place at the token of a number, where something is expected.
    pub fn new(source: &'t [u8], tokens: &'t [Token<'s>], at: usize, wants: u64) -> Self {
        let start = start_of(tokens, at);
        let open = open_parenthesis(tokens, at).unwrap_or(usize::MAX);
        let group = group_at(tokens, before(at, 1));
        let brace = last_open(tokens, at, Sign::OpenBrace, Sign::CloseBrace).unwrap_or(usize::MAX);
        let last_do = last_do(tokens, at);
        Self {
            source,
            tokens,
            at,
            wants,
            found: 0,
            start,
            open,
            group,
            brace,
            last_do,
        }
    }

    /// The place where something of a kind is found by the name.
    pub fn finding(self, what: Definition) -> Self {
        Self {
            found: 1_u64.wrapping_shl(u32::from(what as u8)),
            ..self
        }
    }

    /// The place where something is wanted.
    pub fn wanting(self, want: Want) -> Self {
        Self {
            wants: wants(want, true),
            ..self
        }
    }

    /// The place at the next token.
    pub fn next(self) -> Self {
        Self::new(self.source, self.tokens, after(self.at, 1), self.wants)
    }

    /// The number of the token at a spot; a number of none where there is none.
    pub fn number(self, spot: Spot) -> usize {
        match spot {
            Spot::FourthLast => before(self.at, 4),
            Spot::ThirdLast => before(self.at, 3),
            Spot::SecondLast => before(self.at, 2),
            Spot::Last => before(self.at, 1),
            Spot::Here => self.at,
            Spot::Next => after(self.at, 1),
            Spot::SecondNext => after(self.at, 2),
            Spot::ThirdNext => after(self.at, 3),
            Spot::BeforeEnd => before(self.start, 2),
            Spot::End => before(self.start, 1),
            Spot::First => self.start,
            Spot::Second => after(self.start, 1),
            Spot::Third => after(self.start, 2),
            Spot::Open => self.open,
            Spot::BeforeOpen => before(self.open, 1),
            Spot::Caller => before(self.group, 1),
            Spot::Brace => self.brace,
            Spot::BeforeDo => before(self.last_do, 1),
            Spot::Do => self.last_do,
            Spot::AfterDo => after(self.last_do, 1),
            Spot::AfterDefinition => end_of_definition(self.tokens, self.at),
        }
    }

    /// Whether the token at a spot, or the place, passes a test.
    fn passes(self, spot: Spot, test: Test) -> bool {
        let tokens = self.tokens;
        let number = self.number(spot).min(tokens.len());
        match test {
            Test::Kind(kinds) => is_of(tokens, number, kinds),
            Test::Named(names) => is_one_of(text_at(tokens, number), names),
            Test::Unknown => is_unknown(tokens, number),
            Test::Known(set) => is_known(tokens, number, set),
            Test::Defines => defined_at(tokens, number).is_some(),
            Test::Given => is_property(tokens, number),
            Test::Joint => habit_between(text_at(tokens, number)).is_some(),
            Test::Foreign => habit_at_beginning(text_at(tokens, number)).is_some(),
            Test::BeginsLine => begins_line(tokens, number),
            Test::BeginsStatement => begins_statement(tokens, number),
            Test::Joined => is_joined(tokens, number),
            Test::First => number == self.start,
            Test::Continues => number < tokens.len() && start_of(tokens, number) < number,
            Test::Repeats => repeats(tokens, number),
            Test::BeginsExpression => begins_expression(tokens, number),
            Test::Changed => is_changed(tokens, number),
            Test::BeforeColon => is_before_colon(tokens, number),
            Test::EndsOperand => ends_operand(tokens, number),
            Test::Closes(kinds) => is_of(tokens, before(group_at(tokens, number), 1), kinds),
            Test::After(kinds, ends) => is_after(tokens, number, kinds, ends, false),
            Test::Outside(kinds, ends) => is_after(tokens, number, kinds, ends, true),
            Test::Among(kinds) => count_of(tokens, number, self.at, kinds) > 0,
            Test::Twice(kinds) => count_of(tokens, number, self.at, kinds) > 1,
            Test::InSwitch => number < tokens.len() && switch_around(tokens, number).is_some(),
            Test::BeforeNegation => is_negation(bytes_after(self.source, tokens, number)),
            Test::BeforeInequality => is_inequality(bytes_after(self.source, tokens, number)),
            _ => self.is_in(test),
        }
    }

    /// Whether the place passes a test, whatever the spot.
    fn is_in(self, test: Test) -> bool {
        let tokens = self.tokens;
        match test {
            Test::Wants(want) => has(self.wants, want as u8),
            Test::Found(set) => set & self.found != 0,
            Test::InMain => is_in_main(tokens, self.at),
            Test::InBrackets => is_in_brackets(tokens, self.start),
            Test::InNames => is_in_names(tokens, self.at),
            Test::InCase => is_case(tokens, self.start, self.at),
            Test::InConstant => is_in_constant(tokens, self.at),
            Test::TwoCommas => begins_two_commas(tokens, self.at),
            Test::AfterElse => ends_else(tokens, before(self.at, 1)),
            _ => false,
        }
    }

    /// The bytes of the token at a spot.
    pub fn text(self, spot: Spot) -> &'s [u8] {
        text_at(self.tokens, self.number(spot))
    }

    /// The word of another language at a spot, if no definition gives its name.
    fn word(self, words: Words, spot: Spot) -> Option<Advice> {
        let number = self.number(spot);
        match feature_of(words, text_at(self.tokens, number)) {
            Some(feature) if is_unknown(self.tokens, number) => Some(Advice::Word(number, feature)),
            _ => None,
        }
    }

    /// What is told by a rule that holds.
    fn told_by(self, say: Say) -> Option<Advice> {
        match say {
            Say::Nothing => None,
            Say::Do(text) => Some(Advice::Do(text)),
            Say::Absent(name, feature) => Some(Advice::Absent(name, feature)),
            Say::Word(words, spot) => self.word(words, spot),
            Say::Want(want) => Some(Advice::Want(want)),
        }
    }

    /// What holds of a rule after one more of its conditions.
    pub fn passed(self, conditions: Conditions, step: Step) -> Conditions {
        let Conditions { all, any } = conditions;
        match step {
            Step::Is(spot, test) => Conditions {
                all: all && self.passes(spot, test),
                any,
            },
            Step::Not(spot, test) => Conditions {
                all: all && !self.passes(spot, test),
                any,
            },
            _ => Conditions {
                all: true,
                any: any || all,
            },
        }
    }

    /// What is told by the first rule that holds and tells something, or ends the table; none if no
    /// rule holds.
    fn answer(self, steps: &'static [Step]) -> Option<Option<Advice>> {
        let mut conditions = NO_CONDITIONS;
        for step in steps {
            match *step {
                Step::Say(say) if conditions.any => {
                    let told = self.told_by(say);
                    if told.is_some() || matches!(say, Say::Nothing) {
                        return Some(told);
                    }
                    conditions = NO_CONDITIONS;
                }
                Step::Say(_) => conditions = NO_CONDITIONS,
                condition => conditions = self.passed(conditions, condition),
            }
        }
        None
    }

    /// What is told by a table.
    pub fn told(self, steps: &'static [Step]) -> Option<Advice> {
        self.answer(steps).unwrap_or(None)
    }

    /// Whether a rule of a table holds that tells nothing.
    pub fn holds(self, steps: &'static [Step]) -> bool {
        self.answer(steps).is_some()
    }

    /// What is told by the first of some tables that tells something.
    pub fn first_told(self, tables: &[&'static [Step]]) -> Option<Advice> {
        for steps in tables {
            let told = self.told(*steps);
            if told.is_some() {
                return told;
            }
        }
        None
    }
}
