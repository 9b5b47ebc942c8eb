//! Which tokens are operators, and with which an expression can begin.

ghost use Rattle.std.specs.Prelude.{◌≡◌};
ghost use Rattle.syntax_lexer.specs.Token.{lexeme};
ghost use Rattle.syntax_expressions.specs.Operators as spec;
ghost use Rattle.syntax_expressions.specs.LevelOperators.{level_of, operator_of};
ghost use Rattle.syntax_expressions.specs.PartParse as parse;

use syntax_lexer::{Kind, Sign, Token, Word};
use syntax_trees::{Binary, Comparison, Containment, Equality, ObjectTest, Relative, Step, Width};

/// The operators of one level, in chains that group to the left.
#[derive(Clone, Copy, PartialEq, Eq)]
pub enum Operators {
    /// `&&` and `||`
    Logical,
    /// `+` and `-`
    Adding,
    /// `*`, `/`, `%`, `&` and `|`
    Scaling,
}

/// The operator of that level that the token is.
pub fn operator(operators: Operators, token: Token<'_>) -> Option<Binary>
    ensures { result ≡ operator_of operators (lexeme token.entry) }
{
    match operators {
        Operators::Logical => logical(token),
        Operators::Adding => adding(token),
        Operators::Scaling => scaling(token),
    }
}

/// The level of an operator.
pub fn level(operator: Binary) -> Operators
    ensures { result ≡ level_of operator }
{
    match operator {
        Binary::AndAlso | Binary::OrElse => Operators::Logical,
        Binary::Add | Binary::Subtract => Operators::Adding,
        _ => Operators::Scaling,
    }
}

fn logical(token: Token<'_>) -> Option<Binary>
    ensures { result ≡ spec.logical (lexeme token.entry) }
{
    match token.kind {
        Kind::Sign(Sign::AndAlso) => Some(Binary::AndAlso),
        Kind::Sign(Sign::OrElse) => Some(Binary::OrElse),
        _ => None,
    }
}

fn adding(token: Token<'_>) -> Option<Binary>
    ensures { result ≡ spec.adding (lexeme token.entry) }
{
    match token.kind {
        Kind::Sign(Sign::Plus) => Some(Binary::Add),
        Kind::Sign(Sign::Minus) => Some(Binary::Subtract),
        _ => None,
    }
}

fn scaling(token: Token<'_>) -> Option<Binary>
    ensures { result ≡ spec.scaling (lexeme token.entry) }
{
    match token.kind {
        Kind::Sign(Sign::Star) => Some(Binary::Multiply),
        Kind::Sign(Sign::Slash) => Some(Binary::Divide),
        Kind::Sign(Sign::Percent) => Some(Binary::Remainder),
        Kind::Sign(Sign::Ampersand) => Some(Binary::And),
        Kind::Sign(Sign::Bar) => Some(Binary::Or),
        _ => None,
    }
}

/// The comparison of signed numbers that the token is.
pub fn comparing(token: Token<'_>) -> Option<Comparison>
    ensures { result ≡ spec.comparing (lexeme token.entry) }
{
    match token.kind {
        Kind::Sign(Sign::Less) => Some(Comparison::Less),
        Kind::Sign(Sign::Greater) => Some(Comparison::Greater),
        Kind::Sign(Sign::LessOrEqual) => Some(Comparison::LessOrEqual),
        Kind::Sign(Sign::GreaterOrEqual) => Some(Comparison::GreaterOrEqual),
        _ => None,
    }
}

/// The comparison with one value or several that the token is.
pub fn equating(token: Token<'_>) -> Option<Equality>
    ensures { result ≡ spec.equating (lexeme token.entry) }
{
    match token.kind {
        Kind::Sign(Sign::Equal) => Some(Equality::Equal),
        Kind::Sign(Sign::NotEqual) => Some(Equality::NotEqual),
        _ => None,
    }
}

/// `in` or `notin`, where the token is one.
pub fn containing(token: Token<'_>) -> Option<Containment>
    ensures { result ≡ spec.containing (lexeme token.entry) }
{
    match token.kind {
        Kind::Reserved(word) => containing_word(word),
        _ => None,
    }
}

fn containing_word(word: Word) -> Option<Containment>
    ensures { result ≡ spec.containing_word word }
{
    match word {
        Word::In => Some(Containment::In),
        Word::Notin => Some(Containment::NotIn),
        _ => None,
    }
}

/// What the name after the token is tested for, where it is `has`, `hasnt` or `provides`.
pub fn testing(token: Token<'_>) -> Option<ObjectTest>
    ensures { result ≡ spec.testing (lexeme token.entry) }
{
    match token.kind {
        Kind::Reserved(word) => testing_word(word),
        _ => None,
    }
}

fn testing_word(word: Word) -> Option<ObjectTest>
    ensures { result ≡ spec.testing_word word }
{
    match word {
        Word::Has => Some(ObjectTest::Has),
        Word::Hasnt => Some(ObjectTest::HasNot),
        Word::Provides => Some(ObjectTest::Provides),
        _ => None,
    }
}

/// `parent`, `child` or `sibling`, where the word is one.
pub fn relating_word(word: Word) -> Option<Relative>
    ensures { result ≡ spec.relating_word word }
{
    match word {
        Word::Parent => Some(Relative::Parent),
        Word::Child => Some(Relative::Child),
        Word::Sibling => Some(Relative::Sibling),
        _ => None,
    }
}

/// The value of `true`, `false` and `nothing`.
pub fn word_value(word: Word) -> Option<u16>
    ensures { result ≡ parse.word_value word }
{
    match word {
        Word::True => Some(1),
        Word::False | Word::Nothing => Some(0),
        _ => None,
    }
}

/// Whether the token is an operator before an operand of the tightest level: `-`, `++` or `--`.
pub fn prefixes(token: Token<'_>) -> bool
    ensures { result ≡ spec.prefixes (lexeme token.entry) }
{
    match token.kind {
        Kind::Sign(sign) => matches!(sign, Sign::Minus | Sign::Increment | Sign::Decrement),
        _ => false,
    }
}

/// `++` or `--`, where the token is one.
pub fn stepping(token: Token<'_>) -> Option<Step>
    ensures { result ≡ spec.stepping (lexeme token.entry) }
{
    match token.kind {
        Kind::Sign(Sign::Increment) => Some(Step::Increment),
        Kind::Sign(Sign::Decrement) => Some(Step::Decrement),
        _ => None,
    }
}

/// The width of the entries that the token indexes, where it is `->` or `-->`.
pub fn indexing(token: Token<'_>) -> Option<Width>
    ensures { result ≡ spec.indexing (lexeme token.entry) }
{
    match token.kind {
        Kind::Sign(Sign::Arrow) => Some(Width::Byte),
        Kind::Sign(Sign::LongArrow) => Some(Width::Word),
        _ => None,
    }
}

fn word_begins(word: Word) -> bool
    ensures { result ≡ spec.word_begins word }
{
    matches!(
        word,
        Word::True | Word::False | Word::Nothing | Word::Parent | Word::Child | Word::Sibling
    )
}

/// Whether an expression can begin with the token.
pub fn begins_expression(token: Token<'_>) -> bool
    ensures { result ≡ spec.begins_expression (lexeme token.entry) }
{
    match token.kind {
        Kind::Name(_) | Kind::Number(_) | Kind::Character(_) | Kind::DictionaryWord(_) => true,
        Kind::Reserved(word) => word_begins(word),
        Kind::Sign(sign) => matches!(
            sign,
            Sign::OpenParenthesis
                | Sign::Minus
                | Sign::Tilde
                | Sign::Not
                | Sign::Increment
                | Sign::Decrement
        ),
        _ => false,
    }
}
