//! Groups of kinds that have one name.

use crate::kinds::{TokenKind, token_kinds};
use std::alloc::{AllocError, Global};
use syntax::{Sign, Word};

/// Kinds that are named together.
#[derive(Clone, Copy)]
pub enum Group {
    Statement,
    Expression,
    Operand,
    Value,
    Operator,
    BinaryOperator,
    Directive,
}

/// The same kinds as in a list: whole groups, and the kinds that are in none of these.
#[derive(Drop)]
pub struct Grouped {
    pub kinds: Vec<TokenKind>,
    pub groups: Vec<Group>,
}

impl Grouped {
    /// Whether a group of which a bit is in a set is in the list.
    fn has_group(&self, set: u32) -> bool {
        for group in &self.groups {
            if set.wrapping_shr(*group as u32) & 1 == 1 {
                return true;
            }
        }
        false
    }

    /// Whether a text is in the list, alone or in a group.
    pub fn has_text(&self) -> bool {
        self.kinds.contains(&TokenKind::Text) || is_in_any(&self.groups, TokenKind::Text)
    }

    /// Whether a value is in the list, as a whole group.
    pub fn has_value(&self) -> bool {
        const VALUES: u32 = 1 << Group::Expression as u32
            | 1 << Group::Operand as u32
            | 1 << Group::Value as u32;
        self.has_group(VALUES)
    }

    /// Whether an operator between two operands is in the list: `&&` alone, or a whole group.
    pub fn has_operator(&self) -> bool {
        const OPERATORS: u32 = 1 << Group::Operator as u32 | 1 << Group::BinaryOperator as u32;
        self.has_group(OPERATORS) || self.has_alone(Sign::AndAlso)
    }

    /// Whether the beginnings of all directives are in the list.
    pub fn has_directive(&self) -> bool {
        const DIRECTIVES: u32 = 1 << Group::Directive as u32;
        self.has_group(DIRECTIVES)
    }

    /// Whether a sign is in the list and in no group.
    pub fn has_alone(&self, sign: Sign) -> bool {
        self.kinds.contains(&TokenKind::Sign(sign))
    }

    /// The kind that is all that is in the list.
    fn only(&self) -> Option<TokenKind> {
        match (self.kinds.as_slice(), self.groups.as_slice()) {
            ([only], []) => Some(*only),
            _ => None,
        }
    }

    /// Whether a reserved word is all that is in the list.
    pub fn is_only_word(&self, word: Word) -> bool {
        match self.only() {
            Some(TokenKind::Reserved(only)) => only == word,
            _ => false,
        }
    }

    /// Whether a name is all that is in the list.
    pub fn is_only_name(&self) -> bool {
        matches!(self.only(), Some(TokenKind::Name))
    }

    /// Whether a sign is all that is in the list.
    pub fn is_only(&self, sign: Sign) -> bool {
        match self.only() {
            Some(TokenKind::Sign(only)) => only == sign,
            _ => false,
        }
    }
}

/// All groups. One that contains another is before it.
const GROUPS: [Group; 7] = [
    Group::Statement,
    Group::Expression,
    Group::Operand,
    Group::Value,
    Group::Operator,
    Group::BinaryOperator,
    Group::Directive,
];

/// What a statement begins with.
const STATEMENT: &[TokenKind] = &token_kinds!(
    Is Name Number Text Character DictionaryWord;
    Word Break Child Continue Do False For Give If Move NewLine Nothing Objectloop Parent Print
        PrintRet Quit Read Remove Return Rfalse Rtrue Sibling Switch True While;
    Sign OpenParenthesis OpenBrace Semicolon Not Tilde Increment Minus Decrement
);

/// What an expression begins with.
const EXPRESSION: &[TokenKind] = &token_kinds!(
    Is Name Number Character DictionaryWord;
    Word Child False Nothing Parent Sibling True;
    Sign OpenParenthesis Not Tilde Increment Minus Decrement
);

/// What an operand of a sum or a product begins with.
const OPERAND: &[TokenKind] = &token_kinds!(
    Is Name Number Character DictionaryWord;
    Word Child False Nothing Parent Sibling True;
    Sign OpenParenthesis Tilde Increment Minus Decrement
);

/// What a value that is known before a story runs begins with.
const VALUE: &[TokenKind] = &token_kinds!(
    Is Name Number Character DictionaryWord;
    Word False Nothing True;
    Sign Minus
);

/// What may follow an operand that is not a name alone.
const OPERATOR: &[TokenKind] = &token_kinds!(
    Word Has Hasnt In Notin Provides;
    Sign Dot DotAmpersand DotHash Assign Equal NotEqual Greater GreaterOrEqual Less LessOrEqual
        AndAlso Ampersand OrElse Bar Plus Increment Minus Decrement Star Slash Percent
);

/// Operators between two operands, `=` apart.
const BINARY_OPERATOR: &[TokenKind] = &token_kinds!(
    Word Has Hasnt In Notin Provides;
    Sign Equal NotEqual Greater GreaterOrEqual Less LessOrEqual AndAlso Ampersand OrElse Bar Plus
        Minus Star Slash Percent
);

/// What a directive begins with.
const DIRECTIVE: &[TokenKind] = &token_kinds!(
    Word Abbreviate Array Attribute Constant Global Object Property;
    Sign OpenBracket
);

/// The kinds of a group.
fn members(group: Group) -> &'static [TokenKind] {
    match group {
        Group::Statement => STATEMENT,
        Group::Expression => EXPRESSION,
        Group::Operand => OPERAND,
        Group::Value => VALUE,
        Group::Operator => OPERATOR,
        Group::BinaryOperator => BINARY_OPERATOR,
        Group::Directive => DIRECTIVE,
    }
}

/// Whether all of these kinds are in a list.
fn has_all(kinds: &[TokenKind], members: &[TokenKind]) -> bool {
    for member in members {
        if !kinds.contains(member) {
            return false;
        }
    }
    true
}

/// Whether a kind is in one of these groups.
fn is_in_any(groups: &[Group], kind: TokenKind) -> bool {
    for group in groups {
        if members(*group).contains(&kind) {
            return true;
        }
    }
    false
}

/// Whether each kind of a group is in one of these groups.
fn is_covered(groups: &[Group], group: Group) -> bool {
    for member in members(group) {
        if !is_in_any(groups, *member) {
            return false;
        }
    }
    true
}

/// The groups of which all kinds are in a list, without those that others contain.
fn whole_groups(alloc: Global, kinds: &[TokenKind]) -> Result<Vec<Group>, AllocError> {
    let mut groups = Vec::new(alloc);
    for group in &GROUPS {
        if has_all(kinds, members(*group)) && !is_covered(&groups, *group) {
            let Ok(()) = groups.push(*group) else {
                return Err(AllocError);
            };
        }
    }
    Ok(groups)
}

/// The kinds that are in none of these groups.
fn alone(
    alloc: Global,
    kinds: &[TokenKind],
    groups: &[Group],
) -> Result<Vec<TokenKind>, AllocError> {
    let mut alone = Vec::new(alloc);
    for kind in kinds {
        if !is_in_any(groups, *kind) {
            let Ok(()) = alone.push(*kind) else {
                return Err(AllocError);
            };
        }
    }
    Ok(alone)
}

/// Kinds in groups. A group is named only if all its kinds are in the list.
///
/// # Errors
///
/// `AllocError` if memory is refused.
pub fn in_groups(alloc: Global, kinds: &[TokenKind]) -> Result<Grouped, AllocError> {
    let Ok(groups) = whole_groups(alloc, kinds) else {
        return Err(AllocError);
    };
    match alone(alloc, kinds, &groups) {
        Ok(kinds) => Ok(Grouped { kinds, groups }),
        Err(refused) => Err(refused),
    }
}
