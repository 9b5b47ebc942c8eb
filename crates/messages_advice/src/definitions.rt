//! What is told within definitions.

use messages_parts::Say::{Absent, Do, Nothing};
use messages_parts::{
    ARRAY_EXPRESSIONS, ARRAY_VALUES, Advice, BUFFERS, CLASSES, CONSTANT_EXPRESSIONS, Context,
    MESSAGES, OTHER_VALUES, Step, rules,
};

const EACH: &str = "write a definition of its own for each";

const WITH: &str = "write 'with' before the properties";

/// Where no definition is around the place, or another one begins at a line. `[` before `;` is the
/// value of a property in Inform 6.
static NO_DEFINITION: &[Step] = rules! {
    First[not Is Definition] | Here[First] | Here[BeginsLine] Here[Is Definition] Next[not Sign Semicolon] => Nothing,
};

/// What is told among abbreviations.
static ABBREVIATIONS: &[Step] = rules! {
    First[not Word Abbreviate] => Nothing,
    Here[Is Name DictionaryWord Character] Here[not BeginsLine] => Do("write the texts in double quotes"),
};

/// What is told in any definition.
static ANY: &[Step] = rules! {
    Here[Sign Minus Dot] Here[Joined] Next[Joined] Last[Is Name] Next[Is Name]
        => Do("a name has letters, digits and '_' only"),
    Last[First] Here[Is Number] | Last[First] Here[Sign Semicolon Assign] => Do("write a name before it"),
    Last[First] First[not Word Object] Here[Is Text DictionaryWord Character]
        => Do("write the name without quotes"),
};

/// What is told in the head of a routine. A sign after the first token of a line is in a statement,
/// before which `;` is missing.
static ROUTINE: &[Step] = rules! {
    First[not Sign OpenBracket] => Nothing,
    Here[InBrackets] => Do("a comment begins with '!', and a routine is '[ R a b; .. ];'"),
    Here[Sign OpenBrace] => Do("write ';' there: a routine is '[ R a b; .. ];'"),
    Here[BeginsLine] | Last[BeginsLine] => Nothing,
    Here[Sign Comma] => Do("list the locals with nothing between, as in '[ R a b;'"),
    Here[Sign OpenParenthesis] => Do("list the locals without parentheses, as in '[ R a b;'"),
    Here[Sign Colon] => Do("write ';' in its place, as in '[ R a b;'"),
    Here[Sign OpenBracket] => Do("remove it: one '[' is enough"),
    Here[Sign Assign] => Do("a local begins as 0 or as an argument: assign to it in the routine"),
};

/// What is told in the definition of an attribute.
static ATTRIBUTE: &[Step] = rules! {
    First[not Word Attribute] => Nothing,
    Here[Named "alias"] => Do("an attribute has one name: leave 'alias' out"),
    Here[Sign Comma] | Here[Is Name] Here[not BeginsLine] => Do("write an 'Attribute' of its own for each"),
    Last[Is Name] Here[Sign Assign Minus Colon] | Last[Is Name] Here[not Is Sign] Here[not BeginsLine]
        => Do("an attribute has no value: objects have it after 'has', or by 'give'"),
};

/// What is told in the definition of a property.
static PROPERTY: &[Step] = rules! {
    First[not Word Property] => Nothing,
    Last[Named "alias"] => Do("a property has one name: leave 'alias' out"),
    Second[Named "long"] => Do("leave 'long' out: write the name right after 'Property'"),
    Here[Sign Comma] | Here[Is Name] Here[not BeginsLine] => Do("write a 'Property' of its own for each"),
    Here[Sign Assign Colon Arrow LongArrow OpenParenthesis]
        => Do("write the value after the name with nothing between, as in 'Property p 5;'"),
    Here[Is Text] => Do("a property has no text: print it in a routine with a 'switch'"),
    Last[First] | SecondLast[First] => Nothing,
    Here[Sign Minus] | Here[not Is Sign] Here[not BeginsLine]
        => Do("a property begins as one value: an object gives it more after 'with'"),
};

/// What is told right after the name of a Global or a Constant.
static AFTER_NAME: &[Step] = rules! {
    First[not Word Global Constant] | SecondLast[not First] => Nothing,
    Here[Sign Comma] => Do(EACH),
    Here[Sign Equal Colon] => Do("write '='"),
    Here[Sign OpenBracket Arrow LongArrow] => Do("write 'Array a -> 10;' for 10 bytes, or '-->' for 10 words"),
    Here[Sign Semicolon] First[Word Constant] => Absent("a Constant without a value", CONSTANT_EXPRESSIONS),
    Here[Is Text] => Absent("a text as a value", OTHER_VALUES),
    Here[not Is Name] | Here[BeginsLine] => Nothing,
    Last[Foreign] => Do("no type is written: leave the word before it out"),
    First[Word Global] => Do("write a 'Global' of its own for each, and '=' before a value"),
    => Do("write '=' before the value"),
};

/// What is told after the `=` of a Global or a Constant.
static AFTER_EQUALS: &[Step] = rules! {
    First[not Word Global Constant] | Last[First] | SecondLast[First] => Nothing,
    Here[Is Name] Last[Sign Minus] => Do("write the negative value itself, as in 'Constant low = -5;'"),
    Here[Is Name] Here[not BeginsLine] | Here[Sign Comma] => Do(EACH),
    Here[Is Value] Here[not BeginsLine] => Do("one value is enough: write an 'Array' for several"),
    Here[Sign OpenParenthesis] Last[Is Name]
        => Do("the value is fixed before the story runs: assign what a routine returns in a routine"),
    Here[not Is Operator] Here[not Sign OpenParenthesis OpenBracket OpenBrace Dot Arrow LongArrow] => Nothing,
    First[Word Global] => Absent("an expression as the value of a Global", CONSTANT_EXPRESSIONS),
    => Absent("an expression as the value of a Constant", CONSTANT_EXPRESSIONS),
};

/// What is told in the definition of an array.
static ARRAY: &[Step] = rules! {
    First[not Word Array] => Nothing,
    Last[First] Here[Sign Arrow LongArrow] => Do("write the name before it"),
    Last[First] => Nothing,
    SecondLast[First] Last[Is Name] Here[Named "buffer"] => Absent("'buffer'", BUFFERS),
    SecondLast[First] Last[Is Name]
        => Do("write '->' for bytes or '-->' for words after the name, as in 'Array a -> 10;'"),
    Here[Is Text] => Absent("a text in an array", ARRAY_VALUES),
    Here[Sign Comma] => Do("list the values with nothing between"),
    Here[Is Opening] => Absent("a bracket in an array", ARRAY_VALUES),
    Here[Sign Assign] => Do("list the values after the '->' or '-->', with nothing between"),
    Here[Is Operator] => Absent("an expression in an array", ARRAY_EXPRESSIONS),
};

/// What is told among the attributes of an object.
static ATTRIBUTES: &[Step] = rules! {
    First[not Word Object] | First[not Among Word Has] => Nothing,
    Here[Sign Comma] Next[Word With] | Here[Sign Comma Assign] Last[Word Has] => Nothing,
    Here[Sign Comma] => Do("list the attributes with nothing between"),
    Here[Word Hasnt] Last[Named "and"]
        => Do("leave 'and hasnt ..' out: an object has only the attributes that are listed"),
    Here[Sign Tilde Not Minus] | Here[Word Hasnt]
        => Do("leave it out: an object has only the attributes that are listed"),
    Here[Sign Assign Colon] | Here[Word True False] | Here[Is Number]
        => Do("an attribute has no value: list its name alone"),
    Here[Is Opening] => Do("list the attributes without brackets"),
    Here[Word Has] => Do("remove it: one 'has' is enough"),
    Here[Is DictionaryWord Character Text] Last[Word Has] => Do("write the attributes without quotes"),
    Here[Is DictionaryWord Text] => Do("write 'with' and a property before values, and 'has' after them"),
};

/// What is told among the properties of an object.
static PROPERTIES: &[Step] = rules! {
    First[not Word Object] | First[not Among Word With] | First[Among Word Has] => Nothing,
    Here[Is Text] Last[Word With] => Do("write the short name right after the name, before 'with'"),
    Here[Is Text] Last[Named "name"] | Here[Is Text] Here[InNames]
        => Do("write the words in single quotes, as in 'with name 'lamp''"),
    Here[Is Text] => Absent("a text as the value of a property", OTHER_VALUES),
    Here[Word With] Last[Sign Comma] => Do("remove it: one 'with' is enough"),
    Here[Word With] Last[not Word With] => Do("write ',' in its place: one 'with' is enough"),
    Here[Word Hasnt] => Do("write 'has', and only the attributes that the object has"),
    Here[Sign Assign Colon Arrow] => Do("write the values right after the property, with nothing between"),
    Here[Sign OpenBracket] => Absent("a routine as a value", MESSAGES),
    Here[Sign OpenParenthesis OpenBrace] => Do("write the values right after the property, without brackets"),
    Here[Is Operator] Last[Is Number] => Absent("an expression in an object", CONSTANT_EXPRESSIONS),
    Here[Is Operator] | Here[Is Value] Last[Sign Comma] => Do("list the values of a property with nothing between"),
    Here[Is Name] Last[Named "and"] => Do("write ',' in the place of 'and'"),
    Here[Is Value] Last[Word With] => Do("write a property before the values, as in 'with name 'lamp''"),
    // Where the value of a property is missing.
    Here[not Word Has] Here[not Sign Semicolon Comma] => Nothing,
    Last[Sign Comma] => Do("remove the ',' before it"),
    Last[Named "and"] => Do("leave the 'and' before it out"),
    Last[not Given] => Nothing,
    Last[Known Attribute] => Do("write 'has' before the attribute"),
    => Do("give the property a value, as in 'with p 0'"),
};

/// What is told in the head of an object: its name, its short name and its parent.
static HEAD: &[Step] = rules! {
    First[not Word Object] | First[Among Word With Has] | Last[Sign Arrow, Word Object] => Nothing,
    Last[Named "class"] Last[Unknown] | Here[Named "class"] Here[Unknown] => Absent("'class'", CLASSES),
    Here[Is Text] Last[Sign Comma Assign] | Here[Sign Assign Colon]
        => Do("write the short name right after the name, with nothing between"),
    Here[Is Text] SecondLast[Is Text] => Do(WITH),
    Here[Is Text] Last[Is Text] => Do("an object has one short name: remove it"),
    Here[Is Text] Last[Unknown] => Do("a name is one word: join its parts by '_'"),
    Here[Is Text] Last[Is Name] => Do("write the short name before the parent"),
    Here[Is Value] Last[Known Property] | Here[Is Value] Last[Named "name"] | Here[Is Value] Last[Is Text]
        | Here[Is Value] SecondLast[Is Text]
        => Do(WITH),
    Here[Is Quoted] => Do("write the short name in double quotes"),
    Here[Sign Arrow] => Do("write the arrows before the name"),
    Here[Is Opening] => Do("write properties after 'with' and attributes after 'has'"),
    Here[Word In To] => Do("write the parent right after the short name, with nothing between"),
    // A name after another one, after the short name or after a `,`.
    Here[not Is Name] | Last[Is Name] Here[BeginsLine] | Last[not Is Name Text] Last[not Sign Comma] => Nothing,
    Here[Known Attribute] | Last[Known Attribute] => Do("write 'has' before the attributes"),
    Here[Known Property] | Here[Named "name"] | Last[Known Property] | Last[Named "name"] => Do(WITH),
    Last[Unknown] | Last[Is Name] Here[Unknown]
        => Do("an object has one name of one word, a text in double quotes and a parent, in this order"),
    Last[Is Name] | Here[Unknown] => Do(WITH),
    => Do("write arrows or a parent, not both"),
};

/// What is told in the place of an object's name.
static NAME_OF_OBJECT: &[Step] = rules! {
    First[not Word Object] | Last[not Sign Arrow, Word Object] => Nothing,
    Here[Is Text] => Do("write a name for the source before it, as in 'Object bag \"bag\"'"),
    Here[Is Quoted] => Do("write a name for the source, and then the short name in double quotes"),
    Here[Word With Has] | Here[Sign Semicolon] => Do("write the name of the object before it"),
    Here[Sign LongArrow] => Do("write '->' for each step inside"),
    Here[Sign Minus Decrement Greater Assign] => Do("write '->' without blanks, or the name alone"),
    Here[Is Opening] => Do("write the name right after 'Object', without brackets"),
};

/// What is told of a token that does not fit in a definition.
pub fn in_definition(place: Context<'_, '_>) -> Option<Advice> {
    if place.holds(NO_DEFINITION) {
        return place.told(ABBREVIATIONS);
    }
    place.first_told(&[
        ANY,
        ROUTINE,
        ATTRIBUTE,
        PROPERTY,
        AFTER_NAME,
        AFTER_EQUALS,
        ARRAY,
        NAME_OF_OBJECT,
        ATTRIBUTES,
        PROPERTIES,
        HEAD,
    ])
}
