//! The features, in the order of the table in docs/DIFFERENCES.md, which `./lists` writes from this
//! file.

use crate::feature::{Feature, feature};

/// What the library of Inform 6 does.
pub const LIBRARY: &Feature = feature!(
    "the Inform library, `Include`, `Verb`, `Extend`, actions (`<Look>`)"
        => "routines and a `read` loop, as in examples/skeleton.inf" in "Directives";
    "include verb extend fake_action nearby grammar"
);

/// What Inform 6 compiles on a condition.
pub const CONDITIONS: &Feature = feature!(
    "`Ifdef`, `Ifndef`, `Ifnot`, `Endif`" => "only the branch that you need";
    "ifdef ifndef iftrue iffalse ifnot ifv3 ifv5 endif"
);

/// What Inform 6 sets for a whole story file.
pub const SETTINGS: &Feature = feature!(
    "`Release`, `Serial`, `Switches`, `Replace`, `Default`" => "nothing";
    "release serial switches replace default version statusline zcharacter message link system_file trace undef"
);

const STUBS: &Feature =
    feature!("`Stub F 2;`" => "`[ F a b; rfalse; ];`, a routine that does nothing"; "stub");

const LOW_STRINGS: &Feature = feature!(
    "`Lowstring`" => "a routine that prints the text, as in `[ T; print \"text\"; ];`";
    "lowstring"
);

const DICTIONARY_WORDS: &Feature = feature!(
    "`Dictionary 'lamp';`" => "the word in single quotes where you use it, as in `with name 'lamp'`";
    "dictionary"
);

/// `#` before a directive.
pub const DIRECTIVE_SIGN: &Feature =
    feature!("`#` before directives" => "the directive without it");

const MAIN_LOCALS: &Feature = feature!(
    "locals of `Main`" => "globals, or a routine that `Main` calls" in "Definitions"
);

/// Values that have to be computed before the story runs.
pub const CONSTANT_EXPRESSIONS: &Feature = feature!(
    "`Constant size = 2 + 3;`, `Constant size 5;`, `Constant debug;`"
        => "one value, as in `Constant size = 5;` and `Constant debug = 0;`"
);

/// Arrays of the kind `buffer`.
pub const BUFFERS: &Feature = feature!(
    "`Array line buffer 20`" => "`Array line -> 22`, and `line-->0 = 20` at the start of `Main`"
);

/// Computed sizes and entries of arrays.
pub const ARRAY_EXPRESSIONS: &Feature =
    feature!("`Array a -> 4 * size;`" => "one value, as in `Array a -> 12;`");

/// What an array does not hold.
pub const ARRAY_VALUES: &Feature = feature!(
    "texts, brackets and parentheses in arrays"
        => "characters and plain values, and a `Constant` for a negative one"
);

/// Texts, routines and other things that are no numbers as values.
pub const OTHER_VALUES: &Feature = feature!(
    "routines, arrays, attributes, properties, texts as values" => "a number, and a `switch` over it" in "Values"
);

const RANDOM_NUMBERS: &Feature = feature!(
    "`random`" => "a routine of your own, such as `Random` in examples/guess.inf";
    "random"
);

const FUNCTIONS: &Feature = feature!(
    "`children`, `youngest`, `indirect`, `metaclass`" => "a routine of your own";
    "children youngest eldest elder younger indirect metaclass"
);

const STEPS: &Feature =
    feature!("`bag.p++`, `(a->1)++`" => "`bag.p = bag.p + 1`, `a->1 = a->1 + 1`" in "Operators");

/// Operators that also assign.
pub const ASSIGNING_OPERATORS: &Feature =
    feature!("`a += b`, which Inform 6 lacks too" => "`a = a + b`");

/// `!=`, which begins a comment.
pub const INEQUALITY: &Feature = feature!(
    "`a != b`, which Inform 6 lacks too" => "`a ~= b`, since `!` begins a comment"
);

/// `!` as an operator, which begins a comment.
pub const NEGATION: &Feature =
    feature!("`!a`, which Inform 6 lacks too" => "`~~a`, since `!` begins a comment");

/// `or` after other operators than `==` and `~=`.
pub const ALTERNATIVES: &Feature = feature!(
    "`n > 6 or 4`, `o has a or b`" => "`n > 6 || n > 4`, `o has a || o has b`"
);

/// `or` after `in`.
pub const PARENTS: &Feature = feature!("`x in a or b`" => "`parent(x) == a or b`");

/// `or` after `notin`.
pub const NO_PARENTS: &Feature = feature!("`x notin a or b`" => "`parent(x) ~= a or b`");

/// `or` after the `in` of an `objectloop`.
pub const PARENTS_IN_LOOP: &Feature =
    feature!("`objectloop (x in a or b)`" => "`objectloop (x in a || x in b)`");

/// Several expressions in one.
pub const COMMAS: &Feature =
    feature!("`for (i = 0, j = 9 : ..`" => "one statement for each expression");

/// Negations as operands.
pub const NESTED_NEGATIONS: &Feature = feature!("`a + ~~b`, `-~a`" => "`a + (~~b)`, `-(~a)`");

/// The forms of `print`.
pub const PRINT_FORMS: &Feature = feature!(
    "`print (name) x`, `print (The) x`, `print (string) x`, `print (Stars) 3`"
        => "`(object)` for a short name, `(char)` for a character, or a statement that calls, as `Stars(3);`"
        in "Statements"
);

const TEXT_STATEMENTS: &Feature = feature!(
    "`\"text\", x, \"b\";` as a statement" => "`print_ret \"text\", x, \"b\";`"
);

const LONG_TEXTS: &Feature = feature!("texts of several lines" => "several print items");

const AT_SIGNS: &Feature =
    feature!("`@` and `\\` in texts" => "`(char) 64` and `(char) 92`, as items of a `print`");

/// Letters with accents.
pub const ACCENTS: &Feature =
    feature!("accented letters, also in comments" => "letters without accents");

const CHARACTERS: &Feature =
    feature!("`'^'`, `'~'`, `'''`, `'lamps//p'`" => "94, 126, 39, `'lamps'`");

/// `'` within a dictionary word.
pub const APOSTROPHES: &Feature = feature!(
    "`'miner's'`, which Inform 6 lacks too" => "`^` for it, as in `with name 'miner^s'`"
);

/// Places to jump to.
pub const LABELS: &Feature = feature!("`jump`, labels" => "a loop"; "jump");

/// Other forms of `objectloop`.
pub const OBJECT_LOOPS: &Feature =
    feature!("`objectloop (x from y)`" => "`for (x = y : x : x = sibling(x))`");

const READING: &Feature = feature!(
    "`read` with a variable, 0 or a third operand" => "the names of two arrays of bytes"
);

const SPACES: &Feature = feature!("`spaces`" => "a `print` with a text of spaces"; "spaces");

/// Opcodes of the machine.
pub const OPCODES: &Feature =
    feature!("opcodes such as `@print_num`" => "a statement such as `print`");

const STYLES: &Feature = feature!(
    "`font`, `style`, `box`, `inversion`, `string`" => "nothing";
    "font style box inversion"
);

const SAVING: &Feature = feature!(
    "`save`, `restore`" => "`/undo` in the player, or keep the lines that you type";
    "save restore"
);

/// Classes of objects.
pub const CLASSES: &Feature = feature!(
    "`Class`, `ofclass`" => "an attribute and a property" in "Objects";
    "class ofclass"
);

/// The operators of classes.
pub const SUPERCLASSES: &Feature = feature!("`..`, `::`" => "`.` and a property of each object");

/// Routines that are called through an object.
pub const MESSAGES: &Feature = feature!(
    "`self`, messages, routines as property values" => "a routine with a `switch` over objects";
    "self"
);

const UNDECLARED: &Feature = feature!(
    "undeclared properties, `with p,`, `with name \"bag\"`" => "`Property p;`, `with p 0`, `with name 'bag'`"
);

const OBJECT_HEADS: &Feature = feature!(
    "`Object \"bag\"`, `has lit with p 3`" => "`Object bag \"bag\"`, `with p 3, has lit`"
);

const MISSING_ATTRIBUTES: &Feature = feature!("`has ~lit`" => "nothing");

/// Addresses of properties as values.
pub const ADDRESSES: &Feature = feature!("`a = bag.&p`" => "`bag.&p-->0`");

/// The features whose names are directives.
pub(crate) const DIRECTIVES: [&Feature; 7] = [
    LIBRARY,
    CONDITIONS,
    SETTINGS,
    STUBS,
    LOW_STRINGS,
    DICTIONARY_WORDS,
    CLASSES,
];

/// The features whose names are in expressions.
pub(crate) const IN_EXPRESSIONS: [&Feature; 3] = [RANDOM_NUMBERS, FUNCTIONS, MESSAGES];

/// The other features with names.
pub(crate) const OTHER_FEATURES: [&Feature; 4] = [LABELS, SPACES, STYLES, SAVING];
