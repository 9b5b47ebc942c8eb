//! Words of other languages and of everyday English, in the order of the table in
//! docs/DIFFERENCES.md, which `./lists` writes from this file.

use crate::feature::{Feature, feature};
use crate::table::CLASSES;

const THEN: &Feature = feature!("`then`" => "nothing"; "then");

const UNLESS: &Feature = feature!("`unless (a)`" => "`if (~~(a))`"; "unless");

/// Words that are read as a name, and begin a condition.
pub(crate) const WHEN: &Feature =
    feature!("`when`, `otherwise`" => "`if (a)` and `else`, or in a `switch` `1:` and `default:`"; "when otherwise");

/// The words at the beginning of a condition, a loop or a block.
pub(crate) const CONDITIONS_AND_LOOPS: [&Feature; 10] = [
    feature!("`elseif`, `elif`, `elsif`" => "`else if`"; "elseif elif elsif"),
    THEN,
    UNLESS,
    WHEN,
    feature!("`case 1:`" => "`1:`"; "case"),
    feature!(
        "`begin`, `endif`, `wend`" => "`{` and `}` around the statements";
        "begin endif endwhile endfor wend done"
    ),
    feature!("`end`" => "`}` at the end of a block, or `quit;`"; "end"),
    feature!(
        "`loop`, `forever`, `repeat`" => "`while (true) { .. }` or `do { .. } until (a);`";
        "loop forever repeat"
    ),
    feature!("`foreach`, `each`" => "`objectloop (x in y)`"; "foreach each"),
    feature!("`goto`" => "a loop"; "goto"),
];

/// The words at the beginning of a definition.
pub(crate) const DEFINITIONS: [&Feature; 4] = [
    feature!(
        "`int`, `var`, `let`, `local`, `bool`"
            => "`Global n;`, or a local in the head of its routine, as in `[ R n;`";
        "int var let local locals bool boolean float double auto dim my integer static unsigned"
    ),
    feature!("`const`, `define`, `enum`" => "`Constant size = 5;`"; "const define final enum"),
    feature!(
        "`function`, `def`, `void`, `sub`" => "`[ R a b; .. ];`";
        "function func fn def void sub proc procedure routine method public private"
    ),
    feature!(
        "`struct`, `room`, `interface`" => "`Object x \"the x\";` with properties and attributes";
        "struct room interface"
    ),
];

/// The words at the beginning of a statement that prints, reads, ends or calls.
pub(crate) const ACTIONS: [&Feature; 6] = [
    feature!(
        "`printf`, `println`, `echo`, `say`, `write`" => "`print` with items and `,` between them";
        "printf println printline echo say write writeln puts cout display output console put_line"
    ),
    feature!("`newline`, `endl`, `cr`" => "`new_line;`, or `^` in a text"; "newline endl nl cr"),
    feature!(
        "`input`, `scanf`, `getline`" => "`read line words;` with the names of two arrays of bytes";
        "input scanf getline gets prompt"
    ),
    feature!("`exit`, `stop`, `halt`" => "`quit;`"; "exit stop halt die abort"),
    feature!("`call F`, `run F`" => "`F();`"; "call gosub perform run"),
    feature!("`pass`, `noop`" => "`;`"; "pass noop"),
];

const RANGES: &Feature =
    feature!("`range(5)`" => "`for (i = 0 : i < 5 : i++)`"; "range downto upto");

/// The words at the beginning of any other statement or line.
pub(crate) const OTHERS: [&Feature; 7] = [
    feature!("`set n to 5`, `now`" => "`n = 5;`"; "set now assign"),
    feature!(
        "`inc n`, `add 1 to n`" => "`n++;` or `n = n + 1;`";
        "inc dec incr decr increment decrement increase decrease add subtract"
    ),
    feature!("`put a in b`, `insert`" => "`move a to b;`"; "put place insert transfer"),
    feature!("`try`, `catch`, `throw`" => "an `if` before what may fail"; "try catch throw raise except assert"),
    feature!(
        "`import`, `using`, `require`" => "all of the program in one file";
        "import using require package namespace module"
    ),
    feature!(
        "`new`, `delete`, `create`" => "an object that is there from the start, and `move` and `remove`";
        "new delete create destroy malloc spawn"
    ),
    RANGES,
];

/// The words that are meant in the middle of an expression.
pub(crate) const OPERATORS: [&Feature; 12] = [
    feature!("`a and b`" => "`a && b`"; "and"),
    feature!("`not a`" => "`~~a`, or one of `~=`, `hasnt` and `notin`"; "not"),
    feature!("`xor`" => "`a ~= b`"; "xor"),
    feature!("`a mod b`" => "`a % b`"; "mod modulo"),
    feature!("`a plus b`, `a minus b`, `a times b`" => "`a + b`, `a - b`, `a * b`"; "plus minus times"),
    feature!("`a div b`" => "`a / b`"; "div divided"),
    feature!("`a is b`, `a equals b`" => "`a == b`, or `a has b` for an attribute"; "is are equals equal eq"),
    feature!("`a isnt b`, `a ne b`" => "`a ~= b`, or `a hasnt b` for an attribute"; "isnt ne neq isnot"),
    feature!(
        "`a lt b`, `a greater b`, `a between b and c`" => "`a < b`, `a > b`, and `&&` between both";
        "lt gt le ge less greater between"
    ),
    feature!("`a inside b`, `b contains a`" => "`a in b`"; "inside within contains holds isin"),
    UNLESS,
    CLASSES,
];

/// The words that are meant as a value or a call.
pub(crate) const OPERANDS: [&Feature; 5] = [
    feature!("`null`, `none`, `nil`" => "`nothing`"; "null none nil undefined"),
    feature!("`yes`, `no`, `on`, `off`" => "`true` or `false`"; "yes no on off"),
    feature!(
        "`len(a)`, `sizeof(a)`" => "a `Constant` with the size, or `a-->0` of a `table`";
        "len sizeof strlen length size_of"
    ),
    RANGES,
    THEN,
];
