//! Why a source cannot be read: its bytes, its tokens, its grammar.

use crate::explanation::{Explanation, explanations};

/// E01 to E05, and E10.
pub(crate) static TOKENS: [Explanation; 6] = explanations![
    "E01" "stray byte" =>
        "A source file may contain only the bytes 9, 10, 13 and 32 to 126, in comments
too, so that it means the same on every system. A token begins with a letter, an
underscore, a digit, a quote, $ or a sign of the language. The byte here is none
of these: for example # or ? outside a text, or an accented letter. Remove it,
or write the sign you meant."
        broken "[ Main;
    print 6 ? 7;
];"
        mended "[ Main;
    print 6 * 7;
];";
    "E02" "bad text or word" =>
        "What begins with a quote must end with the same quote on the same line, so that
a forgotten quote does not swallow the lines after it. In a text in double
quotes, write ^ for a new line and ~ for a double quote; @ and \\ are not
allowed. Single quotes hold one byte for a character, or several without spaces
for a dictionary word; ~, @ and \\ are not allowed. Close the quote, or write ^
and ~."
        broken "[ Main;
    print \"The lamp is lit.
You see a door.\";
];"
        mended "[ Main;
    print \"The lamp is lit.^You see a door.\";
];";
    "E03" "bad number" =>
        "A number is decimal digits, $ and hexadecimal digits, or $$ and binary digits.
No letter, digit or underscore may follow it directly. The largest number is
65,535, since a value is a word of 16 bits. Write a smaller number; if you meant
a name, begin it with a letter or an underscore."
        broken "Global coins = 70000;

[ Main;
    print coins;
];"
        mended "Global coins = 7000;

[ Main;
    print coins;
];";
    "E04" "name too long" =>
        "A name has at most 32 letters, digits and underscores. Only that many are
compared, so two names that differ only after them would be the same. Shorten
the name everywhere it is used."
        broken "Global number_of_coins_in_the_wooden_chest = 7;

[ Main;
    print number_of_coins_in_the_wooden_chest;
];"
        mended "Global coins_in_the_wooden_chest = 7;

[ Main;
    print coins_in_the_wooden_chest;
];";
    "E05" "nested too deep" =>
        "At most 100 parentheses, braces, statements inside statements, operators before
their operand and right sides of = may be open at once, because each takes some
of the compiler's own stack. Move a deeply nested part into a variable or a
routine of its own."
        broken "[ Main;
    print
        (((((((((((((((((((((((((((((((((((((((((((((((((((
        ((((((((((((((((((((((((((((((((((((((((((((((((((
        7
        ))))))))))))))))))))))))))))))))))))))))))))))))))
        )))))))))))))))))))))))))))))))))))))))))))))))))));
];"
        mended "[ Main;
    print
        ((((((((((((((((((((((((((((((((((((((((((((((((((
        ((((((((((((((((((((((((((((((((((((((((((((((((((
        7
        ))))))))))))))))))))))))))))))))))))))))))))))))))
        ))))))))))))))))))))))))))))))))))))))))))))))))));
];";
    "E10" "not in the grammar" =>
        "No program begins with the tokens up to this one; the end of the source file
counts as a token. Often a semicolon, a bracket or an operator is missing just
before it, or a reserved word, such as child, move or string, is used as a name.
Or it is a form of Inform 6 that this language leaves out: docs/LANGUAGE.md has
the grammar and the reserved words."
        broken "[ Main;
    print \"hello\"
    new_line;
];"
        mended "[ Main;
    print \"hello\";
    new_line;
];";
];
