//! Why a source is refused for how much there is of something.

use crate::explanation::{Explanation, explanations};

/// E24, E28 to E33, and E99.
pub(crate) static LIMITS: [Explanation; 8] = explanations![
    "E24" "too many" =>
        "A story has room for a limited number of each of these: 232 globals, 15 locals
of a routine, 7 arguments of a call, 48 attributes, 62 properties besides name,
32 words of a property, 2,000 objects, 255 words of Z-text of a short name
(three small letters per word), 96 abbreviations. Here is one more. Keep several
values in one array, print a long name in a statement, or divide the routine."
        broken "[ Sum a b c d e f g h;
    return a + b + c + d + e + f + g + h;
];

[ Main;
    print Sum(1, 2, 3, 4, 5, 6, 7, 8);
];"
        mended "[ Sum a b c d e f g;
    return a + b + c + d + e + f + g;
];

[ Main;
    print Sum(1, 2, 3, 4, 5, 6, 7) + 8;
];";
    "E28" "array entry or size" =>
        "A byte entry of an array is a number from 0 to 255, so a larger number or a
dictionary word does not fit. An array has 1 to 32,000 bytes, and its size is a
number, not a word. A string has at most 255 entries, since entry 0 holds their
number in one byte. Write --> instead of ->, or table instead of string, for
entries of 16 bits, or divide the array."
        broken "Array prices -> 12 256 40;

[ Main;
    print prices->1;
];"
        mended "Array prices --> 12 256 40;

[ Main;
    print prices-->1;
];";
    "E29" "expression too large" =>
        "While an operand is being evaluated, the values of the operands before it wait
on the stack: operand i needs i - 1 more places than it needs by itself. More
than 48 such temporaries are refused, so that 1,000 open calls fit on the
machine's stack. Store the inner part in a variable in an earlier statement, or
write it first: (1+1)+1 needs 2 where 1+(1+1) needs 3."
        broken "[ Main;
    print
        1+(1+(1+(1+(1+(1+(1+(1+(1+(1+(1+(1+(1+(1+(1+(1+
        (1+(1+(1+(1+(1+(1+(1+(1+(1+(1+(1+(1+(1+(1+(1+(1+
        (1+(1+(1+(1+(1+(1+(1+(1+(1+(1+(1+(1+(1+(1+(1+(1+1
        )))))))))))))))))))))))))))))))))))))))))))))));
];"
        mended "Global sum;

[ Main;
    sum =
        1+(1+(1+(1+(1+(1+(1+(1+(1+(1+(1+(1+(1+(1+(1+(1+
        (1+(1+(1+(1+(1+(1+(1+(1+(1+(1+(1+(1+(1+(1+(1+1
        ))))))))))))))))))))))))))))));
    print sum+
        1+(1+(1+(1+(1+(1+(1+(1+(1+(1+(1+(1+(1+(1+(1+(1+1
        )))))))))))))));
];";
    "E30" "tables too large" =>
        "Everything before the routines in a story has addresses of 16 bits. So all
arrays, objects, keys of dictionary words and abbreviations have at most 64,660
bytes together; docs/LANGUAGE.md says how many each takes. Make the arrays
smaller, or use entries of one byte (->) where they are enough."
        broken "Array map --> 12000;
Array heights --> 12000;
Array colours --> 12000;

[ Main;
    map-->0 = 1;
    heights-->0 = 300;
    colours-->0 = 7;
];"
        mended "Array map -> 12000;
Array heights --> 12000;
Array colours -> 12000;

[ Main;
    map->0 = 1;
    heights-->0 = 300;
    colours->0 = 7;
];";
    "E31" "story too large" =>
        "The source file weighs more than 190,000, or more than 450,000 for version 8: 32
for each token, and 3 for each byte between the quotes of a text. Up to this
weight its code always fits into a story file of the version. Compile it with
--large, which asks only whether the story file is longer than 262,140 bytes,
or 524,280 for version 8; with -v 8; or move what you print in several places
into one routine. One for version 5 has about 5,900 tokens.";
    "E32" "routine too large" =>
        "The routine weighs more than 32,000: 32 for each token from its [ to the ; after
its ], and 3 for each byte between the quotes of a text. Up to this weight every
jump in its code reaches its target. Divide it into two routines. No small
source file shows this: the routine has 1,000 tokens, or texts of 10,000
letters.";
    "E33" "bad abbreviation" =>
        "An abbreviation has two bytes or more, since a single one would not become
shorter. No two abbreviations have the same bytes, since the second would never
be used; capital and small letters are different here. Make it longer, or remove
it."
        broken "Abbreviate \"the \" \"you \" \"the \";

[ Main;
    print \"You see the lamp on the table.\";
];"
        mended "Abbreviate \"the \" \"you \";

[ Main;
    print \"You see the lamp on the table.\";
];";
    "E99" "no memory" =>
        "The system refused memory to the compiler. This says nothing about the source
file, which may be accepted when more memory is free. End other programs or
raise the memory limit (ulimit -v), and compile it again. No source file shows
this.";
];
