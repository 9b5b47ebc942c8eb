//! Why a source is refused for a name, or for what is done with one.

use crate::explanation::{Explanation, explanations};

/// E20 to E23, and E25 to E27.
pub(crate) static USES: [Explanation; 7] = explanations![
    "E20" "unknown name" =>
        "A name must be defined somewhere in the file, before or after its use, or be a
local of the routine. Two things must be defined earlier in the file: a Constant
in the value of a Constant, and the object that another one names as its parent.
Arrows need an object before them that can hold theirs. Define the name, move
its definition up, or correct its spelling (capital and small letters are the
same)."
        broken "[ Main;
    score = score + 5;
    print score;
];"
        mended "Global score;

[ Main;
    score = score + 5;
    print score;
];";
    "E21" "no proper Main" =>
        "A story begins by calling Main without arguments, so a source file needs a
routine named Main that has no locals. Give the routine that runs first the name
Main. Put what it has to remember into a Global, or into the locals of a routine
that it calls."
        broken "[ Main times;
    for (times = 3 : times > 0 : times--) print \"hello^\";
];"
        mended "[ Greet times;
    for (times = 3 : times > 0 : times--) print \"hello^\";
];

[ Main;
    Greet();
];";
    "E22" "name defined twice" =>
        "All names of a file share one space, whatever they name, and capital and small
letters are the same. So a name is defined once in a file (the property name is
there from the start), and once among the locals of a routine, which may hide a
name of the file. An object gives a property once. Rename or remove the second
one."
        broken "Attribute lit;
Global Lit = 1;

[ Main;
    print Lit;
];"
        mended "Attribute lit;
Global lamps = 1;

[ Main;
    print lamps;
];";
    "E23" "wrong kind of name" =>
        "The name is defined, but as something that cannot be used here. Call a routine,
F(); read an array with -> or -->, read a property with . and test an attribute
with has: none of them is a value by itself, and nothing else works in their
place. A value fixed before the story runs, such as that of a case or a Global,
is made of numbers, words, Constants and objects. The two arrays of a read are
byte arrays, and not the same one."
        broken "[ Seven;
    return 7;
];

[ Main;
    print Seven;
];"
        mended "[ Seven;
    return 7;
];

[ Main;
    print Seven();
];";
    "E25" "too many arguments for the routine" =>
        "The arguments of a call become the first locals of the routine, so a call may
not have more arguments than the routine has locals. It may have fewer: the
other locals then begin as 0. Add a local to the routine, or remove an argument
from the call."
        broken "[ Double n;
    return n + n;
];

[ Main;
    print Double(4, 2);
];"
        mended "[ Double n;
    return n + n;
];

[ Main;
    print Double(4);
];";
    "E26" "not assignable" =>
        "Only what can hold a value may be to the left of =: a variable, an entry of an
array, a property of an object, or a word of a property. ++ and -- change only
variables. A number, a Constant, a call or a sum holds no value. Assign to a
Global or a local; instead of ++ on an entry write a->i = a->i + 1. To compare
two values write ==."
        broken "Constant lives = 3;

[ Main;
    lives = lives - 1;
    print lives;
];"
        mended "Global lives = 3;

[ Main;
    lives = lives - 1;
    print lives;
];";
    "E27" "break or continue outside" =>
        "break leaves the innermost loop or switch around it, and continue goes on with
the next round of the innermost loop; a switch is not a loop. This routine has
none around the word. Move it into the loop you meant, or leave the whole
routine with return."
        broken "Global lives = 3;

[ Main;
    if (lives == 0) break;
    print \"You go on.\";
];"
        mended "Global lives = 3;

[ Main;
    if (lives == 0) return;
    print \"You go on.\";
];";
];
