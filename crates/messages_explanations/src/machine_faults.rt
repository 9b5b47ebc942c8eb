//! What a story may do that the machine does not allow.

use crate::explanation::{Explanation, explanations};

/// M1 to M12.
pub(crate) static MACHINE_FAULTS: [Explanation; 12] = explanations![
    "M1" "opcode that is not known" =>
        "The story reached an instruction that the player does not have, or one with too
few or too many operands. Games built on a library use more instructions than
stories made by inform: play --standard has them all. docs/MACHINE.md lists
those that play has without it. /undo takes the line back.";
    "M2" "instruction outside the story" =>
        "The story was about to continue at an address below 64, which is in its header,
or past its end, or it called something that is not a routine: a routine begins
with a number of locals from 0 to 15. The story is damaged, or it computed a
wrong address. Stories made by inform never do this. /undo takes the line back.";
    "M3" "reading outside" =>
        "The story read a byte or a word at or past its end or the address 65,536, a text
that runs past its end, or a local or variable that does not exist. Usually an
index or a pointer is wrong, such as an index past the last entry of an array. A
story made by inform checks the index, and prints [Fault: index out of range].
/undo takes the line back.";
    "M4" "writing outside" =>
        "The story wrote to its header, to static memory, which begins at the static base
and never changes, or to a local that does not exist. Usually an index or a
pointer is wrong. A story made by inform checks the index, and prints
[Fault: index out of range]. /undo takes the line back.";
    "M5" "empty stack" =>
        "The story took a word from the stack of the running routine, and the stack was
empty. Each call has its own stack, without what its caller pushed. The code is
wrong, or a jump led into the middle of other code. Stories made by inform never
do this. /undo takes the line back.";
    "M6" "stack too large" =>
        "The stacks of all open calls, with their locals, would have had more than 65,536
words. Usually a routine pushes in a loop and never pulls, or calls itself
without end. Stories made by inform reach the limit of open calls first. /undo
takes the line back.";
    "M7" "division by zero" =>
        "A div or mod instruction had the divisor 0, for which there is no result. The
story should have checked it first. A story made by inform checks the divisor,
and prints [Fault: division by zero]. /undo takes the line back.";
    "M8" "not an object" =>
        "An opcode for objects was given object 0, which does not exist, a number whose
entry is not in dynamic memory, an attribute above 47, or an object whose parent
does not have it among its children. Usually the story forgot that there may be
no parent or no child. A story made by inform checks it, and prints
[Fault: not an object]. /undo takes the line back.";
    "M9" "no such property" =>
        "An opcode was given a property number outside 1 to 63; put_prop or get_next_prop
was given a property that the object does not have; or get_prop or put_prop one
of more than two bytes, which is not a word. The story should have asked for its
address or length first. A story made by inform checks it, and prints
[Fault: no such property]. /undo takes the line back.";
    "M10" "not a character" =>
        "The story was about to print a character that does not exist: any other than 0
(none), 13 (a new line) and 32 to 126. Or a text uses an abbreviation where none
is allowed. Stories for other players print accented letters this way. A story
made by inform checks it, and prints [Fault: not a character]. /undo takes the
line back.";
    "M11" "return from the first environment" =>
        "The first instructions of a story are not in a routine, so a return there leads
nowhere; they end with quit. The story was made this way, or a jump led there.
Stories made by inform never do this. /undo takes the line back.";
    "M12" "bad buffer for a line" =>
        "The story tried to read a line into a buffer that is not in dynamic memory, has
no room (its byte 0 is 0), or already has letters in it (its byte 1 is not 0). A
story has to set that byte to 0 before it waits again. A story made by inform
checks it, and prints [Fault: buffer too small]. /undo takes the line back.";
];
