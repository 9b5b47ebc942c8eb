//! Why a story is refused, and what may be wrong with a text in one.

use crate::explanation::{Explanation, explanations};

/// Z1 to Z12.
pub(crate) static STORIES: [Explanation; 12] = explanations![
    "Z1" "text with a bad character" =>
        "A text of the story has an escape for a character that cannot be printed: any
other than 0 (none), 13 (a new line) and 32 to 126. In a turn this is machine
fault M10, and play reports that. The story is damaged, or was made for players
that print more characters.";
    "Z2" "text without an end" =>
        "The last word of a text has its top bit set, and no word from here to the end of
the story has. So this is not a text, or the story is damaged. In a turn this is
machine fault M3, and play reports that.";
    "Z3" "text with a bad abbreviation" =>
        "A text uses an abbreviation although the story has no table of them, or inside
the text of an abbreviation, where none is allowed, so that every text has an
end. In a turn this is machine fault M10, and play reports that. The story is
damaged.";
    "Z4" "too short for a story" =>
        "The file has fewer than 64 bytes, so it has no header. It is empty, was cut off,
or is not a story. Copy or download it again, or check that it is the file you
meant.";
    "Z5" "not of version 5 or 8" =>
        "The first byte of a story is its version. Versions 5 and 8 are played, and by
play --standard also 1 to 4 and 7, and the story in a Blorb file. Version 6,
whose games draw pictures, is not played. A file with another first byte is not
a story: a source file, a packed file, or a Glulx story. Play it with
--standard, or check that it is the file you meant.";
    "Z6" "a part outside its memory" =>
        "The header says that a part of the story is where it may not be: globals and
objects must be in dynamic memory, the dictionary in static memory, the first
instruction inside the story. Or the keys of the dictionary are not in ascending
order, so that it cannot be searched. Length and sum are right, so the program
that made it does not follow the standard. docs/STORY_FILE.md has the rules.";
    "Z7" "not as long as it states" =>
        "The header states how long the story is, and the file is shorter or longer. Only
zero bytes that fill the file to a multiple of 512, as Inform 6 writes them, may
follow the story. The file was cut off, or something was added to it: copy or
download it again.";
    "Z8" "not the sum that it states" =>
        "The header states the sum of all bytes after it, modulo 65,536, and their sum is
different. So some byte is not what it was when the story was made. Copy or
download it again. If you changed the story by hand, write the new sum into
bytes 28 and 29.";
    "Z9" "no memory for the story" =>
        "The system refused memory while the story was loaded. This says nothing about
the story. End other programs or raise the memory limit (ulimit -v), and play it
again.";
    "Z10" "damaged Blorb file" =>
        "A Blorb file packs a story with pictures and sounds, and begins with an index
of them. This file is shorter than it states, its index is not as long as its
entries, or the story is not between the index and the end. Or the file states
more than 64 MB. It was cut off, or something in it was changed: copy or
download it again.";
    "Z11" "Blorb file without a program" =>
        "The index of a Blorb file says which part of it is the program to run, and this
index names none. Such a file has only pictures or sounds for a story that is in
another file: play that file.";
    "Z12" "Blorb file for another machine" =>
        "The program in a Blorb file is not a story of the Z-machine. Mostly it is a
Glulx story, in a file whose name ends in .gblorb: play it with a player for
Glulx, or look for an edition of the game for the Z-machine.";
];
