//! What stops a turn or a session that no fault of the story stops.

use crate::explanation::{Explanation, explanations};

/// The three limits of a turn, J1, and S1 to S4.
pub(crate) static SESSIONS: [Explanation; 8] = explanations![
    "limit-turn" "turn too long" =>
        "A turn may spend 1,000,000 units of fuel, or the number after --fuel: 1 for each
call of a routine, and 1 each time the story goes back, as a loop does. This
turn needed more, so perhaps it would never have ended. The story is over with
[Limit: turn too long]; /undo takes the line back. Give turns more with --fuel,
up to 10,000,000, or look for the loop that does not end.";
    "limit-calls" "calls too deep" =>
        "At most 1,000 calls of routines may be open at once, and this was one more.
Usually a routine calls itself without end, or goes through a list by calling
itself where a loop would do. The story is over with [Limit: calls too deep];
/undo takes the line back.";
    "limit-text" "text too long" =>
        "A turn prints at most 65,536 bytes, and this was one more; the bytes before it
are in the transcript. Usually a loop that prints does not end. The story is
over with [Limit: text too long]; /undo takes the line back.";
    "J1" "no memory to take a turn back" =>
        "Before a turn writes to memory, the player keeps the old contents, so that the
turn can be taken back, and the system refused memory for them. The turn is
given up, and everything is as before: play prints [No memory: line not taken.],
or S3 if it was the opening. End other programs, or keep fewer turns with
--undo, and type the line again.";
    "S1" "reading failed" =>
        "Standard input could not be read, for example because it is a folder, or a
device that was removed. The lines before are answered, and play ends with
status 5. Check what standard input is. The normal end of the input does not
cause this.";
    "S2" "writing failed" =>
        "Standard output did not accept what was written, for example because a disk is
full, or because the program that read it has ended. What was written is the
beginning of the transcript, and play ends with status 5. Play the same lines
again where there is room.";
    "S3" "no memory for the opening" =>
        "The system refused memory while the story ran up to the place where it first
waits for a line, so nothing was played. This says nothing about the story. End
other programs or raise the memory limit (ulimit -v), and play it again.";
    "S4" "a line could not be kept" =>
        "The file after --session could not be written, for example because a disk is
full. The line is not answered, and play ends with status 5. All lines before it
are in the file: make room, and go on with the same command.";
];
