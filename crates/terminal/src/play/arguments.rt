//! The arguments of the player's command line.

ghost use Rattle.std.specs.Prelude.{◌≡◌, IfOk, codes, map};
ghost use Rattle.terminal.specs.Arguments.{ReadsNumber, names};
ghost use Rattle.terminal.specs.Range.{least_fuel, most_fuel, most_undo};
ghost use Rattle.terminal.specs.Rows.{BeginsWithNumbers};

use crate::parts::{EXPLAIN, FLAG, OPTION, PLACE, Row, Value, arguments_of, program};
use clap::Command;
use std::alloc::{AllocError, Global};

/// The end of the help: the player's own lines, an example, and the documents that say more.
const MORE: &str = "The line /undo takes back the latest turn, and the line /redo does it again.
With --standard, the line /status shows the status line of a story.
At a terminal, ctrl-D ends the input. There --standard is the default, and STORY may
be game for game.z5, .z8, .z3, .zblorb and so on. After a terminal was resized, the line
/screen COLUMNSxROWS fits the screen to it.

With `--format tsv` beside it, --check prints a line of 9 columns for each STORY.
With --standard beside it, --check names the opcodes that --standard does not play.

Example, which keeps the session, and goes on with it another day:
  play --session game.session game.z5

The installed documents and examples are in share/doc/felgoniz:
  docs/COMMANDS.md    all options, messages and statuses
  docs/ARCHIVES.md    how to check many story files
  docs/MACHINE.md     the player, with its limits and machine faults
  docs/STORY_FILE.md  the story file, and why one is refused (Z4 to Z8)
The man page play(6) is shorter.";

/// What the help says of `--standard`.
const STANDARD_HELP: &str =
    "Play every opcode of the Z-Machine Standards Document 1.1, as library games need [default at a terminal]";

/// What the help says of `--seed`.
const SEED_HELP: &str =
    "With --standard, begin the random numbers with N, up to 4294967295 [default: 12345; new at a terminal and with --json]";

/// What the help says of `--screen`.
const SCREEN_HELP: &str =
    "Draw the status line and windows at the top of a terminal of this size [default: by COLUMNS and LINES, else 80x24]";

/// What the help says of `--size-file`.
const SIZE_FILE_HELP: &str =
    "Draw each reply for the size that FILE tells then, where \"stty size\" has written to it; without it the size stays";

/// What the help says of `--styles`.
const STYLES_HELP: &str =
    "With --standard, mark reverse, bold, italic and fixed pitch by ANSI sequences or spans [default on a screen]";

/// All arguments, in the order of the help.
const ARGUMENTS: [Row; 19] = [
    Row {
        name: "fuel",
        value: Value::Number(1, 10_000_000),
        called: &["N"],
        help: "Give each turn N units of fuel, from 1 to 10000000 [default: 1000000]",
        ..OPTION
    },
    Row {
        name: "undo",
        value: Value::Number(0, 100_000),
        called: &["N"],
        help: "Keep up to N turns to undo, from 0 to 100000 [default: all]",
        ..OPTION
    },
    Row {
        name: "why",
        help: "Say at the end on standard error where the story is, and why it was stopped",
        ..FLAG
    },
    Row {
        name: "map",
        called: &["FILE"],
        help: "With --why, name the routine and the line, by the map that inform wrote to FILE",
        needs: &["why"],
        ..OPTION
    },
    Row {
        name: "standard",
        help: STANDARD_HELP,
        ..FLAG
    },
    Row {
        name: "profile",
        help: "Play the opcodes of the profile alone, which stories made by inform need [default for a pipe or a file]",
        excludes: &["standard"],
        ..FLAG
    },
    Row {
        name: "seed",
        value: Value::Number(0, 4_294_967_295),
        called: &["N"],
        help: SEED_HELP,
        ..OF_STANDARD
    },
    Row {
        name: "session",
        called: &["FILE"],
        help: "Keep each line in FILE, and go on from the last one where FILE has some",
        ..OPTION
    },
    Row {
        name: "saves",
        called: &["FOLDER"],
        help: "With --standard, let the story save games in FOLDER and restore them [default: it cannot]",
        ..OF_STANDARD
    },
    Row {
        name: "transcript",
        called: &["FILE"],
        help: "With --standard, add what the story prints after its word \"script\" to FILE [default: it cannot]",
        ..OF_STANDARD
    },
    Row {
        name: "wrap",
        value: Value::Number(1, 1000),
        called: &["N"],
        help: "Break lines at words for a terminal N columns wide, from 1 to 1000 [default: never]",
        ..OPTION
    },
    Row {
        name: "json",
        help: "Write each reply as a JSON object on one line, for a program that plays",
        excludes: &["wrap", "transcript"],
        ..FLAG
    },
    Row {
        name: "screen",
        called: &["COLUMNSxROWS"],
        help: SCREEN_HELP,
        least: 0,
        has_equals: true,
        excludes: &["profile", "wrap", "json"],
        ..OF_STANDARD
    },
    Row {
        name: "size-file",
        called: &["FILE"],
        help: SIZE_FILE_HELP,
        excludes: &["profile", "wrap", "json", "no-screen"],
        ..OF_STANDARD
    },
    Row {
        name: "no-screen",
        help: "Write plain lines at a terminal, too",
        excludes: &["screen"],
        ..FLAG
    },
    Row {
        name: "styles",
        help: STYLES_HELP,
        excludes: &["profile"],
        needs: &["standard"],
        is_free_at_terminal: true,
        ..FLAG
    },
    // `take_format` has taken `--format tsv`, and the player has taken `--standard`.
    Row {
        name: "check",
        called: &["STORY"],
        help: "Say whether each STORY loads, and which opcodes outside the profile it reaches; play none",
        most: usize::MAX,
        is_alone: true,
        ..OPTION
    },
    Row {
        help: "Explain the answer NAME, such as Z7, or list all answers; play nothing",
        ..EXPLAIN
    },
    Row {
        name: "story",
        called: &["STORY"],
        help: "A story file of version 5 or 8; zero bytes may fill it to a multiple of 512",
        is_required: true,
        ..PLACE
    },
];

/// What options have in common that need `--standard`, or a terminal without `--profile`.
const OF_STANDARD: Row = Row {
    excludes: &["profile"],
    needs: &["standard"],
    is_free_at_terminal: true,
    ..OPTION
};

/// The rows of all arguments.
fn rows() -> &'static [Row]
    ensures names { map (λ row. row.name.now) result.now ≡ names }
    ensures numbers { BeginsWithNumbers result.now }
{
    &ARGUMENTS
}

/// The program's command line, for a user who sees the transcript at a terminal or not.
///
/// # Errors
///
/// Memory was refused.
pub(crate) fn command<'a>(alloc: Global, is_seen: bool) -> Result<Command<'a>, AllocError>
    ensures fuel { IfOk result (ReadsNumber (codes "fuel") least_fuel most_fuel) }
    ensures undo { IfOk result (ReadsNumber (codes "undo") 0 most_undo) }
{
    let arguments = arguments_of(alloc, rows(), is_seen)?;
    let about = "Plays a Z-machine story file with the lines of standard input";
    program(alloc, "play", about, MORE).args(arguments)
}
