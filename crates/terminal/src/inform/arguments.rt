//! The arguments of the compiler's command line.

use crate::parts::{EXPLAIN, FLAG, Form, OPTION, PLACE, Row, Value, arguments_of, program};
use clap::Command;
use std::alloc::{AllocError, Global};

/// The end of the help: an example, and the documents that say more.
const MORE: &str = "Example:
  inform game.inf game.z5 && play game.z5

The installed documents and examples are in share/doc/felgoniz:
  docs/TUTORIAL.md    to begin with
  docs/LANGUAGE.md    the language, and the faults of source files
  docs/STORY_FILE.md  the story file
  docs/COMMANDS.md    all options, messages and statuses
The man page inform(1) is shorter.";

/// All arguments, in the order of the help.
const ARGUMENTS: [Row; 13] = [
    Row {
        name: "version_number",
        form: Form::Short('v'),
        value: Value::Number(0, 4_294_967_295),
        called: &["VERSION"],
        help: "Set the version of the story file, 5 or 8 [default: 5]",
        ..OPTION
    },
    Row {
        help: "Explain the fault NAME, such as E23, or list all faults; compile nothing",
        ..EXPLAIN
    },
    Row {
        name: "show",
        help: "Show where and why SOURCE is refused, as always at a terminal; without STORY only check it",
        ..FLAG
    },
    Row {
        name: "plain",
        help: "Say why SOURCE is refused in one line, also at a terminal",
        excludes: &["show"],
        ..FLAG
    },
    Row {
        name: "warn",
        help: "Warn of likely mistakes in SOURCE; without STORY only check it",
        ..FLAG
    },
    Row {
        name: "sizes",
        help: "Print how much SOURCE takes, and the limits; write no story file",
        excludes: &["story"],
        ..FLAG
    },
    Row {
        name: "extended",
        help: "Compile SOURCE as one of the larger language, by the plain source that it stands for",
        ..FLAG
    },
    Row {
        name: "include",
        called: &["FOLDER"],
        help: "Look in FOLDER, too, for files that SOURCE includes; may be given more than once",
        is_repeated: true,
        needs: &["extended"],
        ..OPTION
    },
    Row {
        name: "derived",
        help: "Print the plain source that SOURCE stands for with --extended; write no story file",
        excludes: &["story", "sizes"],
        needs: &["extended"],
        ..FLAG
    },
    Row {
        name: "large",
        help: "Refuse SOURCE as too large only if its story is, whatever it weighs",
        ..FLAG
    },
    // It needs a story file that is written.
    Row {
        name: "map",
        called: &["FILE"],
        help: "Write to FILE which addresses of STORY are of which routine and line",
        excludes: &["sizes"],
        needs: &["story"],
        ..OPTION
    },
    Row {
        name: "source",
        called: &["SOURCE"],
        help: "The source file",
        is_required: true,
        ..PLACE
    },
    Row {
        name: "story",
        called: &["STORY"],
        help: "The story file to write; at a terminal without it, game.z5 is written for game.inf",
        replaced: &["show", "warn", "derived", "sizes"],
        is_free_at_terminal: true,
        ..PLACE
    },
];

/// The program's command line, for a user who sees standard error at a terminal or not.
///
/// # Errors
///
/// Memory was refused.
pub fn command<'a>(alloc: Global, is_seen: bool) -> Result<Command<'a>, AllocError> {
    let arguments = arguments_of(alloc, &ARGUMENTS, is_seen)?;
    let about = "Compiles a source file to a Z-machine story file";
    program(alloc, "inform", about, MORE).args(arguments)
}
