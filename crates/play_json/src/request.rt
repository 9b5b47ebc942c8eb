//! What a line asks of the player.

ghost use Rattle.std.specs.Prelude.{◌≡◌};
ghost use Rattle.play_json.specs.Requests.{
  is_command,
  kind_of,
  mark_in,
  next_number,
  number_from,
  number_of,
  request_of,
  show_in,
};

use crate::kind::Kind;

/// How a line begins that asks for bytes of memory.
pub(crate) const MEMORY: &[u8] = b"/memory ";

/// How a line begins that asks to go to a mark.
const GO: &[u8] = b"/go ";

/// What can be shown.
#[derive(Clone, Copy)]
pub enum Topic {
    /// Where the story is, which each reply says.
    Status,

    /// The global variables.
    Globals,

    /// The objects.
    Objects,

    /// The lines that are not undone.
    Lines,

    /// Bytes of memory.
    Memory,

    /// The words of the dictionary.
    Dictionary,

    /// The digest of the state.
    Hash,
}

impl Topic {
    /// The kind of the reply that shows it.
    pub fn kind(self) -> Kind
        ensures { result ≡ kind_of self }
    {
        match self {
            Topic::Status => Kind::Status,
            Topic::Globals => Kind::Globals,
            Topic::Objects => Kind::Objects,
            Topic::Lines => Kind::Lines,
            Topic::Memory => Kind::Memory,
            Topic::Dictionary => Kind::Dictionary,
            Topic::Hash => Kind::Hash,
        }
    }
}

/// What a line asks of the player.
#[derive(Clone, Copy)]
pub enum Request {
    /// To take the latest turn back.
    Undo,

    /// To do the first turn again that was undone.
    Redo,

    /// To mark the lines that stand.
    Mark,

    /// To let the lines of a mark stand.
    Go,

    /// To show something, which is no turn.
    Show(Topic),

    /// To give the story the line.
    Turn,

    /// A command that the player does not have, which is no turn.
    Unknown,
}

impl Request {
    /// What a line asks for.
    pub fn of(line: &[u8]) -> Request
        ensures { result ≡ request_of line.now }
    {
        if line == b"/undo".as_slice() {
            Request::Undo
        } else if line == b"/redo".as_slice() {
            Request::Redo
        } else if line == b"/mark".as_slice() {
            Request::Mark
        } else if line.starts_with(GO) {
            Request::Go
        } else {
            Request::to_show(line)
        }
    }

    /// What a line asks for that takes no turn back and does none again.
    fn to_show(line: &[u8]) -> Request
        ensures { result ≡ show_in line.now }
    {
        if line == b"/status".as_slice() {
            Request::Show(Topic::Status)
        } else if line == b"/globals".as_slice() {
            Request::Show(Topic::Globals)
        } else if line == b"/objects".as_slice() {
            Request::Show(Topic::Objects)
        } else if line == b"/lines".as_slice() {
            Request::Show(Topic::Lines)
        } else if line == b"/dictionary".as_slice() {
            Request::Show(Topic::Dictionary)
        } else if line == b"/hash".as_slice() {
            Request::Show(Topic::Hash)
        } else if line.starts_with(MEMORY) {
            Request::Show(Topic::Memory)
        } else if is_command(line) {
            Request::Unknown
        } else {
            Request::Turn
        }
    }
}

/// Whether a line is a command to the player: `/` and something after it. A story may read `/` as a key.
fn is_command(line: &[u8]) -> bool
    ensures { result ≡ is_command line.now }
{
    line.len() > 1 && line.starts_with(b"/".as_slice())
}

/// The number of the mark to which a line asks to go, which begins with `/go `.
pub(crate) fn mark_in(line: &[u8]) -> Option<usize>
    ensures { result ≡ mark_in line.now }
{
    if line.len() < 4 {
        None
    } else {
        number_of(&line[4..])
    }
}

/// A number in decimal digits, below 10,000,000,000.
fn number_of(digits: &[u8]) -> Option<usize>
    ensures { result ≡ number_of digits.now }
{
    if digits.len() == 0 {
        None
    } else {
        number_from(digits)
    }
}

/// The same, where there may be no digit, for 0.
fn number_from(digits: &[u8]) -> Option<usize>
    ensures { result ≡ number_from 0 digits.now }
{
    let mut number: usize = 0;
    for digit in digits {
        match next_number(number, *digit) {
            Some(next) => number = next,
            None => return None,
        }
    }
    Some(number)
}

/// A number with one digit more.
fn next_number(number: usize, digit: u8) -> Option<usize>
    ensures { result ≡ next_number number digit }
{
    if number < 1_000_000_000 && b'0' <= digit && digit <= b'9' {
        Some(number * 10 + usize::from(digit - b'0'))
    } else {
        None
    }
}
