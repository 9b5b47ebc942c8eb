//! What each Z-character of a text comes to (Z-Machine Standards Document 1.1, sections 3.2 to 3.5).

ghost use Rattle.std.specs.Prelude.{◌≡◌, ◌<◌, ◌≤◌, length, Ok};
ghost use Rattle.ztext.specs.Reading as spec;
ghost use Rattle.zcore_standard.specs.Texts as definitions;
ghost use Rattle.machine_standard_texts.specs.Pieces.{Comes, IsSmall, alphabets_length, state_of};

/// How many letters an alphabet has.
const LETTERS: usize = 26;

/// What the Z-characters before it make of the next one.
#[derive(Clone, Copy)]
pub(crate) enum State {
    /// A letter of alphabet A0, or a shift.
    Lower,
    /// A letter of alphabet A1.
    Upper,
    /// A letter of alphabet A2, or the beginning of an escape.
    Punctuation,
    /// The high half of an escape's code.
    EscapeHigh,
    /// The low half of an escape's code, after this high half.
    EscapeLow(u8),
    /// The second half of an abbreviation's number, after this Z-character, 1 to 3.
    Abbreviated(u8),
}

/// What a Z-character comes to.
#[derive(Clone, Copy)]
pub(crate) enum Piece {
    Nothing,
    /// A ZSCII code.
    Code(u16),
    /// The text of the abbreviation of this number, 0 to 95.
    Abbreviation(usize),
}

/// The state after a Z-character: a shift holds for one, and a shift after it takes its place.
pub(crate) fn next(state: State, z: u8) -> State
    requires { z < 32 }
    ensures next { state_of result ≡ spec.next (state_of state) z }
    ensures small { IsSmall result }
{
    match state {
        State::EscapeHigh => State::EscapeLow(z),
        State::EscapeLow(_) | State::Abbreviated(_) => State::Lower,
        State::Lower | State::Upper | State::Punctuation => match z {
            1..=3 => State::Abbreviated(z),
            4 => State::Upper,
            5 => State::Punctuation,
            6 => match state {
                State::Punctuation => State::EscapeHigh,
                _ => State::Lower,
            },
            _ => State::Lower,
        },
    }
}

/// What a letter comes to, a Z-character from 6 on.
fn letter(alphabets: &[u8], state: State, z: u8) -> Piece
    requires alphabets { length alphabets.now ≡ alphabets_length }
    requires from { 6 ≤ z }
    requires below { z < 32 }
    ensures { (expand : _)
        → Comes expand (Ok (definitions.letter_codes alphabets.now (state_of state) z)) result }
{
    let place = z as usize - 6;
    match state {
        State::Upper => Piece::Code(alphabets[LETTERS + place] as u16),
        State::Punctuation => match z {
            6 => Piece::Nothing,
            7 => Piece::Code(13),
            _ => Piece::Code(alphabets[2 * LETTERS + place] as u16),
        },
        _ => Piece::Code(alphabets[place] as u16),
    }
}

/// What a Z-character comes to in a state.
pub(crate) fn piece_of(alphabets: &[u8], state: State, z: u8) -> Piece
    requires alphabets { length alphabets.now ≡ alphabets_length }
    requires small { IsSmall state }
    requires below { z < 32 }
    ensures { (expand : _)
        → Comes expand (definitions.codes_of alphabets.now expand (state_of state) z) result }
{
    match state {
        State::EscapeHigh => Piece::Nothing,
        State::EscapeLow(high) => Piece::Code(32 * u16::from(high) + u16::from(z)),
        State::Abbreviated(row) => Piece::Abbreviation(32 * (row as usize - 1) + z as usize),
        State::Lower | State::Upper | State::Punctuation => match z {
            0 => Piece::Code(32),
            1..=5 => Piece::Nothing,
            _ => letter(alphabets, state, z),
        },
    }
}
