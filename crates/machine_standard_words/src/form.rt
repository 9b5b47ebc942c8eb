//! The form of a word in a dictionary (Z-Machine Standards Document 1.1, sections 3.7 and 13.3).

ghost use Rattle.std.specs.Prelude.{◌≡◌, ◌<◌, ◌≤◌, ◌++◌, ℕ, List, length, take, drop, slice_range, MatchOption, ⊤};
ghost use Rattle.ztext.specs.Alphabets as spec;
ghost use Rattle.ztext.specs.TextParts.{AreSmall, IsFilledKey, filled};
ghost use Rattle.ztext.specs.Words as words;
ghost use Rattle.zcore_standard.specs.Texts as texts;
ghost use Rattle.zcore_standard.specs.Words as definitions;

/// How many letters each alphabet has.
const LETTERS: usize = 26;

/// Where the letters of the third alphabet begin, from Z-character 8 on.
const THIRD: usize = 54;

/// The Z-characters of a character: the first `length` of `characters`.
#[derive(Clone, Copy)]
struct ZCharacters {
    characters: [u8; 4],
    length: usize,
    ghost length_fits: { length ≤ 4 },
}

impl ZCharacters {
    fn as_slice(&self) -> &[u8]
        ensures { result.now ≡ take self.now.length self.now.characters }
    {
        &self.characters[..self.length]
    }
}

/// The first place of a code in a row of letters.
pub fn place_in(letters: &[u8], c: u8) -> Option<usize>
    ensures found { result ≡ spec.place_in letters.now c }
    ensures within { MatchOption result ⊤ (λ place. place < length letters.now) }
{
    letters.iter().position(|letter| *letter == c)
}

/// How a character is spelled: in the first alphabet that has it, or else as an escape.
fn spelling(alphabets: &[u8; 78], c: u8) -> ZCharacters
    ensures { take result.length result.characters ≡ texts.spelling_by alphabets.now c }
{
    if c == b' ' {
        return ZCharacters {
            characters: [0, 5, 5, 5],
            length: 1,
        };
    }
    spelling_in_first(alphabets, c)
}

/// How a character is spelled that is no space.
fn spelling_in_first(alphabets: &[u8; 78], c: u8) -> ZCharacters
    ensures { take result.length result.characters
        ≡ texts.spelled_in_first alphabets.now (spec.place_in (take 26 alphabets.now) c) c }
{
    match place_in(&alphabets[..LETTERS], c) {
        Some(place) => ZCharacters {
            characters: [place as u8 + 6, 5, 5, 5],
            length: 1,
        },
        None => spelling_in_second(alphabets, c),
    }
}

/// How a character is spelled that the first alphabet has not.
fn spelling_in_second(alphabets: &[u8; 78], c: u8) -> ZCharacters
    ensures { take result.length result.characters
        ≡ texts.spelled_in_second alphabets.now (spec.place_in (slice_range alphabets.now 26 52) c) c }
{
    match place_in(&alphabets[LETTERS..2 * LETTERS], c) {
        Some(place) => ZCharacters {
            characters: [4, place as u8 + 6, 5, 5],
            length: 2,
        },
        None => spelling_in_third(alphabets, c),
    }
}

/// How a character is spelled that neither of the first two alphabets has: a new line, a letter of
/// the third, or an escape.
fn spelling_in_third(alphabets: &[u8; 78], c: u8) -> ZCharacters
    ensures { take result.length result.characters ≡ texts.spelled_in_third alphabets.now c }
{
    if c == b'\r' {
        return ZCharacters {
            characters: [5, 7, 5, 5],
            length: 2,
        };
    }
    sign_spelling(alphabets, c)
}

/// How a character is spelled that is no space and no new line, and in neither of the first two
/// alphabets.
fn sign_spelling(alphabets: &[u8; 78], c: u8) -> ZCharacters
    ensures { take result.length result.characters
        ≡ spec.spelling_in_punctuation (spec.place_in (drop 54 alphabets.now) c) c }
{
    match place_in(&alphabets[THIRD..], c) {
        Some(place) => ZCharacters {
            characters: [5, place as u8 + 8, 5, 5],
            length: 2,
        },
        None => ZCharacters {
            characters: [5, 6, c / 32, c % 32],
            length: 4,
        },
    }
}

/// Adds Z-characters to the first `count` of nine, as far as there is room, and answers how many there
/// are then.
pub fn put_characters(characters: &mut [u8; 9], count: usize, more: &[u8]) -> usize
    requires { count ≤ 9 }
    ensures { (zs : List ℕ) → IsFilledKey zs count characters.old
        → IsFilledKey (zs ++ more.now) result characters.new }
{
    let mut filled = count;
    for z in more {
        if filled < 9 {
            characters[filled] = *z;
            filled += 1;
        }
    }
    filled
}

/// Adds those of a character.
fn put_spelling(characters: &mut [u8; 9], alphabets: &[u8; 78], count: usize, c: u8) -> usize
    requires { count ≤ 9 }
    ensures { (zs : List ℕ) → IsFilledKey zs count characters.old
        → IsFilledKey (zs ++ texts.spelling_by alphabets.now c) result characters.new }
{
    put_characters(characters, count, spelling(alphabets, c).as_slice())
}

/// The two bytes of three Z-characters. `mark` is 128 in the last word of a text, or else 0.
pub fn word_bytes(mark: u8, a: u8, b: u8, c: u8) -> [u8; 2]
    requires top { mark ≤ 128 }
    requires first { a < 32 }
    requires second { b < 32 }
    requires third { c < 32 }
    ensures { result ≡ words.word_of mark a b c }
{
    [mark + a * 4 + b / 8, (b % 8) * 32 + c]
}

/// Nine Z-characters in three words.
pub fn packed(characters: &[u8; 9]) -> [u8; 6]
    requires { AreSmall characters.now }
    ensures { result ≡ words.packed characters.now }
{
    let [a, b] = word_bytes(0, characters[0], characters[1], characters[2]);
    let [c, d] = word_bytes(0, characters[3], characters[4], characters[5]);
    let [e, f] = word_bytes(128, characters[6], characters[7], characters[8]);
    [a, b, c, d, e, f]
}

/// The first nine Z-characters of a word by these alphabets, filled with fives. Capitals stay
/// capitals.
pub fn nine_characters(alphabets: &[u8; 78], word: &[u8]) -> [u8; 9]
    ensures nine { result ≡ filled (texts.spelled_by alphabets.now word.now) }
    ensures small { AreSmall result }
{
    let mut characters = [5; 9];
    let mut count = 0;
    for c in word {
        count = put_spelling(&mut characters, alphabets, count, *c);
    }
    characters
}

/// The form of a word in a dictionary by these alphabets: its first nine Z-characters, filled with
/// fives, in three words. Every word has a form, whatever its bytes, and none asks for memory.
#[tactic(auto, unfolding(zcore_standard::specs::Words::form_of, ztext::specs::TextParts::filled))]
pub(crate) fn form_of(alphabets: &[u8; 78], word: &[u8]) -> [u8; 6]
    ensures { result ≡ definitions.form_of alphabets.now word.now }
{
    packed(&nine_characters(alphabets, word))
}
