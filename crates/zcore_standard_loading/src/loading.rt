//! Loading a file to play it by the whole Standard: which files are refused, what is read of the
//! others, and what the player writes into their headers.

ghost use Rattle.std.specs.Prelude.{◌≡◌, ◌+◌, ◌%◌, ◌≤◌, ℕ, List, true, length, drop, sum, slice_index, IfOk, IfErr};
ghost use Rattle.zcore.specs.Header.{HasHeader, IsDictionaryOf, dictionary_of, scale_of};
ghost use Rattle.zcore.specs.Parts.{scale_in};
ghost use Rattle.zcore.specs.Turn.{with_bytes};
ghost use Rattle.zcore_standard.specs.Extension as extension;
ghost use Rattle.zcore_standard_loading.specs.Loading as definitions;
ghost use Rattle.zcore_standard_loading.specs.Loading.{IsHeadOf, IsNotWhole, IsWhole, ReadsFile, ReadsMemory, undo_flag};

use crate::options::Capabilities;
use crate::placing::{is_placed, read_dictionary};
use zcore::layout::{
    ABBREVIATIONS_WORD, DEFAULTS_WORD, DICTIONARY_WORD, FIRST_INSTRUCTION_WORD, GLOBALS_WORD,
    HEADER_LENGTH, HIGH_MEMORY_WORD, LENGTH_WORD, LONGEST_STORY, STATIC_BASE_WORD, SUM_WORD,
};
use zcore::{Dictionary, Header, HeaderFault, Version};
use zcore_standard::{extension_place, has_dynamic_word};
use zcore_versions::StoryVersion;
use ztext::read_word;

/// What loading tells of a file, besides its memory.
#[derive(Clone, Copy, Debug, PartialEq, Eq)]
pub struct LoadedStory {
    /// What the header says. Its version is V8 in version 8, and V5 in all others, whose packed
    /// addresses a machine of version 5 would count by 4.
    pub header: Header,

    /// The version, and what its packed addresses count from.
    pub version: StoryVersion,

    /// Whether the file has the sum that its header states (section 15, `verify`).
    pub is_sum_right: bool,
}

/// The places of the header's bytes that the player writes (section 11.1): Flags 1.
const FLAGS_1: usize = 0x01;

/// Flags 2, two bytes.
const FLAGS_2: usize = 0x10;

/// The interpreter, and the screen in characters and in units.
const SCREEN: usize = 0x1E;

/// The default colours: the background, and the foreground.
const COLOURS: usize = 0x2C;

/// The revision of the Standard.
const REVISION: usize = 0x32;

/// From version 4 on: a fixed-space style is there.
const FIXED_SPACE: u8 = 0x10;

/// From version 4 on: a bold and an italic style are there.
const BOLD_AND_ITALIC: u8 = 0x0C;

/// In version 3: the screen can be split.
const CAN_SPLIT: u8 = 0x20;

/// The interpreter's number and version, from version 4 on: 1 and F.
const INTERPRETER_NUMBER: u8 = 1;

/// See `INTERPRETER_NUMBER`.
const INTERPRETER_VERSION: u8 = b'F';

/// A font is one unit wide and one high, from version 5 on.
const FONT: u8 = 1;

/// Black, and white.
static BLACK_AND_WHITE: [u8; 2] = [2, 9];

/// Standard 1.1.
const STANDARD_1_1: [u8; 2] = [1, 1];

/// The words of the extension that the player writes (section 11.1.7.3): Flags 3.
const FLAGS_3: u16 = 4;

/// The true colour of the default foreground.
const FOREGROUND: u16 = 5;

/// That of the default background.
const BACKGROUND: u16 = 6;

/// White as a true colour (section 8.3.7). Black is 0.
const WHITE: u16 = 0x7FFF;

/// Writes bytes into memory, the first at an address.
fn write_bytes(memory: &mut [u8], at: usize, bytes: &[u8])
    requires { at + length bytes.now ≤ length memory.old }
    ensures { memory.new ≡ with_bytes memory.old at bytes.now }
{
    for i in 0..bytes.len() {
        memory[at + i] = bytes[i];
    }
}

/// Flags 1 of a version, where the story has a byte there.
fn flags_1(has_styles: bool, number: u8, byte: u8) -> u8
    ensures { result ≡ definitions.flags_1 has_styles number byte }
{
    match number {
        0..=2 => byte / 128 * 128 + byte % 16,
        3 => byte / 128 * 128 + CAN_SPLIT + byte % 16,
        _ if has_styles => FIXED_SPACE + BOLD_AND_ITALIC + byte / 2 % 2 * 2,
        _ => FIXED_SPACE + byte / 2 % 2 * 2,
    }
}

/// Writes what a version is told of the interpreter and the screen: the size in characters, and from
/// version 5 on in units, first the width.
fn write_screen(memory: &mut [u8], shown: Capabilities, number: u8)
    requires { HasHeader memory.old }
    ensures { memory.new ≡ with_bytes memory.old 0x1E (definitions.screen shown number) }
{
    let Capabilities { columns, rows, .. } = shown;
    let first = [INTERPRETER_NUMBER, INTERPRETER_VERSION, rows, columns];
    let units = [0, columns, 0, rows, FONT, FONT];
    if number >= 4 {
        write_bytes(memory, SCREEN, &first);
    }
    if number >= 5 {
        write_bytes(memory, SCREEN + 4, &units);
    }
}

/// What it is told of the default colours.
fn colours(number: u8) -> &'static [u8]
    ensures colours { result.now ≡ definitions.colours number }
    ensures few { length result.now ≤ 2 }
{
    match number {
        0..=4 => &[],
        _ => &BLACK_AND_WHITE,
    }
}

/// Writes a word of the header's extension, if the story has it in dynamic memory.
fn write_extension_word(memory: &mut [u8], number: u16, word: u16)
    requires { HasHeader memory.old }
    ensures { memory.new ≡ definitions.with_extension_word number word memory.old }
{
    if has_dynamic_word(memory, number) {
        let at = extension_place(memory, number);
        memory[at] = (word / 256) as u8;
        memory[at + 1] = (word % 256) as u8;
    }
}

/// Writes into the header what the player tells the story: also what it shows.
#[tactic(auto, using(crate::proofs::Headers::first_stays, crate::proofs::Headers::length_stays), unfolding(crate::specs::Loading::with_header))]
fn set_header(memory: &mut [u8], shown: Capabilities)
    requires { HasHeader memory.old }
    ensures memory { memory.new ≡ definitions.with_header shown memory.old }
    ensures header { HasHeader memory.new }
    ensures version { slice_index memory.new 0 ≡ slice_index memory.old 0 }
{
    let number = memory[0];
    let flags_1 = [flags_1(shown.has_styles, number, memory[FLAGS_1])];
    let flags_2 = [
        memory[FLAGS_2] / 2 * 2,
        flags_2_low(number, memory[FLAGS_2 + 1]),
    ];
    write_bytes(memory, FLAGS_1, &flags_1);
    write_bytes(memory, FLAGS_2, &flags_2);
    write_screen(memory, shown, number);
    write_bytes(memory, COLOURS, colours(number));
    write_bytes(memory, REVISION, &STANDARD_1_1);
    write_extension_word(memory, FLAGS_3, 0);
    write_extension_word(memory, FOREGROUND, WHITE);
    write_extension_word(memory, BACKGROUND, 0);
}

/// The second byte of Flags 2: bits 0 to 2 of the story's, and from version 5 on bit 4, for undo.
fn flags_2_low(number: u8, byte: u8) -> u8
    ensures { result ≡ byte % 8 + undo_flag number byte }
{
    if number >= 5 {
        byte % 8 + byte / 16 % 2 * 16
    } else {
        byte % 8
    }
}

/// Whether a version is played: each from 1 to 8 but 6.
pub fn is_played(number: u8) -> bool
    ensures { result ≡ definitions.is_played number }
{
    matches!(number, 1..=5 | 7 | 8)
}

/// By how many bytes the header of a version states the length of its story.
pub fn length_unit(number: u8) -> usize
    ensures unit { result ≡ definitions.length_unit number }
    ensures small { result ≤ 8 }
{
    match number {
        0..=3 => 2,
        4 | 5 => 4,
        _ => 8,
    }
}

/// How many bytes of a file are its story.
fn story_length(file: &[u8]) -> usize
    requires header { HasHeader file.now }
    ensures { result ≡ definitions.story_length file.now }
{
    let stated = usize::from(read_word(file, LENGTH_WORD));
    if stated == 0 {
        file.len()
    } else {
        stated * length_unit(file[0])
    }
}

/// The version by which a machine of versions 5 and 8 counts packed addresses.
fn counted_as(number: u8) -> Version
    ensures { (memory : List ℕ) → slice_index memory 0 ≡ number → scale_of result
        ≡ scale_in memory }
{
    if number == 8 {
        Version::V8
    } else {
        Version::V5
    }
}

/// The sum of the bytes from an address on, modulo 65,536.
fn sum_from(story: &[u8], from: usize) -> u16
    requires { from ≤ length story.now }
    ensures { result ≡ sum (drop from story.now) % 65536 }
{
    let mut total: u16 = 0;
    for byte in &story[from..] {
        total = total.wrapping_add(u16::from(*byte));
    }
    total
}

/// Whether the bytes after the header have the sum that the header states.
fn is_sum_right(story: &[u8]) -> bool
    requires { HasHeader story.now }
    ensures { result ≡ definitions.is_sum_right story.now }
{
    read_word(story, SUM_WORD) == sum_from(story, HEADER_LENGTH)
}

/// What a header says.
fn header_of(memory: &[u8], dictionary: Dictionary) -> Header
    requires header { HasHeader memory.now }
    requires dictionary { IsDictionaryOf memory.now (dictionary_of memory.now) dictionary }
    ensures { IsHeadOf memory.now result }
{
    Header {
        version: counted_as(memory[0]),
        static_base: read_word(memory, STATIC_BASE_WORD),
        globals: read_word(memory, GLOBALS_WORD),
        defaults: read_word(memory, DEFAULTS_WORD),
        abbreviations: read_word(memory, ABBREVIATIONS_WORD),
        high_memory: read_word(memory, HIGH_MEMORY_WORD),
        first_instruction: read_word(memory, FIRST_INSTRUCTION_WORD),
        dictionary,
    }
}

/// The header of a memory that can be played, and its version.
fn read_header(memory: &[u8]) -> Result<(Header, StoryVersion), HeaderFault>
    requires header { HasHeader memory.now }
    requires version { definitions.is_played (extension.number_of memory.now) ≡ true }
    ensures { ReadsMemory memory.now result }
{
    if !is_placed(memory) {
        return Err(HeaderFault::WrongAddress);
    }
    let Some(dictionary) = read_dictionary(memory, read_word(memory, DICTIONARY_WORD)) else {
        return Err(HeaderFault::WrongAddress);
    };
    Ok((
        header_of(memory, dictionary),
        StoryVersion::of_story(memory),
    ))
}

/// Cuts a file to its story.
fn cut(file: &mut Vec<u8>) -> Result<(), HeaderFault>
    ensures whole { IfOk result (λ _. IsWhole file.old.items) }
    ensures story { IfOk result (λ _. file.new.items ≡ definitions.story_in file.old.items) }
    ensures header { IfOk result (λ _. HasHeader file.new.items) }
    ensures version { IfOk result (λ _. definitions.is_played (extension.number_of file.new.items)
        ≡ true) }
    ensures refused { IfErr result (λ cause. IsNotWhole file.old.items cause) }
{
    if file.len() < HEADER_LENGTH {
        return Err(HeaderFault::TooShort);
    }
    if !is_played(file[0]) {
        return Err(HeaderFault::UnknownVersion);
    }
    let length = story_length(file);
    if length < HEADER_LENGTH || file.len() < length || LONGEST_STORY < length {
        return Err(HeaderFault::WrongLength);
    }
    file.truncate(length);
    Ok(())
}

/// Loads a file of a version that is played: cuts it to its story, and sets the header, which also
/// tells what the player shows: bold and italic text or none, and the size of its screen.
///
/// # Errors
///
/// The first fact that does not hold: the size, the version, the length or an address. The sum
/// refuses none. A part of the header may be set then.
pub fn load(file: &mut Vec<u8>, shown: Capabilities) -> Result<LoadedStory, HeaderFault>
    ensures read { ReadsFile shown file.old.items result }
    ensures memory { IfOk result (λ _. file.new.items
        ≡ definitions.memory_for shown file.old.items) }
{
    cut(file)?;
    let is_sum_right = is_sum_right(file);
    set_header(file, shown);
    let (header, version) = read_header(file)?;
    Ok(LoadedStory {
        header,
        version,
        is_sum_right,
    })
}
