//! A map that is read.

ghost use Rattle.std.specs.Prelude.{◌≡◌, ◌<◌, ◌≤◌, ◌++◌, List, map, option_map, IfOk, IfSome, IfNone, length};
ghost use Rattle.map_text.specs.Text.{row_of, rows_text, Ascend, AreRows, GivesRows, RowOf};
ghost use Rattle.map_text.specs.Reading.{place, before, after, not_below, cut_lines, map_in, AddsRow, Gives};
ghost use Rattle.map_text.specs.Reading as spec;

use crate::beginning::FIRST_LINE;
use crate::fault::MapFault;
use crate::row::Row;
use std::alloc::{AllocError, Global};

/// How many digits an address has.
const ADDRESS_LENGTH: usize = 5;

/// What a byte counts that is no digit.
const NO_DIGIT: u32 = 16;

/// The number of the line of the first row, after the two lines of the heading.
const FIRST_ROW: usize = 3;

/// The bytes before the first that is a divider, and those after it; `None` where no byte is one.
fn cut(bytes: &[u8], divider: u8) -> Option<(&[u8], &[u8])>
    ensures some { IfSome result (λ _. place divider bytes.now < length bytes.now) }
    ensures front { IfSome result (λ parts. parts.0.now ≡ before divider bytes.now) }
    ensures back { IfSome result (λ parts. parts.1.now ≡ after divider bytes.now) }
    ensures shorter { IfSome result (λ parts. length parts.1.now < length bytes.now) }
    ensures none { IfNone result (place divider bytes.now ≡ length bytes.now) }
{
    for at in 0..bytes.len() {
        let byte = bytes[at];
        if byte == divider {
            let front = &bytes[..at];
            let back = &bytes[at + 1..];
            return Some((front, back));
        }
    }
    None
}

/// What a hexadecimal digit counts; 16 for a byte that is none.
#[tactic(auto, using(std::proofs::lemmas::Bool::Decides::nat_tests))]
fn digit_value(byte: u8) -> u32
    ensures value { result ≡ spec.digit_value byte }
    ensures small { result ≤ 16 }
{
    match byte {
        b'0'..=b'9' => (byte - b'0') as u32,
        b'A'..=b'F' => (byte - b'A') as u32 + 10,
        _ => NO_DIGIT,
    }
}

/// The address that five digits are.
fn address_in(digits: &[u8]) -> Option<u32>
    ensures { result ≡ spec.address_in digits.now }
{
    if digits.len() != ADDRESS_LENGTH {
        return None;
    }
    let first = digit_value(digits[0]);
    let second = digit_value(digits[1]);
    let third = digit_value(digits[2]);
    let fourth = digit_value(digits[3]);
    let fifth = digit_value(digits[4]);
    if first == NO_DIGIT
        || second == NO_DIGIT
        || third == NO_DIGIT
        || fourth == NO_DIGIT
        || fifth == NO_DIGIT
    {
        return None;
    }
    Some(first * 65_536 + second * 4_096 + third * 256 + fourth * 16 + fifth)
}

/// The number that decimal digits are.
fn number_in(digits: &[u8]) -> Option<usize>
    ensures { result ≡ spec.number_in digits.now }
{
    let Ok(text) = str::from_utf8(digits) else {
        return None;
    };
    match text.parse::<usize>() {
        Ok(number) => Some(number),
        Err(_) => None,
    }
}

/// The row that a line is.
fn row_in(line: &[u8]) -> Option<Row<'_>>
    ensures { option_map row_of result ≡ spec.row_in line.now }
{
    let (digits, rest) = cut(line, b' ')?;
    let (routine, number) = cut(rest, b' ')?;
    let address = address_in(digits)?;
    let line = number_in(number)?;
    Some(Row {
        address,
        routine,
        line,
    })
}

/// Adds the row that a line is, if it is one and its address is not below `least`. That address.
fn add_row<'a>(
    rows: &mut Vec<Row<'a>>,
    line: &'a [u8],
    least: u32,
) -> Result<Option<u32>, AllocError>
    ensures { AddsRow result (map row_of rows.old.items) (map row_of rows.new.items)
        (not_below least (spec.row_in line.now)) }
{
    let Some(row) = row_in(line) else {
        return Ok(None);
    };
    if row.address < least {
        return Ok(None);
    }
    rows.push(row)?;
    Ok(Some(row.address))
}

/// The rows of the lines after the heading.
fn read_rows(alloc: Global, lines: &[u8]) -> Result<Vec<Row<'_>>, MapFault>
    ensures { Gives result (spec.rows_in lines.now) }
{
    let mut rows: Vec<Row<'_>> = Vec::new(alloc);
    let mut rest = lines;
    let mut least = 0;
    for _done in 0..lines.len() {
        if rest.is_empty() {
            break;
        }
        let number = rows.len().saturating_add(FIRST_ROW);
        let Some((line, after)) = cut(rest, b'\n') else {
            return Err(MapFault::Line(number));
        };
        match add_row(&mut rows, line, least)? {
            Some(address) => least = address,
            None => return Err(MapFault::Line(number)),
        }
        rest = after;
    }
    Ok(rows)
}

/// The rows of a text that begins with a heading, or the fault that it has.
fn rows_after<'a>(alloc: Global, text: &'a [u8], heading: &[u8]) -> Result<Vec<Row<'a>>, MapFault>
    ensures { Gives result (map_in heading.now text.now) }
{
    if let Some(lines) = text.strip_prefix(heading) {
        return read_rows(alloc, lines);
    }
    if text.starts_with(FIRST_LINE.as_bytes()) {
        Err(MapFault::OtherStory)
    } else {
        Err(MapFault::NoMap)
    }
}

/// The rows of a map that begins with these two lines.
///
/// # Errors
///
/// - `NoMap`: the text does not begin as a map.
/// - `OtherStory`: it does, and not with these lines.
/// - `Line`: the number of the first line that is no row, or whose address is below that of the row
///   above it.
/// - `Memory`: a growth of memory was refused.
pub fn read_map<'a>(alloc: Global, text: &'a [u8], heading: &[u8]) -> Result<Vec<Row<'a>>, MapFault>
    ensures gives { Gives result (map_in heading.now text.now) }
    ensures rows { (rs : List RowOf) → AreRows rs → Ascend 0 rs
        → text.now ≡ heading.now ++ rows_text rs → GivesRows result rs }
    ensures ascend { IfOk result (λ v. Ascend 0 (map row_of v.items)) }
{
    rows_after(alloc, text, heading)
}
