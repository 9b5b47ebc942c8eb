//! Where a text is reverse, bold, italic or of fixed pitch.

ghost use Rattle.std.specs.Prelude.{◌≡◌, ◌≤◌, ◌++◌, ◌∷◌, [], IfOk, OnOk, map};
ghost use Rattle.serde_json.specs.Data.{no_members, object, put as with_member};
ghost use Rattle.serde_json.specs.View.{members_view, view};
ghost use Rattle.play_json.specs.Spans as definitions;
ghost use Rattle.play_json.specs.Spans.{span_data, span_if, spans_data, spans_in, with_part};

use serde_json::{Map, Value, push, put};
use std::alloc::{AllocError, Global};

/// The byte with which a mark of styles begins.
const ESCAPE: u8 = 0x1B;

/// The byte with which it ends.
const END: u8 = b'm';

/// The styles of a text, any of which may be together.
#[derive(Clone, Copy)]
pub struct Style {
    /// Reverse video.
    pub reverse: bool,

    /// Bold type.
    pub bold: bool,

    /// Italic type.
    pub italic: bool,

    /// A font of fixed pitch.
    pub fixed: bool,
}

/// None of them.
const PLAIN: Style = Style {
    reverse: false,
    bold: false,
    italic: false,
    fixed: false,
};

impl Style {
    /// The style with what a byte of its mark adds.
    fn with(self, byte: u8) -> Style
        ensures { result ≡ with_part byte self }
    {
        if byte == b'7' {
            Style {
                reverse: true,
                ..self
            }
        } else if byte == b'1' {
            Style { bold: true, ..self }
        } else if byte == b'3' {
            Style {
                italic: true,
                ..self
            }
        } else if byte == b'5' {
            Style {
                fixed: true,
                ..self
            }
        } else {
            self
        }
    }
}

/// The spans of a text with marks, an array of objects: from which character on, how many, and in which style.
/// Characters of two styles are in two spans.
///
/// # Errors
///
/// Memory was refused.
pub(crate) fn spans_of(alloc: Global, mut marked: &[u8]) -> Result<Value, AllocError>
    ensures { IfOk result (λ value. view value ≡ spans_data marked.entry.now) }
{
    let mut spans = Vec::new(alloc);
    let mut style = PLAIN;
    let mut start: usize = 0;
    let mut at: usize = 0;
    let mut is_in_mark = false;
    while let [byte, rest @ ..] = marked {
        if is_in_mark {
            style = style.with(*byte);
            is_in_mark = *byte != END;
        } else if *byte == ESCAPE {
            push_spans(alloc, &mut spans, style, start, at - start)?;
            style = PLAIN;
            start = at;
            is_in_mark = true;
        } else {
            at += begun_by(*byte);
        }
        marked = rest;
    }
    push_spans(alloc, &mut spans, style, start, at - start)?;
    Ok(Value::Array(spans))
}

/// How many characters a byte begins: none if it goes on with one, in UTF-8.
fn begun_by(byte: u8) -> usize
    ensures same { result ≡ definitions.begun_by byte }
    ensures few { result ≤ 1 }
{
    if 0x80 <= byte && byte < 0xC0 { 0 } else { 1 }
}

/// Adds the spans of so many characters of one style.
fn push_spans(
    alloc: Global,
    spans: &mut Vec<Value>,
    style: Style,
    start: usize,
    count: usize,
) -> Result<(), AllocError>
    ensures { OnOk result
        (map view spans.new.items ≡ map view spans.old.items ++ spans_in style start count) }
{
    if count == 0 {
        return Ok(());
    }
    push_if(alloc, spans, style.reverse, "reverse", start, count)?;
    push_if(alloc, spans, style.bold, "bold", start, count)?;
    push_if(alloc, spans, style.italic, "italic", start, count)?;
    push_if(alloc, spans, style.fixed, "fixed", start, count)
}

/// Adds a span of this name, if the style is so.
fn push_if(
    alloc: Global,
    spans: &mut Vec<Value>,
    is_so: bool,
    name: &str,
    start: usize,
    count: usize,
) -> Result<(), AllocError>
    ensures { OnOk result (map view spans.new.items
        ≡ map view spans.old.items ++ span_if is_so name.now start count) }
{
    if !is_so {
        return Ok(());
    }
    push(spans, span_of(alloc, name, start, count)?)
}

/// One span.
fn span_of(alloc: Global, name: &str, start: usize, count: usize) -> Result<Value, AllocError>
    ensures { IfOk result (λ value. view value ≡ span_data name.now start count) }
{
    let mut members = Map::new(alloc);
    put_span(alloc, &mut members, name, start, count)?;
    Ok(Value::Object(members))
}

/// Adds the members of a span to none.
fn put_span(
    alloc: Global,
    members: &mut Map<String, Value>,
    name: &str,
    start: usize,
    count: usize,
) -> Result<(), AllocError>
    requires { members_view members.old.entries ≡ no_members }
    ensures { OnOk result
        (object (members_view members.new.entries) ≡ span_data name.now start count) }
{
    put(members, alloc, "start", Value::from(start))?;
    put(members, alloc, "length", Value::from(count))?;
    put(members, alloc, "style", Value::try_from_str(alloc, name)?)
}
