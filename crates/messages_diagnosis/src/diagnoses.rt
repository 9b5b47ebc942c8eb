//! The sentence of a diagnosis.

use crate::analysis::Analysis;
use crate::rules::{at_offset, misfit_of};
use crate::sizes::{large_tables, too_large};
use crate::told::Told;
use messages_advice::source_sentence;
use messages_parts::{Diagnosis, Place};
use std::alloc::{AllocError, Global};
use syntax::Position;
use syntax_lexer::{NAME_TOO_LONG, NOT_IN_GRAMMAR, STORY_TOO_LARGE, SourceFault, TABLES_TOO_LARGE};

/// What is wrong with a source that is refused.
#[derive(Drop)]
pub struct Message {
    /// What is wrong and what would be right, on one line and without its end.
    pub sentence: String,

    /// The diagnosis with the place and the line to show: those of the fault, or where something is
    /// expected at the end of an earlier line.
    pub diagnosis: Diagnosis,
}

/// What is wrong, if a sentence is found, where the place to show is that of the fault.
fn sentence_of(
    alloc: Global,
    analysis: &Analysis<'_>,
    rule: u8,
    place: Option<Place>,
) -> Result<Option<String>, AllocError> {
    match (rule, place, &analysis.tokens) {
        (TABLES_TOO_LARGE, _, _) => large_tables(alloc, analysis.source),
        (STORY_TOO_LARGE, _, _) => too_large(alloc, analysis),
        (1..=NAME_TOO_LONG, Some(place), _) => {
            source_sentence(alloc, analysis.source, rule, place.offset)
        }
        (_, Some(place), Some(tokens)) => at_offset(alloc, tokens, rule, place.offset),
        _ => Ok(None),
    }
}

/// What a diagnosis says, if a sentence is found.
fn told_of(
    alloc: Global,
    analysis: &Analysis<'_>,
    diagnosis: Diagnosis,
) -> Result<Option<Told>, AllocError> {
    match (diagnosis.fault.number, diagnosis.place) {
        (NOT_IN_GRAMMAR, Some(place)) => misfit_of(alloc, analysis.source, place.offset),
        (rule, place) => match sentence_of(alloc, analysis, rule, place) {
            Ok(Some(sentence)) => Ok(Some(Told {
                sentence,
                place: None,
            })),
            Ok(None) => Ok(None),
            Err(refused) => Err(refused),
        },
    }
}

/// A diagnosis as it is shown: at the place that a sentence is about.
fn shown(source: &[u8], diagnosis: Diagnosis, place: Option<Position>) -> Diagnosis {
    match place {
        None => diagnosis,
        Some(position) => Diagnosis {
            fault: SourceFault {
                number: diagnosis.fault.number,
                line: position.line,
            },
            place: Some(Place::between(source, position.offset)),
        },
    }
}

/// The broken rule in words.
fn in_words(alloc: Global, diagnosis: Diagnosis) -> Result<Message, AllocError> {
    match String::from_str(alloc, diagnosis.fault.rule()) {
        Ok(sentence) => Ok(Message {
            sentence,
            diagnosis,
        }),
        Err(refused) => Err(refused),
    }
}

/// What is wrong with a source that is refused, by one of its diagnoses. If no sentence is found, it
/// is the broken rule in words.
///
/// # Errors
///
/// `AllocError` where memory is refused.
pub fn message_of(
    alloc: Global,
    analysis: &Analysis<'_>,
    diagnosis: Diagnosis,
) -> Result<Message, AllocError> {
    match told_of(alloc, analysis, diagnosis) {
        Ok(Some(told)) => Ok(Message {
            diagnosis: shown(analysis.source, diagnosis, told.place),
            sentence: told.sentence,
        }),
        Ok(None) => in_words(alloc, diagnosis),
        Err(refused) => Err(refused),
    }
}
