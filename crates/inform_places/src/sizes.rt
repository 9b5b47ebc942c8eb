//! What a source takes, in the words of those who wrote it.

use crate::placing::Places;
use derive::plain_name;
use messages_diagnosis::{Figures, RoutineFigures, Temporaries};
use std::alloc::{AllocError, Global};
use syntax_lexer::Position;
use syntax_trees::Name;

/// The figures of a routine, by a name that was written or by that of a form.
fn plain_routine(routine: RoutineFigures<'_>) -> RoutineFigures<'_> {
    RoutineFigures {
        name: Name {
            text: plain_name(routine.name.text),
            position: routine.name.position,
        },
        weight: routine.weight,
        size: routine.size,
    }
}

/// The temporaries of an expression, at its line in the source that was written.
fn plain_temporaries(
    alloc: Global,
    places: &Places<'_>,
    temporaries: Option<Temporaries>,
) -> Result<Option<Temporaries>, AllocError> {
    let Some(found) = temporaries else {
        return Ok(None);
    };
    let written = places.line(alloc, found.position)?;
    Ok(Some(Temporaries {
        position: Position {
            offset: found.position.offset,
            line: written.line,
        },
        number: found.number,
    }))
}

/// The number of the file in which the expression with the most temporaries is.
///
/// # Errors
///
/// `AllocError` where memory is refused.
pub fn file_of_temporaries(
    alloc: Global,
    places: &Places<'_>,
    figures: &Figures<'_>,
) -> Result<usize, AllocError> {
    match figures.temporaries {
        Some(found) => Ok(places.line(alloc, found.position)?.file),
        None => Ok(0),
    }
}

/// The figures of what is compiled, by names and lines of the source that was written.
///
/// # Errors
///
/// `AllocError` where memory is refused.
pub fn in_plain_words<'a>(
    alloc: Global,
    places: &Places<'_>,
    figures: Figures<'a>,
) -> Result<Figures<'a>, AllocError> {
    let mut heaviest = Vec::new(alloc);
    for routine in &figures.heaviest {
        heaviest.push(plain_routine(*routine))?;
    }
    let temporaries = plain_temporaries(alloc, places, figures.temporaries)?;
    let mut plain = figures;
    plain.heaviest = heaviest;
    plain.temporaries = temporaries;
    Ok(plain)
}
