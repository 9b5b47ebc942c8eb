//! Where faults of what is compiled are in the source that was written.

use crate::files::{FileLine, Files, fault_at};
use crate::lines::with_written_lines;
use derive::{Origins, Site, plain_sentence, with_plain_names};
use messages_diagnosis::{Diagnosis, Place};
use messages_parts::located;
use std::alloc::{AllocError, Global};
use syntax_lexer::{PlacedFault, Position};

/// Where faults of what is compiled are in the source that was written.
#[derive(Drop)]
pub struct Places<'a> {
    pub files: &'a Files,

    /// Where what is compiled comes from; `None` where it is what was written.
    pub origins: Option<Origins<'a>>,
}

/// A diagnosis in a file of the source that was written.
#[derive(Clone, Copy)]
pub struct Told {
    /// The number of the file, from 0: that of the main one.
    pub file: usize,

    /// The diagnosis, by the bytes of this file.
    pub diagnosis: Diagnosis,
}

/// The fault of a number, at what begins at an offset of a source.
fn at_token(source: &[u8], number: u8, offset: usize) -> Diagnosis {
    located(
        source,
        PlacedFault {
            fault: fault_at(source, number, offset),
            offset: Some(offset),
        },
    )
}

/// The fault of a number, behind what ends at an offset of a source.
fn behind(source: &[u8], number: u8, offset: usize) -> Diagnosis {
    Diagnosis {
        fault: fault_at(source, number, offset),
        place: Some(Place::between(source, offset)),
    }
}

impl<'a> Places<'a> {
    /// The fault of a number at what begins at an offset of the source.
    fn at_offset(&self, alloc: Global, number: u8, offset: usize) -> Result<Told, AllocError> {
        let spot = self.files.spot(alloc, offset)?;
        Ok(Told {
            file: spot.file,
            diagnosis: at_token(self.files.bytes(spot.file), number, spot.offset),
        })
    }

    /// The fault of a number behind what ends at an offset of the source.
    fn behind_offset(&self, alloc: Global, number: u8, offset: usize) -> Result<Told, AllocError> {
        let spot = self.files.spot_behind(alloc, offset)?;
        Ok(Told {
            file: spot.file,
            diagnosis: behind(self.files.bytes(spot.file), number, spot.offset),
        })
    }

    /// The fault of a number at the end of the main file.
    fn at_end(&self, number: u8) -> Told {
        let source = self.files.bytes(0);
        Told {
            file: 0,
            diagnosis: at_token(source, number, source.len()),
        }
    }

    /// The fault of a number at a site of the source.
    fn at_site(&self, alloc: Global, number: u8, site: Site) -> Result<Told, AllocError> {
        match site {
            Site::Token(offset) => self.at_offset(alloc, number, offset),
            Site::Made(offset) => self.at_offset(alloc, number, offset),
            Site::Behind(offset) => self.behind_offset(alloc, number, offset),
            Site::End => Ok(self.at_end(number)),
        }
    }

    /// A diagnosis of what is compiled, in the source that was written.
    ///
    /// # Errors
    ///
    /// `AllocError` where memory is refused.
    pub fn in_written(&self, alloc: Global, diagnosis: Diagnosis) -> Result<Told, AllocError> {
        match (&self.origins, diagnosis.place) {
            (Some(origins), Some(place)) => {
                let site = origins.site(alloc, place.offset)?;
                self.at_site(alloc, diagnosis.fault.number, site)
            }
            _ => Ok(Told { file: 0, diagnosis }),
        }
    }

    /// Whether a diagnosis of what is compiled is of nothing that was written.
    ///
    /// # Errors
    ///
    /// `AllocError` where memory is refused.
    pub fn is_of_none(&self, alloc: Global, diagnosis: Diagnosis) -> Result<bool, AllocError> {
        let Some(place) = diagnosis.place else {
            return Ok(false);
        };
        match &self.origins {
            Some(origins) => match origins.site(alloc, place.offset)? {
                Site::End => Ok(true),
                _ => Ok(false),
            },
            None => Ok(false),
        }
    }

    /// What is compiled, without what is made at its end; `None` where nothing is made.
    ///
    /// # Errors
    ///
    /// `AllocError` where memory is refused.
    pub fn file(&self, alloc: Global) -> Result<Option<Vec<u8>>, AllocError> {
        match &self.origins {
            Some(origins) => match origins.file(alloc) {
                Ok(text) => Ok(Some(text)),
                Err(refusal) => Err(refusal),
            },
            None => Ok(None),
        }
    }

    /// A sentence about a diagnosis of what is compiled, which is told of a file, in the words of those
    /// who wrote the source.
    ///
    /// # Errors
    ///
    /// `AllocError` where memory is refused.
    pub fn sentence(
        &self,
        alloc: Global,
        diagnosis: Diagnosis,
        file: usize,
        sentence: &str,
    ) -> Result<String, AllocError> {
        match (&self.origins, diagnosis.place) {
            (Some(origins), Some(place)) => {
                let plain = plain_sentence(alloc, origins, place.offset, sentence)?;
                with_written_lines(alloc, self.files, file, plain.as_str())
            }
            (Some(_), None) => with_plain_names(alloc, sentence),
            (None, _) => String::from_str(alloc, sentence),
        }
    }

    /// The line that was written of a position in what is compiled.
    ///
    /// # Errors
    ///
    /// `AllocError` where memory is refused.
    pub fn line(&self, alloc: Global, position: Position) -> Result<FileLine, AllocError> {
        match &self.origins {
            Some(origins) => {
                let site = origins.site(alloc, position.offset)?;
                let told = self.at_site(alloc, 0, site)?;
                Ok(FileLine {
                    file: told.file,
                    line: told.diagnosis.fault.line,
                })
            }
            None => Ok(FileLine {
                file: 0,
                line: position.line,
            }),
        }
    }
}
