//! The reader that the writer reads units back with.

ghost use Rattle.tocmark_rewrite.specs.Units.{unit_reading};

use std::alloc::{AllocError, Global};
use tocmark_event::event::ParserOptions;
use tocmark_event::reader::{Reader, Reading};
use tocmark_reader::UnitReader;

/// Reads units by a reader of units, if there is one, or else by the reader of whole documents.
#[derive(Clone, Copy, Drop)]
pub(crate) struct ReaderOfUnits<'r, R> {
    pub(crate) reader: &'r R,
    pub(crate) units: Option<UnitReader>,
}

impl<R: Reader> Reader for ReaderOfUnits<'_, R> {
    ghost reading = { λ r. unit_reading R.reading r.units r.reader.now };

    fn read(&self, alloc: Global, text: &str, flags: ParserOptions) -> Result<Reading, AllocError> {
        match self.units {
            None => self.reader.read(alloc, text, flags),
            Some(units) => units.read(alloc, text, flags),
        }
    }
}
