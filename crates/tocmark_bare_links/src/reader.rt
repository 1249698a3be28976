//! The reader that finds bare addresses.

ghost use Rattle.std.specs.Prelude.{◌≡◌, IfOk};
ghost use Rattle.tocmark_event.specs.Reading.{reading_view};
ghost use Rattle.tocmark_bare_links.specs.Linked.{linked_reading};

use crate::linker::linked;
use std::alloc::{AllocError, Global};
use tocmark_event::event::ParserOptions;
use tocmark_event::reader::{Reader, Reading};
use tocmark_judge::PartReader;
use tocmark_reader::ReferenceDefinition;

/// Reads as another reader does, and makes links of web and mail addresses in texts, as if they were between angle brackets.
#[derive(Clone, Copy, Debug, PartialEq, Eq)]
pub struct BareLinks<R> {
    pub reader: R,
}

/// What is found in a text, with bare addresses as links.
fn with_links(alloc: Global, text: &str, reading: Reading) -> Result<Reading, AllocError>
    ensures { IfOk result (λ found.
        reading_view found ≡ linked_reading text.now (reading_view reading)) }
{
    let events = linked(alloc, text, &reading.events)?;
    let mut reading = reading;
    reading.events = events;
    Ok(reading)
}

impl<R: Reader> Reader for BareLinks<R> {
    ghost use Rattle.tocmark_bare_links.specs.Linked.{linked_reading};

    ghost reading = { λ bare text flags. linked_reading text (R.reading bare.reader text flags) };

    /// The other reader's reading, with bare addresses as links.
    fn read(&self, alloc: Global, text: &str, flags: ParserOptions) -> Result<Reading, AllocError> {
        with_links(alloc, text, self.reader.read(alloc, text, flags)?)
    }
}

impl<R: PartReader> PartReader for BareLinks<R> {
    ghost definitions = { λ bare. R.definitions bare.reader };

    fn read_definitions(
        &self,
        alloc: Global,
        text: &str,
        flags: ParserOptions,
    ) -> Result<Vec<ReferenceDefinition>, AllocError> {
        self.reader.read_definitions(alloc, text, flags)
    }
}
