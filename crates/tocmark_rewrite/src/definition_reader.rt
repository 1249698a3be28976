//! Readers that say where links are defined.

use std::alloc::{AllocError, Global};
use tocmark_event::event::ParserOptions;
use tocmark_event::reader::Reader;
use tocmark_read_scan::syntax::CORE;
use tocmark_reader::{
    CoreReader, ExtendedReader, ReferenceDefinition, UnitReader, find_definitions,
};

/// A reader that can say where the links in a text are defined.
///
/// If a link by a label gets another destination, `rewritten` replaces the bytes of the label's definition, at the
/// place that the reader names. If your reader can't name definitions, write `impl DefinitionReader for MyReader {}`:
/// then the link gets a definition of its own.
pub trait DefinitionReader: Reader {
    /// The definitions of links that the reader finds in a text, in their order. It fails if memory runs out.
    fn reference_definitions(
        &self,
        alloc: Global,
        _text: &str,
        _flags: ParserOptions,
    ) -> Result<Vec<ReferenceDefinition>, AllocError> {
        Ok(Vec::new(alloc))
    }

    /// The reader by which the writer reads back one unit at a time, if this reader doesn't read units as it reads
    /// documents: a reader of footnotes needs the definition of a footnote, which is a unit of its own.
    fn unit_reader(&self) -> Option<UnitReader> {
        None
    }
}

impl DefinitionReader for CoreReader {
    fn reference_definitions(
        &self,
        alloc: Global,
        text: &str,
        _flags: ParserOptions,
    ) -> Result<Vec<ReferenceDefinition>, AllocError> {
        find_definitions(alloc, CORE, text)
    }
}

impl DefinitionReader for ExtendedReader {
    fn reference_definitions(
        &self,
        alloc: Global,
        text: &str,
        flags: ParserOptions,
    ) -> Result<Vec<ReferenceDefinition>, AllocError> {
        self.definitions(alloc, text, flags)
    }

    fn unit_reader(&self) -> Option<UnitReader> {
        Some(self.for_units())
    }
}

/// A reference to a reader names the reader's definitions.
impl<R: DefinitionReader> DefinitionReader for &R {
    fn reference_definitions(
        &self,
        alloc: Global,
        text: &str,
        flags: ParserOptions,
    ) -> Result<Vec<ReferenceDefinition>, AllocError> {
        (**self).reference_definitions(alloc, text, flags)
    }

    fn unit_reader(&self) -> Option<UnitReader> {
        (**self).unit_reader()
    }
}
