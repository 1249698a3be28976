//! The reader of a text that may begin with a byte order mark.

ghost use Rattle.std.specs.Prelude.{◌≡◌, IfOk, map};
ghost use Rattle.tocmark_event.specs.Reading.{reading_view};
ghost use Rattle.tocmark_read_scan.specs.declared.syntax.Names.TheVariants.{All};
ghost use Rattle.tocmark_reader.specs.Definitions.{definitions_of, said_view};
ghost use Rattle.tocmark_reader.specs.Flags.{syntax_of};
ghost use Rattle.tocmark_reader.specs.Reading.{reading_of};
ghost use Rattle.tocmark_marked.specs.Marked.{blocks_left, later_definition, later_reading, marked_definitions, marked_reading};

use crate::blocks::MarkedBlocks;
use crate::later::{move_definitions, moved};
use std::alloc::{AllocError, Global};
use tocmark_event::event::ParserOptions;
use tocmark_event::reader::{Reader, Reading};
use tocmark_judge::mark::without_mark;
use tocmark_reader::{ExtendedReader, Names, ReferenceDefinition};

/// Reads as `ExtendedReader` does, with all names of character references. It reads what follows a byte order mark, and each
/// range is one of the whole text.
#[derive(Clone, Copy, Debug, PartialEq, Eq)]
pub struct MarkedReader;

/// What reads a text that has no mark.
pub(crate) const READER: ExtendedReader = ExtendedReader { names: Names::All };

/// Reads the text after a mark.
fn read_rest(alloc: Global, rest: &str, flags: ParserOptions) -> Result<Reading, AllocError>
    ensures { IfOk result (λ found.
        reading_view found ≡ later_reading (reading_of (syntax_of All flags) rest.now)) }
{
    Ok(moved(READER.read(alloc, rest, flags)?))
}

/// The definitions of the text after a mark.
fn definitions_of_rest(
    alloc: Global,
    rest: &str,
    flags: ParserOptions,
) -> Result<Vec<ReferenceDefinition>, AllocError>
    ensures { IfOk result (λ all. map said_view all.items
        ≡ map later_definition (definitions_of (syntax_of All flags) rest.now)) }
{
    let mut definitions = READER.definitions(alloc, rest, flags)?;
    move_definitions(&mut definitions);
    Ok(definitions)
}

impl MarkedReader {
    /// Reads a text part by part, as `read` does.
    pub fn blocks<'t>(
        &self,
        alloc: Global,
        text: &'t str,
        flags: ParserOptions,
    ) -> Result<MarkedBlocks<'t>, AllocError>
        ensures { IfOk result (λ blocks. blocks_left blocks ≡ marked_reading flags text.now) }
    {
        match without_mark(text) {
            Some(rest) => MarkedBlocks::new(alloc, rest, true, flags),
            None => MarkedBlocks::new(alloc, text, false, flags),
        }
    }

    /// The definitions of links that `ExtendedReader` finds in what follows a mark, in their order, each with where it is in
    /// the whole text. Of several with one label the first counts.
    pub fn definitions(
        &self,
        alloc: Global,
        text: &str,
        flags: ParserOptions,
    ) -> Result<Vec<ReferenceDefinition>, AllocError>
        ensures { IfOk result (λ all.
            map said_view all.items ≡ marked_definitions flags text.now) }
    {
        match without_mark(text) {
            Some(rest) => definitions_of_rest(alloc, rest, flags),
            None => READER.definitions(alloc, text, flags),
        }
    }
}

impl Reader for MarkedReader {
    ghost use Rattle.std.specs.Prelude.{◌≡◌, IfOk};
    ghost use Rattle.tocmark_event.specs.Reading.{reading_view};
    ghost use Rattle.tocmark_marked.specs.Marked.{marked_reading};

    ghost reading = { λ reader text flags. marked_reading flags text };

    /// The reading of what follows a mark, with ranges in bytes of the whole text.
    fn read(&self, alloc: Global, text: &str, flags: ParserOptions) -> Result<Reading, AllocError>
        ensures reading { IfOk result (λ found.
            reading_view found ≡ marked_reading flags text.now) }
    {
        match without_mark(text) {
            Some(rest) => read_rest(alloc, rest, flags),
            None => READER.read(alloc, text, flags),
        }
    }
}
