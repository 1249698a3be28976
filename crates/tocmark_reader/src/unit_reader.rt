//! A reader for the writer, which reads back one unit at a time: `UnitReader`.

ghost use Rattle.std.specs.Prelude.{◌≡◌};
ghost use Rattle.tocmark_reader.specs.Flags.{unit_syntax_of};

use crate::extended::{ExtendedReader, syntax_of};
use crate::reader::find;
use std::alloc::{AllocError, Global};
use tocmark_event::event::ParserOptions;
use tocmark_event::reader::{Reader, Reading};
use tocmark_read_scan::syntax::{Names, Syntax};

/// The extensions that flags name, where a reference to a footnote counts without a definition of the footnote.
fn unit_syntax_of(names: Names, flags: ParserOptions) -> Syntax
    ensures { result ≡ unit_syntax_of names flags }
{
    Syntax {
        undefined_notes: true,
        ..syntax_of(names, flags)
    }
}

/// Reads as `ExtendedReader` does, except that `[^a]` is a reference to a footnote even if the text doesn't define that
/// footnote.
///
/// Hand it to the writer. The writer reads back each unit alone, and the definition of a footnote is a unit of its own. So
/// with `ExtendedReader` it refuses a paragraph such as `*a*[^1]`. To read a whole document, take `ExtendedReader`.
///
/// ```
/// let reader = ExtendedReader::new().for_units();
/// let found = reader.read(alloc, "*a*[^1]", ParserOptions::ENABLE_FOOTNOTES)?;
/// assert_eq!(rt; found.events.len(), 6);
/// ```
#[derive(Clone, Copy, Debug)]
pub struct UnitReader {
    /// The names of character references that are known.
    pub names: Names,
}

impl ExtendedReader {
    ghost use Rattle.std.specs.Prelude.{◌≡◌};

    /// The reader of units that knows the same names of character references.
    pub fn for_units(&self) -> UnitReader
        ensures { result.names ≡ self.now.names }
    {
        UnitReader { names: self.names }
    }
}

impl Reader for UnitReader {
    ghost use Rattle.std.specs.Prelude.{◌≡◌, IfOk, map};
    ghost use Rattle.tocmark_event.specs.Forest.{IsBalanced};
    ghost use Rattle.tocmark_event.specs.Reading.{reading_view};
    ghost use Rattle.tocmark_event.specs.Text.{text_of};
    ghost use Rattle.tocmark_event.specs.View.{event_view};
    ghost use Rattle.tocmark_reader.specs.Range.{HasGoodRanges};
    ghost use Rattle.tocmark_reader.specs.Reading.{reading_of};
    ghost use Rattle.tocmark_reader.specs.Flags.{unit_syntax_of};

    ghost reading = { λ reader text flags. reading_of (unit_syntax_of reader.names flags) text };

    /// The reading of a text, with ranges in bytes.
    #[tactic(auto, using(crate::proofs::EmitLaws::reading_balanced, crate::proofs::EmitLaws::reading_good))]
    fn read(&self, alloc: Global, text: &str, flags: ParserOptions) -> Result<Reading, AllocError>
        ensures reading { IfOk result (λ found.
            reading_view found ≡ reading_of (unit_syntax_of self.now.names flags) text.now) }
        ensures balanced { IfOk result (λ found.
            IsBalanced (map (λ e. event_view text_of e.0) found.events.items)) }
        ensures ranges { IfOk result (λ found. HasGoodRanges text.now found.events.items) }
    {
        find(alloc, unit_syntax_of(self.names, flags), text)
    }
}
