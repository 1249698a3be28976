//! Writes packed events as Markdown.

ghost use Rattle.std.specs.Prelude.{◌≡◌, IfErr, IfOk, is_some, map, string_bytes};
ghost use Rattle.tocmark_event.specs.Options.{options_view};
ghost use Rattle.tocmark_event.specs.Text.{text_of};
ghost use Rattle.tocmark_json.specs.Json.{pair_view};
ghost use Rattle.tocmark_documents.specs.Interchange.{IsPairsCause, IsWritten, in_source, source_text};
ghost use Rattle.tocmark_documents.specs.Packed.{packed_pairs};
ghost use Rattle.tocmark_documents.specs.PackedWriting.{IsPackedCause, IsWrittenPacked};

use crate::fault::{WriteError, write_place};
use crate::packed::{PackedError, pairs_from_packed};
use crate::pairs::Placed;
use crate::writing::written_pairs;
use std::alloc::Global;
use std::fmt;
use tocmark::event::ParserOptions;
use tocmark::{Error, Options};
use tocmark_rewrite::Place;

/// Why packed events aren't written.
#[derive(Debug, Drop)]
pub enum PackedWriteError {
    /// No event begins after so many events.
    NotPacked(usize),
    /// The writer refuses the block that begins at this place, or the event there.
    Refused(Place, Error),
    /// Memory ran out.
    OutOfMemory,
}

impl fmt::Display for PackedWriteError {
    fn fmt<W: fmt::Write>(&self, f: &mut fmt::Formatter<W>) -> fmt::Result {
        match self {
            PackedWriteError::NotPacked(number) => { write!(f, "{}", PackedError::Event(*number)) }
            PackedWriteError::Refused(place, error) => {
                write_place(f, *place)?;
                write!(f, "{error}")
            }
            PackedWriteError::OutOfMemory => write!(f, "out of memory"),
        }
    }
}

impl std::error::Error for PackedWriteError {}

/// The Markdown of events that were read.
pub(crate) fn write_read<'a>(
    alloc: Global,
    pairs: &'a [Placed<'a>],
    source: Option<&str>,
    flags: ParserOptions,
    options: Options<'static>,
) -> Result<String, WriteError>
    ensures written { IfOk result (λ output. IsWritten (options_view options.entry) flags
        (source_text source.entry)
        (in_source (is_some source.entry) (map (pair_view text_of) pairs.now))
        (string_bytes output)) }
    ensures cause { IfErr result (IsPairsCause (options_view options.entry) flags
        (source_text source.entry)
        (in_source (is_some source.entry) (map (pair_view text_of) pairs.now))) }
{
    match source {
        Some(text) => written_pairs(alloc, pairs, text, true, flags, options),
        None => written_pairs(alloc, pairs, "", false, flags, options),
    }
}

/// Writes packed events as Markdown: the bytes that `specs/Packed.antt` gives for events with their ranges.
/// The ranges are bytes of the source; without a source they are dropped. The flags are the extensions under which the
/// Markdown has to parse back.
///
/// It fails if the bytes aren't those of events (`NotPacked`, with the number of the first event that is none), if the
/// writer refuses the events (`Refused`, with the number of the first event of the refused block and, over a source,
/// with its lines), or if memory runs out.
///
/// ```
/// let rule = [0, 4];
/// let text = write_packed(alloc, &rule, None, ParserOptions::empty(), Options::default())?;
/// assert_eq!(rt; text.as_str(), "---");
/// ```
pub fn write_packed<'a>(
    alloc: Global,
    packed: &'a [u8],
    source: Option<&str>,
    flags: ParserOptions,
    options: Options<'static>,
) -> Result<String, PackedWriteError>
    ensures written { IfOk result (λ output. IsWrittenPacked (options_view options.entry) flags
        (is_some source.entry) (source_text source.entry) packed.now (string_bytes output)) }
    ensures cause { IfErr result (IsPackedCause (options_view options.entry) flags
        (is_some source.entry) (source_text source.entry) packed.now) }
{
    let pairs: Vec<Placed<'a>> = match pairs_from_packed(alloc, packed) {
        Ok(pairs) => pairs,
        Err(PackedError::Event(number)) => return Err(PackedWriteError::NotPacked(number)),
        Err(PackedError::OutOfMemory) => return Err(PackedWriteError::OutOfMemory),
    };
    match write_read(alloc, &pairs, source, flags, options) {
        Ok(markdown) => Ok(markdown),
        Err(WriteError::Refused(place, error)) => Err(PackedWriteError::Refused(place, error)),
        Err(WriteError::OutOfMemory) => Err(PackedWriteError::OutOfMemory),
        Err(WriteError::NotJson(_)) | Err(WriteError::NotEvents(_)) => unreachable!(),
    }
}
