//! Writes events that Python gives as Markdown.

ghost use Rattle.std.specs.Prelude.{◌≡◌, IfErr, IfOk, is_some, map, string_bytes};
ghost use Rattle.tocmark_event.specs.Options.{options_view};
ghost use Rattle.tocmark_event.specs.Text.{text_of};
ghost use Rattle.tocmark_json.specs.Json.{pair_view};
ghost use Rattle.tocmark_json.specs.Unmarshal.{IsDumped};
ghost use Rattle.tocmark_documents.specs.Interchange.{source_text};
ghost use Rattle.tocmark_documents.specs.MarshalWriting.{IsDumpCause, IsUnread, IsWrittenDump};

use crate::fault::WriteError;
use crate::packed_writing::write_read;
use crate::pairs::Placed;
use crate::writing::lent;
use std::alloc::Global;
use tocmark::Options;
use tocmark::event::ParserOptions;
use tocmark_json::fault::ReadError;
use tocmark_json::unmarshalling::pairs_from_marshal;

/// Reads the events of such bytes.
fn marshal_pairs(alloc: Global, bytes: &[u8]) -> Result<Vec<Placed<'static>>, WriteError>
    ensures pairs { IfOk result (λ pairs.
        IsDumped bytes.now (map (pair_view text_of) pairs.items)) }
    ensures cause { IfErr result (IsUnread bytes.now) }
{
    match pairs_from_marshal(alloc, bytes) {
        Ok(pairs) => Ok(pairs),
        Err(ReadError::NotJson) => unreachable!(),
        Err(ReadError::NotEvents(error)) => Err(WriteError::NotEvents(error)),
        Err(ReadError::OutOfMemory) => Err(WriteError::OutOfMemory),
    }
}

/// Writes events as Markdown that are given as bytes of Python's `marshal.dumps`, as `pairs_from_marshal` has them. The
/// ranges are bytes of the source; without a source they are dropped. The flags are the extensions under which the
/// Markdown has to parse back.
///
/// It fails if the bytes aren't those of events (`NotEvents`, with the number of the first event that is none), if the
/// writer refuses the events (`Refused`, with the number of the first event of the refused block and, over a source,
/// with its lines), or if memory runs out. It is never `NotJson`.
///
/// ```
/// let rule = b"[\x03\0\0\0NNu\x04\0\0\0Rule";
/// let text = write_marshal(alloc, rule, None, ParserOptions::empty(), Options::default())?;
/// assert_eq!(rt; text.as_str(), "---");
/// ```
pub fn write_marshal(
    alloc: Global,
    bytes: &[u8],
    source: Option<&str>,
    flags: ParserOptions,
    options: Options<'static>,
) -> Result<String, WriteError>
    ensures written { IfOk result (λ output. IsWrittenDump (options_view options.entry) flags
        (is_some source.entry) (source_text source.entry) bytes.now (string_bytes output)) }
    ensures cause { IfErr result (IsDumpCause (options_view options.entry) flags
        (is_some source.entry) (source_text source.entry) bytes.now) }
{
    let pairs = marshal_pairs(alloc, bytes)?;
    write_read(alloc, lent(&pairs), source, flags, options)
}
