//! Parses Markdown to the bytes of which Python makes its events.

ghost use Rattle.std.specs.Prelude.{◌≡◌, IfErr, IfOk};
ghost use Rattle.tocmark_documents.specs.MarshalReading.{reading_bytes};
ghost use Rattle.tocmark_json.specs.Marshal.{IsTooLong};

use std::alloc::Global;
use tocmark::event::ParserOptions;
use tocmark::reader::Reader;
use tocmark_json::marshalling::{MarshalError, events_to_marshal};
use tocmark_marked::MarkedReader;

/// Parses Markdown with the extended reader under these flags, and returns the bytes of which Python's `marshal.loads`
/// makes its events, as `events_to_marshal` has them. The ranges count bytes, and a byte order mark at the front is no text,
/// as for `read_json`.
///
/// It fails if the bytes would be too many for Python, or if memory runs out.
pub fn read_marshal(
    alloc: Global,
    text: &str,
    flags: ParserOptions,
) -> Result<Vec<u8>, MarshalError>
    ensures bytes { IfOk result (λ output. output.items ≡ reading_bytes flags text.now) }
    ensures error { IfErr result (IsTooLong (reading_bytes flags text.now)) }
{
    match MarkedReader.read(alloc, text, flags) {
        Ok(reading) => events_to_marshal(alloc, &reading.events),
        Err(_) => Err(MarshalError::OutOfMemory),
    }
}
