//! Parses Markdown to the JSON text of its events.

ghost use Rattle.std.specs.Prelude.{◌≡◌, IfOk, string_bytes};
ghost use Rattle.serde_json.specs.Written.{compact_text};
ghost use Rattle.tocmark_documents.specs.Interchange.{reading_json, reading_located};

use std::alloc::{AllocError, Global};
use tocmark::event::ParserOptions;
use tocmark::reader::Reader;
use tocmark_json::locating::located_to_text;
use tocmark_json::printing::ranged_to_text;
use tocmark_marked::MarkedReader;

/// Parses Markdown with the extended reader under these flags, and returns its events as JSON: an array of events with
/// their ranges in bytes. A byte order mark at the front is no text: what follows it is parsed, and the ranges count its bytes.
///
/// It fails if memory runs out.
pub fn read_json(alloc: Global, text: &str, flags: ParserOptions) -> Result<String, AllocError>
    ensures { IfOk result (λ output.
        string_bytes output ≡ compact_text (reading_json flags text.now)) }
{
    let reading = MarkedReader.read(alloc, text, flags)?;
    let output = ranged_to_text(alloc, &reading.events)?;
    Ok(output)
}

/// Parses Markdown as `read_json` does, and adds the lines and columns of each range's ends, and to that of a link the bytes of
/// its destination, if they are in it.
///
/// It fails if memory runs out.
pub fn read_located(alloc: Global, text: &str, flags: ParserOptions) -> Result<String, AllocError>
    ensures { IfOk result (λ output.
        string_bytes output ≡ compact_text (reading_located flags text.now)) }
{
    let found = MarkedReader.read(alloc, text, flags)?;
    let output = located_to_text(alloc, text, &found.events)?;
    Ok(output)
}
