//! Parses Markdown to the bytes of which Python makes its events.

ghost use Rattle.std.specs.Prelude.{IfErr, IfOk};
ghost use Rattle.tocmark_c.specs.MarshalCalls.{IsMarshalCause, IsMarshalOf};

use crate::cause::Cause;
use std::alloc::Global;
use tocmark::event::ParserOptions;
use tocmark_documents::read_marshal;
use tocmark_json::marshalling::MarshalError;

/// The bytes for Python of the events of a text, if that is UTF-8.
pub fn read_bytes(alloc: Global, text: &[u8], flags: u32) -> Result<Vec<u8>, Cause>
    ensures bytes { IfOk result (λ output. IsMarshalOf flags text.now output.items) }
    ensures cause { IfErr result (IsMarshalCause flags text.now) }
{
    let text = match std::str::from_utf8(text) {
        Ok(text) => text,
        Err(_) => return Err(Cause::NotUtf8),
    };
    match read_marshal(alloc, text, ParserOptions(flags)) {
        Ok(output) => Ok(output),
        Err(MarshalError::TooLong) => Err(Cause::TooLong),
        Err(MarshalError::OutOfMemory) => Err(Cause::OutOfMemory),
    }
}
