//! Writes events that Python gives as Markdown.

ghost use Rattle.std.specs.Prelude.{IfErr, IfOk, string_bytes};
ghost use Rattle.tocmark_c.specs.Calls.{has_source};
ghost use Rattle.tocmark_c.specs.MarshalWriting.{IsDumpMarkdown, IsDumpWriteCause};
ghost use Rattle.tocmark_event.specs.Options.{options_view};
ghost use Rattle.tocmark_documents.specs.MarshalWriting.{IsDumpCause, IsWrittenDump};

use crate::cause::Cause;
use crate::refusal::Refusal;
use crate::writing::source_of;
use std::alloc::Global;
use tocmark::Options;
use tocmark::event::ParserOptions;
use tocmark_documents::{WriteError, options_from_text, write_marshal};

/// Writes events that Python gives as Markdown under options that were read, over the source that a text stands for.
fn marshal_under(
    alloc: Global,
    bytes: &[u8],
    source: &str,
    flags: ParserOptions,
    options: Options<'static>,
) -> Result<String, WriteError>
    ensures text { IfOk result (λ output. IsWrittenDump (options_view options.entry) flags
        (has_source source.now) source.now bytes.now (string_bytes output)) }
    ensures cause { IfErr result (IsDumpCause (options_view options.entry) flags
        (has_source source.now) source.now bytes.now) }
{
    write_marshal(alloc, bytes, source_of(source), flags, options)
}

/// Reads the options of a JSON text, and writes events that Python gives as Markdown under them.
#[tactic(auto, using(crate::proofs::DumpCauses::dump_options_told, crate::proofs::DumpCauses::dump_told))]
fn marshal_text(
    alloc: Global,
    bytes: &[u8],
    source: &str,
    flags: u32,
    options: &str,
) -> Result<String, Refusal>
    ensures text { IfOk result (λ output.
        IsDumpMarkdown flags source.now options.now bytes.now (string_bytes output)) }
    ensures cause { IfErr result (λ refusal.
        IsDumpWriteCause flags source.now options.now bytes.now refusal.cause) }
{
    let flags = ParserOptions(flags);
    let options = match options_from_text(alloc, options, flags) {
        Ok(options) => options,
        Err(error) => return Err(Refusal::of_options(&error)),
    };
    match marshal_under(alloc, bytes, source, flags, options) {
        Ok(output) => Ok(output),
        Err(error) => Err(Refusal::of_write(&error)),
    }
}

/// Writes events that Python gives as Markdown under these options, over the source, unless that is empty.
pub fn write_marshal_events(
    alloc: Global,
    bytes: &[u8],
    source: &[u8],
    flags: u32,
    options: &[u8],
) -> Result<String, Refusal>
    ensures text { IfOk result (λ output.
        IsDumpMarkdown flags source.now options.now bytes.now (string_bytes output)) }
    ensures cause { IfErr result (λ refusal.
        IsDumpWriteCause flags source.now options.now bytes.now refusal.cause) }
{
    let source = match std::str::from_utf8(source) {
        Ok(source) => source,
        Err(_) => return Err(Refusal::of(Cause::SourceNotUtf8)),
    };
    let options = match std::str::from_utf8(options) {
        Ok(options) => options,
        Err(_) => return Err(Refusal::of(Cause::OptionsNotUtf8)),
    };
    marshal_text(alloc, bytes, source, flags, options)
}
