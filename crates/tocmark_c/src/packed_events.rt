//! Writes packed events as Markdown.

ghost use Rattle.std.specs.Prelude.{◌≡◌, IfErr, IfOk, string_bytes};
ghost use Rattle.tocmark_c.specs.PackedCalls.{IsPackedMarkdown, IsPackedWriteCause};
ghost use Rattle.tocmark_c.specs.Calls.{has_source};
ghost use Rattle.tocmark_event.specs.Options.{options_view};
ghost use Rattle.tocmark_documents.specs.PackedWriting.{IsPackedCause, IsWrittenPacked};

use crate::cause::Cause;
use crate::refusal::Refusal;
use crate::writing::source_of;
use std::alloc::Global;
use tocmark::Options;
use tocmark::event::ParserOptions;
use tocmark_documents::{PackedWriteError, options_from_text, write_packed};

/// Writes packed events as Markdown under options that were read, over the source that a text stands for.
fn packed_under(
    alloc: Global,
    packed: &[u8],
    source: &str,
    flags: ParserOptions,
    options: Options<'static>,
) -> Result<String, PackedWriteError>
    ensures text { IfOk result (λ output. IsWrittenPacked (options_view options.entry) flags
        (has_source source.now) source.now packed.now (string_bytes output)) }
    ensures cause { IfErr result (IsPackedCause (options_view options.entry) flags
        (has_source source.now) source.now packed.now) }
{
    write_packed(alloc, packed, source_of(source), flags, options)
}

/// Reads the options of a JSON text, and writes packed events as Markdown under them.
#[tactic(auto, using(crate::proofs::PackedCauses::packed_options_told, crate::proofs::PackedCauses::packed_told))]
fn packed_text(
    alloc: Global,
    packed: &[u8],
    source: &str,
    flags: u32,
    options: &str,
) -> Result<String, Refusal>
    ensures text { IfOk result (λ output.
        IsPackedMarkdown flags source.now options.now packed.now (string_bytes output)) }
    ensures cause { IfErr result (λ refusal.
        IsPackedWriteCause flags source.now options.now packed.now refusal.cause) }
{
    let flags = ParserOptions(flags);
    let options = match options_from_text(alloc, options, flags) {
        Ok(options) => options,
        Err(error) => return Err(Refusal::of_options(&error)),
    };
    match packed_under(alloc, packed, source, flags, options) {
        Ok(output) => Ok(output),
        Err(error) => Err(Refusal::of_packed(&error)),
    }
}

/// Writes packed events as Markdown under these options, over the source, unless that is empty.
pub fn write_packed_events(
    alloc: Global,
    packed: &[u8],
    source: &[u8],
    flags: u32,
    options: &[u8],
) -> Result<String, Refusal>
    ensures text { IfOk result (λ output.
        IsPackedMarkdown flags source.now options.now packed.now (string_bytes output)) }
    ensures cause { IfErr result (λ refusal.
        IsPackedWriteCause flags source.now options.now packed.now refusal.cause) }
{
    let source = match std::str::from_utf8(source) {
        Ok(source) => source,
        Err(_) => return Err(Refusal::of(Cause::SourceNotUtf8)),
    };
    let options = match std::str::from_utf8(options) {
        Ok(options) => options,
        Err(_) => return Err(Refusal::of(Cause::OptionsNotUtf8)),
    };
    packed_text(alloc, packed, source, flags, options)
}
