//! Writes the events of a JSON text as Markdown.

ghost use Rattle.std.specs.Prelude.{◌≡◌, IfErr, IfOk, is_some, string_bytes};
ghost use Rattle.tocmark_c.specs.Calls.{IsAsked, IsAskedCause, IsDocumentCauseOf, IsMarkdownOf, IsSameMarkdownOf, IsWriteCause, has_source};
ghost use Rattle.tocmark_event.specs.Options.{options_view};
ghost use Rattle.tocmark_documents.specs.Document.{IsDocumentCause, IsWrittenTheSame};
ghost use Rattle.tocmark_documents.specs.Interchange.{IsCause, IsWrittenFrom, source_text};

use crate::cause::Cause;
use crate::refusal::Refusal;
use std::alloc::Global;
use tocmark::Options;
use tocmark::event::ParserOptions;
use tocmark_documents::{DocumentError, WriteError, options_from_text, write_checked, write_json};

/// The source that a text stands for: none if the text is empty.
#[tactic(auto, using(tocmark_documents::proofs::Empty::empty_text))]
pub fn source_of(text: &str) -> Option<&str>
    ensures there { is_some result ≡ has_source text.now }
    ensures text { source_text result ≡ text.now }
{
    if text.is_empty() { None } else { Some(text) }
}

/// Writes events as Markdown under options that were read, over the source that a text stands for.
fn write_under(
    alloc: Global,
    json: &str,
    source: &str,
    flags: ParserOptions,
    options: Options<'static>,
) -> Result<String, WriteError>
    ensures text { IfOk result (λ output. IsWrittenFrom (options_view options.entry) flags
        (has_source source.now) source.now json.now (string_bytes output)) }
    ensures cause { IfErr result (IsCause (options_view options.entry) flags
        (has_source source.now) source.now json.now) }
{
    write_json(alloc, json, source_of(source), flags, options)
}

/// Writes events as Markdown that parses to just these events, as `write_under` does, or refuses them.
fn checked_under(
    alloc: Global,
    json: &str,
    source: &str,
    flags: ParserOptions,
    options: Options<'static>,
) -> Result<String, DocumentError>
    ensures text { IfOk result (λ output. IsWrittenTheSame (options_view options.entry) flags
        (has_source source.now) source.now json.now (string_bytes output)) }
    ensures cause { IfErr result (IsDocumentCause (options_view options.entry) flags
        (has_source source.now) source.now json.now) }
{
    write_checked(alloc, json, source_of(source), flags, options)
}

/// Reads the options of a JSON text, and writes events as Markdown under them.
#[tactic(auto, using(crate::proofs::Causes::options_told, crate::proofs::Causes::write_told))]
fn write_text(
    alloc: Global,
    json: &str,
    source: &str,
    flags: u32,
    options: &str,
) -> Result<String, Refusal>
    ensures text { IfOk result (λ output.
        IsMarkdownOf flags source.now options.now json.now (string_bytes output)) }
    ensures cause { IfErr result (λ refusal.
        IsWriteCause flags source.now options.now json.now refusal.cause) }
{
    let flags = ParserOptions(flags);
    let options = match options_from_text(alloc, options, flags) {
        Ok(options) => options,
        Err(error) => return Err(Refusal::of_options(&error)),
    };
    match write_under(alloc, json, source, flags, options) {
        Ok(output) => Ok(output),
        Err(error) => Err(Refusal::of_write(&error)),
    }
}

/// Reads the options of a JSON text, and writes events under them as Markdown that parses to just these events.
#[tactic(auto, using(crate::proofs::Causes::options_told_of_document, crate::proofs::Causes::document_told))]
fn checked_text(
    alloc: Global,
    json: &str,
    source: &str,
    flags: u32,
    options: &str,
) -> Result<String, Refusal>
    ensures text { IfOk result (λ output.
        IsSameMarkdownOf flags source.now options.now json.now (string_bytes output)) }
    ensures cause { IfErr result (λ refusal.
        IsDocumentCauseOf flags source.now options.now json.now refusal.cause) }
{
    let flags = ParserOptions(flags);
    let options = match options_from_text(alloc, options, flags) {
        Ok(options) => options,
        Err(error) => return Err(Refusal::of_options(&error)),
    };
    match checked_under(alloc, json, source, flags, options) {
        Ok(output) => Ok(output),
        Err(error) => Err(Refusal::of_document(&error)),
    }
}

/// Writes events by `checked_text` if `is_checked` is set, and else by `write_text`.
fn asked_text(
    alloc: Global,
    json: &str,
    source: &str,
    flags: u32,
    options: &str,
    is_checked: bool,
) -> Result<String, Refusal>
    ensures text { IfOk result (λ output.
        IsAsked is_checked flags source.now options.now json.now (string_bytes output)) }
    ensures cause { IfErr result (λ refusal.
        IsAskedCause is_checked flags source.now options.now json.now refusal.cause) }
{
    if is_checked {
        checked_text(alloc, json, source, flags, options)
    } else {
        write_text(alloc, json, source, flags, options)
    }
}

/// Writes events as Markdown under these options. If `is_checked` is set, the Markdown has to parse to just these
/// events.
pub fn write(
    alloc: Global,
    json: &[u8],
    source: &[u8],
    flags: u32,
    options: &[u8],
    is_checked: bool,
) -> Result<String, Refusal>
    ensures text { IfOk result (λ output.
        IsAsked is_checked flags source.now options.now json.now (string_bytes output)) }
    ensures cause { IfErr result (λ refusal.
        IsAskedCause is_checked flags source.now options.now json.now refusal.cause) }
{
    let json = match std::str::from_utf8(json) {
        Ok(json) => json,
        Err(_) => return Err(Refusal::of(Cause::NotUtf8)),
    };
    let source = match std::str::from_utf8(source) {
        Ok(source) => source,
        Err(_) => return Err(Refusal::of(Cause::SourceNotUtf8)),
    };
    let options = match std::str::from_utf8(options) {
        Ok(options) => options,
        Err(_) => return Err(Refusal::of(Cause::OptionsNotUtf8)),
    };
    asked_text(alloc, json, source, flags, options, is_checked)
}
