//! The answers to calls.

ghost use Rattle.std.specs.Prelude.{◌≡◌, IfErr, IfOk, string_bytes};
ghost use Rattle.serde_json.specs.Written.{compact_text};
ghost use Rattle.tocmark_definitions.specs.Redefining.{IsRedefinedBy};
ghost use Rattle.tocmark_event.specs.Options.{options_view};
ghost use Rattle.tocmark_documents.specs.Document.{IsWrittenTheSame};
ghost use Rattle.tocmark_documents.specs.Interchange.{IsWrittenAgain, IsWrittenFrom, reading_json, reading_located};
ghost use Rattle.tocmark_documents.specs.Lines.{IsWrittenFromLines, array_of};
ghost use Rattle.tocmark_documents.specs.Rewriting.{IsRewrittenText};
ghost use Rattle.tocmark_outline.specs.Defining.{IsDefinitionsJson};
ghost use Rattle.tocmark_events_program.specs.Events.{IsAnswer, IsMade, IsReadAs, IsWriteFault};

use crate::arguments::Job;
use crate::explained::explained;
use crate::fault::Fault;
use std::alloc::Global;
use tocmark::Options;
use tocmark::event::ParserOptions;
use tocmark_definitions::redefine;
use tocmark_documents::{
    array_of, check_json, checked_over, read_json, read_located, rewrite_json, write_lines,
    write_over,
};
use tocmark_outline::definitions;
use tocmark_rewrite::RewrittenTree;

/// The answer to a call.
#[derive(Drop)]
pub struct Answer {
    /// The text for standard output.
    pub text: String,
    /// The blocks of a rewritten document.
    pub blocks: Vec<RewrittenTree>,
}

/// An answer that has only a text.
fn only(alloc: Global, text: String) -> Answer
    ensures { string_bytes result.text ≡ string_bytes text }
{
    Answer {
        text,
        blocks: Vec::new(alloc),
    }
}

/// The JSON of the events of a text under these flags, with their ranges.
fn read_events(alloc: Global, text: &str, flags: ParserOptions) -> Result<Answer, Fault>
    ensures fault { IfErr result (λ fault. ¬ (IsWriteFault fault)) }
    ensures read { IfOk result (λ answer.
        string_bytes answer.text ≡ compact_text (reading_json flags text.now)) }
{
    let output = read_json(alloc, text, flags)?;
    Ok(only(alloc, output))
}

/// The JSON of the events of a text under these flags, with lines and columns.
fn read_located_events(alloc: Global, text: &str, flags: ParserOptions) -> Result<Answer, Fault>
    ensures fault { IfErr result (λ fault. ¬ (IsWriteFault fault)) }
    ensures read { IfOk result (λ answer.
        string_bytes answer.text ≡ compact_text (reading_located flags text.now)) }
{
    let output = read_located(alloc, text, flags)?;
    Ok(only(alloc, output))
}

/// The events of a text under these flags, with lines and columns or without.
fn read_as(
    alloc: Global,
    text: &str,
    flags: ParserOptions,
    positions: bool,
) -> Result<Answer, Fault>
    ensures fault { IfErr result (λ fault. ¬ (IsWriteFault fault)) }
    ensures read { IfOk result (λ answer.
        IsReadAs flags positions text.now (string_bytes answer.text)) }
{
    if positions {
        read_located_events(alloc, text, flags)
    } else {
        read_events(alloc, text, flags)
    }
}

/// The JSON of the definitions of links of a text under these flags.
fn define(alloc: Global, text: &str, flags: ParserOptions) -> Result<Answer, Fault>
    ensures fault { IfErr result (λ fault. ¬ (IsWriteFault fault)) }
    ensures defined { IfOk result (λ answer.
        IsDefinitionsJson flags text.now (string_bytes answer.text)) }
{
    let output = definitions(alloc, text, flags)?;
    Ok(only(alloc, output))
}

/// The one form of a JSON text of events: without spaces, the keys in order, without lines and columns.
fn checked_events(alloc: Global, text: &str) -> Result<Answer, Fault>
    ensures fault { IfErr result (λ fault. ¬ (IsWriteFault fault)) }
    ensures again { IfOk result (λ answer. IsWrittenAgain text.now (string_bytes answer.text)) }
{
    let output = check_json(alloc, text)?;
    Ok(only(alloc, output))
}

/// The Markdown of the events that a text has as JSON. Without a source their ranges are dropped.
fn write_events(
    alloc: Global,
    text: &str,
    source: &str,
    has_source: bool,
    flags: ParserOptions,
    options: Options<'static>,
) -> Result<Answer, Fault>
    ensures fault { IfErr result (λ fault. ¬ (IsWriteFault fault)) }
    ensures written { IfOk result (λ answer. IsWrittenFrom (options_view options.entry) flags
        has_source source.now text.now (string_bytes answer.text)) }
{
    let output = write_over(alloc, text, source, has_source, flags, options)?;
    Ok(only(alloc, output))
}

/// The Markdown of the events that a text has as JSON by lines. Without a source their ranges are dropped.
fn write_event_lines(
    alloc: Global,
    lines: &str,
    source: &str,
    has_source: bool,
    flags: ParserOptions,
    options: Options<'static>,
) -> Result<Answer, Fault>
    ensures fault { IfErr result (λ fault. ¬ (IsWriteFault fault)) }
    ensures written { IfOk result (λ answer. IsWrittenFromLines (options_view options.entry) flags
        has_source source.now lines.now (string_bytes answer.text)) }
{
    let output = write_lines(alloc, lines, source, has_source, flags, options)?;
    Ok(only(alloc, output))
}

/// The Markdown of the events that a text has as JSON, if just these events are found in it.
fn write_document(
    alloc: Global,
    text: &str,
    source: &str,
    has_source: bool,
    flags: ParserOptions,
    options: Options<'static>,
) -> Result<Answer, Fault>
    ensures fault { IfErr result (λ fault. ¬ (IsWriteFault fault)) }
    ensures same { IfOk result (λ answer. IsWrittenTheSame (options_view options.entry) flags
        has_source source.now text.now (string_bytes answer.text)) }
{
    let output = checked_over(alloc, text, source, has_source, flags, options)?;
    Ok(only(alloc, output))
}

/// The source, rewritten to the events that a text has as JSON.
fn rewrite_events(
    alloc: Global,
    text: &str,
    source: &str,
    flags: ParserOptions,
    options: Options<'static>,
) -> Result<Answer, Fault>
    ensures fault { IfErr result (λ fault. ¬ (IsWriteFault fault)) }
    ensures rewritten { IfOk result (λ answer.
        IsRewrittenText flags source.now text.now (string_bytes answer.text)) }
{
    let rewritten = rewrite_json(alloc, text, source, flags, options)?;
    Ok(Answer {
        text: rewritten.text,
        blocks: rewritten.trees,
    })
}

/// The source, with the definitions of links that a text has as JSON.
fn redefine_links(
    alloc: Global,
    text: &str,
    source: &str,
    flags: ParserOptions,
) -> Result<Answer, Fault>
    ensures fault { IfErr result (λ fault. ¬ (IsWriteFault fault)) }
    ensures redefined { IfOk result (λ answer.
        IsRedefinedBy flags text.now source.now (string_bytes answer.text)) }
{
    let output = redefine(alloc, source, flags, text)?;
    Ok(only(alloc, output))
}

/// What a job makes of a text whose lines aren't joined.
fn made(alloc: Global, job: Job<'_>, source: &str, text: &str) -> Result<Answer, Fault>
    ensures fault { IfErr result (λ fault. ¬ (IsWriteFault fault)) }
    ensures makes { IfOk result (λ answer.
        IsMade job.entry source.now text.now (string_bytes answer.text)) }
{
    match job {
        Job::Read { flags, positions } => read_as(alloc, text, flags, positions),
        Job::Define { flags } => define(alloc, text, flags),
        Job::Check => checked_events(alloc, text),
        Job::Write {
            flags,
            options,
            source: file,
            is_document: false,
            lines: false,
        } => write_events(alloc, text, source, file.is_some(), flags, options),
        Job::Write {
            flags,
            options,
            source: file,
            is_document: false,
            lines: true,
        } => write_event_lines(alloc, text, source, file.is_some(), flags, options),
        Job::Write {
            flags,
            options,
            source: file,
            is_document: true,
            ..
        } => write_document(alloc, text, source, file.is_some(), flags, options),
        Job::Rewrite { flags, options, .. } => rewrite_events(alloc, text, source, flags, options),
        Job::Redefine { flags, .. } => redefine_links(alloc, text, source, flags),
    }
}

/// What a job makes of lines that are joined into an array.
fn made_of_lines(alloc: Global, job: Job<'_>, source: &str, lines: &str) -> Result<Answer, Fault>
    ensures fault { IfErr result (λ fault. ¬ (IsWriteFault fault)) }
    ensures makes { IfOk result (λ answer.
        IsMade job.entry source.now (array_of lines.now) (string_bytes answer.text)) }
{
    let json = array_of(alloc, lines)?;
    made(alloc, job, source, json.as_str())
}

/// What a job makes of its input, if there is no fault.
fn tried(alloc: Global, job: Job<'_>, source: &str, input: &str) -> Result<Answer, Fault>
    ensures fault { IfErr result (λ fault. ¬ (IsWriteFault fault)) }
    ensures answers { IfOk result (λ answer.
        IsAnswer job.entry source.now input.now (string_bytes answer.text)) }
{
    if job.joins_lines() {
        made_of_lines(alloc, job, source, input)
    } else {
        made(alloc, job, source, input)
    }
}

/// What a job makes of its input.
pub fn answered(alloc: Global, job: Job<'_>, source: &str, input: &str) -> Result<Answer, Fault>
    ensures fault { IfErr result (λ fault. ¬ (IsWriteFault fault)) }
    ensures answers { IfOk result (λ answer.
        IsAnswer job.entry source.now input.now (string_bytes answer.text)) }
{
    match tried(alloc, job, source, input) {
        Ok(answer) => Ok(answer),
        Err(fault) => Err(explained(alloc, job, input, fault)),
    }
}
