//! Rewrites a source to the events of a JSON text.

ghost use Rattle.std.specs.Prelude.{IfErr, IfOk, string_bytes};
ghost use Rattle.tocmark_c.specs.Rewriting.{IsRewriteCauseOf, IsRewrittenOf};

use crate::cause::Cause;
use crate::refusal::Refusal;
use std::alloc::Global;
use tocmark::event::ParserOptions;
use tocmark_documents::{options_from_text, rewrite_json};

#[tactic(auto, using(crate::proofs::Rewritten::rewritten_told, crate::proofs::Rewritten::options_told, crate::proofs::Rewritten::rewriting_told))]
fn rewrite_text(
    alloc: Global,
    json: &str,
    source: &str,
    flags: u32,
    options: &str,
) -> Result<String, Refusal>
    ensures text { IfOk result (λ output.
        IsRewrittenOf flags source.now options.now json.now (string_bytes output)) }
    ensures cause { IfErr result (λ refusal.
        IsRewriteCauseOf flags source.now options.now json.now refusal.cause) }
{
    let flags = ParserOptions(flags);
    let options = match options_from_text(alloc, options, flags) {
        Ok(options) => options,
        Err(error) => return Err(Refusal::of_options(&error)),
    };
    match rewrite_json(alloc, json, source, flags, options) {
        Ok(answer) => Ok(answer.text),
        Err(error) => Err(Refusal::of_rewriting(&error)),
    }
}

/// Rewrites a source to the events of a JSON text under these options.
pub fn rewrite(
    alloc: Global,
    json: &[u8],
    source: &[u8],
    flags: u32,
    options: &[u8],
) -> Result<String, Refusal>
    ensures text { IfOk result (λ output.
        IsRewrittenOf flags source.now options.now json.now (string_bytes output)) }
    ensures cause { IfErr result (λ refusal.
        IsRewriteCauseOf flags source.now options.now json.now refusal.cause) }
{
    let json = match std::str::from_utf8(json) {
        Ok(json) => json,
        Err(_) => return Err(Refusal::of(Cause::NotUtf8)),
    };
    let source = match std::str::from_utf8(source) {
        Ok(source) => source,
        Err(_) => return Err(Refusal::of(Cause::SourceNotUtf8)),
    };
    let options = match std::str::from_utf8(options) {
        Ok(options) => options,
        Err(_) => return Err(Refusal::of(Cause::OptionsNotUtf8)),
    };
    rewrite_text(alloc, json, source, flags, options)
}
