//! Gives definitions of links of a source what a JSON text says.

ghost use Rattle.std.specs.Prelude.{IfErr, IfOk, string_bytes};
ghost use Rattle.tocmark_c.specs.Redefining.{IsRedefineCauseOf, IsRedefinedOf};

use crate::cause::Cause;
use crate::refusal::Refusal;
use std::alloc::Global;
use tocmark::event::ParserOptions;
use tocmark_definitions::redefine;

/// Gives definitions of links of a source what a JSON text says.
#[tactic(auto, using(crate::proofs::Redefined::redefining_told))]
pub fn redefined(alloc: Global, json: &[u8], source: &[u8], flags: u32) -> Result<String, Refusal>
    ensures text { IfOk result (λ output.
        IsRedefinedOf flags source.now json.now (string_bytes output)) }
    ensures cause { IfErr result (λ refusal.
        IsRedefineCauseOf source.now json.now refusal.cause) }
{
    let json = match std::str::from_utf8(json) {
        Ok(json) => json,
        Err(_) => return Err(Refusal::of(Cause::NotUtf8)),
    };
    let source = match std::str::from_utf8(source) {
        Ok(source) => source,
        Err(_) => return Err(Refusal::of(Cause::SourceNotUtf8)),
    };
    match redefine(alloc, source, ParserOptions(flags), json) {
        Ok(text) => Ok(text),
        Err(error) => Err(Refusal::of_redefining(&error)),
    }
}
