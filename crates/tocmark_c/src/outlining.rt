//! What a text has: links, headings, words, and definitions of links.

ghost use Rattle.std.specs.Prelude.{IfErr, IfOk, string_bytes};
ghost use Rattle.tocmark_c.specs.Calls.{IsReadCause};
ghost use Rattle.tocmark_c.specs.Outline.{IsOutline};

use crate::cause::Cause;
use std::alloc::Global;
use tocmark_event::event::ParserOptions;
use tocmark_outline::{definitions, headings, links, words};

/// What is listed of a text.
#[derive(Clone, Copy)]
pub enum Outlined {
    Links,
    Headings,
    Words,
    Definitions,
}

/// The list of what a text has, if it is UTF-8.
pub fn outline(alloc: Global, text: &[u8], flags: u32, list: Outlined) -> Result<String, Cause>
    ensures text { IfOk result (λ output. IsOutline list flags text.now (string_bytes output)) }
    ensures cause { IfErr result (IsReadCause text.now) }
{
    let Ok(text) = std::str::from_utf8(text) else {
        return Err(Cause::NotUtf8);
    };
    let flags = ParserOptions(flags);
    let listed = match list {
        Outlined::Links => links(alloc, text, flags),
        Outlined::Headings => headings(alloc, text, flags),
        Outlined::Words => words(alloc, text, flags),
        Outlined::Definitions => definitions(alloc, text, flags),
    };
    match listed {
        Ok(output) => Ok(output),
        Err(_) => Err(Cause::OutOfMemory),
    }
}
