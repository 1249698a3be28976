//! Other definitions of links for a text, from JSON.

ghost use Rattle.std.specs.Prelude.{IfErr, IfOk, string_bytes};
ghost use Rattle.tocmark_definitions.specs.Redefining.{IsCause, IsDefinedBy, IsRedefinedBy};

use crate::fault::Fault;
use crate::given::given_in;
use std::alloc::Global;
use tocmark_event::event::ParserOptions;
use tocmark_judge::mark::{MARK, with_mark, without_mark};
use tocmark_redefine::with_definitions;

/// The text after so many bytes, with the definitions that a JSON text gives.
fn redefined(
    alloc: Global,
    text: &str,
    flags: ParserOptions,
    json: &str,
    more: usize,
) -> Result<String, Fault>
    ensures defined { IfOk result (λ new.
        IsDefinedBy flags more json.now text.now (string_bytes new)) }
    ensures cause { IfErr result (IsCause json.now) }
{
    let all = given_in(alloc, json, more)?;
    let new = with_definitions(alloc, text, flags, &all)?;
    Ok(new.text)
}

/// Gives definitions of links the destinations and titles that a JSON text says, whether a link uses them or not.
///
/// The JSON is an array. Each element is an object with the `label` of a definition, its `range` in the text, which has `start`
/// and `end`, and the `destination` and the `title` that it is to have, without escapes. An empty title is none. Other keys are
/// passed over, so that the JSON of `tocmark_outline::definitions` can be given back. Definitions that aren't given stay.
///
/// In the new text, the reader finds just these definitions, and else what it finds in the old one: links by a label whose
/// definition was changed follow. The new text is the old one but for the destinations and titles of changed definitions. A byte
/// order mark at the front stays, and ranges count its bytes.
///
/// It fails if the JSON text isn't JSON (`NotJson`) or no list (`NotAList`), if an element is no definition (`Wanted`) or none of
/// the text's by its range and its label (`NoDefinition`), if no such text was found (`Misread`), or if memory runs out.
///
/// ```
/// let json = "[{\"label\": \"a\", \"destination\": \"/c\", \"title\": \"d\", \"range\": {\"start\": 0, \"end\": 7}}]";
/// let new = redefine(alloc, "[a]: /b\n", flags, json)?;
/// assert_eq!(rt; new.as_str(), "[a]: /c \"d\"\n");
/// ```
pub fn redefine(
    alloc: Global,
    source: &str,
    flags: ParserOptions,
    json: &str,
) -> Result<String, Fault>
    ensures defined { IfOk result (λ new.
        IsRedefinedBy flags json.now source.now (string_bytes new)) }
    ensures cause { IfErr result (IsCause json.now) }
{
    match without_mark(source) {
        Some(rest) => {
            let new = redefined(alloc, rest, flags, json, MARK.len())?;
            Ok(with_mark(alloc, new.as_str())?)
        }
        None => redefined(alloc, source, flags, json, 0),
    }
}
