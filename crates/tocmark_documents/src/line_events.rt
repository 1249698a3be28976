//! The events of JSON by lines.

ghost use Rattle.std.specs.Prelude.{◌≡◌, ℕ, Bool, IfErr, IfOk, List, None, Some, is_some, map};
ghost use Rattle.std.specs.Str.Lines.{lines};
ghost use Rattle.serde_json.specs.Find.{as_array};
ghost use Rattle.serde_json.specs.Read.{read};
ghost use Rattle.tocmark_event.specs.Text.{text_of};
ghost use Rattle.tocmark_json.specs.Elements.{IsElement};
ghost use Rattle.tocmark_json.specs.Json.{pair_view};
ghost use Rattle.tocmark_json.specs.Node.{view};
ghost use Rattle.tocmark_documents.specs.Lines.{AreLinesOf, IsBadLine, IsLineOf, IsNoLine, have_ranges};

use crate::fault::WriteError;
use crate::pairs::Placed;
use json::Scratch;
use serde_json::Value;
use std::alloc::{AllocError, Global};
use tocmark_json::elements::element_from;
use tocmark_json::fault::{Fault, JsonError, TextError};
use tocmark_json::node::Node;

/// Whether a value is an array.
fn is_array(value: &Node<'_>) -> bool
    ensures { result ≡ is_some (as_array (view value.now)) }
{
    matches!(value, Node::Array(_))
}

/// Whether the lines are pairs of an event and its range. The first one tells: a pair is an array.
pub(crate) fn are_pairs(alloc: Global, text: &str) -> Result<bool, WriteError>
    ensures first { IfOk result (λ are_pairs. are_pairs ≡ have_ranges text.now) }
    ensures cause { IfErr result (IsBadLine text.now) }
{
    let Some(line) = text.lines().next() else {
        return Ok(false);
    };
    let mut scratch = Scratch::new(alloc);
    match Node::from_str(alloc, line, &mut scratch) {
        Ok(value) => Ok(is_array(&value)),
        Err(TextError::NotJson) => Ok(false),
        Err(TextError::OutOfMemory) => Err(WriteError::OutOfMemory),
    }
}

/// A line after so many line feeds.
fn behind_feeds(alloc: Global, line: &str, count: usize) -> Result<String, AllocError> {
    let mut text = String::new(alloc);
    for _feed in (0..count).rev() {
        text.push('\n')?;
    }
    text.push_str(line)?;
    Ok(text)
}

/// The error of a line that isn't JSON, with the number of that line.
///
/// The reader of JSON counts the line feeds of its text. So it reads the line once more, after as many line feeds as
/// lines are before it.
fn not_json(alloc: Global, line: &str, number: usize) -> WriteError
    ensures { (has_ranges : Bool) → read line.now ≡ None
        → IsNoLine has_ranges line.now number result }
{
    let Ok(text) = behind_feeds(alloc, line, number) else {
        return WriteError::OutOfMemory;
    };
    match Value::from_str(alloc, text.as_str()) {
        Err(error) if !error.is_memory() => WriteError::NotJson(error),
        _ => WriteError::OutOfMemory,
    }
}

/// The event of the value that a line of this number has, with its range if it has one.
fn pair_at(
    alloc: Global,
    value: &Node<'_>,
    has_ranges: bool,
    number: usize,
) -> Result<Placed<'static>, WriteError>
    ensures pair { IfOk result (λ pair.
        IsElement has_ranges (view value.now) (pair_view text_of pair)) }
    ensures cause { IfErr result (λ e. (line : List ℕ) → read line ≡ Some (view value.now)
        → IsNoLine has_ranges line number e) }
{
    match element_from(alloc, value, has_ranges) {
        Ok(pair) => Ok(pair),
        Err(Fault::OutOfMemory) => Err(WriteError::OutOfMemory),
        Err(Fault::Wanted { key, wanted }) => Err(WriteError::NotEvents(JsonError::Event {
            index: number,
            key,
            wanted,
        })),
    }
}

/// The event of the line of this number, with its range if it has one.
pub(crate) fn pair_in_line(
    alloc: Global,
    line: &str,
    has_ranges: bool,
    number: usize,
) -> Result<Placed<'static>, WriteError>
    ensures pair { IfOk result (λ pair. IsLineOf has_ranges line.now (pair_view text_of pair)) }
    ensures cause { IfErr result (IsNoLine has_ranges line.now number) }
{
    let mut scratch = Scratch::new(alloc);
    match Node::from_str(alloc, line, &mut scratch) {
        Ok(value) => pair_at(alloc, &value, has_ranges, number),
        Err(TextError::NotJson) => Err(not_json(alloc, line, number)),
        Err(TextError::OutOfMemory) => Err(WriteError::OutOfMemory),
    }
}

/// The events of a text by lines, with the ranges that they have there.
pub(crate) fn pairs_in_lines(alloc: Global, text: &str) -> Result<Vec<Placed<'static>>, WriteError>
    ensures pairs { IfOk result (λ pairs. AreLinesOf (have_ranges text.now) (lines text.now)
        (map (pair_view text_of) pairs.items)) }
    ensures cause { IfErr result (IsBadLine text.now) }
{
    let has_ranges = are_pairs(alloc, text)?;
    let mut pairs = Vec::new(alloc);
    for (number, line) in text.lines().enumerate() {
        let pair = pair_in_line(alloc, line, has_ranges, number)?;
        pairs.push(pair)?;
    }
    Ok(pairs)
}
