//! The edits that format a text, or some of its lines.

ghost use Rattle.std.specs.Prelude.{IfOk, string_bytes};
ghost use Rattle.tocmark_lsp.specs.Formatting.{IsFormatting};
ghost use Rattle.tocmark_lsp_text.specs.Edits.{edited};

use serde_json::Value;
use std::alloc::{AllocError, Global};
use tocmark_format::{Formatted, Lines, StyledLines, formatted_lines};
use tocmark_lsp_pages::edits::edits_json;
use tocmark_lsp_pages::message::{Code, Fault, range_in};
use tocmark_lsp_text::edits::{Edit, EditError, line_edits};
use tocmark_lsp_text::positions::Encoding;
use tocmark_reader::{ExtendedReader, Names};
use tocmark_settings::Settings;

/// Formats the blocks of a text that these lines touch, or all.
pub(crate) fn formatted_as(
    alloc: Global,
    settings: Settings,
    text: &str,
    lines: Option<Lines>,
) -> Result<Formatted, AllocError>
    ensures { IfOk result (λ answer. IsFormatting settings text.now (string_bytes answer.text)) }
{
    let reader = ExtendedReader { names: Names::All };
    let asked = StyledLines {
        style: settings.style,
        lines,
        ends: settings.ends,
    };
    let also = settings.also.flags(alloc)?;
    formatted_lines(alloc, text, &reader, settings.flags, asked, &also)
}

/// The edits that format a text: the blocks that these lines touch, or all.
///
/// Applied to the text, they give one in which the reader finds the same, but for how lines are broken if the settings ask for
/// that. The definitions of links and the letters stay, too. It fails if memory runs out. `EditError::NotFound` isn't expected,
/// as for `line_edits`.
pub(crate) fn formatting_edits(
    alloc: Global,
    encoding: Encoding,
    settings: Settings,
    text: &str,
    lines: Option<Lines>,
) -> Result<Vec<Edit>, EditError>
    ensures { IfOk result (λ edits.
        IsFormatting settings text.now (edited encoding text.now edits.items)) }
{
    let answer = formatted_as(alloc, settings, text, lines)?;
    line_edits(alloc, encoding, text, answer.text.as_str())
}

/// The edits that format a text, as JSON: the blocks that these lines touch, or all.
fn edits_for(
    alloc: Global,
    encoding: Encoding,
    settings: Settings,
    text: &str,
    lines: Option<Lines>,
) -> Result<String, Fault> {
    let edits = formatting_edits(alloc, encoding, settings, text, lines)?;
    Ok(edits_json(alloc, &edits)?)
}

/// The edits that format a text.
pub(crate) fn whole(
    alloc: Global,
    encoding: Encoding,
    settings: Settings,
    text: &str,
) -> Result<String, Fault> {
    edits_for(alloc, encoding, settings, text, None)
}

/// The edits that format the blocks that a range touches. A range that ends at the front of a line doesn't touch that line.
pub(crate) fn part(
    alloc: Global,
    encoding: Encoding,
    settings: Settings,
    text: &str,
    range: Option<&Value>,
) -> Result<String, Fault> {
    let Some((start, stop)) = range.and_then(range_in) else {
        return Err(Fault::Refused(Code::Params, "a range is missing"));
    };
    let ends_before = stop.character == 0 && stop.line > start.line;
    let last = if ends_before {
        stop.line
    } else {
        stop.line.saturating_add(1)
    };
    let lines = Lines {
        first: start.line.saturating_add(1),
        last,
    };
    edits_for(alloc, encoding, settings, text, Some(lines))
}
