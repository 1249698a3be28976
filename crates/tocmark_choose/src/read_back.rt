//! Whether a text is read as the unit that it is written for.

ghost use Rattle.std.specs.Prelude.{◌≡◌, ◌++◌, codes, map, string_bytes, IfOk};
ghost use Rattle.tocmark_event.specs.Merged.{merged};
ghost use Rattle.tocmark_event.specs.View.{unsourced};
ghost use Rattle.tocmark_write_labels.specs.LabelsOf.{is_taken_in};
ghost use Rattle.tocmark_compare.specs.InParagraph.{in_paragraph};
ghost use Rattle.tocmark_choose.specs.ReadsBack.{found_in};
ghost use Rattle.tocmark_spelling.specs.Buffered.{buffered_view};

use std::alloc::{AllocError, Global};
use tocmark_compare::agrees::agrees;
use tocmark_event::event::ParserOptions;
use tocmark_event::reader::{Reader, Reading};
use tocmark_spelling::buffered::BufferedEvent;
use tocmark_write_labels::taken::Taken;

/// What is known of a spelling that is read back.
#[derive(Drop)]
pub struct ReadBack {
    /// The definitions that it needs.
    pub definitions: String,
}

/// Whether a reader finds a unit's events in a text, and looks no label up in vain there that is taken.
/// It fails if memory runs out, here or in the reader.
pub(crate) fn find<R: Reader>(
    alloc: Global,
    reader: &R,
    flags: ParserOptions,
    taken: Taken<'_, '_>,
    unit: &[BufferedEvent],
    text: &str,
) -> Result<bool, AllocError>
    ensures { let views = map buffered_view unit.now in
        let events = in_paragraph (merged (map unsourced views)) in
        let reading = R.reading reader.now text.now flags in
        IfOk result (λ found. found ≡ found_in (is_taken_in taken.entry) events reading) }
{
    let reading = reader.read(alloc, text, flags)?;
    let Reading {
        events,
        unresolved,
        ..
    } = reading;
    if !agrees(&events, unit) {
        return Ok(false);
    }
    Ok(!taken.contains_any(alloc, &unresolved)?)
}

/// Definitions and a blank line before a text.
pub(crate) fn behind_definitions(
    alloc: Global,
    definitions: &str,
    text: &str,
) -> Result<String, AllocError>
    ensures { IfOk result (λ all. string_bytes all ≡ definitions.now ++ codes "\n\n" ++ text.now) }
{
    let mut all = String::from_str(alloc, definitions)?;
    all.push_str("\n\n")?;
    all.push_str(text)?;
    Ok(all)
}
