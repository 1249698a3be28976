//! Inline leaves with a text of their own: code, mathematics, inline HTML, references to footnotes, breaks and boxes.

ghost use Rattle.std.specs.Prelude.{◌≡◌, ◌+◌, ◌++◌, replicate, string_bytes, chars, length, IfOk, OnOk};
ghost use Rattle.tocmark_event.specs.View.{event_view};
ghost use Rattle.tocmark_spelling.specs.Kinds.{is_table};
ghost use Rattle.tocmark_spelling.specs.Page.{with_last, written};
ghost use Rattle.tocmark_spelling.specs.Places.{is_in, widened};
ghost use Rattle.tocmark_spelling.specs.declared.trail.Last.TheVariants.{Inline};
ghost use Rattle.tocmark_write_inlines.specs.Led.{code_led, spelled_on, StandsAt};
ghost use Rattle.tocmark_write_renderer.specs.WriterOf.{levels_of, page_of, Stands};
ghost use Rattle.tocmark_write_texts.specs.Characters.{backtick};
ghost use Rattle.tocmark_write_texts.specs.Leaves.{code_span, enclosed, span, inline_math, display_math, task_marker, footnote_reference};

use std::alloc::{AllocError, Global};
use tocmark_event::event::OwnedEvent;
use tocmark_spelling::trail::Last;
use tocmark_write_renderer::renderer::Renderer;
use tocmark_write_texts::text_modifications::{SpanEnds, few_ticks, in_cell, math_text, span_ends};

/// Writes inline content, which is after its gap.
pub fn write_inline(renderer: &mut Renderer<'_>, text: &str) -> Result<(), AllocError>
    ensures stands { OnOk result (Stands renderer.new (levels_of renderer.old)
        (with_last Inline (written (levels_of renderer.old) text.now (page_of renderer.old)))) }
    ensures mark { renderer.new.at_mark ≡ renderer.old.at_mark }
{
    renderer.write(text)?;
    renderer.set_last(Last::Inline);
    Ok(())
}

/// Writes an inline leaf with this text, after its gap.
pub fn write_spelled(
    renderer: &mut Renderer<'_>,
    event: &OwnedEvent,
    text: &str,
) -> Result<(), AllocError>
    ensures stands { OnOk result (StandsAt renderer.new
        (spelled_on (event_view string_bytes event.now)
        text.now (levels_of renderer.old) (page_of renderer.old))) }
    ensures mark { renderer.new.at_mark ≡ renderer.old.at_mark }
{
    renderer.write_gap(event)?;
    write_inline(renderer, text)
}

/// How many characters a text has.
fn character_count(text: &str) -> usize
    ensures { result ≡ length (chars text.now) }
{
    text.chars().count()
}

/// How many characters code has with a backtick before and after it. An `Err` says that they are too
/// many.
fn code_width(text: &str) -> Result<usize, AllocError>
    ensures { IfOk result (λ width. width ≡ length (chars text.now) + 2) }
{
    character_count(text).checked_add(2).ok_or(AllocError)
}

/// Makes the nearest cell, if one is open, wider by a text's characters, which are counted only then.
/// It fails if memory runs out, or if the width would be too large.
pub fn widen_by_text(renderer: &mut Renderer<'_>, text: &str) -> Result<(), AllocError>
    ensures stands { OnOk result (Stands renderer.new
        (widened (length (chars text.now)) (levels_of renderer.old)) (page_of renderer.old)) }
    ensures mark { renderer.new.at_mark ≡ renderer.old.at_mark }
{
    match renderer.outside().cell {
        Some(_) => renderer.widen(character_count(text)),
        None => Ok(()),
    }
}

/// Makes the nearest cell, if one is open, wider by a text's characters and two backticks, which are counted only then.
/// It fails if memory runs out, or if the width would be too large.
fn widen_by_code(renderer: &mut Renderer<'_>, text: &str) -> Result<(), AllocError>
    ensures stands { OnOk result (Stands renderer.new
        (widened (length (chars text.now) + 2) (levels_of renderer.old)) (page_of renderer.old)) }
    ensures mark { renderer.new.at_mark ≡ renderer.old.at_mark }
{
    match renderer.outside().cell {
        Some(_) => renderer.widen(code_width(text)?),
        None => Ok(()),
    }
}

/// Writes so many backticks.
#[tactic(auto, using(crate::proofs::Spans::repeat_tick))]
fn write_ticks(renderer: &mut Renderer<'_>, alloc: Global, count: usize) -> Result<(), AllocError>
    ensures stands { OnOk result (Stands renderer.new (levels_of renderer.old)
        (written (levels_of renderer.old) (replicate count backtick) (page_of renderer.old))) }
    ensures mark { renderer.new.at_mark ≡ renderer.old.at_mark }
{
    if let Some(ticks) = few_ticks(count) {
        return renderer.write(ticks);
    }
    let ticks = "`".repeat(alloc, count)?;
    renderer.write(ticks.as_str())
}

/// Writes a text, which may be empty.
fn write_some(renderer: &mut Renderer<'_>, text: &str) -> Result<(), AllocError>
    ensures stands { OnOk result (Stands renderer.new (levels_of renderer.old)
        (written (levels_of renderer.old) text.now (page_of renderer.old))) }
    ensures mark { renderer.new.at_mark ≡ renderer.old.at_mark }
{
    if text.is_empty() {
        return Ok(());
    }
    renderer.write(text)
}

/// Writes what is before the text of a code span.
fn write_opening(
    renderer: &mut Renderer<'_>,
    alloc: Global,
    ends: SpanEnds,
) -> Result<(), AllocError>
    ensures stands { OnOk result (Stands renderer.new (levels_of renderer.old)
        (written (levels_of renderer.old) (replicate ends.ticks backtick ++ ends.padding.now)
        (page_of renderer.old))) }
    ensures mark { renderer.new.at_mark ≡ renderer.old.at_mark }
{
    write_ticks(renderer, alloc, ends.ticks)?;
    write_some(renderer, ends.padding)
}

/// Writes what is after the text of a code span.
fn write_closing(
    renderer: &mut Renderer<'_>,
    alloc: Global,
    ends: SpanEnds,
) -> Result<(), AllocError>
    ensures stands { OnOk result (Stands renderer.new (levels_of renderer.old)
        (written (levels_of renderer.old) (ends.padding.now ++ replicate ends.ticks backtick)
        (page_of renderer.old))) }
    ensures mark { renderer.new.at_mark ≡ renderer.old.at_mark }
{
    write_some(renderer, ends.padding)?;
    write_ticks(renderer, alloc, ends.ticks)
}

/// Writes a text between these ends.
fn write_enclosed(
    renderer: &mut Renderer<'_>,
    alloc: Global,
    ends: SpanEnds,
    text: &str,
) -> Result<(), AllocError>
    ensures stands { OnOk result (Stands renderer.new (levels_of renderer.old)
        (written (levels_of renderer.old)
        (enclosed (replicate ends.ticks backtick) ends.padding.now text.now)
        (page_of renderer.old))) }
    ensures mark { renderer.new.at_mark ≡ renderer.old.at_mark }
{
    write_opening(renderer, alloc, ends)?;
    renderer.write(text)?;
    write_closing(renderer, alloc, ends)
}

/// Writes a text as a code span after its gap.
fn write_spanned(
    renderer: &mut Renderer<'_>,
    alloc: Global,
    event: &OwnedEvent,
    text: &str,
) -> Result<(), AllocError>
    ensures stands { OnOk result (StandsAt renderer.new
        (spelled_on (event_view string_bytes event.now) (span text.now)
        (levels_of renderer.old) (page_of renderer.old))) }
    ensures mark { renderer.new.at_mark ≡ renderer.old.at_mark }
{
    let ends = span_ends(text);
    renderer.write_gap(event)?;
    write_enclosed(renderer, alloc, ends, text)?;
    renderer.set_last(Last::Inline);
    Ok(())
}

/// Writes a code span after its gap, in a table or not.
#[tactic(auto, unfolding(tocmark_write_texts::specs::Leaves::code_span))]
fn write_span(
    renderer: &mut Renderer<'_>,
    alloc: Global,
    event: &OwnedEvent,
    text: &str,
) -> Result<(), AllocError>
    ensures stands { OnOk result (StandsAt renderer.new
        (spelled_on (event_view string_bytes event.now)
        (code_span (is_in is_table (levels_of renderer.old)) text.now)
        (levels_of renderer.old) (page_of renderer.old))) }
    ensures mark { renderer.new.at_mark ≡ renderer.old.at_mark }
{
    if !renderer.outside().in_table {
        return write_spanned(renderer, alloc, event, text);
    }
    let inside = in_cell(alloc, text, true)?;
    write_spanned(renderer, alloc, event, inside.as_str())
}

/// Writes a code span after its gap, and makes the nearest cell wider by its text's characters and two
/// backticks. It fails if memory runs out, or if the width would be too large.
pub fn write_code(
    renderer: &mut Renderer<'_>,
    alloc: Global,
    event: &OwnedEvent,
    text: &str,
) -> Result<(), AllocError>
    ensures stands { OnOk result (StandsAt renderer.new
        (code_led (event_view string_bytes event.now)
        text.now (levels_of renderer.old) (page_of renderer.old))) }
    ensures mark { renderer.new.at_mark ≡ renderer.old.at_mark }
{
    write_span(renderer, alloc, event, text)?;
    widen_by_code(renderer, text)
}

/// Writes mathematics within a line, after its gap.
pub fn write_inline_math(
    renderer: &mut Renderer<'_>,
    alloc: Global,
    event: &OwnedEvent,
    text: &str,
) -> Result<(), AllocError>
    ensures stands { OnOk result (StandsAt renderer.new
        (spelled_on (event_view string_bytes event.now)
        (inline_math (is_in is_table (levels_of renderer.old)) text.now)
        (levels_of renderer.old) (page_of renderer.old))) }
    ensures mark { renderer.new.at_mark ≡ renderer.old.at_mark }
{
    let math = inline_math(alloc, text, renderer.outside().in_table)?;
    write_spelled(renderer, event, math.as_str())
}

/// Writes mathematics that is shown on its own, after its gap.
pub fn write_display_math(
    renderer: &mut Renderer<'_>,
    alloc: Global,
    event: &OwnedEvent,
    text: &str,
) -> Result<(), AllocError>
    ensures stands { OnOk result (StandsAt renderer.new
        (spelled_on (event_view string_bytes event.now)
        (display_math (is_in is_table (levels_of renderer.old)) text.now)
        (levels_of renderer.old) (page_of renderer.old))) }
    ensures mark { renderer.new.at_mark ≡ renderer.old.at_mark }
{
    let math = display_math(alloc, text, renderer.outside().in_table)?;
    write_spelled(renderer, event, math.as_str())
}

/// Writes a reference to the footnote with this label, after its gap.
pub fn write_footnote_reference(
    renderer: &mut Renderer<'_>,
    alloc: Global,
    event: &OwnedEvent,
    label: &str,
) -> Result<(), AllocError>
    ensures stands { OnOk result (StandsAt renderer.new
        (spelled_on (event_view string_bytes event.now)
        (footnote_reference label.now) (levels_of renderer.old) (page_of renderer.old))) }
    ensures mark { renderer.new.at_mark ≡ renderer.old.at_mark }
{
    let reference = footnote_reference(alloc, label)?;
    write_spelled(renderer, event, reference.as_str())
}

/// Writes the box of a task list, checked or not, after its gap.
pub fn write_task_marker(
    renderer: &mut Renderer<'_>,
    event: &OwnedEvent,
    checked: bool,
) -> Result<(), AllocError>
    ensures stands { OnOk result (StandsAt renderer.new
        (spelled_on (event_view string_bytes event.now)
        (task_marker checked) (levels_of renderer.old) (page_of renderer.old))) }
    ensures mark { renderer.new.at_mark ≡ renderer.old.at_mark }
{
    write_spelled(renderer, event, task_marker(checked))
}

/// A reference to the footnote with this label.
fn footnote_reference(alloc: Global, label: &str) -> Result<String, AllocError>
    ensures { IfOk result (λ text. string_bytes text ≡ footnote_reference label.now) }
{
    format!(in alloc; "[^{label}]")
}

/// The box of a task list, checked or not, and a space.
fn task_marker(checked: bool) -> &'static str
    ensures { result.now ≡ task_marker checked }
{
    if checked { "[x] " } else { "[ ] " }
}

/// Mathematics within a line, in a table or not.
fn inline_math(alloc: Global, text: &str, in_table: bool) -> Result<String, AllocError>
    ensures { IfOk result (λ math. string_bytes math ≡ inline_math in_table text.now) }
{
    math_text(alloc, "$", text, in_table)
}

/// Mathematics that is shown on its own, in a table or not.
fn display_math(alloc: Global, text: &str, in_table: bool) -> Result<String, AllocError>
    ensures { IfOk result (λ math. string_bytes math ≡ display_math in_table text.now) }
{
    math_text(alloc, "$$", text, in_table)
}
