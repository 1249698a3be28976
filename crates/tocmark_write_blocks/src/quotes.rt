//! Quotes: what opens and what closes them, with the texts of their markers.

ghost use Rattle.std.specs.Prelude.{◌≡◌, ◌&&◌, if◌then◌else◌, is_none, string_bytes, OnOk, true};
ghost use Rattle.tocmark_event.specs.Options.{options_view};
ghost use Rattle.tocmark_event.specs.View.{tag_view, BlockQuote};
ghost use Rattle.tocmark_spelling.specs.Closing.{with_pending_quote, close_quote};
ghost use Rattle.tocmark_spelling.specs.Opening.{open_quote, quote_mark, without_space};
ghost use Rattle.tocmark_spelling.specs.Page.{with_owed, written};
ghost use Rattle.tocmark_write_blocks.specs.Leads.{Closes, OnPage};
ghost use Rattle.tocmark_write_renderer.specs.WriterOf.{levels_of, page_of, Arrives, Stands};

use crate::new_line::begin_new_line;
use crate::trail::end_block;
use std::alloc::{AllocError, Global};
use tocmark_event::event::{BlockQuoteKind, TagEnd, TagOf};
use tocmark_event::options::Options;
use tocmark_write_containers::content::OpeningChoice;
use tocmark_write_containers::prefix::Prefix;
use tocmark_write_renderer::renderer::Renderer;

/// Writes a quote's marker, right after an item's marker or not, and owes what is after it.
fn write_mark(
    renderer: &mut Renderer<'_>,
    kind: Option<BlockQuoteKind>,
    at_item: bool,
) -> Result<(), AllocError>
    ensures stands { OnOk result (Stands renderer.new (levels_of renderer.old)
        (with_owed (if at_item && is_none kind then 0 else 1)
        (written (levels_of renderer.old) (without_space at_item (quote_mark kind))
        (page_of renderer.old)))) }
    ensures mark { renderer.new.at_mark ≡ renderer.old.at_mark }
{
    renderer.write(quote_mark(kind, at_item))?;
    renderer.owe(quote_owes(kind, at_item));
    Ok(())
}

/// Opens a quote of this kind: its marker is on a line of its own, but after an item's marker.
pub fn open_quote<'a>(
    renderer: &mut Renderer<'a>,
    tag: &'a TagOf<String>,
    kind: Option<BlockQuoteKind>,
) -> Result<(), AllocError>
    requires tag { tag_view string_bytes tag.now ≡ BlockQuote kind }
    ensures stands { OnOk result (Arrives renderer.new
        (open_quote kind (levels_of renderer.old) (page_of renderer.old))) }
    ensures mark { renderer.new.at_mark ≡ renderer.old.at_mark }
{
    let at_item = renderer.at_item_start();
    begin_new_line(renderer)?;
    write_mark(renderer, kind, at_item)?;
    renderer.push_frame(tag, Prefix::Quote, OpeningChoice::Plain)
}

/// Inside an item a quote leaves the line with which it can go on.
fn leave_quote_line(renderer: &mut Renderer<'_>, alloc: Global) -> Result<(), AllocError>
    ensures stands { OnOk result (OnPage renderer.old renderer.new with_pending_quote) }
    ensures mark { renderer.new.at_mark ≡ renderer.old.at_mark }
{
    if !renderer.outside().in_item {
        return Ok(());
    }
    let prefix = renderer.prefix();
    let line = format!(in alloc; "{prefix} >")?;
    renderer.set_quote_line(Some(line));
    Ok(())
}

/// The end of a quote of this kind.
pub fn close_quote(
    renderer: &mut Renderer<'_>,
    alloc: Global,
    options: &Options<'_>,
    kind: Option<BlockQuoteKind>,
) -> Result<(), AllocError>
    ensures stands { Closes result renderer.old renderer.new
        (close_quote (options_view options.now) (BlockQuote kind)) }
    ensures mark { renderer.new.at_mark ≡ renderer.old.at_mark }
{
    leave_quote_line(renderer, alloc)?;
    end_block(
        renderer,
        TagEnd::BlockQuote(kind),
        options.newlines_after_blockquote.max(2),
    );
    Ok(())
}

fn whole_mark(kind: Option<BlockQuoteKind>) -> &'static str
    ensures { result.now ≡ quote_mark kind }
{
    match kind {
        None => " > ",
        Some(BlockQuoteKind::Note) => " > [!NOTE]",
        Some(BlockQuoteKind::Tip) => " > [!TIP]",
        Some(BlockQuoteKind::Important) => " > [!IMPORTANT]",
        Some(BlockQuoteKind::Warning) => " > [!WARNING]",
        Some(BlockQuoteKind::Caution) => " > [!CAUTION]",
    }
}

fn mark_at_item(kind: Option<BlockQuoteKind>) -> &'static str
    ensures { result.now ≡ without_space true (quote_mark kind) }
{
    match kind {
        None => "> ",
        Some(BlockQuoteKind::Note) => "> [!NOTE]",
        Some(BlockQuoteKind::Tip) => "> [!TIP]",
        Some(BlockQuoteKind::Important) => "> [!IMPORTANT]",
        Some(BlockQuoteKind::Warning) => "> [!WARNING]",
        Some(BlockQuoteKind::Caution) => "> [!CAUTION]",
    }
}

/// A quote's marker on its first line, with its kind if it has one; right after an item's marker it
/// has no space at its front.
pub fn quote_mark(kind: Option<BlockQuoteKind>, at_item_start: bool) -> &'static str
    ensures { result.now ≡ without_space at_item_start (quote_mark kind) }
{
    if at_item_start {
        mark_at_item(kind)
    } else {
        whole_mark(kind)
    }
}

/// The line feeds that a quote's first line owes to what is in the quote: none right after an
/// item's marker where the quote has no kind, else one.
pub fn quote_owes(kind: Option<BlockQuoteKind>, at_item_start: bool) -> usize
    ensures { result ≡ (if at_item_start && is_none kind then 0 else 1) }
{
    if at_item_start && kind.is_none() {
        0
    } else {
        1
    }
}
