//! Tables: what opens and what closes them and their parts, with the row of dashes below a head.

ghost use Rattle.std.specs.Prelude.{◌≡◌, string_bytes, OnOk, [], codes, max, IfOk, List, ◌++◌, length, replicate, IfSome};
ghost use Rattle.tocmark_event.specs.Options.{options_view};
ghost use Rattle.tocmark_event.specs.View.{tag_view, TableCell, TableHead, Table};
ghost use Rattle.tocmark_spelling.specs.Closing.{alignments_of, headers_of, alignment_row, close_block, close_head, close_row, close_cell, least_dashes, dashes, alignment_cells};
ghost use Rattle.tocmark_spelling.specs.Kinds.{is_table};
ghost use Rattle.tocmark_spelling.specs.Opening.{entered, open_cell, open_head};
ghost use Rattle.tocmark_spelling.specs.Page.{Headers, written, Width};
ghost use Rattle.tocmark_spelling.specs.Places.{is_directly_in, width_of};
ghost use Rattle.tocmark_spelling.specs.Words.{hyphen};
ghost use Rattle.tocmark_write_blocks.specs.Leads.{Closes, Leads, row_in};
ghost use Rattle.tocmark_write_containers.specs.FrameOf.{content_view, level_of};
ghost use Rattle.tocmark_write_renderer.specs.WriterOf.{levels_of, page_of, Arrives, Comes};
ghost use Rattle.tocmark_write_texts.specs.Texts.{Grows};

use std::alloc::{AllocError, Global};
use tocmark_event::event::{Alignment, TagEnd, TagOf};
use tocmark_event::options::{Error, Options};
use tocmark_spelling::kinds::is_table;
use tocmark_spelling::trail::Last;
use tocmark_write_blocks::paragraphs::open_plain;
use tocmark_write_blocks::trail::end_block;
use tocmark_write_containers::content::OpeningChoice;
use tocmark_write_containers::frame::Frame;
use tocmark_write_containers::prefix::Prefix;
use tocmark_write_renderer::renderer::Renderer;

/// Opens a table, which writes nothing and keeps the widths of its headers; there is none so far.
pub fn open_table<'a>(
    renderer: &mut Renderer<'a>,
    alloc: Global,
    tag: &'a TagOf<String>,
) -> Result<(), AllocError>
    ensures stands { OnOk result (Arrives renderer.new (entered
        (tag_view string_bytes tag.entry.now) [] (Headers [])
        (levels_of renderer.old) (page_of renderer.old))) }
    ensures mark { renderer.new.at_mark ≡ renderer.old.at_mark }
{
    renderer.push_frame(tag, Prefix::Empty, OpeningChoice::Headers(Vec::new(alloc)))
}

/// Whether the innermost container is a table.
fn is_directly_in_table(renderer: &Renderer<'_>) -> bool
    ensures { result ≡ is_directly_in is_table (levels_of renderer.now) }
{
    match renderer.innermost() {
        None => false,
        Some(frame) => is_table(frame.tag),
    }
}

/// Opens a table's head, which writes nothing.
///
/// It fails if memory runs out, or if the innermost container is no table.
pub fn open_head<'a>(renderer: &mut Renderer<'a>, tag: &'a TagOf<String>) -> Result<(), Error>
    requires tag { tag_view string_bytes tag.now ≡ TableHead }
    ensures comes { Comes result renderer.new
        (open_head (levels_of renderer.old) (page_of renderer.old)) }
    ensures mark { renderer.new.at_mark ≡ renderer.old.at_mark }
{
    if !is_directly_in_table(renderer) {
        return Err(Error::UnexpectedEvent);
    }
    open_plain(renderer, tag)?;
    Ok(())
}

/// Writes the bar before a cell, and opens the cell.
fn enter_cell<'a>(renderer: &mut Renderer<'a>, tag: &'a TagOf<String>) -> Result<(), AllocError>
    ensures stands { OnOk result (Arrives renderer.new (entered
        (tag_view string_bytes tag.entry.now) [] (Width 0) (levels_of renderer.old)
        (written (levels_of renderer.old) (codes "|") (page_of renderer.old)))) }
    ensures mark { renderer.new.at_mark ≡ renderer.old.at_mark }
{
    renderer.write("|")?;
    renderer.push_frame(tag, Prefix::Empty, OpeningChoice::Width(0))
}

/// Opens a cell, after the bar before it.
///
/// It fails if memory runs out, or if no table is open.
pub fn open_cell<'a>(renderer: &mut Renderer<'a>, tag: &'a TagOf<String>) -> Result<(), Error>
    requires tag { tag_view string_bytes tag.now ≡ TableCell }
    ensures comes { Comes result renderer.new
        (open_cell (levels_of renderer.old) (page_of renderer.old)) }
    ensures mark { renderer.new.at_mark ≡ renderer.old.at_mark }
{
    if !renderer.outside().in_table {
        return Err(Error::UnexpectedEvent);
    }
    enter_cell(renderer, tag)?;
    Ok(())
}

/// A table's end.
pub fn close_table(renderer: &mut Renderer<'_>, options: &Options<'_>)
    ensures stands { (alignments : List Alignment) → Leads renderer.old renderer.new
        (close_block (Table alignments) (max (options_view options.now).newlines_after_table 2)) }
    ensures mark { renderer.new.at_mark ≡ renderer.old.at_mark }
{
    end_block(renderer, TagEnd::Table, options.newlines_after_table.max(2));
}

/// The alignments of a table's columns; none for another container.
fn alignments_of(tag: &TagOf<String>) -> &[Alignment]
    ensures { result.now ≡ alignments_of (tag_view string_bytes tag.now) }
{
    match tag {
        TagOf::Table(alignments) => alignments,
        _ => &[],
    }
}

/// The widths of a table's headers, in characters; none for another container.
fn headers_of(content: &OpeningChoice) -> &[usize]
    ensures { result.now ≡ headers_of (content_view content.now) }
{
    match content {
        OpeningChoice::Headers(widths) => widths,
        _ => &[],
    }
}

/// The row of dashes in a table.
fn row_in(alloc: Global, table: &Frame<'_>) -> Result<String, AllocError>
    ensures { IfOk result (λ row. string_bytes row ≡ row_in (level_of table.now)) }
{
    alignment_row(alloc, alignments_of(table.tag), headers_of(&table.content))
}

/// The row of dashes in the innermost container.
fn innermost_row(renderer: &Renderer<'_>, alloc: Global) -> Result<String, AllocError>
    ensures { IfOk result (λ row. string_bytes row ≡ alignment_row (levels_of renderer.now)) }
{
    match renderer.innermost() {
        None => String::from_str(alloc, "|"),
        Some(table) => row_in(alloc, table),
    }
}

/// The end of a table's head, with the row of dashes below it.
pub fn close_head(renderer: &mut Renderer<'_>, alloc: Global) -> Result<(), AllocError>
    ensures stands { Closes result renderer.old renderer.new close_head }
    ensures mark { renderer.new.at_mark ≡ renderer.old.at_mark }
{
    let row = innermost_row(renderer, alloc)?;
    let text = format!(in alloc; "|\n{row}")?;
    renderer.write(text.as_str())?;
    end_block(renderer, TagEnd::TableHead, 1);
    Ok(())
}

/// The end of a table's row.
pub fn close_row(renderer: &mut Renderer<'_>) -> Result<(), AllocError>
    ensures stands { Closes result renderer.old renderer.new close_row }
    ensures mark { renderer.new.at_mark ≡ renderer.old.at_mark }
{
    renderer.write("|")?;
    end_block(renderer, TagEnd::TableRow, 1);
    Ok(())
}

/// The width of a cell, in characters; 0 for another container.
fn width_of(content: &OpeningChoice) -> usize
    ensures { result ≡ width_of (content_view content.now) }
{
    match content {
        OpeningChoice::Width(width) => *width,
        _ => 0,
    }
}

/// A cell's end; the nearest open table keeps its width.
pub fn close_cell(renderer: &mut Renderer<'_>, content: &OpeningChoice) -> Result<(), AllocError>
    ensures stands { Closes result renderer.old renderer.new
        (close_cell (content_view content.now)) }
    ensures mark { renderer.new.at_mark ≡ renderer.old.at_mark }
{
    renderer.set_last(Last::BlockEnd(TagEnd::TableCell));
    renderer.add_header(width_of(content))
}

/// The fewest characters below a header of this alignment: a dash and its colons.
pub fn least_dashes(alignment: Alignment) -> usize
    ensures { result ≡ least_dashes alignment }
{
    match alignment {
        Alignment::None => 1,
        Alignment::Left => 2,
        Alignment::Center => 3,
        Alignment::Right => 2,
    }
}

fn push_hyphens(row: &mut String, count: usize) -> Result<(), AllocError>
    ensures { Grows result row.old row.new (replicate count hyphen) }
{
    for _place in 0..count {
        row.push_str("-")?;
    }
    Ok(())
}

/// Puts so many dashes after a row, with a colon in place of one at each end that the alignment
/// names.
pub fn push_dashes(row: &mut String, alignment: Alignment, count: usize) -> Result<(), AllocError>
    ensures { Grows result row.old row.new (dashes alignment count) }
{
    match alignment {
        Alignment::None => push_hyphens(row, count),
        Alignment::Left => {
            row.push_str(":")?;
            push_hyphens(row, count.saturating_sub(1))
        }
        Alignment::Right => {
            push_hyphens(row, count.saturating_sub(1))?;
            row.push_str(":")
        }
        Alignment::Center => {
            row.push_str(":")?;
            push_hyphens(row, count.saturating_sub(2))?;
            row.push_str(":")
        }
    }
}

fn dash_count(alignment: Alignment, width: usize) -> usize
    ensures { result ≡ max width (least_dashes alignment) }
{
    width.max(least_dashes(alignment))
}

/// How many bytes the cells of the row have; none if that is no `usize`.
fn cells_size(alignments: &[Alignment], widths: &[usize]) -> Option<usize>
    ensures { IfSome result (λ size. size ≡ length (alignment_cells alignments.now widths.now)) }
{
    let mut size = 0usize;
    for (alignment, width) in alignments.iter().zip(widths.iter()) {
        let cell = dash_count(*alignment, *width).checked_add(1)?;
        size = size.checked_add(cell)?;
    }
    Some(size)
}

fn push_cells(
    row: &mut String,
    alignments: &[Alignment],
    widths: &[usize],
) -> Result<(), AllocError>
    ensures { Grows result row.old row.new (alignment_cells alignments.now widths.now) }
{
    for (alignment, width) in alignments.iter().zip(widths.iter()) {
        row.push_str("|")?;
        push_dashes(row, *alignment, dash_count(*alignment, *width))?;
    }
    Ok(())
}

/// The row of dashes below a table's head: for each alignment and the width of its header, in
/// characters, in order until one list ends, a bar and as many dashes, but at least as many as the
/// alignment needs; and then a bar. Room for all of it is made before its first byte.
///
/// It fails if memory runs out, or if no text can be as long.
pub fn alignment_row(
    alloc: Global,
    alignments: &[Alignment],
    widths: &[usize],
) -> Result<String, AllocError>
    ensures { IfOk result (λ row.
        string_bytes row ≡ alignment_cells alignments.now widths.now ++ codes "|") }
{
    let size = cells_size(alignments, widths).ok_or(AllocError)?;
    let mut row = String::with_capacity(alloc, size.checked_add(1).ok_or(AllocError)?)?;
    push_cells(&mut row, alignments, widths)?;
    row.push_str("|")?;
    Ok(row)
}
