//! The lines of code and HTML as events.

ghost use Rattle.std.specs.Prelude.{◌≡◌, OnOk};
ghost use Rattle.std.specs.List.{fold};
ghost use Rattle.tocmark_reader.specs.Emitted.{emission_view, step};
ghost use Rattle.tocmark_reader.specs.Pages.{node, space_nodes, line_item, line_nodes, lines_nodes};

use crate::emit::Emission;
use crate::searched::SearchedText;
use crate::words::{part_of, spaces_text};
use std::alloc::{AllocError, Global};
use tocmark_event::event::{CowStr, Event};
use tocmark_read_page::piece::Piece;

/// Writes the spaces that are left of a partly used tab.
#[tactic(auto, unfolding(crate::specs::Pages::space_nodes))]
fn write_spaces(
    alloc: Global,
    out: &mut Emission,
    text: &SearchedText<'_>,
    depth: usize,
    line: Piece,
) -> Result<(), AllocError>
    ensures { OnOk result (emission_view out.new
        ≡ fold (step text.now) (emission_view out.old) (space_nodes depth line)) }
{
    if 0 < line.spaces {
        let spaces = spaces_text(alloc, line.spaces)?;
        out.write_text(
            text,
            depth,
            spaces,
            line.start.saturating_sub(1),
            line.start,
        )?;
    }
    Ok(())
}

/// Writes what a line of code or HTML says.
#[tactic(auto, unfolding(crate::specs::Pages::line_item))]
fn write_words(
    alloc: Global,
    out: &mut Emission,
    text: &SearchedText<'_>,
    html: bool,
    depth: usize,
    line: Piece,
) -> Result<(), AllocError>
    ensures { OnOk result (emission_view out.new ≡ step text.now (emission_view out.old)
        (node depth (line_item text.now html line) line.start line.next)) }
{
    let feed = line.end < line.next;
    let words = part_of(alloc, text, line.start, line.end, feed)?;
    if !html {
        return out.write_text(text, depth, words, line.start, line.next);
    }
    let event = Event::Html(CowStr::Owned(words));
    out.write(text, depth, event, line.start, line.next)
}

/// Writes a line of code or HTML.
#[tactic(auto, unfolding(crate::specs::Pages::line_nodes))]
fn write_line(
    alloc: Global,
    out: &mut Emission,
    text: &SearchedText<'_>,
    html: bool,
    depth: usize,
    line: Piece,
) -> Result<(), AllocError>
    ensures { OnOk result (emission_view out.new
        ≡ fold (step text.now) (emission_view out.old) (line_nodes text.now html depth line)) }
{
    write_spaces(alloc, out, text, depth, line)?;
    if line.start < line.next {
        write_words(alloc, out, text, html, depth, line)?;
    }
    Ok(())
}

/// Writes lines of code or HTML after what is written.
pub(crate) fn write_lines(
    alloc: Global,
    out: &mut Emission,
    text: &SearchedText<'_>,
    html: bool,
    depth: usize,
    lines: &[Piece],
) -> Result<(), AllocError>
    ensures { OnOk result (emission_view out.new
        ≡ fold (step text.now) (emission_view out.old)
        (lines_nodes text.now html depth lines.now)) }
{
    for line in lines {
        write_line(alloc, out, text, html, depth, *line)?;
    }
    Ok(())
}
