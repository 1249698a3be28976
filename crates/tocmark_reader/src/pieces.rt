//! The pieces of a text that are a leaf's lines.

ghost use Rattle.std.specs.Prelude.{◌≡◌, map, OnOk};
ghost use Rattle.tocmark_reader.specs.Pages.{pieces_of, content_line};

use std::alloc::AllocError;
use tocmark_read_page::piece::Piece;
use tocmark_read_scan::content::ContentLine;

/// The pieces of a range, none where it is none of the list.
pub(crate) fn pieces_of(pieces: &[Piece], first: usize, last: usize) -> &[Piece]
    ensures { result.now ≡ pieces_of pieces.now first last }
{
    if first <= last && last <= pieces.len() {
        &pieces[first..last]
    } else {
        &[]
    }
}

#[tactic(auto, unfolding(crate::specs::Pages::content_line))]
fn content_line(line: Piece) -> ContentLine
    ensures { result ≡ content_line line }
{
    ContentLine {
        start: line.start,
        end: line.end,
        next: line.next,
    }
}

/// Writes the lines of a leaf over those of another one.
pub(crate) fn content_lines(
    lines: &mut Vec<ContentLine>,
    pieces: &[Piece],
) -> Result<(), AllocError>
    ensures { OnOk result (lines.new.items ≡ map content_line pieces.now) }
{
    lines.clear();
    for line in pieces {
        lines.push(content_line(*line))?;
    }
    Ok(())
}
