//! The content of a table's cell, with the places in the source that it stands for.

ghost use Rattle.std.specs.Prelude.{◌≡◌, ◌==◌, ◌||◌, IfOk, IfSome, length, reverse, take_while};
ghost use Rattle.tocmark_read_scan.specs.Content.{pasted_view, content_view};
ghost use Rattle.tocmark_read_scan.specs.TableCell.{is_left_out, cell_step, cell_to, cell_bytes, cell_content};

use crate::basic::{byte_at, bytes_between};
use crate::class::{Class, has_byte, run_end};
use crate::content::{Content, Pasted};
use std::alloc::{AllocError, Global};

/// Whether a byte is a backslash just before a bar.
#[tactic(auto, unfolding(crate::specs::TableCell::is_left_out))]
fn is_left_out(source: &[u8], place: usize, byte: u8) -> bool
    ensures { result ≡ is_left_out source.now place byte }
{
    byte == b'\\' && byte_at(source, place.saturating_add(1)) == b'|'
}

/// Writes the byte at a place, and gives the next one.
#[tactic(auto, unfolding(crate::specs::TableCell::cell_step))]
fn put_cell_byte(
    content: &mut Pasted,
    source: &[u8],
    place: usize,
    byte: u8,
) -> Result<usize, AllocError>
    ensures { IfOk result (λ next.
        (next, pasted_view content.new)
        ≡ cell_step source.now (place, pasted_view content.old) byte) }
{
    if !is_left_out(source, place, byte) {
        content.put_byte(byte, place)?;
    }
    Ok(place.saturating_add(1))
}

fn trailing_blanks(bytes: &[u8]) -> usize
    ensures { result ≡ length (take_while (λ b. (b == 32) || (b == 9)) (reverse bytes.now)) }
{
    bytes
        .iter()
        .rev()
        .take_while(|byte| **byte == b' ' || **byte == b'\t')
        .count()
}

/// Where the content of a cell ends.
fn cell_to(source: &[u8], from: usize, end: usize) -> usize
    ensures { result ≡ cell_to source.now from end }
{
    end.saturating_sub(trailing_blanks(bytes_between(source, from, end)))
}

/// The bytes of a range of a source, without a backslash that is just before a bar. U+FFFD replaces
/// U+0000.
fn pasted_cell(alloc: Global, source: &[u8], from: usize, to: usize) -> Result<Pasted, AllocError>
    ensures { IfOk result (λ c. pasted_view c ≡ cell_bytes source.now from to) }
{
    let mut content = Pasted {
        bytes: Vec::new(alloc),
        places: Vec::new(alloc),
    };
    let mut place = from;
    for byte in bytes_between(source, from, to) {
        place = put_cell_byte(&mut content, source, place, *byte)?;
    }
    Ok(content)
}

/// The same, if the source has these bytes as they are: no backslash before a bar, no U+0000.
#[tactic(auto, using(crate::proofs::Cells::whole_bytes))]
fn whole_cell<'a>(source: &'a [u8], from: usize, to: usize) -> Option<Content<'a>>
    ensures { IfSome result (λ c. content_view c ≡ cell_bytes source.now from to) }
{
    let bytes = bytes_between(source, from, to);
    if has_byte(bytes, 0) || has_byte(bytes, b'\\') {
        None
    } else {
        Some(Content::Whole(bytes, from))
    }
}

/// The content of the cell between two places of a source, without blanks round it and without each
/// backslash just before a bar; U+FFFD stands for U+0000.
#[tactic(auto, unfolding(crate::specs::TableCell::cell_content))]
pub fn cell_content<'a>(
    alloc: Global,
    source: &'a [u8],
    start: usize,
    end: usize,
) -> Result<Content<'a>, AllocError>
    ensures { IfOk result (λ c. content_view c ≡ cell_content source.now start end) }
{
    let from = run_end(source, start, Class::Blank);
    let to = cell_to(source, from, end);
    match whole_cell(source, from, to) {
        Some(content) => Ok(content),
        None => Ok(Content::Pasted(pasted_cell(alloc, source, from, to)?)),
    }
}
