//! Leaves whose lines have no mark in any reading: each line is a text.

ghost use Rattle.std.specs.Prelude.{◌≡◌, ◌&&◌, OnOk, nat_lt};
ghost use Rattle.std.specs.List.{fold, list_all};
ghost use Rattle.tocmark_reader.specs.Emitted.{emission_view, step};
ghost use Rattle.tocmark_reader.specs.QuietLines.{is_text_byte, is_quiet_line, are_quiet_from, are_quiet_lines, further_nodes, all_further, quiet_nodes};

use crate::emit::Emission;
use crate::plain::last_byte;
use crate::searched::SearchedText;
use std::alloc::{AllocError, Global};
use tocmark_event::event::Event;
use tocmark_read_page::piece::Piece;
use tocmark_read_scan::basic::bytes_between;
use tocmark_read_scan::class::{Class, is_in};

// Each byte that is one of a text in each reading is as a comma, but for U+0000.
static TEXT_BYTES: [u8; 256] = *b"\
    z,,,,,,,,,\n,,,,,,,,,,,,,,,,,,,,,\
    ,!,,$,&,,,*,,,,,,,,,,,,,,,,,<,,,\
    ,,,,,,,,,,,,,,,,,,,,,,,,,,,[\\]^_\
    `,,,,,,,,,,,,,,,,,,,,,,,,,,,,,~,\
    ,,,,,,,,,,,,,,,,,,,,,,,,,,,,,,,,\
    ,,,,,,,,,,,,,,,,,,,,,,,,,,,,,,,,\
    ,,,,,,,,,,,,,,,,,,,,,,,,,,,,,,,,\
    ,,,,,,,,,,,,,,,,,,,,,,,,,,,,,,,,";

/// Whether a byte is one of a text in each reading, and not U+0000.
fn is_text_byte(byte: u8) -> bool
    ensures { result ≡ is_text_byte byte }
{
    TEXT_BYTES[byte as usize] == b','
}

fn are_text_bytes(bytes: &[u8]) -> bool
    ensures { result ≡ list_all is_text_byte bytes.now }
{
    bytes.iter().all(|byte| is_text_byte(*byte))
}

/// Whether a line has such bytes alone, and doesn't end in white space.
#[tactic(auto, unfolding(crate::specs::QuietLines::is_quiet_line))]
fn is_quiet_line(text: &[u8], line: Piece) -> bool
    ensures { result ≡ is_quiet_line text.now line }
{
    let bytes = bytes_between(text, line.start, line.end);
    are_text_bytes(bytes) && !is_in(Class::White, last_byte(bytes))
}

/// Whether a line is a text, and another one begins after it.
fn goes_on(text: &[u8], line: Piece, next: Piece) -> bool
    ensures { result ≡ (is_quiet_line text.now line && nat_lt line.end next.start) }
{
    is_quiet_line(text, line) && line.end < next.start
}

fn are_quiet_from(text: &[u8], line: Piece, others: &[Piece]) -> bool
    ensures { result ≡ are_quiet_from text.now line others.now }
{
    let mut last = line;
    for next in others {
        if !goes_on(text, last, *next) {
            return false;
        }
        last = *next;
    }
    is_quiet_line(text, last)
}

/// Whether a leaf has lines that have no mark in any reading, each after the one before.
pub fn are_quiet_lines(text: &[u8], lines: &[Piece]) -> bool
    ensures { result ≡ are_quiet_lines text.now lines.now }
{
    match lines.split_first() {
        None => false,
        Some((first, others)) => are_quiet_from(text, *first, others),
    }
}

/// Writes a line after another one, with the soft break between them.
fn write_further_line(
    alloc: Global,
    out: &mut Emission,
    text: &SearchedText<'_>,
    depth: usize,
    last: Piece,
    line: Piece,
) -> Result<(), AllocError>
    ensures { OnOk result (emission_view out.new
        ≡ fold (step text.now) (emission_view out.old) (further_nodes depth last line)) }
{
    out.write(text, depth, Event::SoftBreak, last.end, last.next)?;
    out.write_source(alloc, text, depth, line.start, line.end)
}

/// Writes lines after another one.
fn write_further_lines(
    alloc: Global,
    out: &mut Emission,
    text: &SearchedText<'_>,
    depth: usize,
    first: Piece,
    lines: &[Piece],
) -> Result<(), AllocError>
    ensures { OnOk result (emission_view out.new
        ≡ fold (step text.now) (emission_view out.old) (all_further depth first lines.now)) }
{
    let mut last = first;
    for line in lines {
        write_further_line(alloc, out, text, depth, last, *line)?;
        last = *line;
    }
    Ok(())
}

/// Writes a text for each line, and a soft break between two.
pub fn write_quiet_lines(
    alloc: Global,
    out: &mut Emission,
    text: &SearchedText<'_>,
    depth: usize,
    lines: &[Piece],
) -> Result<(), AllocError>
    ensures { OnOk result (emission_view out.new
        ≡ fold (step text.now) (emission_view out.old) (quiet_nodes depth lines.now)) }
{
    match lines.split_first() {
        None => Ok(()),
        Some((first, others)) => {
            out.write_source(alloc, text, depth, first.start, first.end)?;
            write_further_lines(alloc, out, text, depth, *first, others)
        }
    }
}
