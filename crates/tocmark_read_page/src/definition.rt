//! Link reference definitions at the front of a paragraph (CommonMark 4.7).

ghost use Rattle.std.specs.Prelude.{◌≡◌, ◌++◌, OnOk, IfOk, map, length};
ghost use Rattle.std.specs.List.{flat_map};
ghost use Rattle.tocmark_read_page.specs.Definitions.{begins_definition, replaced, joined_line, joined, definition_view, found_view, define_once, line_count, lines_defined, definitions_from};
ghost use Rattle.tocmark_read_scan.specs.Repeat.{repeated};

use crate::piece::Piece;
use std::alloc::{AllocError, Global};
use tocmark_read_scan::basic::{byte_at, bytes_between};
use tocmark_read_scan::class::has_byte;
use tocmark_read_tokens::word::{Definition, definition_at};

/// A link reference definition as it is written: escapes and references are not resolved, and line
/// endings are line feeds.
#[derive(Drop)]
pub struct LinkDefinition {
    /// The bytes between its brackets.
    pub label: Vec<u8>,
    /// The bytes of its destination, without `<` and `>`.
    pub destination: Vec<u8>,
    /// The bytes of its title, without what is round it; empty where there is none.
    pub title: Vec<u8>,
}

/// Whether lines may begin with a definition.
#[tactic(auto, unfolding(crate::specs::Definitions::begins_definition))]
fn begins_definition(text: &[u8], lines: &[Piece]) -> bool
    ensures { result ≡ begins_definition text.now lines.now }
{
    match lines.first() {
        None => false,
        Some(line) => byte_at(text, line.start) == b'[',
    }
}

#[tactic(auto, unfolding(crate::specs::Definitions::replaced))]
fn push_byte(content: &mut Vec<u8>, byte: u8) -> Result<(), AllocError>
    ensures { OnOk result (content.new.items ≡ content.old.items ++ replaced byte) }
{
    if byte == 0 {
        content.push(0xef)?;
        content.push(0xbf)?;
        content.push(0xbd)?;
    } else {
        content.push(byte)?;
    }
    Ok(())
}

fn push_replaced(content: &mut Vec<u8>, bytes: &[u8]) -> Result<(), AllocError>
    ensures { OnOk result (content.new.items ≡ content.old.items ++ flat_map replaced bytes.now) }
{
    for byte in bytes {
        push_byte(content, *byte)?;
    }
    Ok(())
}

#[tactic(auto, using(crate::proofs::Zeros::without_zeros))]
fn push_bytes(content: &mut Vec<u8>, bytes: &[u8]) -> Result<(), AllocError>
    ensures { OnOk result (content.new.items ≡ content.old.items ++ flat_map replaced bytes.now) }
{
    if has_byte(bytes, 0) {
        push_replaced(content, bytes)
    } else {
        content.extend_from_slice(bytes)
    }
}

fn push_line(content: &mut Vec<u8>, text: &[u8], line: Piece) -> Result<(), AllocError>
    ensures { OnOk result (content.new.items ≡ content.old.items ++ joined_line text.now line) }
{
    push_bytes(content, bytes_between(text, line.start, line.end))?;
    content.push(b'\n')?;
    Ok(())
}

/// The number of bytes from the front of the first line to after the last one, and one more.
fn room_of(lines: &[Piece]) -> usize {
    match (lines.first(), lines.last()) {
        (Some(first), Some(last)) => last.next.saturating_sub(first.start).saturating_add(1),
        _ => 0,
    }
}

/// The lines, each with a line feed after it. U+FFFD replaces U+0000.
fn joined(alloc: Global, text: &[u8], lines: &[Piece]) -> Result<Vec<u8>, AllocError>
    ensures { IfOk result (λ v. v.items ≡ joined text.now lines.now) }
{
    let mut content = Vec::with_capacity(alloc, room_of(lines))?;
    for line in lines {
        push_line(&mut content, text, *line)?;
    }
    Ok(content)
}

fn copied(alloc: Global, bytes: &[u8]) -> Result<Vec<u8>, AllocError>
    ensures { IfOk result (λ v. v.items ≡ bytes.now) }
{
    let mut copy = Vec::new(alloc);
    copy.extend_from_slice(bytes)?;
    Ok(copy)
}

fn taken(alloc: Global, content: &[u8], found: Definition) -> Result<LinkDefinition, AllocError>
    ensures { IfOk result (λ d. definition_view d ≡ found_view content.now found) }
{
    Ok(LinkDefinition {
        label: copied(
            alloc,
            bytes_between(content, found.label.start, found.label.end),
        )?,
        destination: copied(
            alloc,
            bytes_between(content, found.destination.start, found.destination.end),
        )?,
        title: copied(
            alloc,
            bytes_between(content, found.title.start, found.title.end),
        )?,
    })
}

/// Takes the definition at a place, and gives the place after it.
#[tactic(auto, unfolding(crate::specs::Definitions::define_once))]
fn define_once(
    alloc: Global,
    content: &[u8],
    definitions: &mut Vec<LinkDefinition>,
    place: usize,
) -> Result<Option<usize>, AllocError>
    ensures { IfOk result (λ next.
        (map definition_view definitions.new.items, next)
        ≡ define_once content.now place (map definition_view definitions.old.items)) }
{
    match definition_at(content, place) {
        None => Ok(None),
        Some(found) => {
            definitions.push(taken(alloc, content, found)?)?;
            Ok(Some(found.next))
        }
    }
}

/// Takes the definitions at the front of a text, and gives the place after them.
#[tactic(auto, using(tocmark_read_scan::proofs::Repeats::repeated_zero, tocmark_read_scan::proofs::Repeats::repeated_stop, tocmark_read_scan::proofs::Repeats::repeated_more))]
fn define_all(
    alloc: Global,
    content: &[u8],
    definitions: &mut Vec<LinkDefinition>,
) -> Result<usize, AllocError>
    ensures { IfOk result (λ place.
        (map definition_view definitions.new.items, place)
        ≡ repeated (define_once content.now) (length content.now) 0
        (map definition_view definitions.old.items)) }
{
    let mut place = 0;
    for _steps_left in (0..content.len()).rev() {
        match define_once(alloc, content, definitions, place)? {
            None => return Ok(place),
            Some(next) => place = next,
        }
    }
    Ok(place)
}

/// The number of line feeds before a place.
fn line_count(content: &[u8], place: usize) -> usize
    ensures { result ≡ line_count content.now place }
{
    content
        .iter()
        .take(place)
        .filter(|byte| **byte == b'\n')
        .count()
}

/// Takes the definitions at the front of lines. The first line begins with a bracket.
#[cold]
#[inline(never)]
fn define_lines(
    alloc: Global,
    text: &[u8],
    lines: &[Piece],
    definitions: &mut Vec<LinkDefinition>,
) -> Result<usize, AllocError>
    ensures { IfOk result (λ count.
        (map definition_view definitions.new.items, count)
        ≡ lines_defined text.now lines.now (map definition_view definitions.old.items)) }
{
    let content = joined(alloc, text, lines)?;
    let place = define_all(alloc, &content, definitions)?;
    Ok(line_count(&content, place))
}

/// Puts the definitions at the front of a paragraph's lines after those so far, and gives the number
/// of their lines. At an `Err` some of them may be there.
#[tactic(auto, unfolding(crate::specs::Definitions::definitions_from))]
pub(crate) fn take_definitions(
    alloc: Global,
    text: &[u8],
    lines: &[Piece],
    definitions: &mut Vec<LinkDefinition>,
) -> Result<usize, AllocError>
    ensures { IfOk result (λ count.
        (map definition_view definitions.new.items, count)
        ≡ definitions_from text.now lines.now (map definition_view definitions.old.items)) }
{
    if begins_definition(text, lines) {
        define_lines(alloc, text, lines, definitions)
    } else {
        Ok(0)
    }
}
