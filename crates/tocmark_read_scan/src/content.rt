//! The text of a paragraph or a heading, with the places in the source that it stands for.

ghost use Rattle.std.specs.Prelude.{◌≡◌, ◌++◌, OnOk, IfOk, IfSome, drop, length, slice_get, unwrap_or};
ghost use Rattle.tocmark_read_scan.specs.Repeat.{iterated};
ghost use Rattle.tocmark_read_scan.specs.Content.{pasted_view, content_view, ranges_of, put, put_byte, put_bytes, put_line, before_white, inked, room_of, joined, is_behind, end_within, end_behind, content_of};

use crate::basic::{byte_at, bytes_between};
use crate::class::{Class, has_byte, is_in};
use std::alloc::{AllocError, Global};

/// A line of a paragraph or a heading: where its text begins and ends in the source, and the place
/// after its line ending.
#[derive(Clone, Copy)]
pub struct ContentLine {
    pub start: usize,
    pub end: usize,
    pub next: usize,
}

/// Bytes, and for each of them the range of the source that it stands for.
#[derive(Drop)]
pub struct Pasted {
    pub bytes: Vec<u8>,
    pub places: Vec<(usize, usize)>,
}

/// A text whose lines are joined by line feeds, and for each of its bytes the range of the source that
/// it stands for.
#[derive(Drop)]
pub enum Content<'a> {
    /// Bytes that are so in the source, from a place on.
    Whole(&'a [u8], usize),
    Pasted(Pasted),
}

/// The range of the byte at a place of a text that is in the source from a place on.
#[tactic(auto, using(crate::proofs::Whole::range_at, crate::proofs::Whole::range_past))]
fn range_in(text: &[u8], start: usize, place: usize) -> (usize, usize)
    ensures { result ≡ unwrap_or (slice_get (ranges_of start text.now) place) (0, 0) }
{
    if place < text.len() {
        let at = start.saturating_add(place);
        (at, at.saturating_add(1))
    } else {
        (0, 0)
    }
}

impl Content<'_> {
    /// The bytes of the text.
    pub fn bytes(&self) -> &[u8]
        ensures { result.now ≡ (content_view self.now).bytes }
    {
        match self {
            Content::Whole(text, _) => text,
            Content::Pasted(joined) => &joined.bytes,
        }
    }

    /// The range of the source that the byte at a place stands for; an empty one past the end.
    pub fn range(&self, place: usize) -> (usize, usize)
        ensures { result ≡ unwrap_or (slice_get (content_view self.now).places place) (0, 0) }
    {
        match self {
            Content::Whole(text, start) => range_in(text, *start, place),
            Content::Pasted(joined) => joined.places.get(place).copied().unwrap_or((0, 0)),
        }
    }
}

impl Pasted {
    #[tactic(auto, unfolding(crate::specs::Content::put))]
    fn put(&mut self, byte: u8, start: usize, end: usize) -> Result<(), AllocError>
        ensures { OnOk result (pasted_view self.new ≡ put byte start end (pasted_view self.old)) }
    {
        self.bytes.push(byte)?;
        self.places.push((start, end))?;
        Ok(())
    }

    /// Writes the byte at a place of the source: U+FFFD for a zero.
    #[tactic(auto, unfolding(crate::specs::Content::put_byte))]
    pub fn put_byte(&mut self, byte: u8, start: usize) -> Result<(), AllocError>
        ensures { OnOk result (pasted_view self.new
            ≡ put_byte byte start (pasted_view self.old)) }
    {
        let end = start.saturating_add(1);
        if byte == 0 {
            self.put(0xEF, start, end)?;
            self.put(0xBF, start, end)?;
            self.put(0xBD, start, end)
        } else {
            self.put(byte, start, end)
        }
    }

    /// Writes the bytes of a line and a line feed.
    #[tactic(auto, unfolding(crate::specs::Content::put_line))]
    fn put_line(&mut self, source: &[u8], line: ContentLine) -> Result<(), AllocError>
        ensures { OnOk result (pasted_view self.new
            ≡ put_line source.now (pasted_view self.old) line) }
    {
        self.put_bytes(bytes_between(source, line.start, line.end), line.start)?;
        self.put(b'\n', line.end, line.next)
    }

    /// Writes bytes that are in the source from a place on, U+FFFD for each zero.
    fn put_each(&mut self, bytes: &[u8], start: usize) -> Result<(), AllocError>
        ensures { OnOk result (pasted_view self.new
            ≡ put_bytes start (pasted_view self.old) bytes.now) }
    {
        let mut place = start;
        for byte in bytes {
            self.put_byte(*byte, place)?;
            place = place.saturating_add(1);
        }
        Ok(())
    }

    /// Writes bytes that are in the source from a place on, zeros as they are.
    fn put_whole(&mut self, bytes: &[u8], start: usize) -> Result<(), AllocError>
        ensures { OnOk result (pasted_view self.new
            ≡ record {
              bytes = (pasted_view self.old).bytes ++ bytes.now;
              places = (pasted_view self.old).places ++ ranges_of start bytes.now;
            }) }
    {
        self.bytes.extend_from_slice(bytes)?;
        let mut place = start;
        for _byte in bytes {
            let next = place.saturating_add(1);
            self.places.push((place, next))?;
            place = next;
        }
        Ok(())
    }

    /// Writes bytes that are in the source from a place on.
    #[tactic(auto, using(crate::proofs::Whole::bytes_put))]
    fn put_bytes(&mut self, bytes: &[u8], start: usize) -> Result<(), AllocError>
        ensures { OnOk result (pasted_view self.new
            ≡ put_bytes start (pasted_view self.old) bytes.now) }
    {
        if has_byte(bytes, 0) {
            self.put_each(bytes, start)
        } else {
            self.put_whole(bytes, start)
        }
    }
}

/// The place before, if white space is there.
#[tactic(auto, unfolding(crate::specs::Content::before_white))]
fn before_white(bytes: &[u8], place: usize) -> Option<usize>
    ensures { result ≡ before_white bytes.now place }
{
    let goes_on = place > 0 && is_in(Class::White, byte_at(bytes, place.saturating_sub(1)));
    if goes_on {
        Some(place.saturating_sub(1))
    } else {
        None
    }
}

/// The place after the last byte that isn't white space.
#[tactic(auto, using(crate::proofs::Repeats::iterated_zero, crate::proofs::Repeats::iterated_stop, crate::proofs::Repeats::iterated_more))]
fn ink_end(bytes: &[u8]) -> usize
    ensures { result ≡ iterated (before_white bytes.now) (length bytes.now) (length bytes.now) }
{
    let mut place = bytes.len();
    for _steps_left in (0..bytes.len()).rev() {
        match before_white(bytes, place) {
            None => return place,
            Some(next) => place = next,
        }
    }
    place
}

/// The number of bytes that lines have with a line feed each.
fn room_of(lines: &[ContentLine]) -> usize
    ensures { result ≡ room_of lines.now }
{
    let mut room = 0usize;
    for line in lines {
        room = room.saturating_add(line.end.saturating_sub(line.start).saturating_add(1));
    }
    room
}

/// The lines written one after the other.
fn joined(alloc: Global, source: &[u8], lines: &[ContentLine]) -> Result<Pasted, AllocError>
    ensures { IfOk result (λ j. pasted_view j ≡ joined source.now lines.now) }
{
    let room = room_of(lines);
    let mut content = Pasted {
        bytes: Vec::with_capacity(alloc, room)?,
        places: Vec::with_capacity(alloc, room)?,
    };
    for line in lines {
        content.put_line(source, *line)?;
    }
    Ok(content)
}

/// The lines written one after the other, without white space at the end.
#[tactic(auto, unfolding(crate::specs::Content::content_of))]
fn trimmed(alloc: Global, source: &[u8], lines: &[ContentLine]) -> Result<Pasted, AllocError>
    ensures { IfOk result (λ j. pasted_view j ≡ content_of source.now lines.now) }
{
    let mut content = joined(alloc, source, lines)?;
    let end = ink_end(&content.bytes);
    content.bytes.truncate(end);
    content.places.truncate(end);
    Ok(content)
}

/// Whether a line begins just after another, which ends with one line feed.
#[tactic(auto, unfolding(crate::specs::Content::is_behind))]
fn is_behind(source: &[u8], line: ContentLine, next: ContentLine) -> bool
    ensures { result ≡ is_behind source.now line next }
{
    let one = line.end < line.next && line.next == line.end.saturating_add(1);
    let fed = byte_at(source, line.end) == b'\n';
    one && fed && line.start <= line.end && next.start == line.next
}

/// The place where a line ends, if it is a range of the source.
#[tactic(auto, unfolding(crate::specs::Content::end_within))]
fn end_within(source: &[u8], line: ContentLine) -> Option<usize>
    ensures { result ≡ end_within source.now line }
{
    if line.start <= line.end && line.end <= source.len() {
        Some(line.end)
    } else {
        None
    }
}

/// The place where lines end that begin one just after the other.
fn end_behind(source: &[u8], line: ContentLine, others: &[ContentLine]) -> Option<usize>
    ensures { result ≡ end_behind source.now line others.now }
{
    let mut last = line;
    for next in others {
        if !is_behind(source, last, *next) {
            return None;
        }
        last = *next;
    }
    end_within(source, last)
}

/// All lines but the first.
fn others(lines: &[ContentLine]) -> &[ContentLine]
    ensures { result.now ≡ drop 1 lines.now }
{
    if lines.is_empty() { &[] } else { &lines[1..] }
}

/// The text without white space at its end.
fn inked(text: &[u8]) -> &[u8]
    ensures { result.now ≡ inked text.now }
{
    bytes_between(text, 0, ink_end(text))
}

/// The text of lines, if it is so in the source.
fn whole<'a>(source: &'a [u8], lines: &[ContentLine]) -> Option<Content<'a>>
    ensures { IfSome result (λ c. content_view c ≡ content_of source.now lines.now) }
{
    let first = lines.first().copied()?;
    let end = end_behind(source, first, others(lines))?;
    let text = bytes_between(source, first.start, end);
    if has_byte(text, 0) {
        None
    } else {
        Some(Content::Whole(inked(text), first.start))
    }
}

/// The text of lines of a source, joined by line feeds and without white space at its end; U+FFFD
/// stands for U+0000.
pub fn content_of<'a>(
    alloc: Global,
    source: &'a [u8],
    lines: &[ContentLine],
) -> Result<Content<'a>, AllocError>
    ensures { IfOk result (λ c. content_view c ≡ content_of source.now lines.now) }
{
    match whole(source, lines) {
        Some(content) => Ok(content),
        None => Ok(Content::Pasted(trimmed(alloc, source, lines)?)),
    }
}
