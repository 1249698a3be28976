//! Positions of the protocol in a text: lines, and units of a character encoding in a line.

ghost use Rattle.std.specs.Prelude.{◌≡◌, ◌+◌, drop, take, min, IfOk};
ghost use Rattle.tocmark_lsp_text.specs.Positions.{units, units_of, begins_with_feed, ends_line, later_starts, starts, is_end, column, place_by, IsFront};

use std::alloc::{AllocError, Global};
use std::fmt;

/// In which encoding a client counts the characters of a line.
#[derive(Clone, Copy, Drop)]
pub enum Encoding {
    Utf8,
    Utf16,
}

/// A place in a text, as the protocol has it. Both numbers count from 0.
#[derive(Clone, Copy, Drop)]
pub struct Position {
    pub line: usize,
    /// Units of the encoding in that line.
    pub character: usize,
}

impl fmt::Display for Position {
    /// Writes it as JSON.
    fn fmt<W: fmt::Write>(&self, f: &mut fmt::Formatter<W>) -> fmt::Result {
        let (line, character) = (self.line, self.character);
        write!(f, "{{\"line\":{line},\"character\":{character}}}")
    }
}

/// How many units the character has that begins with a byte of UTF-8.
fn units(encoding: Encoding, byte: u8) -> usize
    ensures { result ≡ units encoding byte }
{
    match encoding {
        Encoding::Utf8 => {
            if byte < 128 {
                1
            } else if byte < 192 {
                0
            } else if byte < 224 {
                2
            } else if byte < 240 {
                3
            } else {
                4
            }
        }
        Encoding::Utf16 => {
            if byte < 128 {
                1
            } else if byte < 192 {
                0
            } else if byte < 240 {
                1
            } else {
                2
            }
        }
    }
}

/// The bytes from a place on.
pub(crate) fn rest(bytes: &[u8], at: usize) -> &[u8]
    ensures { result.now ≡ drop at bytes.now }
{
    if at <= bytes.len() { &bytes[at..] } else { &[] }
}

/// Whether bytes begin with a line feed.
fn begins_with_feed(bytes: &[u8]) -> bool
    ensures { result ≡ begins_with_feed bytes.now }
{
    match bytes.split_first() {
        None => false,
        Some((byte, _rest)) => *byte == b'\n',
    }
}

/// Whether a line ends after a byte that has these after it.
fn ends_line(byte: u8, rest: &[u8]) -> bool
    ensures { result ≡ ends_line byte rest.now }
{
    if byte == b'\r' {
        !begins_with_feed(rest)
    } else {
        byte == b'\n'
    }
}

/// Where the lines of a text begin. A line ends with a line feed, a carriage return, or both.
///
/// It fails if memory runs out.
pub fn starts(alloc: Global, text: &str) -> Result<Vec<usize>, AllocError>
    ensures { IfOk result (λ all. all.items ≡ starts text.now) }
{
    let bytes = text.as_bytes();
    let mut all = Vec::new(alloc);
    all.push(0usize)?;
    for (at, byte) in bytes.iter().enumerate() {
        if ends_line(*byte, &bytes[at + 1..]) {
            all.push(at + 1)?;
        }
    }
    Ok(all)
}

/// Whether a byte ends a line, with another one or alone.
fn is_end(byte: u8) -> bool
    ensures { result ≡ is_end byte }
{
    byte == b'\n' || byte == b'\r'
}

/// How many bytes of a line are before a column: the longest front of the line that has no more units.
fn column(encoding: Encoding, count: usize, line: &[u8]) -> usize
    ensures { result ≡ column encoding count line.now }
{
    let mut left = count;
    for (at, byte) in line.iter().enumerate() {
        let own = units(encoding, *byte);
        if is_end(*byte) || left < own {
            return at;
        }
        left -= own;
    }
    line.len()
}

/// The place of a column in a line that begins at a place.
#[tactic(auto, using(crate::proofs::Lines::place_fits))]
fn place_from(encoding: Encoding, character: usize, bytes: &[u8], start: usize) -> usize
    ensures { result ≡ start + column encoding character (drop start bytes.now) }
{
    start.saturating_add(column(encoding, character, rest(bytes, start)))
}

/// The place of a position in a text whose lines begin at these places. A line past the last one is the end of the text, and a
/// column past the end of a line is that end. Inside a character it is where that begins.
pub fn place(encoding: Encoding, starts: &[usize], text: &str, position: Position) -> usize
    ensures { result ≡ place_by encoding starts.now text.now position }
{
    match starts.get(position.line) {
        None => text.len(),
        Some(start) => place_from(encoding, position.character, text.as_bytes(), *start),
    }
}

/// The units of some bytes of a text, or the greatest number if there are more.
pub fn units_of(encoding: Encoding, bytes: &[u8]) -> usize
    ensures { result ≡ min (units_of encoding bytes.now) usize.MAX }
{
    let mut count = 0usize;
    for byte in bytes {
        count = count.saturating_add(units(encoding, *byte));
    }
    count
}

/// The position of a place in a text whose lines begin at these places. Past the end of the text it is that end.
pub fn position_at(encoding: Encoding, starts: &[usize], text: &str, at: usize) -> Position {
    let at = at.min(text.len());
    let line = starts
        .partition_point(|start| *start <= at)
        .saturating_sub(1);
    let start = starts.get(line).copied().unwrap_or(0);
    let before = text.as_bytes().get(start..at).unwrap_or(&[]);
    Position {
        line,
        character: units_of(encoding, before),
    }
}

/// A front of a line that ends between characters has a column, whose place is the end of that front.
#[tactic(auto, using(crate::proofs::Lines::column_back))]
pub fn columns_lead_back(encoding: Encoding, line: &[u8], at: usize)
    ensures { IsFront encoding at line.now
        → column encoding (units_of encoding (take at line.now)) line.now ≡ at }
{}
