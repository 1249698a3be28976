//! The lines and columns of a text, and what is known of the ranges of its events.

ghost use Rattle.std.specs.List.{All};
ghost use Rattle.std.specs.Prelude.{◌≡◌, ◌-◌, ◌≤◌, ℕ, IfOk, List, OnOk, drop, length};
ghost use Rattle.tocmark_event.specs.View.{event_view};
ghost use Rattle.tocmark_json.specs.Destinations.{details_of};
ghost use Rattle.tocmark_json.specs.Positions.{behind, ends_line, begins_none, passed, position_of, span_of, IsIndex, IsMark};

use crate::destinations::destination_in;
use std::alloc::{AllocError, Global};
use tocmark_event::event::{EventOf, Words};

/// A place in a text.
#[derive(Clone, Copy, Debug, PartialEq, Eq)]
pub struct Position {
    /// The line, counted from 1. A line feed ends a line, and so does a carriage return; both together are one ending.
    pub line: usize,
    /// How many characters of Unicode are before it on its line, plus 1.
    pub column: usize,
}

/// Where a range of a text is.
#[derive(Clone, Copy, Debug, PartialEq, Eq)]
pub struct Span {
    /// Where it begins.
    pub start: Position,
    /// The place after its last byte.
    pub end: Position,
}

/// What is known of an event's range beside its bytes.
#[derive(Clone, Copy, Debug, PartialEq, Eq)]
pub struct Details {
    /// Its lines and columns.
    pub span: Span,
    /// The bytes of the destination of a link or an image, if it is in that range.
    pub destination: Option<(usize, usize)>,
}

/// How many bytes are between two marks.
const STEP: usize = 64;

/// The bytes from a place on.
fn rest(bytes: &[u8], place: usize) -> &[u8]
    ensures { result.now ≡ drop place bytes.now }
{
    if place <= bytes.len() {
        &bytes[place..]
    } else {
        &[]
    }
}

/// Whether the first byte ends a line.
fn ends_line(rest: &[u8]) -> bool
    ensures { result ≡ ends_line rest.now }
{
    match rest {
        [] => false,
        [byte] => *byte == b'\n' || *byte == b'\r',
        [byte, next, ..] => *byte == b'\n' || *byte == b'\r' && *next != b'\n',
    }
}

/// Whether the first byte goes on in a character.
fn begins_none(rest: &[u8]) -> bool
    ensures { result ≡ begins_none rest.now }
{
    match rest {
        [] => true,
        [byte, ..] => 128 <= *byte && *byte <= 191,
    }
}

/// The place after the first byte of what is left of a text.
#[tactic(auto, unfolding(crate::specs::Positions::behind))]
fn behind(rest: &[u8], position: Position) -> Position
    ensures { result ≡ behind rest.now position }
{
    if ends_line(rest) {
        return Position {
            line: position.line.saturating_add(1),
            column: 1,
        };
    }
    if begins_none(rest) {
        return position;
    }
    Position {
        line: position.line,
        column: position.column.saturating_add(1),
    }
}

/// The place of a byte, from that of one before it.
#[tactic(auto, using(crate::proofs::Passing::ended))]
fn passed(bytes: &[u8], from: usize, to: usize, position: Position) -> Position
    requires { to ≤ length bytes.now }
    ensures { result ≡ passed position (drop from bytes.now) (to - from) }
{
    let mut place = position;
    for at in from..to {
        place = behind(rest(bytes, at), place);
    }
    place
}

/// The place of one byte of a text.
#[derive(Clone, Copy, Debug, PartialEq, Eq)]
struct Mark {
    offset: usize,
    position: Position,
}

/// Where each text begins.
const BEGIN: Mark = Mark {
    offset: 0,
    position: Position { line: 1, column: 1 },
};

/// Adds the mark of a byte 0, 64, 128 and so on.
#[tactic(auto, using(crate::proofs::Passing::marked_more))]
fn push_mark(marks: &mut Vec<Mark>, mark: Mark) -> Result<(), AllocError>
    ensures { OnOk result ((text : List ℕ) → IsMark text mark
        → All (IsMark text) marks.old.items → All (IsMark text) marks.new.items) }
{
    if mark.offset % STEP == 0 {
        marks.push(mark)?;
        Ok(())
    } else {
        Ok(())
    }
}

/// The marks of the bytes 0, 64, 128 and so on.
fn marks_of(alloc: Global, bytes: &[u8]) -> Result<Vec<Mark>, AllocError>
    ensures { IfOk result (λ marks. All (IsMark bytes.now) marks.items) }
{
    let mut marks = Vec::new(alloc);
    let mut position = BEGIN.position;
    for offset in 0..bytes.len() {
        push_mark(&mut marks, Mark { offset, position })?;
        position = behind(rest(bytes, offset), position);
    }
    Ok(marks)
}

/// A text whose lines and columns are looked up.
#[derive(Drop)]
pub struct Positions<'t> {
    bytes: &'t [u8],
    marks: Vec<Mark>,
}

impl<'t> Positions<'t> {
    /// Makes an index of a text's places. It takes half as much memory as the text, and fails if memory runs out.
    pub fn new(alloc: Global, text: &'t str) -> Result<Positions<'t>, AllocError>
        ensures index { IfOk result IsIndex }
        ensures text { IfOk result (λ positions. positions.bytes.now ≡ text.now) }
    {
        let bytes = text.as_bytes();
        let marks = marks_of(alloc, bytes)?;
        Ok(Positions { bytes, marks })
    }

    /// The last mark that isn't after a byte, or the first one.
    fn mark_before(&self, offset: usize) -> Mark
        requires { IsIndex self.now }
        ensures mark { IsMark self.now.bytes.now result }
        ensures before { result.offset ≤ offset }
    {
        let last = self.marks.len().saturating_sub(1);
        match self.marks.get((offset / STEP).min(last)) {
            Some(mark) if mark.offset <= offset => *mark,
            _ => BEGIN,
        }
    }

    /// The place of a byte. If the text has no such byte, it is the place after the last one.
    #[tactic(auto, using(crate::proofs::Passing::marked))]
    fn position(&self, offset: usize) -> Position
        requires { IsIndex self.now }
        ensures { result ≡ position_of self.now.bytes.now offset }
    {
        let within = offset.min(self.bytes.len());
        let mark = self.mark_before(within);
        passed(self.bytes, mark.offset, within, mark.position)
    }

    /// Where a range of the text is.
    pub fn span(&self, range: (usize, usize)) -> Span
        requires { IsIndex self.now }
        ensures { result ≡ span_of self.now.bytes.now range }
    {
        Span {
            start: self.position(range.0),
            end: self.position(range.1),
        }
    }

    /// What is known of the range of an event of the text. It fails if memory runs out.
    pub(crate) fn details<T: Words>(
        &self,
        alloc: Global,
        event: &EventOf<T>,
        range: (usize, usize),
    ) -> Result<Details, AllocError>
        requires { IsIndex self.now }
        ensures { IfOk result (λ details. details
            ≡ details_of self.now.bytes.now (event_view T.bytes event.now) range) }
    {
        let destination = destination_in(alloc, self.bytes, event, range)?;
        let span = self.span(range);
        Ok(Details { span, destination })
    }
}
