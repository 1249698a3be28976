//! The JSON text of events with the lines and columns of their ranges, and with the destinations of links.

ghost use Rattle.std.specs.Prelude.{◌≡◌, IfOk, OnOk, Some, map, string_bytes};
ghost use Rattle.serde_json.specs.Read.{read};
ghost use Rattle.serde_json.specs.Written.{IsInOrder, compact_text};
ghost use Rattle.tocmark_event.specs.View.{event_view};
ghost use Rattle.tocmark_json.specs.Json.{detailed_json, listed, located_json, located_view, spanned_json, targeted_json};
ghost use Rattle.tocmark_json.specs.Positions.{IsIndex};
ghost use Rattle.tocmark_json.specs.Printed.{Adds, Follows, located_lines};

use crate::positions::{Details, Positions, Span};
use crate::printing::{print_event, print_size, push, push_comma, text_of};
use std::alloc::{AllocError, Global};
use tocmark_event::event::{EventOf, Words};

/// Prints a range with lines and columns as the second of two values in an array, and closes that.
fn print_spanned(out: &mut Vec<u8>, range: (usize, usize), span: Span) -> Result<(), AllocError>
    ensures { OnOk result (Follows (spanned_json range span) out.old.items out.new.items) }
{
    push(out, b",{\"end\":")?;
    print_size(out, range.1 as u64)?;
    push(out, b",\"end_column\":")?;
    print_size(out, span.end.column as u64)?;
    push(out, b",\"end_line\":")?;
    print_size(out, span.end.line as u64)?;
    push(out, b",\"start\":")?;
    print_size(out, range.0 as u64)?;
    push(out, b",\"start_column\":")?;
    print_size(out, span.start.column as u64)?;
    push(out, b",\"start_line\":")?;
    print_size(out, span.start.line as u64)?;
    push(out, b"}]")
}

/// Prints a link's range with lines and columns, and with the place of its destination, as the second of two values in an array,
/// and closes that.
fn print_targeted(
    out: &mut Vec<u8>,
    range: (usize, usize),
    span: Span,
    destination: (usize, usize),
) -> Result<(), AllocError>
    ensures { OnOk result
        (Follows (targeted_json range span destination) out.old.items out.new.items) }
{
    push(out, b",{\"dest_end\":")?;
    print_size(out, destination.1 as u64)?;
    push(out, b",\"dest_start\":")?;
    print_size(out, destination.0 as u64)?;
    push(out, b",\"end\":")?;
    print_size(out, range.1 as u64)?;
    push(out, b",\"end_column\":")?;
    print_size(out, span.end.column as u64)?;
    push(out, b",\"end_line\":")?;
    print_size(out, span.end.line as u64)?;
    push(out, b",\"start\":")?;
    print_size(out, range.0 as u64)?;
    push(out, b",\"start_column\":")?;
    print_size(out, span.start.column as u64)?;
    push(out, b",\"start_line\":")?;
    print_size(out, span.start.line as u64)?;
    push(out, b"}]")
}

/// Prints a range with its details as the second of two values in an array, and closes that.
fn print_detailed(
    out: &mut Vec<u8>,
    range: (usize, usize),
    details: Details,
) -> Result<(), AllocError>
    ensures { OnOk result (Follows (detailed_json range details) out.old.items out.new.items) }
{
    match details.destination {
        None => print_spanned(out, range, details.span),
        Some(place) => print_targeted(out, range, details.span, place),
    }
}

fn print_located<T: Words>(
    alloc: Global,
    out: &mut Vec<u8>,
    pair: &(EventOf<T>, (usize, usize)),
    positions: &Positions<'_>,
) -> Result<(), AllocError>
    requires { IsIndex positions.now }
    ensures { OnOk result (Adds (located_json
        (located_view T.bytes positions.now.bytes.now pair.now)) out.old.items out.new.items) }
{
    push(out, b"[")?;
    print_event(out, &pair.0)?;
    let details = positions.details(alloc, &pair.0, pair.1)?;
    print_detailed(out, pair.1, details)
}

fn print_all_located<T: Words>(
    alloc: Global,
    out: &mut Vec<u8>,
    pairs: &[(EventOf<T>, (usize, usize))],
    positions: &Positions<'_>,
) -> Result<(), AllocError>
    requires { IsIndex positions.now }
    ensures { OnOk result (Adds (listed located_json
        (map (located_view T.bytes positions.now.bytes.now) pairs.now)) out.old.items out.new.items) }
{
    push(out, b"[")?;
    let mut later = false;
    for pair in pairs {
        push_comma(out, later)?;
        print_located(alloc, out, pair, positions)?;
        later = true;
    }
    push(out, b"]")
}

fn indexed_to_text<T: Words>(
    alloc: Global,
    pairs: &[(EventOf<T>, (usize, usize))],
    positions: &Positions<'_>,
) -> Result<String, AllocError>
    requires { IsIndex positions.now }
    ensures text { IfOk result (λ text. string_bytes text ≡ compact_text (listed located_json
        (map (located_view T.bytes positions.now.bytes.now) pairs.now))) }
    ensures order { IfOk result (λ text. IsInOrder (string_bytes text) (listed located_json
        (map (located_view T.bytes positions.now.bytes.now) pairs.now))) }
    ensures reads_back { IfOk result (λ text. read (string_bytes text) ≡ Some (listed located_json
        (map (located_view T.bytes positions.now.bytes.now) pairs.now))) }
{
    let mut out = Vec::new(alloc);
    print_all_located(alloc, &mut out, pairs, positions)?;
    text_of(out)
}

/// The JSON text of a list of events with their ranges in a source, as a reader gives them: an array of `[event,
/// range]`, without spaces. Each range has the lines and columns of its ends, too, and that of a link the bytes of its
/// destination, if they are in it.
///
/// It fails if memory runs out.
pub fn located_to_text<T: Words>(
    alloc: Global,
    source: &str,
    pairs: &[(EventOf<T>, (usize, usize))],
) -> Result<String, AllocError>
    ensures text { IfOk result (λ text. string_bytes text
        ≡ compact_text (listed located_json (map (located_view T.bytes source.now) pairs.now))) }
    ensures order { IfOk result (λ text. IsInOrder (string_bytes text)
        (listed located_json (map (located_view T.bytes source.now) pairs.now))) }
    ensures reads_back { IfOk result (λ text. read (string_bytes text)
        ≡ Some (listed located_json (map (located_view T.bytes source.now) pairs.now))) }
{
    let positions = Positions::new(alloc, source)?;
    indexed_to_text(alloc, pairs, &positions)
}

/// `located_to_lines` over an index of the source's places, which serves many calls.
///
/// It fails if memory runs out.
pub fn indexed_to_lines<T: Words>(
    alloc: Global,
    pairs: &[(EventOf<T>, (usize, usize))],
    positions: &Positions<'_>,
) -> Result<String, AllocError>
    requires { IsIndex positions.now }
    ensures { IfOk result (λ text. string_bytes text
        ≡ located_lines (map (located_view T.bytes positions.now.bytes.now) pairs.now)) }
{
    let mut out = Vec::new(alloc);
    for pair in pairs {
        print_located(alloc, &mut out, pair, positions)?;
        push(&mut out, b"\n")?;
    }
    text_of(out)
}

/// The JSON texts of events with their ranges in a source, as a reader gives them: `[event, range]` on a line for each
/// event. Each range has the lines and columns of its ends, too, and that of a link the bytes of its destination, if they are
/// in it.
///
/// It fails if memory runs out.
pub fn located_to_lines<T: Words>(
    alloc: Global,
    source: &str,
    pairs: &[(EventOf<T>, (usize, usize))],
) -> Result<String, AllocError>
    ensures { IfOk result (λ text. string_bytes text
        ≡ located_lines (map (located_view T.bytes source.now) pairs.now)) }
{
    let positions = Positions::new(alloc, source)?;
    indexed_to_lines(alloc, pairs, &positions)
}
