//! Where the containers of a unit end.

ghost use Rattle.std.specs.Prelude.{◌≡◌, ◌∷◌, ◌+◌, ◌<◌, drop, length, map, reverse, slice_index_or, IfOk, List, None, OnOk};
ghost use Rattle.tocmark_event.specs.View.{SourcedEvent, Start, TagView};
ghost use Rattle.tocmark_spelling.specs.Buffered.{buffered_view};
ghost use Rattle.tocmark_spelling.specs.Scans.{closer_of, closers_before, end_at, span, AreEnds};

use std::alloc::{AllocError, Global};
use tocmark_event::event::EventOf;
use tocmark_spelling::buffered::BufferedEvent;

/// Goes back over an event, and gives where the container ends that it starts, if it is ended.
/// `closers` are the places of the ends of the containers that are open there, the innermost last.
fn go_back(
    closers: &mut Vec<usize>,
    event: &BufferedEvent,
    i: usize,
) -> Result<Option<usize>, AllocError>
    ensures closers { OnOk result (reverse closers.new.items
        ≡ closers_before (buffered_view event.now) i (reverse closers.old.items)) }
    ensures end { IfOk result (λ end.
        end ≡ closer_of (buffered_view event.now) (reverse closers.old.items)) }
{
    match event.event {
        EventOf::Start(_) => Ok(closers.pop()),
        EventOf::End(_) => {
            closers.push(i)?;
            Ok(None)
        }
        _ => Ok(None),
    }
}

/// At each start where its container ends, if it does, and `None` at other events.
pub fn matching_ends(
    alloc: Global,
    events: &[BufferedEvent],
) -> Result<Vec<Option<usize>>, AllocError>
    ensures { IfOk result (λ ends. AreEnds (map buffered_view events.now) ends.items) }
{
    let mut ends = vec![in alloc; None; events.len()]?;
    let mut closers: Vec<usize> = Vec::new(alloc);
    let mut i = events.len();
    while i > 0 {
        i -= 1;
        let end = go_back(&mut closers, &events[i], i)?;
        ends[i] = end;
    }
    Ok(ends)
}

/// Where the container ends that starts at a place, if one does and is ended.
pub fn end_at(ends: &[Option<usize>], place: usize) -> Option<usize>
    ensures value { result ≡ slice_index_or ends.now place None }
    ensures end { (es : List SourcedEvent) → AreEnds es ends.now
        → result ≡ end_at place (drop place es) }
{
    if place < ends.len() {
        ends[place]
    } else {
        None
    }
}

/// The place after the body of the container that starts at a place: that of its end, or else
/// the one after the last event.
pub fn body_end(ends: &[Option<usize>], place: usize) -> usize
    ensures start { (es : List SourcedEvent) (t : TagView) (rest : List SourcedEvent)
        → AreEnds es ends.now → drop place es ≡ Start t ∷ rest
        → result ≡ place + 1 + span 0 rest }
    ensures behind { (es : List SourcedEvent) → AreEnds es ends.now → place < length es
        → place < result }
{
    end_at(ends, place).unwrap_or(ends.len())
}
