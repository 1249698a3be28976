//! The place where a node of emphasis or strong emphasis opens.

ghost use Rattle.std.specs.Prelude.{◌≡◌, Some, encode_utf8, slice_index, string_bytes, true, IfOk};
ghost use Rattle.std.specs.Option.{option_map};
ghost use Rattle.tocmark_event.specs.View.{end_of, event_view, tag_view};
ghost use Rattle.tocmark_write_containers.specs.FrameOf.{content_view, level_of};
ghost use Rattle.tocmark_write_emphasis.specs.Facts.{IsNearest, IsPlace, asks_runs};
ghost use Rattle.tocmark_write_renderer.specs.WriterOf.{levels_of, page_of, sheet_of, site_of};
ghost use Rattle.tocmark_spelling.specs.Buffered.{following_view};
ghost use Rattle.tocmark_spelling.specs.Look.{Look};
ghost use Rattle.tocmark_spelling.specs.Kinds.{is_emphasis_or_strong};
ghost use Rattle.tocmark_spelling.specs.Marker.{is_end, is_token, marker_of, opening_token, same_finish, token_of};
ghost use Rattle.tocmark_spelling.specs.Places.{nearest};
ghost use Rattle.tocmark_spelling.specs.Runs.{last_run, run_around};

use crate::ends::last_byte;
use crate::facts::{NodeSurroundings, Parent, asks_runs};
use std::alloc::{AllocError, Global};
use tocmark_compare::number::end_number;
use tocmark_event::event::{EventOf, OwnedEvent, TagOf};
use tocmark_spelling::plan::{Delimiters, Layout};
use tocmark_write_containers::content::OpeningChoice;
use tocmark_write_containers::frame::Frame;
use tocmark_write_pending::edges::last_character;
use tocmark_write_renderer::renderer::Renderer;

/// What is before the body of a delimited container.
fn opening_token(content: &OpeningChoice) -> &str
    ensures { result.now ≡ opening_token (content_view content.now) }
{
    match content {
        OpeningChoice::Delimited { before, .. } => before.as_str(),
        _ => "",
    }
}

fn first_byte(text: &str) -> u8
    ensures { result ≡ slice_index text.now 0 }
{
    match text.as_bytes().first() {
        Some(byte) => *byte,
        None => 0,
    }
}

fn is_end(event: &OwnedEvent, tag: &TagOf<String>) -> bool
    ensures { result ≡ is_end (end_of (tag_view string_bytes tag.now))
        (Some (event_view string_bytes event.now)) }
{
    match event {
        EventOf::End(end) => end_number(*end) == end_number(tag.to_end()),
        _ => false,
    }
}

/// Whether an event is the End of a container with this tag.
fn ends(event: Option<&OwnedEvent>, tag: &TagOf<String>) -> bool
    ensures { result ≡ is_end (end_of (tag_view string_bytes tag.now))
        (following_view event.entry) }
{
    match event {
        Some(event) => is_end(event, tag),
        None => false,
    }
}

/// Where the layout asks for runs, that of a byte round a place of the text; else 0.
fn asked_run(
    renderer: &mut Renderer<'_>,
    layout: Layout,
    place: usize,
    byte: u8,
) -> Result<usize, AllocError>
    ensures run { asks_runs layout ≡ true
        → IfOk result (λ run. run ≡ run_around byte place (sheet_of renderer.old).text) }
    ensures site { site_of renderer.new ≡ site_of renderer.old }
    ensures mark { renderer.new.at_mark ≡ renderer.old.at_mark }
{
    if asks_runs(layout) {
        renderer.run_around(place, byte)
    } else {
        Ok(0)
    }
}

/// Where the layout asks for runs, the last one of markers in the text; else 0.
fn asked_last_run(renderer: &mut Renderer<'_>, layout: Layout) -> Result<usize, AllocError>
    ensures run { asks_runs layout ≡ true
        → IfOk result (λ run. run ≡ last_run (sheet_of renderer.old).text) }
    ensures site { site_of renderer.new ≡ site_of renderer.old }
    ensures mark { renderer.new.at_mark ≡ renderer.old.at_mark }
{
    if asks_runs(layout) {
        renderer.last_run()
    } else {
        Ok(0)
    }
}

/// An open container beside a node.
#[derive(Clone, Copy)]
struct Neighbour {
    /// The first byte of what it opened with.
    marker: u8,
    /// Where its opening ended, in bytes.
    start: usize,
    /// Whether its End is the event after the node.
    same_finish: bool,
}

fn neighbour_of(frame: &Frame<'_>, next: Option<&OwnedEvent>) -> Neighbour
    ensures marker { marker_of (level_of frame.now) ≡ result.marker }
    ensures start { frame.now.start ≡ result.start }
    ensures finish { (l : Look) → l.next_in_unit ≡ following_view next.entry
        → same_finish (level_of frame.now) l ≡ result.same_finish }
{
    Neighbour {
        marker: first_byte(opening_token(&frame.content)),
        start: frame.start,
        same_finish: ends(next, frame.tag),
    }
}

/// What the nearest open emphasis or strong emphasis says, if there is one.
fn nearest(
    renderer: &mut Renderer<'_>,
    layout: Layout,
    next: Option<&OwnedEvent>,
) -> Result<Option<Parent>, AllocError>
    ensures parent { (l : Look) → l.next_in_unit ≡ following_view next.entry
        → IfOk result (λ parent. IsNearest layout parent
        (nearest is_emphasis_or_strong (levels_of renderer.old)) l (page_of renderer.old)) }
    ensures site { site_of renderer.new ≡ site_of renderer.old }
    ensures mark { renderer.new.at_mark ≡ renderer.old.at_mark }
{
    let neighbour = match renderer.nearest_delimiter() {
        Some(frame) => neighbour_of(frame, next),
        None => return Ok(None),
    };
    let same_start = neighbour.start == renderer.text().len();
    let run = asked_run(renderer, layout, neighbour.start, neighbour.marker)?;
    Ok(Some(Parent {
        marker: char::from(neighbour.marker),
        same_start,
        same_finish: neighbour.same_finish,
        run,
    }))
}

/// Whether there is such a container, and it opened with this marker.
fn is_opened_with(
    alloc: Global,
    frame: Option<&Frame<'_>>,
    marker: char,
) -> Result<bool, AllocError>
    ensures { IfOk result (λ same. same ≡ is_token
        (token_of (option_map (λ f. level_of f.now) frame.entry)) (encode_utf8 marker)) }
{
    match frame {
        None => Ok(false),
        Some(frame) => {
            let mut text = String::new(alloc);
            text.push(marker)?;
            Ok(opening_token(&frame.content) == text.as_str())
        }
    }
}

/// What the written text and the open containers say of this place, as far as the layout of these
/// delimiters asks.
///
/// `next` is the event in the unit just after the node that opens here.
pub fn place_of(
    renderer: &mut Renderer<'_>,
    alloc: Global,
    delimiters: &Delimiters<'_>,
    next: Option<&OwnedEvent>,
) -> Result<NodeSurroundings, AllocError>
    ensures place { (l : Look) → l.next_in_unit ≡ following_view next.entry
        → IfOk result (λ place. IsPlace delimiters.now.layout place
        (encode_utf8 delimiters.now.emphasis) l (levels_of renderer.old) (page_of renderer.old)) }
    ensures site { site_of renderer.new ≡ site_of renderer.old }
    ensures mark { renderer.new.at_mark ≡ renderer.old.at_mark }
{
    let layout = delimiters.layout;
    let in_same = is_opened_with(alloc, renderer.nearest_emphasis(), delimiters.emphasis)?;
    let parent = nearest(renderer, layout, next)?;
    let last_run = asked_last_run(renderer, layout)?;
    let text = renderer.text();
    Ok(NodeSurroundings {
        last_character: last_character(text),
        last_byte: last_byte(text),
        last_run,
        in_same,
        parent,
    })
}
