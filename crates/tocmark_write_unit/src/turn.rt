//! A Start or an End among a unit's events, and what is beside a leaf.

ghost use Rattle.std.specs.Prelude.{◌≡◌, ◌<◌, ◌≤◌, ◌+◌, ◌-◌, map, drop, take, reverse, length, slice_index_or, string_bytes, true, false, IfOk, OnOk};
ghost use Rattle.std.specs.Str.{IsCharBoundary};
ghost use Rattle.tocmark_write_blocks.specs.Leads.{Closes, is_closed};
ghost use Rattle.tocmark_write_containers.specs.FrameOf.{level_of};
ghost use Rattle.tocmark_write_emphasis.specs.Low.{AsksLow, OpensLow};
ghost use Rattle.tocmark_write_inlines.specs.BesideOf.{IsBeside};
ghost use Rattle.tocmark_event.specs.Options.{options_view, OptionsView};
ghost use Rattle.tocmark_event.specs.View.{event_view, tag_view, Start, TagView};
ghost use Rattle.tocmark_event.specs.declared.event.flags.ParserOptions.{ParserOptions};
ghost use Rattle.tocmark_write_renderer.specs.JobOf.{Reading, manner_view, options_in, setting_in};
ghost use Rattle.tocmark_write_renderer.specs.WriterOf.{levels_of, page_of, sheet_of, site_of, Arrives, Comes};
ghost use Rattle.tocmark_spelling.specs.Body.{Trees};
ghost use Rattle.tocmark_spelling.specs.Buffered.{buffered_view, following_view};
ghost use Rattle.tocmark_spelling.specs.Closing.{closing, closing_of};
ghost use Rattle.tocmark_spelling.specs.Kinds.{is_emphasis_or_strong, is_text, and_is};
ghost use Rattle.tocmark_spelling.specs.Look.{is_preferred, Look};
ghost use Rattle.tocmark_spelling.specs.Opening.{opening, opening_of};
ghost use Rattle.tocmark_spelling.specs.Page.{front};
ghost use Rattle.tocmark_spelling.specs.Plan.{Setting, Manner as AnyManner};
ghost use Rattle.tocmark_spelling.specs.Scans.{end_at, AreEnds};
ghost use Rattle.tocmark_write_unit.specs.NeighboursOf.{before_in, look_in, next_in, opening_in, rest_in, unit_in, AreFound, IsForest};
ghost use Rattle.tocmark_write_unit.specs.ToldOf.{IsTold};
ghost use Rattle.tocmark_write_unit.specs.Turn.{Turns};

use crate::close::close;
use crate::findings::Findings;
use crate::open::open;
use std::alloc::{AllocError, Global};
use tocmark_event::event::{EventOf, OwnedEvent, TagOf};
use tocmark_event::options::{Error, Options};
use tocmark_event::reader::Reader;
use tocmark_spelling::buffered::BufferedEvent;
use tocmark_spelling::kinds::is_text;
use tocmark_spelling::plan::Layout;
use tocmark_spelling::trail::Last;
use tocmark_write_blocks::ahead::Ahead;
use tocmark_write_blocks::raw_facts::raw_at;
use tocmark_write_containers::frame::Frame;
use tocmark_write_emphasis::node::{following, next_in_unit, node_at};
use tocmark_write_emphasis::opening::open_emphasis;
use tocmark_write_emphasis::task::Task;
use tocmark_write_inlines::leaf::{Beside, write_leaf};
use tocmark_write_inlines::links::{close_named, open_image, open_link, write_id};
use tocmark_write_pending::body_facts::facts_at;
use tocmark_write_pending::ends::{body_end, end_at};
use tocmark_write_pending::pending::Pending;
use tocmark_write_renderer::renderer::Renderer;

/// What is around an event of a unit.
#[derive(Clone, Copy)]
pub struct Neighbours<'e> {
    /// The unit, with what is kept beside its events.
    pub pending: &'e Pending,
    /// The unit's events.
    pub unit: &'e [BufferedEvent],
    /// At each start among them where its container ends, if it does.
    pub ends: &'e [Option<usize>],
    /// The event's place among them.
    pub place: usize,
    /// What was found out of them.
    pub found: &'e Findings,
    /// The event that follows the unit.
    pub next: Option<&'e OwnedEvent>,
}

/// The opening of a link or image; `named` says whether its id will be in place of its body.
fn open_named<'a>(
    renderer: &mut Renderer<'a>,
    tag: &'a TagOf<String>,
    named: bool,
) -> Result<(), AllocError>
    requires { is_closed (tag_view string_bytes tag.now) ≡ false }
    ensures stands { (s : Setting) (m : AnyManner) (l : Look) → l.named ≡ named
        → OnOk result (Arrives renderer.new (opening_of s m (tag_view string_bytes tag.entry.now) l
        (levels_of renderer.old) (page_of renderer.old))) }
    ensures mark { renderer.new.at_mark ≡ renderer.old.at_mark }
{
    match tag {
        TagOf::Link { link_type, .. } => open_link(renderer, tag, *link_type, named),
        TagOf::Image { .. } => open_image(renderer, tag, named),
        _ => Ok(()),
    }
}

/// The start of a link or image; what is written before it is no inline content.
#[tactic(auto, unfolding(tocmark_spelling::specs::Opening::opening))]
fn start_named<'a>(
    renderer: &mut Renderer<'a>,
    tag: &'a TagOf<String>,
    named: bool,
) -> Result<(), AllocError>
    requires { is_closed (tag_view string_bytes tag.now) ≡ false }
    ensures stands { (s : Setting) (m : AnyManner) (l : Look) → l.named ≡ named
        → OnOk result (Arrives renderer.new (opening s m (tag_view string_bytes tag.entry.now) l
        (levels_of renderer.old) (page_of renderer.old))) }
    ensures mark { renderer.new.at_mark ≡ renderer.old.at_mark }
{
    renderer.set_last(Last::Other);
    open_named(renderer, tag, named)
}

/// Whether the layout is the preferred one.
fn is_preferred(layout: Layout) -> bool
    ensures { result ≡ is_preferred layout }
{
    matches!(layout, Layout::Preferred)
}

/// Opens emphasis or strong emphasis; what is written before it is no inline content.
#[tactic(auto, unfolding(tocmark_spelling::specs::Opening::opening))]
fn start_emphasis<'a, R: Reader>(
    renderer: &mut Renderer<'a>,
    task: &Task<'_, '_, '_, R>,
    tag: &'a TagOf<String>,
    around: Neighbours<'_>,
) -> Result<(), AllocError>
    requires delimits { is_emphasis_or_strong (tag_view string_bytes tag.now) ≡ true }
    requires asked { AsksLow task.now.manner.delimiters }
    requires around { let job = task.now.job in
        AreFound (R.reading task.now.reader.now) (options_in job) job.flags
        (Start (tag_view string_bytes tag.now)) around }
    ensures stands { (f : Trees)
        → IsForest f around.entry
        → OpensLow task.now.manner.delimiters (levels_of renderer.old)
        → let t = tag_view string_bytes tag.entry.now in let m = manner_view task.now.manner in
        let s = setting_in task.now.job (R.reading task.now.reader.now) in
        let l = look_in s m t around.entry in
        OnOk result (Arrives renderer.new
        (opening s m t l (levels_of renderer.old) (page_of renderer.old))) }
    ensures mark { renderer.new.at_mark ≡ renderer.old.at_mark }
{
    renderer.set_last(Last::Other);
    let Neighbours {
        pending,
        unit,
        ends,
        place,
        found,
        next,
    } = around;
    let preferred = is_preferred(task.manner.delimiters.layout);
    let node = node_at(&found.emphasis, pending, place, preferred, next);
    let behind = next_in_unit(unit, ends, place);
    open_emphasis(renderer, task, tag, &node, behind)
}

/// A container's opening.
fn open_container<'a, R: Reader>(
    renderer: &mut Renderer<'a>,
    task: &Task<'_, '_, '_, R>,
    tag: &'a TagOf<String>,
    around: Neighbours<'_>,
) -> Result<(), Error>
    requires asked { AsksLow task.now.manner.delimiters }
    requires around { let job = task.now.job in
        AreFound (R.reading task.now.reader.now) (options_in job) job.flags
        (Start (tag_view string_bytes tag.now)) around }
    ensures comes { (f : Trees)
        → IsForest f around.entry
        → OpensLow task.now.manner.delimiters (levels_of renderer.old)
        → let t = tag_view string_bytes tag.entry.now in let m = manner_view task.now.manner in
        let s = setting_in task.now.job (R.reading task.now.reader.now) in
        let l = look_in s m t around.entry in
        Comes result renderer.new
        (opening s m t l (levels_of renderer.old) (page_of renderer.old)) }
    ensures mark { renderer.new.at_mark ≡ renderer.old.at_mark }
{
    match tag {
        TagOf::Link { .. } => {
            start_named(renderer, tag, is_named(around))?;
            Ok(())
        }
        TagOf::Image { .. } => {
            start_named(renderer, tag, is_named(around))?;
            Ok(())
        }
        TagOf::Emphasis => {
            start_emphasis(renderer, task, tag, around)?;
            Ok(())
        }
        TagOf::Strong => {
            start_emphasis(renderer, task, tag, around)?;
            Ok(())
        }
        _ => open(renderer, task.job, task.manner, tag, ahead_of(around)),
    }
}

/// A container's start: its gap, and its opening.
fn start<'a, R: Reader>(
    renderer: &mut Renderer<'a>,
    task: &Task<'_, '_, '_, R>,
    event: &OwnedEvent,
    tag: &'a TagOf<String>,
    around: Neighbours<'_>,
) -> Result<(), Error>
    requires start { event_view string_bytes event.now ≡ Start (tag_view string_bytes tag.now) }
    requires asked { AsksLow task.now.manner.delimiters }
    requires around { let job = task.now.job in
        AreFound (R.reading task.now.reader.now) (options_in job) job.flags
        (Start (tag_view string_bytes tag.now)) around }
    ensures comes { (f : Trees)
        → IsForest f around.entry
        → OpensLow task.now.manner.delimiters (levels_of renderer.old)
        → let s = setting_in task.now.job (R.reading task.now.reader.now) in
        Comes result renderer.new
        (opening_in s (manner_view task.now.manner)
        (tag_view string_bytes tag.entry.now) around.entry (site_of renderer.old)) }
    ensures mark { renderer.new.at_mark ≡ renderer.old.at_mark }
{
    renderer.write_gap(event)?;
    open_container(renderer, task, tag, around)
}

/// A container's closing.
fn close_container(
    renderer: &mut Renderer<'_>,
    alloc: Global,
    options: &Options<'_>,
    frame: &Frame<'_>,
) -> Result<(), AllocError>
    requires start { IsCharBoundary (sheet_of renderer.old).text frame.now.start }
    ensures stands { Closes result renderer.old renderer.new
        (closing_of (options_view options.now) (level_of frame.now).tag (level_of frame.now)) }
    ensures mark { renderer.new.at_mark ≡ renderer.old.at_mark }
{
    match frame.tag {
        TagOf::Link { .. } => close_named(renderer, alloc, frame),
        TagOf::Image { .. } => close_named(renderer, alloc, frame),
        _ => close(renderer, alloc, options, frame),
    }
}

/// The innermost container's end.
#[tactic(auto, unfolding(tocmark_spelling::specs::Closing::closing))]
pub fn end(renderer: &mut Renderer<'_>, alloc: Global, options: &Options<'_>) -> Result<(), Error>
    ensures comes { Comes result renderer.new
        (closing (options_view options.now) (levels_of renderer.old) (page_of renderer.old)) }
    ensures mark { renderer.new.at_mark ≡ renderer.old.at_mark }
{
    match renderer.pop_frame()? {
        None => Err(Error::UnexpectedEvent),
        Some(frame) => {
            close_container(renderer, alloc, options, &frame)?;
            Ok(())
        }
    }
}

/// What the opening of a container that starts here is told; of its body only where it asks.
fn ahead_of<'e>(around: Neighbours<'e>) -> Ahead<'e>
    ensures { (reading : Reading) (o : OptionsView) (flags : ParserOptions)
        (s : Setting) (m : AnyManner) (t : TagView)
        → AreFound reading o flags (Start t) around.entry
        → IsTold o t (look_in s m t around.entry) result }
{
    let Neighbours {
        unit,
        ends,
        place,
        found,
        next,
        ..
    } = around;
    let raw = raw_at(&found.raw, place);
    Ahead {
        body: facts_at(&found.facts, place),
        next: following(unit, body_end(ends, place), next),
        longest: raw.longest,
        blank: raw.blank,
        closed: raw.closed,
    }
}

/// A container's start, and how many further events are passed with it: those of its body, if its id is in its
/// place. One that isn't closed is unexpected.
pub fn start_before<'a, R: Reader>(
    renderer: &mut Renderer<'a>,
    task: &Task<'_, '_, '_, R>,
    event: &OwnedEvent,
    tag: &'a TagOf<String>,
    around: Neighbours<'_>,
) -> Result<usize, Error>
    requires start { event_view string_bytes event.now ≡ Start (tag_view string_bytes tag.now) }
    requires asked { AsksLow task.now.manner.delimiters }
    requires around { let job = task.now.job in
        AreFound (R.reading task.now.reader.now) (options_in job) job.flags
        (Start (tag_view string_bytes tag.now)) around }
    ensures passed { IfOk result (λ passed. passed ≤ length (rest_in around.entry)) }
    ensures moves { (f : Trees)
        → IsForest f around.entry
        → OpensLow task.now.manner.delimiters (levels_of renderer.old)
        → let s = setting_in task.now.job (R.reading task.now.reader.now) in
        Turns s (manner_view task.now.manner)
        (Start (tag_view string_bytes tag.entry.now)) around.entry
        result renderer.old renderer.new }
    ensures mark { renderer.new.at_mark ≡ renderer.old.at_mark }
{
    let end = match end_of(around) {
        Some(end) => end,
        None => return Err(Error::UnexpectedEvent),
    };
    start(renderer, task, event, tag, around)?;
    if is_named(around) {
        write_id(renderer, tag)?;
        Ok(width_before(end, around))
    } else {
        Ok(0)
    }
}

/// What is beside a leaf.
pub fn beside_of<'e>(around: Neighbours<'e>) -> Beside<'e>
    requires { around.place < length around.unit.now }
    ensures { IsBeside result
        (before_in around.entry) (rest_in around.entry) (next_in around.entry) }
{
    let Neighbours {
        unit,
        place,
        next,
        ..
    } = around;
    Beside {
        previous: previous_of(unit, place),
        text_follows: goes_on(rest_of(around)),
        next: following(unit, place, next),
    }
}

/// The events after this one.
fn rest_of<'e>(around: Neighbours<'e>) -> &'e [BufferedEvent]
    requires { around.place < length around.unit.now }
    ensures { result.now ≡ drop (around.entry.place + 1) around.entry.unit.now }
{
    &around.unit[around.place + 1..]
}

/// Where the container ends that starts here, if it does.
fn end_of(around: Neighbours<'_>) -> Option<usize>
    ensures { AreEnds (unit_in around.entry) around.entry.ends.now
        → result ≡ end_at around.entry.place (drop around.entry.place (unit_in around.entry)) }
{
    end_at(around.ends, around.place)
}

/// How many events are between this one and a place after it.
fn width_before(end: usize, around: Neighbours<'_>) -> usize
    requires { around.place < length around.unit.now }
    ensures { result ≡ end - (around.entry.place + 1) }
{
    end.saturating_sub(around.place + 1)
}

/// Whether the id of the link or image that starts here is in place of its body.
fn is_named(around: Neighbours<'_>) -> bool
    ensures { result ≡ slice_index_or around.entry.found.now.named.items around.entry.place false }
{
    let named = &around.found.named;
    if around.place < named.len() {
        named[around.place]
    } else {
        false
    }
}

/// The event before a place of a unit.
fn previous_of(events: &[BufferedEvent], i: usize) -> Option<&OwnedEvent>
    requires { i ≤ length events.now }
    ensures { following_view result ≡ front (reverse (take i (map buffered_view events.now))) }
{
    if i == 0 {
        None
    } else {
        Some(&events[i - 1].event)
    }
}

/// Whether a text comes first.
fn goes_on(rest: &[BufferedEvent]) -> bool
    ensures { result ≡ and_is is_text (front (map buffered_view rest.now)) }
{
    match rest {
        [] => false,
        [after, ..] => is_text(&after.event),
    }
}
