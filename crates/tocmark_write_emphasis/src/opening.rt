//! The opening of emphasis and strong emphasis.

ghost use Rattle.std.specs.Prelude.{◌≡◌, Bool, string_bytes, IfOk, OnOk};
ghost use Rattle.tocmark_event.specs.View.{tag_view};
ghost use Rattle.tocmark_write_emphasis.specs.Low.{AsksLow, HasLowLiterals, OpensLow};
ghost use Rattle.tocmark_write_emphasis.specs.Facts.{tag_at, GivesText, IsNode};
ghost use Rattle.tocmark_write_renderer.specs.JobOf.{manner_view, setting_in};
ghost use Rattle.tocmark_write_renderer.specs.WriterOf.{levels_of, page_of, site_of, Arrives};
ghost use Rattle.tocmark_spelling.specs.Buffered.{following_view};
ghost use Rattle.tocmark_spelling.specs.Look.{Look};
ghost use Rattle.tocmark_spelling.specs.Marker.{marker};
ghost use Rattle.tocmark_spelling.specs.Opening.{open_emphasis};
ghost use Rattle.tocmark_spelling.specs.PlanOf.{manner_of};

use crate::facts::EmphasisEvents;
use crate::marker::marker;
use crate::place::place_of;
use crate::task::Task;
use std::alloc::AllocError;
use tocmark_event::event::{OwnedEvent, TagOf};
use tocmark_event::reader::Reader;
use tocmark_write_inlines::delimiters::open_between;
use tocmark_write_renderer::renderer::Renderer;

/// What a node opens with here.
fn marker_here<R: Reader>(
    renderer: &mut Renderer<'_>,
    task: &Task<'_, '_, '_, R>,
    node: &EmphasisEvents,
    next: Option<&OwnedEvent>,
) -> Result<String, AllocError>
    ensures marker { (source : Bool) (l : Look)
        → let d = task.now.manner.delimiters in
        AsksLow d → OpensLow d (levels_of renderer.old)
        → HasLowLiterals node.now
        → IsNode node.now l → l.next_in_unit ≡ following_view next.entry
        → GivesText (R.reading task.now.reader.now) result (λ s.
        marker s (manner_of d source) (tag_at node.now) l
        (levels_of renderer.old) (page_of renderer.old)) }
    ensures site { site_of renderer.new ≡ site_of renderer.old }
    ensures mark { renderer.new.at_mark ≡ renderer.old.at_mark }
{
    let (alloc, delimiters) = (task.job.alloc, &task.manner.delimiters);
    let place = place_of(renderer, alloc, delimiters, next)?;
    marker(alloc, task.reader, delimiters, node, &place)
}

/// Opens a node of emphasis or strong emphasis, whose tag this is: the marker is chosen by what the
/// unit's events say of it, by what is written, and by the open containers.
///
/// `next` is the event in the unit just after the node.
pub fn open_emphasis<'a, R: Reader>(
    renderer: &mut Renderer<'a>,
    task: &Task<'_, '_, '_, R>,
    tag: &'a TagOf<String>,
    node: &EmphasisEvents,
    next: Option<&OwnedEvent>,
) -> Result<(), AllocError>
    ensures stands { (l : Look)
        → AsksLow task.now.manner.delimiters
        → OpensLow task.now.manner.delimiters (levels_of renderer.old)
        → HasLowLiterals node.now → tag_view string_bytes tag.entry.now ≡ tag_at node.now
        → IsNode node.now l → l.next_in_unit ≡ following_view next.entry
        → OnOk result (Arrives renderer.new (open_emphasis
        (setting_in task.now.job (R.reading task.now.reader.now)) (manner_view task.now.manner)
        (tag_view string_bytes tag.entry.now) l (levels_of renderer.old) (page_of renderer.old))) }
    ensures mark { renderer.new.at_mark ≡ renderer.old.at_mark }
{
    let text = marker_here(renderer, task, node, next)?;
    open_between(renderer, task.job.alloc, tag, text.as_str(), text.as_str())
}
