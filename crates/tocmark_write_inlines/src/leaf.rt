//! A leaf of any kind, and what is beside it.

ghost use Rattle.std.specs.Prelude.{◌≡◌, List, Option, OnOk};
ghost use Rattle.tocmark_event.specs.View.{EventView, SourcedEvent, SourcedLeaf, Leaf};
ghost use Rattle.tocmark_spelling.specs.Buffered.{buffered_view};
ghost use Rattle.tocmark_spelling.specs.Machine.{around};
ghost use Rattle.tocmark_spelling.specs.Stretch.{leaf_on};
ghost use Rattle.tocmark_write_renderer.specs.JobOf.{Reading, manner_view, setting_in};
ghost use Rattle.tocmark_write_renderer.specs.WriterOf.{levels_of, page_of};
ghost use Rattle.tocmark_write_inlines.specs.BesideOf.{IsBeside};
ghost use Rattle.tocmark_write_inlines.specs.Led.{StandsAt};

use crate::block_leaf::{write_html, write_rule};
use crate::inline_leaf::{
    write_code, write_display_math, write_footnote_reference, write_inline_math, write_spelled,
    write_task_marker,
};
use crate::stretch::add_text;
use std::alloc::AllocError;
use tocmark_event::event::{EventOf, OwnedEvent};
use tocmark_spelling::buffered::BufferedEvent;
use tocmark_write_renderer::job::{Job, Manner};
use tocmark_write_renderer::renderer::Renderer;

/// What is beside a leaf.
#[derive(Clone, Copy)]
pub struct Beside<'e> {
    /// The event before it.
    pub previous: Option<&'e OwnedEvent>,
    /// Whether a text comes next in the unit.
    pub text_follows: bool,
    /// The event that comes next, beyond the unit's end too.
    pub next: Option<&'e OwnedEvent>,
}

/// Writes a leaf after its gap; HTML has none, and a text is held while a further one follows. No
/// Start and no End is given. It fails if memory runs out, or if a cell would be too wide.
pub fn write_leaf(
    renderer: &mut Renderer<'_>,
    job: Job<'_, '_>,
    manner: Manner<'_>,
    event: &BufferedEvent,
    beside: Beside<'_>,
) -> Result<(), AllocError>
    ensures stands { (l : SourcedLeaf) (reading : Reading) (before rest : List SourcedEvent)
        (next : Option EventView)
        → buffered_view event.now ≡ Leaf l → IsBeside beside.entry before rest next
        → OnOk result (StandsAt renderer.new (leaf_on (setting_in job.entry reading)
        (manner_view manner.entry) l (around before rest next)
        (levels_of renderer.old) (page_of renderer.old))) }
    ensures mark { renderer.new.at_mark ≡ renderer.old.at_mark }
{
    match &event.event {
        EventOf::Text(text) => add_text(renderer, job, manner, event, text.as_str(), beside),
        EventOf::Code(text) => write_code(renderer, job.alloc, &event.event, text.as_str()),
        EventOf::InlineMath(text) => {
            write_inline_math(renderer, job.alloc, &event.event, text.as_str())
        }
        EventOf::DisplayMath(text) => {
            write_display_math(renderer, job.alloc, &event.event, text.as_str())
        }
        EventOf::Html(text) => write_html(renderer, text.as_str()),
        EventOf::InlineHtml(text) => write_spelled(renderer, &event.event, text.as_str()),
        EventOf::FootnoteReference(label) => {
            write_footnote_reference(renderer, job.alloc, &event.event, label.as_str())
        }
        EventOf::SoftBreak => write_spelled(renderer, &event.event, "\n"),
        EventOf::HardBreak => write_spelled(renderer, &event.event, "  \n"),
        EventOf::Rule => write_rule(renderer, job.options, &event.event),
        EventOf::TaskListMarker(checked) => write_task_marker(renderer, &event.event, *checked),
        EventOf::Start(_) => Ok(()),
        EventOf::End(_) => Ok(()),
    }
}
