//! Writes the events of one unit.

ghost use Rattle.std.specs.Prelude.{◌≡◌, []};
ghost use Rattle.tocmark_write_emphasis.specs.Low.{AsksLow, OpensLow};
ghost use Rattle.tocmark_event.specs.Forest.{flat};
ghost use Rattle.tocmark_write_renderer.specs.JobOf.{manner_view, options_in, setting_in};
ghost use Rattle.tocmark_spelling.specs.Body.{Trees};
ghost use Rattle.tocmark_spelling.specs.Buffered.{following_view};
ghost use Rattle.tocmark_spelling.specs.Machine.{around};
ghost use Rattle.tocmark_write_unit.specs.FindingsOf.{AreFindings};
ghost use Rattle.tocmark_spelling.specs.Spelling.{spelling};
ghost use Rattle.tocmark_write_renderer.specs.WriterOf.{page_of, levels_of, Comes};

use crate::findings::Findings;
use crate::turn::{Neighbours, beside_of, end, start_before};
use tocmark_event::event::{EventOf, OwnedEvent};
use tocmark_event::options::Error;
use tocmark_event::reader::Reader;
use tocmark_write_emphasis::task::Task;
use tocmark_write_inlines::leaf::write_leaf;
use tocmark_write_pending::pending::Pending;
use tocmark_write_renderer::renderer::Renderer;

/// A unit, and what is known of it.
#[derive(Clone, Copy)]
pub struct KnownUnit<'u> {
    /// The unit, with what is kept beside its events.
    pub pending: &'u Pending,
    /// The findings over its events.
    pub found: &'u Findings,
    /// The event after it, if there is one.
    pub next: Option<&'u OwnedEvent>,
}

/// Writes a unit.
///
/// An `Err` is `UnexpectedEvent` where the unit has a node that is where it may not, an End too many or
/// a container that isn't closed, and `OutOfMemory` where memory ran out; some of the unit may be written
/// then.
pub fn write_unit<'a, R: Reader>(
    renderer: &mut Renderer<'a>,
    task: &Task<'_, '_, '_, R>,
    unit: KnownUnit<'a>,
) -> Result<(), Error>
    requires found { let job = task.now.job in
        AreFindings (R.reading task.now.reader.now) (options_in job) job.flags
        unit.pending.now.events unit.found.now }
    requires asked { AsksLow task.now.manner.delimiters }
    ensures spelled { (f : Trees) → flat f ≡ unit.entry.pending.now.events
        → OpensLow task.now.manner.delimiters (levels_of renderer.old)
        → let s = setting_in task.now.job (R.reading task.now.reader.now) in
        let m = manner_view task.now.manner in
        let a = around [] [] (following_view unit.entry.next) in
        Comes result renderer.new
        (spelling s m f a (levels_of renderer.old) (page_of renderer.old)) }
    ensures mark { renderer.new.at_mark ≡ renderer.old.at_mark }
{
    let events = unit.pending.events();
    let ends = unit.pending.ends();
    let mut place = 0;
    while place < events.len() {
        let around = Neighbours {
            pending: unit.pending,
            unit: events,
            ends,
            place,
            found: unit.found,
            next: unit.next,
        };
        let event = &events[place];
        match &event.event {
            EventOf::Start(tag) => {
                let passed = start_before(renderer, task, &event.event, tag, around)?;
                place += 1 + passed;
            }
            EventOf::End(_) => {
                end(renderer, task.job.alloc, task.job.options)?;
                place += 1;
            }
            _ => {
                write_leaf(renderer, task.job, task.manner, event, beside_of(around))?;
                place += 1;
            }
        }
    }
    Ok(())
}
