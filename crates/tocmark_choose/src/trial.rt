//! A unit for which spellings are tried, and how it is written in one of them.

ghost use Rattle.tocmark_write_renderer.specs.JobOf.{manner_view};
ghost use Rattle.tocmark_write_renderer.specs.WriterOf.{site_of};
ghost use Rattle.tocmark_choose.specs.TrialOf.{IsFront, IsLow, IsReady, WritesIn};

use crate::tools::Tools;
use indexmap::IndexSet;
use tocmark_event::event::{OwnedEvent, ParserOptions};
use tocmark_event::options::Error;
use tocmark_event::reader::Reader;
use tocmark_write_emphasis::task::Task;
use tocmark_write_pending::pending::Pending;
use tocmark_write_renderer::job::{Job, Manner};
use tocmark_write_renderer::renderer::Renderer;
use tocmark_write_unit::block::{KnownUnit, write_unit};
use tocmark_write_unit::findings::Findings;

/// The texts of a unit, each after the definitions that it needs, that weren't read back.
pub(crate) type Refused = IndexSet<String>;

/// What stays the same while spellings of a unit are tried.
#[derive(Drop)]
pub struct Trial<'t, 'o, R> {
    pub tools: &'t Tools<'o, R>,
    /// The flags of the parser that the unit is written for.
    pub flags: ParserOptions,
    pub unit: &'t Pending,
    /// What is found out of the unit's events.
    pub found: &'t Findings,
    /// The event after the unit, if there is one.
    pub next: Option<&'t OwnedEvent>,
    /// The label that is reserved for lists, if there is one.
    pub label: Option<&'t str>,
}

/// Writes the unit of a trial in one manner, after a mark. An `Err` is as in `write_unit`; the
/// renderer has gone back then.
#[inline(always)]
pub(crate) fn write<'t, R: Reader>(
    trial: &Trial<'t, '_, R>,
    renderer: &mut Renderer<'t>,
    manner: &Manner<'_>,
) -> Result<(), Error>
    requires ready { IsReady R.reading trial.now }
    requires low { IsLow (manner_view manner.now) }
    requires front { IsFront (site_of renderer.old) }
    ensures { let m = manner_view manner.now in
        WritesIn R.reading trial.now renderer.old renderer.new m result }
{
    let task = Task {
        job: Job {
            alloc: trial.tools.alloc,
            options: &trial.tools.options,
            flags: trial.flags,
            label: trial.label,
        },
        reader: trial.tools.reader,
        manner: *manner,
    };
    let unit = KnownUnit {
        pending: trial.unit,
        found: trial.found,
        next: trial.next,
    };
    renderer.mark();
    let result = write_unit(renderer, &task, unit);
    if result.is_err() {
        renderer.back();
    }
    result
}
