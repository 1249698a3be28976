//! The trials of a unit.

ghost use Rattle.std.specs.Prelude.{◌≡◌};
ghost use Rattle.test_script.specs.Findings.{HasFindings};

use crate::alike::{difference, difference_in_taken};
use crate::midst::enter;
use crate::report::{Report, TrialName};
use crate::unit::{Outcome, Unit, write};
use std::alloc::{AllocError, Global};
use tocmark_choose::manners::{fallback_plans, run_manners, source_manners, with_all_markers};
use tocmark_event::event::OwnedEvent;
use tocmark_event::options::Options;
use tocmark_spelling::trail::Trail;
use tocmark_write_renderer::job::Manner;
use tocmark_write_renderer::parts::Parts;
use tocmark_write_renderer::renderer::Renderer;

/// Where a unit begins.
#[derive(Drop)]
pub struct Front {
    /// Line feeds at the end of all that was written, prefixes not counted.
    newlines: usize,
    /// What the last unit left.
    trail: Trail,
}

impl Front {
    /// The front of the first unit.
    pub fn new() -> Front {
        Front {
            newlines: 0,
            trail: Trail::new(),
        }
    }

    /// A renderer of the unit that begins here.
    fn renderer<'u>(&self, alloc: Global) -> Result<Renderer<'u>, AllocError> {
        let trail = self.trail.copied(alloc)?;
        Ok(Renderer::resume(alloc, String::new(alloc), self.newlines, trail))
    }

    /// Goes on to where a unit ended.
    fn pass(&mut self, left: Parts) {
        self.newlines = left.newlines;
        self.trail = left.trail;
    }
}

/// What stays the same while a unit is tried.
#[derive(Clone, Copy)]
struct Trial<'t, 'u, 'o> {
    unit: &'t Unit<'u, 'o>,
    front: &'t Front,
    /// The Start before it, if it is the body of a container.
    entered: Option<&'u OwnedEvent>,
}

/// Has a renderer of the unit go where the mark is set.
fn begin<'u>(trial: Trial<'_, 'u, '_>, renderer: &mut Renderer<'u>) -> Result<(), AllocError> {
    match trial.entered {
        Some(event) => enter(renderer, trial.unit.alloc, event),
        None => Ok(()),
    }
}

/// What differs between two renderers, of which both wrote the same, if anything.
fn difference_after(
    renderer: &mut Renderer<'_>,
    alone: &mut Renderer<'_>,
    is_alike: bool,
    start: usize,
) -> Result<Option<&'static str>, AllocError>
    ensures mark { renderer.new.at_mark ≡ renderer.old.at_mark }
{
    if !is_alike {
        return Ok(Some("whether it is written"));
    }
    match difference(renderer, alone, start)? {
        Some(what) => Ok(Some(what)),
        None => difference_in_taken(renderer, alone),
    }
}

/// Writes a unit in one manner after a mark, and goes back; `alone`, which is new, writes it, too.
fn try_beside<'u>(
    trial: Trial<'_, 'u, '_>,
    renderer: &mut Renderer<'u>,
    alone: &mut Renderer<'u>,
    place: TrialName,
    manner: &Manner<'_>,
    report: &mut Report,
) -> Result<(), AllocError>
    requires { HasFindings trial.unit.now }
{
    begin(trial, alone)?;
    let unit = trial.unit;
    let start = alone.text().len();
    let before = difference(renderer, alone, start)?;
    report.note_difference(place, "before it", before)?;
    renderer.mark();
    let outcome = write(unit, renderer, manner);
    let is_alike = write(unit, alone, manner) == outcome;
    let behind = difference_after(renderer, alone, is_alike, start)?;
    renderer.back();
    report.note(outcome);
    report.note_difference(place, "behind it", behind)
}

/// Tries the unit in one manner, beside a renderer of its own.
fn try_one<'u>(
    trial: Trial<'_, 'u, '_>,
    renderer: &mut Renderer<'u>,
    number: usize,
    manner: &Manner<'_>,
    report: &mut Report,
) -> Result<(), AllocError>
    requires { HasFindings trial.unit.now }
{
    let first = usize::from(trial.entered.is_some());
    let place = TrialName {
        first,
        manner: number,
    };
    match trial.front.renderer(trial.unit.alloc) {
        Ok(mut alone) => try_beside(trial, renderer, &mut alone, place, manner, report),
        Err(error) => Err(error),
    }
}

/// Tries the unit in each of these manners, by one renderer, which is new.
fn try_each<'u>(
    trial: Trial<'_, 'u, '_>,
    renderer: &mut Renderer<'u>,
    manners: &[Manner<'_>],
    report: &mut Report,
) -> Result<(), AllocError>
    requires { HasFindings trial.unit.now }
{
    begin(trial, renderer)?;
    for (place, manner) in manners.iter().enumerate() {
        try_one(trial, renderer, place + 1, manner, report)?;
    }
    Ok(())
}

/// Tries the unit in each of these manners, after this Start if it is a body.
fn try_behind<'u>(
    unit: &Unit<'u, '_>,
    front: &Front,
    entered: Option<&'u OwnedEvent>,
    manners: &[Manner<'_>],
    report: &mut Report,
) -> Result<(), AllocError>
    requires { HasFindings unit.now }
{
    let trial = Trial {
        unit,
        front,
        entered,
    };
    match front.renderer(unit.alloc) {
        Ok(mut renderer) => try_each(trial, &mut renderer, manners, report),
        Err(error) => Err(error),
    }
}

/// The manners in which units are tried, and the first one again.
fn manners<'a>(alloc: Global, options: &Options<'a>) -> Result<Vec<Manner<'a>>, AllocError> {
    let mut manners = Vec::new(alloc);
    manners.extend_from_slice(&source_manners(options))?;
    manners.extend_from_slice(&run_manners(options))?;
    for plan in fallback_plans() {
        manners.extend_from_slice(&with_all_markers(plan))?;
    }
    if let Some(first) = manners.first() {
        let first = *first;
        manners.push(first)?;
    }
    Ok(manners)
}

/// Goes on to the front of the next unit, if this one is written in the manner.
fn pass(unit: &Unit<'_, '_>, front: &mut Front, manner: &Manner<'_>) -> Result<(), AllocError>
    requires { HasFindings unit.now }
{
    let mut renderer = front.renderer(unit.alloc)?;
    if write(unit, &mut renderer, manner) == Outcome::Written {
        front.pass(renderer.into_parts());
    }
    Ok(())
}

/// Tries the unit in all manners, and goes on to the front of the next one.
pub fn try_unit(
    unit: &Unit<'_, '_>,
    front: &mut Front,
    report: &mut Report,
) -> Result<(), AllocError>
    requires { HasFindings unit.now }
{
    let manners = manners(unit.alloc, unit.options)?;
    try_behind(unit, front, None, &manners, report)?;
    match manners.first() {
        Some(first) => pass(unit, front, first),
        None => Ok(()),
    }
}

/// Tries the body of a container in all manners, after its Start.
pub fn try_body<'u>(
    body: &Unit<'u, '_>,
    start: &'u OwnedEvent,
    front: &Front,
    report: &mut Report,
) -> Result<(), AllocError>
    requires { HasFindings body.now }
{
    let manners = manners(body.alloc, body.options)?;
    try_behind(body, front, Some(start), &manners, report)
}
