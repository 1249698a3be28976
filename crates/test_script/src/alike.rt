//! Whether two renderers are alike.

ghost use Rattle.std.specs.Prelude.{◌≡◌};

use std::alloc::AllocError;
use tocmark_spelling::trail::Carried;
use tocmark_write_renderer::parts::{Held, Reference};
use tocmark_write_renderer::renderer::Renderer;

/// Round how many places runs of markers are compared.
const PLACES: usize = 32;

fn is_same_reference(left: &Reference, right: &Reference) -> bool {
    left.label == right.label && left.destination == right.destination && left.title == right.title
}

fn are_same_references(left: &[Reference], right: &[Reference]) -> bool {
    if left.len() != right.len() {
        return false;
    }
    for (left, right) in left.iter().zip(right) {
        if !is_same_reference(left, right) {
            return false;
        }
    }
    true
}

fn is_same_carried(left: Carried, right: Carried) -> bool {
    left.owed == right.owed
        && left.last == right.last
        && left.last_list == right.last_list
        && left.raw_end == right.raw_end
        && left.open_html == right.open_html
}

fn is_same_held(left: &Held, right: &Held) -> bool {
    left.text == right.text && left.source == right.source && left.after_close == right.after_close
}

/// Whether the stretches of texts that were taken are the same.
fn are_same_held(
    left: Result<Option<Held>, AllocError>,
    right: Result<Option<Held>, AllocError>,
) -> Result<bool, AllocError> {
    let are_same = match (&left, &right) {
        (Ok(Some(left)), Ok(Some(right))) => Ok(is_same_held(left, right)),
        (Ok(left), Ok(right)) => Ok(left.is_none() && right.is_none()),
        _ => Err(AllocError),
    };
    drop(left);
    drop(right);
    are_same
}

/// Whether the open containers are as many, and put the same before each line.
fn are_same_containers(left: &Renderer<'_>, right: &Renderer<'_>) -> bool {
    left.depth() == right.depth() && left.prefix() == right.prefix()
}

/// Whether the runs of a marker round a place of the text are as long.
fn is_same_run(
    left: &mut Renderer<'_>,
    right: &mut Renderer<'_>,
    place: usize,
    marker: u8,
) -> Result<bool, AllocError>
    ensures mark { left.new.at_mark ≡ left.old.at_mark }
{
    let run = left.run_around(place, marker)?;
    Ok(run == right.run_around(place, marker)?)
}

/// Whether the last runs of markers are as long, and those round the places from one on.
fn are_same_runs(
    left: &mut Renderer<'_>,
    right: &mut Renderer<'_>,
    start: usize,
) -> Result<bool, AllocError>
    ensures mark { left.new.at_mark ≡ left.old.at_mark }
{
    for place in start..start.saturating_add(PLACES) {
        if !is_same_run(left, right, place, b'*')? || !is_same_run(left, right, place, b'_')? {
            return Ok(false);
        }
    }
    let last = left.last_run()?;
    Ok(last == right.last_run()?)
}

/// What is written or carried along otherwise by one renderer than by another one, if anything.
fn difference_in_page(left: &Renderer<'_>, right: &Renderer<'_>) -> Option<&'static str> {
    if left.text() != right.text() {
        Some("the text")
    } else if left.newlines() != right.newlines() {
        Some("the line feeds")
    } else if !are_same_references(left.references(), right.references()) {
        Some("the definitions")
    } else if !is_same_carried(left.carried(), right.carried()) {
        Some("what is carried along")
    } else if !are_same_containers(left, right) {
        Some("the open containers")
    } else {
        None
    }
}

/// What is in one renderer otherwise than in another one, if anything. Runs of markers are compared
/// round the places from `start` on.
pub fn difference(
    left: &mut Renderer<'_>,
    right: &mut Renderer<'_>,
    start: usize,
) -> Result<Option<&'static str>, AllocError>
    ensures mark { left.new.at_mark ≡ left.old.at_mark }
{
    if let Some(what) = difference_in_page(left, right) {
        return Ok(Some(what));
    }
    if !are_same_runs(left, right, start)? {
        return Ok(Some("the runs of markers"));
    }
    Ok(None)
}

/// What a renderer would take next otherwise than another one, if anything. Both take it.
pub fn difference_in_taken(
    left: &mut Renderer<'_>,
    right: &mut Renderer<'_>,
) -> Result<Option<&'static str>, AllocError>
    ensures mark { left.new.at_mark ≡ left.old.at_mark }
{
    if left.take_quote_line()? != right.take_quote_line()? {
        return Ok(Some("the quote line"));
    }
    match are_same_held(left.take_held(), right.take_held()) {
        Ok(true) => Ok(None),
        Ok(false) => Ok(Some("the stretch of texts")),
        Err(error) => Err(error),
    }
}
