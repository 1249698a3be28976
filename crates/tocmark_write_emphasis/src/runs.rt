//! The marker by runs.

ghost use Rattle.std.specs.Prelude.{◌≡◌, ◌<◌, ◌||◌, ℕ, List, Option, IfOk};
ghost use Rattle.tocmark_spelling.specs.Look.{Look};
ghost use Rattle.tocmark_spelling.specs.Page.{Level, Path, Page};
ghost use Rattle.tocmark_spelling.specs.declared.plan.Layout.TheVariants.{Runs};
ghost use Rattle.tocmark_spelling.specs.Edges.{is_punctuation};
ghost use Rattle.tocmark_spelling.specs.Marker.{fits_underscore, beside_parent, marker_by_runs};
ghost use Rattle.tocmark_spelling.specs.Words.{same_truth};
ghost use Rattle.tocmark_write_emphasis.specs.Facts.{IsNode, IsNearest, IsPlace, Gives};

use crate::boundary::is_boundary;
use crate::facts::{EmphasisEvents, NodeSurroundings, Parent, other_marker};
use std::alloc::{AllocError, Global};
use tocmark_event::reader::Reader;

/// Whether `_` may be between these characters.
pub fn fits_underscore<R: Reader>(
    alloc: Global,
    reader: &R,
    before: Option<char>,
    after: Option<char>,
) -> Result<bool, AllocError>
    ensures { Gives (R.reading reader.now) result (λ s. fits_underscore s before after) }
{
    if is_boundary(alloc, reader, before)? {
        is_boundary(alloc, reader, after)
    } else {
        Ok(false)
    }
}

/// Whether a character is there, no white space, and a boundary.
pub fn is_punctuation<R: Reader>(
    alloc: Global,
    reader: &R,
    character: Option<char>,
) -> Result<bool, AllocError>
    ensures { Gives (R.reading reader.now) result (λ s. is_punctuation s character) }
{
    match character {
        None => Ok(false),
        Some(c) => {
            if c.is_whitespace() {
                Ok(false)
            } else {
                is_boundary(alloc, reader, character)
            }
        }
    }
}

/// Whether a node takes another marker than its parent's, which is the one that is asked for.
fn parts_from<R: Reader>(
    alloc: Global,
    reader: &R,
    parent: Parent,
    after: Option<char>,
) -> Result<bool, AllocError>
    ensures { Gives (R.reading reader.now) result (λ s.
        same_truth parent.same_start parent.same_finish || is_punctuation s after) }
{
    if parent.same_start == parent.same_finish {
        Ok(true)
    } else {
        is_punctuation(alloc, reader, after)
    }
}

/// By runs: another marker than the parent's, if they begin and end together or apart, or punctuation
/// follows.
fn beside_parent<R: Reader>(
    alloc: Global,
    reader: &R,
    asked: char,
    after: Option<char>,
    parent: Option<Parent>,
) -> Result<char, AllocError>
    ensures marker { (l : Look) (level : Option Level) (p : Page)
        → l.opening.after ≡ after → IsNearest Runs parent level l p
        → Gives (R.reading reader.now) result (λ s. beside_parent s asked l level p) }
    ensures low { asked < 128 → IfOk result (λ marker. marker < 128) }
{
    match parent {
        None => Ok(asked),
        Some(parent) => {
            if parent.marker == asked && parts_from(alloc, reader, parent, after)? {
                Ok(other_marker(asked))
            } else {
                Ok(asked)
            }
        }
    }
}

/// The marker by runs: `*` where `_` couldn't be; after a closing the one that wasn't written
/// last; `_` where it is preferred; else that asked for, or another than the parent's.
pub fn marker_by_runs<R: Reader>(
    alloc: Global,
    reader: &R,
    asked: char,
    node: &EmphasisEvents,
    place: &NodeSurroundings,
) -> Result<char, AllocError>
    ensures marker { (token : List ℕ) (l : Look) (path : Path) (p : Page)
        → IsNode node.now l → IsPlace Runs place.now token l path p
        → Gives (R.reading reader.now) result (λ s. marker_by_runs s asked l path p) }
    ensures low { asked < 128 → IfOk result (λ marker. marker < 128) }
{
    if !fits_underscore(alloc, reader, node.opening.before, node.closing.after)? {
        return Ok('*');
    }
    if node.follows_closing {
        return Ok(if place.last_byte == b'_' { '*' } else { '_' });
    }
    if node.prefers {
        return Ok('_');
    }
    beside_parent(alloc, reader, asked, node.opening.after, place.parent)
}
