//! What emphasis and strong emphasis open and close with, in each layout.

ghost use Rattle.std.specs.Prelude.{◌≡◌, ◌<◌, Bool, IfOk, string_bytes, encode_utf8};
ghost use Rattle.tocmark_spelling.specs.Look.{Look};
ghost use Rattle.tocmark_spelling.specs.Page.{Path, Page};
ghost use Rattle.tocmark_spelling.specs.declared.plan.Layout.TheVariants.{Preferred, Runs, Uniform};
ghost use Rattle.tocmark_spelling.specs.PlanOf.{manner_of};
ghost use Rattle.tocmark_spelling.specs.Marker.{asked_token, in_width, marker_in, marker};
ghost use Rattle.tocmark_write_emphasis.specs.Facts.{tag_of, tag_at, markers_of, asked_by, shared_token};
ghost use Rattle.tocmark_write_emphasis.specs.Facts.{IsNode, IsPlace, HasLow, AreLow, GivesText};

use crate::facts::{EmphasisEvents, NodeSurroundings, asked_marker};
use crate::preferred::preferred_marker;
use crate::runs::marker_by_runs;
use crate::sharing::shared_marker;
use std::alloc::{AllocError, Global};
use tocmark_event::reader::Reader;
use tocmark_spelling::plan::{Delimiters, Layout};

/// The marker as often as the node is wide.
fn in_width(alloc: Global, strong: bool, marker: char) -> Result<String, AllocError>
    ensures { marker < 128 → IfOk result (λ text.
        string_bytes text ≡ in_width (tag_of strong) marker) }
{
    let mut text = String::new(alloc);
    text.push(marker)?;
    if strong {
        text.push(marker)?;
    }
    Ok(text)
}

/// The token that is asked for.
fn asked_token(
    alloc: Global,
    delimiters: &Delimiters<'_>,
    strong: bool,
) -> Result<String, AllocError>
    ensures { IfOk result (λ text.
        string_bytes text ≡ asked_token (markers_of delimiters.now) (tag_of strong)) }
{
    if strong {
        return String::from_str(alloc, delimiters.strong);
    }
    let mut text = String::new(alloc);
    text.push(delimiters.emphasis)?;
    Ok(text)
}

fn in_preferred<R: Reader>(
    alloc: Global,
    reader: &R,
    delimiters: &Delimiters<'_>,
    node: &EmphasisEvents,
    place: &NodeSurroundings,
) -> Result<String, AllocError>
    ensures { (source : Bool) (l : Look) (path : Path) (p : Page)
        → IsNode node.now l
        → IsPlace Preferred place.now (encode_utf8 delimiters.now.emphasis) l path p
        → GivesText (R.reading reader.now) result (λ s.
        marker_in Preferred s (manner_of delimiters.now source) (tag_at node.now) l path p) }
{
    if node.strong {
        String::from_str(alloc, delimiters.strong)
    } else {
        preferred_marker(alloc, reader, delimiters.emphasis, node, place)
    }
}

fn in_runs<R: Reader>(
    alloc: Global,
    reader: &R,
    delimiters: &Delimiters<'_>,
    node: &EmphasisEvents,
    place: &NodeSurroundings,
) -> Result<String, AllocError>
    ensures { (source : Bool) (l : Look) (path : Path) (p : Page)
        → IsNode node.now l
        → IsPlace Runs place.now (encode_utf8 delimiters.now.emphasis) l path p
        → AreLow (asked_by delimiters.now node.now.strong) node.now place.now
        → GivesText (R.reading reader.now) result (λ s.
        marker_in Runs s (manner_of delimiters.now source) (tag_at node.now) l path p) }
{
    let asked = asked_marker(delimiters, node.strong);
    let marker = marker_by_runs(alloc, reader, asked, node, place)?;
    in_width(alloc, node.strong, marker)
}

fn in_sharing<R: Reader>(
    alloc: Global,
    reader: &R,
    delimiters: &Delimiters<'_>,
    node: &EmphasisEvents,
    place: &NodeSurroundings,
) -> Result<String, AllocError>
    ensures { (source : Bool) (l : Look) (path : Path) (p : Page)
        → IsNode node.now l
        → IsPlace delimiters.now.layout place.now (encode_utf8 delimiters.now.emphasis) l path p
        → AreLow (asked_by delimiters.now node.now.strong) node.now place.now
        → GivesText (R.reading reader.now) result (λ s.
        shared_token s (manner_of delimiters.now source) (tag_at node.now) l path p) }
{
    let asked = asked_marker(delimiters, node.strong);
    let marker = shared_marker(alloc, reader, delimiters, asked, node, place)?;
    in_width(alloc, node.strong, marker)
}

/// What a node of emphasis or strong emphasis opens and closes with, under these delimiters and by
/// these facts.
///
/// The facts may be those of any unit, text and open containers. In a layout that chooses among single
/// bytes the answer is the definition's where all bytes that may be chosen are ASCII. Whether `_` may
/// are beside a character past ASCII is asked of the reader.
#[tactic(auto, unfolding(tocmark_spelling::specs::Marker::marker))]
pub fn marker<R: Reader>(
    alloc: Global,
    reader: &R,
    delimiters: &Delimiters<'_>,
    node: &EmphasisEvents,
    place: &NodeSurroundings,
) -> Result<String, AllocError>
    ensures { (source : Bool) (l : Look) (path : Path) (p : Page)
        → IsNode node.now l
        → IsPlace delimiters.now.layout place.now (encode_utf8 delimiters.now.emphasis) l path p
        → HasLow delimiters.now.layout
        (asked_by delimiters.now node.now.strong) node.now place.now
        → GivesText (R.reading reader.now) result (λ s.
        marker s (manner_of delimiters.now source) (tag_at node.now) l path p) }
{
    match delimiters.layout {
        Layout::Preferred => in_preferred(alloc, reader, delimiters, node, place),
        Layout::Runs => in_runs(alloc, reader, delimiters, node, place),
        Layout::Uniform => asked_token(alloc, delimiters, node.strong),
        Layout::Shared { .. } => in_sharing(alloc, reader, delimiters, node, place),
        Layout::RuleThree => in_sharing(alloc, reader, delimiters, node, place),
    }
}
