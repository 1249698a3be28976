//! The marker by shared runs, and by the rule of three.

ghost use Rattle.std.specs.Prelude.{◌≡◌, ◌<◌, ◌+◌, ◌&&◌, not, ℕ, List, Option, IfOk, IfSome, unwrap_or};
ghost use Rattle.tocmark_spelling.specs.Look.{Look};
ghost use Rattle.tocmark_spelling.specs.Page.{Level, Path, Page};
ghost use Rattle.tocmark_spelling.specs.Marker.{is_divisible, copies_marker, after_closing, splits, shares_finish, may_split, shares_start, completes_three, shares_marker, inside_parent, marker_by_sharing, literal_marker};
ghost use Rattle.tocmark_write_emphasis.specs.declared.facts.NodeSurroundings.{NodeSurroundings};
ghost use Rattle.tocmark_write_emphasis.specs.Facts.{tag_at, IsNode, IsParent, IsNearest, IsPlace, AreLow, Gives};

use crate::facts::{
    EmphasisEvents, NodeSurroundings, Parent, is_divisible, is_marker, other_marker,
};
use crate::runs::is_punctuation;
use std::alloc::{AllocError, Global};
use tocmark_event::reader::Reader;
use tocmark_spelling::plan::{Delimiters, Layout, TextSpelling};

/// Whether a node that follows a closing takes the marker written last.
fn copies_marker(layout: Layout, node: &EmphasisEvents, place: &NodeSurroundings) -> bool
    ensures { (token : List ℕ) (l : Look) (path : Path) (p : Page)
        → IsNode node.now l → IsPlace layout place.now token l path p
        → result ≡ copies_marker layout l p }
{
    match layout {
        Layout::Shared { adjacent, .. } => adjacent,
        Layout::RuleThree => {
            place.last_run % 3 != node.width % 3 || is_divisible(place.last_run)
        }
        _ => false,
    }
}

/// The marker of a node that follows a closing: the one written last, or the other one.
fn after_closing(layout: Layout, node: &EmphasisEvents, place: &NodeSurroundings) -> char
    ensures marker { (token : List ℕ) (l : Look) (path : Path) (p : Page)
        → IsNode node.now l → IsPlace layout place.now token l path p
        → result ≡ after_closing layout l p }
    ensures low { result < 128 }
{
    let last = char::from(place.last_byte);
    if copies_marker(layout, node, place) {
        if is_marker(last) { last } else { '*' }
    } else {
        other_marker(last)
    }
}

fn may_split(layout: Layout) -> bool
    ensures { result ≡ may_split layout }
{
    match layout {
        Layout::Shared { split, .. } => split,
        _ => false,
    }
}

fn shares_finish(layout: Layout) -> bool
    ensures { result ≡ shares_finish layout }
{
    match layout {
        Layout::Shared { ends, .. } => ends,
        _ => false,
    }
}

/// Whether the widths of a node's runs could make one a part of the other.
fn completes_runs(opening: usize, closing: usize) -> bool
    ensures { result ≡ (not (is_divisible opening) && is_divisible (opening + closing)) }
{
    !is_divisible(opening) && is_divisible(opening % 3 + closing % 3)
}

/// Whether the runs of a node could be read as parts of each other.
fn splits<R: Reader>(
    alloc: Global,
    reader: &R,
    layout: Layout,
    node: &EmphasisEvents,
) -> Result<bool, AllocError>
    ensures { (l : Look) → IsNode node.now l
        → Gives (R.reading reader.now) result (λ s. splits s (may_split layout) l) }
{
    if may_split(layout) && completes_runs(node.opening.width, node.closing.width) {
        is_punctuation(alloc, reader, node.closing.before)
    } else {
        Ok(false)
    }
}

/// Whether a node that begins with its parent takes the parent's marker.
fn shares_start<R: Reader>(
    alloc: Global,
    reader: &R,
    layout: Layout,
    node: &EmphasisEvents,
    same_finish: bool,
) -> Result<bool, AllocError>
    ensures { (l : Look) → IsNode node.now l
        → Gives (R.reading reader.now) result (λ s.
        shares_start s layout (tag_at node.now) l same_finish) }
{
    if same_finish {
        Ok(node.strong)
    } else {
        Ok(!splits(alloc, reader, layout, node)?)
    }
}

/// By the rule of three: whether the parent's run and what the node opens with make up a multiple of
/// three.
fn completes_three(layout: Layout, node: &EmphasisEvents, parent: Parent) -> bool
    ensures { (l : Look) (level : Level) (p : Page)
        → IsNode node.now l → IsParent layout parent level l p
        → result ≡ completes_three layout l level p }
{
    match layout {
        Layout::RuleThree => completes_runs(parent.run, node.width),
        _ => false,
    }
}

/// Whether a node takes its parent's marker.
fn shares_marker<R: Reader>(
    alloc: Global,
    reader: &R,
    layout: Layout,
    node: &EmphasisEvents,
    parent: Parent,
) -> Result<bool, AllocError>
    ensures { (l : Look) (level : Level) (p : Page)
        → IsNode node.now l → IsParent layout parent level l p
        → Gives (R.reading reader.now) result (λ s.
        shares_marker s layout (tag_at node.now) l level p) }
{
    if parent.same_start {
        shares_start(alloc, reader, layout, node, parent.same_finish)
    } else {
        let together = parent.same_finish && shares_finish(layout);
        Ok(completes_three(layout, node, parent) || together)
    }
}

/// The marker of a node in its parent: the parent's or the other one; without a parent, the one asked
/// for.
fn inside_parent<R: Reader>(
    alloc: Global,
    reader: &R,
    layout: Layout,
    asked: char,
    node: &EmphasisEvents,
    parent: Option<Parent>,
) -> Result<char, AllocError>
    ensures marker { (l : Look) (level : Option Level) (p : Page)
        → IsNode node.now l → IsNearest layout parent level l p
        → Gives (R.reading reader.now) result (λ s.
        inside_parent s layout asked (tag_at node.now) l level p) }
    ensures low { asked < 128 → IfSome parent (λ f. f.marker < 128)
        → IfOk result (λ marker. marker < 128) }
{
    match parent {
        None => Ok(asked),
        Some(parent) => {
            if shares_marker(alloc, reader, layout, node, parent)? {
                Ok(parent.marker)
            } else {
                Ok(other_marker(parent.marker))
            }
        }
    }
}

fn by_sharing<R: Reader>(
    alloc: Global,
    reader: &R,
    layout: Layout,
    asked: char,
    node: &EmphasisEvents,
    place: &NodeSurroundings,
) -> Result<char, AllocError>
    ensures marker { (token : List ℕ) (l : Look) (path : Path) (p : Page)
        → IsNode node.now l → IsPlace layout place.now token l path p
        → Gives (R.reading reader.now) result (λ s.
        marker_by_sharing s layout asked (tag_at node.now) l path p) }
    ensures low { AreLow asked node.now place.now → IfOk result (λ marker. marker < 128) }
{
    if node.follows_closing {
        Ok(after_closing(layout, node, place))
    } else {
        inside_parent(alloc, reader, layout, asked, node, place.parent)
    }
}

/// With literal texts: the marker that is in a text before or after the node.
fn literal_marker(text: TextSpelling, node: &EmphasisEvents) -> Option<char>
    ensures marker { (l : Look) → IsNode node.now l
        → result ≡ literal_marker text l }
    ensures low { (asked : ℕ) (place : NodeSurroundings)
        → AreLow asked node.now place → IfSome result (λ c. c < 128) }
{
    match text {
        TextSpelling::LiteralEntities => node.opening.literal_before.or(node.closing.literal_after),
        _ => None,
    }
}

/// The marker by shared runs or the rule of three: one that is beside the node in a literal text,
/// else by what was written and by the parent.
pub fn shared_marker<R: Reader>(
    alloc: Global,
    reader: &R,
    delimiters: &Delimiters<'_>,
    asked: char,
    node: &EmphasisEvents,
    place: &NodeSurroundings,
) -> Result<char, AllocError>
    ensures marker { let layout = delimiters.now.layout in
        (token : List ℕ) (l : Look) (path : Path) (p : Page)
        → IsNode node.now l → IsPlace layout place.now token l path p
        → Gives (R.reading reader.now) result (λ s.
        unwrap_or (literal_marker delimiters.now.text l)
        (marker_by_sharing s layout asked (tag_at node.now) l path p)) }
    ensures low { AreLow asked node.now place.now → IfOk result (λ marker. marker < 128) }
{
    match literal_marker(delimiters.text, node) {
        Some(marker) => Ok(marker),
        None => by_sharing(alloc, reader, delimiters.layout, asked, node, place),
    }
}
