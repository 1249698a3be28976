//! The marker of emphasis in the preferred layout.

ghost use Rattle.std.specs.Prelude.{◌≡◌, if◌then◌else◌, bytes_eq, codes, encode_utf8};
ghost use Rattle.tocmark_spelling.specs.Look.{Look};
ghost use Rattle.tocmark_spelling.specs.Page.{Path, Page};
ghost use Rattle.tocmark_spelling.specs.declared.plan.Layout.TheVariants.{Preferred};
ghost use Rattle.tocmark_spelling.specs.Marker.{preferred_marker};
ghost use Rattle.tocmark_write_emphasis.specs.Facts.{IsNode, IsPlace, GivesText};

use crate::facts::{EmphasisEvents, NodeSurroundings};
use crate::runs::fits_underscore;
use std::alloc::{AllocError, Global};
use tocmark_event::reader::Reader;

/// Whether a marker is `*`.
fn is_star(marker: char) -> bool
    ensures { result ≡ bytes_eq (encode_utf8 marker) (codes "*") }
{
    marker == '*'
}

/// The other one of the two markers.
fn other_token(marker: char) -> &'static str
    ensures { result.now ≡
        (if bytes_eq (encode_utf8 marker) (codes "*") then codes "_" else codes "*") }
{
    if is_star(marker) { "_" } else { "*" }
}

/// The marker of emphasis: `_` if it is preferred and may be here, else the one asked for, but not
/// the one of the emphasis round it.
pub fn preferred_marker<R: Reader>(
    alloc: Global,
    reader: &R,
    asked: char,
    node: &EmphasisEvents,
    place: &NodeSurroundings,
) -> Result<String, AllocError>
    ensures { (l : Look) (path : Path) (p : Page)
        → IsNode node.now l → IsPlace Preferred place.now (encode_utf8 asked) l path p
        → GivesText (R.reading reader.now) result (λ s.
        preferred_marker s (encode_utf8 asked) l path p) }
{
    let fits = fits_underscore(alloc, reader, place.last_character, node.next)?;
    let mut text = String::new(alloc);
    if node.prefers && fits {
        text.push_str("_")?;
    } else if place.in_same && (!is_star(asked) || fits) {
        text.push_str(other_token(asked))?;
    } else {
        text.push(asked)?;
    }
    Ok(text)
}
