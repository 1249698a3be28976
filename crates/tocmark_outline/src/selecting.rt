//! The events of links, or of headings.

ghost use Rattle.std.specs.Prelude.{◌≡◌, IfOk, OnOk, map, string_bytes};
ghost use Rattle.serde_json.specs.Written.{compact_text};
ghost use Rattle.tocmark_event.specs.Text.{text_of};
ghost use Rattle.tocmark_event.specs.View.{event_view, tag_view};
ghost use Rattle.tocmark_outline.specs.Outline.{depth_after, is_wanted, listed, select, selected, selection_view, placed};

use std::alloc::{AllocError, Global};
use tocmark_event::event::{Event, ParserOptions, Tag};
use tocmark_event::reader::Reader;
use tocmark_json::printing::ranged_to_text;
use tocmark_marked::MarkedReader;

/// What is wanted of a text.
#[derive(Clone, Copy)]
pub enum Wanted {
    /// Links and images.
    Links,
    Headings,
}

/// The events that are kept so far, and how many containers are open since the last wanted one began.
#[derive(Drop)]
struct Selection {
    kept: Vec<(Event<'static>, (usize, usize))>,
    depth: usize,
}

/// Whether a container is wanted.
fn is_wanted(wanted: Wanted, tag: &Tag<'_>) -> bool
    ensures { result ≡ is_wanted wanted (tag_view text_of tag.now) }
{
    match wanted {
        Wanted::Links => match tag {
            Tag::Link { .. } | Tag::Image { .. } => true,
            _ => false,
        },
        Wanted::Headings => match tag {
            Tag::Heading { .. } => true,
            _ => false,
        },
    }
}

/// How many containers are open after an event, counted from a wanted one.
fn depth_after(wanted: Wanted, depth: usize, event: &Event<'_>) -> usize
    ensures { result ≡ depth_after wanted depth (event_view text_of event.now) }
{
    match event {
        Event::Start(tag) => {
            if depth > 0 || is_wanted(wanted, tag) {
                depth.saturating_add(1)
            } else {
                0
            }
        }
        Event::End(_) => depth.saturating_sub(1),
        _ => depth,
    }
}

impl Selection {
    /// Keeps an event, if it belongs to a wanted container.
    #[tactic(auto, unfolding(crate::specs::Outline::select))]
    fn add(
        &mut self,
        alloc: Global,
        wanted: Wanted,
        pair: &(Event<'_>, (usize, usize)),
    ) -> Result<(), AllocError>
        ensures { OnOk result
            (selection_view self.new ≡ select wanted (selection_view self.old) (placed pair.now)) }
    {
        let depth = depth_after(wanted, self.depth, &pair.0);
        if self.depth > 0 || depth > 0 {
            let event = pair.0.to_static(alloc)?;
            self.kept.push((event, pair.1))?;
        }
        self.depth = depth;
        Ok(())
    }
}

/// The events of the outermost wanted containers, with their ranges.
fn selected(
    alloc: Global,
    wanted: Wanted,
    events: &[(Event<'static>, (usize, usize))],
) -> Result<Vec<(Event<'static>, (usize, usize))>, AllocError>
    ensures { IfOk result (λ kept.
        map placed kept.items ≡ selected wanted (map placed events.now)) }
{
    let mut selection = Selection {
        kept: Vec::new(alloc),
        depth: 0,
    };
    for pair in events {
        selection.add(alloc, wanted, pair)?;
    }
    let Selection { kept, .. } = selection;
    Ok(kept)
}

/// The JSON of the events of the wanted containers of a text.
fn listed(
    alloc: Global,
    text: &str,
    flags: ParserOptions,
    wanted: Wanted,
) -> Result<String, AllocError>
    ensures { IfOk result (λ output.
        string_bytes output ≡ compact_text (listed wanted flags text.now)) }
{
    let reading = MarkedReader.read(alloc, text, flags)?;
    let kept = selected(alloc, wanted, &reading.events)?;
    let output = ranged_to_text(alloc, &kept)?;
    Ok(output)
}

/// Parses a text under these flags, and returns the events of its links and images as JSON, each with its range in bytes: a
/// link's Start, what is in it, and its End. An image in a link is among the events of that link. `docs/JSON.md` has the form.
///
/// ```
/// let json = links(alloc, "See [a](/b).", GFM)?;
/// ```
///
/// It fails if memory runs out.
pub fn links(alloc: Global, text: &str, flags: ParserOptions) -> Result<String, AllocError>
    ensures { IfOk result (λ output.
        string_bytes output ≡ compact_text (listed Wanted.Links flags text.now)) }
{
    listed(alloc, text, flags, Wanted::Links)
}

/// Parses a text under these flags, and returns the events of its headings as JSON, each with its range in bytes.
///
/// ```
/// let json = headings(alloc, "# One\n\ntwo", GFM)?;
/// ```
///
/// It fails if memory runs out.
pub fn headings(alloc: Global, text: &str, flags: ParserOptions) -> Result<String, AllocError>
    ensures { IfOk result (λ output.
        string_bytes output ≡ compact_text (listed Wanted.Headings flags text.now)) }
{
    listed(alloc, text, flags, Wanted::Headings)
}
