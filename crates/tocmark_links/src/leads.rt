//! Where the links of a text lead, as the reader finds it, and where they are to lead.

ghost use Rattle.std.specs.Prelude.{◌≡◌, IfOk, IsTrue, map};
ghost use Rattle.std.specs.List.{filter_map};
ghost use Rattle.std.specs.Option.{option_copied};
ghost use Rattle.tocmark_compare.specs.Given.{given_events};
ghost use Rattle.tocmark_event.specs.Text.{text_of};
ghost use Rattle.tocmark_event.specs.View.{event_view, tag_view};
ghost use Rattle.tocmark_links.specs.Leads.{LeadTo, destinations, is_of_sort, of_sort, own_destination, own_of_tag, redirected};
ghost use Rattle.tocmark_reader.specs.Definitions.{said_view};

use crate::page::{Link, LinkKind};
use std::alloc::{AllocError, Global};
use tocmark_event::event::{Event, LinkType, ParserOptions, Tag};
use tocmark_reader::{ExtendedReader, Names, ReferenceDefinition};

/// Where the links of a page lead.
pub(crate) fn destinations<'p>(alloc: Global, links: &'p [Link]) -> Result<Vec<&'p str>, AllocError>
    ensures { IfOk result (λ all. map (λ d. d.now) all.items ≡ destinations links.now) }
{
    let mut all = Vec::with_capacity(alloc, links.len())?;
    for link in links {
        all.push(link.destination.as_str())?;
    }
    Ok(all)
}

/// Where the links of a page are to lead: each change names one by its index.
pub(crate) fn redirected<'p>(
    alloc: Global,
    links: &'p [Link],
    changes: &'p [(usize, String)],
) -> Result<Vec<&'p str>, AllocError>
    ensures { IfOk result (λ all. map (λ d. d.now) all.items
        ≡ redirected changes.now (destinations links.now)) }
{
    let mut all = destinations(alloc, links)?;
    for (number, destination) in changes {
        if *number < all.len() {
            all[*number] = destination.as_str();
        }
    }
    Ok(all)
}

/// Whether a link is a definition, or else a link or an image with its own destination.
fn is_of_sort(is_definition: bool, kind: LinkKind) -> bool
    ensures { result ≡ is_of_sort is_definition kind }
{
    match kind {
        LinkKind::Inline | LinkKind::Image => !is_definition,
        LinkKind::Definition => is_definition,
        LinkKind::Html => false,
    }
}

/// The destinations of the links of one sort.
fn of_sort<'d>(
    alloc: Global,
    is_definition: bool,
    links: &[Link],
    destinations: &[&'d str],
) -> Result<Vec<&'d str>, AllocError>
    ensures { IfOk result (λ all. map (λ d. d.now) all.items
        ≡ of_sort is_definition links.now (map (λ d. d.now) destinations.now)) }
{
    let mut all = Vec::new(alloc);
    let count = links.len().min(destinations.len());
    for i in 0..count {
        if is_of_sort(is_definition, links[i].kind) {
            all.push(destinations[i])?;
        }
    }
    Ok(all)
}

/// The destination of a link or an image, if it has one of its own.
fn own_of_tag<'e>(tag: &'e Tag<'_>) -> Option<&'e str>
    ensures { option_copied result ≡ own_of_tag (tag_view text_of tag.now) }
{
    match tag {
        Tag::Link {
            link_type: LinkType::Inline,
            dest_url,
            ..
        } => Some(dest_url.as_ref()),
        Tag::Image {
            link_type: LinkType::Inline,
            dest_url,
            ..
        } => Some(dest_url.as_ref()),
        _ => None,
    }
}

/// The destination of the link or image that an event begins, if it has one of its own.
fn own_destination<'e>(event: &'e Event<'_>) -> Option<&'e str>
    ensures { option_copied result ≡ own_destination (event_view text_of event.now) }
{
    match event {
        Event::Start(tag) => own_of_tag(tag),
        _ => None,
    }
}

/// The destinations of the links and images that have their own.
fn own_destinations<'e>(
    alloc: Global,
    events: &'e [(Event<'static>, (usize, usize))],
) -> Result<Vec<&'e str>, AllocError>
    ensures { IfOk result (λ all. map (λ d. d.now) all.items
        ≡ filter_map own_destination (given_events events.now)) }
{
    let mut all = Vec::new(alloc);
    for (event, _range) in events {
        if let Some(destination) = own_destination(event) {
            all.push(destination)?;
        }
    }
    Ok(all)
}

/// The destinations of definitions.
fn defined_destinations<'d>(
    alloc: Global,
    definitions: &'d [ReferenceDefinition],
) -> Result<Vec<&'d str>, AllocError>
    ensures { IfOk result (λ all. map (λ d. d.now) all.items
        ≡ map (λ d. (said_view d).destination) definitions.now) }
{
    let mut all = Vec::with_capacity(alloc, definitions.len())?;
    for definition in definitions {
        all.push(definition.destination.as_str())?;
    }
    Ok(all)
}

/// Whether two lists have the same texts.
fn are_same(some: &[&str], others: &[&str]) -> bool
    ensures { IsTrue result → map (λ d. d.now) some.now ≡ map (λ d. d.now) others.now }
{
    if some.len() != others.len() {
        return false;
    }
    for i in 0..some.len() {
        if some[i] != others[i] {
            return false;
        }
    }
    true
}

/// Whether the links of a text lead to the destinations of these links, in this order; whatever links of HTML lead to.
pub(crate) fn lead_to(
    alloc: Global,
    text: &str,
    flags: ParserOptions,
    links: &[Link],
    destinations: &[&str],
) -> Result<bool, AllocError>
    ensures { IfOk result (λ leads. IsTrue leads
        → LeadTo flags links.now (map (λ d. d.now) destinations.now) text.now) }
{
    let reader = ExtendedReader { names: Names::All };
    let (blocks, definitions) = reader.blocks_and_definitions(alloc, text, flags)?;
    let found = blocks.rest()?;
    let own = own_destinations(alloc, &found.events)?;
    let defined = defined_destinations(alloc, &definitions)?;
    let wanted_own = of_sort(alloc, false, links, destinations)?;
    let wanted_defined = of_sort(alloc, true, links, destinations)?;
    if !are_same(&own, &wanted_own) {
        return Ok(false);
    }
    Ok(are_same(&defined, &wanted_defined))
}
