//! What links by labels say after the definitions of their labels were changed.

ghost use Rattle.std.specs.Prelude.{◌≡◌, ℕ, IfOk, List, OnOk, map, string_bytes};
ghost use Rattle.std.specs.HashMap.{get_by_text};
ghost use Rattle.std.specs.Option.{option_copied, option_map};
ghost use Rattle.tocmark_compare.specs.Given.{given_events};
ghost use Rattle.tocmark_event.specs.Text.{text_of};
ghost use Rattle.tocmark_event.specs.View.{event_view, tag_view};
ghost use Rattle.tocmark_read_tokens.specs.Label.{first_place, key_of};
ghost use Rattle.tocmark_reader.specs.Definitions.{said_view};
ghost use Rattle.tocmark_redefine.specs.Followed.{entitled, followed, followed_tag, is_by_label, new_at, new_of, new_of_tag, saying};

use std::alloc::{AllocError, Global};
use std::collections::HashMap;
use tocmark_event::event::{CowStr, Event, LinkType, OwnedWords, Tag};
use tocmark_read_tokens::label::{first_places, key_of};
use tocmark_reader::ReferenceDefinition;
use tocmark_rewrite::edits::lead_to;
use tocmark_rewrite::link::LinkParts;

/// Whether a link of this type says what its label's definition says.
fn is_by_label(link_type: LinkType) -> bool
    ensures { result ≡ is_by_label link_type }
{
    match link_type {
        LinkType::Reference | LinkType::Collapsed | LinkType::Shortcut => true,
        _ => false,
    }
}

/// The new definition at a place, if the old one there has this destination and this title.
fn new_at<'d>(
    olds: &[ReferenceDefinition],
    news: &'d [ReferenceDefinition],
    destination: &str,
    title: &str,
    place: Option<usize>,
) -> Option<&'d ReferenceDefinition>
    ensures { option_map (λ d. said_view d.now) result ≡ new_at (map said_view olds.now)
        (map said_view news.now) destination.now title.now place }
{
    let place = place?;
    let old = olds.get(place)?;
    if old.destination.as_str() == destination && old.title.as_str() == title {
        return news.get(place);
    }
    None
}

/// The keys of the labels of definitions.
fn keys_of(alloc: Global, definitions: &[ReferenceDefinition]) -> Result<Vec<String>, AllocError>
    ensures { IfOk result (λ keys. map string_bytes keys.items
        ≡ map (λ d. key_of (said_view d).label) definitions.now) }
{
    let mut keys = Vec::with_capacity(alloc, definitions.len())?;
    for definition in definitions {
        keys.push(key_of(alloc, definition.label.as_bytes())?)?;
    }
    Ok(keys)
}

/// The new definition of a link's label, if the link says what the old one did.
#[tactic(auto, using(crate::proofs::LabelPlaces::placed))]
fn new_of<'d>(
    alloc: Global,
    places: &HashMap<String, usize>,
    olds: &[ReferenceDefinition],
    news: &'d [ReferenceDefinition],
    link: LinkParts<'_>,
) -> Result<Option<&'d ReferenceDefinition>, AllocError>
    requires { (key : List ℕ) → get_by_text places.now key
        ≡ first_place 0 (map (λ d. key_of (said_view d).label) olds.now) key }
    ensures { IfOk result (λ new. option_map (λ d. said_view d.now) new
        ≡ new_of (map said_view olds.now) (map said_view news.now) link.entry.link_type
        link.entry.destination.now link.entry.title.now link.entry.id.now) }
{
    if !is_by_label(link.link_type) {
        return Ok(None);
    }
    let key = key_of(alloc, link.id.as_bytes())?;
    let place = places.get(key.as_str()).copied();
    Ok(new_at(olds, news, link.destination, link.title, place))
}

/// The new definition of the label of a link or an image, if that says what the old one did.
fn new_of_tag<'d>(
    alloc: Global,
    places: &HashMap<String, usize>,
    olds: &[ReferenceDefinition],
    news: &'d [ReferenceDefinition],
    tag: &Tag<'static>,
) -> Result<Option<&'d ReferenceDefinition>, AllocError>
    requires { (key : List ℕ) → get_by_text places.now key
        ≡ first_place 0 (map (λ d. key_of (said_view d).label) olds.now) key }
    ensures { IfOk result (λ new. option_map (λ d. said_view d.now) new
        ≡ new_of_tag (map said_view olds.now) (map said_view news.now) (tag_view text_of tag.now)) }
{
    match tag {
        Tag::Link {
            link_type,
            dest_url,
            title,
            id,
        } => {
            let link = LinkParts {
                link_type: *link_type,
                destination: dest_url.as_ref(),
                title: title.as_ref(),
                id: id.as_ref(),
            };
            new_of(alloc, places, olds, news, link)
        }
        Tag::Image {
            link_type,
            dest_url,
            title,
            id,
        } => {
            let link = LinkParts {
                link_type: *link_type,
                destination: dest_url.as_ref(),
                title: title.as_ref(),
                id: id.as_ref(),
            };
            new_of(alloc, places, olds, news, link)
        }
        _ => Ok(None),
    }
}

/// Gives a link or an image this title.
fn set_title(tag: &mut Tag<'static>, text: CowStr<'static>)
    ensures { tag_view text_of tag.new ≡ entitled (text_of text.entry) (tag_view text_of tag.old) }
{
    match tag {
        Tag::Link { title, .. } => *title = text,
        Tag::Image { title, .. } => *title = text,
        _ => drop(text),
    }
}

/// Has a link or an image say what a definition does.
fn say(
    alloc: Global,
    tag: &mut Tag<'static>,
    definition: &ReferenceDefinition,
) -> Result<(), AllocError>
    ensures { OnOk result (tag_view text_of tag.new
        ≡ saying (said_view definition.now) (tag_view text_of tag.old)) }
{
    let destination = CowStr::from_text(alloc, definition.destination.as_str())?;
    let title = CowStr::from_text(alloc, definition.title.as_str())?;
    lead_to(tag, destination);
    set_title(tag, title);
    Ok(())
}

/// Has a link say what its label's new definition does, if it said what the old one did.
fn follow_tag(
    alloc: Global,
    places: &HashMap<String, usize>,
    olds: &[ReferenceDefinition],
    news: &[ReferenceDefinition],
    tag: &mut Tag<'static>,
) -> Result<(), AllocError>
    requires { (key : List ℕ) → get_by_text places.now key
        ≡ first_place 0 (map (λ d. key_of (said_view d).label) olds.now) key }
    ensures { OnOk result (tag_view text_of tag.new ≡ followed_tag (map said_view olds.now)
        (map said_view news.now) (tag_view text_of tag.old)) }
{
    match new_of_tag(alloc, places, olds, news, tag)? {
        Some(definition) => say(alloc, tag, definition),
        None => Ok(()),
    }
}

/// Has a link that an event begins say what its label's new definition does, if it said what the old one did.
fn follow_event(
    alloc: Global,
    places: &HashMap<String, usize>,
    olds: &[ReferenceDefinition],
    news: &[ReferenceDefinition],
    event: &mut Event<'static>,
) -> Result<(), AllocError>
    requires { (key : List ℕ) → get_by_text places.now key
        ≡ first_place 0 (map (λ d. key_of (said_view d).label) olds.now) key }
    ensures { OnOk result (event_view text_of event.new ≡ followed (map said_view olds.now)
        (map said_view news.now) (event_view text_of event.old)) }
{
    match event {
        Event::Start(tag) => follow_tag(alloc, places, olds, news, tag),
        _ => Ok(()),
    }
}

/// Has each link by a label that says what the label's old definition said say what the new one does. The new definitions are the
/// old ones with other destinations and titles, in the same order. Beside each event is anything, such as its range.
///
/// It fails if memory runs out. Then some links follow, and others don't.
pub fn follow<X>(
    alloc: Global,
    olds: &[ReferenceDefinition],
    news: &[ReferenceDefinition],
    events: &mut [(Event<'static>, X)],
) -> Result<(), AllocError>
    ensures { OnOk result (given_events events.new ≡ map (followed (map said_view olds.now)
        (map said_view news.now)) (given_events events.old)) }
{
    let keys = keys_of(alloc, olds)?;
    let places = first_places(alloc, &keys)?;
    for (event, _beside) in events.iter_mut() {
        follow_event(alloc, &places, olds, news, event)?;
    }
    Ok(())
}
