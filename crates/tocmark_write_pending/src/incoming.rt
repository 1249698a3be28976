//! Events that come to a unit: a lent one is copied, and of one that is given away the texts are moved.

ghost use Rattle.std.specs.Prelude.{◌≡◌, string_bytes, IfOk};
ghost use Rattle.tocmark_event.specs.Text.{text_of};
ghost use Rattle.tocmark_event.specs.View.{event_view, tag_view};

use std::alloc::{AllocError, Global};
use std::mem;
use tocmark_event::event::{CowStr, Event, EventOf, OwnedEvent, OwnedTag, Tag, TagOf};

/// An event that is lent, or given away.
pub trait Incoming {
    ghost use Rattle.tocmark_event.specs.View.{EventView};

    /// The event as a plain value.
    ghost event: { Self → EventView };

    /// The event, to look at.
    fn lent(&self) -> &Event<'_>
        ensures { event_view text_of result.now ≡ event self.now };

    /// The event with texts of its own.
    fn into_owned(self, alloc: Global) -> Result<OwnedEvent, AllocError>
        ensures { IfOk result (λ owned. event_view string_bytes owned ≡ event self) };
}

/// A lent event is copied.
impl<'a> Incoming for &'a Event<'a> {
    ghost event = { λ e. event_view text_of e.now };

    fn lent(&self) -> &Event<'_> {
        *self
    }

    fn into_owned(self, alloc: Global) -> Result<OwnedEvent, AllocError> {
        self.copied(alloc)
    }
}

/// Of an event that is lent to be emptied the texts that it owns are moved.
impl<'a> Incoming for &'a mut Event<'static> {
    ghost event = { λ e. event_view text_of e.now };

    fn lent(&self) -> &Event<'_> {
        &**self
    }

    fn into_owned(self, alloc: Global) -> Result<OwnedEvent, AllocError> {
        taken_event(alloc, self)
    }
}

fn owned_text(alloc: Global, text: CowStr<'static>) -> Result<String, AllocError>
    ensures { IfOk result (λ owned. string_bytes owned ≡ text_of text.entry) }
{
    match text {
        CowStr::Owned(text) => Ok(text),
        CowStr::Borrowed(text) => String::from_str(alloc, text),
    }
}

fn taken_text(alloc: Global, text: &mut CowStr<'static>) -> Result<String, AllocError>
    ensures { IfOk result (λ taken. string_bytes taken ≡ text_of text.old) }
{
    owned_text(alloc, mem::replace(text, CowStr::Borrowed("")))
}

/// What a link or an image names: its destination, its title and its label.
fn owned_target(
    alloc: Global,
    dest_url: CowStr<'static>,
    title: CowStr<'static>,
    id: CowStr<'static>,
) -> Result<(String, String, String), AllocError>
    ensures destination { IfOk result (λ owned. string_bytes owned.0 ≡ text_of dest_url.entry) }
    ensures title { IfOk result (λ owned. string_bytes owned.1 ≡ text_of title.entry) }
    ensures label { IfOk result (λ owned. string_bytes owned.2 ≡ text_of id.entry) }
{
    Ok((
        owned_text(alloc, dest_url)?,
        owned_text(alloc, title)?,
        owned_text(alloc, id)?,
    ))
}

/// The tag with the texts of a link or an image moved, and those of others copied.
fn owned_tag(alloc: Global, tag: Tag<'static>) -> Result<OwnedTag, AllocError>
    ensures { IfOk result (λ owned. tag_view string_bytes owned ≡ tag_view text_of tag.entry) }
{
    match tag {
        TagOf::Link {
            link_type,
            dest_url,
            title,
            id,
        } => {
            let (dest_url, title, id) = owned_target(alloc, dest_url, title, id)?;
            Ok(TagOf::Link {
                link_type,
                dest_url,
                title,
                id,
            })
        }
        TagOf::Image {
            link_type,
            dest_url,
            title,
            id,
        } => {
            let (dest_url, title, id) = owned_target(alloc, dest_url, title, id)?;
            Ok(TagOf::Image {
                link_type,
                dest_url,
                title,
                id,
            })
        }
        tag => {
            let copy = tag.copied(alloc);
            drop(tag);
            copy
        }
    }
}

/// The tag; that of a link or an image is taken out, so that its texts are moved.
fn taken_tag(alloc: Global, tag: &mut Tag<'static>) -> Result<OwnedTag, AllocError>
    ensures { IfOk result (λ taken. tag_view string_bytes taken ≡ tag_view text_of tag.old) }
{
    match tag {
        TagOf::Link { .. } => owned_tag(alloc, mem::replace(tag, TagOf::Paragraph)),
        TagOf::Image { .. } => owned_tag(alloc, mem::replace(tag, TagOf::Paragraph)),
        tag => tag.copied(alloc),
    }
}

/// A leaf other than a text or a break, with its text moved.
fn taken_leaf(alloc: Global, event: &mut Event<'static>) -> Result<OwnedEvent, AllocError>
    ensures { IfOk result (λ taken. event_view string_bytes taken ≡ event_view text_of event.old) }
{
    match event {
        EventOf::Code(text) => Ok(EventOf::Code(taken_text(alloc, text)?)),
        EventOf::Html(text) => Ok(EventOf::Html(taken_text(alloc, text)?)),
        EventOf::InlineHtml(text) => Ok(EventOf::InlineHtml(taken_text(alloc, text)?)),
        EventOf::InlineMath(text) => Ok(EventOf::InlineMath(taken_text(alloc, text)?)),
        EventOf::DisplayMath(text) => Ok(EventOf::DisplayMath(taken_text(alloc, text)?)),
        event => event.copied(alloc),
    }
}

/// The event with its texts moved.
fn taken_event(alloc: Global, event: &mut Event<'static>) -> Result<OwnedEvent, AllocError>
    ensures { IfOk result (λ taken. event_view string_bytes taken ≡ event_view text_of event.old) }
{
    match event {
        EventOf::Start(tag) => Ok(EventOf::Start(taken_tag(alloc, tag)?)),
        EventOf::End(end) => Ok(EventOf::End(*end)),
        EventOf::Text(text) => Ok(EventOf::Text(taken_text(alloc, text)?)),
        EventOf::SoftBreak => Ok(EventOf::SoftBreak),
        event => taken_leaf(alloc, event),
    }
}
