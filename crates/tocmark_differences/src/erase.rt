//! Makes one fixed value of what may differ.

ghost use Rattle.std.specs.Prelude.{◌≡◌, if◌then◌else◌, IfOk, OnOk, drop, true};
ghost use Rattle.tocmark_event.specs.Text.{text_of};
ghost use Rattle.tocmark_event.specs.View.{Start, code_view, event_view, tag_view};
ghost use Rattle.tocmark_compare.specs.Given.{given_events};
ghost use Rattle.tocmark_differences.specs.Erased.{addressed, after_event, ended, ends_lines, erased, erased_block, erased_code, erased_destination, erased_end, erased_event, erased_number, erased_tag, is_lines_end, line_ended, may_differ, texts_of, unless};
ghost use Rattle.tocmark_differences.specs.declared.erase.Within.TheVariants as within;
ghost use Rattle.tocmark_event.specs.declared.event.HeadingLevel.TheVariants as levels;
ghost use Rattle.tocmark_event.specs.declared.event.LinkType.TheVariants as link;

use crate::allowed::Allowed;
use std::alloc::{AllocError, Global};
use tocmark_event::event::{CodeBlockKind, CowStr, Event, HeadingLevel, LinkType, Tag, TagEnd};

/// What the texts of a container are.
#[derive(Clone, Copy, Debug, PartialEq, Eq)]
pub enum Within {
    /// Words that a page shows as a text.
    Prose,
    /// A code block.
    Code,
    /// Front matter.
    Metadata,
}

/// What the texts of a container are.
fn texts_of(tag: &Tag<'_>) -> Within
    ensures { result ≡ texts_of (tag_view text_of tag.now) }
{
    match tag {
        Tag::CodeBlock(_) => Within::Code,
        Tag::MetadataBlock(_) => Within::Metadata,
        _ => Within::Prose,
    }
}

/// What the texts after an event are, if those before it are these.
pub fn after_event(within: Within, event: &Event<'_>) -> Within
    ensures { result ≡ after_event within (event_view text_of event.now) }
{
    match event {
        Event::Start(tag) => texts_of(tag),
        Event::End(_) => Within::Prose,
        _ => within,
    }
}

/// Whether such texts may differ.
fn may_differ(allowed: Allowed, within: Within) -> bool
    ensures { result ≡ may_differ allowed within }
{
    match within {
        Within::Prose => allowed.text,
        Within::Code => allowed.code,
        Within::Metadata => allowed.front_matter,
    }
}

/// Empties a text that may differ.
fn erase_if(differs: bool, text: &mut CowStr<'static>)
    ensures { text_of text.new ≡ unless differs (text_of text.old) }
{
    if differs {
        *text = CowStr::Borrowed("");
    }
}

/// Makes the kind of a code block one fixed kind, as far as it may differ.
fn erase_code(allowed: Allowed, kind: &mut CodeBlockKind<'static>)
    ensures { code_view text_of kind.new ≡ erased_code allowed (code_view text_of kind.old) }
{
    match kind {
        CodeBlockKind::Indented => {
            if allowed.fences {
                *kind = CodeBlockKind::Fenced(CowStr::Borrowed(""));
            }
        }
        CodeBlockKind::Fenced(info) => erase_if(allowed.info, info),
    }
}

/// A list's first number; 1, if it may differ.
fn erased_number(allowed: Allowed, number: Option<u64>) -> Option<u64>
    ensures { result ≡ erased_number allowed number }
{
    match number {
        Some(_) if allowed.numbers => Some(1),
        _ => number,
    }
}

/// A destination as a browser takes it, whatever spells the link.
fn addressed(
    alloc: Global,
    kind: LinkType,
    destination: &str,
) -> Result<CowStr<'static>, AllocError>
    ensures { IfOk result (λ whole. text_of whole ≡ addressed kind destination.now) }
{
    let mut whole = String::new(alloc);
    if let LinkType::Email = kind {
        whole.push_str("mailto:")?;
    }
    whole.push_str(destination)?;
    Ok(CowStr::Owned(whole))
}

/// A copy of a text; an empty one, if it may differ.
fn copied_unless(
    alloc: Global,
    differs: bool,
    text: &CowStr<'static>,
) -> Result<CowStr<'static>, AllocError>
    ensures { IfOk result (λ copy. text_of copy ≡ unless differs (text_of text.now)) }
{
    if differs {
        return Ok(CowStr::Borrowed(""));
    }
    Ok(CowStr::Owned(String::from_str(alloc, text.as_ref())?))
}

/// A copy of a destination; one fixed text, as far as it may differ.
fn erased_destination(
    alloc: Global,
    allowed: Allowed,
    kind: LinkType,
    destination: &CowStr<'static>,
) -> Result<CowStr<'static>, AllocError>
    ensures { IfOk result (λ copy. text_of copy
        ≡ erased_destination allowed kind (text_of destination.now)) }
{
    if allowed.labels && !allowed.destinations {
        return addressed(alloc, kind, destination.as_ref());
    }
    copied_unless(alloc, allowed.destinations, destination)
}

/// How a link is spelled; inline, if that may differ.
fn erased_kind(allowed: Allowed, kind: LinkType) -> LinkType
    ensures { result ≡ (if allowed.labels then link.Inline else kind) }
{
    if allowed.labels {
        LinkType::Inline
    } else {
        kind
    }
}

/// A heading's level; the first, if it may differ.
fn erased_level(allowed: Allowed, level: HeadingLevel) -> HeadingLevel
    ensures { result ≡ (if allowed.levels then levels.H1 else level) }
{
    if allowed.levels {
        HeadingLevel::H1
    } else {
        level
    }
}

/// Makes what may differ of a tag one fixed value, unless it is a link or an image.
fn erase_block(allowed: Allowed, tag: &mut Tag<'static>)
    ensures { tag_view text_of tag.new ≡ erased_block allowed (tag_view text_of tag.old) }
{
    match tag {
        Tag::Heading { level, .. } => *level = erased_level(allowed, *level),
        Tag::CodeBlock(kind) => erase_code(allowed, kind),
        Tag::List(number) => *number = erased_number(allowed, *number),
        _ => {}
    }
}

/// A copy of a tag in which all that may differ is one fixed value.
fn erased_tag(
    alloc: Global,
    allowed: Allowed,
    tag: &Tag<'static>,
) -> Result<Tag<'static>, AllocError>
    ensures { IfOk result (λ copy.
        tag_view text_of copy ≡ erased_tag allowed (tag_view text_of tag.now)) }
{
    match tag {
        Tag::Link {
            link_type,
            dest_url,
            title,
            id,
        } => Ok(Tag::Link {
            link_type: erased_kind(allowed, *link_type),
            dest_url: erased_destination(alloc, allowed, *link_type, dest_url)?,
            title: copied_unless(alloc, allowed.titles, title)?,
            id: copied_unless(alloc, allowed.labels, id)?,
        }),
        Tag::Image {
            link_type,
            dest_url,
            title,
            id,
        } => Ok(Tag::Image {
            link_type: erased_kind(allowed, *link_type),
            dest_url: erased_destination(alloc, allowed, *link_type, dest_url)?,
            title: copied_unless(alloc, allowed.titles, title)?,
            id: copied_unless(alloc, allowed.labels, id)?,
        }),
        _ => {
            let mut copy: Tag<'static> = tag.copied(alloc)?;
            erase_block(allowed, &mut copy);
            Ok(copy)
        }
    }
}

fn erased_end(allowed: Allowed, end: TagEnd) -> TagEnd
    ensures { result ≡ erased_end allowed end }
{
    match end {
        TagEnd::Heading(level) => TagEnd::Heading(erased_level(allowed, level)),
        _ => end,
    }
}

/// A copy of an event in which all that may differ is one fixed value.
fn erased_event(
    alloc: Global,
    allowed: Allowed,
    within: Within,
    event: &Event<'static>,
) -> Result<Event<'static>, AllocError>
    ensures { IfOk result (λ copy. event_view text_of copy
        ≡ erased_event allowed within (event_view text_of event.now)) }
{
    let code = allowed.code;
    match event {
        Event::Start(tag) => Ok(Event::Start(erased_tag(alloc, allowed, tag)?)),
        Event::End(end) => Ok(Event::End(erased_end(allowed, *end))),
        Event::Text(text) => {
            let differs = may_differ(allowed, within);
            Ok(Event::Text(copied_unless(alloc, differs, text)?))
        }
        Event::Code(text) => Ok(Event::Code(copied_unless(alloc, code, text)?)),
        Event::InlineMath(text) => Ok(Event::InlineMath(copied_unless(alloc, code, text)?)),
        Event::DisplayMath(text) => Ok(Event::DisplayMath(copied_unless(alloc, code, text)?)),
        Event::Html(text) => Ok(Event::Html(copied_unless(alloc, allowed.html, text)?)),
        Event::InlineHtml(text) => Ok(Event::InlineHtml(copied_unless(alloc, allowed.html, text)?)),
        Event::SoftBreak if allowed.text => Ok(Event::Text(CowStr::Borrowed(""))),
        Event::HardBreak if allowed.text => Ok(Event::Text(CowStr::Borrowed(""))),
        _ => event.to_static(alloc),
    }
}

/// Adds the line feed that a text lacks at its end, unless it is empty.
fn end_line(alloc: Global, text: &mut CowStr<'static>) -> Result<(), AllocError>
    ensures { OnOk result (text_of text.new ≡ ended (text_of text.old)) }
{
    let bytes = text.as_ref().as_bytes();
    match bytes.get(bytes.len().saturating_sub(1)) {
        None | Some(b'\n') => Ok(()),
        Some(_) => {
            let mut whole = String::from_str(alloc, text.as_ref())?;
            whole.push_str("\n")?;
            *text = CowStr::Owned(whole);
            Ok(())
        }
    }
}

/// Adds the line feed that the last text of code or HTML lacks.
fn end_lines(alloc: Global, event: &mut Event<'static>) -> Result<(), AllocError>
    ensures { OnOk result (event_view text_of event.new
        ≡ line_ended true (event_view text_of event.old)) }
{
    match event {
        Event::Text(text) => end_line(alloc, text),
        Event::Html(text) => end_line(alloc, text),
        _ => Ok(()),
    }
}

/// Whether code or HTML ends.
fn is_lines_end(event: &Event<'static>) -> bool
    ensures { result ≡ is_lines_end (event_view text_of event.now) }
{
    match event {
        Event::End(TagEnd::CodeBlock) => true,
        Event::End(TagEnd::HtmlBlock) => true,
        _ => false,
    }
}

/// Whether code or HTML ends at a place.
fn ends_lines(events: &[(Event<'static>, (usize, usize))], place: usize) -> bool
    ensures { result ≡ ends_lines (given_events (drop place events.now)) }
{
    match events.get(place) {
        Some(pair) => is_lines_end(&pair.0),
        None => false,
    }
}

/// Copies of events, in which all that may differ is one fixed value, beside their bytes. It fails if memory runs out.
pub fn erased(
    alloc: Global,
    allowed: Allowed,
    events: &[(Event<'static>, (usize, usize))],
) -> Result<Vec<(Event<'static>, (usize, usize))>, AllocError>
    ensures { IfOk result (λ all.
        given_events all.items ≡ erased allowed within.Prose (given_events events.now)) }
{
    let mut all = Vec::new(alloc);
    let mut within = Within::Prose;
    let mut next = 0usize;
    for pair in events {
        next += 1;
        let mut copy = erased_event(alloc, allowed, within, &pair.0)?;
        if allowed.fences && ends_lines(events, next) {
            end_lines(alloc, &mut copy)?;
        }
        all.push((copy, pair.1))?;
        within = after_event(within, &pair.0);
    }
    Ok(all)
}
