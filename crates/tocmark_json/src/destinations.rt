//! Where the destination of a link is in its text.

ghost use Rattle.std.specs.Prelude.{◌≡◌, IfOk, false};
ghost use Rattle.tocmark_event.specs.View.{event_view, tag_view};
ghost use Rattle.tocmark_event.specs.View as view;
ghost use Rattle.tocmark_json.specs.Destinations.{destination_by, destination_of, is_front, is_wanted, later, place_after, place_in, shown, unquoted, whole};

use std::alloc::{AllocError, Global};
use tocmark_event::event::{EventOf, LinkType, TagOf, Words};
use tocmark_read_scan::basic::{bytes_between, rest, starts_at};
use tocmark_read_scan::syntax::Names;
use tocmark_read_spans::link::{InlineTarget, inline_target};
use tocmark_read_tokens::reference::unescaped;
use tocmark_read_tokens::word::Word;

/// At how many places of a link its text can end. So links in links take linear time.
const TRIED: usize = 32;

/// Whether a line has only blanks and signs of quotes up to here, after this byte.
fn is_front(front: bool, byte: u8) -> bool
    ensures { result ≡ is_front front byte }
{
    byte == b'\n' || byte == b'\r' || front && (byte == b' ' || byte == b'\t' || byte == b'>')
}

/// A byte as a paragraph has it.
fn shown(front: bool, byte: u8) -> u8
    ensures { result ≡ shown front byte }
{
    if front && byte == b'>' {
        b' '
    } else if byte == b'\r' {
        b'\n'
    } else {
        byte
    }
}

/// Bytes as a paragraph has them: without the signs of quotes at the front of lines, and with one kind of line ending.
fn unquoted(alloc: Global, bytes: &[u8]) -> Result<Vec<u8>, AllocError>
    ensures { IfOk result (λ plain. plain.items ≡ unquoted false bytes.now) }
{
    let mut plain = Vec::with_capacity(alloc, bytes.len())?;
    let mut front = false;
    for byte in bytes {
        plain.push(shown(front, *byte))?;
        front = is_front(front, *byte);
    }
    Ok(plain)
}

/// Whether a target ends its bytes, says this destination, and has a title if one is wanted.
#[tactic(auto, unfolding(crate::specs::Destinations::is_wanted))]
fn is_wanted(
    alloc: Global,
    bytes: &[u8],
    destination: &str,
    title: &str,
    target: InlineTarget,
) -> Result<bool, AllocError>
    ensures { IfOk result (λ is.
        is ≡ is_wanted bytes.now destination.now title.now target) }
{
    let is_titled = target.title.start != target.title.end;
    if target.end != bytes.len() || !title.is_empty() && !is_titled {
        return Ok(false);
    }
    let Word { start, end, .. } = target.destination;
    let said = unescaped(alloc, Names::All, bytes_between(bytes, start, end))?;
    Ok(said.as_slice() == destination.as_bytes())
}

/// The place of a destination, with its angle brackets, if it has them.
fn whole(word: Word) -> (usize, usize)
    ensures { result ≡ whole word }
{
    if word.next == word.end {
        (word.start, word.next)
    } else {
        (word.start.saturating_sub(1), word.next)
    }
}

/// A place so many bytes later.
fn later(bytes: usize, place: (usize, usize)) -> (usize, usize)
    ensures { result ≡ later bytes place }
{
    (place.0.saturating_add(bytes), place.1.saturating_add(bytes))
}

/// The place of a link's destination, if its text ends at the bracket at this place.
#[tactic(auto, unfolding(crate::specs::Destinations::place_after))]
fn place_after(
    alloc: Global,
    link: &[u8],
    destination: &str,
    title: &str,
    at: usize,
) -> Result<Option<(usize, usize)>, AllocError>
    ensures { IfOk result (λ place.
        place ≡ place_after link.now destination.now title.now at) }
{
    let from = at.saturating_add(1);
    let bytes = unquoted(alloc, rest(link, from))?;
    let Some(target) = inline_target(&bytes, 0) else {
        return Ok(None);
    };
    if is_wanted(alloc, &bytes, destination, title, target)? {
        Ok(Some(later(from, whole(target.destination))))
    } else {
        Ok(None)
    }
}

/// The place of the destination in a link.
#[tactic(auto, unfolding(crate::specs::Destinations::place_in))]
fn place_in(
    alloc: Global,
    link: &[u8],
    destination: &str,
    title: &str,
) -> Result<Option<(usize, usize)>, AllocError>
    ensures { IfOk result (λ place.
        place ≡ place_in link.now destination.now title.now) }
{
    let mut tries = TRIED;
    for at in (0..link.len()).rev() {
        if tries == 0 {
            return Ok(None);
        }
        if starts_at(link, at, b"](") {
            let place = place_after(alloc, link, destination, title, at)?;
            if place.is_some() {
                return Ok(place);
            }
            tries = tries.saturating_sub(1);
        }
    }
    Ok(None)
}

/// The place of the destination in a link that has this range in a text.
#[tactic(auto, unfolding(crate::specs::Destinations::destination_by))]
fn moved_place(
    alloc: Global,
    text: &[u8],
    range: (usize, usize),
    destination: &str,
    title: &str,
) -> Result<Option<(usize, usize)>, AllocError>
    ensures { IfOk result (λ place. place
        ≡ destination_by text.now range LinkType.Inline destination.now title.now) }
{
    let link = bytes_between(text, range.0, range.1);
    match place_in(alloc, link, destination, title)? {
        Some(place) => Ok(Some(later(range.0, place))),
        None => Ok(None),
    }
}

/// The place of the destination of a link that has this range.
#[tactic(auto, unfolding(crate::specs::Destinations::destination_by))]
fn destination_by(
    alloc: Global,
    text: &[u8],
    range: (usize, usize),
    link_type: LinkType,
    destination: &str,
    title: &str,
) -> Result<Option<(usize, usize)>, AllocError>
    ensures { IfOk result (λ place. place
        ≡ destination_by text.now range link_type destination.now title.now) }
{
    match link_type {
        LinkType::Inline => moved_place(alloc, text, range, destination, title),
        LinkType::Autolink | LinkType::Email => Ok(Some((
            range.0.saturating_add(1),
            range.1.saturating_sub(1),
        ))),
        _ => Ok(None),
    }
}

/// The place of the destination of a container that has this range.
fn destination_of_tag<T: Words>(
    alloc: Global,
    text: &[u8],
    tag: &TagOf<T>,
    range: (usize, usize),
) -> Result<Option<(usize, usize)>, AllocError>
    ensures { IfOk result (λ place. place
        ≡ destination_of text.now (view.Start (tag_view T.bytes tag.now)) range) }
{
    match tag {
        TagOf::Link {
            link_type,
            dest_url,
            title,
            ..
        } => destination_by(
            alloc,
            text,
            range,
            *link_type,
            dest_url.words(),
            title.words(),
        ),
        TagOf::Image {
            link_type,
            dest_url,
            title,
            ..
        } => destination_by(
            alloc,
            text,
            range,
            *link_type,
            dest_url.words(),
            title.words(),
        ),
        _ => Ok(None),
    }
}

/// The bytes of a text that are the destination of a link or an image, with `<` and `>` if it has them: of one with its
/// destination in parentheses, or of an autolink, without its brackets. Others have none, and neither has one whose bytes don't
/// say its destination.
///
/// It fails if memory runs out.
pub(crate) fn destination_in<T: Words>(
    alloc: Global,
    text: &[u8],
    event: &EventOf<T>,
    range: (usize, usize),
) -> Result<Option<(usize, usize)>, AllocError>
    ensures { IfOk result (λ place. place
        ≡ destination_of text.now (event_view T.bytes event.now) range) }
{
    match event {
        EventOf::Start(tag) => destination_of_tag(alloc, text, tag, range),
        _ => Ok(None),
    }
}
