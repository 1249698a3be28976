//! What is after the text of a link or an image.

ghost use Rattle.std.specs.Prelude.{◌≡◌};
ghost use Rattle.tocmark_read_spans.specs.Link.{begins_title, inline_title, inline_end, target_from, inline_target, own_label, own_asked, label_asked};

use tocmark_event::event::LinkType;
use tocmark_read_scan::basic::{byte_at, starts_at};
use tocmark_read_scan::class::{Class, run_end};
use tocmark_read_tokens::word::{Word, destination, label, label_from, title};

/// A bracket that may begin the text of a link or an image.
#[derive(Clone, Copy)]
pub struct Bracket {
    /// The place of its first byte.
    pub start: usize,
    /// The place after it.
    pub inner: usize,
    /// The number of runs of delimiters before it.
    pub runs: usize,
    /// Whether it is one of an image.
    pub image: bool,
    /// Whether another bracket was opened directly in it.
    pub nested: bool,
}

/// A destination and a title in parentheses; the title is empty where there is none.
#[derive(Clone, Copy)]
pub struct InlineTarget {
    /// The destination, as it is written.
    pub destination: Word,
    /// The title, as it is written.
    pub title: Word,
    /// The place after the closing parenthesis.
    pub end: usize,
}

/// A label that is to be looked up, and the place where a link by it ends.
#[derive(Clone, Copy)]
pub struct Asked {
    /// How the link or image is written.
    pub link_type: LinkType,
    /// The label, as it is written.
    pub label: Word,
    /// The place after the link or image.
    pub end: usize,
}

#[tactic(auto, unfolding(crate::specs::Link::begins_title))]
fn begins_title(byte: u8) -> bool
    ensures { result ≡ begins_title byte }
{
    byte == b'"' || byte == b'\'' || byte == b'('
}

/// The title after white space at a place; an empty one where none begins there.
#[tactic(auto, unfolding(crate::specs::Link::inline_title))]
fn inline_title(bytes: &[u8], place: usize) -> Option<Word>
    ensures { result ≡ inline_title bytes.now place }
{
    let start = run_end(bytes, place, Class::White);
    let begins = start != place && begins_title(byte_at(bytes, start));
    if begins {
        title(bytes, start)
    } else {
        Some(Word {
            start: place,
            end: place,
            next: place,
        })
    }
}

/// The place after the parenthesis after white space at a place.
#[tactic(auto, unfolding(crate::specs::Link::inline_end))]
fn inline_end(bytes: &[u8], place: usize) -> Option<usize>
    ensures { result ≡ inline_end bytes.now place }
{
    let end = run_end(bytes, place, Class::White);
    if byte_at(bytes, end) == b')' {
        Some(end.saturating_add(1))
    } else {
        None
    }
}

#[tactic(auto, unfolding(crate::specs::Link::target_from))]
fn target_from(bytes: &[u8], place: usize) -> Option<InlineTarget>
    ensures { result ≡ target_from bytes.now place }
{
    let destination = destination(bytes, place)?;
    let title = inline_title(bytes, destination.next)?;
    let end = inline_end(bytes, title.next)?;
    Some(InlineTarget {
        destination,
        title,
        end,
    })
}

/// The destination and the title in parentheses at a place; `None` where none are there.
#[tactic(auto, unfolding(crate::specs::Link::inline_target))]
pub fn inline_target(bytes: &[u8], place: usize) -> Option<InlineTarget>
    ensures { result ≡ inline_target bytes.now place }
{
    if byte_at(bytes, place) == b'(' {
        target_from(bytes, run_end(bytes, place.saturating_add(1), Class::White))
    } else {
        None
    }
}

/// The text of the bracket as a label, where it can be one: it ends at a place.
#[tactic(auto, unfolding(crate::specs::Link::own_label))]
pub(crate) fn own_label(bytes: &[u8], bracket: Bracket, place: usize) -> Option<Word>
    ensures { result ≡ own_label bytes.now bracket place }
{
    if bracket.nested {
        return None;
    }
    let word = label_from(bytes, bracket.inner)?;
    if word.end == place { Some(word) } else { None }
}

/// The bracket's own text as the label to be looked up, in a collapsed or a shortcut link.
#[tactic(auto, unfolding(crate::specs::Link::own_asked))]
pub(crate) fn own_asked(bytes: &[u8], bracket: Bracket, place: usize) -> Option<Asked>
    ensures { result ≡ own_asked bytes.now bracket place }
{
    let label = own_label(bytes, bracket, place)?;
    if starts_at(bytes, place.saturating_add(1), b"[]") {
        Some(Asked {
            link_type: LinkType::Collapsed,
            label,
            end: place.saturating_add(3),
        })
    } else {
        Some(Asked {
            link_type: LinkType::Shortcut,
            label,
            end: place.saturating_add(1),
        })
    }
}

/// The label to be looked up for the bracket that is closed at a place: the one after it, if there is
/// one, else the bracket's own text. `None` where neither can be a label.
#[tactic(auto, unfolding(crate::specs::Link::label_asked))]
pub fn label_asked(bytes: &[u8], bracket: Bracket, place: usize) -> Option<Asked>
    ensures { result ≡ label_asked bytes.now bracket place }
{
    match label(bytes, place.saturating_add(1)) {
        Some(label) => Some(Asked {
            link_type: LinkType::Reference,
            label,
            end: label.next,
        }),
        None => own_asked(bytes, bracket, place),
    }
}
