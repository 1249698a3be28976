//! Whether two tags are the same.

ghost use Rattle.std.specs.Prelude.{◌≡◌, map};
ghost use Rattle.std.specs.Option.{option_map};
ghost use Rattle.tocmark_event.specs.View.{Start, Heading, CodeBlock, ListOf, FootnoteDefinition, Table, Link, Image, attribute_view, code_view, tag_view};
ghost use Rattle.tocmark_spelling.specs.SameEvents.{same_event};

use crate::number::{end_number, heading_number, link_number};
use crate::text::{same_alignments, same_names, same_optional, same_text};
use tocmark_event::event::{Alignment, CodeBlockKindOf, HeadingLevel, LinkType, TagOf, Words};

fn is_heading<T: Words, U: Words>(
    level: HeadingLevel,
    id: &Option<T>,
    classes: &[T],
    attrs: &[(T, Option<T>)],
    other: &TagOf<U>,
) -> bool
    ensures { result
        ≡ same_event
        (Start (Heading level (option_map T.bytes id.now) (map T.bytes classes.now)
        (map (attribute_view T.bytes) attrs.now))) (Start (tag_view U.bytes other.now)) }
{
    match other {
        TagOf::Heading {
            level: other_level,
            id: other_id,
            classes: other_classes,
            attrs: other_attrs,
        } => {
            let same_level = heading_number(level) == heading_number(*other_level);
            same_level
                && same_optional(id, other_id)
                && same_names(classes, attrs, other_classes, other_attrs)
        }
        _ => false,
    }
}

fn is_code_block<T: Words, U: Words>(kind: &CodeBlockKindOf<T>, other: &TagOf<U>) -> bool
    ensures { result
        ≡ same_event (Start (CodeBlock (code_view T.bytes kind.now)))
        (Start (tag_view U.bytes other.now)) }
{
    match (kind, other) {
        (CodeBlockKindOf::Indented, TagOf::CodeBlock(CodeBlockKindOf::Indented)) => true,
        (CodeBlockKindOf::Fenced(a), TagOf::CodeBlock(CodeBlockKindOf::Fenced(b))) => {
            same_text(a, b)
        }
        _ => false,
    }
}

fn is_list<U: Words>(start: Option<u64>, other: &TagOf<U>) -> bool
    ensures { result ≡ same_event (Start (ListOf start)) (Start (tag_view U.bytes other.now)) }
{
    match (start, other) {
        (None, TagOf::List(None)) => true,
        (Some(m), TagOf::List(Some(n))) => m == *n,
        _ => false,
    }
}

fn is_footnote<T: Words, U: Words>(label: &T, other: &TagOf<U>) -> bool
    ensures { result
        ≡ same_event (Start (FootnoteDefinition (T.bytes label.now)))
        (Start (tag_view U.bytes other.now)) }
{
    match other {
        TagOf::FootnoteDefinition(other_label) => same_text(label, other_label),
        _ => false,
    }
}

fn is_table<U: Words>(alignments: &[Alignment], other: &TagOf<U>) -> bool
    ensures { result
        ≡ same_event (Start (Table alignments.now)) (Start (tag_view U.bytes other.now)) }
{
    match other {
        TagOf::Table(other_alignments) => same_alignments(alignments, other_alignments),
        _ => false,
    }
}

fn is_link<T: Words, U: Words>(
    link_type: LinkType,
    dest_url: &T,
    title: &T,
    id: &T,
    other: &TagOf<U>,
) -> bool
    ensures { result
        ≡ same_event
        (Start (Link link_type (T.bytes dest_url.now) (T.bytes title.now) (T.bytes id.now)))
        (Start (tag_view U.bytes other.now)) }
{
    match other {
        TagOf::Link {
            link_type: other_type,
            dest_url: other_url,
            title: other_title,
            id: other_id,
        } => {
            link_number(link_type) == link_number(*other_type)
                && same_text(dest_url, other_url)
                && same_text(title, other_title)
                && same_text(id, other_id)
        }
        _ => false,
    }
}

fn is_image<T: Words, U: Words>(
    link_type: LinkType,
    dest_url: &T,
    title: &T,
    id: &T,
    other: &TagOf<U>,
) -> bool
    ensures { result
        ≡ same_event
        (Start (Image link_type (T.bytes dest_url.now) (T.bytes title.now) (T.bytes id.now)))
        (Start (tag_view U.bytes other.now)) }
{
    match other {
        TagOf::Image {
            link_type: image_type,
            dest_url: image_url,
            title: image_title,
            id: image_id,
        } => {
            link_number(link_type) == link_number(*image_type)
                && same_text(dest_url, image_url)
                && same_text(title, image_title)
                && same_text(id, image_id)
        }
        _ => false,
    }
}

/// Whether two tags are the same.
pub(crate) fn same_tag<T: Words, U: Words>(a: &TagOf<T>, b: &TagOf<U>) -> bool
    ensures { result
        ≡ same_event (Start (tag_view T.bytes a.now)) (Start (tag_view U.bytes b.now)) }
{
    match a {
        TagOf::Heading {
            level,
            id,
            classes,
            attrs,
        } => is_heading(*level, id, classes, attrs, b),
        TagOf::CodeBlock(kind) => is_code_block(kind, b),
        TagOf::List(start) => is_list(*start, b),
        TagOf::FootnoteDefinition(label) => is_footnote(label, b),
        TagOf::Table(alignments) => is_table(alignments, b),
        TagOf::Link {
            link_type,
            dest_url,
            title,
            id,
        } => is_link(*link_type, dest_url, title, id, b),
        TagOf::Image {
            link_type,
            dest_url,
            title,
            id,
        } => is_image(*link_type, dest_url, title, id, b),
        _ => end_number(a.to_end()) == end_number(b.to_end()),
    }
}
