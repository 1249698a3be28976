//! The JSON text of events, piece by piece: no value of it is made.

ghost use Rattle.std.specs.Prelude.{◌≡◌, [], ◌∷◌, ◌++◌, IfOk, OnOk, Some, codes, map, string_bytes};
ghost use Rattle.std.specs.Option.{option_map};
ghost use Rattle.json.specs.Print.{escape};
ghost use Rattle.serde_json.specs.Data.{boolean, null, string};
ghost use Rattle.serde_json.specs.Read.{read};
ghost use Rattle.serde_json.specs.Written.{IsInOrder, comma_if, compact_text};
ghost use Rattle.tocmark_event.specs.View.{attribute_view, code_view, event_view, tag_view};
ghost use Rattle.tocmark_json.specs.Json.{alignment_json, attribute_json, code_json, end_json, event_json, events_json, heading_json, level_json, link_json, link_type_json, listed, metadata_json, optional, pair_json, pair_view, pairs_json, quote_json, range_json, ranged_view, size_json, tag_json, tagged};
ghost use Rattle.tocmark_json.specs.Printed.{Adds, Closes, Follows, Grows, lines_text};

use crate::escaping::push_string;
use crate::names::{alignment_name, level_name, metadata_name, quote_name};
use std::alloc::{AllocError, Global};
use tocmark_event::event::{
    Alignment, BlockQuoteKind, CodeBlockKindOf, EventOf, HeadingLevel, LinkType, MetadataBlockKind,
    TagEnd, TagOf, Words,
};

/// Adds bytes.
#[inline(always)]
pub(crate) fn push(out: &mut Vec<u8>, piece: &[u8]) -> Result<(), AllocError>
    ensures { OnOk result (Grows piece.now out.old.items out.new.items) }
{
    out.extend_from_slice(piece)
}

/// Adds the comma before an item, unless it is the first one.
pub(crate) fn push_comma(out: &mut Vec<u8>, later: bool) -> Result<(), AllocError>
    ensures { OnOk result (Grows (comma_if later) out.old.items out.new.items) }
{
    if later { push(out, b",") } else { Ok(()) }
}

pub(crate) fn print_size(out: &mut Vec<u8>, size: u64) -> Result<(), AllocError>
    ensures { OnOk result (Adds (size_json size) out.old.items out.new.items) }
{
    let mut digits = itoa::Buffer::new();
    push(out, digits.format(size).as_bytes())
}

fn print_truth(out: &mut Vec<u8>, truth: bool) -> Result<(), AllocError>
    ensures { OnOk result (Grows (compact_text (boolean truth)) out.old.items out.new.items) }
{
    if truth {
        push(out, b"true")
    } else {
        push(out, b"false")
    }
}

/// Adds a truth value between two pieces.
fn push_truth(out: &mut Vec<u8>, before: &[u8], truth: bool, after: &[u8]) -> Result<(), AllocError>
    ensures { OnOk result (Grows (before.now ++ (compact_text (boolean truth) ++ after.now))
        out.old.items out.new.items) }
{
    push(out, before)?;
    print_truth(out, truth)?;
    push(out, after)
}

fn print_name(out: &mut Vec<u8>, name: &str) -> Result<(), AllocError>
    ensures { OnOk result (Adds (string name.now) out.old.items out.new.items) }
{
    push_string(out, b"\"", name, b"\"")
}

fn print_text<T: Words>(out: &mut Vec<u8>, text: &T) -> Result<(), AllocError>
    ensures { OnOk result (Adds (string (T.bytes text.now)) out.old.items out.new.items) }
{
    print_name(out, text.words())
}

/// Adds a text with its escapes between two pieces.
#[inline(always)]
fn push_text<T: Words>(
    out: &mut Vec<u8>,
    before: &[u8],
    text: &T,
    after: &[u8],
) -> Result<(), AllocError>
    ensures { OnOk result (Grows (before.now ++ (escape (T.bytes text.now) ++ after.now))
        out.old.items out.new.items) }
{
    push_string(out, before, text.words(), after)
}

fn print_optional_text<T: Words>(out: &mut Vec<u8>, text: &Option<T>) -> Result<(), AllocError>
    ensures { OnOk result
        (Adds (optional string (option_map T.bytes text.now)) out.old.items out.new.items) }
{
    match text {
        None => push(out, b"null"),
        Some(text) => print_text(out, text),
    }
}

fn print_quote(out: &mut Vec<u8>, kind: Option<BlockQuoteKind>) -> Result<(), AllocError>
    ensures { OnOk result
        (Closes (tagged (codes "BlockQuote") (optional quote_json kind))
        out.old.items out.new.items) }
{
    match kind {
        None => push(out, b"{\"BlockQuote\":null}}"),
        Some(kind) => push_string(out, b"{\"BlockQuote\":\"", quote_name(kind), b"\"}}"),
    }
}

fn print_code_block<T: Words>(
    out: &mut Vec<u8>,
    kind: &CodeBlockKindOf<T>,
) -> Result<(), AllocError>
    ensures { OnOk result
        (Closes (tagged (codes "CodeBlock") (code_json (code_view T.bytes kind.now)))
        out.old.items out.new.items) }
{
    match kind {
        CodeBlockKindOf::Indented => push(out, b"{\"CodeBlock\":\"Indented\"}}"),
        CodeBlockKindOf::Fenced(info) => push_text(
            out,
            b"{\"CodeBlock\":{\"Fenced\":\"",
            info,
            b"\"}}}",
        ),
    }
}

fn print_first_number(out: &mut Vec<u8>, start: Option<u64>) -> Result<(), AllocError>
    ensures { OnOk result (Adds (optional size_json start) out.old.items out.new.items) }
{
    match start {
        None => push(out, b"null"),
        Some(start) => print_size(out, start),
    }
}

fn print_list(out: &mut Vec<u8>, start: Option<u64>) -> Result<(), AllocError>
    ensures { OnOk result
        (Closes (tagged (codes "List") (optional size_json start)) out.old.items out.new.items) }
{
    push(out, b"{\"List\":")?;
    print_first_number(out, start)?;
    push(out, b"}}")
}

fn print_alignment(out: &mut Vec<u8>, alignment: Alignment) -> Result<(), AllocError>
    ensures { OnOk result (Adds (alignment_json alignment) out.old.items out.new.items) }
{
    print_name(out, alignment_name(alignment))
}

#[tactic(auto, using(crate::proofs::Adding::copied_added, crate::proofs::Adding::copied_added_as))]
fn print_alignments(out: &mut Vec<u8>, alignments: &[Alignment]) -> Result<(), AllocError>
    ensures { OnOk result
        (Adds (listed alignment_json alignments.now) out.old.items out.new.items) }
{
    push(out, b"[")?;
    let mut later = false;
    for alignment in alignments {
        push_comma(out, later)?;
        print_alignment(out, *alignment)?;
        later = true;
    }
    push(out, b"]")
}

fn print_table(out: &mut Vec<u8>, alignments: &[Alignment]) -> Result<(), AllocError>
    ensures { OnOk result
        (Closes (tagged (codes "Table") (listed alignment_json alignments.now))
        out.old.items out.new.items) }
{
    push(out, b"{\"Table\":")?;
    print_alignments(out, alignments)?;
    push(out, b"}}")
}

fn print_classes<T: Words>(out: &mut Vec<u8>, classes: &[T]) -> Result<(), AllocError>
    ensures { OnOk result
        (Adds (listed string (map T.bytes classes.now)) out.old.items out.new.items) }
{
    push(out, b"[")?;
    let mut later = false;
    for class in classes {
        push_comma(out, later)?;
        print_text(out, class)?;
        later = true;
    }
    push(out, b"]")
}

fn print_attribute<T: Words>(
    out: &mut Vec<u8>,
    attribute: &(T, Option<T>),
) -> Result<(), AllocError>
    ensures { OnOk result
        (Adds (attribute_json (attribute_view T.bytes attribute.now))
        out.old.items out.new.items) }
{
    push_text(out, b"[\"", &attribute.0, b"\",")?;
    print_optional_text(out, &attribute.1)?;
    push(out, b"]")
}

fn print_attributes<T: Words>(
    out: &mut Vec<u8>,
    attributes: &[(T, Option<T>)],
) -> Result<(), AllocError>
    ensures { OnOk result
        (Adds (listed attribute_json (map (attribute_view T.bytes) attributes.now))
        out.old.items out.new.items) }
{
    push(out, b"[")?;
    let mut later = false;
    for attribute in attributes {
        push_comma(out, later)?;
        print_attribute(out, attribute)?;
        later = true;
    }
    push(out, b"]")
}

fn print_heading_content<T: Words>(
    out: &mut Vec<u8>,
    level: HeadingLevel,
    id: &Option<T>,
    classes: &[T],
    attrs: &[(T, Option<T>)],
) -> Result<(), AllocError>
    ensures { OnOk result
        (Adds (heading_json level (option_map T.bytes id.now) (map T.bytes classes.now)
        (map (attribute_view T.bytes) attrs.now)) out.old.items out.new.items) }
{
    push(out, b"{\"attrs\":")?;
    print_attributes(out, attrs)?;
    push(out, b",\"classes\":")?;
    print_classes(out, classes)?;
    push(out, b",\"id\":")?;
    print_optional_text(out, id)?;
    push_string(out, b",\"level\":\"", level_name(level), b"\"}")
}

fn print_heading<T: Words>(
    out: &mut Vec<u8>,
    level: HeadingLevel,
    id: &Option<T>,
    classes: &[T],
    attrs: &[(T, Option<T>)],
) -> Result<(), AllocError>
    ensures { OnOk result
        (Closes (tagged (codes "Heading") (heading_json level (option_map T.bytes id.now)
        (map T.bytes classes.now) (map (attribute_view T.bytes) attrs.now)))
        out.old.items out.new.items) }
{
    push(out, b"{\"Heading\":")?;
    print_heading_content(out, level, id, classes, attrs)?;
    push(out, b"}}")
}

fn print_link_type(out: &mut Vec<u8>, link_type: LinkType) -> Result<(), AllocError>
    ensures { OnOk result (Adds (link_type_json link_type) out.old.items out.new.items) }
{
    match link_type {
        LinkType::Inline => push(out, b"\"Inline\""),
        LinkType::Reference => push(out, b"\"Reference\""),
        LinkType::ReferenceUnknown => push(out, b"\"ReferenceUnknown\""),
        LinkType::Collapsed => push(out, b"\"Collapsed\""),
        LinkType::CollapsedUnknown => push(out, b"\"CollapsedUnknown\""),
        LinkType::Shortcut => push(out, b"\"Shortcut\""),
        LinkType::ShortcutUnknown => push(out, b"\"ShortcutUnknown\""),
        LinkType::Autolink => push(out, b"\"Autolink\""),
        LinkType::Email => push(out, b"\"Email\""),
        LinkType::WikiLink { has_pothole } => push_truth(
            out,
            b"{\"WikiLink\":{\"has_pothole\":",
            has_pothole,
            b"}}",
        ),
    }
}

fn print_target<T: Words>(
    out: &mut Vec<u8>,
    link_type: LinkType,
    dest_url: &T,
    title: &T,
    id: &T,
) -> Result<(), AllocError>
    ensures { OnOk result
        (Adds (link_json link_type (T.bytes dest_url.now) (T.bytes title.now) (T.bytes id.now))
        out.old.items out.new.items) }
{
    push_text(out, b"{\"dest_url\":\"", dest_url, b"\"")?;
    push_text(out, b",\"id\":\"", id, b"\"")?;
    push(out, b",\"link_type\":")?;
    print_link_type(out, link_type)?;
    push_text(out, b",\"title\":\"", title, b"\"}")
}

fn print_link<T: Words>(
    out: &mut Vec<u8>,
    name: &str,
    link_type: LinkType,
    dest_url: &T,
    title: &T,
    id: &T,
) -> Result<(), AllocError>
    ensures { OnOk result
        (Closes (tagged name.now (link_json link_type (T.bytes dest_url.now) (T.bytes title.now)
        (T.bytes id.now))) out.old.items out.new.items) }
{
    push_string(out, b"{\"", name, b"\":")?;
    print_target(out, link_type, dest_url, title, id)?;
    push(out, b"}}")
}

fn print_metadata(out: &mut Vec<u8>, kind: MetadataBlockKind) -> Result<(), AllocError>
    ensures { OnOk result
        (Closes (tagged (codes "MetadataBlock") (metadata_json kind))
        out.old.items out.new.items) }
{
    push_string(out, b"{\"MetadataBlock\":\"", metadata_name(kind), b"\"}}")
}

fn print_heading_end(out: &mut Vec<u8>, level: HeadingLevel) -> Result<(), AllocError>
    ensures { OnOk result
        (Closes (tagged (codes "Heading") (level_json level)) out.old.items out.new.items) }
{
    push_string(out, b"{\"Heading\":\"", level_name(level), b"\"}}")
}

/// Prints the end of a tag, and the closing brace of the object that it is in.
fn print_end(out: &mut Vec<u8>, end: TagEnd) -> Result<(), AllocError>
    ensures { OnOk result (Closes (end_json end) out.old.items out.new.items) }
{
    match end {
        TagEnd::Paragraph => push(out, b"\"Paragraph\"}"),
        TagEnd::Heading(level) => print_heading_end(out, level),
        TagEnd::BlockQuote(kind) => print_quote(out, kind),
        TagEnd::CodeBlock => push(out, b"\"CodeBlock\"}"),
        TagEnd::HtmlBlock => push(out, b"\"HtmlBlock\"}"),
        TagEnd::List(ordered) => push_truth(out, b"{\"List\":", ordered, b"}}"),
        TagEnd::Item => push(out, b"\"Item\"}"),
        TagEnd::FootnoteDefinition => push(out, b"\"FootnoteDefinition\"}"),
        TagEnd::DefinitionList => push(out, b"\"DefinitionList\"}"),
        TagEnd::DefinitionListTitle => push(out, b"\"DefinitionListTitle\"}"),
        TagEnd::DefinitionListDefinition => push(out, b"\"DefinitionListDefinition\"}"),
        TagEnd::Table => push(out, b"\"Table\"}"),
        TagEnd::TableHead => push(out, b"\"TableHead\"}"),
        TagEnd::TableRow => push(out, b"\"TableRow\"}"),
        TagEnd::TableCell => push(out, b"\"TableCell\"}"),
        TagEnd::Emphasis => push(out, b"\"Emphasis\"}"),
        TagEnd::Strong => push(out, b"\"Strong\"}"),
        TagEnd::Strikethrough => push(out, b"\"Strikethrough\"}"),
        TagEnd::Superscript => push(out, b"\"Superscript\"}"),
        TagEnd::Subscript => push(out, b"\"Subscript\"}"),
        TagEnd::Link => push(out, b"\"Link\"}"),
        TagEnd::Image => push(out, b"\"Image\"}"),
        TagEnd::MetadataBlock(kind) => print_metadata(out, kind),
    }
}

fn print_footnote<T: Words>(out: &mut Vec<u8>, label: &T) -> Result<(), AllocError>
    ensures { OnOk result
        (Closes (tagged (codes "FootnoteDefinition") (string (T.bytes label.now)))
        out.old.items out.new.items) }
{
    push_text(out, b"{\"FootnoteDefinition\":\"", label, b"\"}}")
}

/// Prints a tag, and the closing brace of its object. A tag that holds nothing prints as its end does.
fn print_tag<T: Words>(out: &mut Vec<u8>, tag: &TagOf<T>) -> Result<(), AllocError>
    ensures { OnOk result
        (Closes (tag_json (tag_view T.bytes tag.now)) out.old.items out.new.items) }
{
    match tag {
        TagOf::Heading {
            level,
            id,
            classes,
            attrs,
        } => print_heading(out, *level, id, classes, attrs),
        TagOf::CodeBlock(kind) => print_code_block(out, kind),
        TagOf::List(start) => print_list(out, *start),
        TagOf::FootnoteDefinition(label) => print_footnote(out, label),
        TagOf::Table(alignments) => print_table(out, alignments),
        TagOf::Link {
            link_type,
            dest_url,
            title,
            id,
        } => print_link(out, "Link", *link_type, dest_url, title, id),
        TagOf::Image {
            link_type,
            dest_url,
            title,
            id,
        } => print_link(out, "Image", *link_type, dest_url, title, id),
        _ => print_end(out, tag.to_end()),
    }
}

fn print_started<T: Words>(out: &mut Vec<u8>, tag: &TagOf<T>) -> Result<(), AllocError>
    ensures { OnOk result
        (Adds (tagged (codes "Start") (tag_json (tag_view T.bytes tag.now)))
        out.old.items out.new.items) }
{
    push(out, b"{\"Start\":")?;
    print_tag(out, tag)
}

fn print_ended(out: &mut Vec<u8>, end: TagEnd) -> Result<(), AllocError>
    ensures { OnOk result
        (Adds (tagged (codes "End") (end_json end)) out.old.items out.new.items) }
{
    push(out, b"{\"End\":")?;
    print_end(out, end)
}

pub(crate) fn print_event<T: Words>(out: &mut Vec<u8>, event: &EventOf<T>) -> Result<(), AllocError>
    ensures { OnOk result
        (Adds (event_json (event_view T.bytes event.now)) out.old.items out.new.items) }
{
    match event {
        EventOf::Start(tag) => print_started(out, tag),
        EventOf::End(end) => print_ended(out, *end),
        EventOf::Text(text) => push_text(out, b"{\"Text\":\"", text, b"\"}"),
        EventOf::Code(text) => push_text(out, b"{\"Code\":\"", text, b"\"}"),
        EventOf::InlineMath(text) => push_text(out, b"{\"InlineMath\":\"", text, b"\"}"),
        EventOf::DisplayMath(text) => push_text(out, b"{\"DisplayMath\":\"", text, b"\"}"),
        EventOf::Html(text) => push_text(out, b"{\"Html\":\"", text, b"\"}"),
        EventOf::InlineHtml(text) => push_text(out, b"{\"InlineHtml\":\"", text, b"\"}"),
        EventOf::FootnoteReference(label) => {
            push_text(out, b"{\"FootnoteReference\":\"", label, b"\"}")
        }
        EventOf::SoftBreak => push(out, b"\"SoftBreak\""),
        EventOf::HardBreak => push(out, b"\"HardBreak\""),
        EventOf::Rule => push(out, b"\"Rule\""),
        EventOf::TaskListMarker(checked) => {
            push_truth(out, b"{\"TaskListMarker\":", *checked, b"}")
        }
    }
}

/// Prints a range as the second of two values in an array, and closes that.
fn print_range(out: &mut Vec<u8>, range: (usize, usize)) -> Result<(), AllocError>
    ensures { OnOk result (Follows (range_json range) out.old.items out.new.items) }
{
    push(out, b",{\"end\":")?;
    print_size(out, range.1 as u64)?;
    push(out, b",\"start\":")?;
    print_size(out, range.0 as u64)?;
    push(out, b"}]")
}

fn print_place(out: &mut Vec<u8>, range: Option<(usize, usize)>) -> Result<(), AllocError>
    ensures { OnOk result (Follows (optional range_json range) out.old.items out.new.items) }
{
    match range {
        None => push(out, b",null]"),
        Some(range) => print_range(out, range),
    }
}

fn print_pair<T: Words>(
    out: &mut Vec<u8>,
    event: &EventOf<T>,
    range: Option<(usize, usize)>,
) -> Result<(), AllocError>
    ensures { OnOk result
        (Adds (pair_json (event_view T.bytes event.now, range)) out.old.items out.new.items) }
{
    push(out, b"[")?;
    print_event(out, event)?;
    print_place(out, range)
}

fn print_events<T: Words>(out: &mut Vec<u8>, events: &[EventOf<T>]) -> Result<(), AllocError>
    ensures { OnOk result
        (Adds (events_json (map (event_view T.bytes) events.now)) out.old.items out.new.items) }
{
    push(out, b"[")?;
    let mut later = false;
    for event in events {
        push_comma(out, later)?;
        print_event(out, event)?;
        later = true;
    }
    push(out, b"]")
}

fn print_pairs<T: Words>(
    out: &mut Vec<u8>,
    pairs: &[(EventOf<T>, Option<(usize, usize)>)],
) -> Result<(), AllocError>
    ensures { OnOk result
        (Adds (pairs_json (map (pair_view T.bytes) pairs.now)) out.old.items out.new.items) }
{
    push(out, b"[")?;
    let mut later = false;
    for pair in pairs {
        push_comma(out, later)?;
        print_pair(out, &pair.0, pair.1)?;
        later = true;
    }
    push(out, b"]")
}

fn print_ranged_events<T: Words>(
    out: &mut Vec<u8>,
    pairs: &[(EventOf<T>, (usize, usize))],
) -> Result<(), AllocError>
    ensures { OnOk result
        (Adds (pairs_json (map (ranged_view T.bytes) pairs.now)) out.old.items out.new.items) }
{
    push(out, b"[")?;
    let mut later = false;
    for pair in pairs {
        push_comma(out, later)?;
        print_pair(out, &pair.0, Some(pair.1))?;
        later = true;
    }
    push(out, b"]")
}

/// The text of bytes.
pub(crate) fn text_of(out: Vec<u8>) -> Result<String, AllocError>
    ensures { IfOk result (λ text. string_bytes text ≡ out.items) }
{
    match String::from_utf8(out) {
        Ok(text) => Ok(text),
        Err(_error) => Err(AllocError),
    }
}

/// The JSON text of a list of events: an array, without spaces.
pub fn events_to_text<T: Words>(alloc: Global, events: &[EventOf<T>]) -> Result<String, AllocError>
    ensures text { IfOk result (λ text. string_bytes text
        ≡ compact_text (events_json (map (event_view T.bytes) events.now))) }
    ensures order { IfOk result (λ text. IsInOrder (string_bytes text)
        (events_json (map (event_view T.bytes) events.now))) }
    ensures reads_back { IfOk result (λ text. read (string_bytes text)
        ≡ Some (events_json (map (event_view T.bytes) events.now))) }
{
    let mut out = Vec::new(alloc);
    print_events(&mut out, events)?;
    text_of(out)
}

/// The JSON text of a list of events with their ranges: an array of `[event, range]`, without spaces. The range of an
/// event that has none is `null`.
pub fn pairs_to_text<T: Words>(
    alloc: Global,
    pairs: &[(EventOf<T>, Option<(usize, usize)>)],
) -> Result<String, AllocError>
    ensures text { IfOk result (λ text. string_bytes text
        ≡ compact_text (pairs_json (map (pair_view T.bytes) pairs.now))) }
    ensures order { IfOk result (λ text. IsInOrder (string_bytes text)
        (pairs_json (map (pair_view T.bytes) pairs.now))) }
    ensures reads_back { IfOk result (λ text. read (string_bytes text)
        ≡ Some (pairs_json (map (pair_view T.bytes) pairs.now))) }
{
    let mut out = Vec::new(alloc);
    print_pairs(&mut out, pairs)?;
    text_of(out)
}

/// The JSON text of a list of events that all have a range, as a reader gives them, in the form of `pairs_to_text`.
pub fn ranged_to_text<T: Words>(
    alloc: Global,
    pairs: &[(EventOf<T>, (usize, usize))],
) -> Result<String, AllocError>
    ensures text { IfOk result (λ text. string_bytes text
        ≡ compact_text (pairs_json (map (ranged_view T.bytes) pairs.now))) }
    ensures order { IfOk result (λ text. IsInOrder (string_bytes text)
        (pairs_json (map (ranged_view T.bytes) pairs.now))) }
    ensures reads_back { IfOk result (λ text. read (string_bytes text)
        ≡ Some (pairs_json (map (ranged_view T.bytes) pairs.now))) }
{
    let mut out = Vec::new(alloc);
    print_ranged_events(&mut out, pairs)?;
    text_of(out)
}

/// The JSON texts of events that all have a range: `[event, range]` on a line for each event.
pub fn ranged_to_lines<T: Words>(
    alloc: Global,
    pairs: &[(EventOf<T>, (usize, usize))],
) -> Result<String, AllocError>
    ensures { IfOk result (λ text. string_bytes text
        ≡ lines_text (map (ranged_view T.bytes) pairs.now)) }
{
    let mut out = Vec::new(alloc);
    for pair in pairs {
        print_pair(&mut out, &pair.0, Some(pair.1))?;
        push(&mut out, b"\n")?;
    }
    text_of(out)
}
