//! Lines that other programs read as one, and that keep their bytes: front matter in which the reader finds rules and texts,
//! tables of pandoc, and what is between a tag of Liquid, a shortcode of Hugo or a command of Doxygen and its closing one.

use crate::columns::Columns;
use crate::line_starts::LineStarts;
use crate::source::{is_blank, without_end_blanks};
use std::alloc::{AllocError, Global};

/// Lines that keep their bytes: where the first one begins, and where the last one ends.
#[derive(Clone, Copy)]
pub(crate) struct Span {
    pub(crate) from: usize,
    pub(crate) to: usize,
}

/// What a tag is written in.
#[derive(Clone, Copy, PartialEq, Eq)]
enum Family {
    /// `{% x %}`
    Liquid,
    /// `{{< x >}}`
    Angle,
    /// `{{% x %}}`
    Percent,
    /// `@code`
    Doxygen,
}

/// What a tag begins with.
const SIGNS: [(&str, Family); 5] = [
    ("{{<", Family::Angle),
    ("{{%", Family::Percent),
    ("{%", Family::Liquid),
    ("@", Family::Doxygen),
    ("\\", Family::Doxygen),
];

/// What Doxygen doesn't read as Markdown, by the names between `@` and `@end`.
const DOXYGEN_BLOCKS: [&str; 10] = [
    "code",
    "verbatim",
    "dot",
    "msc",
    "uml",
    "htmlonly",
    "latexonly",
    "manonly",
    "rtfonly",
    "xmlonly",
];

/// A tag that begins a line.
#[derive(Clone, Copy)]
struct TagLine<'t> {
    family: Family,
    name: &'t str,
    is_closing: bool,
    /// How many blanks are before it, and where its line begins.
    indent: usize,
    from: usize,
}

/// A closing tag belongs to one of so many openings before it, so that the search stays linear.
const MOST_OPENINGS: usize = 64;

/// Whether a line ends front matter.
fn ends_front(line: &str) -> bool {
    let bare = without_end_blanks(line);
    bare == "---" || bare == "..."
}

/// Whether a line could be in front matter: it is blank, a comment, indented, an item, or has a colon after a key.
fn is_front_line(line: &str) -> bool {
    match line.as_bytes().first() {
        None | Some(b' ' | b'\t' | b'#') => true,
        Some(b'-') => line == "-" || line.starts_with("- "),
        Some(b'"' | b'\'' | b'_') => line.contains(':'),
        Some(byte) => (byte.is_ascii_alphanumeric() || *byte >= 128) && line.contains(':'),
    }
}

/// Where the front matter of a text ends, if its first lines could be some.
fn front_end(text: &str) -> Option<usize> {
    if !text.starts_with("---") {
        return None;
    }
    let mut at = 0usize;
    for line in text.split('\n') {
        let end = at.saturating_add(line.len());
        if at == 0 {
            if without_end_blanks(line) != "---" {
                return None;
            }
        } else if ends_front(line) {
            return Some(end);
        } else if !is_front_line(line) {
            return None;
        }
        at = end.saturating_add(1);
    }
    None
}

fn without_front_blanks(text: &str) -> &str {
    text.trim_start_matches(&[' ', '\t'])
}

/// The name that a text begins with.
fn name_at(text: &str) -> &str {
    let length = text
        .as_bytes()
        .iter()
        .take_while(|byte| {
            byte.is_ascii_alphanumeric() || matches!(**byte, b'_' | b'-' | b'.' | b'/')
        })
        .count();
    text.get(..length).unwrap_or("").trim_end_matches('-')
}

/// The name in a tag of Liquid, and whether it closes another one.
fn liquid_name(inner: &str) -> Option<(&str, bool)> {
    let bare = without_front_blanks(inner.strip_prefix('-').unwrap_or(inner));
    let name = name_at(bare);
    match name.strip_prefix("end") {
        Some(closed) => Some((closed, true)),
        None => Some((name, false)),
    }
}

/// The name in a shortcode of Hugo, and whether it closes another one; `None` if it closes itself.
fn shortcode_name(inner: &str) -> Option<(&str, bool)> {
    let bare = without_front_blanks(inner);
    if let Some(closed) = bare.strip_prefix('/') {
        return Some((name_at(without_front_blanks(closed)), true));
    }
    if inner.contains("/>}}") || inner.contains("/%}}") {
        None
    } else {
        Some((name_at(bare), false))
    }
}

/// The name in a command of Doxygen that begins or ends what isn't Markdown, and whether it ends it.
fn doxygen_name(inner: &str) -> Option<(&str, bool)> {
    let name = name_at(inner);
    let (block, is_closing) = match name.strip_prefix("end") {
        Some(closed) => (closed, true),
        None => (name.strip_prefix("start").unwrap_or(name), false),
    };
    if DOXYGEN_BLOCKS.iter().any(|known| *known == block) {
        Some((block, is_closing))
    } else {
        None
    }
}

/// The tag that begins a line. An opening has no other tag of its kind after it on the line, which could close it.
fn tag_at(line: &str, from: usize) -> Option<TagLine<'_>> {
    let bare = without_front_blanks(line);
    let indent = line.len().saturating_sub(bare.len());
    for (sign, family) in SIGNS {
        let Some(inner) = bare.strip_prefix(sign) else {
            continue;
        };
        let (name, is_closing) = match family {
            Family::Liquid => liquid_name(inner)?,
            Family::Angle | Family::Percent => shortcode_name(inner)?,
            Family::Doxygen => doxygen_name(inner)?,
        };
        if name.is_empty() || (!is_closing && inner.contains(sign)) {
            return None;
        }
        return Some(TagLine {
            family,
            name,
            is_closing,
            indent,
            from,
        });
    }
    None
}

/// Whether a sign of tags is the first character of a line after blanks.
fn has_sign(line: &str) -> bool {
    let first = line.as_bytes().iter().find(|byte| !is_blank(**byte));
    matches!(first, Some(b'{' | b'@' | b'\\'))
}

/// The place among the openings of the one that a tag closes: the last one of its name that isn't indented less.
fn opening_of(open: &[TagLine<'_>], tag: &TagLine<'_>) -> Option<usize> {
    let mut at = open.len();
    for one in open.iter().rev() {
        if open.len().saturating_sub(at) >= MOST_OPENINGS {
            break;
        }
        at = at.saturating_sub(1);
        if one.family == tag.family && one.indent >= tag.indent && one.name == tag.name {
            return Some(at);
        }
    }
    None
}

/// Adds a span, in place of those in it.
fn add_span(spans: &mut Vec<Span>, span: Span) -> Result<(), AllocError> {
    for _ in 0..spans.len() {
        match spans.last() {
            Some(last) if last.from >= span.from => spans.pop(),
            _ => break,
        };
    }
    spans.push(span)?;
    Ok(())
}

/// The span that ends with the line that begins at a place, if that closes a tag. Tags that it opens, and those that are open
/// then, are in the list.
fn tagged<'t>(
    open: &mut Vec<TagLine<'t>>,
    line: &'t str,
    start: usize,
) -> Result<Option<Span>, AllocError> {
    if !has_sign(line) {
        return Ok(None);
    }
    let Some(tag) = tag_at(line, start) else {
        return Ok(None);
    };
    if !tag.is_closing {
        open.push(tag)?;
        return Ok(None);
    }
    let Some(at) = opening_of(open, &tag) else {
        return Ok(None);
    };
    let from = open.get(at).map_or(start, |opening| opening.from);
    open.truncate(at);
    let to = start.saturating_add(line.len());
    Ok(Some(Span { from, to }))
}

/// Adds the spans of a text, after its front matter, whose lines begin at these places.
fn add_spans(
    alloc: Global,
    spans: &mut Vec<Span>,
    text: &str,
    starts: &LineStarts,
) -> Result<(), AllocError> {
    let mut open = Vec::new(alloc);
    let mut columns = Columns::new();
    for number in 0..starts.len() {
        let start = starts.start(number).unwrap_or(text.len());
        let next = starts.start(number.saturating_add(1));
        let end = next.map_or(text.len(), |next| next.saturating_sub(1));
        let line = text.get(start..end).unwrap_or("");
        if let Some((from, to)) = columns.take(line, start) {
            add_span(spans, Span { from, to })?;
        }
        if let Some(span) = tagged(&mut open, line, start)? {
            add_span(spans, span)?;
        }
    }
    match columns.end() {
        Some((from, to)) => add_span(spans, Span { from, to }),
        None => Ok(()),
    }
}

/// The spans of a text whose lines begin at these places, in their order.
pub(crate) fn spans_of(
    alloc: Global,
    text: &str,
    starts: &LineStarts,
) -> Result<Vec<Span>, AllocError> {
    let mut spans = Vec::new(alloc);
    if let Some(to) = front_end(text) {
        spans.push(Span { from: 0, to })?;
    }
    add_spans(alloc, &mut spans, text, starts)?;
    Ok(spans)
}
