//! New trees, spelled as the source: a paragraph of the source keeps the bytes of what stayed in it.
//!
//! The writer writes such a tree with a stand-in for each of these paragraphs, which is then replaced by the patched paragraph.
//! The text is taken if it parses to the tree by itself. As in `patch`, it is tried in its document, and no more.

use crate::collect::lent;
use crate::inner::{behind_prefix, prefix_of};
use crate::marker::Markers;
use crate::patch::{Patch, Patches};
use crate::pieces::{Piece, Tools, write_plain};
use crate::unit_reader::ReaderOfUnits;
use std::alloc::{AllocError, Global};
use tocmark_compare::same::are_same;
use tocmark_event::event::{CowStr, Event, Tag, TagEnd};
use tocmark_event::options::{Error, Options};
use tocmark_event::reader::Reader;

/// What is in the place of a paragraph's inlines while its tree is written.
const STAND_IN: &str = "tocmarkparagraph";

/// A paragraph of the source: where it begins, its Start, and the event after its End.
#[derive(Clone, Copy)]
struct Paragraph {
    begins: usize,
    first: usize,
    past: usize,
}

/// The paragraphs of the source, in the order of their places.
#[derive(Drop)]
pub struct Paragraphs {
    list: Vec<Paragraph>,
}

impl Paragraphs {
    /// Those in the events of a source.
    pub(crate) fn of(
        alloc: Global,
        found: &[(Event<'_>, (usize, usize))],
    ) -> Result<Paragraphs, AllocError> {
        let mut list = Vec::new(alloc);
        let (mut begins, mut first) = (0usize, 0usize);
        for (at, pair) in found.iter().enumerate() {
            match &pair.0 {
                Event::Start(Tag::Paragraph) => (begins, first) = (pair.1.0, at),
                Event::End(TagEnd::Paragraph) => list.push(Paragraph {
                    begins,
                    first,
                    past: at.saturating_add(1),
                })?,
                _ => {}
            }
        }
        Ok(Paragraphs { list })
    }

    /// The events of the paragraph that begins at a byte, if there is one. `found` are those of the source.
    fn at<'e>(
        &self,
        found: &'e [(Event<'e>, (usize, usize))],
        begins: usize,
    ) -> Option<&'e [(Event<'e>, (usize, usize))]> {
        let place = self
            .list
            .partition_point(|paragraph| paragraph.begins < begins);
        let paragraph = self.list.get(place)?;
        if paragraph.begins == begins {
            found.get(paragraph.first..paragraph.past)
        } else {
            None
        }
    }
}

/// A tree with stand-ins, and what is in the place of each.
#[derive(Drop)]
struct Skeleton {
    events: Vec<(Event<'static>, (usize, usize))>,
    contents: Vec<String>,
}

/// The paragraph that begins at a place, if one does.
fn paragraph_at<'e>(
    events: &'e [(Event<'e>, (usize, usize))],
    first: usize,
) -> Option<&'e [(Event<'e>, (usize, usize))]> {
    let Some((Event::Start(Tag::Paragraph), _)) = events.get(first) else {
        return None;
    };
    for at in first..events.len() {
        if let Some((Event::End(TagEnd::Paragraph), _)) = events.get(at) {
            return events.get(first..at.saturating_add(1));
        }
    }
    None
}

/// A stretch of the source with its patches; none that begins before the end of another is made.
fn spliced(
    alloc: Global,
    source: &str,
    range: (usize, usize),
    patches: &[Patch],
) -> Result<String, AllocError> {
    let mut text = String::new(alloc);
    let mut at = range.0;
    for patch in patches {
        if at <= patch.from {
            text.push_str(source.get(at..patch.from).unwrap_or(""))?;
            text.push_str(patch.text.as_str())?;
            at = patch.to;
        }
    }
    text.push_str(source.get(at..range.1).unwrap_or(""))?;
    Ok(text)
}

/// A line without the marks of its containers, which have at most so many bytes.
fn without_marks(line: &str, width: usize) -> &str {
    let mut past = 0usize;
    for byte in line.bytes().take(width) {
        if byte != b' ' && byte != b'\t' && byte != b'>' {
            break;
        }
        past = past.saturating_add(1);
    }
    line.get(past..).unwrap_or(line)
}

/// The lines of a paragraph, without the marks of its containers, which have at most so many bytes. They end with line feeds.
fn content_of(alloc: Global, text: &str, width: usize) -> Result<String, AllocError> {
    let text = text.replace(alloc, "\r\n", "\n")?;
    let text = text.replace(alloc, "\r", "\n")?;
    let mut lines = String::new(alloc);
    for (at, line) in text.as_str().trim_end_matches('\n').split('\n').enumerate() {
        if at == 0 {
            lines.push_str(line.trim_start_matches(' '))?;
        } else {
            lines.push('\n')?;
            lines.push_str(without_marks(line, width))?;
        }
    }
    Ok(lines)
}

/// What a changed paragraph of the source says, with as many of its bytes as can be; none if it isn't one, or can't be patched.
fn patched_content<'a, R: Reader>(
    tools: &Tools<'_, '_, '_, R>,
    source: &str,
    paragraph: &'a [(Event<'a>, (usize, usize))],
) -> Result<Option<String>, AllocError> {
    let alloc = tools.alloc;
    let Some((_start, given)) = paragraph.first() else {
        return Ok(None);
    };
    let Some(old) = tools.paragraphs.at(tools.read.found, given.0) else {
        return Ok(None);
    };
    let Some((_start, range)) = old.first() else {
        return Ok(None);
    };
    let mut patches = Patches::new(alloc, Markers::of(&tools.options));
    if !patches.tree(alloc, source, old, paragraph)? || patches.redefines() {
        return Ok(None);
    }
    patches.sort()?;
    let text = spliced(alloc, source, *range, &patches.list)?;
    let prefix = prefix_of(alloc, source, range.0)?;
    Ok(Some(content_of(alloc, text.as_str(), prefix.len())?))
}

impl Skeleton {
    /// That of a tree.
    fn of<'a, R: Reader>(
        tools: &Tools<'_, '_, '_, R>,
        source: &str,
        events: &'a [(Event<'a>, (usize, usize))],
    ) -> Result<Skeleton, AllocError> {
        let alloc = tools.alloc;
        let mut skeleton = Skeleton {
            events: Vec::new(alloc),
            contents: Vec::new(alloc),
        };
        let mut next = 0usize;
        for (at, pair) in events.iter().enumerate() {
            if at < next {
                continue;
            }
            skeleton.events.push((pair.0.to_static(alloc)?, pair.1))?;
            if let Some(paragraph) = paragraph_at(events, at)
                && let Some(content) = patched_content(tools, source, paragraph)?
            {
                let text = Event::Text(CowStr::Borrowed(STAND_IN));
                skeleton.events.push((text, pair.1))?;
                skeleton.contents.push(content)?;
                next = at.saturating_add(paragraph.len()).saturating_sub(1);
            }
        }
        Ok(skeleton)
    }

    /// A text of the skeleton with each stand-in replaced; none if it hasn't as many.
    fn filled(&self, alloc: Global, text: &str) -> Result<Option<String>, AllocError> {
        let mut all = String::new(alloc);
        let mut rest = text;
        for content in &self.contents {
            let Some((before, after)) = rest.split_once(STAND_IN) else {
                return Ok(None);
            };
            all.push_str(before)?;
            let prefix = prefix_of(alloc, all.as_str(), all.len())?;
            let lines = behind_prefix(alloc, content.as_str(), prefix.as_str())?;
            all.push_str(lines.as_str())?;
            rest = after;
        }
        all.push_str(rest)?;
        Ok(Some(all))
    }
}

/// Whether a line has nothing but marks of quotes.
fn is_bare(line: &str) -> bool {
    line.trim_start_matches([' ', '>']).is_empty()
}

/// Whether all lines are those of a quote as the writer writes it, after a space.
fn is_quote(text: &str) -> bool {
    for line in text.split('\n') {
        if !line.starts_with(" >") {
            return false;
        }
    }
    true
}

/// A written tree as documents have it: no space is before a quote, no empty line at its front, and none at the end of an
/// empty line.
fn tidied(alloc: Global, text: &str) -> Result<String, AllocError> {
    let is_quote = is_quote(text);
    let mut all = String::new(alloc);
    for (at, line) in text.split('\n').enumerate() {
        if at > 0 {
            all.push('\n')?;
        }
        let line = if is_quote {
            line.get(1..).unwrap_or("")
        } else {
            line
        };
        all.push_str(if is_bare(line) {
            line.trim_end_matches(' ')
        } else {
            line
        })?;
    }
    match all.as_str().strip_prefix(">\n") {
        Some(rest) if is_quote => String::from_str(alloc, rest),
        _ => Ok(all),
    }
}

/// A tree with its paragraphs as they are in the source; none if it has none of these, or if the writer refuses the others.
fn near_text<'a, R: Reader>(
    tools: &Tools<'_, '_, '_, R>,
    options: Options<'_>,
    source: &str,
    events: &'a [(Event<'a>, (usize, usize))],
) -> Result<Option<String>, AllocError> {
    let skeleton = Skeleton::of(tools, source, events)?;
    if skeleton.contents.is_empty() {
        return Ok(None);
    }
    match write_plain(tools, options, source, lent(&skeleton.events)) {
        Ok(piece) => {
            let tidy = tidied(tools.alloc, piece.body.as_str())?;
            skeleton.filled(tools.alloc, tidy.as_str())
        }
        Err(Error::OutOfMemory) => Err(AllocError),
        Err(_) => Ok(None),
    }
}

/// Whether a text with these definitions parses to a tree.
fn is_read_as<'a, R: Reader>(
    tools: &Tools<'_, '_, '_, R>,
    text: &str,
    definitions: &str,
    events: &'a [(Event<'a>, (usize, usize))],
) -> Result<bool, AllocError> {
    let reader = ReaderOfUnits {
        reader: tools.reader,
        units: tools.units,
    };
    let mut whole = String::from_str(tools.alloc, text)?;
    whole.push_str("\n\n")?;
    whole.push_str(definitions)?;
    let reading = reader.read(tools.alloc, whole.as_str(), tools.flags)?;
    are_same(tools.alloc, &reading.events, events)
}

/// The text of a tree that is spelled near the source; else the one that the writer has, if it has one, as documents have it.
/// None if neither parses to the tree.
fn chosen_text<'a, R: Reader>(
    tools: &Tools<'_, '_, '_, R>,
    options: Options<'_>,
    source: &str,
    events: &'a [(Event<'a>, (usize, usize))],
    written: Option<&Piece>,
) -> Result<Option<String>, AllocError> {
    let definitions = match written {
        Some(piece) => piece.definitions.as_str(),
        None => "",
    };
    if let Some(text) = near_text(tools, options, source, events)?
        && is_read_as(tools, text.as_str(), definitions, events)?
    {
        return Ok(Some(text));
    }
    let Some(piece) = written else {
        return Ok(None);
    };
    let tidy = tidied(tools.alloc, piece.body.as_str())?;
    if tidy.as_str() != piece.body.as_str()
        && is_read_as(tools, tidy.as_str(), definitions, events)?
    {
        return Ok(Some(tidy));
    }
    Ok(None)
}

/// A piece with another body.
fn with_body(piece: Piece, body: String) -> Piece {
    let Piece { definitions, .. } = piece;
    Piece { body, definitions }
}

/// A tree that is spelled near the source if it can be, or else as the writer spells it.
pub(crate) fn write_near<'a, R: Reader>(
    tools: &Tools<'_, '_, '_, R>,
    options: Options<'_>,
    source: &str,
    events: &'a [(Event<'a>, (usize, usize))],
) -> Result<Piece, Error> {
    match write_plain(tools, options, source, events) {
        Ok(piece) => match chosen_text(tools, options, source, events, Some(&piece))? {
            Some(body) => Ok(with_body(piece, body)),
            None => Ok(piece),
        },
        Err(Error::Unrepresentable) => {
            match chosen_text(tools, options, source, events, None)? {
                Some(body) => Ok(Piece {
                    body,
                    definitions: String::new(tools.alloc),
                }),
                None => Err(Error::Unrepresentable),
            }
        }
        Err(error) => Err(error),
    }
}
