//! What only one of two texts has, in words: what it is, what it says, and where it leads.

use crate::difference::{box_text, word_of};
use crate::marks::Mark;
use std::alloc::{AllocError, Global};
use tocmark_event::event::{Event, Tag, TagEnd};

/// How many characters of a text a message shows.
pub const SHOWN: usize = 60;

/// How many bytes of words are gathered for a message, at least, and from how many events.
const GATHERED: (usize, usize) = (256, 200);

/// Whether words on both sides of a container's end belong apart.
pub fn ends_words(end: TagEnd) -> bool {
    match end {
        TagEnd::Emphasis
        | TagEnd::Strong
        | TagEnd::Strikethrough
        | TagEnd::Superscript
        | TagEnd::Subscript
        | TagEnd::Link
        | TagEnd::Image => false,
        _ => true,
    }
}

/// The words of a text that may differ are those in the source.
fn text_shown(mark: &Mark) -> &str {
    if mark.key.as_str().is_empty() {
        return mark.source.as_str();
    }
    mark.key.as_str()
}

/// Adds the words of an event; of a link definition its label.
pub fn push_words(words: &mut String, mark: &Mark) -> Result<(), AllocError> {
    match &mark.event {
        Event::Text(_) => words.push_str(text_shown(mark)),
        Event::Code(text) => words.push_str(text.as_ref()),
        Event::InlineMath(text) => words.push_str(text.as_ref()),
        Event::DisplayMath(text) => words.push_str(text.as_ref()),
        Event::Html(text) => words.push_str(text.as_ref()),
        Event::InlineHtml(text) => words.push_str(text.as_ref()),
        Event::FootnoteReference(label) => {
            words.push_str("[^")?;
            words.push_str(label.as_ref())?;
            words.push_str("]")
        }
        Event::TaskListMarker(is_done) => {
            words.push_str(box_text(*is_done))?;
            words.push_str(" ")
        }
        Event::Start(Tag::Link { id, .. }) if mark.is_definition => words.push_str(id.as_ref()),
        Event::SoftBreak => words.push_str(" "),
        Event::HardBreak => words.push_str(" "),
        Event::End(end) if ends_words(*end) => words.push_str(" "),
        _ => Ok(()),
    }
}

/// The first words of events.
fn first_words(alloc: Global, marks: &[Mark]) -> Result<String, AllocError> {
    let mut words = String::new(alloc);
    for mark in marks.iter().take(GATHERED.1) {
        push_words(&mut words, mark)?;
        if words.as_str().len() > GATHERED.0 {
            break;
        }
    }
    Ok(words)
}

/// A text without its white space.
pub fn without_white(alloc: Global, text: &str) -> Result<String, AllocError> {
    let mut rest = String::new(alloc);
    for c in text.chars() {
        if !c.is_whitespace() {
            rest.push(c)?;
        }
    }
    Ok(rest)
}

/// Adds a text between quotation marks, or the front of a long one.
fn push_quoted(phrase: &mut String, text: &str) -> Result<(), AllocError> {
    phrase.push_str("\"")?;
    match text.char_indices().nth(SHOWN) {
        Some((end, _)) => {
            phrase.push_str(text.get(..end).unwrap_or(text))?;
            phrase.push_str("...")?;
        }
        None => phrase.push_str(text)?,
    }
    phrase.push_str("\"")
}

/// Where a link or an image leads, after the word that says so.
fn destination_of(mark: &Mark) -> Option<(&'static str, &str)> {
    match &mark.event {
        Event::Start(Tag::Link { dest_url, .. }) => Some((" to \"", dest_url.as_ref())),
        Event::Start(Tag::Image { dest_url, .. }) => Some((" from \"", dest_url.as_ref())),
        _ => None,
    }
}

/// Whether an event is the start of a link or an image.
pub fn leads(mark: &Mark) -> bool {
    destination_of(mark).is_some()
}

/// What a thing is, and its text.
pub fn named(alloc: Global, what: &str, text: &str) -> Result<String, AllocError> {
    let mut phrase = String::from_str(alloc, what)?;
    let text = text.trim();
    if !text.is_empty() {
        phrase.push_str(" ")?;
        push_quoted(&mut phrase, text)?;
    }
    Ok(phrase)
}

/// What the first of these events is, which are those of a container if it starts one: its words, and where it leads. No
/// destination is cut, because nobody could see then where the link leads.
pub fn phrase_of(alloc: Global, first: &Mark, marks: &[Mark]) -> Result<String, AllocError> {
    let words = first_words(alloc, marks)?;
    let mut phrase = named(alloc, word_of(first), words.as_str())?;
    if let Some((way, destination)) = destination_of(first) {
        phrase.push_str(way)?;
        phrase.push_str(destination)?;
        phrase.push_str("\"")?;
    }
    Ok(phrase)
}
