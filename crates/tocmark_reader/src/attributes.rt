//! The attributes of a heading.

ghost use Rattle.std.specs.Prelude.{◌≡◌, ◌==◌, not, length, take_while, IfOk, OnOk};
ghost use Rattle.std.specs.List.{fold};
ghost use Rattle.std.specs.Option.{option_map};
ghost use Rattle.std.specs.Str.Lossy.{utf8_lossy};
ghost use Rattle.tocmark_event.specs.Text.{text_of};
ghost use Rattle.tocmark_event.specs.View.{attribute_view, tag_view};
ghost use Rattle.tocmark_reader.specs.Attributes.{attributes_view, parts_words, value_of, name_length, attribute_of, with_word, word_ended, byte_taken, no_attributes, attributes_of, attributed, heading_tag};

use crate::words::replaced_bytes;
use std::alloc::{AllocError, Global};
use tocmark_event::event::{CowStr, HeadingLevel, Tag};
use tocmark_read_page::page::Braces;
use tocmark_read_scan::basic::{byte_at, bytes_between};

/// The attributes of a heading so far, and the word that goes on.
#[derive(Drop)]
pub struct Attributes {
    pub word: Vec<u8>,
    pub id: Option<CowStr<'static>>,
    pub classes: Vec<CowStr<'static>>,
    pub attrs: Vec<(CowStr<'static>, Option<CowStr<'static>>)>,
}

/// Whether a byte is between words: a space, tab or form feed.
#[tactic(auto, unfolding(crate::specs::Attributes::parts_words))]
fn parts_words(byte: u8) -> bool
    ensures { result ≡ parts_words byte }
{
    byte == b' ' || byte == b'\t' || byte == 12
}

fn text(alloc: Global, bytes: &[u8]) -> Result<CowStr<'static>, AllocError>
    ensures { IfOk result (λ t. text_of t ≡ utf8_lossy bytes.now) }
{
    Ok(CowStr::Owned(String::from_utf8_lossy(alloc, bytes)?))
}

/// What is after the equals sign of an attribute, whose name has so many bytes.
#[tactic(auto, unfolding(crate::specs::Attributes::value_of))]
fn value_of(alloc: Global, word: &[u8], name: usize) -> Result<Option<CowStr<'static>>, AllocError>
    ensures { IfOk result (λ v. option_map text_of v ≡ value_of word.now name) }
{
    if name < word.len() {
        let value = text(
            alloc,
            bytes_between(word, name.saturating_add(1), word.len()),
        )?;
        Ok(Some(value))
    } else {
        Ok(None)
    }
}

/// The number of bytes before the first equals sign.
fn name_length(word: &[u8]) -> usize
    ensures { result ≡ name_length word.now }
{
    word.iter().take_while(|byte| **byte != b'=').count()
}

/// An attribute with its value, if it has one.
#[tactic(auto, unfolding(crate::specs::Attributes::attribute_of))]
fn attribute_of(
    alloc: Global,
    word: &[u8],
) -> Result<(CowStr<'static>, Option<CowStr<'static>>), AllocError>
    ensures { IfOk result (λ a. attribute_view text_of a ≡ attribute_of word.now) }
{
    let length = name_length(word);
    let name = text(alloc, bytes_between(word, 0, length))?;
    let value = value_of(alloc, word, length)?;
    Ok((name, value))
}

impl Attributes {
    fn new(alloc: Global) -> Attributes
        ensures { attributes_view result ≡ no_attributes }
    {
        Attributes {
            word: Vec::new(alloc),
            id: None,
            classes: Vec::new(alloc),
            attrs: Vec::new(alloc),
        }
    }

    /// Takes the word so far: `#` names the heading, `.` a class, and any other word is an attribute.
    #[tactic(auto, unfolding(crate::specs::Attributes::with_word))]
    fn take_word(&mut self, alloc: Global) -> Result<(), AllocError>
        ensures { OnOk result (attributes_view self.new ≡ with_word (attributes_view self.old)) }
    {
        let end = self.word.len();
        if end < 2 {
            return Ok(());
        }
        if byte_at(&self.word, 0) == b'#' {
            self.id = Some(text(alloc, bytes_between(&self.word, 1, end))?);
        } else if byte_at(&self.word, 0) == b'.' {
            let class = text(alloc, bytes_between(&self.word, 1, end))?;
            self.classes.push(class)?;
        } else {
            let attribute = attribute_of(alloc, &self.word)?;
            self.attrs.push(attribute)?;
        }
        Ok(())
    }

    #[tactic(auto, unfolding(crate::specs::Attributes::word_ended))]
    fn end_word(&mut self, alloc: Global) -> Result<(), AllocError>
        ensures { OnOk result (attributes_view self.new ≡ word_ended (attributes_view self.old)) }
    {
        self.take_word(alloc)?;
        self.word.clear();
        Ok(())
    }

    #[tactic(auto, unfolding(crate::specs::Attributes::byte_taken))]
    fn take_byte(&mut self, alloc: Global, byte: u8) -> Result<(), AllocError>
        ensures { OnOk result (attributes_view self.new
            ≡ byte_taken (attributes_view self.old) byte) }
    {
        if parts_words(byte) {
            return self.end_word(alloc);
        }
        self.word.push(byte)?;
        Ok(())
    }

    fn take_bytes(&mut self, alloc: Global, bytes: &[u8]) -> Result<(), AllocError>
        ensures { OnOk result (attributes_view self.new
            ≡ fold byte_taken (attributes_view self.old) bytes.now) }
    {
        for byte in bytes {
            self.take_byte(alloc, *byte)?;
        }
        Ok(())
    }
}

/// The attributes that words name.
#[tactic(auto, unfolding(crate::specs::Attributes::attributes_of))]
fn attributes_of(alloc: Global, words: &[u8]) -> Result<Attributes, AllocError>
    ensures { IfOk result (λ a. attributes_view a ≡ attributes_of words.now) }
{
    let mut found = Attributes::new(alloc);
    found.take_bytes(alloc, words)?;
    found.end_word(alloc)?;
    Ok(found)
}

/// The tag of a heading with the attributes that words name.
fn attributed(alloc: Global, words: &[u8], level: HeadingLevel) -> Result<Tag<'static>, AllocError>
    ensures { IfOk result (λ t.
        tag_view text_of t ≡ attributed level (attributes_of words.now)) }
{
    let Attributes {
        id,
        classes,
        attrs,
        ..
    } = attributes_of(alloc, words)?;
    Ok(Tag::Heading {
        level,
        id,
        classes,
        attrs,
    })
}

/// The tag of a heading, with the words between its braces.
pub fn heading_tag(
    alloc: Global,
    text: &str,
    level: HeadingLevel,
    braces: Option<Braces>,
) -> Result<Tag<'static>, AllocError>
    ensures { IfOk result (λ t. tag_view text_of t ≡ heading_tag text.now level braces) }
{
    match braces {
        None => Ok(Tag::Heading {
            level,
            id: None,
            classes: Vec::new(alloc),
            attrs: Vec::new(alloc),
        }),
        Some(found) => {
            let words = bytes_between(text.as_bytes(), found.from.saturating_add(1), found.to);
            let words = replaced_bytes(alloc, words)?;
            attributed(alloc, &words, level)
        }
    }
}
