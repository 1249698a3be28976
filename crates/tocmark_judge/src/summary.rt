//! What a text says, in little memory, for a comparison with another one: exactly, or but for white space.

ghost use Rattle.std.specs.Prelude.{◌≡◌, ◌++◌, ◌∷◌, [], chars, encode_utf8_all, false, IfOk, IsTrue, List, OnOk, map, string_bytes};
ghost use Rattle.tocmark_event.specs.Merged.{merged};
ghost use Rattle.tocmark_event.specs.Reading.{reading_view};
ghost use Rattle.tocmark_event.specs.Text.{text_of};
ghost use Rattle.tocmark_event.specs.View.{EventView, Leaf, SoftBreak, Start, Text, event_view, tag_view};
ghost use Rattle.tocmark_compare.specs.Digest.{SaysFirst};
ghost use Rattle.tocmark_compare.specs.Given.{found_events, given_events};
ghost use Rattle.tocmark_judge.specs.LinkDefinitions.{link_defined};
ghost use Rattle.tocmark_judge.specs.Same.{counted, ends_white, folded_character, folded_tag, folded_text, is_white, keeps_lines};
ghost use Rattle.tocmark_judge.specs.Summaries.{Folds, IsPlain, Sums, SumsFirst, spot_view};

use crate::parts::PartTaker;
use std::alloc::{AllocError, Global};
use std::slice;
use tocmark_compare::digest::{Digest, TreeEnd};
use tocmark_event::event::{CowStr, Event, Tag};
use tocmark_event::reader::Reading;
use tocmark_reader::ReferenceDefinition;

/// Where the next event is.
#[derive(Clone, Copy)]
struct Spot {
    /// In a block whose text keeps its lines.
    is_raw: bool,
    is_behind_white: bool,
}

/// Keeps what events say with folded white space.
#[derive(Drop)]
struct Folder {
    digest: Digest,
    spot: Spot,
}

/// What a text says.
#[derive(Drop)]
pub struct Summary {
    /// Whether white space is folded.
    folds: bool,
    folder: Folder,
}

fn is_white(character: char) -> bool
    ensures { result ≡ is_white character }
{
    character == ' ' || character == '\t' || character == '\n'
}

/// Adds a character, or a blank for white space; nothing for white space after white space.
fn push_character(
    folded: &mut String,
    character: char,
    is_behind_white: bool,
) -> Result<(), AllocError>
    ensures { OnOk result (string_bytes folded.new ≡ string_bytes folded.old
        ++ encode_utf8_all (folded_character is_behind_white character)) }
{
    if !is_white(character) {
        return folded.push(character);
    }
    if is_behind_white {
        return Ok(());
    }
    folded.push(' ')
}

/// Adds a text with one blank for each run of white space; none for a run at its front if white space comes before it.
/// Returns whether white space comes before the next text. It fails if memory runs out.
pub fn push_folded(
    folded: &mut String,
    text: &str,
    is_behind_white: bool,
) -> Result<bool, AllocError>
    ensures text { OnOk result (string_bytes folded.new
        ≡ string_bytes folded.old ++ folded_text is_behind_white text.now) }
    ensures white { IfOk result (λ white.
        white ≡ ends_white is_behind_white (chars text.now)) }
{
    let mut white = is_behind_white;
    for character in text.chars() {
        push_character(folded, character, white)?;
        white = is_white(character);
    }
    Ok(white)
}

/// A label with one blank for each run of white space.
fn folded_label(alloc: Global, label: &str) -> Result<CowStr<'static>, AllocError>
    ensures { IfOk result (λ folded. text_of folded ≡ folded_text false label.now) }
{
    let mut folded = String::new(alloc);
    push_folded(&mut folded, label, false)?;
    Ok(CowStr::Owned(folded))
}

fn is_link(tag: &Tag<'_>) -> bool
    ensures other { result ≡ false
        → folded_tag (tag_view text_of tag.now) ≡ tag_view text_of tag.now }
    ensures link { IsTrue result → keeps_lines (tag_view text_of tag.now) ≡ false }
{
    match tag {
        Tag::Link { .. } => true,
        Tag::Image { .. } => true,
        _ => false,
    }
}

/// Whether two definitions say the same.
fn is_same_definition(one: &ReferenceDefinition, other: &ReferenceDefinition) -> bool
    ensures { IsTrue result → link_defined one.now ≡ link_defined other.now }
{
    one.label.as_str() == other.label.as_str()
        && one.destination.as_str() == other.destination.as_str()
        && one.title.as_str() == other.title.as_str()
}

/// Whether two lists have definitions that say the same, in the same order.
pub fn same_definitions(one: &[ReferenceDefinition], other: &[ReferenceDefinition]) -> bool
    ensures { IsTrue result → map link_defined one.now ≡ map link_defined other.now }
{
    if one.len() != other.len() {
        return false;
    }
    for at in 0..one.len() {
        if !is_same_definition(&one[at], &other[at]) {
            return false;
        }
    }
    true
}

/// Whether the text in a container keeps its lines: in a code block, an HTML block or metadata.
pub fn keeps_lines(tag: &Tag<'_>) -> bool
    ensures { result ≡ keeps_lines (tag_view text_of tag.now) }
{
    match tag {
        Tag::CodeBlock(_) => true,
        Tag::HtmlBlock => true,
        Tag::MetadataBlock(_) => true,
        _ => false,
    }
}

/// Folds white space in the label of a link or an image; other tags stay as they are. It fails if memory runs out.
pub fn fold_label(alloc: Global, tag: &mut Tag<'static>) -> Result<(), AllocError>
    ensures { OnOk result (tag_view text_of tag.new ≡ folded_tag (tag_view text_of tag.old)) }
{
    match tag {
        Tag::Link { id, .. } => *id = folded_label(alloc, id.as_ref())?,
        Tag::Image { id, .. } => *id = folded_label(alloc, id.as_ref())?,
        _ => {}
    }
    Ok(())
}

impl Folder {
    /// Adds an event that counts as it is, before others that are in such a block.
    fn add_plain(
        &mut self,
        alloc: Global,
        pair: &(Event<'static>, (usize, usize)),
        is_raw: bool,
    ) -> Result<(), AllocError>
        ensures { OnOk result ((before : List EventView)
            → IsPlain (spot_view self.old.spot) is_raw (event_view text_of pair.now.0)
            → Folds self.old before
            → Folds self.new (before ++ event_view text_of pair.now.0 ∷ [])) }
    {
        self.spot = Spot {
            is_raw,
            is_behind_white: false,
        };
        self.digest.add(alloc, slice::from_ref(pair))
    }

    /// Adds the start of a link or an image, with a folded label.
    fn add_link(&mut self, alloc: Global, tag: &Tag<'static>) -> Result<(), AllocError>
        ensures { OnOk result ((before : List EventView)
            → keeps_lines (tag_view text_of tag.now) ≡ false
            → Folds self.old before
            → Folds self.new (before ++ Start (tag_view text_of tag.now) ∷ [])) }
    {
        self.spot = Spot {
            is_raw: false,
            is_behind_white: false,
        };
        let mut copy: Tag<'static> = tag.copied(alloc)?;
        fold_label(alloc, &mut copy)?;
        self.digest.add(alloc, &[(Event::Start(copy), (0, 0))])
    }

    fn add_start(
        &mut self,
        alloc: Global,
        pair: &(Event<'static>, (usize, usize)),
        tag: &Tag<'static>,
    ) -> Result<(), AllocError>
        ensures { OnOk result ((before : List EventView)
            → event_view text_of pair.now.0 ≡ Start (tag_view text_of tag.now)
            → Folds self.old before
            → Folds self.new (before ++ Start (tag_view text_of tag.now) ∷ [])) }
    {
        if is_link(tag) {
            self.add_link(alloc, tag)
        } else {
            self.add_plain(alloc, pair, keeps_lines(tag))
        }
    }

    /// Adds a text outside of blocks that keep their lines.
    fn add_folded(&mut self, alloc: Global, text: &str) -> Result<(), AllocError>
        ensures { OnOk result ((before : List EventView) → self.old.spot.is_raw ≡ false
            → Folds self.old before → Folds self.new (before ++ Leaf (Text text.now) ∷ [])) }
    {
        let mut folded = String::new(alloc);
        let white = push_folded(&mut folded, text, self.spot.is_behind_white)?;
        self.spot = Spot {
            is_raw: false,
            is_behind_white: white,
        };
        if folded.as_str().is_empty() {
            return Ok(());
        }
        self.digest
            .add(alloc, &[(Event::Text(CowStr::Owned(folded)), (0, 0))])
    }

    fn add_text(
        &mut self,
        alloc: Global,
        pair: &(Event<'static>, (usize, usize)),
        text: &str,
    ) -> Result<(), AllocError>
        ensures { OnOk result ((before : List EventView)
            → event_view text_of pair.now.0 ≡ Leaf (Text text.now)
            → Folds self.old before → Folds self.new (before ++ Leaf (Text text.now) ∷ [])) }
    {
        if self.spot.is_raw {
            self.add_plain(alloc, pair, true)
        } else {
            self.add_folded(alloc, text)
        }
    }

    /// Adds a soft break: a blank, unless it is after white space.
    fn add_break(&mut self, alloc: Global) -> Result<(), AllocError>
        ensures { OnOk result ((before : List EventView) → Folds self.old before
            → Folds self.new (before ++ Leaf SoftBreak ∷ [])) }
    {
        let spot = self.spot;
        self.spot = Spot {
            is_raw: spot.is_raw,
            is_behind_white: true,
        };
        if spot.is_behind_white {
            return Ok(());
        }
        self.digest
            .add(alloc, &[(Event::Text(CowStr::Borrowed(" ")), (0, 0))])
    }

    /// Adds an event.
    fn add(
        &mut self,
        alloc: Global,
        pair: &(Event<'static>, (usize, usize)),
    ) -> Result<(), AllocError>
        ensures { OnOk result ((before : List EventView) → Folds self.old before
            → Folds self.new (before ++ event_view text_of pair.now.0 ∷ [])) }
    {
        match &pair.0 {
            Event::Start(tag) => self.add_start(alloc, pair, tag),
            Event::End(_) => self.add_plain(alloc, pair, false),
            Event::Text(text) => self.add_text(alloc, pair, text.as_ref()),
            Event::SoftBreak => self.add_break(alloc),
            _ => self.add_plain(alloc, pair, self.spot.is_raw),
        }
    }

    fn add_all(
        &mut self,
        alloc: Global,
        events: &[(Event<'static>, (usize, usize))],
    ) -> Result<(), AllocError>
        ensures { OnOk result ((before : List EventView) → Folds self.old before
            → Folds self.new (before ++ given_events events.now)) }
    {
        for pair in events {
            self.add(alloc, pair)?;
        }
        Ok(())
    }
}

impl Summary {
    /// A summary of no events. Further ones are added to it.
    pub fn new(alloc: Global, folds: bool) -> Summary
        ensures { SumsFirst result [] }
    {
        Summary {
            folds,
            folder: Folder {
                digest: Digest::new(alloc),
                spot: Spot {
                    is_raw: false,
                    is_behind_white: false,
                },
            },
        }
    }

    /// Adds what further events say.
    pub fn add(
        &mut self,
        alloc: Global,
        events: &[(Event<'static>, (usize, usize))],
    ) -> Result<(), AllocError>
        ensures { OnOk result ((before : List EventView) → SumsFirst self.old before
            → SumsFirst self.new (before ++ given_events events.now)) }
    {
        if self.folds {
            self.folder.add_all(alloc, events)
        } else {
            self.folder.digest.add(alloc, events)
        }
    }

    /// Whether two summaries say the same, with folded white space or without. They don't if one was made otherwise.
    pub fn is_same(&self, other: &Summary, folds: bool) -> bool
        ensures { IsTrue result → (one two : List EventView) → Sums self.now one
            → Sums other.now two → merged (counted folds one) ≡ merged (counted folds two) }
    {
        if self.folds == folds && other.folds == folds {
            self.folder.digest.is_same(&other.folder.digest)
        } else {
            false
        }
    }

    /// Where each tree at the top ends.
    pub fn tree_ends(&self, alloc: Global) -> Result<Vec<TreeEnd>, AllocError> {
        self.folder.digest.tree_ends(alloc)
    }

    /// Whether some trees say the same as some of another summary, where `ends` and `other_ends` say where trees end.
    pub fn has_same_trees(
        &self,
        ends: &[TreeEnd],
        trees: (usize, usize),
        other: &Summary,
        other_ends: &[TreeEnd],
        other_trees: (usize, usize),
    ) -> bool {
        self.folder
            .digest
            .has_same_trees(ends, trees, &other.folder.digest, other_ends, other_trees)
    }
}

impl PartTaker for Summary {
    ghost has_taken = { SumsFirst };

    fn take(&mut self, alloc: Global, part: &Reading) -> Result<(), AllocError> {
        self.add(alloc, &part.events)
    }
}
