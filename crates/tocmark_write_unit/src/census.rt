//! What kinds of events a unit has. Each event is looked at once.

ghost use Rattle.std.specs.Prelude.{◌≡◌, ◌∷◌, [], List, string_bytes, true};
ghost use Rattle.tocmark_event.specs.View.{tag_view, SourcedEvent, Start};
ghost use Rattle.tocmark_spelling.specs.Buffered.{buffered_view};
ghost use Rattle.tocmark_spelling.specs.Kinds.{is_emphasis_or_strong};
ghost use Rattle.tocmark_write_unit.specs.CensusOf.{asks_body, is_delimiter_event, is_delimiter_tag, is_link_or_image, is_raw_block, is_sourced_event, IsCensus};
ghost use Rattle.tocmark_write_unit.specs.NeighboursOf.{is_leaf_event};

use tocmark_event::event::{EventOf, TagOf};
use tocmark_spelling::buffered::BufferedEvent;
use tocmark_write_pending::pending::Pending;

/// What kinds of events a unit has, and how long its text is likely to be.
#[derive(Clone, Copy)]
pub struct Census {
    /// How many bytes the unit's text is likely to have. No more than time rests on it.
    pub likely_len: usize,
    /// Whether some event is written by delimiters: emphasis, strong emphasis, strikethrough, super- or
    /// subscript, or mathematics.
    pub delimiters: bool,
    /// Whether there is emphasis or strong emphasis.
    pub emphasis: bool,
    /// Whether the spelling of some text is known in the source.
    pub sourced: bool,
    /// Whether there is a container whose opening asks what its body is like.
    pub bodies: bool,
    /// Whether there is a code or HTML block.
    pub raw: bool,
    /// Whether there is a link or an image.
    pub links: bool,
}

fn is_delimiter_tag(tag: &TagOf<String>) -> bool
    ensures { result ≡ is_delimiter_tag (tag_view string_bytes tag.now) }
{
    match tag {
        TagOf::Emphasis => true,
        TagOf::Strong => true,
        TagOf::Strikethrough => true,
        TagOf::Superscript => true,
        TagOf::Subscript => true,
        _ => false,
    }
}

fn is_emphasis_or_strong(tag: &TagOf<String>) -> bool
    ensures { result ≡ is_emphasis_or_strong (tag_view string_bytes tag.now) }
{
    match tag {
        TagOf::Emphasis => true,
        TagOf::Strong => true,
        _ => false,
    }
}

fn asks_body(tag: &TagOf<String>) -> bool
    ensures { result ≡ asks_body (tag_view string_bytes tag.now) }
{
    match tag {
        TagOf::Heading { .. } => true,
        TagOf::List(_) => true,
        TagOf::Item => true,
        TagOf::DefinitionListDefinition => true,
        _ => false,
    }
}

fn is_raw_block(tag: &TagOf<String>) -> bool
    ensures { result ≡ is_raw_block (tag_view string_bytes tag.now) }
{
    match tag {
        TagOf::CodeBlock(_) => true,
        TagOf::HtmlBlock => true,
        _ => false,
    }
}

fn is_link_or_image(tag: &TagOf<String>) -> bool
    ensures { result ≡ is_link_or_image (tag_view string_bytes tag.now) }
{
    match tag {
        TagOf::Link { .. } => true,
        TagOf::Image { .. } => true,
        _ => false,
    }
}

/// Whether a leaf is mathematics.
fn is_math(event: &BufferedEvent) -> bool
    ensures { is_leaf_event (buffered_view event.now) ≡ true
        → result ≡ is_delimiter_event (buffered_view event.now) }
{
    match &event.event {
        EventOf::InlineMath(_) => true,
        EventOf::DisplayMath(_) => true,
        _ => false,
    }
}

/// Whether the spelling of a text is known in the source.
fn is_sourced(event: &BufferedEvent) -> bool
    ensures { result ≡ is_sourced_event (buffered_view event.now) }
{
    match &event.event {
        EventOf::Start(_) => false,
        EventOf::End(_) => false,
        _ => event.source.is_some(),
    }
}

/// How long the text of a leaf is, in bytes; 0 for any other event.
fn text_len(event: &BufferedEvent) -> usize {
    match &event.event {
        EventOf::Text(text) => text.len(),
        EventOf::Code(text) => text.len(),
        EventOf::Html(text) => text.len(),
        EventOf::InlineHtml(text) => text.len(),
        _ => 0,
    }
}

impl Census {
    /// The census of no events, whose text is likely to be so long.
    fn new(likely_len: usize) -> Census
        ensures { IsCensus [] result }
    {
        Census {
            likely_len,
            delimiters: false,
            emphasis: false,
            sourced: false,
            bodies: false,
            raw: false,
            links: false,
        }
    }

    /// The census of these events with the start of a container in front.
    fn with_start(self, tag: &TagOf<String>) -> Census
        ensures { (es : List SourcedEvent) → IsCensus es self
            → IsCensus (Start (tag_view string_bytes tag.now) ∷ es) result }
    {
        let delimiter = is_delimiter_tag(tag);
        let emphasis = is_emphasis_or_strong(tag);
        let body = asks_body(tag);
        let raw = is_raw_block(tag);
        let link = is_link_or_image(tag);
        Census {
            likely_len: self.likely_len,
            delimiters: delimiter || self.delimiters,
            emphasis: emphasis || self.emphasis,
            sourced: self.sourced,
            bodies: body || self.bodies,
            raw: raw || self.raw,
            links: link || self.links,
        }
    }

    /// The census of these events with a leaf in front.
    fn with_leaf(self, event: &BufferedEvent) -> Census
        requires leaf { is_leaf_event (buffered_view event.now) ≡ true }
        ensures { (es : List SourcedEvent) → IsCensus es self
            → IsCensus (buffered_view event.now ∷ es) result }
    {
        let math = is_math(event);
        let sourced = is_sourced(event);
        let len = text_len(event);
        let likely_len = self.likely_len.saturating_add(len);
        Census {
            likely_len,
            delimiters: math || self.delimiters,
            emphasis: self.emphasis,
            sourced: sourced || self.sourced,
            bodies: self.bodies,
            raw: self.raw,
            links: self.links,
        }
    }

    /// The census of these events with one more in front.
    fn with_event(self, event: &BufferedEvent) -> Census
        ensures { (es : List SourcedEvent) → IsCensus es self
            → IsCensus (buffered_view event.now ∷ es) result }
    {
        match &event.event {
            EventOf::Start(tag) => self.with_start(tag),
            EventOf::End(_) => self,
            _ => self.with_leaf(event),
        }
    }
}

/// The census of a unit: each event is looked at once, from the last to the first.
pub(crate) fn census_of(unit: &Pending) -> Census
    ensures { IsCensus unit.now.events result }
{
    let events = unit.events();
    let mut i = events.len();
    let mut census = Census::new(i.saturating_mul(4));
    while i > 0 {
        i -= 1;
        census = census.with_event(&events[i]);
    }
    census
}
