//! What a finished tree leaves to its right neighbour.

ghost use Rattle.std.specs.Prelude.{◌≡◌, ℕ, List, Option, None, string_bytes, IfOk, if◌then◌else◌};
ghost use Rattle.tocmark_event.specs.View.{event_view};
ghost use Rattle.tocmark_spelling.specs.Page.{first_trail, raised};
ghost use Rattle.tocmark_spelling.specs.Gap.{is_inline, is_item_opening, is_item_end, is_definition_end, resumed, raised_for_title, raised_for_block, least, least_after, could_join, joins_list, raised_after_list, after_html, quote_line_for};
ghost use Rattle.std.specs.Option.{option_map};
ghost use Rattle.tocmark_spelling.specs.TrailOf.{trail_of, trail_view, Becomes, raised_in_list, raised_to_least, raised_in_loose_list};

use crate::kinds::{
    begins_block, could_continue, starts_definition_list, starts_indented_code, starts_item,
    starts_list, starts_paragraph, starts_quote, starts_table, starts_title,
};
use std::alloc::{AllocError, Global};
use tocmark_event::event::{OwnedEvent, TagEnd};

/// What the last child of an item was.
#[derive(Clone, Copy, PartialEq, Eq)]
pub enum LastChild {
    Paragraph,
    Empty,
    Block,
}

/// What was written last.
#[derive(Clone, Copy, PartialEq, Eq)]
pub enum Last {
    Other,
    Inline,
    ItemStart,
    ItemEnd(LastChild),
    ListEnd(LastChild),
    DefinitionEnd,
    BlockEnd(TagEnd),
}

/// The list that ended last.
#[derive(Clone, Copy, PartialEq, Eq)]
pub struct LastList {
    /// How many containers are open around it.
    pub depth: usize,
    pub ordered: bool,
    pub token: char,
}

/// Of what a finished tree leaves to its right neighbour, all that owns no memory.
#[derive(Clone, Copy)]
pub struct Carried {
    /// Line feeds that must be before it.
    pub owed: usize,
    pub last: Last,
    pub last_list: Option<LastList>,
    /// Whether raw text ended without a line feed.
    pub raw_end: bool,
    pub open_html: bool,
}

/// What a finished tree leaves to its right neighbour.
#[derive(Drop)]
pub struct Trail {
    pub carried: Carried,
    /// The line that goes on with a quote.
    pub quote_line: Option<String>,
}

impl Last {
    fn is_inline(self) -> bool
        ensures { result ≡ is_inline self }
    {
        matches!(self, Last::Inline)
    }

    fn is_item_opening(self) -> bool
        ensures { result ≡ is_item_opening self }
    {
        matches!(self, Last::ItemStart)
    }

    fn is_item_end(self) -> bool
        ensures { result ≡ is_item_end self }
    {
        matches!(self, Last::ItemEnd(_))
    }

    fn is_definition_end(self) -> bool
        ensures { result ≡ is_definition_end self }
    {
        matches!(self, Last::DefinitionEnd)
    }

    /// The line feeds without which the event would be read as part of the block that ended last.
    pub fn least(self, event: &OwnedEvent) -> usize
        ensures { result ≡ least (event_view string_bytes event.now) self }
    {
        match self {
            Last::BlockEnd(end) => least_after(end, event),
            _ => 0,
        }
    }

    /// Whether an inner list ended, and the event could go on with its last item.
    fn joins_list(self, event: &OwnedEvent) -> bool
        ensures { result ≡ joins_list (event_view string_bytes event.now) self }
    {
        match self {
            Last::ListEnd(tail) => could_join(event, tail),
            _ => false,
        }
    }
}

fn two_if(needed: bool) -> usize
    ensures { result ≡ (if needed then 2 else 0) }
{
    if needed { 2 } else { 0 }
}

fn least_after(end: TagEnd, event: &OwnedEvent) -> usize
    ensures { result ≡ least_after end (event_view string_bytes event.now) }
{
    match end {
        TagEnd::HtmlBlock => 2,
        TagEnd::DefinitionList => two_if(could_continue(event)),
        TagEnd::FootnoteDefinition => two_if(could_continue(event)),
        TagEnd::Table => two_if(could_continue(event)),
        TagEnd::BlockQuote(_) => two_if(starts_quote(event)),
        _ => 0,
    }
}

fn could_join(event: &OwnedEvent, tail: LastChild) -> bool
    ensures { result ≡ could_join (event_view string_bytes event.now) tail }
{
    let block = starts_paragraph(event) || starts_definition_list(event);
    let table = starts_table(event) && matches!(tail, LastChild::Paragraph);
    block || table || (starts_indented_code(event) && !matches!(tail, LastChild::Block))
}

impl Carried {
    /// What is carried along at the beginning of a document.
    fn new() -> Carried
        ensures { trail_of result None ≡ first_trail }
    {
        Carried {
            owed: 0,
            last: Last::Other,
            last_list: None,
            raw_end: false,
            open_html: false,
        }
    }

    /// What is carried, with this as what was written last.
    pub fn with_last(mut self, last: Last) -> Carried
        ensures { Becomes self result (λ t. record t { last = last }) }
    {
        self.last = last;
        self
    }

    /// What is carried, with so many line feeds owed.
    pub fn with_owed(mut self, owed: usize) -> Carried
        ensures { Becomes self result (λ t. record t { owed = owed }) }
    {
        self.owed = owed;
        self
    }

    /// What is carried, with this list as the last one, or none.
    pub fn with_last_list(mut self, list: Option<LastList>) -> Carried
        ensures { Becomes self result (λ t. record t { last_list = list }) }
    {
        self.last_list = list;
        self
    }

    /// What is carried, with a note whether raw text ended without a line feed.
    pub fn with_raw_end(mut self, raw_end: bool) -> Carried
        ensures { Becomes self result (λ t. record t { raw_end = raw_end }) }
    {
        self.raw_end = raw_end;
        self
    }

    /// What is carried, with a note whether HTML is open.
    pub fn with_open_html(mut self, open_html: bool) -> Carried
        ensures { Becomes self result (λ t. record t { open_html = open_html }) }
    {
        self.open_html = open_html;
        self
    }

    /// What is carried, with at least so many line feeds owed.
    pub fn raised(mut self, lines: usize) -> Carried
        ensures { Becomes self result (raised lines) }
    {
        self.owed = self.owed.max(lines);
        self
    }

    fn raised_if(self, needed: bool, lines: usize) -> Carried
        ensures { Becomes self result (λ t. if needed then raised lines t else t) }
    {
        if needed { self.raised(lines) } else { self }
    }

    /// A new event ends raw text, and another than a list forgets the last list.
    pub fn resumed(mut self, event: &OwnedEvent) -> Carried
        ensures { Becomes self result (resumed (event_view string_bytes event.now)) }
    {
        if !starts_list(event) {
            self.last_list = None;
        }
        self.raw_end = false;
        self
    }

    /// A list inside a list begins on a new line, but not right after its item's marker.
    pub fn raised_for_list(self, event: &OwnedEvent, in_list: bool) -> Carried
        ensures { Becomes self result (raised_in_list (event_view string_bytes event.now) in_list) }
    {
        let needed = starts_list(event) && in_list && !self.last.is_item_opening();
        self.raised_if(needed, 1)
    }

    /// A blank line is between a definition and the next title.
    pub fn raised_for_title(self, event: &OwnedEvent) -> Carried
        ensures { Becomes self result (raised_for_title (event_view string_bytes event.now)) }
    {
        let needed = self.last.is_definition_end() && starts_title(event);
        self.raised_if(needed, 2)
    }

    /// A block begins on a new line after inline content.
    pub fn raised_for_block(self, event: &OwnedEvent) -> Carried
        ensures { Becomes self result (raised_for_block (event_view string_bytes event.now)) }
    {
        let needed = self.last.is_inline() && begins_block(event);
        self.raised_if(needed, 1)
    }

    /// What the block that ended last needs after it.
    pub fn raised_to_least(self, event: &OwnedEvent) -> Carried
        ensures { Becomes self result (raised_to_least (event_view string_bytes event.now)) }
    {
        self.raised(self.last.least(event))
    }

    /// A blank line is between an inner list and what could go on with its last item.
    pub fn raised_after_list(self, event: &OwnedEvent) -> Carried
        ensures { Becomes self result (raised_after_list (event_view string_bytes event.now)) }
    {
        self.raised_if(self.last.joins_list(event), 2)
    }

    /// Blank lines are between the items of a list that isn't tight.
    pub fn raised_for_item(self, event: &OwnedEvent, in_loose_list: bool) -> Carried
        ensures { Becomes self result
            (raised_in_loose_list (event_view string_bytes event.now) in_loose_list) }
    {
        let needed = starts_item(event) && in_loose_list && self.last.is_item_end();
        self.raised_if(needed, 2)
    }

    /// Whether a quote that was left open goes on before the event.
    pub fn keeps_quote(self, event: &OwnedEvent) -> bool
        ensures { (line : Option (List ℕ))
            → (if result then line else None)
            ≡ quote_line_for (event_view string_bytes event.now) (trail_of self line) }
    {
        self.last.least(event) == 0 && !starts_item(event)
    }

    /// Open HTML goes on until a line ends it, so that no blank line is written.
    pub fn past_html(mut self) -> Carried
        ensures { Becomes self result after_html }
    {
        if self.open_html {
            self.owed = 1;
            self.open_html = false;
        }
        self
    }
}

/// An equal text, if there is one.
pub fn copied_text(alloc: Global, text: &Option<String>) -> Result<Option<String>, AllocError>
    ensures { IfOk result (λ copy. option_map string_bytes copy
        ≡ option_map string_bytes text.now) }
{
    match text {
        None => Ok(None),
        Some(text) => Ok(Some(String::from_str(alloc, text.as_str())?)),
    }
}

impl Trail {
    /// The trail at the beginning of a document.
    pub fn new() -> Trail
        ensures { trail_view result ≡ first_trail }
    {
        Trail {
            carried: Carried::new(),
            quote_line: None,
        }
    }

    /// An equal trail.
    pub fn copied(&self, alloc: Global) -> Result<Trail, AllocError>
        ensures { IfOk result (λ copy. trail_view copy ≡ trail_view self.now) }
    {
        Ok(Trail {
            carried: self.carried,
            quote_line: copied_text(alloc, &self.quote_line)?,
        })
    }
}
