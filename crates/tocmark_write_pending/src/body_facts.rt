//! What an opening asks of its body, found for all containers of a unit in one pass from the last event to the first.

ghost use Rattle.std.specs.Prelude.{◌≡◌, ◌||◌, ◌∷◌, [], IfOk, nat_eq, reverse, map, slice_index_or, string_bytes};
ghost use Rattle.std.specs.List.{list_any};
ghost use Rattle.tocmark_event.specs.View.{Start, tag_view};
ghost use Rattle.tocmark_write_pending.specs.BodyFacts.{both_few, one_if, is_one, no_facts, with_node, with_event, with_inline, AreFacts, FactLayers, is_tight_by, is_lone_by};
ghost use Rattle.tocmark_spelling.specs.Body.{breaks_line};
ghost use Rattle.tocmark_spelling.specs.Buffered.{buffered_view};
ghost use Rattle.tocmark_spelling.specs.Kinds.{is_paragraph};
ghost use Rattle.tocmark_spelling.specs.Scans.{is_leaf};
ghost use Rattle.tocmark_spelling.specs.Words.{holds};

use std::alloc::{AllocError, Global};
use tocmark_event::event::{EventOf, TagOf};
use tocmark_spelling::buffered::BufferedEvent;
use tocmark_spelling::kinds::{is_inline_tag, is_item};

/// How many, where only one matters.
#[derive(Clone, Copy, PartialEq, Eq)]
pub enum Few {
    Zero,
    One,
    More,
}

/// What the trees of a body are like.
#[derive(Clone, Copy)]
pub struct BodyFacts {
    /// Whether there is no tree.
    pub empty: bool,
    pub begins_paragraph: bool,
    pub has_paragraph: bool,
    /// Whether an inline container or a leaf other than a rule is among them.
    pub has_inline: bool,
    /// Whether they go over more than one line.
    pub broken: bool,
    /// How many of them are blocks, and how many are items.
    pub blocks: Few,
    pub items: Few,
    /// Whether a child of theirs is inline; `child_paragraph` and `child_blocks` are of the children, too.
    pub child_inline: bool,
    pub child_paragraph: bool,
    pub child_blocks: Few,
}

impl Few {
    fn and(self, other: Few) -> Few
        ensures { result ≡ both_few self other }
    {
        match self {
            Few::Zero => other,
            Few::One => match other {
                Few::Zero => Few::One,
                _ => Few::More,
            },
            Few::More => Few::More,
        }
    }

    fn is_one(self) -> bool
        ensures { result ≡ is_one self }
    {
        matches!(self, Few::One)
    }
}

fn is_paragraph(tag: &TagOf<String>) -> bool
    ensures { result ≡ is_paragraph (tag_view string_bytes tag.now) }
{
    matches!(tag, TagOf::Paragraph)
}

fn is_feed(byte: u8) -> bool
    ensures { result ≡ nat_eq 10 byte }
{
    b'\n' == byte
}

fn has_feed(text: &str) -> bool
    ensures { result ≡ list_any (λ b. nat_eq 10 b) text.now }
{
    text.as_bytes().iter().any(|byte| is_feed(*byte))
}

fn holds_feed(text: &str) -> bool
    ensures { result ≡ holds text.now (10 ∷ []) }
{
    has_feed(text)
}

/// Whether a leaf goes over more than one line.
fn breaks_line(event: &BufferedEvent) -> bool
    ensures { result ≡ is_leaf breaks_line (buffered_view event.now) }
{
    match &event.event {
        EventOf::SoftBreak => true,
        EventOf::HardBreak => true,
        EventOf::InlineHtml(text) => holds_feed(text.as_str()),
        _ => false,
    }
}

fn one_if(there: bool) -> Few
    ensures { result ≡ one_if there }
{
    if there { Few::One } else { Few::Zero }
}

fn no_facts() -> BodyFacts
    ensures { result ≡ no_facts }
{
    BodyFacts {
        empty: true,
        begins_paragraph: false,
        has_paragraph: false,
        has_inline: false,
        broken: false,
        blocks: Few::Zero,
        items: Few::Zero,
        child_inline: false,
        child_paragraph: false,
        child_blocks: Few::Zero,
    }
}

/// A container with such children, and such trees to its right.
fn with_node(tag: &TagOf<String>, kids: BodyFacts, right: BodyFacts) -> BodyFacts
    ensures { result ≡ with_node (tag_view string_bytes tag.now) kids right }
{
    let paragraph = is_paragraph(tag);
    let inline = is_inline_tag(tag);
    BodyFacts {
        empty: false,
        begins_paragraph: paragraph,
        has_paragraph: paragraph || right.has_paragraph,
        has_inline: inline || right.has_inline,
        broken: kids.broken || right.broken,
        blocks: one_if(!inline).and(right.blocks),
        items: one_if(is_item(tag)).and(right.items),
        child_inline: kids.has_inline || right.child_inline,
        child_paragraph: kids.has_paragraph || right.child_paragraph,
        child_blocks: kids.blocks.and(right.child_blocks),
    }
}

/// What is known with a leaf before the rest: it is inline or not, and breaks its line or not.
fn with_leaf(inline: bool, breaks: bool, right: BodyFacts) -> BodyFacts
    ensures { result ≡ with_inline inline breaks right }
{
    BodyFacts {
        empty: false,
        begins_paragraph: false,
        has_inline: inline || right.has_inline,
        broken: breaks || right.broken,
        ..right
    }
}

/// A container in front, whose children are such; the trees to its right go from the stack.
fn behind_start(tag: &TagOf<String>, kids: BodyFacts, outer: &mut Vec<BodyFacts>) -> BodyFacts
    ensures { record { inner = result; outer = reverse outer.new.items }
        ≡ with_event (Start (tag_view string_bytes tag.now))
        (record { inner = kids; outer = reverse outer.old.items }) }
{
    match outer.pop() {
        None => with_node(tag, kids, no_facts()),
        Some(right) => with_node(tag, kids, right),
    }
}

/// One event more in front.
fn with_event(
    event: &BufferedEvent,
    inner: BodyFacts,
    outer: &mut Vec<BodyFacts>,
) -> Result<BodyFacts, AllocError>
    ensures { IfOk result (λ x.
        record { inner = x; outer = reverse outer.new.items }
        ≡ with_event (buffered_view event.now)
        (record { inner = inner; outer = reverse outer.old.items })) }
{
    match &event.event {
        EventOf::Start(tag) => Ok(behind_start(tag, inner, outer)),
        EventOf::End(_) => {
            outer.push(inner)?;
            Ok(no_facts())
        }
        EventOf::Rule => Ok(with_leaf(false, false, inner)),
        _ => Ok(with_leaf(true, breaks_line(event), inner)),
    }
}

/// For each event what the trees after it are like, up to the end of the container that is innermost
/// there: at a start, its body.
pub fn body_facts(alloc: Global, events: &[BufferedEvent]) -> Result<Vec<BodyFacts>, AllocError>
    ensures { IfOk result (λ facts. AreFacts (map buffered_view events.now) facts.items) }
{
    let mut facts = vec![in alloc; no_facts(); events.len()]?;
    let mut outer: Vec<BodyFacts> = Vec::new(alloc);
    let mut inner = no_facts();
    let mut i = events.len();
    while i > 0 {
        i -= 1;
        facts[i] = inner;
        inner = with_event(&events[i], inner, &mut outer)?;
    }
    Ok(facts)
}

/// What the body after an event is like.
pub fn facts_at(facts: &[BodyFacts], i: usize) -> BodyFacts
    ensures { result ≡ slice_index_or facts.now i no_facts }
{
    if i < facts.len() {
        facts[i]
    } else {
        no_facts()
    }
}

impl BodyFacts {
    /// Whether a list with such a body is tight.
    pub fn is_tight(self) -> bool
        ensures { result ≡ is_tight_by self }
    {
        self.child_inline && !self.child_paragraph
    }

    /// Whether a list with such a body has one item with one block, a paragraph.
    pub fn is_lone(self) -> bool
        ensures { result ≡ is_lone_by self }
    {
        self.items.is_one() && self.child_blocks.is_one() && self.child_paragraph
    }
}
