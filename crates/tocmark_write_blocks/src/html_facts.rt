//! How HTML blocks end, by the HTML in them.

ghost use Rattle.std.specs.Prelude.{◌≡◌, ◌++◌, ◌≤◌, map, length, string_bytes};
ghost use Rattle.std.specs.Prelude.{slice_index_or, IfOk, OnOk};
ghost use Rattle.std.specs.List.{list_any};
ghost use Rattle.std.specs.Str.{str_to_ascii_lowercase};
ghost use Rattle.tocmark_spelling.specs.Buffered.{buffered_view};
ghost use Rattle.tocmark_spelling.specs.Scans.{AreEnds};
ghost use Rattle.tocmark_write_blocks.specs.Html.{no_html, event_facts, AreHtml};
ghost use Rattle.tocmark_write_blocks.specs.Kinds.{is_html_block, opens};
ghost use Rattle.tocmark_write_blocks.specs.HtmlAhead.{all_html, event_text};

use crate::block_ends::closed_by;
use crate::html_ahead::{HtmlAhead, ahead_at, blank_by, nothing_ahead, opening_in};
use crate::kinds::opens_html;
use std::alloc::{AllocError, Global};
use tocmark_event::event::EventOf;
use tocmark_spelling::buffered::BufferedEvent;
use tocmark_write_pending::ends::{body_end, matching_ends};

/// How an HTML block ends.
#[derive(Clone, Copy)]
pub struct HtmlFacts {
    /// Whether a blank line ends it.
    pub blank: bool,
    /// Whether its end is in it.
    pub closed: bool,
}

fn no_html() -> HtmlFacts
    ensures { result ≡ no_html }
{
    HtmlFacts {
        blank: false,
        closed: false,
    }
}

/// Puts the HTML of an event after a text.
fn push_html(text: &mut String, event: &BufferedEvent) -> Result<(), AllocError>
    ensures { OnOk result (string_bytes text.new ≡ string_bytes text.old
        ++ event_text (buffered_view event.now)) }
{
    match &event.event {
        EventOf::Html(html) => text.push_str(html.as_str()),
        _ => Ok(()),
    }
}

/// The HTML of events joined.
fn joined_html(alloc: Global, events: &[BufferedEvent]) -> Result<String, AllocError>
    ensures { IfOk result (λ text. string_bytes text ≡ all_html (map buffered_view events.now)) }
{
    let mut text = String::new(alloc);
    for event in events {
        push_html(&mut text, event)?;
    }
    Ok(text)
}

fn in_lower_case(alloc: Global, text: &str) -> Result<String, AllocError>
    ensures { IfOk result (λ lower. string_bytes lower ≡ str_to_ascii_lowercase text.now) }
{
    let mut lower = String::from_str(alloc, text)?;
    lower.make_ascii_lowercase();
    Ok(lower)
}

/// How the block ends that an event starts, if it is an HTML block, in the joined HTML of its unit.
/// So many bytes of it and so many events are left behind the block's body.
fn event_facts(
    event: &BufferedEvent,
    text: &[u8],
    after: usize,
    events: usize,
    ahead: HtmlAhead,
) -> HtmlFacts
    requires within { ahead.visible ≤ length text.now }
    ensures { result ≡ event_facts (buffered_view event.now) text.now after events ahead }
{
    if opens_html(event) {
        HtmlFacts {
            blank: blank_by(events, ahead),
            closed: closed_by(opening_in(text, after, ahead), after, ahead.ends),
        }
    } else {
        no_html()
    }
}

/// A number of a list; 0 past its end.
fn number_at(numbers: &[usize], place: usize) -> usize
    ensures { result ≡ slice_index_or numbers.now place 0 }
{
    if place < numbers.len() {
        numbers[place]
    } else {
        0
    }
}

/// For each event that starts an HTML block how it ends, from the last event to the first. The
/// unit's joined HTML is given twice, as it is and in lower case.
fn found(
    alloc: Global,
    events: &[BufferedEvent],
    ends: &[Option<usize>],
    text: &[u8],
    lower: &[u8],
) -> Result<Vec<HtmlFacts>, AllocError>
    requires ends { AreEnds (map buffered_view events.now) ends.now }
    requires text { text.now ≡ all_html (map buffered_view events.now) }
    requires lower { lower.now ≡ str_to_ascii_lowercase text.now }
    ensures { IfOk result (λ facts. AreHtml (map buffered_view events.now) facts.items) }
{
    let mut facts = vec![in alloc; no_html(); events.len()]?;
    let mut lefts = vec![in alloc; 0usize; events.len()]?;
    let mut ahead = nothing_ahead();
    let mut i = events.len();
    while i > 0 {
        i -= 1;
        let end = body_end(ends, i);
        let after = number_at(&lefts, end);
        let behind = events.len().saturating_sub(end);
        facts[i] = event_facts(&events[i], text, after, behind, ahead);
        ahead = ahead_at(&events[i], events.len() - i, text, lower, ahead);
        lefts[i] = ahead.left;
    }
    Ok(facts)
}

/// For each event that starts an HTML block how it ends, if there is such an event. It takes time
/// in the events and their HTML, however deep such blocks are in one another.
pub fn html_facts(
    alloc: Global,
    events: &[BufferedEvent],
    there: bool,
) -> Result<Vec<HtmlFacts>, AllocError>
    requires there { there ≡ list_any (opens is_html_block) (map buffered_view events.now) }
    ensures { IfOk result (λ facts. AreHtml (map buffered_view events.now) facts.items) }
{
    if !there {
        return Ok(Vec::new(alloc));
    }
    let ends = matching_ends(alloc, events)?;
    let text = joined_html(alloc, events)?;
    let lower = in_lower_case(alloc, text.as_str())?;
    found(alloc, events, &ends, text.as_bytes(), lower.as_bytes())
}

/// How the block ends that starts at a place; nothing past the end.
pub fn html_at(facts: &[HtmlFacts], i: usize) -> HtmlFacts
    ensures { result ≡ slice_index_or facts.now i no_html }
{
    if i < facts.len() { facts[i] } else { no_html() }
}
