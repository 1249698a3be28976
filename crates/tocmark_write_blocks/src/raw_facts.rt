//! What the openings of code and HTML blocks ask of the texts in them.

ghost use Rattle.std.specs.Prelude.{◌≡◌, ◌==◌, [], true, IfOk, map, slice_index_or, string_bytes};
ghost use Rattle.std.specs.List.{list_any};
ghost use Rattle.std.specs.Str.{IsUtf8};
ghost use Rattle.tocmark_event.specs.Options.{options_view};
ghost use Rattle.tocmark_event.specs.View.{code_view, tag_view, CodeBlock};
ghost use Rattle.tocmark_spelling.specs.Buffered.{buffered_view};
ghost use Rattle.tocmark_write_blocks.specs.TokenRuns.{AreRuns, IsText};
ghost use Rattle.tocmark_write_blocks.specs.Html.{AreHtml};
ghost use Rattle.tocmark_write_blocks.specs.Kinds.{is_fenced, opens};
ghost use Rattle.tocmark_write_blocks.specs.Raw.{no_raw, raw_of, raw_of_tag, has_other_fence, AreFenceRuns, AreOtherRuns, AreRaw, AreWithout, event_holds};

use crate::code::fence_token;
use crate::html_facts::{HtmlFacts, html_at, html_facts};
use crate::kinds::kinds_in;
use crate::token_runs::{TokenRuns, longest_at, token_runs};
use std::alloc::{AllocError, Global};
use tocmark_event::event::{CodeBlockKindOf, EventOf, TagOf};
use tocmark_event::options::Options;
use tocmark_spelling::buffered::BufferedEvent;

/// What the opening of a code or HTML block asks of the texts in it. Of any other container it says
/// nothing.
#[derive(Clone, Copy)]
pub struct RawFacts {
    /// Of fenced code: the length of the longest run of the fence's token in it, in characters.
    pub longest: usize,
    /// Of an HTML block: whether a blank line ends it.
    pub blank: bool,
    /// Of an HTML block: whether its end is in it.
    pub closed: bool,
}

fn no_raw() -> RawFacts
    ensures { result ≡ no_raw }
{
    RawFacts {
        longest: 0,
        blank: false,
        closed: false,
    }
}

/// The facts of a code block, by the longest runs of the preferred token and of `~`.
fn raw_of_code(
    options: &Options<'_>,
    kind: &CodeBlockKindOf<String>,
    preferred: usize,
    tilde: usize,
    html: HtmlFacts,
) -> RawFacts
    ensures { result ≡ raw_of_tag (options_view options.now)
        (CodeBlock (code_view string_bytes kind.now)) preferred tilde html }
{
    match kind {
        CodeBlockKindOf::Indented => no_raw(),
        CodeBlockKindOf::Fenced(info) => {
            let is_preferred = fence_token(options, info.as_str()) == options.code_block_token;
            RawFacts {
                longest: if is_preferred { preferred } else { tilde },
                blank: false,
                closed: false,
            }
        }
    }
}

/// The facts of a container.
fn raw_of_tag(
    options: &Options<'_>,
    tag: &TagOf<String>,
    preferred: usize,
    tilde: usize,
    html: HtmlFacts,
) -> RawFacts
    ensures { result ≡ raw_of_tag (options_view options.now) (tag_view string_bytes tag.now)
        preferred tilde html }
{
    match tag {
        TagOf::CodeBlock(kind) => raw_of_code(options, kind, preferred, tilde, html),
        TagOf::HtmlBlock => RawFacts {
            longest: 0,
            blank: html.blank,
            closed: html.closed,
        },
        _ => no_raw(),
    }
}

/// The facts at an event.
fn raw_of(
    options: &Options<'_>,
    event: &BufferedEvent,
    preferred: usize,
    tilde: usize,
    html: HtmlFacts,
) -> RawFacts
    ensures { result ≡ raw_of (options_view options.now) (buffered_view event.now)
        preferred tilde html }
{
    match &event.event {
        EventOf::Start(tag) => raw_of_tag(options, tag, preferred, tilde, html),
        _ => no_raw(),
    }
}

/// The facts at each event, by the runs of the preferred token and of `~`, and by how HTML blocks
/// end.
fn gathered(
    alloc: Global,
    options: &Options<'_>,
    events: &[BufferedEvent],
    preferred: &[TokenRuns],
    tildes: &[TokenRuns],
    html: &[HtmlFacts],
) -> Result<Vec<RawFacts>, AllocError>
    requires preferred { AreFenceRuns (options_view options.now).code_block_token
        (map buffered_view events.now) preferred.now }
    requires tildes { AreOtherRuns (options_view options.now)
        (map buffered_view events.now) tildes.now }
    requires html { AreHtml (map buffered_view events.now) html.now }
    ensures { IfOk result (λ facts.
        AreRaw (options_view options.now) (map buffered_view events.now) facts.items) }
{
    let mut facts = vec![in alloc; no_raw(); events.len()]?;
    let mut i = events.len();
    while i > 0 {
        i -= 1;
        let preferred = longest_at(preferred, i);
        let tilde = longest_at(tildes, i);
        facts[i] = raw_of(options, &events[i], preferred, tilde, html_at(html, i));
    }
    Ok(facts)
}

fn text_holds(text: &str, byte: u8) -> bool
    ensures held { result ≡ list_any (λ b. b == byte) text.now }
    ensures text { IsUtf8 text.now }
{
    text.as_bytes().contains(&byte)
}

/// Whether a byte is in an event that is a text.
fn event_holds(event: &BufferedEvent, byte: u8) -> bool
    ensures held { result ≡ event_holds byte (buffered_view event.now) }
    ensures text { IsText (buffered_view event.now) }
{
    match &event.event {
        EventOf::Text(text) => text_holds(text.as_str(), byte),
        _ => false,
    }
}

/// Whether a byte is in no event that is a text.
fn are_without(events: &[BufferedEvent], byte: u8) -> bool
    ensures { result ≡ true → AreWithout byte (map buffered_view events.now) }
{
    let mut i = events.len();
    while i > 0 {
        i -= 1;
        if event_holds(&events[i], byte) {
            return false;
        }
    }
    true
}

/// Whether a token of ASCII is in no text, so that no body has a run of it.
fn has_no_runs(events: &[BufferedEvent], token: char) -> bool
    ensures { result ≡ true → AreRuns token (map buffered_view events.now) [] }
{
    if token.is_ascii() {
        are_without(events, token as u8)
    } else {
        false
    }
}

/// For each event that starts fenced code the runs of a token in it, if there is such an event and the
/// token is in a text.
fn fence_runs(
    alloc: Global,
    events: &[BufferedEvent],
    fenced: bool,
    token: char,
) -> Result<Vec<TokenRuns>, AllocError>
    requires fenced { fenced ≡ list_any (opens is_fenced) (map buffered_view events.now) }
    ensures { IfOk result (λ runs. AreFenceRuns token (map buffered_view events.now) runs.items) }
{
    if !fenced {
        return Ok(Vec::new(alloc));
    }
    if has_no_runs(events, token) {
        return Ok(Vec::new(alloc));
    }
    token_runs(alloc, events, token)
}

/// Whether it is the tag of code whose fence isn't made of the preferred token.
fn has_other_fence(options: &Options<'_>, tag: &TagOf<String>) -> bool
    ensures { result
        ≡ has_other_fence (options_view options.now) (tag_view string_bytes tag.now) }
{
    match tag {
        TagOf::CodeBlock(CodeBlockKindOf::Fenced(info)) => {
            fence_token(options, info.as_str()) != options.code_block_token
        }
        _ => false,
    }
}

fn opens_other_fence(options: &Options<'_>, event: &BufferedEvent) -> bool
    ensures { result
        ≡ opens (has_other_fence (options_view options.now)) (buffered_view event.now) }
{
    match &event.event {
        EventOf::Start(tag) => has_other_fence(options, tag),
        _ => false,
    }
}

fn has_other_fences(options: &Options<'_>, events: &[BufferedEvent]) -> bool
    ensures { result ≡ list_any (opens (has_other_fence (options_view options.now)))
        (map buffered_view events.now) }
{
    for event in events {
        if opens_other_fence(options, event) {
            return true;
        }
    }
    false
}

/// For each event that starts code whose fence isn't made of the preferred token the runs of `~` in
/// it, if there is such an event: most units have none, and their texts aren't looked at once more.
fn other_runs(
    alloc: Global,
    options: &Options<'_>,
    events: &[BufferedEvent],
) -> Result<Vec<TokenRuns>, AllocError>
    ensures { IfOk result (λ runs. AreOtherRuns (options_view options.now)
        (map buffered_view events.now) runs.items) }
{
    if has_other_fences(options, events) {
        token_runs(alloc, events, '~')
    } else {
        Ok(Vec::new(alloc))
    }
}

/// For each event that starts a code or HTML block what its opening asks of the texts in it. The list
/// is empty where no block asks anything: without such a block, and for fenced code whose tokens are in
/// no text. It takes time in the events and their texts, however deep they are.
pub fn raw_facts(
    alloc: Global,
    options: &Options<'_>,
    events: &[BufferedEvent],
) -> Result<Vec<RawFacts>, AllocError>
    ensures { IfOk result (λ facts.
        AreRaw (options_view options.now) (map buffered_view events.now) facts.items) }
{
    let kinds = kinds_in(events);
    if !kinds.fenced && !kinds.html {
        return Ok(Vec::new(alloc));
    }
    let preferred = fence_runs(alloc, events, kinds.fenced, options.code_block_token)?;
    let tildes = other_runs(alloc, options, events)?;
    if !kinds.html && preferred.is_empty() && tildes.is_empty() {
        return Ok(Vec::new(alloc));
    }
    let html = html_facts(alloc, events, kinds.html)?;
    gathered(alloc, options, events, &preferred, &tildes, &html)
}

/// The facts at a place; those of no block past the end.
pub fn raw_at(facts: &[RawFacts], i: usize) -> RawFacts
    ensures { result ≡ slice_index_or facts.now i no_raw }
{
    if i < facts.len() { facts[i] } else { no_raw() }
}
