//! The runs of a token in the texts of bodies, found for all containers of a unit in one pass from the last event to
//! the first.

ghost use Rattle.std.specs.Prelude.{◌≡◌, chars, reverse, map, IfOk, OnOk, slice_index_or};
ghost use Rattle.tocmark_spelling.specs.Buffered.{buffered_view};
ghost use Rattle.tocmark_write_blocks.specs.TokenRuns.{no_runs, one_run, joined_runs, runs_in, event_runs};
ghost use Rattle.tocmark_write_blocks.specs.TokenRuns.{past_start, runs_with, IsText, AreRuns};

use std::alloc::{AllocError, Global};
use tocmark_event::event::EventOf;
use tocmark_spelling::buffered::BufferedEvent;

/// The runs of a token in a text, in characters.
#[derive(Clone, Copy)]
pub struct TokenRuns {
    /// How many tokens are at its front.
    pub front: usize,
    /// How many are at its end.
    pub back: usize,
    /// The length of the longest run.
    pub longest: usize,
    /// Whether it is nothing but tokens, or empty.
    pub whole: bool,
}

fn no_runs() -> TokenRuns
    ensures { result ≡ no_runs }
{
    TokenRuns {
        front: 0,
        back: 0,
        longest: 0,
        whole: true,
    }
}

/// The runs in a single character, which is the token or not.
fn one_run(token: bool) -> TokenRuns
    ensures { result ≡ one_run token }
{
    let length = if token { 1 } else { 0 };
    TokenRuns {
        front: length,
        back: length,
        longest: length,
        whole: token,
    }
}

impl TokenRuns {
    /// The runs in two texts that are joined. An `Err` says that a run is as long as no text can be.
    fn joined(self, right: TokenRuns) -> Result<TokenRuns, AllocError>
        ensures { IfOk result (λ runs. runs ≡ joined_runs self right) }
    {
        let across = self.back.checked_add(right.front).ok_or(AllocError)?;
        Ok(TokenRuns {
            front: if self.whole { across } else { self.front },
            back: if right.whole { across } else { right.back },
            longest: self.longest.max(right.longest).max(across),
            whole: self.whole && right.whole,
        })
    }
}

/// The runs of a byte among bytes. Where it isn't one of them, as in most texts, that is seen without
/// a look at each.
fn byte_runs(bytes: &[u8], byte: u8) -> Result<TokenRuns, AllocError>
    ensures { IfOk result (λ runs. runs ≡ runs_in byte bytes.now) }
{
    if !bytes.contains(&byte) {
        return Ok(TokenRuns {
            whole: bytes.is_empty(),
            ..no_runs()
        });
    }
    let mut runs = no_runs();
    for other in bytes {
        runs = runs.joined(one_run(*other == byte))?;
    }
    Ok(runs)
}

fn char_runs(text: &str, token: char) -> Result<TokenRuns, AllocError>
    ensures { IfOk result (λ runs. runs ≡ runs_in token (chars text.now)) }
{
    let mut runs = no_runs();
    for c in text.chars() {
        runs = runs.joined(one_run(c == token))?;
    }
    Ok(runs)
}

/// The runs of a token in a text. One of ASCII is found by its byte, which is in no other
/// character.
fn text_runs(text: &str, token: char) -> Result<TokenRuns, AllocError>
    ensures { IfOk result (λ runs. runs ≡ runs_in token (chars text.now)) }
{
    if token.is_ascii() {
        byte_runs(text.as_bytes(), token as u8)
    } else {
        char_runs(text, token)
    }
}

/// The runs in an event's text; none where it isn't a text.
fn event_runs(event: &BufferedEvent, token: char) -> Result<TokenRuns, AllocError>
    ensures runs { IfOk result (λ runs. runs ≡ event_runs token (buffered_view event.now)) }
    ensures text { OnOk result (IsText (buffered_view event.now)) }
{
    match &event.event {
        EventOf::Text(text) => text_runs(text.as_str(), token),
        _ => Ok(no_runs()),
    }
}

/// A container in front with such a body; what is to its right goes from the stack.
fn past_start(kids: TokenRuns, outer: &mut Vec<TokenRuns>) -> Result<TokenRuns, AllocError>
    ensures { IfOk result (λ x.
        record { inner = x; outer = reverse outer.new.items }
        ≡ past_start kids (reverse outer.old.items)) }
{
    match outer.pop() {
        None => kids.joined(no_runs()),
        Some(right) => kids.joined(right),
    }
}

/// One event more in front.
fn with_event(
    event: &BufferedEvent,
    token: char,
    inner: TokenRuns,
    outer: &mut Vec<TokenRuns>,
) -> Result<TokenRuns, AllocError>
    ensures runs { IfOk result (λ x.
        record { inner = x; outer = reverse outer.new.items }
        ≡ runs_with token (buffered_view event.now)
        (record { inner = inner; outer = reverse outer.old.items })) }
    ensures text { OnOk result (IsText (buffered_view event.now)) }
{
    match &event.event {
        EventOf::Start(_) => past_start(inner, outer),
        EventOf::End(_) => {
            outer.push(inner)?;
            Ok(no_runs())
        }
        _ => event_runs(event, token)?.joined(inner),
    }
}

/// For each event the runs of a token in the joined texts of the trees after it, up to the end of the container
/// that is innermost there: at a start, those of its body. It takes time in the events and their texts, however
/// deep they are.
pub fn token_runs(
    alloc: Global,
    events: &[BufferedEvent],
    token: char,
) -> Result<Vec<TokenRuns>, AllocError>
    ensures { IfOk result (λ runs. AreRuns token (map buffered_view events.now) runs.items) }
{
    let mut runs = vec![in alloc; no_runs(); events.len()]?;
    let mut outer: Vec<TokenRuns> = Vec::new(alloc);
    let mut inner = no_runs();
    let mut i = events.len();
    while i > 0 {
        i -= 1;
        runs[i] = inner;
        inner = with_event(&events[i], token, inner, &mut outer)?;
    }
    Ok(runs)
}

/// The longest run of the token in the body after an event.
pub fn longest_at(runs: &[TokenRuns], i: usize) -> usize
    ensures { result ≡ (slice_index_or runs.now i no_runs).longest }
{
    if i < runs.len() { runs[i].longest } else { 0 }
}
