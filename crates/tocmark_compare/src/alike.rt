//! Whether what a reader found is a body and what is after it. No event is copied.

ghost use Rattle.std.specs.Prelude.{◌≡◌, ◌++◌, ◌+◌, List, Option, Some, None, IsSome, false, map, string_bytes, drop, length, nat_eq, if◌then◌else◌};
ghost use Rattle.std.specs.List.{starts_with};
ghost use Rattle.std.specs.Option.{option_map};
ghost use Rattle.tocmark_event.specs.Merged.{merged};
ghost use Rattle.tocmark_event.specs.Text.{text_of};
ghost use Rattle.tocmark_event.specs.View.{EventView, event_view};
ghost use Rattle.tocmark_spelling.specs.Buffered.{event_of, following_view, next_view};
ghost use Rattle.tocmark_spelling.specs.SameEvents.{same_events};
ghost use Rattle.tocmark_compare.specs.Alike.{alike, cut, expected_view, first, onward, text_in, Passes};

use crate::event::same_event;
use tocmark_event::event::{Event, EventOf, OwnedEvent, Words};
use tocmark_spelling::buffered::BufferedEvent;

/// The events that must be read.
#[derive(Clone, Copy)]
struct Expected<'e> {
    body: &'e [BufferedEvent],
    /// The events after the body.
    behind: &'e [OwnedEvent],
}

/// How far the first event on either side is read.
#[derive(Clone, Copy)]
struct Reached {
    /// How many bytes of its text, if it is one.
    found: usize,
    expected: usize,
    /// Whether a stretch of texts is begun on both sides.
    begun: bool,
}

/// Nothing of either event is read.
const UNREAD: Reached = Reached {
    found: 0,
    expected: 0,
    begun: false,
};

/// What the first event on either side says.
#[derive(Clone, Copy)]
enum Step {
    /// All is the same, or not.
    Over(bool),
    /// What was found is passed; so many bytes of the other text are read.
    Found(usize),
    /// What must be read is passed; so many bytes of the other text are read.
    Expected(usize),
    /// Both events are passed.
    Both,
}

impl<'e> Expected<'e> {
    fn first(self) -> Option<&'e OwnedEvent>
        ensures { following_view result ≡ first (expected_view self.entry) }
    {
        match self.body {
            [] => match self.behind {
                [] => None,
                [event, ..] => Some(event),
            },
            [buffered, ..] => Some(&buffered.event),
        }
    }

    fn rest(self) -> Expected<'e>
        ensures { expected_view result ≡ drop 1 (expected_view self.entry) }
    {
        if !self.body.is_empty() {
            return Expected {
                body: &self.body[1..],
                ..self
            };
        }
        if !self.behind.is_empty() {
            return Expected {
                behind: &self.behind[1..],
                ..self
            };
        }
        self
    }
}

fn first_found<'e, 't>(found: &'e [(Event<'t>, (usize, usize))]) -> Option<&'e Event<'t>>
    ensures { next_view result ≡ first (map (λ e. event_view text_of e.0) found.now) }
{
    match found {
        [] => None,
        [pair, ..] => Some(&pair.0),
    }
}

/// All that was found after the first event.
pub(crate) fn rest_found<'e, 't>(
    found: &'e [(Event<'t>, (usize, usize))],
) -> &'e [(Event<'t>, (usize, usize))]
    ensures { result.now ≡ drop 1 found.now }
{
    if found.is_empty() { found } else { &found[1..] }
}

/// The text of an event that was found; none for another event.
fn text_found<'e>(found: Option<&'e Event<'_>>) -> Option<&'e str>
    ensures { option_map (λ t. t.now) result ≡ text_in (next_view found.entry) }
{
    match found {
        Some(EventOf::Text(text)) => Some(text.words()),
        _ => None,
    }
}

/// The text of an event that must be read; none if it is no text or there is none.
fn text_expected(expected: Option<&OwnedEvent>) -> Option<&str>
    ensures { option_map (λ t. t.now) result ≡ text_in (following_view expected.entry) }
{
    match expected {
        Some(EventOf::Text(text)) => Some(text.as_str()),
        _ => None,
    }
}

/// The bytes of a text from one on; none past its end.
fn bytes_from(text: &str, from: usize) -> &[u8]
    ensures { result.now ≡ drop from text.now }
{
    let bytes = text.as_bytes();
    if from < bytes.len() {
        &bytes[from..]
    } else {
        &[]
    }
}

/// How many bytes of a whole text are read with these, which go on from a byte on.
fn read_on(whole: &str, from: usize, bytes: &[u8]) -> Option<usize>
    ensures { result ≡ (if starts_with nat_eq (drop from whole.now) bytes.now
        then Some (from + length bytes.now) else None) }
{
    if bytes_from(whole, from).starts_with(bytes) {
        Some(from + bytes.len())
    } else {
        None
    }
}

/// Two texts: the shorter one is passed if the other begins with it.
fn texts(found: &str, expected: &str, at: Reached) -> Step
    ensures { (xs ys : List EventView)
        → text_in (first xs) ≡ Some found.now → text_in (first ys) ≡ Some expected.now
        → onward result xs ys ≡ alike at.begun (cut at.found xs) (cut at.expected ys) }
{
    let left = bytes_from(found, at.found);
    let right = bytes_from(expected, at.expected);
    if left.len() <= right.len() {
        match read_on(expected, at.expected, left) {
            None => Step::Over(false),
            Some(read) => Step::Found(read),
        }
    } else {
        match read_on(found, at.found, right) {
            None => Step::Over(false),
            Some(read) => Step::Expected(read),
        }
    }
}

/// A text that was found, and no text that must be read: it is passed if nothing of it is left.
fn text_alone(found: &str, at: Reached) -> Step
    ensures onward { (xs ys : List EventView)
        → text_in (first xs) ≡ Some found.now → text_in (first ys) ≡ None
        → onward result xs ys ≡ alike at.begun (cut at.found xs) (cut at.expected ys) }
    ensures passes { (x y : Option EventView) → IsSome x → Passes result x y }
{
    if at.begun && found.len() <= at.found {
        Step::Found(0)
    } else {
        Step::Over(false)
    }
}

/// No text that was found, and one that must be read.
fn text_missing(expected: &str, at: Reached) -> Step
    ensures onward { (xs ys : List EventView)
        → text_in (first xs) ≡ None → text_in (first ys) ≡ Some expected.now
        → onward result xs ys ≡ alike at.begun (cut at.found xs) (cut at.expected ys) }
    ensures passes { (x y : Option EventView) → IsSome y → Passes result x y }
{
    if at.begun && expected.len() <= at.expected {
        Step::Expected(0)
    } else {
        Step::Over(false)
    }
}

fn both_if(same: bool) -> Step
    ensures onward { (xs ys : List EventView) → onward result xs ys
        ≡ (if same then alike false (drop 1 xs) (drop 1 ys) else false) }
    ensures passes { (x y : Option EventView) → IsSome x → IsSome y → Passes result x y }
{
    if same { Step::Both } else { Step::Over(false) }
}

/// No text on either side.
fn no_texts(found: Option<&Event<'_>>, expected: Option<&OwnedEvent>, at: Reached) -> Step
    ensures onward { (xs ys : List EventView)
        → first xs ≡ next_view found.entry → first ys ≡ following_view expected.entry
        → text_in (first xs) ≡ None → text_in (first ys) ≡ None
        → onward result xs ys ≡ alike at.begun (cut at.found xs) (cut at.expected ys) }
    ensures passes { Passes result (next_view found.entry) (following_view expected.entry) }
{
    match found {
        None => Step::Over(expected.is_none()),
        Some(event) => match expected {
            None => Step::Over(false),
            Some(other) => both_if(same_event(event, other)),
        },
    }
}

/// What the first event on either side says, if there is one.
fn compare(found: Option<&Event<'_>>, expected: Option<&OwnedEvent>, at: Reached) -> Step
    ensures onward { (xs ys : List EventView)
        → first xs ≡ next_view found.entry → first ys ≡ following_view expected.entry
        → onward result xs ys ≡ alike at.begun (cut at.found xs) (cut at.expected ys) }
    ensures passes { Passes result (next_view found.entry) (following_view expected.entry) }
{
    match text_found(found) {
        None => match text_expected(expected) {
            None => no_texts(found, expected, at),
            Some(right) => text_missing(right, at),
        },
        Some(left) => match text_expected(expected) {
            None => text_alone(left, at),
            Some(right) => texts(left, right, at),
        },
    }
}

/// Whether what a reader found is these events and those after them, each stretch of texts as one.
/// It takes no memory, and ends at the first difference.
pub fn alike(
    found: &[(Event<'_>, (usize, usize))],
    body: &[BufferedEvent],
    behind: &[OwnedEvent],
) -> bool
    ensures { result ≡ same_events (merged (map (λ e. event_view text_of e.0) found.now))
        (merged (map event_of body.now ++ map (event_view string_bytes) behind.now)) }
{
    let mut left = found;
    let mut right = Expected { body, behind };
    let mut at = UNREAD;
    loop {
        match compare(first_found(left), right.first(), at) {
            Step::Over(same) => return same,
            Step::Found(read) => {
                left = rest_found(left);
                at = Reached {
                    found: 0,
                    expected: read,
                    begun: true,
                };
            }
            Step::Expected(read) => {
                right = right.rest();
                at = Reached {
                    found: read,
                    expected: 0,
                    begun: true,
                };
            }
            Step::Both => {
                left = rest_found(left);
                right = right.rest();
                at = UNREAD;
            }
        }
    }
}
