//! Events with byte ranges in a source.

ghost use Rattle.std.specs.Prelude.{◌==◌, ◌&&◌, Option, ◌≤◌, true, slice_range, ◌≡◌, length, Some, None};
ghost use Rattle.tocmark_event.specs.Text.{text_of};
ghost use Rattle.tocmark_event.specs.View.{event_view};
ghost use Rattle.tocmark_state.specs.Ranges.{is_character_boundary, is_good_range, resolved_at, spelling_start, unranged_steps};
ghost use Rattle.tocmark_state.specs.WorkView.{ResolvedAs};

use tocmark_event::event::{Event, EventOf};
use tocmark_event::options::Error;

/// Items as pairs without ranges.
#[derive(Drop)]
pub struct Unranged<I> {
    pub events: I,
}

impl<I: Iterator> Iterator for Unranged<I> {
    type Item = (I::Item, Option<(usize, usize)>);

    ghost can_next = { λ s. I.can_next s.events };

    ghost next_gives = { unranged_steps I.next_gives };

    ghost remaining = { λ s. I.remaining s.events };

    fn next(&mut self) -> Option<(I::Item, Option<(usize, usize)>)> {
        let event = self.events.next()?;
        Some((event, None))
    }
}

fn is_boundary(source: &str, at: usize) -> bool
    ensures { result ≡ is_character_boundary source.now at }
{
    source.is_char_boundary(at)
}

/// Whether a range isn't reversed, ends within the source and has its ends on character boundaries.
fn is_in_source(source: &str, range: (usize, usize)) -> bool
    ensures { result ≡ is_good_range source.now range }
{
    range.0 <= range.1 && is_boundary(source, range.0) && is_boundary(source, range.1)
}

fn text_start(source: &str, range_end: usize, start: usize) -> usize
    requires { start ≤ length source.now }
    ensures { result ≡ spelling_start source.now range_end start }
{
    if range_end < start && source.as_bytes()[start - 1] == b'\\' {
        start - 1
    } else {
        start
    }
}

/// What is in the source for a text, with the backslash before it.
fn text_spelling(source: &str, range_end: usize, range: (usize, usize)) -> &str
    requires { is_good_range source.now range ≡ true }
    ensures { result.now
        ≡ slice_range source.now (spelling_start source.now range_end range.0) range.1 }
{
    let start = text_start(source, range_end, range.0);
    &source[start..range.1]
}

/// What is in the source for an event, which only a text has, and the end of the last range.
pub fn resolve<'s>(
    source: &'s str,
    range_end: usize,
    event: &Event<'_>,
    range: Option<(usize, usize)>,
) -> Result<(Option<&'s str>, usize), Error>
    ensures { ResolvedAs (event_view text_of event.now) result
        (resolved_at source.now range_end (event_view text_of event.now) range) }
{
    let Some(range) = range else {
        return Ok((None, range_end));
    };
    if !is_in_source(source, range) {
        return Err(Error::InvalidSourceRange);
    }
    match event {
        EventOf::Start(_) => Ok((None, range_end)),
        EventOf::Text(_) => Ok((Some(text_spelling(source, range_end, range)), range.1)),
        _ => Ok((None, range.1)),
    }
}
