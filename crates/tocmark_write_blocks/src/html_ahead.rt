//! What is of a unit's HTML from an event on.

ghost use Rattle.std.specs.Prelude.{◌≡◌, ◌+◌, ◌≤◌, [], length};
ghost use Rattle.std.specs.Str.{str_to_ascii_lowercase};
ghost use Rattle.tocmark_spelling.specs.Buffered.{buffered_view};
ghost use Rattle.tocmark_write_blocks.specs.BlockEnds.{last_of, ends_in};
ghost use Rattle.tocmark_write_blocks.specs.HtmlAhead.{event_text, html_here, ahead_of, ahead_with};
ghost use Rattle.tocmark_write_blocks.specs.HtmlAhead.{ahead_at, visible_with, blank_by, opening_in, IsHtml};

use crate::block_ends::{BlockEnds, ends_between, last_of, no_ends};
use crate::html::is_blank_terminated;
use tocmark_event::event::EventOf;
use tocmark_spelling::buffered::BufferedEvent;

/// What is known of the HTML from an event on to the end of its unit.
#[derive(Clone, Copy)]
pub struct HtmlAhead {
    /// How many bytes it has.
    pub left: usize,
    /// How many are left from the first that is no white space on; 0 where there is none.
    pub visible: usize,
    /// How many are left from the first place of each end of a block on.
    pub ends: BlockEnds,
    /// How many events are left from the first HTML on; 0 where there is none.
    pub events: usize,
    /// Whether a blank line ends a block that begins with that HTML.
    pub blank: bool,
}

/// What is known after the last event.
pub fn nothing_ahead() -> HtmlAhead
    ensures { result ≡ ahead_of [] }
{
    HtmlAhead {
        left: 0,
        visible: 0,
        ends: no_ends(),
        events: 0,
        blank: false,
    }
}

fn visible_with(html: &str, left: usize, visible: usize) -> usize
    requires fits { left + length html.now ≤ 18446744073709551615 }
    ensures { result ≡ visible_with html.now left visible }
{
    let size = html.trim_start().len();
    if size == 0 { visible } else { left + size }
}

/// A text of HTML in front, where so many events are left with this one, in the joined HTML of a
/// unit.
fn ahead_with(html: &str, events: usize, text: &[u8], lower: &[u8], behind: HtmlAhead) -> HtmlAhead
    requires lower { lower.now ≡ str_to_ascii_lowercase text.now }
    requires within { behind.left + length html.now ≤ length text.now }
    requires ends { behind.ends ≡ ends_in (last_of behind.left text.now) }
    ensures { result ≡ ahead_with html.now events text.now behind }
{
    let left = behind.left + html.len();
    HtmlAhead {
        left,
        visible: visible_with(html, behind.left, behind.visible),
        ends: ends_between(text, lower, behind.left, left, behind.ends),
        events,
        blank: is_blank_terminated(Some(html)),
    }
}

/// One event more in front, with which so many are left. The unit's joined HTML is given twice, as
/// it is and in lower case.
pub fn ahead_at(
    event: &BufferedEvent,
    events: usize,
    text: &[u8],
    lower: &[u8],
    behind: HtmlAhead,
) -> HtmlAhead
    requires lower { lower.now ≡ str_to_ascii_lowercase text.now }
    requires within { behind.left + length (event_text (buffered_view event.now))
        ≤ length text.now }
    requires ends { behind.ends ≡ ends_in (last_of behind.left text.now) }
    ensures ahead { result ≡ ahead_at (html_here (buffered_view event.now)) events text.now behind }
    ensures text { IsHtml (buffered_view event.now) }
{
    match &event.event {
        EventOf::Html(html) => ahead_with(html.as_str(), events, text, lower, behind),
        _ => behind,
    }
}

/// Whether a blank line ends the HTML block that begins here, where so many events are left behind
/// its body.
pub fn blank_by(events: usize, ahead: HtmlAhead) -> bool
    ensures { result ≡ blank_by events ahead }
{
    events < ahead.events && ahead.blank
}

/// The HTML of the body that begins here without white space at its front, where so many bytes are
/// left behind it, in the joined HTML of a unit.
pub fn opening_in(text: &[u8], after: usize, ahead: HtmlAhead) -> &[u8]
    requires within { ahead.visible ≤ length text.now }
    ensures { result.now ≡ opening_in text.now after ahead }
{
    let visible = last_of(text, ahead.visible);
    &visible[..ahead.visible.saturating_sub(after)]
}
