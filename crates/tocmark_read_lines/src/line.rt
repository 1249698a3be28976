//! The lines of a text.

ghost use Rattle.std.specs.Prelude.{◌≡◌};
ghost use Rattle.tocmark_read_lines.specs.Lines.{ends_here, line_stop, line_ended, line_left};

use tocmark_read_scan::basic::byte_at;

/// A line of a text. Places are bytes of the text.
#[derive(Clone, Copy)]
pub struct Line {
    /// Its number, from 1 on.
    pub number: usize,
    /// The place of its first byte.
    pub start: usize,
    /// The place of its line ending; the end of the text where it has none.
    pub end: usize,
    /// The place after its line ending.
    pub next: usize,
}

/// Whether a line ends with the byte at a place: a line feed, or a carriage return with none after it.
#[tactic(auto, unfolding(crate::specs::Lines::ends_here))]
fn ends_here(text: &[u8], byte: u8, at: usize) -> bool
    ensures { result ≡ ends_here text.now byte at }
{
    let alone = byte == b'\r' && byte_at(text, at.saturating_add(1)) != b'\n';
    byte == b'\n' || alone || byte == b'\r' && at.saturating_add(1) >= text.len()
}

/// Where the line ending begins that ends with the byte at a place, in a line that began at `start`.
#[tactic(auto, unfolding(crate::specs::Lines::line_stop))]
fn line_stop(text: &[u8], start: usize, byte: u8, at: usize) -> usize
    ensures { result ≡ line_stop text.now start byte at }
{
    let pair = byte == b'\n' && start < at && byte_at(text, at.saturating_sub(1)) == b'\r';
    if pair { at.saturating_sub(1) } else { at }
}

/// The line that ends with the byte at a place, if one does. It began at `start`, after `before` lines.
#[tactic(auto, unfolding(crate::specs::Lines::line_ended))]
pub fn line_ended(text: &[u8], before: usize, start: usize, at: usize) -> Option<Line>
    ensures { result ≡ line_ended text.now before start at }
{
    let byte = byte_at(text, at);
    if ends_here(text, byte, at) {
        Some(Line {
            number: before.saturating_add(1),
            start,
            end: line_stop(text, start, byte, at),
            next: at.saturating_add(1),
        })
    } else {
        None
    }
}

/// The line that is left at the end of a text, unless it is empty. It begins at `start`, after `before` lines.
#[tactic(auto, unfolding(crate::specs::Lines::line_left))]
pub fn line_left(before: usize, start: usize, end: usize) -> Option<Line>
    ensures { result ≡ line_left before start end }
{
    if start < end {
        Some(Line {
            number: before.saturating_add(1),
            start,
            end,
            next: end,
        })
    } else {
        None
    }
}
