//! What a marker is chosen by.

ghost use Rattle.std.specs.Prelude.{◌≡◌, slice_index};
ghost use Rattle.tocmark_spelling.specs.Marker.{other_marker, is_divisible};
ghost use Rattle.tocmark_spelling.specs.Runs.{is_marker};
ghost use Rattle.tocmark_write_emphasis.specs.Facts.{asked_by, asks_runs};

use tocmark_spelling::plan::{Delimiters, Layout};
use tocmark_write_pending::runs::Run;

/// What the events of a unit say of a node of emphasis or strong emphasis.
#[derive(Clone, Copy)]
pub struct EmphasisEvents {
    /// Whether it is strong emphasis.
    pub strong: bool,
    /// Whether the event before it ends emphasis or strong emphasis.
    pub follows_closing: bool,
    /// The first character of the event after it, beyond the unit's end too.
    pub next: Option<char>,
    /// The runs in which its Start and its End are.
    pub opening: Run,
    pub closing: Run,
    /// How many markers it opens with, those of its first children included.
    pub width: usize,
    /// Whether it prefers the underscore.
    pub prefers: bool,
}

/// The nearest open emphasis or strong emphasis.
#[derive(Clone, Copy)]
pub struct Parent {
    /// The first byte of what it opened with.
    pub marker: char,
    /// Whether nothing was written since its opening.
    pub same_start: bool,
    /// Whether its End is the event after the node.
    pub same_finish: bool,
    /// Where the layout asks for runs: how long the run of its marker is in the text round the end
    /// of its opening, in bytes.
    pub run: usize,
}

/// What the written text and the open containers say of the place where a node opens.
#[derive(Clone, Copy)]
pub struct NodeSurroundings {
    pub last_character: Option<char>,
    /// The last byte; 0 where nothing is written.
    pub last_byte: u8,
    /// Where the layout asks for runs: how long the last run of `*` or of `_` is, in bytes.
    pub last_run: usize,
    /// Whether the nearest open emphasis, strong emphasis aside, opened with the marker that is asked
    /// for.
    pub in_same: bool,
    /// The nearest open emphasis or strong emphasis.
    pub parent: Option<Parent>,
}

/// Whether a layout asks how long the runs of markers in the text are.
pub fn asks_runs(layout: Layout) -> bool
    ensures { result ≡ asks_runs layout }
{
    match layout {
        Layout::RuleThree => true,
        _ => false,
    }
}

/// The other one of the two markers.
pub fn other_marker(marker: char) -> char
    ensures { result ≡ other_marker marker }
{
    if marker == '*' { '_' } else { '*' }
}

/// Whether a character is one of the two markers.
pub fn is_marker(character: char) -> bool
    ensures { result ≡ is_marker character }
{
    character == '*' || character == '_'
}

/// Whether a length is a multiple of three.
pub fn is_divisible(length: usize) -> bool
    ensures { result ≡ is_divisible length }
{
    length % 3 == 0
}

fn first_byte(text: &str) -> u8
    ensures { result ≡ slice_index text.now 0 }
{
    match text.as_bytes().first() {
        Some(byte) => *byte,
        None => 0,
    }
}

/// The marker that is asked for; of several characters the first byte.
pub fn asked_marker(delimiters: &Delimiters<'_>, strong: bool) -> char
    ensures { result ≡ asked_by delimiters.now strong }
{
    if strong {
        char::from(first_byte(delimiters.strong))
    } else {
        delimiters.emphasis
    }
}
