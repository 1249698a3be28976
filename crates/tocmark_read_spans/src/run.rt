//! Runs of `*`, `_`, `~` and `^`, and what they can open and close.

ghost use Rattle.std.specs.Prelude.{◌≡◌};
ghost use Rattle.tocmark_read_spans.specs.Run.{is_space, is_punctuation, flanks, acts, run_between, run_at, tildes_open, tildes_close, are_read, is_subscript, tildes_between, tildes_at};

use tocmark_read_scan::basic::byte_at;
use tocmark_read_scan::class::{Class, run_end};
use tocmark_read_scan::side::{Side, side_at, side_before};
use tocmark_read_scan::syntax::Syntax;

/// A run of delimiters: its place and length now, and what it was.
#[derive(Clone, Copy)]
pub struct Run {
    /// The place of the first byte that is left of it.
    pub place: usize,
    /// The number of bytes that are left of it.
    pub count: usize,
    /// The number of bytes that it had at first.
    pub length: usize,
    /// Its byte, `*`, `_`, `~` or `^`.
    pub byte: u8,
    /// Whether it can open what its byte marks.
    pub opens: bool,
    /// Whether it can close what its byte marks.
    pub closes: bool,
    /// Whether it is a single tilde that marks a subscript.
    pub subscript: bool,
}

#[tactic(auto, unfolding(crate::specs::Run::is_space))]
fn is_space(side: Side) -> bool
    ensures { result ≡ is_space side }
{
    match side {
        Side::Space => true,
        Side::Punctuation => false,
        Side::Other => false,
    }
}

#[tactic(auto, unfolding(crate::specs::Run::is_punctuation))]
fn is_punctuation(side: Side) -> bool
    ensures { result ≡ is_punctuation side }
{
    match side {
        Side::Space => false,
        Side::Punctuation => true,
        Side::Other => false,
    }
}

/// Whether a run flanks what is on the inner side: no white space, and punctuation only after white
/// space or punctuation on the outer side.
#[tactic(auto, unfolding(crate::specs::Run::flanks))]
fn flanks(inner: Side, outer: Side) -> bool
    ensures { result ≡ flanks inner outer }
{
    let outside = is_space(outer) || is_punctuation(outer);
    !is_space(inner) && (!is_punctuation(inner) || outside)
}

/// Whether a run of this byte opens or closes towards the inner side.
#[tactic(auto, unfolding(crate::specs::Run::acts))]
fn acts(byte: u8, inner: Side, outer: Side) -> bool
    ensures { result ≡ acts byte inner outer }
{
    let free = byte == b'*' || !flanks(outer, inner) || is_punctuation(outer);
    flanks(inner, outer) && free
}

/// The run of a byte that begins at a place and ends before another.
#[tactic(auto, unfolding(crate::specs::Run::run_between))]
fn run_between(bytes: &[u8], place: usize, end: usize, byte: u8) -> Run
    ensures { result ≡ run_between bytes.now place end byte }
{
    let before = side_before(bytes, place);
    let after = side_at(bytes, end);
    let count = end.saturating_sub(place);
    Run {
        place,
        count,
        length: count,
        byte,
        opens: acts(byte, after, before),
        closes: acts(byte, before, after),
        subscript: false,
    }
}

/// The run of a byte that begins at a place.
#[tactic(auto, unfolding(crate::specs::Run::run_at))]
pub fn run_at(bytes: &[u8], place: usize, byte: u8) -> Run
    ensures { result ≡ run_at bytes.now place byte }
{
    run_between(bytes, place, run_end(bytes, place, Class::Only(byte)), byte)
}

/// Whether a run of so many tildes opens: one or two before what is no white space, a single one not
/// within a word.
#[tactic(auto, unfolding(crate::specs::Run::tildes_open))]
fn tildes_open(count: usize, before: Side, after: Side) -> bool
    ensures { result ≡ tildes_open count before after }
{
    let free = is_space(before) || is_punctuation(before);
    !is_space(after) && (count == 2 || count == 1 && free)
}

/// Whether a run of so many tildes closes: one or two after what is no white space.
#[tactic(auto, unfolding(crate::specs::Run::tildes_close))]
fn tildes_close(count: usize, behind_tilde: bool, before: Side, after: Side) -> bool
    ensures { result ≡ tildes_close count behind_tilde before after }
{
    let two = count == 2 && !is_punctuation(before);
    let free = is_space(after) || is_punctuation(after) || two || behind_tilde;
    (count == 1 || count == 2) && !is_space(before) && free
}

/// Whether so many tildes are delimiters: two only where strikethrough is read.
#[tactic(auto, unfolding(crate::specs::Run::are_read))]
fn are_read(syntax: Syntax, count: usize) -> bool
    ensures { result ≡ are_read syntax count }
{
    syntax.strikethrough || count == 1
}

/// Whether so many tildes are a subscript.
#[tactic(auto, unfolding(crate::specs::Run::is_subscript))]
fn is_subscript(syntax: Syntax, count: usize) -> bool
    ensures { result ≡ is_subscript syntax count }
{
    syntax.subscript && count == 1
}

#[tactic(auto, unfolding(crate::specs::Run::tildes_between))]
fn tildes_between(syntax: Syntax, bytes: &[u8], place: usize, end: usize) -> Run
    ensures { result ≡ tildes_between syntax bytes.now place end }
{
    let before = side_before(bytes, place);
    let after = side_at(bytes, end);
    let count = end.saturating_sub(place);
    let behind_tilde = 0 < place && byte_at(bytes, place.saturating_sub(1)) == b'~';
    let read = are_read(syntax, count);
    Run {
        place,
        count,
        length: count,
        byte: b'~',
        opens: read && tildes_open(count, before, after),
        closes: read && tildes_close(count, behind_tilde, before, after),
        subscript: is_subscript(syntax, count),
    }
}

/// The run of tildes that begins at a place.
#[tactic(auto, unfolding(crate::specs::Run::tildes_at))]
pub fn tildes_at(syntax: Syntax, bytes: &[u8], place: usize) -> Run
    ensures { result ≡ tildes_at syntax bytes.now place }
{
    let end = run_end(bytes, place, Class::Only(b'~'));
    tildes_between(syntax, bytes, place, end)
}
