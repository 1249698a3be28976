//! Events with the addresses of their texts as links.

ghost use Rattle.std.specs.Prelude.{◌≡◌, if◌then◌else◌, IfOk, OnOk, map};
ghost use Rattle.std.specs.List.{fold};
ghost use Rattle.tocmark_event.specs.Text.{text_of};
ghost use Rattle.tocmark_event.specs.View.{event_view};
ghost use Rattle.tocmark_bare_links.specs.Linked.{added, ahead, begun_at, divided, goes_on, is_delimiter, is_ended, is_escaped, is_in_address, is_looked_at, is_next, is_plain, letter_count, linked, linking_view, may_end, may_open, other_added, other_text, passed, spelled, stretch_added, stretch_ended, tail_added, text_added, tail_end, with_event, with_stretch, with_tail, with_text, word_end, word_front, word_length, word_start};
ghost use Rattle.tocmark_bare_links.specs.Lines.{brackets_step, scan_view, shown};
ghost use Rattle.tocmark_bare_links.specs.Signs.{sign_step};

use crate::border::{border_of, closed_after, is_cell_end};
use crate::scan::{Placed, Scan, add_text, part};
use crate::sign::Sign;
use crate::trail::kept_length;
use crate::words::{Brackets, Words, is_separator};
use std::alloc::{AllocError, Global};
use tocmark_event::event::{CowStr, Event};
use tocmark_read_scan::basic::{byte_at, bytes_between, rest, starts_at};

/// The events so far, and the stretch of texts that is begun.
#[derive(Drop)]
pub struct Linker {
    pub scan: Scan,
    pub stretch: String,
    pub begun: bool,
    /// The bytes of the stretch in the source.
    pub range: (usize, usize),
    /// How many containers without links of their own are open.
    pub closed: usize,
    /// Whether the stretch begins a line.
    pub edge: bool,
    /// Up to where the words of addresses are told.
    pub told: usize,
    /// Whether each text of the stretch is its source, one after the other.
    pub plain: bool,
    /// What the texts since the last other event have of `://` and `www.`; `any` is of the stretch alone.
    pub sign: Sign,
}

/// No bracket is open.
const NONE_OPEN: Brackets = Brackets {
    opened: 0,
    escaped: false,
};

/// Whether a text is its source byte for byte.
#[tactic(auto, unfolding(crate::specs::Linked::is_plain))]
fn is_plain(source: &[u8], text: &[u8], range: (usize, usize)) -> bool
    ensures { result ≡ is_plain source.now text.now range }
{
    starts_at(source, range.0, text) && range.1 == range.0.saturating_add(text.len())
}

/// Whether an address may begin after a byte that begins or ends emphasis.
#[tactic(auto, unfolding(crate::specs::Linked::is_delimiter))]
fn is_delimiter(byte: u8) -> bool
    ensures { result ≡ is_delimiter byte }
{
    byte == b'*' || byte == b'_' || byte == b'~'
}

/// Whether an address may begin where a stretch does.
#[tactic(auto, unfolding(crate::specs::Linked::may_open))]
fn may_open(source: &[u8], place: usize, edge: bool) -> bool
    ensures { result ≡ may_open source.now place edge }
{
    edge || is_delimiter(byte_at(source, place.saturating_sub(1)))
}

/// Whether no address goes on where a stretch ends.
#[tactic(auto, unfolding(crate::specs::Linked::may_end))]
fn may_end(source: &[u8], place: usize, is_cell: bool) -> bool
    ensures { result ≡ may_end source.now place is_cell }
{
    let byte = byte_at(source, place);
    is_separator(byte) || (is_cell && byte == b'|')
}

/// Whether a backslash escapes what is at a place where a stretch begins.
#[tactic(auto, unfolding(crate::specs::Linked::is_escaped))]
fn is_escaped(source: &[u8], place: usize) -> bool
    ensures { result ≡ is_escaped source.now place }
{
    byte_at(source, place.saturating_sub(1)) == b'\\'
}

/// Which brackets are open after some bytes.
fn brackets_in(brackets: Brackets, bytes: &[u8]) -> Brackets
    ensures { result ≡ fold brackets_step brackets bytes.now }
{
    let mut all = brackets;
    for byte in bytes {
        all = all.after(*byte);
    }
    all
}

/// How many letters bytes begin with.
#[tactic(auto, unfolding(crate::specs::Linked::letter_count))]
fn letter_count(bytes: &[u8]) -> usize
    ensures { result ≡ letter_count bytes.now }
{
    bytes
        .iter()
        .take_while(|byte| byte.is_ascii_alphabetic())
        .count()
}

/// The word that bytes begin with, or so many bytes of it.
#[tactic(auto, unfolding(crate::specs::Linked::word_front))]
fn word_front(bytes: &[u8], most: usize) -> &[u8]
    ensures { result.now ≡ word_front bytes.now most }
{
    let front = bytes_between(bytes, 0, most.min(bytes.len()));
    bytes_between(front, 0, word_length(front))
}

/// The letters at a place, and at most three bytes more of their word.
#[tactic(auto, unfolding(crate::specs::Linked::ahead))]
fn ahead(source: &[u8], place: usize) -> &[u8]
    ensures { result.now ≡ ahead source.now place }
{
    let bytes = rest(source, place);
    word_front(bytes, letter_count(bytes).saturating_add(3))
}

/// The source of a text with the backslash before it, after a mark if a bracket is open before it.
#[tactic(auto, unfolding(crate::specs::Linked::spelled))]
fn spelled(
    alloc: Global,
    source: &[u8],
    range: (usize, usize),
    brackets: Brackets,
) -> Result<CowStr<'static>, AllocError>
    ensures { IfOk result (λ it. text_of it ≡ spelled source.now range brackets) }
{
    let mut whole = String::new(alloc);
    if brackets.opened != 0 {
        whole.push_str("[")?;
    }
    let start = if brackets.escaped {
        range.0.saturating_sub(1)
    } else {
        range.0
    };
    whole.push_str(part(alloc, source, start, range.1)?.as_ref())?;
    Ok(CowStr::Owned(whole))
}

/// A text that isn't plain. Where programs look for an address, it is the source of it, because they see its escapes.
#[tactic(auto, unfolding(crate::specs::Linked::other_text))]
fn other_text(
    alloc: Global,
    source: &[u8],
    text: &str,
    any: bool,
    range: (usize, usize),
    brackets: Brackets,
) -> Result<CowStr<'static>, AllocError>
    ensures { IfOk result (λ it. text_of it ≡ other_text source.now text.now any range brackets) }
{
    if any {
        spelled(alloc, source, range, brackets)
    } else {
        Ok(CowStr::Owned(String::from_str(alloc, text)?))
    }
}

/// Adds a text that isn't plain.
#[tactic(auto, unfolding(crate::specs::Linked::other_added))]
fn add_other(
    alloc: Global,
    scan: &mut Scan,
    source: &[u8],
    text: &str,
    any: bool,
    range: (usize, usize),
) -> Result<(), AllocError>
    ensures { OnOk result (scan_view scan.new
        ≡ other_added source.now text.now any range (scan_view scan.old)) }
{
    let brackets = scan.words.brackets;
    let copy = other_text(alloc, source, text, any, range, brackets)?;
    scan.events.push((Event::Text(copy), range))?;
    scan.words.brackets = brackets_in(brackets, bytes_between(source, range.0, range.1));
    Ok(())
}

/// Whether a byte doesn't end a word.
#[tactic(auto, unfolding(crate::specs::Linked::goes_on))]
fn goes_on(byte: u8) -> bool
    ensures { result ≡ goes_on byte }
{
    !is_separator(byte)
}

/// The length of the word that bytes begin with.
#[tactic(auto, unfolding(crate::specs::Linked::word_length))]
fn word_length(bytes: &[u8]) -> usize
    ensures { result ≡ word_length bytes.now }
{
    bytes.iter().take_while(|byte| goes_on(**byte)).count()
}

/// Where the word ends that is at a place of the source.
#[tactic(auto, unfolding(crate::specs::Linked::word_end))]
fn word_end(source: &[u8], place: usize) -> usize
    ensures { result ≡ word_end source.now place }
{
    place.saturating_add(word_length(rest(source, place)))
}

/// Where the last word of a range begins.
#[tactic(auto, unfolding(crate::specs::Linked::word_start))]
fn word_start(source: &[u8], range: (usize, usize)) -> usize
    ensures { result ≡ word_start source.now range }
{
    let sign = Sign::of(bytes_between(source, range.0, range.1));
    range.0.saturating_add(sign.start)
}

/// Where that word, with what goes on in it after the range, ends without punctuation.
#[tactic(auto, unfolding(crate::specs::Linked::tail_end))]
fn tail_end(source: &[u8], range: (usize, usize)) -> usize
    ensures { result ≡ tail_end source.now range }
{
    let start = word_start(source, range);
    let word = bytes_between(source, start, word_end(source, range.1));
    start.saturating_add(kept_length(word))
}

impl Linker {
    /// Whether a text goes on with the stretch byte for byte.
    #[tactic(auto, unfolding(crate::specs::Linked::is_next))]
    fn is_next(&self, source: &[u8], text: &[u8], range: (usize, usize)) -> bool
        ensures { result ≡ is_next source.now (linking_view self.now) text.now range }
    {
        self.plain && range.0 == self.range.1 && is_plain(source, text, range)
    }

    /// Whether programs look for an address before a place in its word, or at the place.
    #[tactic(auto, unfolding(crate::specs::Linked::is_in_address))]
    fn is_in_address(&self, source: &[u8], place: usize) -> bool
        ensures { result ≡ is_in_address source.now (linking_view self.now) place }
    {
        self.sign.word || self.sign.through(ahead(source, place)).word
    }

    /// Ends the stretch before a text after an escape or a reference that is in no address.
    #[tactic(auto, unfolding(crate::specs::Linked::divided))]
    fn divide(
        &mut self,
        alloc: Global,
        source: &[u8],
        text: &[u8],
        range: (usize, usize),
    ) -> Result<(), AllocError>
        ensures { OnOk result (linking_view self.new
            ≡ divided source.now (linking_view self.old) text.now range) }
    {
        let goes_on = self.is_next(source, text, range) || self.is_in_address(source, range.0);
        if self.begun && !goes_on {
            self.end_stretch(alloc, source, false)?;
            self.edge = false;
            self.sign.any = false;
        }
        Ok(())
    }

    /// Begins a stretch, unless one is begun.
    #[tactic(auto, unfolding(crate::specs::Linked::begun_at))]
    fn begin(&mut self, source: &[u8], place: usize)
        ensures { linking_view self.new ≡ begun_at source.now place (linking_view self.old) }
    {
        if !self.begun {
            self.begun = true;
            self.plain = true;
            self.range = (place, place);
            self.scan.words.brackets.escaped = is_escaped(source, place);
        }
    }

    /// Adds a text to the stretch.
    fn add_text(
        &mut self,
        source: &[u8],
        text: &str,
        range: (usize, usize),
    ) -> Result<(), AllocError>
        ensures { OnOk result (linking_view self.new
            ≡ with_text source.now (linking_view self.old) text.now range) }
    {
        self.plain = self.is_next(source, text.as_bytes(), range);
        self.range = (self.range.0, range.1);
        self.sign = self.sign.through(text.as_bytes());
        self.stretch.push_str(text)?;
        Ok(())
    }

    /// Adds a text outside of links.
    fn take_text(
        &mut self,
        alloc: Global,
        source: &[u8],
        text: &str,
        range: (usize, usize),
    ) -> Result<(), AllocError>
        ensures { OnOk result (linking_view self.new
            ≡ text_added source.now (linking_view self.old) text.now range) }
    {
        self.divide(alloc, source, text.as_bytes(), range)?;
        self.begin(source, range.0);
        self.add_text(source, text, range)
    }

    /// Whether programs look for an address in the last word of the stretch. A word is looked at once.
    #[tactic(auto, unfolding(crate::specs::Linked::is_looked_at))]
    fn is_looked_at(&self, source: &[u8]) -> bool
        ensures { result ≡ is_looked_at source.now (linking_view self.now) }
    {
        let (start, end) = self.range;
        Sign::of(bytes_between(source, start, end)).word && self.told <= end
    }

    /// Whether an address ends in the stretch: what follows in its word is punctuation.
    #[tactic(auto, unfolding(crate::specs::Linked::is_ended))]
    fn is_ended(&self, source: &[u8]) -> bool
        ensures { result ≡ is_ended source.now (linking_view self.now) }
    {
        self.is_looked_at(source) && tail_end(source, self.range) <= self.range.1
    }

    /// Adds the stretch.
    #[tactic(auto, unfolding(crate::specs::Linked::stretch_added))]
    fn add_stretch(&mut self, alloc: Global, source: &[u8], is_cell: bool) -> Result<(), AllocError>
        ensures scan { OnOk result (scan_view self.new.scan
            ≡ stretch_added source.now is_cell (linking_view self.old)) }
        ensures stretch { self.new.stretch ≡ self.old.stretch }
        ensures begun { self.new.begun ≡ self.old.begun }
        ensures range { self.new.range ≡ self.old.range }
        ensures closed { self.new.closed ≡ self.old.closed }
        ensures edge { self.new.edge ≡ self.old.edge }
        ensures told { self.new.told ≡ self.old.told }
        ensures plain { self.new.plain ≡ self.old.plain }
        ensures sign { self.new.sign ≡ self.old.sign }
    {
        let (start, end) = self.range;
        let ends = may_end(source, end, is_cell) || self.is_ended(source);
        let text = self.stretch.as_str();
        if self.plain {
            let opens = may_open(source, start, self.edge);
            self.scan
                .add_line(alloc, text.as_bytes(), start, opens, ends)
        } else {
            let (any, range) = (self.sign.any, self.range);
            add_other(alloc, &mut self.scan, source, text, any, range)
        }
    }

    /// Adds what goes on in the last word of the stretch with its marks, as it is in the source, if an address may go on there.
    #[tactic(auto, unfolding(crate::specs::Linked::tail_added))]
    fn add_tail(&mut self, alloc: Global, source: &[u8], is_cell: bool) -> Result<(), AllocError>
        ensures { OnOk result (linking_view self.new
            ≡ tail_added source.now is_cell (linking_view self.old)) }
    {
        let end = self.range.1;
        if !may_end(source, end, is_cell) && self.is_looked_at(source) {
            let tail = tail_end(source, self.range);
            add_text(alloc, &mut self.scan.events, source, 0, end, tail)?;
            self.told = word_end(source, end);
        }
        Ok(())
    }

    /// Ends the stretch, if one is begun.
    #[tactic(auto, unfolding(crate::specs::Linked::stretch_ended))]
    fn end_stretch(&mut self, alloc: Global, source: &[u8], is_cell: bool) -> Result<(), AllocError>
        ensures { OnOk result (linking_view self.new
            ≡ stretch_ended source.now is_cell (linking_view self.old)) }
    {
        if self.begun {
            self.add_stretch(alloc, source, is_cell)?;
            self.add_tail(alloc, source, is_cell)?;
            self.stretch.clear();
            self.begun = false;
        }
        Ok(())
    }

    /// Adds an event that isn't of a stretch.
    fn push(&mut self, alloc: Global, pair: &Placed) -> Result<(), AllocError>
        ensures { OnOk result (linking_view self.new
            ≡ with_event (linking_view self.old) (event_view text_of pair.now.0) pair.now.1) }
    {
        let border = border_of(&pair.0);
        self.scan.events.push((pair.0.to_static(alloc)?, pair.1))?;
        self.scan.words.brackets.opened = border.brackets_after(self.scan.words.brackets.opened);
        self.closed = closed_after(self.closed, &pair.0);
        self.edge = border.begins_line();
        self.sign = Sign::new();
        Ok(())
    }

    /// Ends the stretch, and adds an event.
    #[tactic(auto, unfolding(crate::specs::Linked::passed))]
    fn pass(&mut self, alloc: Global, source: &[u8], pair: &Placed) -> Result<(), AllocError>
        ensures { OnOk result (linking_view self.new
            ≡ passed source.now (linking_view self.old) (event_view text_of pair.now.0) pair.now.1) }
    {
        self.end_stretch(alloc, source, is_cell_end(&pair.0))?;
        self.push(alloc, pair)
    }

    /// Adds an event.
    fn add(&mut self, alloc: Global, source: &[u8], pair: &Placed) -> Result<(), AllocError>
        ensures { OnOk result (linking_view self.new
            ≡ added source.now (linking_view self.old) (event_view text_of pair.now.0) pair.now.1) }
    {
        match &pair.0 {
            Event::Text(text) => {
                if self.closed == 0 {
                    self.take_text(alloc, source, text.as_ref(), pair.1)
                } else {
                    self.pass(alloc, source, pair)
                }
            }
            _ => self.pass(alloc, source, pair),
        }
    }
}

/// Copies of events of a source, with bare addresses as links.
///
/// It fails if memory runs out.
#[tactic(auto, unfolding(crate::specs::Linked::linked))]
pub(crate) fn linked(
    alloc: Global,
    source: &str,
    events: &[Placed],
) -> Result<Vec<Placed>, AllocError>
    ensures { IfOk result (λ all. map shown all.items ≡ linked source.now (map shown events.now)) }
{
    let mut linker = Linker {
        scan: Scan {
            words: Words::new(false, NONE_OPEN),
            events: Vec::new(alloc),
        },
        stretch: String::new(alloc),
        begun: false,
        range: (0, 0),
        closed: 0,
        edge: true,
        told: 0,
        plain: true,
        sign: Sign::new(),
    };
    for pair in events {
        linker.add(alloc, source.as_bytes(), pair)?;
    }
    linker.end_stretch(alloc, source.as_bytes(), false)?;
    let Linker { scan, .. } = linker;
    let Scan { events, .. } = scan;
    Ok(events)
}
