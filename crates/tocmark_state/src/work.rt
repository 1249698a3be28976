//! What a state makes of the events that it takes.

ghost use Rattle.std.specs.Prelude.{◌+◌, Option, ◌≡◌, length, IfOk, List, IsOk, string_bytes, sum_by};
ghost use Rattle.std.specs.Iterator.{IsFinite, DrainsIf};
ghost use Rattle.tocmark_event.specs.Text.{text_of};
ghost use Rattle.tocmark_event.specs.View.{event_view};
ghost use Rattle.tocmark_state.specs.Ranges.{Range};
ghost use Rattle.tocmark_state.specs.Walk.{done, hand_walk, is_due, flushed_before, walk, nothing_yet, last_choice, ended};
ghost use Rattle.tocmark_state.specs.Writes.{Makes};
ghost use Rattle.tocmark_state.specs.WorkView.{Chooses, CountsIn, at_most, flags_of, incoming_pairs, kept_of, rendering_with, standing_of};

use crate::hand::{hand, hand_last};
use crate::ranges::resolve;
use crate::taker::Taker;
use std::alloc::{AllocError, Global};
use tocmark_choose::document::Document;
use tocmark_choose::tools::Tools;
use tocmark_event::event::{Event, ParserOptions};
use tocmark_event::options::Error;
use tocmark_event::reader::Reader;
use tocmark_write_labels::ending::holds_raw_block;
use tocmark_write_pending::incoming::Incoming;
use tocmark_write_pending::pending::Pending;

/// How much a call did. Both counts stop at the greatest `usize`.
#[derive(Clone, Copy, Debug, PartialEq, Eq, Default)]
pub struct Progress {
    /// The events that the call took; `finish` takes none.
    pub events_consumed: usize,
    /// The bytes of the texts that the call handed to its writer.
    pub bytes_written: usize,
}

/// What a state makes of the events that it took: the units that are written, and what is pending.
#[derive(Drop)]
pub struct Work {
    document: Document,
    /// The events since the last unit that was written.
    pub(crate) pending: Pending,
    /// The end of the last range of an event other than a Start, in bytes.
    range_end: usize,
    /// Whether a unit waits, so that all later events join it.
    is_deferred: bool,
}

impl Work {
    ghost use Rattle.tocmark_event.specs.declared.event.flags.ParserOptions.{ParserOptions};

    /// What is made of no event, of a parser with these flags.
    pub fn new(alloc: Global, flags: ParserOptions) -> Work
        ensures { standing_of result ≡ nothing_yet flags }
    {
        Work {
            document: Document::new(alloc, flags),
            pending: Pending::new(alloc),
            range_end: 0,
            is_deferred: false,
        }
    }

    /// A copy of the work.
    pub fn copied(&self, alloc: Global) -> Result<Work, AllocError>
        ensures { IfOk result (λ copy. standing_of copy ≡ standing_of self.now) }
    {
        Ok(Work {
            pending: self.pending.copied(alloc)?,
            document: self.document.copied(alloc)?,
            range_end: self.range_end,
            is_deferred: self.is_deferred,
        })
    }

    /// Hands a unit's text to the writer, and gives it back for its room. Returns its length in bytes.
    fn hand_on<W: Taker>(&mut self, writer: &mut W, text: String) -> Result<usize, Error>
        ensures handed { Makes W.takes W.refuses writer.old writer.new result done
            (hand_walk (string_bytes text) done) }
        ensures count { IfOk result (λ n. n ≡ length (string_bytes text)) }
        ensures stays { standing_of self.new ≡ standing_of self.old }
    {
        let handed = hand(writer, text.as_str());
        self.document.give_back(text);
        handed
    }

    /// Whether what is pending is a unit of its own.
    fn is_due(&self) -> bool
        ensures { result ≡ is_due (standing_of self.now) }
    {
        !self.is_deferred && self.pending.is_whole() && !self.pending.is_empty()
    }

    /// Writes a whole unit before the event that follows it, unless the unit waits. Returns the length
    /// of its text in bytes.
    #[inline(always)]
    fn flush_before<R: Reader, W: Taker>(
        &mut self,
        tools: &Tools<'_, R>,
        next: &Event<'_>,
        writer: &mut W,
    ) -> Result<usize, Error>
        ensures made { Makes W.takes W.refuses writer.old writer.new result (standing_of self.new)
            (flushed_before (rendering_with R.reading tools.now) (event_view text_of next.now)
            (standing_of self.old)) }
        ensures count { IfOk result (λ n.
            n ≡ sum_by length
            (flushed_before (rendering_with R.reading tools.now) (event_view text_of next.now)
            (standing_of self.old)).texts) }
        ensures flags { flags_of self.new ≡ flags_of self.old }
    {
        if !self.is_due() {
            return Ok(0);
        }
        let waits = self.pending.needs_placeholder();
        if waits {
            self.is_deferred = true;
            return Ok(0);
        }
        let text = self.document.block(tools, &self.pending, Some(next))?;
        self.pending.clear();
        self.hand_on(writer, text)
    }

    /// Takes the events of an iterator, with their ranges.
    pub fn take_all<E: Incoming + Drop, I, R: Reader, W: Taker>(
        &mut self,
        tools: &Tools<'_, R>,
        pairs: I,
        source: &str,
        writer: &mut W,
    ) -> Result<Progress, Error>
    where
        I: Iterator<Item = (E, Option<(usize, usize)>)>,
        requires can { I.can_next pairs }
        requires ends { IsFinite (I.remaining pairs) }
        ensures made { (xs : List (E × Option Range)) × DrainsIf I.next_gives (IsOk result) pairs xs
            × Makes W.takes W.refuses writer.old writer.new result (standing_of self.new)
            (walk (rendering_with R.reading tools.now) source.now (standing_of self.old)
            (incoming_pairs E.event xs))
            × CountsIn result (length xs)
            (walk (rendering_with R.reading tools.now) source.now (standing_of self.old)
            (incoming_pairs E.event xs)) }
        ensures flags { flags_of self.new ≡ flags_of self.old }
    {
        let mut progress = Progress::default();
        for (event, range) in pairs {
            let (spelling, range_end) = resolve(source, self.range_end, event.lent(), range)?;
            self.range_end = range_end;
            let written = self.flush_before(tools, event.lent(), writer)?;
            self.pending.join(tools.alloc, event, spelling)?;
            progress = counted(progress, written);
        }
        Ok(progress)
    }

    /// The text of all that is pending as one unit, the last one; an empty text where nothing is pending.
    fn last_text<R: Reader>(&mut self, tools: &Tools<'_, R>) -> Result<String, Error>
        ensures made { Chooses result (kept_of self.new.document)
            (last_choice (rendering_with R.reading tools.now) (standing_of self.old).document
            (standing_of self.old).pending) }
        ensures flags { flags_of self.new ≡ flags_of self.old }
    {
        if self.pending.is_empty() {
            return Ok(String::new(tools.alloc));
        }
        let text = self.document.block(&*tools, &self.pending, None)?;
        self.pending = Pending::new(tools.alloc);
        Ok(text)
    }

    /// Takes the end of the events. Returns how many bytes it handed, at most the greatest `usize`.
    pub fn end<R: Reader, W: Taker>(
        &mut self,
        tools: &Tools<'_, R>,
        writer: &mut W,
    ) -> Result<usize, Error>
        ensures made { Makes W.takes W.refuses writer.old writer.new result done
            (ended (rendering_with R.reading tools.now) (standing_of self.old)) }
        ensures count { IfOk result (λ n.
            n ≡ at_most
            (sum_by length (ended (rendering_with R.reading tools.now) (standing_of self.old)).texts)) }
        ensures flags { flags_of self.new ≡ flags_of self.old }
    {
        if !self.pending.is_whole() {
            return Err(Error::UnexpectedEvent);
        }
        let holds_raw = holds_raw_block(self.pending.events());
        let text = self.last_text(tools)?;
        let definitions = self.document.finish(tools.alloc, tools.defined)?;
        hand_last(
            tools.alloc,
            holds_raw,
            definitions.as_str(),
            text.as_str(),
            writer,
        )
    }
}

/// One more event, for which this many bytes were handed.
fn counted(progress: Progress, written: usize) -> Progress
    ensures events { result.events_consumed ≡ at_most (progress.events_consumed + 1) }
    ensures bytes { result.bytes_written ≡ at_most (progress.bytes_written + written) }
{
    Progress {
        events_consumed: progress.events_consumed.saturating_add(1),
        bytes_written: progress.bytes_written.saturating_add(written),
    }
}
