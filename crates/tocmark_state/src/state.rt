//! A state that takes events.

ghost use Rattle.std.specs.Prelude.{◌+◌, Option, ◌≡◌, IfOk, OnOk, OnErr, List, ℕ, IsOk, Some, [], length, map};
ghost use Rattle.std.specs.Borrow.{Bor};
ghost use Rattle.std.specs.Iterator.{IsFinite, DrainsIf};
ghost use Rattle.tocmark_event.specs.Options.{options_view, owned_options_view};
ghost use Rattle.tocmark_event.specs.Reading.{reading_view};
ghost use Rattle.tocmark_event.specs.Text.{ParserEvent};
ghost use Rattle.tocmark_write_labels.specs.Defined.{defined_view};
ghost use Rattle.tocmark_write_renderer.specs.WriterOf.{reference_view};
ghost use Rattle.tocmark_state.specs.Ranges.{Range};
ghost use Rattle.tocmark_state.specs.Taken.{ranged_reading, unranged_reading};
ghost use Rattle.tocmark_state.specs.StateView.{Adds, Ends, rendering_of, walk_from};
ghost use Rattle.tocmark_state.specs.Writes.{Makes, Rejects};
ghost use Rattle.tocmark_state.specs.WorkView.{CountsIn, incoming_pairs, pairs, ranged_pairs, rendering, rendering_behind};

use crate::ranges::Unranged;
use crate::taken::{TakenEvents, TakenPairs, listed};
use crate::taker::Taker;
use crate::work::{Progress, Work};
use std::alloc::{AllocError, Global};
use std::fmt;
use tocmark_choose::tools::Tools;
use tocmark_event::event::{Event, ParserOptions};
use tocmark_event::options::{Error, Options, OptionsOf};
use tocmark_event::reader::{Reader, Reading};
pub use tocmark_write_labels::defined::DefinedLabel;
use tocmark_write_labels::defined::copied_labels;
use tocmark_write_labels::definitions::copied_references;
use tocmark_write_pending::incoming::Incoming;
use tocmark_write_renderer::parts::Reference;

/// Whether a state takes events.
#[derive(Clone, Copy, Debug, PartialEq, Eq)]
enum Status {
    Active,
    Finished,
    Failed,
}

/// Takes events, and hands the text of each unit to a writer.
///
/// A unit is held until the event after it has come, so what a call hands may stem from earlier ones.
///
/// ```
/// let paragraph = [
///     Event::Start(Tag::Paragraph),
///     Event::Text("one".into()),
///     Event::End(TagEnd::Paragraph),
/// ];
/// let mut output = String::new(alloc);
/// let mut state = State::new(alloc, CoreReader, ParserOptions::empty(), Options::default())?;
/// state.process(&paragraph[..1], &mut output)?;
/// state.process(&paragraph[1..], &mut output)?;
/// assert_eq!(rt; output.as_str(), "");
/// state.process(&paragraph, &mut output)?;
/// assert_eq!(rt; output.as_str(), "one");
/// state.finish(&mut output)?;
/// assert_eq!(rt; output.as_str(), "one\n\none");
/// ```
#[derive(Drop)]
pub struct State<R> {
    alloc: Global,
    reader: R,
    options: OptionsOf<String>,
    /// The definitions of links that the document has already.
    defined: Vec<Reference>,
    status: Status,
    work: Work,
}

impl<R: fmt::Debug> fmt::Debug for State<R> {
    fn fmt<W: fmt::Write>(&self, f: &mut fmt::Formatter<W>) -> fmt::Result {
        f.debug_struct("State")
            .field("reader", &self.reader)
            .field("status", &self.status)
            .finish_non_exhaustive()
    }
}

/// The options with a copy of their strong token.
fn owned_options(alloc: Global, options: Options<'_>) -> Result<OptionsOf<String>, AllocError>
    ensures { IfOk result (λ kept. owned_options_view kept ≡ options_view options.entry) }
{
    let strong_token = String::from_str(alloc, options.strong_token)?;
    Ok(options.with_token(strong_token))
}

/// The options with their strong token lent.
fn lent_options(options: &OptionsOf<String>) -> Options<'_>
    ensures { options_view result ≡ owned_options_view options.now }
{
    options.with_token(options.strong_token.as_str())
}

impl<R: Reader + Drop> State<R> {
    ghost use Rattle.std.specs.Prelude.{IfErr};
    ghost use Rattle.tocmark_event.specs.declared.event.flags.ParserOptions.{ParserOptions};
    ghost use Rattle.tocmark_event.specs.declared.options.Error.TheVariants.{Finished};
    ghost use Rattle.tocmark_state.specs.Ranges.{Pair};
    ghost use Rattle.tocmark_state.specs.StateView.{Stands, IsActive, IsFailed, IsFinished, place_of, state_flags, status_of};

    /// A state that took no event. The options aren't checked. It fails if memory runs out for a copy of
    /// the strong token; the reader is dropped then.
    pub fn new(
        alloc: Global,
        reader: R,
        parser_options: ParserOptions,
        options: Options<'_>,
    ) -> Result<State<R>, Error>
        ensures stands { IfOk result (λ state.
            (source : List ℕ) → Stands R.reading parser_options source state []) }
        ensures same { IfOk result (λ state.
            rendering_of R.reading state
            ≡ rendering (options_view options.entry) (R.reading reader)) }
        ensures flags { IfOk result (λ state. state_flags state ≡ parser_options) }
        ensures refused { IfErr result (λ e. e ≡ Error.OutOfMemory) }
    {
        let none = Vec::new(alloc);
        State::begun(alloc, reader, parser_options, options, none)
    }

    /// A state that took no event, of a part of a document that has these definitions of links already:
    /// `new`, but that they aren't written again. The options and the definitions aren't checked.
    ///
    /// A link by a label is written as a state of `new` writes it. It needs no definition at the end if
    /// one of these has a label that matches its own, and its destination and title; of two whose labels
    /// match the first counts. Labels match as in CommonMark: in Unicode's case folding, with one space for
    /// each run of spaces, tabs and line endings, and none at the ends. If the label is defined otherwise, a
    /// definition is written at the end all the same. The labels are known from the start, so a unit that
    /// is read back may not leave one open: the text `[a]` would, if `a` is defined.
    ///
    /// It fails if memory runs out for copies of the definitions or of the strong token; the reader is
    /// dropped then.
    ///
    /// ```
    /// let defined = [
    ///     DefinedLabel { label: "a", destination: "/u", title: "" },
    /// ];
    /// let link = |id, to| [
    ///     Event::Start(Tag::Paragraph),
    ///     Event::Start(Tag::Link { link_type: LinkType::Reference, dest_url: to, title: "".into(), id }),
    ///     Event::Text("t".into()),
    ///     Event::End(TagEnd::Link),
    ///     Event::End(TagEnd::Paragraph),
    /// ];
    /// let (flags, options) = (ParserOptions::empty(), Options::default());
    /// let mut output = String::new(alloc);
    /// let mut state = State::with_defined(alloc, CoreReader, flags, options, &defined)?;
    /// state.process(&link("A".into(), "/u".into()), &mut output)?;
    /// state.process(&link("b".into(), "/v".into()), &mut output)?;
    /// state.finish(&mut output)?;
    /// assert_eq!(rt; output.as_str(), "[t][A]\n\n[t][b]\n\n[b]: /v");
    /// ```
    pub fn with_defined(
        alloc: Global,
        reader: R,
        parser_options: ParserOptions,
        options: Options<'_>,
        defined: &[DefinedLabel<'_>],
    ) -> Result<State<R>, Error>
        ensures stands { IfOk result (λ state.
            (source : List ℕ) → Stands R.reading parser_options source state []) }
        ensures same { IfOk result (λ state.
            rendering_of R.reading state
            ≡ rendering_behind (map defined_view defined.now) (options_view options.entry)
            (R.reading reader)) }
        ensures flags { IfOk result (λ state. state_flags state ≡ parser_options) }
        ensures refused { IfErr result (λ e. e ≡ Error.OutOfMemory) }
    {
        let copies = copied_labels(alloc, defined)?;
        State::begun(alloc, reader, parser_options, options, copies)
    }

    /// A state that took no event, after these definitions. An `Err` is as in `new`.
    fn begun(
        alloc: Global,
        reader: R,
        parser_options: ParserOptions,
        options: Options<'_>,
        defined: Vec<Reference>,
    ) -> Result<State<R>, Error>
        ensures stands { IfOk result (λ state.
            (source : List ℕ) → Stands R.reading parser_options source state []) }
        ensures same { IfOk result (λ state.
            rendering_of R.reading state
            ≡ rendering_behind (map reference_view defined.items) (options_view options.entry)
            (R.reading reader)) }
        ensures flags { IfOk result (λ state. state_flags state ≡ parser_options) }
        ensures refused { IfErr result (λ e. e ≡ Error.OutOfMemory) }
    {
        let options = owned_options(alloc, options)?;
        Ok(State {
            alloc,
            reader,
            options,
            defined,
            status: Status::Active,
            work: Work::new(alloc, parser_options),
        })
    }

    /// The error, after which every call answers `Failed`.
    fn failed(&mut self, error: Error) -> Error
        ensures state { self.new ≡ record self.old { status = Status.Failed } }
        ensures error { result ≡ error }
    {
        self.status = Status::Failed;
        error
    }

    /// Takes events with their ranges, in any form that they come in. An `Err` is as in
    /// `process_with_source_range`.
    fn process_pairs<E: Incoming + Drop, I, W: Taker>(
        &mut self,
        pairs: I,
        source: &str,
        writer: &mut W,
    ) -> Result<Progress, Error>
    where
        I: Iterator<Item = (E, Option<(usize, usize)>)>,
        requires can { I.can_next pairs }
        requires ends { IsFinite (I.remaining pairs) }
        ensures active { IsActive self.old → (xs : List (E × Option Range))
            × DrainsIf I.next_gives (IsOk result) pairs xs
            × Makes W.takes W.refuses writer.old writer.new result (place_of self.new)
            (walk_from R.reading self.old source.now (incoming_pairs E.event xs))
            × CountsIn result (length xs)
            (walk_from R.reading self.old source.now (incoming_pairs E.event xs)) }
        ensures same { rendering_of R.reading self.new ≡ rendering_of R.reading self.old }
        ensures flags { state_flags self.new ≡ state_flags self.old }
        ensures stands { OnOk result (status_of self.new ≡ status_of self.old) }
        ensures refused { OnErr result (IsFailed self.new) }
        ensures finished { IsFinished self.old → Rejects writer.old writer.new result Finished }
        ensures failed { IsFailed self.old → Rejects writer.old writer.new result Error.Failed }
    {
        match self.status {
            Status::Active => {
                let tools = Tools {
                    alloc: self.alloc,
                    reader: &self.reader,
                    options: lent_options(&self.options),
                    defined: &self.defined,
                };
                match self.work.take_all(&tools, pairs, source, writer) {
                    Ok(progress) => Ok(progress),
                    Err(error) => Err(self.failed(error)),
                }
            }
            Status::Finished => Err(self.failed(Error::Finished)),
            Status::Failed => Err(Error::Failed),
        }
    }

    /// Takes events, and hands the text of each unit to the writer, once the event after the unit has
    /// come. The events needn't outlive the call; the writer is to be the same in all calls.
    ///
    /// A unit is a container at top level with all that is in it, or a leaf at top level. Each nonempty
    /// text is handed by one `write_str`. The answer counts the events of this call and the bytes that
    /// it handed.
    ///
    /// An `Err` is one of these, and every later call answers `Failed`:
    /// - `FormatFailed`: the writer refused a text in this call.
    /// - `UnexpectedEvent`: an End that isn't the innermost open container's, found after the unit
    ///   before it is written, or a unit with events that aren't allowed where they are.
    /// - `Unrepresentable`: no spelling of a unit reads back.
    /// - `OutOfMemory`: memory ran out.
    /// - `Finished`, after `finish`, even for no events, and `Failed`, after another error: nothing is
    ///   handed, and no memory is taken.
    pub fn process<'a, I, W>(&mut self, events: I, writer: &mut W) -> Result<Progress, Error>
    where
        I: IntoIterator<Item = &'a Event<'a>>,
        W: Taker,
        requires { (it : I.IntoIter) → I.into_iter_gives events it
            → I.IntoIter.can_next it × IsFinite (I.IntoIter.remaining it) }
        ensures active { IsActive self.old → (it : I.IntoIter) × (xs : List (Bor ParserEvent))
            × I.into_iter_gives events it × DrainsIf I.IntoIter.next_gives (IsOk result) it xs
            × ((flags : ParserOptions) (source : List ℕ) (p : List Pair)
            → Stands R.reading flags source self.old p
            → Adds W.takes W.refuses writer.old writer.new (rendering_of R.reading self.old)
            flags source result (place_of self.new) p (pairs xs)) }
        ensures same { rendering_of R.reading self.new ≡ rendering_of R.reading self.old }
        ensures flags { state_flags self.new ≡ state_flags self.old }
        ensures stands { OnOk result (status_of self.new ≡ status_of self.old) }
        ensures refused { OnErr result (IsFailed self.new) }
        ensures finished { IsFinished self.old
            → (result ≡ Err Error.Finished) × (writer.new ≡ writer.old) }
        ensures failed { IsFailed self.old
            → (result ≡ Err Error.Failed) × (writer.new ≡ writer.old) }
    {
        let pairs = Unranged {
            events: events.into_iter(),
        };
        self.process_pairs(pairs, "", writer)
    }

    /// Takes events with their byte ranges in a source, as `process` does. If a text of a unit has a
    /// range, such texts keep the source's spelling, provided that the reader finds the unit in the result
    /// and that the options have markers that Markdown reads. A backslash just before a range belongs to
    /// the spelling unless an earlier range has it. All calls on a state must name the same source, which
    /// needn't outlive a call.
    ///
    /// An `Err` is as in `process`, or `InvalidSourceRange`, before anything else is looked at: a range
    /// is reversed, ends past the source or isn't on character boundaries.
    ///
    /// ```
    /// let source = "a &gt; b";
    /// let pairs = [
    ///     (&Event::Start(Tag::Paragraph), Some((0, 8))),
    ///     (&Event::Text("a ".into()), Some((0, 2))),
    ///     (&Event::Text(">".into()), Some((2, 6))),
    ///     (&Event::Text(" b".into()), Some((6, 8))),
    ///     (&Event::End(TagEnd::Paragraph), Some((0, 8))),
    /// ];
    /// let mut output = String::new(alloc);
    /// let mut state = State::new(alloc, CoreReader, ParserOptions::empty(), Options::default())?;
    /// state.process_with_source_range(pairs, source, &mut output)?;
    /// state.finish(&mut output)?;
    /// assert_eq!(rt; output.as_str(), source);
    /// ```
    pub fn process_with_source_range<'a, I, W>(
        &mut self,
        pairs: I,
        source: &str,
        writer: &mut W,
    ) -> Result<Progress, Error>
    where
        I: IntoIterator<Item = (&'a Event<'a>, Option<(usize, usize)>)>,
        W: Taker,
        requires { (it : I.IntoIter) → I.into_iter_gives pairs it
            → I.IntoIter.can_next it × IsFinite (I.IntoIter.remaining it) }
        ensures active { IsActive self.old
            → (it : I.IntoIter) × (xs : List (Bor ParserEvent × Option Range))
            × I.into_iter_gives pairs it × DrainsIf I.IntoIter.next_gives (IsOk result) it xs
            × ((flags : ParserOptions) (p : List Pair)
            → Stands R.reading flags source.now self.old p
            → Adds W.takes W.refuses writer.old writer.new (rendering_of R.reading self.old)
            flags source.now result (place_of self.new) p (ranged_pairs xs)) }
        ensures same { rendering_of R.reading self.new ≡ rendering_of R.reading self.old }
        ensures flags { state_flags self.new ≡ state_flags self.old }
        ensures stands { OnOk result (status_of self.new ≡ status_of self.old) }
        ensures refused { OnErr result (IsFailed self.new) }
        ensures finished { IsFinished self.old
            → (result ≡ Err Error.Finished) × (writer.new ≡ writer.old) }
        ensures failed { IsFailed self.old
            → (result ≡ Err Error.Failed) × (writer.new ≡ writer.old) }
    {
        self.process_pairs(pairs.into_iter(), source, writer)
    }

    /// Takes the events of a reading that is given away, as `process` takes events that are lent: their
    /// texts are moved into what is pending, where `process` copies them.
    ///
    /// An `Err` is as in `process`; the reading is let go of all the same.
    ///
    /// ```
    /// let reading = CoreReader.read(alloc, "_a_", ParserOptions::empty())?;
    /// let mut output = String::new(alloc);
    /// let mut state = State::new(alloc, CoreReader, ParserOptions::empty(), Options::default())?;
    /// state.process_reading(reading, &mut output)?;
    /// state.finish(&mut output)?;
    /// assert_eq!(rt; output.as_str(), "*a*");
    /// ```
    pub fn process_reading<W: Taker>(
        &mut self,
        reading: Reading,
        writer: &mut W,
    ) -> Result<Progress, Error>
        ensures active { (flags : ParserOptions) (source : List ℕ) (p : List Pair)
            → Stands R.reading flags source self.old p
            → Adds W.takes W.refuses writer.old writer.new (rendering_of R.reading self.old)
            flags source result (place_of self.new) p (unranged_reading (reading_view reading)) }
        ensures same { rendering_of R.reading self.new ≡ rendering_of R.reading self.old }
        ensures flags { state_flags self.new ≡ state_flags self.old }
        ensures stands { OnOk result (status_of self.new ≡ status_of self.old) }
        ensures refused { OnErr result (IsFailed self.new) }
        ensures finished { IsFinished self.old
            → (result ≡ Err Error.Finished) × (writer.new ≡ writer.old) }
        ensures failed { IsFailed self.old
            → (result ≡ Err Error.Failed) × (writer.new ≡ writer.old) }
    {
        let mut events = listed(reading);
        let events = TakenEvents(events.iter_mut());
        self.process_pairs(Unranged { events }, "", writer)
    }

    /// Takes the events of a reading that is given away with their byte ranges in a source, as
    /// `process_with_source_range` takes those that are lent.
    ///
    /// An `Err` is as there; the reading is let go of all the same.
    ///
    /// ```
    /// let source = "_a &gt; b_";
    /// let reading = CoreReader.read(alloc, source, ParserOptions::empty())?;
    /// let mut output = String::new(alloc);
    /// let mut state = State::new(alloc, CoreReader, ParserOptions::empty(), Options::default())?;
    /// state.process_reading_with_source_range(reading, source, &mut output)?;
    /// state.finish(&mut output)?;
    /// assert_eq!(rt; output.as_str(), "*a &gt; b*");
    /// ```
    pub fn process_reading_with_source_range<W: Taker>(
        &mut self,
        reading: Reading,
        source: &str,
        writer: &mut W,
    ) -> Result<Progress, Error>
        ensures active { (flags : ParserOptions) (p : List Pair)
            → Stands R.reading flags source.now self.old p
            → Adds W.takes W.refuses writer.old writer.new (rendering_of R.reading self.old)
            flags source.now result (place_of self.new) p (ranged_reading (reading_view reading)) }
        ensures same { rendering_of R.reading self.new ≡ rendering_of R.reading self.old }
        ensures flags { state_flags self.new ≡ state_flags self.old }
        ensures stands { OnOk result (status_of self.new ≡ status_of self.old) }
        ensures refused { OnErr result (IsFailed self.new) }
        ensures finished { IsFinished self.old
            → (result ≡ Err Error.Finished) × (writer.new ≡ writer.old) }
        ensures failed { IsFailed self.old
            → (result ≡ Err Error.Failed) × (writer.new ≡ writer.old) }
    {
        let mut events = listed(reading);
        self.process_pairs(TakenPairs(events.iter_mut()), source, writer)
    }

    /// Takes the end of the events: hands the text of what is pending, and then the definitions that
    /// are left. The counts are 0 events and the bytes that it handed.
    ///
    /// On a finished state it answers zeros and hands nothing; it takes no memory then. An `Err` is
    /// `UnexpectedEvent` where a container is open, `Failed` after another error (no memory is taken
    /// for it), and else as in `process`; every later call answers `Failed`.
    pub fn finish<W: Taker>(&mut self, writer: &mut W) -> Result<Progress, Error>
        ensures active { (flags : ParserOptions) (source : List ℕ) (p : List Pair)
            → Stands R.reading flags source self.old p
            → Ends W.takes W.refuses writer.old writer.new (rendering_of R.reading self.old)
            flags source result p }
        ensures same { rendering_of R.reading self.new ≡ rendering_of R.reading self.old }
        ensures flags { state_flags self.new ≡ state_flags self.old }
        ensures ok { OnOk result (IsFinished self.new) }
        ensures refused { OnErr result (IsFailed self.new) }
        ensures finished { IsFinished self.old
            → (result ≡ Ok (record { events_consumed = 0; bytes_written = 0 }))
            × (writer.new ≡ writer.old) }
        ensures failed { IsFailed self.old
            → (result ≡ Err Error.Failed) × (writer.new ≡ writer.old) }
    {
        match self.status {
            Status::Active => {
                let tools = Tools {
                    alloc: self.alloc,
                    reader: &self.reader,
                    options: lent_options(&self.options),
                    defined: &self.defined,
                };
                match self.work.end(&tools, writer) {
                    Ok(bytes_written) => {
                        self.status = Status::Finished;
                        Ok(Progress {
                            events_consumed: 0,
                            bytes_written,
                        })
                    }
                    Err(refusal) => Err(self.failed(refusal)),
                }
            }
            Status::Finished => Ok(Progress::default()),
            Status::Failed => Err(Error::Failed),
        }
    }

    /// How many events wait for their unit's end: all since the last unit that was written. None is left
    /// once the list has ended.
    ///
    /// A caller that counts its events, and asks before each call with one event, knows where a unit that
    /// the call refuses begins.
    ///
    /// ```
    /// let mut output = String::new(alloc);
    /// let mut state = State::new(alloc, CoreReader, ParserOptions::empty(), Options::default())?;
    /// let events = [Event::Rule, Event::Start(Tag::Paragraph), Event::Text("a".into())];
    /// state.process(&events, &mut output)?;
    /// assert_eq!(rt; output.as_str(), "---");
    /// assert_eq!(rt; state.pending_events(), 2);
    /// ```
    pub fn pending_events(&self) -> usize
        ensures { result ≡ length (place_of self.now).pending }
    {
        self.work.pending.events().len()
    }
}

impl<R: Clone> State<R> {
    ghost use Rattle.tocmark_state.specs.StateView.{SameStanding, reader_of};

    /// A state that is where this one is, with the same options and flags and a clone of the reader.
    /// This state stays as it is.
    pub fn clone(&self) -> Result<State<R>, AllocError>
        ensures same { IfOk result (λ copy. SameStanding self.now copy) }
        ensures reader { IfOk result (λ copy. R.is_clone (reader_of self.now) (reader_of copy)) }
    {
        let reader = self.reader.clone()?;
        let options = owned_options(self.alloc, lent_options(&self.options))?;
        let defined = copied_references(self.alloc, &self.defined)?;
        let work = self.work.copied(self.alloc)?;
        Ok(State {
            alloc: self.alloc,
            reader,
            options,
            defined,
            status: self.status,
            work,
        })
    }
}
