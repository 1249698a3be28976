//! Turns Markdown events back into Markdown text that reads back as those events.
//!
//! Start at `cmark`, which writes a whole list. `State` takes a list in parts. Both have a form for
//! events with ranges in a source, which keeps the source's spelling of texts.
//!
//! A unit is a tree at the top of the list, such as a paragraph. Each unit is written whole or
//! refused: as `UnexpectedEvent` if an event is where it may not, and as `Unrepresentable` if
//! no spelling of the unit reads back.
//!
//! `token_count` computes the length of a fence. The crate re-exports what its users need of the
//! crates below: `event`, `reader`, `core_reader` and `State`.
//!
//! ```
//! let events = [
//!     Event::Start(Tag::Paragraph),
//!     Event::Text("# a & b".into()),
//!     Event::End(TagEnd::Paragraph),
//! ];
//! let mut output = String::new(alloc);
//! cmark(alloc, events.iter(), &mut output, CoreReader, ParserOptions::empty())?;
//! assert_eq!(rt; output.as_str(), "\\# a &amp; b");
//! ```
#![tactic(auto)]

pub mod token_count;

ghost use Rattle.std.specs.Prelude.{◌≡◌, IfOk};
ghost use Rattle.std.specs.Iterator.{IsFinite};
ghost use Rattle.tocmark_event.specs.Options.{default_options, options_view};
ghost use Rattle.tocmark_laws.specs.Documents.{MakesDocument};
ghost use Rattle.tocmark_laws.specs.SingleBlocks.{MakesCodeSpan, MakesFencedCode, MakesLink};
ghost use Rattle.tocmark_laws.specs.TextBlocks.{MakesBlocks};
ghost use Rattle.tocmark_state.specs.StateView.{IsFinished, rendering_of, state_flags};
ghost use Rattle.tocmark_state.specs.WorkView.{pairs, rendering};
ghost use Rattle.tocmark.specs.Writing.{MakesLines, TakesEvents, WritesEvents, WritesRanged};

pub use crate::token_count::calculate_code_block_token_count;
use std::alloc::Global;
use tocmark_event::event::{Event, ParserOptions};
pub use tocmark_event::options::{
    DEFAULT_CODE_BLOCK_TOKEN_COUNT, Error, Options, OptionsError, SUPPORTED_PARSER_OPTIONS,
};
use tocmark_event::reader::Reader;
pub use tocmark_event::{event, reader};
pub use tocmark_reader as core_reader;
pub use tocmark_state::state::{DefinedLabel, State};
pub use tocmark_state::string_writer::StringWriter;
pub use tocmark_state::taker::Taker;
pub use tocmark_state::work::Progress;

/// Writes events with the default options: `cmark_with_options` with `Options::default()`.
///
/// Some lists have a known text:
///
/// - Paragraphs and headings that hold only texts: each is one text, with two line feeds unless it
///   is the first, a heading's `#` and a space, and the escape of its texts (the clause `blocks`).
/// - A paragraph of plain lines: one text that `CoreReader` reads as exactly that paragraph
///   (`lines`). A plain line has only characters from U+0020 to U+007E, at least one, and no space
///   at its end.
/// - A document of such paragraphs, headings of one such line, thematic breaks and fenced code of
///   ASCII lines: texts that `CoreReader` reads, joined, as exactly that document (`documents`).
/// - A paragraph that holds only a code span: one text, the span that reads as its text (`code`).
/// - A paragraph that holds only an inline link round one text: one text, the link (`link`).
/// - A fenced code block: one text, with a fence that ends no sooner than its texts (`fence`).
pub fn cmark<'a, I, W, R>(
    alloc: Global,
    events: I,
    writer: &mut W,
    reader: R,
    parser_options: ParserOptions,
) -> Result<State<R>, Error>
where
    I: IntoIterator<Item = &'a Event<'a>>,
    W: Taker,
    R: Reader + Drop,
    requires { (it : I.IntoIter) → I.into_iter_gives events it
        → I.IntoIter.can_next it × IsFinite (I.IntoIter.remaining it) }
    ensures made { WritesEvents I.into_iter_gives I.IntoIter.next_gives events
        W.takes W.refuses writer.old writer.new result
        (rendering default_options (R.reading reader)) parser_options }
    ensures lines { TakesEvents I.into_iter_gives I.IntoIter.next_gives events result (λ xs.
        MakesLines W.takes W.refuses writer.old writer.new result (pairs xs)) }
    ensures blocks { TakesEvents I.into_iter_gives I.IntoIter.next_gives events result (λ xs.
        MakesBlocks W.takes W.refuses writer.old writer.new result parser_options (pairs xs)) }
    ensures documents { TakesEvents I.into_iter_gives I.IntoIter.next_gives events result (λ xs.
        MakesDocument W.takes W.refuses writer.old writer.new result (pairs xs)) }
    ensures code { TakesEvents I.into_iter_gives I.IntoIter.next_gives events result (λ xs.
        MakesCodeSpan W.takes W.refuses writer.old writer.new result (pairs xs)) }
    ensures link { TakesEvents I.into_iter_gives I.IntoIter.next_gives events result (λ xs.
        MakesLink W.takes W.refuses writer.old writer.new result parser_options (pairs xs)) }
    ensures fence { TakesEvents I.into_iter_gives I.IntoIter.next_gives events result (λ xs.
        MakesFencedCode W.takes W.refuses writer.old writer.new result (pairs xs)) }
    ensures same { IfOk result (λ state.
        rendering_of R.reading state ≡ rendering default_options (R.reading reader)) }
    ensures flags { IfOk result (λ state. state_flags state ≡ parser_options) }
    ensures finished { IfOk result (λ state. IsFinished state) }
{
    let defaults = Options::default();
    cmark_with_options(alloc, events, writer, reader, parser_options, defaults)
}

/// Writes events: one call of `State::process` and one of `State::finish` on a new state, which is
/// returned.
///
/// `events` is any finite iterable of `&Event`. `parser_options` are the flags under which the
/// events were read and the text is to read back, and `reader` reads it. `writer` gets each unit's
/// text by one `write_str`: the texts that the definition lists for the events, up to the first
/// error (the clause `made`). An `Err` is the first refusal of those calls, and `writer` keeps what
/// it got before. The returned state is finished (`finished`), and has the given options and reader
/// (`same`) and flags (`flags`).
pub fn cmark_with_options<'a, I, W, R>(
    alloc: Global,
    events: I,
    writer: &mut W,
    reader: R,
    parser_options: ParserOptions,
    options: Options<'_>,
) -> Result<State<R>, Error>
where
    I: IntoIterator<Item = &'a Event<'a>>,
    W: Taker,
    R: Reader + Drop,
    requires { (it : I.IntoIter) → I.into_iter_gives events it
        → I.IntoIter.can_next it × IsFinite (I.IntoIter.remaining it) }
    ensures made { WritesEvents I.into_iter_gives I.IntoIter.next_gives events
        W.takes W.refuses writer.old writer.new result
        (rendering (options_view options.entry) (R.reading reader)) parser_options }
    ensures same { IfOk result (λ state.
        rendering_of R.reading state
        ≡ rendering (options_view options.entry) (R.reading reader)) }
    ensures flags { IfOk result (λ state. state_flags state ≡ parser_options) }
    ensures finished { IfOk result (λ state. IsFinished state) }
{
    let events = events.into_iter();
    let mut state = State::new(alloc, reader, parser_options, options)?;
    state.process(events, writer)?;
    state.finish(writer)?;
    Ok(state)
}

/// Writes events with their ranges in a source, with the default options:
/// `cmark_with_source_range_and_options` with `Options::default()`.
pub fn cmark_with_source_range<'a, I, W, R>(
    alloc: Global,
    pairs: I,
    source: &str,
    writer: &mut W,
    reader: R,
    parser_options: ParserOptions,
) -> Result<State<R>, Error>
where
    I: IntoIterator<Item = (&'a Event<'a>, Option<(usize, usize)>)>,
    W: Taker,
    R: Reader + Drop,
    requires { (it : I.IntoIter) → I.into_iter_gives pairs it
        → I.IntoIter.can_next it × IsFinite (I.IntoIter.remaining it) }
    ensures made { WritesRanged I.into_iter_gives I.IntoIter.next_gives pairs source.now
        W.takes W.refuses writer.old writer.new result
        (rendering default_options (R.reading reader)) parser_options }
    ensures same { IfOk result (λ state.
        rendering_of R.reading state ≡ rendering default_options (R.reading reader)) }
    ensures flags { IfOk result (λ state. state_flags state ≡ parser_options) }
    ensures finished { IfOk result (λ state. IsFinished state) }
{
    let options = Options::default();
    cmark_with_source_range_and_options(
        alloc,
        pairs,
        source,
        writer,
        reader,
        parser_options,
        options,
    )
}

/// Writes events with their ranges in a source: one call of `State::process_with_source_range` and
/// one of `State::finish` on a new state, which is returned.
///
/// `pairs` is any finite iterable of an `&Event` and its byte range, if it has one. All else is as
/// in `cmark_with_options`.
pub fn cmark_with_source_range_and_options<'a, I, W, R>(
    alloc: Global,
    pairs: I,
    source: &str,
    writer: &mut W,
    reader: R,
    parser_options: ParserOptions,
    options: Options<'_>,
) -> Result<State<R>, Error>
where
    I: IntoIterator<Item = (&'a Event<'a>, Option<(usize, usize)>)>,
    W: Taker,
    R: Reader + Drop,
    requires { (it : I.IntoIter) → I.into_iter_gives pairs it
        → I.IntoIter.can_next it × IsFinite (I.IntoIter.remaining it) }
    ensures made { WritesRanged I.into_iter_gives I.IntoIter.next_gives pairs source.now
        W.takes W.refuses writer.old writer.new result
        (rendering (options_view options.entry) (R.reading reader)) parser_options }
    ensures same { IfOk result (λ state.
        rendering_of R.reading state
        ≡ rendering (options_view options.entry) (R.reading reader)) }
    ensures flags { IfOk result (λ state. state_flags state ≡ parser_options) }
    ensures finished { IfOk result (λ state. IsFinished state) }
{
    let pairs = pairs.into_iter();
    let mut ranged = State::new(alloc, reader, parser_options, options)?;
    ranged.process_with_source_range(pairs, source, writer)?;
    ranged.finish(writer)?;
    Ok(ranged)
}
