//! Writes the events of JSON by lines as Markdown, one after the other. No list of them is kept.

ghost use Rattle.std.specs.Prelude.{◌≡◌, [], ◌∷◌, ◌++◌, IfErr, IfOk, List, OnOk, string_bytes};
ghost use Rattle.tocmark_event.specs.Options.{OptionsView, options_view};
ghost use Rattle.tocmark_event.specs.Text.{text_of};
ghost use Rattle.tocmark_event.specs.View.{event_view};
ghost use Rattle.tocmark_event.specs.declared.event.flags.ParserOptions.{ParserOptions};
ghost use Rattle.tocmark_documents.specs.Interchange.{kept};
ghost use Rattle.tocmark_documents.specs.LineWriting.{HasTaken, HasTakenLines, IsStop};
ghost use Rattle.tocmark_documents.specs.Lines.{IsLinesCause, IsWrittenFromLines};
ghost use Rattle.tocmark_state.specs.Ranges.{Pair};

use crate::fault::WriteError;
use crate::line_events::{are_pairs, pair_in_line, pairs_in_lines};
use crate::pairs::Placed;
use crate::writing::{lent, written_pairs};
use std::alloc::Global;
use std::iter;
use tocmark::event::{Event, ParserOptions};
use tocmark::{Error, Options, State};
use tocmark_reader::{Names, UnitReader};

/// Why events aren't written one after the other.
#[derive(Debug, Drop)]
pub enum Stop {
    /// A line is that of no event, or memory ran out.
    Wrong(WriteError),
    /// The writer refuses the events.
    Refused,
}

impl From<WriteError> for Stop {
    ghost use Rattle.std.specs.Prelude.{◌≡◌};
    ghost use Rattle.tocmark_documents.specs.declared.line_writing.Stop.TheVariants.{Wrong};

    ghost from_gives = { λ e s. s ≡ Wrong e };

    fn from(error: WriteError) -> Stop {
        Stop::Wrong(error)
    }
}

/// The writer refuses a text only for want of memory, so `FormatFailed` is `OutOfMemory`.
impl From<Error> for Stop {
    ghost use Rattle.std.specs.Prelude.{ℕ, List};
    ghost use Rattle.tocmark_documents.specs.LineWriting.{IsStop};

    ghost from_gives = { λ _ s. (input : List ℕ) → IsStop input s };

    fn from(error: Error) -> Stop {
        match error {
            Error::OutOfMemory => Stop::Wrong(WriteError::OutOfMemory),
            Error::FormatFailed(_) => Stop::Wrong(WriteError::OutOfMemory),
            _ => Stop::Refused,
        }
    }
}

/// Hands an event to the state.
fn take<'a>(
    state: &mut State<UnitReader>,
    event: &'a Event<'a>,
    range: Option<(usize, usize)>,
    source: &str,
    output: &mut String,
) -> Result<(), Error>
    ensures { (options : OptionsView) (flags : ParserOptions) (taken : List Pair)
        → HasTaken options flags source.now taken state.old (string_bytes output.old)
        → OnOk result (HasTaken options flags source.now
        (taken ++ (event_view text_of event.now, range) ∷ []) state.new
        (string_bytes output.new)) }
{
    let one = iter::once((event, range));
    state.process_with_source_range(one, source, output)?;
    Ok(())
}

/// An event, lent.
fn lent_event<'a>(event: &'a Event<'static>) -> &'a Event<'a>
    ensures { result.now ≡ event.now }
{
    event
}

/// Hands an event to the state, with its range if there is a source.
fn take_placed(
    state: &mut State<UnitReader>,
    pair: &Placed<'static>,
    source: &str,
    has_source: bool,
    output: &mut String,
) -> Result<(), Error>
    ensures { (options : OptionsView) (flags : ParserOptions) (taken : List Pair)
        → HasTaken options flags source.now taken state.old (string_bytes output.old)
        → OnOk result (HasTaken options flags source.now
        (taken ++ (event_view text_of pair.now.0, kept has_source pair.now.1) ∷ []) state.new
        (string_bytes output.new)) }
{
    let event = lent_event(&pair.0);
    if has_source {
        take(state, event, pair.1, source, output)
    } else {
        take(state, event, None, source, output)
    }
}

/// Hands the event of each line to the state.
fn take_lines(
    alloc: Global,
    state: &mut State<UnitReader>,
    text: &str,
    source: &str,
    has_source: bool,
    output: &mut String,
) -> Result<(), Stop>
    ensures taken { (options : OptionsView) (flags : ParserOptions)
        → HasTaken options flags source.now [] state.old (string_bytes output.old)
        → OnOk result (HasTakenLines options flags has_source source.now text.now state.new
        (string_bytes output.new)) }
    ensures stop { IfErr result (IsStop text.now) }
{
    let has_ranges = are_pairs(alloc, text)?;
    for (number, line) in text.lines().enumerate() {
        let pair = pair_in_line(alloc, line, has_ranges, number)?;
        let taken = take_placed(state, &pair, source, has_source, output);
        drop(pair);
        taken?;
    }
    Ok(())
}

/// Hands the event of each line to the state, and ends the events.
fn write_all(
    alloc: Global,
    state: &mut State<UnitReader>,
    text: &str,
    source: &str,
    has_source: bool,
    output: &mut String,
) -> Result<(), Stop>
    ensures written { (options : OptionsView) (flags : ParserOptions)
        → HasTaken options flags source.now [] state.old (string_bytes output.old)
        → OnOk result (IsWrittenFromLines options flags has_source source.now text.now
        (string_bytes output.new)) }
    ensures stop { IfErr result (IsStop text.now) }
{
    take_lines(alloc, state, text, source, has_source, output)?;
    state.finish(output)?;
    Ok(())
}

/// Writes the events of the lines one after the other.
fn written_by_lines(
    alloc: Global,
    text: &str,
    source: &str,
    has_source: bool,
    flags: ParserOptions,
    options: Options<'static>,
) -> Result<String, Stop>
    ensures written { IfOk result (λ output. IsWrittenFromLines (options_view options.entry) flags
        has_source source.now text.now (string_bytes output)) }
    ensures stop { IfErr result (IsStop text.now) }
{
    let reader = UnitReader { names: Names::All };
    let mut output = String::new(alloc);
    let mut state = State::new(alloc, reader, flags, options)?;
    let written = write_all(alloc, &mut state, text, source, has_source, &mut output);
    drop(state);
    match written {
        Ok(()) => Ok(output),
        Err(stop) => Err(stop),
    }
}

/// Writes the events of the lines at once: a refusal names the event.
fn written_at_once(
    alloc: Global,
    text: &str,
    source: &str,
    has_source: bool,
    flags: ParserOptions,
    options: Options<'static>,
) -> Result<String, WriteError>
    ensures written { IfOk result (λ output. IsWrittenFromLines (options_view options.entry) flags
        has_source source.now text.now (string_bytes output)) }
    ensures cause { IfErr result (IsLinesCause (options_view options.entry) flags has_source
        source.now text.now) }
{
    let pairs = pairs_in_lines(alloc, text)?;
    written_pairs(alloc, lent(&pairs), source, has_source, flags, options)
}

/// Writes the events of JSON by lines as Markdown, as `write_over` writes those of an array. Each line is an event, or a
/// pair of an event and its range or `null`. The first line decides which. No line may be blank.
///
/// Never are all events in memory. If the writer refuses them, they are read once more, for the number of the event.
///
/// It fails if a line isn't JSON (`NotJson`, with the number of the line), or not what the first line decides
/// (`NotEvents`, with the number of lines before it), if the writer refuses the events (`Refused`, as `write_json`), or if
/// memory runs out.
///
/// ```
/// let lines = "\"Rule\"\n\"Rule\"\n";
/// let flags = ParserOptions::empty();
/// let markdown = write_lines(alloc, lines, "", false, flags, Options::default())?;
/// assert_eq!(rt; markdown.as_str(), "---\n\n---");
/// ```
pub fn write_lines(
    alloc: Global,
    text: &str,
    source: &str,
    has_source: bool,
    flags: ParserOptions,
    options: Options<'static>,
) -> Result<String, WriteError>
    ensures written { IfOk result (λ output. IsWrittenFromLines (options_view options.entry) flags
        has_source source.now text.now (string_bytes output)) }
    ensures cause { IfErr result (IsLinesCause (options_view options.entry) flags has_source
        source.now text.now) }
{
    match written_by_lines(alloc, text, source, has_source, flags, options) {
        Ok(output) => Ok(output),
        Err(Stop::Wrong(error)) => Err(error),
        Err(Stop::Refused) => { written_at_once(alloc, text, source, has_source, flags, options) }
    }
}
