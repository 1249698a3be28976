//! A linter with a fix: reads Markdown, moves each heading that skips a level up to the one that follows, and writes the
//! mended document; what isn't changed stays byte for byte.
//!
//! A heading follows the last one before it that has fewer `#`, and gets one `#` more than that one gets; if there is
//! none it stays. Each heading that is moved is reported on standard error, with the line and column, from 1, at which
//! it is in the input.
//!
//! Proved of `mend_text`, for every reader: the reader finds in the answer what it finds in the input with each heading
//! at that level, and nothing else (`same`); `parts` and `kept` are as in `rewritten_slice`.

ghost use Rattle.std.specs.Prelude.{◌≡◌, ◌∷◌, [], map, IfOk, OnOk, string_bytes};
ghost use Rattle.std.specs.List.{All};
ghost use Rattle.tocmark_event.specs.Merged.{merged};
ghost use Rattle.tocmark_event.specs.Text.{text_of};
ghost use Rattle.tocmark_event.specs.View.{event_view};
ghost use Rattle.tocmark_compare.specs.Given.{found_events, given_events};
ghost use Rattle.tocmark_rewrite.specs.Edited.{read_source};
ghost use Rattle.tocmark_rewrite.specs.Edits.{shifted};
ghost use Rattle.tocmark_rewrite.specs.Kept.{IsTold};
ghost use Rattle.tocmark_rewrite.specs.Parts.{IsMadeOf};
ghost use Rattle.tocmark_rewrite.specs.declared.edits.Shift.TheVariants.{Down};
ghost use Rattle.examples.specs.Levels.{Before, level_behind, levels_behind, mended, mended_event, with_heading};

use std::alloc::{AllocError, Global};
use std::fmt;
use std::io::{self, Read};
use tocmark::Options;
use tocmark::event::{Event, HeadingLevel, ParserOptions, Tag, TagEnd};
use tocmark::reader::{Reader, Reading};
use tocmark_reader::ExtendedReader;
use tocmark_rewrite::edits::{Shift, number_of, shifted};
use tocmark_rewrite::{DefinitionReader, Fault, Rewritten, rewritten_slice};

/// For each level of a heading the one that it gets here.
#[derive(Drop)]
struct Levels {
    all: [HeadingLevel; 6],
}

impl Levels {
    /// Those at the beginning: each its own.
    fn new() -> Self
        ensures { result.all ≡ levels_behind [] }
    {
        use HeadingLevel::{H1, H2, H3, H4, H5, H6};
        Levels {
            all: [H1, H2, H3, H4, H5, H6],
        }
    }

    fn get(&self, level: HeadingLevel) -> HeadingLevel
        ensures { (before : Before) → self.now.all ≡ levels_behind before
            → result ≡ level_behind before level }
    {
        match level {
            HeadingLevel::H1 => self.all[0],
            HeadingLevel::H2 => self.all[1],
            HeadingLevel::H3 => self.all[2],
            HeadingLevel::H4 => self.all[3],
            HeadingLevel::H5 => self.all[4],
            HeadingLevel::H6 => self.all[5],
        }
    }

    /// Has a heading are before what follows: those with more `#` get the level below the one that it gets.
    fn note(&mut self, level: HeadingLevel)
        ensures { (before : Before) → self.old.all ≡ levels_behind before
            → self.new.all ≡ levels_behind ((level, level_behind before level) ∷ before) }
    {
        let next = shifted(self.get(level), Shift::Down(1));
        self.all = with_next(self.all, level, next);
    }
}

/// The levels with the next one for those with more `#` than a level.
fn with_next(all: [HeadingLevel; 6], level: HeadingLevel, next: HeadingLevel) -> [HeadingLevel; 6]
    ensures { (before : Before) → all ≡ levels_behind before
        → next ≡ shifted (Down 1) (level_behind before level)
        → result ≡ levels_behind ((level, level_behind before level) ∷ before) }
{
    let [first, second, third, fourth, fifth, _sixth] = all;
    match level {
        HeadingLevel::H1 => [first, next, next, next, next, next],
        HeadingLevel::H2 => [first, second, next, next, next, next],
        HeadingLevel::H3 => [first, second, third, next, next, next],
        HeadingLevel::H4 => [first, second, third, fourth, next, next],
        HeadingLevel::H5 => [first, second, third, fourth, fifth, next],
        HeadingLevel::H6 => all,
    }
}

/// A heading that is moved: where it begins in the input, its level, and the one that it gets.
#[derive(Clone, Copy)]
struct Moved {
    at: usize,
    from: HeadingLevel,
    to: HeadingLevel,
}

/// Adds a heading to those that are moved, if it is.
fn add(all: &mut Vec<Moved>, heading: Moved) -> Result<(), AllocError> {
    if heading.from != heading.to {
        all.push(heading)?;
    }
    Ok(())
}

/// Has a heading get its level, as the level of its beginning. Returns both levels.
fn begin(levels: &mut Levels, level: &mut HeadingLevel) -> (HeadingLevel, HeadingLevel)
    ensures level { (before : Before) → levels.old.all ≡ levels_behind before
        → level.new ≡ level_behind before level.old }
    ensures levels { (before : Before) → levels.old.all ≡ levels_behind before
        → levels.new.all ≡ levels_behind ((level.old, level_behind before level.old) ∷ before) }
{
    let from = *level;
    *level = levels.get(from);
    levels.note(from);
    (from, *level)
}

/// Moves an event to the level that its heading gets, and adds a heading that begins and is moved. After an `Err` the
/// event is moved and not added.
fn mend(
    levels: &mut Levels,
    moved: &mut Vec<Moved>,
    event: &mut Event<'static>,
    at: usize,
) -> Result<(), AllocError>
    ensures event { (before : Before) → levels.old.all ≡ levels_behind before
        → event_view text_of event.new ≡ mended_event before (event_view text_of event.old) }
    ensures levels { (before : Before) → levels.old.all ≡ levels_behind before
        → levels.new.all ≡ levels_behind (with_heading before (event_view text_of event.old)) }
{
    match event {
        Event::Start(Tag::Heading { level, .. }) => {
            let (from, to) = begin(levels, level);
            add(moved, Moved { at, from, to })
        }
        Event::End(TagEnd::Heading(level)) => {
            *level = levels.get(*level);
            Ok(())
        }
        _ => Ok(()),
    }
}

/// Moves each heading that skips a level, and adds it to those that are moved.
fn mend_all(
    events: &mut [(Event<'static>, (usize, usize))],
    moved: &mut Vec<Moved>,
) -> Result<(), AllocError>
    ensures { OnOk result (map (λ e. event_view text_of e.0) events.new
        ≡ mended [] (map (λ e. event_view text_of e.0) events.old)) }
{
    let mut levels = Levels::new();
    for (event, range) in events.iter_mut() {
        mend(&mut levels, moved, event, range.0)?;
    }
    Ok(())
}

/// The answer with the headings that are moved in it.
#[derive(Drop)]
struct Linted {
    answer: Rewritten,
    moved: Vec<Moved>,
}

/// What the reader finds, with each heading that skips a level moved; and those that are.
fn read_mended<R: Reader>(
    alloc: Global,
    text: &str,
    reader: &R,
    flags: ParserOptions,
) -> Result<(Reading, Vec<Moved>), AllocError>
    ensures { IfOk result (λ found. given_events found.0.events.items
        ≡ mended [] (found_events (R.reading reader.now text.now flags))) }
{
    let mut reading = reader.read(alloc, text, flags)?;
    let mut moved = Vec::new(alloc);
    mend_all(&mut reading.events, &mut moved)?;
    Ok((reading, moved))
}

/// The text with each heading that skips a level moved to the one that follows.
fn mend_text<R: DefinitionReader>(
    alloc: Global,
    text: &str,
    reader: &R,
    flags: ParserOptions,
) -> Result<Linted, Fault>
    ensures same { IfOk result (λ found.
        merged (found_events (R.reading reader.now (string_bytes found.answer.text) flags))
        ≡ merged (mended [] (found_events (R.reading reader.now text.now flags)))) }
    ensures parts { IfOk result (λ found.
        IsMadeOf text.now (string_bytes found.answer.text) found.answer.parts.items) }
    ensures kept { IfOk result (λ found.
        All (IsTold (read_source (λ text. R.reading reader.now text flags) text.now)
        (mended [] (found_events (R.reading reader.now text.now flags))) found.answer.parts.items)
        found.answer.trees.items) }
{
    let (reading, moved) = read_mended(alloc, text, reader, flags)?;
    let options = Options::default();
    let answer = rewritten_slice(alloc, text, &reading.events, reader, flags, options)?;
    Ok(Linted { answer, moved })
}

/// The extensions of GitHub's Markdown that the reader reads, and front matter.
fn flags() -> ParserOptions {
    ParserOptions::ENABLE_TABLES
        | ParserOptions::ENABLE_FOOTNOTES
        | ParserOptions::ENABLE_STRIKETHROUGH
        | ParserOptions::ENABLE_TASKLISTS
        | ParserOptions::ENABLE_YAML_STYLE_METADATA_BLOCKS
}

/// A place in a text.
#[derive(Drop)]
struct Place {
    byte: usize,
    /// From 1; a line ends with a line feed.
    line: usize,
    /// From 1; each character is a column.
    column: usize,
}

impl Place {
    /// The place of a text's first character.
    fn start() -> Self {
        Place {
            byte: 0,
            line: 1,
            column: 1,
        }
    }

    fn pass(&mut self, text: &str) {
        for c in text.chars() {
            if c == '\n' {
                self.line = self.line.saturating_add(1);
                self.column = 1;
            } else {
                self.column = self.column.saturating_add(1);
            }
        }
    }

    /// Goes on to a later byte, at which a character begins.
    fn go_to(&mut self, text: &str, byte: usize) {
        if let Some(passed) = text.get(self.byte..byte) {
            self.pass(passed);
            self.byte = byte;
        }
    }
}

impl fmt::Display for Place {
    fn fmt<W: fmt::Write>(&self, f: &mut fmt::Formatter<W>) -> fmt::Result {
        write!(f, "{}:{}", self.line, self.column)
    }
}

/// Writes a line on standard error for each heading that is moved.
fn report(rt: &HostRuntime, text: &str, moved: &[Moved]) -> io::Result<()> {
    let mut place = Place::start();
    for heading in moved {
        place.go_to(text, heading.at);
        let (from, to) = (number_of(heading.from), number_of(heading.to));
        eprintln!(rt; "{place}: a heading skips a level: {from} is now {to}")?;
    }
    Ok(())
}

/// Reads, mends, writes and reports. Returns whether a heading was moved.
pub(crate) fn run<R: Read>(rt: &HostRuntime, input: &mut R) -> anyhow::Result<bool> {
    let text = io::read_to_string(rt.alloc(), input)?;
    let linted = mend_text(rt.alloc(), text.as_str(), &ExtendedReader::new(), flags())?;
    let output = linted.answer.text.as_str();
    print!(rt; "{output}")?;
    report(rt, text.as_str(), &linted.moved)?;
    Ok(!linted.moved.is_empty())
}
