//! Formats a document: all of it is printed in one pass and read back; what is read otherwise is printed nearer to the source.

ghost use Rattle.std.specs.Prelude.{◌≡◌, ◌≢◌, ◌++◌, [], IfOk, IfSome, IsTrue, None, map, string_bytes, true};
ghost use Rattle.tocmark_compare.specs.Given.{found_events};
ghost use Rattle.tocmark_event.specs.declared.event.flags.ParserOptions.{ParserOptions};
ghost use Rattle.tocmark_format.specs.Formatted.{SaysAsBefore, Tells, TellsOfPlain};
ghost use Rattle.tocmark_format.specs.Named.{AreInOrder};
ghost use Rattle.tocmark_format.specs.Plain.{usual_ends};
ghost use Rattle.tocmark_judge.specs.Alike.{AreAlike};
ghost use Rattle.tocmark_judge.specs.Letters.{letters};
ghost use Rattle.tocmark_judge.specs.LinkDefinitions.{link_defined};
ghost use Rattle.tocmark_judge.specs.Marks.{after_mark, has_mark, mark};
ghost use Rattle.tocmark_judge.specs.Summaries.{Sums, SumsFirst};

use crate::answer::{Formatted, Left};
use crate::falling::{ReadBack, blocks_apart, fall_all};
use crate::named::{blocks_left, one_line};
use crate::range::{Ends, Lines, Patch, StyledLines, keep_others};
use crate::trees::Places;
use std::alloc::{AllocError, Global};
use tocmark_event::event::ParserOptions;
use tocmark_event::reader::Reading;
use tocmark_judge::judge::is_same_text;
use tocmark_judge::mark::{with_mark, without_mark};
use tocmark_judge::summary::Summary;
use tocmark_judge::{Found, Judge, PartReader, PartTaker};
use tocmark_printing::{Blocks, EventTaker, Events, Ladder, Page, Print};

/// How often a document is printed and read back. If it never reads as its source, it stays as it is.
const ROUNDS: usize = 4;

/// Formats documents: what reads and compares them, and how they are to look.
#[derive(Clone, Copy)]
struct Formatter<'f, R, P> {
    judge: Judge<'f, R>,
    asked: StyledLines<P>,
}

/// The source as its printer gets it: the events that a reader finds. What else is found is what the source says.
#[derive(Clone, Copy)]
struct SourceEvents<'e, R> {
    reader: &'e R,
    flags: ParserOptions,
    /// Whether white space is folded in what the source says.
    folds: bool,
    text: &'e str,
}

/// Hands events on, and keeps what they say.
#[derive(Drop)]
struct Copying<'c, T> {
    taker: &'c mut T,
    /// What they say.
    said: Summary,
}

impl<T: EventTaker> PartTaker for Copying<'_, T> {
    ghost has_taken = { λ copying events. SumsFirst copying.said events };

    fn take(&mut self, alloc: Global, part: &Reading) -> Result<(), AllocError> {
        self.taker.take_events(&part.events)?;
        self.said.take(alloc, part)
    }
}

impl<R: PartReader> Events for SourceEvents<'_, R> {
    type Found = Found;

    ghost finds = { λ events found. Sums found.says (found_events
        (R.reading events.reader.now events.text.now events.flags))
        × (map link_defined found.definitions.items
        ≡ R.definitions events.reader.now events.text.now events.flags) };

    fn hand_to<T: EventTaker>(&self, alloc: Global, taker: &mut T) -> Result<Found, AllocError> {
        let mut copying = Copying {
            taker,
            said: Summary::new(alloc, self.folds),
        };
        let definitions = self
            .reader
            .read_parts(alloc, self.text, self.flags, &mut copying)?;
        let Copying { said, .. } = copying;
        Ok(Found {
            says: said,
            definitions,
        })
    }
}

/// A printed document, and what the reader finds in its source.
#[derive(Drop)]
struct Printed {
    page: Page,
    source: Found,
}

/// A printed document that reads as its source.
#[derive(Drop)]
struct Answer {
    text: String,
    blocks: Blocks,
    left: Vec<Left>,
}

/// What the lines of a text end with: what its first line feed ends with; without one, a carriage return if it has one.
fn line_ending(text: &str) -> &'static str {
    match text.find('\n') {
        None if text.contains('\r') => "\r",
        Some(at) if text.get(..at).unwrap_or("").ends_with('\r') => "\r\n",
        _ => "\n",
    }
}

/// A text whose lines end with line feeds in place of carriage returns, with line feeds after them or without.
fn with_line_feeds(alloc: Global, text: &str) -> Result<String, AllocError> {
    let pairless = text.replace(alloc, "\r\n", "\n")?;
    pairless.as_str().replace(alloc, "\r", "\n")
}

/// A document that stays as it is, from a line on.
fn unchanged(alloc: Global, text: &str, line: usize) -> Result<Formatted, AllocError>
    ensures text { IfOk result (λ answer. string_bytes answer.text ≡ text.now) }
    ensures ordered { IfOk result (λ answer. AreInOrder 0 answer.left.items) }
    ensures told { IfOk result (λ answer. answer.left.items ≢ []) }
{
    let left = one_line(alloc, line)?;
    let text = String::from_str(alloc, text)?;
    Ok(Formatted { text, left })
}

impl<R: PartReader, P: Print + Copy> Formatter<'_, R, P> {
    /// Prints a document.
    fn print(&self, text: &str, ladder: &Ladder) -> Result<Printed, AllocError>
        ensures said { IfOk result (λ printed. Sums printed.source.says (found_events
            (R.reading self.now.judge.reader.now text.now self.now.judge.flags))) }
        ensures definitions { IfOk result (λ printed.
            map link_defined printed.source.definitions.items
            ≡ R.definitions self.now.judge.reader.now text.now self.now.judge.flags) }
        ensures prints { IfOk result (λ printed.
            P.prints self.now.asked.style text.now ladder.now (string_bytes printed.page.text)) }
    {
        let events = SourceEvents {
            reader: self.judge.reader,
            flags: self.judge.flags,
            folds: self.judge.folds,
            text,
        };
        let (page, source) = self
            .asked
            .style
            .print(self.judge.alloc, text, ladder, &events)?;
        Ok(Printed { page, source })
    }

    /// Reads a printed document.
    fn read_back(&self, text: &str) -> Result<(Found, Places), AllocError>
        ensures says { IfOk result (λ back. Sums back.0.says
            (found_events (R.reading self.now.judge.reader.now text.now self.now.judge.flags))) }
        ensures definitions { IfOk result (λ back. map link_defined back.0.definitions.items
            ≡ R.definitions self.now.judge.reader.now text.now self.now.judge.flags) }
    {
        let mut back = ReadBack::new(self.judge.alloc, self.judge.folds);
        let definitions = self
            .judge
            .reader
            .read_parts(self.judge.alloc, text, self.judge.flags, &mut back)?;
        let ReadBack { says, starts, .. } = back;
        Ok((Found { says, definitions }, starts))
    }

    /// Whether a printed document in which the reader finds this reads as its source.
    fn reads_as_source(
        &self,
        source: &str,
        printed: &Printed,
        found: &Found,
    ) -> Result<bool, AllocError>
        ensures { IfOk result (λ same. IsTrue same
            → Sums found.now.says (found_events (R.reading self.now.judge.reader.now
            (string_bytes printed.now.page.text) self.now.judge.flags))
            → map link_defined found.now.definitions.items
            ≡ R.definitions self.now.judge.reader.now
            (string_bytes printed.now.page.text) self.now.judge.flags
            → Sums printed.now.source.says (found_events
            (R.reading self.now.judge.reader.now source.now self.now.judge.flags))
            → map link_defined printed.now.source.definitions.items
            ≡ R.definitions self.now.judge.reader.now source.now self.now.judge.flags
            → AreAlike self.now.judge.folds self.now.judge.flags self.now.judge.also.now
            (R.reading self.now.judge.reader.now) (R.definitions self.now.judge.reader.now)
            (string_bytes printed.now.page.text) source.now) }
    {
        let new = printed.page.text.as_str();
        self.judge
            .finds_the_same(new, found, source, &printed.source)
    }

    /// Moves each tree that parses differently one step towards the source. False if no step is left.
    fn fall(
        &self,
        source: &str,
        ladder: &mut Ladder,
        printed: &Printed,
        back: (&Found, &Places),
    ) -> Result<bool, AllocError> {
        let new = printed.page.text.as_str();
        let apart = blocks_apart(&self.judge, source, new, &printed.page.blocks)?;
        let (found, starts) = back;
        let said = (&printed.source.says, &found.says);
        fall_all(
            ladder,
            self.judge.alloc,
            (&printed.page.blocks, starts),
            said,
            &apart,
        )
    }

    /// The answer with a printed document.
    fn answered(
        &self,
        source: &str,
        ladder: &Ladder,
        printed: Printed,
    ) -> Result<Option<Answer>, AllocError>
        ensures text { IfOk result (λ answer. IfSome answer (λ answer.
            string_bytes answer.text ≡ string_bytes printed.page.text)) }
        ensures ordered { IfOk result (λ answer. IfSome answer (λ answer.
            AreInOrder 0 answer.left.items)) }
        ensures told { IfOk result (λ answer. IfSome answer (λ answer.
            P.prints self.now.asked.style source.now ladder.now (string_bytes printed.page.text)
            → Tells (P.prints self.now.asked.style) self.now.asked.lines answer.left.items
            source.now (string_bytes answer.text))) }
    {
        let asked = self.asked.lines;
        let Printed { page, source: said } = printed;
        drop(said);
        let left = blocks_left(self.judge.alloc, source, ladder, &page.blocks, asked)?;
        let Page { text, blocks } = page;
        Ok(Some(Answer { text, blocks, left }))
    }

    /// Where the rounds begin: all trees in the style, or if only some lines are asked for, the others by their lines.
    fn first_ladder(&self, source: &str) -> Result<Ladder, AllocError> {
        let mut ladder = Ladder::new(self.judge.alloc, source)?;
        if let Some(lines) = self.asked.lines {
            let printed = self.print(source, &ladder)?;
            keep_others(&mut ladder, source, &printed.page.blocks, lines)?;
        }
        Ok(ladder)
    }

    /// The document that reads as its source, if some round leads there. One that is printed as it was isn't read back.
    fn rounds(&self, source: &str) -> Result<Option<Answer>, AllocError>
        ensures alike { IfOk result (λ answer. IfSome answer (λ answer. AreAlike
            self.now.judge.folds self.now.judge.flags self.now.judge.also.now
            (R.reading self.now.judge.reader.now) (R.definitions self.now.judge.reader.now)
            (string_bytes answer.text) source.now)) }
        ensures ordered { IfOk result (λ answer. IfSome answer (λ answer.
            AreInOrder 0 answer.left.items)) }
        ensures told { IfOk result (λ answer. IfSome answer (λ answer.
            Tells (P.prints self.now.asked.style) self.now.asked.lines answer.left.items
            source.now (string_bytes answer.text))) }
    {
        let mut ladder = self.first_ladder(source)?;
        for _ in 0..ROUNDS {
            let printed = self.print(source, &ladder)?;
            if is_same_text(printed.page.text.as_str(), source) {
                return self.answered(source, &ladder, printed);
            }
            let (found, starts) = self.read_back(printed.page.text.as_str())?;
            if self.reads_as_source(source, &printed, &found)? {
                return self.answered(source, &ladder, printed);
            }
            if !self.fall(source, &mut ladder, &printed, (&found, &starts))? {
                return Ok(None);
            }
        }
        Ok(None)
    }

    /// Formats a text whose lines end with line feeds.
    fn format_lines(&self, text: &str) -> Result<Formatted, AllocError>
        ensures alike { IfOk result (λ answer. AreAlike
            self.now.judge.folds self.now.judge.flags self.now.judge.also.now
            (R.reading self.now.judge.reader.now) (R.definitions self.now.judge.reader.now)
            (string_bytes answer.text) text.now) }
        ensures ordered { IfOk result (λ answer. AreInOrder 0 answer.left.items) }
        ensures told { IfOk result (λ answer. Tells (P.prints self.now.asked.style)
            self.now.asked.lines answer.left.items text.now (string_bytes answer.text)) }
    {
        match self.rounds(text)? {
            Some(Answer { text, left, .. }) => Ok(Formatted { text, left }),
            None => unchanged(self.judge.alloc, text, 1),
        }
    }

    /// A formatted text without the end of its last line. `None`: that isn't asked for, or it reads otherwise than the source.
    fn without_last_end(
        &self,
        whole: &str,
        ending: &str,
        text: &str,
    ) -> Result<Option<String>, AllocError>
        ensures { IfOk result (λ cut. IfSome cut (λ cut. AreAlike
            self.now.judge.folds self.now.judge.flags self.now.judge.also.now
            (R.reading self.now.judge.reader.now) (R.definitions self.now.judge.reader.now)
            (string_bytes cut) text.now)) }
    {
        let cut = match whole.strip_suffix(ending) {
            Some(cut) if self.asked.ends.omits_last => cut,
            _ => return Ok(None),
        };
        if self.judge.are_alike(cut, text)? {
            let cut = String::from_str(self.judge.alloc, cut)?;
            Ok(Some(cut))
        } else {
            Ok(None)
        }
    }

    /// Formats a text with carriage returns, or one whose lines have to end otherwise than with line feeds. In the answer all
    /// lines end alike.
    fn format_with_returns(&self, text: &str) -> Result<Formatted, AllocError>
        ensures alike { IfOk result (λ answer. AreAlike
            self.now.judge.folds self.now.judge.flags self.now.judge.also.now
            (R.reading self.now.judge.reader.now) (R.definitions self.now.judge.reader.now)
            (string_bytes answer.text) text.now) }
        ensures ordered { IfOk result (λ answer. AreInOrder 0 answer.left.items) }
    {
        let bare = with_line_feeds(self.judge.alloc, text)?;
        let Formatted { text: lines, left } = self.format_lines(bare.as_str())?;
        let ending = self.asked.ends.of(line_ending(text));
        let whole = lines.as_str().replace(self.judge.alloc, "\n", ending)?;
        if let Some(cut) = self.without_last_end(whole.as_str(), ending, text)? {
            return Ok(Formatted { text: cut, left });
        }
        if self.judge.are_alike(whole.as_str(), text)? {
            Ok(Formatted { text: whole, left })
        } else {
            unchanged(self.judge.alloc, text, 1)
        }
    }

    /// A text with some of its lines formatted, if these read as before.
    fn patched(&self, text: &str, lines: Lines) -> Result<Option<(String, Vec<Left>)>, AllocError>
        ensures { IfOk result (λ patched. IfSome patched (λ patched.
            AreInOrder 0 patched.1.items)) }
    {
        let bare = with_line_feeds(self.judge.alloc, text)?;
        let source = bare.as_str();
        let Some(answer) = self.rounds(source)? else {
            return Ok(None);
        };
        let Answer {
            text: printed,
            blocks,
            left,
        } = answer;
        let whole = match Patch::of(source, &blocks, printed.as_str(), lines) {
            Some(patch) => patch.put_in(self.judge.alloc, text, line_ending(text))?,
            None => String::from_str(self.judge.alloc, text)?,
        };
        Ok(Some((whole, left)))
    }

    /// Formats some lines of a text. All bytes of the blocks that they don't touch stay, and so do the blank lines beside these.
    fn format_some(&self, text: &str, lines: Lines) -> Result<Formatted, AllocError>
        ensures alike { IfOk result (λ answer. AreAlike
            self.now.judge.folds self.now.judge.flags self.now.judge.also.now
            (R.reading self.now.judge.reader.now) (R.definitions self.now.judge.reader.now)
            (string_bytes answer.text) text.now) }
        ensures ordered { IfOk result (λ answer. AreInOrder 0 answer.left.items) }
    {
        let Some((new, left)) = self.patched(text, lines)? else {
            return unchanged(self.judge.alloc, text, lines.first);
        };
        if self.judge.are_alike(new.as_str(), text)? {
            Ok(Formatted { text: new, left })
        } else {
            unchanged(self.judge.alloc, text, lines.first)
        }
    }

    /// Formats a text without a byte order mark at its front; one that is there belongs to the text.
    fn format_text(&self, text: &str) -> Result<Formatted, AllocError>
        ensures alike { IfOk result (λ answer. AreAlike
            self.now.judge.folds self.now.judge.flags self.now.judge.also.now
            (R.reading self.now.judge.reader.now) (R.definitions self.now.judge.reader.now)
            (string_bytes answer.text) text.now) }
        ensures ordered { IfOk result (λ answer. AreInOrder 0 answer.left.items) }
        ensures told { IfOk result (λ answer. TellsOfPlain (P.prints self.now.asked.style)
            self.now.asked.lines self.now.asked.ends answer.left.items
            text.now (string_bytes answer.text)) }
    {
        if let Some(lines) = self.asked.lines {
            self.format_some(text, lines)
        } else if self.asked.ends.are_plain(text) {
            self.format_lines(text)
        } else {
            self.format_with_returns(text)
        }
    }

    /// Formats the text after a byte order mark, and puts the mark before the answer.
    fn format_after_mark(&self, text: &str) -> Result<Formatted, AllocError>
        ensures mark { IfOk result (λ answer. has_mark (string_bytes answer.text) ≡ true) }
        ensures letters { IfOk result (λ answer.
            letters (string_bytes answer.text) ≡ letters (mark ++ text.now)) }
        ensures alike { IfOk result (λ answer. AreAlike
            self.now.judge.folds self.now.judge.flags self.now.judge.also.now
            (R.reading self.now.judge.reader.now) (R.definitions self.now.judge.reader.now)
            (after_mark (string_bytes answer.text)) text.now) }
        ensures ordered { IfOk result (λ answer. AreInOrder 0 answer.left.items) }
        ensures told { IfOk result (λ answer. TellsOfPlain (P.prints self.now.asked.style)
            self.now.asked.lines self.now.asked.ends answer.left.items
            text.now (after_mark (string_bytes answer.text))) }
    {
        let Formatted { text: rest, left } = self.format_text(text)?;
        let text = with_mark(self.judge.alloc, rest.as_str())?;
        Ok(Formatted { text, left })
    }

    /// Formats a document, with a byte order mark or without.
    fn format_document(&self, text: &str) -> Result<Formatted, AllocError>
        ensures mark { IfOk result (λ answer.
            has_mark (string_bytes answer.text) ≡ has_mark text.now) }
        ensures letters { IfOk result (λ answer.
            letters (string_bytes answer.text) ≡ letters text.now) }
        ensures alike { IfOk result (λ answer. AreAlike
            self.now.judge.folds self.now.judge.flags self.now.judge.also.now
            (R.reading self.now.judge.reader.now) (R.definitions self.now.judge.reader.now)
            (after_mark (string_bytes answer.text)) (after_mark text.now)) }
        ensures ordered { IfOk result (λ answer. AreInOrder 0 answer.left.items) }
        ensures told { IfOk result (λ answer. TellsOfPlain (P.prints self.now.asked.style)
            self.now.asked.lines self.now.asked.ends answer.left.items
            (after_mark text.now) (after_mark (string_bytes answer.text))) }
    {
        match without_mark(text) {
            Some(rest) => self.format_after_mark(rest),
            None => self.format_text(text),
        }
    }
}

/// Formats a document: one blank line between blocks, and one line feed at its end. HTML and metadata are copied, texts stay as
/// they are spelled, and all lines end alike: as the first line feed does, or with a carriage return if there is none. If a
/// block would read otherwise, it is printed in its own spelling; if that doesn't help, it keeps its lines, and the answer
/// names these and the reason.
///
/// This holds for every printer (`says`), and `Style` of `tocmark_print` is one. Under these flags the reader finds the same
/// events in the new text as in the old one, if each longest stretch of texts counts as one (`same` of `SaysAsBefore`). If the
/// printer fills lines, soft breaks count as blanks, and so does each run of white space in a text. The text also defines the
/// same links, in the same order, used or not (`definitions`). Under each of the flags in `also` it has the same blocks as
/// before (`also`): what they say is compared under `flags` alone.
///
/// A byte order mark at the front is no text: it stays there, and these promises are about what comes after it. The new text
/// begins with a mark only if the old one does (`mark`).
///
/// The letters of both texts are the same, in the same order, whatever the reader finds: ASCII letters and all characters past
/// ASCII (`letters`).
///
/// The answer names blocks in their order, and none twice (`ordered`). If it names none, the text is what the printer printed
/// with no tree that keeps its lines (`told`). That clause is for texts without carriage returns.
///
/// It fails if memory runs out, or if the printer fails.
///
/// ```
/// let answer = formatted(alloc, "a\n=\n- b\n", &CoreReader, ParserOptions::empty(), Style::new(), &[])?;
/// assert_eq!(rt; answer.text.as_str(), "# a\n\n- b\n");
/// ```
pub fn formatted<R: PartReader, P: Print + Copy>(
    alloc: Global,
    text: &str,
    reader: &R,
    flags: ParserOptions,
    style: P,
    also: &[ParserOptions],
) -> Result<Formatted, AllocError>
    ensures says { IfOk result (λ answer. SaysAsBefore (P.fills style) flags also.now
        (R.reading reader.now) (R.definitions reader.now) text.now (string_bytes answer.text)) }
    ensures ordered { IfOk result (λ answer. AreInOrder 0 answer.left.items) }
    ensures told { IfOk result (λ answer. TellsOfPlain (P.prints style) None usual_ends
        answer.left.items (after_mark text.now) (after_mark (string_bytes answer.text))) }
{
    let asked = StyledLines {
        style,
        lines: None,
        ends: Ends::new(),
    };
    formatted_lines(alloc, text, reader, flags, asked, also)
}

/// Formats the blocks that some lines of a document touch, or all blocks. `formatted` says what holds of the new text. All
/// bytes of the other blocks stay, and so do the blank lines between them and the blocks that are formatted.
///
/// It fails as `formatted` does.
pub fn formatted_lines<R: PartReader, P: Print + Copy>(
    alloc: Global,
    text: &str,
    reader: &R,
    flags: ParserOptions,
    asked: StyledLines<P>,
    also: &[ParserOptions],
) -> Result<Formatted, AllocError>
    ensures says { IfOk result (λ answer. SaysAsBefore (P.fills asked.style) flags also.now
        (R.reading reader.now) (R.definitions reader.now) text.now (string_bytes answer.text)) }
    ensures ordered { IfOk result (λ answer. AreInOrder 0 answer.left.items) }
    ensures told { IfOk result (λ answer. TellsOfPlain (P.prints asked.style) asked.lines asked.ends
        answer.left.items (after_mark text.now) (after_mark (string_bytes answer.text))) }
{
    let judge = Judge {
        alloc,
        reader,
        flags,
        folds: asked.style.fills(),
        also,
    };
    Formatter { judge, asked }.format_document(text)
}
