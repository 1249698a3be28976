//! Some lines of a document: which blocks they touch, and what comes in the place of these.

ghost use Rattle.std.specs.Prelude.{◌≡◌, ◌==◌};
ghost use Rattle.std.specs.List.{list_any};
ghost use Rattle.tocmark_format.specs.Plain.{has_plain_ends, is_line_feed, usual_ends};

use std::alloc::{AllocError, Global};
use tocmark_printing::{Block, Blocks, Ladder, Step};

/// Lines of a text, counted from 1.
#[derive(Clone, Copy)]
pub struct Lines {
    pub first: usize,
    pub last: usize,
}

/// How a document is to look, which of its lines are formatted, and how they end. A style is what prints.
#[derive(Clone, Copy)]
pub struct StyledLines<P> {
    pub style: P,
    /// Each block that one of these lines touches is formatted. `None`: all are.
    pub lines: Option<Lines>,
    /// How the lines end if all are formatted.
    pub ends: Ends,
}

/// What a line ends with.
#[derive(Clone, Copy, PartialEq, Eq)]
pub enum Ending {
    LineFeed,
    CarriageReturn,
    /// A carriage return and a line feed.
    Both,
}

/// How the lines of a document end.
#[derive(Clone, Copy)]
pub struct Ends {
    /// What each line ends with. `None`: what the first line feed of the source ends with, or a carriage return without one.
    pub each: Option<Ending>,
    /// Whether the last line has no end, if the document reads the same without it.
    pub omits_last: bool,
}

/// Whether lines end with line feeds, if those of the source do.
fn is_line_feed(each: Option<Ending>) -> bool
    ensures { result ≡ is_line_feed each }
{
    match each {
        None | Some(Ending::LineFeed) => true,
        Some(Ending::CarriageReturn | Ending::Both) => false,
    }
}

fn has_return(text: &str) -> bool
    ensures { result ≡ list_any (λ b. b == 13) text.now }
{
    text.as_bytes().contains(&b'\r')
}

impl Ends {
    /// Lines that end as in the source, also the last one.
    pub fn new() -> Ends
        ensures { result ≡ usual_ends }
    {
        Ends {
            each: None,
            omits_last: false,
        }
    }

    /// Whether the lines of a text end with line feeds alone before and after it is formatted.
    pub(crate) fn are_plain(self, text: &str) -> bool
        ensures { result ≡ has_plain_ends self text.now }
    {
        is_line_feed(self.each) && !self.omits_last && !has_return(text)
    }

    /// What each line of a text ends with after it is formatted; `own` is what it ends with before.
    pub(crate) fn of(self, own: &'static str) -> &'static str {
        match self.each {
            Some(Ending::LineFeed) => "\n",
            Some(Ending::CarriageReturn) => "\r",
            Some(Ending::Both) => "\r\n",
            None => own,
        }
    }
}

/// What a blank line has.
const WHITE: [char; 4] = [' ', '\t', '\r', '\n'];

/// Where a block begins: its line in the source, counted from 1, and its place in the printed text.
#[derive(Clone, Copy)]
struct Edge {
    line: usize,
    place: usize,
}

/// What comes in the place of some lines.
#[derive(Clone, Copy)]
pub(crate) struct Patch<'p> {
    /// The first line that goes.
    first: usize,
    /// The next block below. It and the blank lines above it stay.
    next: Option<usize>,
    /// What comes there. Its lines end with line feeds.
    text: &'p str,
}

/// A place in a text that only moves on, and its line, counted from 1. Lines end with line feeds.
#[derive(Clone, Copy)]
pub(crate) struct LineCount<'t> {
    text: &'t str,
    place: usize,
    line: usize,
}

impl<'t> LineCount<'t> {
    /// The front of a text.
    pub(crate) fn new(text: &'t str) -> LineCount<'t> {
        LineCount {
            text,
            place: 0,
            line: 1,
        }
    }

    /// Moves on to a place; its line.
    fn move_to(&mut self, place: usize) -> usize {
        let bytes = self.text.as_bytes();
        let end = place.min(bytes.len());
        let between = bytes.get(self.place..end).unwrap_or(&[]);
        let feeds = between.iter().filter(|byte| **byte == b'\n').count();
        self.line = self.line.saturating_add(feeds);
        self.place = self.place.max(end);
        self.line
    }

    /// The lines on which a block is, without blank ones: definitions have those beside them. Blocks come in order.
    pub(crate) fn lines_of(&mut self, block: Block) -> Lines {
        let (from, to) = block.range;
        let text = self.text.get(from..to).unwrap_or("");
        let end = text.trim_end_matches(&WHITE).len();
        let rest = text.trim_start_matches(&WHITE).len();
        let white = text.len().saturating_sub(rest);
        let first = self.move_to(from.saturating_add(white));
        let last = self.move_to(from.saturating_add(end).saturating_sub(1));
        Lines { first, last }
    }
}

impl Lines {
    /// Whether both have a line in common.
    pub(crate) fn touch(self, others: Lines) -> bool {
        self.first <= others.last && others.first <= self.last
    }
}

/// Lets the trees of the blocks that these lines don't touch keep their lines.
pub(crate) fn keep_others(
    ladder: &mut Ladder,
    text: &str,
    blocks: &Blocks,
    lines: Lines,
) -> Result<(), AllocError> {
    let mut count = LineCount::new(text);
    let mut place = blocks.first();
    for _ in 0..blocks.len() {
        let Some(block) = blocks.take(&mut place) else {
            break;
        };
        let Some(tree) = block.tree else {
            continue;
        };
        for _ in ladder.steps.len()..=tree {
            ladder.steps.push(Step::Styled)?;
        }
        if !lines.touch(count.lines_of(block)) {
            if let Some(step) = ladder.steps.get_mut(tree) {
                *step = Step::Lines;
            }
        }
    }
    Ok(())
}

/// The place after so many lines of a text, or its end. A line ends with a line feed, a carriage return, or both.
fn place_after(text: &str, count: usize) -> usize {
    let bytes = text.as_bytes();
    let mut lines = 0usize;
    for (at, byte) in bytes.iter().enumerate() {
        if lines == count {
            return at;
        }
        let is_pair = *byte == b'\r' && bytes.get(at.saturating_add(1)) == Some(&b'\n');
        if (*byte == b'\n' || *byte == b'\r') && !is_pair {
            lines = lines.saturating_add(1);
        }
    }
    bytes.len()
}

/// The text from a line on, and the blank lines above it.
fn rest_from(text: &str, line: usize) -> &str {
    let place = place_after(text, line.saturating_sub(1));
    let above = text.get(..place).unwrap_or("");
    let end = above.trim_end_matches(&WHITE).len();
    let below = text.get(end..).unwrap_or("");
    below.get(place_after(below, 1)..).unwrap_or("")
}

/// Where the first block begins that these lines touch, and the first one below those.
fn edges(text: &str, blocks: &Blocks, lines: Lines) -> (Option<Edge>, Option<Edge>) {
    let mut first = None;
    let mut count = LineCount::new(text);
    let mut place = blocks.first();
    for number in 0..blocks.len() {
        let Some(block) = blocks.take(&mut place) else {
            break;
        };
        let its_lines = count.lines_of(block);
        let edge = Edge {
            line: its_lines.first,
            place: block.start,
        };
        let is_touched = lines.touch(its_lines);
        if is_touched && number == 0 {
            // what is above the first block goes with it
            first = Some(Edge { line: 1, place: 0 });
        } else if is_touched && first.is_none() {
            first = Some(edge);
        } else if !is_touched && first.is_some() {
            return (first, Some(edge));
        }
    }
    (first, None)
}

impl<'p> Patch<'p> {
    /// What comes in the place of the blocks that these lines touch, by the printed document. `None`: they touch none.
    pub(crate) fn of(
        source: &str,
        blocks: &Blocks,
        printed: &'p str,
        lines: Lines,
    ) -> Option<Patch<'p>> {
        let (first, next) = edges(source, blocks, lines);
        let Edge { line, place } = first?;
        let mut text = printed.get(place..).unwrap_or("");
        if let Some(next) = next {
            let end = next.place.saturating_sub(place);
            let whole = text.get(..end).unwrap_or("");
            let lines = whole.trim_end_matches('\n').len();
            text = whole.get(..lines.saturating_add(1)).unwrap_or(whole);
        }
        Some(Patch {
            first: line,
            next: next.map(|next| next.line),
            text,
        })
    }

    /// The text in which it has its place. Its lines end as is given.
    pub(crate) fn put_in(
        self,
        alloc: Global,
        text: &str,
        ending: &str,
    ) -> Result<String, AllocError> {
        let front = place_after(text, self.first.saturating_sub(1));
        let mut whole = String::from_str(alloc, text.get(..front).unwrap_or(""))?;
        let lines = self.text.replace(alloc, "\n", ending)?;
        whole.push_str(lines.as_str())?;
        if let Some(next) = self.next {
            whole.push_str(rest_from(text, next))?;
        }
        Ok(whole)
    }
}
