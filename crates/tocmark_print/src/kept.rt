//! Lines that are kept: those that a comment names, those that other programs read as one, those of blocks that would be
//! read otherwise, and those after front matter that isn't at the front.

use crate::hazard::is_hazard;
use crate::page::{Kind, Place};
use crate::part::{Mark, Opening, Part, is_inline};
use crate::piece::{INDENT, blanks};
use crate::printer::Printer;
use crate::source::{without_blanks, without_end_blanks};
use crate::spans::Span;
use std::alloc::AllocError;

/// What ends a stretch that a comment keeps.
#[derive(Clone, Copy)]
enum Until {
    /// The next block.
    Next,
    /// A comment with this text.
    Comment(&'static str),
    /// The block that ends at this place of the source, or after it.
    Place(usize),
    /// The end of the document.
    End,
}

/// A stretch of the source that is kept.
#[derive(Clone, Copy)]
pub(crate) struct Stretch {
    from: usize,
    to: usize,
    /// How many containers are open round it.
    depth: usize,
    until: Until,
    /// What it is to the blocks beside it.
    kind: Kind,
}

/// Comments that keep what is after them, each with what ends that.
const COMMENTS: [(&str, Until); 3] = [
    ("tocmark-format off", Until::Comment("tocmark-format on")),
    (
        "prettier-ignore-start",
        Until::Comment("prettier-ignore-end"),
    ),
    ("prettier-ignore", Until::Next),
];

fn kept_until(comment: &str) -> Option<Until> {
    for (text, until) in COMMENTS {
        if text == comment {
            return Some(until);
        }
    }
    None
}

/// What the only comment of a line of HTML says.
fn comment_in(html: &str) -> Option<&str> {
    let inner = without_blanks(html.trim_end_matches('\n'))
        .strip_prefix("<!--")?
        .strip_suffix("-->")?;
    Some(without_blanks(inner))
}

/// What an HTML block at a place says as a comment.
fn comment_at(part: &Part, at: usize) -> Option<&str> {
    let Some(Mark::Start(Opening::Html)) = part.event(at) else {
        return None;
    };
    if part.end(at) == at.saturating_add(2) {
        comment_in(part.raw_text(at))
    } else {
        None
    }
}

/// A text without its first spaces: at most so many are taken off.
fn without_spaces(text: &str, count: usize) -> &str {
    let spaces = text
        .len()
        .saturating_sub(text.trim_start_matches(' ').len());
    text.get(spaces.min(count)..).unwrap_or(text)
}

impl Printer<'_> {
    /// What a line of the source gets in front: four blanks, if it is lazy and would begin a block after the prefixes.
    pub(crate) fn indent_of(&self, place: Place, to: usize) -> &'static str {
        let text = self.source.slice(place.at, to);
        if !place.is_met && is_hazard(text.trim_start_matches(&[' ', '\t'])) {
            INDENT
        } else {
            ""
        }
    }

    /// Prints a line of the source up to a place, after the blanks that a tab leaves over, without so many blanks.
    fn print_rest(&mut self, place: Place, to: usize, shift: usize) -> Result<(), AllocError> {
        let text = self.source.slice(place.at, to);
        let indent = self.indent_of(place, to);
        if !indent.is_empty() {
            return self.page.line_with(indent, text);
        }
        let front = blanks(place.spare.saturating_sub(shift));
        let text = without_spaces(text, shift.saturating_sub(place.spare));
        self.page.line_with(front, text)
    }

    /// Prints the source's lines from one place to another, unchanged but for the prefixes of the open containers, and for the
    /// blanks that `shift_of` takes away.
    pub(crate) fn print_lines(&mut self, start: usize, end: usize) -> Result<(), AllocError> {
        let source = self.source;
        let shift = self.shift_of(start);
        let base = source.line_start(start);
        let top = self.page.top();
        let first_end = end.min(source.line_end(start));
        if top.kind == Kind::Quote || (top.content() <= base && !top.owes_sign()) {
            let mut place = self.page.front(source, start);
            // only in the source's own spelling it goes on with a definition above it
            place.is_met = place.is_met || !self.look.is_literal;
            self.print_rest(place, first_end.max(place.at), shift)?;
        } else {
            self.page.line(source.slice(start, first_end))?;
        }
        let mut at = source.line_end(start).saturating_add(1);
        for _ in at..=end {
            if at > end || at >= source.text.len() {
                break;
            }
            let place = self.page.stripped(source, at);
            let line_end = source.line_end(place.at);
            self.print_rest(place, end.max(place.at).min(line_end), shift)?;
            at = line_end.saturating_add(1);
        }
        Ok(())
    }

    /// Ends the stretch that is kept at the end of the innermost container.
    pub(crate) fn end_kept(&mut self) -> Result<(), AllocError> {
        let Some(stretch) = self.kept else {
            return Ok(());
        };
        if stretch.depth != self.page.depth() {
            return Ok(());
        }
        let to = match stretch.until {
            Until::Next | Until::Place(_) => stretch.to,
            Until::Comment(_) | Until::End => {
                let end = self.page.top().end();
                self.source.slice(0, end).trim_end_matches('\n').len()
            }
        };
        self.print_kept(stretch, to)
    }

    /// Prints a stretch that is kept, up to this place of the source.
    fn print_kept(&mut self, stretch: Stretch, to: usize) -> Result<(), AllocError> {
        self.kept = None;
        self.print_lines(stretch.from, to)?;
        self.finish(stretch.kind, to)
    }

    /// Passes a block or bare text in a stretch that is kept, up to this place of the source.
    fn extend_kept(
        &mut self,
        stretch: Stretch,
        comment: Option<&str>,
        end: usize,
    ) -> Result<(), AllocError> {
        let is_last = match stretch.until {
            Until::Next => true,
            Until::Comment(text) => comment == Some(text),
            Until::Place(place) => end >= place,
            Until::End => false,
        };
        if is_last {
            return self.print_kept(stretch, end);
        }
        self.kept = Some(Stretch { to: end, ..stretch });
        Ok(())
    }

    /// The stretch that is kept at this depth, if there is one.
    fn kept_here(&self) -> Option<Stretch> {
        match self.kept {
            Some(stretch) if stretch.depth == self.page.depth() => Some(stretch),
            _ => None,
        }
    }

    /// Where the text of a block begins, or bare text.
    fn front_of(&self, part: &Part, at: usize) -> usize {
        let (start, _) = part.range(at);
        if part.event(at).is_some_and(is_inline) {
            let front = self.page.front(self.source, start);
            self.source.past_blanks(front.at).min(start)
        } else {
            start
        }
    }

    /// The lines that other programs read as one, if the block at a place has some of them; it ends
    /// here in the source. A container that begins before them leaves them to its blocks. Lines that
    /// begin in code don't count, nor do those that begin in a container and end after it.
    fn span_at(&mut self, part: &Part, at: usize, end: usize) -> Option<Span> {
        let (start, _) = part.range(at);
        let span = self.source.span_behind(start, self.code_end)?;
        if span.from >= end {
            return None;
        }
        if span.to > self.source.line_end(self.page.top().end()) {
            self.code_end = span.from.saturating_add(1);
            return None;
        }
        let Some(Mark::Start(opening)) = part.event(at) else {
            return Some(span);
        };
        match opening {
            Opening::Item | Opening::Title | Opening::Definition => return None,
            Opening::IndentedCode | Opening::FencedCode | Opening::Metadata
                if self.source.line_start(start) <= span.from => {
                self.code_end = end;
                return None;
            }
            Opening::Quote { .. }
            | Opening::List { .. }
            | Opening::Footnote
            | Opening::DefinitionList
                if start < span.from => {
                return None;
            }
            _ => {}
        }
        Some(span)
    }

    /// Whether front matter isn't at the front. Most programs read a rule there, and what is after it otherwise. After
    /// blank lines that counts only if a text goes on after the last line.
    fn is_stray(&self, range: (usize, usize)) -> bool {
        let (start, end) = range;
        if start == 0 {
            return false;
        }
        if !self.page.text.is_empty() {
            return true;
        }
        let last = self.source.line_of(end.saturating_sub(1));
        let next = self.source.line(last.saturating_add(1));
        without_end_blanks(self.source.line(last)) != "---" && !without_blanks(next).is_empty()
    }

    /// What ends the stretch that begins with a block, and what it is: one that a comment names, one that other programs
    /// read, or one of front matter that isn't at the front.
    fn kept_from(&mut self, part: &Part, at: usize, end: usize) -> Option<(Until, Kind)> {
        match part.event(at) {
            Some(Mark::Start(Opening::Metadata)) if self.is_stray(part.range(at)) => {
                return Some((Until::End, Kind::Kept));
            }
            _ => {}
        }
        if let Some(until) = comment_at(part, at).and_then(kept_until) {
            return Some((until, Kind::Kept));
        }
        let span = self.span_at(part, at, end)?;
        let kind = if span.from == 0 && without_end_blanks(self.source.line(0)) == "---" {
            Kind::Metadata
        } else {
            Kind::Foreign
        };
        Some((Until::Place(span.to), kind))
    }

    /// Begins a stretch that is kept with a block or bare text between two places of the source.
    fn begin_kept(
        &mut self,
        range: (usize, usize),
        until: Until,
        kind: Kind,
    ) -> Result<(), AllocError> {
        let (from, to) = range;
        self.print_gap(from)?;
        self.goes_on = self.goes_on && self.is_below_text(from);
        self.begin_events(kind, from, to)?;
        if kind == Kind::Foreign {
            self.begin_foreign(from);
        }
        let stretch = Stretch {
            from,
            to,
            depth: self.page.depth(),
            until,
            kind,
        };
        if let Until::Place(place) = until
            && to >= place
        {
            return self.print_kept(stretch, to);
        }
        self.kept = Some(stretch);
        Ok(())
    }

    /// Passes a block or bare text that is kept, or a comment that keeps others; the place after it.
    pub(crate) fn pass_kept(
        &mut self,
        part: &Part,
        at: usize,
    ) -> Result<Option<usize>, AllocError> {
        let behind = part.past(at);
        let (_, to) = part.range(behind.saturating_sub(1));
        if let Some(stretch) = self.kept_here() {
            self.extend_kept(stretch, comment_at(part, at), to)?;
        } else if let Some((until, kind)) = self.kept_from(part, at, to) {
            let from = self.front_of(part, at);
            self.begin_kept((from, to), until, kind)?;
        } else {
            return Ok(None);
        }
        let raw = part.raw_text(at);
        self.is_cut = !raw.is_empty() && !raw.ends_with('\n');
        Ok(Some(behind))
    }
}
