//! Turns the events within a leaf into pieces. The text between two events is copied from the source, so each text stays as it
//! is spelled. Only the signs of emphasis, breaks and the tails of links are chosen.

use crate::link::push_tail;
use crate::look::Look;
use crate::page::Page;
use crate::part::{Mark, Opening, Part};
use crate::piece::{Piece, Pieces, ends_with_backslash};
use crate::source::{Source, without_blanks};
use crate::style::{HardBreak, Wrap};
use std::alloc::{AllocError, Global};
use tocmark_event::event::{LinkType, TagEnd};
use unicode::properties::{GeneralCategory, GeneralCategoryGroup};

/// What the inlines of a leaf are printed from.
#[derive(Clone, Copy)]
pub(crate) struct Context<'d, 'p, 'g> {
    pub(crate) alloc: Global,
    pub(crate) source: &'d Source<'d>,
    pub(crate) part: &'p Part,
    pub(crate) page: &'g Page,
    pub(crate) look: Look,
}

/// Emphasis that is open.
#[derive(Clone, Copy)]
struct Open {
    /// Its sign.
    byte: u8,
    /// Whether the source has another one.
    is_changed: bool,
    /// Whether what is in it keeps its signs: it, or emphasis round it, keeps a sign that the look has otherwise. If a sign
    /// in it changed, the next time that one could change, too.
    is_held: bool,
}

/// A cursor over the events of a leaf, and their pieces.
#[derive(Drop)]
pub(crate) struct Inlines<'d, 'p, 'g> {
    context: Context<'d, 'p, 'g>,
    /// The place in the source after what is printed.
    pub(crate) at: usize,
    /// Where the leaf begins and ends in the source.
    range: (usize, usize),
    /// Whether the leaf may hold formulas, once that is known.
    may_hold_formulas: Option<bool>,
    pub(crate) pieces: Pieces,
    open: Vec<Open>,
    /// Of each link and image that is open whether its text is its label.
    links: Vec<bool>,
    /// How many of them are so.
    labels: usize,
}

/// What is between the lines of a slice of the source.
#[derive(Clone, Copy)]
enum Glue {
    Blank,
    Feed,
}

/// Whether the text of a link or an image is its label.
fn is_label(opening: Opening) -> bool {
    let kind = match opening {
        Opening::Link(kind) | Opening::Image(kind) => kind,
        _ => return false,
    };
    match kind {
        LinkType::Collapsed | LinkType::CollapsedUnknown => true,
        LinkType::Shortcut | LinkType::ShortcutUnknown => true,
        _ => false,
    }
}

/// Whether a link is an address between angle brackets.
fn is_address(opening: Opening) -> bool {
    match opening {
        Opening::Link(kind) => matches!(kind, LinkType::Autolink | LinkType::Email),
        _ => false,
    }
}

/// The sign of emphasis, once or twice.
fn sign_text(byte: u8, is_strong: bool) -> &'static str {
    match (byte, is_strong) {
        (b'_', false) => "_",
        (b'_', true) => "__",
        (_, false) => "*",
        (_, true) => "**",
    }
}

/// Whether an underscore is no sign of emphasis beside a character, for some program: it is one beside blanks and ASCII's
/// punctuation alone.
fn hinders_underscore(character: Option<char>) -> bool {
    match character {
        Some(' ' | '\t' | '\n') | None => false,
        Some(character) => !character.is_ascii_punctuation(),
    }
}

/// Whether a character is a symbol beyond ASCII. Programs that follow an older standard read no emphasis with underscores
/// beside one, but they read it with stars.
fn is_symbol(character: Option<char>) -> bool {
    match character {
        Some(character) if !character.is_ascii() => GeneralCategoryGroup::Symbol.contains(
            GeneralCategory::for_char(character),
        ),
        _ => false,
    }
}

/// Whether this sign of emphasis, in place of another one, could parse differently beside a character in some program.
fn is_hindered(sign: u8, character: Option<char>) -> bool {
    if sign == b'_' {
        hinders_underscore(character)
    } else {
        is_symbol(character)
    }
}

/// How far before emphasis and before its end a bare web address is looked for, in bytes.
const LONGEST_ADDRESS: usize = 256;

/// How far before and after emphasis brackets are looked for, in bytes.
const LONGEST_BRACKETED: usize = 100;

/// Brackets of other programs: links of wikis or tables of contents, tags of Jekyll and Hugo, and those of templates.
const BRACKETS: [(&str, &str); 4] = [("[[", "]]"), ("{{", "}}"), ("{%", "%}"), ("<%", "%>")];

/// Whether a text ends within these brackets.
fn ends_in_brackets(text: &str, open: &str, close: &str) -> bool {
    match text.rsplit_once(open) {
        Some((_, inner)) => !inner.contains(close),
        None => false,
    }
}

/// Whether a text begins within these brackets.
fn begins_in_brackets(text: &str, open: &str, close: &str) -> bool {
    match text.split_once(close) {
        Some((inner, _)) => !inner.contains(open),
        None => false,
    }
}

/// Whether some brackets are open between these texts.
fn are_in_brackets(before: &str, behind: &str) -> bool {
    for (open, close) in BRACKETS {
        if ends_in_brackets(before, open, close) && begins_in_brackets(behind, open, close) {
            return true;
        }
    }
    false
}

/// Whether a text ends with a bare web or mail address. Programs that link such an address take the signs in it, and an
/// underscore after it, for a part of it.
fn ends_with_address(text: &str) -> bool {
    let word = match text.rsplit_once(&[' ', '\t', '\n']) {
        Some((_, word)) => word,
        None => text,
    };
    word.contains("://") || word.contains("www.") || word.contains('@')
}

/// Whether a text may hold formulas: programs that know them read their content before emphasis.
fn may_hold_formulas(text: &str) -> bool {
    let dollars = text
        .as_bytes()
        .iter()
        .filter(|byte| **byte == b'$')
        .take(2)
        .count();
    dollars == 2
        || text.contains("\\(")
        || text.contains("\\[")
        || text.contains("\\f")
        || text.contains("\\begin{")
}

/// Whether a character is a sign of emphasis.
fn is_sign(character: Option<char>) -> bool {
    matches!(character, Some('*' | '_'))
}

impl Context<'_, '_, '_> {
    /// Where a leaf goes on on a line of the source, and whether that could begin a block there, but that it is indented or
    /// lazy.
    fn next_line(&self, line_start: usize) -> (usize, bool) {
        let source = self.source;
        let place = self.page.stripped(source, line_start);
        let at = source.past_blanks(place.at);
        let mut columns = place.spare;
        for byte in source.slice(place.at, at).as_bytes() {
            columns = columns.saturating_add(if *byte == b'\t' { 4 } else { 1 });
        }
        let is_row = matches!(source.byte(at), b'=' | b'|' | b':' | b'-');
        (at, columns >= 4 || (!place.is_met && is_row))
    }

    /// Adds to pieces a slice of the source that isn't broken, without the prefixes of containers in it.
    fn add_slice(
        &self,
        pieces: &mut Pieces,
        range: (usize, usize),
        glue: Glue,
    ) -> Result<(), AllocError> {
        let source = self.source;
        let (from, to) = range;
        let mut end = source.line_end(from);
        pieces.add_solid(source.slice(from, to.min(end)))?;
        for _ in from..to {
            let start = end.saturating_add(1);
            if start > to || start > source.text.len() {
                break;
            }
            let (place, is_deep) = self.next_line(start);
            match glue {
                Glue::Blank => pieces.add_solid(" ")?,
                Glue::Feed => pieces.push(Piece::Feed { is_deep })?,
            }
            end = source.line_end(place);
            pieces.add_solid(source.slice(place, to.min(end)))?;
        }
        Ok(())
    }

    /// The pieces of such a slice.
    fn slice_pieces(&self, range: (usize, usize), glue: Glue) -> Result<Pieces, AllocError> {
        let mut pieces = Pieces::new(self.alloc);
        self.add_slice(&mut pieces, range, glue)?;
        Ok(pieces)
    }

    /// The tail of a link that has several lines.
    fn tail(&self, from: usize, end: usize) -> Result<String, AllocError> {
        let pieces = self.slice_pieces((from, end), Glue::Feed)?;
        let lines = pieces.lines(self.alloc)?;
        let mut tail = String::new(self.alloc);
        push_tail(&mut tail, lines.as_str())?;
        Ok(tail)
    }
}

impl<'d, 'p, 'g> Inlines<'d, 'p, 'g> {
    /// The pieces of no event of the leaf that has this range in the source; `pieces` has room for them.
    pub(crate) fn new(
        context: Context<'d, 'p, 'g>,
        range: (usize, usize),
        pieces: Pieces,
    ) -> Inlines<'d, 'p, 'g> {
        Inlines {
            context,
            at: range.0,
            range,
            may_hold_formulas: None,
            pieces,
            open: Vec::new(context.alloc),
            links: Vec::new(context.alloc),
            labels: 0,
        }
    }

    /// Adds a slice of the source that isn't broken, without the prefixes of containers in it.
    fn add_slice(&mut self, from: usize, to: usize) -> Result<(), AllocError> {
        self.context
            .add_slice(&mut self.pieces, (from, to), Glue::Feed)
    }

    /// Adds what is before an event: backslashes, or a blank for blanks and a line's end after a task's box.
    fn add_gap(&mut self, start: usize) -> Result<(), AllocError> {
        if start <= self.at {
            return Ok(());
        }
        let from = self.at;
        self.at = start;
        let source = self.context.source;
        if start <= source.line_end(from) {
            let text = source.slice(from, start);
            let is_blank = without_blanks(text).is_empty();
            return self.pieces.add_solid(if is_blank { " " } else { text });
        }
        let pieces = self.context.slice_pieces((from, start), Glue::Blank)?;
        if without_blanks(pieces.text.as_str()).is_empty() {
            self.pieces.add_solid(" ")
        } else {
            self.pieces.append(&pieces)
        }
    }

    /// Whether a hard break at a place of the source is printed as blanks. After a bare address it stays as it is: programs
    /// that link the address take a backslash for a part of it.
    fn is_blanks(&self, start: usize) -> bool {
        let own = self.context.source.byte(start) != b'\\';
        let is_behind_blank = self.pieces.last_text().ends_with(' ');
        if is_behind_blank || self.is_in_address(self.range.0, self.at) {
            return own;
        }
        match self.context.look.hard_break {
            HardBreak::Backslash => false,
            HardBreak::Blanks => true,
            HardBreak::Source => own,
        }
    }

    fn add_soft_break(&mut self, range: (usize, usize)) -> Result<(), AllocError> {
        let (start, end) = range;
        if start > self.at && !self.wraps() && ends_with_backslash(self.pieces.last_text()) {
            // without it the break would be a hard one; a filled line doesn't end so
            self.pieces.add_solid(" ")?;
        }
        let (place, is_deep) = self.context.next_line(end);
        self.at = place;
        if self.wraps() && self.is_in_badge() {
            return self.pieces.add_solid(" ");
        }
        self.pieces.push(Piece::Soft { is_deep })
    }

    fn add_hard_break(&mut self, range: (usize, usize)) -> Result<(), AllocError> {
        let (start, end) = range;
        let is_blanks = self.is_blanks(start);
        if self.context.source.byte(start) == b'\\' {
            self.add_gap(start)?;
        }
        let (place, is_deep) = self.context.next_line(end);
        self.at = place;
        self.pieces.push(Piece::Hard { is_deep, is_blanks })
    }

    /// The characters before and after a stretch of the source.
    fn around(&self, start: usize, end: usize) -> (Option<char>, Option<char>) {
        let text = self.context.source.text;
        let before = text.get(..start).unwrap_or("").chars().next_back();
        let behind = text.get(end..).unwrap_or("").chars().next();
        (before, behind)
    }

    /// Whether a bare address goes on at a place of the source; it begins here or after.
    fn is_in_address(&self, from: usize, place: usize) -> bool {
        let source = self.context.source;
        let front = source
            .text
            .floor_char_boundary(place.saturating_sub(LONGEST_ADDRESS));
        ends_with_address(source.slice(front.max(from), place))
    }

    /// Whether emphasis with underscores ends with a link, an image or a code span, so that no bare address takes them.
    fn ends_with_link(&self, start: usize, end: usize) -> bool {
        let inner = self.context.source.slice(start, end).trim_end_matches('_');
        inner.ends_with(&[')', ']', '>', '`'])
    }

    /// Whether another sign than the source's can be round a stretch of it.
    fn fits(&self, sign: u8, range: (usize, usize)) -> bool {
        let (start, end) = range;
        if self.is_in_address(self.range.0, start) {
            return false;
        }
        if self
            .context
            .part
            .has_between(sign, start.saturating_sub(1), end.saturating_add(1))
        {
            return false;
        }
        let (before, behind) = self.around(start, end);
        if is_hindered(sign, before) || is_hindered(sign, behind) {
            return false;
        }
        if self.is_in_address(start, end) && !(sign == b'*' && self.ends_with_link(start, end)) {
            return false;
        }
        let is_in_changed = match self.open.last() {
            Some(open) => open.is_changed,
            None => false,
        };
        is_in_changed || !(is_sign(before) || is_sign(behind))
    }

    /// Whether the leaf may hold formulas.
    fn may_hold_formulas(&mut self) -> bool {
        if let Some(known) = self.may_hold_formulas {
            return known;
        }
        let (start, end) = self.range;
        let found = may_hold_formulas(self.context.source.slice(start, end));
        self.may_hold_formulas = Some(found);
        found
    }

    /// Whether a stretch of the source is between `[[` and `]]` or the signs of a tag, which are near it in the leaf.
    /// To the programs that know them, what is there is a name.
    fn is_bracketed(&self, range: (usize, usize)) -> bool {
        let (start, end) = range;
        let source = self.context.source;
        let front = source
            .text
            .floor_char_boundary(start.saturating_sub(LONGEST_BRACKETED));
        let back = source
            .text
            .floor_char_boundary(end.saturating_add(LONGEST_BRACKETED));
        are_in_brackets(
            source.slice(front.max(self.range.0), start),
            source.slice(end, back.min(self.range.1)),
        )
    }

    /// The sign that the look has for emphasis, if it has one.
    fn wanted_sign(&self, is_strong: bool) -> Option<u8> {
        let look = self.context.look;
        if is_strong {
            look.strong
        } else {
            look.emphasis
        }
    }

    /// Whether emphasis may have another sign than in the source, which has it neither in nor beside the emphasis. It may not
    /// in a leaf that may hold formulas, because one may begin or end in the emphasis, nor in double brackets.
    fn may_have_sign(&mut self, sign: u8, range: (usize, usize)) -> bool {
        self.labels == 0
            && self.fits(sign, range)
            && !self.is_bracketed(range)
            && !self.may_hold_formulas()
    }

    fn open_emphasis(&mut self, range: (usize, usize), is_strong: bool) -> Result<(), AllocError> {
        self.add_gap(range.0)?;
        let own = self.context.source.byte(range.0);
        let wanted = self.wanted_sign(is_strong).unwrap_or(own);
        let is_in_held = self.open.last().is_some_and(|open| open.is_held);
        let is_changed = !is_in_held && wanted != own && self.may_have_sign(wanted, range);
        let byte = if is_changed { wanted } else { own };
        self.open.push(Open {
            byte,
            is_changed,
            is_held: is_in_held || byte != wanted,
        })?;
        self.at = range.0.saturating_add(if is_strong { 2 } else { 1 });
        self.pieces.add_solid(sign_text(byte, is_strong))
    }

    fn close_emphasis(&mut self, end: usize, is_strong: bool) -> Result<(), AllocError> {
        self.at = end;
        match self.open.pop() {
            Some(open) => self.pieces.add_solid(sign_text(open.byte, is_strong)),
            None => Ok(()),
        }
    }

    /// Opens a container other than emphasis: its sign is the source's.
    fn open_other(&mut self, opening: Opening, start: usize) -> Result<(), AllocError> {
        self.add_gap(start)?;
        let is_double = match opening {
            Opening::Image(_) => true,
            Opening::Strikethrough => self.context.source.slice(start, start.saturating_add(2))
                == "~~",
            _ => false,
        };
        let behind = start.saturating_add(if is_double { 2 } else { 1 });
        if matches!(opening, Opening::Link(_) | Opening::Image(_)) {
            let is_label = is_label(opening);
            self.links.push(is_label)?;
            self.labels = self.labels.saturating_add(if is_label { 1 } else { 0 });
        }
        self.at = behind;
        self.pieces
            .add_solid(self.context.source.slice(start, behind))
    }

    /// Closes a link or an image: its tail, as the look has it.
    fn close_link(&mut self, end: usize) -> Result<(), AllocError> {
        if self.links.pop() == Some(true) {
            self.labels = self.labels.saturating_sub(1);
        }
        let from = self.at;
        self.at = end;
        let source = self.context.source;
        let is_inline = source.slice(from, end).starts_with("](");
        if !is_inline && self.wraps() {
            return self.add_joined(from, end);
        }
        if !is_inline || self.context.look.is_literal {
            return self.add_slice(from, end);
        }
        if end <= source.line_end(from) {
            return self.pieces.add_tail(source.slice(from, end));
        }
        let tail = self.context.tail(from, end)?;
        self.add_lines(tail.as_str())
    }

    /// Adds lines that aren't broken otherwise.
    fn add_lines(&mut self, text: &str) -> Result<(), AllocError> {
        let mut is_first = true;
        for line in text.split('\n') {
            if !is_first {
                self.pieces.push(Piece::Feed { is_deep: false })?;
            }
            self.pieces.add_solid(line)?;
            is_first = false;
        }
        Ok(())
    }

    /// Whether the lines of the leaf are filled or joined.
    fn wraps(&self) -> bool {
        self.context.look.wrap != Wrap::Keep
    }

    /// Whether an image in a link is open: its text isn't broken.
    fn is_in_badge(&self) -> bool {
        self.links.len() > 1
    }

    /// Adds a text; one of an image in a link isn't broken.
    fn add_text(&mut self, range: (usize, usize)) -> Result<(), AllocError> {
        self.add_gap(range.0)?;
        self.at = range.1;
        let text = self.context.source.slice(range.0, range.1);
        if self.is_in_badge() {
            self.pieces.add_solid(text)
        } else {
            self.pieces.add_text(text)
        }
    }

    /// Adds a slice of the source as one line. The reader takes its line feeds for blanks.
    fn add_joined(&mut self, from: usize, to: usize) -> Result<(), AllocError> {
        self.context
            .add_slice(&mut self.pieces, (from, to), Glue::Blank)
    }

    /// Adds a code span, whose lines are joined if lines are filled.
    fn add_code(&mut self, range: (usize, usize)) -> Result<(), AllocError> {
        if !self.wraps() {
            return self.add_copied(range);
        }
        self.add_gap(range.0)?;
        self.at = range.1;
        self.add_joined(range.0, range.1)
    }

    /// Adds a leaf, copied from the source.
    fn add_copied(&mut self, range: (usize, usize)) -> Result<(), AllocError> {
        self.add_gap(range.0)?;
        self.at = range.1;
        self.add_slice(range.0, range.1)
    }

    fn add_start(
        &mut self,
        at: usize,
        opening: Opening,
        range: (usize, usize),
    ) -> Result<usize, AllocError> {
        let next = at.saturating_add(1);
        match opening {
            Opening::Emphasis => self.open_emphasis(range, false)?,
            Opening::Strong => self.open_emphasis(range, true)?,
            _ if is_address(opening) => {
                self.add_copied(range)?;
                return Ok(self.context.part.end(at).saturating_add(1));
            }
            _ => self.open_other(opening, range.0)?,
        }
        Ok(next)
    }

    fn add_end(&mut self, end: TagEnd, range: (usize, usize)) -> Result<(), AllocError> {
        match end {
            TagEnd::Emphasis => self.close_emphasis(range.1, false),
            TagEnd::Strong => self.close_emphasis(range.1, true),
            TagEnd::Link | TagEnd::Image => self.close_link(range.1),
            _ => {
                let from = self.at;
                self.at = range.1;
                self.add_slice(from, range.1)
            }
        }
    }

    /// Adds the event at a place; the place after it.
    fn add(&mut self, at: usize) -> Result<usize, AllocError> {
        let next = at.saturating_add(1);
        let range = self.context.part.range(at);
        let Some(event) = self.context.part.event(at) else {
            return Ok(next);
        };
        match event {
            Mark::Start(opening) => return self.add_start(at, opening, range),
            Mark::End(end) => self.add_end(end, range)?,
            Mark::SoftBreak => self.add_soft_break(range)?,
            Mark::HardBreak => self.add_hard_break(range)?,
            Mark::Code => self.add_code(range)?,
            Mark::Text => self.add_text(range)?,
            _ => self.add_copied(range)?,
        }
        Ok(next)
    }

    /// Adds the events from one place to another.
    pub(crate) fn add_all(&mut self, from: usize, to: usize) -> Result<(), AllocError> {
        let mut at = from;
        for _ in from..to {
            if at >= to {
                break;
            }
            at = self.add(at)?;
        }
        Ok(())
    }
}
