//! Fills lines with words.

use crate::dialect::begins_foreign_line;
use crate::hazard::{begins_inline_tag, is_hazard};
use crate::lines::Lines;
use crate::piece::{Piece, Pieces, ends_with_backslash};
use crate::sentence::ends_sentence;
use crate::width::width;
use std::alloc::{AllocError, Global};

/// How many columns are before the first line and before the others, and how many a line may have.
#[derive(Clone, Copy)]
pub(crate) struct Measure {
    pub(crate) first: usize,
    pub(crate) others: usize,
    pub(crate) limit: usize,
    /// Whether each sentence begins a line.
    pub(crate) breaks_sentences: bool,
}

/// What is before a word.
#[derive(Clone, Copy, PartialEq, Eq)]
enum Before {
    /// Nothing: it begins a line, or goes on with the word before it.
    Nothing,
    Blank,
    /// A soft break of the source.
    Break,
    /// A soft break before a line that could begin a block in the source, but that it is indented or lazy.
    DeepBreak,
}

/// Lines that are being filled.
#[derive(Drop)]
struct Filling<'p> {
    /// The text of all pieces, with a line feed for each break.
    text: &'p str,
    lines: Lines,
    measure: Measure,
    /// The columns of the line that isn't ended, with what is before it.
    column: usize,
    /// Whether that line could begin a block in the source, but that it is indented or lazy.
    is_deep: bool,
    /// The word that isn't complete.
    word: String,
    before: Before,
    /// Whether a tag of Jekyll or Hugo is open, as `{{ x }}`. It isn't broken, and keeps its blanks.
    is_in_tag: bool,
    /// Where brackets end in the text that a word began. They aren't broken, also where the source has a line feed in them:
    /// the lines may become one, in which they aren't broken either.
    brackets_end: usize,
}

/// Whether a character is of a script that has no blanks between words. Korean has some.
fn is_unspaced(character: char) -> bool {
    match character {
        '\u{2e80}'..='\u{30ff}' | '\u{31c0}'..='\u{9fff}' => true,
        '\u{f900}'..='\u{faff}' | '\u{fe30}'..='\u{fe4f}' => true,
        '\u{ff01}'..='\u{ff60}' | '\u{20000}'..='\u{3ffff}' => true,
        _ => false,
    }
}

/// Whether two texts meet in a script without blanks. Between them a break stays a break, and a blank a blank.
fn are_unspaced(before: &str, behind: &str) -> bool {
    match (before.chars().next_back(), behind.chars().next()) {
        (Some(last), Some(first)) => is_unspaced(last) && is_unspaced(first),
        _ => false,
    }
}

/// Whether a tag of Jekyll or Hugo is open after a word.
fn is_in_tag(word: &str, was_in_tag: bool) -> bool {
    if word.contains("}}") || word.contains("%}") {
        return false;
    }
    was_in_tag || word.contains("{{") || word.contains("{%")
}

/// A text up to its first blank or tab.
fn first_word(text: &str) -> &str {
    match text.find(&[' ', '\t']) {
        Some(at) => text.get(..at).unwrap_or(text),
        None => text,
    }
}

/// How far the end of attributes or of a link of a wiki is looked for, in bytes.
const LONGEST_BRACKETED: usize = 200;

/// Whether attributes are after a brace that is between two texts, as in `[a](b){ .name }`, `:name:{ title="a" }` and
/// `{: .name }`.
fn begins_attributes(before: &str, behind: &str) -> bool {
    behind
        .trim_start_matches(&[' ', '\t', '\n'])
        .starts_with(&['.', '#', ':'])
        || before.ends_with(&[')', ']', '`', '*', '_', '>', ':'])
}

/// Where brackets end in a text that a word at a place begins after another text: attributes, or a link of a wiki, as
/// `[[a page]]`. 0 if it begins none, or if they end in the word.
fn brackets_end(before: &str, word: &str, text: &str, at: usize) -> usize {
    for (open, close) in [("{", "}"), ("[[", "]]")] {
        let Some((front, rest)) = word.rsplit_once(open) else {
            continue;
        };
        let inner = at.saturating_add(front.len()).saturating_add(open.len());
        let last = text.floor_char_boundary(inner.saturating_add(LONGEST_BRACKETED));
        let behind = text.get(inner..last).unwrap_or("");
        let before = if front.is_empty() { before } else { front };
        if rest.contains(close) || (open == "{" && !begins_attributes(before, behind)) {
            continue;
        }
        if let Some(length) = behind.find(close) {
            return inner.saturating_add(length).saturating_add(close.len());
        }
    }
    0
}

impl Filling<'_> {
    /// Whether the word is a tag that can begin a line: one within lines, or one that begins a line in the source.
    fn is_free_tag(&self) -> bool {
        let word = self.word.as_str();
        word.starts_with('<') && (self.before == Before::Break || begins_inline_tag(word))
    }

    /// Whether the word can't begin a line: there it could begin a block, or the line before it would end with a backslash.
    fn is_bound(&self) -> bool {
        (is_hazard(self.word.as_str()) && !self.is_free_tag())
            || begins_foreign_line(self.word.as_str())
            || ends_with_backslash(self.lines.current())
    }

    /// Whether a break of the source stays before the word.
    fn keeps_break(&self) -> bool {
        matches!(self.before, Before::Break | Before::DeepBreak)
            && are_unspaced(self.lines.current(), self.word.as_str())
    }

    /// Whether the word begins a sentence, and sentences begin lines.
    fn begins_sentence(&self) -> bool {
        self.measure.breaks_sentences && ends_sentence(self.lines.current(), self.word.as_str())
    }

    /// Whether the word begins a line: it has no room on this one, a break stays before it, or it begins a sentence.
    fn begins_line(&self, columns: usize) -> bool {
        let is_full = self.column.saturating_add(1).saturating_add(columns) > self.measure.limit;
        (is_full || self.keeps_break() || self.begins_sentence()) && !self.is_bound()
    }

    fn end_line(&mut self) -> Result<(), AllocError> {
        self.lines.end_line(self.is_deep)?;
        self.is_deep = false;
        self.column = self.measure.others;
        Ok(())
    }

    /// Puts the word on this line or on a new one.
    fn place_word(&mut self) -> Result<(), AllocError> {
        let columns = width(self.word.as_str());
        if self.before != Before::Nothing {
            if self.begins_line(columns) {
                self.end_line()?;
            } else {
                self.lines.push(" ")?;
                self.column = self.column.saturating_add(1);
            }
        }
        self.lines.push(self.word.as_str())?;
        self.column = self.column.saturating_add(columns);
        self.word.truncate(0);
        Ok(())
    }

    /// Ends the word, if there is one.
    fn end_word(&mut self, before_next: Before) -> Result<(), AllocError> {
        if self.word.is_empty() {
            return Ok(());
        }
        self.place_word()?;
        self.before = before_next;
        Ok(())
    }

    /// Adds the text between two places, which may be broken at its blanks.
    fn add_text(&mut self, from: usize, end: usize) -> Result<(), AllocError> {
        let text = self.text;
        let mut at = from;
        for _ in from..=end {
            let rest = text.get(at..end).unwrap_or("");
            let word = first_word(rest);
            if at >= self.brackets_end {
                self.brackets_end = brackets_end(self.word.as_str(), word, text, at);
            }
            self.word.push_str(word)?;
            self.is_in_tag = is_in_tag(word, self.is_in_tag);
            let blanks = rest.get(word.len()..).unwrap_or("");
            let behind = blanks.trim_start_matches(&[' ', '\t']);
            if blanks.is_empty() {
                break;
            }
            let count = blanks.len().saturating_sub(behind.len());
            at = at.saturating_add(word.len());
            if self.is_in_tag || at < self.brackets_end {
                self.word.push_str(blanks.get(..count).unwrap_or(" "))?;
            } else if are_unspaced(self.word.as_str(), behind) {
                self.word.push(' ')?;
            } else {
                self.end_word(Before::Blank)?;
            }
            at = at.saturating_add(count);
        }
        Ok(())
    }

    /// Breaks the line, after a mark: at a hard break, or at a line feed of the source that stays.
    fn break_line(&mut self, mark: &str, is_deep: bool) -> Result<(), AllocError> {
        let is_behind_blank = self.word.is_empty() && self.before != Before::Nothing;
        if is_behind_blank && mark == "\\" {
            self.lines.push(" ")?;
        }
        if is_behind_blank {
            self.lines.push(mark)?;
        } else {
            self.word.push_str(mark)?;
            self.place_word()?;
        }
        self.end_line()?;
        self.is_deep = is_deep;
        self.before = Before::Nothing;
        Ok(())
    }

    /// Adds a piece, whose text is that between two places.
    fn add(&mut self, piece: Piece, from: usize, end: usize) -> Result<(), AllocError> {
        match piece {
            Piece::Text(_) => self.add_text(from, end),
            Piece::Solid(_) => self.word.push_str(self.text.get(from..end).unwrap_or("")),
            Piece::Soft { is_deep } if self.is_in_tag => self.break_line("", is_deep),
            Piece::Soft { .. } if from < self.brackets_end => self.word.push(' '),
            Piece::Soft { is_deep: true } => self.end_word(Before::DeepBreak),
            Piece::Soft { .. } => self.end_word(Before::Break),
            Piece::Feed { is_deep } => self.break_line("", is_deep),
            Piece::Hard { is_deep, is_blanks } => self.break_line(
                if is_blanks { "  " } else { "\\" },
                is_deep,
            ),
        }
    }

    /// Adds all pieces, and ends the last line.
    fn add_all(&mut self, pieces: &Pieces) -> Result<(), AllocError> {
        let mut from = 0usize;
        let mut breaks = 0usize;
        for piece in &pieces.list {
            let end = match piece {
                Piece::Text(end) | Piece::Solid(end) => end.saturating_add(breaks),
                _ => {
                    breaks = breaks.saturating_add(1);
                    from.saturating_add(1)
                }
            };
            self.add(*piece, from, end)?;
            from = end;
        }
        self.end_word(Before::Nothing)?;
        self.end_line()
    }
}

/// The lines of pieces, filled with their words.
pub(crate) fn filled(
    alloc: Global,
    pieces: &Pieces,
    measure: Measure,
) -> Result<Lines, AllocError> {
    let text = pieces.lines(alloc)?;
    let mut filling = Filling {
        text: text.as_str(),
        lines: Lines::new(alloc),
        measure,
        column: measure.first,
        is_deep: false,
        word: String::new(alloc),
        before: Before::Nothing,
        is_in_tag: false,
        brackets_end: 0,
    };
    filling.add_all(pieces)?;
    let Filling { lines, .. } = filling;
    Ok(lines)
}
