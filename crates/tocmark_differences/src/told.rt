//! The differences that are found, and how each is noted.

use crate::difference::{
    Change, Difference, Kind, change_between, common_front, differing, word_of,
};
use crate::erase::Within;
use crate::marks::{Mark, Marks};
use crate::phrases::{ends_words, leads, named, phrase_of, push_words, without_white};
use std::alloc::{AllocError, Global};
use tocmark_event::event::{Event, Tag};

/// What is found in two texts that differ.
#[derive(Drop)]
pub struct Differences<'m> {
    pub alloc: Global,
    pub old: &'m Marks,
    pub new: &'m Marks,
    pub all: Vec<Difference>,
    /// How many events both texts have before the place that is compared.
    pub before: (usize, usize),
    /// Whether it is noted of this tree that a list became loose or tight.
    pub has_spacing: bool,
}

/// Which of two texts has something that the other one hasn't.
#[derive(Clone, Copy)]
pub enum Side {
    Old,
    New,
}

/// Where events are that only one of the texts has.
#[derive(Clone, Copy)]
pub struct Alone {
    pub side: Side,
    /// The line of the other text where they would be.
    pub line: usize,
    /// Whether the other text has words in their place.
    pub has_words: bool,
}

/// The lines of a thing in both texts.
#[derive(Clone, Copy)]
struct Both {
    old: (usize, usize),
    new: (usize, usize),
}

/// The words of some events but for those of things that are noted as a whole.
#[derive(Drop)]
pub struct Outside {
    words: String,
    /// Of each text: how many bytes of words are before it, and its number.
    places: Vec<(usize, usize)>,
}

/// Lines without so many at their front; the last one, if there are no more.
fn later(lines: (usize, usize), count: usize) -> (usize, usize) {
    (lines.0.saturating_add(count).min(lines.1), lines.1)
}

/// The words of events.
fn words_in(alloc: Global, marks: &[Mark]) -> Result<String, AllocError> {
    let mut words = String::new(alloc);
    for mark in marks {
        push_words(&mut words, mark)?;
    }
    Ok(words)
}

/// Whether two texts are the same but for white space.
fn are_alike(alloc: Global, old: &str, new: &str) -> Result<bool, AllocError> {
    let (old, new) = (without_white(alloc, old)?, without_white(alloc, new)?);
    Ok(old.as_bytes() == new.as_bytes())
}

/// Whether a mark starts a paragraph.
fn is_paragraph(mark: &Mark) -> bool {
    match &mark.event {
        Event::Start(Tag::Paragraph) => true,
        _ => false,
    }
}

/// Whether events begin with a text.
fn begins_text(marks: &[Mark]) -> bool {
    match marks.first() {
        Some(mark) => match &mark.event {
            Event::Text(_) => true,
            _ => false,
        },
        None => false,
    }
}

/// Whether a mark is what an item begins with.
fn begins_item(mark: Option<&Mark>) -> bool {
    match mark {
        Some(mark) => match &mark.event {
            Event::Start(Tag::Item) => true,
            Event::TaskListMarker(_) => true,
            _ => false,
        },
        None => false,
    }
}

impl Alone {
    /// Where events are that have no words in their place.
    pub fn new(side: Side, line: usize) -> Alone {
        Alone {
            side,
            line,
            has_words: false,
        }
    }
}

impl Outside {
    pub fn new(alloc: Global) -> Outside {
        Outside {
            words: String::new(alloc),
            places: Vec::new(alloc),
        }
    }

    /// Adds an event.
    fn add(&mut self, mark: &Mark) -> Result<(), AllocError> {
        match &mark.event {
            Event::Text(_) => {
                self.places.push((self.words.as_str().len(), mark.number))?;
                self.words.push_str(mark.key.as_str())
            }
            Event::SoftBreak => self.words.push_str(" "),
            Event::HardBreak => self.words.push_str(" "),
            Event::End(end) if ends_words(*end) => self.words.push_str(" "),
            _ => Ok(()),
        }
    }

    /// The number of the text in which so many bytes of words end.
    fn text_at(&self, bytes: usize) -> Option<usize> {
        let after = self.places.partition_point(|place| place.0 <= bytes);
        let place = self.places.get(after.saturating_sub(1))?;
        Some(place.1)
    }
}

impl<'m> Differences<'m> {
    /// The text that has something.
    fn text_of(&self, side: Side) -> &'m Marks {
        match side {
            Side::Old => self.old,
            Side::New => self.new,
        }
    }

    /// Notes something that only one of the texts has, in these lines.
    fn add_phrase(
        &mut self,
        alone: Alone,
        what: &'static str,
        phrase: String,
        lines: (usize, usize),
    ) -> Result<(), AllocError> {
        let none = String::new(self.alloc);
        let other = (alone.line, alone.line);
        let before = self.before;
        let difference = match alone.side {
            Side::Old => Difference {
                kind: Kind::Removed,
                what,
                before,
                old: lines,
                new: other,
                was: phrase,
                is: none,
            },
            Side::New => Difference {
                kind: Kind::Added,
                what,
                before,
                old: other,
                new: lines,
                was: none,
                is: phrase,
            },
        };
        self.all.push(difference)?;
        Ok(())
    }

    /// Notes a thing that only one of the texts has: an event, or the container that it starts.
    fn add_thing(&mut self, alone: Alone, first: &Mark) -> Result<(), AllocError> {
        let text = self.text_of(alone.side);
        let phrase = phrase_of(self.alloc, first, text.container(first))?;
        let lines = text.lines_of(first.range);
        self.add_phrase(alone, word_of(first), phrase, lines)
    }

    /// Notes a tree that only one of the texts has, and where the links in it lead.
    pub fn add_tree(&mut self, alone: Alone, marks: &[Mark]) -> Result<(), AllocError> {
        for (at, mark) in marks.iter().enumerate() {
            if at == 0 || leads(mark) {
                self.add_thing(alone, mark)?;
            }
        }
        Ok(())
    }

    /// Notes words that one of two texts has more.
    fn add_more(
        &mut self,
        what: &'static str,
        change: &Change,
        lines: Both,
    ) -> Result<(), AllocError> {
        let (was, is) = (change.was.as_str(), change.is.as_str());
        if was.trim().is_empty() {
            let phrase = named(self.alloc, what, is)?;
            return self.add_phrase(Alone::new(Side::New, lines.old.0), what, phrase, lines.new);
        }
        let phrase = named(self.alloc, what, was)?;
        self.add_phrase(Alone::new(Side::Old, lines.new.0), what, phrase, lines.old)
    }

    /// Notes a change.
    fn add_change(
        &mut self,
        what: &'static str,
        change: Change,
        lines: Both,
    ) -> Result<(), AllocError> {
        if change.has_more() {
            return self.add_more(what, &change, lines);
        }
        let Change { kind, was, is, .. } = change;
        self.all.push(Difference {
            kind,
            what,
            before: self.before,
            old: lines.old,
            new: lines.new,
            was,
            is,
        })?;
        Ok(())
    }

    /// Notes what differs between two events, if they are of one kind.
    fn add_pair(&mut self, old: &Mark, new: &Mark) -> Result<bool, AllocError> {
        let Some(change) = change_between(self.alloc, old, new)? else {
            return Ok(false);
        };
        let lines = Both {
            old: later(self.old.lines_of(old.range), change.line),
            new: later(self.new.lines_of(new.range), change.line),
        };
        self.add_change(word_of(new), change, lines)?;
        Ok(true)
    }

    /// Notes that a list became loose or tight, once for a tree.
    fn add_spacing(&mut self, alone: Alone, mark: &Mark) -> Result<(), AllocError> {
        if self.has_spacing {
            return Ok(());
        }
        self.has_spacing = true;
        let lines = self.text_of(alone.side).lines_of(mark.range);
        let other = (alone.line, alone.line);
        let (was, is, old, new) = match alone.side {
            Side::Old => ("loose", "tight", lines, other),
            Side::New => ("tight", "loose", other, lines),
        };
        self.all.push(Difference {
            kind: Kind::Structure,
            what: "list",
            before: self.before,
            old,
            new,
            was: String::from_str(self.alloc, was)?,
            is: String::from_str(self.alloc, is)?,
        })?;
        Ok(())
    }

    /// Whether a paragraph is only there because its list is loose: the other text has its words, or some in their place.
    fn is_spacing(&self, alone: Alone, mark: &Mark, is_whole: bool) -> bool {
        let text = self.text_of(alone.side);
        is_paragraph(mark)
            && mark.number > 0
            && begins_item(text.mark(mark.number.saturating_sub(1)))
            && (alone.has_words || !is_whole)
    }

    /// Notes what begins with an event that only one of the texts has, and says whether that is a whole thing, with its words.
    fn add_event(&mut self, alone: Alone, mark: &Mark, is_whole: bool) -> Result<bool, AllocError> {
        match &mark.event {
            Event::Start(_) if self.is_spacing(alone, mark, is_whole) => {
                self.add_spacing(alone, mark)?;
                Ok(false)
            }
            Event::Start(_) => {
                self.add_thing(alone, mark)?;
                Ok(is_whole)
            }
            Event::Text(_) => Ok(false),
            Event::End(_) => Ok(false),
            _ => {
                self.add_thing(alone, mark)?;
                Ok(false)
            }
        }
    }

    /// Notes things that only one of the texts has. What is left are words, which it returns.
    fn add_events(&mut self, alone: Alone, marks: &[Mark]) -> Result<Outside, AllocError> {
        let mut outside = Outside::new(self.alloc);
        let (mut from, end) = (0usize, marks.last().map_or(0, |last| last.number));
        for mark in marks {
            if mark.number < from {
                if leads(mark) {
                    self.add_thing(alone, mark)?;
                }
                continue;
            }
            let own_end = self.text_of(alone.side).end_of(mark);
            if self.add_event(alone, mark, own_end <= end)? {
                from = own_end.saturating_add(1);
            }
            outside.add(mark)?;
        }
        Ok(outside)
    }

    /// The line of the text in which so many bytes of words end; this line, if there are no words.
    fn line_at(&self, side: Side, outside: &Outside, bytes: usize, line: usize) -> usize {
        match outside.text_at(bytes) {
            Some(number) => self.text_of(side).lines_at(number).0,
            None => line,
        }
    }

    /// What the texts outside are, and what kind of difference that is.
    fn kind_of(&self, side: Side, outside: &Outside) -> (Kind, &'static str) {
        let Some(number) = outside.text_at(0) else {
            return (Kind::Text, "text");
        };
        let Some(mark) = self.text_of(side).mark(number) else {
            return (Kind::Text, "text");
        };
        let kind = match mark.within {
            Within::Prose => Kind::Text,
            Within::Code => Kind::Code,
            Within::Metadata => Kind::FrontMatter,
        };
        (kind, word_of(mark))
    }

    /// Notes which words differ outside of what is noted as a whole.
    fn add_words(
        &mut self,
        old: (Alone, &Outside),
        new: (Alone, &Outside),
    ) -> Result<(), AllocError> {
        let (was, is) = (old.1.words.as_str(), new.1.words.as_str());
        let front = common_front(was, is);
        let old_line = self.line_at(Side::Old, old.1, front, new.0.line);
        let new_line = self.line_at(Side::New, new.1, front, old.0.line);
        let (was, is) = differing(was.trim(), is.trim());
        let (kind, what) = if is.is_empty() {
            self.kind_of(Side::Old, old.1)
        } else {
            self.kind_of(Side::New, new.1)
        };
        let change = Change {
            kind,
            was: String::from_str(self.alloc, was.trim())?,
            is: String::from_str(self.alloc, is.trim())?,
            line: 0,
        };
        let lines = Both {
            old: (old_line, old_line),
            new: (new_line, new_line),
        };
        self.add_change(what, change, lines)
    }

    /// Notes what differs between events that aren't of the same kinds one by one. Words that both sides have are no difference.
    pub fn add_unlike(&mut self, old: &[Mark], new: &[Mark]) -> Result<(), AllocError> {
        let removed = Alone {
            side: Side::Old,
            line: self.new.lines_at(self.before.1).0,
            has_words: begins_text(new),
        };
        let added = Alone {
            side: Side::New,
            line: self.old.lines_at(self.before.0).0,
            has_words: begins_text(old),
        };
        let was = self.add_events(removed, old)?;
        let is = self.add_events(added, new)?;
        let all = (words_in(self.alloc, old)?, words_in(self.alloc, new)?);
        if are_alike(self.alloc, all.0.as_str(), all.1.as_str())?
            || are_alike(self.alloc, was.words.as_str(), is.words.as_str())?
        {
            return Ok(());
        }
        self.add_words((removed, &was), (added, &is))
    }

    /// Notes an event of either text that has another one of the same kind in its place.
    pub fn add_like(&mut self, old: &Mark, new: &Mark) -> Result<(), AllocError> {
        if old.key.as_bytes() == new.key.as_bytes() || self.add_pair(old, new)? {
            return Ok(());
        }
        self.add_unlike(std::slice::from_ref(old), std::slice::from_ref(new))
    }
}
