//! Brackets: links and images, and the labels that are looked up for them.

ghost use Rattle.std.specs.Prelude.{◌≡◌, OnOk};
ghost use Rattle.tocmark_read_spans.specs.Definitions.{entry_of};
ghost use Rattle.tocmark_read_inlines.specs.Scan.{scan, marked, opened, imaged, spanned, linked, closed_inline_in, missing, looked_up, closed_by_label, closed_by_name, closed_active_in, popped, closed_in};

use crate::scan::Scanner;
use crate::texts::empty;
use std::alloc::{AllocError, Global};
use tocmark_event::event::LinkType;
use tocmark_read_scan::basic::{bytes_between, set, starts_at};
use tocmark_read_scan::syntax::Names;
use tocmark_read_spans::definitions::Definitions;
use tocmark_read_spans::link::{Asked, Bracket, InlineTarget, inline_target, label_asked};
use tocmark_read_spans::role::{Role, Span, Target};
use tocmark_read_tokens::label::{collapsed, key_of};

/// What a closing bracket can end.
#[derive(Clone, Copy)]
pub(crate) struct Closing {
    /// The names of character references that are known in destinations and titles.
    pub names: Names,
    /// Whether its label may be one of a footnote.
    pub notes: bool,
}

impl Scanner {
    /// Marks the innermost bracket as one with another in it.
    #[tactic(auto, unfolding(crate::specs::Scan::marked))]
    fn mark(&mut self)
        ensures { scan self.new ≡ marked (scan self.old) }
    {
        match self.brackets.last().copied() {
            Some(bracket) => {
                let place = self.brackets.len().saturating_sub(1);
                set(
                    &mut self.brackets,
                    place,
                    Bracket {
                        nested: true,
                        ..bracket
                    },
                );
            }
            None => {}
        }
    }

    /// Reads an opening bracket of so many bytes.
    #[tactic(auto, unfolding(crate::specs::Scan::opened))]
    pub(crate) fn open(&mut self, image: bool, width: usize) -> Result<(), AllocError>
        ensures { OnOk result (scan self.new ≡ opened image width (scan self.old)) }
    {
        self.mark();
        let inner = self.place.saturating_add(width);
        self.brackets.push(Bracket {
            start: self.place,
            inner,
            runs: self.runs.len(),
            image,
            nested: false,
        })?;
        self.resume = inner;
        Ok(())
    }

    /// Reads an exclamation mark.
    #[tactic(auto, unfolding(crate::specs::Scan::imaged))]
    pub(crate) fn exclamation(&mut self, bytes: &[u8]) -> Result<(), AllocError>
        ensures { OnOk result (scan self.new ≡ imaged bytes.now (scan self.old)) }
    {
        if starts_at(bytes, self.place, b"![") {
            self.open(true, 2)
        } else {
            Ok(())
        }
    }

    /// Makes the text of a bracket that is closed at the place a link or an image up to an end.
    #[tactic(auto, unfolding(crate::specs::Scan::spanned))]
    fn span(&mut self, bracket: Bracket, number: usize, end: usize) -> Result<(), AllocError>
        ensures { OnOk result (scan self.new ≡ spanned bracket number end (scan self.old)) }
    {
        let span = if bracket.image {
            Span::Image(number)
        } else {
            Span::Link(number)
        };
        self.roles.put_behind(
            bracket.inner.saturating_sub(1),
            bracket.start,
            Role::Open(span, end),
        )?;
        self.roles.put(self.place, Role::Close(end))?;
        self.resume = end;
        Ok(())
    }

    /// Links the text of a bracket that is closed at the place. No link that is open now can be one.
    #[tactic(auto, unfolding(crate::specs::Scan::linked))]
    fn link(&mut self, bracket: Bracket, target: Target, end: usize) -> Result<(), AllocError>
        ensures { OnOk result (scan self.new ≡ linked bracket target end (scan self.old)) }
    {
        self.settle(bracket.runs)?;
        let number = self.keep_target(target)?;
        self.span(bracket, number, end)?;
        if !bracket.image {
            self.inactive = self.brackets.len();
        }
        Ok(())
    }

    /// Links the text of a bracket to a destination in parentheses.
    #[tactic(auto, unfolding(crate::specs::Scan::closed_inline_in))]
    fn close_inline(
        &mut self,
        alloc: Global,
        names: Names,
        bytes: &[u8],
        bracket: Bracket,
        found: InlineTarget,
    ) -> Result<(), AllocError>
        ensures { OnOk result (scan self.new
            ≡ closed_inline_in names bytes.now bracket found (scan self.old)) }
    {
        let destination = self.keep_resolved(
            alloc,
            names,
            bytes_between(bytes, found.destination.start, found.destination.end),
        )?;
        let title = self.keep_resolved(
            alloc,
            names,
            bytes_between(bytes, found.title.start, found.title.end),
        )?;
        let target = Target {
            link_type: LinkType::Inline,
            destination,
            title,
            id: empty(),
        };
        self.link(bracket, target, found.end)
    }

    /// Takes note of a label that isn't defined.
    #[tactic(auto, unfolding(crate::specs::Scan::missing))]
    fn miss(&mut self, alloc: Global, label: &[u8]) -> Result<(), AllocError>
        ensures { OnOk result (scan self.new ≡ missing label.now (scan self.old)) }
    {
        let text = collapsed(alloc, label)?;
        let stretch = self.keep(&text)?;
        self.missed.push(stretch)?;
        Ok(())
    }

    /// Links the text of a bracket to what a label is defined as.
    #[tactic(auto, unfolding(crate::specs::Scan::looked_up))]
    pub(crate) fn look_up(
        &mut self,
        alloc: Global,
        bytes: &[u8],
        definitions: &Definitions,
        bracket: Bracket,
        asked: Asked,
    ) -> Result<(), AllocError>
        ensures { OnOk result (scan self.new
            ≡ looked_up bytes.now (entry_of definitions.now) bracket asked (scan self.old)) }
    {
        let label = bytes_between(bytes, asked.label.start, asked.label.end);
        let key = key_of(alloc, label)?;
        match definitions.find(key.as_str()) {
            Some(entry) => {
                let id = self.keep(label)?;
                let target = Target {
                    link_type: asked.link_type,
                    destination: entry.destination,
                    title: entry.title,
                    id,
                };
                self.link(bracket, target, asked.end)
            }
            None => self.miss(alloc, label),
        }
    }

    /// Closes a bracket that no parentheses follow.
    #[tactic(auto, unfolding(crate::specs::Scan::closed_by_label))]
    fn close_by_label(
        &mut self,
        alloc: Global,
        bytes: &[u8],
        definitions: &Definitions,
        bracket: Bracket,
    ) -> Result<(), AllocError>
        ensures { OnOk result (scan self.new
            ≡ closed_by_label bytes.now (entry_of definitions.now) bracket (scan self.old)) }
    {
        match label_asked(bytes, bracket, self.place) {
            Some(asked) => self.look_up(alloc, bytes, definitions, bracket, asked),
            None => Ok(()),
        }
    }

    /// Closes a bracket that no parentheses follow, by a label.
    fn close_by_name(
        &mut self,
        alloc: Global,
        notes: bool,
        bytes: &[u8],
        definitions: &Definitions,
        bracket: Bracket,
    ) -> Result<(), AllocError>
        ensures { OnOk result (scan self.new
            ≡ closed_by_name notes bytes.now (entry_of definitions.now) bracket (scan self.old)) }
    {
        if notes {
            self.close_by_sought(alloc, bytes, definitions, bracket)
        } else {
            self.close_by_label(alloc, bytes, definitions, bracket)
        }
    }

    /// Closes a bracket that can begin a link or an image, or a reference to a footnote where these are read.
    #[tactic(auto, unfolding(crate::specs::Scan::closed_active_in))]
    fn close_active(
        &mut self,
        alloc: Global,
        closing: Closing,
        bytes: &[u8],
        definitions: &Definitions,
        bracket: Bracket,
    ) -> Result<(), AllocError>
        ensures { OnOk result (scan self.new
            ≡ closed_active_in closing.names closing.notes bytes.now (entry_of definitions.now)
            bracket (scan self.old)) }
    {
        match inline_target(bytes, self.place.saturating_add(1)) {
            Some(found) => self.close_inline(alloc, closing.names, bytes, bracket, found),
            None => self.close_by_name(alloc, closing.notes, bytes, definitions, bracket),
        }
    }

    /// Takes the innermost bracket away, and says whether it can begin a link or an image.
    #[tactic(auto, unfolding(crate::specs::Scan::popped))]
    fn pop(&mut self, bracket: Bracket) -> bool
        ensures { (scan self.new, result) ≡ popped bracket (scan self.old) }
    {
        let height = self.brackets.len().saturating_sub(1);
        let active = bracket.image || self.inactive <= height;
        self.brackets.truncate(height);
        self.inactive = self.inactive.min(height);
        active
    }

    /// Reads a closing bracket.
    #[tactic(auto, unfolding(crate::specs::Scan::closed_in))]
    pub(crate) fn close(
        &mut self,
        alloc: Global,
        closing: Closing,
        bytes: &[u8],
        definitions: &Definitions,
    ) -> Result<(), AllocError>
        ensures { OnOk result (scan self.new
            ≡ closed_in closing.names closing.notes bytes.now (entry_of definitions.now)
            (scan self.old)) }
    {
        match self.brackets.last().copied() {
            Some(bracket) => {
                if self.pop(bracket) {
                    self.close_active(alloc, closing, bytes, definitions, bracket)
                } else {
                    Ok(())
                }
            }
            None => Ok(()),
        }
    }
}
