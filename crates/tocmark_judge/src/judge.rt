//! Whether a reader finds the same in two texts.

ghost use Rattle.std.specs.Prelude.{◌≡◌, IfOk, IsTrue, map};
ghost use Rattle.tocmark_compare.specs.Given.{found_events};
ghost use Rattle.tocmark_event.specs.declared.event.flags.ParserOptions.{ParserOptions};
ghost use Rattle.tocmark_judge.specs.Alike.{AreAlike};
ghost use Rattle.tocmark_judge.specs.LinkDefinitions.{link_defined};
ghost use Rattle.tocmark_judge.specs.Shape.{HaveSameShapes, has_same_shape, Outlines};
ghost use Rattle.tocmark_judge.specs.Summaries.{Sums};

use crate::letters::have_same_letters;
use crate::mark::have_same_mark;
use crate::parts::PartReader;
use crate::shape::Outline;
use crate::summary::{Summary, same_definitions};
use std::alloc::{AllocError, Global};
use tocmark_event::event::ParserOptions;
use tocmark_reader::ReferenceDefinition;

/// Compares texts by what a reader finds in them.
#[derive(Clone, Copy)]
pub struct Judge<'j, R> {
    pub alloc: Global,
    pub reader: &'j R,
    pub flags: ParserOptions,
    /// Whether white space is folded: a soft break counts as a blank, and so does each run of white space in a text.
    pub folds: bool,
    /// Under these flags two texts must have the same blocks, too.
    pub also: &'j [ParserOptions],
}

/// What a reader finds in a text: what it says, and the links that it defines.
#[derive(Drop)]
pub struct Found {
    pub says: Summary,
    pub definitions: Vec<ReferenceDefinition>,
}

/// Whether two texts have the same bytes.
pub fn is_same_text(one: &str, other: &str) -> bool
    ensures { IsTrue result → one.now ≡ other.now }
{
    one == other
}

impl<R: PartReader> Judge<'_, R> {
    /// What the reader finds in a text. It fails if memory runs out.
    pub fn found_in(&self, text: &str) -> Result<Found, AllocError>
        ensures says { IfOk result (λ found. Sums found.says
            (found_events (R.reading self.now.reader.now text.now self.now.flags))) }
        ensures definitions { IfOk result (λ found. map link_defined found.definitions.items
            ≡ R.definitions self.now.reader.now text.now self.now.flags) }
    {
        let mut says = Summary::new(self.alloc, self.folds);
        let definitions = self
            .reader
            .read_parts(self.alloc, text, self.flags, &mut says)?;
        Ok(Found { says, definitions })
    }

    /// Which blocks the reader finds in a text under other flags. It fails if memory runs out.
    pub fn outline_of(&self, text: &str, flags: ParserOptions) -> Result<Outline, AllocError>
        ensures { IfOk result (λ outline. Outlines outline
            (found_events (R.reading self.now.reader.now text.now flags))) }
    {
        let mut outline = Outline::new(self.alloc);
        self.reader
            .read_parts(self.alloc, text, flags, &mut outline)?;
        Ok(outline)
    }

    /// Whether two texts have the same blocks under other flags.
    fn have_same_shape(
        &self,
        one: &str,
        other: &str,
        flags: ParserOptions,
    ) -> Result<bool, AllocError>
        ensures { IfOk result (λ same. IsTrue same → has_same_shape
            (R.reading self.now.reader.now one.now flags)
            (R.reading self.now.reader.now other.now flags)) }
    {
        let first = self.outline_of(one, flags)?;
        let second = self.outline_of(other, flags)?;
        Ok(first.is_same(&second))
    }

    /// Whether two texts have the same blocks under all other flags that are asked for.
    fn have_same_shapes(&self, one: &str, other: &str) -> Result<bool, AllocError>
        ensures { IfOk result (λ same. IsTrue same → HaveSameShapes
            (R.reading self.now.reader.now) self.now.also.now one.now other.now) }
    {
        for flags in self.also {
            if !self.have_same_shape(one, other, *flags)? {
                return Ok(false);
            }
        }
        Ok(true)
    }

    /// Whether two texts are alike, if the reader has found this in each. It fails if memory runs out.
    pub fn finds_the_same(
        &self,
        one: &str,
        first: &Found,
        other: &str,
        second: &Found,
    ) -> Result<bool, AllocError>
        ensures { IfOk result (λ same. IsTrue same
            → Sums first.now.says (found_events
            (R.reading self.now.reader.now one.now self.now.flags))
            → map link_defined first.now.definitions.items
            ≡ R.definitions self.now.reader.now one.now self.now.flags
            → Sums second.now.says (found_events
            (R.reading self.now.reader.now other.now self.now.flags))
            → map link_defined second.now.definitions.items
            ≡ R.definitions self.now.reader.now other.now self.now.flags
            → AreAlike self.now.folds self.now.flags self.now.also.now
            (R.reading self.now.reader.now) (R.definitions self.now.reader.now)
            one.now other.now) }
    {
        if first.says.is_same(&second.says, self.folds)
            && same_definitions(&first.definitions, &second.definitions)
            && have_same_mark(one, other)
            && have_same_letters(one, other)
        {
            self.have_same_shapes(one, other)
        } else {
            Ok(false)
        }
    }

    /// Whether the reader finds the same in two texts. It fails if memory runs out.
    pub fn are_alike(&self, one: &str, other: &str) -> Result<bool, AllocError>
        ensures { IfOk result (λ same. IsTrue same → AreAlike
            self.now.folds self.now.flags self.now.also.now
            (R.reading self.now.reader.now) (R.definitions self.now.reader.now) one.now other.now) }
    {
        if is_same_text(one, other) {
            return Ok(true);
        }
        let first = self.found_in(one)?;
        let second = self.found_in(other)?;
        self.finds_the_same(one, &first, other, &second)
    }
}
