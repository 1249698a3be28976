//! Inlines without children: escapes, character references, code spans, mathematics and line endings.

ghost use Rattle.std.specs.Prelude.{◌≡◌, OnOk, length};
ghost use Rattle.tocmark_read_scan.specs.Repeat.{iterated};
ghost use Rattle.tocmark_read_inlines.specs.Scan.{scan, before_space, put_leaf, escaped, referred, name_put, named_taken, code_put, coded, math_put, math_taken, line_ended};

use crate::scan::Scanner;
use std::alloc::AllocError;
use tocmark_read_scan::basic::{byte_at, bytes_between, starts_at};
use tocmark_read_scan::class::{Class, run_end};
use tocmark_read_scan::syntax::Names;
use tocmark_read_spans::math::{Math, math_at};
use tocmark_read_spans::role::{Leaf, Role};
use tocmark_read_spans::tick::tick_end;
use tocmark_read_tokens::name::{NamedReference, named_in};
use tocmark_read_tokens::reference::{is_escape, reference_at};

/// The place before, if a space is there.
#[tactic(auto, unfolding(crate::specs::Scan::before_space))]
fn before_space(bytes: &[u8], place: usize) -> Option<usize>
    ensures { result ≡ before_space bytes.now place }
{
    let goes_on = place > 0 && byte_at(bytes, place.saturating_sub(1)) == b' ';
    if goes_on {
        Some(place.saturating_sub(1))
    } else {
        None
    }
}

/// The place of the first of the spaces just before a place.
#[tactic(auto, using(tocmark_read_scan::proofs::Repeats::iterated_zero, tocmark_read_scan::proofs::Repeats::iterated_stop, tocmark_read_scan::proofs::Repeats::iterated_more))]
fn space_start(bytes: &[u8], end: usize) -> usize
    ensures { result ≡ iterated (before_space bytes.now) (length bytes.now) end }
{
    let mut place = end;
    for _steps_left in (0..bytes.len()).rev() {
        match before_space(bytes, place) {
            None => return place,
            Some(next) => place = next,
        }
    }
    place
}

impl Scanner {
    /// Puts a leaf at the place, up to an end.
    #[tactic(auto, unfolding(crate::specs::Scan::put_leaf))]
    pub(crate) fn put(&mut self, leaf: Leaf, end: usize) -> Result<(), AllocError>
        ensures { OnOk result (scan self.new ≡ put_leaf leaf end (scan self.old)) }
    {
        self.roles.put(self.place, Role::Single(leaf, end))?;
        self.resume = end;
        Ok(())
    }

    /// Reads a backslash.
    #[tactic(auto, unfolding(crate::specs::Scan::escaped))]
    pub(crate) fn escape(&mut self, bytes: &[u8]) -> Result<(), AllocError>
        ensures { OnOk result (scan self.new ≡ escaped bytes.now (scan self.old)) }
    {
        if is_escape(bytes, self.place) {
            self.roles.put(self.place, Role::Hidden)?;
            self.roles.put(self.place.saturating_add(1), Role::Fresh)?;
            self.resume = self.place.saturating_add(2);
            Ok(())
        } else if starts_at(bytes, self.place, b"\\\n") {
            self.put(Leaf::HardBreak, self.place.saturating_add(2))
        } else {
            Ok(())
        }
    }

    /// Reads an ampersand.
    #[tactic(auto, unfolding(crate::specs::Scan::referred))]
    pub(crate) fn reference(&mut self, bytes: &[u8]) -> Result<(), AllocError>
        ensures { OnOk result (scan self.new ≡ referred bytes.now (scan self.old)) }
    {
        match reference_at(bytes, self.place) {
            Some(found) => self.put(Leaf::Character(found.character), found.next),
            None => Ok(()),
        }
    }

    /// Puts the characters of a named reference.
    #[tactic(auto, unfolding(crate::specs::Scan::name_put))]
    fn put_name(&mut self, found: NamedReference) -> Result<(), AllocError>
        ensures { OnOk result (scan self.new
            ≡ name_put found.characters.now found.next (scan self.old)) }
    {
        let text = self.keep(found.characters)?;
        self.put(Leaf::Text(text), found.next)
    }

    /// Reads an ampersand where all names are known.
    #[tactic(auto, unfolding(crate::specs::Scan::named_taken))]
    pub(crate) fn name(&mut self, bytes: &[u8]) -> Result<(), AllocError>
        ensures { OnOk result (scan self.new ≡ named_taken bytes.now (scan self.old)) }
    {
        match named_in(Names::All, bytes, self.place) {
            Some(found) => self.put_name(found),
            None => self.reference(bytes),
        }
    }

    /// Puts the code span whose text is between two places, after so many backticks.
    #[tactic(auto, unfolding(crate::specs::Scan::code_put))]
    fn put_code(
        &mut self,
        bytes: &[u8],
        from: usize,
        to: usize,
        count: usize,
    ) -> Result<(), AllocError>
        ensures { OnOk result (scan self.new ≡ code_put bytes.now from to count (scan self.old)) }
    {
        let text = self.keep_code(bytes_between(bytes, from, to))?;
        self.put(Leaf::Code(text), to.saturating_add(count))
    }

    /// Reads backticks.
    #[tactic(auto, unfolding(crate::specs::Scan::coded))]
    pub(crate) fn code(&mut self, bytes: &[u8], ticks: &[usize]) -> Result<(), AllocError>
        ensures { OnOk result (scan self.new ≡ coded bytes.now ticks.now (scan self.old)) }
    {
        let from = run_end(bytes, self.place, Class::Only(b'`'));
        let count = from.saturating_sub(self.place);
        match tick_end(bytes, from, count, ticks) {
            Some(to) => self.put_code(bytes, from, to, count),
            None => {
                self.resume = from;
                Ok(())
            }
        }
    }

    /// Puts the mathematics that is found at the place.
    #[tactic(auto, unfolding(crate::specs::Scan::math_put))]
    fn put_math(&mut self, bytes: &[u8], found: Math) -> Result<(), AllocError>
        ensures { OnOk result (scan self.new ≡ math_put bytes.now found (scan self.old)) }
    {
        let text = self.keep(bytes_between(bytes, found.start, found.end))?;
        let leaf = if found.display {
            Leaf::DisplayMath(text)
        } else {
            Leaf::InlineMath(text)
        };
        self.put(leaf, found.next)
    }

    /// Reads a dollar sign.
    #[tactic(auto, unfolding(crate::specs::Scan::math_taken))]
    pub(crate) fn math(
        &mut self,
        bytes: &[u8],
        partners: &[Option<usize>],
    ) -> Result<(), AllocError>
        ensures { OnOk result (scan self.new
            ≡ math_taken bytes.now partners.now (scan self.old)) }
    {
        match math_at(bytes, partners, self.place) {
            Some(found) => self.put_math(bytes, found),
            None => Ok(()),
        }
    }

    /// Reads a line feed: two spaces before it make a hard break.
    #[tactic(auto, unfolding(crate::specs::Scan::line_ended))]
    pub(crate) fn end_line(&mut self, bytes: &[u8]) -> Result<(), AllocError>
        ensures { OnOk result (scan self.new ≡ line_ended bytes.now (scan self.old)) }
    {
        let first = space_start(bytes, self.place);
        let end = self.place.saturating_add(1);
        if self.place.saturating_sub(first) >= 2 {
            self.roles.put(first, Role::Single(Leaf::HardBreak, end))
        } else {
            self.roles
                .put_behind(first, self.place, Role::Single(Leaf::SoftBreak, end))
        }
    }
}
