//! The first pass over a leaf's text: what each byte is.

ghost use Rattle.std.specs.Prelude.{◌≡◌, IfOk, OnOk};
ghost use Rattle.tocmark_read_spans.specs.Definitions.{entry_of};
ghost use Rattle.tocmark_read_inlines.specs.Scan.{scan, ahead_view, looked_mark, looked, looked_all, looked_by, with_place, looked_in, scan_step_in, ran_in, scanned_in, scan_step, ran};

use crate::ahead::KnownAhead;
use crate::brackets::Closing;
use crate::marks::{
    extends_inlines, is_caret_in, is_dollar_in, is_mark, is_mark_in, is_note_end_in, is_tilde_in,
    skip_quiet,
};
use std::alloc::{AllocError, Global};
use tocmark_read_scan::syntax::{Names, Syntax};
use tocmark_read_spans::definitions::Definitions;
use tocmark_read_spans::link::Bracket;
use tocmark_read_spans::role::{Roles, Stretch, Target};
use tocmark_read_spans::run::Run;

/// A leaf's text, what is known of it, what labels are defined as, and the extensions that are read.
#[derive(Clone, Copy)]
struct LeafText<'t, 'k, 'd> {
    syntax: Syntax,
    bytes: &'t [u8],
    ahead: &'k KnownAhead,
    definitions: &'d Definitions,
}

/// The pass at a place: the roles of the bytes before it, the runs and brackets that aren't matched,
/// and the texts that a document's inlines have beside its source.
#[derive(Drop)]
pub struct Scanner {
    pub roles: Roles,
    pub runs: Vec<Run>,
    pub brackets: Vec<Bracket>,
    /// Brackets of links below this height can't begin a link: there would be a link in it.
    pub inactive: usize,
    pub place: usize,
    /// The place from which bytes are read again.
    pub resume: usize,
    pub targets: Vec<Target>,
    pub texts: Vec<u8>,
    /// The labels that were looked up in vain.
    pub missed: Vec<Stretch>,
}

impl Scanner {
    /// Reads a byte that is no bracket.
    #[tactic(auto, unfolding(crate::specs::Scan::looked_mark))]
    fn look_mark(&mut self, bytes: &[u8], ticks: &[usize], byte: u8) -> Result<(), AllocError>
        ensures { OnOk result (scan self.new
            ≡ looked_mark bytes.now ticks.now byte (scan self.old)) }
    {
        if byte == b'\\' {
            self.escape(bytes)
        } else if byte == b'&' {
            self.reference(bytes)
        } else if byte == b'\n' {
            self.end_line(bytes)
        } else if byte == b'`' {
            self.code(bytes, ticks)
        } else if byte == b'*' || byte == b'_' {
            self.delimiters(bytes, byte)
        } else {
            Ok(())
        }
    }

    /// Reads the byte at the place.
    #[tactic(auto, unfolding(crate::specs::Scan::looked))]
    fn look(
        &mut self,
        alloc: Global,
        text: &LeafText<'_, '_, '_>,
        byte: u8,
    ) -> Result<(), AllocError>
        ensures { OnOk result (scan self.new
            ≡ looked text.now.bytes.now (ahead_view text.now.ahead.now)
            (entry_of text.now.definitions.now) byte (scan self.old)) }
    {
        if byte == b'[' {
            self.open(false, 1)
        } else if byte == b'!' {
            self.exclamation(text.bytes)
        } else if byte == b']' {
            let closing = Closing {
                names: Names::Four,
                notes: false,
            };
            self.close(alloc, closing, text.bytes, text.definitions)
        } else if byte == b'<' {
            self.angle(text.bytes, text.ahead.ends)
        } else {
            self.look_mark(text.bytes, &text.ahead.ticks, byte)
        }
    }

    /// Reads the byte at the place where all names are known: an ampersand, and a closing bracket, after
    /// which a destination and a title are.
    #[tactic(auto, unfolding(crate::specs::Scan::looked_all))]
    fn look_all(
        &mut self,
        alloc: Global,
        text: &LeafText<'_, '_, '_>,
        byte: u8,
    ) -> Result<(), AllocError>
        ensures { OnOk result (scan self.new
            ≡ looked_all text.now.bytes.now (ahead_view text.now.ahead.now)
            (entry_of text.now.definitions.now) byte (scan self.old)) }
    {
        if byte == b'&' {
            self.name(text.bytes)
        } else if byte == b']' {
            let closing = Closing {
                names: Names::All,
                notes: false,
            };
            self.close(alloc, closing, text.bytes, text.definitions)
        } else {
            self.look(alloc, text, byte)
        }
    }

    /// Reads the byte at the place, by the names that are known.
    fn look_by(
        &mut self,
        alloc: Global,
        text: &LeafText<'_, '_, '_>,
        byte: u8,
    ) -> Result<(), AllocError>
        ensures { OnOk result (scan self.new
            ≡ looked_by text.now.syntax.names text.now.bytes.now (ahead_view text.now.ahead.now)
            (entry_of text.now.definitions.now) byte (scan self.old)) }
    {
        match text.syntax.names {
            Names::Four => self.look(alloc, text, byte),
            Names::All => self.look_all(alloc, text, byte),
        }
    }

    /// Reads the byte at the place, in an extension or in CommonMark.
    #[tactic(auto, unfolding(crate::specs::Scan::looked_in))]
    fn look_in(
        &mut self,
        alloc: Global,
        text: &LeafText<'_, '_, '_>,
        byte: u8,
    ) -> Result<(), AllocError>
        ensures { OnOk result (scan self.new
            ≡ looked_in text.now.syntax text.now.bytes.now (ahead_view text.now.ahead.now)
            (entry_of text.now.definitions.now) byte (scan self.old)) }
    {
        if is_tilde_in(text.syntax, byte) {
            self.tildes(text.syntax, text.bytes)
        } else if is_caret_in(text.syntax, byte) {
            self.delimiters(text.bytes, byte)
        } else if is_dollar_in(text.syntax, byte) {
            self.math(text.bytes, &text.ahead.partners)
        } else if is_note_end_in(text.syntax, byte) {
            let closing = Closing {
                names: text.syntax.names,
                notes: true,
            };
            self.close(alloc, closing, text.bytes, text.definitions)
        } else if text.syntax.tables && byte == b'<' {
            self.angle_in(text.bytes, text.ahead.ends)
        } else {
            self.look_by(alloc, text, byte)
        }
    }

    /// One byte further, from a place that is kept apart; gives the next one.
    #[tactic(auto, unfolding(crate::specs::Scan::scan_step_in))]
    fn step(
        &mut self,
        alloc: Global,
        text: &LeafText<'_, '_, '_>,
        place: usize,
        byte: u8,
    ) -> Result<usize, AllocError>
        ensures { IfOk result (λ next.
            with_place next (scan self.new)
            ≡ scan_step_in text.now.syntax text.now.bytes.now (ahead_view text.now.ahead.now)
            (entry_of text.now.definitions.now) (with_place place (scan self.old)) byte) }
    {
        if !is_mark_in(text.syntax, byte) || place < self.resume {
            return Ok(place.saturating_add(1));
        }
        self.place = place;
        self.look_in(alloc, text, byte)?;
        Ok(self.place.saturating_add(1))
    }

    /// One byte of CommonMark further, from a place that is kept apart; gives the next one.
    #[tactic(auto, unfolding(crate::specs::Scan::scan_step_in, crate::specs::Scan::looked_in, crate::specs::Scan::is_mark_in, crate::specs::Scan::is_tilde_in, crate::specs::Scan::is_caret_in, crate::specs::Scan::is_dollar_in, crate::specs::Scan::is_note_end_in))]
    fn core_step(
        &mut self,
        alloc: Global,
        text: &LeafText<'_, '_, '_>,
        place: usize,
        byte: u8,
    ) -> Result<usize, AllocError>
        ensures { IfOk result (λ next.
            with_place next (scan self.new)
            ≡ scan_step text.now.bytes.now (ahead_view text.now.ahead.now)
            (entry_of text.now.definitions.now) (with_place place (scan self.old)) byte) }
    {
        if !is_mark(byte) || place < self.resume {
            return Ok(place.saturating_add(1));
        }
        self.place = place;
        self.look(alloc, text, byte)?;
        Ok(self.place.saturating_add(1))
    }

    /// Reads all bytes of a text, with what extensions have in it.
    fn run_with_extensions(
        &mut self,
        alloc: Global,
        text: &LeafText<'_, '_, '_>,
    ) -> Result<(), AllocError>
        ensures { OnOk result (scan self.new
            ≡ ran_in text.now.syntax text.now.bytes.now (ahead_view text.now.ahead.now)
            (entry_of text.now.definitions.now) (scan self.old)) }
    {
        let (mut place, mut left) = skip_quiet(text.bytes, self.place);
        while let Some((byte, behind)) = left.split_first() {
            let next = self.step(alloc, text, place, *byte)?;
            let (further, later) = skip_quiet(behind, next);
            place = further;
            left = later;
        }
        self.place = place;
        Ok(())
    }

    /// Reads all bytes of a text as CommonMark has them.
    fn run_core(&mut self, alloc: Global, text: &LeafText<'_, '_, '_>) -> Result<(), AllocError>
        ensures { OnOk result (scan self.new
            ≡ ran text.now.bytes.now (ahead_view text.now.ahead.now)
            (entry_of text.now.definitions.now) (scan self.old)) }
    {
        let (mut place, mut left) = skip_quiet(text.bytes, self.place);
        while let Some((byte, behind)) = left.split_first() {
            let next = self.core_step(alloc, text, place, *byte)?;
            let (further, later) = skip_quiet(behind, next);
            place = further;
            left = later;
        }
        self.place = place;
        Ok(())
    }

    /// Reads all bytes of a text. Whether some extension has a say in it is asked once.
    #[tactic(auto, using(crate::proofs::CoreRuns::ran_as_core))]
    fn run(&mut self, alloc: Global, text: &LeafText<'_, '_, '_>) -> Result<(), AllocError>
        ensures { OnOk result (scan self.new
            ≡ ran_in text.now.syntax text.now.bytes.now (ahead_view text.now.ahead.now)
            (entry_of text.now.definitions.now) (scan self.old)) }
    {
        if extends_inlines(text.syntax) {
            self.run_with_extensions(alloc, text)
        } else {
            self.run_core(alloc, text)
        }
    }

    /// Reads a text from its front, and gives each of its bytes a role.
    #[tactic(auto, unfolding(crate::specs::Scan::scanned_in))]
    pub fn read(
        &mut self,
        alloc: Global,
        syntax: Syntax,
        bytes: &[u8],
        definitions: &Definitions,
    ) -> Result<(), AllocError>
        ensures { OnOk result (scan self.new
            ≡ scanned_in syntax bytes.now (entry_of definitions.now) (scan self.old)) }
    {
        let ahead = KnownAhead::of(alloc, syntax, bytes)?;
        let text = LeafText {
            syntax,
            bytes,
            ahead: &ahead,
            definitions,
        };
        self.run(alloc, &text)?;
        self.settle(0)
    }
}
