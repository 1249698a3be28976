//! The search for a spelling that is read back.

ghost use Rattle.std.specs.Prelude.{◌≡◌, ◌&&◌, false, flat_map, map, true, OnOk};
ghost use Rattle.std.specs.List.{AllByRecursion};
ghost use Rattle.tocmark_write_renderer.specs.JobOf.{manner_view};
ghost use Rattle.tocmark_write_renderer.specs.WriterOf.{site_of};
ghost use Rattle.tocmark_choose.specs.Alike.{AreAlike};
ghost use Rattle.tocmark_choose.specs.declared.alike.Place.TheVariants.{Front};
ghost use Rattle.tocmark_choose.specs.Candidates.{delimiter_manners, escaped_manners, fallback_manners, fallbacks};
ghost use Rattle.tocmark_choose.specs.Choice.{has_standard_markers};
ghost use Rattle.tocmark_choose.specs.Tries.{if_source, manners_for};
ghost use Rattle.tocmark_choose.specs.TrialOf.{AreRefused, Chooses, Finds, IsFront, IsLow, IsReady, Knows, TriesIn, asked_of, earlier_view, events_in, is_checked_in, options_in};
ghost use Rattle.tocmark_choose.specs.Validates.{validates};

use crate::alike::are_alike;
use crate::earlier::Earlier;
use crate::manners::{
    fallback_plans, has_standard_markers, preferred_manner, run_manners, source_manners,
    with_all_markers,
};
use crate::read_back::ReadBack;
use crate::trial::{Refused, Trial, write};
use indexmap::IndexSet;
use tocmark_event::options::Error;
use tocmark_event::reader::Reader;
use tocmark_write_renderer::job::Manner;
use tocmark_write_renderer::renderer::Renderer;

/// The trial of a unit, and what earlier units leave to its reading.
#[derive(Drop)]
pub struct Search<'s, 'e, 't, 'o, R> {
    pub trial: &'s Trial<'t, 'o, R>,
    pub earlier: Earlier<'e>,
}

impl<'t, R: Reader> Search<'_, '_, 't, '_, R> {
    /// Whether the unit is written only as it is read back: one with delimiters, and where the options ask
    /// for it each that has an event.
    fn is_checked(&self) -> bool
        ensures { result ≡ is_checked_in self.now.trial.now }
    {
        let trial = self.trial;
        let has_delimiters = trial.found.census.delimiters;
        has_delimiters || (trial.tools.options.check_plain_blocks && !trial.unit.is_empty())
    }

    /// Whether the unit is spelled alike from the source and escaped, and isn't checked, so that nothing
    /// rests on what the reader finds.
    fn is_alike(&self) -> bool
        ensures { let t = self.now.trial.now in
            result ≡ true → (is_checked_in t ≡ false) × AreAlike false Front (events_in t) }
    {
        if self.is_checked() {
            return false;
        }
        are_alike(self.trial.unit.events())
    }

    /// Whether the unit can't be represented where no spelling is read back: it is checked, and its options
    /// are accepted with the flags.
    fn is_strict(&self) -> bool
        ensures { let t = self.now.trial.now in
            result ≡ (is_checked_in t && validates (options_in t) t.flags) }
    {
        self.is_checked() && self.trial.tools.options.validate(self.trial.flags).is_ok()
    }

    /// Tries manners in order, up to the first in which the unit reads back. The renderer has then written
    /// the unit, after a mark, and the answer is what is known of it. If no manner reads back, or at an
    /// `Err`, the renderer goes back to the mark.
    fn try_all(
        &self,
        renderer: &mut Renderer<'t>,
        refused: &mut Refused,
        manners: &[Manner<'_>],
    ) -> Result<Option<ReadBack>, Error>
        requires ready { IsReady R.reading self.now.trial.now }
        requires low { AllByRecursion IsLow (map manner_view manners.now) }
        requires refused { let q = asked_of R.reading self.now.trial.now in
            AreRefused q (earlier_view self.now.earlier) refused.old }
        requires front { IsFront (site_of renderer.old) }
        ensures tried { let t = self.now.trial.now in
            TriesIn R.reading t self.now.earlier renderer.old renderer.new
            (map manner_view manners.now) result }
        ensures known { Knows renderer.new result }
        ensures refused { let q = asked_of R.reading self.now.trial.now in
            OnOk result (AreRefused q (earlier_view self.now.earlier) refused.new) }
    {
        for manner in manners {
            if let Some(known) = self.earlier.try_one(self.trial, renderer, refused, manner)? {
                return Ok(Some(known));
            }
        }
        Ok(None)
    }

    /// Tries the manners from the source, if some text of the unit is known there, as `try_all` does.
    fn try_source(
        &self,
        renderer: &mut Renderer<'t>,
        refused: &mut Refused,
    ) -> Result<Option<ReadBack>, Error>
        requires ready { IsReady R.reading self.now.trial.now }
        requires standard { has_standard_markers (options_in self.now.trial.now) ≡ true }
        requires refused { let q = asked_of R.reading self.now.trial.now in
            AreRefused q (earlier_view self.now.earlier) refused.old }
        requires front { IsFront (site_of renderer.old) }
        ensures tried { let t = self.now.trial.now in
            TriesIn R.reading t self.now.earlier renderer.old renderer.new
            (if_source t.found.now.census.sourced (options_in t)
            t.found.now.census.delimiters) result }
        ensures known { Knows renderer.new result }
        ensures refused { let q = asked_of R.reading self.now.trial.now in
            OnOk result (AreRefused q (earlier_view self.now.earlier) refused.new) }
    {
        let census = self.trial.found.census;
        let has_source = census.sourced;
        if !has_source {
            return Ok(None);
        }
        let has_delimiters = census.delimiters;
        let options = &self.trial.tools.options;
        if has_delimiters {
            let manners = source_manners(options);
            self.try_all(renderer, refused, &manners)
        } else {
            let manners = [preferred_manner(options, true)];
            self.try_all(renderer, refused, &manners)
        }
    }

    /// Tries each fallback with all markers, as `try_all` does. No more than four manners are made at a
    /// time.
    fn try_fallbacks(
        &self,
        renderer: &mut Renderer<'t>,
        refused: &mut Refused,
    ) -> Result<Option<ReadBack>, Error>
        requires ready { IsReady R.reading self.now.trial.now }
        requires refused { let q = asked_of R.reading self.now.trial.now in
            AreRefused q (earlier_view self.now.earlier) refused.old }
        requires front { IsFront (site_of renderer.old) }
        ensures tried { let t = self.now.trial.now in
            TriesIn R.reading t self.now.earlier renderer.old renderer.new
            (flat_map fallback_manners fallbacks) result }
        ensures known { Knows renderer.new result }
    {
        for plan in fallback_plans() {
            let manners = with_all_markers(plan);
            if let Some(known) = self.try_all(renderer, refused, &manners)? {
                return Ok(Some(known));
            }
        }
        Ok(None)
    }

    /// Tries the manners of a unit with delimiters, as `try_all` does: the fallbacks where none of the
    /// others is read back.
    fn try_delimiters(
        &self,
        renderer: &mut Renderer<'t>,
        refused: &mut Refused,
    ) -> Result<Option<ReadBack>, Error>
        requires ready { IsReady R.reading self.now.trial.now }
        requires standard { has_standard_markers (options_in self.now.trial.now) ≡ true }
        requires refused { let q = asked_of R.reading self.now.trial.now in
            AreRefused q (earlier_view self.now.earlier) refused.old }
        requires front { IsFront (site_of renderer.old) }
        ensures tried { let t = self.now.trial.now in
            TriesIn R.reading t self.now.earlier renderer.old renderer.new
            (delimiter_manners (options_in t)) result }
        ensures known { Knows renderer.new result }
    {
        let manners = run_manners(&self.trial.tools.options);
        if let Some(known) = self.try_all(renderer, refused, &manners)? {
            return Ok(Some(known));
        }
        self.try_fallbacks(renderer, refused)
    }

    /// Tries the manners of a unit whose texts are escaped, if it has some, as `try_all` does: those of a
    /// unit with delimiters, or the preferred one of any other that is checked.
    fn try_escaped(
        &self,
        renderer: &mut Renderer<'t>,
        refused: &mut Refused,
    ) -> Result<Option<ReadBack>, Error>
        requires ready { IsReady R.reading self.now.trial.now }
        requires standard { has_standard_markers (options_in self.now.trial.now) ≡ true }
        requires refused { let q = asked_of R.reading self.now.trial.now in
            AreRefused q (earlier_view self.now.earlier) refused.old }
        requires front { IsFront (site_of renderer.old) }
        ensures tried { let t = self.now.trial.now in
            TriesIn R.reading t self.now.earlier renderer.old renderer.new
            (escaped_manners (options_in t) t.found.now.census.delimiters
            (is_checked_in t)) result }
        ensures known { Knows renderer.new result }
    {
        let has_delimiters = self.trial.found.census.delimiters;
        if has_delimiters {
            return self.try_delimiters(renderer, refused);
        }
        let is_checked = self.is_checked();
        if !is_checked {
            return Ok(None);
        }
        let manners = [preferred_manner(&self.trial.tools.options, false)];
        self.try_all(renderer, refused, &manners)
    }

    /// Tries all candidates of the unit, if it has some, as `try_all` does: first those from the source.
    fn try_candidates(&self, renderer: &mut Renderer<'t>) -> Result<Option<ReadBack>, Error>
        requires ready { IsReady R.reading self.now.trial.now }
        requires standard { has_standard_markers (options_in self.now.trial.now) ≡ true }
        requires front { IsFront (site_of renderer.old) }
        ensures tried { let t = self.now.trial.now in
            TriesIn R.reading t self.now.earlier renderer.old renderer.new
            (manners_for (options_in t) t.found.now.census.sourced
            t.found.now.census.delimiters (is_checked_in t)) result }
        ensures known { Knows renderer.new result }
    {
        let mut refused = IndexSet::new(self.trial.tools.alloc);
        if let Some(known) = self.try_source(renderer, &mut refused)? {
            return Ok(Some(known));
        }
        self.try_escaped(renderer, &mut refused)
    }

    /// Writes the unit in the first of its candidates that is read back, after a mark, and hands on what
    /// is known of that. `None` is for a unit that is written in the preferred spelling: the renderer
    /// is where it was. An `Err` is as in `choose`.
    fn find_candidate(&self, renderer: &mut Renderer<'t>) -> Result<Option<ReadBack>, Error>
        requires ready { IsReady R.reading self.now.trial.now }
        requires front { IsFront (site_of renderer.old) }
        ensures found { let t = self.now.trial.now in
            Finds R.reading t self.now.earlier renderer.old renderer.new result }
        ensures known { Knows renderer.new result }
    {
        if !has_standard_markers(&self.trial.tools.options) {
            return Ok(None);
        }
        let has_source = self.trial.found.census.sourced;
        if !has_source && !self.is_checked() {
            return Ok(None);
        }
        if self.is_alike() {
            return Ok(None);
        }
        if let Some(known) = self.try_candidates(renderer)? {
            return Ok(Some(known));
        }
        if self.is_strict() {
            return Err(Error::Unrepresentable);
        }
        Ok(None)
    }

    /// Writes the unit in the first of its candidates that is read back, after a mark, and hands on what
    /// is known of that.
    ///
    /// Where none is, a unit that isn't checked is written in the preferred spelling, as one is whose
    /// options aren't accepted; and one with other markers than Markdown's at once. A unit with delimiters
    /// is checked, and where the options ask for it each that has an event. An `Err` is `UnexpectedEvent`
    /// where a node of the unit is misplaced, `Unrepresentable` where no spelling of a unit that is checked
    /// is read back, and `OutOfMemory` where memory ran out or the reader answered it; the renderer has gone
    /// back then.
    pub fn choose(&self, renderer: &mut Renderer<'t>) -> Result<Option<ReadBack>, Error>
        requires ready { IsReady R.reading self.now.trial.now }
        requires front { IsFront (site_of renderer.old) }
        ensures chosen { let t = self.now.trial.now in
            Chooses R.reading t self.now.earlier renderer.old renderer.new result }
        ensures known { Knows renderer.new result }
    {
        if let Some(known) = self.find_candidate(renderer)? {
            return Ok(Some(known));
        }
        let manner = preferred_manner(&self.trial.tools.options, false);
        write(self.trial, renderer, &manner)?;
        Ok(None)
    }
}
