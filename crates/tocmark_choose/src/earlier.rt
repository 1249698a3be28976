//! What earlier units leave to the reading of a unit, and whether a unit is read back after them.

ghost use Rattle.std.specs.Prelude.{◌≡◌, ◌∷◌, [], bytes_eq, string_bytes, IfOk, IfSome, OnOk, map, is_some};
ghost use Rattle.std.specs.List.{list_any};
ghost use Rattle.tocmark_spelling.specs.Plan.{Setting};
ghost use Rattle.tocmark_write_renderer.specs.JobOf.{manner_view};
ghost use Rattle.tocmark_write_renderer.specs.WriterOf.{page_of, site_of};
ghost use Rattle.tocmark_write_labels.specs.Document.{first_document};
ghost use Rattle.tocmark_choose.specs.ReadsBack.{flags_at, whole_text};
ghost use Rattle.tocmark_choose.specs.TrialOf.{AreRefused, IsFront, IsLow, IsReady, Knows, TriesIn, asked_of, earlier_view, read_of, reads_back_in};

use crate::read_back::{ReadBack, behind_definitions, find};
use crate::trial::{Refused, Trial, write};
use std::alloc::AllocError;
use tocmark_event::event::ParserOptions;
use tocmark_event::options::Error;
use tocmark_event::reader::Reader;
use tocmark_write_labels::definitions::definitions_text;
use tocmark_write_labels::labels::Labels;
use tocmark_write_labels::taken::Taken;
use tocmark_write_renderer::job::Manner;
use tocmark_write_renderer::renderer::Renderer;

/// The flags of both kinds of metadata blocks, which are only at a document's beginning.
const METADATA_BLOCKS: ParserOptions = ParserOptions(
    ParserOptions::ENABLE_YAML_STYLE_METADATA_BLOCKS.0
        | ParserOptions::ENABLE_PLUSES_DELIMITED_METADATA_BLOCKS.0,
);

/// What earlier units leave to the reading of a unit.
#[derive(Clone, Copy)]
pub struct Earlier<'d> {
    /// The labels that they define.
    pub known: &'d Labels,
    /// Whether a unit was written.
    pub flushed: bool,
}

/// The flags under which a unit is read, for events of a parser with these flags: `flushed` says
/// whether a unit was written before.
pub fn reading_flags(flags: ParserOptions, flushed: bool) -> ParserOptions
    ensures { (s : Setting) → s.flags ≡ flags
        → result ≡ flags_at s (record first_document { flushed = flushed }) }
{
    if flushed {
        ParserOptions(flags.0 & !METADATA_BLOCKS.0)
    } else {
        flags
    }
}

/// Whether a text was refused. Where none was, none is hashed.
fn was_refused(refused: &Refused, text: &str) -> bool
    ensures { result ≡ list_any (λ t. bytes_eq text.now (string_bytes t)) refused.now.keys }
{
    if refused.is_empty() {
        return false;
    }
    refused.contains(text)
}

impl Earlier<'_> {
    /// Whether the reader finds a trial's unit in a text that begins with its definitions. A text that was
    /// refused isn't read again, and one that is refused now is noted. It fails if memory runs out, here or
    /// in the reader.
    fn find_in<R: Reader>(
        &self,
        trial: &Trial<'_, '_, R>,
        refused: &mut Refused,
        text: &str,
    ) -> Result<bool, AllocError>
        requires ready { IsReady R.reading trial.now }
        requires refused { let q = asked_of R.reading trial.now in
            AreRefused q (earlier_view self.now) refused.old }
        ensures read { let q = asked_of R.reading trial.now in
            IfOk result (λ found. found ≡ reads_back_in q (earlier_view self.now) text.now) }
        ensures refused { let q = asked_of R.reading trial.now in
            OnOk result (AreRefused q (earlier_view self.now) refused.new) }
    {
        if was_refused(refused, text) {
            return Ok(false);
        }
        let taken = Taken {
            known: self.known,
            reserved: trial.label,
        };
        let flags = reading_flags(trial.flags, self.flushed);
        let unit = trial.unit.events();
        let found = find(
            trial.tools.alloc,
            trial.tools.reader,
            flags,
            taken,
            unit,
            text,
        )?;
        if !found {
            refused.insert(String::from_str(trial.tools.alloc, text)?)?;
        }
        Ok(found)
    }

    /// What the reader finds in a text after the definitions that are before it.
    fn find_behind<R: Reader>(
        &self,
        trial: &Trial<'_, '_, R>,
        refused: &mut Refused,
        definitions: &str,
        text: &str,
    ) -> Result<bool, AllocError>
        requires ready { IsReady R.reading trial.now }
        requires refused { let q = asked_of R.reading trial.now in
            AreRefused q (earlier_view self.now) refused.old }
        ensures read { let q = asked_of R.reading trial.now in
            let whole = whole_text definitions.now text.now in
            IfOk result (λ found. found ≡ reads_back_in q (earlier_view self.now) whole) }
        ensures refused { let q = asked_of R.reading trial.now in
            OnOk result (AreRefused q (earlier_view self.now) refused.new) }
    {
        if definitions.is_empty() {
            return self.find_in(trial, refused, text);
        }
        let whole = behind_definitions(trial.tools.alloc, definitions, text)?;
        self.find_in(trial, refused, whole.as_str())
    }

    /// What is known of what the renderer has written of a trial's unit, if the reader finds the unit
    /// in that, as `find_in` says.
    fn find_written<R: Reader>(
        &self,
        trial: &Trial<'_, '_, R>,
        refused: &mut Refused,
        renderer: &Renderer<'_>,
    ) -> Result<Option<ReadBack>, AllocError>
        requires ready { IsReady R.reading trial.now }
        requires refused { let q = asked_of R.reading trial.now in
            AreRefused q (earlier_view self.now) refused.old }
        ensures read { let q = asked_of R.reading trial.now in
            let text = read_of (page_of renderer.now) in
            IfOk result (λ found. is_some found ≡ reads_back_in q (earlier_view self.now) text) }
        ensures known { Knows renderer.now result }
        ensures refused { let q = asked_of R.reading trial.now in
            OnOk result (AreRefused q (earlier_view self.now) refused.new) }
    {
        let (references, newlines) = (renderer.references(), renderer.newlines());
        let definitions = definitions_text(trial.tools.alloc, references, newlines)?;
        if self.find_behind(trial, refused, definitions.as_str(), renderer.text())? {
            Ok(Some(ReadBack { definitions }))
        } else {
            Ok(None)
        }
    }

    /// Writes the unit of a trial in one manner, after a mark, and says what is known of that if the
    /// reader finds the unit in it. Where it doesn't, the renderer has gone back, and the text is one of
    /// those that were refused; it has gone back at an `Err`, too, which is as in `choose`.
    pub(crate) fn try_one<'t, R: Reader>(
        &self,
        trial: &Trial<'t, '_, R>,
        renderer: &mut Renderer<'t>,
        refused: &mut Refused,
        manner: &Manner<'_>,
    ) -> Result<Option<ReadBack>, Error>
        requires ready { IsReady R.reading trial.now }
        requires low { IsLow (manner_view manner.now) }
        requires refused { let q = asked_of R.reading trial.now in
            AreRefused q (earlier_view self.now) refused.old }
        requires front { IsFront (site_of renderer.old) }
        ensures tried { TriesIn R.reading trial.now self.now renderer.old renderer.new
            (manner_view manner.now ∷ []) result }
        ensures known { Knows renderer.new result }
        ensures refused { let q = asked_of R.reading trial.now in
            OnOk result (AreRefused q (earlier_view self.now) refused.new) }
    {
        write(trial, renderer, manner)?;
        match self.find_written(trial, refused, renderer) {
            Ok(Some(known)) => Ok(Some(known)),
            Ok(None) => {
                renderer.back();
                Ok(None)
            }
            Err(_error) => {
                renderer.back();
                Err(Error::OutOfMemory)
            }
        }
    }
}
