//! Replaces a file's text by another one that says the same.

ghost use Rattle.std.specs.Prelude.{◌≡◌, IfOk, MatchOption, OnErr, OnOk, string_bytes};
ghost use Rattle.tocmark_files.specs.Replaced.{IsGiven, IsGivenNothing, steps_on};
ghost use Rattle.tocmark_format_program.specs.Formats.{IsFormattedBy, KeepsWhatItSays};

use crate::decide::{Decision, decided};
use crate::fault::Fault;
use crate::search::Target;
use crate::stream::{Passed, passed_by};
use crate::text::text_in;
use tocmark_event::reader::Reader;
use tocmark_files::place::OpenFile;
use tocmark_files::replace::{ReplaceError, Replacement};
use tocmark_judge::PartReader;

/// A decision that is carried out, and the reader of its texts.
#[derive(Drop)]
pub struct Change<'c, R> {
    pub reader: &'c R,
    pub decision: &'c Decision,
    /// Whether the new file is synced.
    pub syncs: bool,
}

/// Replaces a file's text by the new text of a decision, if there is one. Both say the same. After an `Err` the file is as it
/// was.
pub fn replace_text<R: Reader>(
    rt: &HostRuntime,
    file: &mut OpenFile,
    change: &Change<'_, R>,
) -> Result<(), ReplaceError>
    requires { KeepsWhatItSays (R.reading change.now.reader.now) change.now.decision.now }

    // The file is given the new text of the decision and nothing else, if it was found to have the old one.
    ensures given { OnOk result (MatchOption change.now.decision.now.new
        (steps_on file.new ≡ steps_on file.old)
        (λ new. IsGiven (string_bytes change.now.decision.now.old) (string_bytes new)
        change.now.syncs file.old file.new)) }
    ensures stays { OnErr result (IsGivenNothing file.old file.new) }
{
    let Some(new) = &change.decision.new else {
        return Ok(());
    };
    let replacement = Replacement {
        old: change.decision.old.as_str(),
        new: new.as_str(),
        syncs: change.syncs,
    };
    replacement.put_in(rt, file)
}

/// Formats an open file by the settings of a target, and says whether it is changed. A file whose text stays isn't touched.
/// After an `Err` the file is as it was.
pub fn format_file<R: PartReader>(
    rt: &HostRuntime,
    file: &mut OpenFile,
    reader: &R,
    target: &Target,
    syncs: bool,
) -> Result<Passed, Fault>
    ensures given { IfOk result (λ passed. IsFormattedBy target.now.settings
        (R.reading reader.now) (R.definitions reader.now) syncs passed.outcome.is_changed
        file.old file.new) }
    ensures stays { OnErr result (IsGivenNothing file.old file.new) }
{
    let text = text_in(rt.alloc(), &mut file.file)?;
    let decision = decided(rt.alloc(), text, reader, target.settings)?;
    let change = Change {
        reader,
        decision: &decision,
        syncs,
    };
    match replace_text(rt, file, &change) {
        Ok(()) => Ok(passed_by(decision)),
        Err(error) => Err(Fault::Replace(error)),
    }
}
