//! The order of the steps by which a file is replaced.

ghost use Rattle.std.specs.Prelude.{◌≡◌, ◌∷◌, IfOk, IsFalse, IsTrue, MatchResult, OnErr, OnOk, if◌then◌else◌};
ghost use Rattle.tocmark_replace.specs.Moments.{HasOldOrNew, Stays};
ghost use Rattle.tocmark_replace.specs.Steps.{Found, FoundOther, Renamed, Fails, IsWhole, Clears, draft_of, given, written};

use crate::file::ReplaceableFile;

/// Writes a text to a new file, and syncs that if it is wanted.
fn write_new<F: ReplaceableFile>(
    rt: &HostRuntime,
    file: &mut F,
    text: &str,
    syncs: bool,
) -> Result<(), F::Error>
    ensures ok { OnOk result (F.steps file.new ≡ written text.now syncs (F.steps file.old)) }
    ensures err { OnErr result (Fails (F.steps file.old) (F.steps file.new)) }
    ensures stays { OnErr result (Stays (F.steps file.old) (F.steps file.new)) }
{
    file.create(rt)?;
    file.write(rt, text)?;
    if !syncs {
        return Ok(());
    }
    file.sync(rt)?;
    Ok(())
}

/// Gives the new file the name of the file, if that still has its old text. Returns whether it had.
fn rename_if_same<F: ReplaceableFile>(
    rt: &HostRuntime,
    file: &mut F,
    old: &str,
) -> Result<bool, F::Error>
    requires { IsWhole (draft_of (F.steps file.old)) }
    ensures ends { MatchResult result
        (λ done. F.steps file.new ≡ (if done then Renamed ∷ Found old.now ∷ F.steps file.old else FoundOther ∷ F.steps file.old))
        (λ _. Fails (F.steps file.old) (F.steps file.new)) }
    ensures stays { OnErr result (Stays (F.steps file.old) (F.steps file.new)) }
{
    if !file.still_has(rt, old)? {
        return Ok(false);
    }
    file.rename(rt)?;
    Ok(true)
}

/// Takes all steps but the last one, which removes the new file if it isn't renamed.
fn fill_and_rename<F: ReplaceableFile>(
    rt: &HostRuntime,
    file: &mut F,
    old: &str,
    new: &str,
    syncs: bool,
) -> Result<bool, F::Error>
    ensures ends { MatchResult result
        (λ done. F.steps file.new ≡ (if done
        then Renamed ∷ Found old.now ∷ written new.now syncs (F.steps file.old)
        else FoundOther ∷ written new.now syncs (F.steps file.old)))
        (λ _. Fails (F.steps file.old) (F.steps file.new)) }
    ensures stays { OnErr result (Stays (F.steps file.old) (F.steps file.new)) }
{
    write_new(rt, file, new, syncs)?;
    let done = rename_if_same(rt, file, old)?;
    Ok(done)
}

/// Gives a file a new text, whole, if it still has the old one. Returns whether it had. Else it stays as it was.
///
/// Until the file is renamed over, it isn't touched. So at each moment it has what it had, or the new text whole. The new file
/// is removed if it doesn't get the name.
pub fn replace<F: ReplaceableFile>(
    rt: &HostRuntime,
    file: &mut F,
    old: &str,
    new: &str,
    syncs: bool,
) -> Result<bool, F::Error>
    // Just before it got the new text, it was found to have the old one.
    ensures replaced { IfOk result (λ done. IsTrue done
        → F.steps file.new ≡ Renamed ∷ Found old.now ∷ written new.now syncs (F.steps file.old)) }
    // Else it was found to have another one.
    ensures changed { IfOk result (λ done. IsFalse done
        → Clears (FoundOther ∷ written new.now syncs (F.steps file.old)) (F.steps file.new)) }
    // It is given the new text and nothing else, which is on the disk before if that is wanted.
    ensures given { IfOk result (λ done. given (F.steps file.new)
        ≡ (if done then (new.now, syncs) ∷ given (F.steps file.old) else given (F.steps file.old))) }
    // An error has a cause, and the file is given nothing.
    ensures err { OnErr result (Fails (F.steps file.old) (F.steps file.new)) }
    // At each moment it has the text that it had before, or the new one.
    ensures any_moment { HasOldOrNew new.now (F.steps file.old) (F.steps file.new) }
    ensures removed { OnErr result ((before : _) × Clears before (F.steps file.new)) }
{
    match fill_and_rename(rt, file, old, new, syncs) {
        Ok(true) => Ok(true),
        Ok(false) => {
            file.remove(rt);
            Ok(false)
        }
        Err(error) => {
            file.remove(rt);
            Err(error)
        }
    }
}
