//! A file that can be replaced, as the order of the steps sees it.

ghost use Rattle.std.specs.Prelude.{◌≡◌, [], ◌∷◌, false, List, MatchResult, OnErr, OnOk, if◌then◌else◌};
ghost use Rattle.tocmark_replace.specs.Steps.{Step, Made, Wrote, Tore, Synced, Found, FoundOther, Renamed, Failed, Whole, IsWhole, Clears, draft_of};

/// A file, and the new one beside it that takes its name.
///
/// An implementation notes each step with its answer. What the steps say of a file holds if the system answers truly, and if
/// nobody else changes the file between the step that finds it and the one that renames.
pub trait ReplaceableFile {
    /// What a step fails by.
    type Error: Drop;

    /// The steps so far, the newest first.
    ghost steps: { Self → List Step };

    /// Makes an empty new file.
    fn create(&mut self, rt: &HostRuntime) -> Result<(), Self::Error>
        ensures ok { OnOk result (steps self.new ≡ Made ∷ steps self.old) }
        ensures err { OnErr result (steps self.new ≡ Failed ∷ steps self.old) };

    /// Writes a text to the new file.
    fn write(&mut self, rt: &HostRuntime, text: &str) -> Result<(), Self::Error>
        requires { draft_of (steps self.old) ≡ Whole [] false }
        ensures ok { OnOk result (steps self.new ≡ Wrote text.now ∷ steps self.old) }
        ensures err { OnErr result (steps self.new ≡ Tore ∷ steps self.old) };

    /// Brings the text of the new file to the disk.
    fn sync(&mut self, rt: &HostRuntime) -> Result<(), Self::Error>
        requires { IsWhole (draft_of (steps self.old)) }
        ensures ok { OnOk result (steps self.new ≡ Synced ∷ steps self.old) }
        ensures err { OnErr result (steps self.new ≡ Failed ∷ steps self.old) };

    /// Whether the file still has this text and its name.
    fn still_has(&mut self, rt: &HostRuntime, text: &str) -> Result<bool, Self::Error>
        ensures { MatchResult result
            (λ same. steps self.new ≡ (if same then Found text.now else FoundOther) ∷ steps self.old)
            (λ _. steps self.new ≡ Failed ∷ steps self.old) };

    /// Gives the new file the name of the file.
    fn rename(&mut self, rt: &HostRuntime) -> Result<(), Self::Error>
        requires { IsWhole (draft_of (steps self.old)) }
        ensures ok { OnOk result (steps self.new ≡ Renamed ∷ steps self.old) }
        ensures err { OnErr result (steps self.new ≡ Failed ∷ steps self.old) };

    /// Removes the new file, if there is one.
    fn remove(&mut self, rt: &HostRuntime)
        ensures { Clears (steps self.old) (steps self.new) };
}
