//! References to footnotes.

ghost use Rattle.std.specs.Prelude.{◌≡◌, OnOk};
ghost use Rattle.tocmark_read_spans.specs.Definitions.{entry_of};
ghost use Rattle.tocmark_read_inlines.specs.Scan.{scan, noted, note_looked_up, closed_by_sought};

use crate::scan::Scanner;
use std::alloc::{AllocError, Global};
use tocmark_read_scan::basic::bytes_between;
use tocmark_read_spans::definitions::Definitions;
use tocmark_read_spans::footnote::{Sought, label_sought, note_key};
use tocmark_read_spans::link::Bracket;
use tocmark_read_spans::role::{Leaf, Role, Stretch};
use tocmark_read_tokens::label::collapsed;
use tocmark_read_tokens::word::Word;

impl Scanner {
    /// Puts a reference to a footnote in place of a bracket that is closed at the place, with its text. No
    /// bracket before it can begin a link or an image any more.
    #[tactic(auto, unfolding(crate::specs::Scan::noted))]
    fn put_note(&mut self, bracket: Bracket, name: Stretch) -> Result<(), AllocError>
        ensures { OnOk result (scan self.new ≡ noted bracket name (scan self.old)) }
    {
        let end = self.place.saturating_add(1);
        let first = bracket.inner.saturating_sub(1);
        self.roles
            .put(first, Role::Single(Leaf::Footnote(name), end))?;
        self.runs.truncate(bracket.runs);
        self.brackets.clear();
        self.inactive = 0;
        self.resume = end;
        Ok(())
    }

    /// Reads the label of a footnote, which is a text where the footnote has no definition.
    #[tactic(auto, unfolding(crate::specs::Scan::note_looked_up))]
    fn look_up_note(
        &mut self,
        alloc: Global,
        bytes: &[u8],
        definitions: &Definitions,
        bracket: Bracket,
        word: Word,
    ) -> Result<(), AllocError>
        ensures { OnOk result (scan self.new
            ≡ note_looked_up bytes.now (entry_of definitions.now) bracket word (scan self.old)) }
    {
        let name = bytes_between(bytes, word.start, word.end);
        let key = note_key(alloc, name)?;
        match definitions.find(key.as_str()) {
            Some(_entry) => {
                let shown = collapsed(alloc, name)?;
                let stretch = self.keep(&shown)?;
                self.put_note(bracket, stretch)
            }
            None => Ok(()),
        }
    }

    /// Closes a bracket that no parentheses follow, where footnotes are read.
    #[tactic(auto, unfolding(crate::specs::Scan::closed_by_sought))]
    pub(crate) fn close_by_sought(
        &mut self,
        alloc: Global,
        bytes: &[u8],
        definitions: &Definitions,
        bracket: Bracket,
    ) -> Result<(), AllocError>
        ensures { OnOk result (scan self.new
            ≡ closed_by_sought bytes.now (entry_of definitions.now) bracket (scan self.old)) }
    {
        match label_sought(bytes, bracket, self.place) {
            Some(Sought::Label(asked)) => self.look_up(alloc, bytes, definitions, bracket, asked),
            Some(Sought::Footnote(word)) => self.look_up_note(
                alloc,
                bytes,
                definitions,
                bracket,
                word,
            ),
            None => Ok(()),
        }
    }
}
