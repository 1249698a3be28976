//! Runs of delimiters: emphasis, strikethrough, sub- and superscripts.

ghost use Rattle.std.specs.Prelude.{◌≡◌, OnOk};
ghost use Rattle.tocmark_read_inlines.specs.Scan.{scan, run_kept, run_taken, tildes_taken, settled};

use crate::scan::Scanner;
use std::alloc::AllocError;
use tocmark_read_scan::syntax::Syntax;
use tocmark_read_spans::emphasis::emphasize;
use tocmark_read_spans::run::{Run, run_at, tildes_at};

impl Scanner {
    /// Keeps a run that opens or closes, and goes on after it.
    #[tactic(auto, unfolding(crate::specs::Scan::run_kept))]
    fn keep_run(&mut self, run: Run) -> Result<(), AllocError>
        ensures { OnOk result (scan self.new ≡ run_kept run (scan self.old)) }
    {
        self.resume = self.place.saturating_add(run.count);
        if run.opens || run.closes {
            self.runs.push(run)?;
        }
        Ok(())
    }

    /// Reads delimiters of emphasis.
    #[tactic(auto, unfolding(crate::specs::Scan::run_taken))]
    pub(crate) fn delimiters(&mut self, bytes: &[u8], byte: u8) -> Result<(), AllocError>
        ensures { OnOk result (scan self.new ≡ run_taken bytes.now byte (scan self.old)) }
    {
        self.keep_run(run_at(bytes, self.place, byte))
    }

    /// Reads tildes.
    #[tactic(auto, unfolding(crate::specs::Scan::tildes_taken))]
    pub(crate) fn tildes(&mut self, syntax: Syntax, bytes: &[u8]) -> Result<(), AllocError>
        ensures { OnOk result (scan self.new ≡ tildes_taken syntax bytes.now (scan self.old)) }
    {
        self.keep_run(tildes_at(syntax, bytes, self.place))
    }

    /// Matches the delimiters after so many runs, and forgets these runs.
    #[tactic(auto, unfolding(crate::specs::Scan::settled), using(crate::proofs::Settled::front_kept))]
    pub(crate) fn settle(&mut self, count: usize) -> Result<(), AllocError>
        ensures { OnOk result (scan self.new ≡ settled count (scan self.old)) }
    {
        if count < self.runs.len() {
            emphasize(&mut self.roles, &mut self.runs[count..])?;
            self.runs.truncate(count);
        }
        Ok(())
    }
}
