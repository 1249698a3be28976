//! The texts and targets that a leaf's inlines have beside the source.

ghost use Rattle.std.specs.Prelude.{◌≡◌, IfOk};
ghost use Rattle.tocmark_read_inlines.specs.Scan.{scan, stretch, kept, kept_code, kept_resolved_in, targeted};

use crate::scan::Scanner;
use std::alloc::{AllocError, Global};
use tocmark_read_scan::syntax::Names;
use tocmark_read_spans::role::{Stretch, Target};
use tocmark_read_spans::tick::push_code;
use tocmark_read_tokens::reference::unescaped;

/// The stretch of an empty text.
pub(crate) fn empty() -> Stretch
    ensures { result ≡ stretch 0 0 }
{
    Stretch { start: 0, end: 0 }
}

impl Scanner {
    /// Keeps a text.
    #[tactic(auto, unfolding(crate::specs::Scan::kept))]
    pub(crate) fn keep(&mut self, text: &[u8]) -> Result<Stretch, AllocError>
        ensures { IfOk result (λ s. (scan self.new, s) ≡ kept text.now (scan self.old)) }
    {
        let start = self.texts.len();
        self.texts.extend_from_slice(text)?;
        Ok(Stretch {
            start,
            end: self.texts.len(),
        })
    }

    /// Keeps the text of a code span.
    #[tactic(auto, unfolding(crate::specs::Scan::kept_code))]
    pub(crate) fn keep_code(&mut self, text: &[u8]) -> Result<Stretch, AllocError>
        ensures { IfOk result (λ s. (scan self.new, s) ≡ kept_code text.now (scan self.old)) }
    {
        let start = self.texts.len();
        push_code(&mut self.texts, text)?;
        Ok(Stretch {
            start,
            end: self.texts.len(),
        })
    }

    /// Keeps a text with its escapes and references resolved, by the names that are known. One without
    /// them is kept as it is.
    #[tactic(auto, unfolding(crate::specs::Scan::kept_resolved_in), using(tocmark_read_tokens::proofs::Unmarked::left_alone))]
    pub(crate) fn keep_resolved(
        &mut self,
        alloc: Global,
        names: Names,
        text: &[u8],
    ) -> Result<Stretch, AllocError>
        ensures { IfOk result (λ s.
            (scan self.new, s) ≡ kept_resolved_in names text.now (scan self.old)) }
    {
        if !text.contains(&b'\\') && !text.contains(&b'&') {
            return self.keep(text);
        }
        let resolved = unescaped(alloc, names, text)?;
        let stretch = self.keep(&resolved)?;
        Ok(stretch)
    }

    /// Keeps a target, and gives its number.
    #[tactic(auto, unfolding(crate::specs::Scan::targeted))]
    pub(crate) fn keep_target(&mut self, target: Target) -> Result<usize, AllocError>
        ensures { IfOk result (λ n. (scan self.new, n) ≡ targeted target (scan self.old)) }
    {
        let number = self.targets.len();
        self.targets.push(target)?;
        Ok(number)
    }
}
