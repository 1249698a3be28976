//! What is written so far: a list of parts.

ghost use Rattle.std.specs.Prelude.{OnOk};
ghost use Rattle.tocmark_rewrite.specs.Parts.{Builds};

use crate::line_end::is_end;
use std::alloc::{AllocError, Global};

/// A part of the new text.
#[derive(Debug, Drop)]
pub enum Part {
    /// These bytes of the source: the first one, and the one after the last.
    Source(usize, usize),
    /// A text that was written.
    Written(String),
}

/// The new text, and its parts.
#[derive(Drop)]
pub(crate) struct Output {
    pub(crate) alloc: Global,
    pub(crate) text: String,
    pub(crate) parts: Vec<Part>,
    /// Whether changed trees are patched, but for those that were written as a whole.
    pub(crate) is_patched: bool,
    /// The first events of these, in their order.
    pub(crate) written: Vec<usize>,
}

impl Output {
    /// Nothing of a source so far.
    pub(crate) fn new(alloc: Global, _source: &str) -> Output
        ensures { Builds _source.now result }
    {
        Output {
            alloc,
            text: String::new(alloc),
            parts: Vec::new(alloc),
            is_patched: false,
            written: Vec::new(alloc),
        }
    }

    /// Whether its last line has ended.
    pub(crate) fn ends_line(&self) -> bool {
        match self.text.as_bytes().last() {
            Some(byte) => is_end(*byte),
            None => false,
        }
    }

    /// Copies bytes of the source; nothing if they are no slice of it.
    pub(crate) fn copy(&mut self, source: &str, from: usize, to: usize) -> Result<(), AllocError>
        requires { Builds source.now self.old }
        ensures { OnOk result (Builds source.now self.new) }
    {
        if let Some(slice) = source.get(from..to) {
            self.parts.push(Part::Source(from, to))?;
            self.text.push_str(slice)?;
        }
        Ok(())
    }

    /// Adds a text that was written.
    pub(crate) fn put(&mut self, source: &str, text: String) -> Result<(), AllocError>
        requires { Builds source.now self.old }
        ensures { OnOk result (Builds source.now self.new) }
    {
        self.text.push_str(text.as_str())?;
        self.parts.push(Part::Written(text))?;
        Ok(())
    }

    /// Adds a copy of a text that was written.
    pub(crate) fn put_str(&mut self, source: &str, text: &str) -> Result<(), AllocError>
        requires { Builds source.now self.old }
        ensures { OnOk result (Builds source.now self.new) }
    {
        let copy = String::from_str(self.alloc, text)?;
        self.put(source, copy)
    }
}
