//! Folded labels.

ghost use Rattle.std.specs.Prelude.{◌≡◌, [], length, map, string_bytes, take, IfOk, OnErr, OnOk};
ghost use Rattle.tocmark_write_labels.specs.Document.{is_among, with_label, with_labels};
ghost use Rattle.tocmark_write_labels.specs.LabelsOf.{labels_of, Begins};

use caseless::default_case_fold_str;
use indexmap::IndexSet;
use std::alloc::{AllocError, Global};

/// Labels as Markdown compares them, in full case folding: each once, in order of arrival.
#[derive(Drop)]
pub struct Labels {
    folded: IndexSet<String>,
}

impl Labels {
    /// No labels.
    pub fn new(alloc: Global) -> Labels
        ensures { labels_of result ≡ [] }
    {
        Labels {
            folded: IndexSet::new(alloc),
        }
    }

    /// How many labels these are.
    pub fn len(&self) -> usize
        ensures { result ≡ length (labels_of self.now) }
    {
        self.folded.len()
    }

    /// Adds a label, unless one like it is there. If memory runs out, none is added.
    pub fn add(&mut self, alloc: Global, label: &str) -> Result<(), AllocError>
        ensures added { OnOk result
            (labels_of self.new ≡ with_label (labels_of self.old) label.now) }
        ensures stays { OnErr result (labels_of self.new ≡ labels_of self.old) }
    {
        let folded = default_case_fold_str(alloc, label)?;
        self.folded.insert(folded)?;
        Ok(())
    }

    /// Whether a label, as Markdown compares them, is among these.
    pub fn contains(&self, alloc: Global, label: &str) -> Result<bool, AllocError>
        ensures { IfOk result (λ b. b ≡ is_among (labels_of self.now) label.now) }
    {
        let folded = default_case_fold_str(alloc, label)?;
        Ok(self.folded.contains(&folded))
    }

    /// A copy of the labels.
    pub fn copied(&self) -> Result<Labels, AllocError>
        ensures { IfOk result (λ copy. labels_of copy ≡ labels_of self.now) }
    {
        Ok(Labels {
            folded: self.folded.clone()?,
        })
    }

    /// Forgets all labels but the first so many.
    pub fn truncate(&mut self, len: usize)
        ensures { labels_of self.new ≡ take len (labels_of self.old) }
    {
        self.folded.truncate(len);
    }

    /// Adds labels in turn. If memory runs out, some are added.
    fn add_each(&mut self, alloc: Global, labels: &[String]) -> Result<(), AllocError>
        ensures added { OnOk result (labels_of self.new
            ≡ with_labels (labels_of self.old) (map string_bytes labels.now)) }
        ensures front { Begins (labels_of self.old) (labels_of self.new) }
    {
        for label in labels {
            self.add(alloc, label.as_str())?;
        }
        Ok(())
    }

    /// Adds labels in turn. If memory runs out, none is added.
    pub fn add_all(&mut self, alloc: Global, labels: &[String]) -> Result<(), AllocError>
        ensures added { OnOk result (labels_of self.new
            ≡ with_labels (labels_of self.old) (map string_bytes labels.now)) }
        ensures front { Begins (labels_of self.old) (labels_of self.new) }
        ensures stays { OnErr result (labels_of self.new ≡ labels_of self.old) }
    {
        let before = self.len();
        let added = self.add_each(alloc, labels);
        if added.is_err() {
            self.truncate(before);
        }
        added
    }
}
