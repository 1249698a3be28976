//! What a unit's page holds beside its text.

ghost use Rattle.std.specs.Prelude.{◌≡◌, IfOk};
ghost use Rattle.tocmark_write_renderer.specs.WriterOf.{held_view};

use std::alloc::{AllocError, Global};
use tocmark_spelling::trail::{Trail, copied_text};

/// A definition of a link that is still to be written.
#[derive(Drop)]
pub struct Reference {
    pub label: String,
    pub destination: String,
    pub title: String,
}

/// A stretch of texts that has not ended.
#[derive(Drop)]
pub struct Held {
    /// The joined texts.
    pub text: String,
    /// Their joined sources, where each is known.
    pub source: Option<String>,
    /// Whether an end of emphasis is before them.
    pub after_close: bool,
}

impl Held {
    /// An equal stretch.
    pub fn copied(&self, alloc: Global) -> Result<Held, AllocError>
        ensures { IfOk result (λ copy. held_view copy ≡ held_view self.now) }
    {
        let text = String::from_str(alloc, self.text.as_str())?;
        let source = copied_text(alloc, &self.source)?;
        Ok(Held {
            text,
            source,
            after_close: self.after_close,
        })
    }
}

/// What a unit leaves.
#[derive(Drop)]
pub struct Parts {
    pub text: String,
    /// Line feeds at the end of all that was written, prefixes not counted.
    pub newlines: usize,
    pub trail: Trail,
    /// The definitions that are still to be written.
    pub references: Vec<Reference>,
}
