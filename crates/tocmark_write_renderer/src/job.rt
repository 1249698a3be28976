//! What is asked of the writer of a unit.

use std::alloc::Global;
use tocmark_event::event::ParserOptions;
use tocmark_event::options::Options;
use tocmark_spelling::plan::Delimiters;

/// What is the same for all spellings of a unit.
#[derive(Clone, Copy)]
pub struct Job<'j, 'o> {
    pub alloc: Global,
    pub options: &'j Options<'o>,
    pub flags: ParserOptions,
    /// The label that is reserved for lists, if there is one.
    pub label: Option<&'j str>,
}

/// How one spelling is written.
#[derive(Clone, Copy)]
pub struct Manner<'m> {
    /// How emphasis and texts are written.
    pub delimiters: Delimiters<'m>,
    /// Whether texts are taken from the source where it is known.
    pub source: bool,
}
