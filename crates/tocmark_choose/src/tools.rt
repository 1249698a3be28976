//! What writing a unit takes beside the unit.

use std::alloc::Global;
use tocmark_event::options::Options;
use tocmark_write_renderer::parts::Reference;

/// What writing a unit takes beside the unit.
#[derive(Drop)]
pub struct Tools<'s, R> {
    pub alloc: Global,
    /// The reader that is asked whether a unit is read back.
    pub reader: &'s R,
    pub options: Options<'s>,
    /// The definitions of links that the document has already.
    pub defined: &'s [Reference],
}
