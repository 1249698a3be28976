//! An open container.

ghost use Rattle.std.specs.Prelude.{◌≡◌, IfOk};
ghost use Rattle.tocmark_write_containers.specs.FrameOf.{level_of};

use crate::content::OpeningChoice;
use crate::outside::Outside;
use crate::prefix::Prefix;
use std::alloc::{AllocError, Global};
use tocmark_event::event::TagOf;

/// An open container.
#[derive(Drop)]
pub struct Frame<'a> {
    pub tag: &'a TagOf<String>,
    /// What is before each of its lines, after the prefixes of the containers around it.
    pub prefix: Prefix,
    /// Where its opening ended in the unit's text, in bytes.
    pub start: usize,
    /// What it and the containers around it say of a place.
    pub outside: Outside,
    pub content: OpeningChoice,
}

impl<'a> Frame<'a> {
    /// An equal frame.
    pub fn copied(&self, alloc: Global) -> Result<Frame<'a>, AllocError>
        ensures { IfOk result (λ copy. level_of copy ≡ level_of self.now) }
    {
        let content = self.content.copied(alloc)?;
        Ok(Frame {
            tag: self.tag,
            prefix: self.prefix,
            start: self.start,
            outside: self.outside,
            content,
        })
    }
}
