//! Reading part by part a text that may begin with a byte order mark.

ghost use Rattle.std.specs.Prelude.{◌≡◌, IfErr, IfNone, IfOk, IfSome, IsErr, OnErr};
ghost use Rattle.tocmark_event.specs.Reading.{reading_view};
ghost use Rattle.tocmark_read_scan.specs.declared.syntax.Names.TheVariants.{All};
ghost use Rattle.tocmark_reader.specs.Flags.{syntax_of};
ghost use Rattle.tocmark_reader.specs.Left.{HasFailed, IsAtEnd, IsPart};
ghost use Rattle.tocmark_reader.specs.Reading.{reading_of};
ghost use Rattle.tocmark_marked.specs.Marked.{blocks_left, in_whole};

use crate::later::moved;
use crate::reader::READER;
use std::alloc::{AllocError, Global};
use tocmark_event::event::ParserOptions;
use tocmark_event::reader::Reading;
use tocmark_reader::BlockReading;

/// A text whose events are handed out part by part, as those of `BlockReading` are.
#[derive(Drop)]
pub struct MarkedBlocks<'t> {
    /// What follows the mark, if there is one.
    rest: BlockReading<'t>,
    /// Whether a mark comes before it.
    is_marked: bool,
}

/// Gives a part its ranges in the whole text.
fn in_whole(is_marked: bool, part: Reading) -> Reading
    ensures { reading_view result ≡ in_whole is_marked (reading_view part) }
{
    if is_marked { moved(part) } else { part }
}

impl<'t> MarkedBlocks<'t> {
    /// The blocks of a text, which may come after a mark.
    pub(crate) fn new(
        alloc: Global,
        rest: &'t str,
        is_marked: bool,
        flags: ParserOptions,
    ) -> Result<MarkedBlocks<'t>, AllocError>
        ensures { IfOk result (λ blocks.
            blocks_left blocks ≡ in_whole is_marked (reading_of (syntax_of All flags) rest.now)) }
    {
        Ok(MarkedBlocks {
            rest: READER.blocks(alloc, rest, flags)?,
            is_marked,
        })
    }

    /// The next events, some of those that are left, and no labels. `None` says that no events are left.
    ///
    /// If memory runs out, what was handed out before stays with the caller, and every later call answers an `Err`.
    pub fn next_events(&mut self) -> Result<Option<Reading>, AllocError>
        ensures some { IfOk result (λ found. IfSome found (λ part.
            IsPart (reading_view part) (blocks_left self.old) (blocks_left self.new))) }
        ensures none { IfOk result (λ found. IfNone found
            (IsAtEnd (blocks_left self.old) (blocks_left self.new))) }
        ensures failed { OnErr result (HasFailed self.new.rest) }
        ensures after { HasFailed self.old.rest → IsErr result }
    {
        match self.rest.next_events()? {
            Some(part) => Ok(Some(in_whole(self.is_marked, part))),
            None => Ok(None),
        }
    }
}
