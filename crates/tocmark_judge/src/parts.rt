//! Readers that hand out what they find part by part, so that never all events of a text are there at once.

ghost use Rattle.std.specs.Prelude.{◌≡◌, ◌++◌, [], ℕ, IfOk, List, OnOk, map};
ghost use Rattle.tocmark_read_scan.specs.declared.syntax.TheConstants.{CORE};
ghost use Rattle.tocmark_event.specs.declared.event.flags.ParserOptions.{ParserOptions};
ghost use Rattle.tocmark_reader.specs.Definitions.{definitions_of};
ghost use Rattle.tocmark_reader.specs.Flags.{syntax_of};
ghost use Rattle.tocmark_reader.specs.Left.{reading_left};
ghost use Rattle.tocmark_event.specs.Reading.{reading_view};
ghost use Rattle.tocmark_event.specs.View.{EventView};
ghost use Rattle.tocmark_compare.specs.Given.{found_events};
ghost use Rattle.tocmark_judge.specs.LinkDefinitions.{DefinedLink, link_defined, unplaced};

use std::alloc::{AllocError, Global};
use tocmark_event::event::ParserOptions;
use tocmark_event::reader::{Reader, Reading};
use tocmark_read_scan::syntax::CORE;
use tocmark_reader::{
    BlockReading, CoreReader, ExtendedReader, ReferenceDefinition, find_definitions,
};

/// What takes the events of a text, part by part.
pub trait PartTaker {
    /// Whether these events were taken so far, one part after the other.
    ghost has_taken: { Self → List EventView → Type 0 };

    /// Takes the next part. It may begin and end within containers.
    fn take(&mut self, alloc: Global, part: &Reading) -> Result<(), AllocError>
        ensures { OnOk result ((before : List EventView) → has_taken self.old before
            → has_taken self.new (before ++ found_events (reading_view part.now))) };
}

/// A reader that can hand out a text's events part by part, and name its link definitions.
///
/// The parts, one after the other, are what it finds in the text at once. A reader that can only read all at once hands out
/// one part; that needs no code. A reader that can't name definitions returns none, and formatting may then lose unused ones.
///
/// ```
/// impl PartReader for MyReader {
///     fn read_definitions(
///         &self,
///         alloc: Global,
///         _text: &str,
///         _flags: ParserOptions,
///     ) -> Result<Vec<ReferenceDefinition>, AllocError> {
///         Ok(Vec::new(alloc))
///     }
/// }
/// ```
pub trait PartReader: Reader {
    /// What the link definitions in a text say, in their order, whether links use them or not.
    ghost definitions: { Self → List ℕ → ParserOptions → List DefinedLink } = { λ _ _ _. [] };

    /// The link definitions in a text. It fails if memory runs out.
    fn read_definitions(
        &self,
        alloc: Global,
        text: &str,
        flags: ParserOptions,
    ) -> Result<Vec<ReferenceDefinition>, AllocError>
        ensures { IfOk result (λ all. map link_defined all.items
            ≡ definitions self.now text.now flags) };

    /// Hands the events of a text to a taker, and returns its link definitions. It fails if memory runs out, here or there.
    fn read_parts<T: PartTaker>(
        &self,
        alloc: Global,
        text: &str,
        flags: ParserOptions,
        taker: &mut T,
    ) -> Result<Vec<ReferenceDefinition>, AllocError>
        ensures taken { OnOk result ((before : List EventView) → T.has_taken taker.old before
            → T.has_taken taker.new
            (before ++ found_events (Self.reading self.now text.now flags))) }
        ensures definitions { IfOk result (λ all. map link_defined all.items
            ≡ definitions self.now text.now flags) }
    {
        let part = self.read(alloc, text, flags)?;
        let result = taker.take(alloc, &part);
        drop(part);
        result?;
        self.read_definitions(alloc, text, flags)
    }
}

/// Hands out all events that are left.
fn hand_blocks<T: PartTaker>(
    alloc: Global,
    blocks: &mut BlockReading<'_>,
    taker: &mut T,
) -> Result<(), AllocError>
    ensures { OnOk result ((before : List EventView) → T.has_taken taker.old before
        → T.has_taken taker.new (before ++ found_events (reading_left blocks.old))) }
{
    while let Some(part) = blocks.next_events()? {
        let taken = taker.take(alloc, &part);
        drop(part);
        taken?;
    }
    Ok(())
}

impl PartReader for CoreReader {
    ghost definitions = { λ _ text _. map unplaced (definitions_of CORE text) };

    fn read_definitions(
        &self,
        alloc: Global,
        text: &str,
        _flags: ParserOptions,
    ) -> Result<Vec<ReferenceDefinition>, AllocError> {
        find_definitions(alloc, CORE, text)
    }

    fn read_parts<T: PartTaker>(
        &self,
        alloc: Global,
        text: &str,
        _flags: ParserOptions,
        taker: &mut T,
    ) -> Result<Vec<ReferenceDefinition>, AllocError> {
        let (mut blocks, definitions) = self.blocks_and_definitions(alloc, text)?;
        let handed = hand_blocks(alloc, &mut blocks, taker);
        drop(blocks);
        handed?;
        Ok(definitions)
    }
}

impl PartReader for ExtendedReader {
    ghost definitions = { λ reader text flags.
        map unplaced (definitions_of (syntax_of reader.names flags) text) };

    fn read_definitions(
        &self,
        alloc: Global,
        text: &str,
        flags: ParserOptions,
    ) -> Result<Vec<ReferenceDefinition>, AllocError> {
        self.definitions(alloc, text, flags)
    }

    fn read_parts<T: PartTaker>(
        &self,
        alloc: Global,
        text: &str,
        flags: ParserOptions,
        taker: &mut T,
    ) -> Result<Vec<ReferenceDefinition>, AllocError> {
        let (mut blocks, definitions) = self.blocks_and_definitions(alloc, text, flags)?;
        let handed = hand_blocks(alloc, &mut blocks, taker);
        drop(blocks);
        handed?;
        Ok(definitions)
    }
}

/// A reference to a reader hands out the reader's parts.
impl<R: PartReader> PartReader for &R {
    ghost definitions = { λ r. R.definitions r.now };

    fn read_definitions(
        &self,
        alloc: Global,
        text: &str,
        flags: ParserOptions,
    ) -> Result<Vec<ReferenceDefinition>, AllocError> {
        (**self).read_definitions(alloc, text, flags)
    }

    fn read_parts<T: PartTaker>(
        &self,
        alloc: Global,
        text: &str,
        flags: ParserOptions,
        taker: &mut T,
    ) -> Result<Vec<ReferenceDefinition>, AllocError> {
        (**self).read_parts(alloc, text, flags, taker)
    }
}
