//! Reading block by block.

ghost use Rattle.std.specs.Prelude.{◌≡◌, ◌+◌, ◌<◌, false, length, true, IfNone, IfOk, IfSome, IsErr, OnErr, OnOk, map};
ghost use Rattle.tocmark_event.specs.Forest.{IsBalanced};
ghost use Rattle.tocmark_event.specs.Reading.{reading_view};
ghost use Rattle.tocmark_reader.specs.Left.{HasFailed, IsAtEnd, IsBetweenTrees, IsHandable, IsPart, IsReady, begins_tree, goes_on, has_events, is_at_tree, reading_left};

use crate::block_events::{Assembly, Document, is_unwrapped};
use crate::searched::SearchedText;
use std::alloc::{AllocError, Global};
use std::mem;
use tocmark_event::reader::Reading;
use tocmark_read_page::packed::PackedBlock;
use tocmark_read_page::page::BlockKind;
use tocmark_read_page::piece::Piece;
use tocmark_read_scan::syntax::Syntax;
use tocmark_read_spans::definitions::{Definitions, distinct_labels};

/// A text whose blocks are found, and whose events are made and handed out block by block.
///
/// ```
/// let text = "# One\n\ntwo [three]\n\n[three]: /u\n";
/// let mut blocks = CoreReader.blocks(alloc, text)?;
/// let mut output = String::new(alloc);
/// let mut state = State::new(alloc, CoreReader, ParserOptions::empty(), Options::default())?;
/// while let Some(block) = blocks.next()? {
///     state.process(block.events(), &mut output)?;
/// }
/// state.finish(&mut output)?;
/// assert_eq!(rt; output.as_str(), "# One\n\ntwo [three]\n\n[three]: /u");
/// ```
#[derive(Drop)]
pub struct BlockReading<'t> {
    pub(crate) alloc: Global,
    pub(crate) syntax: Syntax,
    pub(crate) text: SearchedText<'t>,
    /// The blocks whose events aren't made yet, the next one last.
    pub(crate) blocks: Vec<PackedBlock>,
    /// For each block of the text whether it is a loose list.
    pub(crate) loose: Vec<bool>,
    pub(crate) pieces: Vec<Piece>,
    pub(crate) definitions: Definitions,
    pub(crate) defined: Vec<String>,
    /// The events that aren't handed out yet, with what the inlines have beside the source.
    pub(crate) assembly: Assembly,
    /// Whether memory ran out in an earlier call.
    pub(crate) failed: bool,
}

/// How many events fit into the least room that is made for those of a tree.
const FEW: usize = 7;

/// How many events fit into the greatest room that is made before there are any.
const MANY: usize = 64;

/// How many events of a tree are enough for a part of it.
const STRETCH: usize = 64;

/// How many events so many bytes are likely to have, as far as room is made for them at once.
fn likely_events(bytes: usize) -> usize {
    (bytes / 6).clamp(FEW, MANY)
}

/// How many events a block is likely to have: code and HTML have one for each line, containers have a Start and
/// an End.
fn likely_in_block(block: &PackedBlock) -> usize {
    match block.kind() {
        BlockKind::Indented | BlockKind::Fenced(_, _) | BlockKind::Html => {
            block.last().saturating_sub(block.first()).saturating_add(2)
        }
        BlockKind::Quote(_) | BlockKind::List(_) | BlockKind::Item => 2,
        BlockKind::Table(_, _) | BlockKind::TableHead | BlockKind::TableRow => 2,
        _ => likely_events(block.end().saturating_sub(block.start())),
    }
}

/// Whether a block has events: a paragraph that holds definitions alone has none.
fn has_events(block: &PackedBlock) -> bool
    ensures { result ≡ has_events block.now.kind block.now }
{
    match block.kind() {
        BlockKind::Paragraph => block.first() < block.last(),
        _ => true,
    }
}

/// Whether the events of a block begin a tree.
#[tactic(auto, unfolding(crate::specs::Left::begins_tree))]
fn begins_tree(block: &PackedBlock) -> bool
    ensures { result ≡ begins_tree block.now }
{
    block.depth() == 0 && block.list().is_none() && has_events(block)
}

impl BlockReading<'_> {
    /// Whether no block is left, or the next one begins a tree.
    fn is_at_tree(&self) -> bool
        ensures { result ≡ is_at_tree self.now }
    {
        match self.blocks.last() {
            None => true,
            Some(block) => begins_tree(block),
        }
    }

    /// Whether the next block belongs to the events that are made and not handed out.
    fn goes_on(&self) -> bool
        ensures { result ≡ goes_on self.now }
    {
        !self.blocks.is_empty() && (self.assembly.emission.events.is_empty() || !self.is_at_tree())
    }

    /// Makes the events of the next block, if there is one.
    #[tactic(auto, using(crate::proofs::BlocksLeft::one_taken, crate::proofs::BlocksLeft::none_taken))]
    fn take(&mut self) -> Result<(), AllocError>
        ensures left { OnOk result (reading_left self.new ≡ reading_left self.old) }
        ensures fewer { 0 < length self.old.blocks.items
            → length self.new.blocks.items + 1 ≡ length self.old.blocks.items }
    {
        let Some(packed) = self.blocks.pop() else {
            return Ok(());
        };
        let block = packed.block();
        let unwrapped = is_unwrapped(&self.loose, block);
        let document = Document {
            syntax: self.syntax,
            text: &self.text,
            definitions: &self.definitions,
        };
        self.assembly
            .read_block(self.alloc, &document, &self.pieces, unwrapped, block)
    }

    /// How many events the next tree is likely to have, or the next part of it.
    fn likely_in_tree(&self) -> usize {
        let mut all = 0usize;
        for block in self.blocks.iter().rev() {
            if all >= STRETCH || (all > 0 && begins_tree(block)) {
                break;
            }
            all = all.saturating_add(likely_in_block(block));
        }
        all
    }

    /// Makes events up to the end of a tree, or of the text.
    #[tactic(auto, using(crate::proofs::BlocksLeft::tree_ended))]
    fn take_tree(&mut self) -> Result<(), AllocError>
        ensures left { OnOk result (reading_left self.new ≡ reading_left self.old) }
        ensures whole { OnOk result (IsHandable self.new) }
    {
        let room = self.likely_in_tree();
        self.assembly.emission.events.reserve(room)?;
        while self.goes_on() {
            self.take()?;
        }
        self.assembly.emission.close_to(0)
    }

    /// Ends all containers, unless the next block belongs to the events that are made.
    #[tactic(auto, using(crate::proofs::BlocksLeft::tree_ended))]
    fn end_tree(&mut self) -> Result<(), AllocError>
        ensures left { OnOk result (reading_left self.new ≡ reading_left self.old) }
        ensures whole { goes_on self.old ≡ false → OnOk result (IsHandable self.new) }
        ensures more { goes_on self.old ≡ true → self.new ≡ self.old }
    {
        if self.goes_on() {
            Ok(())
        } else {
            self.assembly.emission.close_to(0)
        }
    }

    /// Makes events up to the end of a tree, or enough for a part of it.
    fn take_some(&mut self) -> Result<(), AllocError>
        ensures left { OnOk result (reading_left self.new ≡ reading_left self.old) }
        ensures ready { OnOk result (IsReady self.new) }
    {
        let room = self.likely_in_tree();
        self.assembly.emission.events.reserve(room)?;
        while self.goes_on() && self.assembly.emission.events.len() < STRETCH {
            self.take()?;
        }
        self.end_tree()
    }

    /// Gives back the room of the blocks whose events are made, once that is a quarter of the room: whoever
    /// takes the events may need it. A block costs the same on average, since each time a quarter of them
    /// are gone.
    /// Room for one stays: where a large list is let go of whole, the C library takes room for such lists
    /// from its heap from then on, and copies each as it grows.
    fn let_go_of_blocks(&mut self)
        ensures left { reading_left self.new ≡ reading_left self.old }
        ensures whole { IsHandable self.old → IsHandable self.new }
        ensures ready { IsReady self.old → IsReady self.new }
    {
        let left = self.blocks.len();
        let room = self.blocks.capacity();
        if room > FEW && left <= room / 4 * 3 {
            self.blocks.shrink_to(left.max(1));
        }
        if left == 0 {
            self.pieces.truncate(1);
            self.pieces.shrink_to_fit();
        }
    }

    /// Gives away the events that are made, if there are any.
    fn hand_out(&mut self) -> Option<Reading>
        ensures some { IfSome result (λ part.
            IsPart (reading_view part) (reading_left self.old) (reading_left self.new)) }
        ensures none { IsReady self.old → IfNone result
            (IsAtEnd (reading_left self.old) (reading_left self.new)) }
        ensures between { IsHandable self.old → IsBetweenTrees self.new }
    {
        if self.assembly.emission.events.is_empty() {
            return None;
        }
        let made = &mut self.assembly.emission.events;
        Some(Reading {
            events: mem::replace(made, Vec::new(self.alloc)),
            defined: Vec::new(self.alloc),
            unresolved: Vec::new(self.alloc),
        })
    }

    /// Makes all events that are left, and gives them away with the labels.
    fn take_all(&mut self) -> Result<Reading, AllocError>
        ensures { IfOk result (λ found. reading_view found ≡ reading_left self.old) }
    {
        let blocks = self.blocks.len().saturating_add(self.pieces.len());
        let room = blocks.max(likely_events(self.text.as_str().len()));
        self.assembly.emission.events.reserve(room)?;
        while !self.blocks.is_empty() {
            self.take()?;
        }
        self.assembly.emission.close_to(0)?;
        let inlines = &self.assembly.inlines;
        let unresolved = distinct_labels(self.alloc, &inlines.texts, &inlines.missed)?;
        Ok(Reading {
            events: mem::replace(&mut self.assembly.emission.events, Vec::new(self.alloc)),
            defined: mem::replace(&mut self.defined, Vec::new(self.alloc)),
            unresolved,
        })
    }

    /// The next part of the reading: the events of one block that is in no other, with all that
    /// lies in it, and no labels. `None` says that no events are left.
    ///
    /// If memory runs out, what was handed out before stays with the caller, and every later call answers
    /// an `Err`.
    #[tactic(auto, using(crate::proofs::PartLaws::part_balanced))]
    pub fn next(&mut self) -> Result<Option<Reading>, AllocError>
        ensures some { IfOk result (λ found. IfSome found (λ block.
            IsPart (reading_view block) (reading_left self.old) (reading_left self.new))) }
        ensures none { IfOk result (λ found. IfNone found
            (IsAtEnd (reading_left self.old) (reading_left self.new))) }
        ensures between { OnOk result (IsBetweenTrees self.new) }
        ensures balanced { IsBetweenTrees self.old → IfOk result (λ found.
            IfSome found (λ block. IsBalanced (map (λ e. e.0) (reading_view block).events))) }
        ensures failed { OnErr result (HasFailed self.new) }
        ensures after { HasFailed self.old → IsErr result }
    {
        if self.failed {
            return Err(AllocError);
        }
        match self.take_tree() {
            Ok(()) => {
                self.let_go_of_blocks();
                Ok(self.hand_out())
            }
            Err(error) => {
                self.failed = true;
                Err(error)
            }
        }
    }

    /// The next events of the reading, some of those that are left, and no labels. `None` says that no
    /// events are left.
    ///
    /// A part is what `next` would hand out, but a large list or table comes in several parts, so that its
    /// events aren't in memory all at once. Such a part may begin and end within containers.
    ///
    /// If memory runs out, what was handed out before stays with the caller, and every later call answers
    /// an `Err`.
    pub fn next_events(&mut self) -> Result<Option<Reading>, AllocError>
        ensures some { IfOk result (λ found. IfSome found (λ part.
            IsPart (reading_view part) (reading_left self.old) (reading_left self.new))) }
        ensures none { IfOk result (λ found. IfNone found
            (IsAtEnd (reading_left self.old) (reading_left self.new))) }
        ensures failed { OnErr result (HasFailed self.new) }
        ensures after { HasFailed self.old → IsErr result }
    {
        if self.failed {
            return Err(AllocError);
        }
        let made = self.take_some();
        self.failed = made.is_err();
        made?;
        self.let_go_of_blocks();
        Ok(self.hand_out())
    }

    /// All that `next` didn't hand out, at once: the events that are left, and the labels of the whole
    /// text. It fails if memory runs out, in this call or an earlier one.
    pub fn rest(self) -> Result<Reading, AllocError>
        ensures rest { IfOk result (λ found. reading_view found ≡ reading_left self.entry) }
        ensures after { HasFailed self.entry → IsErr result }
    {
        let mut all = self;
        if all.failed {
            Err(AllocError)
        } else {
            all.take_all()
        }
    }
}
