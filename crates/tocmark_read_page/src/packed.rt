//! Blocks as the reader keeps them: in 24 bytes each, so that a list of short items and a table of short cells take little
//! memory. `Block` has 120 bytes.
//!
//! To a clause a `PackedBlock` is its `Block`, so that a list of them is a list of blocks.

ghost use Rattle.std.specs.Prelude.{ℕ, ◌≡◌, ◌<◌, ◌≤◌, ◌+◌, ◌-◌, ◌^◌, ◌++◌, ◌∷◌, [], true, false, None, OnOk, IfOk, slice_get, slice_set};
ghost use Rattle.std.specs.Option.{IfSome, is_some, option_map_or};
ghost use Rattle.tocmark_read_page.specs.declared.page.Block.{Block};
ghost use Rattle.tocmark_read_page.specs.declared.page.BlockKind.TheVariants as kind;
ghost use Rattle.tocmark_read_page.specs.Packed.{HasSmallNumbers, block_in, kind_in, list_in, is_loose_in};

use crate::page::{Block, BlockKind};
use std::alloc::{AllocError, Global};
use std::marker::Model;
use tocmark_event::event::HeadingLevel;

/// The kind of a block that is kept in few bytes. The flag of a list says whether it is loose.
#[derive(Clone, Copy)]
enum SmallKind {
    Quote,
    Bullets(bool),
    /// A list with its first number.
    Numbers(bool, u8),
    Item,
    Paragraph,
    Heading(HeadingLevel),
    Indented,
    /// How many bytes after the start of a fenced code block its info string begins, and how many it has.
    Fenced(u8, u8),
    Html,
    Rule,
    /// How many bytes after the start of a table its delimiter row begins, and how many it has.
    Table(u8, u8),
    TableHead,
    TableRow,
    TableCell,
    DefinitionList,
    DefinitionListTitle,
    DefinitionListDefinition,
}

/// How a block is kept.
#[derive(Drop)]
enum Form {
    /// In few bytes.
    Small {
        kind: SmallKind,
        depth: u16,
        /// How many pieces it has.
        count: u16,
        start: u32,
        end: u32,
        /// Its first piece.
        first: u32,
        /// The number of its list plus one; 0 if it has none.
        list: u32,
    },
    /// Whole, if a number is too large for that, or if its kind or a task needs more room.
    Whole(Box<Block>),
}

/// A block in 24 bytes. A block that doesn't fit is on the heap.
#[derive(Drop)]
pub struct PackedBlock {
    form: Form,
}

const _: () = prove!(std::mem::size_of::<PackedBlock>() == 24);

impl Model for PackedBlock {
    ghost Value = { Block };

    ghost view = { λ p. block_in p.form };
}

#[tactic(auto, unfolding(crate::specs::Packed::kind_in))]
fn kind_of(kind: SmallKind, start: u32) -> BlockKind
    ensures { result ≡ kind_in start kind }
{
    match kind {
        SmallKind::Quote => BlockKind::Quote(None),
        SmallKind::Bullets(_) => BlockKind::List(None),
        SmallKind::Numbers(_, first) => BlockKind::List(Some(u64::from(first))),
        SmallKind::Item => BlockKind::Item,
        SmallKind::Paragraph => BlockKind::Paragraph,
        SmallKind::Heading(level) => BlockKind::Heading(level, None),
        SmallKind::Indented => BlockKind::Indented,
        SmallKind::Fenced(behind, length) => {
            let from = start as usize + behind as usize;
            BlockKind::Fenced(from, from + length as usize)
        }
        SmallKind::Html => BlockKind::Html,
        SmallKind::Rule => BlockKind::Rule,
        SmallKind::Table(behind, length) => {
            let from = start as usize + behind as usize;
            BlockKind::Table(from, from + length as usize)
        }
        SmallKind::TableHead => BlockKind::TableHead,
        SmallKind::TableRow => BlockKind::TableRow,
        SmallKind::TableCell => BlockKind::TableCell,
        SmallKind::DefinitionList => BlockKind::DefinitionList,
        SmallKind::DefinitionListTitle => BlockKind::DefinitionListTitle,
        SmallKind::DefinitionListDefinition => BlockKind::DefinitionListDefinition,
    }
}

#[tactic(auto, unfolding(crate::specs::Packed::is_loose_in))]
fn is_loose(kind: SmallKind) -> bool
    ensures { result ≡ is_loose_in kind }
{
    match kind {
        SmallKind::Bullets(loose) | SmallKind::Numbers(loose, _) => loose,
        _ => false,
    }
}

#[tactic(auto, unfolding(crate::specs::Packed::list_in))]
fn list_of(list: u32) -> Option<usize>
    ensures { result ≡ list_in list }
{
    if list == 0 {
        None
    } else {
        Some(list as usize - 1)
    }
}

/// How many bytes after a block's start a range begins, and how many it has, if both are small.
fn near(start: usize, from: usize, to: usize) -> Option<(u8, u8)>
    ensures from { IfSome result (λ near. start + near.0 ≡ from) }
    ensures to { IfSome result (λ near. start + near.0 + near.1 ≡ to) }
{
    if start <= from && from <= to && from - start < 256 && to - from < 256 {
        Some(((from - start) as u8, (to - from) as u8))
    } else {
        None
    }
}

/// The kind of a fenced code block whose info string is short and is near its start.
#[tactic(auto, unfolding(crate::specs::Packed::kind_in, crate::specs::Packed::is_loose_in))]
fn fenced(start: usize, from: usize, to: usize) -> Option<SmallKind>
    ensures kind { IfSome result (λ small. kind_in start small ≡ kind.Fenced from to) }
    ensures loose { IfSome result (λ small. is_loose_in small ≡ false) }
{
    let (behind, length) = near(start, from, to)?;
    Some(SmallKind::Fenced(behind, length))
}

/// The kind of a table whose delimiter row is short and is near its start.
#[tactic(auto, unfolding(crate::specs::Packed::kind_in, crate::specs::Packed::is_loose_in))]
fn table(start: usize, from: usize, to: usize) -> Option<SmallKind>
    ensures kind { IfSome result (λ small. kind_in start small ≡ kind.Table from to) }
    ensures loose { IfSome result (λ small. is_loose_in small ≡ false) }
{
    let (behind, length) = near(start, from, to)?;
    Some(SmallKind::Table(behind, length))
}

/// The kind of a list whose first number is small.
#[tactic(auto, unfolding(crate::specs::Packed::kind_in, crate::specs::Packed::is_loose_in))]
#[inline(always)]
fn list(loose: bool, first: Option<u64>) -> Option<SmallKind>
    ensures kind { IfSome result (λ small. (start : ℕ) → kind_in start small ≡ kind.List first) }
    ensures loose { IfSome result (λ small. is_loose_in small ≡ loose) }
{
    match first {
        None => Some(SmallKind::Bullets(loose)),
        Some(number) => {
            if number < 256 {
                Some(SmallKind::Numbers(loose, number as u8))
            } else {
                None
            }
        }
    }
}

/// The kind of a block that is no list, if it is small.
#[tactic(auto, unfolding(crate::specs::Packed::kind_in, crate::specs::Packed::is_loose_in))]
#[inline(always)]
fn other(start: usize, kind: BlockKind) -> Option<SmallKind>
    ensures kind { IfSome result (λ small. kind_in start small ≡ kind) }
    ensures loose { IfSome result (λ small. is_loose_in small ≡ false) }
{
    match kind {
        BlockKind::Quote(None) => Some(SmallKind::Quote),
        BlockKind::Item => Some(SmallKind::Item),
        BlockKind::Paragraph => Some(SmallKind::Paragraph),
        BlockKind::Heading(level, None) => Some(SmallKind::Heading(level)),
        BlockKind::Indented => Some(SmallKind::Indented),
        BlockKind::Fenced(from, to) => fenced(start, from, to),
        BlockKind::Html => Some(SmallKind::Html),
        BlockKind::Rule => Some(SmallKind::Rule),
        BlockKind::Table(from, to) => table(start, from, to),
        BlockKind::TableHead => Some(SmallKind::TableHead),
        BlockKind::TableRow => Some(SmallKind::TableRow),
        BlockKind::TableCell => Some(SmallKind::TableCell),
        BlockKind::DefinitionList => Some(SmallKind::DefinitionList),
        BlockKind::DefinitionListTitle => Some(SmallKind::DefinitionListTitle),
        BlockKind::DefinitionListDefinition => Some(SmallKind::DefinitionListDefinition),
        _ => None,
    }
}

/// The kind of a block in few bytes, if it is small. Only lists can be loose.
#[inline(always)]
fn small_kind(block: &Block) -> Option<SmallKind>
    ensures kind { IfSome result (λ small. kind_in block.now.start small ≡ block.now.kind) }
    ensures loose { IfSome result (λ small. is_loose_in small ≡ block.now.loose) }
{
    match block.kind {
        BlockKind::List(first) => list(block.loose, first),
        kind => {
            if block.loose {
                None
            } else {
                other(block.start, kind)
            }
        }
    }
}

/// The number of a list plus one, if that is small; 0 for none.
#[tactic(auto, unfolding(crate::specs::Packed::list_in))]
#[inline(always)]
fn list_number(list: Option<usize>) -> Option<u32>
    ensures { IfSome result (λ number. list_in number ≡ list) }
{
    match list {
        None => Some(0),
        Some(number) => {
            if number < 0xFFFF_FFFF {
                Some(number as u32 + 1)
            } else {
                None
            }
        }
    }
}

/// Whether the numbers of a block fit into few bytes.
#[inline(always)]
fn fits(block: &Block) -> bool
    ensures { result ≡ true → HasSmallNumbers block.now }
{
    block.depth < 65536
        && block.start <= 0xFFFF_FFFF
        && block.end <= 0xFFFF_FFFF
        && block.first <= block.last
        && block.first <= 0xFFFF_FFFF
        && block.last - block.first < 65536
        && block.task.is_none()
}

/// A block in few bytes, if it fits.
#[tactic(auto, unfolding(crate::specs::Packed::block_in))]
#[inline(always)]
fn small(block: &Block) -> Option<Form>
    ensures { IfSome result (λ form. block_in form ≡ block.now) }
{
    if !fits(block) {
        return None;
    }
    let kind = small_kind(block)?;
    let list = list_number(block.list)?;
    Some(Form::Small {
        kind,
        depth: block.depth as u16,
        count: (block.last - block.first) as u16,
        start: block.start as u32,
        end: block.end as u32,
        first: block.first as u32,
        list,
    })
}

#[tactic(auto, unfolding(crate::specs::Packed::block_in))]
#[inline(always)]
fn form_of(alloc: Global, block: &Block) -> Result<Form, AllocError>
    ensures { IfOk result (λ form. block_in form ≡ block.now) }
{
    match small(block) {
        Some(form) => Ok(form),
        None => Ok(Form::Whole(Box::new(alloc, *block)?)),
    }
}

/// Changes the end in place, if it fits there; whether it did.
#[tactic(auto, unfolding(crate::specs::Packed::block_in))]
fn set_end(form: &mut Form, to: usize) -> bool
    ensures done { result ≡ true → block_in form.new ≡ record (block_in form.old) { end = to } }
    ensures not_done { result ≡ false → form.new ≡ form.old }
{
    match form {
        Form::Whole(block) => {
            block.end = to;
            true
        }
        Form::Small { end, .. } => {
            if to <= 0xFFFF_FFFF {
                *end = to as u32;
                true
            } else {
                false
            }
        }
    }
}

/// Changes the last piece in place, if it fits there; whether it did.
#[tactic(auto, unfolding(crate::specs::Packed::block_in))]
fn set_last(form: &mut Form, to: usize) -> bool
    ensures done { result ≡ true → block_in form.new ≡ record (block_in form.old) { last = to } }
    ensures not_done { result ≡ false → form.new ≡ form.old }
{
    match form {
        Form::Whole(block) => {
            block.last = to;
            true
        }
        Form::Small { first, count, .. } => {
            let from = *first as usize;
            if from <= to && to - from < 65536 {
                *count = (to - from) as u16;
                true
            } else {
                false
            }
        }
    }
}

impl PackedBlock {
    /// Packs a block into few bytes, or puts it on the heap if it doesn't fit.
    #[inline(always)]
    pub fn new(alloc: Global, block: &Block) -> Result<PackedBlock, AllocError>
        ensures { IfOk result (λ packed. packed ≡ block.now) }
    {
        let form = form_of(alloc, block)?;
        Ok(PackedBlock { form })
    }

    /// Whether the block is a loose list.
    #[tactic(auto, unfolding(crate::specs::Packed::block_in))]
    pub fn is_loose(&self) -> bool
        ensures { result ≡ self.now.loose }
    {
        match &self.form {
            Form::Whole(block) => block.loose,
            Form::Small { kind, .. } => is_loose(*kind),
        }
    }

    /// The depth of the block.
    #[tactic(auto, unfolding(crate::specs::Packed::block_in))]
    pub fn depth(&self) -> usize
        ensures { result ≡ self.now.depth }
    {
        match &self.form {
            Form::Whole(block) => block.depth,
            Form::Small { depth, .. } => usize::from(*depth),
        }
    }

    /// The list of an item, or of a block that is directly in an item.
    #[tactic(auto, unfolding(crate::specs::Packed::block_in))]
    pub fn list(&self) -> Option<usize>
        ensures { result ≡ self.now.list }
    {
        match &self.form {
            Form::Whole(block) => block.list,
            Form::Small { list, .. } => list_of(*list),
        }
    }

    /// What the block is.
    #[tactic(auto, unfolding(crate::specs::Packed::block_in))]
    pub fn kind(&self) -> BlockKind
        ensures { result ≡ self.now.kind }
    {
        match &self.form {
            Form::Whole(block) => block.kind,
            Form::Small { kind, start, .. } => kind_of(*kind, *start),
        }
    }

    /// Where the block begins.
    #[tactic(auto, unfolding(crate::specs::Packed::block_in))]
    pub fn start(&self) -> usize
        ensures { result ≡ self.now.start }
    {
        match &self.form {
            Form::Whole(block) => block.start,
            Form::Small { start, .. } => *start as usize,
        }
    }

    /// Where the block ends.
    #[tactic(auto, unfolding(crate::specs::Packed::block_in))]
    pub fn end(&self) -> usize
        ensures { result ≡ self.now.end }
    {
        match &self.form {
            Form::Whole(block) => block.end,
            Form::Small { end, .. } => *end as usize,
        }
    }

    /// The first piece of a leaf.
    #[tactic(auto, unfolding(crate::specs::Packed::block_in))]
    pub fn first(&self) -> usize
        ensures { result ≡ self.now.first }
    {
        match &self.form {
            Form::Whole(block) => block.first,
            Form::Small { first, .. } => *first as usize,
        }
    }

    /// The place after the last piece of a leaf.
    #[tactic(auto, unfolding(crate::specs::Packed::block_in))]
    pub fn last(&self) -> usize
        ensures { result ≡ self.now.last }
    {
        match &self.form {
            Form::Whole(block) => block.last,
            Form::Small { first, count, .. } => *first as usize + usize::from(*count),
        }
    }

    /// Whether the block has the box of a task.
    #[tactic(auto, unfolding(crate::specs::Packed::block_in))]
    pub fn has_task(&self) -> bool
        ensures { result ≡ is_some self.now.task }
    {
        match &self.form {
            Form::Whole(block) => block.task.is_some(),
            Form::Small { .. } => false,
        }
    }

    /// Puts another block in its place.
    #[cold]
    #[inline(never)]
    fn replace(&mut self, alloc: Global, block: Block) -> Result<(), AllocError>
        ensures { OnOk result (self.new ≡ block) }
    {
        let form = form_of(alloc, &block)?;
        self.form = form;
        Ok(())
    }

    /// The block, where that is seldom needed: its fields would make the callers long.
    #[cold]
    #[inline(never)]
    fn unpacked(&self) -> Block
        ensures { result ≡ self.now }
    {
        self.block()
    }

    /// Ends the block, after its last piece.
    pub fn finish(&mut self, alloc: Global, end: usize, last: usize) -> Result<(), AllocError>
        ensures { OnOk result (self.new ≡ record self.old { end = end; last = last }) }
    {
        if set_end(&mut self.form, end) && set_last(&mut self.form, last) {
            return Ok(());
        }
        let block = self.unpacked();
        self.replace(alloc, Block { end, last, ..block })
    }

    /// Gives the block another start.
    pub fn set_start(&mut self, alloc: Global, start: usize) -> Result<(), AllocError>
        ensures { OnOk result (self.new ≡ record self.old { start = start }) }
    {
        if self.start() == start {
            return Ok(());
        }
        let block = self.unpacked();
        self.replace(alloc, Block { start, ..block })
    }

    /// Gives a leaf another first piece and another start.
    pub fn set_front(&mut self, alloc: Global, first: usize, start: usize) -> Result<(), AllocError>
        ensures { OnOk result (self.new ≡ record self.old { first = first; start = start }) }
    {
        if self.first() == first {
            return self.set_start(alloc, start);
        }
        let block = self.unpacked();
        self.replace(
            alloc,
            Block {
                first,
                start,
                ..block
            },
        )
    }

    /// Gives the block another end.
    pub fn set_end(&mut self, alloc: Global, end: usize) -> Result<(), AllocError>
        ensures { OnOk result (self.new ≡ record self.old { end = end }) }
    {
        if set_end(&mut self.form, end) {
            return Ok(());
        }
        let block = self.unpacked();
        self.replace(alloc, Block { end, ..block })
    }

    /// The block.
    #[tactic(auto, unfolding(crate::specs::Packed::block_in))]
    pub fn block(&self) -> Block
        ensures { result ≡ self.now }
    {
        match &self.form {
            Form::Whole(block) => **block,
            Form::Small {
                kind,
                depth,
                count,
                start,
                end,
                first,
                list,
            } => Block {
                depth: usize::from(*depth),
                kind: kind_of(*kind, *start),
                start: *start as usize,
                end: *end as usize,
                first: *first as usize,
                last: *first as usize + usize::from(*count),
                loose: is_loose(*kind),
                list: list_of(*list),
                task: None,
            },
        }
    }
}

/// The block at a place of a list.
pub fn block_at(blocks: &[PackedBlock], place: usize) -> Option<Block>
    ensures { result ≡ slice_get blocks.now place }
{
    match blocks.get(place) {
        None => None,
        Some(packed) => Some(packed.block()),
    }
}

/// Puts a block after the others.
#[inline(always)]
pub fn push_block(blocks: &mut Vec<PackedBlock>, block: Block) -> Result<(), AllocError>
    ensures { OnOk result (blocks.new.items ≡ blocks.old.items ++ block ∷ []) }
{
    let alloc = *blocks.allocator();
    blocks.push(PackedBlock::new(alloc, &block)?)?;
    Ok(())
}

/// Puts a block in the place of another. If the list is too short, nothing changes.
pub fn set_block(
    blocks: &mut Vec<PackedBlock>,
    place: usize,
    block: Block,
) -> Result<(), AllocError>
    ensures { OnOk result (blocks.new.items ≡ slice_set blocks.old.items place block) }
{
    let alloc = *blocks.allocator();
    let packed = PackedBlock::new(alloc, &block)?;
    if place < blocks.len() {
        blocks[place] = packed;
    }
    Ok(())
}

/// Gives the block at a place of a list another start. If the list is too short, nothing changes.
pub fn set_start_at(
    blocks: &mut Vec<PackedBlock>,
    place: usize,
    start: usize,
) -> Result<(), AllocError>
    ensures { OnOk result (blocks.new.items ≡ option_map_or
        (λ b. slice_set blocks.old.items place (record b { start = start }))
        (slice_get blocks.old.items place) blocks.old.items) }
{
    let alloc = *blocks.allocator();
    match blocks.get_mut(place) {
        None => Ok(()),
        Some(block) => block.set_start(alloc, start),
    }
}
