//! The leaf block that is open.

ghost use Rattle.std.specs.Prelude.{◌≡◌};
ghost use Rattle.tocmark_read_page.specs.Leaves.{is_paragraph, is_table};

use tocmark_event::event::MetadataBlockKind;
use tocmark_read_lines::beginnings::Fence;
use tocmark_read_lines::html::HtmlKind;

/// A table that is open.
#[derive(Clone, Copy)]
pub struct Table {
    /// The number of its block.
    pub block: usize,
    /// How many cells each of its rows has.
    pub columns: usize,
    /// How many cells the rows of the tables up to here lack in all, its own among them.
    pub filled: usize,
}

/// The leaf block that is open.
#[derive(Clone, Copy)]
pub enum Leaf {
    /// None is open.
    Nothing,
    /// A paragraph.
    Paragraph,
    /// Indented code.
    Indented,
    /// A fenced code block, with the fence that opened it.
    Fenced(Fence),
    /// An HTML block of this kind.
    Html(HtmlKind),
    /// Metadata of this kind.
    Metadata(MetadataBlockKind),
    /// A table.
    Table(Table),
}

/// Whether the leaf that is open is a paragraph.
#[tactic(auto, unfolding(crate::specs::Leaves::is_paragraph))]
pub fn is_paragraph(leaf: Leaf) -> bool
    ensures { result ≡ is_paragraph leaf }
{
    match leaf {
        Leaf::Paragraph => true,
        Leaf::Nothing => false,
        Leaf::Indented => false,
        Leaf::Fenced(_) => false,
        Leaf::Html(_) => false,
        Leaf::Metadata(_) => false,
        Leaf::Table(_) => false,
    }
}

/// Whether the leaf that is open is a table.
#[tactic(auto, unfolding(crate::specs::Leaves::is_table))]
pub fn is_table(leaf: Leaf) -> bool
    ensures { result ≡ is_table leaf }
{
    match leaf {
        Leaf::Paragraph => false,
        Leaf::Nothing => false,
        Leaf::Indented => false,
        Leaf::Fenced(_) => false,
        Leaf::Html(_) => false,
        Leaf::Metadata(_) => false,
        Leaf::Table(_) => true,
    }
}
