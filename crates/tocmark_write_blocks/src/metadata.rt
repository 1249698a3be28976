//! Metadata: what opens and what closes it.

ghost use Rattle.std.specs.Prelude.{◌≡◌, string_bytes, OnOk};
ghost use Rattle.tocmark_event.specs.Options.{options_view};
ghost use Rattle.tocmark_event.specs.View.{tag_view, MetadataBlock};
ghost use Rattle.tocmark_spelling.specs.Closing.{close_metadata};
ghost use Rattle.tocmark_spelling.specs.Opening.{open_metadata, metadata_fence};
ghost use Rattle.tocmark_write_blocks.specs.Leads.{Closes};
ghost use Rattle.tocmark_write_renderer.specs.WriterOf.{levels_of, page_of, Arrives};

use crate::paragraphs::open_plain;
use crate::trail::end_block;
use std::alloc::AllocError;
use tocmark_event::event::{MetadataBlockKind, TagEnd, TagOf};
use tocmark_event::options::Options;
use tocmark_write_renderer::renderer::Renderer;

/// Opens metadata of this kind, below the line that opens it.
pub fn open_metadata<'a>(
    renderer: &mut Renderer<'a>,
    tag: &'a TagOf<String>,
    kind: MetadataBlockKind,
) -> Result<(), AllocError>
    requires tag { tag_view string_bytes tag.now ≡ MetadataBlock kind }
    ensures stands { OnOk result (Arrives renderer.new
        (open_metadata kind (levels_of renderer.old) (page_of renderer.old))) }
    ensures mark { renderer.new.at_mark ≡ renderer.old.at_mark }
{
    renderer.write(metadata_fence(kind))?;
    open_plain(renderer, tag)
}

/// The end of metadata of this kind, with the line that opened it.
///
/// The line feeds that it owes are one more than the options ask for, the greatest `usize` at most.
pub fn close_metadata(
    renderer: &mut Renderer<'_>,
    options: &Options<'_>,
    kind: MetadataBlockKind,
) -> Result<(), AllocError>
    ensures stands { Closes result renderer.old renderer.new
        (close_metadata (options_view options.now) kind) }
    ensures mark { renderer.new.at_mark ≡ renderer.old.at_mark }
{
    let owed = options.newlines_after_metadata.saturating_add(1);
    renderer.write(metadata_fence(kind))?;
    end_block(renderer, TagEnd::MetadataBlock(kind), owed);
    Ok(())
}

/// The line that opens and closes metadata of this kind, with its line feed.
pub fn metadata_fence(kind: MetadataBlockKind) -> &'static str
    ensures { result.now ≡ metadata_fence kind }
{
    match kind {
        MetadataBlockKind::YamlStyle => "---\n",
        MetadataBlockKind::PlusesStyle => "+++\n",
    }
}
