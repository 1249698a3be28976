//! Paragraphs and other containers whose openings write nothing.

ghost use Rattle.std.specs.Prelude.{◌≡◌, string_bytes, OnOk, max};
ghost use Rattle.tocmark_event.specs.Options.{options_view};
ghost use Rattle.tocmark_event.specs.View.{tag_view, Paragraph};
ghost use Rattle.tocmark_spelling.specs.Closing.{close_block};
ghost use Rattle.tocmark_spelling.specs.Opening.{open_plain};
ghost use Rattle.tocmark_write_blocks.specs.Leads.{Leads};
ghost use Rattle.tocmark_write_renderer.specs.WriterOf.{levels_of, page_of, Arrives};

use crate::trail::end_block;
use std::alloc::AllocError;
use tocmark_event::event::{TagEnd, TagOf};
use tocmark_event::options::Options;
use tocmark_write_containers::content::OpeningChoice;
use tocmark_write_containers::prefix::Prefix;
use tocmark_write_renderer::renderer::Renderer;

/// Opens a container that writes nothing and keeps nothing.
pub fn open_plain<'a>(renderer: &mut Renderer<'a>, tag: &'a TagOf<String>) -> Result<(), AllocError>
    ensures stands { OnOk result (Arrives renderer.new (open_plain
        (tag_view string_bytes tag.entry.now) (levels_of renderer.old) (page_of renderer.old))) }
    ensures mark { renderer.new.at_mark ≡ renderer.old.at_mark }
{
    renderer.push_frame(tag, Prefix::Empty, OpeningChoice::Plain)
}

/// A paragraph's end.
pub fn close_paragraph(renderer: &mut Renderer<'_>, options: &Options<'_>)
    ensures stands { Leads renderer.old renderer.new
        (close_block Paragraph (max (options_view options.now).newlines_after_paragraph 2)) }
    ensures mark { renderer.new.at_mark ≡ renderer.old.at_mark }
{
    end_block(
        renderer,
        TagEnd::Paragraph,
        options.newlines_after_paragraph.max(2),
    );
}
