//! What ends a container, by its tag.

ghost use Rattle.std.specs.Prelude.{◌≡◌, true};
ghost use Rattle.tocmark_event.specs.Options.{options_view};
ghost use Rattle.tocmark_spelling.specs.Closing.{closing_of};
ghost use Rattle.tocmark_write_containers.specs.FrameOf.{level_of};
ghost use Rattle.tocmark_write_blocks.specs.Leads.{Closes, is_closed};

use std::alloc::{AllocError, Global};
use tocmark_event::event::TagOf;
use tocmark_event::options::Options;
use tocmark_write_blocks::code::close_code;
use tocmark_write_blocks::headings::close_heading;
use tocmark_write_blocks::html::close_html;
use tocmark_write_blocks::metadata::close_metadata;
use tocmark_write_blocks::paragraphs::close_paragraph;
use tocmark_write_blocks::quotes::close_quote;
use tocmark_write_containers::frame::Frame;
use tocmark_write_inlines::delimiters::close_delimited;
use tocmark_write_lists::definition_lists::{close_definition, close_definition_list, close_title};
use tocmark_write_lists::footnotes::close_footnote;
use tocmark_write_lists::items::close_item;
use tocmark_write_lists::lists::close_list;
use tocmark_write_renderer::renderer::Renderer;
use tocmark_write_tables::tables::{close_cell, close_head, close_row, close_table};

/// The end of a container that is neither a link nor an image, in the containers outside.
///
/// It fails if memory runs out, or if the line feeds after metadata would be too many for a `usize`.
pub fn close(
    renderer: &mut Renderer<'_>,
    alloc: Global,
    options: &Options<'_>,
    frame: &Frame<'_>,
) -> Result<(), AllocError>
    requires closed { is_closed (level_of frame.now).tag ≡ true }
    ensures stands { Closes result renderer.old renderer.new
        (closing_of (options_view options.now) (level_of frame.now).tag (level_of frame.now)) }
    ensures mark { renderer.new.at_mark ≡ renderer.old.at_mark }
{
    match frame.tag {
        TagOf::Paragraph => close_paragraph(renderer, options),
        TagOf::Heading { .. } => close_heading(renderer, alloc, options, frame)?,
        TagOf::BlockQuote(kind) => close_quote(renderer, alloc, options, *kind)?,
        TagOf::CodeBlock(_) => close_code(renderer, options, &frame.content)?,
        TagOf::HtmlBlock => close_html(renderer, options, &frame.content),
        TagOf::List(number) => close_list(renderer, options, *number, &frame.content),
        TagOf::Item => close_item(renderer, options),
        TagOf::FootnoteDefinition(_) => close_footnote(renderer),
        TagOf::DefinitionList => close_definition_list(renderer, options),
        TagOf::DefinitionListTitle => close_title(renderer),
        TagOf::DefinitionListDefinition => close_definition(renderer)?,
        TagOf::Table(_) => close_table(renderer, options),
        TagOf::TableHead => close_head(renderer, alloc)?,
        TagOf::TableRow => close_row(renderer)?,
        TagOf::TableCell => close_cell(renderer, &frame.content)?,
        TagOf::MetadataBlock(kind) => close_metadata(renderer, options, *kind)?,
        _ => close_delimited(renderer, &frame.content)?,
    }
    Ok(())
}
