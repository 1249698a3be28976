//! The opening of each container but emphasis, links and images.

ghost use Rattle.std.specs.Prelude.{◌≡◌, string_bytes, true};
ghost use Rattle.tocmark_event.specs.View.{tag_view};
ghost use Rattle.tocmark_write_blocks.specs.AheadOf.{is_alone, is_opened};
ghost use Rattle.tocmark_write_renderer.specs.JobOf.{manner_view, options_in, setting_in, Reading};
ghost use Rattle.tocmark_write_renderer.specs.WriterOf.{levels_of, page_of, Comes};
ghost use Rattle.tocmark_spelling.specs.Look.{Look};
ghost use Rattle.tocmark_spelling.specs.Opening.{opening, opening_of};
ghost use Rattle.tocmark_spelling.specs.Plan.{Manner as AnyManner, Setting};
ghost use Rattle.tocmark_write_unit.specs.ToldOf.{IsTold};

use std::alloc::Global;
use tocmark_event::event::TagOf;
use tocmark_event::options::Error;
use tocmark_spelling::trail::Last;
use tocmark_write_blocks::ahead::Ahead;
use tocmark_write_blocks::code::open_code;
use tocmark_write_blocks::headings::open_heading;
use tocmark_write_blocks::html::open_html;
use tocmark_write_blocks::metadata::open_metadata;
use tocmark_write_blocks::paragraphs::open_plain;
use tocmark_write_blocks::quotes::open_quote;
use tocmark_write_inlines::delimiters::open_delimited;
use tocmark_write_lists::definition_lists::{open_definition, open_title};
use tocmark_write_lists::footnotes::open_footnote;
use tocmark_write_lists::items::open_item;
use tocmark_write_lists::lists::open_list;
use tocmark_write_renderer::job::{Job, Manner};
use tocmark_write_renderer::renderer::Renderer;
use tocmark_write_tables::tables::{open_cell, open_head, open_table};

/// Opens a block whose opening asks nothing of its body and of what follows.
///
/// It fails if memory runs out, or if the container may not be here.
fn open_alone<'a>(
    renderer: &mut Renderer<'a>,
    alloc: Global,
    tag: &'a TagOf<String>,
) -> Result<(), Error>
    requires alone { is_alone (tag_view string_bytes tag.now) ≡ true }
    ensures comes { (s : Setting) (m : AnyManner) (l : Look)
        → Comes result renderer.new (opening_of s m (tag_view string_bytes tag.entry.now) l
        (levels_of renderer.old) (page_of renderer.old)) }
    ensures mark { renderer.new.at_mark ≡ renderer.old.at_mark }
{
    match tag {
        TagOf::TableHead => open_head(renderer, tag),
        TagOf::TableCell => open_cell(renderer, tag),
        TagOf::BlockQuote(kind) => {
            open_quote(renderer, tag, *kind)?;
            Ok(())
        }
        TagOf::FootnoteDefinition(label) => {
            open_footnote(renderer, alloc, tag, label.as_str())?;
            Ok(())
        }
        TagOf::DefinitionListTitle => {
            open_title(renderer, tag)?;
            Ok(())
        }
        TagOf::Table(_) => {
            open_table(renderer, alloc, tag)?;
            Ok(())
        }
        TagOf::MetadataBlock(kind) => {
            open_metadata(renderer, tag, *kind)?;
            Ok(())
        }
        _ => {
            open_plain(renderer, tag)?;
            Ok(())
        }
    }
}

/// Opens a container that is neither emphasis nor a link or image, given what follows it and, where its
/// opening asks for it, what its body is like.
///
/// It fails if memory runs out, or if the container may not be here: a heading in a heading, an item
/// whose innermost container is no list, a table's head whose innermost container is no table, or a
/// cell in no table.
#[tactic(auto, unfolding(tocmark_spelling::specs::Opening::opening))]
pub fn open<'a>(
    renderer: &mut Renderer<'a>,
    job: Job<'_, '_>,
    manner: Manner<'_>,
    tag: &'a TagOf<String>,
    ahead: Ahead<'_>,
) -> Result<(), Error>
    requires opened { is_opened (tag_view string_bytes tag.now) ≡ true }
    ensures comes { (reading : Reading) (l : Look)
        → let t = tag_view string_bytes tag.entry.now in
        IsTold (options_in job.entry) t l ahead.entry
        → Comes result renderer.new
        (opening (setting_in job.entry reading) (manner_view manner.entry) t l
        (levels_of renderer.old) (page_of renderer.old)) }
    ensures mark { renderer.new.at_mark ≡ renderer.old.at_mark }
{
    renderer.set_last(Last::Other);
    match tag {
        TagOf::Heading { level, .. } => open_heading(renderer, tag, *level, ahead.body.broken),
        TagOf::CodeBlock(kind) => {
            open_code(renderer, job, tag, kind, ahead.longest)?;
            Ok(())
        }
        TagOf::HtmlBlock => {
            open_html(renderer, tag, ahead.blank, ahead.closed)?;
            Ok(())
        }
        TagOf::List(number) => {
            open_list(renderer, job, tag, *number, ahead)?;
            Ok(())
        }
        TagOf::Item => open_item(renderer, job, tag, ahead.body.empty),
        TagOf::DefinitionListDefinition => {
            open_definition(renderer, tag, ahead.body)?;
            Ok(())
        }
        TagOf::Strikethrough | TagOf::Superscript | TagOf::Subscript => {
            open_delimited(renderer, job, manner, tag)?;
            Ok(())
        }
        _ => open_alone(renderer, job.alloc, tag),
    }
}
