//! Definition lists: what opens and what closes them, their titles and their definitions.

ghost use Rattle.std.specs.Option.{option_map};
ghost use Rattle.std.specs.Prelude.{◌≡◌, ◌==◌, ◌&&◌, not, codes, if◌then◌else◌, length, string_bytes, OnOk, max};
ghost use Rattle.tocmark_event.specs.Options.{options_view};
ghost use Rattle.tocmark_event.specs.View.{tag_view, DefinitionListDefinition, DefinitionListTitle, DefinitionList};
ghost use Rattle.tocmark_spelling.specs.Closing.{close_block, with_quote_end, with_line_end, close_definition};
ghost use Rattle.tocmark_spelling.specs.Gap.{forget_quote, with_quote_line};
ghost use Rattle.tocmark_spelling.specs.Look.{Look};
ghost use Rattle.tocmark_spelling.specs.Opening.{open_definition, open_title};
ghost use Rattle.tocmark_spelling.specs.Page.{filled_to, written};
ghost use Rattle.tocmark_spelling.specs.Places.{at_item_start};
ghost use Rattle.tocmark_write_blocks.specs.Leads.{Closes, Leads, OnPage};
ghost use Rattle.tocmark_write_pending.specs.BodyFacts.{IsForeseen};
ghost use Rattle.tocmark_write_renderer.specs.WriterOf.{levels_of, page_of, Arrives, Stands};

use std::alloc::AllocError;
use tocmark_event::event::{TagEnd, TagOf};
use tocmark_event::options::Options;
use tocmark_spelling::trail::Last;
use tocmark_write_blocks::new_line::begin_new_line;
use tocmark_write_blocks::paragraphs::open_plain;
use tocmark_write_blocks::trail::end_block;
use tocmark_write_containers::content::OpeningChoice;
use tocmark_write_containers::prefix::Prefix;
use tocmark_write_pending::body_facts::BodyFacts;
use tocmark_write_renderer::renderer::Renderer;

/// Begins a line for a title where none begins here, but not at the front of a unit or right after
/// an item's marker.
fn begin_title(renderer: &mut Renderer<'_>) -> Result<(), AllocError>
    ensures stands { OnOk result (Stands renderer.new (levels_of renderer.old)
        (if ((page_of renderer.old).sheet.feeds == 0)
        && not (length (page_of renderer.old).sheet.text == 0)
        && not (at_item_start (levels_of renderer.old) (page_of renderer.old))
        then written (levels_of renderer.old) (codes "\n") (page_of renderer.old)
        else page_of renderer.old)) }
    ensures mark { renderer.new.at_mark ≡ renderer.old.at_mark }
{
    if renderer.is_empty() {
        Ok(())
    } else {
        begin_new_line(renderer)
    }
}

/// Opens a title in a definition list, on a line of its own, but after an item's marker.
pub fn open_title<'a>(renderer: &mut Renderer<'a>, tag: &'a TagOf<String>) -> Result<(), AllocError>
    requires tag { tag_view string_bytes tag.now ≡ DefinitionListTitle }
    ensures stands { OnOk result (Arrives renderer.new
        (open_title (levels_of renderer.old) (page_of renderer.old))) }
    ensures mark { renderer.new.at_mark ≡ renderer.old.at_mark }
{
    begin_title(renderer)?;
    open_plain(renderer, tag)
}

/// Writes a blank line if one is needed.
fn fill_if(renderer: &mut Renderer<'_>, needed: bool) -> Result<(), AllocError>
    ensures stands { OnOk result (Stands renderer.new (levels_of renderer.old)
        (if needed then filled_to 2 (levels_of renderer.old) (page_of renderer.old)
        else page_of renderer.old)) }
    ensures mark { renderer.new.at_mark ≡ renderer.old.at_mark }
{
    if needed { renderer.fill(2) } else { Ok(()) }
}

/// Opens a definition in a definition list, whose body is like this: a blank line is before it
/// if the body begins with a paragraph.
pub fn open_definition<'a>(
    renderer: &mut Renderer<'a>,
    tag: &'a TagOf<String>,
    body: BodyFacts,
) -> Result<(), AllocError>
    requires tag { tag_view string_bytes tag.now ≡ DefinitionListDefinition }
    ensures stands { (l : Look) → IsForeseen l body → OnOk result (Arrives renderer.new
        (open_definition l (levels_of renderer.old) (page_of renderer.old))) }
    ensures mark { renderer.new.at_mark ≡ renderer.old.at_mark }
{
    fill_if(renderer, body.begins_paragraph)?;
    renderer.write(definition_mark())?;
    renderer.push_frame(
        tag,
        Prefix::Spaces(2),
        OpeningChoice::Defined(body.has_paragraph),
    )
}

/// A definition list's end.
pub fn close_definition_list(renderer: &mut Renderer<'_>, options: &Options<'_>)
    ensures stands { Leads renderer.old renderer.new
        (close_block DefinitionList (max (options_view options.now).newlines_after_list 2)) }
    ensures mark { renderer.new.at_mark ≡ renderer.old.at_mark }
{
    end_block(
        renderer,
        TagEnd::DefinitionList,
        options.newlines_after_list.max(2),
    );
}

/// The end of a title in a definition list.
pub fn close_title(renderer: &mut Renderer<'_>)
    ensures stands { Leads renderer.old renderer.new (close_block DefinitionListTitle 1) }
    ensures mark { renderer.new.at_mark ≡ renderer.old.at_mark }
{
    end_block(renderer, TagEnd::DefinitionListTitle, 1);
}

/// Writes a line, if there is one, on a line of its own; it is its own prefix.
fn write_line(renderer: &mut Renderer<'_>, line: &Option<String>) -> Result<(), AllocError>
    ensures stands { OnOk result (OnPage renderer.old renderer.new
        (with_quote_line (option_map string_bytes line.now))) }
    ensures mark { renderer.new.at_mark ≡ renderer.old.at_mark }
{
    match line {
        None => Ok(()),
        Some(line) => {
            renderer.fill(1)?;
            renderer.write_alone(line.as_str())
        }
    }
}

/// Writes out a quote that has to go on, unless HTML is open; no quote goes on from here.
fn end_quote(renderer: &mut Renderer<'_>) -> Result<(), AllocError>
    ensures stands { OnOk result (OnPage renderer.old renderer.new
        (λ path p. forget_quote (with_quote_end path p))) }
    ensures mark { renderer.new.at_mark ≡ renderer.old.at_mark }
{
    let line = renderer.take_quote_line()?;
    if renderer.carried().open_html {
        Ok(())
    } else {
        write_line(renderer, &line)
    }
}

/// Ends the line, unless raw text ended inside it.
fn end_line(renderer: &mut Renderer<'_>) -> Result<(), AllocError>
    ensures stands { OnOk result (OnPage renderer.old renderer.new with_line_end) }
    ensures mark { renderer.new.at_mark ≡ renderer.old.at_mark }
{
    if renderer.carried().raw_end {
        Ok(())
    } else {
        renderer.fill(1)
    }
}

/// The end of a definition in a definition list: a quote that has to go on is written out, and the
/// line is ended.
pub fn close_definition(renderer: &mut Renderer<'_>) -> Result<(), AllocError>
    ensures stands { Closes result renderer.old renderer.new close_definition }
    ensures mark { renderer.new.at_mark ≡ renderer.old.at_mark }
{
    end_quote(renderer)?;
    end_line(renderer)?;
    renderer.owe(1);
    renderer.set_last(Last::DefinitionEnd);
    Ok(())
}

/// What is before a definition in a definition list.
pub fn definition_mark() -> &'static str
    ensures { result.now ≡ codes ": " }
{
    ": "
}
