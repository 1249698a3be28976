//! Headings: what opens and what closes them, with the texts of their marks, underlines and attributes.

ghost use Rattle.std.specs.Option.{option_map};
ghost use Rattle.std.specs.Prelude.{◌≡◌, string_bytes, false, OnOk, [], None, true, ◌++◌, map, codes, flat_map, IfOk};
ghost use Rattle.tocmark_event.specs.Options.{options_view};
ghost use Rattle.tocmark_event.specs.View.{tag_view, Heading, attribute_view};
ghost use Rattle.tocmark_spelling.specs.Closing.{underline, underline_of, close_heading, closing_of, id_text, value_text, attribute_text};
ghost use Rattle.tocmark_spelling.specs.Kinds.{is_heading};
ghost use Rattle.tocmark_spelling.specs.Look.{Look};
ghost use Rattle.tocmark_spelling.specs.Opening.{heading_mark, open_heading, entered};
ghost use Rattle.tocmark_spelling.specs.Page.{written, Underlined};
ghost use Rattle.tocmark_write_blocks.specs.Headings.{attributes_of};
ghost use Rattle.tocmark_write_blocks.specs.Leads.{Closes};
ghost use Rattle.tocmark_write_containers.specs.FrameOf.{content_view, level_of};
ghost use Rattle.tocmark_write_renderer.specs.WriterOf.{levels_of, page_of, Arrives, Comes};
ghost use Rattle.tocmark_write_texts.specs.Texts.{Grows};

use crate::trail::end_block;
use std::alloc::{AllocError, Global};
use tocmark_event::event::{HeadingLevel, TagEnd, TagOf};
use tocmark_event::options::{Error, Options};
use tocmark_write_containers::content::OpeningChoice;
use tocmark_write_containers::frame::Frame;
use tocmark_write_containers::prefix::Prefix;
use tocmark_write_renderer::renderer::Renderer;

fn heading_mark(level: HeadingLevel) -> &'static str
    ensures { result.now ≡ heading_mark level false }
{
    match level {
        HeadingLevel::H1 => "# ",
        HeadingLevel::H2 => "## ",
        HeadingLevel::H3 => "### ",
        HeadingLevel::H4 => "#### ",
        HeadingLevel::H5 => "##### ",
        HeadingLevel::H6 => "###### ",
    }
}

fn mark_of(level: HeadingLevel, underlined: bool) -> &'static str
    ensures { result.now ≡ heading_mark level underlined }
{
    if underlined { "" } else { heading_mark(level) }
}

/// Writes a heading's mark, and opens it.
fn enter_heading<'a>(
    renderer: &mut Renderer<'a>,
    tag: &'a TagOf<String>,
    level: HeadingLevel,
    broken: bool,
) -> Result<(), AllocError>
    ensures stands { OnOk result (Arrives renderer.new (entered
        (tag_view string_bytes tag.entry.now) [] (Underlined broken) (levels_of renderer.old)
        (written (levels_of renderer.old) (heading_mark level broken) (page_of renderer.old)))) }
    ensures mark { renderer.new.at_mark ≡ renderer.old.at_mark }
{
    renderer.write(mark_of(level, broken))?;
    renderer.push_frame(tag, Prefix::Empty, OpeningChoice::Underlined(broken))
}

/// Opens a heading of this level; `broken` says whether it goes over more than one line.
///
/// It fails if memory runs out, or if this is a heading in a heading.
pub fn open_heading<'a>(
    renderer: &mut Renderer<'a>,
    tag: &'a TagOf<String>,
    level: HeadingLevel,
    broken: bool,
) -> Result<(), Error>
    ensures comes { (l : Look) → l.broken ≡ broken → Comes result renderer.new (open_heading
        (tag_view string_bytes tag.entry.now) level l
        (levels_of renderer.old) (page_of renderer.old)) }
    ensures mark { renderer.new.at_mark ≡ renderer.old.at_mark }
{
    if renderer.outside().in_heading {
        return Err(Error::UnexpectedEvent);
    }
    enter_heading(renderer, tag, level, broken)?;
    Ok(())
}

fn underline(level: HeadingLevel) -> &'static str
    ensures { result.now ≡ underline level }
{
    match level {
        HeadingLevel::H1 => "\n===",
        _ => "\n---",
    }
}

fn underline_of(level: HeadingLevel, content: &OpeningChoice) -> &'static str
    ensures { result.now ≡ underline_of level (content_view content.now) }
{
    match content {
        OpeningChoice::Underlined(true) => underline(level),
        _ => "",
    }
}

/// Writes what ends a heading: its attributes, and its underline if it has one.
fn end_heading(
    renderer: &mut Renderer<'_>,
    options: &Options<'_>,
    level: HeadingLevel,
    attributes: &str,
    content: &OpeningChoice,
) -> Result<(), AllocError>
    ensures stands { Closes result renderer.old renderer.new
        (close_heading (options_view options.now) (Heading level None [] []) level
        attributes.now (content_view content.now)) }
    ensures mark { renderer.new.at_mark ≡ renderer.old.at_mark }
{
    renderer.write(attributes)?;
    renderer.write(underline_of(level, content))?;
    end_block(
        renderer,
        TagEnd::Heading(level),
        options.newlines_after_headline.max(1),
    );
    Ok(())
}

/// A heading's end, with its attributes and its underline if it has them.
pub fn close_heading(
    renderer: &mut Renderer<'_>,
    alloc: Global,
    options: &Options<'_>,
    heading: &Frame<'_>,
) -> Result<(), AllocError>
    requires heading { is_heading (level_of heading.now).tag ≡ true }
    ensures stands { Closes result renderer.old renderer.new
        (closing_of (options_view options.now) (level_of heading.now).tag (level_of heading.now)) }
    ensures mark { renderer.new.at_mark ≡ renderer.old.at_mark }
{
    match heading.tag {
        TagOf::Heading {
            level,
            id,
            classes,
            attrs,
        } => {
            let attributes = attributes_text(alloc, id, classes, attrs)?;
            end_heading(
                renderer,
                options,
                *level,
                attributes.as_str(),
                &heading.content,
            )
        }
        _ => Ok(()),
    }
}

/// Puts a heading's id after a text, with a space and `#` before it; nothing if there is none.
pub fn push_id(text: &mut String, id: &Option<String>) -> Result<(), AllocError>
    ensures { Grows result text.old text.new (id_text (option_map string_bytes id.now)) }
{
    match id {
        None => Ok(()),
        Some(id) => {
            text.push_str(" #")?;
            text.push_str(id.as_str())
        }
    }
}

fn push_classes(text: &mut String, classes: &[String]) -> Result<(), AllocError>
    ensures { Grows result text.old text.new
        (flat_map (λ c. codes " ." ++ c) (map string_bytes classes.now)) }
{
    for class in classes {
        text.push_str(" .")?;
        text.push_str(class.as_str())?;
    }
    Ok(())
}

fn push_value(text: &mut String, value: &Option<String>) -> Result<(), AllocError>
    ensures { Grows result text.old text.new (value_text (option_map string_bytes value.now)) }
{
    match value {
        None => Ok(()),
        Some(value) => {
            text.push_str("=")?;
            text.push_str(value.as_str())
        }
    }
}

/// Puts an attribute of a heading after a text, with a space before it: its name, and its value
/// after `=` if it has one.
pub fn push_attribute(
    text: &mut String,
    attribute: &(String, Option<String>),
) -> Result<(), AllocError>
    ensures { Grows result text.old text.new
        (attribute_text (attribute_view string_bytes attribute.now)) }
{
    text.push_str(" ")?;
    text.push_str(attribute.0.as_str())?;
    push_value(text, &attribute.1)
}

fn push_attributes(
    text: &mut String,
    attributes: &[(String, Option<String>)],
) -> Result<(), AllocError>
    ensures { Grows result text.old text.new
        (flat_map attribute_text (map (attribute_view string_bytes) attributes.now)) }
{
    for attribute in attributes {
        push_attribute(text, attribute)?;
    }
    Ok(())
}

/// What is after a heading's text: its id, classes and attributes in braces; nothing if there
/// are none.
pub fn attributes_text(
    alloc: Global,
    id: &Option<String>,
    classes: &[String],
    attributes: &[(String, Option<String>)],
) -> Result<String, AllocError>
    ensures { IfOk result (λ text.
        string_bytes text ≡ attributes_of id.now classes.now attributes.now) }
{
    let mut text = String::new(alloc);
    if id.is_none() && classes.is_empty() && attributes.is_empty() {
        return Ok(text);
    }
    text.push_str(" {")?;
    push_id(&mut text, id)?;
    push_classes(&mut text, classes)?;
    push_attributes(&mut text, attributes)?;
    text.push_str(" }")?;
    Ok(text)
}
