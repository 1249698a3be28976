//! A renderer in the midst of a unit.

use std::alloc::{AllocError, Global};
use tocmark_event::event::{EventOf, OwnedEvent, TagOf};
use tocmark_spelling::list_choice::ListChoice;
use tocmark_write_containers::content::OpeningChoice;
use tocmark_write_containers::prefix::Prefix;
use tocmark_write_renderer::parts::{Held, Reference};
use tocmark_write_renderer::renderer::Renderer;

/// What is kept of an open container with this tag, so that what its children change shows.
fn content_of(alloc: Global, tag: &TagOf<String>) -> OpeningChoice {
    match tag {
        TagOf::List(number) => OpeningChoice::Listed(ListChoice {
            number: *number,
            token: '-',
            tight: true,
            wide: false,
            labelled: false,
        }),
        TagOf::Table(_) => OpeningChoice::Headers(Vec::new(alloc)),
        TagOf::TableCell => OpeningChoice::Width(0),
        _ => OpeningChoice::Plain,
    }
}

fn add_reference(renderer: &mut Renderer<'_>, alloc: Global) -> Result<(), AllocError> {
    let label = String::from_str(alloc, "label")?;
    let destination = String::from_str(alloc, "/u")?;
    renderer.add_reference(Reference {
        label,
        destination,
        title: String::new(alloc),
    })
}

fn hold(renderer: &mut Renderer<'_>, alloc: Global) -> Result<(), AllocError> {
    let text = String::from_str(alloc, "held")?;
    renderer.hold(Held {
        text,
        source: None,
        after_close: false,
    });
    Ok(())
}

/// Opens the container with this tag after a quote. Where it is a paragraph, markers are right before
/// its body, else a line feed.
fn open<'u>(
    renderer: &mut Renderer<'u>,
    alloc: Global,
    tag: &'u TagOf<String>,
) -> Result<(), AllocError> {
    renderer.put_text("a**")?;
    let line = String::from_str(alloc, ">")?;
    renderer.set_quote_line(Some(line));
    let feeds = match tag {
        TagOf::Paragraph => 0,
        _ => 1,
    };
    renderer.set_newlines(feeds);
    renderer.push_frame(tag, Prefix::Quote, content_of(alloc, tag))
}

/// Has an empty renderer are after this event, if that is a Start: in a line with some text, after a
/// definition, a quote line and a stretch of texts, and with its container open. These are there to come
/// back to.
pub fn enter<'u>(
    renderer: &mut Renderer<'u>,
    alloc: Global,
    event: &'u OwnedEvent,
) -> Result<(), AllocError> {
    match event {
        EventOf::Start(tag) => {
            add_reference(renderer, alloc)?;
            hold(renderer, alloc)?;
            open(renderer, alloc, tag)
        }
        _ => Ok(()),
    }
}
