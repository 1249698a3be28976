//! Reads Markdown, moves each heading one level down, and writes it anew.

ghost use Rattle.std.specs.Prelude.{◌≡◌, map, IfOk, string_bytes};
ghost use Rattle.tocmark_event.specs.Text.{text_of};
ghost use Rattle.tocmark_event.specs.View.{event_view};
ghost use Rattle.examples.specs.Headings.{below, lowered, IsLowered};

use std::alloc::Global;
use std::io::{self, Read};
use tocmark::core_reader::CoreReader;
use tocmark::event::{Event, HeadingLevel, ParserOptions, Tag, TagEnd};
use tocmark::reader::Reader;
use tocmark::{Error, cmark};

/// The level below; there is none below the sixth.
fn below(level: HeadingLevel) -> HeadingLevel
    ensures { result ≡ below level }
{
    match level {
        HeadingLevel::H1 => HeadingLevel::H2,
        HeadingLevel::H2 => HeadingLevel::H3,
        HeadingLevel::H3 => HeadingLevel::H4,
        HeadingLevel::H4 => HeadingLevel::H5,
        HeadingLevel::H5 | HeadingLevel::H6 => HeadingLevel::H6,
    }
}

/// Moves an event one level down if it begins or ends a heading.
fn lower(event: &mut Event<'static>)
    ensures { event_view text_of event.new ≡ lowered (event_view text_of event.old) }
{
    match event {
        Event::Start(Tag::Heading { level, .. }) => *level = below(*level),
        Event::End(TagEnd::Heading(level)) => *level = below(*level),
        _ => {}
    }
}

/// Moves each heading one level down.
fn lower_all(events: &mut [(Event<'static>, (usize, usize))])
    ensures { map (λ e. event_view text_of e.0) events.new
        ≡ map (λ e. lowered (event_view text_of e.0)) events.old }
{
    for (event, _range) in events.iter_mut() {
        lower(event);
    }
}

/// The text, with each heading one level down.
fn rewritten(alloc: Global, text: &str) -> Result<String, Error>
    ensures { IfOk result (λ output. IsLowered text.now (string_bytes output)) }
{
    let flags = ParserOptions::empty();
    let mut reading = CoreReader.read(alloc, text, flags)?;
    lower_all(&mut reading.events);
    let mut output = String::new(alloc);
    cmark(alloc, reading.events(), &mut output, CoreReader, flags)?;
    Ok(output)
}

/// Reads, lowers and writes.
pub(crate) fn run<R: Read>(rt: &HostRuntime, input: &mut R) -> anyhow::Result<()> {
    let text = io::read_to_string(rt.alloc(), input)?;
    let output = rewritten(rt.alloc(), text.as_str())?;
    print!(rt; "{output}")?;
    Ok(())
}
