//! What a run of delimiters may border on.

ghost use Rattle.std.specs.Prelude.{◌≡◌, ◌&&◌, ◌||◌, ◌<◌, not, ℕ, List, Some, None, Option, IfOk, map, encode_utf8, codes, ◌++◌, string_bytes};
ghost use Rattle.std.specs.List.{list_any};
ghost use Rattle.tocmark_event.specs.Options.{OptionsView};
ghost use Rattle.tocmark_event.specs.Reading.{reading_view};
ghost use Rattle.tocmark_event.specs.declared.event.flags.ParserOptions.{ParserOptions};
ghost use Rattle.tocmark_event.specs.Text.{text_of};
ghost use Rattle.tocmark_event.specs.View.{event_view};
ghost use Rattle.tocmark_spelling.specs.ById.{events_of};
ghost use Rattle.tocmark_write_texts.specs.Characters.{is_white_space};
ghost use Rattle.tocmark_spelling.specs.Edges.{opens_behind, is_boundary};
ghost use Rattle.tocmark_spelling.specs.Kinds.{starts, is_emphasis};
ghost use Rattle.tocmark_spelling.specs.PlanOf.{setting_of};
ghost use Rattle.tocmark_spelling.specs.Runs.{disturbs_at};

use std::alloc::{AllocError, Global};
use tocmark_event::event::{Event, EventOf, ParserOptions, TagOf};
use tocmark_event::reader::Reader;

fn starts_emphasis(event: &Event<'static>) -> bool
    ensures { result ≡ starts is_emphasis (event_view text_of event.now) }
{
    matches!(event, EventOf::Start(TagOf::Emphasis))
}

fn finds_emphasis(events: &[(Event<'static>, (usize, usize))]) -> bool
    ensures { result ≡ list_any (λ e. starts is_emphasis (event_view text_of e.0)) events.now }
{
    for (event, _) in events {
        if starts_emphasis(event) {
            return true;
        }
    }
    false
}

/// Whether the reader opens emphasis after a character.
fn opens_behind<R: Reader>(alloc: Global, reader: &R, character: char) -> Result<bool, AllocError>
    ensures { (o : OptionsView) (flags : ParserOptions) (label : Option (List ℕ))
        → IfOk result (λ opens.
        opens ≡ opens_behind (setting_of o flags (R.reading reader.now) label) character) }
{
    let mut text = String::new(alloc);
    text.push(character)?;
    text.push_str("_x_")?;
    let found = reader.read(alloc, text.as_str(), ParserOptions(0))?;
    Ok(finds_emphasis(&found.events))
}

/// Whether `_` may open or close emphasis beside a character.
#[tactic(auto, unfolding(tocmark_spelling::specs::Edges::is_boundary))]
pub fn is_boundary<R: Reader>(
    alloc: Global,
    reader: &R,
    character: Option<char>,
) -> Result<bool, AllocError>
    ensures { (o : OptionsView) (flags : ParserOptions) (label : Option (List ℕ))
        → IfOk result (λ boundary.
        boundary ≡ is_boundary (setting_of o flags (R.reading reader.now) label) character) }
{
    match character {
        None => Ok(true),
        Some(character) => {
            if character.is_ascii() {
                Ok(character.is_ascii_whitespace() || character.is_ascii_punctuation())
            } else {
                opens_behind(alloc, reader, character)
            }
        }
    }
}
