//! Makes one text of each longest stretch of texts.

ghost use Rattle.std.specs.Prelude.{◌≡◌, ◌++◌, IfOk, OnOk, string_bytes};
ghost use Rattle.std.specs.Option.{option_map};
ghost use Rattle.tocmark_event.specs.Merged.{merged, or_empty, pending_text};
ghost use Rattle.tocmark_compare.specs.Given.{given_events};

use crate::compare::Placed;
use std::alloc::{AllocError, Global};
use tocmark_event::event::{CowStr, Event, Words};

/// A stretch of texts with one text more.
fn longer(alloc: Global, stretch: Option<String>, text: &str) -> Result<String, AllocError>
    ensures { IfOk result (λ whole.
        string_bytes whole ≡ or_empty (option_map string_bytes stretch) ++ text.now) }
{
    let mut whole = match stretch {
        None => String::new(alloc),
        Some(stretch) => stretch,
    };
    whole.push_str(text)?;
    Ok(whole)
}

/// Adds a stretch of texts as one, if there is one.
fn push_stretch(
    all: &mut Vec<Placed>,
    stretch: Option<String>,
    range: (usize, usize),
) -> Result<(), AllocError>
    ensures { OnOk result (given_events all.new.items
        ≡ given_events all.old.items ++ pending_text (option_map string_bytes stretch)) }
{
    if let Some(stretch) = stretch {
        all.push((Event::Text(CowStr::Owned(stretch)), range))?;
    }
    Ok(())
}

/// The bytes of a stretch of texts with one text more.
fn wider(is_begun: bool, range: (usize, usize), text: (usize, usize)) -> (usize, usize) {
    if is_begun { (range.0, text.1) } else { text }
}

/// Copies of events beside their bytes, with each longest stretch of texts as one. It fails if memory runs out.
pub fn merged(alloc: Global, events: &[Placed]) -> Result<Vec<Placed>, AllocError>
    ensures { IfOk result (λ all. given_events all.items ≡ merged (given_events events.now)) }
{
    let mut all = Vec::new(alloc);
    let mut stretch: Option<String> = None;
    let mut range = (0usize, 0usize);
    for pair in events {
        match &pair.0 {
            Event::Text(text) => {
                range = wider(stretch.is_some(), range, pair.1);
                stretch = Some(longer(alloc, stretch, text.words())?);
            }
            _ => {
                push_stretch(&mut all, stretch, range)?;
                stretch = None;
                all.push((pair.0.to_static(alloc)?, pair.1))?;
            }
        }
    }
    push_stretch(&mut all, stretch, range)?;
    Ok(all)
}
