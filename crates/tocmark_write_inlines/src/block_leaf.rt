//! Blocks that are leaves: HTML and thematic breaks.

ghost use Rattle.std.specs.Prelude.{◌≡◌, string_bytes, OnOk};
ghost use Rattle.tocmark_event.specs.Options.{options_view};
ghost use Rattle.tocmark_event.specs.View.{event_view};
ghost use Rattle.tocmark_spelling.specs.Gap.{is_inline, is_item_opening};
ghost use Rattle.tocmark_spelling.specs.Stretch.{html_on};
ghost use Rattle.tocmark_write_renderer.specs.WriterOf.{levels_of, page_of};
ghost use Rattle.tocmark_write_inlines.specs.Led.{rule_led, rule_text_in, ruled_on, StandsAt};

use std::alloc::AllocError;
use tocmark_event::event::OwnedEvent;
use tocmark_event::options::Options;
use tocmark_spelling::trail::Last;
use tocmark_write_renderer::renderer::Renderer;

/// Writes HTML, which has no gap.
pub fn write_html(renderer: &mut Renderer<'_>, text: &str) -> Result<(), AllocError>
    ensures stands { OnOk result
        (StandsAt renderer.new (html_on text.now (levels_of renderer.old) (page_of renderer.old))) }
    ensures mark { renderer.new.at_mark ≡ renderer.old.at_mark }
{
    renderer.write(text)?;
    renderer.set_last(Last::Other);
    Ok(())
}

fn is_inline(last: Last) -> bool
    ensures { result ≡ is_inline last }
{
    matches!(last, Last::Inline)
}

fn is_item_opening(last: Last) -> bool
    ensures { result ≡ is_item_opening last }
{
    matches!(last, Last::ItemStart)
}

/// A thematic break, by what was written last and whether a bullet list with hyphens is open.
fn rule_text(last: Last, in_hyphen_list: bool) -> &'static str
    ensures { result.now ≡ rule_text_in last in_hyphen_list }
{
    if is_inline(last) || (is_item_opening(last) && in_hyphen_list) {
        "***"
    } else {
        "---"
    }
}

/// Writes a thematic break that is after its gap, and says how many line feeds it owes.
fn write_ruled(renderer: &mut Renderer<'_>, options: &Options<'_>) -> Result<(), AllocError>
    ensures stands { OnOk result (StandsAt renderer.new
        (ruled_on (options_view options.now) (levels_of renderer.old) (page_of renderer.old))) }
    ensures mark { renderer.new.at_mark ≡ renderer.old.at_mark }
{
    let text = rule_text(renderer.carried().last, renderer.outside().in_hyphen_list);
    renderer.write(text)?;
    renderer.set_last(Last::Other);
    renderer.owe(options.newlines_after_rule.max(1));
    Ok(())
}

/// Writes a thematic break after its gap.
pub fn write_rule(
    renderer: &mut Renderer<'_>,
    options: &Options<'_>,
    event: &OwnedEvent,
) -> Result<(), AllocError>
    ensures stands { OnOk result (StandsAt renderer.new (rule_led (options_view options.now)
        (event_view string_bytes event.now) (levels_of renderer.old) (page_of renderer.old))) }
    ensures mark { renderer.new.at_mark ≡ renderer.old.at_mark }
{
    renderer.write_gap(event)?;
    write_ruled(renderer, options)
}
