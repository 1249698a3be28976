//! What is carried along to a container's right neighbour: what closings change of it.

ghost use Rattle.std.specs.Prelude.{◌≡◌};
ghost use Rattle.tocmark_spelling.specs.Closing.{with_raw_end};
ghost use Rattle.tocmark_spelling.specs.Page.{raised, with_owed, with_last};
ghost use Rattle.tocmark_spelling.specs.declared.trail.Last.TheVariants.{BlockEnd};
ghost use Rattle.tocmark_write_blocks.specs.Leads.{OnTrail, OnPage};

use tocmark_event::event::TagEnd;
use tocmark_spelling::trail::{Last, LastList};
use tocmark_write_renderer::renderer::Renderer;

/// Says which list ended last.
pub fn set_last_list(renderer: &mut Renderer<'_>, list: Option<LastList>)
    ensures stands { OnTrail renderer.old renderer.new (λ t. record t { last_list = list }) }
    ensures mark { renderer.new.at_mark ≡ renderer.old.at_mark }
{
    renderer.set_carried(renderer.carried().with_last_list(list));
}

/// Says whether raw text ended without a line feed.
pub fn set_raw_end(renderer: &mut Renderer<'_>, raw_end: bool)
    ensures stands { OnTrail renderer.old renderer.new (λ t. record t { raw_end = raw_end }) }
    ensures mark { renderer.new.at_mark ≡ renderer.old.at_mark }
{
    renderer.set_carried(renderer.carried().with_raw_end(raw_end));
}

/// Says whether HTML is open.
pub fn set_open_html(renderer: &mut Renderer<'_>, open_html: bool)
    ensures stands { OnTrail renderer.old renderer.new (λ t. record t { open_html = open_html }) }
    ensures mark { renderer.new.at_mark ≡ renderer.old.at_mark }
{
    renderer.set_carried(renderer.carried().with_open_html(open_html));
}

/// Says that at least so many line feeds are owed.
pub fn owe_at_least(renderer: &mut Renderer<'_>, lines: usize)
    ensures stands { OnTrail renderer.old renderer.new (raised lines) }
    ensures mark { renderer.new.at_mark ≡ renderer.old.at_mark }
{
    renderer.set_carried(renderer.carried().raised(lines));
}

/// Says that a block ended last, and that so many line feeds are owed after it.
pub fn end_block(renderer: &mut Renderer<'_>, end: TagEnd, owed: usize)
    ensures stands { OnPage renderer.old renderer.new
        (λ path p. with_owed owed (with_last (BlockEnd end) p)) }
    ensures mark { renderer.new.at_mark ≡ renderer.old.at_mark }
{
    renderer.set_last(Last::BlockEnd(end));
    renderer.owe(owed);
}

/// Notes whether raw text ended without a line feed.
pub fn note_raw_end(renderer: &mut Renderer<'_>)
    ensures stands { OnPage renderer.old renderer.new (λ path p. with_raw_end p) }
    ensures mark { renderer.new.at_mark ≡ renderer.old.at_mark }
{
    let raw_end = renderer.newlines() == 0;
    set_raw_end(renderer, raw_end);
}
