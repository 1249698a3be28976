//! Definitions of footnotes: what opens and what closes them.

ghost use Rattle.std.specs.Prelude.{◌≡◌, string_bytes, OnOk, ℕ, List, ◌++◌, codes, IfOk};
ghost use Rattle.tocmark_event.specs.View.{tag_view, FootnoteDefinition};
ghost use Rattle.tocmark_spelling.specs.Closing.{close_plain};
ghost use Rattle.tocmark_spelling.specs.Opening.{open_footnote};
ghost use Rattle.tocmark_write_blocks.specs.Leads.{Leads};
ghost use Rattle.tocmark_write_renderer.specs.WriterOf.{levels_of, page_of, Arrives};

use std::alloc::{AllocError, Global};
use tocmark_event::event::{TagEnd, TagOf};
use tocmark_spelling::trail::Last;
use tocmark_write_containers::content::OpeningChoice;
use tocmark_write_containers::prefix::Prefix;
use tocmark_write_renderer::renderer::Renderer;

/// Opens the definition of the footnote with this label.
pub fn open_footnote<'a>(
    renderer: &mut Renderer<'a>,
    alloc: Global,
    tag: &'a TagOf<String>,
    label: &str,
) -> Result<(), AllocError>
    requires tag { tag_view string_bytes tag.now ≡ FootnoteDefinition label.now }
    ensures stands { OnOk result (Arrives renderer.new
        (open_footnote label.now (levels_of renderer.old) (page_of renderer.old))) }
    ensures mark { renderer.new.at_mark ≡ renderer.old.at_mark }
{
    let mark = footnote_mark(alloc, label)?;
    renderer.write(mark.as_str())?;
    renderer.push_frame(tag, Prefix::Spaces(4), OpeningChoice::Plain)
}

/// The end of a footnote's definition.
pub fn close_footnote(renderer: &mut Renderer<'_>)
    ensures stands { (label : List ℕ) → Leads renderer.old renderer.new
        (close_plain (FootnoteDefinition label)) }
    ensures mark { renderer.new.at_mark ≡ renderer.old.at_mark }
{
    renderer.set_last(Last::BlockEnd(TagEnd::FootnoteDefinition));
}

/// What is before the definition of the footnote with this label.
pub fn footnote_mark(alloc: Global, label: &str) -> Result<String, AllocError>
    ensures { IfOk result (λ mark. string_bytes mark ≡ codes "[^" ++ label.now ++ codes "]: ") }
{
    format!(in alloc; "[^{label}]: ")
}
