//! Blocks that need a line of their own.

ghost use Rattle.std.specs.Prelude.{◌≡◌, OnOk};
ghost use Rattle.tocmark_spelling.specs.Opening.{on_new_line};
ghost use Rattle.tocmark_write_renderer.specs.WriterOf.{levels_of, page_of, Stands};

use std::alloc::AllocError;
use tocmark_write_renderer::renderer::Renderer;

/// Begins a line where none begins here, but not right after an item's marker.
pub fn begin_new_line(renderer: &mut Renderer<'_>) -> Result<(), AllocError>
    ensures stands { OnOk result (Stands renderer.new (levels_of renderer.old)
        (on_new_line (levels_of renderer.old) (page_of renderer.old))) }
    ensures mark { renderer.new.at_mark ≡ renderer.old.at_mark }
{
    if renderer.newlines() == 0 && !renderer.at_item_start() {
        renderer.write("\n")
    } else {
        Ok(())
    }
}
