//! The definitions of definition lists.

ghost use Rattle.std.specs.Prelude.{◌≡◌};
ghost use Rattle.tocmark_read_lines.specs.DefinitionLists.{definition_at, begins_definition, definition_start};

use crate::cell::{Columns, Cursor, cell_byte, indent_of, ink_from, is_blank_at};
use tocmark_read_scan::syntax::Syntax;

/// A definition that a line begins.
#[derive(Clone, Copy)]
pub struct DefinitionStart {
    /// How many columns its lines are indented by.
    pub width: usize,
    /// The column of its text.
    pub next: usize,
}

/// The definition whose colon is at a cursor. The spaces after it belong to it: five or more count as
/// one.
#[tactic(auto, unfolding(crate::specs::DefinitionLists::definition_at))]
fn definition_at(cells: &Columns, cursor: Cursor) -> DefinitionStart
    ensures { result ≡ definition_at cells.now cursor }
{
    let behind = cursor.ink.saturating_add(1);
    let spaces = ink_from(cells, behind).saturating_sub(behind);
    let gap = if 5 <= spaces { 1 } else { spaces };
    DefinitionStart {
        width: indent_of(cursor).saturating_add(1).saturating_add(gap),
        next: behind.saturating_add(gap).min(cells.len()),
    }
}

/// Whether a colon is at a cursor, after at most three spaces.
#[tactic(auto, unfolding(crate::specs::DefinitionLists::begins_definition))]
fn begins_definition(cells: &Columns, cursor: Cursor) -> bool
    ensures { result ≡ begins_definition cells.now cursor }
{
    !is_blank_at(cells, cursor) && indent_of(cursor) <= 3 && cell_byte(cells, cursor.ink) == b':'
}

/// The definition that may begin at a cursor, where definition lists are read.
#[tactic(auto, unfolding(crate::specs::DefinitionLists::definition_start))]
pub fn definition_start(syntax: Syntax, cells: &Columns, cursor: Cursor) -> Option<DefinitionStart>
    ensures { result ≡ definition_start syntax cells.now cursor }
{
    if syntax.definition_lists && begins_definition(cells, cursor) {
        Some(definition_at(cells, cursor))
    } else {
        None
    }
}
