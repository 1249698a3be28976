//! What the server offers to do with a document: what can be done with its links and its headings, and to format it.

use crate::configured::{Configured, Unknown};
use crate::formatting::formatting_edits;
use tocmark_lsp_pages::actions::{ActionList, CONTENTS, MENDING, is_wanted};
use tocmark_lsp_pages::links::Asking;
use tocmark_lsp_pages::message::{Call, Fault};
use tocmark_lsp_pages::tree::Files;
use tocmark_lsp_pages::workspace::Workspace;

/// The kind of what formats a document.
const FORMAT: &str = "source.fixAll.tocmark";

/// Adds what formats a document, if it is one that is formatted.
fn add_format<F: Files>(
    actions: &mut ActionList<'_, F>,
    asking: &Asking<'_, F>,
    configured: &Result<Configured, Unknown>,
) -> Result<(), Fault> {
    let settings = match configured {
        Ok(configured) if !configured.is_excluded => configured.settings,
        Err(Unknown::OutOfMemory) => return Err(Fault::OutOfMemory),
        _ => return Ok(()),
    };
    let (alloc, encoding) = (asking.gathering.alloc, asking.encoding);
    let edits = formatting_edits(alloc, encoding, settings, asking.text, None)?;
    Ok(actions.add("Format this document", FORMAT, &edits)?)
}

/// What the server offers to do with a document, as JSON.
pub(crate) fn offered<F: Files>(
    workspace: &Workspace<'_, F>,
    asking: &Asking<'_, F>,
    configured: &Result<Configured, Unknown>,
    call: Call<'_>,
) -> Result<String, Fault> {
    let mut actions = ActionList::new(workspace, asking)?;
    if is_wanted(call, MENDING) {
        actions.add_mendings(call)?;
    }
    if is_wanted(call, FORMAT) {
        add_format(&mut actions, asking, configured)?;
    }
    if is_wanted(call, CONTENTS) {
        actions.add_contents()?;
    }
    Ok(actions.finish()?)
}
