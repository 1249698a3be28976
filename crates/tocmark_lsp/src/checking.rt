//! What is wrong in a document: links that lead nowhere, and blocks that formatting leaves as they are.

use crate::configured::{Configured, Unknown};
use crate::formatting::formatted_as;
use std::alloc::AllocError;
use tocmark_format::Left;
use tocmark_lsp_pages::lined::{Lined, Span};
use tocmark_lsp_pages::links::{Asking, front_of};
use tocmark_lsp_pages::problems::{add_broken, add_problem};
use tocmark_lsp_pages::tree::Files;

/// The range of a block that is left as it is.
fn left_span(lined: &Lined<'_>, left: &Left) -> Span {
    let (first, last) = left.lines;
    Span {
        start: front_of(first).start,
        stop: lined.line_end(last.saturating_sub(1)),
    }
}

/// Adds the blocks that formatting leaves as they are, or what is wrong in the document's configuration.
fn add_left<F: Files>(
    json: &mut String,
    asking: &Asking<'_, F>,
    lined: &Lined<'_>,
    configured: &Result<Configured, Unknown>,
) -> Result<(), AllocError> {
    let alloc = asking.gathering.alloc;
    let settings = match configured {
        Ok(configured) if configured.is_excluded => return Ok(()),
        Ok(configured) => configured.settings,
        Err(Unknown::Wrong(why)) => {
            return add_problem(json, front_of(1), 1, "configuration", why.as_str());
        }
        Err(Unknown::OutOfMemory) => return Err(AllocError),
    };
    let answer = formatted_as(alloc, settings, asking.text, None)?;
    for left in &answer.left {
        let reason = left.reason;
        let message = format!(in alloc; "formatting leaves this as it is: {reason}")?;
        add_problem(json, left_span(lined, left), 4, "left", message.as_str())?;
    }
    Ok(())
}

/// The problems of a document, as JSON.
pub(crate) fn problems<F: Files>(
    asking: &Asking<'_, F>,
    configured: &Result<Configured, Unknown>,
) -> Result<String, AllocError> {
    let alloc = asking.gathering.alloc;
    let lined = Lined::new(alloc, asking.text, asking.encoding)?;
    let mut json = String::from_str(alloc, "[")?;
    add_broken(&mut json, asking, &lined)?;
    add_left(&mut json, asking, &lined, configured)?;
    json.push(']')?;
    Ok(json)
}
