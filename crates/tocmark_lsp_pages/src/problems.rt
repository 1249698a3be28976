//! Problems of a document as JSON: what is wrong, and the links that lead nowhere.

use crate::lined::{Lined, Span};
use crate::links::{Asking, front_of};
use crate::message::JsonText;
use crate::tree::Files;
use std::alloc::AllocError;
use std::fmt::Write;
use tocmark_links::page::Link;
use tocmark_links::tree::Led;

/// A problem's code and what is said of it. `None`: there is no problem.
fn problem_of(led: &Led) -> Option<(&'static str, &'static str)> {
    match led {
        Led::Outside => Some(("outside", "leads out of the tree")),
        Led::Nowhere { .. } => Some(("path", "there is no such file or folder")),
        Led::NoAnchor { .. } => Some(("anchor", "the file has no such anchor")),
        _ => None,
    }
}

/// Adds a problem to a list of JSON.
pub fn add_problem(
    json: &mut String,
    span: Span,
    severity: u8,
    code: &str,
    message: &str,
) -> Result<(), AllocError> {
    if json.ends_with('}') {
        json.push(',')?;
    }
    let message = JsonText(message);
    write!(
        json,
        "{{\"range\":{span},\"severity\":{severity},\"code\":\"{code}\",\"source\":\"tocmark-lsp\",\"message\":{message}}}"
    )
}

/// The range of a link's destination, or the front of its line if that isn't found.
fn span_of(lined: &Lined<'_>, link: &Link) -> Span {
    match link.place {
        Some(place) => lined.span(place),
        None => front_of(link.line),
    }
}

/// Adds the links of a document that lead nowhere.
pub fn add_broken<F: Files>(
    json: &mut String,
    asking: &Asking<'_, F>,
    lined: &Lined<'_>,
) -> Result<(), AllocError> {
    let alloc = asking.gathering.alloc;
    let page = asking.page()?;
    let tree = asking.gathering.tree(&page)?;
    let from = asking.gathering.place.path.as_str();
    for link in &page.links {
        let destination = link.destination.as_str();
        let led = tree.led_to(from, destination)?;
        if let Some((code, why)) = problem_of(&led) {
            let message = format!(in alloc; "{destination}: {why}")?;
            add_problem(json, span_of(lined, link), 2, code, message.as_str())?;
        }
    }
    Ok(())
}
