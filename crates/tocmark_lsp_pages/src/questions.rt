//! Questions about a page, and what answers them.

use crate::client::is_able;
use crate::completion::completions;
use crate::headings::{prepared, renamed};
use crate::links::Asking;
use crate::message::{Call, Fault};
use crate::outline::{folding, headings, symbols};
use crate::tree::Files;
use crate::workspace::Workspace;
use std::alloc::AllocError;
use tocmark_lsp_text::positions::Position;

/// What a client asks about a page that it has open.
#[derive(Clone, Copy, Drop)]
pub enum Question {
    Symbols,
    Folding,
    Links,
    Definition,
    References,
    Hover,
    PrepareRename,
    Rename,
    Completion,
}

impl Question {
    /// Whether other pages of the workspace are looked at as they are now.
    pub fn is_of_all_pages(self) -> bool {
        matches!(self, Question::References | Question::Rename)
    }
}

/// The headings of a page as a tree, or what can be folded in it.
fn answer_about_blocks<F: Files>(
    asking: &Asking<'_, F>,
    question: Question,
) -> Result<String, AllocError> {
    let alloc = asking.gathering.alloc;
    let read = asking.read()?;
    let found = headings(alloc, asking.text, &read.reading)?;
    match question {
        Question::Symbols => symbols(alloc, &read.lined, &found),
        _ => folding(alloc, &read.lined, &read.reading, &found),
    }
}

/// The links of all pages that lead to the heading at a position, and its own place if that is wanted.
fn heading_references<F: Files>(
    workspace: &Workspace<'_, F>,
    asking: &Asking<'_, F>,
    position: Position,
    with_definition: bool,
) -> Result<String, AllocError> {
    let read = asking.read()?;
    let page = asking.page()?;
    let Some(heading) = asking.heading_at(&read, &page, read.lined.byte(position))? else {
        return String::from_str(workspace.alloc, "null");
    };
    let own = match heading.place {
        Some(place) if with_definition => Some((asking.uri, read.lined.span(place))),
        _ => None,
    };
    let place = asking.gathering.place;
    workspace.links_to(place, &page, heading.name.as_str(), own)
}

/// The links by the label at a position, or those of all pages that lead to the heading there.
fn references<F: Files>(
    workspace: &Workspace<'_, F>,
    asking: &Asking<'_, F>,
    position: Position,
    with_definition: bool,
) -> Result<String, AllocError> {
    match asking.label_references(position, with_definition)? {
        Some(json) => Ok(json),
        None => heading_references(workspace, asking, position, with_definition),
    }
}

/// The result of a question about a position.
fn answer_at<F: Files>(
    workspace: &Workspace<'_, F>,
    asking: &Asking<'_, F>,
    question: Question,
    call: Call<'_>,
) -> Result<String, Fault> {
    let position = call.position("/position")?;
    match question {
        Question::Definition => Ok(asking.definition(position)?),
        Question::Hover => Ok(asking.hover(position)?),
        Question::References => {
            let with_definition = is_able(call, "/context/includeDeclaration");
            Ok(references(workspace, asking, position, with_definition)?)
        }
        Question::PrepareRename => Ok(prepared(asking, position)?),
        Question::Rename => renamed(workspace, asking, position, call.text("/newName")?),
        _ => Ok(completions(workspace, asking, position)?),
    }
}

/// The result of a question about a page, as JSON.
pub fn answered<F: Files>(
    workspace: &Workspace<'_, F>,
    asking: &Asking<'_, F>,
    question: Question,
    call: Call<'_>,
) -> Result<String, Fault> {
    match question {
        Question::Symbols | Question::Folding => Ok(answer_about_blocks(asking, question)?),
        Question::Links => Ok(asking.document_links()?),
        _ => answer_at(workspace, asking, question, call),
    }
}
