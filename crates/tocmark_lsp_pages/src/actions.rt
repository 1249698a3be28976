//! What the server offers to do with a document: to mend a link, and to fill a table of contents.

use crate::edits::{WorkspaceEdit, word_edits};
use crate::lined::Lined;
use crate::links::Asking;
use crate::message::{Call, Code, Fault, JsonText, range_in};
use crate::tree::Files;
use crate::workspace::Workspace;
use serde_json::Value;
use std::alloc::AllocError;
use std::fmt::Write;
use tocmark_links::changed::{with_contents, with_destinations};
use tocmark_links::page::Page;
use tocmark_links::tree::{Led, Tree};
use tocmark_lsp_text::edits::{Edit, line_edits};

/// The kind of what changes a link that leads nowhere.
pub const MENDING: &str = "quickfix";

/// The kind of what fills a table of contents.
pub const CONTENTS: &str = "source.contents.tocmark";

/// How many links one answer offers to change, because the page is read for each.
const MENDINGS: usize = 20;

/// Whether a kind is another one, or below it: `source.fixAll.tocmark` is below `source`.
fn is_below(kind: &str, other: &str) -> bool {
    match kind.strip_prefix(other) {
        None => false,
        Some(rest) => rest.is_empty() || other.is_empty() || rest.starts_with('.'),
    }
}

/// Whether a client wants what has this kind. If it names no kinds, it wants all of them, but nothing that reads the whole text
/// again if it asks by itself, as it does when the cursor moves.
pub fn is_wanted(call: Call<'_>, kind: &str) -> bool {
    let Some(only) = call.at("/context/only").and_then(Value::as_array) else {
        let trigger = call.at("/context/triggerKind").and_then(Value::as_u64);
        return trigger != Some(2) || kind == MENDING;
    };
    for other in only {
        if let Some(other) = other.as_str()
            && is_below(kind, other)
        {
            return true;
        }
    }
    false
}

/// Whether two ranges have a place in common.
fn touch(one: (usize, usize), other: (usize, usize)) -> bool {
    one.0 <= other.1 && other.0 <= one.1
}

/// The actions so far, as JSON.
#[derive(Drop)]
pub struct ActionList<'a, F> {
    workspace: &'a Workspace<'a, F>,
    asking: &'a Asking<'a, F>,
    json: String,
}

impl<'a, F: Files> ActionList<'a, F> {
    /// No actions.
    pub fn new(
        workspace: &'a Workspace<'a, F>,
        asking: &'a Asking<'a, F>,
    ) -> Result<ActionList<'a, F>, AllocError> {
        Ok(ActionList {
            workspace,
            asking,
            json: String::from_str(workspace.alloc, "[")?,
        })
    }

    /// Adds what makes these edits, unless there are none.
    pub fn add(&mut self, title: &str, kind: &str, edits: &[Edit]) -> Result<(), AllocError> {
        if edits.is_empty() {
            return Ok(());
        }
        let asking = self.asking;
        let mut edit = WorkspaceEdit::new(asking.gathering.alloc, self.workspace.is_versioned);
        edit.add((asking.uri, asking.version), edits)?;
        let edit = edit.finish()?;
        if self.json.ends_with('}') {
            self.json.push(',')?;
        }
        let title = JsonText(title);
        write!(
            self.json,
            "{{\"title\":{title},\"kind\":\"{kind}\",\"isPreferred\":true,\"edit\":{edit}}}"
        )
    }

    /// Adds what gives a link, by its index, another destination, if that changes nothing else.
    fn add_mending(&mut self, page: &Page, index: usize, near: String) -> Result<(), Fault> {
        let asking = self.asking;
        let alloc = asking.gathering.alloc;
        let flags = asking.gathering.terms.flags;
        let shown = near.as_str();
        let title = format!(in alloc; "Change to {shown}")?;
        let mut changes = Vec::new(alloc);
        changes.push((index, near))?;
        match with_destinations(alloc, asking.text, flags, page, &changes) {
            Ok(new) => {
                let edits = word_edits(alloc, asking.encoding, asking.text, new.as_str())?;
                Ok(self.add(title.as_str(), MENDING, &edits)?)
            }
            Err(tocmark_links::Fault::OutOfMemory) => Err(Fault::OutOfMemory),
            Err(_) => Ok(()),
        }
    }

    /// Adds what changes a link, by its index, to what is nearest, if it is broken. `false`: there is nothing near.
    fn add_mending_of(
        &mut self,
        tree: &Tree,
        page: &Page,
        index: usize,
        led: &Led,
    ) -> Result<bool, Fault> {
        let asking = self.asking;
        let place = asking.gathering.place;
        let from = place.path.as_str();
        match tree.nearest_destination(from, led)? {
            Some(near) => {
                self.add_mending(page, index, near)?;
                Ok(true)
            }
            None => Ok(false),
        }
    }

    /// Adds what changes broken links that some bytes touch: each to what is nearest.
    fn add_mendings_in(&mut self, asked: (usize, usize)) -> Result<(), Fault> {
        let asking = self.asking;
        let place = asking.gathering.place;
        let page = asking.page()?;
        let mut tree = asking.gathering.tree(&page)?;
        let mut is_whole = false;
        let mut count = 0usize;
        for (index, link) in page.links.iter().enumerate() {
            if count >= MENDINGS || !link.place.is_some_and(|place| touch(place, asked)) {
                continue;
            }
            let led = tree.led_to(place.path.as_str(), link.destination.as_str())?;
            if matches!(led, Led::Nowhere { .. }) && !is_whole {
                self.workspace.add_pages(&mut tree, place.root.as_str())?;
                is_whole = true;
            }
            if self.add_mending_of(&tree, &page, index, &led)? {
                count = count.saturating_add(1);
            }
        }
        Ok(())
    }

    /// Adds what changes broken links that a range touches: each to what is nearest.
    pub fn add_mendings(&mut self, call: Call<'_>) -> Result<(), Fault> {
        let Some((start, stop)) = call.at("/range").and_then(range_in) else {
            return Err(Fault::Refused(Code::Params, "a range is missing"));
        };
        let asking = self.asking;
        let lined = Lined::new(asking.gathering.alloc, asking.text, asking.encoding)?;
        let asked = (lined.byte(start), lined.byte(stop));
        self.add_mendings_in(asked)
    }

    /// Adds what fills the table of contents, if the document has a place for one.
    pub fn add_contents(&mut self) -> Result<(), Fault> {
        let asking = self.asking;
        let (alloc, terms) = (asking.gathering.alloc, asking.gathering.terms);
        match with_contents(alloc, asking.text, terms.flags, terms.slugs) {
            Ok(new) => {
                let edits = line_edits(alloc, asking.encoding, asking.text, new.as_str())?;
                Ok(self.add("Fill the table of contents", CONTENTS, &edits)?)
            }
            Err(tocmark_links::Fault::OutOfMemory) => Err(Fault::OutOfMemory),
            Err(_) => Ok(()),
        }
    }

    /// The actions, as JSON.
    pub fn finish(self) -> Result<String, AllocError> {
        let ActionList { mut json, .. } = self;
        json.push(']')?;
        Ok(json)
    }
}
