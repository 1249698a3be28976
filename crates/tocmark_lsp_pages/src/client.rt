//! What a client says of itself when it begins: the folder that it has open, and what it can do.

use crate::message::Call;
use crate::tree::path_in;
use serde_json::Value;
use std::alloc::{AllocError, Global};
use tocmark_lsp_text::positions::Encoding;

/// A client, by what it says of itself.
#[derive(Drop)]
pub struct Client {
    /// How it counts columns.
    pub encoding: Encoding,
    /// The path of the folder that it has open; empty if it has none.
    pub root: String,
    /// Whether it takes a version with the edits of a text.
    pub is_versioned: bool,
    /// Whether it says which files change, if it is asked to.
    pub is_watching: bool,
    /// Whether it takes actions that have their edits with them.
    pub takes_actions: bool,
    /// Whether it asks where a name is before it asks for another one.
    pub asks_for_names: bool,
}

/// UTF-8 if the client can count so, and else UTF-16.
fn encoding_of(call: Call<'_>) -> Encoding {
    let offers = call
        .at("/capabilities/general/positionEncodings")
        .and_then(Value::as_array);
    if let Some(offers) = offers {
        for offer in offers {
            if offer.as_str() == Some("utf-8") {
                return Encoding::Utf8;
            }
        }
    }
    Encoding::Utf16
}

/// The path of the folder that a client has open; empty if it names none.
fn root_of(alloc: Global, call: Call<'_>) -> Result<String, AllocError> {
    for path in &["/workspaceFolders/0/uri", "/rootUri"] {
        if let Some(uri) = call.at(*path).and_then(Value::as_str)
            && let Some(root) = path_in(alloc, uri)?
        {
            return String::from_str(alloc, root.as_str().trim_end_matches('/'));
        }
    }
    Ok(String::new(alloc))
}

/// Whether a client says yes at a path of the parameters.
pub(crate) fn is_able(call: Call<'_>, path: &str) -> bool {
    call.at(path).and_then(Value::as_bool).unwrap_or(false)
}

impl Client {
    /// A client that has said nothing.
    pub fn new(alloc: Global) -> Client {
        Client {
            encoding: Encoding::Utf16,
            root: String::new(alloc),
            is_versioned: false,
            is_watching: false,
            takes_actions: false,
            asks_for_names: false,
        }
    }

    /// The client that calls the server for the first time.
    pub fn of(alloc: Global, call: Call<'_>) -> Result<Client, AllocError> {
        let versions = "/capabilities/workspace/workspaceEdit/documentChanges";
        let watching = "/capabilities/workspace/didChangeWatchedFiles/dynamicRegistration";
        let actions = "/capabilities/textDocument/codeAction/codeActionLiteralSupport";
        let names = "/capabilities/textDocument/rename/prepareSupport";
        let root = root_of(alloc, call)?;
        Ok(Client {
            encoding: encoding_of(call),
            root,
            is_versioned: is_able(call, versions),
            is_watching: is_able(call, watching),
            takes_actions: call.at(actions).is_some(),
            asks_for_names: is_able(call, names),
        })
    }
}
