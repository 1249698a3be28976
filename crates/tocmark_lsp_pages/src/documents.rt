//! The texts that a client has open, as it changes them.

use crate::message::{Call, Code, Fault, range_in};
use crate::tree::path_in;
use serde_json::Value;
use std::alloc::{AllocError, Global};
use std::collections::HashMap;
use tocmark_lsp_text::edits::{Edit, edited};
use tocmark_lsp_text::positions::Encoding;

/// A text that is open.
#[derive(Drop)]
pub struct Document {
    /// The URI by which the client names it.
    pub uri: String,
    pub text: String,
    /// The number that the client gives this state of the text.
    pub version: Option<i64>,
}

/// The open texts, by their paths; by its URI, if a text is no file.
#[derive(Drop)]
pub struct Documents {
    alloc: Global,
    texts: HashMap<String, Document>,
}

/// The name under which the text with a URI is kept: a client may spell the URI of a file in several ways.
fn key_of(alloc: Global, uri: &str) -> Result<String, AllocError> {
    match path_in(alloc, uri)? {
        Some(path) => Ok(path),
        None => String::from_str(alloc, uri),
    }
}

/// The number that a call gives a text.
fn version_of(call: Call<'_>) -> Option<i64> {
    call.at("/textDocument/version").and_then(Value::as_i64)
}

impl Documents {
    pub fn new(alloc: Global) -> Documents {
        Documents {
            alloc,
            texts: HashMap::new(alloc),
        }
    }

    /// The text with a URI, as the client has it.
    pub fn document(&self, uri: &str) -> Result<&Document, Fault> {
        let key = key_of(self.alloc, uri)?;
        match self.at(key.as_str()) {
            Some(document) => Ok(document),
            None => Err(Fault::Refused(Code::Params, "the document is not open")),
        }
    }

    /// The text of the file at a path, if it is open.
    pub(crate) fn at(&self, path: &str) -> Option<&Document> {
        self.texts.get(path)
    }

    /// All open texts.
    pub fn all(&self) -> Result<Vec<&Document>, AllocError> {
        let mut all = Vec::new(self.alloc);
        for document in self.texts.values() {
            all.push(document)?;
        }
        Ok(all)
    }

    /// Whether one of the files that a call says are changed isn't open.
    pub fn lack_one(&self, call: Call<'_>) -> Result<bool, AllocError> {
        let Some(changes) = call.at("/changes").and_then(Value::as_array) else {
            return Ok(false);
        };
        for change in changes {
            if let Some(uri) = change.get("uri").and_then(Value::as_str)
                && self.at(key_of(self.alloc, uri)?.as_str()).is_none()
            {
                return Ok(true);
            }
        }
        Ok(false)
    }

    /// Takes a text that is opened.
    pub fn open(&mut self, call: Call<'_>) -> Result<(), Fault> {
        let text = String::from_str(self.alloc, call.text("/textDocument/text")?)?;
        self.put(call, text)
    }

    /// Keeps the text that a call leads to.
    fn put(&mut self, call: Call<'_>, text: String) -> Result<(), Fault> {
        let uri = String::from_str(self.alloc, call.uri()?)?;
        let key = key_of(self.alloc, uri.as_str())?;
        let document = Document {
            uri,
            text,
            version: version_of(call),
        };
        self.texts.insert(key, document)?;
        Ok(())
    }

    /// Forgets a text.
    pub fn close(&mut self, call: Call<'_>) -> Result<(), Fault> {
        let key = key_of(self.alloc, call.uri()?)?;
        let _ = self.texts.remove(key.as_str());
        Ok(())
    }

    /// Changes a text, in the order of the changes. If one of them is none, the text is forgotten, because the client has
    /// another one from then on.
    pub fn change(&mut self, encoding: Encoding, call: Call<'_>) -> Result<(), Fault> {
        let changed = self.changed(encoding, call.uri()?, call);
        self.close(call)?;
        self.put(call, changed?)
    }

    /// A text after changes.
    fn changed(&self, encoding: Encoding, uri: &str, call: Call<'_>) -> Result<String, Fault> {
        let Some(changes) = call.at("/contentChanges").and_then(Value::as_array) else {
            return Err(Fault::Refused(Code::Params, "the changes are missing"));
        };
        let mut text = self.document(uri)?.text.clone()?;
        for change in changes {
            text = after(self.alloc, encoding, text.as_str(), change)?;
        }
        Ok(text)
    }
}

/// A text after one change: what is in place of a range, or of all.
fn after(alloc: Global, encoding: Encoding, text: &str, change: &Value) -> Result<String, Fault> {
    let Some(new) = change.get("text").and_then(Value::as_str) else {
        return Err(Fault::Refused(Code::Params, "a change has no text"));
    };
    let new = String::from_str(alloc, new)?;
    let Some(range) = change.get("range") else {
        return Ok(new);
    };
    let Some((start, stop)) = range_in(range) else {
        return Err(Fault::Refused(Code::Params, "a change has a wrong range"));
    };
    let edit = Edit {
        start,
        stop,
        text: new,
    };
    Ok(edited(alloc, encoding, text, &[edit])?)
}
