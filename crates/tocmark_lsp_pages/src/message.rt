//! Messages of JSON-RPC: what a client calls, and the texts of answers.

use serde_json::Value;
use std::alloc::{AllocError, AllocFailed, Global};
use std::fmt;
use tocmark_command::escaped::{Escaped, Quoting};
use tocmark_lsp_text::edits::EditError;
use tocmark_lsp_text::positions::Position;

/// What is wrong with a request, by the numbers of the protocol.
#[derive(Clone, Copy, Drop)]
pub enum Code {
    Parse,
    Request,
    Method,
    Params,
    NotInitialized,
    Failed,
}

/// Why a call isn't answered as it asks.
#[derive(Drop)]
pub enum Fault {
    OutOfMemory,
    Refused(Code, &'static str),
}

/// A request, or a notification, which has no id.
#[derive(Clone, Copy)]
pub struct Call<'m> {
    pub method: &'m str,
    pub id: Option<&'m Value>,
    pub params: Option<&'m Value>,
}

/// A text as a string of JSON.
#[derive(Clone, Copy)]
pub struct JsonText<'t>(pub &'t str);

impl Code {
    fn number(self) -> i32 {
        match self {
            Code::Parse => -32700,
            Code::Request => -32600,
            Code::Method => -32601,
            Code::Params => -32602,
            Code::NotInitialized => -32002,
            Code::Failed => -32803,
        }
    }
}

impl From<AllocError> for Fault {
    fn from(_fault: AllocError) -> Fault {
        Fault::OutOfMemory
    }
}

impl<T: Drop> From<AllocFailed<T>> for Fault {
    fn from(_fault: AllocFailed<T>) -> Fault {
        Fault::OutOfMemory
    }
}

impl From<EditError> for Fault {
    fn from(fault: EditError) -> Fault {
        match fault {
            EditError::OutOfMemory => Fault::OutOfMemory,
            EditError::Overlap => Fault::Refused(Code::Params, "the edits overlap"),
            EditError::NotFound => Fault::Refused(Code::Failed, "no edits are found"),
        }
    }
}

impl From<tocmark_links::Fault> for Fault {
    fn from(fault: tocmark_links::Fault) -> Fault {
        match fault {
            tocmark_links::Fault::OutOfMemory => Fault::OutOfMemory,
            tocmark_links::Fault::NoWords => {
                Fault::Refused(
                    Code::Failed,
                    "a heading has words in one line, without a closing # or an anchor at its end",
                )
            }
            _ => Fault::Refused(
                Code::Failed,
                "with this change, a page would say something else",
            ),
        }
    }
}

impl fmt::Display for JsonText<'_> {
    fn fmt<W: fmt::Write>(&self, f: &mut fmt::Formatter<W>) -> fmt::Result {
        let text = Escaped(&self.0, Quoting::Json);
        write!(f, "\"{text}\"")
    }
}

impl<'m> Call<'m> {
    /// The call that a message is. `None`: it is the client's answer to a question.
    pub fn of(message: &'m Value) -> Result<Option<Call<'m>>, Fault> {
        let Some(method) = message.get("method") else {
            if message.get("result").is_some() || message.get("error").is_some() {
                return Ok(None);
            }
            return Err(Fault::Refused(Code::Request, "a message has no method"));
        };
        match method.as_str() {
            Some(method) => Ok(Some(Call {
                method,
                id: message.get("id"),
                params: message.get("params"),
            })),
            None => Err(Fault::Refused(Code::Request, "a method is no text")),
        }
    }

    /// What is at a path in the parameters.
    pub fn at(self, path: &str) -> Option<&'m Value> {
        self.params?.pointer(path)
    }

    /// The text at a path in the parameters.
    pub fn text(self, path: &str) -> Result<&'m str, Fault> {
        match self.at(path).and_then(Value::as_str) {
            Some(text) => Ok(text),
            None => Err(Fault::Refused(Code::Params, "a text is missing")),
        }
    }

    /// The URI of the document that it is about.
    pub fn uri(self) -> Result<&'m str, Fault> {
        self.text("/textDocument/uri")
    }

    /// The position at a path in the parameters.
    pub fn position(self, path: &str) -> Result<Position, Fault> {
        match self.at(path).and_then(position_in) {
            Some(position) => Ok(position),
            None => Err(Fault::Refused(Code::Params, "a position is missing")),
        }
    }
}

/// The position that a value is.
fn position_in(value: &Value) -> Option<Position> {
    let line = value.get("line")?.as_u64()?;
    let character = value.get("character")?.as_u64()?;
    Some(Position {
        line: line as usize,
        character: character as usize,
    })
}

/// The two positions of a range.
pub fn range_in(value: &Value) -> Option<(Position, Position)> {
    let start = position_in(value.get("start")?)?;
    let stop = position_in(value.get("end")?)?;
    let is_reversed = stop.line < start.line
        || (stop.line == start.line && stop.character < start.character);
    if is_reversed {
        return Some((stop, start));
    }
    Some((start, stop))
}

/// The message that answers a request.
pub fn answer_message(alloc: Global, id: &str, answer: &str) -> Result<String, AllocError> {
    format!(in alloc; "{{\"jsonrpc\":\"2.0\",\"id\":{id},\"result\":{answer}}}")
}

/// The message that refuses a request.
pub fn refusal_message(
    alloc: Global,
    id: &str,
    code: Code,
    why: &str,
) -> Result<String, AllocError> {
    let (code, why) = (code.number(), JsonText(why));
    format!(in alloc;
        "{{\"jsonrpc\":\"2.0\",\"id\":{id},\"error\":{{\"code\":{code},\"message\":{why}}}}}"
    )
}

/// The message that asks the client for something. The server has one question, so its id is always the same.
pub fn question_message(alloc: Global, method: &str, params: &str) -> Result<String, AllocError> {
    format!(in alloc;
        "{{\"jsonrpc\":\"2.0\",\"id\":\"tocmark-1\",\"method\":\"{method}\",\"params\":{params}}}"
    )
}

/// A message of the server's own.
pub fn notice_message(alloc: Global, method: &str, params: &str) -> Result<String, AllocError> {
    format!(in alloc; "{{\"jsonrpc\":\"2.0\",\"method\":\"{method}\",\"params\":{params}}}")
}
