//! What a language server for Markdown answers, request by request.
//!
//! Enter at `Server::take` (`server`), which takes a message and adds the messages that answer it. `settings` has what a client
//! sets, and `configured` finds the settings of a document. `formatting` answers with edits, `checking` with what is wrong, and
//! `offers` with what can be done about it. `tocmark_lsp_pages` answers what no formatting is needed for. The crate reads no
//! file: its caller passes what does.
#![tactic(auto)]

mod checking;
mod configured;
mod formatting;
mod offers;
mod server;
mod settings;

pub use server::{Next, Server};
