//! What a line of a Markdown text is and begins with (CommonMark 0.31.2, sections 4 and 5): its columns, the marks of
//! headings, code, rules, HTML and lists, and the containers that go on in it or begin.
//!
//! Below it are `tocmark_read_scan` and `tocmark_read_tokens`, above it `tocmark_read_page`. Enter at `line` for
//! the lines of a text, at `cell` for their columns, at `beginnings` and `html` for what a line begins with, and at
//! `container` for the containers that go on in it.
#![tactic(auto)]

pub mod beginnings;
pub mod cell;
pub mod container;
pub mod definition_list;
pub mod footnote;
pub mod html;
pub mod line;
