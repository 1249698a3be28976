//! From the text of a paragraph, a heading or a cell to its inlines, by CommonMark 0.31.2 and the extensions that are read.
//!
//! Below it is `tocmark_read_spans`, above it `tocmark_reader`. Enter at `inlines`, which makes two passes over a text.
//! The first one (`scan`) says what each byte is: it asks `ahead` what is known of the text, goes from mark to mark
//! (`marks`), and reads what is there (`leaves`, `delimiters`, `angles`, `brackets`, `note`). What the source doesn't
//! spell as it is, `texts` keeps. The second pass (`write`) makes the nodes.
#![tactic(auto)]

mod ahead;
mod angles;
mod brackets;
mod delimiters;
mod footnote;
pub mod inlines;
mod leaves;
mod marks;
mod scan;
mod texts;
pub mod write;
