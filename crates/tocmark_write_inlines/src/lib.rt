//! What is in lines: texts, which are held until their stretch ends (`stretch`), leaves with a text of their own,
//! each after its gap, the delimiters of strikethrough, super- and subscripts, and links and images.
//!
//! Below it are `tocmark_write_blocks` and `tocmark_write_lists`, above it `tocmark_write_emphasis`,
//! `tocmark_write_unit` and the labels. Enter at `leaf`, which takes a leaf of any kind, at `delimiters`, and at
//! `links`, both with what opens, what closes and what words them. For which links the id is in place of the body
//! is found in `named`.
#![tactic(auto)]

mod block_leaf;
pub mod delimiters;
mod inline_leaf;
pub mod leaf;
pub mod links;
pub mod named;
mod stretch;
