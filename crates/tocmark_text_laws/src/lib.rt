//! Laws of what is read of every text, each the contract of a function that does nothing: of a text's lines (`lines`),
//! of empty lines in front of a text (`empty_line`), of markers of block quotes (`quoted`), of markers of list items (`items`), of
//! loose lists (`loose`), of two texts in a row (`sequence`), of a list and a text after it (`list_ends`), of a list and items after it
//! (`one_more`), of where blocks and inlines are (`ranges`), of the bytes of a leaf's text (`texts`), of the order of lines and inlines of leaves
//! (`leaf_order`), and of texts that aren't too long (`counted`).
//!
//! Below it are the readers, whose definitions the laws speak of. Only crates of laws need it.
#![tactic(auto)]

pub mod counted;
pub mod empty_line;
pub mod items;
pub mod leaf_order;
pub mod lines;
pub mod list_ends;
pub mod loose;
pub mod one_more;
pub mod quoted;
pub mod ranges;
pub mod sequence;
pub mod texts;
