//! Tables: what opens, what closes and what words a table, its head, its rows and its cells.
//!
//! Below it is `tocmark_write_blocks`, above it `tocmark_write_unit`. Enter at `tables`; the texts are made from plain
//! values: widths of cells and their alignments.
#![tactic(auto)]

pub mod tables;
