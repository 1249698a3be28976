//! Headings, quotes, paragraphs, code blocks, HTML blocks and metadata: what opens, what closes and what words each of
//! them is in one file, in this order.
//!
//! Below it are `tocmark_write_renderer` and `tocmark_write_pending`, above it the other blocks (`tocmark_write_lists`,
//! `tocmark_write_tables`) and the loop that calls them all (`tocmark_write_unit`). Enter at `headings`, `quotes`,
//! `paragraphs`, `code`, `html` or `metadata`. What all openings share is in `ahead` (what one is told of its body and
//! of what follows it) and `new_line`, what all closings share in `trail`. `raw_facts` finds beforehand what is asked of
//! the texts in code and HTML blocks, by `token_runs`, `html_facts` and `block_ends`.
#![tactic(auto)]

pub mod ahead;
mod block_ends;
pub mod code;
pub mod headings;
pub mod html;
mod html_ahead;
mod html_facts;
mod kinds;
pub mod metadata;
pub mod new_line;
pub mod paragraphs;
pub mod quotes;
pub mod raw_facts;
pub mod repeated;
pub mod token_runs;
pub mod trail;
