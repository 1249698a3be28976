//! What the inlines of a paragraph or a heading are made of (CommonMark 0.31.2, section 6). Places are byte offsets
//! in its text, and each function answers at every argument.
//!
//! Below it are `tocmark_read_scan` and `tocmark_read_tokens`, above it `tocmark_read_inlines`. Enter at `role`: the role
//! that each byte of the text gets. It comes from runs of `*` and `_`, and of `~` and `^` where extensions have these
//! (`run`), and how they match (`emphasis`), code spans (`tick`), mathematics (`math`), what is after the text of a
//! link or an image (`link`), and what labels are defined as (`definitions`).
#![tactic(auto)]

pub mod definitions;
pub mod emphasis;
pub mod footnote;
pub mod link;
pub mod math;
pub mod role;
pub mod run;
pub mod tick;
