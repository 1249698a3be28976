//! Files of a command line: which names are meant, what changed in a text, and how a file is replaced.
//!
//! `names` knows the endings of Markdown files. `glob` matches names, and `rules` says what globs and lines of `.gitignore`
//! mean. `place` finds a file and opens it by its folder, so that no later change of a path leads elsewhere. `replace`
//! replaces it, whole or not at all. `trust` reads a file only if it belongs to the caller or root. `changes` finds which lines of two texts differ, and `diff` shows them.
//! `quoted` shows names as Git does, and keeps messages to one line; `unquoted` reads such names.
#![tactic(auto)]

pub mod changes;
pub mod diff;
pub mod glob;
pub mod names;
pub mod place;
pub mod quoted;
pub mod replace;
pub mod rules;
pub mod trust;
pub mod unquoted;
