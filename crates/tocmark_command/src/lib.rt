//! What the programs with a command line share: its words and options, names of syntaxes and extensions, texts that
//! are read and written as a whole, and messages on standard error.
//!
//! It uses the reader of extensions, whose flags the names stand for, `tocmark_files`, which keeps messages to a line, and
//! the kit's `clap`. Each program with options uses it. Start at `Program` (`program`), which refuses wrong calls in one line
//! with clap's tips. `options` adds the rows of a table to a command, `syntax` has `--syntax` and `--extension` with their
//! help, `streams` reads and writes whole texts and decides about colours, `escaped` quotes texts for programs that read
//! messages, and `release` says which release a program is from.
#![tactic(auto)]

pub mod escaped;
pub mod options;
pub mod program;
pub mod release;
pub mod streams;
pub mod syntax;
