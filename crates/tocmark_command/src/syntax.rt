//! What `--syntax` and `--extension` name.

use crate::options::{CommandOption, Takes, with_options};
use clap::Command;
use std::alloc::{AllocError, Global};
use std::fmt;
use std::fmt::Write;
use tocmark_event::event::ParserOptions;
use tocmark_reader::{EXTENSIONS, GFM, NAMED_EXTENSIONS};

/// How wide a line of an option's help may be. The names of options are before it, and 80 columns are all.
const HELP_WIDTH: usize = 51;

/// The flags of the syntax with this name.
pub fn syntax_named(name: &str) -> Option<ParserOptions> {
    match name {
        "commonmark" => Some(ParserOptions::empty()),
        "gfm" => Some(GFM),
        "all" => Some(EXTENSIONS),
        _ => None,
    }
}

/// The flag of the extension with this name.
pub fn extension_named(name: &str) -> Option<ParserOptions> {
    for (known, flag) in &NAMED_EXTENSIONS {
        if *known == name {
            return Some(*flag);
        }
    }
    None
}

/// Adds the extension with this name to the flags, or removes it if `no-` is before the name.
///
/// The answer is `None` if there is no such extension.
pub fn extended(flags: ParserOptions, name: &str) -> Option<ParserOptions> {
    match name.strip_prefix("no-") {
        Some(name) => {
            let flag = extension_named(name)?;
            Some(ParserOptions(flags.0 & !flag.0))
        }
        None => {
            let flag = extension_named(name)?;
            Some(ParserOptions(flags.0 | flag.0))
        }
    }
}

/// Adds `--syntax`, which has this help, and `--extension` to a command.
///
/// It fails if memory runs out.
pub fn with_syntax<'a>(
    alloc: Global,
    command: Command<'a>,
    syntax_help: &'a str,
) -> Result<Command<'a>, AllocError> {
    let options = [
        CommandOption {
            name: "syntax",
            letter: None,
            takes: Takes::Value("NAME"),
            help: syntax_help,
        },
        CommandOption {
            name: "extension",
            letter: None,
            takes: Takes::Values("NAME"),
            help: "Add one of these extensions, or remove it by\nno-NAME; repeatable",
        },
    ];
    with_options(alloc, command, &options)
}

/// Writes a line of help that begins with these words and goes on with the names of the extensions among these flags. It is
/// broken before a name that would end beyond `HELP_WIDTH`.
fn name_extensions(help: &mut String, start: &str, flags: ParserOptions) -> fmt::Result {
    help.write_str(start)?;
    let mut width = start.len();
    let mut is_later = false;
    for (name, flag) in &NAMED_EXTENSIONS {
        if flags.contains(*flag) {
            if is_later {
                help.write_str(",")?;
            }
            is_later = true;
            // A name has a space before it and a comma after it.
            let wider = width.saturating_add(name.len()).saturating_add(2);
            if wider <= HELP_WIDTH {
                help.write_str(" ")?;
                width = wider;
            } else {
                help.write_str("\n")?;
                width = name.len().saturating_add(1);
            }
            help.write_str(name)?;
        }
    }
    Ok(())
}

/// What `--help` says of `--syntax`: this line, which extensions `gfm` has, and which ones `all` adds to them.
///
/// It fails if memory runs out.
pub fn syntax_help(alloc: Global, line: &str) -> Result<String, fmt::Error> {
    let mut help = String::new(alloc);
    help.write_str(line)?;
    help.write_str("\n")?;
    name_extensions(&mut help, "gfm adds", GFM)?;
    help.write_str("\n")?;
    let more = ParserOptions(EXTENSIONS.0 & !GFM.0);
    name_extensions(&mut help, "all adds these and", more)?;
    Ok(help)
}
