//! The options of a command line, which are in tables.

use clap::{Arg, ArgAction, Command};
use std::alloc::{AllocError, Global};

/// What an option takes.
#[derive(Clone, Copy)]
pub enum Takes<'a> {
    /// Nothing: it is given or not.
    Nothing,
    /// A value, which has this name in help.
    Value(&'a str),
    /// A value that can begin with a hyphen.
    Sign(&'a str),
    /// A value each time that it is given.
    Values(&'a str),
}

/// An option of a command line.
#[derive(Clone, Copy)]
pub struct CommandOption<'a> {
    /// Its name, which is after two hyphens.
    pub name: &'a str,
    /// Its letter, which is after one hyphen, if it has one.
    pub letter: Option<char>,
    /// What it takes.
    pub takes: Takes<'a>,
    /// What `--help` says of it.
    pub help: &'a str,
}

impl<'a> CommandOption<'a> {
    /// The option as the kit's `clap` has it.
    fn to_arg(self, alloc: Global) -> Arg<'a> {
        let arg = Arg::new(alloc, self.name).long(self.name).help(self.help);
        let arg = match self.letter {
            Some(letter) => arg.short(letter),
            None => arg,
        };
        match self.takes {
            Takes::Nothing => arg.action(ArgAction::SetTrue),
            Takes::Value(name) => arg.value_name(name),
            Takes::Sign(name) => arg.value_name(name).allow_hyphen_values(true),
            Takes::Values(name) => arg.value_name(name).action(ArgAction::Append),
        }
    }
}

/// Adds options to a command, in their order.
///
/// It fails if memory runs out.
pub fn with_options<'a>(
    alloc: Global,
    command: Command<'a>,
    options: &[CommandOption<'a>],
) -> Result<Command<'a>, AllocError> {
    let mut command = command;
    for option in options {
        command = command.arg(option.to_arg(alloc))?;
    }
    Ok(command)
}
