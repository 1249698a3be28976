//! `tocmark-lsp`: a language server for Markdown over standard input and output.
#![tactic(auto)]

mod walk;

use crate::walk::pages_below;
use clap::Command;
use std::alloc::{AllocError, Global};
use std::io::BufReader;
use std::process::ExitCode;
use std::{fmt, fs, io};
use tocmark_command::options::{CommandOption, Takes, with_options};
use tocmark_command::program::{Program, words_of};
use tocmark_files::trust::{Caller, Distrust};
use tocmark_lsp::{Next, Server};
use tocmark_lsp_pages::tree::Files;
use tocmark_lsp_text::frames::{FrameError, read_message, write_message};

/// The command's name.
const NAME: &str = "tocmark-lsp";

/// This program.
const SERVER: Program = Program { name: NAME };

/// How many bytes a file may have whose headings links lead to: 16 MiB.
const LONGEST_FILE: u64 = 16_777_216;

/// A byte order mark, which editors take for no text.
const MARK: char = '\u{feff}';

/// The last lines of `--help`.
const LAST: &str =
    "An editor starts it, and speaks the language server protocol to it over standard input
and output. Status 1: the input ended before the editor shut it down; 2: a message could not
be read, or the output not written.";

/// The options.
static OPTIONS: [CommandOption<'static>; 2] = [
    CommandOption {
        name: "stdio",
        letter: None,
        takes: Takes::Nothing,
        help: "Does nothing: some editors pass it",
    },
    CommandOption {
        name: "clientProcessId",
        letter: None,
        takes: Takes::Value("N"),
        help: "Does nothing: some editors pass it",
    },
];

/// Why the server ends before its client says so.
#[derive(Debug, Drop)]
enum Fault {
    Frame(FrameError),
    Output(io::Error),
    OutOfMemory,
}

impl fmt::Display for Fault {
    fn fmt<W: fmt::Write>(&self, f: &mut fmt::Formatter<W>) -> fmt::Result {
        match self {
            Fault::Frame(error) => write!(f, "{error}"),
            Fault::Output(error) => write!(f, "the output cannot be written: {error}"),
            Fault::OutOfMemory => f.write_str("out of memory"),
        }
    }
}

/// The files of the host.
#[derive(Clone, Copy)]
struct HostFiles<'r> {
    rt: &'r HostRuntime,
    caller: Caller,
}

impl Files for HostFiles<'_> {
    fn has(&self, path: &str) -> bool {
        fs::exists(self.rt, path).unwrap_or(false)
    }

    fn text(&self, path: &str) -> Option<String> {
        let found = fs::metadata(self.rt, path).ok()?;
        if !found.is_file() || found.len() > LONGEST_FILE {
            return None;
        }
        let text = fs::read_to_string(self.rt, path).ok()?;
        match text.as_str().strip_prefix(MARK) {
            Some(rest) => String::from_str(self.rt.alloc(), rest).ok(),
            None => Some(text),
        }
    }

    fn setting(&self, path: &str) -> Result<Option<Vec<u8>>, Distrust> {
        self.caller.read(self.rt, path, true)
    }

    fn is_near(&self, folder: &str, above: &str) -> bool {
        let above = if above.is_empty() { "/" } else { above };
        self.caller.is_near(self.rt, folder, above)
    }

    fn pages(&self, folder: &str) -> Result<Vec<String>, AllocError> {
        pages_below(self.rt, folder)
    }
}

/// Answers messages until the client ends the server or the input ends, and returns the status.
fn serve(rt: &HostRuntime) -> Result<u8, Fault> {
    let mut server = Server::new(rt.alloc());
    let files = HostFiles {
        rt,
        caller: Caller::new(rt),
    };
    let mut output = rt.stdout();
    let Ok(mut input) = BufReader::new(rt.alloc(), rt.stdin()) else {
        return Err(Fault::OutOfMemory);
    };
    for _ in 0..u64::MAX {
        let message = match read_message(rt.alloc(), &mut input) {
            Ok(Some(message)) => message,
            Ok(None) => break,
            Err(error) => return Err(Fault::Frame(error)),
        };
        let mut answers = Vec::new(rt.alloc());
        let Ok(next) = server.take(&files, &message, &mut answers) else {
            return Err(Fault::OutOfMemory);
        };
        for answer in &answers {
            if let Err(error) = write_message(&mut output, answer.as_str()) {
                return Err(Fault::Output(error));
            }
        }
        if let Next::End(status) = next {
            return Ok(status);
        }
    }
    Ok(server.status())
}

/// The command line.
fn command<'a>(alloc: Global) -> Result<Command<'a>, AllocError> {
    let command = Command::new(alloc, NAME)
        .bin_name(NAME)?
        .version("0.1.0")
        .about("A language server for Markdown: formats, outlines, and follows and checks links")
        .after_help(LAST);
    with_options(alloc, command, &OPTIONS)
}

/// Says what is wrong, and returns status 2.
fn fail(rt: &HostRuntime, fault: &Fault) -> ExitCode {
    SERVER.complain(&mut rt.stderr(), fault);
    ExitCode::from(2)
}

fn main(rt: HostRuntime) -> ExitCode {
    let Ok(words) = words_of(&rt) else {
        return SERVER.refuse(&mut rt.stderr(), "the arguments cannot be read");
    };
    let Ok(command) = command(rt.alloc()) else {
        return fail(&rt, &Fault::OutOfMemory);
    };
    match command.try_get_matches_from(words.as_slice()) {
        Ok(_matches) => match serve(&rt) {
            Ok(status) => ExitCode::from(status),
            Err(fault) => fail(&rt, &fault),
        },
        Err(error) => match SERVER.show(&rt, &error) {
            Ok(status) => status,
            Err(error) => fail(&rt, &Fault::Output(error)),
        },
    }
}
