//! The words of a call, and the messages about them.

use crate::release::release_line;
use crate::streams::write_out;
use clap::error::ErrorKind;
use std::alloc::{AllocError, Global};
use std::io::{IsTerminal, Write};
use std::process::ExitCode;
use std::{env, fmt, io};
use tocmark_files::quoted::OneLine;

/// A program, by the name that its lines on standard error begin with.
#[derive(Clone, Copy)]
pub struct Program {
    /// The command's name.
    pub name: &'static str,
}

impl Program {
    /// Writes a line about what went wrong: the program's name, and the fault, in which control characters are escaped. One that
    /// can't be written changes nothing.
    pub fn complain<F: Write, E: fmt::Display>(self, faults: &mut F, fault: &E) {
        let (name, fault) = (self.name, OneLine(fault));
        let _ = writeln!(faults, "{name}: {fault}");
    }

    /// Writes a line about a wrong call, and returns the status of wrong arguments: 2.
    pub fn refuse<F: Write>(self, faults: &mut F, why: &str) -> ExitCode {
        self.complain(faults, &why);
        ExitCode::from(2)
    }

    /// Writes this note to standard error, if standard input is a terminal: a person may not know what the program waits for.
    pub fn note_at_terminal(self, rt: &HostRuntime, note: &str) {
        if rt.stdin().is_terminal() {
            self.complain(&mut rt.stderr(), &note);
        }
    }

    /// Writes the help or the version that a call asks for, and returns status 0. If the arguments are wrong, it writes why to
    /// standard error, and returns status 2. The version has a second line about the program's release, if that is known.
    ///
    /// It fails if standard output can't be written.
    pub fn show(self, rt: &HostRuntime, error: &clap::Error) -> io::Result<ExitCode> {
        let mut faults = rt.stderr();
        let Ok(text) = format!(in rt.alloc(); "{error}") else {
            return Ok(self.refuse(&mut faults, "out of memory"));
        };
        if error.use_stderr() {
            return match in_one_line(rt.alloc(), text.as_str()) {
                Ok(line) => Ok(self.refuse(&mut faults, line.as_str())),
                Err(_) => Ok(self.refuse(&mut faults, "out of memory")),
            };
        }
        let mut output = rt.stdout();
        write_out(&mut output, text.as_str())?;
        if error.kind() == ErrorKind::DisplayVersion
            && let Ok(line) = release_line(rt)
        {
            write_out(&mut output, line.as_str())?;
        }
        Ok(ExitCode::from(0))
    }
}

/// A message of clap as one line: what is wrong, what is listed below that, its tips, and where there is more. The usage is left
/// out.
fn in_one_line(alloc: Global, why: &str) -> Result<String, AllocError> {
    let mut line = String::new(alloc);
    for part in why.lines() {
        if part.starts_with("Usage: ") || part.starts_with("For more ") {
            break;
        }
        let part = part.trim_start();
        let (mark, words) = match part.strip_prefix("tip: ") {
            Some(tip) => ("; ", tip),
            None => (" ", part),
        };
        if !line.is_empty() && !words.is_empty() {
            line.push_str(mark)?;
        }
        line.push_str(words)?;
    }
    line.push_str("; try --help")?;
    Ok(line)
}

/// The words of this call, the program's own name first.
///
/// It fails if the host doesn't give them, or if memory runs out.
pub fn words_of(rt: &HostRuntime) -> io::Result<Vec<String>> {
    let mut words = Vec::new(rt.alloc());
    for word in env::args(rt)? {
        words.push(word)?;
    }
    Ok(words)
}
