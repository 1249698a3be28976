//! Runs scripts of events: reads them on standard input, and writes on standard output what each one is
//! answered. The lines of scripts and of answers are in `docs/SCRIPTS.md`.
//!
//! A `script` is read line by line (`lines`, `gathering`). A line is an event in JSON (`event_line`), or words and
//! strings (`words`, `strings`) of a `statement` or an `option`; `line_fault` has what is wrong with one. `readers` has
//! the reader of a script: the core reader, with a label more or without, a table of readings, or the reader of
//! extensions.
//!
//! A `batch` answers scripts in turn: it makes the calls of one (`runs`, `cuts`), or answers its questions
//! (`question`, `events`, `readings`). After the argument `--rows` are files of scripts with the lines that each is to be
//! answered (`stored`), a line of more than 4,000 bytes by its length and digest (`short_lines`). Each is also tried in
//! other ways (`rows`). The program writes the answers that aren't expected, and what the trials came to.
#![tactic(auto)]

mod again;
mod alike;
mod batch;
mod cuts;
mod errors;
mod event_line;
mod events;
mod fault;
mod faults;
mod gathering;
mod line_fault;
mod lines;
mod midst;
mod option;
mod question;
mod readers;
mod readings;
mod report;
mod rows;
mod runs;
mod script;
mod short_lines;
mod statement;
mod stored;
mod strings;
mod tally;
mod trials;
mod unit;
mod valid;
mod words;

use crate::batch::Batch;
use crate::fault::Fault;
use crate::stored::StoredRows;
use std::io::{self, ErrorKind, Read, Write};
use std::process::ExitCode;
use std::{env, fs};

/// What the arguments ask for.
#[derive(Clone, Copy)]
enum Task<'a> {
    /// To answer the scripts on standard input.
    Answer,
    /// To try the rows of these files.
    TryRows(&'a [String]),
}

/// The words after the name of the program.
fn words_of(rt: &HostRuntime) -> io::Result<Vec<String>> {
    let mut words = Vec::new(rt.alloc());
    for word in env::args(rt)?.skip(1) {
        words.push(word)?;
    }
    Ok(words)
}

/// What the words ask for, or nothing where they are wrong.
fn task_of(words: &[String]) -> Option<Task<'_>> {
    let Some((first, files)) = words.split_first() else {
        return Some(Task::Answer);
    };
    if first.as_str() == "--rows" && !files.is_empty() {
        Some(Task::TryRows(files))
    } else {
        None
    }
}

/// The text of scripts that standard input has.
fn scripts(rt: &HostRuntime) -> Result<String, Fault> {
    let mut text = String::new(rt.alloc());
    match rt.stdin().read_to_string(&mut text) {
        Ok(_bytes) => Ok(text),
        Err(error) if error.kind() == ErrorKind::InvalidData => Err(Fault::NotUtf8),
        Err(_error) => Err(Fault::Read),
    }
}

/// Answers each script. False where some script has no answer.
fn answer(rt: &HostRuntime) -> Result<bool, Fault> {
    let text = scripts(rt)?;
    let mut batch = Batch::new(rt.alloc());
    let is_right = batch.take_all(text.as_str(), &mut rt.stdout(), &mut rt.stderr());
    drop(batch);
    is_right
}

/// Tries the rows of these files. False where one has another answer than is expected.
fn try_rows(rt: &HostRuntime, files: &[String]) -> io::Result<bool> {
    let mut rows = StoredRows::new(rt.alloc());
    let mut output = rt.stdout();
    for file in files {
        let text = fs::read_to_string(rt, file.as_str())?;
        rows.take_file(&mut output, file.as_str(), text.as_str())?;
    }
    rows.write_trials(&mut output)?;
    Ok(rows.is_right())
}

fn perform(rt: &HostRuntime, task: Task<'_>) -> Result<bool, Fault> {
    match task {
        Task::Answer => answer(rt),
        Task::TryRows(files) => match try_rows(rt, files) {
            Ok(is_right) => Ok(is_right),
            Err(_) => Err(Fault::Rows),
        },
    }
}

fn run(rt: &HostRuntime) -> Result<bool, Fault> {
    let Ok(words) = words_of(rt) else {
        return Err(Fault::Usage);
    };
    match task_of(&words) {
        Some(task) => perform(rt, task),
        None => Err(Fault::Usage),
    }
}

fn main(rt: HostRuntime) -> ExitCode {
    match run(&rt) {
        Ok(true) => ExitCode::SUCCESS,
        Ok(false) => ExitCode::FAILURE,
        Err(fault) => {
            let _ = writeln!(rt.stderr(), "{fault}");
            match fault {
                Fault::Usage => ExitCode::from(2),
                _ => ExitCode::FAILURE,
            }
        }
    }
}
