//! The program for other languages: Markdown to events as JSON on standard output, and back.
//! `docs/JSON.md` has the form.
//!
//! It is on `tocmark_documents`, `tocmark_outline` and `tocmark_definitions`, which make its answers, and on
//! `tocmark_command`, which has what it shares with the formatter. `answer` asks for the answer to a call, and `edited` puts it in
//! the place of a file. `arguments` has the program's options, `settings` sets those of the writer, and `fault` has the messages
//! on standard error. `explained` adds what the input says about a fault.
#![tactic(auto)]

mod answer;
mod arguments;
mod edited;
mod explained;
mod fault;
mod settings;

ghost use Rattle.std.specs.Prelude.{◌≡◌, ◌≤◌, IfErr, IfSome, OnErr, OnOk, Some, string_bytes};
ghost use Rattle.std.specs.Io.KnownBytes.{Appends};
ghost use Rattle.tocmark_documents.specs.Lines.{AppendsFront};
ghost use Rattle.tocmark_events_program.specs.Events.{IsAnswered, IsWriteFault, WritesLate, lines_read};

use answer::answered;
use arguments::{Call, Files, Job, NAME, asked, command, files_in, options_file};
use clap::ArgMatches;
use edited::Edited;
use fault::Fault;
use std::alloc::Global;
use std::fs;
use std::fs::File;
use std::io::{Read, Write};
use std::process::ExitCode;
use tocmark::Options;
use tocmark::event::ParserOptions;
use tocmark_command::program::{Program, words_of};
use tocmark_command::streams::text_in;
use tocmark_command::syntax::syntax_help;
use tocmark_documents::{
    StreamError, options_in_json, stream_lines, stream_located_lines, write_bytes,
};
use tocmark_files::quoted::in_quotes;
use tocmark_rewrite::{Fate, RewrittenTree};

/// This program.
const EVENTS: Program = Program { name: NAME };

/// The first line of what `--help` says of `--syntax`.
const SYNTAX: &str = "Kind of Markdown: commonmark, gfm (default) or all";

/// Writes the lines of the events of a text as they come.
fn stream<O: Write>(
    alloc: Global,
    text: &str,
    flags: ParserOptions,
    positions: bool,
    output: &mut O,
) -> Result<(), StreamError>
    ensures whole { OnOk result (Appends (O.contents output.old) (O.contents output.new)
        (lines_read flags positions text.now)) }
    ensures front { OnErr result (AppendsFront (O.contents output.old) (O.contents output.new)
        (lines_read flags positions text.now)) }
{
    if positions {
        stream_located_lines(alloc, text, flags, output)
    } else {
        stream_lines(alloc, text, flags, output)
    }
}

/// Writes the answer to a job, once all of it is there. Returns the blocks of a rewritten document.
fn write_answer<O: Write>(
    alloc: Global,
    job: Job<'_>,
    source: &str,
    input: &str,
    output: &mut O,
) -> Result<Vec<RewrittenTree>, Fault>
    ensures unwritten { IfErr result (λ fault. ¬ (IsWriteFault fault) → output.new ≡ output.old) }
    ensures answered { OnOk result (IsAnswered (Call.Whole job.entry) source.now input.now
        (O.contents output.old) (O.contents output.new)) }
    ensures late { OnErr result (WritesLate O.contents (Call.Whole job.entry) source.now
        (Some input.now) output.old output.new) }
{
    let answer = answered(alloc, job, source, input)?;
    match write_bytes(output, answer.text.as_bytes()) {
        Ok(()) => Ok(answer.blocks),
        Err(_error) => Err(Fault::Write),
    }
}

/// Writes the output of a call. Returns the blocks of a rewritten document.
fn respond<O: Write>(
    alloc: Global,
    call: Call<'_>,
    source: &str,
    input: &str,
    output: &mut O,
) -> Result<Vec<RewrittenTree>, Fault>
    ensures answered { OnOk result (IsAnswered call.entry source.now input.now
        (O.contents output.old) (O.contents output.new)) }
    ensures late { OnErr result (WritesLate O.contents call.entry source.now (Some input.now)
        output.old output.new) }
{
    match call {
        Call::Stream { flags, positions } => {
            stream(alloc, input, flags, positions, output)?;
            Ok(Vec::new(alloc))
        }
        Call::Whole(job) => write_answer(alloc, job, source, input, output),
    }
}

/// Writes the output of a call over the text of the input, and flushes it. Returns the blocks of a rewritten document.
fn convert<I: Read, O: Write>(
    alloc: Global,
    call: Call<'_>,
    source: &str,
    input: &mut I,
    output: &mut O,
) -> Result<Vec<RewrittenTree>, Fault>
    ensures answered { IfSome (I.remaining input.old) (λ bytes. OnOk result
        (IsAnswered call.entry source.now bytes (O.contents output.old) (O.contents output.new))) }
    ensures late { OnErr result (WritesLate O.contents call.entry source.now
        (I.remaining input.old) output.old output.new) }
{
    let text = text_in(alloc, input)?;
    let blocks = respond(alloc, call, source, text.as_str(), output)?;
    match output.flush() {
        Ok(()) => Ok(blocks),
        Err(_error) => Err(Fault::Write),
    }
}

/// Writes a line about each block of a rewritten document, if the call asks for that.
fn report<F: Write>(faults: &mut F, call: Call<'_>, blocks: &[RewrittenTree]) {
    if let Call::Whole(Job::Rewrite { reports: true, .. }) = call {
        for block in blocks {
            tell(faults, block);
        }
    }
}

/// Writes whether a block was kept, patched or written. A line that can't be written changes nothing.
fn tell<F: Write>(faults: &mut F, block: &RewrittenTree) {
    let fate = match block.fate {
        Fate::Kept(_) => "kept",
        Fate::Patched => "patched",
        Fate::Written => "written",
    };
    let event = block.first;
    let _ = match block.lines {
        Some((first, last)) => writeln!(faults, "event {event}, lines {first} to {last}: {fate}"),
        None => writeln!(faults, "event {event}: {fate}"),
    };
}

/// The program after its arguments: the status that it ends with. `read --lines` writes lines as they come. Any other call
/// writes nothing before its whole answer is there.
pub fn run<I: Read, O: Write, F: Write>(
    alloc: Global,
    call: Call<'_>,
    source: &str,
    input: &mut I,
    output: &mut O,
    faults: &mut F,
) -> u8
    ensures status { result ≤ 1 }
    ensures answered { IfSome (I.remaining input.old) (λ bytes. result ≡ 0
        → IsAnswered call.entry source.now bytes (O.contents output.old) (O.contents output.new)) }
    ensures late { result ≡ 1 → WritesLate O.contents call.entry source.now
        (I.remaining input.old) output.old output.new }
{
    match convert(alloc, call, source, input, output) {
        Ok(blocks) => {
            report(faults, call, &blocks);
            0
        }
        Err(fault) => {
            EVENTS.complain(faults, &fault);
            1
        }
    }
}

/// A file's text.
fn text_of(rt: &HostRuntime, file: &str) -> Result<String, Fault> {
    match fs::read_to_string(rt, file) {
        Ok(text) => Ok(text),
        Err(error) => {
            let name = in_quotes(rt.alloc(), file)?;
            Err(Fault::Unreadable(name, error))
        }
    }
}

/// The text of the source that a call names; an empty one if it names none.
fn source_of(rt: &HostRuntime, call: Call<'_>) -> Result<String, Fault> {
    let file = match call {
        Call::Whole(Job::Write { source, .. }) => source,
        Call::Whole(Job::Rewrite { source, .. }) => Some(source),
        Call::Whole(Job::Redefine { source, .. }) => Some(source),
        _ => None,
    };
    match file {
        Some(file) => text_of(rt, file),
        None => Ok(String::new(rt.alloc())),
    }
}

/// The options of the file that the arguments name, and else the default ones.
fn options_of(rt: &HostRuntime, matches: &ArgMatches<'_>) -> Result<Options<'static>, Fault> {
    let Some(file) = options_file(matches) else {
        return Ok(Options::default());
    };
    let text = text_of(rt, file)?;
    Ok(options_in_json(rt.alloc(), text.as_str())?)
}

/// Writes the help or the version, or why the arguments are wrong.
fn show(rt: &HostRuntime, error: &clap::Error) -> ExitCode {
    match EVENTS.show(rt, error) {
        Ok(status) => status,
        Err(_error) => {
            EVENTS.complain(&mut rt.stderr(), &Fault::Write);
            ExitCode::from(1)
        }
    }
}

/// Rewrites the file of a job in place: it gets the whole answer, or stays as it was. A file whose text stays the same isn't
/// touched.
fn rewrite_in_place(
    rt: &HostRuntime,
    job: Job<'_>,
    files: Files<'_>,
    file: &str,
    source: &str,
) -> Result<Vec<RewrittenTree>, Fault> {
    let input = match files.read {
        Some(events) => text_of(rt, events)?,
        None => text_in(rt.alloc(), &mut rt.stdin())?,
    };
    let answer = answered(rt.alloc(), job, source, input.as_str())?;
    let edited = Edited {
        job,
        source,
        input: input.as_str(),
        answer: &answer,
    };
    edited.put(rt, file)?;
    Ok(answer.blocks)
}

/// The status of a job that replaces a file.
fn perform_in_place(
    rt: &HostRuntime,
    job: Job<'_>,
    files: Files<'_>,
    file: &str,
    source: &str,
) -> ExitCode {
    let mut faults = rt.stderr();
    match rewrite_in_place(rt, job, files, file, source) {
        Ok(blocks) => {
            report(&mut faults, Call::Whole(job), &blocks);
            ExitCode::from(0)
        }
        Err(fault) => {
            EVENTS.complain(&mut faults, &fault);
            ExitCode::from(1)
        }
    }
}

/// Does what a call asks for, over this input.
fn perform_over<I: Read>(
    rt: &HostRuntime,
    call: Call<'_>,
    source: &str,
    input: &mut I,
) -> ExitCode {
    let mut output = rt.stdout();
    let mut faults = rt.stderr();
    let alloc = rt.alloc();
    ExitCode::from(run(alloc, call, source, input, &mut output, &mut faults))
}

/// Opens a file that a call reads.
fn opened(rt: &HostRuntime, file: &str) -> Result<File, Fault> {
    match File::open(rt, file) {
        Ok(input) => Ok(input),
        Err(error) => {
            let name = in_quotes(rt.alloc(), file)?;
            Err(Fault::Unreadable(name, error))
        }
    }
}

/// Does what a call asks for, over the file that it names, or over standard input.
fn perform_on_input(
    rt: &HostRuntime,
    call: Call<'_>,
    source: &str,
    file: Option<&str>,
) -> ExitCode {
    let Some(file) = file else {
        return perform_over(rt, call, source, &mut rt.stdin());
    };
    match opened(rt, file) {
        Ok(input) => {
            let mut input = input;
            perform_over(rt, call, source, &mut input)
        }
        Err(fault) => {
            EVENTS.complain(&mut rt.stderr(), &fault);
            ExitCode::from(1)
        }
    }
}

/// What a terminal is asked for.
fn note_of(call: Call<'_>) -> &'static str {
    match call {
        Call::Stream { .. } | Call::Whole(Job::Read { .. } | Job::Define { .. }) => {
            "reading Markdown from the terminal; end it with Ctrl-D"
        }
        Call::Whole(Job::Redefine { .. }) => {
            "reading definitions as JSON from the terminal; end them with Ctrl-D"
        }
        _ => "reading events as JSON from the terminal; end them with Ctrl-D",
    }
}

/// Does what a call asks for: in a file's place, or to standard output.
fn perform(rt: &HostRuntime, call: Call<'_>, files: Files<'_>) -> ExitCode {
    let source = match source_of(rt, call) {
        Ok(source) => source,
        Err(fault) => {
            EVENTS.complain(&mut rt.stderr(), &fault);
            return ExitCode::from(1);
        }
    };
    if files.read.is_none() {
        EVENTS.note_at_terminal(rt, note_of(call));
    }
    if let Some(file) = files.in_place {
        if let Call::Whole(job) = call {
            return perform_in_place(rt, job, files, file, source.as_str());
        }
    }
    perform_on_input(rt, call, source.as_str(), files.read)
}

/// Does what right arguments ask for.
fn start(rt: &HostRuntime, matches: &ArgMatches<'_>) -> ExitCode {
    let options = match options_of(rt, matches) {
        Ok(options) => options,
        Err(fault) => {
            EVENTS.complain(&mut rt.stderr(), &fault);
            return ExitCode::from(1);
        }
    };
    match asked(rt.alloc(), matches, options) {
        Ok(call) => perform(rt, call, files_in(matches)),
        Err(refusal) => {
            EVENTS.complain(&mut rt.stderr(), &refusal);
            ExitCode::from(2)
        }
    }
}

fn main(rt: HostRuntime) -> ExitCode {
    let Ok(words) = words_of(&rt) else {
        return EVENTS.refuse(&mut rt.stderr(), "the arguments cannot be read");
    };
    let Ok(syntax_help) = syntax_help(rt.alloc(), SYNTAX) else {
        return EVENTS.refuse(&mut rt.stderr(), "out of memory");
    };
    let Ok(command) = command(rt.alloc(), syntax_help.as_str()) else {
        return EVENTS.refuse(&mut rt.stderr(), "out of memory");
    };
    match command.try_get_matches_from(words.as_slice()) {
        Ok(matches) => start(&rt, &matches),
        Err(error) => show(&rt, &error),
    }
}
