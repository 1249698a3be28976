//! Formats Markdown: files in place, or standard input to standard output. What is written for a text is read again and
//! compared, so a document never says anything else afterwards (the clause `same` of `decided`). `docs/FORMAT.md` has the
//! options.
//!
//! It uses `tocmark_format`, `tocmark_settings`, which has what options and configurations name, `tocmark_files`, which
//! matches names, shows what changed and replaces files, and `tocmark_command`, which has what it shares with
//! `tocmark-events`. Enter at `main`.
//!
//! What a call asks for: `words` has its words, `arguments` the command line, and `lookup` finds and reads the configuration of
//! each folder. Which texts are meant: `search` finds them, `walk` those below a folder, and `list` those of a list; `ignores`
//! has the rules of `.gitignore`.
//! What is done: `decide` has what is written for a text, `text` reads one, `stream` answers standard input, and `replace`
//! replaces a file. What is printed: `outcome` has what became of a text and the status, `report` and `fault` have the
//! messages.
#![tactic(auto)]

ghost use Rattle.std.specs.Prelude.{◌≡◌, IfOk, IsFalse, IsTrue, MatchResult, OnErr, OnOk, length};
ghost use Rattle.tocmark_files.specs.Replaced.{IsGivenNothing, steps_on};
ghost use Rattle.tocmark_format_program.specs.Formats.{IsFormattedBy, is_dry};
ghost use Rattle.tocmark_format_program.specs.Outcomes.{AreAnswered, EndsBy, failed};

mod arguments;
mod decide;
mod fault;
mod ignores;
mod list;
mod lookup;
mod outcome;
mod replace;
mod report;
mod search;
mod stream;
mod text;
mod walk;
mod words;

use arguments::{Color, NAME, Task, Voice, choice_of, color_of, command, task_of, voice_of};
use clap::ArgMatches;
use decide::{Decision, decided};
use fault::Fault;
use list::add_list;
use lookup::Refused;
use outcome::{Outcome, status_of};
use replace::format_file;
use report::{Form, Report};
use search::{Found, Origin, Search, Target};
use std::alloc::{AllocError, Global};
use std::io::{BufWriter, IsTerminal, Stderr};
use std::process::ExitCode;
use std::{env, fs, io};
use stream::{Passed, READER, copy_stream, format_stream, passed_by};
use text::text_in;
use tocmark_command::program::Program;
use tocmark_command::streams::{wants_color, write_out};
use tocmark_command::syntax::syntax_help;
use tocmark_files::diff::{Look, unified_diff};
use tocmark_files::place::OpenFile;
use tocmark_files::quoted::Quoted;
use tocmark_files::replace::remove_left;
use tocmark_judge::PartReader;
use tocmark_settings::Settings;
use words::{Words, words_of};

/// This program.
const FORMAT: Program = Program { name: NAME };

/// The first lines of what `--help` says of `--syntax`.
const SYNTAX: &str = "Markdown to read: commonmark, gfm (default)\nor all";

/// How many files a call has at least if a terminal shows how many are done.
const MANY: usize = 20;

/// What is done with each text.
#[derive(Clone, Copy)]
struct Work {
    task: Task,
    voice: Voice,
    is_colored: bool,
}

/// What would change in a text, or the name of its file, as standard output shows it.
fn shown_change(
    alloc: Global,
    work: Work,
    name: &str,
    old: &str,
    new: &str,
) -> Result<String, Fault> {
    if !work.task.shows {
        let name = Quoted(name);
        return match format!(in alloc; "{name}\n") {
            Ok(line) => Ok(line),
            Err(_) => Err(Fault::OutOfMemory),
        };
    }
    let look = Look {
        name,
        is_colored: work.is_colored,
    };
    Ok(unified_diff(alloc, old, new, look)?)
}

/// Shows what a decision would change in the text of a file. The name alone isn't shown where a program is told.
fn show_change(rt: &HostRuntime, work: Work, name: &str, decision: &Decision) -> Result<(), Fault> {
    let Some(new) = &decision.new else {
        return Ok(());
    };
    if !work.task.shows && !work.voice.is_for_people() {
        return Ok(());
    }
    let shown = shown_change(rt.alloc(), work, name, decision.old.as_str(), new.as_str())?;
    write_out(&mut rt.stdout(), shown.as_str()).map_err(Fault::Output)
}

/// Shows what would change in the text of a file, and changes nothing.
fn preview<R: PartReader>(
    rt: &HostRuntime,
    work: Work,
    reader: &R,
    settings: Settings,
    name: &str,
    text: String,
) -> Result<Passed, Fault> {
    let decision = decided(rt.alloc(), text, reader, settings)?;
    show_change(rt, work, name, &decision)?;
    Ok(passed_by(decision))
}

/// Formats an open file, or shows what would change in it and leaves it alone.
fn done_in<R: PartReader>(
    rt: &HostRuntime,
    work: Work,
    reader: &R,
    target: &Target,
    file: &mut OpenFile,
) -> Result<Passed, Fault>
    ensures dry { IsTrue (is_dry work.task) → steps_on file.new ≡ steps_on file.old }
    ensures given { IsFalse (is_dry work.task) → IfOk result (λ passed. IsFormattedBy
        target.now.settings (R.reading reader.now) (R.definitions reader.now) work.task.syncs
        passed.outcome.is_changed file.old file.new) }
    ensures stays { OnErr result (IsGivenNothing file.old file.new) }
{
    if !work.task.is_dry() {
        return format_file(rt, file, reader, target, work.task.syncs);
    }
    let text = text_in(rt.alloc(), &mut file.file)?;
    preview(
        rt,
        work,
        reader,
        target.settings,
        target.path.as_str(),
        text,
    )
}

/// Formats standard input to standard output.
fn pass_through(rt: &HostRuntime, settings: Settings) -> Result<Passed, Fault> {
    let (mut input, mut output) = (rt.stdin(), rt.stdout());
    format_stream(rt.alloc(), &READER, settings, &mut input, &mut output)
}

/// Copies standard input to standard output, unless nothing is to be written.
fn copy_through(rt: &HostRuntime, work: Work) -> Result<Passed, Fault> {
    if !work.task.is_dry() {
        copy_stream(rt.alloc(), &mut rt.stdin(), &mut rt.stdout())?;
    }
    Ok(Passed {
        outcome: Outcome::UNCHANGED,
        line: 1,
        left: Vec::new(rt.alloc()),
    })
}

/// Formats one file, or standard input.
fn done(rt: &HostRuntime, work: Work, target: &Target) -> Result<Passed, Fault> {
    let (path, settings) = (target.path.as_str(), target.settings);
    let is_dry = work.task.is_dry();
    if let Origin::Input = &target.origin {
        FORMAT.note_at_terminal(rt, "reading Markdown from the terminal; end it with Ctrl-D");
    }
    match &target.origin {
        Origin::ExcludedInput => copy_through(rt, work),
        Origin::Input if is_dry => {
            let text = text_in(rt.alloc(), &mut rt.stdin())?;
            preview(rt, work, &READER, settings, path, text)
        }
        Origin::Input => pass_through(rt, settings),
        Origin::File(place) => {
            let mut file = place.open(rt).map_err(Fault::Read)?;
            done_in(rt, work, &READER, target, &mut file)
        }
    }
}

/// Reports what became of a text.
fn outcome_said(
    report: &mut Report<BufWriter<Stderr>>,
    path: &str,
    done: &Result<Passed, Fault>,
) -> Result<Outcome, AllocError>
    ensures { IfOk result (λ outcome. MatchResult done.now
        (λ passed. outcome ≡ passed.outcome) (λ _. outcome ≡ failed)) }
{
    match done {
        Ok(passed) => {
            report.left(path, &passed.left)?;
            if passed.outcome.is_changed {
                report.changed(path, passed.line)?;
            }
            Ok(passed.outcome)
        }
        Err(fault) => {
            report.failed(path, fault)?;
            Ok(Outcome::FAILED)
        }
    }
}

/// Formats a text and reports what became of it, and whether no other one is formatted after it: then it failed.
fn do_one(
    rt: &HostRuntime,
    work: Work,
    target: &Target,
    report: &mut Report<BufWriter<Stderr>>,
) -> Result<(Outcome, bool), AllocError>
    ensures { IfOk result (λ done. IsTrue done.1 → done.0 ≡ failed) }
{
    let done = done(rt, work, target);
    let is_last = match &done {
        Ok(_) => false,
        Err(fault) => fault.is_of_output(),
    };
    let outcome = outcome_said(report, target.path.as_str(), &done)?;
    Ok((outcome, is_last))
}

/// Formats all texts, or stops once standard output can't be written, and reports what became of them. Each text has an outcome
/// then, or one has failed.
fn do_all(
    rt: &HostRuntime,
    work: Work,
    targets: &[Target],
    report: &mut Report<BufWriter<Stderr>>,
    outcomes: &mut Vec<Outcome>,
) -> Result<(), AllocError>
    ensures { OnOk result (AreAnswered (length targets.now)
        outcomes.old.items outcomes.new.items) }
{
    for target in targets {
        if work.task.is_dry() {
            report.clear();
        }
        let (outcome, is_last) = do_one(rt, work, target, report)?;
        outcomes.push(outcome)?;
        if is_last {
            return Ok(());
        }
        report.progress(outcomes.len(), targets.len());
    }
    Ok(())
}

/// Whether a diff is coloured: as is asked for, or by the environment and the terminal.
fn is_colored(rt: &HostRuntime, color: Color) -> bool {
    match color {
        Color::Always => true,
        Color::Never => false,
        Color::Auto => wants_color(rt),
    }
}

/// Whether there is a summary: not of standard input alone, nor of folders without files or of what is excluded alone.
fn has_summary(found: &Found) -> bool {
    if !found.failures.is_empty() {
        return true;
    }
    match found.targets.as_slice() {
        [] => found.empty.is_empty() && found.excluded.is_empty(),
        [only] => match &only.origin {
            Origin::File(_) => true,
            _ => false,
        },
        _ => true,
    }
}

/// Refuses options that don't go together.
fn check_input(
    paths: &[&str],
    list: Option<&str>,
    has_null: bool,
    name: Option<&str>,
) -> Result<(), Refused> {
    let mut has_input = false;
    let mut has_files = list.is_some();
    for path in paths {
        if *path == "-" {
            has_input = true;
        } else {
            has_files = true;
        }
    }
    if name.is_some() && has_files {
        return Err(Refused::Usage("--stdin-filepath takes no other files"));
    }
    if has_input && list == Some("-") {
        return Err(Refused::Usage("standard input cannot be a list and a text at once"));
    }
    if has_null && list.is_none() {
        return Err(Refused::Usage("-0 wants --files-from FILE, where - is standard input"));
    }
    Ok(())
}

/// Refuses lines of more than one text.
fn check_lines(rt: &HostRuntime, paths: &[&str], list: Option<&str>) -> Result<(), Refused> {
    let is_folder = match paths {
        [] => false,
        [path] => match fs::metadata(rt, path) {
            Ok(metadata) => metadata.is_dir(),
            Err(_) => false,
        },
        _ => true,
    };
    if is_folder || list.is_some() {
        return Err(Refused::Usage("--lines takes one file alone, or standard input"));
    }
    Ok(())
}

/// Adds what an argument names.
fn add_path(
    rt: &HostRuntime,
    search: &mut Search,
    broken: &[String],
    path: &str,
) -> Result<(), Refused> {
    for word in broken {
        if word.as_str() == path {
            return search.fail(rt, path, Fault::Name);
        }
    }
    if path == "-" {
        search.add_input(rt)
    } else {
        search.add(rt, path)
    }
}

/// Adds the texts that a call names.
fn add_all(
    rt: &HostRuntime,
    search: &mut Search,
    matches: &ArgMatches<'_>,
    broken: &[String],
) -> Result<(), Refused> {
    let paths = matches.get_strs("path").unwrap_or(&[]);
    let list = matches.get_str("files-from");
    let has_null = matches.get_flag("null");
    let name = matches.get_str("stdin-filepath");
    check_input(paths, list, has_null, name)?;
    if matches.get_str("lines").is_some() {
        check_lines(rt, paths, list)?;
    }
    if let Some(name) = name {
        return search.add_input_as(rt, name);
    }
    if let Some(list) = list {
        let end = if has_null { 0 } else { b'\n' };
        add_list(rt, search, list, end)?;
    }
    for path in paths {
        add_path(rt, search, broken, path)?;
    }
    if paths.is_empty() && list.is_none() {
        return search.add_input(rt);
    }
    Ok(())
}

/// The texts that a call names.
fn found_of(
    rt: &HostRuntime,
    matches: &ArgMatches<'_>,
    broken: &[String],
) -> Result<Found, Refused> {
    let choice = choice_of(rt, matches)?;
    let mut search = Search::new(rt, choice, matches.get_str("config"))?;
    add_all(rt, &mut search, matches, broken)?;
    Ok(search.end())
}

/// Formats all texts that were found, and returns the status. It follows from a failure for each text that can't be found, and
/// an outcome for each other one.
fn perform(
    rt: &HostRuntime,
    work: Work,
    found: &Found,
    report: &mut Report<BufWriter<Stderr>>,
) -> Result<u8, AllocError>
    ensures { IfOk result (EndsBy work.task.terms
        (length found.now.failures.items) (length found.now.targets.items)) }
{
    let mut outcomes = Vec::new(rt.alloc());
    outcomes.reserve(found.targets.len().saturating_add(found.failures.len()))?;
    for failure in &found.failures {
        report.failed(failure.path.as_str(), &failure.fault)?;
        outcomes.push(Outcome::FAILED)?;
    }
    let is_alone = found.targets.is_empty() && found.failures.is_empty();
    for it in &found.excluded {
        report.excluded(it.path.as_str(), it.by.as_str(), is_alone);
    }
    for path in &found.site_files {
        report.site(path.as_str());
    }
    for path in &found.empty {
        report.found_nothing(path.as_str())?;
    }
    do_all(rt, work, &found.targets, report, &mut outcomes)?;
    if !work.task.is_dry() {
        for left in &found.left_behind {
            if remove_left(rt, &left.place) {
                report.note(left.path.as_str(), "removed: an interrupted call left it");
            }
        }
    }
    if has_summary(found) {
        report.end(&outcomes);
    } else {
        report.clear();
    }
    Ok(status_of(&outcomes, work.task.terms))
}

/// What is done, by a command line.
fn work_of(rt: &HostRuntime, matches: &ArgMatches<'_>) -> Result<Work, Refused> {
    let color = color_of(matches)?;
    Ok(Work {
        task: task_of(matches),
        voice: voice_of(matches)?,
        is_colored: is_colored(rt, color),
    })
}

/// Does what right arguments ask for.
fn start(rt: &HostRuntime, matches: &ArgMatches<'_>, broken: &[String]) -> ExitCode {
    let work = match work_of(rt, matches) {
        Ok(work) => work,
        Err(refused) => return refuse_call(rt, &refused),
    };
    match found_of(rt, matches, broken) {
        Ok(found) => report_all(rt, work, &found),
        Err(refused) => refuse_call(rt, &refused),
    }
}

/// Whether standard output gets a text.
fn has_text_out(work: Work, found: &Found) -> bool {
    if work.task.is_dry() {
        return false;
    }
    for target in &found.targets {
        match &target.origin {
            Origin::File(_) => {}
            _ => return true,
        }
    }
    false
}

/// Writes what was found for a program: to standard output, or if that gets a text, to standard error.
fn write_found(rt: &HostRuntime, work: Work, found: &Found, text: &str) -> io::Result<()> {
    if has_text_out(work, found) {
        write_out(&mut rt.stderr(), text)
    } else {
        write_out(&mut rt.stdout(), text)
    }
}

/// Formats all texts that were found, and reports what became of them; the status.
fn reported(
    rt: &HostRuntime,
    work: Work,
    found: &Found,
    report: Report<BufWriter<Stderr>>,
) -> Result<u8, Fault> {
    let mut report = report;
    let status = perform(rt, work, found, &mut report)?;
    let text = report.into_found()?;
    write_found(rt, work, found, text.as_str()).map_err(Fault::Output)?;
    Ok(status)
}

/// Formats all texts that were found, and writes what became of them.
fn report_all(rt: &HostRuntime, work: Work, found: &Found) -> ExitCode {
    let is_long = found.targets.len() >= MANY && !work.voice.is_quiet;
    let shows_progress = is_long && rt.stderr().is_terminal();
    let Ok(out) = BufWriter::new(rt.alloc(), rt.stderr()) else {
        return refuse_call(rt, &Refused::OutOfMemory);
    };
    let mut report = Report::new(rt.alloc(), out, work.voice, work.task.is_dry());
    if shows_progress {
        report.show_progress();
    }
    match reported(rt, work, found, report) {
        Ok(status) => ExitCode::from(status),
        Err(fault) => fail_call(rt, &fault),
    }
}

/// Writes why a call fails, unless nobody reads standard output any more.
fn fail_call(rt: &HostRuntime, fault: &Fault) -> ExitCode {
    if !fault.is_broken_pipe() {
        FORMAT.complain(&mut rt.stderr(), fault);
    }
    ExitCode::from(1)
}

/// Writes the help or the version, or why the arguments are wrong.
fn show(rt: &HostRuntime, error: &clap::Error) -> ExitCode {
    match FORMAT.show(rt, error) {
        Ok(status) => status,
        Err(error) => fail_call(rt, &Fault::Output(error)),
    }
}

/// Writes why nothing is done.
fn refuse_call(rt: &HostRuntime, refused: &Refused) -> ExitCode {
    FORMAT.complain(&mut rt.stderr(), refused);
    ExitCode::from(2)
}

/// Does what words ask for, with this help of `--syntax`.
fn call(rt: &HostRuntime, words: &Words, syntax_help: &str) -> ExitCode {
    let Ok(command) = command(rt.alloc(), syntax_help) else {
        return refuse_call(rt, &Refused::OutOfMemory);
    };
    match command.try_get_matches_from(words.words.as_slice()) {
        Ok(matches) => start(rt, &matches, &words.broken),
        Err(error) => show(rt, &error),
    }
}

fn main(rt: HostRuntime) -> ExitCode {
    let Ok(syntax_help) = syntax_help(rt.alloc(), SYNTAX) else {
        return refuse_call(&rt, &Refused::OutOfMemory);
    };
    match words_of(&rt) {
        Ok(words) => call(&rt, &words, syntax_help.as_str()),
        Err(_) => refuse_call(&rt, &Refused::OutOfMemory),
    }
}
