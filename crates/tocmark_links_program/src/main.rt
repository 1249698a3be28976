//! `tocmark-links`: checks the links of Markdown files, and keeps them right when files move or headings get other words.
#![tactic(auto)]

mod arguments;
mod changes;
mod check;
mod fault;
mod headings;
mod mentions;
mod moving;
mod outcome;
mod plan;
mod report;
mod root;
mod shell;
mod site;
mod source;
mod walk;

use crate::arguments::{Terms, Work, command, terms_of, work_of};
use crate::fault::Fault;
use crate::outcome::{Outcome, status_of};
use crate::plan::Plan;
use crate::report::Report;
use crate::root::{Root, within};
use crate::shell::ShellWord;
use crate::site::{LINKS, Site};
use clap::ArgMatches;
use std::fmt::Write;
use std::fs;
use std::process::ExitCode;
use tocmark_command::program::words_of;
use tocmark_command::streams::write_out;
use tocmark_command::syntax::syntax_help;
use tocmark_files::diff::{Look, unified_diff};
use tocmark_files::quoted::Quoted;
use tocmark_files::rules::Rules;

/// The first line of what `--help` says of `--syntax`.
const SYNTAX: &str = "Kind of Markdown: commonmark, gfm (default) or all";

/// What is said of the root of a tree.
const WHOLE: &str = "is the whole tree: name a file or a folder in it";

/// The rules of `--exclude`.
fn exclude_of(rt: &HostRuntime, root: &Root, matches: &ArgMatches<'_>) -> Result<Rules, Fault> {
    let mut rules = Rules::new(rt.alloc(), root.base(rt.alloc())?.as_str())?;
    for glob in matches.get_strs("exclude").unwrap_or(&[]) {
        if rules.add_glob(rt.alloc(), "exclude", glob)?.is_some() {
            return Err(Fault::Usage("--exclude wants a glob for paths below the folder"));
        }
    }
    Ok(rules)
}

/// A tree that is read.
fn site_of(
    rt: &HostRuntime,
    path: &str,
    terms: Terms,
    matches: &ArgMatches<'_>,
) -> Result<Site, Fault> {
    let root = Root::of(rt, path)?;
    let exclude = exclude_of(rt, &root, matches)?;
    let mut site = Site::new(rt.alloc(), root, terms);
    site.read(rt, exclude)?;
    Ok(site)
}

/// Refuses to move a whole tree, before that is read.
fn refuse_root(rt: &HostRuntime, word: &str) -> Result<(), Fault> {
    if Root::of(rt, word)?.inner(rt, word)?.is_empty() {
        return Err(Fault::path(rt.alloc(), word, WHOLE));
    }
    Ok(())
}

/// Writes to standard output.
fn print(rt: &HostRuntime, text: &str) -> Result<(), Fault> {
    write_out(&mut rt.stdout(), text).map_err(Fault::Output)
}

/// Checks the links of what words name, and returns the status.
fn check_paths(rt: &HostRuntime, site: Site, words: &[&str]) -> Result<u8, Fault> {
    let mut site = site;
    let asked = site.asked_paths(rt, words)?;
    let mut report = Report::new(rt.alloc(), site.terms.form)?;
    site.check(rt, &asked, &mut report)?;
    print(rt, report.end()?.as_str())?;
    Ok(status_of(&site.outcomes))
}

/// The unified diff of what is written.
fn diff_of(rt: &HostRuntime, site: &Site, plan: &Plan) -> Result<String, Fault> {
    let mut diff = String::new(rt.alloc());
    for edit in &plan.edits {
        let name = site.root.shown(rt.alloc(), edit.path.as_str())?;
        let look = Look {
            name: name.as_str(),
            is_colored: false,
        };
        let part = unified_diff(rt.alloc(), edit.old.as_str(), edit.new.as_str(), look)?;
        diff.push_str(part.as_str())?;
    }
    Ok(diff)
}

/// How to stage a move and the changes that it makes, if Git has the tree. What is changed in the old place is in the new one.
fn staging_line(
    rt: &HostRuntime,
    site: &Site,
    plan: &Plan,
    (old, new): (&str, &str),
) -> Result<Option<String>, Fault> {
    if !site.root.is_git || site.terms.is_dry {
        return Ok(None);
    }
    let mut line = String::from_str(rt.alloc(), "nothing is staged; to do that: git add --")?;
    add_word(rt, site, &mut line, old)?;
    add_word(rt, site, &mut line, new)?;
    for edit in &plan.edits {
        if within(edit.path.as_str(), old).is_none() {
            add_word(rt, site, &mut line, edit.path.as_str())?;
        }
    }
    Ok(Some(line))
}

/// Adds a blank and a path in the tree, as a word of a shell, to a command.
fn add_word(rt: &HostRuntime, site: &Site, line: &mut String, path: &str) -> Result<(), Fault> {
    let path = site.root.shown(rt.alloc(), path)?;
    let word = ShellWord(path.as_str());
    write!(line, " {word}")?;
    Ok(())
}

/// What is said last: what is moved, how much is changed, and how to stage it.
fn last_lines(
    rt: &HostRuntime,
    site: &Site,
    plan: &Plan,
    count: usize,
) -> Result<Vec<String>, Fault> {
    let mut lines = Vec::new(rt.alloc());
    let (moved, changed) = if site.terms.is_dry {
        ("would move", "would change")
    } else {
        ("moved", "changed")
    };
    if let Some((old, new)) = &plan.way {
        let old = site.root.shown(rt.alloc(), old.as_str())?;
        let new = site.root.shown(rt.alloc(), new.as_str())?;
        let (old, new) = (Quoted(old.as_str()), Quoted(new.as_str()));
        lines.push(format!(in rt.alloc(); "{moved}: {old} -> {new}")?)?;
    }
    let files = plan.edits.len();
    let noun = if files == 1 { "file" } else { "files" };
    lines.push(format!(in rt.alloc(); "{changed}: {count} in {files} {noun}")?)?;
    if let Some((old, new)) = &plan.way
        && let Some(line) = staging_line(rt, site, plan, (old.as_str(), new.as_str()))?
    {
        lines.push(line)?;
    }
    Ok(lines)
}

/// Writes what was changed, and returns what becomes of that. The change stays, also if nobody can read of it.
fn report_change(rt: &HostRuntime, output: &str) -> Outcome {
    match write_out(&mut rt.stdout(), output) {
        Ok(()) => Outcome::Right,
        Err(error) => {
            LINKS.complain(&mut rt.stderr(), &Fault::Unreported(error));
            Outcome::Failed
        }
    }
}

/// Writes what is planned, unless nothing is to be changed; reports it, and returns the status. All that is said is made before
/// something is changed.
fn finish(
    rt: &HostRuntime,
    site: &Site,
    plan: &Plan,
    report: Report,
    text: &str,
) -> Result<u8, Fault> {
    let lines = last_lines(rt, site, plan, report.count)?;
    if let Some((old, _)) = &plan.way {
        site.warn_of_mentions(rt, old.as_str())?;
    }
    let output = if site.terms.shows {
        diff_of(rt, site, plan)?
    } else {
        report.end()?
    };
    let mut outcome = Outcome::Right;
    if site.terms.is_dry {
        print(rt, output.as_str())?;
    } else {
        plan.carry_out(rt, &site.root, text)?;
        outcome = report_change(rt, output.as_str());
    }
    for line in &lines {
        LINKS.complain(&mut rt.stderr(), &line.as_str());
    }
    let status = status_of(&[outcome]);
    Ok(if status == 0 {
        status_of(&site.outcomes)
    } else {
        status
    })
}

/// The first of some paths at which something is; the current folder, if there is none.
fn first_found<'w>(rt: &HostRuntime, paths: &'w [&'w str]) -> &'w str {
    for path in paths {
        if fs::exists(rt, *path).unwrap_or(false) {
            return *path;
        }
    }
    "."
}

/// What is written to fill tables of contents. If nothing is to be changed, but a file would change, that is noted.
fn contents_of(
    rt: &HostRuntime,
    terms: Terms,
    paths: &[&str],
    report: &mut Report,
) -> Result<(Site, Plan), Fault> {
    let root = Root::of(rt, paths.first().copied().unwrap_or("."))?;
    let mut site = Site::new(rt.alloc(), root, terms);
    let plan = site.contents_plan(rt, paths, report)?;
    if terms.is_dry && !plan.edits.is_empty() {
        site.outcomes.push(Outcome::Stale)?;
    }
    Ok((site, plan))
}

/// A call as one line.
fn line_of(rt: &HostRuntime, words: &[&str]) -> Result<String, Fault> {
    let mut text = String::from_str(rt.alloc(), arguments::NAME)?;
    for word in words {
        let word = Quoted(word);
        text = format!(in rt.alloc(); "{text} {word}")?;
    }
    text.push('\n')?;
    Ok(text)
}

/// Does what a call asks for, and returns the status.
fn perform(
    rt: &HostRuntime,
    terms: Terms,
    words: &[&str],
    matches: &ArgMatches<'_>,
) -> Result<u8, Fault> {
    let work = work_of(rt.alloc(), words)?;
    let text = line_of(rt, words)?;
    let mut report = Report::new(rt.alloc(), terms.form)?;
    let (site, plan) = match work {
        Work::Check(paths) => {
            let first = first_found(rt, paths);
            return check_paths(rt, site_of(rt, first, terms, matches)?, paths);
        }
        Work::Move(old, new) => {
            refuse_root(rt, old)?;
            let site = site_of(rt, old, terms, matches)?;
            let plan = site.move_plan(rt, old, new, &mut report)?;
            (site, plan)
        }
        Work::Rename {
            file,
            anchor,
            words,
        } => {
            let site = site_of(rt, file, terms, matches)?;
            let plan = site.rename_plan(rt, (file, anchor), words, &mut report)?;
            (site, plan)
        }
        Work::Contents(paths) => contents_of(rt, terms, paths, &mut report)?,
    };
    finish(rt, &site, &plan, report, text.as_str())
}

/// Says what is wrong, and returns the status: 1 if standard output can't be written, else 2.
fn fail(rt: &HostRuntime, fault: &Fault) -> ExitCode {
    if !fault.is_broken_pipe() {
        LINKS.complain(&mut rt.stderr(), fault);
    }
    ExitCode::from(if fault.is_of_output() { 1 } else { 2 })
}

/// Does what right arguments ask for.
fn start(rt: &HostRuntime, matches: &ArgMatches<'_>) -> Result<u8, Fault> {
    let terms = terms_of(matches)?;
    perform(rt, terms, matches.get_strs("word").unwrap_or(&[]), matches)
}

fn main(rt: HostRuntime) -> ExitCode {
    let Ok(words) = words_of(&rt) else {
        return LINKS.refuse(&mut rt.stderr(), "the arguments cannot be read");
    };
    let Ok(syntax) = syntax_help(rt.alloc(), SYNTAX) else {
        return fail(&rt, &Fault::OutOfMemory);
    };
    let Ok(command) = command(rt.alloc(), syntax.as_str()) else {
        return fail(&rt, &Fault::OutOfMemory);
    };
    match command.try_get_matches_from(words.as_slice()) {
        Ok(matches) => match start(&rt, &matches) {
            Ok(status) => ExitCode::from(status),
            Err(fault) => fail(&rt, &fault),
        },
        Err(error) => match LINKS.show(&rt, &error) {
            Ok(status) => status,
            Err(error) => fail(&rt, &Fault::Output(error)),
        },
    }
}
