//! Compares two Markdown texts, or the Markdown files of two folders, by what they say. `docs/COMPARE.md` has the options.
//!
//! `tocmark_differences` finds what two texts say differently, and `tocmark_command` has what all programs share. `arguments`
//! has the command line. `texts` reads texts and finds the files of folders. `outcome` judges texts and has the status.
//! `replaced` gives a file a text that was judged the same. `report` writes differences, and `painted` has the colours of lines.
//! `fault` has the messages on standard error.
#![tactic(auto)]

mod arguments;
mod fault;
mod outcome;
mod painted;
mod replaced;
mod report;
mod texts;

use arguments::{NAME, Pair, Place, Terms, Text, command, kinds_help, pair_of, terms_of};
use clap::ArgMatches;
use fault::Fault;
use outcome::{Outcome, judged, status_of};
use replaced::Replaced;
use report::{Report, Way};
use std::process::ExitCode;
use texts::{Shared, files_below, is_folder, joined, text_of};
use tocmark_bare_links::BareLinks;
use tocmark_command::program::{Program, words_of};
use tocmark_command::streams::{wants_color, write_out};
use tocmark_command::syntax::syntax_help;
use tocmark_judge::PartReader;
use tocmark_reader::{ExtendedReader, Names};

/// This program.
const COMPARE: Program = Program { name: NAME };

/// The reader of all texts, unless addresses in them count as links.
const READER: ExtendedReader = ExtendedReader { names: Names::All };

/// The reader that finds these links, too.
const LINKING_READER: BareLinks<ExtendedReader> = BareLinks { reader: READER };

/// The first line of what `--help` says of `--syntax`.
const SYNTAX: &str = "Kind of Markdown: commonmark, gfm (default) or all";

/// A comparison, and what it found so far.
#[derive(Drop)]
struct Comparison {
    terms: Terms,
    report: Report,
    /// What became of each pair of files.
    outcomes: Vec<Outcome>,
}

impl Comparison {
    /// Writes what is reported since the last call, unless nothing is to be written.
    fn flush(&mut self, rt: &HostRuntime) -> Result<(), Fault> {
        if !self.terms.is_quiet {
            write_out(&mut rt.stdout(), self.report.text()).map_err(Fault::Output)?;
        }
        self.report.clear();
        Ok(())
    }

    /// Reports what a reader finds differently in two texts. If that is nothing, the new one takes the place of the old one, if
    /// that is wanted.
    fn compare_by<R: PartReader>(
        &mut self,
        rt: &HostRuntime,
        pair: Pair<'_>,
        reader: &R,
    ) -> Result<Outcome, Fault> {
        let (old, new) = (text_of(rt, pair.old)?, text_of(rt, pair.new)?);
        let terms = self.terms;
        let (found, outcome) = judged(rt.alloc(), reader, terms, old.as_str(), new.as_str())?;
        for difference in &found {
            self.report
                .add_difference(pair.old.name, pair.new.name, difference)?;
        }
        if let Place::Path(path) = pair.old.place
            && terms.replaces
            && outcome.is_same()
        {
            let (old, new) = (old.as_str(), new.as_str());
            let replaced = Replaced {
                reader,
                terms,
                old,
                new,
            };
            replaced.put(rt, path)?;
        }
        Ok(outcome)
    }

    /// Reports what two texts say differently, by the reader that a call asks for.
    fn compare_texts(&mut self, rt: &HostRuntime, pair: Pair<'_>) -> Result<Outcome, Fault> {
        if self.terms.links_addresses {
            self.compare_by(rt, pair, &LINKING_READER)
        } else {
            self.compare_by(rt, pair, &READER)
        }
    }

    /// Compares two files. If one can't be read, standard error says so. It fails if nothing more can be done.
    fn compare_files(&mut self, rt: &HostRuntime, pair: Pair<'_>) -> Result<(), Fault> {
        let outcome = match self.compare_texts(rt, pair) {
            Ok(outcome) => outcome,
            Err(fault) if fault.is_of_file() => {
                COMPARE.complain(&mut rt.stderr(), &fault);
                Outcome::Failed
            }
            Err(fault) => return Err(fault),
        };
        self.outcomes.push(outcome)?;
        self.flush(rt)
    }

    /// Reports a file that only one folder has.
    fn report_file(&mut self, rt: &HostRuntime, name: &str, way: Way) -> Result<(), Fault> {
        self.report.add_file(name, way)?;
        self.outcomes.push(Outcome::Differs)?;
        self.flush(rt)
    }

    /// Compares what two folders have under one name.
    fn compare_shared(
        &mut self,
        rt: &HostRuntime,
        folders: Pair<'_>,
        file: &Shared,
    ) -> Result<(), Fault> {
        let old = joined(rt.alloc(), folders.old.name, file.name.as_str())?;
        let new = joined(rt.alloc(), folders.new.name, file.name.as_str())?;
        if !file.is_in_new {
            return self.report_file(rt, old.as_str(), Way::Removed);
        }
        if !file.is_in_old {
            return self.report_file(rt, new.as_str(), Way::Added);
        }
        let pair = Pair {
            old: Text::file(old.as_str()),
            new: Text::file(new.as_str()),
        };
        self.compare_files(rt, pair)
    }

    /// Compares two texts, or the Markdown files below two folders.
    fn compare(&mut self, rt: &HostRuntime, pair: Pair<'_>) -> Result<(), Fault> {
        let (old, new) = (pair.old.name, pair.new.name);
        match (is_folder(rt, pair.old), is_folder(rt, pair.new)) {
            (false, false) => return self.compare_files(rt, pair),
            (true, false) => return Err(Fault::mixed(rt.alloc(), old, new)?),
            (false, true) => return Err(Fault::mixed(rt.alloc(), new, old)?),
            (true, true) if self.terms.replaces => {
                return Err(Fault::Usage("--replace wants two texts, and no folders"));
            }
            (true, true) => {}
        }
        for file in &files_below(rt, old, new)? {
            self.compare_shared(rt, pair, file)?;
        }
        Ok(())
    }
}

/// Compares what a call names, and returns the status.
fn perform(rt: &HostRuntime, terms: Terms, pair: Pair<'_>) -> Result<u8, Fault> {
    let mut comparison = Comparison {
        terms,
        report: Report::new(rt.alloc(), terms.form, wants_color(rt))?,
        outcomes: Vec::new(rt.alloc()),
    };
    comparison.compare(rt, pair)?;
    comparison.report.end()?;
    comparison.flush(rt)?;
    Ok(status_of(&comparison.outcomes, terms.is_for_git))
}

/// Says what is wrong, and returns status 2.
fn fail(rt: &HostRuntime, fault: &Fault) -> ExitCode {
    if !fault.is_broken_pipe() {
        COMPARE.complain(&mut rt.stderr(), fault);
    }
    ExitCode::from(2)
}

/// Does what right arguments ask for.
fn start(rt: &HostRuntime, matches: &ArgMatches<'_>) -> Result<u8, Fault> {
    let terms = terms_of(rt.alloc(), matches)?;
    match pair_of(matches, terms)? {
        Some(pair) => perform(rt, terms, pair),
        None => Ok(0),
    }
}

fn main(rt: HostRuntime) -> ExitCode {
    let Ok(words) = words_of(&rt) else {
        return COMPARE.refuse(&mut rt.stderr(), "the arguments cannot be read");
    };
    let (Ok(syntax), Ok(kinds)) = (syntax_help(rt.alloc(), SYNTAX), kinds_help(rt.alloc())) else {
        return fail(&rt, &Fault::OutOfMemory);
    };
    let Ok(command) = command(rt.alloc(), syntax.as_str(), kinds.as_str()) else {
        return fail(&rt, &Fault::OutOfMemory);
    };
    match command.try_get_matches_from(words.as_slice()) {
        Ok(matches) => match start(&rt, &matches) {
            Ok(status) => ExitCode::from(status),
            Err(fault) => fail(&rt, &fault),
        },
        Err(error) => match COMPARE.show(&rt, &error) {
            Ok(status) => status,
            Err(error) => fail(&rt, &Fault::Output(error)),
        },
    }
}
