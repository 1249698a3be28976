//! Four examples of how to use the library, each in a file of its own.
//!
//! The first argument names an example, which then reads standard input: `https-links`, `heading-levels`, `preprocessor`
//! or `headings`. The second argument goes to the example. With `all` in place of a name, standard input has sections. A
//! line `== NAME` or `== NAME WORD` begins one; between two sections is an empty line. The answer to each section
//! is below the same line.
//!
//! The status is 0 if all is well, 1 if `heading-levels` moved a heading, and 2 if there is no answer.
#![tactic(auto)]

mod heading_levels;
mod headings;
mod https_links;
mod preprocessor;

use std::env;
use std::io::{self, Read};
use std::process::ExitCode;

/// The examples.
#[derive(Clone, Copy)]
enum Example {
    HttpsLinks,
    HeadingLevels,
    Preprocessor,
    Headings,
}

/// The examples by their names.
const EXAMPLES: [(&str, Example); 4] = [
    ("https-links", Example::HttpsLinks),
    ("heading-levels", Example::HeadingLevels),
    ("preprocessor", Example::Preprocessor),
    ("headings", Example::Headings),
];

/// The example that has this name.
fn example_named(name: &str) -> anyhow::Result<Example> {
    for (known, example) in EXAMPLES {
        if known == name {
            return Ok(example);
        }
    }
    anyhow::bail!("no example is called {name:?}")
}

/// Runs the example that has this name. Returns whether it moved a heading that skips a level.
fn run<R: Read>(rt: &HostRuntime, name: &str, word: &str, input: &mut R) -> anyhow::Result<bool> {
    match example_named(name)? {
        Example::HttpsLinks => https_links::run(rt, word, input)?,
        Example::HeadingLevels => return heading_levels::run(rt, input),
        Example::Preprocessor => preprocessor::run(rt, word, input)?,
        Example::Headings => headings::run(rt, input)?,
    }
    Ok(false)
}

/// Runs an example over a section, whose first line names it.
fn run_section(rt: &HostRuntime, section: &str) -> anyhow::Result<bool> {
    let (title, text) = section.split_once('\n').unwrap_or((section, ""));
    let (name, word) = title.split_once(' ').unwrap_or((title, ""));
    println!(rt; "== {title}")?;
    let is_moved = run(rt, name, word, &mut text.as_bytes())?;
    println!(rt; "")?;
    Ok(is_moved)
}

/// Runs the examples over the sections of standard input.
fn run_all(rt: &HostRuntime) -> anyhow::Result<bool> {
    let text = io::read_to_string(rt.alloc(), rt.stdin())?;
    let sections = text.as_str().strip_prefix("== ").unwrap_or("");
    let mut is_moved = false;
    for section in sections.split("\n== ") {
        is_moved |= run_section(rt, section)?;
    }
    Ok(is_moved)
}

/// Does what the arguments ask for.
fn perform(rt: &HostRuntime) -> anyhow::Result<bool> {
    let mut words = env::args(rt)?.skip(1);
    let Some(name) = words.next() else {
        anyhow::bail!("name an example, or all");
    };
    if name.as_str() == "all" {
        return run_all(rt);
    }
    match words.next() {
        Some(word) => run(rt, name.as_str(), word.as_str(), &mut rt.stdin()),
        None => run(rt, name.as_str(), "", &mut rt.stdin()),
    }
}

fn main(rt: HostRuntime) -> ExitCode {
    match perform(&rt) {
        Ok(is_moved) => ExitCode::from(u8::from(is_moved)),
        Err(error) => {
            let _ = eprintln!(rt; "{error}");
            ExitCode::from(2)
        }
    }
}
