//! A unit of a row, and how it is written in one manner.

ghost use Rattle.std.specs.Prelude.{◌≡◌, true};
ghost use Rattle.test_script.specs.Findings.{HasFindings};
ghost use Rattle.tocmark_write_emphasis.specs.Low.{AsksLow};

use std::alloc::Global;
use tocmark_event::event::ParserOptions;
use tocmark_event::options::{Error, Options};
use tocmark_reader::CoreReader;
use tocmark_spelling::plan::Delimiters;
use tocmark_write_emphasis::task::Task;
use tocmark_write_renderer::job::{Job, Manner};
use tocmark_write_renderer::renderer::Renderer;
use tocmark_write_unit::block::{KnownUnit, write_unit};

/// The label that is reserved for lists.
const LABEL: &str = "cmark-loose-0";

/// A unit of a row or the body of one, and what it is written with.
#[derive(Clone, Copy)]
pub struct Unit<'u, 'o> {
    pub alloc: Global,
    pub options: &'u Options<'o>,
    pub flags: ParserOptions,
    pub known: KnownUnit<'u>,
}

/// How a writing ended.
#[derive(Clone, Copy, PartialEq, Eq)]
pub enum Outcome {
    Written,
    /// A node is where it may not, or the manner asks for a marker past ASCII.
    Refused,
    /// Memory can't hold the text.
    OutOfMemory,
}

/// Whether the markers that are asked for are ASCII, the strong one in its first byte.
fn asks_low(delimiters: Delimiters<'_>) -> bool
    ensures { result ≡ true → AsksLow delimiters.entry }
{
    let is_strong_low = match delimiters.strong.as_bytes() {
        [first, ..] => *first < 128,
        [] => true,
    };
    delimiters.emphasis.is_ascii() && is_strong_low
}

fn outcome_of(written: Result<(), Error>) -> Outcome {
    match written {
        Ok(()) => Outcome::Written,
        Err(Error::UnexpectedEvent) => Outcome::Refused,
        Err(_error) => Outcome::OutOfMemory,
    }
}

/// Writes the unit in one manner, which asks for ASCII.
fn write_low<'u>(
    unit: &Unit<'u, '_>,
    renderer: &mut Renderer<'u>,
    manner: &Manner<'_>,
) -> Result<(), Error>
    requires found { HasFindings unit.now }
    requires low { AsksLow manner.now.delimiters }
    ensures mark { renderer.new.at_mark ≡ renderer.old.at_mark }
{
    let task = Task {
        job: Job {
            alloc: unit.alloc,
            options: unit.options,
            flags: unit.flags,
            label: Some(LABEL),
        },
        reader: &CoreReader,
        manner: *manner,
    };
    write_unit(renderer, &task, unit.known)
}

/// Writes the unit in one manner. Where that is refused some of it may be written.
pub fn write<'u>(unit: &Unit<'u, '_>, renderer: &mut Renderer<'u>, manner: &Manner<'_>) -> Outcome
    requires { HasFindings unit.now }
    ensures mark { renderer.new.at_mark ≡ renderer.old.at_mark }
{
    if asks_low(manner.delimiters) {
        outcome_of(write_low(unit, renderer, manner))
    } else {
        Outcome::Refused
    }
}
