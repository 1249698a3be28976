//! Standard input, formatted to standard output.

ghost use Rattle.std.specs.Prelude.{◌≡◌, ◌↔◌, IfErr, IfOk, IfSome, IsSome, IsTrue, OnOk, false, string_bytes, vec_len};
ghost use Rattle.std.specs.Io.KnownBytes.{Appends};
ghost use Rattle.tocmark_format_program.specs.Formats.{IsForm, IsFormatted, IsOutputFault};

use crate::decide::{Decision, decided};
use crate::fault::Fault;
use crate::outcome::{Outcome, first_change, outcome_of};
use crate::text::text_in;
use std::alloc::Global;
use std::io::{Read, Write};
use tocmark_command::streams::write_out;
use tocmark_format::Left;
use tocmark_judge::PartReader;
use tocmark_reader::{ExtendedReader, Names};
use tocmark_settings::Settings;

/// The reader of all documents.
pub const READER: ExtendedReader = ExtendedReader { names: Names::All };

/// What became of a text.
#[derive(Drop)]
pub struct Passed {
    pub outcome: Outcome,
    /// The first line that is changed, or would be; without one, 1.
    pub line: usize,
    /// The blocks of it that keep their lines.
    pub left: Vec<Left>,
}

/// What became of a text by a decision that is carried out.
pub fn passed_by(decision: Decision) -> Passed
    ensures changed { IsTrue result.outcome.is_changed ↔ IsSome decision.new }
    ensures done { result.outcome.has_failed ≡ false }
    ensures warned { result.outcome.warnings ≡ vec_len decision.left }
    ensures left { result.left ≡ decision.left }
{
    let outcome = outcome_of(&decision);
    let line = first_change(&decision);
    let Decision { left, .. } = decision;
    Passed {
        outcome,
        line,
        left,
    }
}

/// A text as it is formatted, and what became of it.
fn formatted_text<R: PartReader>(
    alloc: Global,
    reader: &R,
    settings: Settings,
    text: String,
) -> Result<(String, Passed), Fault>
    ensures form { IfOk result (λ done. IsForm settings (R.reading reader.now)
        (R.definitions reader.now) done.1.outcome.is_changed
        (string_bytes text) (string_bytes done.0)) }
    ensures fault { IfErr result (λ fault. ¬ (IsOutputFault fault)) }
{
    let decision = decided(alloc, text, reader, settings)?;
    let outcome = outcome_of(&decision);
    let line = first_change(&decision);
    let Decision { old, new, left, .. } = decision;
    let passed = Passed {
        outcome,
        line,
        left,
    };
    match new {
        Some(new) => Ok((new, passed)),
        None => Ok((old, passed)),
    }
}

/// All that an input has, as it is formatted, and what became of it.
fn formatted_input<R: PartReader, I: Read>(
    alloc: Global,
    reader: &R,
    settings: Settings,
    input: &mut I,
) -> Result<(String, Passed), Fault>
    ensures form { IfSome (I.remaining input.old) (λ bytes. IfOk result (λ done. IsForm settings
        (R.reading reader.now) (R.definitions reader.now) done.1.outcome.is_changed
        bytes (string_bytes done.0))) }
    ensures fault { IfErr result (λ fault. ¬ (IsOutputFault fault)) }
{
    let text = text_in(alloc, input)?;
    formatted_text(alloc, reader, settings, text)
}

/// Writes all that an input has, as it is formatted, and says whether that is another text. What is written says the same as
/// the input, defines the same links, and has the same letters. After an `Err` that isn't of the output, nothing is written.
pub fn format_stream<R: PartReader, I: Read, O: Write>(
    alloc: Global,
    reader: &R,
    settings: Settings,
    input: &mut I,
    output: &mut O,
) -> Result<Passed, Fault>
    ensures same { IfSome (I.remaining input.old) (λ bytes. IfOk result (λ passed. IsFormatted
        settings (R.reading reader.now) (R.definitions reader.now) passed.outcome.is_changed
        bytes (O.contents output.old) (O.contents output.new))) }
    ensures unwritten { IfErr result (λ fault.
        ¬ (IsOutputFault fault) → output.new ≡ output.old) }
{
    let (text, passed) = formatted_input(alloc, reader, settings, input)?;
    match write_out(output, text.as_str()) {
        Ok(()) => Ok(passed),
        Err(error) => Err(Fault::Output(error)),
    }
}

/// Writes all that an input has, as it is. After an `Err` that isn't of the output, nothing is written.
pub fn copy_stream<I: Read, O: Write>(
    alloc: Global,
    input: &mut I,
    output: &mut O,
) -> Result<(), Fault>
    ensures same { IfSome (I.remaining input.old) (λ bytes. OnOk result
        (Appends (O.contents output.old) (O.contents output.new) bytes)) }
    ensures unwritten { IfErr result (λ fault.
        ¬ (IsOutputFault fault) → output.new ≡ output.old) }
{
    let mut bytes = Vec::new(alloc);
    if let Err(error) = input.read_to_end(&mut bytes) {
        return Err(Fault::Read(error));
    }
    if let Err(error) = output.write_all(&bytes) {
        return Err(Fault::Output(error));
    }
    output.flush().map_err(Fault::Output)
}
