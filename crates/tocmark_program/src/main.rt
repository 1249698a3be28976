//! Reads Markdown on standard input, and writes it back on standard output; with `--source` each text as it
//! is in the input, where that reads back.
#![tactic(auto)]

mod arguments;
mod fault;

ghost use Rattle.std.specs.Prelude.{◌≡◌, ◌≤◌, ◌++◌, ℕ, List, None, IfErr, IfOk, IfSome, OnErr, OnOk, string_bytes};
ghost use Rattle.std.specs.Str.{IsUtf8};
ghost use Rattle.std.specs.Io.KnownBytes.{Appends};
ghost use Rattle.tocmark_event.specs.Reading.{reading_view};
ghost use Rattle.tocmark_state.specs.Ranges.{Pair};
ghost use Rattle.tocmark_program.specs.Program.{as_pairs, asked, events_in, status_of, IsWriteFault, IsRewritten, IsWriting, IsWritten, WritesLate, Wrote};

use arguments::{Spelling, asked};
use fault::Fault;
use std::alloc::Global;
use std::io::{Read, Write};
use std::process::ExitCode;
use std::{env, io};
use tocmark::core_reader::{BlockReading, CoreReader};
use tocmark::event::ParserOptions;
use tocmark::reader::Reading;
use tocmark::{Error, Options, Progress, State};

/// Writes some events of a text.
fn write_part(
    state: &mut State<CoreReader>,
    spelling: Spelling,
    text: &str,
    part: Reading,
    output: &mut String,
) -> Result<Progress, Error>
    ensures { (done : List Pair) → IsWritten text.now done state.old (string_bytes output.old)
        → OnOk result (IsWritten text.now
        (done ++ as_pairs spelling (reading_view part).events)
        state.new (string_bytes output.new)) }
{
    match spelling {
        Spelling::Escaped => state.process_reading(part, output),
        Spelling::FromSource => { state.process_reading_with_source_range(part, text, output) }
    }
}

/// Writes all events that are left.
#[tactic(auto, using(crate::proofs::Written::goes_on, crate::proofs::Written::goes_to_end, crate::proofs::Written::fewer_left))]
fn write_blocks(
    state: &mut State<CoreReader>,
    spelling: Spelling,
    text: &str,
    blocks: &mut BlockReading<'_>,
    output: &mut String,
) -> Result<(), Error>
    ensures { (all : List Pair)
        → IsWriting spelling text.now all state.old blocks.old (string_bytes output.old)
        → OnOk result (IsWritten text.now all state.new (string_bytes output.new)) }
{
    while let Some(part) = blocks.next_events()? {
        write_part(state, spelling, text, part, output)?;
    }
    Ok(())
}

/// Writes all events that are left, and their end.
fn write_all(
    state: &mut State<CoreReader>,
    spelling: Spelling,
    text: &str,
    blocks: &mut BlockReading<'_>,
    output: &mut String,
) -> Result<(), Error>
    ensures { IsWriting spelling text.now (events_in spelling text.now) state.old blocks.old
        (string_bytes output.old)
        → OnOk result (IsRewritten spelling text.now (string_bytes output.new)) }
{
    write_blocks(state, spelling, text, blocks, output)?;
    state.finish(output)?;
    Ok(())
}

/// The text, read and written back, block by block.
fn rewritten(alloc: Global, spelling: Spelling, text: &str) -> Result<String, Error>
    ensures { IfOk result (λ output. IsRewritten spelling text.now (string_bytes output)) }
{
    let mut blocks = CoreReader.blocks(alloc, text)?;
    let flags = ParserOptions::empty();
    let mut state = State::new(alloc, CoreReader, flags, Options::default())?;
    let mut output = String::new(alloc);
    let written = write_all(&mut state, spelling, text, &mut blocks, &mut output);
    drop(state);
    drop(blocks);
    match written {
        Ok(()) => Ok(output),
        Err(error) => Err(error),
    }
}

/// The fault where reading the input ends with an error of this kind.
fn read_fault(kind: io::ErrorKind) -> Fault
    ensures { (status_of result ≡ 1) × ¬ (IsWriteFault result) }
{
    if kind == io::ErrorKind::OutOfMemory {
        Fault::Markdown(Error::OutOfMemory)
    } else {
        Fault::Read
    }
}

/// The input, read and written back. Nothing of it is written yet.
fn converted<I: Read>(alloc: Global, spelling: Spelling, input: &mut I) -> Result<String, Fault>
    ensures fault { IfErr result (λ fault. (status_of fault ≡ 1) × ¬ (IsWriteFault fault)) }
    ensures text { IfSome (I.remaining input.old) (λ bytes. OnOk result (IsUtf8 bytes)) }
    ensures rewritten { IfSome (I.remaining input.old) (λ bytes.
        IfOk result (λ output. IsRewritten spelling bytes (string_bytes output))) }
{
    let mut bytes = Vec::new(alloc);
    if let Err(error) = input.read_to_end(&mut bytes) {
        return Err(read_fault(error.kind()));
    }
    let Ok(text) = std::str::from_utf8(&bytes) else {
        return Err(Fault::NotUtf8);
    };
    match rewritten(alloc, spelling, text) {
        Ok(output) => Ok(output),
        Err(error) => Err(Fault::Markdown(error)),
    }
}

fn write_out<O: Write>(output: &mut O, text: &str) -> Result<(), Fault>
    ensures done { OnOk result (Appends (O.contents output.old) (O.contents output.new) text.now) }
    ensures fault { IfErr result (λ fault. (status_of fault ≡ 1) × IsWriteFault fault) }
{
    if output.write_all(text.as_bytes()).is_err() || output.flush().is_err() {
        return Err(Fault::Write);
    }
    Ok(())
}

/// A call with right arguments. Output is written only after the input was read and rendered.
fn rewrite<I: Read, O: Write>(
    alloc: Global,
    spelling: Spelling,
    input: &mut I,
    output: &mut O,
) -> Result<(), Fault>
    ensures fault { IfErr result (λ fault. status_of fault ≡ 1) }
    ensures unwritten { IfErr result (λ fault. ¬ (IsWriteFault fault) → output.new ≡ output.old) }
    ensures done { OnOk result ((text : List ℕ)
        × Appends (O.contents output.old) (O.contents output.new) text) }
    ensures wrote { IfSome (I.remaining input.old) (λ bytes.
        OnOk result (Wrote spelling bytes (O.contents output.old) (O.contents output.new))) }
    ensures late { OnErr result
        (WritesLate spelling (I.remaining input.old) output.old output.new) }
{
    let text = converted(alloc, spelling, input)?;
    write_out(output, text.as_str())
}

/// The whole call.
fn answer<I: Read, O: Write>(
    alloc: Global,
    words: &[String],
    input: &mut I,
    output: &mut O,
) -> Result<(), Fault>
    ensures usage { asked words.now ≡ None
        → (result ≡ Err Fault.Usage) × (input.new ≡ input.old) × (output.new ≡ output.old) }
    ensures right { IfSome (asked words.now) (λ spelling.
        IfErr result (λ fault. status_of fault ≡ 1)) }
    ensures unwritten { IfErr result (λ fault. ¬ (IsWriteFault fault) → output.new ≡ output.old) }
    ensures done { OnOk result ((text : List ℕ)
        × Appends (O.contents output.old) (O.contents output.new) text) }
    ensures wrote { IfSome (asked words.now) (λ spelling. IfSome (I.remaining input.old) (λ bytes.
        OnOk result (Wrote spelling bytes (O.contents output.old) (O.contents output.new)))) }
    ensures late { IfSome (asked words.now) (λ spelling.
        OnErr result (WritesLate spelling (I.remaining input.old) output.old output.new)) }
{
    match asked(words) {
        Some(spelling) => rewrite(alloc, spelling, input, output),
        None => Err(Fault::Usage),
    }
}

/// The program: the status that it ends with.
///
/// `words` are the arguments without the program's name: none, or `--source` alone. With `--source` each text
/// keeps its spelling of the input, if that reads back. `input` is read whole. After success `output` has the whole
/// Markdown; if writing fails, it may have a part. `faults` gets one line for a fault.
///
/// The answer is 0 after success, and 2 for wrong arguments, with which no input is read. It is 1 for any other
/// fault: the input can't be read, it isn't UTF-8, its events are refused, memory runs out, or the output can't be
/// written.
pub fn run<I: Read, O: Write, F: Write>(
    alloc: Global,
    words: &[String],
    input: &mut I,
    output: &mut O,
    faults: &mut F,
) -> u8
    ensures status { result ≤ 2 }
    ensures usage { asked words.now ≡ None → (result ≡ 2) × (input.new ≡ input.old)
        × (output.new ≡ output.old) }
    ensures right { IfSome (asked words.now) (λ spelling. result ≤ 1) }
    ensures done { result ≡ 0
        → (text : List ℕ) × Appends (O.contents output.old) (O.contents output.new) text }
    ensures wrote { IfSome (asked words.now) (λ spelling. IfSome (I.remaining input.old) (λ bytes.
        result ≡ 0 → Wrote spelling bytes (O.contents output.old) (O.contents output.new))) }
    ensures late { IfSome (asked words.now) (λ spelling.
        result ≡ 1 → WritesLate spelling (I.remaining input.old) output.old output.new) }
{
    match answer(alloc, words, input, output) {
        Ok(()) => 0,
        Err(fault) => {
            complain(faults, &fault);
            status_of(&fault)
        }
    }
}

/// Writes a fault's line. One that can't be written changes nothing.
fn complain<F: Write>(faults: &mut F, fault: &Fault) {
    let _ = writeln!(faults, "{fault}");
}

fn status_of(fault: &Fault) -> u8
    ensures { result ≡ status_of fault.now }
{
    match fault {
        Fault::Usage => 2,
        Fault::Read => 1,
        Fault::NotUtf8 => 1,
        Fault::Markdown(_) => 1,
        Fault::Write => 1,
    }
}

fn words_of(rt: &HostRuntime) -> io::Result<Vec<String>> {
    let mut words = Vec::new(rt.alloc());
    for word in env::args(rt)?.skip(1) {
        words.push(word)?;
    }
    Ok(words)
}

fn main(rt: HostRuntime) -> ExitCode {
    let mut input = rt.stdin();
    let mut output = rt.stdout();
    let mut faults = rt.stderr();
    let Ok(words) = words_of(&rt) else {
        complain(&mut faults, &Fault::Usage);
        return ExitCode::from(2);
    };
    ExitCode::from(run(rt.alloc(), &words, &mut input, &mut output, &mut faults))
}
