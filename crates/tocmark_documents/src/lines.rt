//! JSON by lines: a line for each event, or for each pair of an event and its range.

ghost use Rattle.std.specs.Prelude.{◌≡◌, [], ◌∷◌, ◌++◌, IfOk, OnErr, OnOk, string_bytes};
ghost use Rattle.std.specs.Io.KnownBytes.{Appends};
ghost use Rattle.tocmark_event.specs.Reading.{reading_view};
ghost use Rattle.tocmark_documents.specs.Lines.{AppendsFront, AppendsUpTo, AreRight, array_of, lines_with, reading_lines, reading_located_lines, with_commas};
ghost use Rattle.tocmark_marked.specs.Marked.{blocks_left};

use std::alloc::{AllocError, Global};
use std::io;
use std::io::{ErrorKind, Write};
use tocmark::event::ParserOptions;
use tocmark::reader::Reading;
use tocmark_json::locating::indexed_to_lines;
use tocmark_json::positions::Positions;
use tocmark_json::printing::ranged_to_lines;
use tocmark_marked::{MarkedBlocks, MarkedReader};

/// How many bytes of lines are gathered before they are written.
const GATHERED: usize = 65_536;

/// Why lines aren't written whole.
#[derive(Debug, Drop)]
pub enum StreamError {
    /// The output fails.
    Output(io::Error),
    /// Memory ran out.
    OutOfMemory,
}

impl From<AllocError> for StreamError {
    fn from(_fault: AllocError) -> StreamError {
        StreamError::OutOfMemory
    }
}

impl From<io::Error> for StreamError {
    fn from(error: io::Error) -> StreamError {
        StreamError::Output(error)
    }
}

/// Writes bytes.
///
/// It fails if the output does, or takes nothing. Then the output has a front of the bytes.
pub fn write_bytes<O: Write>(output: &mut O, bytes: &[u8]) -> io::Result<()>
    ensures whole { OnOk result
        (Appends (O.contents output.old) (O.contents output.new) bytes.now) }
    ensures front { OnErr result
        (AppendsFront (O.contents output.old) (O.contents output.new) bytes.now) }
{
    let mut rest = bytes;
    for _turn in (0..u64::MAX).rev() {
        if rest.is_empty() {
            return Ok(());
        }
        match output.write(rest) {
            Ok(0) => return Err(io::Error::from(ErrorKind::WriteZero)),
            Ok(taken) => rest = &rest[taken..],
            Err(error) => {
                if error.kind() != ErrorKind::Interrupted {
                    return Err(error);
                }
            }
        }
    }
    Err(io::Error::from(ErrorKind::TimedOut))
}

/// The lines of some events, with lines and columns if the text's places are given.
fn part_lines(
    alloc: Global,
    part: &Reading,
    positions: &Option<Positions<'_>>,
) -> Result<String, AllocError>
    requires { AreRight positions.now }
    ensures { IfOk result (λ lines. string_bytes lines
        ≡ lines_with positions.now (reading_view part.now).events) }
{
    match positions {
        None => ranged_to_lines(alloc, &part.events),
        Some(places) => indexed_to_lines(alloc, &part.events, places),
    }
}

/// Adds the lines of some events to those that are gathered.
fn gather(
    alloc: Global,
    part: &Reading,
    positions: &Option<Positions<'_>>,
    lines: &mut String,
) -> Result<(), AllocError>
    requires { AreRight positions.now }
    ensures { OnOk result (string_bytes lines.new ≡ string_bytes lines.old
        ++ lines_with positions.now (reading_view part.now).events) }
{
    let more = part_lines(alloc, part, positions)?;
    lines.push_str(more.as_str())
}

/// Writes the lines that are gathered, if they are many.
///
/// It fails as `write_bytes` does.
fn pass_on<O: Write>(lines: &mut String, output: &mut O) -> io::Result<()>
    ensures moved { OnOk result (AppendsUpTo (O.contents output.old) (O.contents output.new)
        (string_bytes lines.old) (string_bytes lines.new)) }
    ensures front { OnErr result (AppendsFront (O.contents output.old) (O.contents output.new)
        (string_bytes lines.old)) }
{
    if lines.len() < GATHERED {
        return Ok(());
    }
    write_bytes(output, lines.as_bytes())?;
    lines.clear();
    Ok(())
}

/// Writes the lines of all events that are left.
fn stream<O: Write>(
    alloc: Global,
    blocks: &mut MarkedBlocks<'_>,
    positions: &Option<Positions<'_>>,
    output: &mut O,
) -> Result<(), StreamError>
    requires { AreRight positions.now }
    ensures whole { OnOk result (Appends (O.contents output.old) (O.contents output.new)
        (lines_with positions.now (blocks_left blocks.old).events)) }
    ensures front { OnErr result (AppendsFront (O.contents output.old) (O.contents output.new)
        (lines_with positions.now (blocks_left blocks.old).events)) }
{
    let mut lines = String::new(alloc);
    while let Some(part) = blocks.next_events()? {
        let gathered = gather(alloc, &part, positions, &mut lines);
        drop(part);
        gathered?;
        pass_on(&mut lines, output)?;
    }
    write_bytes(output, lines.as_bytes())?;
    Ok(())
}

/// Parses Markdown with the extended reader under these flags, and writes its events as JSON: a line for each event
/// with its range in bytes. A byte order mark at the front is no text, as for `read_json`. Neither all events nor all lines
/// are in memory at once. The output isn't flushed.
///
/// It fails if the output does (`Output`), or if memory runs out (`OutOfMemory`). Then the output has a front of the lines.
///
/// ```
/// let mut output = Vec::new(alloc);
/// stream_lines(alloc, "---", ParserOptions::empty(), &mut output)?;
/// assert_eq!(rt; output.as_slice(), b"[\"Rule\",{\"end\":3,\"start\":0}]\n");
/// ```
pub fn stream_lines<O: Write>(
    alloc: Global,
    text: &str,
    flags: ParserOptions,
    output: &mut O,
) -> Result<(), StreamError>
    ensures whole { OnOk result (Appends (O.contents output.old) (O.contents output.new)
        (reading_lines flags text.now)) }
    ensures front { OnErr result (AppendsFront (O.contents output.old) (O.contents output.new)
        (reading_lines flags text.now)) }
{
    let mut blocks = MarkedReader.blocks(alloc, text, flags)?;
    let positions = None;
    let streamed = stream(alloc, &mut blocks, &positions, output);
    drop(blocks);
    streamed
}

/// Writes the lines of events as `stream_lines` does, and adds to ranges what `read_located` adds.
///
/// It fails as `stream_lines` does.
pub fn stream_located_lines<O: Write>(
    alloc: Global,
    text: &str,
    flags: ParserOptions,
    output: &mut O,
) -> Result<(), StreamError>
    ensures whole { OnOk result (Appends (O.contents output.old) (O.contents output.new)
        (reading_located_lines flags text.now)) }
    ensures front { OnErr result (AppendsFront (O.contents output.old) (O.contents output.new)
        (reading_located_lines flags text.now)) }
{
    let places = Positions::new(alloc, text)?;
    let positions = Some(places);
    let mut found = MarkedReader.blocks(alloc, text, flags)?;
    let streamed = stream(alloc, &mut found, &positions, output);
    drop(found);
    streamed
}

/// Adds a byte, and a comma before it if it follows a line feed.
fn push(json: &mut Vec<u8>, is_behind: bool, byte: u8) -> Result<(), AllocError>
    ensures { OnOk result (json.new.items ≡ json.old.items ++ with_commas is_behind (byte ∷ [])) }
{
    if is_behind {
        json.push(b',')?;
        json.push(byte)?;
        Ok(())
    } else {
        json.push(byte)?;
        Ok(())
    }
}

/// Makes an array of items that are on lines of their own.
fn array_bytes(alloc: Global, lines: &[u8]) -> Result<Vec<u8>, AllocError>
    ensures { IfOk result (λ json. json.items ≡ array_of lines.now) }
{
    let mut json = Vec::new(alloc);
    json.push(b'[')?;
    let mut is_behind = false;
    for byte in lines {
        push(&mut json, is_behind, *byte)?;
        is_behind = *byte == b'\n';
    }
    json.push(b']')?;
    Ok(json)
}

/// Makes one JSON array of items that are on lines of their own, as `stream_lines` writes them. A line may not be
/// blank.
///
/// It fails if memory runs out.
///
/// ```
/// let json = array_of(alloc, "\"Rule\"\n\"Rule\"\n")?;
/// assert_eq!(rt; json.as_str(), "[\"Rule\"\n,\"Rule\"\n]");
/// ```
pub fn array_of(alloc: Global, lines: &str) -> Result<String, AllocError>
    ensures { IfOk result (λ json. string_bytes json ≡ array_of lines.now) }
{
    let bytes = array_bytes(alloc, lines.as_bytes())?;
    match String::from_utf8(bytes) {
        Ok(json) => Ok(json),
        Err(_error) => Err(AllocError),
    }
}
