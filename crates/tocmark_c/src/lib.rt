//! The library for C. `bindings/c/tocmark.h` describes it for callers, and `docs/BINDINGS.md` says how to build it.
//!
//! Each function writes its result into a buffer that the caller lends (`room`). It returns the result's length in
//! bytes, or a negative number, the code of an error (`cause`). If the buffer is too small, nothing is written. No
//! state is kept between calls. `style` takes a style from C, and `place` tells C where an error is; `refusal` has an
//! error with its place. `marshal_reading` parses Markdown for Python, and `marshal_writing` writes events that Python gives.
//! `writing` and `packed_events` write events, too, `rewriting` rewrites a source, and `redefining` changes its definitions of
//! links. `comparing` lists what two texts say differently, and `outlining` what a text has.
//!
//! The crate uses `tocmark_documents` for events, `tocmark_format` for formatting, `tocmark_differences` and
//! `tocmark_bare_links` for comparing, `tocmark_outline` for lists, and `tocmark_definitions` for definitions of links.
#![tactic(auto)]

mod cause;
mod comparing;
mod marshal_reading;
mod marshal_writing;
mod outlining;
mod packed_events;
mod place;
mod redefining;
mod refusal;
mod rewriting;
mod room;
mod style;
mod writing;

ghost use Rattle.std.specs.Prelude.{◌≡◌, IfErr, IfOk, map, string_bytes};
ghost use Rattle.tocmark_c.specs.Answer.{IsAnswer, IsErrorText, IsNever};
ghost use Rattle.tocmark_c.specs.Calls.{IsDocumentCauseOf, IsFormatCause, IsMarkdownOf, IsReadCause, IsReadFrom, IsSameDocument, IsSameMarkdownOf, IsSameToAll, IsWriteCause, flags_of};
ghost use Rattle.tocmark_c.specs.Comparing.{IsCompareCause, IsComparison};
ghost use Rattle.tocmark_c.specs.MarshalCalls.{IsMarshalCause, IsMarshalOf};
ghost use Rattle.tocmark_c.specs.MarshalWriting.{IsDumpMarkdown, IsDumpWriteCause};
ghost use Rattle.tocmark_c.specs.Outline.{IsOutline};
ghost use Rattle.tocmark_c.specs.PackedCalls.{IsPackedMarkdown, IsPackedWriteCause};
ghost use Rattle.tocmark_c.specs.Place.{IsTold};
ghost use Rattle.tocmark_c.specs.Redefining.{IsRedefineCauseOf, IsRedefinedOf};
ghost use Rattle.tocmark_c.specs.Rewriting.{IsRewriteCauseOf, IsRewrittenOf};

use cause::{Cause, error_text};
use comparing::compare;
use marshal_reading::read_bytes;
use marshal_writing::write_marshal_events;
use outlining::{Outlined, outline};
use packed_events::write_packed_events;
use place::TocmarkPlace;
use redefining::redefined;
use rewriting::rewrite;
use room::{answer, answer_at, lay, lay_bytes};
use std::alloc::{AllocError, Global};
use style::{TocmarkStyle, style_of};
use tocmark::event::ParserOptions;
use tocmark_documents::read_json;
use tocmark_format::formatted;
use tocmark_reader::{ExtendedReader, Names};
use writing::write;

/// The version: 65,536 times the first number, 256 times the second, and the third.
#[unsafe(no_mangle)]
pub extern "C" fn tocmark_version() -> u32
    ensures { result ≡ 256 }
{
    256
}

/// Writes what an error's code means, in English, into `out`, and returns its length. All other numbers have one text.
#[unsafe(no_mangle)]
#[tactic(auto, using(crate::proofs::Answers::text_answered))]
pub extern "C" fn tocmark_error_text(code: isize, out: &mut [u8]) -> isize
    ensures { IsAnswer (IsErrorText code) IsNever result out.old out.new }
{
    lay(error_text(code), out)
}

/// Parses Markdown under these flags, and writes the JSON of its events with their ranges into `out`.
#[unsafe(no_mangle)]
#[tactic(auto, using(crate::proofs::Answers::answered))]
pub extern "C" fn tocmark_read_json(alloc: Global, text: &[u8], flags: u32, out: &mut [u8]) -> isize
    ensures { IsAnswer (IsReadFrom flags text.now) (IsReadCause text.now) result out.old out.new }
{
    answer(read(alloc, text, flags), out)
}

/// Parses Markdown under these flags, and writes the bytes of which Python's `marshal.loads` makes its events with their
/// ranges into `out`.
#[unsafe(no_mangle)]
#[tactic(auto, using(crate::proofs::Answers::text_answered, crate::proofs::Answers::cause_answered))]
pub extern "C" fn tocmark_read_marshal(
    alloc: Global,
    text: &[u8],
    flags: u32,
    out: &mut [u8],
) -> isize
    ensures { IsAnswer (IsMarshalOf flags text.now) (IsMarshalCause flags text.now)
        result out.old out.new }
{
    match read_bytes(alloc, text, flags) {
        Ok(bytes) => lay_bytes(&bytes, out),
        Err(cause) => cause.code(),
    }
}

/// Parses Markdown under these flags, and writes the JSON of the events of its links and images with their ranges into
/// `out`: a link's Start, what is in it, and its End.
#[unsafe(no_mangle)]
#[tactic(auto, using(crate::proofs::Answers::answered))]
pub extern "C" fn tocmark_links(alloc: Global, text: &[u8], flags: u32, out: &mut [u8]) -> isize
    ensures { IsAnswer (IsOutline Outlined.Links flags text.now) (IsReadCause text.now)
        result out.old out.new }
{
    answer(outline(alloc, text, flags, Outlined::Links), out)
}

/// Parses Markdown under these flags, and writes the JSON of the events of its headings with their ranges into `out`.
#[unsafe(no_mangle)]
#[tactic(auto, using(crate::proofs::Answers::answered))]
pub extern "C" fn tocmark_headings(alloc: Global, text: &[u8], flags: u32, out: &mut [u8]) -> isize
    ensures { IsAnswer (IsOutline Outlined.Headings flags text.now) (IsReadCause text.now)
        result out.old out.new }
{
    answer(outline(alloc, text, flags, Outlined::Headings), out)
}

/// Parses Markdown under these flags, and writes its words without markup into `out`: what texts, code and mathematics
/// say. Each line and each block begins on a line of its own. Front matter and HTML say nothing.
#[unsafe(no_mangle)]
#[tactic(auto, using(crate::proofs::Answers::answered))]
pub extern "C" fn tocmark_words(alloc: Global, text: &[u8], flags: u32, out: &mut [u8]) -> isize
    ensures { IsAnswer (IsOutline Outlined.Words flags text.now) (IsReadCause text.now)
        result out.old out.new }
{
    answer(outline(alloc, text, flags, Outlined::Words), out)
}

/// Parses Markdown under these flags, and writes a JSON array of its definitions of links into `out`: of each its label,
/// destination and title, their ranges, and whether a link or an image leads to it.
#[unsafe(no_mangle)]
#[tactic(auto, using(crate::proofs::Answers::answered))]
pub extern "C" fn tocmark_definitions(
    alloc: Global,
    text: &[u8],
    flags: u32,
    out: &mut [u8],
) -> isize
    ensures { IsAnswer (IsOutline Outlined.Definitions flags text.now) (IsReadCause text.now)
        result out.old out.new }
{
    answer(outline(alloc, text, flags, Outlined::Definitions), out)
}

/// Writes events that are given as JSON as Markdown into `out`. Ranges are bytes of the source; if that is empty, they
/// are dropped. Empty options are the default ones.
#[unsafe(no_mangle)]
#[tactic(auto, using(crate::proofs::Answers::text_answered, crate::proofs::Answers::cause_answered))]
pub extern "C" fn tocmark_write_json(
    alloc: Global,
    json: &[u8],
    source: &[u8],
    flags: u32,
    options: &[u8],
    out: &mut [u8],
) -> isize
    ensures { IsAnswer (IsMarkdownOf flags source.now options.now json.now)
        (IsWriteCause flags source.now options.now json.now) result out.old out.new }
{
    match write(alloc, json, source, flags, options, false) {
        Ok(text) => lay(text.as_str(), out),
        Err(refusal) => refusal.cause.code(),
    }
}

/// Writes events as Markdown, as `tocmark_write_json` does. If that fails, `place` is filled with where the error is.
#[unsafe(no_mangle)]
#[tactic(auto, using(crate::proofs::Answers::answered_at, crate::proofs::Answers::told_at))]
pub extern "C" fn tocmark_write_json_at(
    alloc: Global,
    json: &[u8],
    source: &[u8],
    flags: u32,
    options: &[u8],
    place: &mut TocmarkPlace,
    out: &mut [u8],
) -> isize
    ensures answer { IsAnswer (IsMarkdownOf flags source.now options.now json.now)
        (IsWriteCause flags source.now options.now json.now) result out.old out.new }
    ensures told { IsTold result place.old place.new }
{
    answer_at(
        write(alloc, json, source, flags, options, false),
        place,
        out,
    )
}

/// Writes events as Markdown, as `tocmark_write_json` does, and parses the whole result again. If it doesn't have just
/// these events, that is an error (`Changed`), and nothing is written.
#[unsafe(no_mangle)]
#[tactic(auto, using(crate::proofs::Answers::text_answered, crate::proofs::Answers::cause_answered))]
pub extern "C" fn tocmark_write_checked(
    alloc: Global,
    json: &[u8],
    source: &[u8],
    flags: u32,
    options: &[u8],
    out: &mut [u8],
) -> isize
    ensures { IsAnswer (IsSameMarkdownOf flags source.now options.now json.now)
        (IsDocumentCauseOf flags source.now options.now json.now) result out.old out.new }
{
    match write(alloc, json, source, flags, options, true) {
        Ok(text) => lay(text.as_str(), out),
        Err(refusal) => refusal.cause.code(),
    }
}

/// Writes events as Markdown that has just these events, as `tocmark_write_checked` does. If that fails, `place` is
/// filled with where the error is.
#[unsafe(no_mangle)]
#[tactic(auto, using(crate::proofs::Answers::answered_at, crate::proofs::Answers::told_at))]
pub extern "C" fn tocmark_write_checked_at(
    alloc: Global,
    json: &[u8],
    source: &[u8],
    flags: u32,
    options: &[u8],
    place: &mut TocmarkPlace,
    out: &mut [u8],
) -> isize
    ensures answer { IsAnswer (IsSameMarkdownOf flags source.now options.now json.now)
        (IsDocumentCauseOf flags source.now options.now json.now) result out.old out.new }
    ensures told { IsTold result place.old place.new }
{
    answer_at(write(alloc, json, source, flags, options, true), place, out)
}

/// Writes packed events as Markdown, as `tocmark_write_json_at` does with events as JSON.
#[unsafe(no_mangle)]
#[tactic(auto, using(crate::proofs::Answers::answered_at, crate::proofs::Answers::told_at))]
pub extern "C" fn tocmark_write_packed_at(
    alloc: Global,
    packed: &[u8],
    source: &[u8],
    flags: u32,
    options: &[u8],
    place: &mut TocmarkPlace,
    out: &mut [u8],
) -> isize
    ensures answer { IsAnswer (IsPackedMarkdown flags source.now options.now packed.now)
        (IsPackedWriteCause flags source.now options.now packed.now) result out.old out.new }
    ensures told { IsTold result place.old place.new }
{
    answer_at(
        write_packed_events(alloc, packed, source, flags, options),
        place,
        out,
    )
}

/// Writes the events of bytes that Python's `marshal.dumps` makes as Markdown, as `tocmark_write_json_at` does with those
/// of JSON.
#[unsafe(no_mangle)]
#[tactic(auto, using(crate::proofs::Answers::answered_at, crate::proofs::Answers::told_at))]
pub extern "C" fn tocmark_write_marshal_at(
    alloc: Global,
    bytes: &[u8],
    source: &[u8],
    flags: u32,
    options: &[u8],
    place: &mut TocmarkPlace,
    out: &mut [u8],
) -> isize
    ensures answer { IsAnswer (IsDumpMarkdown flags source.now options.now bytes.now)
        (IsDumpWriteCause flags source.now options.now bytes.now) result out.old out.new }
    ensures told { IsTold result place.old place.new }
{
    answer_at(
        write_marshal_events(alloc, bytes, source, flags, options),
        place,
        out,
    )
}

/// Rewrites a source to the events of a JSON text, and writes the new text into `out`. Lines whose events aren't
/// edited stay byte for byte. If that fails, `place` is filled with where the error is.
#[unsafe(no_mangle)]
#[tactic(auto, using(crate::proofs::Answers::answered_at, crate::proofs::Answers::told_at))]
pub extern "C" fn tocmark_rewrite(
    alloc: Global,
    json: &[u8],
    source: &[u8],
    flags: u32,
    options: &[u8],
    place: &mut TocmarkPlace,
    out: &mut [u8],
) -> isize
    ensures answer { IsAnswer (IsRewrittenOf flags source.now options.now json.now)
        (IsRewriteCauseOf flags source.now options.now json.now) result out.old out.new }
    ensures told { IsTold result place.old place.new }
{
    answer_at(rewrite(alloc, json, source, flags, options), place, out)
}

/// Gives definitions of links of a source what a JSON text says, and writes the new text into `out`. If that fails, `place` is
/// filled with where the error is: the number of a definition, or a line.
#[unsafe(no_mangle)]
#[tactic(auto, using(crate::proofs::Answers::answered_at, crate::proofs::Answers::told_at))]
pub extern "C" fn tocmark_redefine(
    alloc: Global,
    json: &[u8],
    source: &[u8],
    flags: u32,
    place: &mut TocmarkPlace,
    out: &mut [u8],
) -> isize
    ensures answer { IsAnswer (IsRedefinedOf flags source.now json.now)
        (IsRedefineCauseOf source.now json.now) result out.old out.new }
    ensures told { IsTold result place.old place.new }
{
    answer_at(redefined(alloc, json, source, flags), place, out)
}

/// Formats Markdown in a style, and writes the result into `out`. The result parses to the same events as the text that is
/// given, and has the same letters. A byte order mark at the front stays there and is no text.
#[unsafe(no_mangle)]
#[tactic(auto, using(crate::proofs::Answers::answered))]
pub extern "C" fn tocmark_format(
    alloc: Global,
    text: &[u8],
    flags: u32,
    style: &TocmarkStyle,
    out: &mut [u8],
) -> isize
    ensures { IsAnswer (IsSameDocument flags style.now text.now)
        (IsFormatCause text.now style.now) result out.old out.new }
{
    answer(format(alloc, text, flags, &[], style), out)
}

/// Formats Markdown as `tocmark_format` does, and keeps the same blocks under each of the other flags, too.
#[unsafe(no_mangle)]
#[tactic(auto, using(crate::proofs::Answers::answered))]
pub extern "C" fn tocmark_format_also(
    alloc: Global,
    text: &[u8],
    flags: u32,
    also: &[u32],
    style: &TocmarkStyle,
    out: &mut [u8],
) -> isize
    ensures { IsAnswer (IsSameToAll flags also.now style.now text.now)
        (IsFormatCause text.now style.now) result out.old out.new }
{
    answer(format(alloc, text, flags, also, style), out)
}

/// Compares two texts by what they say under these flags, and writes a JSON array of what differs into `out`. It is empty
/// exactly if both say the same but for what `allowed` has a bit for, in the order of `tocmark_differences::KINDS`. The bit
/// after these, 8192, makes links of bare web and mail addresses, as `BareLinks` does. The errors are those of texts that are
/// not UTF-8, and of memory.
#[unsafe(no_mangle)]
#[tactic(auto, using(crate::proofs::Answers::text_answered, crate::proofs::Answers::cause_answered))]
pub extern "C" fn tocmark_compare(
    alloc: Global,
    old: &[u8],
    new: &[u8],
    flags: u32,
    allowed: u32,
    out: &mut [u8],
) -> isize
    ensures { IsAnswer (IsComparison flags allowed old.now new.now)
        (IsCompareCause old.now new.now) result out.old out.new }
{
    match compare(alloc, old, new, flags, allowed) {
        Ok(differences) => lay_bytes(&differences, out),
        Err(cause) => cause.code(),
    }
}

/// Makes flags of bits, one after the other.
fn all_flags(alloc: Global, all: &[u32]) -> Result<Vec<ParserOptions>, AllocError>
    ensures { IfOk result (λ list. list.items ≡ map flags_of all.now) }
{
    let mut list = Vec::with_capacity(alloc, all.len())?;
    for bits in all {
        list.push(ParserOptions(*bits))?;
    }
    Ok(list)
}

fn format(
    alloc: Global,
    text: &[u8],
    flags: u32,
    also: &[u32],
    style: &TocmarkStyle,
) -> Result<String, Cause>
    ensures text { IfOk result (λ output.
        IsSameDocument flags style.now text.now (string_bytes output)) }
    ensures also { IfOk result (λ output.
        IsSameToAll flags also.now style.now text.now (string_bytes output)) }
    ensures cause { IfErr result (IsFormatCause text.now style.now) }
{
    let text = match std::str::from_utf8(text) {
        Ok(text) => text,
        Err(_) => return Err(Cause::NotUtf8),
    };
    let style = match style_of(style) {
        Some(style) => style,
        None => return Err(Cause::InvalidStyle),
    };
    let also = match all_flags(alloc, also) {
        Ok(also) => also,
        Err(_) => return Err(Cause::OutOfMemory),
    };
    let reader = ExtendedReader { names: Names::All };
    match formatted(alloc, text, &reader, ParserOptions(flags), style, &also) {
        Ok(answer) => Ok(answer.text),
        Err(_) => Err(Cause::OutOfMemory),
    }
}

fn read(alloc: Global, text: &[u8], flags: u32) -> Result<String, Cause>
    ensures text { IfOk result (λ output. IsReadFrom flags text.now (string_bytes output)) }
    ensures cause { IfErr result (IsReadCause text.now) }
{
    let text = match std::str::from_utf8(text) {
        Ok(text) => text,
        Err(_) => return Err(Cause::NotUtf8),
    };
    match read_json(alloc, text, ParserOptions(flags)) {
        Ok(output) => Ok(output),
        Err(_) => Err(Cause::OutOfMemory),
    }
}
