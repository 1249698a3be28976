//! What two texts say differently, as JSON.

ghost use Rattle.std.specs.Prelude.{◌≡◌, ◌↔◌, ◌++◌, [], IfErr, IfOk, OnOk, codes};
ghost use Rattle.tocmark_c.specs.Comparing.{AreTheSame, IsCompareCause, IsComparison, OpensObject, allowed_of, has_bit, lines_tokens, object_tokens, text_tokens};

use crate::cause::Cause;
use json::Writer;
use std::alloc::{AllocError, Global};
use tocmark_bare_links::BareLinks;
use tocmark_differences::{Allowed, Difference, compared};
use tocmark_event::event::ParserOptions;
use tocmark_reader::{ExtendedReader, Names};

/// The bit for reading bare web and mail addresses as links.
const BARE_LINKS: u32 = 8192;

/// Whether a number has a bit.
fn has_bit(bits: u32, bit: u32) -> bool
    ensures { result ≡ has_bit bits bit }
{
    bits & bit == bit
}

/// What may differ, by bits in the order of `KINDS`.
fn allowed_of(bits: u32) -> Allowed
    ensures { result ≡ allowed_of bits }
{
    Allowed {
        wrap: has_bit(bits, 1),
        text: has_bit(bits, 2),
        destinations: has_bit(bits, 4),
        titles: has_bit(bits, 8),
        labels: has_bit(bits, 16),
        fences: has_bit(bits, 32),
        levels: has_bit(bits, 64),
        numbers: has_bit(bits, 128),
        code: has_bit(bits, 256),
        info: has_bit(bits, 512),
        html: has_bit(bits, 1024),
        front_matter: has_bit(bits, 2048),
        definitions: has_bit(bits, 4096),
    }
}

/// What two texts say differently. Whether bare addresses are links is a bit beside those of what may differ.
fn differences(
    alloc: Global,
    flags: u32,
    allowed: u32,
    old: &str,
    new: &str,
) -> Result<Vec<Difference>, AllocError>
    ensures { IfOk result (λ all. (all.items ≡ []) ↔ AreTheSame flags allowed old.now new.now) }
{
    let reader = ExtendedReader { names: Names::All };
    let flags = ParserOptions(flags);
    let kinds = allowed_of(allowed);
    if has_bit(allowed, BARE_LINKS) {
        compared(alloc, &BareLinks { reader }, flags, kinds, old, new)
    } else {
        compared(alloc, &reader, flags, kinds, old, new)
    }
}

/// Adds a member that is a text.
fn write_text(writer: &mut Writer, name: &str, text: &str) -> Result<(), AllocError>
    ensures tokens { OnOk result
        (writer.new.tokens ≡ writer.old.tokens ++ text_tokens name.now text.now) }
    ensures before { writer.new.before ≡ writer.old.before }
{
    writer.key(name)?;
    writer.string(text)
}

/// Adds a member that is the first and the last line of something.
fn write_lines(writer: &mut Writer, name: &str, lines: (usize, usize)) -> Result<(), AllocError>
    ensures tokens { OnOk result
        (writer.new.tokens ≡ writer.old.tokens ++ lines_tokens name.now lines) }
    ensures before { writer.new.before ≡ writer.old.before }
{
    let (first, last) = lines;
    writer.key(name)?;
    writer.begin_array()?;
    writer.u64(first as u64)?;
    writer.u64(last as u64)?;
    writer.end_array()
}

/// Adds a difference, with the name of its kind and its message.
fn write_object(
    writer: &mut Writer,
    it: &Difference,
    kind: &str,
    message: &str,
) -> Result<(), AllocError>
    ensures tokens { OnOk result
        (writer.new.tokens ≡ writer.old.tokens ++ object_tokens it.now kind.now message.now) }
    ensures before { writer.new.before ≡ writer.old.before }
{
    writer.begin_object()?;
    write_text(writer, "kind", kind)?;
    write_text(writer, "what", it.what)?;
    write_lines(writer, "old", it.old)?;
    write_lines(writer, "new", it.new)?;
    write_text(writer, "was", it.was.as_str())?;
    write_text(writer, "is", it.is.as_str())?;
    write_text(writer, "message", message)?;
    writer.end_object()
}

/// Adds a difference.
fn write_difference(alloc: Global, writer: &mut Writer, it: &Difference) -> Result<(), AllocError>
    ensures object { OnOk result (OpensObject writer.old.tokens writer.new.tokens) }
    ensures before { writer.new.before ≡ writer.old.before }
{
    match format!(in alloc; "{it}") {
        Ok(message) => write_object(writer, it, it.kind.name(), message.as_str()),
        Err(_) => Err(AllocError),
    }
}

/// The JSON array of these differences.
fn listing(alloc: Global, all: &[Difference]) -> Result<Vec<u8>, AllocError>
    ensures { IfOk result (λ output. (output.items ≡ codes "[]") ↔ (all.now ≡ [])) }
{
    let mut writer = Writer::new(Vec::new(alloc));
    writer.begin_array()?;
    for difference in all {
        write_difference(alloc, &mut writer, difference)?;
    }
    writer.end_array()?;
    Ok(writer.into_inner())
}

/// The JSON array of what two texts say differently, but for what is allowed to differ. It fails if one of them isn't UTF-8, or
/// if memory runs out.
pub fn compare(
    alloc: Global,
    old: &[u8],
    new: &[u8],
    flags: u32,
    allowed: u32,
) -> Result<Vec<u8>, Cause>
    ensures bytes { IfOk result (λ output.
        IsComparison flags allowed old.now new.now output.items) }
    ensures cause { IfErr result (IsCompareCause old.now new.now) }
{
    let (Ok(old), Ok(new)) = (std::str::from_utf8(old), std::str::from_utf8(new)) else {
        return Err(Cause::NotUtf8);
    };
    let Ok(all) = differences(alloc, flags, allowed, old, new) else {
        return Err(Cause::OutOfMemory);
    };
    match listing(alloc, &all) {
        Ok(output) => Ok(output),
        Err(_) => Err(Cause::OutOfMemory),
    }
}
