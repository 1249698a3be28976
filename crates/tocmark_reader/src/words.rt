//! Texts of events that are not spelled in the source as they are.

ghost use Rattle.std.specs.Prelude.{◌≡◌, ◌==◌, ◌++◌, false, true, string_bytes, IfOk, OnOk};
ghost use Rattle.std.specs.List.{flat_map, list_any};
ghost use Rattle.std.specs.Str.Lossy.{utf8_lossy};
ghost use Rattle.tocmark_read_scan.specs.Basic.{bytes_between};
ghost use Rattle.tocmark_read_tokens.specs.Reference.{unescaped_in};
ghost use Rattle.tocmark_event.specs.Text.{text_of};
ghost use Rattle.tocmark_read_page.specs.Definitions.{replaced};
ghost use Rattle.tocmark_read_spans.specs.Definitions.{stretch_text};
ghost use Rattle.tocmark_reader.specs.Words.{feed_if, cleaned, info_text_in, spaces_text, name_text};

use crate::searched::SearchedText;
use std::alloc::{AllocError, Global};
use tocmark_event::event::CowStr;
use tocmark_read_scan::basic::bytes_between;
use tocmark_read_scan::class::has_byte;
use tocmark_read_scan::syntax::Names;
use tocmark_read_spans::role::Stretch;
use tocmark_read_tokens::label::collapsed;
use tocmark_read_tokens::reference::unescaped;

#[tactic(auto, unfolding(tocmark_read_page::specs::Definitions::replaced))]
fn push_byte(out: &mut Vec<u8>, byte: u8) -> Result<(), AllocError>
    ensures { OnOk result (out.new.items ≡ out.old.items ++ replaced byte) }
{
    if byte == 0 {
        out.push(0xef)?;
        out.push(0xbf)?;
        out.push(0xbd)?;
    } else {
        out.push(byte)?;
    }
    Ok(())
}

fn push_replaced(out: &mut Vec<u8>, bytes: &[u8]) -> Result<(), AllocError>
    ensures { OnOk result (out.new.items ≡ out.old.items ++ flat_map replaced bytes.now) }
{
    for byte in bytes {
        push_byte(out, *byte)?;
    }
    Ok(())
}

/// The bytes with U+FFFD for U+0000; with room for one more.
#[tactic(auto, using(crate::proofs::Zeros::without_zeros))]
pub fn replaced_bytes(alloc: Global, bytes: &[u8]) -> Result<Vec<u8>, AllocError>
    ensures { IfOk result (λ v. v.items ≡ flat_map replaced bytes.now) }
{
    let mut out = Vec::with_capacity(alloc, bytes.len().saturating_add(1))?;
    if has_byte(bytes, 0) {
        push_replaced(&mut out, bytes)?;
    } else {
        out.extend_from_slice(bytes)?;
    }
    Ok(out)
}

fn push_feed(out: &mut Vec<u8>, feed: bool) -> Result<(), AllocError>
    ensures { OnOk result (out.new.items ≡ out.old.items ++ feed_if feed) }
{
    if feed {
        out.push(b'\n')?;
    }
    Ok(())
}

#[tactic(auto, unfolding(crate::specs::Words::cleaned))]
fn cleaned(alloc: Global, bytes: &[u8], feed: bool) -> Result<String, AllocError>
    ensures { IfOk result (λ t. string_bytes t ≡ cleaned bytes.now feed) }
{
    let mut out = replaced_bytes(alloc, bytes)?;
    push_feed(&mut out, feed)?;
    String::from_utf8_lossy(alloc, &out)
}

fn with_feed(alloc: Global, text: &str) -> Result<String, AllocError>
    ensures { IfOk result (λ t. string_bytes t ≡ text.now ++ feed_if true) }
{
    let mut line = String::with_capacity(alloc, text.len().saturating_add(1))?;
    line.push_str(text)?;
    line.push('\n')?;
    Ok(line)
}

#[tactic(auto, using(crate::proofs::Zeros::text_kept, crate::proofs::Zeros::line_kept))]
fn cleaned_text(alloc: Global, text: &str, feed: bool) -> Result<String, AllocError>
    ensures { IfOk result (λ t. string_bytes t ≡ cleaned text.now feed) }
{
    if has_byte(text.as_bytes(), 0) {
        cleaned(alloc, text.as_bytes(), feed)
    } else if feed {
        with_feed(alloc, text)
    } else {
        String::from_str(alloc, text)
    }
}

/// A text in which no U+0000 is, and a line feed after it if it is a line that ends.
#[tactic(auto, using(crate::proofs::Zeros::text_kept, crate::proofs::Zeros::line_kept))]
fn clean_text(alloc: Global, text: &str, feed: bool) -> Result<String, AllocError>
    ensures { list_any (λ b. b == 0) text.now ≡ false
        → IfOk result (λ t. string_bytes t ≡ cleaned text.now feed) }
{
    if feed {
        with_feed(alloc, text)
    } else {
        String::from_str(alloc, text)
    }
}

/// A part of a text with U+FFFD for U+0000, and a line feed after it if it is a line that ends.
#[tactic(auto, using(crate::proofs::Zeros::none_between))]
#[inline(always)]
pub fn part_of(
    alloc: Global,
    text: &SearchedText<'_>,
    start: usize,
    end: usize,
    feed: bool,
) -> Result<String, AllocError>
    ensures { IfOk result (λ t. string_bytes t ≡ cleaned (bytes_between text.now start end) feed) }
{
    match text.as_str().get(start..end) {
        Some(part) => {
            if text.is_clean() {
                clean_text(alloc, part, feed)
            } else {
                cleaned_text(alloc, part, feed)
            }
        }
        None => cleaned(
            alloc,
            bytes_between(text.as_str().as_bytes(), start, end),
            feed,
        ),
    }
}

/// A text without escapes and references, by the names that are known. One that has neither is copied.
#[tactic(auto, using(tocmark_read_tokens::proofs::Unmarked::left_alone))]
fn resolved_text(alloc: Global, names: Names, bytes: &[u8]) -> Result<String, AllocError>
    ensures { IfOk result (λ t. string_bytes t ≡ utf8_lossy (unescaped_in names bytes.now)) }
{
    if has_byte(bytes, b'\\') || has_byte(bytes, b'&') {
        let bytes = unescaped(alloc, names, bytes)?;
        String::from_utf8_lossy(alloc, &bytes)
    } else {
        String::from_utf8_lossy(alloc, bytes)
    }
}

/// An info string: without escapes and references, by the names that are known. For an empty one no
/// memory is taken.
#[tactic(auto, unfolding(crate::specs::Words::info_text_in), using(crate::proofs::Zeros::without_zeros))]
pub fn info_text(alloc: Global, names: Names, bytes: &[u8]) -> Result<String, AllocError>
    ensures { IfOk result (λ t. string_bytes t ≡ info_text_in names bytes.now) }
{
    if bytes.is_empty() {
        return Ok(String::new(alloc));
    }
    if has_byte(bytes, 0) {
        let bytes = replaced_bytes(alloc, bytes)?;
        return resolved_text(alloc, names, &bytes);
    }
    resolved_text(alloc, names, bytes)
}

/// The name of a footnote: with one space for each stretch of white space, and none at its ends.
#[tactic(auto, unfolding(crate::specs::Words::name_text))]
pub fn name_text(alloc: Global, bytes: &[u8]) -> Result<String, AllocError>
    ensures { IfOk result (λ t. string_bytes t ≡ name_text bytes.now) }
{
    let bytes = replaced_bytes(alloc, bytes)?;
    let bytes = collapsed(alloc, &bytes)?;
    String::from_utf8_lossy(alloc, &bytes)
}

/// So many spaces.
#[tactic(auto, unfolding(crate::specs::Words::spaces_text))]
pub fn spaces_text(alloc: Global, count: usize) -> Result<String, AllocError>
    ensures { IfOk result (λ t. string_bytes t ≡ spaces_text count) }
{
    let bytes = vec![in alloc; b' '; count]?;
    String::from_utf8_lossy(alloc, &bytes)
}

/// A stretch of texts. For an empty one, as most titles and labels are, no memory is taken.
#[tactic(auto, using(std::proofs::lemmas::Str::utf8_lossy_empty))]
pub fn stretch_text(
    alloc: Global,
    texts: &[u8],
    stretch: Stretch,
) -> Result<CowStr<'static>, AllocError>
    ensures { IfOk result (λ t. text_of t ≡ stretch_text texts.now stretch) }
{
    let bytes = bytes_between(texts, stretch.start, stretch.end);
    if bytes.is_empty() {
        return Ok(CowStr::Borrowed(""));
    }
    Ok(CowStr::Owned(String::from_utf8_lossy(alloc, bytes)?))
}
