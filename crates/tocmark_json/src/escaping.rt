//! JSON's escapes of a text.

ghost use Rattle.std.specs.Prelude.{◌≡◌, ◌+◌, ◌<◌, ◌≤◌, ◌++◌, OnOk, drop, length};
ghost use Rattle.std.specs.List.{prefix_len};
ghost use Rattle.std.specs.Bool.{OnTrue};
ghost use Rattle.std.specs.Char.{digit_char};
ghost use Rattle.json.specs.Print.{escape, escape_byte, escape_letter};
ghost use Rattle.json.specs.Run.{is_plain};
ghost use Rattle.json.specs.Written.{PlainBetween};
ghost use Rattle.tocmark_json.specs.Printed.{Grows};

use crate::printing::push;
use std::alloc::AllocError;
use std::simd::prelude::*;

/// Whether sixteen bytes stand for themselves in a string.
fn are_plain(text: &[u8], at: usize) -> bool
    requires { at + 16 ≤ length text.now }
    ensures { OnTrue result (PlainBetween text.now at (at + 16)) }
{
    let bytes = u8x16::from_slice(&text[at..]);
    (bytes.simd_eq(u8x16::splat(b'"'))
        | bytes.simd_eq(u8x16::splat(b'\\'))
        | bytes.simd_lt(u8x16::splat(b' '))).to_bitmask()
        == 0
}

/// The end of the bytes from a place on that stand for themselves, one by one.
fn few_plain_end(text: &[u8], from: usize) -> usize
    requires { from ≤ length text.now }
    ensures value { result ≡ from + prefix_len is_plain (drop from text.now) }
    ensures bound { result ≤ length text.now }
{
    let mut at = from;
    while at < text.len() && text[at] != b'"' && text[at] != b'\\' && text[at] >= b' ' {
        at += 1;
    }
    at
}

/// The end of the bytes from a place on that stand for themselves.
fn plain_end(text: &[u8], from: usize) -> usize
    requires { from ≤ length text.now }
    ensures value { result ≡ from + prefix_len is_plain (drop from text.now) }
    ensures bound { result ≤ length text.now }
{
    let mut at = from;
    while text.len() - at >= 16 {
        if !are_plain(text, at) {
            return few_plain_end(text, at);
        }
        at += 16;
    }
    few_plain_end(text, at)
}

/// The letter of the short escape of a byte, or 0 if it has none.
fn letter_of(byte: u8) -> u8
    ensures { result ≡ escape_letter byte }
{
    match byte {
        b'"' | b'\\' => byte,
        8 => b'b',
        12 => b'f',
        b'\n' => b'n',
        b'\r' => b'r',
        b'\t' => b't',
        _ => 0,
    }
}

/// A digit to the base 16.
fn digit_of(number: u8) -> u8
    requires { number < 16 }
    ensures { result ≡ digit_char number }
{
    if number < 10 {
        b'0' + number
    } else {
        b'a' - 10 + number
    }
}

/// Adds what stands for a byte in a string.
fn push_escape(out: &mut Vec<u8>, byte: u8) -> Result<(), AllocError>
    ensures { OnOk result (Grows (escape_byte byte) out.old.items out.new.items) }
{
    let letter = letter_of(byte);
    if letter > 0 {
        return push(out, &[b'\\', letter]);
    }
    if byte >= b' ' {
        return push(out, &[byte]);
    }
    let first = digit_of(byte / 16);
    let second = digit_of(byte % 16);
    push(out, &[b'\\', b'u', b'0', b'0', first, second])
}

/// Adds a text with its escapes.
#[inline(never)]
fn push_escaped(out: &mut Vec<u8>, text: &[u8]) -> Result<(), AllocError>
    ensures { OnOk result (Grows (escape text.now) out.old.items out.new.items) }
{
    let mut at = 0;
    loop {
        let stop = plain_end(text, at);
        push(out, &text[at..stop])?;
        if stop == text.len() {
            return Ok(());
        }
        push_escape(out, text[stop])?;
        at = stop + 1;
    }
}

/// Adds a text with its escapes between two pieces.
#[inline(always)]
pub(crate) fn push_string(
    out: &mut Vec<u8>,
    before: &[u8],
    text: &str,
    after: &[u8],
) -> Result<(), AllocError>
    ensures { OnOk result (Grows (before.now ++ (escape text.now ++ after.now))
        out.old.items out.new.items) }
{
    push(out, before)?;
    push_escaped(out, text.as_bytes())?;
    push(out, after)
}
