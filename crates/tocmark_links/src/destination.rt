//! The parts of a destination: path, query and anchor.

ghost use Rattle.std.specs.Prelude.{◌≡◌, ◌<◌, All, IfOk, string_bytes};
ghost use Rattle.percent_encoding.specs.Percent.{percent_decode};
ghost use Rattle.tocmark_links.specs.Destinations.{IsPlain, anchor_of, decoded, ends_scheme, has_host, has_scheme, is_local, is_scheme_byte, path_of, until};

use percent_encoding::{
    AsciiSet, NON_ALPHANUMERIC, ascii_set, percent_decode, utf8_percent_encode,
};
use std::alloc::{AllocError, Global};

/// A destination in parts, each as it is written.
#[derive(Clone, Copy)]
pub struct Destination<'d> {
    /// Up to the first `?` or `#`; empty for the page itself.
    pub path: &'d str,
    /// From `?` on, up to `#`; empty if there is none.
    pub query: &'d str,
    /// From `#` on; empty if there is none.
    pub anchor: &'d str,
}

/// What is in front of the first such character of a text; all of it if there is none.
fn until(text: &str, mark: char) -> &str
    ensures { mark < 128 → result.now ≡ until mark text.now }
{
    match text.split_once(mark) {
        None => text,
        Some(parts) => parts.0,
    }
}

/// What is in front of the first such character of a text, and the rest from it on.
fn cut(text: &str, mark: char) -> (&str, &str)
    ensures { mark < 128 → result.0.now ≡ until mark text.now }
{
    let front = until(text, mark);
    (front, text.get(front.len()..).unwrap_or(""))
}

/// The parts of a destination.
pub fn parts(destination: &str) -> Destination<'_>
    ensures { result.path.now ≡ path_of destination.now }
{
    let (front, anchor) = cut(destination, '#');
    let (path, query) = cut(front, '?');
    Destination {
        path,
        query,
        anchor,
    }
}

/// Whether a byte can be in the name of a scheme.
fn is_scheme_byte(byte: u8) -> bool
    ensures { result ≡ is_scheme_byte byte }
{
    byte.is_ascii_alphanumeric() || byte == b'+' || byte == b'-' || byte == b'.'
}

/// Whether the rest of a scheme's name is here, and a colon after it.
fn ends_scheme(bytes: &[u8]) -> bool
    ensures { result ≡ ends_scheme bytes.now }
{
    for byte in bytes {
        if !is_scheme_byte(*byte) {
            return *byte == b':';
        }
    }
    false
}

/// Whether a destination begins with the name of a scheme and a colon, as `https:` does.
fn has_scheme(destination: &str) -> bool
    ensures { result ≡ has_scheme destination.now }
{
    match destination.as_bytes().split_first() {
        None => false,
        Some((first, rest)) => first.is_ascii_alphabetic() && ends_scheme(rest),
    }
}

/// Whether a destination begins with two slashes, which are in front of a host.
fn has_host(destination: &str) -> bool
    ensures { result ≡ has_host destination.now }
{
    match destination.as_bytes().split_first() {
        None => false,
        Some((first, rest)) => *first == b'/' && rest.first().copied() == Some(b'/'),
    }
}

/// Whether a destination leads to a file: it isn't empty, and names no scheme and no host.
pub fn is_local(destination: &str) -> bool
    ensures { result ≡ is_local destination.now }
{
    if destination.is_empty() {
        return false;
    }
    !has_host(destination) && !has_scheme(destination)
}

/// A text whose percent signs are decoded, with U+FFFD for each sequence of bytes that is no UTF-8.
pub fn decoded(alloc: Global, text: &str) -> Result<String, AllocError>
    ensures { IfOk result (λ plain. string_bytes plain ≡ decoded text.now) }
{
    let mut bytes = Vec::new(alloc);
    percent_decode(text.as_bytes()).append_to(&mut bytes)?;
    String::from_utf8_lossy(alloc, &bytes)
}

/// The bytes that a path is written with a percent sign for.
const ESCAPED_IN_PATHS: AsciiSet = ascii_set!(
    NON_ALPHANUMERIC
        .remove(b'/')
        .remove(b'~')
        .remove(b'!')
        .remove(b'$')
        .remove(b'&')
        .remove(b'\'')
        .remove(b'*')
        .remove(b'+')
        .remove(b',')
        .remove(b';')
        .remove(b'=')
        .remove(b':')
        .remove(b'@')
        .remove(b'-')
        .remove(b'.')
        .remove(b'_')
);

/// A path with percent signs for all bytes but letters, numbers and `/~!$&'*+,;=:@-._`. Decoding it gives the path.
pub fn encoded(alloc: Global, path: &str) -> Result<String, AllocError>
    ensures path { IfOk result (λ text. percent_decode (string_bytes text) ≡ path.now) }
    ensures plain { IfOk result (λ text. All IsPlain (string_bytes text)) }
{
    let mut text = String::new(alloc);
    utf8_percent_encode(path, ESCAPED_IN_PATHS).append_to(&mut text)?;
    Ok(text)
}

/// A name that is read as an anchor: the anchor itself, or the anchor with percent signs if these are wanted or needed.
fn anchor_name(alloc: Global, anchor: &str, is_escaped: bool) -> Result<String, AllocError>
    ensures { IfOk result (λ name. percent_decode (string_bytes name) ≡ anchor.now) }
{
    let mut plain = Vec::new(alloc);
    percent_decode(anchor.as_bytes()).append_to(&mut plain)?;
    if is_escaped || plain.as_slice() != anchor.as_bytes() {
        return encoded(alloc, anchor);
    }
    String::from_str(alloc, anchor)
}

/// The destination that leads to another anchor of the same file, with the same query. The new anchor has percent signs if the old
/// one does.
pub fn with_anchor(alloc: Global, destination: &str, anchor: &str) -> Result<String, AllocError>
    ensures front { IfOk result (λ new. until 35 (string_bytes new) ≡ until 35 destination.now) }
    ensures anchor { IfOk result (λ new.
        percent_decode (anchor_of (string_bytes new)) ≡ anchor.now) }
{
    let is_escaped = parts(destination).anchor.contains('%');
    let name = anchor_name(alloc, anchor, is_escaped)?;
    let mut new = String::from_str(alloc, until(destination, '#'))?;
    new.push('#')?;
    new.push_str(name.as_str())?;
    Ok(new)
}
