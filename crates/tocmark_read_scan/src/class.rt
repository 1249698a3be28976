//! Sets of bytes, and the runs of their members.

ghost use Rattle.std.specs.Prelude.{◌≡◌, ◌==◌};
ghost use Rattle.std.specs.List.{list_any};
ghost use Rattle.tocmark_read_scan.specs.Class.{is_in, is_unquoted, is_bracket, is_separator, is_mailbox, run_length, run_end};
ghost use Rattle.tocmark_read_scan.specs.declared.class.Class.TheVariants.{Except};

use crate::basic::rest;
use memchr::memchr;

/// A set of bytes.
#[derive(Clone, Copy)]
pub enum Class {
    /// A space, a tab or a line feed.
    White,
    /// A space or a tab.
    Blank,
    /// A decimal digit.
    Digit,
    /// A hexadecimal digit.
    HexDigit,
    /// A byte of the name of a tag, after the first.
    TagName,
    /// The first byte of the name of an attribute.
    AttributeStart,
    /// A byte of the name of an attribute, after the first.
    AttributeName,
    /// A byte of a value of an attribute that has no quotes.
    Unquoted,
    /// A byte of the scheme of an address, after the first.
    Scheme,
    /// A byte of an address after its scheme.
    Address,
    /// A byte of a mail address before the `@`.
    Mailbox,
    /// A byte of a mail address after the `@`.
    Domain,
    /// This byte alone.
    Only(u8),
    /// Any byte but this one.
    Except(u8),
}

#[tactic(auto, unfolding(crate::specs::Class::is_unquoted))]
fn is_unquoted(byte: u8) -> bool
    ensures { result ≡ is_unquoted byte }
{
    !(byte == b' '
        || byte == b'\t'
        || byte == b'\n'
        || byte == b'\r'
        || byte == b'"'
        || byte == b'\''
        || byte == b'='
        || byte == b'<'
        || byte == b'>'
        || byte == b'`')
}

#[tactic(auto, unfolding(crate::specs::Class::is_bracket))]
fn is_bracket(byte: u8) -> bool
    ensures { result ≡ is_bracket byte }
{
    byte == b'(' || byte == b')' || byte == b'<' || byte == b'>' || byte == b'[' || byte == b']'
}

#[tactic(auto, unfolding(crate::specs::Class::is_separator))]
fn is_separator(byte: u8) -> bool
    ensures { result ≡ is_separator byte }
{
    byte == b'"' || byte == b',' || byte == b':' || byte == b';' || byte == b'@' || byte == b'\\'
}

#[tactic(auto, unfolding(crate::specs::Class::is_mailbox))]
fn is_mailbox(byte: u8) -> bool
    ensures { result ≡ is_mailbox byte }
{
    let sign = byte.is_ascii_punctuation() && !is_bracket(byte) && !is_separator(byte);
    sign || byte.is_ascii_alphanumeric()
}

/// Whether a byte is in the set.
#[tactic(auto, unfolding(crate::specs::Class::is_in))]
pub fn is_in(class: Class, byte: u8) -> bool
    ensures { result ≡ is_in class byte }
{
    match class {
        Class::White => byte == b' ' || byte == b'\t' || byte == b'\n',
        Class::Blank => byte == b' ' || byte == b'\t',
        Class::Digit => byte.is_ascii_digit(),
        Class::HexDigit => byte.is_ascii_hexdigit(),
        Class::TagName => byte.is_ascii_alphanumeric() || byte == b'-',
        Class::AttributeStart => byte.is_ascii_alphabetic() || byte == b'_' || byte == b':',
        Class::AttributeName => {
            byte.is_ascii_alphanumeric()
                || byte == b'_'
                || byte == b'.'
                || byte == b':'
                || byte == b'-'
        }
        Class::Unquoted => is_unquoted(byte),
        Class::Scheme => {
            byte.is_ascii_alphanumeric() || byte == b'+' || byte == b'.' || byte == b'-'
        }
        Class::Address => byte > b' ' && byte != 0x7f && byte != b'<' && byte != b'>',
        Class::Mailbox => is_mailbox(byte),
        Class::Domain => byte.is_ascii_alphanumeric() || byte == b'.' || byte == b'-',
        Class::Only(one) => byte == one,
        Class::Except(one) => byte != one,
    }
}

/// How many bytes at the front aren't this one.
#[tactic(auto, using(crate::proofs::FirstBytes::bytes_before))]
fn length_before(bytes: &[u8], one: u8) -> usize
    ensures { result ≡ run_length (Except one) bytes.now }
{
    memchr(one, bytes).unwrap_or(bytes.len())
}

fn run_length(bytes: &[u8], class: Class) -> usize
    ensures { result ≡ run_length class bytes.now }
{
    match class {
        Class::Except(one) => length_before(bytes, one),
        _ => bytes.iter().take_while(|byte| is_in(class, **byte)).count(),
    }
}

/// The place after the members of a set that are at a place, one after the other.
#[tactic(auto, unfolding(crate::specs::Class::run_end))]
pub fn run_end(bytes: &[u8], place: usize, class: Class) -> usize
    ensures { result ≡ run_end bytes.now place class }
{
    place.saturating_add(run_length(rest(bytes, place), class))
}

/// Whether a byte is in a text.
#[tactic(auto, using(crate::proofs::FirstBytes::is_there))]
pub fn has_byte(bytes: &[u8], byte: u8) -> bool
    ensures { result ≡ list_any (λ b. b == byte) bytes.now }
{
    memchr(byte, bytes).is_some()
}
