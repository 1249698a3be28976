//! The address at the front of a word.

ghost use Rattle.std.specs.Prelude.{◌≡◌};
ghost use Rattle.tocmark_bare_links.specs.Addresses.{has_scheme, is_local, is_mail_host, is_sign, local_length, mail_address, mail_length, of_kind, web_address, web_length};

use crate::host::{is_host, may_follow};
use crate::trail::kept_length;
use tocmark_read_scan::basic::{byte_at, bytes_between, starts_at};
use tocmark_read_scan::class::{Class, run_end};

/// What an address begins with.
#[derive(Clone, Copy)]
pub enum Kind {
    /// `http://`, `https://` or `ftp://`
    Web,
    /// `www.`
    Named,
    /// The name of a mail address.
    Mail,
}

/// An address at the front of a word.
#[derive(Clone, Copy)]
pub struct Address {
    pub kind: Kind,
    /// How many bytes it has.
    pub length: usize,
}

/// The length of the address that a word begins with, whose host is at a place, and may be one label.
#[tactic(auto, unfolding(crate::specs::Addresses::web_length))]
fn web_length(is_short: bool, word: &[u8], place: usize) -> Option<usize>
    ensures { result ≡ web_length is_short word.now place }
{
    let end = kept_length(word);
    let last = run_end(word, place, Class::Domain);
    let follows = may_follow(byte_at(word, last));
    if follows && is_host(is_short, bytes_between(word, place, last.min(end))) {
        Some(end)
    } else {
        None
    }
}

/// Whether a byte is one of a mail address before its `@`.
#[tactic(auto, unfolding(crate::specs::Addresses::is_local))]
fn is_local(byte: u8) -> bool
    ensures { result ≡ is_local byte }
{
    byte.is_ascii_alphanumeric() || byte == b'.' || byte == b'-' || byte == b'_' || byte == b'+'
}

/// How many of them a word begins with.
#[tactic(auto, unfolding(crate::specs::Addresses::local_length))]
fn local_length(word: &[u8]) -> usize
    ensures { result ≡ local_length word.now }
{
    word.iter().take_while(|byte| is_local(**byte)).count()
}

/// Whether a host of a mail address is from a place to an end, and no more of the address follows.
#[tactic(auto, unfolding(crate::specs::Addresses::is_mail_host))]
fn is_mail_host(word: &[u8], place: usize, end: usize) -> bool
    ensures { result ≡ is_mail_host word.now place end }
{
    let last = run_end(word, place, Class::Domain);
    let ends = may_follow(byte_at(word, last)) && end <= last;
    let is_host = ends && is_host(false, bytes_between(word, place, end));
    is_host && byte_at(word, end.saturating_sub(1)).is_ascii_alphabetic()
}

/// The length of the mail address that a word begins with.
#[tactic(auto, unfolding(crate::specs::Addresses::mail_length))]
fn mail_length(word: &[u8]) -> Option<usize>
    ensures { result ≡ mail_length word.now }
{
    let local = local_length(word);
    let end = kept_length(word);
    let is_named = local != 0 && byte_at(word, local) == b'@';
    if is_named && is_mail_host(word, local.saturating_add(1), end) {
        Some(end)
    } else {
        None
    }
}

/// An address of a kind, if there is one.
fn of_kind(kind: Kind, length: Option<usize>) -> Option<Address>
    ensures { result ≡ of_kind kind length }
{
    match length {
        Some(length) => Some(Address { kind, length }),
        None => None,
    }
}

/// Whether a web address may be at a place: a scheme is there, or `www.`.
#[tactic(auto, unfolding(crate::specs::Addresses::has_scheme))]
pub(crate) fn has_scheme(word: &[u8], place: usize) -> bool
    ensures { result ≡ has_scheme word.now place }
{
    starts_at(word, place, b"https://")
        || starts_at(word, place, b"http://")
        || starts_at(word, place, b"ftp://")
        || starts_at(word, place, b"www.")
}

/// Whether programs look for an address at a place.
#[tactic(auto, unfolding(crate::specs::Addresses::is_sign))]
pub(crate) fn is_sign(text: &[u8], place: usize) -> bool
    ensures { result ≡ is_sign text.now place }
{
    starts_at(text, place, b"://") || starts_at(text, place, b"www.")
}

/// The mail address that a word begins with.
pub(crate) fn mail_address(word: &[u8]) -> Option<Address>
    ensures { result ≡ mail_address word.now }
{
    of_kind(Kind::Mail, mail_length(word))
}

/// The web address that a word begins with.
#[tactic(auto, unfolding(crate::specs::Addresses::web_address))]
pub(crate) fn web_address(word: &[u8]) -> Option<Address>
    ensures { result ≡ web_address word.now }
{
    if starts_at(word, 0, b"https://") {
        of_kind(Kind::Web, web_length(true, word, 8))
    } else if starts_at(word, 0, b"http://") {
        of_kind(Kind::Web, web_length(true, word, 7))
    } else if starts_at(word, 0, b"ftp://") {
        of_kind(Kind::Web, web_length(true, word, 6))
    } else if starts_at(word, 0, b"www.") {
        of_kind(Kind::Named, web_length(false, word, 4))
    } else {
        None
    }
}
