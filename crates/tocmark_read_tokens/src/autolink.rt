//! Addresses between angle brackets.

ghost use Rattle.std.specs.Prelude.{◌≡◌};
ghost use Rattle.tocmark_read_tokens.specs.Autolink.{closed_at, is_scheme, uri_end, domain_step, is_label_end, is_domain, domain_end, mail_end};

use tocmark_read_scan::basic::{byte_at, bytes_between};
use tocmark_read_scan::class::{Class, run_end};

/// What is known of the front of a domain.
#[derive(Clone, Copy)]
pub struct Domain {
    /// The bytes of its last label so far.
    pub length: usize,
    /// Whether the last byte was a hyphen.
    pub hyphen: bool,
    /// Whether all is well so far.
    pub fine: bool,
}

/// The place after the bracket that closes an address whose bytes end at a place.
#[tactic(auto, unfolding(crate::specs::Autolink::closed_at))]
fn closed_at(bytes: &[u8], place: usize) -> Option<usize>
    ensures { result ≡ closed_at bytes.now place }
{
    if byte_at(bytes, place) == b'>' {
        Some(place.saturating_add(1))
    } else {
        None
    }
}

/// Whether a scheme and its colon are between two places; a scheme has 2 to 32 bytes.
#[tactic(auto, unfolding(crate::specs::Autolink::is_scheme))]
fn is_scheme(bytes: &[u8], start: usize, end: usize) -> bool
    ensures { result ≡ is_scheme bytes.now start end }
{
    let length = end.saturating_sub(start);
    let fits = 2 <= length && length <= 32;
    fits && byte_at(bytes, start).is_ascii_alphabetic() && byte_at(bytes, end) == b':'
}

/// The place after the address with a scheme whose `<` is at a place.
#[tactic(auto, unfolding(crate::specs::Autolink::uri_end))]
pub fn uri_end(bytes: &[u8], place: usize) -> Option<usize>
    ensures { result ≡ uri_end bytes.now place }
{
    let start = place.saturating_add(1);
    let end = run_end(bytes, start, Class::Scheme);
    if is_scheme(bytes, start, end) {
        closed_at(bytes, run_end(bytes, end, Class::Address))
    } else {
        None
    }
}

/// One byte further in a domain: a dot ends a label, which has 1 to 63 bytes and no hyphen at its ends.
#[tactic(auto, unfolding(crate::specs::Autolink::domain_step))]
fn domain_step(domain: Domain, byte: u8) -> Domain
    ensures { result ≡ domain_step domain byte }
{
    if byte == b'.' {
        Domain {
            length: 0,
            hyphen: false,
            fine: is_label_end(domain),
        }
    } else {
        Domain {
            length: domain.length.saturating_add(1),
            hyphen: byte == b'-',
            fine: domain.fine && !(domain.length == 0 && byte == b'-'),
        }
    }
}

/// Whether a label may end here.
#[tactic(auto, unfolding(crate::specs::Autolink::is_label_end))]
fn is_label_end(domain: Domain) -> bool
    ensures { result ≡ is_label_end domain }
{
    domain.fine && 1 <= domain.length && domain.length <= 63 && !domain.hyphen
}

/// Whether a domain's bytes are labels with dots between.
#[tactic(auto, unfolding(crate::specs::Autolink::is_domain))]
fn is_domain(text: &[u8]) -> bool
    ensures { result ≡ is_domain text.now }
{
    let mut domain = Domain {
        length: 0,
        hyphen: false,
        fine: true,
    };
    for byte in text {
        domain = domain_step(domain, *byte);
    }
    is_label_end(domain)
}

/// The place after the domain at a place.
#[tactic(auto, unfolding(crate::specs::Autolink::domain_end))]
fn domain_end(bytes: &[u8], start: usize) -> Option<usize>
    ensures { result ≡ domain_end bytes.now start }
{
    let end = run_end(bytes, start, Class::Domain);
    if is_domain(bytes_between(bytes, start, end)) {
        closed_at(bytes, end)
    } else {
        None
    }
}

/// The place after the mail address whose `<` is at a place.
#[tactic(auto, unfolding(crate::specs::Autolink::mail_end))]
pub fn mail_end(bytes: &[u8], place: usize) -> Option<usize>
    ensures { result ≡ mail_end bytes.now place }
{
    let start = place.saturating_add(1);
    let end = run_end(bytes, start, Class::Mailbox);
    let has_mailbox = end != start && byte_at(bytes, end) == b'@';
    if has_mailbox {
        domain_end(bytes, end.saturating_add(1))
    } else {
        None
    }
}
