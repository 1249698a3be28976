//! Character references and escapes.

ghost use Rattle.std.specs.Prelude.{◌≡◌, OnOk, IfOk};
ghost use Rattle.tocmark_read_tokens.specs.Reference.{digit, number, character, closed_number, numeric, referred, named, reference_at, is_escape, unescaping, resolved, unescape_at, unescape_at_in, unescape_step_in, unescaped_in};

use crate::name::named_in;
use std::alloc::{AllocError, Global};
use tocmark_read_scan::basic::{byte_at, bytes_between, character_of, starts_at};
use tocmark_read_scan::class::{Class, run_end};
use tocmark_read_scan::syntax::Names;

/// A character, and the place after its reference.
#[derive(Clone, Copy)]
pub struct Reference {
    pub character: char,
    pub next: usize,
}

/// The value of a hexadecimal digit; 0 of another byte.
#[tactic(auto, unfolding(crate::specs::Reference::digit))]
fn digit(byte: u8) -> u32
    ensures { result ≡ digit byte }
{
    if b'0' <= byte && byte <= b'9' {
        u32::from(byte - b'0')
    } else if b'a' <= byte && byte <= b'f' {
        u32::from(byte - b'a' + 10)
    } else if b'A' <= byte && byte <= b'F' {
        u32::from(byte - b'A' + 10)
    } else {
        0
    }
}

/// The number that digits write in a base.
#[tactic(auto, unfolding(crate::specs::Reference::number))]
fn number(digits: &[u8], base: u32) -> u32
    ensures { result ≡ number base digits.now }
{
    let mut value = 0u32;
    for byte in digits {
        value = value.saturating_mul(base).saturating_add(digit(*byte));
    }
    value
}

/// The character of a code point; U+FFFD for 0 and where there is none.
#[tactic(auto, unfolding(crate::specs::Reference::character))]
fn character(code: u32) -> char
    ensures { result ≡ character code }
{
    if code == 0 {
        '\u{FFFD}'
    } else {
        character_of(code)
    }
}

/// The reference to the number that is between two places, with so many digits at most.
#[tactic(auto, unfolding(crate::specs::Reference::closed_number))]
fn closed_number(
    bytes: &[u8],
    start: usize,
    end: usize,
    base: u32,
    most: usize,
) -> Option<Reference>
    ensures { result ≡ closed_number bytes.now start end base most }
{
    let fits = start < end && end <= start.saturating_add(most) && byte_at(bytes, end) == b';';
    if fits {
        Some(Reference {
            character: character(number(bytes_between(bytes, start, end), base)),
            next: end.saturating_add(1),
        })
    } else {
        None
    }
}

/// The numeric reference whose `&#` is at a place: 1 to 7 decimal or 1 to 6 hexadecimal digits.
#[tactic(auto, unfolding(crate::specs::Reference::numeric))]
fn numeric(bytes: &[u8], place: usize) -> Option<Reference>
    ensures { result ≡ numeric bytes.now place }
{
    let start = place.saturating_add(2);
    let sign = byte_at(bytes, start);
    if sign == b'x' || sign == b'X' {
        let first = start.saturating_add(1);
        closed_number(bytes, first, run_end(bytes, first, Class::HexDigit), 16, 6)
    } else {
        closed_number(bytes, start, run_end(bytes, start, Class::Digit), 10, 7)
    }
}

#[tactic(auto, unfolding(crate::specs::Reference::referred))]
fn referred(character: char, next: usize) -> Option<Reference>
    ensures { result ≡ referred character next }
{
    Some(Reference { character, next })
}

/// The reference by name at a place: `&amp;`, `&lt;`, `&gt;` or `&quot;`.
#[tactic(auto, unfolding(crate::specs::Reference::named))]
fn named(bytes: &[u8], place: usize) -> Option<Reference>
    ensures { result ≡ named bytes.now place }
{
    if starts_at(bytes, place, b"&amp;") {
        referred('&', place.saturating_add(5))
    } else if starts_at(bytes, place, b"&lt;") {
        referred('<', place.saturating_add(4))
    } else if starts_at(bytes, place, b"&gt;") {
        referred('>', place.saturating_add(4))
    } else if starts_at(bytes, place, b"&quot;") {
        referred('"', place.saturating_add(6))
    } else {
        None
    }
}

/// The character reference at a place: a number, or one of the names `amp`, `lt`, `gt` and `quot`.
#[tactic(auto, unfolding(crate::specs::Reference::reference_at))]
pub fn reference_at(bytes: &[u8], place: usize) -> Option<Reference>
    ensures { result ≡ reference_at bytes.now place }
{
    if starts_at(bytes, place, b"&#") {
        numeric(bytes, place)
    } else {
        named(bytes, place)
    }
}

/// Whether an escaped character is at a place: a backslash, and ASCII punctuation after it.
#[tactic(auto, unfolding(crate::specs::Reference::is_escape))]
pub fn is_escape(bytes: &[u8], place: usize) -> bool
    ensures { result ≡ is_escape bytes.now place }
{
    byte_at(bytes, place) == b'\\' && byte_at(bytes, place.saturating_add(1)).is_ascii_punctuation()
}

/// A text whose escapes and references are being resolved.
#[derive(Drop)]
struct Unescaping {
    out: Vec<u8>,
    place: usize,
    resume: usize,
}

impl Unescaping {
    /// Writes a character, and goes on after its reference.
    #[tactic(auto, unfolding(crate::specs::Reference::resolved))]
    fn resolve(&mut self, alloc: Global, reference: Reference) -> Result<(), AllocError>
        ensures { OnOk result (unescaping self.new ≡ resolved reference (unescaping self.old)) }
    {
        let mut text = String::new(alloc);
        text.push(reference.character)?;
        self.out.extend_from_slice(text.as_bytes())?;
        self.resume = reference.next;
        Ok(())
    }

    /// Takes what is at the place.
    #[tactic(auto, unfolding(crate::specs::Reference::unescape_at))]
    fn take(&mut self, alloc: Global, bytes: &[u8], byte: u8) -> Result<(), AllocError>
        ensures { OnOk result (unescaping self.new
            ≡ unescape_at bytes.now byte (unescaping self.old)) }
    {
        if is_escape(bytes, self.place) {
            self.out.push(byte_at(bytes, self.place.saturating_add(1)))?;
            self.resume = self.place.saturating_add(2);
            return Ok(());
        }
        match reference_at(bytes, self.place) {
            Some(reference) => self.resolve(alloc, reference),
            None => {
                self.out.push(byte)?;
                Ok(())
            }
        }
    }

    /// Takes what is at the place, by the names that are known.
    #[tactic(auto, unfolding(crate::specs::Reference::unescape_at_in))]
    fn take_in(
        &mut self,
        alloc: Global,
        names: Names,
        bytes: &[u8],
        byte: u8,
    ) -> Result<(), AllocError>
        ensures { OnOk result (unescaping self.new
            ≡ unescape_at_in names bytes.now byte (unescaping self.old)) }
    {
        match named_in(names, bytes, self.place) {
            Some(found) => {
                self.out.extend_from_slice(found.characters)?;
                self.resume = found.next;
                Ok(())
            }
            None => self.take(alloc, bytes, byte),
        }
    }

    #[tactic(auto, unfolding(crate::specs::Reference::unescape_step_in))]
    fn step(
        &mut self,
        alloc: Global,
        names: Names,
        bytes: &[u8],
        byte: u8,
    ) -> Result<(), AllocError>
        ensures { OnOk result (unescaping self.new
            ≡ unescape_step_in names bytes.now (unescaping self.old) byte) }
    {
        if self.resume <= self.place {
            self.take_in(alloc, names, bytes, byte)?;
        }
        self.place = self.place.saturating_add(1);
        Ok(())
    }
}

/// The text with its escapes and references resolved, byte by byte.
#[tactic(auto, unfolding(crate::specs::Reference::unescaped_in))]
fn unescaped_by_bytes(alloc: Global, names: Names, bytes: &[u8]) -> Result<Vec<u8>, AllocError>
    ensures { IfOk result (λ v. v.items ≡ unescaped_in names bytes.now) }
{
    let mut machine = Unescaping {
        out: Vec::new(alloc),
        place: 0,
        resume: 0,
    };
    for byte in bytes {
        machine.step(alloc, names, bytes, *byte)?;
    }
    Ok(machine.out)
}

/// The text with its escapes and references resolved, by the names that are known. Where neither a
/// backslash nor an ampersand is it is copied.
#[tactic(auto, using(crate::proofs::Unmarked::left_alone))]
pub fn unescaped(alloc: Global, names: Names, bytes: &[u8]) -> Result<Vec<u8>, AllocError>
    ensures { IfOk result (λ v. v.items ≡ unescaped_in names bytes.now) }
{
    if bytes.contains(&b'\\') || bytes.contains(&b'&') {
        unescaped_by_bytes(alloc, names, bytes)
    } else {
        Vec::from_slice(alloc, bytes)
    }
}
