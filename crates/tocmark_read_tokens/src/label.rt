//! Link labels: how they are matched, and what they are defined as.

ghost use Rattle.std.specs.Prelude.{◌≡◌, ◌++◌, ℕ, List, OnOk, IfOk, chars, encode_utf8_all, map, string_bytes};
ghost use Rattle.std.specs.Str.Lossy.{utf8_lossy};
ghost use Rattle.caseless.specs.Caseless.{default_case_fold};
ghost use Rattle.std.specs.HashMap.{get_by_text};
ghost use Rattle.tocmark_read_tokens.specs.Label.{collapsing, is_blank_due, collapse_step, collapsed, key_of, first_place, is_at, place_if, distinct_from};

use caseless::default_case_fold_str;
use std::alloc::{AllocError, Global};
use std::collections::HashMap;
use tocmark_read_scan::class::{Class, is_in};

/// A label whose white space is being collapsed.
#[derive(Drop)]
struct Collapsing {
    out: Vec<u8>,
    blank: bool,
}

impl Collapsing {
    fn is_blank_due(&self) -> bool
        ensures { result ≡ is_blank_due (collapsing self.now) }
    {
        self.blank && !self.out.is_empty()
    }

    #[tactic(auto, unfolding(crate::specs::Label::collapse_step))]
    fn step(&mut self, byte: u8) -> Result<(), AllocError>
        ensures { OnOk result (collapsing self.new ≡ collapse_step (collapsing self.old) byte) }
    {
        if is_in(Class::White, byte) {
            self.blank = true;
            return Ok(());
        }
        if self.is_blank_due() {
            self.out.push(b' ')?;
        }
        self.out.push(byte)?;
        self.blank = false;
        Ok(())
    }
}

/// The label with one space for each stretch of white space, and none at its ends.
#[tactic(auto, unfolding(crate::specs::Label::collapsed))]
pub fn collapsed(alloc: Global, label: &[u8]) -> Result<Vec<u8>, AllocError>
    ensures { IfOk result (λ v. v.items ≡ collapsed label.now) }
{
    let mut machine = Collapsing {
        out: Vec::with_capacity(alloc, label.len())?,
        blank: false,
    };
    for byte in label {
        machine.step(*byte)?;
    }
    Ok(machine.out)
}

/// The bytes as a text, with U+FFFD for each sequence that is no UTF-8.
fn text_of(alloc: Global, bytes: Vec<u8>) -> Result<String, AllocError>
    ensures { IfOk result (λ t. string_bytes t ≡ utf8_lossy bytes.items) }
{
    match String::from_utf8(bytes) {
        Ok(text) => Ok(text),
        Err(error) => String::from_utf8_lossy(alloc, error.as_bytes()),
    }
}

/// The text with its letters' case folded: one of ASCII in its own place.
#[tactic(auto, using(crate::proofs::Folded::ascii_folded))]
fn folded(alloc: Global, mut text: String) -> Result<String, AllocError>
    ensures { IfOk result (λ t.
        string_bytes t ≡ encode_utf8_all (default_case_fold (chars (string_bytes text)))) }
{
    if text.is_ascii() {
        text.make_ascii_lowercase();
        return Ok(text);
    }
    default_case_fold_str(alloc, text.as_str())
}

/// What two labels that match have in common: the collapsed label with its letters' case folded.
#[tactic(auto, unfolding(crate::specs::Label::key_of))]
pub fn key_of(alloc: Global, label: &[u8]) -> Result<String, AllocError>
    ensures { IfOk result (λ t. string_bytes t ≡ key_of label.now) }
{
    let bytes = collapsed(alloc, label)?;
    let text = text_of(alloc, bytes)?;
    folded(alloc, text)
}

/// For each key of a list its first place there: of two definitions of a label the first counts.
pub fn first_places(alloc: Global, keys: &[String]) -> Result<HashMap<String, usize>, AllocError>
    ensures first { IfOk result (λ places.
        (q : List ℕ) → get_by_text places q ≡ first_place 0 (map string_bytes keys.now) q) }
{
    let mut places = HashMap::new(alloc);
    for place in (0..keys.len()).rev() {
        let key = keys[place].clone()?;
        places.insert(key, place)?;
    }
    Ok(places)
}

/// Whether a key's first place is this one.
fn is_first(places: &HashMap<String, usize>, key: &str, place: usize) -> bool
    ensures { result ≡ is_at place (get_by_text places.now key.now) }
{
    match places.get(key) {
        Some(first) => *first == place,
        None => false,
    }
}

/// Writes a place down if it is the first of its key.
fn keep(
    kept: &mut Vec<usize>,
    places: &HashMap<String, usize>,
    key: &str,
    place: usize,
) -> Result<(), AllocError>
    ensures { OnOk result (kept.new.items
        ≡ kept.old.items ++ place_if (is_at place (get_by_text places.now key.now)) place) }
{
    if is_first(places, key, place) {
        kept.push(place)?;
    }
    Ok(())
}

/// The places of a list at which a key stands for the first time, in order.
pub fn distinct(alloc: Global, keys: &[String]) -> Result<Vec<usize>, AllocError>
    ensures { IfOk result (λ v.
        v.items ≡ distinct_from 0 (map string_bytes keys.now) (map string_bytes keys.now)) }
{
    let places = first_places(alloc, keys)?;
    let mut kept = Vec::new(alloc);
    let mut place = 0;
    for key in keys {
        keep(&mut kept, &places, key.as_str(), place)?;
        place = place.saturating_add(1);
    }
    Ok(kept)
}
