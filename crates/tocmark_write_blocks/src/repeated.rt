//! A character many times, in one piece of memory.

ghost use Rattle.std.specs.Prelude.{◌≡◌, string_bytes, IfOk, replicate, flat_map, encode_utf8};

use std::alloc::{AllocError, Global};

/// A character so many times. Room for all of them is made before the first is written.
///
/// It fails if memory runs out, or if no text can be as long.
pub fn repeated(alloc: Global, character: char, count: usize) -> Result<String, AllocError>
    ensures { IfOk result (λ text.
        string_bytes text ≡ flat_map encode_utf8 (replicate count character)) }
{
    let size = count.checked_mul(character.len_utf8()).ok_or(AllocError)?;
    let mut text = String::with_capacity(alloc, size)?;
    for _place in 0..count {
        text.push(character)?;
    }
    Ok(text)
}
