//! The buffer that a caller lends.

ghost use Rattle.std.specs.Prelude.{◌≡◌, MatchResult, length, pos, string_bytes};
ghost use Rattle.tocmark_c.specs.Answer.{laid};
ghost use Rattle.tocmark_c.specs.Codes.{code_of};
ghost use Rattle.tocmark_c.specs.Place.{IsFilled};

use crate::cause::Cause;
use crate::place::TocmarkPlace;
use crate::refusal::Refusal;

/// Copies bytes into the front of a buffer if it is large enough, and returns how many they are.
pub fn lay_bytes(bytes: &[u8], out: &mut [u8]) -> isize
    ensures size { result ≡ pos (length bytes.now) }
    ensures laid { out.new ≡ laid bytes.now out.old }
{
    let size = bytes.len();
    if size <= out.len() {
        out[..size].copy_from_slice(bytes);
    }
    size as isize
}

/// Copies a text as `lay_bytes` does, and returns its length in bytes.
pub fn lay(text: &str, out: &mut [u8]) -> isize
    ensures size { result ≡ pos (length text.now) }
    ensures laid { out.new ≡ laid text.now out.old }
{
    lay_bytes(text.as_bytes(), out)
}

/// Copies a text as `lay` does, or returns the code of a cause and leaves the buffer.
pub fn answer(said: Result<String, Cause>, out: &mut [u8]) -> isize
    ensures { MatchResult said
        (λ text. (result ≡ pos (length (string_bytes text)))
        × (out.new ≡ laid (string_bytes text) out.old))
        (λ cause. (result ≡ code_of cause) × (out.new ≡ out.old)) }
{
    match said {
        Ok(text) => lay(text.as_str(), out),
        Err(cause) => cause.code(),
    }
}

/// Copies a text as `lay` does. Otherwise it returns the code of the cause, leaves the buffer, and fills `place` with where
/// the error is.
pub fn answer_at(said: Result<String, Refusal>, place: &mut TocmarkPlace, out: &mut [u8]) -> isize
    ensures { MatchResult said
        (λ text. (result ≡ pos (length (string_bytes text)))
        × (out.new ≡ laid (string_bytes text) out.old) × (place.new ≡ place.old))
        (λ refusal. (result ≡ code_of refusal.cause) × (out.new ≡ out.old)
        × IsFilled place.old place.new) }
{
    match said {
        Ok(text) => lay(text.as_str(), out),
        Err(refusal) => refusal.told(place),
    }
}
