//! A text that is read whole.

ghost use Rattle.std.specs.Prelude.{◌≡◌, IfErr, IfOk, IfSome, string_bytes};
ghost use Rattle.tocmark_format_program.specs.Formats.{IsOutputFault};

use crate::fault::Fault;
use std::alloc::Global;
use std::io::Read;
use tocmark_settings::Location;

/// Bytes as text, or the first line that isn't UTF-8, counted from 1.
pub(crate) fn text_of(bytes: Vec<u8>) -> Result<String, usize>
    ensures { IfOk result (λ text. string_bytes text ≡ bytes.items) }
{
    match String::from_utf8(bytes) {
        Ok(text) => Ok(text),
        Err(error) => {
            let end = error.utf8_error().valid_up_to();
            let valid = error.as_bytes().get(..end).unwrap_or(&[]);
            Err(Location::after(valid).line)
        }
    }
}

/// All that an input has, as text.
pub fn text_in<I: Read>(alloc: Global, input: &mut I) -> Result<String, Fault>
    ensures text { IfSome (I.remaining input.old) (λ bytes.
        IfOk result (λ text. string_bytes text ≡ bytes)) }
    ensures fault { IfErr result (λ fault. ¬ (IsOutputFault fault)) }
{
    let mut bytes = Vec::new(alloc);
    if let Err(error) = input.read_to_end(&mut bytes) {
        return Err(Fault::Read(error));
    }
    match text_of(bytes) {
        Ok(text) => Ok(text),
        Err(line) => Err(Fault::NotUtf8(line)),
    }
}
