//! Reads and writes whole texts, and says whether they are coloured.

ghost use Rattle.std.specs.Prelude.{◌≡◌, Err, IfOk, IfSome, IsUtf8, OnOk, string_bytes};
ghost use Rattle.std.specs.Io.KnownBytes.{Appends};

use std::alloc::Global;
use std::io::{IsTerminal, Read, Write};
use std::{env, io};

/// Why an input gives no text.
#[derive(Debug, Drop)]
pub enum InputError {
    /// It can't be read, or memory runs out.
    Unreadable(io::Error),
    /// It isn't UTF-8.
    NotUtf8,
}

/// All that an input has, as text.
pub fn text_in<I: Read>(alloc: Global, input: &mut I) -> Result<String, InputError>
    ensures text { IfSome (I.remaining input.old) (λ bytes.
        IfOk result (λ text. string_bytes text ≡ bytes)) }
    ensures refused { IfSome (I.remaining input.old) (λ bytes.
        result ≡ Err InputError.NotUtf8 → ¬ IsUtf8 bytes) }
{
    let mut bytes = Vec::new(alloc);
    if let Err(error) = input.read_to_end(&mut bytes) {
        return Err(InputError::Unreadable(error));
    }
    match String::from_utf8(bytes) {
        Ok(text) => Ok(text),
        Err(_) => Err(InputError::NotUtf8),
    }
}

/// Writes a text, and flushes the output.
///
/// It fails if the output does; then it can hold a part of the text.
pub fn write_out<O: Write>(output: &mut O, text: &str) -> io::Result<()>
    ensures { OnOk result (Appends (O.contents output.old) (O.contents output.new) text.now) }
{
    output.write_all(text.as_bytes())?;
    output.flush()
}

/// Whether a variable of the environment has a value that isn't empty.
fn is_set(rt: &HostRuntime, name: &str) -> bool {
    match env::var(rt, name) {
        Ok(value) => !value.is_empty(),
        Err(error) => !matches!(error, env::VarError::NotPresent),
    }
}

/// Whether output has colours if nothing else is asked for: never if the environment has `NO_COLOR`, always if it has
/// `FORCE_COLOR`, and else on a terminal. An empty variable counts as none.
pub fn wants_color(rt: &HostRuntime) -> bool {
    !is_set(rt, "NO_COLOR") && (is_set(rt, "FORCE_COLOR") || rt.stdout().is_terminal())
}
