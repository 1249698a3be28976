//! The options of the writer, from their JSON text.

ghost use Rattle.std.specs.Prelude.{◌≡◌, IfErr, IfOk, None};
ghost use Rattle.tocmark_event.specs.Options.{options_view};
ghost use Rattle.tocmark_event.specs.Validation.{validation};
ghost use Rattle.serde_json.specs.View.{view};
ghost use Rattle.tocmark_documents.specs.Options.{IsOptionsJson};
ghost use Rattle.tocmark_documents.specs.Interchange.{AreOptions, HasOptions, IsNoOptions, IsNoOptionsText, IsOptionsCause};

use crate::fault::OptionsTextError;
use crate::option_values::options_from_json;
use serde_json::Value;
use std::alloc::Global;
use tocmark::Options;
use tocmark::event::ParserOptions;

/// Reads the writer's options from a JSON text, and checks that the writer takes them under these flags. An empty text
/// means the default options.
///
/// It fails if the text isn't JSON (`NotJson`), if its value isn't that of options (`NotOptions`), if the writer
/// doesn't take them under these flags (`Invalid`), or if memory runs out.
pub fn options_from_text(
    alloc: Global,
    text: &str,
    flags: ParserOptions,
) -> Result<Options<'static>, OptionsTextError>
    ensures options { IfOk result (λ options. AreOptions text.now (options_view options)) }
    ensures valid { IfOk result (λ options. validation (options_view options) flags ≡ None) }
    ensures cause { IfErr result (IsOptionsCause flags text.now) }
{
    let options = options_in(alloc, text)?;
    match options.validate(flags) {
        Ok(()) => Ok(options),
        Err(error) => Err(OptionsTextError::Invalid(error)),
    }
}

/// Reads options from a JSON text without a check. An empty text means the default options.
#[tactic(auto, using(crate::proofs::Empty::empty_text))]
fn options_in(alloc: Global, text: &str) -> Result<Options<'static>, OptionsTextError>
    ensures options { IfOk result (λ options. AreOptions text.now (options_view options)) }
    ensures cause { IfErr result (IsNoOptionsText text.now) }
{
    if text.is_empty() {
        return Ok(Options::default());
    }
    options_in_json(alloc, text)
}

/// Reads options from a JSON text. A field without a key there has its default. The writer may refuse the options.
///
/// It fails if the text isn't JSON (`NotJson`), if its value isn't that of options (`NotOptions`), or if memory runs
/// out.
pub fn options_in_json(alloc: Global, text: &str) -> Result<Options<'static>, OptionsTextError>
    ensures options { IfOk result (λ options. HasOptions text.now (options_view options)) }
    ensures cause { IfErr result (IsNoOptionsText text.now) }
{
    match Value::from_str(alloc, text) {
        Ok(value) => options_of(alloc, &value),
        Err(error) if error.is_memory() => Err(OptionsTextError::OutOfMemory),
        Err(error) => Err(OptionsTextError::NotJson(error)),
    }
}

/// The options of a value.
fn options_of(alloc: Global, value: &Value) -> Result<Options<'static>, OptionsTextError>
    ensures options { IfOk result (λ options.
        IsOptionsJson (view value.now) (options_view options)) }
    ensures cause { IfErr result (IsNoOptions (view value.now)) }
{
    match options_from_json(value) {
        Ok(options) => Ok(options),
        Err(fault) => match format!(in alloc; "{fault}") {
            Ok(line) => Err(OptionsTextError::NotOptions(line)),
            Err(_) => Err(OptionsTextError::OutOfMemory),
        },
    }
}
