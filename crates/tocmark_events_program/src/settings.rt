//! The options of the writer that the arguments name.

use serde_json::Value;
use std::alloc::{AllocError, Global};
use tocmark::Options;
use tocmark_documents::{OptionFault, set_option};

/// Why a word sets no option.
#[derive(Clone, Copy, Drop)]
pub enum Unset<'a> {
    /// There is no `=` in it.
    NoPair,
    /// It names no option, or has no value for it.
    Refused(OptionFault<'a>),
    OutOfMemory,
}

/// The JSON of a value: a number or a truth, and else a string.
fn value_of(alloc: Global, word: &str) -> Result<Value, AllocError> {
    match word {
        "true" => Ok(Value::Bool(true)),
        "false" => Ok(Value::Bool(false)),
        _ => match word.parse::<u64>() {
            Ok(number) => Ok(Value::from(number)),
            Err(_) => Value::try_from_str(alloc, word),
        },
    }
}

/// Sets the option that a word `KEY=VALUE` names.
pub fn set<'w>(
    alloc: Global,
    options: &mut Options<'static>,
    word: &'w str,
) -> Result<(), Unset<'w>> {
    let Some((key, text)) = word.split_once('=') else {
        return Err(Unset::NoPair);
    };
    let Ok(value) = value_of(alloc, text) else {
        return Err(Unset::OutOfMemory);
    };
    match set_option(options, key, &value) {
        Ok(()) => Ok(()),
        Err(fault) => Err(Unset::Refused(fault)),
    }
}
