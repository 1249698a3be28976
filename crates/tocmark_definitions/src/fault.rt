//! The errors.

ghost use Rattle.std.specs.Prelude.{◌≡◌};
ghost use Rattle.tocmark_definitions.specs.Redefining.{fault_of};
ghost use Rattle.tocmark_definitions.specs.declared.fault.Fault.TheVariants.{OutOfMemory as no_memory};

use std::alloc::{AllocError, AllocFailed};
use std::fmt;
use tocmark_redefine::DefinitionFault;

/// Why a text doesn't get other definitions.
#[derive(Debug, Drop)]
pub enum Fault {
    /// The text isn't JSON, or is nested too deeply to be read.
    NotJson(serde_json::Error),
    /// The JSON isn't a list.
    NotAList,
    /// An element of the list is no definition.
    Wanted {
        /// The element's number, counted from 0.
        index: usize,
        /// The nearest key.
        key: &'static str,
        /// What should be there.
        wanted: &'static str,
    },
    /// The element of this number, counted from 0, is none of the text's definitions.
    NoDefinition(usize),
    /// No text was found in which the definition on this line says so, and else all is as it was. Lines count from 1.
    Misread(usize),
    /// Memory ran out.
    OutOfMemory,
}

impl From<AllocError> for Fault {
    ghost from_gives = { λ _ e. e ≡ no_memory };

    fn from(_fault: AllocError) -> Fault {
        Fault::OutOfMemory
    }
}

impl<T: Drop> From<AllocFailed<T>> for Fault {
    ghost from_gives = { λ _ e. e ≡ no_memory };

    fn from(_fault: AllocFailed<T>) -> Fault {
        Fault::OutOfMemory
    }
}

impl From<DefinitionFault> for Fault {
    ghost from_gives = { λ fault e. e ≡ fault_of fault };

    fn from(fault: DefinitionFault) -> Fault {
        match fault {
            DefinitionFault::OutOfMemory => Fault::OutOfMemory,
            DefinitionFault::NoDefinition(index) => Fault::NoDefinition(index),
            DefinitionFault::Misread(line) => Fault::Misread(line),
        }
    }
}

impl fmt::Display for Fault {
    fn fmt<W: fmt::Write>(&self, f: &mut fmt::Formatter<W>) -> fmt::Result {
        match self {
            Fault::NotJson(error) => write!(f, "the text is no JSON: {error}"),
            Fault::NotAList => write!(f, "the JSON is no array of definitions"),
            Fault::Wanted { index, key, wanted } => {
                write!(f, "definition {index}: {key}: expected {wanted}")
            }
            Fault::NoDefinition(index) => write!(
                f,
                "definition {index}: the text has none with this label and range"
            ),
            Fault::Misread(line) => write!(
                f,
                "line {line}: no text was found that has this definition and else parses as before"
            ),
            Fault::OutOfMemory => write!(f, "out of memory"),
        }
    }
}

impl std::error::Error for Fault {}
