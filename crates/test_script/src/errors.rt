//! Errors and their names.

use tocmark::Error;

/// The name of an error, as a script answers it.
pub fn error_name(error: &Error) -> &'static str {
    match error {
        Error::FormatFailed(_) => "FormatFailed",
        Error::UnexpectedEvent => "UnexpectedEvent",
        Error::Unrepresentable => "Unrepresentable",
        Error::InvalidSourceRange => "InvalidSourceRange",
        Error::Finished => "Finished",
        Error::Failed => "Failed",
        Error::OutOfMemory => "OutOfMemory",
    }
}

/// Lets go what a call gave, and keeps its error.
pub fn ended<T: Drop, E>(given: Result<T, E>) -> Result<(), E> {
    match given {
        Ok(_) => Ok(()),
        Err(error) => Err(error),
    }
}
