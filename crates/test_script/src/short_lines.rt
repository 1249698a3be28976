//! Answers with long lines told by their digests.

use sha2::{Digest, Sha256};
use std::alloc::{AllocError, Global};

/// A line of more bytes than these is told by its digest.
const LONGEST: usize = 4_000;

/// Adds how many bytes a line has and their SHA-256.
fn push_digest(short: &mut String, line: &str) -> Result<(), AllocError> {
    let bytes = line.len();
    let mut hasher = Sha256::new();
    hasher.update(line.as_bytes());
    write!(short, "{bytes} bytes ")?;
    for byte in &hasher.finalize() {
        write!(short, "{byte:02x}")?;
    }
    Ok(())
}

/// Returns the lines of an answer, a long one as how many bytes it has and their SHA-256.
///
/// # Errors
///
/// There is no memory for them.
pub fn with_short_lines(alloc: Global, answer: &str) -> Result<String, AllocError> {
    let mut short = String::new(alloc);
    for line in answer.lines() {
        if line.len() > LONGEST {
            push_digest(&mut short, line)?;
        } else {
            short.push_str(line)?;
        }
        short.push('\n')?;
    }
    Ok(short)
}
