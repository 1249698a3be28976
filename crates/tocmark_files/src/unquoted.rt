//! Names of files as Git quotes them in lists.

use std::alloc::{AllocError, Global};

/// The byte that three octal digits stand for.
fn octal(digits: &[u8]) -> Option<u8> {
    let mut value = 0u8;
    for digit in digits.get(..3)? {
        if !matches!(*digit, b'0'..=b'7') {
            return None;
        }
        value = value
            .checked_mul(8)?
            .checked_add(digit.saturating_sub(b'0'))?;
    }
    Some(value)
}

/// The byte of an escape whose backslash is passed, and what is after it.
fn unescaped(rest: &[u8]) -> Option<(u8, &[u8])> {
    let byte = match rest.first()? {
        b'a' => 7,
        b'b' => 8,
        b't' => b'\t',
        b'n' => b'\n',
        b'v' => 11,
        b'f' => 12,
        b'r' => b'\r',
        b'"' => b'"',
        _ => return Some((octal(rest)?, rest.get(3..)?)),
    };
    Some((byte, rest.get(1..)?))
}

/// What is between quotation marks.
fn within_marks(quoted: &[u8]) -> Option<&[u8]> {
    quoted.strip_prefix(b"\"")?.strip_suffix(b"\"")
}

/// The name that Git shows in quotation marks with escapes; `None` if it isn't shown so.
pub fn unquoted(alloc: Global, quoted: &[u8]) -> Result<Option<Vec<u8>>, AllocError> {
    let Some(inner) = within_marks(quoted) else {
        return Ok(None);
    };
    let mut name = Vec::new(alloc);
    let mut is_text = true;
    for part in inner.split(|byte| *byte == b'\\') {
        if is_text {
            name.extend_from_slice(part)?;
            is_text = false;
        } else if part.is_empty() {
            name.push(b'\\')?;
            is_text = true;
        } else if let Some((byte, rest)) = unescaped(part) {
            name.push(byte)?;
            name.extend_from_slice(rest)?;
        } else {
            return Ok(None);
        }
    }
    Ok(if is_text { None } else { Some(name) })
}
