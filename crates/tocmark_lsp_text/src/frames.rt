//! Frames of messages: a header with a message's length, an empty line, and the message.

ghost use Rattle.std.specs.Prelude.{◌≡◌, ◌≤◌, IfOk, IfSome, length};

use std::alloc::{AllocError, AllocFailed, Global};
use std::io;
use std::io::{Read, Write};
use thiserror::Error;

/// How many bytes a message may have: 64 MiB.
pub const LONGEST: usize = 67_108_864;

/// How many bytes a line of a header may have.
const LONGEST_LINE: usize = 4096;

/// How many lines a header may have.
const MOST_LINES: usize = 64;

/// Why no message can be read. After that nothing says where the next one begins.
#[derive(Debug, Drop, Error)]
pub enum FrameError {
    #[error("out of memory")]
    OutOfMemory,
    #[error("the input cannot be read: {0}")]
    Unreadable(io::Error),
    #[error("the input ends inside a message")]
    Cut,
    #[error("a message begins with no header that gives its length")]
    NoLength,
    #[error("a message has more than 64 MiB")]
    TooLong,
}

impl From<AllocError> for FrameError {
    fn from(_fault: AllocError) -> FrameError {
        FrameError::OutOfMemory
    }
}

impl<T: Drop> From<AllocFailed<T>> for FrameError {
    fn from(_fault: AllocFailed<T>) -> FrameError {
        FrameError::OutOfMemory
    }
}

/// Reads a line of a header without its end. `None`: the input ends before it.
fn header_line<R: Read>(alloc: Global, input: &mut R) -> Result<Option<Vec<u8>>, FrameError> {
    let mut line = Vec::new(alloc);
    let mut byte = [0u8; 1];
    for _ in 0..LONGEST_LINE {
        match input.read(&mut byte) {
            Err(error) => return Err(FrameError::Unreadable(error)),
            Ok(0) if line.is_empty() => return Ok(None),
            Ok(0) => return Err(FrameError::Cut),
            Ok(_) => {}
        }
        if byte[0] == b'\n' {
            if line.last() == Some(&b'\r') {
                let _ = line.pop();
            }
            return Ok(Some(line));
        }
        line.push(byte[0])?;
    }
    Err(FrameError::NoLength)
}

/// The length that a line of a header gives. `None`: the line says something else.
fn length_in(line: &[u8]) -> Option<Result<usize, FrameError>> {
    let Ok(line) = str::from_utf8(line) else {
        return None;
    };
    let (name, value) = line.split_once(':')?;
    if !name.trim().eq_ignore_ascii_case("content-length") {
        return None;
    }
    match value.trim().parse::<usize>() {
        Ok(length) if length <= LONGEST => Some(Ok(length)),
        Ok(_) => Some(Err(FrameError::TooLong)),
        Err(_) => Some(Err(FrameError::NoLength)),
    }
}

/// The length of the next message. `None`: the input ends before its header.
fn next_length<R: Read>(alloc: Global, input: &mut R) -> Result<Option<usize>, FrameError> {
    let mut known = None;
    for number in 0..MOST_LINES {
        let Some(line) = header_line(alloc, input)? else {
            if number == 0 {
                return Ok(None);
            }
            return Err(FrameError::Cut);
        };
        if line.is_empty() {
            return match known {
                Some(length) => Ok(Some(length)),
                None => Err(FrameError::NoLength),
            };
        }
        if let Some(length) = length_in(&line) {
            known = Some(length?);
        }
    }
    Err(FrameError::NoLength)
}

/// Reads the next message. `None`: the input ends before it.
///
/// It fails if the header gives no length, or one above `LONGEST`, if the input ends inside the message or can't be read, or if
/// memory runs out.
pub fn read_message<R: Read>(alloc: Global, input: &mut R) -> Result<Option<Vec<u8>>, FrameError> {
    let Some(length) = next_length(alloc, input)? else {
        return Ok(None);
    };
    let mut message = Vec::new(alloc);
    message.resize(length, 0u8)?;
    match input.read_exact(&mut message) {
        Ok(()) => Ok(Some(message)),
        Err(error) if error.kind() == io::ErrorKind::UnexpectedEof => Err(FrameError::Cut),
        Err(error) => Err(FrameError::Unreadable(error)),
    }
}

/// Writes a message with its header.
///
/// It fails if the output does, and can leave a part of the message there.
pub fn write_message<W: Write>(output: &mut W, message: &str) -> io::Result<()> {
    let length = message.len();
    write!(output, "Content-Length: {length}\r\n\r\n{message}")?;
    output.flush()
}
