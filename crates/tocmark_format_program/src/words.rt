//! The words of this call, also those that aren't UTF-8.

use std::env::{Env, FillError};
use std::io;

/// How long a word is tried at first, in bytes.
const LENGTH: usize = 4096;

/// The words of a call.
#[derive(Drop)]
pub struct Words {
    /// The program's name, and what follows. U+FFFD stands for bytes that aren't UTF-8.
    pub words: Vec<String>,
    /// Those of the words that aren't UTF-8.
    pub broken: Vec<String>,
}

/// The word in this place, if it isn't longer than the buffer. `Ok(None)`: it is longer.
fn word_within(
    rt: &HostRuntime,
    place: usize,
    length: usize,
) -> io::Result<Option<Option<Vec<u8>>>> {
    let mut bytes = Vec::new(rt.alloc());
    bytes.resize(length, 0u8)?;
    match rt.arg(place, bytes.as_mut_slice()) {
        Ok(count) => {
            bytes.truncate(count);
            Ok(Some(Some(bytes)))
        }
        Err(FillError::NotPresent) => Ok(Some(None)),
        Err(FillError::TooLong) => Ok(None),
    }
}

/// The word in this place. `Ok(None)`: there are no more.
fn word_at(rt: &HostRuntime, place: usize) -> io::Result<Option<Vec<u8>>> {
    let mut length = LENGTH;
    for _ in 0..usize::BITS {
        if let Some(word) = word_within(rt, place, length)? {
            return Ok(word);
        }
        length = length.saturating_add(length);
    }
    Err(io::Error::from(io::ErrorKind::OutOfMemory))
}

/// The words of this call. It fails if memory runs out.
pub fn words_of(rt: &HostRuntime) -> io::Result<Words> {
    let mut words = Words {
        words: Vec::new(rt.alloc()),
        broken: Vec::new(rt.alloc()),
    };
    words.add_all(rt)?;
    Ok(words)
}

impl Words {
    fn add_all(&mut self, rt: &HostRuntime) -> io::Result<()> {
        for place in 0..usize::MAX {
            let Some(bytes) = word_at(rt, place)? else {
                break;
            };
            match String::from_utf8(bytes) {
                Ok(word) => self.words.push(word)?,
                Err(error) => self.add_broken(rt, error.as_bytes())?,
            }
        }
        Ok(())
    }

    /// Adds a word that isn't UTF-8.
    fn add_broken(&mut self, rt: &HostRuntime, bytes: &[u8]) -> io::Result<()> {
        let word = String::from_utf8_lossy(rt.alloc(), bytes)?;
        self.broken.push(word.clone()?)?;
        self.words.push(word)?;
        Ok(())
    }
}
