//! Numbers in little memory: small ones take a byte.

use std::alloc::{AllocError, Global};

/// The bit of a byte after which the same number goes on.
const MORE: u8 = 128;

/// The most bytes that a number takes.
const LONGEST: usize = 10;

/// Numbers that are read from the front on. Each takes a byte for seven of its bits, the low ones first.
#[derive(Drop)]
pub struct Numbers {
    bytes: Vec<u8>,
}

impl Numbers {
    /// No numbers.
    pub fn new(alloc: Global) -> Numbers {
        Numbers {
            bytes: Vec::new(alloc),
        }
    }

    /// How many bytes they take.
    pub fn len(&self) -> usize {
        self.bytes.len()
    }

    /// Adds a number after the others. It fails if memory runs out.
    pub fn push(&mut self, number: usize) -> Result<(), AllocError> {
        let mut rest = number;
        for _ in 0..LONGEST {
            let low = (rest % 128) as u8;
            rest = rest / 128;
            if rest == 0 {
                self.bytes.push(low)?;
                break;
            }
            self.bytes.push(low.saturating_add(MORE))?;
        }
        Ok(())
    }

    /// Takes the number that is at a byte, which becomes the byte after it; none after the last one.
    pub fn take(&self, at: &mut usize) -> Option<usize> {
        let mut number = 0usize;
        let mut unit = 1usize;
        for byte in self.bytes.get(*at..)? {
            *at = at.saturating_add(1);
            let bits = usize::from(*byte % MORE);
            number = number.saturating_add(bits.saturating_mul(unit));
            if *byte < MORE {
                return Some(number);
            }
            unit = unit.saturating_mul(128);
        }
        None
    }
}
