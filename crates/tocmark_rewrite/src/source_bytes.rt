//! Bytes of a source, and runs of them.

pub(crate) fn byte_at(source: &str, at: usize) -> u8 {
    match source.as_bytes().get(at) {
        Some(byte) => *byte,
        None => 0,
    }
}

/// The first byte from one on that isn't white.
pub(crate) fn behind_white(source: &str, from: usize) -> usize {
    for k in from..source.len() {
        let byte = byte_at(source, k);
        if byte != b' ' && byte != b'\t' && byte != b'\n' && byte != b'\r' {
            return k;
        }
    }
    source.len()
}

/// The byte after a run of one byte.
pub(crate) fn run_end(source: &str, from: usize, byte: u8) -> usize {
    for k in from..source.len() {
        if byte_at(source, k) != byte {
            return k;
        }
    }
    source.len()
}

/// Where a run of one byte begins that ends before a place.
pub(crate) fn run_start(source: &str, to: usize, byte: u8) -> usize {
    for k in (0..to.min(source.len())).rev() {
        if byte_at(source, k) != byte {
            return k.saturating_add(1);
        }
    }
    0
}
