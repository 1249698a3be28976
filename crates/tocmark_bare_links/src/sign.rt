//! Whether other programs look for an address in a text.

ghost use Rattle.std.specs.Prelude.{◌≡◌};
ghost use Rattle.std.specs.List.{fold};
ghost use Rattle.tocmark_bare_links.specs.Signs.{is_sign, sign_of, sign_start, sign_step};

use crate::words::is_separator;

/// What the front of a text has of `://` and `www.`, at which programs look for an address.
#[derive(Clone, Copy)]
pub struct Sign {
    /// Whether one of them is in it.
    pub any: bool,
    /// Whether one of them is in its last word.
    pub word: bool,
    /// Where its last word begins.
    pub start: usize,
    /// Where the front ends.
    pub place: usize,
    /// Its last three bytes, or zeros before its first byte.
    pub first: u8,
    pub second: u8,
    pub third: u8,
}

impl Sign {
    /// Whether a byte ends one of them.
    #[tactic(auto, unfolding(crate::specs::Signs::is_sign))]
    fn is_ended(self, byte: u8) -> bool
        ensures { result ≡ is_sign self byte }
    {
        let slashes = self.second == b':' && self.third == b'/' && byte == b'/';
        let letters = self.first == b'w' && self.second == b'w' && self.third == b'w';
        slashes || (letters && byte == b'.')
    }

    /// One byte further.
    #[tactic(auto, unfolding(crate::specs::Signs::sign_step))]
    fn after(self, byte: u8) -> Sign
        ensures { result ≡ sign_step self byte }
    {
        let ends = self.is_ended(byte);
        let place = self.place.saturating_add(1);
        Sign {
            any: self.any || ends,
            word: !is_separator(byte) && (self.word || ends),
            start: if is_separator(byte) {
                place
            } else {
                self.start
            },
            place,
            first: self.second,
            second: self.third,
            third: byte,
        }
    }

    /// Before the first byte.
    pub(crate) fn new() -> Sign
        ensures { result ≡ sign_start }
    {
        Sign {
            any: false,
            word: false,
            start: 0,
            place: 0,
            first: 0,
            second: 0,
            third: 0,
        }
    }

    /// What the front has of them with one more text.
    pub(crate) fn through(self, text: &[u8]) -> Sign
        ensures { result ≡ fold sign_step self text.now }
    {
        let mut sign = self;
        for byte in text {
            sign = sign.after(*byte);
        }
        sign
    }

    /// What a text has of them.
    #[tactic(auto, unfolding(crate::specs::Signs::sign_of))]
    pub(crate) fn of(text: &[u8]) -> Sign
        ensures { result ≡ sign_of text.now }
    {
        Sign::new().through(text)
    }
}
