//! Where an address ends: punctuation after it is none of it.

ghost use Rattle.std.specs.Prelude.{◌≡◌, if◌then◌else◌, ◌==◌};
ghost use Rattle.tocmark_bare_links.specs.Addresses.{counted, is_trailing, kept_after, kept_length, name_after, trail_step};

/// What is known of the front of a word.
#[derive(Clone, Copy)]
pub struct Trail {
    /// How many bytes it has.
    pub length: usize,
    /// How many of them are an address, if no more follow.
    pub kept: usize,
    /// How many `(` it has.
    pub opened: usize,
    /// How many `)` it has.
    pub closed: usize,
    /// How many bytes were an address before the last `&`.
    pub before: usize,
    /// How many bytes at its end are an `&` and letters; 0 if there is no such `&`.
    pub name: usize,
}

/// Whether a byte is punctuation that ends no address.
#[tactic(auto, unfolding(crate::specs::Addresses::is_trailing))]
fn is_trailing(byte: u8) -> bool
    ensures { result ≡ is_trailing byte }
{
    byte == b'!'
        || byte == b'"'
        || byte == b'\''
        || byte == b'*'
        || byte == b','
        || byte == b'.'
        || byte == b':'
        || byte == b'?'
        || byte == b'_'
        || byte == b'~'
}

/// One more, if a byte is the one that is counted.
#[tactic(auto, unfolding(crate::specs::Addresses::counted))]
fn counted(one: u8, byte: u8, count: usize) -> usize
    ensures { result ≡ counted one byte count }
{
    if byte == one {
        count.saturating_add(1)
    } else {
        count
    }
}

/// The length of an `&` and letters after one byte more.
#[tactic(auto, unfolding(crate::specs::Addresses::name_after))]
fn name_after(length: usize, byte: u8) -> usize
    ensures { result ≡ name_after length byte }
{
    if byte == b'&' {
        1
    } else if byte.is_ascii_alphabetic() && length != 0 {
        length.saturating_add(1)
    } else {
        0
    }
}

impl Trail {
    /// How many bytes are an address after one byte more.
    #[tactic(auto, unfolding(crate::specs::Addresses::kept_after))]
    fn kept_after(self, byte: u8) -> usize
        ensures { result ≡ kept_after self byte }
    {
        if is_trailing(byte) {
            self.kept
        } else if byte == b')' {
            if self.closed < self.opened {
                self.length.saturating_add(1)
            } else {
                self.kept
            }
        } else if byte == b';' {
            if 2 <= self.name {
                self.before
            } else {
                self.kept
            }
        } else {
            self.length.saturating_add(1)
        }
    }

    /// One byte further.
    #[tactic(auto, unfolding(crate::specs::Addresses::trail_step))]
    fn after(self, byte: u8) -> Trail
        ensures { result ≡ trail_step self byte }
    {
        Trail {
            length: self.length.saturating_add(1),
            kept: self.kept_after(byte),
            opened: counted(b'(', byte, self.opened),
            closed: counted(b')', byte, self.closed),
            before: if byte == b'&' { self.kept } else { self.before },
            name: name_after(self.name, byte),
        }
    }
}

/// How many bytes of a word are an address, if it begins with one.
#[tactic(auto, unfolding(crate::specs::Addresses::kept_length))]
pub(crate) fn kept_length(word: &[u8]) -> usize
    ensures { result ≡ kept_length word.now }
{
    let mut trail = Trail {
        length: 0,
        kept: 0,
        opened: 0,
        closed: 0,
        before: 0,
        name: 0,
    };
    for byte in word {
        trail = trail.after(*byte);
    }
    trail.kept
}
