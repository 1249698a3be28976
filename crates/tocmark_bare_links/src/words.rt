//! The words of a line, and where the address of a word is.

ghost use Rattle.std.specs.Prelude.{◌≡◌, is_none};
ghost use Rattle.tocmark_bare_links.specs.Lines.{brackets_step, is_lead, is_separator, is_within_brackets, lead_length, may_begin, mail_spot, spot_from, spot_of, words_start, words_step};

use crate::address::{Address, Kind, has_scheme, is_sign, mail_address, web_address};
use tocmark_read_scan::basic::{bytes_between, rest};

/// How many brackets are open after the front of a text.
#[derive(Clone, Copy)]
pub struct Brackets {
    /// How many `[` have no `]`.
    pub opened: usize,
    /// Whether a backslash escapes the next byte.
    pub escaped: bool,
}

/// The words of the front of a line.
#[derive(Clone, Copy)]
pub struct Words {
    /// Where the front ends.
    pub place: usize,
    /// Where its last word begins.
    pub start: usize,
    /// Whether an address may begin there.
    pub opens: bool,
    /// Whether an address may begin where the front ends.
    pub leads: bool,
    /// Which brackets are open.
    pub brackets: Brackets,
    /// Where the first web address of the last word may be.
    pub found: Option<usize>,
    /// Where the last link ends.
    pub linked: usize,
}

/// An address in a line.
#[derive(Clone, Copy)]
pub struct Spot {
    pub kind: Kind,
    pub start: usize,
    pub end: usize,
}

/// Whether a byte ends words.
#[tactic(auto, unfolding(crate::specs::Lines::is_separator))]
pub(crate) fn is_separator(byte: u8) -> bool
    ensures { result ≡ is_separator byte }
{
    byte == b' ' || byte == b'<' || (9 <= byte && byte <= 13)
}

/// Whether a byte may come before the address of a word.
#[tactic(auto, unfolding(crate::specs::Lines::is_lead))]
fn is_lead(byte: u8) -> bool
    ensures { result ≡ is_lead byte }
{
    byte == b'(' || byte == b'*' || byte == b'~'
}

/// How many of them a word begins with.
#[tactic(auto, unfolding(crate::specs::Lines::lead_length))]
fn lead_length(word: &[u8]) -> usize
    ensures { result ≡ lead_length word.now }
{
    word.iter().take_while(|byte| is_lead(**byte)).count()
}

impl Brackets {
    /// One byte further: one more `[` is open, or one less, unless a backslash escapes it.
    #[tactic(auto, unfolding(crate::specs::Lines::brackets_step))]
    pub(crate) fn after(self, byte: u8) -> Brackets
        ensures { result ≡ brackets_step self byte }
    {
        let opened = if self.escaped {
            self.opened
        } else if byte == b'[' {
            self.opened.saturating_add(1)
        } else if byte == b']' {
            self.opened.saturating_sub(1)
        } else {
            self.opened
        };
        Brackets {
            opened,
            escaped: !self.escaped && byte == b'\\',
        }
    }
}

/// Where an address is.
fn spot_from(start: usize, address: Option<Address>) -> Option<Spot>
    ensures { result ≡ spot_from start address }
{
    match address {
        Some(address) => Some(Spot {
            kind: address.kind,
            start,
            end: start.saturating_add(address.length),
        }),
        None => None,
    }
}

/// Where the mail address of a word is, which begins at a place.
#[tactic(auto, unfolding(crate::specs::Lines::mail_spot))]
fn mail_spot(opens: bool, start: usize, word: &[u8]) -> Option<Spot>
    ensures { result ≡ mail_spot opens start word.now }
{
    if !opens {
        return None;
    }
    let lead = lead_length(word);
    spot_from(start.saturating_add(lead), mail_address(rest(word, lead)))
}

impl Words {
    /// Before the first byte of a line.
    pub(crate) fn new(opens: bool, brackets: Brackets) -> Words
        ensures { result ≡ words_start opens brackets }
    {
        Words {
            place: 0,
            start: 0,
            opens,
            leads: opens,
            brackets,
            found: None,
            linked: 0,
        }
    }

    /// Whether the first web address of the last word may be here.
    #[tactic(auto, unfolding(crate::specs::Lines::may_begin))]
    fn may_begin(self, text: &[u8]) -> bool
        ensures { result ≡ may_begin text.now self }
    {
        let is_open = self.found.is_none() && self.leads && self.brackets.opened == 0;
        is_open && has_scheme(text, self.place)
    }

    /// Whether programs look for an address here, and make no link of it, because a bracket is open.
    #[tactic(auto, unfolding(crate::specs::Lines::is_within_brackets))]
    pub(crate) fn is_within_brackets(self, text: &[u8]) -> bool
        ensures { result ≡ is_within_brackets text.now self }
    {
        self.brackets.opened != 0 && self.found.is_none() && is_sign(text, self.place)
    }

    /// One byte further.
    #[tactic(auto, unfolding(crate::specs::Lines::words_step))]
    pub(crate) fn after(self, text: &[u8], byte: u8) -> Words
        ensures { result ≡ words_step text.now self byte }
    {
        let place = self.place.saturating_add(1);
        let brackets = self.brackets.after(byte);
        if is_separator(byte) {
            Words {
                place,
                start: place,
                opens: byte != b'<',
                leads: byte != b'<',
                brackets,
                found: None,
                linked: self.linked,
            }
        } else {
            Words {
                place,
                start: self.start,
                opens: self.opens,
                leads: is_lead(byte),
                brackets,
                found: if self.may_begin(text) {
                    Some(self.place)
                } else {
                    self.found
                },
                linked: self.linked,
            }
        }
    }

    /// Where the address of the last word is.
    #[tactic(auto, unfolding(crate::specs::Lines::spot_of))]
    pub(crate) fn spot(self, text: &[u8]) -> Option<Spot>
        ensures { result ≡ spot_of text.now self }
    {
        match self.found {
            Some(start) => spot_from(start, web_address(bytes_between(text, start, self.place))),
            None => {
                let word = bytes_between(text, self.start, self.place);
                mail_spot(self.opens, self.start, word)
            }
        }
    }
}
