//! Events with their ranges from bytes that Python's `marshal.dumps` makes in version 2.

ghost use Rattle.std.specs.Prelude.{◌≡◌, ◌<◌, ◌≤◌, ◌++◌, [], ◌∷◌, IfErr, IfNone, IfOk, IfSome, None, OnOk, OnSome, Some, false, length, map, option_map, true};
ghost use Rattle.std.specs.Str.{is_utf8};
ghost use Rattle.tocmark_json.specs.Json.{pair_view};
ghost use Rattle.tocmark_json.specs.Node.{members_view, view};
ghost use Rattle.tocmark_json.specs.Unmarshal.{IsDumpFault, IsDumped, Lacks, RefusesPlaced, byte, counted, dict, dump_fault, key, list_length, natural, place, placed, placed_json, plain, range, size, text, value};

use crate::fault::{Fault, JsonError, ReadError};
use crate::node::{MAX_DEPTH, Node};
use crate::number::Number;
use crate::reading::event_from_json;
use std::alloc::{AllocError, Global};
use tocmark_event::event::{EventOf, OwnedWords};

/// What is wanted where no value begins.
const NO_VALUE: Fault = Fault::Wanted {
    key: "marshal",
    wanted: "a value, as JSON has it",
};

/// What is wanted where no range begins.
const NO_RANGE: Fault = Fault::Wanted {
    key: "marshal",
    wanted: "where a range begins and ends, or None twice",
};

/// What is wanted after the last event.
const NO_END: Fault = Fault::Wanted {
    key: "marshal",
    wanted: "the end of the bytes",
};

/// The text of bytes, if they are UTF-8.
#[tactic(auto, using(crate::proofs::Unmarshalled::text_is_utf8, crate::proofs::Unmarshalled::text_is_not_utf8))]
fn utf8<'a>(bytes: &'a [u8]) -> Option<&'a str>
    ensures text { IfSome result (λ s. (s.now ≡ bytes.now) × (is_utf8 bytes.now ≡ true)) }
    ensures none { IfNone result (is_utf8 bytes.now ≡ false) }
{
    match std::str::from_utf8(bytes) {
        Ok(text) => Some(text),
        Err(_) => None,
    }
}

/// What is left of the bytes.
#[derive(Drop)]
struct Dumped<'a> {
    rest: &'a [u8],
}

impl<'a> Dumped<'a> {
    fn byte(&mut self) -> Option<u8>
        ensures read { IfSome result (λ b. byte self.old.rest.now ≡ Some (b, self.new.rest.now)) }
        ensures none { IfNone result (byte self.old.rest.now ≡ None) }
        ensures shorter { OnSome result
            (length self.new.rest.now < length self.old.rest.now) }
    {
        match self.rest.split_first() {
            Some((byte, rest)) => {
                self.rest = rest;
                Some(*byte)
            }
            None => None,
        }
    }

    /// A length or a count.
    #[tactic(auto, unfolding(crate::specs::Unmarshal::size))]
    fn size(&mut self) -> Option<u32>
        ensures read { IfSome result (λ n. size self.old.rest.now ≡ Some (n, self.new.rest.now)) }
        ensures none { IfNone result (size self.old.rest.now ≡ None) }
        ensures shorter { OnSome result
            (length self.new.rest.now ≤ length self.old.rest.now) }
    {
        match self.rest.split_first_chunk::<4>() {
            Some((digits, rest)) => {
                self.rest = rest;
                Some(u32::from_le_bytes(*digits))
            }
            None => None,
        }
    }

    #[tactic(auto, unfolding(crate::specs::Unmarshal::text))]
    fn text(&mut self) -> Option<&'a str>
        ensures read { IfSome result (λ s. text self.old.rest.now
            ≡ Some (s.now, self.new.rest.now)) }
        ensures none { IfNone result (text self.old.rest.now ≡ None) }
        ensures shorter { OnSome result
            (length self.new.rest.now ≤ length self.old.rest.now) }
    {
        let length = self.size()? as usize;
        let (bytes, rest) = self.rest.split_at_checked(length)?;
        let text = utf8(bytes)?;
        self.rest = rest;
        Some(text)
    }

    /// A number that isn't negative.
    #[tactic(auto, unfolding(crate::specs::Unmarshal::natural))]
    fn natural(&mut self) -> Option<u32>
        ensures read { IfSome result (λ n. natural self.old.rest.now
            ≡ Some (n, self.new.rest.now)) }
        ensures none { IfNone result (natural self.old.rest.now ≡ None) }
        ensures shorter { OnSome result
            (length self.new.rest.now ≤ length self.old.rest.now) }
    {
        let number = self.size()?;
        if number < 0x8000_0000 {
            Some(number)
        } else {
            None
        }
    }

    /// What is after the letter of a value that has no others inside.
    #[tactic(auto, unfolding(crate::specs::Unmarshal::plain))]
    fn plain(&mut self, letter: u8) -> Option<Node<'a>>
        ensures read { IfSome result (λ node. plain letter self.old.rest.now
            ≡ Some (view node, self.new.rest.now)) }
        ensures none { IfNone result (plain letter self.old.rest.now ≡ None) }
        ensures shorter { OnSome result
            (length self.new.rest.now ≤ length self.old.rest.now) }
    {
        match letter {
            b'N' => Some(Node::Null),
            b'T' => Some(Node::Bool(true)),
            b'F' => Some(Node::Bool(false)),
            b'i' => Some(Node::Number(Number::Unsigned(self.natural()? as u64))),
            b'u' => Some(Node::String(self.text()?)),
            _ => None,
        }
    }

    /// The next key of a dictionary, or `None` at its end.
    #[tactic(auto, unfolding(crate::specs::Unmarshal::key))]
    fn key(&mut self) -> Result<Option<&'a str>, Fault>
        ensures read { IfOk result (λ found. key self.old.rest.now
            ≡ Some (option_map (λ s. s.now) found, self.new.rest.now)) }
        ensures refused { IfErr result (Lacks (key self.old.rest.now)) }
        ensures shorter { OnOk result
            (length self.new.rest.now < length self.old.rest.now) }
    {
        match self.byte() {
            Some(b'0') => Ok(None),
            Some(b'u') => match self.text() {
                Some(text) => Ok(Some(text)),
                None => Err(NO_VALUE),
            },
            _ => Err(NO_VALUE),
        }
    }

    /// A number, or none.
    #[tactic(auto, unfolding(crate::specs::Unmarshal::place))]
    fn place(&mut self) -> Option<Option<usize>>
        ensures read { IfSome result (λ found. place self.old.rest.now
            ≡ Some (found, self.new.rest.now)) }
        ensures none { IfNone result (place self.old.rest.now ≡ None) }
    {
        match self.byte()? {
            b'N' => Some(None),
            b'i' => Some(Some(self.natural()? as usize)),
            _ => None,
        }
    }

    /// Where a range begins and ends, if there is one.
    #[tactic(auto, unfolding(crate::specs::Unmarshal::range))]
    fn range(&mut self) -> Option<Option<(usize, usize)>>
        ensures read { IfSome result (λ found. range self.old.rest.now
            ≡ Some (found, self.new.rest.now)) }
        ensures none { IfNone result (range self.old.rest.now ≡ None) }
    {
        let start = self.place()?;
        let end = self.place()?;
        match (start, end) {
            (None, None) => Some(None),
            (Some(start), Some(end)) => Some(Some((start, end))),
            _ => None,
        }
    }

    /// How many values a list has.
    #[tactic(auto, unfolding(crate::specs::Unmarshal::list_length))]
    fn list_length(&mut self) -> Option<u32>
        ensures read { IfSome result (λ n. list_length self.old.rest.now
            ≡ Some (n, self.new.rest.now)) }
        ensures none { IfNone result (list_length self.old.rest.now ≡ None) }
    {
        match self.byte()? {
            b'[' => self.size(),
            _ => None,
        }
    }
}

/// The next value. Lists and dictionaries may nest so deep.
#[cycle(value)]
fn value<'a>(alloc: Global, dumped: &mut Dumped<'a>, depth: usize) -> Result<Node<'a>, Fault>
    ensures read { IfOk result (λ node. value depth dumped.old.rest.now
        ≡ Some (view node, dumped.new.rest.now)) }
    ensures shorter { OnOk result (length dumped.new.rest.now < length dumped.old.rest.now) }
    ensures refused { IfErr result (Lacks (value depth dumped.old.rest.now)) }
{
    let Some(letter) = dumped.byte() else {
        return Err(NO_VALUE);
    };
    match letter {
        b'[' => {
            if depth == 0 {
                return Err(NO_VALUE);
            }
            Ok(Node::Array(values(alloc, dumped, depth - 1)?))
        }
        b'{' => {
            if depth == 0 {
                return Err(NO_VALUE);
            }
            Ok(Node::Object(members(alloc, dumped, depth - 1)?))
        }
        _ => match dumped.plain(letter) {
            Some(node) => Ok(node),
            None => Err(NO_VALUE),
        },
    }
}

#[cycle(value)]
#[inline(never)]
fn values<'a>(alloc: Global, dumped: &mut Dumped<'a>, depth: usize) -> Result<Vec<Node<'a>>, Fault>
    ensures read { IfOk result (λ found. counted (value depth) dumped.old.rest.now
        ≡ Some (map view found.items, dumped.new.rest.now)) }
    ensures shorter { OnOk result (length dumped.new.rest.now ≤ length dumped.old.rest.now) }
    ensures refused { IfErr result (Lacks (counted (value depth) dumped.old.rest.now)) }
{
    let Some(count) = dumped.size() else {
        return Err(NO_VALUE);
    };
    let count = count as usize;
    let mut found = Vec::new(alloc);
    'values: while found.len() < count {
        let node = value(alloc, dumped, depth)?;
        found.push(node)?;
    }
    Ok(found)
}

#[cycle(value)]
#[inline(never)]
fn members<'a>(
    alloc: Global,
    dumped: &mut Dumped<'a>,
    depth: usize,
) -> Result<Vec<(&'a str, Node<'a>)>, Fault>
    ensures read { IfOk result (λ found. dict (value depth) dumped.old.rest.now
        ≡ Some (members_view found.items, dumped.new.rest.now)) }
    ensures shorter { OnOk result (length dumped.new.rest.now ≤ length dumped.old.rest.now) }
    ensures refused { IfErr result (Lacks (dict (value depth) dumped.old.rest.now)) }
{
    let mut found = Vec::new(alloc);
    'members: while let Some(name) = dumped.key()? {
        let member = value(alloc, dumped, depth)?;
        found.push((name, member))?;
    }
    Ok(found)
}

/// The next event with its range.
fn placed<U: OwnedWords + Drop>(
    alloc: Global,
    dumped: &mut Dumped<'_>,
) -> Result<(EventOf<U>, Option<(usize, usize)>), Fault>
    ensures read { IfOk result (λ pair. placed dumped.old.rest.now
        ≡ Some (placed_json (pair_view U.Words.bytes pair), dumped.new.rest.now)) }
    ensures refused { IfErr result (RefusesPlaced dumped.old.rest.now) }
{
    let Some(range) = dumped.range() else {
        return Err(NO_RANGE);
    };
    let node = value(alloc, dumped, MAX_DEPTH)?;
    let read = event_from_json(alloc, &node);
    drop(node);
    match read {
        Ok(event) => Ok((event, range)),
        Err(fault) => Err(fault),
    }
}

fn add<T: Drop>(list: &mut Vec<T>, item: T) -> Result<(), AllocError>
    ensures { OnOk result (list.new.items ≡ list.old.items ++ item ∷ []) }
{
    list.push(item)?;
    Ok(())
}

/// The error of an element of the list.
fn fault_at(index: usize, fault: Fault) -> ReadError
    ensures { result ≡ dump_fault index fault }
{
    match fault {
        Fault::Wanted { key, wanted } => {
            ReadError::NotEvents(JsonError::Event { index, key, wanted })
        }
        Fault::OutOfMemory => ReadError::OutOfMemory,
    }
}

/// Reads events with their ranges from the bytes that Python's `marshal.dumps(.., 2)` makes of a list. It has three values
/// for each event: where its range begins, where it ends, and the event as `json.loads` gives it. Without a range, the
/// first two are `None`.
///
/// It fails if the bytes aren't those of such a list (`NotEvents`, with the number of events that come before), or if
/// memory runs out. It is never `NotJson`.
///
/// ```
/// let pairs: Vec<(Event<'static>, Option<(usize, usize)>)> =
///     pairs_from_marshal(alloc, b"[\x03\0\0\0NNu\x04\0\0\0Rule")?;
/// assert_eq!(rt; pairs.len(), 1);
/// ```
pub fn pairs_from_marshal<U: OwnedWords + Drop>(
    alloc: Global,
    bytes: &[u8],
) -> Result<Vec<(EventOf<U>, Option<(usize, usize)>)>, ReadError>
    ensures pairs { IfOk result (λ pairs.
        IsDumped bytes.now (map (pair_view U.Words.bytes) pairs.items)) }
    ensures fault { IfErr result (IsDumpFault bytes.now) }
{
    let mut dumped = Dumped { rest: bytes };
    let Some(values) = dumped.list_length() else {
        return Err(ReadError::NotEvents(JsonError::NotAnArray));
    };
    if values % 3 != 0 {
        return Err(ReadError::NotEvents(JsonError::NotAnArray));
    }
    let count = (values / 3) as usize;
    let mut pairs = Vec::new(alloc);
    while pairs.len() < count {
        match placed(alloc, &mut dumped) {
            Ok(pair) => add(&mut pairs, pair)?,
            Err(fault) => return Err(fault_at(pairs.len(), fault)),
        }
    }
    if !dumped.rest.is_empty() {
        return Err(fault_at(pairs.len(), NO_END));
    }
    Ok(pairs)
}
