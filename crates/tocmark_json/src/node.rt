//! JSON values that borrow their texts.

ghost use Rattle.std.specs.Prelude.{◌≡◌, ◌<◌, Err, IfErr, IfOk, None, OnOk, Some, length};
ghost use Rattle.json.specs.Json.{items, members, value};
ghost use Rattle.serde_json.specs.Data.{no_members};
ghost use Rattle.serde_json.specs.Read.{converted, of_items, of_json, of_members, read as read_text};
ghost use Rattle.tocmark_json.specs.Node.{items_view, members_view, view};
ghost use Rattle.tocmark_json.specs.declared.fault.TextError.TheVariants.{NotJson as not_json};

use crate::fault::TextError;
use crate::number::{Number, number_in_text};
use json::{Reader, Scratch, Token};
use std::alloc::Global;

/// How deep arrays and objects may nest.
pub(crate) const MAX_DEPTH: usize = 127;

/// A JSON value. Its texts lie in the JSON text, or in the scratch if they have escapes there.
#[derive(Drop)]
pub enum Node<'a> {
    /// `null`.
    Null,
    /// `true` or `false`.
    Bool(bool),
    /// A number.
    Number(Number),
    /// A string.
    String(&'a str),
    /// An array.
    Array(Vec<Node<'a>>),
    /// An object: its members in the order of the text. Of a key that comes twice, the last value counts.
    Object(Vec<(&'a str, Node<'a>)>),
}

impl<'a> Node<'a> {
    /// Reads the value of a JSON text.
    ///
    /// It fails if the text isn't JSON, has a number out of range or is nested deeper than 127 (`NotJson`), or if memory
    /// runs out.
    pub fn from_str(
        alloc: Global,
        text: &'a str,
        scratch: &'a mut Scratch,
    ) -> Result<Node<'a>, TextError>
        ensures value { IfOk result (λ node. read_text text.now ≡ Some (view node)) }
        ensures refused { result ≡ Err not_json → read_text text.now ≡ None }
    {
        let mut reader = Reader::new(text, scratch)?;
        let node = read(alloc, &mut reader, MAX_DEPTH)?;
        if reader.next().is_some() {
            return Err(TextError::NotJson);
        }
        Ok(node)
    }
}

/// The next value of the reader. Arrays and objects may nest so deep.
#[cycle(read)]
#[inline(always)]
pub(crate) fn read<'a>(
    alloc: Global,
    reader: &mut Reader<'a>,
    depth: usize,
) -> Result<Node<'a>, TextError>
    ensures ok { IfOk result (λ node. converted of_json (value depth reader.old)
        ≡ Some (view node, reader.new)) }
    ensures shorter { OnOk result (length reader.new < length reader.old) }
    ensures err { result ≡ Err not_json → converted of_json (value depth reader.old) ≡ None }
{
    let token = reader.next().ok_or(TextError::NotJson)?;
    match token {
        Token::String(text) => Ok(Node::String(text)),
        Token::Number(text) => match number_in_text(text) {
            Some(number) => Ok(Node::Number(number)),
            None => Err(TextError::NotJson),
        },
        Token::Bool(b) => Ok(Node::Bool(b)),
        Token::Null => Ok(Node::Null),
        Token::EndObject | Token::EndArray | Token::Key(_) | Token::Bad => Err(TextError::NotJson),
        Token::BeginArray => {
            if depth == 0 {
                return Err(TextError::NotJson);
            }
            Ok(Node::Array(read_items(alloc, reader, depth - 1)?))
        }
        Token::BeginObject => {
            if depth == 0 {
                return Err(TextError::NotJson);
            }
            Ok(Node::Object(read_members(alloc, reader, depth - 1)?))
        }
    }
}

#[cycle(read)]
#[inline(never)]
fn read_items<'a>(
    alloc: Global,
    reader: &mut Reader<'a>,
    depth: usize,
) -> Result<Vec<Node<'a>>, TextError>
    ensures ok { IfOk result
        (λ found. converted of_items (items (value depth) (length reader.old) reader.old)
        ≡ Some (items_view found.items, reader.new)) }
    ensures shorter { OnOk result (length reader.new < length reader.old) }
    ensures err { result ≡ Err not_json
        → converted of_items (items (value depth) (length reader.old) reader.old) ≡ None }
{
    let mut found = Vec::new(alloc);
    'items: while !reader.take_end_array() {
        let item = read(alloc, reader, depth)?;
        found.push(item)?;
    }
    Ok(found)
}

#[cycle(read)]
#[inline(never)]
fn read_members<'a>(
    alloc: Global,
    reader: &mut Reader<'a>,
    depth: usize,
) -> Result<Vec<(&'a str, Node<'a>)>, TextError>
    ensures ok { IfOk result
        (λ found. converted (λ ms. of_members ms no_members)
        (members (value depth) (length reader.old) reader.old)
        ≡ Some (members_view found.items, reader.new)) }
    ensures shorter { OnOk result (length reader.new < length reader.old) }
    ensures err { result ≡ Err not_json
        → converted (λ ms. of_members ms no_members)
        (members (value depth) (length reader.old) reader.old) ≡ None }
{
    let mut found = Vec::new(alloc);
    'members: while let Some(name) = reader.next_key()? {
        let member = read(alloc, reader, depth)?;
        found.push((name, member))?;
    }
    Ok(found)
}
