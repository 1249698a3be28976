//! What is in a value: the members of an object, the items of an array.

ghost use Rattle.std.specs.Prelude.{◌≡◌, [], ◌∷◌, IfNone, IfSome, IsFalse, IsTrue, List, None, Some, ℕ};
ghost use Rattle.serde_json.specs.Data.{Data, Members, member, no_members, null, number, object, string, unsigned};
ghost use Rattle.serde_json.specs.Find.{get_member};
ghost use Rattle.tocmark_json.specs.Json.{both, size_json, tagged};
ghost use Rattle.tocmark_json.specs.Node.{AreAscending, IsOther, members_view, view};
ghost use Rattle.tocmark_json.specs.Place.{IsNoArray, IsNoObject, IsNoneOf};

use crate::node::Node;
use crate::number::Number;

/// Whether a value is `null`.
pub(crate) fn is_null(value: &Node<'_>) -> bool
    ensures yes { IsTrue result → view value.now ≡ null }
    ensures no { IsFalse result → view value.now ≡ null → ⊥ }
{
    match value {
        Node::Null => true,
        _ => false,
    }
}

/// The text of a value that is a string.
pub(crate) fn text_in<'a>(value: &Node<'a>) -> Option<&'a str>
    ensures found { IfSome result (λ text. view value.now ≡ string text.now) }
    ensures none { IfNone result (IsNoneOf string (view value.now)) }
{
    match value {
        Node::String(text) => Some(*text),
        _ => None,
    }
}

/// The members of a value that is an object, in the order of its text.
pub(crate) fn members_in<'n, 'a>(value: &'n Node<'a>) -> Option<&'n [(&'a str, Node<'a>)]>
    ensures found { IfSome result (λ members. view value.now ≡ object (members_view members.now)) }
    ensures none { IfNone result ((ms : Members) → view value.now ≡ object ms → ⊥) }
{
    match value {
        Node::Object(members) => Some(members.as_slice()),
        _ => None,
    }
}

/// The value of the last member of this name.
pub(crate) fn value_at<'n, 'a>(
    members: &'n [(&'a str, Node<'a>)],
    name: &str,
) -> Option<&'n Node<'a>>
    ensures found { IfSome result (λ value.
        get_member name.now (members_view members.now) ≡ Some (view value.now)) }
    ensures none { IfNone result (get_member name.now (members_view members.now) ≡ None) }
{
    let mut found = None;
    for member in members {
        if member.0 == name {
            found = Some(&member.1);
        }
    }
    found
}

/// The names that the members of an object may have.
#[derive(Clone, Copy)]
pub(crate) struct Keys<'k> {
    /// The first one.
    pub(crate) first: &'k str,
    /// The second one.
    pub(crate) second: &'k str,
    /// The third one.
    pub(crate) third: &'k str,
    /// The fourth one.
    pub(crate) fourth: &'k str,
    /// The fifth one.
    pub(crate) fifth: &'k str,
    /// The sixth one.
    pub(crate) sixth: &'k str,
    /// The seventh one.
    pub(crate) seventh: &'k str,
    /// The last one.
    pub(crate) eighth: &'k str,
}

fn has_key(keys: Keys<'_>, name: &str) -> bool
    ensures yes { IsTrue result → IsOther keys.entry name.now → ⊥ }
    ensures no { IsFalse result → IsOther keys.entry name.now }
{
    name == keys.first
        || name == keys.second
        || name == keys.third
        || name == keys.fourth
        || name == keys.fifth
        || name == keys.sixth
        || name == keys.seventh
        || name == keys.eighth
}

/// Whether each member has one of these names.
pub(crate) fn has_only(members: &[(&str, Node<'_>)], keys: Keys<'_>) -> bool
    ensures yes { IsTrue result → (name : List ℕ) → IsOther keys.entry name
        → get_member name (members_view members.now) ≡ None }
    ensures no { IsFalse result → (name : List ℕ) × IsOther keys.entry name × (d : Data)
        × (get_member name (members_view members.now) ≡ Some d) }
{
    for member in members {
        if !has_key(keys, member.0) {
            return false;
        }
    }
    true
}

/// The name and the value of an object that has one member.
pub(crate) fn only_member<'n, 'a>(value: &'n Node<'a>) -> Option<(&'a str, &'n Node<'a>)>
    ensures found { IfSome result (λ found. view value.now
        ≡ tagged found.0.now (view found.1.now)) }
    ensures none { IfNone result (IsNoObject 1 (view value.now)) }
{
    let members = members_in(value)?;
    let name = members.first()?.0;
    let keys = Keys {
        first: name,
        second: name,
        third: name,
        fourth: name,
        fifth: name,
        sixth: name,
        seventh: name,
        eighth: name,
    };
    if !has_only(members, keys) {
        return None;
    }
    let content = value_at(members, name)?;
    Some((name, content))
}

/// The value of a member, if it has the wanted name.
pub(crate) fn value_named<'n, 'a>(
    name: &str,
    value: &'n Node<'a>,
    wanted: &'static str,
) -> Option<&'n Node<'a>>
    ensures found { IfSome result (λ found. (name.now ≡ wanted.now)
        × (view found.now ≡ view value.now)) }
    ensures none { IfNone result (name.now ≡ wanted.now → ⊥) }
{
    if name == wanted { Some(value) } else { None }
}

/// The value of an object that has one member, of this name.
pub(crate) fn one_named<'n, 'a>(value: &'n Node<'a>, name: &'static str) -> Option<&'n Node<'a>>
    ensures found { IfSome result (λ found. view value.now ≡ tagged name.now (view found.now)) }
    ensures none { IfNone result (IsNoneOf (tagged name.now) (view value.now)) }
{
    let found = only_member(value)?;
    value_named(found.0, found.1, name)
}

/// The values of an object that has two members, of these names in their order.
pub(crate) fn two_named<'n, 'a>(
    value: &'n Node<'a>,
    first: &'static str,
    second: &'static str,
) -> Option<(&'n Node<'a>, &'n Node<'a>)>
    requires { AreAscending (first.now ∷ second.now ∷ []) }
    ensures found { IfSome result (λ found. view value.now
        ≡ object (member first.now (view found.0.now)
        (member second.now (view found.1.now) no_members))) }
    ensures none { IfNone result ((a b : Data) → view value.now
        ≡ object (member first.now a (member second.now b no_members)) → ⊥) }
{
    let members = members_in(value)?;
    let keys = Keys {
        first,
        second,
        third: second,
        fourth: second,
        fifth: second,
        sixth: second,
        seventh: second,
        eighth: second,
    };
    if !has_only(members, keys) {
        return None;
    }
    let first = value_at(members, first)?;
    let second = value_at(members, second)?;
    Some((first, second))
}

/// The values of four members of an object, in the order of their names.
#[derive(Clone, Copy)]
pub(crate) struct FourValues<'n, 'a> {
    /// The first one's value.
    pub(crate) first: &'n Node<'a>,
    /// The second one's value.
    pub(crate) second: &'n Node<'a>,
    /// The third one's value.
    pub(crate) third: &'n Node<'a>,
    /// The last one's value.
    pub(crate) fourth: &'n Node<'a>,
}

/// The values of an object that has four members, of these names in their order.
pub(crate) fn four_named<'n, 'a>(
    value: &'n Node<'a>,
    first: &'static str,
    second: &'static str,
    third: &'static str,
    fourth: &'static str,
) -> Option<FourValues<'n, 'a>>
    requires { AreAscending (first.now ∷ second.now ∷ third.now ∷ fourth.now ∷ []) }
    ensures found { IfSome result (λ found. view value.now
        ≡ object (member first.now (view found.first.now)
        (member second.now (view found.second.now)
        (member third.now (view found.third.now)
        (member fourth.now (view found.fourth.now) no_members))))) }
    ensures none { IfNone result ((a b c d : Data) → view value.now
        ≡ object (member first.now a (member second.now b
        (member third.now c (member fourth.now d no_members)))) → ⊥) }
{
    let members = members_in(value)?;
    let keys = Keys {
        first,
        second,
        third,
        fourth,
        fifth: fourth,
        sixth: fourth,
        seventh: fourth,
        eighth: fourth,
    };
    if !has_only(members, keys) {
        return None;
    }
    let first = value_at(members, first)?;
    let second = value_at(members, second)?;
    let third = value_at(members, third)?;
    let fourth = value_at(members, fourth)?;
    Some(FourValues {
        first,
        second,
        third,
        fourth,
    })
}

/// The items of an array that has two.
pub(crate) fn two_items<'n, 'a>(value: &'n Node<'a>) -> Option<(&'n Node<'a>, &'n Node<'a>)>
    ensures found { IfSome result (λ found. view value.now
        ≡ both (view found.0.now) (view found.1.now)) }
    ensures none { IfNone result (IsNoArray 2 (view value.now)) }
{
    let Node::Array(items) = value else {
        return None;
    };
    let mut rest = items.iter();
    let first = rest.next()?;
    let second = rest.next()?;
    if rest.next().is_some() {
        return None;
    }
    Some((first, second))
}

/// The number of a value that is a whole number from 0 to 2^64 - 1.
pub(crate) fn number_in(value: &Node<'_>) -> Option<u64>
    ensures found { IfSome result (λ n. view value.now ≡ number (unsigned n)) }
    ensures none { IfNone result (IsNoneOf size_json (view value.now)) }
{
    match value {
        Node::Number(Number::Unsigned(number)) => Some(*number),
        _ => None,
    }
}
