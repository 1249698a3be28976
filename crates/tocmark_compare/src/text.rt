//! Whether two texts, or two lists of what is in a tag, are the same.

ghost use Rattle.std.specs.Prelude.{◌≡◌, ◌∷◌, ◌++◌, length, map, flat_map, bytes_eq};
ghost use Rattle.std.specs.Option.{option_map};
ghost use Rattle.std.specs.Cmp.Lexicographic.{pointwise};
ghost use Rattle.tocmark_event.specs.View.{attribute_view};
ghost use Rattle.tocmark_spelling.specs.SameEvents.{number, optional, alignment_code, attribute_key};

use crate::number::alignment_number;
use tocmark_event::event::{Alignment, Words};

pub(crate) fn same_text<T: Words, U: Words>(a: &T, b: &U) -> bool
    ensures { result ≡ bytes_eq (T.bytes a.now) (U.bytes b.now) }
{
    a.words() == b.words()
}

pub(crate) fn same_optional<T: Words, U: Words>(a: &Option<T>, b: &Option<U>) -> bool
    ensures { result
        ≡ bytes_eq (optional (option_map T.bytes a.now)) (optional (option_map U.bytes b.now)) }
{
    match (a, b) {
        (None, None) => true,
        (Some(a), Some(b)) => same_text(a, b),
        _ => false,
    }
}

fn same_texts<T: Words, U: Words>(a: &[T], b: &[U]) -> bool
    ensures { result ≡ pointwise bytes_eq (map T.bytes a.now) (map U.bytes b.now) }
{
    if a.len() != b.len() {
        return false;
    }
    for i in 0..a.len() {
        if !same_text(&a[i], &b[i]) {
            return false;
        }
    }
    true
}

fn same_attribute<T: Words, U: Words>(a: &(T, Option<T>), b: &(U, Option<U>)) -> bool
    ensures { result
        ≡ pointwise bytes_eq (attribute_key (attribute_view T.bytes a.now))
        (attribute_key (attribute_view U.bytes b.now)) }
{
    same_text(&a.0, &b.0) && same_optional(&a.1, &b.1)
}

fn same_attributes<T: Words, U: Words>(a: &[(T, Option<T>)], b: &[(U, Option<U>)]) -> bool
    ensures { result
        ≡ pointwise bytes_eq (flat_map attribute_key (map (attribute_view T.bytes) a.now))
        (flat_map attribute_key (map (attribute_view U.bytes) b.now)) }
{
    if a.len() != b.len() {
        return false;
    }
    for i in 0..a.len() {
        if !same_attribute(&a[i], &b[i]) {
            return false;
        }
    }
    true
}

pub(crate) fn same_alignments(a: &[Alignment], b: &[Alignment]) -> bool
    ensures { result ≡ bytes_eq (map alignment_code a.now) (map alignment_code b.now) }
{
    if a.len() != b.len() {
        return false;
    }
    for i in 0..a.len() {
        if alignment_number(a[i]) != alignment_number(b[i]) {
            return false;
        }
    }
    true
}

/// Whether the classes and attributes of two headings are the same.
pub(crate) fn same_names<T: Words, U: Words>(
    classes: &[T],
    attrs: &[(T, Option<T>)],
    other_classes: &[U],
    other_attrs: &[(U, Option<U>)],
) -> bool
    ensures { result
        ≡ pointwise bytes_eq
        (number (length (map T.bytes classes.now)) ∷ map T.bytes classes.now ++ flat_map
        attribute_key (map (attribute_view T.bytes) attrs.now))
        (number (length (map U.bytes other_classes.now))
        ∷ map U.bytes other_classes.now ++ flat_map attribute_key
        (map (attribute_view U.bytes) other_attrs.now)) }
{
    same_texts(classes, other_classes) && same_attributes(attrs, other_attrs)
}
