//! The definitions of links in a JSON text.

ghost use Rattle.std.specs.Prelude.{◌≡◌, ◌+◌, IfErr, IfOk, None, Some, codes, map};
ghost use Rattle.serde_json.specs.Find.{get};
ghost use Rattle.serde_json.specs.Read.{read};
ghost use Rattle.serde_json.specs.View.{view};
ghost use Rattle.tocmark_definitions.specs.Redefining.{AreGivenBy, HasNoDefinition, IsCause, IsFaultOf, IsNoDefinition, number_at, said_by, saying_of, text_at};

use crate::fault::Fault;
use serde_json::Value;
use std::alloc::Global;
use tocmark_redefine::GivenDefinition;

/// The text that a value has at a key.
fn text_at<'v>(value: &'v Value, index: usize, key: &'static str) -> Result<&'v str, Fault>
    ensures text { IfOk result (λ text. text_at key.now (view value.now) ≡ Some text.now) }
    ensures fault { IfErr result (IsFaultOf (text_at key.now (view value.now) ≡ None)) }
{
    match value.get(key).and_then(Value::as_str) {
        Some(text) => Ok(text),
        None => Err(Fault::Wanted {
            index,
            key,
            wanted: "a string",
        }),
    }
}

/// The range that a value has.
fn range_in<'v>(value: &'v Value, index: usize) -> Result<&'v Value, Fault>
    ensures range { IfOk result (λ range.
        get (codes "range") (view value.now) ≡ Some (view range.now)) }
    ensures fault { IfErr result (IsFaultOf (get (codes "range") (view value.now) ≡ None)) }
{
    match value.get("range") {
        Some(range) => Ok(range),
        None => Err(Fault::Wanted {
            index,
            key: "range",
            wanted: "an object with the keys start and end",
        }),
    }
}

/// An end of a range, in what follows so many bytes of the whole text.
fn end_in(range: &Value, index: usize, key: &'static str, more: usize) -> Result<usize, Fault>
    ensures place { IfOk result (λ place.
        number_at key.now (view range.now) ≡ Some (place + more)) }
    ensures fault { IfErr result (IsFaultOf (number_at key.now (view range.now) ≡ None)) }
{
    let Some(number) = range.get(key).and_then(Value::as_u64) else {
        return Err(Fault::Wanted {
            index,
            key,
            wanted: "a whole number from 0 to 18446744073709551615",
        });
    };
    match (number as usize).checked_sub(more) {
        Some(place) => Ok(place),
        None => Err(Fault::NoDefinition(index)),
    }
}

/// The definition that an element of a list is, in what follows so many bytes of the whole text.
#[tactic(auto, using(crate::proofs::Missing::label_missing, crate::proofs::Missing::destination_missing, crate::proofs::Missing::title_missing, crate::proofs::Missing::range_missing, crate::proofs::Missing::start_missing, crate::proofs::Missing::end_missing))]
fn definition_in(
    alloc: Global,
    value: &Value,
    index: usize,
    more: usize,
) -> Result<GivenDefinition, Fault>
    ensures given { IfOk result (λ given. said_by (view value.now) ≡ saying_of more given) }
    ensures fault { IfErr result (IsFaultOf (IsNoDefinition (view value.now))) }
{
    let label = text_at(value, index, "label")?;
    let destination = text_at(value, index, "destination")?;
    let title = text_at(value, index, "title")?;
    let range = range_in(value, index)?;
    let start = end_in(range, index, "start", more)?;
    let end = end_in(range, index, "end", more)?;
    Ok(GivenDefinition {
        label: String::from_str(alloc, label)?,
        range: (start, end),
        destination: String::from_str(alloc, destination)?,
        title: String::from_str(alloc, title)?,
    })
}

/// The definitions that the elements of a list are.
fn definitions_of(
    alloc: Global,
    values: &[Value],
    more: usize,
) -> Result<Vec<GivenDefinition>, Fault>
    ensures given { IfOk result (λ all.
        map said_by (map view values.now) ≡ map (saying_of more) all.items) }
    ensures fault { IfErr result (IsFaultOf (HasNoDefinition (map view values.now))) }
{
    let mut all = Vec::with_capacity(alloc, values.len())?;
    for value in values {
        let index = all.len();
        all.push(definition_in(alloc, value, index, more)?)?;
    }
    Ok(all)
}

/// The value of a JSON text.
fn value_in(alloc: Global, json: &str) -> Result<Value, Fault>
    ensures value { IfOk result (λ value. read json.now ≡ Some (view value)) }
    ensures cause { IfErr result (IsCause json.now) }
{
    match Value::from_str(alloc, json) {
        Ok(value) => Ok(value),
        Err(error) if error.is_memory() => Err(Fault::OutOfMemory),
        Err(error) => Err(Fault::NotJson(error)),
    }
}

/// The definitions that a JSON text gives, in what follows so many bytes of the whole text.
pub(crate) fn given_in(
    alloc: Global,
    json: &str,
    more: usize,
) -> Result<Vec<GivenDefinition>, Fault>
    ensures given { IfOk result (λ all. AreGivenBy more json.now all.items) }
    ensures cause { IfErr result (IsCause json.now) }
{
    let value = value_in(alloc, json)?;
    match value.as_array() {
        Some(values) => definitions_of(alloc, values, more),
        None => Err(Fault::NotAList),
    }
}
