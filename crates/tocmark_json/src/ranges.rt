//! Ranges from their JSON value, with their details or without.

ghost use Rattle.std.specs.Prelude.{◌≡◌, IfErr, IfNone, IfOk, IfSome, codes};
ghost use Rattle.serde_json.specs.Data.{member, no_members, object};
ghost use Rattle.tocmark_json.specs.Json.{full_place_json, location_json, place_json, range_json, size_json, target_place_json};
ghost use Rattle.tocmark_json.specs.Node.{targeted_view, view};
ghost use Rattle.tocmark_json.specs.Place.{IsNoneOf, Refuses};

use crate::fault::Fault;
use crate::node::Node;
use crate::parts::{Keys, has_only, is_null, members_in, number_in, two_named, value_at};
use crate::positions::{Details, Position, Span};

const A_RANGE: &str =
    "null, or an object with the keys start and end, alone or with lines and columns";

const A_NUMBER: &str = "a whole number from 0 to 18446744073709551615";

fn no_range() -> Fault {
    Fault::Wanted {
        key: "range",
        wanted: A_RANGE,
    }
}

/// The range of an event, if it has one, with its details, if it has them.
#[derive(Clone, Copy)]
pub struct Location {
    pub range: Option<(usize, usize)>,
    pub details: Option<Details>,
}

fn place_in(value: &Node<'_>, key: &'static str) -> Result<usize, Fault>
    ensures read { IfOk result (λ place. view value.now ≡ size_json place) }
    ensures refused { IfErr result (Refuses size_json (view value.now)) }
{
    let Some(number) = number_in(value) else {
        return Err(Fault::Wanted {
            key,
            wanted: A_NUMBER,
        });
    };
    match usize::try_from(number) {
        Ok(place) => Ok(place),
        Err(_) => Err(Fault::Wanted {
            key,
            wanted: A_NUMBER,
        }),
    }
}

fn plain_from(start: &Node<'_>, end: &Node<'_>) -> Result<Location, Fault>
    ensures read { IfOk result (λ location. object (member (codes "end") (view end.now)
        (member (codes "start") (view start.now) no_members))
        ≡ location_json location.range location.details) }
    ensures refused { IfErr result (Refuses range_json (object
        (member (codes "end") (view end.now)
        (member (codes "start") (view start.now) no_members)))) }
{
    let start = place_in(start, "start")?;
    let end = place_in(end, "end")?;
    Ok(Location {
        range: Some((start, end)),
        details: None,
    })
}

/// What is in a range with lines and columns.
#[derive(Clone, Copy)]
struct Spanned<'n, 'a> {
    end: &'n Node<'a>,
    end_column: &'n Node<'a>,
    end_line: &'n Node<'a>,
    start: &'n Node<'a>,
    start_column: &'n Node<'a>,
    start_line: &'n Node<'a>,
}

fn spanned_in<'n, 'a>(value: &'n Node<'a>) -> Option<Spanned<'n, 'a>>
    ensures found { IfSome result (λ found. view value.now
        ≡ object (member (codes "end") (view found.end.now)
        (member (codes "end_column") (view found.end_column.now)
        (member (codes "end_line") (view found.end_line.now)
        (member (codes "start") (view found.start.now)
        (member (codes "start_column") (view found.start_column.now)
        (member (codes "start_line") (view found.start_line.now) no_members))))))) }
    ensures none { IfNone result (IsNoneOf full_place_json (view value.now)) }
{
    let members = members_in(value)?;
    let keys = Keys {
        first: "end",
        second: "end_column",
        third: "end_line",
        fourth: "start",
        fifth: "start_column",
        sixth: "start_line",
        seventh: "start_line",
        eighth: "start_line",
    };
    if !has_only(members, keys) {
        return None;
    }
    let end = value_at(members, "end")?;
    let end_column = value_at(members, "end_column")?;
    let end_line = value_at(members, "end_line")?;
    let start = value_at(members, "start")?;
    let start_column = value_at(members, "start_column")?;
    let start_line = value_at(members, "start_line")?;
    Some(Spanned {
        end,
        end_column,
        end_line,
        start,
        start_column,
        start_line,
    })
}

fn spanned_from(value: &Node<'_>) -> Result<Location, Fault>
    ensures read { IfOk result (λ location. view value.now
        ≡ location_json location.range location.details) }
    ensures refused { IfErr result (Refuses full_place_json (view value.now)) }
{
    let Some(found) = spanned_in(value) else {
        return Err(no_range());
    };
    let range = (place_in(found.start, "start")?, place_in(found.end, "end")?);
    let start = Position {
        line: place_in(found.start_line, "start_line")?,
        column: place_in(found.start_column, "start_column")?,
    };
    let end = Position {
        line: place_in(found.end_line, "end_line")?,
        column: place_in(found.end_column, "end_column")?,
    };
    Ok(Location {
        range: Some(range),
        details: Some(Details {
            span: Span { start, end },
            destination: None,
        }),
    })
}

/// What is in a link's range with the place of its destination.
#[derive(Clone, Copy)]
struct Targeted<'n, 'a> {
    dest_end: &'n Node<'a>,
    dest_start: &'n Node<'a>,
    end: &'n Node<'a>,
    end_column: &'n Node<'a>,
    end_line: &'n Node<'a>,
    start: &'n Node<'a>,
    start_column: &'n Node<'a>,
    start_line: &'n Node<'a>,
}

fn targeted_in<'n, 'a>(value: &'n Node<'a>) -> Option<Targeted<'n, 'a>>
    ensures found { IfSome result (λ found. view value.now ≡ targeted_view found) }
    ensures none { IfNone result (IsNoneOf target_place_json (view value.now)) }
{
    let members = members_in(value)?;
    let keys = Keys {
        first: "dest_end",
        second: "dest_start",
        third: "end",
        fourth: "end_column",
        fifth: "end_line",
        sixth: "start",
        seventh: "start_column",
        eighth: "start_line",
    };
    if !has_only(members, keys) {
        return None;
    }
    let dest_end = value_at(members, "dest_end")?;
    let dest_start = value_at(members, "dest_start")?;
    let end = value_at(members, "end")?;
    let end_column = value_at(members, "end_column")?;
    let end_line = value_at(members, "end_line")?;
    let start = value_at(members, "start")?;
    let start_column = value_at(members, "start_column")?;
    let start_line = value_at(members, "start_line")?;
    Some(Targeted {
        dest_end,
        dest_start,
        end,
        end_column,
        end_line,
        start,
        start_column,
        start_line,
    })
}

fn targeted_from(found: Targeted<'_, '_>) -> Result<Location, Fault>
    ensures read { IfOk result (λ location. targeted_view found.entry
        ≡ location_json location.range location.details) }
    ensures refused { IfErr result (Refuses target_place_json (targeted_view found.entry)) }
{
    let range = (place_in(found.start, "start")?, place_in(found.end, "end")?);
    let start = Position {
        line: place_in(found.start_line, "start_line")?,
        column: place_in(found.start_column, "start_column")?,
    };
    let end = Position {
        line: place_in(found.end_line, "end_line")?,
        column: place_in(found.end_column, "end_column")?,
    };
    let destination = (
        place_in(found.dest_start, "dest_start")?,
        place_in(found.dest_end, "dest_end")?,
    );
    Ok(Location {
        range: Some(range),
        details: Some(Details {
            span: Span { start, end },
            destination: Some(destination),
        }),
    })
}

/// Reads the range of a JSON value, with its details or without; `null` is no range.
pub fn location_from(value: &Node<'_>) -> Result<Location, Fault>
    ensures read { IfOk result (λ location. view value.now
        ≡ location_json location.range location.details) }
    ensures refused { IfErr result (Refuses place_json (view value.now)) }
{
    if is_null(value) {
        return Ok(Location {
            range: None,
            details: None,
        });
    }
    if let Some((end, start)) = two_named(value, "end", "start") {
        return plain_from(start, end);
    }
    if let Some(found) = targeted_in(value) {
        return targeted_from(found);
    }
    spanned_from(value)
}
