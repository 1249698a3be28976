//! What the open containers say of a place, found as they are opened.

ghost use Rattle.std.specs.Prelude.{◌≡◌, ◌&&◌, ◌||◌, if◌then◌else◌, Some, [], string_bytes};
ghost use Rattle.tocmark_event.specs.View.{tag_view};
ghost use Rattle.tocmark_write_containers.specs.FrameOf.{content_view};
ghost use Rattle.tocmark_write_containers.specs.Outside.{begins_double, item_start_within, outside_of, within};
ghost use Rattle.tocmark_spelling.specs.Kinds.{is_cell, is_emphasis, is_emphasis_or_strong, is_list, is_strikethrough};
ghost use Rattle.tocmark_spelling.specs.Opening.{is_number};

use crate::content::OpeningChoice;
use tocmark_event::event::TagOf;
use tocmark_spelling::kinds::{is_heading, is_item, is_list, is_raw_tag, is_table};

/// Which containers are open at a place, and what they chose.
#[derive(Clone, Copy)]
pub struct Outside {
    pub in_list: bool,
    pub in_two_lists: bool,
    pub in_item: bool,
    pub in_heading: bool,
    pub in_table: bool,
    /// Whether texts are written as they are.
    pub raw: bool,
    /// Whether a bullet list with hyphens is open, at any depth.
    pub in_hyphen_list: bool,
    /// The token of the nearest open bullet list.
    pub bullet: Option<char>,
    /// Whether the nearest open strikethrough began with `~~`.
    pub in_double: bool,
    /// The place of the unit's text, in bytes, at which nothing but openings is between it and an
    /// item's opening; none if there is no such place.
    pub item_start: Option<usize>,
    /// How many containers are open outside of the nearest open cell.
    pub cell: Option<usize>,
    /// How many containers are open outside of the nearest open table.
    pub table: Option<usize>,
    /// How many containers are open outside of the nearest open emphasis, strong emphasis aside.
    pub emphasis: Option<usize>,
    /// How many containers are open outside of the nearest open emphasis or strong emphasis.
    pub emphasis_or_strong: Option<usize>,
}

fn is_cell(tag: &TagOf<String>) -> bool
    ensures { result ≡ is_cell (tag_view string_bytes tag.now) }
{
    matches!(tag, TagOf::TableCell)
}

fn is_strikethrough(tag: &TagOf<String>) -> bool
    ensures { result ≡ is_strikethrough (tag_view string_bytes tag.now) }
{
    matches!(tag, TagOf::Strikethrough)
}

fn is_emphasis(tag: &TagOf<String>) -> bool
    ensures { result ≡ is_emphasis (tag_view string_bytes tag.now) }
{
    matches!(tag, TagOf::Emphasis)
}

fn is_emphasis_or_strong(tag: &TagOf<String>) -> bool
    ensures { result ≡ is_emphasis_or_strong (tag_view string_bytes tag.now) }
{
    matches!(tag, TagOf::Emphasis | TagOf::Strong)
}

/// How many containers are open outside of the nearest one of a kind: outside of the innermost one
/// `depth`, and `outer` if that is of another kind.
fn outside_nearest(is_innermost: bool, depth: usize, outer: Option<usize>) -> Option<usize>
    ensures { result ≡ (if is_innermost then Some depth else outer) }
{
    if is_innermost { Some(depth) } else { outer }
}

impl Outside {
    /// Where no container is open.
    pub fn none() -> Outside
        ensures { result ≡ outside_of [] }
    {
        Outside {
            in_list: false,
            in_two_lists: false,
            in_item: false,
            in_heading: false,
            in_table: false,
            raw: false,
            in_hyphen_list: false,
            bullet: None,
            in_double: false,
            item_start: None,
            cell: None,
            table: None,
            emphasis: None,
            emphasis_or_strong: None,
        }
    }

    /// Whether nothing but openings is between an item's opening and this place of the unit's
    /// text, in bytes.
    pub fn starts_item(self, place: usize) -> bool
        ensures { result ≡ is_number self.item_start place }
    {
        self.item_start == Some(place)
    }

    /// `item_start` inside one more container, whose opening ends at this place of the unit's text,
    /// in bytes.
    fn item_start_within(self, tag: &TagOf<String>, start: usize) -> Option<usize>
        ensures { result ≡ item_start_within (tag_view string_bytes tag.now) start self.item_start }
    {
        if is_item(tag) || self.starts_item(start) {
            Some(start)
        } else {
            None
        }
    }

    /// `in_two_lists` inside one more container.
    fn two_lists_within(self, tag: &TagOf<String>) -> bool
        ensures { result
            ≡ (is_list (tag_view string_bytes tag.now) && self.in_list) || self.in_two_lists }
    {
        (is_list(tag) && self.in_list) || self.in_two_lists
    }

    /// `in_double` inside one more container.
    fn double_within(self, tag: &TagOf<String>, content: &OpeningChoice) -> bool
        ensures { result ≡ (if is_strikethrough (tag_view string_bytes tag.now)
            then begins_double (content_view content.now) else self.in_double) }
    {
        if is_strikethrough(tag) {
            content.is_double()
        } else {
            self.in_double
        }
    }

    /// Inside one more container, whose opening ends at this place of the unit's text, in bytes, and
    /// outside of which so many are open.
    pub fn within(
        self,
        tag: &TagOf<String>,
        start: usize,
        content: &OpeningChoice,
        depth: usize,
    ) -> Outside
        ensures { result ≡ within (tag_view string_bytes tag.now) start
            (content_view content.now) depth self }
    {
        Outside {
            in_list: is_list(tag) || self.in_list,
            in_two_lists: self.two_lists_within(tag),
            in_item: is_item(tag) || self.in_item,
            in_heading: is_heading(tag) || self.in_heading,
            in_table: is_table(tag) || self.in_table,
            raw: is_raw_tag(tag) || self.raw,
            in_hyphen_list: content.is_hyphen_list() || self.in_hyphen_list,
            bullet: content.bullet().or(self.bullet),
            in_double: self.double_within(tag, content),
            item_start: self.item_start_within(tag, start),
            cell: outside_nearest(is_cell(tag), depth, self.cell),
            table: outside_nearest(is_table(tag), depth, self.table),
            emphasis: outside_nearest(is_emphasis(tag), depth, self.emphasis),
            emphasis_or_strong: outside_nearest(
                is_emphasis_or_strong(tag),
                depth,
                self.emphasis_or_strong,
            ),
        }
    }
}
