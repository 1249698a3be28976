//! Items of lists: what opens and what closes them, with the texts of their markers and labels.

ghost use Rattle.std.specs.Option.{option_map};
ghost use Rattle.std.specs.Prelude.{◌≡◌, ◌++◌, if◌then◌else◌, codes, encode_utf8, string_bytes, IfOk, IfSome, [], ◌&&◌, ◌||◌, nat_le, Some, OnOk, true};
ghost use Rattle.tocmark_event.specs.Options.{options_view};
ghost use Rattle.tocmark_event.specs.View.{tag_view, Item};
ghost use Rattle.tocmark_spelling.specs.Closing.{item_tail, close_item};
ghost use Rattle.tocmark_spelling.specs.Kinds.{is_list};
ghost use Rattle.tocmark_spelling.specs.Look.{Look};
ghost use Rattle.tocmark_spelling.specs.Opening.{number_text, item_marker, next_number, label_text, open_item, with_label};
ghost use Rattle.tocmark_spelling.specs.Places.{depth_in};
ghost use Rattle.tocmark_spelling.specs.declared.list_choice.ListChoice.{ListChoice};
ghost use Rattle.tocmark_write_blocks.specs.Leads.{Leads, OnPage, with_quote_in_item};
ghost use Rattle.tocmark_write_containers.specs.FrameOf.{content_view};
ghost use Rattle.tocmark_write_containers.specs.Nesting.{renumbered};
ghost use Rattle.tocmark_write_lists.specs.Items.{choice_in, innermost_choice, item_under, marked_item};
ghost use Rattle.tocmark_write_lists.specs.Lists.{IsMarked};
ghost use Rattle.tocmark_write_renderer.specs.Changes.{on_path};
ghost use Rattle.tocmark_write_renderer.specs.JobOf.{label_in, setting_in, Reading};
ghost use Rattle.tocmark_write_renderer.specs.WriterOf.{levels_of, page_of, site_of, Arrives, Comes, Stands};
ghost use Rattle.tocmark_write_texts.specs.Texts.{Grows};

use std::alloc::{AllocError, Global};
use std::fmt::Write;
use tocmark_event::event::TagOf;
use tocmark_event::options::{Error, Options};
use tocmark_spelling::list_choice::ListChoice;
use tocmark_spelling::trail::{Last, LastChild};
use tocmark_write_blocks::trail::owe_at_least;
use tocmark_write_containers::content::OpeningChoice;
use tocmark_write_containers::prefix::Prefix;
use tocmark_write_renderer::job::Job;
use tocmark_write_renderer::renderer::Renderer;

/// What an item's marker is made of.
#[derive(Clone, Copy)]
pub struct Marker {
    /// The item's number, if its list is ordered.
    pub number: Option<u64>,
    pub token: char,
    /// Whether it is wide, since indented code follows the list.
    pub wide: bool,
}

/// What a list chose; none for another container.
fn choice_in(content: &OpeningChoice) -> Option<ListChoice>
    ensures { result ≡ choice_in (content_view content.now) }
{
    match content {
        OpeningChoice::Listed(choice) => Some(*choice),
        _ => None,
    }
}

/// What the innermost container chose if it is a list; none elsewhere.
fn innermost_choice(renderer: &Renderer<'_>) -> Option<ListChoice>
    ensures { result ≡ innermost_choice (levels_of renderer.now) }
{
    match renderer.innermost() {
        None => None,
        Some(frame) => choice_in(&frame.content),
    }
}

/// The marker of an item in a list that chose this.
fn marker_of(choice: ListChoice) -> Marker
    ensures { IsMarked result choice }
{
    Marker {
        number: choice.number,
        token: choice.token,
        wide: choice.wide,
    }
}

fn owed_after_label(empty_inner: bool) -> usize
    ensures { result ≡ (if empty_inner then 1 else 2) }
{
    if empty_inner { 1 } else { 2 }
}

/// Writes the definition of this label, and owes what is after it.
fn write_label(
    renderer: &mut Renderer<'_>,
    alloc: Global,
    label: &str,
    empty_inner: bool,
) -> Result<(), AllocError>
    ensures stands { OnOk result (Stands renderer.new (levels_of renderer.old)
        (with_label (Some label.now) true empty_inner
        (levels_of renderer.old) (page_of renderer.old))) }
    ensures mark { renderer.new.at_mark ≡ renderer.old.at_mark }
{
    let text = label_text(alloc, label)?;
    renderer.write(text.as_str())?;
    renderer.owe(owed_after_label(empty_inner));
    Ok(())
}

/// Writes the definition of this label if the item's list asks for it, or the item is an empty one
/// in a list inside a list.
fn write_needed_label(
    renderer: &mut Renderer<'_>,
    alloc: Global,
    label: &str,
    labelled: bool,
    empty_inner: bool,
) -> Result<(), AllocError>
    ensures stands { OnOk result (Stands renderer.new (levels_of renderer.old)
        (with_label (Some label.now) (labelled || empty_inner) empty_inner
        (levels_of renderer.old) (page_of renderer.old))) }
    ensures mark { renderer.new.at_mark ≡ renderer.old.at_mark }
{
    if labelled || empty_inner {
        write_label(renderer, alloc, label, empty_inner)
    } else {
        Ok(())
    }
}

/// Writes the definition of the reserved label, if there is one, where the item's list asks for it, or the item is an
/// empty one in a list inside a list.
fn write_reserved_label(
    renderer: &mut Renderer<'_>,
    alloc: Global,
    label: Option<&str>,
    labelled: bool,
    empty_inner: bool,
) -> Result<(), AllocError>
    ensures stands { OnOk result (Stands renderer.new (levels_of renderer.old)
        (with_label (option_map (λ l. l.now) label.entry) (labelled || empty_inner) empty_inner
        (levels_of renderer.old) (page_of renderer.old))) }
    ensures mark { renderer.new.at_mark ≡ renderer.old.at_mark }
{
    match label {
        None => Ok(()),
        Some(label) => write_needed_label(renderer, alloc, label, labelled, empty_inner),
    }
}

/// Writes an item's marker, which is given, and the definition of the reserved label where that is
/// needed; then opens the item. Its list has gone on to the next number already.
fn enter_behind<'a>(
    renderer: &mut Renderer<'a>,
    job: Job<'_, '_>,
    tag: &'a TagOf<String>,
    choice: ListChoice,
    marker: &str,
    empty_inner: bool,
) -> Result<(), AllocError>
    requires tag { tag_view string_bytes tag.now ≡ Item }
    requires marker { marker.now ≡ item_marker choice }
    ensures stands { OnOk result (Arrives renderer.new (marked_item (label_in job.entry) empty_inner
        choice (levels_of renderer.old) (page_of renderer.old))) }
    ensures mark { renderer.new.at_mark ≡ renderer.old.at_mark }
{
    renderer.write(marker)?;
    write_reserved_label(renderer, job.alloc, job.label, choice.labelled, empty_inner)?;
    renderer.set_last(Last::ItemStart);
    renderer.push_frame(tag, Prefix::Spaces(marker.len()), OpeningChoice::Plain)
}

/// A bullet of this token with a space after it; none for another token.
fn bullet(token: char) -> Option<&'static str>
    ensures { IfSome result (λ text. text.now ≡ encode_utf8 token ++ codes " ") }
{
    match token {
        '*' => Some("* "),
        '-' => Some("- "),
        '+' => Some("+ "),
        _ => None,
    }
}

/// The marker of an item without a number that isn't wide; none for another item.
fn narrow_bullet(choice: ListChoice) -> Option<&'static str>
    ensures { IfSome result (λ marker. marker.now ≡ item_marker choice) }
{
    if choice.wide || choice.number.is_some() {
        None
    } else {
        bullet(choice.token)
    }
}

/// Writes an item's marker, and the definition of the reserved label where that is needed; then
/// opens the item. Its list has gone on to the next number already.
fn enter_marked<'a>(
    renderer: &mut Renderer<'a>,
    job: Job<'_, '_>,
    tag: &'a TagOf<String>,
    choice: ListChoice,
    empty_inner: bool,
) -> Result<(), AllocError>
    requires tag { tag_view string_bytes tag.now ≡ Item }
    ensures stands { OnOk result (Arrives renderer.new (marked_item (label_in job.entry) empty_inner
        choice (levels_of renderer.old) (page_of renderer.old))) }
    ensures mark { renderer.new.at_mark ≡ renderer.old.at_mark }
{
    match narrow_bullet(choice) {
        Some(marker) => enter_behind(renderer, job, tag, choice, marker, empty_inner),
        None => {
            let marker = item_marker(job.alloc, marker_of(choice))?;
            enter_behind(renderer, job, tag, choice, marker.as_str(), empty_inner)
        }
    }
}

/// Whether an item that is empty or not is an empty one in a list inside a list.
fn is_empty_inner(renderer: &Renderer<'_>, empty: bool) -> bool
    ensures { result ≡ (empty && nat_le 2 (depth_in is_list (levels_of renderer.now))) }
{
    empty && renderer.outside().in_two_lists
}

/// Writes the marker of an item that is empty or not, and the definition of the reserved label where that is needed;
/// then opens the item. Its list has gone on to the next number already.
fn enter_item<'a>(
    renderer: &mut Renderer<'a>,
    job: Job<'_, '_>,
    tag: &'a TagOf<String>,
    choice: ListChoice,
    empty: bool,
) -> Result<(), AllocError>
    requires tag { tag_view string_bytes tag.now ≡ Item }
    ensures stands { OnOk result (Arrives renderer.new (item_under (label_in job.entry) empty
        choice (levels_of renderer.old) (page_of renderer.old))) }
    ensures mark { renderer.new.at_mark ≡ renderer.old.at_mark }
{
    let empty_inner = is_empty_inner(renderer, empty);
    enter_marked(renderer, job, tag, choice, empty_inner)
}

/// Lets the innermost list, which chose this, go on to the next number.
fn count_item(renderer: &mut Renderer<'_>, options: &Options<'_>, choice: ListChoice)
    requires { innermost_choice (levels_of renderer.old) ≡ Some choice }
    ensures site { site_of renderer.new ≡ on_path
        (renumbered (next_number (options_view options.now) choice.number))
        (site_of renderer.old) }
    ensures mark { renderer.new.at_mark ≡ renderer.old.at_mark }
{
    renderer.set_number(next_number(options, choice.number));
}

/// Opens an item, whose body is empty or not. Its list goes on to the next number.
///
/// It fails if memory runs out, or if the innermost container is no list.
pub fn open_item<'a>(
    renderer: &mut Renderer<'a>,
    job: Job<'_, '_>,
    tag: &'a TagOf<String>,
    empty: bool,
) -> Result<(), Error>
    requires tag { tag_view string_bytes tag.now ≡ Item }
    ensures comes { (reading : Reading) (l : Look) → l.empty_body ≡ empty
        → Comes result renderer.new (open_item (setting_in job.entry reading) l
        (levels_of renderer.old) (page_of renderer.old)) }
    ensures mark { renderer.new.at_mark ≡ renderer.old.at_mark }
{
    match innermost_choice(renderer) {
        None => Err(Error::UnexpectedEvent),
        Some(choice) => {
            count_item(renderer, job.options, choice);
            enter_item(renderer, job, tag, choice, empty)?;
            Ok(())
        }
    }
}

/// A quote goes on after an item only inside another item.
fn end_quote_outside(renderer: &mut Renderer<'_>)
    ensures stands { OnPage renderer.old renderer.new with_quote_in_item }
    ensures mark { renderer.new.at_mark ≡ renderer.old.at_mark }
{
    if !renderer.outside().in_item {
        renderer.set_quote_line(None);
    }
}

/// An item's end.
pub fn close_item(renderer: &mut Renderer<'_>, options: &Options<'_>)
    ensures stands { Leads renderer.old renderer.new (close_item (options_view options.now)) }
    ensures mark { renderer.new.at_mark ≡ renderer.old.at_mark }
{
    let tail = item_tail(renderer.carried().last);
    owe_at_least(renderer, options.newlines_after_rest.max(1));
    renderer.set_last(Last::ItemEnd(tail));
    end_quote_outside(renderer);
}

/// Adds an item's number, if it has one.
fn push_number(text: &mut String, number: Option<u64>) -> Result<(), AllocError>
    ensures { Grows result text.old text.new (number_text number) }
{
    match number {
        None => Ok(()),
        Some(number) => write!(text, "{number}"),
    }
}

fn marker_front(wide: bool) -> &'static str
    ensures { result.now ≡ (if wide then codes "   " else []) }
{
    if wide { "   " } else { "" }
}

fn marker_end(wide: bool) -> &'static str
    ensures { result.now ≡ (if wide then codes "    " else codes " ") }
{
    if wide { "    " } else { " " }
}

/// How many bytes most markers have at most.
const ROOM_FOR_MARKER: usize = 24;

/// An item's marker: its number if it has one, the token and a space; if it is wide, three spaces
/// before these and four after.
pub fn item_marker(alloc: Global, marker: Marker) -> Result<String, AllocError>
    ensures { (c : ListChoice) → IsMarked marker c
        → IfOk result (λ text. string_bytes text ≡ item_marker c) }
{
    let mut text = String::with_capacity(alloc, ROOM_FOR_MARKER)?;
    text.push_str(marker_front(marker.wide))?;
    push_number(&mut text, marker.number)?;
    text.push(marker.token)?;
    text.push_str(marker_end(marker.wide))?;
    Ok(text)
}

/// The number of the next item: the same one, or where the options count the numbers one more, which
/// is 999999999 at most.
pub fn next_number(options: &Options<'_>, number: Option<u64>) -> Option<u64>
    ensures { result ≡ next_number (options_view options.now) number }
{
    match number {
        None => None,
        Some(number) => {
            if options.increment_ordered_list_bullets {
                Some(number.saturating_add(1).min(999_999_999))
            } else {
                Some(number)
            }
        }
    }
}

/// A definition of this label with an empty destination.
pub fn label_text(alloc: Global, label: &str) -> Result<String, AllocError>
    ensures { IfOk result (λ text. string_bytes text ≡ label_text label.now) }
{
    format!(in alloc; "[{label}]: <>")
}

/// What the last child of an item was, by what was written last before the item's End; for an inner
/// list, what its last item's last child was.
pub fn item_tail(last: Last) -> LastChild
    ensures { result ≡ item_tail last }
{
    match last {
        Last::Inline => LastChild::Paragraph,
        Last::ItemStart => LastChild::Empty,
        Last::ListEnd(tail) => tail,
        _ => LastChild::Block,
    }
}
