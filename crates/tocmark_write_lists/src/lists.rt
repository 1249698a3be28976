//! Lists: what opens and what closes them, and how their tokens are chosen.

ghost use Rattle.std.specs.Prelude.{◌≡◌, string_bytes, OnOk};
ghost use Rattle.tocmark_event.specs.Options.{options_view};
ghost use Rattle.tocmark_event.specs.View.{tag_view, ListOf};
ghost use Rattle.tocmark_spelling.specs.Buffered.{following_view};
ghost use Rattle.tocmark_spelling.specs.Closing.{list_tail, with_last_list, list_left, close_list};
ghost use Rattle.tocmark_spelling.specs.Look.{Look};
ghost use Rattle.tocmark_spelling.specs.Opening.{is_number, changed_token, continues_list, first_token, list_token, open_list};
ghost use Rattle.tocmark_spelling.specs.Page.{Path, Page};
ghost use Rattle.tocmark_write_blocks.specs.Leads.{Leads, OnPage};
ghost use Rattle.tocmark_write_containers.specs.FrameOf.{content_view};
ghost use Rattle.tocmark_write_lists.specs.Items.{is_before_code};
ghost use Rattle.tocmark_write_lists.specs.Lists.{IsListPlace};
ghost use Rattle.tocmark_write_pending.specs.BodyFacts.{IsForeseen};
ghost use Rattle.tocmark_write_renderer.specs.JobOf.{options_in};
ghost use Rattle.tocmark_write_renderer.specs.WriterOf.{levels_of, page_of, Arrives};

use std::alloc::AllocError;
use tocmark_event::event::{OwnedEvent, TagEnd, TagOf};
use tocmark_event::options::Options;
use tocmark_spelling::kinds::starts_indented_code;
use tocmark_spelling::list_choice::ListChoice;
use tocmark_spelling::trail::{Last, LastChild, LastList};
use tocmark_write_blocks::ahead::Ahead;
use tocmark_write_blocks::trail::{owe_at_least, set_last_list};
use tocmark_write_containers::content::OpeningChoice;
use tocmark_write_containers::prefix::Prefix;
use tocmark_write_renderer::job::Job;
use tocmark_write_renderer::renderer::Renderer;

/// What the written text and the open containers say of the place where a list begins.
#[derive(Clone, Copy)]
pub struct ListSurroundings {
    /// Whether nothing but openings is between an item's marker and this place.
    pub at_item_start: bool,
    /// The token of the nearest open bullet list.
    pub nearest_bullet: Option<char>,
    /// How many containers are open.
    pub depth: usize,
    /// The list that ended last.
    pub last_list: Option<LastList>,
}

/// What the open containers and the written text say of a list's place.
fn place_of(renderer: &Renderer<'_>) -> ListSurroundings
    ensures { IsListPlace result (levels_of renderer.now) (page_of renderer.now) }
{
    ListSurroundings {
        at_item_start: renderer.at_item_start(),
        nearest_bullet: renderer.outside().bullet,
        depth: renderer.depth(),
        last_list: renderer.carried().last_list,
    }
}

/// Whether indented code follows.
fn is_before_code(next: Option<&OwnedEvent>) -> bool
    ensures { result ≡ is_before_code (following_view next.entry) }
{
    match next {
        None => false,
        Some(event) => starts_indented_code(event),
    }
}

/// Opens a list with this first number, none for bullets. It writes nothing and keeps its token,
/// whether it is tight, and how its items are marked.
pub fn open_list<'a>(
    renderer: &mut Renderer<'a>,
    job: Job<'_, '_>,
    tag: &'a TagOf<String>,
    number: Option<u64>,
    ahead: Ahead<'_>,
) -> Result<(), AllocError>
    requires tag { tag_view string_bytes tag.now ≡ ListOf number }
    ensures stands { (l : Look)
        → IsForeseen l ahead.entry.body → l.next ≡ following_view ahead.entry.next
        → OnOk result (Arrives renderer.new (open_list (options_in job.entry) number l
        (levels_of renderer.old) (page_of renderer.old))) }
    ensures mark { renderer.new.at_mark ≡ renderer.old.at_mark }
{
    let token = list_token(job.options, number, place_of(renderer));
    let choice = ListChoice {
        number,
        token,
        tight: ahead.body.is_tight(),
        wide: is_before_code(ahead.next),
        labelled: ahead.body.is_lone(),
    };
    renderer.push_frame(tag, Prefix::Empty, OpeningChoice::Listed(choice))
}

/// Notes the list as the one that ended last.
fn note_list(renderer: &mut Renderer<'_>, choice: ListChoice)
    ensures stands { OnPage renderer.old renderer.new (with_last_list choice) }
    ensures mark { renderer.new.at_mark ≡ renderer.old.at_mark }
{
    let list = LastList {
        depth: renderer.depth(),
        ordered: choice.number.is_some(),
        token: choice.token,
    };
    set_last_list(renderer, Some(list));
}

/// What a list with this first number, none for bullets, leaves; inside another list that is the tail
/// of its last item.
fn leave_list(renderer: &mut Renderer<'_>, options: &Options<'_>, number: Option<u64>)
    ensures stands { OnPage renderer.old renderer.new
        (list_left (options_view options.now) (ListOf number)) }
    ensures mark { renderer.new.at_mark ≡ renderer.old.at_mark }
{
    if renderer.outside().in_list {
        let tail = list_tail(renderer.carried().last);
        renderer.set_last(Last::ListEnd(tail));
    } else {
        owe_at_least(renderer, options.newlines_after_list.max(2));
        renderer.set_last(Last::BlockEnd(TagEnd::List(number.is_some())));
    }
}

/// The end of a list with this first number, none for bullets; it is the last list from here on.
pub fn close_list(
    renderer: &mut Renderer<'_>,
    options: &Options<'_>,
    number: Option<u64>,
    content: &OpeningChoice,
)
    ensures stands { Leads renderer.old renderer.new
        (close_list (options_view options.now) (ListOf number) (content_view content.now)) }
    ensures mark { renderer.new.at_mark ≡ renderer.old.at_mark }
{
    match content {
        OpeningChoice::Listed(choice) => {
            note_list(renderer, *choice);
            leave_list(renderer, options, number);
        }
        _ => {}
    }
}

/// The token that parts a list from one of the same kind with this token; a list with a number is
/// ordered.
pub fn changed_token(number: Option<u64>, token: char) -> char
    ensures { result ≡ changed_token number token }
{
    match number {
        Some(_) if token == '.' => ')',
        Some(_) => '.',
        None if token == '*' => '-',
        None => '*',
    }
}

fn is_token(found: Option<char>, token: char) -> bool
    ensures { result ≡ is_number found token }
{
    match found {
        None => false,
        Some(found) => found == token,
    }
}

/// Whether a list of this kind and token, with so many containers round it, would go on with the list
/// that ended last.
pub fn continues_list(
    last: Option<LastList>,
    depth: usize,
    number: Option<u64>,
    token: char,
) -> bool
    ensures { result ≡ continues_list last depth number token }
{
    match last {
        None => false,
        Some(list) => {
            list.depth == depth && list.ordered == number.is_some() && list.token == token
        }
    }
}

/// The preferred token of a list with this first number, none for bullets; a bullet list right after
/// the marker of an item with the same token takes another.
pub fn first_token(options: &Options<'_>, number: Option<u64>, place: ListSurroundings) -> char
    ensures { (path : Path) (p : Page) → IsListPlace place path p
        → result ≡ first_token (options_view options.now) number path p }
{
    match number {
        Some(_) => options.ordered_list_token,
        None => {
            let same = is_token(place.nearest_bullet, options.list_token);
            if place.at_item_start && same {
                changed_token(None, options.list_token)
            } else {
                options.list_token
            }
        }
    }
}

/// The token of a list with this first number, none for bullets: the preferred one, but another where
/// the list would go on with the one that ended last, or where a bullet list is right after the
/// marker of an item with the same token.
pub fn list_token(options: &Options<'_>, number: Option<u64>, place: ListSurroundings) -> char
    ensures { (path : Path) (p : Page) → IsListPlace place path p
        → result ≡ list_token (options_view options.now) number path p }
{
    let token = first_token(options, number, place);
    if continues_list(place.last_list, place.depth, number, token) {
        changed_token(number, token)
    } else {
        token
    }
}

/// What the last child of a list's last item was, by what was written last before the list's End.
pub fn list_tail(last: Last) -> LastChild
    ensures { result ≡ list_tail last }
{
    match last {
        Last::ItemEnd(tail) => tail,
        _ => LastChild::Block,
    }
}
