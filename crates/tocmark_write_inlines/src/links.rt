//! Links and images: what opens and what closes them, the id in place of a body, and the definitions that they need.

ghost use Rattle.std.specs.Prelude.{◌≡◌, codes, string_bytes, OnOk, ◌++◌, drop, false, true, IfOk, IfSome, None};
ghost use Rattle.std.specs.Str.{IsCharBoundary};
ghost use Rattle.tocmark_event.specs.Options.{OptionsView};
ghost use Rattle.tocmark_event.specs.View.{tag_view};
ghost use Rattle.tocmark_spelling.specs.Closing.{close_inline, close_link, close_reference, close_with_body, close_with_id, closing_of, needs_id};
ghost use Rattle.tocmark_spelling.specs.Look.{Look};
ghost use Rattle.tocmark_spelling.specs.Opening.{link_mark, open_named};
ghost use Rattle.tocmark_spelling.specs.Page.{Level, Page, Path};
ghost use Rattle.tocmark_spelling.specs.Spelling.{id_of, id_on};
ghost use Rattle.tocmark_write_blocks.specs.Leads.{is_closed, Closes};
ghost use Rattle.tocmark_write_containers.specs.FrameOf.{content_view, level_of};
ghost use Rattle.tocmark_write_renderer.specs.WriterOf.{levels_of, page_of, site_of, Arrives, sheet_of};
ghost use Rattle.tocmark_write_texts.specs.Destination.{inline_closing};

use crate::delimiters::close_inline;
use std::alloc::{AllocError, Global};
use tocmark_event::event::{LinkType, TagOf};
use tocmark_spelling::trail::Last;
use tocmark_write_containers::content::OpeningChoice;
use tocmark_write_containers::frame::Frame;
use tocmark_write_containers::prefix::Prefix;
use tocmark_write_renderer::parts::Reference;
use tocmark_write_renderer::renderer::Renderer;
use tocmark_write_texts::text_modifications;

/// Writes a mark, and opens a link or image after it.
fn open_named<'a>(
    renderer: &mut Renderer<'a>,
    tag: &'a TagOf<String>,
    mark: &str,
    named: bool,
) -> Result<(), AllocError>
    ensures stands { (l : Look) → l.named ≡ named → OnOk result (Arrives renderer.new
        (open_named (tag_view string_bytes tag.entry.now) mark.now l
        (levels_of renderer.old) (page_of renderer.old))) }
    ensures mark { renderer.new.at_mark ≡ renderer.old.at_mark }
{
    renderer.write(mark)?;
    renderer.push_frame(tag, Prefix::Empty, OpeningChoice::Named(named))
}

/// Opens a link of this type; `named` says whether its id will be in place of its body.
pub fn open_link<'a>(
    renderer: &mut Renderer<'a>,
    tag: &'a TagOf<String>,
    kind: LinkType,
    named: bool,
) -> Result<(), AllocError>
    ensures stands { (l : Look) → l.named ≡ named → OnOk result (Arrives renderer.new
        (open_named (tag_view string_bytes tag.entry.now) (link_mark kind) l
        (levels_of renderer.old) (page_of renderer.old))) }
    ensures mark { renderer.new.at_mark ≡ renderer.old.at_mark }
{
    open_named(renderer, tag, link_mark(kind), named)
}

/// Opens an image; `named` says whether its id will be in place of its body.
pub fn open_image<'a>(
    renderer: &mut Renderer<'a>,
    tag: &'a TagOf<String>,
    named: bool,
) -> Result<(), AllocError>
    ensures stands { (l : Look) → l.named ≡ named → OnOk result (Arrives renderer.new
        (open_named (tag_view string_bytes tag.entry.now) (codes "![") l
        (levels_of renderer.old) (page_of renderer.old))) }
    ensures mark { renderer.new.at_mark ≡ renderer.old.at_mark }
{
    open_named(renderer, tag, "![", named)
}

/// The id of a link or image; empty for any other container.
pub fn id_of(tag: &TagOf<String>) -> &str
    ensures { result.now ≡ id_of (tag_view string_bytes tag.now) }
{
    match tag {
        TagOf::Link { id, .. } => id.as_str(),
        TagOf::Image { id, .. } => id.as_str(),
        _ => "",
    }
}

/// Writes the id of a link or image in place of its body.
pub fn write_id(renderer: &mut Renderer<'_>, tag: &TagOf<String>) -> Result<(), AllocError>
    ensures stands { OnOk result (Arrives renderer.new
        (id_on (tag_view string_bytes tag.now) (site_of renderer.old))) }
    ensures mark { renderer.new.at_mark ≡ renderer.old.at_mark }
{
    renderer.write(id_of(tag))?;
    renderer.set_last(Last::Inline);
    Ok(())
}

/// Adds what closes an inline link with this destination and title.
fn push_inline_closing(text: &mut String, destination: &str, title: &str) -> Result<(), AllocError>
    ensures { OnOk result (string_bytes text.new
        ≡ string_bytes text.old ++ inline_closing destination.now title.now) }
{
    match text_modifications::close_link(destination, title, text, LinkType::Inline) {
        Ok(()) => Ok(()),
        Err(_) => Err(AllocError),
    }
}

/// How many bytes most links have round their destination and title, at most.
const ROOM_FOR_MARKS: usize = 6;

/// Where a link or image leads, and how.
#[derive(Clone, Copy)]
struct Target<'t> {
    kind: LinkType,
    destination: &'t str,
    title: &'t str,
    id: &'t str,
}

/// The end of an inline link or image.
fn close_with_destination(
    renderer: &mut Renderer<'_>,
    alloc: Global,
    target: Target<'_>,
) -> Result<(), AllocError>
    ensures stands { Closes result renderer.old renderer.new
        (close_inline (inline_closing target.entry.destination.now target.entry.title.now)) }
    ensures mark { renderer.new.at_mark ≡ renderer.old.at_mark }
{
    let room = target.destination.len().saturating_add(target.title.len());
    let mut text = String::with_capacity(alloc, room.saturating_add(ROOM_FOR_MARKS))?;
    push_inline_closing(&mut text, target.destination, target.title)?;
    close_inline(renderer, text.as_str())
}

/// The end, with this text, of a link or image that needs a definition of its label.
fn close_reference(
    renderer: &mut Renderer<'_>,
    alloc: Global,
    text: &str,
    label: String,
    target: Target<'_>,
) -> Result<(), AllocError>
    ensures stands { Closes result renderer.old renderer.new
        (close_reference text.now (string_bytes label) target.entry.destination.now
        target.entry.title.now) }
    ensures mark { renderer.new.at_mark ≡ renderer.old.at_mark }
{
    let reference = Reference {
        label,
        destination: String::from_str(alloc, target.destination)?,
        title: String::from_str(alloc, target.title)?,
    };
    renderer.add_reference(reference)?;
    close_inline(renderer, text)
}

/// The end of a link or image whose id is its label, with the id in a pair of brackets.
fn close_with_id(
    renderer: &mut Renderer<'_>,
    alloc: Global,
    target: Target<'_>,
) -> Result<(), AllocError>
    ensures stands { Closes result renderer.old renderer.new
        (close_with_id target.entry.destination.now target.entry.title.now target.entry.id.now) }
    ensures mark { renderer.new.at_mark ≡ renderer.old.at_mark }
{
    let id = target.id;
    let text = format!(in alloc; "][{id}]")?;
    let label = String::from_str(alloc, id)?;
    close_reference(renderer, alloc, text.as_str(), label, target)
}

/// Whether the body can't be the label: there is an id, which doesn't spell it.
fn needs_id(content: &OpeningChoice, id: &str) -> bool
    ensures { result ≡ needs_id (content_view content.now) id.now }
{
    match content {
        OpeningChoice::Named(true) => false,
        _ => !id.is_empty(),
    }
}

/// The unit's text from a place on, in bytes.
fn label_from(renderer: &Renderer<'_>, alloc: Global, start: usize) -> Result<String, AllocError>
    requires { IsCharBoundary (sheet_of renderer.now).text start }
    ensures { IfOk result (λ label. string_bytes label ≡ drop start (sheet_of renderer.now).text) }
{
    String::from_str(alloc, renderer.text_from(start))
}

/// The end, with this text, of a link or image whose label is what is after its opening, unless
/// its id is needed.
fn close_with_body(
    renderer: &mut Renderer<'_>,
    alloc: Global,
    text: &str,
    frame: &Frame<'_>,
    target: Target<'_>,
) -> Result<(), AllocError>
    requires start { IsCharBoundary (sheet_of renderer.old).text (level_of frame.now).start }
    ensures stands { Closes result renderer.old renderer.new
        (close_with_body text.now (level_of frame.now) target.entry.destination.now
        target.entry.title.now target.entry.id.now) }
    ensures mark { renderer.new.at_mark ≡ renderer.old.at_mark }
{
    if needs_id(&frame.content, target.id) {
        return close_with_id(renderer, alloc, target);
    }
    let label = label_from(renderer, alloc, frame.start)?;
    close_reference(renderer, alloc, text, label, target)
}

/// The end of a link or image with this target.
fn close_by_type(
    renderer: &mut Renderer<'_>,
    alloc: Global,
    frame: &Frame<'_>,
    target: Target<'_>,
) -> Result<(), AllocError>
    requires start { IsCharBoundary (sheet_of renderer.old).text (level_of frame.now).start }
    ensures stands { Closes result renderer.old renderer.new
        (close_link target.entry.kind target.entry.destination.now target.entry.title.now
        target.entry.id.now (level_of frame.now)) }
    ensures mark { renderer.new.at_mark ≡ renderer.old.at_mark }
{
    match target.kind {
        LinkType::Reference => close_with_id(renderer, alloc, target),
        LinkType::Collapsed => close_with_body(renderer, alloc, "][]", frame, target),
        LinkType::Shortcut => close_with_body(renderer, alloc, "]", frame, target),
        LinkType::Autolink => close_inline(renderer, ">"),
        LinkType::Email => close_inline(renderer, ">"),
        _ => close_with_destination(renderer, alloc, target),
    }
}

/// Where a link or image leads; none for another container.
fn target_of(tag: &TagOf<String>) -> Option<Target<'_>>
    ensures target { IfSome result (λ target. (o : OptionsView) (l : Level) (path : Path) (p : Page)
        → closing_of o (tag_view string_bytes tag.now) l path p
        ≡ close_link target.kind target.destination.now target.title.now target.id.now l path p) }
    ensures other { result ≡ None → is_closed (tag_view string_bytes tag.now) ≡ true }
{
    match tag {
        TagOf::Link {
            link_type,
            dest_url,
            title,
            id,
        } => Some(Target {
            kind: *link_type,
            destination: dest_url.as_str(),
            title: title.as_str(),
            id: id.as_str(),
        }),
        TagOf::Image {
            link_type,
            dest_url,
            title,
            id,
        } => Some(Target {
            kind: *link_type,
            destination: dest_url.as_str(),
            title: title.as_str(),
            id: id.as_str(),
        }),
        _ => None,
    }
}

/// The end of a link or image whose opening ended where the text may be cut, in the containers
/// outside.
pub fn close_named(
    renderer: &mut Renderer<'_>,
    alloc: Global,
    frame: &Frame<'_>,
) -> Result<(), AllocError>
    requires named { is_closed (level_of frame.now).tag ≡ false }
    requires start { IsCharBoundary (sheet_of renderer.old).text (level_of frame.now).start }
    ensures stands { (o : OptionsView) → Closes result renderer.old renderer.new
        (closing_of o (level_of frame.now).tag (level_of frame.now)) }
    ensures mark { renderer.new.at_mark ≡ renderer.old.at_mark }
{
    match target_of(frame.tag) {
        Some(target) => close_by_type(renderer, alloc, frame, target),
        None => Ok(()),
    }
}

/// What is before the body of a link of this type.
pub fn link_mark(kind: LinkType) -> &'static str
    ensures { result.now ≡ link_mark kind }
{
    match kind {
        LinkType::Autolink => "<",
        LinkType::Email => "<",
        _ => "[",
    }
}
