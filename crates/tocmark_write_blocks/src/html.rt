//! HTML blocks: what opens and what closes them, and which ones a blank line ends.

ghost use Rattle.std.specs.Char.{to_ascii_lowercase};
ghost use Rattle.std.specs.List.{prefix_len};
ghost use Rattle.std.specs.Option.{option_map};
ghost use Rattle.std.specs.Prelude.{◌≡◌, string_bytes, OnOk, map, bytes_eq};
ghost use Rattle.std.specs.Str.{str_to_ascii_lowercase};
ghost use Rattle.tocmark_event.specs.Options.{options_view};
ghost use Rattle.tocmark_event.specs.View.{tag_view, HtmlBlock};
ghost use Rattle.tocmark_spelling.specs.Closing.{with_raw_end, html_last, html_left, close_html};
ghost use Rattle.tocmark_spelling.specs.Html.{is_blank_terminated, is_html_closed, without_bracket, name_of, is_raw_name, ends_at_blank};
ghost use Rattle.tocmark_spelling.specs.Look.{Look};
ghost use Rattle.tocmark_spelling.specs.Opening.{open_html};
ghost use Rattle.tocmark_write_blocks.specs.Leads.{Leads, OnPage};
ghost use Rattle.tocmark_write_containers.specs.FrameOf.{content_view};
ghost use Rattle.tocmark_write_blocks.specs.HtmlNames.{is_in_name};
ghost use Rattle.tocmark_write_renderer.specs.WriterOf.{levels_of, page_of, Arrives};

use crate::block_ends::begins_with;
use crate::trail::{note_raw_end, set_open_html};
use std::alloc::AllocError;
use tocmark_event::event::{TagEnd, TagOf};
use tocmark_event::options::Options;
use tocmark_spelling::trail::Last;
use tocmark_write_containers::content::OpeningChoice;
use tocmark_write_containers::prefix::Prefix;
use tocmark_write_renderer::renderer::Renderer;

/// Opens an HTML block, which writes nothing and keeps whether a blank line ends it and whether its
/// end is in it.
pub fn open_html<'a>(
    renderer: &mut Renderer<'a>,
    tag: &'a TagOf<String>,
    blank: bool,
    closed: bool,
) -> Result<(), AllocError>
    requires tag { tag_view string_bytes tag.now ≡ HtmlBlock }
    ensures stands { (l : Look)
        → is_blank_terminated l.first_html ≡ blank → is_html_closed l.html ≡ closed
        → OnOk result (Arrives renderer.new
        (open_html l (levels_of renderer.old) (page_of renderer.old))) }
    ensures mark { renderer.new.at_mark ≡ renderer.old.at_mark }
{
    renderer.push_frame(
        tag,
        Prefix::Empty,
        OpeningChoice::HtmlEnds { blank, closed },
    )
}

/// What was written last after an HTML block.
fn html_last(blank: bool) -> Last
    ensures { result ≡ html_last blank }
{
    if blank {
        Last::BlockEnd(TagEnd::HtmlBlock)
    } else {
        Last::Other
    }
}

fn leave_html(renderer: &mut Renderer<'_>, options: &Options<'_>, blank: bool, closed: bool)
    ensures stands { OnPage renderer.old renderer.new
        (λ path p. html_left (options_view options.now) blank closed (with_raw_end p)) }
    ensures mark { renderer.new.at_mark ≡ renderer.old.at_mark }
{
    note_raw_end(renderer);
    renderer.set_last(html_last(blank));
    renderer.owe(options.newlines_after_htmlblock.max(2));
    set_open_html(renderer, !blank && !closed);
}

/// The end of an HTML block, which stays open where neither a blank line nor its own text ends it.
pub fn close_html(renderer: &mut Renderer<'_>, options: &Options<'_>, content: &OpeningChoice)
    ensures stands { Leads renderer.old renderer.new
        (close_html (options_view options.now) (content_view content.now)) }
    ensures mark { renderer.new.at_mark ≡ renderer.old.at_mark }
{
    match content {
        OpeningChoice::HtmlEnds { blank, closed } => leave_html(renderer, options, *blank, *closed),
        _ => {}
    }
}

fn without_bracket(text: &[u8]) -> &[u8]
    ensures { result.now ≡ without_bracket text.now }
{
    if begins_with(text, b"<") {
        &text[1..]
    } else {
        text
    }
}

fn is_in_name(byte: u8) -> bool
    ensures { result ≡ is_in_name byte }
{
    !(byte.is_ascii_whitespace() || byte == b'>')
}

/// How many bytes a name has at the front of a text.
fn name_size(text: &[u8]) -> usize
    ensures { result ≡ prefix_len is_in_name text.now }
{
    for (size, byte) in text.iter().enumerate() {
        if !is_in_name(*byte) {
            return size;
        }
    }
    text.len()
}

/// The name at the front of HTML, up to white space or `>`.
fn name_of(text: &[u8]) -> &[u8]
    ensures { result.now ≡ name_of text.now }
{
    let name = without_bracket(text);
    &name[..name_size(name)]
}

/// Whether a name is this word in lower case, in capitals or not.
fn is_word(name: &[u8], word: &[u8]) -> bool
    ensures { map to_ascii_lowercase word.now ≡ word.now
        → result ≡ bytes_eq (str_to_ascii_lowercase name.now) word.now }
{
    name.eq_ignore_ascii_case(word)
}

/// Whether this is the name of a tag of raw text, in capitals or not.
fn is_raw_name(name: &[u8]) -> bool
    ensures { result ≡ is_raw_name name.now }
{
    is_word(name, b"pre")
        || is_word(name, b"script")
        || is_word(name, b"style")
        || is_word(name, b"textarea")
}

/// Whether a blank line ends the block that begins so.
fn ends_at_blank(text: &[u8]) -> bool
    ensures { result ≡ ends_at_blank text.now }
{
    let marked = begins_with(text, b"<!") || begins_with(text, b"<?");
    !marked && !is_raw_name(name_of(text))
}

/// Whether a blank line ends an HTML block, by its first HTML: unless that begins a comment, a
/// declaration, an instruction, character data or a tag of raw text. Without any HTML none does.
pub fn is_blank_terminated(first: Option<&str>) -> bool
    ensures { result ≡ is_blank_terminated (option_map (λ html. html.now) first.entry) }
{
    match first {
        None => false,
        Some(html) => ends_at_blank(html.trim_start().as_bytes()),
    }
}
