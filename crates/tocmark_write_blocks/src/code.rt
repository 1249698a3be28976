//! Code blocks: what opens and what closes them, with the texts of their fences and info strings.

ghost use Rattle.std.specs.Prelude.{◌≡◌, ◌==◌, ◌||◌, codes, if◌then◌else◌, string_bytes, OnOk, ◌++◌, ◌<◌, ℕ, List, flat_map, encode_utf8, encode_utf8_all, replicate, IfOk, IfSome, OnErr};
ghost use Rattle.std.specs.List.{list_any};
ghost use Rattle.tocmark_event.specs.Options.{options_view};
ghost use Rattle.tocmark_event.specs.View.{code_view, tag_view, CodeBlock, Fenced, Indented, CodeView};
ghost use Rattle.tocmark_spelling.specs.Closing.{fence_closing, close_code};
ghost use Rattle.tocmark_spelling.specs.Look.{Look};
ghost use Rattle.tocmark_spelling.specs.Opening.{fence_token, on_new_line, open_code, open_fenced, open_indented, fence_length, fence, info_byte};
ghost use Rattle.tocmark_spelling.specs.Page.{written, Fence};
ghost use Rattle.tocmark_spelling.specs.Places.{at_item_start};
ghost use Rattle.tocmark_write_blocks.specs.AheadOf.{IsRunAhead};
ghost use Rattle.tocmark_write_blocks.specs.Leads.{Closes};
ghost use Rattle.tocmark_write_containers.specs.FrameOf.{content_view};
ghost use Rattle.tocmark_write_renderer.specs.JobOf.{options_in};
ghost use Rattle.tocmark_write_renderer.specs.WriterOf.{levels_of, page_of, Arrives, Stands};
ghost use Rattle.tocmark_write_texts.specs.Characters.{ampersand, backslash};
ghost use Rattle.tocmark_write_texts.specs.Texts.{IsLongest, Grows};

use crate::new_line::begin_new_line;
use crate::repeated::repeated;
use crate::trail::{end_block, note_raw_end};
use std::alloc::{AllocError, Global};
use tocmark_event::event::{CodeBlockKindOf, TagEnd, TagOf};
use tocmark_event::options::Options;
use tocmark_write_containers::content::OpeningChoice;
use tocmark_write_containers::prefix::Prefix;
use tocmark_write_renderer::job::Job;
use tocmark_write_renderer::renderer::Renderer;
use tocmark_write_texts::text_modifications::few_ticks;

/// Four spaces after an item's marker, and else a line of its own.
fn begin_indented(renderer: &mut Renderer<'_>) -> Result<(), AllocError>
    ensures stands { OnOk result (Stands renderer.new (levels_of renderer.old)
        (if at_item_start (levels_of renderer.old) (page_of renderer.old)
        then written (levels_of renderer.old) (codes "    ") (page_of renderer.old)
        else on_new_line (levels_of renderer.old) (page_of renderer.old))) }
    ensures mark { renderer.new.at_mark ≡ renderer.old.at_mark }
{
    if renderer.at_item_start() {
        renderer.write("    ")
    } else {
        begin_new_line(renderer)
    }
}

/// Opens indented code.
fn open_indented<'a>(renderer: &mut Renderer<'a>, tag: &'a TagOf<String>) -> Result<(), AllocError>
    requires tag { tag_view string_bytes tag.now ≡ CodeBlock Indented }
    ensures stands { OnOk result (Arrives renderer.new
        (open_indented (levels_of renderer.old) (page_of renderer.old))) }
    ensures mark { renderer.new.at_mark ≡ renderer.old.at_mark }
{
    begin_indented(renderer)?;
    renderer.push_frame(tag, Prefix::Spaces(4), OpeningChoice::Plain)
}

/// Opens fenced code with this info string, in whose text the longest run of the fence's token has
/// this length, in characters.
fn open_fenced<'a>(
    renderer: &mut Renderer<'a>,
    alloc: Global,
    options: &Options<'_>,
    tag: &'a TagOf<String>,
    info: &str,
    longest: usize,
) -> Result<(), AllocError>
    requires tag { tag_view string_bytes tag.now ≡ CodeBlock (Fenced info.now) }
    ensures stands { (l : Look)
        → IsLongest longest (fence_token (options_view options.now) info.now) l.text
        → OnOk result (Arrives renderer.new (open_fenced (options_view options.now) info.now l
        (levels_of renderer.old) (page_of renderer.old))) }
    ensures mark { renderer.new.at_mark ≡ renderer.old.at_mark }
{
    let fence = fence(alloc, options, info, longest)?;
    begin_new_line(renderer)?;
    write_fence_line(renderer, alloc, fence.as_str(), info)?;
    renderer.push_frame(tag, Prefix::Empty, OpeningChoice::Fence(fence))
}

/// Opens a code block of this kind; for a fenced one it is said how long the longest run of its
/// fence's token is in its text, in characters.
pub fn open_code<'a>(
    renderer: &mut Renderer<'a>,
    job: Job<'_, '_>,
    tag: &'a TagOf<String>,
    kind: &CodeBlockKindOf<String>,
    longest: usize,
) -> Result<(), AllocError>
    requires tag { tag_view string_bytes tag.now ≡ CodeBlock (code_view string_bytes kind.now) }
    ensures stands { (l : Look)
        → IsRunAhead (options_in job.entry) (code_view string_bytes kind.now) l longest
        → OnOk result (Arrives renderer.new (open_code (options_in job.entry)
        (code_view string_bytes kind.now) l (levels_of renderer.old) (page_of renderer.old))) }
    ensures mark { renderer.new.at_mark ≡ renderer.old.at_mark }
{
    match kind {
        CodeBlockKindOf::Indented => open_indented(renderer, tag),
        CodeBlockKindOf::Fenced(info) => {
            open_fenced(
                renderer,
                job.alloc,
                job.options,
                tag,
                info.as_str(),
                longest,
            )
        }
    }
}

/// The closing fence after so many line feeds; nothing where there is none.
fn fence_closing(content: &OpeningChoice, feeds: usize) -> &str
    ensures { result.now ≡ fence_closing (content_view content.now) feeds }
{
    match content {
        OpeningChoice::Fence(fence) => closing_fence(fence.as_str(), feeds),
        _ => "",
    }
}

/// A code block's end, with its fence if it has one.
pub fn close_code(
    renderer: &mut Renderer<'_>,
    options: &Options<'_>,
    content: &OpeningChoice,
) -> Result<(), AllocError>
    ensures stands { (kind : CodeView) → Closes result renderer.old renderer.new
        (close_code (options_view options.now) (CodeBlock kind) (content_view content.now)) }
    ensures mark { renderer.new.at_mark ≡ renderer.old.at_mark }
{
    let closing = fence_closing(content, renderer.newlines());
    note_raw_end(renderer);
    renderer.write(closing)?;
    end_block(
        renderer,
        TagEnd::CodeBlock,
        options.newlines_after_codeblock.max(2),
    );
    Ok(())
}

/// The character of a fence: the preferred one, but `~` where that is a backtick and the info string
/// holds one.
pub fn fence_token(options: &Options<'_>, info: &str) -> char
    ensures { result ≡ fence_token (options_view options.now) info.now }
{
    if options.code_block_token == '`' && info.as_bytes().contains(&b'`') {
        '~'
    } else {
        options.code_block_token
    }
}

/// How many characters a fence has round code in which the longest run of its token has this length:
/// three at least, the preferred count at least, and one more than the run.
///
/// An `Err` says that one more than the run is no `usize`.
pub fn fence_length(options: &Options<'_>, longest: usize) -> Result<usize, AllocError>
    ensures length { (token : ℕ) (text : List ℕ) → IsLongest longest token text
        → IfOk result (λ length. length ≡ fence_length (options_view options.now) token text) }
    ensures refused { OnErr result (18446744073709551614 < longest) }
{
    let beyond = longest.checked_add(1).ok_or(AllocError)?;
    Ok(options.code_block_token_count.max(3).max(beyond))
}

/// The fence of a block with this info string, in whose code the longest run of the fence's token has
/// this length, in characters. Room for all of it is made before its first byte.
///
/// It fails if memory runs out, or if no text can be as long.
pub fn fence(
    alloc: Global,
    options: &Options<'_>,
    info: &str,
    longest: usize,
) -> Result<String, AllocError>
    ensures { (text : List ℕ)
        → IsLongest longest (fence_token (options_view options.now) info.now) text
        → IfOk result (λ made. string_bytes made ≡ fence (options_view options.now) info.now text) }
{
    let length = fence_length(options, longest)?;
    let token = fence_token(options, info);
    match common_fence(token, length) {
        Some(fence) => String::from_str(alloc, fence),
        None => repeated(alloc, token, length),
    }
}

/// So many of this character, if they are a few backticks.
fn common_fence(token: char, length: usize) -> Option<&'static str>
    ensures { IfSome result (λ fence. fence.now ≡ flat_map encode_utf8 (replicate length token)) }
{
    if token == '`' {
        few_ticks(length)
    } else {
        None
    }
}

fn push_info(text: &mut String, c: char) -> Result<(), AllocError>
    ensures { Grows result text.old text.new (encode_utf8_all (info_byte c)) }
{
    match c {
        '&' => text.push_str("&amp;"),
        '\\' => text.push_str("\\\\"),
        _ => text.push(c),
    }
}

/// Adds an info string as it is written: `&` as `&amp;`, a backslash twice.
fn push_info_text(text: &mut String, info: &str) -> Result<(), AllocError>
    ensures { Grows result text.old text.new (flat_map info_byte info.now) }
{
    for c in info.chars() {
        push_info(text, c)?;
    }
    Ok(())
}

/// Whether an info string holds a character that isn't written as it is.
fn holds_escaped(info: &str) -> bool
    ensures { result ≡ (list_any (λ b. b == ampersand) info.now
        || list_any (λ b. b == backslash) info.now) }
{
    let bytes = info.as_bytes();
    bytes.contains(&b'&') || bytes.contains(&b'\\')
}

/// Writes an info string as it is written: `&` as `&amp;`, a backslash twice.
fn write_info(renderer: &mut Renderer<'_>, alloc: Global, info: &str) -> Result<(), AllocError>
    ensures stands { OnOk result (Stands renderer.new (levels_of renderer.old)
        (written (levels_of renderer.old) (flat_map info_byte info.now) (page_of renderer.old))) }
    ensures mark { renderer.new.at_mark ≡ renderer.old.at_mark }
{
    if !holds_escaped(info) {
        return renderer.write(info);
    }
    let mut text = String::new(alloc);
    push_info_text(&mut text, info)?;
    renderer.write(text.as_str())
}

/// Writes a fence and the info string after it.
fn write_fence(
    renderer: &mut Renderer<'_>,
    alloc: Global,
    fence: &str,
    info: &str,
) -> Result<(), AllocError>
    ensures stands { OnOk result (Stands renderer.new (levels_of renderer.old)
        (written (levels_of renderer.old) (fence.now ++ flat_map info_byte info.now)
        (page_of renderer.old))) }
    ensures mark { renderer.new.at_mark ≡ renderer.old.at_mark }
{
    renderer.write(fence)?;
    write_info(renderer, alloc, info)
}

/// Writes the line that opens a fenced block: its fence, the info string as it is written, and a line
/// feed.
fn write_fence_line(
    renderer: &mut Renderer<'_>,
    alloc: Global,
    fence: &str,
    info: &str,
) -> Result<(), AllocError>
    ensures stands { OnOk result (Stands renderer.new (levels_of renderer.old)
        (written (levels_of renderer.old)
        (fence.now ++ flat_map info_byte info.now ++ codes "\n") (page_of renderer.old))) }
    ensures mark { renderer.new.at_mark ≡ renderer.old.at_mark }
{
    write_fence(renderer, alloc, fence, info)?;
    renderer.write("\n")
}

/// The closing fence, if so many line feeds are before it; nothing inside a line.
fn closing_fence<'a>(fence: &'a str, feeds: usize) -> &'a str
    ensures { result.now ≡ fence_closing (Fence fence.now) feeds }
{
    if feeds > 0 { fence } else { "" }
}
