//! Strikethrough, superscripts and subscripts: what opens and what closes them, with their delimiters.

ghost use Rattle.std.specs.Prelude.{◌≡◌, string_bytes, true, OnOk};
ghost use Rattle.tocmark_event.specs.Options.{options_view};
ghost use Rattle.tocmark_event.specs.View.{Superscript, Subscript, tag_view};
ghost use Rattle.tocmark_spelling.specs.Closing.{close_inline, closing_token};
ghost use Rattle.tocmark_spelling.specs.Kinds.{is_strikethrough};
ghost use Rattle.tocmark_spelling.specs.Look.{is_preferred, Look};
ghost use Rattle.tocmark_spelling.specs.Opening.{has_flag, is_uniform, strikethrough_token, open_superscript, open_subscript, is_double, open_delimited, opening_of};
ghost use Rattle.tocmark_spelling.specs.Page.{Path, Page};
ghost use Rattle.tocmark_spelling.specs.Places.{nearest};
ghost use Rattle.tocmark_spelling.specs.Plan.{Setting, Manner as SpelledManner};
ghost use Rattle.tocmark_write_blocks.specs.Leads.{Closes};
ghost use Rattle.tocmark_write_containers.specs.FrameOf.{content_view};
ghost use Rattle.tocmark_write_inlines.specs.Between.{is_between};
ghost use Rattle.tocmark_write_inlines.specs.Delimiters.{IsStruckPlace, opened_between};
ghost use Rattle.tocmark_write_renderer.specs.JobOf.{manner_view, setting_in, Reading};
ghost use Rattle.tocmark_write_renderer.specs.WriterOf.{levels_of, page_of, Arrives};

use std::alloc::{AllocError, Global};
use tocmark_event::event::{ParserOptions, TagOf};
use tocmark_event::options::Options;
use tocmark_spelling::plan::Layout;
use tocmark_spelling::trail::Last;
use tocmark_write_containers::content::OpeningChoice;
use tocmark_write_containers::prefix::Prefix;
use tocmark_write_renderer::job::{Job, Manner};
use tocmark_write_renderer::renderer::Renderer;

/// What is before and after the body of a container.
#[derive(Clone, Copy)]
pub struct Delimiter {
    pub before: &'static str,
    pub after: &'static str,
}

/// Writes what is before the body of a container, and opens the container, which keeps both
/// what is before its body and what is after it.
pub fn open_between<'a>(
    renderer: &mut Renderer<'a>,
    alloc: Global,
    tag: &'a TagOf<String>,
    before: &str,
    after: &str,
) -> Result<(), AllocError>
    ensures stands { OnOk result (Arrives renderer.new (open_delimited
        (tag_view string_bytes tag.entry.now) before.now after.now
        (levels_of renderer.old) (page_of renderer.old))) }
    ensures mark { renderer.new.at_mark ≡ renderer.old.at_mark }
{
    let kept_before = String::from_str(alloc, before)?;
    let kept_after = String::from_str(alloc, after)?;
    renderer.write(before)?;
    renderer.push_frame(
        tag,
        Prefix::Empty,
        OpeningChoice::Delimited {
            before: kept_before,
            after: kept_after,
        },
    )
}

/// What is before and after the body of a strikethrough; it is said whether the nearest
/// strikethrough outside is between `~~`.
fn struck(job: Job<'_, '_>, manner: Manner<'_>, in_double: bool) -> Delimiter
    ensures before { (reading : Reading) (path : Path)
        → is_double (nearest is_strikethrough path) ≡ in_double
        → result.before.now
        ≡ strikethrough_token (setting_in job.entry reading) (manner_view manner.entry) path }
    ensures after { result.after.now ≡ result.before.now }
{
    let token = strikethrough_token(manner.delimiters.layout, job.flags, in_double);
    Delimiter {
        before: token,
        after: token,
    }
}

/// What is before and after the body of a strikethrough, superscript or subscript, and nothing
/// for another container; it is said whether the nearest strikethrough outside is between `~~`.
fn delimiter_of(
    job: Job<'_, '_>,
    manner: Manner<'_>,
    tag: &TagOf<String>,
    in_double: bool,
) -> Delimiter
    requires between { is_between (tag_view string_bytes tag.now) ≡ true }
    ensures { (reading : Reading) (l : Look) (path : Path) (p : Page)
        → is_double (nearest is_strikethrough path) ≡ in_double
        → let t = tag_view string_bytes tag.now in
        opening_of (setting_in job.entry reading) (manner_view manner.entry) t l path p
        ≡ opened_between t result path p }
{
    match tag {
        TagOf::Strikethrough => struck(job, manner, in_double),
        TagOf::Superscript => superscript(job.options, manner.delimiters.layout),
        TagOf::Subscript => subscript(job.options),
        _ => Delimiter {
            before: "",
            after: "",
        },
    }
}

/// Opens a strikethrough, superscript or subscript.
pub fn open_delimited<'a>(
    renderer: &mut Renderer<'a>,
    job: Job<'_, '_>,
    manner: Manner<'_>,
    tag: &'a TagOf<String>,
) -> Result<(), AllocError>
    requires between { is_between (tag_view string_bytes tag.now) ≡ true }
    ensures stands { (reading : Reading) (l : Look) → OnOk result (Arrives renderer.new
        (opening_of (setting_in job.entry reading) (manner_view manner.entry)
        (tag_view string_bytes tag.entry.now) l (levels_of renderer.old) (page_of renderer.old))) }
    ensures mark { renderer.new.at_mark ≡ renderer.old.at_mark }
{
    let delimiter = delimiter_of(job, manner, tag, renderer.outside().in_double);
    open_between(renderer, job.alloc, tag, delimiter.before, delimiter.after)
}

/// The end of inline content with this text.
pub fn close_inline(renderer: &mut Renderer<'_>, text: &str) -> Result<(), AllocError>
    ensures stands { Closes result renderer.old renderer.new (close_inline text.now) }
    ensures mark { renderer.new.at_mark ≡ renderer.old.at_mark }
{
    renderer.write(text)?;
    renderer.set_last(Last::Inline);
    Ok(())
}

/// What is after the body of a delimited container; nothing for another one.
fn closing_token(content: &OpeningChoice) -> &str
    ensures { result.now ≡ closing_token (content_view content.now) }
{
    match content {
        OpeningChoice::Delimited { after, .. } => after.as_str(),
        _ => "",
    }
}

/// The end of a delimited container.
pub fn close_delimited(
    renderer: &mut Renderer<'_>,
    content: &OpeningChoice,
) -> Result<(), AllocError>
    ensures stands { Closes result renderer.old renderer.new
        (close_inline (closing_token (content_view content.now))) }
    ensures mark { renderer.new.at_mark ≡ renderer.old.at_mark }
{
    close_inline(renderer, closing_token(content))
}

fn is_preferred(layout: Layout) -> bool
    ensures { result ≡ is_preferred layout }
{
    matches!(layout, Layout::Preferred)
}

fn is_uniform(layout: Layout) -> bool
    ensures { result ≡ is_uniform layout }
{
    matches!(layout, Layout::Uniform)
}

fn reads_subscripts(flags: ParserOptions) -> bool
    ensures { result ≡ has_flag flags 0x4000 }
{
    flags.contains(ParserOptions::ENABLE_SUBSCRIPT)
}

/// What is before and after a strikethrough: `~~`, but `~` in another layout than the preferred
/// one where `~` is no subscript and the nearest strikethrough outside is between `~~`.
pub fn strikethrough_token(layout: Layout, flags: ParserOptions, in_double: bool) -> &'static str
    ensures { (s : Setting) (m : SpelledManner) (path : Path)
        → IsStruckPlace layout flags in_double s m path
        → result.now ≡ strikethrough_token s m path }
{
    if !is_preferred(layout) && !reads_subscripts(flags) && in_double {
        "~"
    } else {
        "~~"
    }
}

/// What is before and after a superscript: HTML if the options ask for it, `^^` in the uniform
/// layout, and else `^`.
pub fn superscript(options: &Options<'_>, layout: Layout) -> Delimiter
    ensures { (s : Setting) (m : SpelledManner) (path : Path) (p : Page)
        → s.options ≡ options_view options.now → m.plan.layout ≡ layout
        → open_superscript s m path p ≡ opened_between Superscript result path p }
{
    if options.use_html_for_super_sub_script {
        Delimiter {
            before: "<sup>",
            after: "</sup>",
        }
    } else if is_uniform(layout) {
        Delimiter {
            before: "^^",
            after: "^^",
        }
    } else {
        Delimiter {
            before: "^",
            after: "^",
        }
    }
}

/// What is before and after a subscript: HTML if the options ask for it, and else `~`.
pub fn subscript(options: &Options<'_>) -> Delimiter
    ensures { (s : Setting) (path : Path) (p : Page) → s.options ≡ options_view options.now
        → open_subscript s path p ≡ opened_between Subscript result path p }
{
    if options.use_html_for_super_sub_script {
        Delimiter {
            before: "<sub>",
            after: "</sub>",
        }
    } else {
        Delimiter {
            before: "~",
            after: "~",
        }
    }
}
