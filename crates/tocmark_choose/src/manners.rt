//! The manners in which a unit may be written.

ghost use Rattle.std.specs.Prelude.{◌≡◌, map, false, true};
ghost use Rattle.tocmark_event.specs.Options.{options_view};
ghost use Rattle.tocmark_write_renderer.specs.JobOf.{manner_view};
ghost use Rattle.tocmark_spelling.specs.declared.plan.Layout.TheVariants as layout;
ghost use Rattle.tocmark_spelling.specs.declared.plan.TextSpelling.TheVariants as text_spelling;
ghost use Rattle.tocmark_choose.specs.Candidates.{fallback_manners, fallbacks, in_manner, other_emphasis, other_strong, own_markers, pair, source_manners};
ghost use Rattle.tocmark_choose.specs.Choice.{has_standard_markers};
ghost use Rattle.tocmark_choose.specs.Tries.{plan_view, run_manners};

use tocmark_event::options::Options;
use tocmark_spelling::plan::{Delimiters, Layout, TextSpelling};
use tocmark_write_renderer::job::Manner;

/// Whether emphasis and strong emphasis have markers that Markdown reads.
pub fn has_standard_markers(options: &Options<'_>) -> bool
    ensures { result ≡ has_standard_markers (options_view options.now) }
{
    let emphasis = options.emphasis_token == '*' || options.emphasis_token == '_';
    let strong = options.strong_token == "**" || options.strong_token == "__";
    emphasis && strong
}

/// The other marker of emphasis.
fn other_emphasis(token: char) -> char
    ensures { result ≡ other_emphasis token }
{
    if token == '*' { '_' } else { '*' }
}

/// The other marker of strong emphasis.
fn other_strong(token: &str) -> &'static str
    ensures { result.now ≡ other_strong token.now }
{
    if token == "**" { "__" } else { "**" }
}

/// The preferred layout with texts escaped and the options' own markers, from the source or not.
pub fn preferred_manner<'a>(options: &Options<'a>, source: bool) -> Manner<'a>
    ensures { let markers = own_markers (options_view options.now) in
        manner_view result ≡ in_manner layout.Preferred text_spelling.Escaped markers source }
{
    Manner {
        delimiters: Delimiters {
            layout: Layout::Preferred,
            text: TextSpelling::Escaped,
            emphasis: options.emphasis_token,
            strong: options.strong_token,
        },
        source,
    }
}

/// Delimiters by runs, with these markers.
fn by_runs(emphasis: char, strong: &str, source: bool) -> Manner<'_>
    ensures { manner_view result
        ≡ in_manner layout.Runs text_spelling.Escaped (pair emphasis strong.now) source }
{
    Manner {
        delimiters: Delimiters {
            layout: Layout::Runs,
            text: TextSpelling::Escaped,
            emphasis,
            strong,
        },
        source,
    }
}

fn fallback(plan: (Layout, TextSpelling), emphasis: char, strong: &str) -> Manner<'_>
    ensures { let markers = pair emphasis strong.now in
        manner_view result ≡ record { plan = plan_view plan; markers = markers; source = false } }
{
    Manner {
        delimiters: Delimiters {
            layout: plan.0,
            text: plan.1,
            emphasis,
            strong,
        },
        source: false,
    }
}

/// One fallback with each pair of markers.
pub fn with_all_markers<'a>(plan: (Layout, TextSpelling)) -> [Manner<'a>; 4]
    ensures { map manner_view result ≡ fallback_manners (plan_view plan) }
{
    [
        fallback(plan, '*', "**"),
        fallback(plan, '*', "__"),
        fallback(plan, '_', "**"),
        fallback(plan, '_', "__"),
    ]
}

/// The fourteen fallbacks.
pub fn fallback_plans() -> [(Layout, TextSpelling); 14]
    ensures { map plan_view result ≡ fallbacks }
{
    let shared = |ends: bool, adjacent: bool, split: bool| Layout::Shared {
        ends,
        adjacent,
        split,
    };
    [
        (Layout::RuleThree, TextSpelling::Entities),
        (Layout::RuleThree, TextSpelling::LiteralEntities),
        (Layout::Runs, TextSpelling::Literal),
        (Layout::Uniform, TextSpelling::Escaped),
        (Layout::Uniform, TextSpelling::Literal),
        (shared(false, false, false), TextSpelling::Escaped),
        (shared(true, false, false), TextSpelling::Escaped),
        (shared(false, true, false), TextSpelling::Escaped),
        (shared(true, true, false), TextSpelling::Escaped),
        (shared(false, false, false), TextSpelling::Entities),
        (shared(false, false, false), TextSpelling::Literal),
        (shared(true, false, false), TextSpelling::Literal),
        (shared(false, false, true), TextSpelling::Escaped),
        (shared(true, false, true), TextSpelling::Escaped),
    ]
}

/// The manners of a unit with delimiters that is taken from the source: the preferred one, and one by
/// runs.
pub fn source_manners<'a>(options: &Options<'a>) -> [Manner<'a>; 2]
    ensures { map manner_view result ≡ source_manners (options_view options.now) true }
{
    [
        preferred_manner(options, true),
        by_runs(options.emphasis_token, options.strong_token, true),
    ]
}

/// The preferred manner of a unit with delimiters, and four by runs.
pub fn run_manners<'a>(options: &Options<'a>) -> [Manner<'a>; 5]
    ensures { map manner_view result ≡ run_manners (options_view options.now) }
{
    let emphasis = options.emphasis_token;
    let strong = options.strong_token;
    [
        preferred_manner(options, false),
        by_runs(emphasis, strong, false),
        by_runs(other_emphasis(emphasis), strong, false),
        by_runs(emphasis, other_strong(strong), false),
        by_runs(other_emphasis(emphasis), other_strong(strong), false),
    ]
}
