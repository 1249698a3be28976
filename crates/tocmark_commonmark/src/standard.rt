//! The 652 examples of CommonMark 0.31.2, a function for each table. What each example is read as comes from the standard's HTML.

ghost use Rattle.tocmark_commonmark.specs.StandardExamples.{HaveEvents};
ghost use Rattle.tocmark_commonmark.specs.StandardBreaks.{standard_breaks};
ghost use Rattle.tocmark_commonmark.specs.StandardCodeFirst.{standard_code_first};
ghost use Rattle.tocmark_commonmark.specs.StandardCodeSecond.{standard_code_second};
ghost use Rattle.tocmark_commonmark.specs.StandardDefinitionsFirst.{standard_definitions_first};
ghost use Rattle.tocmark_commonmark.specs.StandardDefinitionsSecond.{standard_definitions_second};
ghost use Rattle.tocmark_commonmark.specs.StandardEmphasisFifth.{standard_emphasis_fifth};
ghost use Rattle.tocmark_commonmark.specs.StandardEmphasisFirst.{standard_emphasis_first};
ghost use Rattle.tocmark_commonmark.specs.StandardEmphasisFourth.{standard_emphasis_fourth};
ghost use Rattle.tocmark_commonmark.specs.StandardEmphasisSecond.{standard_emphasis_second};
ghost use Rattle.tocmark_commonmark.specs.StandardEmphasisThird.{standard_emphasis_third};
ghost use Rattle.tocmark_commonmark.specs.StandardFences.{standard_fences};
ghost use Rattle.tocmark_commonmark.specs.StandardHtmlBlocksFirst.{standard_html_blocks_first};
ghost use Rattle.tocmark_commonmark.specs.StandardHtmlBlocksSecond.{standard_html_blocks_second};
ghost use Rattle.tocmark_commonmark.specs.StandardImagesFirst.{standard_images_first};
ghost use Rattle.tocmark_commonmark.specs.StandardImagesSecond.{standard_images_second};
ghost use Rattle.tocmark_commonmark.specs.StandardItemsFirst.{standard_items_first};
ghost use Rattle.tocmark_commonmark.specs.StandardItemsSecond.{standard_items_second};
ghost use Rattle.tocmark_commonmark.specs.StandardLinksFirst.{standard_links_first};
ghost use Rattle.tocmark_commonmark.specs.StandardLinksSecond.{standard_links_second};
ghost use Rattle.tocmark_commonmark.specs.StandardLinksThird.{standard_links_third};
ghost use Rattle.tocmark_commonmark.specs.StandardLists.{standard_lists};
ghost use Rattle.tocmark_commonmark.specs.StandardPrecedenceFirst.{standard_precedence_first};
ghost use Rattle.tocmark_commonmark.specs.StandardPrecedenceSecond.{standard_precedence_second};
ghost use Rattle.tocmark_commonmark.specs.StandardQuotes.{standard_quotes};
ghost use Rattle.tocmark_commonmark.specs.StandardSetextFirst.{standard_setext_first};
ghost use Rattle.tocmark_commonmark.specs.StandardSetextSecond.{standard_setext_second};
ghost use Rattle.tocmark_commonmark.specs.StandardTabsFirst.{standard_tabs_first};
ghost use Rattle.tocmark_commonmark.specs.StandardTabsSecond.{standard_tabs_second};

/// Tabs, backslash escapes, entity and numeric character references, part 1: 21 examples.
pub fn standard_tabs_first_are_right()
    ensures { HaveEvents standard_tabs_first }
{}

/// Tabs, backslash escapes, entity and numeric character references, part 2: 20 examples.
pub fn standard_tabs_second_are_right()
    ensures { HaveEvents standard_tabs_second }
{}

/// Precedence, thematic breaks, ATX headings, part 1: 19 examples.
pub fn standard_precedence_first_are_right()
    ensures { HaveEvents standard_precedence_first }
{}

/// Precedence, thematic breaks, ATX headings, part 2: 19 examples.
pub fn standard_precedence_second_are_right()
    ensures { HaveEvents standard_precedence_second }
{}

/// Setext headings, indented code blocks, part 1: 20 examples.
pub fn standard_setext_first_are_right()
    ensures { HaveEvents standard_setext_first }
{}

/// Setext headings, indented code blocks, part 2: 19 examples.
pub fn standard_setext_second_are_right()
    ensures { HaveEvents standard_setext_second }
{}

/// Fenced code blocks: 29 examples.
pub fn standard_fences_are_right()
    ensures { HaveEvents standard_fences }
{}

/// HTML blocks, part 1: 22 examples.
pub fn standard_html_blocks_first_are_right()
    ensures { HaveEvents standard_html_blocks_first }
{}

/// HTML blocks, part 2: 22 examples.
pub fn standard_html_blocks_second_are_right()
    ensures { HaveEvents standard_html_blocks_second }
{}

/// Link reference definitions, paragraphs, blank lines, part 1: 18 examples.
pub fn standard_definitions_first_are_right()
    ensures { HaveEvents standard_definitions_first }
{}

/// Link reference definitions, paragraphs, blank lines, part 2: 18 examples.
pub fn standard_definitions_second_are_right()
    ensures { HaveEvents standard_definitions_second }
{}

/// Block quotes: 25 examples.
pub fn standard_quotes_are_right()
    ensures { HaveEvents standard_quotes }
{}

/// List items, part 1: 24 examples.
pub fn standard_items_first_are_right()
    ensures { HaveEvents standard_items_first }
{}

/// List items, part 2: 24 examples.
pub fn standard_items_second_are_right()
    ensures { HaveEvents standard_items_second }
{}

/// Lists: 26 examples.
pub fn standard_lists_are_right()
    ensures { HaveEvents standard_lists }
{}

/// Inlines, code spans, autolinks, part 1: 21 examples.
pub fn standard_code_first_are_right()
    ensures { HaveEvents standard_code_first }
{}

/// Inlines, code spans, autolinks, part 2: 21 examples.
pub fn standard_code_second_are_right()
    ensures { HaveEvents standard_code_second }
{}

/// Emphasis and strong emphasis, part 1: 27 examples.
pub fn standard_emphasis_first_are_right()
    ensures { HaveEvents standard_emphasis_first }
{}

/// Emphasis and strong emphasis, part 2: 27 examples.
pub fn standard_emphasis_second_are_right()
    ensures { HaveEvents standard_emphasis_second }
{}

/// Emphasis and strong emphasis, part 3: 27 examples.
pub fn standard_emphasis_third_are_right()
    ensures { HaveEvents standard_emphasis_third }
{}

/// Emphasis and strong emphasis, part 4: 27 examples.
pub fn standard_emphasis_fourth_are_right()
    ensures { HaveEvents standard_emphasis_fourth }
{}

/// Emphasis and strong emphasis, part 5: 24 examples.
pub fn standard_emphasis_fifth_are_right()
    ensures { HaveEvents standard_emphasis_fifth }
{}

/// Links, part 1: 30 examples.
pub fn standard_links_first_are_right()
    ensures { HaveEvents standard_links_first }
{}

/// Links, part 2: 30 examples.
pub fn standard_links_second_are_right()
    ensures { HaveEvents standard_links_second }
{}

/// Links, part 3: 30 examples.
pub fn standard_links_third_are_right()
    ensures { HaveEvents standard_links_third }
{}

/// Images, raw HTML, part 1: 21 examples.
pub fn standard_images_first_are_right()
    ensures { HaveEvents standard_images_first }
{}

/// Images, raw HTML, part 2: 21 examples.
pub fn standard_images_second_are_right()
    ensures { HaveEvents standard_images_second }
{}

/// Hard line breaks, soft line breaks, textual content: 20 examples.
pub fn standard_breaks_are_right()
    ensures { HaveEvents standard_breaks }
{}
