//! Laws of loose and tight lists.

ghost use Rattle.tocmark_text_laws.specs.Loose.{AListEndsInALooseItem, MarksMakeALooseItem, MarksMakeATightItem, MarksMakeATightItemOfOneBlock, NoBlankLineIsIdle, NoBlankLineNoLooseList, NoIdleLineNoLooseList, SomeJoins, SomeLists, SomeSingles};
ghost use Rattle.tocmark_text_laws.specs.NearMargin.{AListEndsNearMarginInALooseItem};

/// No list in a text is loose if none of its lines is idle. A line is idle if it has no ink, and no leaf is open after it whose last
/// line it is. So a blank line in fenced code isn't idle. Ink is any byte but a space, a tab or `>`.
pub fn no_idle_line_no_loose_list()
    ensures { NoIdleLineNoLooseList }
{}

/// Where no line is blank, none is idle. A line is blank if it has no ink.
pub fn no_blank_line_is_idle()
    ensures { NoBlankLineIsIdle }
{}

/// No list in a text is loose if none of its lines is blank.
pub fn no_blank_line_no_loose_list()
    ensures { NoBlankLineNoLooseList }
{}

/// The list that `marks_make_an_item` speaks of is tight if no line of the text is idle.
pub fn marks_make_a_tight_item()
    ensures { MarksMakeATightItem }
{}

/// This list is tight if the text has one block that is in no container, whatever blank lines are in that: a quote, a list that is loose
/// itself, or fenced code, say. So a list in the item can be loose, and the list round it tight.
pub fn one_block_makes_a_tight_item()
    ensures { MarksMakeATightItemOfOneBlock }
{}

/// The list that `marks_make_an_item` speaks of is loose if an empty line comes between two texts in its item (5.3). The item has the
/// blocks of the first text, and then those of the second.
///
/// The empty line ends what the first text leaves open: a quote with all its content, a paragraph, and HTML of the kinds that end at an
/// empty line. The second text doesn't begin with a blank line. It may begin with indented code.
pub fn marks_make_a_loose_item()
    ensures { MarksMakeALooseItem }
{}

/// As `marks_make_a_loose_item`, if the first text leaves a list open that is in no container. The second text ends this list: as in
/// `a_list_ends`, it begins at the margin, and not with an item of the same sort.
pub fn a_list_ends_in_a_loose_item()
    ensures { AListEndsInALooseItem }
{}

/// As `a_list_ends_in_a_loose_item`, if the second text begins after one space, for example with the block quote ` > q`.
pub fn a_list_ends_near_the_margin_in_a_loose_item()
    ensures { AListEndsNearMarginInALooseItem }
{}

/// Nine lists with one item of two texts and an empty line between them, as computed. The premises are needed: the list is tight where
/// the empty line is in code or in an inner list, and where nothing comes after it.
pub fn some_joined_texts_are_loose()
    ensures { SomeJoins }
{}

/// Four items, as computed. Three have one block with a blank line in it, and are in a tight list. The last one has two blocks.
pub fn some_single_blocks_are_tight()
    ensures { SomeSingles }
{}

/// Four lists, as computed. In a block quote, a line with its marker alone makes a list loose. A blank line in fenced code doesn't.
pub fn some_lists_are_loose()
    ensures { SomeLists }
{}
