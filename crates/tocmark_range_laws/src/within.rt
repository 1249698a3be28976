//! Laws of what lies within the range of each block of a text, and of where each line of a text is found.

ghost use Rattle.tocmark_range_laws.specs.Found.{LinesAreFound, LinesMeetBlocks, SomeTexts};
ghost use Rattle.tocmark_range_laws.specs.Within.{InlinesLieInTheirBlocks, LinesLieInTheirBlocks, ShortInlinesLieInTheirBlocks};

/// Each line of a CommonMark leaf lies in the range of its block.
pub fn lines_lie_in_their_blocks()
    ensures { LinesLieInTheirBlocks }
{}

/// Each inline of a CommonMark leaf lies in the range of its block.
pub fn inlines_lie_in_their_blocks()
    ensures { InlinesLieInTheirBlocks }
{}

/// So it is in every text that has fewer than 2^30 bytes, whatever its leaves are.
pub fn short_inlines_lie_in_their_blocks()
    ensures { ShortInlinesLieInTheirBlocks }
{}

/// No line of a text is lost that has a byte which is neither a space, nor a tab, nor `>`: the range of a CommonMark block meets
/// it, or a part of it is a line of a leaf or of definitions of links.
pub fn lines_are_found()
    ensures { LinesAreFound }
{}

/// Each such line meets the range of a CommonMark block if the text has no definitions of links.
pub fn lines_meet_blocks()
    ensures { LinesMeetBlocks }
{}

/// Where the blocks and the lines of leaves of four texts are, computed.
pub fn some_lines_are_found()
    ensures { SomeTexts }
{}
