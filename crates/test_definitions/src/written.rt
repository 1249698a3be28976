//! Examples of what lists of events are written as. The contract of each function is a table of them, and the
//! definitions are computed on each; the functions do nothing.

ghost use Rattle.test_definitions.specs.Script.{AreWritten};
ghost use Rattle.test_definitions.specs.Blocks.{blocks};
ghost use Rattle.test_definitions.specs.Checked.{checked};
ghost use Rattle.test_definitions.specs.Delimiters.{delimiters};
ghost use Rattle.test_definitions.specs.EdgesOfBlocks.{edges_of_blocks};
ghost use Rattle.test_definitions.specs.EdgesOfDelimiters.{edges_of_delimiters};
ghost use Rattle.test_definitions.specs.EdgesOfLinks.{edges_of_links};
ghost use Rattle.test_definitions.specs.EdgesOfLists.{edges_of_lists};
ghost use Rattle.test_definitions.specs.Fallbacks.{fallbacks};
ghost use Rattle.test_definitions.specs.Links.{links};
ghost use Rattle.test_definitions.specs.Manners.{manners, AreSpelt};
ghost use Rattle.test_definitions.specs.Tables.{tables};
ghost use Rattle.test_definitions.specs.RulesOfGaps.{rules_of_gaps};
ghost use Rattle.test_definitions.specs.RulesOfTexts.{rules_of_texts};
ghost use Rattle.test_definitions.specs.RulesOfBlocks.{rules_of_blocks};
ghost use Rattle.test_definitions.specs.RulesOfManners.{rules_of_manners};
ghost use Rattle.test_definitions.specs.Refusals.{refusals, AreRefused};
ghost use Rattle.test_definitions.specs.RulesOfLetters.{rules_of_letters};

/// Quotes, lists, code and HTML.
pub fn blocks_are_written()
    ensures { AreWritten blocks }
{}

/// Tables, definition lists, footnotes and metadata.
pub fn tables_are_written()
    ensures { AreWritten tables }
{}

/// Links, labels and texts from the source.
pub fn links_are_written()
    ensures { AreWritten links }
{}

/// Emphasis and its like.
pub fn delimiters_are_written()
    ensures { AreWritten delimiters }
{}

/// Fallbacks.
pub fn fallbacks_are_written()
    ensures { AreWritten fallbacks }
{}

/// Units under the option that checks plain blocks.
pub fn checked_units_are_written()
    ensures { AreWritten checked }
{}

/// Lists at the edges of the rules.
pub fn edges_of_lists_are_written()
    ensures { AreWritten edges_of_lists }
{}

/// Emphasis and its like at the edges of the rules.
pub fn edges_of_delimiters_are_written()
    ensures { AreWritten edges_of_delimiters }
{}

/// Links, images, labels and texts at the edges of the rules.
pub fn edges_of_links_are_written()
    ensures { AreWritten edges_of_links }
{}

/// Other blocks at the edges of the rules.
pub fn edges_of_blocks_are_written()
    ensures { AreWritten edges_of_blocks }
{}

/// Paragraphs in single manners.
pub fn manners_are_spelt()
    ensures { AreSpelt manners }
{}

/// Rules of gaps and open containers, as they show in what is written.
pub fn rules_of_gaps_are_written()
    ensures { AreWritten rules_of_gaps }
{}

/// Rules of escapes, destinations, titles and inline leaves, as they show in what is written.
pub fn rules_of_texts_are_written()
    ensures { AreWritten rules_of_texts }
{}

/// Rules of openings and closings of blocks, as they show in what is written.
pub fn rules_of_blocks_are_written()
    ensures { AreWritten rules_of_blocks }
{}

/// Rules of delimiters, as they show in single manners.
pub fn rules_of_manners_are_spelt()
    ensures { AreSpelt rules_of_manners }
{}

/// Trees for which there is no spelling.
pub fn misplaced_trees_are_refused()
    ensures { AreRefused refusals }
{}

/// Letters, numbers and punctuation past ASCII, beside markers.
pub fn rules_of_letters_are_written()
    ensures { AreWritten rules_of_letters }
{}
