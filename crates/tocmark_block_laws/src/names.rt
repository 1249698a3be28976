//! A law of the names of character references.

ghost use Rattle.tocmark_block_laws.specs.Named.{NamesChangeNoBlock};

/// The blocks of every text, and its definitions of links, are the same, whichever names of character references are known.
///
/// So laws of the blocks that a reader with four names finds, as `quotes_are_declared`, hold for one with all names, too.
pub fn names_change_no_block()
    ensures { NamesChangeNoBlock }
{}
