//! A law of definitions of links.

ghost use Rattle.tocmark_block_laws.specs.Short.{DefinitionsAreShort};

/// Of every text, the destinations and titles of the declared definitions have fewer than 2^64 - 2 bytes.
///
/// So labels lead to what these definitions are declared to say, by `definitions_lead_as_declared` of `tocmark_inline_laws`.
pub fn definitions_are_short()
    ensures { DefinitionsAreShort }
{}
