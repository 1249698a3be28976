//! The flags of a parser.

ghost use Rattle.std.specs.Prelude.{⊤, ◌≡◌, ◌==◌, [], ◌∷◌, bit_and, bit_or, codes};
ghost use Rattle.tocmark_event.specs.Flags.{named_flags, union_of, without};

use bitflags::{Flag, Flags, bitflag_items};

/// Which extensions a parser reads: a set of flags, `ENABLE_TABLES | ENABLE_MATH` for example.
#[derive(Clone, Copy, Debug, PartialEq, Eq)]
pub struct ParserOptions(pub u32);

bitflag_items! {
    impl ParserOptions: u32 {
        /// Tables.
        const ENABLE_TABLES = 1 << 1;
        /// Footnotes.
        const ENABLE_FOOTNOTES = 1 << 2;
        /// `~~text~~`.
        const ENABLE_STRIKETHROUGH = 1 << 3;
        /// Items of lists with a box.
        const ENABLE_TASKLISTS = 1 << 4;
        /// Quotes, dashes and dots as typographic ones.
        const ENABLE_SMART_PUNCTUATION = 1 << 5;
        /// `# text {#id .class key=value}`.
        const ENABLE_HEADING_ATTRIBUTES = 1 << 6;
        /// Metadata between lines of `---`.
        const ENABLE_YAML_STYLE_METADATA_BLOCKS = 1 << 7;
        /// Metadata between lines of `+++`.
        const ENABLE_PLUSES_DELIMITED_METADATA_BLOCKS = 1 << 8;
        /// Footnotes of an older syntax, with the flag of footnotes.
        const ENABLE_OLD_FOOTNOTES = (1 << 9) | (1 << 2);
        /// `$text$` and `$$text$$`.
        const ENABLE_MATH = 1 << 10;
        /// Block quotes of a kind, as `[!NOTE]` names it.
        const ENABLE_GFM = 1 << 11;
        /// Definition lists.
        const ENABLE_DEFINITION_LIST = 1 << 12;
        /// `^text^`.
        const ENABLE_SUPERSCRIPT = 1 << 13;
        /// `~text~`.
        const ENABLE_SUBSCRIPT = 1 << 14;
        /// `[[page]]`.
        const ENABLE_WIKILINKS = 1 << 15;
    }
}

impl ParserOptions {
    /// No flag.
    pub fn empty() -> ParserOptions
        ensures { result ≡ record { 0 = 0 } }
    {
        ParserOptions(0)
    }

    /// Every flag that has a name.
    pub fn all() -> ParserOptions
        ensures { result ≡ record { 0 = union_of named_flags } }
    {
        <ParserOptions as Flags>::all()
    }

    /// The set as a number, with a bit for each flag.
    pub fn bits(&self) -> u32
        ensures { result ≡ self.now.0 }
    {
        self.0
    }

    /// The flags with these bits, those without a name among them.
    pub fn from_bits_retain(bits: u32) -> ParserOptions
        ensures { result ≡ record { 0 = bits } }
    {
        ParserOptions(bits)
    }

    /// Whether all of the other flags are among these.
    pub fn contains(&self, other: ParserOptions) -> bool
        ensures { result ≡ (bit_and self.now.0 other.0 == other.0) }
    {
        self.0 & other.0 == other.0
    }

    /// Adds the other flags.
    pub fn insert(&mut self, other: ParserOptions)
        ensures { self.new ≡ record { 0 = bit_or self.old.0 other.0 } }
    {
        self.0 |= other.0;
    }

    /// Takes the other flags away.
    pub fn remove(&mut self, other: ParserOptions)
        ensures { self.new ≡ without self.old other.0 }
    {
        self.0 &= !other.0;
    }

    /// These flags and the other ones: what `|` gives, with a clause.
    pub fn union(self, other: ParserOptions) -> ParserOptions
        ensures { result ≡ record { 0 = bit_or self.0 other.0 } }
    {
        ParserOptions(self.0 | other.0)
    }
}

impl Flags for ParserOptions {
    type Bits = u32;

    ghost exact = { ⊤ };

    ghost table = { (codes "ENABLE_TABLES", 0x2)
        ∷ (codes "ENABLE_FOOTNOTES", 0x4)
        ∷ (codes "ENABLE_STRIKETHROUGH", 0x8)
        ∷ (codes "ENABLE_TASKLISTS", 0x10)
        ∷ (codes "ENABLE_SMART_PUNCTUATION", 0x20)
        ∷ (codes "ENABLE_HEADING_ATTRIBUTES", 0x40)
        ∷ (codes "ENABLE_YAML_STYLE_METADATA_BLOCKS", 0x80)
        ∷ (codes "ENABLE_PLUSES_DELIMITED_METADATA_BLOCKS", 0x100)
        ∷ (codes "ENABLE_OLD_FOOTNOTES", 0x204)
        ∷ (codes "ENABLE_MATH", 0x400)
        ∷ (codes "ENABLE_GFM", 0x800)
        ∷ (codes "ENABLE_DEFINITION_LIST", 0x1000)
        ∷ (codes "ENABLE_SUPERSCRIPT", 0x2000)
        ∷ (codes "ENABLE_SUBSCRIPT", 0x4000)
        ∷ (codes "ENABLE_WIKILINKS", 0x8000)
        ∷ [] };

    ghost set_of = { λ p. p.0 };

    fn flags<'a>() -> &'a [Flag<ParserOptions>] {
        ParserOptions::FLAGS
    }

    fn bits(&self) -> u32 {
        self.0
    }

    fn from_bits_retain(bits: u32) -> ParserOptions {
        ParserOptions(bits)
    }
}
